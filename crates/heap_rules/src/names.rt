// Local names.
ghost use Rattle.std.specs.Prelude.{◌≡◌, OnOk, OnErr, IfErr};
ghost use Rattle.tht_tree.specs.Rules.Context.{context_of};
ghost use Rattle.heap_rules.specs.Changes.{named};

use pure_proofs::{Known, Refusal};
use std::alloc::Global;
use tht_tree::plain::Name;
use tht_tree::state::Local;

/// Brings a name into scope. After an `Err`, which is want of memory, nothing has changed.
pub fn bind(alloc: Global, known: &mut Known, name: &Name, local: Local) -> Result<(), Refusal>
    ensures ok { OnOk result (context_of known.new.state ≡ named name.now local (context_of known.old.state)) }
    ensures err { OnErr result (context_of known.new.state ≡ context_of known.old.state) }
    ensures memory { IfErr result (λ e. e ≡ Refusal.Memory) }
{
    let name = String::from_str(alloc, name.as_str())?;
    known.state.scope.insert(name, local)?;
    Ok(())
}
