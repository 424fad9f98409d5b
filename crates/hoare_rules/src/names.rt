// Local names in scope.
ghost use Rattle.std.specs.Prelude.{◌≡◌, OnOk, IfErr};
ghost use Rattle.tht_tree.specs.Rules.Context.{with_local};
ghost use Rattle.pure_terms.specs.Locals.{locals_of};

use pure_proofs::Refusal;
use pure_terms::Scope;
use std::alloc::Global;
use tht_tree::plain::Name;
use tht_tree::state::Local;

/// Brings a name into scope.
pub(crate) fn bind(
    alloc: Global,
    scope: &mut Scope,
    name: &Name,
    local: Local,
) -> Result<(), Refusal>
    ensures ok { OnOk result (locals_of scope.new ≡ with_local (locals_of scope.old) name.now local) }
    ensures memory { IfErr result (λ e. e ≡ Refusal.Memory) }
{
    let name = String::from_str(alloc, name.as_str())?;
    scope.insert(name, local)?;
    Ok(())
}
