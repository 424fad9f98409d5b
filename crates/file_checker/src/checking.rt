// Whether a file is accepted.
ghost use Rattle.std.specs.Prelude.{◌≡◌, true, OnOk, IfOk, IfErr};
ghost use Rattle.tht_tree.specs.Walk.Files.{WellSorted};
ghost use Rattle.tht_logic.specs.Built.{is_built};
ghost use Rattle.tht_logic.specs.Rules.Files.{IsAccepted};
ghost use Rattle.tht_logic.specs.Soundness.{IsSound};
ghost use Rattle.file_checker.specs.Refusals.{IsFirstRefusal};

use crate::end::CheckEnd;
use crate::rules::file_holds;
use crate::vetted::Vetted;
use hoare_rules::Refusal;
use name_walk::files::{WalkEnd, well_sorted};
use std::alloc::Global;
use tht_tree::file::Source1;

/// Checks a file, all of whose forms must be built. `Ok` holds the file, where it is accepted; else the first refusal is told, and the
/// file is dropped.
///
/// Predicates and procs are found by their names once, and each body is checked once, in the time that `body_holds` takes for it.
#[tactic(auto, using(crate::proofs::Accepting::sorted_of, crate::proofs::Accepting::sound_of))]
pub fn check(alloc: Global, file: Source1) -> Result<Vetted, CheckEnd>
    requires { is_built file ≡ true }
    ensures file { IfOk result (λ v. v.file ≡ file) }
    ensures accepted { OnOk result (IsAccepted file) }
    ensures sound { OnOk result (IsSound file) }
    ensures refused { IfErr result (IsFirstRefusal file) }
{
    is_accepted(alloc, &file)?;
    Ok(Vetted::new(file))
}

// Whether the file is accepted; else its first refusal.
fn is_accepted(alloc: Global, file: &Source1) -> Result<(), CheckEnd>
    requires { is_built file.now ≡ true }
    ensures accepted { OnOk result (IsAccepted file.now) }
    ensures refused { IfErr result (IsFirstRefusal file.now) }
{
    match well_sorted(alloc, file) {
        Ok(()) => keeps_rules(alloc, file),
        Err(WalkEnd::Refused(refusal)) => Err(CheckEnd::Walk(refusal)),
        Err(WalkEnd::Memory) => Err(CheckEnd::Memory),
    }
}

// The same of a file whose names and sorts are in order.
#[tactic(auto, using(crate::proofs::Accepting::accepted))]
fn keeps_rules(alloc: Global, file: &Source1) -> Result<(), CheckEnd>
    requires built { is_built file.now ≡ true }
    requires sorted { WellSorted file.now }
    ensures accepted { OnOk result (IsAccepted file.now) }
    ensures refused { IfErr result (IsFirstRefusal file.now) }
{
    match file_holds(alloc, file) {
        Ok(()) => Ok(()),
        Err(Refusal::Rule(refusal)) => Err(CheckEnd::Rule(refusal)),
        Err(Refusal::Memory) => Err(CheckEnd::Memory),
    }
}
