// What the rules refuse, and what else may want.
ghost use Rattle.std.specs.Prelude.{◌≡◌};
ghost use Rattle.tht_logic.specs.Putting.{put_assn_within};
ghost use Rattle.tht_logic.specs.Rules.Checking.{put_or_refused};
ghost use Rattle.heap_rules.specs.Following.{Makes};

use heap_assert::put_in_assn;
use pure_proofs::Refusal;
use pure_terms::Subst;
use std::alloc::Global;
use tht_tree::assn::Assn;
use tht_tree::form::PutEnd;
use tht_tree::plain::Spot;
use tht_tree::rule::{RuleCode, RuleRefusal};

/// The rules refuse the construct at this spot.
pub fn refused(spot: Spot, code: RuleCode) -> Refusal
    ensures { result ≡ Refusal.Rule (record { spot = spot; code = code }) }
{
    Refusal::Rule(RuleRefusal { spot, code })
}

/// The assertion with these put in, for the construct at this spot: refused where it is too large.
pub fn put_within(alloc: Global, spot: Spot, assn: &Assn, by: &Subst) -> Result<Assn, Refusal>
    ensures { Makes result (put_or_refused spot (put_assn_within by.now assn.now)) }
{
    match put_in_assn(alloc, assn, by) {
        Ok(made) => Ok(made),
        Err(PutEnd::Large) => Err(refused(spot, RuleCode::R10)),
        Err(PutEnd::Memory) => Err(Refusal::Memory),
    }
}
