//! What the rules refuse.
ghost use Rattle.std.specs.Prelude.{◌≡◌, Ok};
ghost use Rattle.tht_tree.specs.Rules.Refusals.{refuse as refusal_at, needs};

use tht_tree::plain::{Memory, Spot};
use tht_tree::rule::{RuleCode, RuleRefusal};

/// What is refused first in a proof, if anything.
pub(crate) type Verdict = Result<Option<RuleRefusal>, Memory>;

/// Refuses the construct at this spot.
pub(crate) fn refuse(spot: Spot, code: RuleCode) -> Verdict
    ensures { result ≡ Ok (refusal_at spot code) }
{
    Ok(Some(RuleRefusal { spot, code }))
}

/// What is refused where something is needed that may not hold.
pub(crate) fn need(spot: Spot, code: RuleCode, holds: bool) -> Option<RuleRefusal>
    ensures { result ≡ needs spot code holds }
{
    if holds {
        None
    } else {
        Some(RuleRefusal { spot, code })
    }
}
