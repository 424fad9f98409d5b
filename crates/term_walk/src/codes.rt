//! How refusals go together.
ghost use Rattle.std.specs.Prelude.{◌≡◌};
ghost use Rattle.tht_tree.specs.Walk.Codes.{line_of, construct, first as first_of_two, unless as code_unless};

use std::alloc::AllocError;
use tht_tree::plain::Spot;
use tht_tree::walk::{WalkCode, WalkRefusal};

/// The first refusal in a part of a file, if there is one. An `Err` is want of memory.
pub type Walked = Result<Option<WalkRefusal>, AllocError>;

// A code's line in the table, from 1.
fn line(code: WalkCode) -> u8
    ensures { result ≡ line_of code }
{
    match code {
        WalkCode::N1 => 1,
        WalkCode::N2 => 2,
        WalkCode::N3 => 3,
        WalkCode::N4 => 4,
        WalkCode::N5 => 5,
        WalkCode::N6 => 6,
        WalkCode::N7 => 7,
        WalkCode::S1 => 8,
        WalkCode::S2 => 9,
        WalkCode::S3 => 10,
        WalkCode::S4 => 11,
        WalkCode::S5 => 12,
    }
}

/// Of what two tests of one construct refuse, if anything, the first in the table.
pub fn first(code: Option<WalkCode>, other: Option<WalkCode>) -> Option<WalkCode>
    ensures { result ≡ first_of_two code other }
{
    match (code, other) {
        (None, d) => d,
        (c, None) => c,
        (Some(c), Some(d)) => { if line(c) <= line(d) { Some(c) } else { Some(d) } }
    }
}

/// This code, where what is wanted does not hold.
pub fn unless(holds: bool, code: WalkCode) -> Option<WalkCode>
    ensures { result ≡ code_unless holds code }
{
    if holds { None } else { Some(code) }
}

/// What is refused at this place, if anything.
pub fn at(spot: Spot, code: Option<WalkCode>) -> Option<WalkRefusal>
    ensures { result ≡ construct spot code None }
{
    match code {
        Some(code) => Some(WalkRefusal { spot, code }),
        None => None,
    }
}

/// Refuses the construct at this place.
pub fn refuse(spot: Spot, code: WalkCode) -> Walked
    ensures { result ≡ Ok (Some (record { spot = spot; code = code })) }
{
    Ok(Some(WalkRefusal { spot, code }))
}
