//! The numbers that digits write.
ghost use Rattle.std.specs.Prelude.{◌<◌};
ghost use Rattle.std.specs.Option.{SomeIff};
ghost use Rattle.tht_tree.specs.Values.{number_limit};
ghost use Rattle.tht_tree.specs.Splitting as spec;

/// The number that the digits write, if it is below 2^64.
#[tactic(auto, using(crate::proofs::Digits::number_none, crate::proofs::Digits::number_more, crate::proofs::Digits::number_least))]
pub fn number_of(digits: &[u8]) -> Option<u64>
    ensures { SomeIff result (spec.number_of digits.now < number_limit) (spec.number_of digits.now) }
{
    let mut value: u64 = 0;
    for digit in digits {
        value = value
            .checked_mul(10)?
            .checked_add(u64::from(digit.saturating_sub(b'0')))?;
    }
    Some(value)
}
