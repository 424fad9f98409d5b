//! Whether forms, added up by multipliers, leave a positive constant and nothing else.
ghost use Rattle.std.specs.Prelude.{◌≡◌, ◌↔◌, ℕ, ℤ, ◌<◌, ◌≤◌, length, Option, MatchOption};
ghost use Rattle.lin_certs.specs.LinForm.{width as width_of, HaveOneWidth, IsInfeasible};
ghost use Rattle.lin_certs.specs.LinSaid.{Cancels, FailsFirstAt, IsFirstWide, IsNarrow, IsRefutation};

use crate::column::{column_sum, narrow_len};
use crate::form::LinForm;

/// What `lin_check` says of some forms and their multipliers.
#[derive(Clone, Copy, Debug, PartialEq, Eq)]
pub enum LinSaid {
    /// The form at this index, from 0 on, is the first at which something leaves `i128`: the product of its multiplier and
    /// its constant or a coefficient, or the sum of these products up to it in one column.
    Wide { index: u64 },
    /// All variables cancel out, and the constants add up to at least 1: no whole numbers make every form with
    /// a positive multiplier at most 0.
    Refutes,
    /// The first variable, from 0 on, that does not cancel out, with the sum of its coefficients; or no variable, where all
    /// cancel out, and the sum of the constants, which is below 1.
    Not { variable: Option<u64>, sum: i128 },
}

/// How many coefficients each form has.
fn width(forms: &[LinForm]) -> usize
    ensures { result ≡ width_of forms.now }
{
    forms.first().map_or(0, |form| form.coeffs.len())
}

/// How many forms at the front leave every column within i128.
fn narrow_front(forms: &[LinForm], by: &[u64]) -> usize
    requires paired { length forms.now ≡ length by.now }
    requires aligned { HaveOneWidth forms.now }
    ensures narrow { length forms.now ≤ result → IsNarrow forms.now by.now }
    ensures wide { result < length forms.now → IsFirstWide forms.now by.now result }
{
    let mut narrow = narrow_len(forms, by, None);
    for variable in 0..width(forms) {
        narrow = narrow.min(narrow_len(forms, by, Some(variable)));
    }
    narrow
}

/// The first variable that does not cancel out, with the sum of its coefficients.
fn first_nonzero(forms: &[LinForm], by: &[u64]) -> Option<(usize, i128)>
    requires paired { length forms.now ≡ length by.now }
    requires aligned { HaveOneWidth forms.now }
    requires narrow { IsNarrow forms.now by.now }
    ensures { MatchOption result ((k : ℕ) → Cancels forms.now by.now k) (λ r. FailsFirstAt forms.now by.now (Some r.0) r.1) }
{
    for variable in 0..width(forms) {
        let sum = column_sum(forms, by, Some(variable));
        if sum != 0 {
            return Some((variable, sum));
        }
    }
    None
}

/// Whether the forms, each times its multiplier, add up to a positive constant: then they cannot all be at most 0.
///
/// Each form has one multiplier, and all forms have as many coefficients as each other. A form whose multiplier is 0 plays no
/// part. The answer is exact for all numbers. It takes no memory, and reads each constant and coefficient at most twice.
pub fn lin_check(forms: &[LinForm], by: &[u64]) -> LinSaid
    requires paired { length forms.now ≡ length by.now }
    requires aligned { HaveOneWidth forms.now }

    ensures wide { (index : ℕ) → (result ≡ LinSaid.Wide index) ↔ IsFirstWide forms.now by.now index }
    ensures refutes { (result ≡ LinSaid.Refutes) ↔ IsRefutation forms.now by.now }
    ensures not { (variable : Option ℕ) (sum : ℤ) →
        (result ≡ LinSaid.Not variable sum) ↔ (IsNarrow forms.now by.now × FailsFirstAt forms.now by.now variable sum) }

    ensures sound { result ≡ LinSaid.Refutes → IsInfeasible forms.now by.now }
{
    let narrow = narrow_front(forms, by);
    if narrow < forms.len() {
        return LinSaid::Wide {
            index: narrow as u64,
        };
    }
    if let Some((variable, sum)) = first_nonzero(forms, by) {
        return LinSaid::Not {
            variable: Some(variable as u64),
            sum,
        };
    }
    let sum = column_sum(forms, by, None);
    if sum < 1 {
        return LinSaid::Not {
            variable: None,
            sum,
        };
    }
    LinSaid::Refutes
}
