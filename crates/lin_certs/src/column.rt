//! The columns of some forms: the coefficients of a variable, or the constants where no variable is named.
ghost use Rattle.std.specs.Prelude.{◌≡◌, ℕ, ◌<◌, ◌≤◌, length, pos, ◌+ℤ◌, ◌*ℤ◌, FitsSigned};
ghost use Rattle.std.specs.Int.{w128};
ghost use Rattle.std.specs.Option.{SomeIff};
ghost use Rattle.lin_certs.specs.Columns.{column_sum as column_sum_of, StaysWithin};

use crate::form::LinForm;

/// The sum with the product of a multiplier and an entry, where neither leaves i128.
fn plus_product(sum: i128, multiplier: u64, entry: i128) -> Option<i128>
    ensures { let product = pos multiplier *ℤ entry in
        SomeIff result (FitsSigned w128 product × FitsSigned w128 (sum +ℤ product)) (sum +ℤ product) }
{
    sum.checked_add(i128::from(multiplier).checked_mul(entry)?)
}

/// How many forms at the front leave the column within i128: each product, and each sum of the products so far.
pub fn narrow_len(forms: &[LinForm], by: &[u64], variable: Option<usize>) -> usize
    requires { length forms.now ≡ length by.now }
    ensures within { result ≤ length forms.now }
    ensures before { (i : ℕ) → i < result → StaysWithin variable forms.now by.now i }
    ensures leaves { result < length forms.now → ¬ (StaysWithin variable forms.now by.now result) }
{
    let mut sum: i128 = 0;
    for (index, form) in forms.iter().enumerate() {
        match plus_product(sum, by[index], form.entry(variable)) {
            Some(next) => sum = next,
            None => return index,
        }
    }
    forms.len()
}

/// The sum of a column that stays within i128.
pub fn column_sum(forms: &[LinForm], by: &[u64], variable: Option<usize>) -> i128
    requires paired { length forms.now ≡ length by.now }
    requires narrow { (i : ℕ) → i < length forms.now → StaysWithin variable forms.now by.now i }
    ensures { result ≡ column_sum_of variable forms.now by.now }
{
    let mut sum: i128 = 0;
    for (form, multiplier) in forms.iter().zip(by) {
        sum += i128::from(*multiplier) * form.entry(variable);
    }
    sum
}
