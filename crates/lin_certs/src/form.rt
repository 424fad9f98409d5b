//! Linear forms.
ghost use Rattle.std.specs.Prelude.{◌≡◌};
ghost use Rattle.lin_certs.specs.Columns.{entry};

use std::vec::Vec;

/// A linear form: a constant and a coefficient for each variable, from the first on. It stands for the inequality "the
/// constant plus the sum of the coefficients times the variables is at most 0".
#[derive(Debug, PartialEq, Eq, Drop)]
pub struct LinForm {
    pub constant: i128,
    pub coeffs: Vec<i128>,
}

impl LinForm {
    /// The coefficient of a variable, 0 beyond the coefficients, or the constant where no variable is named.
    pub(crate) fn entry(&self, variable: Option<usize>) -> i128
        ensures { result ≡ entry variable self.now }
    {
        match variable {
            Some(variable) => self.coeffs.get(variable).copied().unwrap_or(0),
            None => self.constant,
        }
    }
}
