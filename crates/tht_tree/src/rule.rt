// Refusals of the rules.
use crate::plain::Spot;

/// Why a rule refuses a construct, by the codes that are printed.
#[derive(Clone, Copy, Debug, PartialEq, Eq)]
pub enum RuleCode {
    /// An atom that is not there.
    R1,
    /// An atom of another shape than wanted.
    R2,
    /// Atoms are left.
    R3,
    /// A give that does not fit its goal.
    R4,
    /// A proof that does not fit its goal.
    R5,
    /// A certificate that does not refute.
    R6,
    /// A number that is too wide.
    R7,
    /// Other normal forms than wanted.
    R8,
    /// The proof `todo`.
    R9,
    /// A formula, an assertion or a state that is too large.
    R10,
    /// A case whose bodies are not one program.
    R11,
    /// A lemma in a proof whose boxes are not one formula each.
    R12,
    /// An instance of a predicate that has no case for it.
    R13,
}

/// What a rule refuses: the construct at this place, for this reason.
#[derive(Clone, Copy, Debug, PartialEq, Eq)]
pub struct RuleRefusal {
    pub spot: Spot,
    pub code: RuleCode,
}
