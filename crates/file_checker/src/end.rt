// Why a file is not accepted.
use tht_tree::rule::RuleRefusal;
use tht_tree::walk::WalkRefusal;

/// Why a file is not accepted, or is not known to be.
///
/// A refusal tells the place of a construct, a line and a byte of it from 1, and a code.
#[derive(Clone, Copy, Debug, PartialEq, Eq)]
pub enum CheckEnd {
    /// The first construct whose names or sorts are not in order.
    Walk(WalkRefusal),
    /// The first construct that a rule refuses, where all names and sorts are in order.
    Rule(RuleRefusal),
    /// Want of memory.
    Memory,
}
