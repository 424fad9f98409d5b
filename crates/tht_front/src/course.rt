// How a run went.
use tht_tree::run::End;

/// How a run went: it ended so after this many steps, or a step was a fault.
#[derive(Clone, Copy, Debug, PartialEq, Eq)]
pub enum Course {
    Ended { end: End, steps: u32 },
    Faulted,
}
