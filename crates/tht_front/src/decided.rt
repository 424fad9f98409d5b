// A status and its output, before the output is written.
ghost use Rattle.std.specs.Prelude.{IsTrue};
ghost use Rattle.tht_front.specs.Decided.{is_decided};

use tht_tree::status::Status;

/// A status that words and input decide, and the whole output that goes with it.
#[derive(Drop)]
pub struct Answer {
    pub status: Status,
    pub output: Vec<u8>,
    ghost decided: { IsTrue (is_decided status) },
}
