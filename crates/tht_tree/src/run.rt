// How a run ended.
use crate::plain::Value;

/// How a run ended: main has a value, or the next step of this branch costs more than is left, or a term of it does not
/// fit the machine.
#[derive(Clone, Copy, Debug, PartialEq, Eq)]
pub enum End {
    Done(Value),
    Spent(u32),
    Big(u32),
}
