// Sources that the tests read, and what is refused of them.
use hoare_rules::Refusal;
use std::alloc::{AllocError, Global};
use tht_parse::parse;
use tht_tree::file::Source1;
use tht_tree::rule::RuleCode;

/// The line and the column of what is refused, and why.
pub(crate) type Refused = (u32, u32, RuleCode);

pub(crate) fn no_memory<E: Drop>(_: E) -> AllocError {
    AllocError
}

pub(crate) fn parsed(alloc: Global, text: &str) -> Result<Source1, AllocError> {
    if text.len() > 1_048_576 {
        return Err(AllocError);
    }
    parse(alloc, text.as_bytes()).map_err(no_memory)
}

/// What was refused, if anything.
pub(crate) fn refused(said: Result<(), Refusal>) -> Result<Option<Refused>, AllocError> {
    match said {
        Ok(()) => Ok(None),
        Err(Refusal::Rule(refusal)) => {
            let spot = refusal.spot;
            Ok(Some((spot.line, spot.column, refusal.code)))
        }
        Err(Refusal::Memory) => Err(AllocError),
    }
}
