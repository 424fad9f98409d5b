// What the machine says of the statements whose steps are not built yet, worked out by hand.
use crate::plain::is_plain;
use std::alloc::{AllocError, Global};
use std::process::Abort;
use std::test::Fail;
use tagged_interp::{Lab, LabSaid};
use tht_parse::parse;
use tht_tree::plain::Memory;

/// Each makes a cell first, and then has a statement that is not built in front.
const SOURCES: &[&str] = &[
    "tht 1
main r : unit { emp } {
  x <- alloc (0);
  publish x at 1 by refl;
  ret () by emp
}",
    "tht 1
main r : unit { emp } {
  x <- alloc (0);
  retract x at 1 by refl;
  ret () by emp
}",
    "tht 1
main r : unit { emp } {
  x <- alloc (0);
  y : unit <- atomic () { ret () by emp } { emp };
  ret y by emp
}",
    "tht 1
main r : unit { emp } {
  x <- alloc (0);
  (p : unit, q : unit) <- par () { ret () by emp } { emp } () { ret () by emp } { emp };
  ret p by emp
}",
];

/// The machine on a source without declarations that is plain.
fn machine_on(rt: &impl Abort, alloc: Global, source: &str) -> Result<Lab, Memory> {
    let bytes = source.as_bytes();
    assert!(rt; bytes.len() <= 1_048_576);
    let Ok(file) = parse(alloc, bytes) else {
        return Err(Memory);
    };
    if is_plain(&file) {
        Lab::open(alloc, &file)
    } else {
        Err(Memory)
    }
}

/// Whether the machine goes one step, and then says of the next, each time anew, that it is a fault.
fn says_wrong(rt: &impl Abort, alloc: Global, source: &str) -> Result<bool, Memory> {
    let mut lab = machine_on(rt, alloc, source)?;
    let no_budget = lab.step(0, 0)? == LabSaid::Longer;
    let made = lab.step(0, 2)? == LabSaid::Went { cost: 1 };
    let first = lab.step(0, 1)? == LabSaid::Wrong;
    let again = lab.step(0, 1)? == LabSaid::Wrong;
    let other = lab.step(1, 1)? == LabSaid::Cannot;
    Ok(
        no_budget
            && made
            && first
            && again
            && other
            && lab.lowest() == Some(0)
            && lab.value().is_none(),
    )
}

#[test]
fn what_is_not_built_is_a_fault(rt: HostRuntime) -> Result<(), Fail> {
    let alloc = rt.alloc();
    for source in SOURCES {
        assert!(rt; says_wrong(&rt, alloc, source).map_err(no_memory)?);
    }
    Ok(())
}

fn no_memory(_error: Memory) -> AllocError {
    AllocError
}
