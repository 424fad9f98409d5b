// Files with assertions of all forms but shared cells, predicates, steps and gives. Each expected answer was worked out by hand.
use super::{no_memory, runs_so, words_of};
use std::alloc::{AllocError, Global};
use std::test::Fail;
use tht_front::tht_alone;
use tht_ports::{MemSink, MemSource};
use tht_tree::status::Status;

const PRIVATE: &str = "tht 1
main r : nat { [r = 7] } {
  x <- alloc (3);
  a : nat <- read x at 1 as h by refl;
  write x (a + 4) at 1 by refl;
  b : nat <- read x at 1 as k by refl;
  free x at 1 by refl;
  ret b by [lin 1 { 1 [b = a + 4] hyp k, 1 [a = 3] hyp h }]
}
";

const LEFT: &str = "tht 1
main r : nat { [r = 7] } {
  x <- alloc (3);
  a : nat <- read x at 1 as h by refl;
  write x (a + 4) at 1 by refl;
  b : nat <- read x at 1 as k by refl;
  ret b by [lin 1 { 1 [b = a + 4] hyp k, 1 [a = 3] hyp h }]
}
";

// Files that are accepted, and their reports.
const ACCEPTED: &[(&str, &str)] = &[
    (
        "tht 1\nmain r : nat { [r = 7] } { ret 7 by [calc] }\n",
        "end done\nresult 7\nevents 0\ncost 0\naborts 0\norder\n",
    ),
    (
        PRIVATE,
        "end done\nresult 7\nevents 5\ncost 5\naborts 0\norder\n0*5\n",
    ),
    // what main returns may have cells
    (
        "tht 1\nmain r : loc { exists n : nat . r -> n } {\nx <- alloc (5);\nret x by ex [5] @1 }",
        "end done\nresult @0.0\nevents 1\ncost 1\naborts 0\norder\n0\n",
    ),
    (
        "tht 1\nmain r : nat { either [r = 7] or ([r = 8] * emp) } { ret 8 by right ([calc] * emp) }",
        "end done\nresult 8\nevents 0\ncost 0\naborts 0\norder\n",
    ),
    // a fold takes its cell, and an unfold brings one with the next number
    (
        "tht 1\npred cell (x : loc, n : nat) = x -> n;\nmain r : nat { emp } {\nx <- alloc (3, 4);\nfold cell(x, 3) by @1;\nunfold 3;\na : nat <- read x at 4 as h by refl;\nfree x at 4 by refl;\nfree x.1 at 2 by refl;\nret a by emp }",
        "end done\nresult 3\nevents 4\ncost 4\naborts 0\norder\n0*4\n",
    ),
    // what is opened is known, and no step of a run
    (
        "tht 1\npred big (x : loc) = exists n : nat . x -> n * [5 <= n];\nmain r : bool { [r = true] } {\nx <- alloc (7);\nfold big(x) by ex [7] (@1 * [calc]);\nunfold 2;\nopen 3 as m : nat;\nopen 5 as g;\na : nat <- read x at 4 as h by refl;\nfree x at 4 by refl;\nret true by [calc] }",
        "end done\nresult true\nevents 3\ncost 3\naborts 0\norder\n0*3\n",
    ),
    (
        "tht 1\nmain r : nat { emp } {\nx <- alloc (3);\na : nat <- read x at 1 as h by refl;\nrewrite 1 2 to a by sym hyp h;\nfree x at 1 by refl;\nret a by emp }",
        "end done\nresult 3\nevents 3\ncost 3\naborts 0\norder\n0*3\n",
    ),
];

// Files with the place and the code of what the rules refuse first. What stands at a place of its own begins a line.
const REFUSED: &[(&str, &str)] = &[
    (LEFT, "rule 7:3 R3\n"),
    (
        "tht 1\nmain r : nat { [r = 7] } { ret 7 by [todo] }\n",
        "rule 2:38 R9\n",
    ),
    (
        "tht 1\nmain r : nat { [r = 7] } { ret 8 by [calc] }\n",
        "rule 2:38 R8\n",
    ),
    (
        "tht 1\nmain r : nat { null -> 0 } { ret 0 by\n@1 }",
        "rule 3:1 R1\n",
    ),
    (
        "tht 1\nmain r : nat { [r = 7] } { ret 7 by\nemp }",
        "rule 3:1 R4\n",
    ),
    (
        "tht 1\nmain r : nat { exists x : loc . x -> 1 } {\nx <- alloc (2);\nret 0 by ex [x]\n@1 }",
        "rule 5:1 R4\n",
    ),
    (
        "tht 1\nmain r : nat { exists x : loc . x -> 1 * x -> 1 } {\nx <- alloc (1);\nret 0 by ex [x] (@1 *\n@1) }",
        "rule 5:1 R1\n",
    ),
    (
        "tht 1\nmain r : nat { either [r = 7] or [r = 8] } { ret 7 by right [\ncalc] }",
        "rule 3:1 R8\n",
    ),
    (
        "tht 1\nmain r : nat { exists n : nat . [n = 1] } { ret 1 by\nex [true] [calc] }",
        "rule 3:1 R4\n",
    ),
    (
        "tht 1\nmain r : nat { emp } {\nx <- alloc (1);\nunfold 1;\nret 0 by emp }",
        "rule 4:1 R2\n",
    ),
    (
        "tht 1\npred p () = emp;\nmain r : nat { emp } {\nfold p() by emp;\nret 0 by emp }",
        "rule 5:1 R3\n",
    ),
    (
        "tht 1\nmain r : nat { emp } {\nx <- alloc (1, 2);\nfree x at 1 by refl;\nret 0 by emp }",
        "rule 5:1 R3\n",
    ),
    (
        "tht 1\nmain r : nat { emp } {\nx <- alloc (1, 2);\nfree x.1 at 1 by\nrefl;\nret 0 by emp }",
        "rule 5:1 R5\n",
    ),
];

#[test]
fn files_with_assertions_are_accepted(rt: HostRuntime) -> Result<(), Fail> {
    let alloc = rt.alloc();
    for row in ACCEPTED {
        let (source, report) = *row;
        assert!(rt; runs_so(alloc, source, Status::Done, report)?);
    }
    Ok(())
}

#[test]
fn files_with_assertions_are_refused_at_their_places(rt: HostRuntime) -> Result<(), Fail> {
    let alloc = rt.alloc();
    for row in REFUSED {
        let (source, line) = *row;
        assert!(rt; runs_so(alloc, source, Status::Rule, line)?);
    }
    Ok(())
}

// Cells of one `alloc` lie side by side, in the order of their values, and those of the next one behind them.
const THREE: &str = "tht 1
main r : loc { emp } {
  x <- alloc (1, true, null);
  y <- alloc (x.1);
  b : bool <- read x.1 at 2 as g by refl;
  l : loc <- read x.2 at 3 as h by refl;
  z : loc <- read y at 4 as k by refl;
  c : bool <- read z at 2 as m by hyp k;
  free x at 1 by refl;
  free x.1 at 2 by refl;
  free x.2 at 3 by refl;
  free y at 4 by refl;
  ret z by emp
}
";

const EIGHT: &str = "tht 1
main r : nat { emp } {
  x <- alloc (10, 11, 12, 13, 14, 15, 16, 17);
  a : nat <- read x at 1 as g by refl;
  b : nat <- read x.7 at 8 as h by refl;
  free x at 1 by refl; free x.1 at 2 by refl; free x.2 at 3 by refl; free x.3 at 4 by refl;
  free x.4 at 5 by refl; free x.5 at 6 by refl; free x.6 at 7 by refl; free x.7 at 8 by refl;
  ret a * b by emp
}
";

#[test]
fn cells_of_one_alloc_lie_side_by_side(rt: HostRuntime) -> Result<(), Fail> {
    let alloc = rt.alloc();
    let place = "end done\nresult @0.1\nevents 10\ncost 10\naborts 0\norder\n0*10\n";
    assert!(rt; runs_so(alloc, THREE, Status::Done, place)?);
    let product = "end done\nresult 170\nevents 11\ncost 11\naborts 0\norder\n0*11\n";
    assert!(rt; runs_so(alloc, EIGHT, Status::Done, product)?);
    Ok(())
}

// The last value of the second `alloc` does not fit: the run ends before it.
const LAST_IS_BIG: &str = "tht 1
main r : nat { emp } {
  x <- alloc (1);
  y <- alloc (2, 18446744073709551615 + 1);
  free x at 1 by refl;
  free y at 2 by refl;
  free y.1 at 3 by refl;
  ret 0 by emp
}
";

#[test]
fn an_alloc_with_a_big_value_is_big(rt: HostRuntime) -> Result<(), Fail> {
    let alloc = rt.alloc();
    let big = "end big 0\nevents 1\ncost 1\naborts 0\norder\n0\n";
    assert!(rt; runs_so(alloc, LAST_IS_BIG, Status::Big, big)?);
    Ok(())
}

// Whether a run of the file ends so and writes this, where this pull and this push fail.
fn fails_so(
    alloc: Global,
    pulls: Vec<u32>,
    pushes: Vec<u32>,
    status: Status,
) -> Result<bool, AllocError> {
    let words = words_of(alloc, &["run", "--workers", "1"])?;
    let mut source = MemSource::new(PRIVATE.as_bytes().to_vec(alloc)?, pulls);
    let mut sink = MemSink::new(alloc, 100, pushes).map_err(no_memory)?;
    let ended = tht_alone(alloc, &words, &mut source, &mut sink);
    Ok(ended == status && sink.bytes() == b"".as_slice())
}

#[test]
fn failed_pulls_and_pushes_are_told(rt: HostRuntime) -> Result<(), Fail> {
    let alloc = rt.alloc();
    for pull in 1..=2 {
        let pulls = [pull].to_vec(alloc)?;
        assert!(rt; fails_so(alloc, pulls, Vec::new(alloc), Status::ReadFault)?);
    }
    let pushes = [1].to_vec(alloc)?;
    assert!(rt; fails_so(alloc, Vec::new(alloc), pushes, Status::WriteFault)?);
    Ok(())
}
