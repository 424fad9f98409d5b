// The words of the commands, `check`, and the budget of steps. What is expected was worked out by hand.
use super::{FIRST, answers_so, no_memory, report_with, words_of};
use std::alloc::{AllocError, Global};
use std::test::Fail;
use tht_front::tht_alone;
use tht_ports::{MemSink, MemSource};
use tht_tree::status::Status;

// Four events: a cell is made and read, its value goes into a call, and the cell is freed.
const FOUR: &str = "tht 1
proc up (n : nat) [] { emp } r : nat { [r = n + 1] } { ret n + 1 by [refl] }
main r : nat { emp } {
  x <- alloc (3);
  a : nat <- read x at 1 as h by refl;
  b <- call up(a)[] by emp;
  open 2 as k;
  free x at 1 by refl;
  ret b by emp
}
";

// ---- words

// Words that are accepted: the run ends after its four events.
const ACCEPTED: &[&[&str]] = &[
    &["run", "--workers", "1"],
    &["run", "--workers", "1", "--steps", "4"],
    &["run", "--steps", "4", "--workers", "1"],
    &["run", "--workers", "1", "--steps", "5"],
    &["run", "--workers", "1", "--steps", "100000"],
    &["run", "--steps", "1000000", "--workers", "1"],
];

fn are_accepted(alloc: Global, words: &[&str]) -> Result<bool, AllocError> {
    let report = report_with(alloc, "done\nresult 4", "4")?;
    answers_so(alloc, words, FOUR, Status::Done, report.as_str())
}

#[test]
fn options_stand_in_any_order(rt: HostRuntime) -> Result<(), Fail> {
    let alloc = rt.alloc();
    for words in ACCEPTED {
        assert!(rt; are_accepted(alloc, *words)?);
    }
    Ok(())
}

// Words that no command has.
const OTHER_WORDS: &[&[&str]] = &[
    &[],
    &[""],
    &["Run", "--workers", "1"],
    &["--workers", "1", "run"],
    &["replay"],
    &["try"],
    &["gen", "bank", "1"],
    &["demo", "1"],
    &["--help"],
    &["--version"],
    &["run", "--help"],
    &["check", "check"],
    &["check", "--steps", "4"],
    &["print", "--workers", "1"],
];

// Options of `run` that are not accepted: the number of workers is to be given, and is 1.
const OTHER_WORKERS: &[&[&str]] = &[
    &["run"],
    &["run", "--steps", "4"],
    &["run", "--workers"],
    &["run", "1", "--workers"],
    &["run", "--workers", "0"],
    &["run", "--workers", "2"],
    &["run", "--workers", "4"],
    &["run", "--workers", "01"],
    &["run", "--workers", "+1"],
    &["run", "--workers", "one"],
    &["run", "--workers", "1", "--workers", "1"],
    &["run", "--workers", "1", "--log"],
    &["run", "--Workers", "1"],
    &["run", "--workers=1"],
];

// The number of steps is from 1 to 1,000,000, in decimal.
const OTHER_STEPS: &[&[&str]] = &[
    &["run", "--workers", "1", "--steps", "0"],
    &["run", "--workers", "1", "--steps", "1000001"],
    &["run", "--workers", "1", "--steps", "4294967297"],
    &["run", "--workers", "1", "--steps", "18446744073709551617"],
    &["run", "--workers", "1", "--steps", "007"],
    &["run", "--steps", "007", "--workers", "1"],
    &["run", "--workers", "1", "--steps", "04"],
    &["run", "--workers", "1", "--steps", "+4"],
    &["run", "--workers", "1", "--steps", "-4"],
    &["run", "--workers", "1", "--steps", " 4"],
    &["run", "--workers", "1", "--steps", "4 "],
    &["run", "--workers", "1", "--steps", ""],
    &["run", "--workers", "1", "--steps"],
    &["run", "--workers", "1", "--steps", "4", "--steps", "4"],
    &["run", "--steps", "4", "--workers", "1", "--steps", "5"],
];

// Whether the words are refused before anything is read: the first pull would fail.
fn are_refused(alloc: Global, words: &[&str]) -> Result<bool, AllocError> {
    let words = words_of(alloc, words)?;
    let mut source = MemSource::new(FIRST.to_vec(alloc)?, [1].to_vec(alloc)?);
    let mut sink = MemSink::new(alloc, 100, Vec::new(alloc)).map_err(no_memory)?;
    let ended = tht_alone(alloc, &words, &mut source, &mut sink);
    Ok(ended == Status::Words && sink.bytes() == b"words\n".as_slice())
}

#[test]
fn other_words_are_refused(rt: HostRuntime) -> Result<(), Fail> {
    for words in OTHER_WORDS {
        assert!(rt; are_refused(rt.alloc(), *words)?);
    }
    Ok(())
}

#[test]
fn other_workers_are_refused(rt: HostRuntime) -> Result<(), Fail> {
    for words in OTHER_WORKERS {
        assert!(rt; are_refused(rt.alloc(), *words)?);
    }
    Ok(())
}

#[test]
fn other_steps_are_refused(rt: HostRuntime) -> Result<(), Fail> {
    for words in OTHER_STEPS {
        assert!(rt; are_refused(rt.alloc(), *words)?);
    }
    Ok(())
}

// ---- check

// A proc without an end, which is called.
const SPIN: &str = "tht 1
proc spin (n : nat) [] { emp } r : nat { emp } {
  x <- call spin(n)[] by emp;
  ret x by emp
}
main r : nat { emp } {
  x <- call spin(0)[] by emp;
  ret x by emp
}
";

// Files that `check` accepts: it runs none of them.
const CHECKED: &[&str] = &[
    FOUR,
    SPIN,
    "tht 1 main r : nat { [r = 7] } { ret 7 by [calc] }",
    "tht 1 main r : nat { emp } { ret 18446744073709551615 + 1 by emp }",
    "tht 1 main r : nat { emp } { if 18446744073709551615 + 1 = 0 as h { ret 1 by emp } else { ret 2 by emp } }",
    "tht 1 pred p () = emp; main r : loc { p() * r -> true } { x <- alloc (true); fold p() by emp; ret x by @2 * @1 }",
];

// Files that it refuses, with the line that says why.
const NOT_CHECKED: &[(&str, &str)] = &[
    (
        "tht 1\nmain r : unit { emp } { x <- alloc (true); a : nat <- read x at 1 as h by refl; free x at 1 by refl; ret () by emp }\n",
        "rule 2:44 R2\n",
    ),
    (
        "tht 1 main r : nat { [r = 7] } { ret 7 by [todo] }",
        "rule 1:44 R9\n",
    ),
    (
        "tht 1\nproc f () [] { emp } r : nat { emp } { ret 0 by @1 }\nmain r : nat { emp } { ret 0 by @2 }",
        "rule 2:49 R1\n",
    ),
    (
        "tht 1\nproc f () [] { emp } r : nat { emp } { ret 0 by emp }\nmain r : nat { emp } {\nx <- call f()[] by\n@1;\nret x by emp }",
        "rule 5:1 R1\n",
    ),
    (
        "tht 1\nmain r : nat { emp } {\nx <- alloc (1);\nret 0 by emp }",
        "rule 4:1 R3\n",
    ),
    (
        "tht 1\nmain r : nat { emp } {\ncase [true] as h { ret 0 by emp } { ret 1 by emp } }",
        "rule 3:1 R11\n",
    ),
];

// The same of what comes before rules.
const NOT_IN_ORDER: &[(&str, Status, &str)] = &[
    ("", Status::Text, "text 1:1 unexpected\n"),
    ("tht 1\ninvariant", Status::Text, "text 2:10 unexpected\n"),
    ("tht 2\n%", Status::Text, "text 2:1 byte\n"),
    (
        "tht 1 main r : nat { emp } { ret x by emp }",
        Status::NamesOrSorts,
        "names 1:30 N1\n",
    ),
    (
        "tht 1 main r : nat { emp } { ret true by emp }",
        Status::NamesOrSorts,
        "sorts 1:30 S1\n",
    ),
    (
        "tht 1\nproc f () [] { emp } r : nat { emp } { ret 0 by @1 }\nmain r : nat { emp } {\nz <- call f(0)[] by emp;\nret z by emp }",
        Status::NamesOrSorts,
        "names 4:1 N4\n",
    ),
];

fn checks_so(
    alloc: Global,
    source: &str,
    status: Status,
    output: &str,
) -> Result<bool, AllocError> {
    answers_so(alloc, &["check"], source, status, output)
}

#[test]
fn files_are_accepted(rt: HostRuntime) -> Result<(), Fail> {
    let alloc = rt.alloc();
    for source in CHECKED {
        assert!(rt;
            checks_so(alloc, *source, Status::Done, "accepted\n")?,
            "{}",
            *source
        );
    }
    Ok(())
}

#[test]
fn files_are_refused_by_rules(rt: HostRuntime) -> Result<(), Fail> {
    let alloc = rt.alloc();
    for row in NOT_CHECKED {
        assert!(rt; checks_so(alloc, row.0, Status::Rule, row.1)?, "{}", row.0);
    }
    Ok(())
}

#[test]
fn files_are_refused_before_rules(rt: HostRuntime) -> Result<(), Fail> {
    let alloc = rt.alloc();
    for row in NOT_IN_ORDER {
        assert!(rt; checks_so(alloc, row.0, row.1, row.2)?, "{}", row.0);
    }
    Ok(())
}

#[test]
fn check_reads_no_more_than_a_source(rt: HostRuntime) -> Result<(), Fail> {
    let alloc = rt.alloc();
    let words = words_of(alloc, &["check"])?;
    let mut source = MemSource::new(vec![in alloc; b' '; 1_048_577]?, Vec::new(alloc));
    let mut sink = MemSink::new(alloc, 100, Vec::new(alloc)).map_err(no_memory)?;
    assert_eq!(rt;
        tht_alone(alloc, &words, &mut source, &mut sink),
        Status::TooLong
    );
    assert_eq!(rt; sink.bytes(), b"too long\n".as_slice());
    Ok(())
}

// Whether `check` ends so and writes nothing, where this pull and this push fail.
fn fails_so(
    alloc: Global,
    pulls: Vec<u32>,
    pushes: Vec<u32>,
    status: Status,
) -> Result<bool, AllocError> {
    let words = words_of(alloc, &["check"])?;
    let mut source = MemSource::new(FOUR.as_bytes().to_vec(alloc)?, pulls);
    let mut sink = MemSink::new(alloc, 100, pushes).map_err(no_memory)?;
    let ended = tht_alone(alloc, &words, &mut source, &mut sink);
    Ok(ended == status && sink.bytes() == b"".as_slice())
}

#[test]
fn check_tells_failed_pulls_and_pushes(rt: HostRuntime) -> Result<(), Fail> {
    let alloc = rt.alloc();
    for pull in 1..=2 {
        let pulls = [pull].to_vec(alloc)?;
        assert!(rt; fails_so(alloc, pulls, Vec::new(alloc), Status::ReadFault)?);
    }
    let pushes = [1].to_vec(alloc)?;
    assert!(rt; fails_so(alloc, Vec::new(alloc), pushes, Status::WriteFault)?);
    Ok(())
}

// ---- the budget of steps

// It calls itself four times, and then ends. Five events.
const DOWN: &str = "tht 1
proc down (n : nat) [] { emp } r : nat { emp } {
  if n = 0 as h {
    ret 7 by emp
  } else {
    a <- call down(n - 1)[] by emp;
    ret a by emp
  }
}
main r : nat { emp } {
  z <- call down(4)[] by emp;
  ret z by emp
}
";

// A `do`, an `if` and a `case` cost nothing. Two events.
const TWO: &str = "tht 1
main r : nat { emp } {
  z : nat <- do () {
    x <- alloc (3);
    free x at 1 by refl;
    ret 5 by emp
  } { emp };
  if z = 5 as h {
    case [true] as k { ret 1 by emp } { ret 1 by emp }
  } else {
    ret 2 by emp
  }
}
";

// Nothing is stepped.
const NONE: &str = "tht 1 main r : nat { emp } { ret 9 by emp }";

// A value to write that does not fit, behind one event; and a result that does not fit, behind two.
const BIG_VALUE: &str = "tht 1
main r : nat { emp } {
  x <- alloc (0);
  write x (18446744073709551615 + 1) at 1 by refl;
  free x at 1 by refl;
  ret 0 by emp
}
";

const BIG_RESULT: &str = "tht 1
main r : nat { emp } {
  x <- alloc (0);
  free x at 1 by refl;
  ret 18446744073709551615 + 1 by emp
}
";

// Files with a budget, and how their runs end: how, and after how many events.
const SPENT: &[(&str, &str, &str)] = &[
    (FOUR, "1", "1"),
    (FOUR, "2", "2"),
    (FOUR, "3", "3"),
    (DOWN, "1", "1"),
    (DOWN, "4", "4"),
    (TWO, "1", "1"),
    (SPIN, "1", "1"),
    (SPIN, "10", "10"),
    (SPIN, "17", "17"),
    // nothing is left for the write, whose value is then not looked at
    (BIG_VALUE, "1", "1"),
    (BIG_RESULT, "1", "1"),
];

// The same where a budget is met exactly, and where it is not.
const MET: &[(&str, &str, &str, &str)] = &[
    (FOUR, "4", "done\nresult 4", "4"),
    (FOUR, "5", "done\nresult 4", "4"),
    (DOWN, "5", "done\nresult 7", "5"),
    (DOWN, "6", "done\nresult 7", "5"),
    (DOWN, "1000000", "done\nresult 7", "5"),
    (TWO, "2", "done\nresult 1", "2"),
    (TWO, "3", "done\nresult 1", "2"),
    (NONE, "1", "done\nresult 9", "0"),
];

// Where a term does not fit: what is returned is looked at with nothing left.
const BIG: &[(&str, &str, &str)] = &[
    (BIG_VALUE, "2", "1"),
    (BIG_VALUE, "1000000", "1"),
    (BIG_RESULT, "2", "2"),
    (BIG_RESULT, "3", "2"),
];

fn ends_within(
    alloc: Global,
    row: (&str, &str, &str, &str),
    status: Status,
) -> Result<bool, AllocError> {
    let (source, steps, end, events) = row;
    let report = report_with(alloc, end, events)?;
    let words = ["run", "--workers", "1", "--steps", steps];
    answers_so(alloc, &words, source, status, report.as_str())
}

#[test]
fn runs_stop_where_the_budget_is_spent(rt: HostRuntime) -> Result<(), Fail> {
    let alloc = rt.alloc();
    for row in SPENT {
        let (source, steps, events) = *row;
        let row = (source, steps, "spent 0", events);
        assert!(rt;
            ends_within(alloc, row, Status::Spent)?,
            "{} {}",
            steps,
            source
        );
    }
    Ok(())
}

#[test]
fn budgets_are_met(rt: HostRuntime) -> Result<(), Fail> {
    let alloc = rt.alloc();
    for row in MET {
        assert!(rt;
            ends_within(alloc, *row, Status::Done)?,
            "{} {}",
            row.1,
            row.0
        );
    }
    Ok(())
}

#[test]
fn terms_that_do_not_fit_end_a_run_within_its_budget(rt: HostRuntime) -> Result<(), Fail> {
    let alloc = rt.alloc();
    for row in BIG {
        let (source, steps, events) = *row;
        let row = (source, steps, "big 0", events);
        assert!(rt;
            ends_within(alloc, row, Status::Big)?,
            "{} {}",
            steps,
            source
        );
    }
    Ok(())
}

#[test]
fn a_run_has_100000_steps_where_none_are_given(rt: HostRuntime) -> Result<(), Fail> {
    let alloc = rt.alloc();
    let report = report_with(alloc, "spent 0", "100000")?;
    let words = ["run", "--workers", "1"];
    assert!(rt; answers_so(alloc, &words, SPIN, Status::Spent, report.as_str())?);
    Ok(())
}
