// Files with procs that call themselves and one another, with what their runs return. Each was worked out by hand.
use super::{ends_so, joined, runs_so};
use std::alloc::{AllocError, Global};
use std::test::Fail;
use tht_tree::status::Status;

// It calls itself with a number that is one less, down to 0. Five calls.
const DOWN: &str = "tht 1
proc down (n : nat) [] { emp } r : nat { [r = 0] } {
  if n = 0 as h {
    ret n by [hyp h]
  } else {
    a <- call down(n - 1)[] by emp;
    open 1 as k;
    ret a by [hyp k]
  }
}
main r : nat { [r = 0] } {
  z <- call down(4)[] by emp;
  ret z by @1
}
";

// What a body knows is its own again behind the call: 4 + 3 + 2 + 1. Five calls.
const SUM: &str = "tht 1
proc sum (n : nat) [] { emp } r : nat { emp } {
  if n = 0 as h {
    ret 0 by emp
  } else {
    a <- call sum(n - 1)[] by emp;
    ret a + n by emp
  }
}
main r : nat { emp } {
  z <- call sum(4)[] by emp;
  ret z by emp
}
";

// Two calls in one body. The calls for 0 to 5 are 1, 1, 3, 5, 9 and 15.
const FIBONACCI: &str = "tht 1
proc fib (n : nat) [] { emp } r : nat { emp } {
  if n <= 1 as h {
    ret n by emp
  } else {
    a <- call fib(n - 1)[] by emp;
    b <- call fib(n - 2)[] by emp;
    ret a + b by emp
  }
}
main r : nat { emp } {
  z <- call fib(5)[] by emp;
  ret z by emp
}
";

// Arguments change places: (3, 1, 2), (2, 2, 1), (1, 1, 2), (0, 2, 1). Four calls.
const TURNED: &str = "tht 1
proc turn (n : nat, a : nat, b : nat) [] { emp } r : nat { emp } {
  if n = 0 as h {
    ret 10 * a + b by emp
  } else {
    c <- call turn(n - 1, b, a)[] by emp;
    ret c by emp
  }
}
main r : nat { emp } {
  z <- call turn(3, 1, 2)[] by emp;
  ret z by emp
}
";

// A cell on each level, which is read behind the call: 3 + 2 + 1 + 0. Three levels of four events, one of two, and the first call.
const DEEP: &str = "tht 1
proc deep (n : nat) [] { emp } r : nat { emp } {
  x <- alloc (n);
  if n = 0 as h {
    free x at 1 by refl;
    ret 0 by emp
  } else {
    a <- call deep(n - 1)[] by emp;
    b : nat <- read x at 1 as k by refl;
    free x at 1 by refl;
    ret a + b by emp
  }
}
main r : nat { emp } {
  z <- call deep(3)[] by emp;
  ret z by emp
}
";

// A cell goes down with the calls, and its value up by one on each level. Three levels of three events, and four in main.
const COUNTED: &str = "tht 1
proc count (p : loc, n : nat) [v : nat] { p -> v } r : unit { p -> (v + n) } {
  if n < 1 as c {
    rewrite 1 2 to v + n by both lin 1 { 1 [0 <= n] calc } lin 1 { 1 [n < 1] hyp c };
    ret () by @1
  } else {
    a : nat <- read p at 1 as h by refl;
    write p (a + 1) at 1 by refl;
    have m : n - 1 + 1 = n by monus lin 1 { 1 [not (n < 1)] hyp c };
    u <- call count(p, n - 1)[a + 1] by @1;
    rewrite 2 2 to v + n by lin 1 { 1 [n - 1 + 1 = n] hyp m, 1 [a = v] hyp h };
    ret () by @2
  }
}
main r : nat { emp } {
  x <- alloc (20);
  u <- call count(x, 3)[20] by @1;
  a : nat <- read x at 2 as h by refl;
  have k : a = 20 + 3 by hyp h;
  free x at 2 by refl;
  ret a by emp
}
";

// A proc that calls an earlier one twice: 2 * (2 * 3). Three calls, and two events in each of two bodies.
const TWO_PROCS: &str = "tht 1
proc twice (n : nat) [] { emp } r : nat { [r = n + n] } {
  x <- alloc (n);
  free x at 1 by refl;
  ret n + n by [refl]
}
proc four (n : nat) [] { emp } r : nat { [r = n + n + (n + n)] } {
  a <- call twice(n)[] by emp;
  open 1 as h;
  b <- call twice(a)[] by emp;
  open 2 as k;
  ret b by [lin 1 { 1 [b = a + a] hyp k, 2 [a = n + n] hyp h }]
}
main r : nat { [r = 12] } {
  z <- call four(3)[] by emp;
  open 1 as h;
  ret z by [as [z = 3 + 3 + (3 + 3)] hyp h]
}
";

// A `do` in a proc with a parameter, a variable of the logic and a cell.
const BLOCK: &str = "tht 1
proc put (p : loc, n : nat) [v : nat] { p -> v } r : nat { p -> n * [r = v] } {
  z : nat <- do (1) {
    a : nat <- read p at 1 as h by refl;
    write p n at 1 by refl;
    ret a by @1 * [hyp h]
  } { p -> n * [z = v] };
  ret z by @2 * @3
}
main r : nat { emp } {
  x <- alloc (3);
  z <- call put(x, 8)[3] by @1;
  open 3 as h;
  b : nat <- read x at 2 as k by refl;
  free x at 2 by refl;
  ret 10 * z + b by emp
}
";

// A logical variable that is a sequence, by its cases, and a formula by its cases behind the call.
const SEQUENCE: &str = "tht 1
proc long (n : nat) [s : seq] { [len s = n] } r : nat { either [s = nil] or exists m : nat . exists t : seq . [s = m :: t] } {
  open 1 as h;
  case seq s as e {
    ret n by left [hyp e]
  } m t {
    ret n by right ex [m] ex [t] [hyp e]
  }
}
main r : nat { emp } {
  z <- call long(2)[7 :: 8 :: nil] by [calc];
  case 1 {
    open 2 as k;
    ret z by emp
  } {
    open 2 as m : nat;
    open 3 as t : seq;
    open 4 as k;
    have g : 7 = m by head [8 :: nil] [t] hyp k;
    ret z by emp
  }
}
";

// A cell that may be there, by two cases: with `null` and with a cell. An event for each call, one for the cell, and two in a body.
const OPTIONAL: &str = "tht 1
proc take (p : loc) [] { either [p = null] or exists v : nat . p -> v } r : nat { emp } {
  if p = null as c {
    case 1 {
      open 2 as z;
      ret 0 by emp
    } {
      open 2 as v : nat;
      dead neg [p = null] (nonnull 3) hyp c { ret 0 by emp }
    }
  } else {
    case 1 {
      open 2 as z;
      dead neg [p = null] hyp c hyp z {
        k : nat <- read p at 9 as f by refl;
        free p at 9 by refl;
        ret k by emp
      }
    } {
      open 2 as v : nat;
      k : nat <- read p at 3 as f by refl;
      free p at 3 by refl;
      ret k by emp
    }
  }
}
main r : nat { emp } {
  a <- call take(null)[] by left [refl];
  x <- alloc (6);
  b <- call take(x)[] by right ex [6] @1;
  ret 10 * a + b by emp
}
";

// Results of the other sorts: a place, which two procs hand up, nothing, and a truth value.
const PLACES: &str = "tht 1
proc make (n : nat) [] { emp } r : loc { r -> n * r.1 -> n } { x <- alloc (n, n); ret x by @1 * @2 }
proc second (n : nat) [] { emp } r : loc { r -> n } { x <- call make(n)[] by emp; free x at 1 by refl; ret x.1 by @2 }
main r : loc { r -> 5 } {
  x <- call second(4)[] by emp;
  free x at 1 by refl;
  y <- call second(5)[] by emp;
  ret y by @2
}
";

const TRUTH: &str = "tht 1
proc below (m : nat, n : nat) [] { emp } r : bool { [r = (m < n)] } { ret m < n by [refl] }
proc none (u : unit) [] { emp } r : unit { emp } { ret u by emp }
main r : bool { emp } {
  u <- call none(())[] by emp;
  a <- call below(2, 3)[] by emp;
  b <- call below(3, 2)[] by emp;
  open 1 as h;
  open 2 as k;
  ret a and not b and u = () by emp
}
";

// The v that is put in is not the v that the boxes bind, neither as an argument nor as the result.
const BOUND: &str = "tht 1
proc above (n : nat) [] { exists v : nat . [v = n] } r : nat { exists v : nat . [v + 1 = r] * [v = n] } {
  open 1 as w : nat;
  open 2 as h;
  ret n + 1 by ex [n] ([refl] * [refl])
}
main r : nat { emp } {
  v <- call above(3)[] by ex [3] [refl];
  open 1 as w : nat;
  open 2 as f;
  have k : w + 1 = v by hyp f;
  open 3 as g;
  z <- call above(v)[] by ex [v] [refl];
  open 4 as y : nat;
  open 5 as i;
  have m : y + 1 = z by hyp i;
  open 6 as j;
  have n : y = v by hyp j;
  ret z by emp
}
";

// Files, what they return, and their events.
const FILES: &[(&str, &str, &str)] = &[
    (DOWN, "0", "5"),
    (SUM, "10", "5"),
    (FIBONACCI, "5", "15"),
    (TURNED, "21", "4"),
    (DEEP, "6", "15"),
    (COUNTED, "23", "13"),
    (TWO_PROCS, "12", "7"),
    (BLOCK, "38", "6"),
    (SEQUENCE, "2", "1"),
    (OPTIONAL, "6", "5"),
    (PLACES, "@0.3", "9"),
    (TRUTH, "true", "3"),
    (BOUND, "5", "2"),
];

fn file_returns(alloc: Global, row: (&str, &str, &str)) -> Result<bool, AllocError> {
    let (source, value, events) = row;
    let end = joined(alloc, &["done\nresult ", value])?;
    ends_so(alloc, source, Status::Done, end.as_str(), events)
}

#[test]
fn files_with_procs_run(rt: HostRuntime) -> Result<(), Fail> {
    let alloc = rt.alloc();
    for row in FILES {
        assert!(rt; file_returns(alloc, *row)?, "{}", row.0);
    }
    Ok(())
}

// ---- values in brackets

// A cell is counted up, with its old value as a variable of the logic: atoms 3 and 4 come from the postcondition.
const BUMP: &str = "tht 1
proc bump (p : loc) [v : nat] { p -> v } r : nat { p -> (v + 1) * [r = v] } {
  a : nat <- read p at 1 as h by refl;
  write p (a + 1) at 1 by refl;
  rewrite 1 2 to v + 1 by lin 1 { 1 [a = v] hyp h };
  ret a by @1 * [hyp h]
}
main r : nat { [r = 3] } {
  x <- alloc (3);
  y <- alloc (9);
  a <- call bump(x)[";

const BUMPED: &str = "] by @1;
  free x at 3 by refl;
  free y at 2 by refl;
  ret a by @4
}
";

// Two cells change their values, which are two variables of the logic: four events in the body, and six in main.
const SWAP: &str = "tht 1
proc swap (p : loc) [v : nat, w : nat] { p -> v * p.1 -> w } r : unit { p -> w * p.1 -> v } {
  a : nat <- read p at 1 as h by refl;
  b : nat <- read p.1 at 2 as k by refl;
  write p b at 1 by refl;
  write p.1 a at 2 by refl;
  rewrite 1 2 to w by hyp k;
  rewrite 2 2 to v by hyp h;
  ret () by @1 * @2
}
main r : nat { emp } {
  x <- alloc (3, 4);
  u <- call swap(x)[";

const SWAPPED: &str = "] by @1 * @2;
  a : nat <- read x at 3 as h by refl;
  have k : a = 4 by hyp h;
  b : nat <- read x.1 at 4 as m by refl;
  have n : b = 3 by hyp m;
  free x at 3 by refl;
  free x.1 at 4 by refl;
  ret 10 * a + b by emp
}
";

// Other values, and the place and the code of what is refused first.
const OTHER_VALUES: &[(&str, &str, &str, &str)] = &[
    (BUMP, "2", BUMPED, "rule 11:27 R4\n"),
    (BUMP, "2 + 1", BUMPED, "rule 11:31 R4\n"),
    (SWAP, "4, 3", SWAPPED, "rule 13:30 R4\n"),
    (SWAP, "3, 3", SWAPPED, "rule 13:35 R4\n"),
];

fn other_values_are_refused(
    alloc: Global,
    row: (&str, &str, &str, &str),
) -> Result<bool, AllocError> {
    let (before, values, behind, line) = row;
    let source = joined(alloc, &[before, values, behind])?;
    runs_so(alloc, source.as_str(), Status::Rule, line)
}

#[test]
fn values_in_brackets_are_those_of_the_cells(rt: HostRuntime) -> Result<(), Fail> {
    let alloc = rt.alloc();
    let bumped = joined(alloc, &[BUMP, "3", BUMPED])?;
    assert!(rt; ends_so(alloc, bumped.as_str(), Status::Done, "done\nresult 3", "7")?);
    let swapped = joined(alloc, &[SWAP, "3, 4", SWAPPED])?;
    assert!(rt;
        ends_so(
            alloc,
            swapped.as_str(),
            Status::Done,
            "done\nresult 43",
            "10"
        )?
    );
    for row in OTHER_VALUES {
        assert!(rt; other_values_are_refused(alloc, *row)?, "{}", row.1);
    }
    Ok(())
}

// ---- depth

// A proc that calls itself 50,000 times, one in another.
const DEEPEST: &str = "tht 1
proc down (n : nat) [] { emp } r : nat { emp } {
  if n = 0 as h {
    ret 0 by emp
  } else {
    a <- call down(n - 1)[] by emp;
    ret a + 1 by emp
  }
}
main r : nat { emp } {
  z <- call down(50000)[] by emp;
  ret z by emp
}
";

#[test]
fn calls_go_deep(rt: HostRuntime) -> Result<(), Fail> {
    let alloc = rt.alloc();
    let end = "done\nresult 50000";
    assert!(rt; ends_so(alloc, DEEPEST, Status::Done, end, "50001")?);
    Ok(())
}

// So many inner bodies, one in another.
fn inner_bodies(alloc: Global, count: u32) -> Result<String, AllocError> {
    let mut text = String::new(alloc);
    text.push_str("tht 1 main r : nat { emp } { ")?;
    for _ in 0..count {
        text.push_str("z : nat <- do () { ")?;
    }
    text.push_str("ret 7 by emp")?;
    for _ in 0..count {
        text.push_str(" } { emp }; ret z by emp")?;
    }
    text.push_str(" }")?;
    Ok(text)
}

// So many ends with two bodies, one in the first body of another.
fn inner_ends(alloc: Global, count: u32) -> Result<String, AllocError> {
    let mut text = String::new(alloc);
    text.push_str("tht 1 main r : nat { emp } { ")?;
    for i in 0..count {
        write!(text, "if {i} = {i} as h{i} {{ ")?;
    }
    text.push_str("ret 7 by emp")?;
    for _ in 0..count {
        text.push_str(" } else { ret 8 by emp }")?;
    }
    text.push_str(" }")?;
    Ok(text)
}

// A hundred constructs may be open: main's body, the others in it, and the term that the innermost returns.
#[test]
fn bodies_stand_98_in_one_another(rt: HostRuntime) -> Result<(), Fail> {
    let alloc = rt.alloc();
    let end = "done\nresult 7";
    let bodies = inner_bodies(alloc, 98)?;
    assert!(rt; ends_so(alloc, bodies.as_str(), Status::Done, end, "0")?);
    let ends = inner_ends(alloc, 98)?;
    assert!(rt; ends_so(alloc, ends.as_str(), Status::Done, end, "0")?);
    Ok(())
}
