// Formulas at the limits and past them. What each answer must be is worked out by hand from the rules.
use super::runs_so;
use std::alloc::{AllocError, Global};
use std::test::Fail;
use tht_tree::status::Status;

const DONE: &str = "end done\nresult 1\nevents 0\ncost 0\naborts 0\norder\n";

fn repeat(text: &mut String, unit: &str, times: u64) -> Result<(), AllocError> {
    for _ in 0..times {
        text.push_str(unit)?;
    }
    Ok(())
}

// A number in seven parentheses with 64 products and 64 sums in each, then 64 products and so many sums: each is a level.
fn nested(text: &mut String, sums: u64) -> Result<(), AllocError> {
    repeat(text, "(", 7)?;
    text.push_str("1")?;
    for _ in 0..7 {
        repeat(text, " * 1", 64)?;
        repeat(text, " + 0", 64)?;
        text.push_str(")")?;
    }
    repeat(text, " * 1", 64)?;
    repeat(text, " + 0", sums)
}

// `1 = ..` has two levels more than there are operators in it.
fn have_nested(alloc: Global, sums: u64) -> Result<String, AllocError> {
    let mut text = String::new(alloc);
    text.push_str("tht 1 main r : nat { emp } {\nhave h : 1 = ")?;
    nested(&mut text, sums)?;
    text.push_str(" by\ncalc; ret 1 by emp }")?;
    Ok(text)
}

fn nested_runs_so(
    alloc: Global,
    sums: u64,
    status: Status,
    output: &str,
) -> Result<bool, AllocError> {
    let source = have_nested(alloc, sums)?;
    runs_so(alloc, source.as_str(), status, output)
}

#[test]
fn a_formula_has_at_most_1000_levels(rt: HostRuntime) -> Result<(), Fail> {
    let alloc = rt.alloc();
    assert!(rt; nested_runs_so(alloc, 38, Status::Done, DONE)?);
    assert!(rt; nested_runs_so(alloc, 39, Status::Rule, "rule 2:1 R10\n")?);
    Ok(())
}

// A product of 257 and 256 monomials, which would have 65,792: the variables of eight factors and of one monomial more, and those of
// eight others.
const LEFT: &[&str] = &["c", "d", "e", "f", "g", "i", "j", "l"];

const RIGHT: &[&str] = &["m", "n", "o", "s", "t", "u", "v", "w"];

// Reads the first cell into each variable.
fn reads(text: &mut String, names: &[&str]) -> Result<(), AllocError> {
    for name in names {
        text.push_str(*name)?;
        text.push_str(" : nat <- read p at 1 as h")?;
        text.push_str(*name)?;
        text.push_str(" by refl; ")?;
    }
    Ok(())
}

// The product of each variable and 1.
fn factors(text: &mut String, names: &[&str]) -> Result<(), AllocError> {
    text.push_str("1")?;
    for name in names {
        text.push_str(" * (")?;
        text.push_str(*name)?;
        text.push_str(" + 1)")?;
    }
    Ok(())
}

fn have_product(alloc: Global) -> Result<String, AllocError> {
    let mut text = String::new(alloc);
    text.push_str("tht 1 main r : nat { emp } { p <- alloc (3); ")?;
    reads(&mut text, LEFT)?;
    reads(&mut text, RIGHT)?;
    reads(&mut text, &["x"])?;
    text.push_str("\nhave k : (")?;
    factors(&mut text, LEFT)?;
    text.push_str(" + x) * (")?;
    factors(&mut text, RIGHT)?;
    text.push_str(") = 0 by\ncalc; free p at 1 by refl; ret 1 by emp }")?;
    Ok(text)
}

#[test]
fn a_product_has_at_most_65536_monomials(rt: HostRuntime) -> Result<(), Fail> {
    let alloc = rt.alloc();
    let source = have_product(alloc)?;
    assert!(rt; runs_so(alloc, source.as_str(), Status::Rule, "rule 3:1 R10\n")?);
    Ok(())
}

// Texts before and behind a number of 961 levels and so many more, which is 1, and the reports of their runs.
const LEVELS_TAKEN: &[(&str, u64, &str, &str)] = &[
    // the definition has 1000 levels
    (
        "tht 1 pred mark (n : nat) = [n = 1]; main r : nat { emp } {\nfold mark(",
        37,
        ") by [calc]; unfold 1; open 2 as g; ret 1 by emp }",
        "end done\nresult 1\nevents 0\ncost 0\naborts 0\norder\n",
    ),
    (
        "tht 1 pred mark (n : nat) = [n = 1]; main r : nat { emp } {\nfold mark(1) by [refl]; rewrite 1 1 to ",
        37,
        " by calc; unfold 1; open 2 as g; ret 1 by emp }",
        "end done\nresult 1\nevents 0\ncost 0\naborts 0\norder\n",
    ),
    // what stands behind the existential
    (
        "tht 1 main r : nat { exists n : nat . [n = 1] } {\nret 1 by ex [",
        37,
        "] [calc] }",
        "end done\nresult 1\nevents 0\ncost 0\naborts 0\norder\n",
    ),
    // the cell
    (
        "tht 1 main r : nat { emp } {\nx <- alloc (1, ",
        38,
        "); free x at 1 by refl; free x.1 at 2 by refl; ret 1 by emp }",
        "end done\nresult 1\nevents 3\ncost 3\naborts 0\norder\n0*3\n",
    ),
    (
        "tht 1 main r : nat { emp } {\nx <- alloc (1); rewrite 1 2 to ",
        38,
        " by calc; free x at 1 by refl; ret 1 by emp }",
        "end done\nresult 1\nevents 2\ncost 2\naborts 0\norder\n0*2\n",
    ),
    // the postcondition and the precondition of a call
    (
        "tht 1 proc same (n : nat) [] { emp } r : nat { [r = n] } { ret n by [refl] } main r : nat { emp } {\nz <- call same(",
        37,
        ")[] by emp; open 1 as h; ret z by emp }",
        "end done\nresult 1\nevents 1\ncost 1\naborts 0\norder\n0\n",
    ),
    (
        "tht 1 proc ask (n : nat) [] { [n = 1] } r : nat { emp } { open 1 as h; ret n by emp } main r : nat { emp } {\nz <- call ask(",
        37,
        ")[] by [calc]; ret z by emp }",
        "end done\nresult 1\nevents 1\ncost 1\naborts 0\norder\n0\n",
    ),
    // the precondition of a declaration
    (
        "tht 1 proc f () [] { [1 = ",
        37,
        "] } r : nat { emp } { open 1 as h; ret 1 by emp } main r : nat { emp } { ret 1 by emp }",
        "end done\nresult 1\nevents 0\ncost 0\naborts 0\norder\n",
    ),
    // a box, given by the body and at its `do`
    (
        "tht 1 main r : nat { emp } {\nx : nat <- do () { ret 1 by [calc] } { [1 = ",
        37,
        "] }; open 1 as h; ret x by emp }",
        "end done\nresult 1\nevents 0\ncost 0\naborts 0\norder\n",
    ),
    (
        "tht 1 proc f () [] { [false] } r : nat { emp } { open 1 as h;\nx : nat <- do () { dead hyp h { ret 0 by emp } } { [1 = ",
        37,
        "] }; dead hyp h { ret 0 by emp } } main r : nat { emp } { ret 1 by emp }",
        "end done\nresult 1\nevents 0\ncost 0\naborts 0\norder\n",
    ),
    // what is not so, of a formula in two cases, and a sequence in two cases
    (
        "tht 1 main r : nat { emp } {\nif 1 = ",
        37,
        " as h { ret 1 by emp } else { ret 2 by emp } }",
        "end done\nresult 1\nevents 0\ncost 0\naborts 0\norder\n",
    ),
    (
        "tht 1 main r : nat { emp } {\ncase [1 = ",
        37,
        "] as h { ret 1 by emp } { ret 1 by emp } }",
        "end done\nresult 1\nevents 0\ncost 0\naborts 0\norder\n",
    ),
    (
        "tht 1 main r : nat { emp } {\ncase seq ",
        37,
        " :: nil as h { ret 1 by emp } q s { ret 1 by emp } }",
        "end done\nresult 1\nevents 0\ncost 0\naborts 0\norder\n",
    ),
];

// The same with the place and the code of what is refused first.
const LEVELS_REFUSED: &[(&str, u64, &str, &str)] = &[
    // a definition, before the give of it
    (
        "tht 1 pred mark (n : nat) = [n = 1]; main r : nat { emp } {\nfold mark(",
        38,
        ") by @9; ret 1 by emp }",
        "rule 2:1 R10\n",
    ),
    (
        "tht 1 pred mark (n : nat) = [n = 1]; main r : nat { emp } {\nfold mark(",
        37,
        ") by\n@9; ret 1 by emp }",
        "rule 3:1 R1\n",
    ),
    (
        "tht 1 pred mark (n : nat) = [n = 1]; main r : nat { emp } {\nfold mark(1) by [refl];\nrewrite 1 1 to ",
        38,
        " by calc;\nunfold 1; ret 1 by emp }",
        "rule 4:1 R10\n",
    ),
    (
        "tht 1 pred mark (n : nat) = [n = 1]; main r : nat { exists n : nat . mark(n) } {\nret 1 by ex [",
        38,
        "]\nfold [todo] }",
        "rule 3:1 R10\n",
    ),
    // what stands behind an existential, where the term has its sort
    (
        "tht 1 main r : nat { exists n : nat . [n = 1] } {\nret 1 by\nex [",
        38,
        "] [todo] }",
        "rule 3:1 R10\n",
    ),
    (
        "tht 1 main r : nat { exists b : bool . [b = true] } {\nret 1 by\nex [",
        38,
        "] [todo] }",
        "rule 3:1 R4\n",
    ),
    // the formula that a `rewrite` proves, where it is one
    (
        "tht 1 pred mark (n : nat) = [n = 1]; main r : nat { emp } {\nfold mark(1) by [refl];\nrewrite 1 1 to ",
        39,
        " by todo; ret 1 by emp }",
        "rule 3:1 R10\n",
    ),
    (
        "tht 1 pred mark (n : nat) = [n = 1]; main r : nat { emp } {\nfold mark(1) by [refl];\nrewrite 1 1 to ",
        39,
        " = 1 by todo; ret 1 by emp }",
        "rule 3:1 R2\n",
    ),
    (
        "tht 1 pred mark (n : nat) = [n = 1]; main r : nat { emp } {\nfold mark(1) by [refl];\nrewrite 1 1 to ",
        38,
        " by\ntodo; ret 1 by emp }",
        "rule 4:1 R9\n",
    ),
    // the second cell
    (
        "tht 1 main r : nat { emp } {\nx <- alloc (1, ",
        39,
        "); ret 1 by emp }",
        "rule 2:1 R10\n",
    ),
];

// The same of calls, procs and inner bodies.
const HEADS_REFUSED: &[(&str, u64, &str, &str)] = &[
    // a precondition comes before the give of it, and a postcondition behind
    (
        "tht 1 proc ask (n : nat) [] { [n = 1] } r : nat { emp } { open 1 as h; ret n by emp } main r : nat { emp } {\nz <- call ask(",
        38,
        ")[] by\n@9; ret z by emp }",
        "rule 2:1 R10\n",
    ),
    (
        "tht 1 proc ask (n : nat) [] { [n = 1] } r : nat { emp } { open 1 as h; ret n by emp } main r : nat { emp } {\nz <- call ask(",
        37,
        ")[] by\n@9; ret z by emp }",
        "rule 3:1 R1\n",
    ),
    (
        "tht 1 proc same (n : nat) [] { emp } r : nat { [r = n] } { ret n by [refl] } main r : nat { emp } {\nz <- call same(",
        38,
        ")[] by emp; open 1 as h; ret z by emp }",
        "rule 2:1 R10\n",
    ),
    (
        "tht 1 proc same (n : nat) [] { emp } r : nat { [r = n] } { ret n by [refl] } main r : nat { emp } {\nz <- call same(",
        38,
        ")[] by\n@9; open 1 as h; ret z by emp }",
        "rule 3:1 R1\n",
    ),
    // a declaration's precondition, before its body, and its postcondition where it is given
    (
        "tht 1\nproc f () [] { [1 = ",
        38,
        "] } r : nat { emp } {\nret 1 by @9 } main r : nat { emp } { ret 1 by emp }",
        "rule 2:1 R10\n",
    ),
    (
        "tht 1\nproc f () [] { emp } r : nat { [1 = ",
        38,
        "] } {\nret 1 by [calc] } main r : nat { emp } { ret 1 by emp }",
        "rule 3:1 R10\n",
    ),
    // a box where it is given, and behind the body
    (
        "tht 1 main r : nat { emp } {\nx : nat <- do () {\nret 1 by [calc] } { [1 = ",
        38,
        "] }; ret x by emp }",
        "rule 3:1 R10\n",
    ),
    (
        "tht 1 proc f () [] { [false] } r : nat { emp } { open 1 as h;\nx : nat <- do () { dead hyp h { ret 0 by emp } } { [1 = ",
        38,
        "] }; dead hyp h { ret 0 by emp } } main r : nat { emp } { ret 1 by emp }",
        "rule 2:1 R10\n",
    ),
    (
        "tht 1 proc f () [] { [false] } r : nat { emp } { open 1 as h;\nx : nat <- do () { dead\ntodo { ret 0 by emp } } { [1 = ",
        38,
        "] }; dead hyp h { ret 0 by emp } } main r : nat { emp } { ret 1 by emp }",
        "rule 3:1 R9\n",
    ),
];

// The same of ends with two bodies.
const ENDS_REFUSED: &[(&str, u64, &str, &str)] = &[
    // what is so comes before the first body, and what is not so behind it
    (
        "tht 1 main r : nat { emp } {\nif 1 = ",
        39,
        " as h { ret 1 by\n@9 } else { ret 2 by emp } }",
        "rule 2:1 R10\n",
    ),
    (
        "tht 1 main r : nat { emp } {\nif 1 = ",
        38,
        " as h { ret 1 by\n@9 } else { ret 2 by emp } }",
        "rule 3:1 R1\n",
    ),
    (
        "tht 1 main r : nat { emp } {\nif 1 = ",
        38,
        " as h { ret 1 by emp } else { ret 2 by\n@9 } }",
        "rule 2:1 R10\n",
    ),
    (
        "tht 1 main r : nat { emp } {\nif 1 = ",
        37,
        " as h { ret 1 by emp } else { ret 2 by\n@9 } }",
        "rule 3:1 R1\n",
    ),
    // the two programs come before that
    (
        "tht 1 main r : nat { emp } {\ncase [1 = ",
        39,
        "] as h { ret 1 by emp } { ret 2 by emp } }",
        "rule 2:1 R11\n",
    ),
    (
        "tht 1 main r : nat { emp } {\ncase [1 = ",
        39,
        "] as h { ret 1 by\n@9 } { ret 1 by emp } }",
        "rule 2:1 R10\n",
    ),
    (
        "tht 1 main r : nat { emp } {\ncase [1 = ",
        38,
        "] as h { ret 1 by\n@9 } { ret 1 by emp } }",
        "rule 3:1 R1\n",
    ),
    (
        "tht 1 main r : nat { emp } {\ncase [1 = ",
        38,
        "] as h { ret 1 by emp } { ret 1 by\n@9 } }",
        "rule 2:1 R10\n",
    ),
    (
        "tht 1 main r : nat { emp } {\ncase seq ",
        38,
        " :: nil as h { ret 1 by emp } q s { ret 2 by emp } }",
        "rule 2:1 R11\n",
    ),
    (
        "tht 1 main r : nat { emp } {\ncase seq ",
        38,
        " :: nil as h { ret 1 by\n@9 } q s { ret 1 by emp } }",
        "rule 2:1 R10\n",
    ),
    (
        "tht 1 main r : nat { emp } {\ncase seq ",
        37,
        " :: nil as h { ret 1 by\n@9 } q s { ret 1 by emp } }",
        "rule 3:1 R1\n",
    ),
];

fn around_nested(
    alloc: Global,
    before: &str,
    sums: u64,
    behind: &str,
) -> Result<String, AllocError> {
    let mut text = String::new(alloc);
    text.push_str(before)?;
    nested(&mut text, sums)?;
    text.push_str(behind)?;
    Ok(text)
}

fn row_runs_so(
    alloc: Global,
    row: (&str, u64, &str, &str),
    status: Status,
) -> Result<bool, AllocError> {
    let (before, sums, behind, output) = row;
    let source = around_nested(alloc, before, sums, behind)?;
    runs_so(alloc, source.as_str(), status, output)
}

#[test]
fn what_is_made_may_have_1000_levels(rt: HostRuntime) -> Result<(), Fail> {
    let alloc = rt.alloc();
    for row in LEVELS_TAKEN {
        assert!(rt; row_runs_so(alloc, *row, Status::Done)?);
    }
    Ok(())
}

#[test]
fn what_is_made_has_at_most_1000_levels(rt: HostRuntime) -> Result<(), Fail> {
    let alloc = rt.alloc();
    for row in LEVELS_REFUSED {
        assert!(rt; row_runs_so(alloc, *row, Status::Rule)?);
    }
    Ok(())
}

#[test]
fn what_heads_make_has_at_most_1000_levels(rt: HostRuntime) -> Result<(), Fail> {
    let alloc = rt.alloc();
    for row in HEADS_REFUSED {
        assert!(rt;
            row_runs_so(alloc, *row, Status::Rule)?,
            "{} {} {}",
            row.0,
            row.1,
            row.2
        );
    }
    Ok(())
}

#[test]
fn what_ends_make_has_at_most_1000_levels(rt: HostRuntime) -> Result<(), Fail> {
    let alloc = rt.alloc();
    for row in ENDS_REFUSED {
        assert!(rt;
            row_runs_so(alloc, *row, Status::Rule)?,
            "{} {} {}",
            row.0,
            row.1,
            row.2
        );
    }
    Ok(())
}

// A sum in parentheses, of one term and so many zeros.
fn with_zeros(text: &mut String, first: &str, zeros: u64) -> Result<(), AllocError> {
    text.push_str("(")?;
    text.push_str(first)?;
    repeat(text, " + 0", zeros)?;
    text.push_str(")")
}

// Zero in 1056 nodes: eleven sums of 48 terms, one of these `len nil`, and all others 0.
fn argument(text: &mut String) -> Result<(), AllocError> {
    with_zeros(text, "len nil", 47)?;
    for _ in 0..10 {
        text.push_str(" + ")?;
        with_zeros(text, "0", 47)?;
    }
    Ok(())
}

// The definition has its parameter 62 times. With that argument `[n + .. = 0]` has 62 * 1056 + 61 + 3 = 65536 nodes.
fn fold_wide(alloc: Global, open: &str, close: &str) -> Result<String, AllocError> {
    let mut text = String::new(alloc);
    text.push_str("tht 1 pred wide (n : nat) = [")?;
    text.push_str(open)?;
    text.push_str("n")?;
    repeat(&mut text, " + n", 61)?;
    text.push_str(" = 0")?;
    text.push_str(close)?;
    text.push_str("]; main r : nat { emp } {\nfold wide(")?;
    argument(&mut text)?;
    text.push_str(") by [calc]; unfold 1; open 2 as g; ret 1 by emp }")?;
    Ok(text)
}

#[test]
fn a_definition_has_at_most_65536_nodes(rt: HostRuntime) -> Result<(), Fail> {
    let alloc = rt.alloc();
    let at_limit = fold_wide(alloc, "", "")?;
    assert!(rt; runs_so(alloc, at_limit.as_str(), Status::Done, DONE)?);
    let past_it = fold_wide(alloc, "not (", ")")?;
    assert!(rt; runs_so(alloc, past_it.as_str(), Status::Rule, "rule 2:1 R10\n")?);
    Ok(())
}

// Zero in 65 * 129 + 64 = 8449 nodes.
fn large_zero(alloc: Global) -> Result<String, AllocError> {
    let mut text = String::new(alloc);
    with_zeros(&mut text, "0", 64)?;
    for _ in 0..64 {
        text.push_str(" + ")?;
        with_zeros(&mut text, "0", 64)?;
    }
    Ok(text)
}

// On a line of its own `name <- alloc (..);`, with eight cells that hold this.
fn alloc_eight(text: &mut String, name: &str, value: &str) -> Result<(), AllocError> {
    text.push_str("\n")?;
    text.push_str(name)?;
    text.push_str(" <- alloc (")?;
    for _ in 0..7 {
        text.push_str(value)?;
        text.push_str(", ")?;
    }
    text.push_str(value)?;
    text.push_str(");")
}

const PLACES: &[&str] = &["p", "q", "s", "t"];

// The cells of one `alloc` have 8451 + 7 * 8452 = 67615 nodes, so those of four are more than 262144.
fn alloc_four_times(alloc: Global) -> Result<String, AllocError> {
    let value = large_zero(alloc)?;
    let mut text = String::new(alloc);
    text.push_str("tht 1 main r : nat { emp } {")?;
    for name in PLACES {
        alloc_eight(&mut text, *name, value.as_str())?;
    }
    text.push_str(" ret 1 by emp }")?;
    Ok(text)
}

#[test]
fn a_state_has_at_most_262144_nodes(rt: HostRuntime) -> Result<(), Fail> {
    let alloc = rt.alloc();
    let source = alloc_four_times(alloc)?;
    assert!(rt; runs_so(alloc, source.as_str(), Status::Rule, "rule 5:1 R10\n")?);
    Ok(())
}

// ---- calls of many nodes

// A proc that makes seven cells with one value.
const SEVEN: &str =
    "tht 1 proc seven (n : nat) [] { emp } r : loc { r -> n * r.1 -> n * r.2 -> n * r.3 -> n * r.4 -> n * r.5 -> n * r.6 -> n } { x <- alloc (n, n, n, n, n, n, n); ret x by @1 * @2 * @3 * @4 * @5 * @6 * @7 } main r : nat { emp } {";

// The postcondition of one call has 8451 + 6 * 8452 + 6 = 59169 nodes, and its atoms 59163, so those of four are 236652, and those of five
// more than 262144.
fn call_five_times(alloc: Global) -> Result<String, AllocError> {
    let value = large_zero(alloc)?;
    let mut text = String::new(alloc);
    text.push_str(SEVEN)?;
    for name in ["p", "q", "s", "t", "u"] {
        call_seven(&mut text, name, value.as_str())?;
    }
    text.push_str("\nret 1 by emp }")?;
    Ok(text)
}

// On a line of its own `name <- call seven(value)[] by emp;`.
fn call_seven(text: &mut String, name: &str, value: &str) -> Result<(), AllocError> {
    text.push_str("\n")?;
    text.push_str(name)?;
    text.push_str(" <- call seven(")?;
    text.push_str(value)?;
    text.push_str(")[] by emp;")
}

#[test]
fn a_state_behind_a_call_has_at_most_262144_nodes(rt: HostRuntime) -> Result<(), Fail> {
    let alloc = rt.alloc();
    let source = call_five_times(alloc)?;
    assert!(rt; runs_so(alloc, source.as_str(), Status::Rule, "rule 6:1 R10\n")?);
    Ok(())
}
