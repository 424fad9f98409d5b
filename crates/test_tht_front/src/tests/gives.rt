// Gives that are taken, and the first refusal of others. Each was worked out by hand.
use super::runs_so;
use std::alloc::{AllocError, Global};
use std::test::Fail;
use tht_tree::status::Status;

// A file whose main has a postcondition, statements on line 2, `ret a by` on line 3, and from line 4 on a give.
const HEAD: &str =
    "tht 1 pred mark (n : nat) = [n = 3]; pred cells (p : loc) = exists v : nat . exists w : nat . p -> v * p.1 -> w; main r : nat { ";

fn returning(
    alloc: Global,
    post: &str,
    statements: &str,
    give: &str,
) -> Result<String, AllocError> {
    let mut source = String::new(alloc);
    source.push_str(HEAD)?;
    source.push_str(post)?;
    source.push_str(" } {\n")?;
    source.push_str(statements)?;
    source.push_str("\nret a by\n")?;
    source.push_str(give)?;
    source.push_str(" }")?;
    Ok(source)
}

// Whether, behind these statements, the give of the postcondition is taken, with this report.
fn is_taken(
    alloc: Global,
    statements: &str,
    row: (&str, &str),
    report: &str,
) -> Result<bool, AllocError> {
    let (post, give) = row;
    let source = returning(alloc, post, statements, give)?;
    runs_so(alloc, source.as_str(), Status::Done, report)
}

fn is_refused(
    alloc: Global,
    statements: &str,
    row: (&str, &str, &str),
) -> Result<bool, AllocError> {
    let (post, give, line) = row;
    let source = returning(alloc, post, statements, give)?;
    runs_so(alloc, source.as_str(), Status::Rule, line)
}

// No atom is left, and h says that a is 3.
const NO_CELL: &str = "x <- alloc (3); a : nat <- read x at 1 as h by refl; free x at 1 by refl;";

const THREE_EVENTS: &str = "end done\nresult 3\nevents 3\ncost 3\naborts 0\norder\n0*3\n";

// Postconditions with gives of them.
const PURE_TAKEN: &[(&str, &str)] = &[
    ("emp", "emp"),
    ("[r = 3]", "[hyp h]"),
    ("[r = 3]", "((([hyp h])))"),
    ("[r = 3 and 0 <= r]", "[pair hyp h calc]"),
    ("emp * [r = 3] * [0 <= r]", "emp * [hyp h] * [calc]"),
    ("emp * ([r = 3] * emp)", "emp * ([hyp h] * emp)"),
    ("exists n : nat . [n = 3]", "ex [a] [hyp h]"),
    ("exists n : nat . [n = 3]", "ex [1 + 2] [calc]"),
    ("exists b : bool . [b = true]", "ex [true] [refl]"),
    ("exists s : seq . [len s = 1]", "ex [a :: nil] [calc]"),
    (
        "exists n : nat . exists m : nat . [n = m]",
        "ex [a] ex [3] [hyp h]",
    ),
    ("either [r = 3] or [r = 4]", "left [hyp h]"),
    ("either [r = 4] or [r = 3]", "right [hyp h]"),
    ("either ([r = 3] * emp) or emp", "left ([hyp h] * emp)"),
    (
        "either exists n : nat . [n = 4] or [r = 3]",
        "right [hyp h]",
    ),
    ("mark(r)", "fold [hyp h]"),
    (
        "exists n : nat . mark(n) * [n = r]",
        "ex [a] (fold [hyp h] * [refl])",
    ),
    // the a that is put in, for i and for r, is not the a that is bound there
    (
        "exists i : nat . exists a : nat . [i = 3] * [a = 4]",
        "ex [a] ex [4] ([hyp h] * [refl])",
    ),
    (
        "exists a : nat . [a = 4] * [r = 3]",
        "ex [4] ([refl] * [hyp h])",
    ),
];

// Postconditions with gives, and the place and the code of what is refused first.
const PURE_REFUSED: &[(&str, &str, &str)] = &[
    // another shape than the goal's, which comes before a proof inside
    ("[r = 3]", "emp", "rule 4:1 R4\n"),
    ("emp", "[todo]", "rule 4:1 R4\n"),
    ("emp", "emp * [todo]", "rule 4:1 R4\n"),
    ("[r = 3]", "ex [a] [todo]", "rule 4:1 R4\n"),
    ("emp", "left emp", "rule 4:1 R4\n"),
    ("emp", "right emp", "rule 4:1 R4\n"),
    ("[r = 3]", "fold [todo]", "rule 4:1 R4\n"),
    ("exists n : nat . [n = 3]", "[todo]", "rule 4:1 R4\n"),
    ("either [r = 3] or emp", "[todo]", "rule 4:1 R4\n"),
    ("mark(r)", "[todo]", "rule 4:1 R4\n"),
    // the atom was freed
    ("emp", "@1", "rule 4:1 R1\n"),
    // proofs inside
    ("[r = 3]", "[\ncalc]", "rule 5:1 R8\n"),
    ("[not (r = 3)]", "[fun e .\nhyp e]", "rule 5:1 R5\n"),
    ("mark(r)", "fold [\ncalc]", "rule 5:1 R8\n"),
    // chains: the goal of the chain inside is one formula; then from left to right
    (
        "[r = 3] * ([r = 3] * emp)",
        "[hyp h] * [hyp h] *\nemp",
        "rule 4:1 R4\n",
    ),
    ("[r = 3] * emp", "[hyp h] *\n[todo]", "rule 5:1 R4\n"),
    ("[r = 3] * [r = 4]", "[\ncalc] * [todo]", "rule 5:1 R8\n"),
    ("[r = 3] * [r = 4]", "[hyp h] * [\nhyp h]", "rule 5:1 R5\n"),
    ("[r = 3] * [r = 4]", "[hyp h] * [\ntodo]", "rule 5:1 R9\n"),
    // in parentheses stands the give itself, and a chain begins where its first part begins
    ("[r = 3]", "(\nemp\n)", "rule 5:1 R4\n"),
    ("emp * emp", "(\nemp * emp) * emp", "rule 5:1 R4\n"),
    ("emp", "(\nemp * emp) *\nemp", "rule 4:1 R4\n"),
    // existentials: a term of another sort, and what stands behind them
    (
        "exists n : nat . [n = 3]",
        "ex [true] [todo]",
        "rule 4:1 R4\n",
    ),
    (
        "exists n : nat . [n = 4]",
        "ex [a] [\nhyp h]",
        "rule 5:1 R5\n",
    ),
    (
        "exists n : nat . exists m : bool . [n = 3]",
        "ex [a]\nex [a] [todo]",
        "rule 5:1 R4\n",
    ),
    (
        "exists n : nat . mark(n)",
        "ex [a]\nfold\nemp",
        "rule 6:1 R4\n",
    ),
    // the other side
    ("either [r = 3] or emp", "right\n[todo]", "rule 5:1 R4\n"),
    ("either emp or [r = 3]", "left\n[todo]", "rule 5:1 R4\n"),
    (
        "either [r = 3] or [r = 4]",
        "right [\nhyp h]",
        "rule 5:1 R5\n",
    ),
    // definitions
    ("mark(r)", "fold\nemp", "rule 5:1 R4\n"),
    ("mark(r)", "fold\nfold [todo]", "rule 5:1 R4\n"),
];

#[test]
fn gives_without_atoms_are_taken(rt: HostRuntime) -> Result<(), Fail> {
    let alloc = rt.alloc();
    for row in PURE_TAKEN {
        assert!(rt; is_taken(alloc, NO_CELL, *row, THREE_EVENTS)?);
    }
    Ok(())
}

#[test]
fn gives_without_atoms_are_refused_at_their_places(rt: HostRuntime) -> Result<(), Fail> {
    let alloc = rt.alloc();
    for row in PURE_REFUSED {
        assert!(rt; is_refused(alloc, NO_CELL, *row)?);
    }
    Ok(())
}

// Atom 1 is the cell of x, which holds 3, and atom 2 that behind it, which holds 4; h says that a is 3.
const TWO_CELLS: &str = "x <- alloc (3, 4); a : nat <- read x at 1 as h by refl;";

const TWO_EVENTS: &str = "end done\nresult 3\nevents 2\ncost 2\naborts 0\norder\n0*2\n";

// The same of gives that consume cells.
const CELLS_TAKEN: &[(&str, &str)] = &[
    ("exists p : loc . p -> 3 * p.1 -> 4", "ex [x] (@1 * @2)"),
    ("exists p : loc . p.1 -> 4 * p -> 3", "ex [x] (@2 * @1)"),
    (
        "exists p : loc . exists q : loc . q -> 4 * p -> 3",
        "ex [x] ex [x.1] (@2 * @1)",
    ),
    (
        "exists p : loc . (p -> 3 * emp) * (emp * p.1 -> 4)",
        "ex [x] ((@1 * emp) * (emp * @2))",
    ),
    (
        "exists p : loc . exists v : nat . p -> v * p.1 -> 4 * [v = 3]",
        "ex [x] ex [3] (@1 * @2 * [refl])",
    ),
    (
        "exists p : loc . (either p -> 4 or p -> 3) * p.1 -> 4",
        "ex [x] (right @1 * @2)",
    ),
    (
        "exists p : loc . cells(p)",
        "ex [x] fold ex [3] ex [4] (@1 * @2)",
    ),
    // a proof may still speak of what the same give has consumed
    (
        "exists p : loc . p -> 3 * p.1 -> 4 * [not (p = null)]",
        "ex [x] (@1 * @2 * [nonnull 1])",
    ),
    (
        "exists p : loc . p -> 3 * p.1 -> 4 * [not (p = p.1)]",
        "ex [x] (@1 * @2 * [apart 1 2])",
    ),
];

const CELLS_REFUSED: &[(&str, &str, &str)] = &[
    // atoms are left, which is said after the give
    ("emp", "emp", "rule 3:1 R3\n"),
    ("[r = 3]", "[hyp h]", "rule 3:1 R3\n"),
    ("exists p : loc . p -> 3", "ex [x] @1", "rule 3:1 R3\n"),
    ("[r = 4]", "[\ncalc]", "rule 5:1 R8\n"),
    // no such atom, which comes before its shape
    ("exists p : loc . p -> 3", "ex [x]\n@3", "rule 5:1 R1\n"),
    ("exists p : loc . p -> 3", "ex [x]\n@0", "rule 5:1 R1\n"),
    ("emp", "@3", "rule 4:1 R1\n"),
    // consumed before
    (
        "exists p : loc . p -> 3 * p -> 3",
        "ex [x] (@1 *\n@1)",
        "rule 5:1 R1\n",
    ),
    (
        "exists p : loc . p -> 3 * p.1 -> 4",
        "ex [x] (@1 *\n@1)",
        "rule 5:1 R1\n",
    ),
    (
        "exists p : loc . cells(p)",
        "ex [x] fold ex [3] ex [4] (@1 *\n@1)",
        "rule 5:1 R1\n",
    ),
    // another tree than the goal
    ("[r = 3]", "@1", "rule 4:1 R4\n"),
    ("emp", "@1", "rule 4:1 R4\n"),
    (
        "exists p : loc . p -> 5 * p.1 -> 4",
        "ex [x] (\n@1 * @2)",
        "rule 5:1 R4\n",
    ),
    (
        "exists p : loc . p -> 3 * p.1 -> 4",
        "ex [x] (\n@2 * @1)",
        "rule 5:1 R4\n",
    ),
    (
        "exists p : loc . p -> 3 * p.1 -> 4",
        "ex [x.0] (\n@1 * @2)",
        "rule 5:1 R4\n",
    ),
    (
        "exists p : loc . p -> 3 * p.1 -> 4",
        "ex [x] (emp *\n@2)",
        "rule 4:9 R4\n",
    ),
    ("exists p : loc . cells(p)", "ex [x]\n@1", "rule 5:1 R4\n"),
    // a for r, where the cell is known to hold 3
    (
        "exists p : loc . p -> r * p.1 -> 4",
        "ex [x] (\n@1 * @2)",
        "rule 5:1 R4\n",
    ),
    // a number is no place
    ("exists p : loc . p -> 3", "ex [a]\n@3", "rule 4:1 R4\n"),
    // proofs of places
    (
        "exists p : loc . p -> 3 * [not (p = null)]",
        "ex [x] (@1 * [\nnonnull 3])",
        "rule 5:1 R1\n",
    ),
    (
        "exists p : loc . p -> 3 * [not (p = null)]",
        "ex [x] (@1 * [\nnonnull 2])",
        "rule 5:1 R5\n",
    ),
];

#[test]
fn gives_of_cells_are_taken(rt: HostRuntime) -> Result<(), Fail> {
    let alloc = rt.alloc();
    for row in CELLS_TAKEN {
        assert!(rt; is_taken(alloc, TWO_CELLS, *row, TWO_EVENTS)?);
    }
    Ok(())
}

#[test]
fn gives_of_cells_are_refused_at_their_places(rt: HostRuntime) -> Result<(), Fail> {
    let alloc = rt.alloc();
    for row in CELLS_REFUSED {
        assert!(rt; is_refused(alloc, TWO_CELLS, *row)?);
    }
    Ok(())
}

// Atom 4 alone is there: `exists v : nat . exists w : nat . x -> v * x.1 -> w`.
const HIDDEN: &str =
    "x <- alloc (3, 4); a : nat <- read x at 1 as h by refl; fold cells(x) by ex [3] ex [4] (@1 * @2); unfold 3;";

// The same of an existential: names of bound variables are no matter, their sorts and places are.
const HIDDEN_TAKEN: &[(&str, &str)] = &[
    (
        "exists p : loc . exists v : nat . exists w : nat . p -> v * p.1 -> w",
        "ex [x] @4",
    ),
    (
        "exists p : loc . exists w : nat . exists v : nat . p -> w * p.1 -> v",
        "ex [x] @4",
    ),
    ("exists p : loc . cells(p)", "ex [x] fold @4"),
];

const HIDDEN_REFUSED: &[(&str, &str, &str)] = &[
    (
        "exists p : loc . exists v : nat . exists w : nat . p -> w * p.1 -> v",
        "ex [x]\n@4",
        "rule 5:1 R4\n",
    ),
    (
        "exists p : loc . exists v : nat . exists w : nat . p -> v * p.1 -> v",
        "ex [x]\n@4",
        "rule 5:1 R4\n",
    ),
    (
        "exists p : loc . exists v : nat . exists w : bool . p -> v * p.1 -> w",
        "ex [x]\n@4",
        "rule 5:1 R4\n",
    ),
    (
        "exists p : loc . exists v : nat . p -> v",
        "ex [x]\n@4",
        "rule 5:1 R4\n",
    ),
    (
        "exists p : loc . exists v : nat . exists w : nat . p.1 -> v * p.1.1 -> w",
        "ex [x]\n@4",
        "rule 5:1 R4\n",
    ),
    ("exists p : loc . cells(p)", "ex [x]\n@4", "rule 5:1 R4\n"),
    // the instance was unfolded, and its cells were consumed
    ("exists p : loc . cells(p)", "ex [x]\n@3", "rule 5:1 R1\n"),
    ("exists p : loc . p -> 3", "ex [x]\n@1", "rule 5:1 R1\n"),
];

#[test]
fn atoms_are_given_up_to_bound_names(rt: HostRuntime) -> Result<(), Fail> {
    let alloc = rt.alloc();
    for row in HIDDEN_TAKEN {
        assert!(rt; is_taken(alloc, HIDDEN, *row, TWO_EVENTS)?);
    }
    Ok(())
}

#[test]
fn other_existentials_are_not_given(rt: HostRuntime) -> Result<(), Fail> {
    let alloc = rt.alloc();
    for row in HIDDEN_REFUSED {
        assert!(rt; is_refused(alloc, HIDDEN, *row)?);
    }
    Ok(())
}
