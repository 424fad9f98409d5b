// Proof steps that are taken, with the numbers of the atoms that they make, and the first refusal of others. Each was worked out by hand.
use super::{ends_so, runs_so};
use std::alloc::{AllocError, Global};
use std::test::Fail;
use tht_tree::status::Status;

// Each text stands behind these predicates and statements, from line 2 on, and before the end. Atom 1 is the cell of x, which holds 3,
// atom 2 that behind it, which holds 4; h says that a is 3. Two events.
const BEFORE: &str =
    "tht 1 pred mark (n : nat) = [n = 3]; pred duo (n : nat, m : nat) = [n = 3] * [m = 4]; pred none () = emp; pred three (n : nat) = mark(n) * emp * [0 <= n] * (emp * [n = n]); pred cells (p : loc) = exists v : nat . exists w : nat . p -> v * p.1 -> w; pred place (p : loc) = exists q : loc . q -> 3 * [p = q]; pred less (n : nat) = exists v : nat . [v <= n] * [n = 3]; pred between (n : nat) = exists v : nat . exists w : nat . [v < w] * [n = 3]; main r : nat { emp } { x <- alloc (3, 4); a : nat <- read x at 1 as h by refl;\n";

const AFTER: &str = ";\nret a by emp }";

// Texts with the events of their runs, those of the two statements before them among these.
const TAKEN: &[(&str, &str)] = &[
    // a formula that is known from then on, and a value that is replaced by it; the cell keeps its number
    (
        "have g : 3 = a by sym hyp h;\nrewrite 1 2 to a by hyp g;\nb : nat <- read x at 1 as k by refl;\nhave m : b = a by hyp k;\nfree x at 1 by refl;\nfree x.1 at 2 by refl",
        "5",
    ),
    // a place for another that is equal to it
    (
        "rewrite 1 1 to x.0 by calc;\nb : nat <- read x.0 at 1 as k by refl;\nfree x.0 at 1 by refl;\nfree x.1 at 2 by refl",
        "5",
    ),
    // the arguments of an instance
    (
        "fold mark(a) by [hyp h];\nrewrite 3 1 to 3 by hyp h;\nunfold 3;\nopen 4 as g;\nhave m : 3 = 3 by hyp g;\nfree x at 1 by refl;\nfree x.1 at 2 by refl",
        "4",
    ),
    (
        "fold duo(a, 4) by [hyp h] * [refl];\nrewrite 3 2 to 2 + 2 by calc;\nunfold 3;\nopen 5 as g;\nhave i : 2 + 2 = 4 by hyp g;\nopen 4 as j;\nfree x at 1 by refl;\nfree x.1 at 2 by refl",
        "4",
    ),
    // two existentials, and two cells behind the second: 3 is the instance, 4 and 5 the existentials, 6 and 7 the cells
    (
        "fold cells(x) by ex [3] ex [4] (@1 * @2);\nunfold 3;\nopen 4 as v : nat;\nopen 5 as w : nat;\nb : nat <- read x at 6 as k by refl;\nhave m : b = v by hyp k;\nfree x at 6 by refl;\nfree x.1 at 7 by refl",
        "5",
    ),
    // the place of a cell, and what is known of it: 5 and 6
    (
        "fold place(x) by ex [x] (@1 * [refl]);\nunfold 3;\nopen 4 as q : loc;\nopen 6 as e;\nb : nat <- read x at 5 as k by hyp e;\nhave m : b = 3 by hyp k;\nfree x at 5 by hyp e;\nfree x.1 at 2 by refl",
        "5",
    ),
    // a formula, whose atom is gone then
    (
        "fold mark(a) by [hyp h];\nunfold 3;\nopen 4 as g;\nhave m : a = 3 by hyp g;\nfree x at 1 by refl;\nfree x.1 at 2 by refl",
        "4",
    ),
    // three atoms of one instance, in their order and without `emp`: 5, 6 and 7
    (
        "fold mark(a) by [hyp h];\nfold three(a) by @3 * emp * [calc] * (emp * [refl]);\nunfold 4;\nopen 6 as f;\nhave i : 0 <= a by hyp f;\nopen 7 as g;\nhave j : a = a by hyp g;\nunfold 5;\nopen 8 as m;\nhave k : a = 3 by hyp m;\nfree x at 1 by refl;\nfree x.1 at 2 by refl",
        "4",
    ),
    // no atom of one instance, and the number behind that of the instance
    (
        "fold none() by emp;\nunfold 3;\nfold none() by emp;\nunfold 4;\nfree x at 1 by refl;\nfree x.1 at 2 by refl",
        "4",
    ),
    // no number comes again, though all cells are freed
    (
        "free x at 1 by refl;\nfree x.1 at 2 by refl;\ny <- alloc (5);\nb : nat <- read y at 3 as k by refl;\nfree y at 3 by refl",
        "7",
    ),
    (
        "free x at 1 by refl;\nfold mark(a) by [hyp h];\nunfold 3;\nopen 4 as g;\nfree x.1 at 2 by refl",
        "4",
    ),
    // three cells at once: 3, 4 and 5
    (
        "y <- alloc (5, 6, 7);\nb : nat <- read y.1 at 4 as k by refl;\nc : nat <- read y.2 at 5 as m by refl;\nhave f : b = 6 by hyp k;\nhave g : c = 7 by hyp m;\nfree y at 3 by refl;\nfree y.1 at 4 by refl;\nfree y.2 at 5 by refl;\nfree x at 1 by refl;\nfree x.1 at 2 by refl",
        "10",
    ),
    // the argument v is not the v that the definition binds
    (
        "v : nat <- read x at 1 as k by refl;\nfold less(v) by ex [0] ([calc] * [hyp k]);\nunfold 3;\nopen 4 as w : nat;\nopen 5 as f;\nhave g : w <= v by hyp f;\nopen 6 as m;\nhave i : v = 3 by hyp m;\nfree x at 1 by refl;\nfree x.1 at 2 by refl",
        "5",
    ),
    // what is opened as w is not the w that the definition binds
    (
        "fold between(a) by ex [0] ex [1] ([calc] * [hyp h]);\nunfold 3;\nopen 4 as w : nat;\nopen 5 as u : nat;\nopen 6 as f;\nhave g : w < u by hyp f;\nopen 7 as m;\nfree x at 1 by refl;\nfree x.1 at 2 by refl",
        "4",
    ),
    // the arguments are put in at once: m for n, and n for m
    (
        "m : nat <- read x at 1 as f by refl;\nn : nat <- read x.1 at 2 as g by refl;\nfold duo(m, n) by [hyp f] * [hyp g];\nunfold 3;\nopen 4 as i;\nhave j : m = 3 by hyp i;\nopen 5 as k;\nhave l : n = 4 by hyp k;\nfree x at 1 by refl;\nfree x.1 at 2 by refl",
        "6",
    ),
];

// Texts with the place and the code of what is refused first: each form by its atom's number and shape before all else.
const REFUSED: &[(&str, &str)] = &[
    // have
    ("have g : a = 4 by\nhyp h", "rule 3:1 R5\n"),
    ("have g : a = 4 by\ntodo", "rule 3:1 R9\n"),
    ("have g : not (x = null) by\nnonnull 3", "rule 3:1 R1\n"),
    (
        "fold mark(a) by [hyp h];\nhave g : not (x = null) by\nnonnull 3",
        "rule 4:1 R2\n",
    ),
    // open as a variable: nothing is there; a cell, an instance and a formula are no existentials; another sort
    ("open 3 as v : nat", "rule 2:1 R1\n"),
    ("open 0 as v : nat", "rule 2:1 R1\n"),
    ("open 1 as v : nat", "rule 2:1 R2\n"),
    (
        "fold cells(x) by ex [3] ex [4] (@1 * @2);\nopen 3 as v : nat",
        "rule 3:1 R2\n",
    ),
    (
        "fold mark(a) by [hyp h];\nunfold 3;\nopen 4 as v : bool",
        "rule 4:1 R2\n",
    ),
    (
        "fold cells(x) by ex [3] ex [4] (@1 * @2);\nunfold 3;\nopen 4 as v : bool",
        "rule 4:1 R2\n",
    ),
    (
        "fold cells(x) by ex [3] ex [4] (@1 * @2);\nunfold 3;\nopen 4 as v : nat;\nopen 4 as w : nat",
        "rule 5:1 R1\n",
    ),
    (
        "fold cells(x) by ex [3] ex [4] (@1 * @2);\nunfold 3;\nopen 4 as v : nat;\nopen 6 as w : nat",
        "rule 5:1 R1\n",
    ),
    // open as a fact
    ("open 3 as g", "rule 2:1 R1\n"),
    ("open 1 as g", "rule 2:1 R2\n"),
    ("fold mark(a) by [hyp h];\nopen 3 as g", "rule 3:1 R2\n"),
    (
        "fold cells(x) by ex [3] ex [4] (@1 * @2);\nunfold 3;\nopen 4 as g",
        "rule 4:1 R2\n",
    ),
    (
        "fold mark(a) by [hyp h];\nunfold 3;\nopen 4 as f;\nopen 4 as g",
        "rule 5:1 R1\n",
    ),
    // unfold
    ("unfold 3", "rule 2:1 R1\n"),
    ("unfold 2", "rule 2:1 R2\n"),
    (
        "fold mark(a) by [hyp h];\nunfold 3;\nunfold 3",
        "rule 4:1 R1\n",
    ),
    (
        "fold mark(a) by [hyp h];\nunfold 3;\nunfold 4",
        "rule 4:1 R2\n",
    ),
    ("fold none() by emp;\nunfold 3;\nunfold 4", "rule 4:1 R1\n"),
    // fold: what its give is refused for, at the give
    ("fold mark(a) by\n@3", "rule 3:1 R1\n"),
    ("fold mark(a) by\n@1", "rule 3:1 R4\n"),
    ("fold mark(a) by\nemp", "rule 3:1 R4\n"),
    ("fold mark(a) by [\nrefl]", "rule 3:1 R5\n"),
    ("fold mark(a) by [\ncalc]", "rule 3:1 R8\n"),
    ("fold mark(a) by [\ntodo]", "rule 3:1 R9\n"),
    ("fold mark(4) by [\nhyp h]", "rule 3:1 R5\n"),
    (
        "fold cells(x.1) by ex [3] ex [4] (\n@1 * @2)",
        "rule 3:1 R4\n",
    ),
    // what it has consumed is gone, and an instance is no cell
    (
        "fold cells(x) by ex [3] ex [4] (@1 * @2);\nb : nat <- read x at 1 as k by todo",
        "rule 3:1 R1\n",
    ),
    (
        "fold cells(x) by ex [3] ex [4] (@1 * @2);\nb : nat <- read x at 3 as k by todo",
        "rule 3:1 R2\n",
    ),
    // what is left to prove is 4 <= v, and not 4 <= 4: the argument v is not the v that the definition binds
    (
        "v : nat <- read x at 1 as k by refl;\nfold less(v) by ex [4] ([\ncalc] * [hyp k])",
        "rule 4:1 R8\n",
    ),
    // rewrite: nothing is there; no such part; another sort; and then the proof
    ("rewrite 3 1 to 3 by todo", "rule 2:1 R1\n"),
    ("rewrite 1 0 to x by todo", "rule 2:1 R2\n"),
    ("rewrite 1 3 to x by todo", "rule 2:1 R2\n"),
    ("rewrite 1 2 to x by todo", "rule 2:1 R2\n"),
    ("rewrite 1 1 to 3 by todo", "rule 2:1 R2\n"),
    (
        "fold mark(a) by [hyp h];\nrewrite 3 0 to a by todo",
        "rule 3:1 R2\n",
    ),
    (
        "fold mark(a) by [hyp h];\nrewrite 3 2 to a by todo",
        "rule 3:1 R2\n",
    ),
    (
        "fold none() by emp;\nrewrite 3 1 to a by todo",
        "rule 3:1 R2\n",
    ),
    (
        "fold mark(a) by [hyp h];\nunfold 3;\nrewrite 4 1 to a by todo",
        "rule 4:1 R2\n",
    ),
    ("rewrite 1 2 to a by\nhyp h", "rule 3:1 R5\n"),
    ("rewrite 1 2 to 4 by\ncalc", "rule 3:1 R8\n"),
    ("rewrite 1 2 to a by\ntodo", "rule 3:1 R9\n"),
    // the read finds the value that was put for the old one
    (
        "have g : 3 = a by sym hyp h;\nrewrite 1 2 to a by hyp g;\nb : nat <- read x at 1 as k by refl;\nhave m : b = 3 by\nhyp k",
        "rule 6:1 R5\n",
    ),
    // numbers: not from one on again, and in the order of the cells
    (
        "free x at 1 by refl;\ny <- alloc (5);\nfree y at 1 by todo",
        "rule 4:1 R1\n",
    ),
    (
        "y <- alloc (5, 6, 7);\nb : nat <- read y.2 at 6 as k by todo",
        "rule 3:1 R1\n",
    ),
    (
        "y <- alloc (5, 6, 7);\nb : nat <- read y.2 at 4 as k by\nrefl",
        "rule 4:1 R5\n",
    ),
    // an instance, a formula and an existential are left at the end
    (
        "fold mark(a) by [hyp h];\nfree x at 1 by refl;\nfree x.1 at 2 by refl",
        "rule 5:1 R3\n",
    ),
    (
        "fold mark(a) by [hyp h];\nunfold 3;\nfree x at 1 by refl;\nfree x.1 at 2 by refl",
        "rule 6:1 R3\n",
    ),
    (
        "fold cells(x) by ex [3] ex [4] (@1 * @2);\nunfold 3",
        "rule 4:1 R3\n",
    ),
];

// Texts whose names or sorts are not in order, which is said before any rule is tried.
const OUT_OF_ORDER: &[(&str, &str)] = &[
    ("have h : true by calc", "names 2:1 N2\n"),
    ("open 1 as x : nat", "names 2:1 N2\n"),
    ("open 1 as h", "names 2:1 N2\n"),
    ("open 1 as mark", "names 2:1 N2\n"),
    ("fold other(a) by emp", "names 2:1 N1\n"),
    ("fold mark(b) by emp", "names 2:1 N1\n"),
    ("fold x(a) by emp", "names 2:1 N3\n"),
    ("fold mark() by emp", "names 2:1 N4\n"),
    ("fold mark(x) by emp", "sorts 2:1 S1\n"),
    ("fold mark(a) by [\nhyp g]", "names 3:1 N1\n"),
    ("fold mark(a) by\nex [b] emp", "names 3:1 N1\n"),
    ("fold mark(a) by\nex [true + 1] emp", "sorts 3:1 S1\n"),
    ("rewrite 1 2 to b by refl", "names 2:1 N1\n"),
    ("rewrite 1 2 to x + 1 by refl", "sorts 2:1 S1\n"),
    ("rewrite 1 2 to 3 by\nhyp g", "names 3:1 N1\n"),
    ("open 1 as v : nat;\ny <- alloc (v)", "sorts 3:1 S2\n"),
    ("open 1 as v : loc;\nfree v at 1 by refl", "sorts 3:1 S2\n"),
];

fn around(alloc: Global, text: &str) -> Result<String, AllocError> {
    let mut source = String::new(alloc);
    source.push_str(BEFORE)?;
    source.push_str(text)?;
    source.push_str(AFTER)?;
    Ok(source)
}

fn is_taken(alloc: Global, text: &str, events: &str) -> Result<bool, AllocError> {
    let source = around(alloc, text)?;
    ends_so(
        alloc,
        source.as_str(),
        Status::Done,
        "done\nresult 3",
        events,
    )
}

fn is_refused(alloc: Global, text: &str, status: Status, line: &str) -> Result<bool, AllocError> {
    let source = around(alloc, text)?;
    runs_so(alloc, source.as_str(), status, line)
}

#[test]
fn steps_are_taken_and_their_atoms_numbered(rt: HostRuntime) -> Result<(), Fail> {
    let alloc = rt.alloc();
    for row in TAKEN {
        let (text, events) = *row;
        assert!(rt; is_taken(alloc, text, events)?);
    }
    Ok(())
}

#[test]
fn steps_are_refused_at_their_places(rt: HostRuntime) -> Result<(), Fail> {
    let alloc = rt.alloc();
    for row in REFUSED {
        let (text, line) = *row;
        assert!(rt; is_refused(alloc, text, Status::Rule, line)?);
    }
    Ok(())
}

#[test]
fn names_and_sorts_of_steps_come_before_their_rules(rt: HostRuntime) -> Result<(), Fail> {
    let alloc = rt.alloc();
    for row in OUT_OF_ORDER {
        let (text, line) = *row;
        assert!(rt; is_refused(alloc, text, Status::NamesOrSorts, line)?);
    }
    Ok(())
}
