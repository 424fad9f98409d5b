// Proofs that are taken, and the first refusal of others, worked out by hand. Each stands behind these statements, from line 2 on.
use super::runs_so;
use std::alloc::{AllocError, Global};
use std::test::Fail;
use tht_tree::status::Status;

// What is known: h says that a is 3, k that b is 4; atom 1 is the cell of p, and atom 2 that of q.
const BEFORE: &str =
    "tht 1 main r : nat { emp } { p <- alloc (3); q <- alloc (4); a : nat <- read p at 1 as h by refl; b : nat <- read q at 2 as k by refl;\n";

const AFTER: &str = "\n; free p at 1 by refl; free q at 2 by refl; ret a by emp }";

const DONE: &str = "end done\nresult 3\nevents 6\ncost 6\naborts 0\norder\n0*6\n";

// Each form of proof, accepted.
const ACCEPTED: &[&str] = &[
    "have g : a = 3 by hyp h",
    "have g : a + 1 = a + 1 by refl",
    "have g : p.1 = p.1 by refl",
    "have g : 1 + 2 = 3 by calc",
    "have g : a + b = b + a by calc",
    "have g : 0 <= a by calc",
    "have g : not (3 = 4) by calc",
    "have g : null.1 = null by calc",
    "have g : len (a :: nil ++ nil) = 1 by calc",
    "have g : (a + 1) * (a + 1) = a * a + 2 * a + 1 by calc",
    "have g : a - 0 = a by calc",
    "have g : 3 - 5 = 0 by calc",
    "have g : (a = 3) = true imp a = 3 by fun e . as [(a = 3) = true] hyp e",
    "have g : a + 1 = 1 + a by as [a = a] refl",
    "have g : 3 = a by sym hyp h",
    "have g : a = 3 by both lin 1 { 1 [a = 3] hyp h } lin 1 { 1 [3 = a] sym hyp h }",
    "have g : 3 + 1 = a + 1 by subst (x : nat . x + 1 = a + 1) [a] [3] hyp h refl",
    "have g : a = 3 and true by pair hyp h calc",
    "have g : a = 3 by fst [b = 4] pair hyp h hyp k",
    "have g : b = 4 by snd [a = 3] pair hyp h hyp k",
    "have g : a = 3 or false by inl hyp h",
    "have g : false or a = 3 by inr hyp h",
    "have g : b = 4 by cases [a = 3 or false] inl hyp h { e . hyp k } { e . absurd hyp e }",
    "have g : a = 3 and b = 4 imp b = 4 by fun e . snd [a = 3] hyp e",
    "have g : not (not true) by fun e . neg [true] hyp e calc",
    "have g : a = 3 by app [b = 4] fun e . hyp h hyp k",
    "have g : false imp a = 9 by fun e . absurd hyp e",
    "have g : a = 9 or not (a = 9) by em [a = 9] { e . inl hyp e } { e . inr hyp e }",
    "have g : a <= 3 by lin 1 { 1 [a = 3] hyp h }",
    "have g : a < 4 by lin 1 { 1 [a = 3] hyp h }",
    "have g : a = 3 by lin 1 { 1 [a = 3] hyp h }",
    "have g : a + b = 7 by lin 1 { 1 [a = 3] hyp h, 1 [b = 4] hyp k }",
    "have g : 2 * a <= 6 by lin 1 { 2 [a = 3] hyp h }",
    "have g : 4 <= a imp false by fun e . lin 0 { 1 [a = 3] hyp h, 1 [4 <= a] hyp e }",
    "have g : not (a <= 2) by fun e . lin 0 { 1 [3 = a] sym hyp h, 1 [a <= 2] hyp e }",
    "have g : not (a < 3) imp 3 <= a by fun e . lin 1 { 1 [not (a < 3)] hyp e }",
    "have g : a - 1 + 1 = a by monus lin 1 { 1 [3 = a] sym hyp h }",
    "have g : a - 5 = 0 by monus lin 1 { 1 [a = 3] hyp h }",
    "have g : a = 3 by head [nil] [nil] subst (x : nat . a :: nil = x :: nil) [a] [3] hyp h refl",
    "have g : nil = nil by tail [a] [a] refl",
    "have g : not (nil = a :: nil) by nocons",
    "have g : not (p = q) by apart 1 2",
    "have g : not (q = p) by apart 2 1",
    "have g : not (p = null) by nonnull 1",
];

// Proofs with the place and the code of what is refused first. What stands at a place of its own begins a line.
const REFUSED: &[(&str, &str)] = &[
    ("have g : 3 = a by\nhyp h", "rule 3:1 R5\n"),
    ("have g : a + 0 = 3 by\nhyp h", "rule 3:1 R5\n"),
    ("have g : a + 1 = 1 + a by\nrefl", "rule 3:1 R5\n"),
    ("have g : true by\nrefl", "rule 3:1 R5\n"),
    ("have g : a = 3 by\ncalc", "rule 3:1 R8\n"),
    ("have g : 3 = 4 by\ncalc", "rule 3:1 R8\n"),
    (
        "have g : 18446744073709551615 * 18446744073709551615 * 2 = 0 by\ncalc",
        "rule 3:1 R7\n",
    ),
    ("have g : a = 3 by\nas [a = 3]\nhyp k", "rule 4:1 R5\n"),
    ("have g : a = 4 by\nas [a = 3]\nhyp h", "rule 3:1 R8\n"),
    ("have g : a <= 3 by\nsym hyp h", "rule 3:1 R5\n"),
    ("have g : 4 = a by\nsym\nhyp h", "rule 4:1 R5\n"),
    ("have g : p = p by\nboth refl refl", "rule 3:1 R5\n"),
    ("have g : a <= 3 by\nboth calc calc", "rule 3:1 R5\n"),
    ("have g : a = 3 by\nboth\ncalc\ntodo", "rule 4:1 R8\n"),
    (
        "have g : a = 3 by\nboth\nlin 1 { 1 [a = 3] hyp h }\ncalc",
        "rule 5:1 R8\n",
    ),
    (
        "have g : 4 = a by\nsubst (x : nat . x = a) [a] [3] hyp h refl",
        "rule 3:1 R5\n",
    ),
    (
        "have g : 4 = a by\nsubst (x : nat . x = a) [a] [4]\nhyp h\nrefl",
        "rule 4:1 R5\n",
    ),
    (
        "have g : 3 = b by\nsubst (x : nat . x = b) [a] [3]\nhyp h\nrefl",
        "rule 5:1 R5\n",
    ),
    ("have g : a = 3 by\npair hyp h calc", "rule 3:1 R5\n"),
    (
        "have g : a = 3 and b = 4 by\npair\nhyp k\ntodo",
        "rule 4:1 R5\n",
    ),
    (
        "have g : a = 3 and b = 4 by\npair\nhyp h\ntodo",
        "rule 5:1 R9\n",
    ),
    ("have g : a = 3 by\nfst [b = 4]\nhyp h", "rule 4:1 R5\n"),
    (
        "have g : b = 4 by\nfst [b = 4]\npair\nhyp h\nhyp k",
        "rule 5:1 R5\n",
    ),
    (
        "have g : a = 3 by\nsnd [b = 4]\npair\nhyp h\nhyp k",
        "rule 5:1 R5\n",
    ),
    ("have g : a = 3 by\ninl hyp h", "rule 3:1 R5\n"),
    ("have g : a = 3 and true by\ninr hyp h", "rule 3:1 R5\n"),
    ("have g : b = 4 or a = 3 by\ninl\nhyp h", "rule 4:1 R5\n"),
    ("have g : a = 3 or b = 4 by\ninr\nhyp h", "rule 4:1 R5\n"),
    (
        "have g : true by\ncases [a = 3] todo { e . calc } { e . calc }",
        "rule 3:1 R5\n",
    ),
    (
        "have g : true by\ncases [a = 3 or b = 4]\nhyp h\n{ e . calc } { e . calc }",
        "rule 4:1 R5\n",
    ),
    (
        "have g : true by\ncases [a = 3 or b = 4] inl hyp h { e .\ntodo } { e . calc }",
        "rule 4:1 R9\n",
    ),
    (
        "have g : true by\ncases [a = 3 or b = 4] inl hyp h { e . calc } { e .\ntodo }",
        "rule 4:1 R9\n",
    ),
    (
        "have g : a = 3 by\ncases [a = 3 or b = 4] inl hyp h { e . hyp e } { e .\nhyp e }",
        "rule 4:1 R5\n",
    ),
    ("have g : true by\nfun e . calc", "rule 3:1 R5\n"),
    (
        "have g : a = 3 imp b = 4 by\nfun e .\nhyp e",
        "rule 4:1 R5\n",
    ),
    ("have g : not (a = 3) by\nfun e .\nhyp e", "rule 4:1 R5\n"),
    (
        "have g : a = 3 by\napp [b = 4]\nhyp k\nhyp k",
        "rule 4:1 R5\n",
    ),
    (
        "have g : a = 3 by\napp [b = 4] fun e . hyp h\nhyp h",
        "rule 4:1 R5\n",
    ),
    ("have g : true by\nneg [a = 3] todo hyp h", "rule 3:1 R5\n"),
    (
        "have g : not (not true) by fun e .\nneg [a = 3]\nhyp e\nhyp h",
        "rule 4:1 R5\n",
    ),
    (
        "have g : not (not true) by fun e .\nneg [true] hyp e\nhyp h",
        "rule 4:1 R5\n",
    ),
    ("have g : a = 9 by\nabsurd\nhyp h", "rule 4:1 R5\n"),
    (
        "have g : true by\nem [a = 9] { e .\ntodo } { e . calc }",
        "rule 4:1 R9\n",
    ),
    (
        "have g : a = 9 by\nem [a = 9] { e . hyp e } { e .\nhyp e }",
        "rule 4:1 R5\n",
    ),
    ("have g : true by\nlin 1 {}", "rule 3:1 R5\n"),
    (
        "have g : a <= 3 by\nlin 1 { 1 [true] todo }",
        "rule 3:1 R5\n",
    ),
    (
        "have g : a <= 3 by\nlin 1 { 1 [a = 3]\nhyp k, 1 [true] todo }",
        "rule 4:1 R5\n",
    ),
    (
        "have g : a = 3 by\nlin 1 { 1 [a <= 3] todo }",
        "rule 3:1 R5\n",
    ),
    (
        "have g : a <= 2 by\nlin 1 { 1 [a = 3] hyp h }",
        "rule 3:1 R6\n",
    ),
    (
        "have g : a <= 3 by\nlin 1 { 0 [a = 3] hyp h }",
        "rule 3:1 R6\n",
    ),
    (
        "have g : 18446744073709551615 * 9223372036854775809 <= 0 by\nlin 1 {}",
        "rule 3:1 R7\n",
    ),
    ("have g : a = 3 by\nmonus hyp h", "rule 3:1 R5\n"),
    ("have g : a - 5 + 5 = a by\nmonus\nhyp h", "rule 4:1 R5\n"),
    ("have g : a = 3 by\nhead [nil] [nil]\nrefl", "rule 4:1 R5\n"),
    ("have g : not (a = 3) by\nnocons", "rule 3:1 R5\n"),
    ("have g : not (p = q) by\napart 1 3", "rule 3:1 R1\n"),
];

fn around(alloc: Global, step: &str) -> Result<String, AllocError> {
    let mut source = String::new(alloc);
    source.push_str(BEFORE)?;
    source.push_str(step)?;
    source.push_str(AFTER)?;
    Ok(source)
}

fn step_runs_so(
    alloc: Global,
    step: &str,
    status: Status,
    output: &str,
) -> Result<bool, AllocError> {
    let source = around(alloc, step)?;
    runs_so(alloc, source.as_str(), status, output)
}

#[test]
fn each_form_of_proof_is_taken(rt: HostRuntime) -> Result<(), Fail> {
    let alloc = rt.alloc();
    for step in ACCEPTED {
        assert_eq!(rt; step_runs_so(alloc, *step, Status::Done, DONE)?, true);
    }
    Ok(())
}

#[test]
fn proofs_are_refused_at_their_places(rt: HostRuntime) -> Result<(), Fail> {
    let alloc = rt.alloc();
    for row in REFUSED {
        let (step, line) = *row;
        assert_eq!(rt; step_runs_so(alloc, step, Status::Rule, line)?, true);
    }
    Ok(())
}

// The place z was read from a cell, and is that of atom 1: by its hypothesis, and not as a tree.
const READ_PLACE: &str =
    "tht 1\nmain r : nat { emp } {\n  x <- alloc (7);\n  y <- alloc (x);\n  z : loc <- read y at 2 as h by refl;\n  a : nat <- read z at 1 as k by ";

const PLACE_READ: &str = ";\n  free x at 1 by refl;\n  free y at 2 by refl;\n  ret a by emp\n}\n";

const SEVEN: &str = "end done\nresult 7\nevents 6\ncost 6\naborts 0\norder\n0*6\n";

fn place_is_read_so(
    alloc: Global,
    proof: &str,
    status: Status,
    output: &str,
) -> Result<bool, AllocError> {
    let mut source = String::new(alloc);
    source.push_str(READ_PLACE)?;
    source.push_str(proof)?;
    source.push_str(PLACE_READ)?;
    runs_so(alloc, source.as_str(), status, output)
}

#[test]
fn a_place_that_was_read_is_proved(rt: HostRuntime) -> Result<(), Fail> {
    let alloc = rt.alloc();
    assert!(rt; place_is_read_so(alloc, "hyp h", Status::Done, SEVEN)?);
    assert!(rt; place_is_read_so(alloc, "refl", Status::Rule, "rule 6:34 R5\n")?);
    Ok(())
}
