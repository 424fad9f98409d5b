// Sources whose names or sorts are not in order, and the line that says so: the place of the construct, and the code. Each was
// worked out by hand.
use super::runs_so;
use std::test::Fail;
use tht_tree::status::Status;

const REFUSED: &[(&str, &str)] = &[
    (
        "tht 1\nmain r : nat { emp } { ret x by emp }",
        "names 2:24 N1\n",
    ),
    (
        "tht 1\nmain r : nat { emp } { ret r by emp }",
        "names 2:24 N1\n",
    ),
    (
        "tht 1\nmain r : nat { emp } {\nx <- alloc (x);\nret 0 by emp }",
        "names 3:1 N1\n",
    ),
    (
        "tht 1\nmain r : nat { emp } {\nhave g : true by\n  hyp h;\nret 0 by emp }",
        "names 4:3 N1\n",
    ),
    (
        "tht 1\nmain r : nat { emp } {\nhave g : 1 = 1 by\n  subst (x : nat . x = 1) [x] [1] refl refl;\nret 0 by emp }",
        "names 4:3 N1\n",
    ),
    (
        "tht 1\nmain r : nat { emp } {\nx <- alloc (0);\nx <- alloc (true + y);\nret 0 by emp }",
        "names 4:1 N1\n",
    ),
    (
        "tht 1\nmain r : nat { emp } {\nx <- alloc (0);\nx <- alloc (1);\nret 0 by emp }",
        "names 4:1 N2\n",
    ),
    (
        "tht 1\nmain r : nat { emp } {\nx <- alloc (0);\ny : nat <- read x at 1 as y by refl;\nret 0 by emp }",
        "names 4:1 N2\n",
    ),
    (
        "tht 1\nmain r : nat { emp } {\nhave g : true by fun e .\n  fun e . calc;\nret 0 by emp }",
        "names 4:3 N2\n",
    ),
    (
        "tht 1\nmain r : nat { emp } {\nhave h : true by calc;\nret h by emp }",
        "names 4:1 N3\n",
    ),
    (
        "tht 1\nmain r : nat { emp } {\nx <- alloc (0);\nhave g : true by\n  hyp x;\nret 0 by emp }",
        "names 5:3 N3\n",
    ),
    (
        "tht 1\nmain r : nat { emp } { ret true by emp }",
        "sorts 2:24 S1\n",
    ),
    (
        "tht 1\nmain r : nat { emp } {\nhave g : 1 = null by calc;\nret 0 by emp }",
        "sorts 3:1 S1\n",
    ),
    (
        "tht 1\nmain r : nat { emp } {\nx <- alloc (1 + nil);\nret 0 by emp }",
        "sorts 3:1 S1\n",
    ),
    (
        "tht 1\nmain r : nat { emp } {\nfree 1 at 1 by refl;\nret 0 by emp }",
        "sorts 3:1 S1\n",
    ),
    (
        "tht 1\nmain r : nat { emp } {\nhave g : true by\n  tail [nil] [0] calc;\nret 0 by emp }",
        "sorts 4:3 S1\n",
    ),
    (
        "tht 1\nmain r : nat { emp } { ret len nil by emp }",
        "sorts 2:24 S2\n",
    ),
    (
        "tht 1\nmain r : nat { emp } {\nx <- alloc (nil);\nret 0 by emp }",
        "sorts 3:1 S2\n",
    ),
    (
        "tht 1\nmain r : seq { emp } { ret 0 by emp }",
        "sorts 2:1 S5\n",
    ),
    (
        "tht 1\npred p () = q();\npred q () = emp;\nmain r : nat { emp } { ret 0 by emp }",
        "names 2:1 N1\n",
    ),
    (
        "tht 1\npred p () = emp;\npred p () = emp;\nmain r : nat { emp } { ret 0 by emp }",
        "names 3:1 N2\n",
    ),
    (
        "tht 1\nmain r : nat { exists r : nat . emp } { ret 0 by emp }",
        "names 2:1 N2\n",
    ),
    (
        "tht 1\npred p (x : nat) = emp;\nmain r : nat { p() } { ret 0 by emp }",
        "names 3:1 N4\n",
    ),
    (
        "tht 1\npred p (x : nat) = p();\nmain r : nat { emp } { ret 0 by emp }",
        "names 2:1 N4\n",
    ),
    (
        "tht 1\npred p () = p();\nmain r : nat { emp } { ret 0 by emp }",
        "names 2:1 N7\n",
    ),
    (
        "tht 1\nmain r : nat { emp } {\nopen 1 as x : nat;\nret x by emp }",
        "sorts 4:1 S2\n",
    ),
    (
        "tht 1\npred p (s : seq) = null -> s;\nmain r : nat { emp } { ret 0 by emp }",
        "sorts 2:1 S5\n",
    ),
    (
        "tht 1\nmain r : nat { emp } {\nx <- alloc (1, true, y);\nret 0 by emp }",
        "names 3:1 N1\n",
    ),
    (
        "tht 1\nmain r : nat { emp } {\nfold q() by emp;\nret 0 by emp }",
        "names 3:1 N1\n",
    ),
    (
        "tht 1\nmain r : nat { emp } {\nret 0 by\n  ex [y] emp }",
        "names 4:3 N1\n",
    ),
    (
        "tht 1\nmain r : nat { emp } {\nopen 1 as h;\nopen 2 as h;\nret 0 by emp }",
        "names 4:1 N2\n",
    ),
    (
        "tht 1\npred q (x : nat) = emp;\nmain r : nat { emp } {\nfold q(true) by emp;\nret 0 by emp }",
        "sorts 4:1 S1\n",
    ),
    (
        "tht 1\nmain r : nat { [r] } { ret 0 by emp }",
        "sorts 2:1 S1\n",
    ),
    (
        "tht 1\nmain r : nat { exists x : nat . x -> 1 } { ret 0 by emp }",
        "sorts 2:1 S1\n",
    ),
    (
        "tht 1\nmain r : nat { emp } {\nx <- call f()[] by emp;\nret 0 by emp }",
        "names 3:1 N1\n",
    ),
    (
        "tht 1\nmain r : nat { emp } {\nx : nat <- do () { y <- alloc (0); ret 0 by emp } { emp };\nret y by emp }",
        "names 4:1 N1\n",
    ),
    (
        "tht 1\nproc f (x : nat) [y : nat] { emp } r : nat { emp } { ret x by emp }\nmain r : nat { emp } {\nf <- alloc (0);\nret 0 by emp }",
        "names 4:1 N2\n",
    ),
    (
        "tht 1\nmain r : nat { emp } {\nif true as h {\n  if true as h { ret 0 by emp } else { ret 0 by emp }\n} else { ret 0 by emp } }",
        "names 4:3 N2\n",
    ),
    (
        "tht 1\nproc f (x : nat) [y : nat] { emp } r : nat { emp } { ret x by emp }\nmain r : nat { emp } { ret f by emp }",
        "names 3:24 N3\n",
    ),
    (
        "tht 1\nproc f (x : nat) [y : nat] { emp } r : nat { emp } { ret x by emp }\nmain r : nat { emp } {\nz <- call f(1, 2)[3] by emp;\nret 0 by emp }",
        "names 4:1 N4\n",
    ),
    (
        "tht 1\nproc f (x : nat) [y : nat] { emp } r : nat { emp } { ret x by emp }\nmain r : nat { emp } {\nz <- call f(1)[] by emp;\nret 0 by emp }",
        "names 4:1 N4\n",
    ),
    (
        "tht 1\nmain r : nat { emp } {\nif 1 as h { ret 0 by emp } else { ret 0 by emp } }",
        "sorts 3:1 S1\n",
    ),
    (
        "tht 1\nproc f (x : nat) [y : nat] { emp } r : nat { emp } { ret x by emp }\nmain r : nat { emp } {\nz <- call f(true)[0] by emp;\nret 0 by emp }",
        "sorts 4:1 S1\n",
    ),
    (
        "tht 1\nproc f () [y : nat] { emp } r : nat { emp } { ret y by emp }\nmain r : nat { emp } { ret 0 by emp }",
        "sorts 2:47 S2\n",
    ),
    (
        "tht 1\nmain r : nat { emp } {\nx : seq <- do () { ret 0 by emp } { emp };\nret 0 by emp }",
        "sorts 3:1 S5\n",
    ),
    (
        "tht 1\nproc f (s : seq) [] { emp } r : nat { emp } { ret 0 by emp }\nmain r : nat { emp } { ret 0 by emp }",
        "sorts 2:1 S5\n",
    ),
];

// Sources that have a form that is not built yet. That is said first, though their names or sorts are not in order.
const LATER: &[&str] = &[
    "tht 1\nmain r : nat { emp } {\n(x : nat, y : nat) <- par () { ret 0 by emp } { [y = 0] } () { ret 0 by emp } { emp };\nret 0 by emp }",
    "tht 1\npred l (s : seq) on s nil = [s = nil] cons m t = emp;\nmain r : nat { emp } { ret 0 by emp }",
    "tht 1\npred l (s : seq, s : nat) on s nil = [s = 0] cons m t = emp;\nmain r : nat { emp } { ret 0 by emp }",
    "tht 1\npred l (s : seq) on s nil = emp cons t t = emp;\nmain r : nat { emp } { ret 0 by emp }",
    "tht 1\npred p () = emp;\nmain r : nat { emp } {\nuse p() by emp;\nret 0 by emp }",
    "tht 1\nlemma l (k : nat) { emp } { emp } { ret () by emp }\nmain r : nat { l(0) } { ret 0 by emp }",
    "tht 1\npred p () = emp;\nroot a : loc := p;\ninvariant { emp } by emp;\nmain r : nat { emp } { ret 0 by emp }",
    "tht 1\nlemma l (k : nat) { emp } { emp } { ret () by emp }\nmain r : nat { emp } {\nhave g : true by\n  lemma l() calc;\nret 0 by emp }",
    "tht 1\ninvariant { emp } by emp;\ninvariant { emp } by emp;\nmain r : nat { emp } { ret 0 by emp }",
    "tht 1\nroot a : nat := 0;\ninvariant { a => 0 } by @1;\nroot b : nat := 0;\nmain r : nat { emp } { ret 0 by emp }",
    "tht 1\ntxn t () [] { emp } r : nat { emp } { ret 0 by emp }\ninvariant { emp } by emp;\nmain r : nat { emp } { ret 0 by emp }",
    "tht 1\nproc f (x : nat) [y : nat] { emp } r : nat { emp } { ret x by emp }\ninvariant { emp } by emp;\nmain r : nat { emp } { ret 0 by emp }",
    "tht 1\nroot a : nat := 0;\nroot b : nat := 0;\nmain r : nat { emp } { ret 0 by emp }",
    "tht 1\npred p () = emp;\nroot a : nat := true;\nmain r : nat { emp } { ret 0 by emp }",
    "tht 1\npred l (s : seq) on s nil = emp cons m t = l(m :: t);\nmain r : nat { emp } { ret 0 by emp }",
    "tht 1\npred l (s : seq) on s nil = l(nil) cons m t = emp;\nmain r : nat { emp } { ret 0 by emp }",
    "tht 1\nlemma l () { emp } { emp } {\nuse l() by emp;\nret () by emp }\nmain r : nat { emp } { ret 0 by emp }",
    "tht 1\nlemma l (k : nat) on k { emp } { emp } zero { ret () by emp } next m {\nuse l(m) by emp;\nuse l(m + 1) by emp;\nret () by emp }\nmain r : nat { emp } { ret 0 by emp }",
    "tht 1\nlemma l () { [true] } { [true] } {\nhave g : true by\n  lemma l() calc;\nret () by [hyp g] }\nmain r : nat { emp } { ret 0 by emp }",
    "tht 1\nroot a : nat := true;\ninvariant { emp } by emp;\nmain r : nat { emp } { ret 0 by emp }",
    "tht 1\npred l (k : nat) on k nil = emp cons m t = emp;\nmain r : nat { emp } { ret 0 by emp }",
    "tht 1\nlemma l (u : unit) { emp } { emp } { ret u by emp }\nmain r : nat { emp } { ret 0 by emp }",
    "tht 1\nlemma l (b : bool) { emp } { emp } { if b as h { ret () by emp } else { ret () by emp } }\nmain r : nat { emp } { ret 0 by emp }",
    "tht 1\nmain r : nat { null => 0 } { ret 0 by emp }",
    "tht 1\ninvariant { null -> 0 } by emp;\nmain r : nat { emp } { ret 0 by emp }",
    "tht 1\nshared pred p () = null -> 0;\nmain r : nat { emp } { ret 0 by emp }",
    "tht 1\npred p () = null => 0;\nmain r : nat { emp } { ret 0 by emp }",
    "tht 1\nmain r : nat { emp } {\nx : nat <- atomic () { ret 0 by emp } { null => 0 };\nret 0 by emp }",
    "tht 1\nmain r : nat { emp } {\nx : nat <- do () { ret 0 by emp } { null => 0 };\nret 0 by emp }",
    "tht 1\nproc f () [] { null => 0 } r : nat { emp } { ret 0 by emp }\nmain r : nat { emp } { ret 0 by emp }",
    "tht 1\nmain r : nat { either null -> 0 or null => 0 } { ret 0 by emp }",
    "tht 1\nmain r : nat { emp } {\nx <- alloc (0);\npublish x at 1 by refl;\nret 0 by emp }",
    "tht 1\nmain r : nat { emp } {\nx <- alloc (0);\nretract x at 1 by refl;\nret 0 by emp }",
    "tht 1\nmain r : nat { emp } {\nx : nat <- atomic () {\n  y : nat <- atomic () { ret 0 by emp } { emp };\n  ret y by emp } { emp };\nret 0 by emp }",
    "tht 1\ntxn t () [] { emp } r : nat { emp } { ret 0 by emp }\nmain r : nat { emp } {\nz <- call t()[] by emp;\nret 0 by emp }",
    "tht 1\nproc f (x : nat) [y : nat] { emp } r : nat { emp } { ret x by emp }\ntxn t () [] { emp } r : nat { emp } {\nz <- call f(1)[2] by emp;\nret 0 by emp }\nmain r : nat { emp } { ret 0 by emp }",
    "tht 1\nlemma l () { emp } { emp } {\nwrite null 0 at 1 by refl;\nret () by emp }\nmain r : nat { emp } { ret 0 by emp }",
    "tht 1\nlemma l () { emp } { emp } { if true as h { ret () by emp } else { ret () by emp } }\nmain r : nat { emp } { ret 0 by emp }",
    "tht 1\nlemma l () { emp } { emp } { ret 5 by emp }\nmain r : nat { emp } { ret 0 by emp }",
];

#[test]
fn names_and_sorts_are_refused_at_their_places(rt: HostRuntime) -> Result<(), Fail> {
    let alloc = rt.alloc();
    for row in REFUSED {
        let (source, line) = *row;
        assert_eq!(rt; runs_so(alloc, source, Status::NamesOrSorts, line)?, true);
    }
    Ok(())
}

#[test]
fn forms_that_are_not_built_are_refused_before_names_and_sorts(
    rt: HostRuntime,
) -> Result<(), Fail> {
    let alloc = rt.alloc();
    for source in LATER {
        assert_eq!(rt;
            runs_so(alloc, *source, Status::Text, "text later\n")?,
            true
        );
    }
    Ok(())
}
