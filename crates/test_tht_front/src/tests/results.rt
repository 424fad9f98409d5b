// What main returns, and the cells of one `alloc` in their order. Each was worked out by hand.
use super::runs_so;
use std::test::Fail;
use tht_tree::status::Status;

// Sources with the reports of their runs.
const RETURNED: &[(&str, &str)] = &[
    (
        "tht 1 main r : nat { [r = 3] } { ret 1 + 2 by [calc] }",
        "end done\nresult 3\nevents 0\ncost 0\naborts 0\norder\n",
    ),
    (
        "tht 1 main r : bool { [r = (2 < 3)] } { ret 2 < 3 by [refl] }",
        "end done\nresult true\nevents 0\ncost 0\naborts 0\norder\n",
    ),
    (
        "tht 1 main r : unit { [r = ()] } { ret () by [refl] }",
        "end done\nresult ()\nevents 0\ncost 0\naborts 0\norder\n",
    ),
    (
        "tht 1 main r : loc { [r = null] } { ret null.1 by [calc] }",
        "end done\nresult null\nevents 0\ncost 0\naborts 0\norder\n",
    ),
    // cells that are returned, and their indexes
    (
        "tht 1 main r : loc { r -> 3 } { x <- alloc (3); ret x by @1 }",
        "end done\nresult @0.0\nevents 1\ncost 1\naborts 0\norder\n0\n",
    ),
    (
        "tht 1 main r : loc { r -> 1 * r.1 -> 2 * r.2 -> 3 } { x <- alloc (1, 2, 3); ret x by @1 * @2 * @3 }",
        "end done\nresult @0.0\nevents 1\ncost 1\naborts 0\norder\n0\n",
    ),
    (
        "tht 1 main r : loc { r -> 4 * exists p : loc . p -> 3 } { x <- alloc (3, 4); ret x.1 by @2 * ex [x] @1 }",
        "end done\nresult @0.1\nevents 1\ncost 1\naborts 0\norder\n0\n",
    ),
    (
        "tht 1 main r : loc { r -> 3 * exists p : loc . p -> 1 * p.1 -> 2 } { x <- alloc (1, 2); y <- alloc (3); ret y by @3 * ex [x] (@1 * @2) }",
        "end done\nresult @0.2\nevents 2\ncost 2\naborts 0\norder\n0*2\n",
    ),
    (
        "tht 1 main r : loc { r -> 2 } { x <- alloc (1); free x at 1 by refl; y <- alloc (2); ret y by @2 }",
        "end done\nresult @0.1\nevents 3\ncost 3\naborts 0\norder\n0*3\n",
    ),
    // a is 3, and so is what the cell holds
    (
        "tht 1 main r : nat { exists p : loc . p -> r } { x <- alloc (3); a : nat <- read x at 1 as h by refl; rewrite 1 2 to a by sym hyp h; ret a by ex [x] @1 }",
        "end done\nresult 3\nevents 2\ncost 2\naborts 0\norder\n0*2\n",
    ),
    // a place that is equal to the atom's
    (
        "tht 1 main r : nat { emp } { x <- alloc (1); a : nat <- read x.0 at 1 as h by calc; free x at 1 by refl; ret a by emp }",
        "end done\nresult 1\nevents 3\ncost 3\naborts 0\norder\n0*3\n",
    ),
    // four cells of four sorts
    (
        "tht 1 main r : bool { emp } {\nx <- alloc (3, true, null, ());\na : nat <- read x at 1 as h by refl;\nb : bool <- read x.1 at 2 as k by refl;\nc : loc <- read x.2 at 3 as l by refl;\nd : unit <- read x.3 at 4 as m by refl;\nfree x at 1 by refl;\nfree x.1 at 2 by refl;\nfree x.2 at 3 by refl;\nfree x.3 at 4 by refl;\nret b by emp }",
        "end done\nresult true\nevents 9\ncost 9\naborts 0\norder\n0*9\n",
    ),
    // eight cells, each read by its number: 1 + 8 + 8 statements
    (
        "tht 1 main r : nat { emp } {\nx <- alloc (1, 2, 3, 4, 5, 6, 7, 8);\na : nat <- read x at 1 as ha by refl;\nb : nat <- read x.1 at 2 as hb by refl;\nc : nat <- read x.2 at 3 as hc by refl;\nd : nat <- read x.3 at 4 as hd by refl;\ne : nat <- read x.4 at 5 as he by refl;\nf : nat <- read x.5 at 6 as hf by refl;\ng : nat <- read x.6 at 7 as hg by refl;\ni : nat <- read x.7 at 8 as hi by refl;\nfree x at 1 by refl;\nfree x.1 at 2 by refl;\nfree x.2 at 3 by refl;\nfree x.3 at 4 by refl;\nfree x.4 at 5 by refl;\nfree x.5 at 6 by refl;\nfree x.6 at 7 by refl;\nfree x.7 at 8 by refl;\nret a + 10 * b + 100 * c + 1000 * d + 10000 * e + 100000 * f + 1000000 * g + 10000000 * i by emp }",
        "end done\nresult 87654321\nevents 17\ncost 17\naborts 0\norder\n0*17\n",
    ),
];

// Sources with the place and the code of what is refused first.
const NOT_RETURNED: &[(&str, &str)] = &[
    (
        "tht 1 main r : nat { [r = 3] } {\nret 4 by [\ncalc] }",
        "rule 3:1 R8\n",
    ),
    (
        "tht 1 main r : nat { [r = 3] } {\nret 1 + 2 by [\nrefl] }",
        "rule 3:1 R5\n",
    ),
    (
        "tht 1 main r : loc { r -> 3 } {\nx <- alloc (4);\nret x by\n@1 }",
        "rule 4:1 R4\n",
    ),
    (
        "tht 1 main r : loc { r -> 3 } {\nx <- alloc (3);\nret null by\n@1 }",
        "rule 4:1 R4\n",
    ),
    (
        "tht 1 main r : loc { r -> 3 } {\nx <- alloc (3, 4);\nret x.1 by\n@1 }",
        "rule 4:1 R4\n",
    ),
    (
        "tht 1 main r : loc { r -> 3 } {\nx <- alloc (3, 4);\nret x by @1 }",
        "rule 3:1 R3\n",
    ),
    (
        "tht 1 main r : nat { emp } {\nx <- alloc (3);\nfree x at 1 by refl;\nfree x at 1 by todo;\nret 0 by emp }",
        "rule 4:1 R1\n",
    ),
    (
        "tht 1 main r : nat { emp } {\nx <- alloc (3);\na : nat <- read x.0 at 1 as h by\nrefl;\nfree x at 1 by refl;\nret a by emp }",
        "rule 4:1 R5\n",
    ),
    (
        "tht 1 main r : nat { emp } {\nx <- alloc (3, true);\na : nat <- read x.1 at 2 as h by todo;\nret a by emp }",
        "rule 3:1 R2\n",
    ),
    (
        "tht 1 main r : nat { emp } {\nx <- alloc (1, 2, 3, 4, 5, 6, 7, 8);\na : nat <- read x.7 at 7 as h by\nrefl;\nret a by emp }",
        "rule 4:1 R5\n",
    ),
    (
        "tht 1 main r : nat { emp } {\nx <- alloc (1, 2, 3, 4, 5, 6, 7, 8);\na : nat <- read x.7 at 9 as h by todo;\nret a by emp }",
        "rule 3:1 R1\n",
    ),
];

#[test]
fn results_are_returned(rt: HostRuntime) -> Result<(), Fail> {
    let alloc = rt.alloc();
    for row in RETURNED {
        let (source, report) = *row;
        assert!(rt; runs_so(alloc, source, Status::Done, report)?);
    }
    Ok(())
}

#[test]
fn results_are_refused_at_their_places(rt: HostRuntime) -> Result<(), Fail> {
    let alloc = rt.alloc();
    for row in NOT_RETURNED {
        let (source, line) = *row;
        assert!(rt; runs_so(alloc, source, Status::Rule, line)?);
    }
    Ok(())
}
