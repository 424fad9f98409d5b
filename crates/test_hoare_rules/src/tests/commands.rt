// Statements that are taken one at a time, and files whose forms are built, of sources that the parser reads. What is expected was worked
// out by hand.
ghost use Rattle.std.specs.Prelude.{◌≤◌, All, IfOk};
ghost use Rattle.tht_tree.specs.Rules.Context.{context_of};

use super::sources::{Refused, no_memory, parsed, refused};
use hoare_rules::{Predicates, is_built, take_command};
use sqlite_items::Items;
use std::alloc::{AllocError, Global};
use std::collections::BTreeMap;
use std::test::Fail;
use tht_tree::body::{Body, Stmt};
use tht_tree::file::Source1;
use tht_tree::plain::Sort;
use tht_tree::rule::RuleCode;
use tht_tree::state::{Local, State};

// ---- statements

const BEFORE: &str = "tht 1
proc same (n : nat) [] { emp } r : nat { [r = n] } { ret n by [refl] }
main r : nat { emp } {
  ";

const BEHIND: &str = ";
  ret 0 by emp
}
";

/// How many names, hypotheses and atoms are known, and how many atoms were numbered.
#[derive(Clone, Copy, Debug, PartialEq, Eq)]
struct Counts(usize, usize, usize, u32);

/// A statement, which stands on line 4 from column 3 on, what is refused of it, and what is known behind it.
struct Case {
    stmt: &'static str,
    refused: Option<Refused>,
    known: Counts,
}

// One name is known, and seven atoms were numbered, of which none is there.
const NO_CHANGE: Counts = Counts(1, 0, 0, 7);

const CASES: &[Case] = &[
    Case {
        stmt: "x <- alloc (3, 4)",
        refused: None,
        known: Counts(2, 0, 2, 9),
    },
    Case {
        stmt: "have h : 1 = 1 by refl",
        refused: None,
        known: Counts(2, 1, 0, 7),
    },
    Case {
        stmt: "z <- call same(7)[] by emp",
        refused: None,
        known: Counts(2, 0, 1, 8),
    },
    // what an inner body makes, it keeps for itself
    Case {
        stmt: "z : nat <- do () { x <- alloc (3); have h : 1 = 1 by refl; free x at 8 by refl; ret 5 by [refl] } { [z = 5] }",
        refused: None,
        known: Counts(2, 0, 1, 8),
    },
    // what is refused changes nothing
    Case {
        stmt: "free w at 7 by refl",
        refused: Some((4, 3, RuleCode::R1)),
        known: NO_CHANGE,
    },
    Case {
        stmt: "have h : 1 = 2 by refl",
        refused: Some((4, 21, RuleCode::R5)),
        known: NO_CHANGE,
    },
    Case {
        stmt: "z <- call same(7)[] by @7",
        refused: Some((4, 26, RuleCode::R1)),
        known: NO_CHANGE,
    },
    Case {
        stmt: "z : nat <- do (7) { ret 5 by emp } { emp }",
        refused: Some((4, 3, RuleCode::R1)),
        known: NO_CHANGE,
    },
    Case {
        stmt: "z : nat <- do () { x <- alloc (3); ret 5 by emp } { emp }",
        refused: Some((4, 38, RuleCode::R3)),
        known: NO_CHANGE,
    },
];

// The place w is known, and seven atoms were numbered, of which none is there.
fn state_before(alloc: Global) -> Result<State, AllocError>
    ensures { IfOk result (λ s. All (λ a. a.0 ≤ (context_of s).made) (context_of s).atoms) }
{
    let mut scope = BTreeMap::new(alloc);
    scope.insert(String::from_str(alloc, "w")?, Local::Variable(Sort::Loc))?;
    Ok(State {
        scope,
        hyps: Items::new(alloc),
        atoms: BTreeMap::new(alloc),
        made: 7,
    })
}

fn counts_of(state: &State) -> Counts {
    Counts(
        state.scope.len(),
        state.hyps.len(),
        state.atoms.len(),
        state.made,
    )
}

fn source_of(alloc: Global, stmt: &str) -> Result<Source1, AllocError> {
    let mut text = String::from_str(alloc, BEFORE)?;
    text.push_str(stmt)?;
    text.push_str(BEHIND)?;
    parsed(alloc, text.as_str())
}

fn first_of(body: &Body) -> Option<&Stmt> {
    body.stmts.as_slice().first()
}

// Takes the statement, and says what is refused of it and what is known then.
fn taken(
    alloc: Global,
    predicates: &Predicates<'_>,
    stmt: &Stmt,
) -> Result<(Option<Refused>, Counts), AllocError> {
    let mut state = state_before(alloc)?;
    let said = take_command(alloc, predicates, &mut state, stmt);
    Ok((refused(said)?, counts_of(&state)))
}

fn taken_of(
    alloc: Global,
    file: &Source1,
    stmt: &Stmt,
) -> Result<(Option<Refused>, Counts), AllocError> {
    let predicates = Predicates::new(alloc, file.decls.as_slice()).map_err(no_memory)?;
    taken(alloc, &predicates, stmt)
}

fn holds(alloc: Global, case: &Case) -> Result<bool, AllocError> {
    let file = source_of(alloc, case.stmt)?;
    let Some(stmt) = first_of(file.main.body.get()) else {
        return Ok(false);
    };
    let (refused, known) = taken_of(alloc, &file, stmt)?;
    Ok(refused == case.refused && known == case.known)
}

#[test]
fn statements_go_on_or_change_nothing(rt: HostRuntime) -> Result<(), Fail> {
    let alloc = rt.alloc();
    for case in CASES {
        assert!(rt; holds(alloc, case)?, "{}", case.stmt);
    }
    Ok(())
}

// ---- forms that are built

// A file with every form of statement, end and declaration that is built.
const ALL_BUILT: &str = "tht 1
pred p (n : nat) = exists m : nat . [m = n] * either emp or null -> m;
proc f (n : nat) [s : seq] { p(n) } r : nat { emp } { ret n by emp }
main r : nat { emp } {
  x <- alloc (1, 2);
  a : nat <- read x at 1 as h by refl;
  write x 2 at 1 by refl;
  free x at 1 by refl;
  b <- call f(1)[nil] by @1;
  c : nat <- do () { ret 0 by emp } { p(c) };
  if true as k {
    case 1 { ret 0 by emp } { ret 0 by emp }
  } else {
    case [true] as m { ret 0 by emp } {
      case seq nil as q { ret 0 by emp } n t { dead todo { ret 0 by emp } }
    }
  }
}
";

const BUILT: &[&str] = &["tht 1 main r : nat { emp } { ret 0 by emp }", ALL_BUILT];

// Files with a form that is not built, in a declaration, in a box, in an inner body and in a proof.
const NOT_BUILT: &[&str] = &[
    "tht 1 root a : nat := 0; main r : nat { emp } { ret 0 by emp }",
    "tht 1 invariant { emp } by emp; main r : nat { emp } { ret 0 by emp }",
    "tht 1 shared pred p () = emp; main r : nat { emp } { ret 0 by emp }",
    "tht 1 pred p (s : seq) on s nil = emp cons n t = emp; main r : nat { emp } { ret 0 by emp }",
    "tht 1 lemma l () { emp } { emp } { ret () by emp } main r : nat { emp } { ret 0 by emp }",
    "tht 1 txn t () [] { emp } r : nat { emp } { ret 0 by emp } main r : nat { emp } { ret 0 by emp }",
    "tht 1 proc f () [] { null => 0 } r : nat { emp } { ret 0 by emp } main r : nat { emp } { ret 0 by emp }",
    "tht 1 main r : nat { either emp or null => 0 } { ret 0 by emp }",
    "tht 1 main r : nat { emp } { c : nat <- do () { ret 0 by emp } { null => 0 }; ret 0 by emp }",
    "tht 1 main r : nat { emp } { c : nat <- do () { publish null at 1 by refl; ret 0 by emp } { emp }; ret 0 by emp }",
    "tht 1 main r : nat { emp } { if true as h { ret 0 by emp } else { retract null at 1 by refl; ret 0 by emp } }",
    "tht 1 main r : nat { emp } { u : unit <- atomic () { ret () by emp } { emp }; ret 0 by emp }",
    "tht 1 main r : nat { emp } { use l() by emp; ret 0 by emp }",
    "tht 1 main r : nat { emp } { dead lemma l() calc { ret 0 by emp } }",
];

fn built(alloc: Global, text: &str) -> Result<bool, AllocError> {
    let file = parsed(alloc, text)?;
    Ok(is_built(&file))
}

#[test]
fn files_are_built_or_not(rt: HostRuntime) -> Result<(), Fail> {
    let alloc = rt.alloc();
    for text in BUILT {
        assert!(rt; built(alloc, *text)?, "{}", *text);
    }
    for text in NOT_BUILT {
        assert!(rt; !built(alloc, *text)?, "{}", *text);
    }
    Ok(())
}
