// Gives and proof steps of sources that the parser reads, worked out by hand.
use heap_rules::{Predicates, take_give, take_step};
use pure_proofs::{Known, Refusal};
use std::alloc::{AllocError, Global};
use std::test::Fail;
use tht_parse::parse;
use tht_tree::body::{EndKind, StmtKind};
use tht_tree::file::Source1;
use tht_tree::rule::RuleCode;
use tht_tree::state::State;

const BEFORE: &str = "tht 1
pred some (n : nat) = exists m : nat . [m <= n];
main r : unit { some(4) } {
";

/// Proof steps, the give of `some(4)` behind them, what is refused first, and how many hypotheses and atoms there are then and
/// how many atoms were numbered.
struct Case {
    steps: &'static str,
    refused: Option<Refused>,
    left: Left,
}

/// The numbers of hypotheses and of atoms, and of atoms that were numbered.
#[derive(Clone, Copy, Debug, PartialEq, Eq)]
struct Left(usize, usize, u32);

/// The line and the column of what is refused, and why.
type Refused = (u32, u32, RuleCode);

const CASES: &[Case] = &[
    Case {
        steps: "  fold some(4) by ex [3] [calc];\n  ret () by @1\n}\n",
        refused: None,
        left: Left(0, 0, 1),
    },
    Case {
        steps: "  have h : 1 = 1 by refl;\n  ret () by fold ex [4] [calc]\n}\n",
        refused: None,
        left: Left(1, 0, 0),
    },
    Case {
        steps: "  fold some(4) by ex [3] [calc];\n  unfold 1;\n  ret () by @1\n}\n",
        refused: Some((6, 13, RuleCode::R1)),
        left: Left(0, 1, 2),
    },
    Case {
        steps: "  have h : 1 = 1 by refl;\n  unfold 1;\n  ret () by @1\n}\n",
        refused: Some((5, 3, RuleCode::R1)),
        left: Left(1, 0, 0),
    },
    Case {
        steps: "  fold some(4) by ex [5] [calc];\n  ret () by @1\n}\n",
        refused: Some((4, 27, RuleCode::R8)),
        left: Left(0, 0, 0),
    },
];

fn no_memory<E: Drop>(_: E) -> AllocError {
    AllocError
}

fn text_of(alloc: Global, steps: &str) -> Result<String, AllocError> {
    let mut text = String::from_str(alloc, BEFORE)?;
    text.push_str(steps)?;
    Ok(text)
}

fn file_of(alloc: Global, steps: &str) -> Result<Source1, AllocError> {
    let text = text_of(alloc, steps)?;
    let bytes = text.as_bytes();
    if bytes.len() > 1_048_576 {
        return Err(AllocError);
    }
    parse(alloc, bytes).map_err(no_memory)
}

// Takes the proof steps of main, and then the give of its end.
fn take_all(
    alloc: Global,
    file: &Source1,
    predicates: &Predicates<'_>,
    known: &mut Known,
) -> Result<(), Refusal> {
    let body = file.main.body.get();
    for stmt in body.stmts.as_slice() {
        if let StmtKind::Proof(step) = &stmt.kind {
            take_step(alloc, known, predicates, step)?;
        }
    }
    match &body.end.kind {
        EndKind::Ret(_, give) => take_give(alloc, known, predicates, give, &file.main.post),
        _ => Ok(()),
    }
}

fn left_in(state: &State) -> Left {
    Left(state.hyps.len(), state.atoms.len(), state.made)
}

type Said = (Option<Refused>, Left);

fn said(taken: Result<(), Refusal>, left: Left) -> Result<Said, AllocError> {
    match taken {
        Ok(()) => Ok((None, left)),
        Err(Refusal::Rule(refusal)) => {
            let spot = refusal.spot;
            Ok((Some((spot.line, spot.column, refusal.code)), left))
        }
        Err(Refusal::Memory) => Err(AllocError),
    }
}

fn said_from(alloc: Global, file: &Source1, known: Known) -> Result<Said, AllocError> {
    let mut known = known;
    let predicates = Predicates::new(alloc, file.decls.as_slice()).map_err(no_memory)?;
    let taken = take_all(alloc, file, &predicates, &mut known);
    let left = left_in(&known.state);
    said(taken, left)
}

fn said_of(alloc: Global, file: &Source1) -> Result<Said, AllocError> {
    let known = Known::new(alloc, State::new(alloc)).map_err(no_memory)?;
    said_from(alloc, file, known)
}

fn holds(alloc: Global, case: &Case) -> Result<bool, AllocError> {
    let file = file_of(alloc, case.steps)?;
    let (refused, left) = said_of(alloc, &file)?;
    Ok(refused == case.refused && left == case.left)
}

#[test]
fn gives_and_steps_go_on_or_change_nothing(rt: HostRuntime) -> Result<(), Fail> {
    let alloc = rt.alloc();
    for case in CASES {
        assert!(rt; holds(alloc, case)?);
    }
    Ok(())
}
