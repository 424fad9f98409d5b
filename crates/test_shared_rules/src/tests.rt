// Atoms that are dealt to an inner body, worked out by hand.
use pure_proofs::Refusal;
use shared_rules::deal;
use std::alloc::{AllocError, Global};
use std::test::Fail;
use tht_tree::plain::Spot;
use tht_tree::rule::{RuleCode, RuleRefusal};
use tht_tree::state::State;

const SPOT: Spot = Spot { line: 4, column: 3 };

/// What is refused, or the number of atoms dealt.
#[derive(Clone, Copy, Debug, PartialEq, Eq)]
enum Dealt {
    Atoms(usize),
    Refused(RuleRefusal),
}

fn deal_these(alloc: Global, numbers: &[u64]) -> Result<Dealt, AllocError> {
    let mut state = State::new(alloc);
    match deal(alloc, &mut state, numbers, SPOT) {
        Ok(given) => Ok(Dealt::Atoms(given.atoms.len())),
        Err(Refusal::Rule(refusal)) => Ok(Dealt::Refused(refusal)),
        Err(Refusal::Memory) => Err(AllocError),
    }
}

#[test]
fn atoms_that_are_there_are_dealt(rt: HostRuntime) -> Result<(), Fail> {
    let alloc = rt.alloc();
    let refused = RuleRefusal {
        spot: SPOT,
        code: RuleCode::R1,
    };
    assert_eq!(rt; deal_these(alloc, &[])?, Dealt::Atoms(0));
    assert_eq!(rt; deal_these(alloc, &[1])?, Dealt::Refused(refused));
    Ok(())
}
