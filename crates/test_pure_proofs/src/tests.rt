// Small proofs, checked. What is refused first, and where, is worked out by hand from the rules.
ghost use Rattle.std.specs.Prelude.{◌≡◌, [], IfOk};

use pure_proofs::{Known, Refusal, prove};
use sqlite_items::{Boxed, Items};
use std::alloc::{AllocError, Global};
use std::collections::BTreeMap;
use std::test::Fail;
use tht_tree::plain::{Memory, Name, Sort, Spot};
use tht_tree::proof::{Proof, ProofKind};
use tht_tree::rule::{RuleCode, RuleRefusal};
use tht_tree::state::{Hyp, Local, State};
use tht_tree::term::Term;

/// The proof in front stands in column 1, the one inside it in column 5.
const OUTER: Spot = Spot { line: 3, column: 1 };

const INNER: Spot = Spot { line: 3, column: 5 };

fn name(alloc: Global, text: &str) -> Result<Name, AllocError> {
    Ok(Name::new(String::from_str(alloc, text)?))
}

fn x(alloc: Global) -> Result<Boxed<Term>, AllocError> {
    let name = name(alloc, "x")?;
    Boxed::new(alloc, Term::Var(name))
}

/// `x = 1`
fn x_is_one(alloc: Global) -> Result<Term, AllocError> {
    let one = Boxed::new(alloc, Term::Num(1))?;
    let x = x(alloc)?;
    Ok(Term::Eq(x, one))
}

/// `1 = x`
fn one_is_x(alloc: Global) -> Result<Term, AllocError> {
    let one = Boxed::new(alloc, Term::Num(1))?;
    let x = x(alloc)?;
    Ok(Term::Eq(one, x))
}

fn hypothesis(alloc: Global) -> Result<Hyp, AllocError> {
    let name = name(alloc, "h")?;
    let formula = x_is_one(alloc)?;
    Ok(Hyp { name, formula })
}

/// The number `x`, with the hypothesis `h : x = 1`.
fn state(alloc: Global) -> Result<State, Memory>
    ensures { IfOk result (λ s. s.atoms.entries ≡ []) }
{
    let mut scope = BTreeMap::new(alloc);
    let key = String::from_str(alloc, "x")?;
    match scope.insert(key, Local::Variable(Sort::Nat)) {
        Ok(_shadowed) => {}
        Err(_failed) => return Err(Memory),
    }
    let mut hyps = Items::new(alloc);
    hyps.push(hypothesis(alloc)?)?;
    Ok(State {
        scope,
        hyps,
        atoms: BTreeMap::new(alloc),
        made: 0,
    })
}

/// `hyp NAME`
fn hyp(alloc: Global, text: &str) -> Result<Boxed<Proof>, AllocError> {
    let name = name(alloc, text)?;
    let kind = ProofKind::Hyp(name);
    Boxed::new(alloc, Proof { spot: INNER, kind })
}

fn refl(alloc: Global) -> Result<Boxed<Proof>, AllocError> {
    let kind = ProofKind::Refl;
    Boxed::new(alloc, Proof { spot: INNER, kind })
}

/// What is said of a proof, and how many hypotheses there are afterwards.
type Said = (Result<(), Refusal>, usize);

/// What is said of a proof, from `state`.
fn said(alloc: Global, proof: &Proof, goal: &Term) -> Result<Said, Refusal> {
    let state = state(alloc)?;
    let mut known = Known::new(alloc, state)?;
    let said = prove(proof, alloc, &[], &mut known, goal);
    Ok((said, known.into_state().hyps.len()))
}

/// What is said of `sym q`, for the goal `1 = x`.
fn said_of_symmetry(alloc: Global, q: Boxed<Proof>) -> Result<Said, Refusal> {
    let goal = one_is_x(alloc)?;
    let proof = Proof {
        spot: OUTER,
        kind: ProofKind::Sym(q),
    };
    said(alloc, &proof, &goal)
}

/// `(x = 1) imp (x = 1)`
fn implication(alloc: Global) -> Result<Term, AllocError> {
    let left = Boxed::new(alloc, x_is_one(alloc)?)?;
    let right = Boxed::new(alloc, x_is_one(alloc)?)?;
    Ok(Term::Imp(left, right))
}

/// What is said of `fun g . q`, for the goal `(x = 1) imp (x = 1)`.
fn said_of_function(alloc: Global, q: Boxed<Proof>) -> Result<Said, Refusal> {
    let goal = implication(alloc)?;
    let proof = Proof {
        spot: OUTER,
        kind: ProofKind::Fun(name(alloc, "g")?, q),
    };
    said(alloc, &proof, &goal)
}

fn refused(spot: Spot, code: RuleCode) -> Result<(), Refusal> {
    Err(Refusal::Rule(RuleRefusal { spot, code }))
}

#[test]
fn turns_a_hypothesis_round(rt: HostRuntime) -> Result<(), Fail> {
    let q = hyp(rt.alloc(), "h")?;
    assert_eq!(rt; said_of_symmetry(rt.alloc(), q)?, (Ok(()), 1));
    Ok(())
}

/// `1 = x` turned round is `x = 1`, whose sides are not the same: so `refl` is refused, at its place.
#[test]
fn refuses_the_inner_proof(rt: HostRuntime) -> Result<(), Fail> {
    let q = refl(rt.alloc())?;
    assert_eq!(rt;
        said_of_symmetry(rt.alloc(), q)?,
        (refused(INNER, RuleCode::R5), 1)
    );
    Ok(())
}

#[test]
fn assumes_and_forgets(rt: HostRuntime) -> Result<(), Fail> {
    let q = hyp(rt.alloc(), "g")?;
    assert_eq!(rt; said_of_function(rt.alloc(), q)?, (Ok(()), 1));
    let q = refl(rt.alloc())?;
    assert_eq!(rt;
        said_of_function(rt.alloc(), q)?,
        (refused(INNER, RuleCode::R5), 1)
    );
    let q = hyp(rt.alloc(), "k")?;
    assert_eq!(rt;
        said_of_function(rt.alloc(), q)?,
        (refused(INNER, RuleCode::R5), 1)
    );
    Ok(())
}

/// The formula `1 = x`, of three nodes, is known under this name beside `h : x = 1`: what the name stood for before, how many
/// hypotheses there are then, and how many nodes these have.
fn added(alloc: Global, text: &str) -> Result<(Option<Local>, usize, u64), Refusal> {
    let state = state(alloc)?;
    let mut known = Known::new(alloc, state)?;
    let name = name(alloc, text)?;
    let formula = one_is_x(alloc)?;
    let shadowed = known.add(Hyp { name, formula })?;
    let nodes = known.nodes;
    Ok((shadowed, known.into_state().hyps.len(), nodes))
}

#[test]
fn adds_a_hypothesis(rt: HostRuntime) -> Result<(), Fail> {
    assert_eq!(rt; added(rt.alloc(), "g")?, (None, 2, 6));
    assert_eq!(rt;
        added(rt.alloc(), "x")?,
        (Some(Local::Variable(Sort::Nat)), 2, 6)
    );
    Ok(())
}
