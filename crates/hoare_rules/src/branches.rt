// What is known at the start of each branch of a case.
ghost use Rattle.std.specs.Prelude.{◌≡◌, ◌≤◌, All, IfOk, IfErr, OnOk};
ghost use Rattle.tht_tree.specs.declared.term.Term.TheVariants.{Eq, Not, Nil, Cons, Var};
ghost use Rattle.tht_tree.specs.declared.state.Post.{Post};
ghost use Rattle.tht_tree.specs.Rules.Context.{Context, context_of};
ghost use Rattle.tht_logic.specs.Rules.Bodies.{assuming, by_sequence, by_truth, sides as sides_at};
ghost use Rattle.tht_logic.specs.Rules.Calls.{InBody};
ghost use Rattle.heap_rules.specs.Following.{Makes};
ghost use Rattle.hoare_rules.specs.Branches.{by_branches, entered, FindsSides, side_at, side_of, with_side, with_parts};
ghost use Rattle.hoare_rules.specs.Cells.{Says};

use heap_rules::{Sides, as_disjunction, bind, find_atom, refused, replace_atom};
use pure_proofs::{Known, Refusal};
use sqlite_items::Boxed;
use std::alloc::Global;
use tht_tree::assn::Assn;
use tht_tree::plain::{Name, Sort, Spot};
use tht_tree::rule::RuleCode;
use tht_tree::state::{Hyp, Local, State};
use tht_tree::term::Term;

/// A term of which the branches of a case tell something, as a hypothesis with this name.
#[derive(Clone, Copy)]
pub(crate) struct Case<'a> {
    pub hyp: &'a Name,
    pub term: &'a Term,
}

/// What is known at the start of a branch.
#[derive(Clone, Copy)]
pub(crate) enum Branch<'a> {
    /// The term is true.
    Holds(Case<'a>),
    /// The term is false.
    Fails(Case<'a>),
    /// The left side of the atom with this number holds.
    Left(u64),
    /// The right side of it holds.
    Right(u64),
    /// The sequence is empty.
    Empty(Case<'a>),
    /// The sequence is a head before a tail, which have these names.
    Link(Case<'a>, &'a Name, &'a Name),
}

/// A branch of the end at this spot.
#[derive(Clone, Copy)]
pub(crate) struct Entry<'a> {
    pub spot: Spot,
    pub branch: Branch<'a>,
}

/// The two branches of the end at this spot.
#[derive(Clone, Copy)]
pub(crate) struct Fork<'a> {
    pub spot: Spot,
    pub first: Branch<'a>,
    pub second: Branch<'a>,
}

/// The branches of a formula: it is true, or it is false.
pub(crate) fn truth<'a>(spot: Spot, hyp: &'a Name, term: &'a Boxed<Term>) -> Fork<'a>
    ensures spot { result.spot ≡ spot }
    ensures branches { (c : Context) (body other : InBody) (post : Post) → by_branches spot c result.first result.second body other post ≡ by_truth spot c hyp.now term.now body other post }
{
    let case = Case {
        hyp,
        term: term.get(),
    };
    Fork {
        spot,
        first: Branch::Holds(case),
        second: Branch::Fails(case),
    }
}

/// The branches of a sequence: it is empty, or it is a head before a tail, which have these names.
pub(crate) fn sequence<'a>(
    spot: Spot,
    hyp: &'a Name,
    term: &'a Boxed<Term>,
    head: &'a Name,
    tail: &'a Name,
) -> Fork<'a>
    ensures spot { result.spot ≡ spot }
    ensures branches { (c : Context) (body other : InBody) (post : Post) → by_branches spot c result.first result.second body other post ≡ by_sequence spot c hyp.now term.now body head.now tail.now other post }
{
    let case = Case {
        hyp,
        term: term.get(),
    };
    Fork {
        spot,
        first: Branch::Empty(case),
        second: Branch::Link(case, head, tail),
    }
}

/// An atom that the end at this spot names.
#[derive(Clone, Copy)]
pub(crate) struct NamedAtom {
    pub spot: Spot,
    pub number: u64,
}

/// What is known, once more.
pub(crate) fn copy_of(alloc: Global, known: &Known) -> Result<Known, Refusal>
    ensures same { IfOk result (λ k. context_of k.state ≡ context_of known.now.state) }
    ensures memory { IfErr result (λ e. e ≡ Refusal.Memory) }
{
    known_in(alloc, &known.state)
}

/// What is known in a state, none of whose atoms has a number above those made.
pub(crate) fn known_in(alloc: Global, state: &State) -> Result<Known, Refusal>
    requires { All (λ a. a.0 ≤ state.now.made) state.now.atoms.entries }
    ensures same { IfOk result (λ k. context_of k.state ≡ context_of state.now) }
    ensures memory { IfErr result (λ e. e ≡ Refusal.Memory) }
{
    let copy = state.copy(alloc)?;
    Known::new(alloc, copy)
}

/// Goes on to what is known at the start of a branch.
pub(crate) fn enter(alloc: Global, known: &mut Known, entry: Entry<'_>) -> Result<(), Refusal>
    ensures { Says result (entered entry.entry.spot (context_of known.old.state) entry.entry.branch) (context_of known.new.state) }
{
    match entry.branch {
        Branch::Holds(case) => assume_true(alloc, known, entry.spot, case),
        Branch::Fails(case) => assume_false(alloc, known, entry.spot, case),
        Branch::Left(number) => take_side(alloc, known, entry.spot, number, Side::Left),
        Branch::Right(number) => take_side(alloc, known, entry.spot, number, Side::Right),
        Branch::Empty(case) => assume_empty(alloc, known, entry.spot, case),
        Branch::Link(case, head, tail) => assume_link(alloc, known, entry.spot, case, head, tail),
    }
}

// ---- hypotheses

#[tactic(auto, using(crate::proofs::Branching::assuming_same))]
fn assume_true(alloc: Global, known: &mut Known, spot: Spot, case: Case<'_>) -> Result<(), Refusal>
    ensures { Says result (assuming spot (context_of known.old.state) case.entry.hyp.now case.entry.term.now) (context_of known.new.state) }
{
    let formula = case.term.copy(alloc)?;
    suppose(known, spot, case.hyp, formula)
}

#[tactic(auto, using(crate::proofs::Branching::assuming_same))]
fn assume_false(alloc: Global, known: &mut Known, spot: Spot, case: Case<'_>) -> Result<(), Refusal>
    ensures { Says result (assuming spot (context_of known.old.state) case.entry.hyp.now (Not case.entry.term.now)) (context_of known.new.state) }
{
    let term = Boxed::new(alloc, case.term.copy(alloc)?)?;
    suppose(known, spot, case.hyp, Term::Not(term))
}

#[tactic(auto, using(crate::proofs::Branching::assuming_same))]
fn assume_empty(alloc: Global, known: &mut Known, spot: Spot, case: Case<'_>) -> Result<(), Refusal>
    ensures { Says result (assuming spot (context_of known.old.state) case.entry.hyp.now (Eq case.entry.term.now Nil)) (context_of known.new.state) }
{
    let nil = Boxed::new(alloc, Term::Nil)?;
    let term = Boxed::new(alloc, case.term.copy(alloc)?)?;
    suppose(known, spot, case.hyp, Term::Eq(term, nil))
}

#[tactic(auto, using(crate::proofs::Branching::assuming_same))]
fn assume_link(
    alloc: Global,
    known: &mut Known,
    spot: Spot,
    case: Case<'_>,
    head: &Name,
    tail: &Name,
) -> Result<(), Refusal>
    ensures { Says result (assuming spot (with_parts (context_of known.old.state) head.now tail.now) case.entry.hyp.now (Eq case.entry.term.now (Cons (Var head.now) (Var tail.now)))) (context_of known.new.state) }
{
    let link = link(alloc, head, tail)?;
    let term = Boxed::new(alloc, case.term.copy(alloc)?)?;
    bind_parts(alloc, known, head, tail)?;
    suppose(known, spot, case.hyp, Term::Eq(term, link))
}

// A head before a tail.
fn link(alloc: Global, head: &Name, tail: &Name) -> Result<Boxed<Term>, Refusal>
    ensures ok { IfOk result (λ t. t ≡ Cons (Var head.now) (Var tail.now)) }
    ensures memory { IfErr result (λ e. e ≡ Refusal.Memory) }
{
    let first = Boxed::new(alloc, Term::Var(head.copy()?))?;
    let rest = Boxed::new(alloc, Term::Var(tail.copy()?))?;
    Ok(Boxed::new(alloc, Term::Cons(first, rest))?)
}

// The names of a head and a tail.
fn bind_parts(alloc: Global, known: &mut Known, head: &Name, tail: &Name) -> Result<(), Refusal>
    ensures ok { OnOk result (context_of known.new.state ≡ with_parts (context_of known.old.state) head.now tail.now) }
    ensures memory { IfErr result (λ e. e ≡ Refusal.Memory) }
{
    bind(alloc, known, head, Local::Variable(Sort::Nat))?;
    bind(alloc, known, tail, Local::Variable(Sort::Seq))
}

// The formula is known under this name.
fn suppose(known: &mut Known, spot: Spot, name: &Name, formula: Term) -> Result<(), Refusal>
    ensures { Says result (assuming spot (context_of known.old.state) name.now formula) (context_of known.new.state) }
{
    let name = name.copy()?;
    known.assume(spot, Hyp { name, formula })?;
    Ok(())
}

// ---- sides

/// A side of an `either`.
#[derive(Clone, Copy)]
pub(crate) enum Side {
    Left,
    Right,
}

/// The sides of the atom with this number, an `either`.
#[tactic(auto, using(crate::proofs::Branching::no_atom, crate::proofs::Branching::both_sides, crate::proofs::Branching::no_sides))]
pub(crate) fn sides_of(known: &Known, spot: Spot, number: u64) -> Result<Sides<'_>, Refusal>
    ensures { FindsSides result (sides_at spot (context_of known.now.state) number) }
{
    let atom = find_atom(known, spot, number)?;
    match as_disjunction(atom) {
        Some(sides) => Ok(sides),
        None => Err(refused(spot, RuleCode::R2)),
    }
}

// The atoms of one side of an `either` for it.
#[tactic(auto, using(crate::proofs::Branching::side_taken, crate::proofs::Branching::side_refused))]
fn take_side(
    alloc: Global,
    known: &mut Known,
    spot: Spot,
    number: u64,
    side: Side,
) -> Result<(), Refusal>
    ensures { Says result (with_side spot (context_of known.old.state) number side) (context_of known.new.state) }
{
    let taken = copy_side(alloc, known, spot, number, side)?;
    replace_atom(known, spot, number, taken)
}

// That side.
#[tactic(auto, using(crate::proofs::Branching::side_found, crate::proofs::Branching::no_side))]
fn copy_side(
    alloc: Global,
    known: &Known,
    spot: Spot,
    number: u64,
    side: Side,
) -> Result<Assn, Refusal>
    ensures { Makes result (side_of spot (context_of known.now.state) number side) }
{
    let (left, right) = sides_of(known, spot, number)?;
    Ok(pick(side, left, right).copy(alloc)?)
}

fn pick<'a>(side: Side, left: &'a Assn, right: &'a Assn) -> &'a Assn
    ensures { result.now ≡ side_at side (left.now, right.now) }
{
    match side {
        Side::Left => left,
        Side::Right => right,
    }
}
