// Normal forms as terms.
ghost use Rattle.std.specs.Prelude.{◌≡◌, ◌/◌, [], ◌∷◌, map, IfOk};
ghost use Rattle.tht_tree.specs.declared.term.Term.TheVariants.{Nil, Var};
ghost use Rattle.tht_tree.specs.Normal.InPairs.{in_pairs, pairs as pairs_of};
ghost use Rattle.tht_tree.specs.Normal.Sums.{monomial_term as monomial_as_term, sum_term as sum_as_term};
ghost use Rattle.tht_tree.specs.Normal.Forms.{items_term as items_as_term, sevens as sevens_on, place_term as place_as_term, term_of as form_as_term};
ghost use Rattle.pure_terms.specs.Joining.{joined, empty, item_before};

use crate::queue::Queue;
use sqlite_items::{Boxed, Items};
use std::alloc::Global;
use tht_tree::form::{Form, Item, Monomial, PlaceForm, Sum};
use tht_tree::plain::{Memory, Name};
use tht_tree::term::Term;

/// What terms are joined by.
#[derive(Clone, Copy)]
pub(crate) enum Join {
    Sum,
    Product,
}

/// A normal form as a term.
pub(crate) fn form_term(alloc: Global, form: Form) -> Result<Term, Memory>
    ensures { IfOk result (λ t. t ≡ form_as_term form) }
{
    match form {
        Form::Nat(sum) => sum_term(alloc, sum),
        Form::Seq(items) => items_term(alloc, items),
        Form::Loc(place) => place_term(alloc, place),
        Form::Unit => Ok(Term::Unit),
        Form::Bool(formula) => Ok(formula),
    }
}

// ---- sums

/// A sum as a term.
pub(crate) fn sum_term(alloc: Global, sum: Sum) -> Result<Term, Memory>
    ensures { IfOk result (λ t. t ≡ sum_as_term sum) }
{
    let terms = monomial_terms(alloc, sum)?;
    in_one(alloc, Join::Sum, terms)
}

fn monomial_terms(alloc: Global, sum: Sum) -> Result<Items<Term>, Memory>
    ensures { IfOk result (λ ts. ts ≡ map (λ m. monomial_as_term m.coefficient m.atoms) sum) }
{
    let mut rest = Queue::new(alloc, sum)?;
    let mut terms = Items::new(alloc);
    while let Some(m) = rest.pop() {
        terms.push(monomial_term(alloc, m)?)?;
    }
    Ok(terms)
}

// A coefficient alone, or times the product of the atoms.
#[tactic(auto, using(crate::proofs::ItemTerms::no_atoms, crate::proofs::ItemTerms::with_atoms))]
fn monomial_term(alloc: Global, m: Monomial) -> Result<Term, Memory>
    ensures { IfOk result (λ t. t ≡ monomial_as_term m.coefficient m.atoms) }
{
    let Monomial { coefficient, atoms } = m;
    if atoms.is_empty() {
        return Ok(Term::Num(coefficient));
    }
    let product = in_one(alloc, Join::Product, atoms)?;
    join_terms(alloc, Join::Product, Term::Num(coefficient), product)
}

// The terms joined in pairs, in few rounds, until one is left.
#[tactic(auto, using(crate::proofs::Rounds::after_round, crate::proofs::Rounds::fewer_pairs, crate::proofs::Rounds::one_left, crate::proofs::Rounds::none_left))]
fn in_one(alloc: Global, by: Join, terms: Items<Term>) -> Result<Term, Memory>
    ensures { IfOk result (λ t. t ≡ in_pairs (joined by) (empty by) terms) }
{
    let mut terms = terms;
    'rounds: while terms.len() > 1 {
        terms = pairs(alloc, by, terms)?;
    }
    match terms.pop() {
        Some(term) => Ok(term),
        None => Ok(none(by)),
    }
}

// Each term with its neighbour, and a last one alone.
fn pairs(alloc: Global, by: Join, terms: Items<Term>) -> Result<Items<Term>, Memory>
    ensures { IfOk result (λ ts. ts ≡ pairs_of (joined by) terms) }
{
    let mut rest = Queue::new(alloc, terms)?;
    let mut pairs = Items::new(alloc);
    while let Some(term) = rest.pop() {
        match rest.pop() {
            Some(next) => pairs.push(join_terms(alloc, by, term, next)?)?,
            None => pairs.push(term)?,
        }
    }
    Ok(pairs)
}

fn join_terms(alloc: Global, by: Join, left: Term, right: Term) -> Result<Term, Memory>
    ensures { IfOk result (λ t. t ≡ joined by left right) }
{
    let left = Boxed::new(alloc, left)?;
    let right = Boxed::new(alloc, right)?;
    match by {
        Join::Sum => Ok(Term::Add(left, right)),
        Join::Product => Ok(Term::Mul(left, right)),
    }
}

// What no terms give together.
fn none(by: Join) -> Term
    ensures { result ≡ empty by }
{
    match by {
        Join::Sum => Term::Num(0),
        Join::Product => Term::Num(1),
    }
}

// ---- sequences and places

#[tactic(auto, using(crate::proofs::ItemTerms::all_before, crate::proofs::ItemTerms::last_before))]
fn items_term(alloc: Global, items: Items<Item>) -> Result<Term, Memory>
    ensures { IfOk result (λ t. t ≡ items_as_term items) }
{
    let mut items = items;
    let mut term = Term::Nil;
    while let Some(item) = items.pop() {
        term = item_term(alloc, item, term)?;
    }
    Ok(term)
}

fn item_term(alloc: Global, item: Item, rest: Term) -> Result<Term, Memory>
    ensures { IfOk result (λ t. t ≡ item_before item rest) }
{
    let rest = Boxed::new(alloc, rest)?;
    match item {
        Item::One(sum) => Ok(Term::Cons(Boxed::new(alloc, sum_term(alloc, sum)?)?, rest)),
        Item::All(x) => Ok(Term::Cat(Boxed::new(alloc, Term::Var(x))?, rest)),
    }
}

fn place_term(alloc: Global, place: PlaceForm) -> Result<Term, Memory>
    ensures { IfOk result (λ t. t ≡ place_as_term place) }
{
    match place {
        PlaceForm::Null => Ok(Term::Null),
        PlaceForm::Root(x) => Ok(Term::Var(x)),
        PlaceForm::At(x, offset) => {
            let below = sevens(alloc, offset / 7, Term::Var(x))?;
            Ok(Term::Offset(Boxed::new(alloc, below)?, (offset % 7) as u8))
        }
    }
}

// So many offsets of 7, one after the other.
#[tactic(auto, using(crate::proofs::ItemTerms::one_more))]
fn sevens(alloc: Global, count: u128, term: Term) -> Result<Term, Memory>
    ensures { IfOk result (λ t. t ≡ sevens_on count term) }
{
    let mut term = term;
    for _turn in 0..count {
        term = Term::Offset(Boxed::new(alloc, term)?, 7);
    }
    Ok(term)
}
