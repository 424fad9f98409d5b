// Formulas that are made of parts: none is made that is too large.
ghost use Rattle.std.specs.Prelude.{◌≡◌, IfOk, MatchOption, true, false, [], ◌∷◌};
ghost use Rattle.tht_tree.specs.declared.term.Term.{Term as Tree};
ghost use Rattle.tht_tree.specs.declared.term.Term.TheVariants.{Eq, Le, And, Imp, Not, Cons};
ghost use Rattle.tht_tree.specs.Normal.Putting.{put_in as term_with};
ghost use Rattle.tht_tree.specs.Rules.Sizes.{formula_fits as fits};
ghost use Rattle.pure_proofs.specs.Formulas.{made_of};

use crate::sizes::{conses_fit, formula_fits, negation_fits, pair_fits};
use pure_terms::{Subst, put_in};
use sqlite_items::Boxed;
use std::alloc::Global;
use tht_tree::form::PutEnd;
use tht_tree::plain::{Memory, Name};
use tht_tree::term::Term;

/// A formula, by its parts.
#[derive(Clone, Copy)]
pub(crate) enum Formula<'a> {
    Given(&'a Term),
    Falsehood,
    /// `a = b`
    Equation(&'a Term, &'a Term),
    /// `a <= b`
    AtMost(&'a Term, &'a Term),
    /// `a and b`
    Conjunction(&'a Term, &'a Term),
    /// `a imp b`
    Implication(&'a Term, &'a Term),
    /// `not a`
    Negation(&'a Term),
    /// `(x :: s) = (y :: u)`
    Conses(&'a Term, &'a Term, &'a Term, &'a Term),
    /// The formula at the end, with a term put in for a name.
    PutIn(&'a Name, &'a Term, &'a Term),
}

/// The formula, if it is not too large.
pub(crate) fn make(formula: Formula<'_>, alloc: Global) -> Result<Option<Term>, Memory>
    ensures { IfOk result (λ o. MatchOption o (fits (made_of formula.entry) ≡ false) (λ t. (t ≡ made_of formula.entry) × (fits (made_of formula.entry) ≡ true))) }
{
    match formula {
        Formula::Given(a) => given(alloc, a),
        Formula::Falsehood => Ok(Some(Term::False)),
        Formula::Equation(a, b) => equation(alloc, a, b),
        Formula::AtMost(a, b) => at_most(alloc, a, b),
        Formula::Conjunction(a, b) => conjunction(alloc, a, b),
        Formula::Implication(a, b) => implication(alloc, a, b),
        Formula::Negation(a) => negation(alloc, a),
        Formula::Conses(x, s, y, u) => conses(alloc, x, s, y, u),
        Formula::PutIn(name, term, a) => with_one(alloc, name, term, a),
    }
}

fn copied(alloc: Global, term: &Term) -> Result<Boxed<Term>, Memory>
    ensures { IfOk result (λ t. t ≡ term.now) }
{
    let copy = term.copy(alloc)?;
    Ok(Boxed::new(alloc, copy)?)
}

fn given(alloc: Global, a: &Term) -> Result<Option<Term>, Memory>
    ensures { IfOk result (λ o. MatchOption o (fits a.now ≡ false) (λ t. (t ≡ a.now) × (fits a.now ≡ true))) }
{
    if !formula_fits(a) {
        return Ok(None);
    }
    let copy = a.copy(alloc)?;
    Ok(Some(copy))
}

fn equation(alloc: Global, a: &Term, b: &Term) -> Result<Option<Term>, Memory>
    ensures { IfOk result (λ o. MatchOption o (fits (Eq a.now b.now) ≡ false) (λ t. (t ≡ Eq a.now b.now) × (fits (Eq a.now b.now) ≡ true))) }
{
    if !pair_fits(a, b) {
        return Ok(None);
    }
    let a = copied(alloc, a)?;
    let b = copied(alloc, b)?;
    Ok(Some(Term::Eq(a, b)))
}

fn at_most(alloc: Global, a: &Term, b: &Term) -> Result<Option<Term>, Memory>
    ensures { IfOk result (λ o. MatchOption o (fits (Le a.now b.now) ≡ false) (λ t. (t ≡ Le a.now b.now) × (fits (Le a.now b.now) ≡ true))) }
{
    if !pair_fits(a, b) {
        return Ok(None);
    }
    let a = copied(alloc, a)?;
    let b = copied(alloc, b)?;
    Ok(Some(Term::Le(a, b)))
}

fn conjunction(alloc: Global, a: &Term, b: &Term) -> Result<Option<Term>, Memory>
    ensures { IfOk result (λ o. MatchOption o (fits (And a.now b.now) ≡ false) (λ t. (t ≡ And a.now b.now) × (fits (And a.now b.now) ≡ true))) }
{
    if !pair_fits(a, b) {
        return Ok(None);
    }
    let a = copied(alloc, a)?;
    let b = copied(alloc, b)?;
    Ok(Some(Term::And(a, b)))
}

fn implication(alloc: Global, a: &Term, b: &Term) -> Result<Option<Term>, Memory>
    ensures { IfOk result (λ o. MatchOption o (fits (Imp a.now b.now) ≡ false) (λ t. (t ≡ Imp a.now b.now) × (fits (Imp a.now b.now) ≡ true))) }
{
    if !pair_fits(a, b) {
        return Ok(None);
    }
    let a = copied(alloc, a)?;
    let b = copied(alloc, b)?;
    Ok(Some(Term::Imp(a, b)))
}

fn negation(alloc: Global, a: &Term) -> Result<Option<Term>, Memory>
    ensures { IfOk result (λ o. MatchOption o (fits (Not a.now) ≡ false) (λ t. (t ≡ Not a.now) × (fits (Not a.now) ≡ true))) }
{
    if !negation_fits(a) {
        return Ok(None);
    }
    let a = copied(alloc, a)?;
    Ok(Some(Term::Not(a)))
}

fn conses(alloc: Global, x: &Term, s: &Term, y: &Term, u: &Term) -> Result<Option<Term>, Memory>
    ensures { let made : Tree = Eq (Cons x.now s.now) (Cons y.now u.now) in
        IfOk result (λ o. MatchOption o (fits made ≡ false) (λ t. (t ≡ made) × (fits made ≡ true))) }
{
    if !conses_fit(x, s, y, u) {
        return Ok(None);
    }
    let left = cons(alloc, x, s)?;
    let right = cons(alloc, y, u)?;
    Ok(Some(Term::Eq(left, right)))
}

fn cons(alloc: Global, x: &Term, s: &Term) -> Result<Boxed<Term>, Memory>
    ensures { IfOk result (λ t. t ≡ Cons x.now s.now) }
{
    let x = copied(alloc, x)?;
    let s = copied(alloc, s)?;
    Ok(Boxed::new(alloc, Term::Cons(x, s))?)
}

// The formula with this term for the name.
fn with_one(alloc: Global, name: &Name, term: &Term, formula: &Term) -> Result<Option<Term>, Memory>
    ensures { let made : Tree = term_with ((name.now, term.now) ∷ []) formula.now in
        IfOk result (λ o. MatchOption o (fits made ≡ false) (λ t. (t ≡ made) × (fits made ≡ true))) }
{
    let mut by = Subst::new(alloc);
    let name = name.copy()?;
    let term = term.copy(alloc)?;
    by.add(name, term)?;
    match put_in(alloc, formula, &by) {
        Ok(made) => Ok(Some(made)),
        Err(PutEnd::Large) => Ok(None),
        Err(PutEnd::Memory) => Err(Memory),
    }
}
