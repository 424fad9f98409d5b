// What a linear certificate denies, and the comparisons that its facts are read as.
ghost use Rattle.std.specs.Prelude.{◌≡◌, None, Some, MatchOption, true, false};
ghost use Rattle.tht_tree.specs.declared.term.Term.{out-Term};
ghost use Rattle.tht_tree.specs.Normal.Linear.{negation_at, comparison_of};
ghost use Rattle.tht_tree.specs.Rules.Certificates.{aim_of as aim_in, fact_of as fact_in};
ghost use Rattle.pure_terms.specs.Locals.{locals_of};
ghost use Rattle.pure_proofs.specs.Facts.{denied_by, comparing};

use crate::shapes::as_equation;
use crate::sorts::has_sort;
use pure_terms::Scope;
use tht_tree::plain::{Name, Sort};
use tht_tree::term::Term;

/// A goal that a linear certificate proves.
#[derive(Clone, Copy)]
pub(crate) enum Aim<'a> {
    /// `a <= b`
    AtMost(&'a Term, &'a Term),
    /// `a < b`
    Below(&'a Term, &'a Term),
    /// `false`
    Falsehood,
    /// `a = b`, of numbers
    Equal(&'a Term, &'a Term),
}

/// The goal as what a linear certificate proves, if it is one of these.
pub(crate) fn aim_of<'a>(goal: &'a Term, roots: &[Name], scope: &Scope) -> Option<Aim<'a>>
    ensures { let said = aim_in roots.now (locals_of scope.now) goal.now in
        MatchOption result (said ≡ None) (λ aim. said ≡ Some (denied_by aim)) }
{
    match goal {
        Term::Le(a, b) => Some(Aim::AtMost(a.get(), b.get())),
        Term::Lt(a, b) => Some(Aim::Below(a.get(), b.get())),
        Term::False => Some(Aim::Falsehood),
        Term::Eq(a, b) if has_sort(a.get(), Sort::Nat, roots, scope) => {
            Some(Aim::Equal(a.get(), b.get()))
        }
        _ => None,
    }
}

/// Two numbers that are compared: the left one is at most the right one, or below it where strict.
#[derive(Clone, Copy)]
pub(crate) struct Sides<'a> {
    pub left: &'a Term,
    pub right: &'a Term,
    pub strict: bool,
}

pub(crate) fn at_most<'a>(left: &'a Term, right: &'a Term) -> Sides<'a>
    ensures { result ≡ record { left = left.entry; right = right.entry; strict = false } }
{
    Sides {
        left,
        right,
        strict: false,
    }
}

pub(crate) fn below<'a>(left: &'a Term, right: &'a Term) -> Sides<'a>
    ensures { result ≡ record { left = left.entry; right = right.entry; strict = true } }
{
    Sides {
        left,
        right,
        strict: true,
    }
}

/// The comparison that a fact is read as; where a certificate proves an equation, each fact must be one too.
pub(crate) fn fact_of<'a>(
    fact: &'a Term,
    aim: Aim<'_>,
    roots: &[Name],
    scope: &Scope,
) -> Option<Sides<'a>>
    ensures { let said = fact_in roots.now (locals_of scope.now) (denied_by aim.entry) fact.now in
        MatchOption result (said ≡ None) (λ s. said ≡ Some (comparing s)) }
{
    match aim {
        Aim::Equal(_, _) if as_equation(fact).is_none() => None,
        _ => comparison(fact, roots, scope),
    }
}

// The comparison that a formula is read as. An equation of numbers reads one way only.
fn comparison<'a>(formula: &'a Term, roots: &[Name], scope: &Scope) -> Option<Sides<'a>>
    ensures { let said = comparison_of roots.now (locals_of scope.now) formula.now in
        MatchOption result (said ≡ None) (λ s. said ≡ Some (comparing s)) }
{
    match formula {
        Term::Le(a, b) => Some(at_most(a.get(), b.get())),
        Term::Lt(a, b) => Some(below(a.get(), b.get())),
        Term::Eq(a, b) if has_sort(a.get(), Sort::Nat, roots, scope) => {
            Some(at_most(a.get(), b.get()))
        }
        Term::Not(a) => negated(a.get()),
        _ => None,
    }
}

// The negation of a comparison.
fn negated(formula: &Term) -> Option<Sides<'_>>
    ensures { let said = negation_at (out-Term formula.now) in
        MatchOption result (said ≡ None) (λ s. said ≡ Some (comparing s)) }
{
    match formula {
        Term::Le(a, b) => Some(below(b.get(), a.get())),
        Term::Lt(a, b) => Some(at_most(b.get(), a.get())),
        _ => None,
    }
}
