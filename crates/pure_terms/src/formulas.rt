// What normal forms of formulas, and of the sides of comparisons, give together.
ghost use Rattle.std.specs.Prelude.{◌≡◌, ◌&&◌, None, IfOk};
ghost use Rattle.tht_tree.specs.Normal.Forms.{truth as truth_of, literal as literal_of, negated, and_by, or_by, imp_by, iff_by, is_literal as is_literal_of, equation as equation_of, less as less_of, less_by, at_most as at_most_of, at_most_by};
ghost use Rattle.pure_terms.specs.Sides.{is_formula as is_formula_of, equation_by, signed, known_at_most as known_at_most_of};

use crate::forms::number_in;
use crate::trees::{form_term, sum_term};
use sqlite_items::Boxed;
use std::alloc::Global;
use tht_tree::form::{Form, PlaceForm, Sum};
use tht_tree::plain::Memory;
use tht_tree::term::{Term, same_term};

// The signs between two terms.
#[derive(Clone, Copy)]
pub(crate) enum Sign {
    And,
    Or,
    Imp,
    Eq,
    Lt,
    Le,
}

fn with_sign(alloc: Global, sign: Sign, left: Term, right: Term) -> Result<Term, Memory>
    ensures { IfOk result (λ t. t ≡ signed sign left right) }
{
    let left = Boxed::new(alloc, left)?;
    let right = Boxed::new(alloc, right)?;
    match sign {
        Sign::And => Ok(Term::And(left, right)),
        Sign::Or => Ok(Term::Or(left, right)),
        Sign::Imp => Ok(Term::Imp(left, right)),
        Sign::Eq => Ok(Term::Eq(left, right)),
        Sign::Lt => Ok(Term::Lt(left, right)),
        Sign::Le => Ok(Term::Le(left, right)),
    }
}

// ---- literals

/// Which of `true` and `false` the formula is, if it is one.
fn truth(formula: &Term) -> Option<bool>
    ensures { result ≡ truth_of formula.now }
{
    match formula {
        Term::True => Some(true),
        Term::False => Some(false),
        _ => None,
    }
}

fn literal(holds: bool) -> Term
    ensures { result ≡ literal_of holds }
{
    if holds { Term::True } else { Term::False }
}

// Numbers, `true`, `false`, `null` and roots.
fn is_literal(form: &Form) -> bool
    ensures { result ≡ is_literal_of form.now }
{
    match form {
        Form::Nat(sum) => number_in(sum.as_slice()).is_some(),
        Form::Bool(formula) => truth(formula).is_some(),
        Form::Loc(place) => is_literal_place(place),
        Form::Seq(_) => false,
        Form::Unit => false,
    }
}

fn is_literal_place(place: &PlaceForm) -> bool
    ensures { result ≡ is_literal_of (Form.Loc place.now) }
{
    match place {
        PlaceForm::Null => true,
        PlaceForm::Root(_) => true,
        PlaceForm::At(..) => false,
    }
}

// ---- connectives: folded where an operand is `true` or `false`, and else kept

pub(crate) fn not_formula(alloc: Global, u: Term) -> Result<Term, Memory>
    ensures { IfOk result (λ t. t ≡ negated u) }
{
    match truth(&u) {
        Some(holds) => Ok(literal(!holds)),
        None => kept_not(alloc, u),
    }
}

fn kept_not(alloc: Global, u: Term) -> Result<Term, Memory>
    ensures { IfOk result (λ t. t ≡ Term.Not u) }
{
    Ok(Term::Not(Boxed::new(alloc, u)?))
}

pub(crate) fn and_formula(alloc: Global, u: Term, w: Term) -> Result<Term, Memory>
    ensures { IfOk result (λ t. t ≡ and_by (truth_of u) (truth_of w) u w) }
{
    match (truth(&u), truth(&w)) {
        (Some(true), _) => Ok(w),
        (Some(false), _) => Ok(Term::False),
        (None, Some(true)) => Ok(u),
        (None, Some(false)) => Ok(Term::False),
        (None, None) => with_sign(alloc, Sign::And, u, w),
    }
}

pub(crate) fn or_formula(alloc: Global, u: Term, w: Term) -> Result<Term, Memory>
    ensures { IfOk result (λ t. t ≡ or_by (truth_of u) (truth_of w) u w) }
{
    match (truth(&u), truth(&w)) {
        (Some(true), _) => Ok(Term::True),
        (Some(false), _) => Ok(w),
        (None, Some(true)) => Ok(Term::True),
        (None, Some(false)) => Ok(u),
        (None, None) => with_sign(alloc, Sign::Or, u, w),
    }
}

pub(crate) fn imp_formula(alloc: Global, u: Term, w: Term) -> Result<Term, Memory>
    ensures { IfOk result (λ t. t ≡ imp_by (truth_of u) (truth_of w) u w) }
{
    match truth(&u) {
        Some(true) => Ok(w),
        Some(false) => Ok(Term::True),
        None => kept_imp(alloc, u, w),
    }
}

// An implication whose first operand is neither `true` nor `false`.
fn kept_imp(alloc: Global, u: Term, w: Term) -> Result<Term, Memory>
    ensures { IfOk result (λ t. t ≡ imp_by None (truth_of w) u w) }
{
    match truth(&w) {
        Some(true) => Ok(Term::True),
        Some(false) => kept_not(alloc, u),
        None => with_sign(alloc, Sign::Imp, u, w),
    }
}

// Two formulas that are not the same, nor both literals.
fn iff_formula(alloc: Global, u: Term, w: Term) -> Result<Term, Memory>
    ensures { IfOk result (λ t. t ≡ iff_by (truth_of u) (truth_of w) u w) }
{
    match (truth(&u), truth(&w)) {
        (Some(true), _) => Ok(w),
        (Some(false), _) => kept_not(alloc, w),
        (None, Some(true)) => Ok(u),
        (None, Some(false)) => kept_not(alloc, u),
        (None, None) => with_sign(alloc, Sign::Eq, u, w),
    }
}

// ---- comparisons

// `a = b`: true where the sides are the same, and false where they are different literals.
#[tactic(auto, using(crate::proofs::Comparisons::by_sides))]
pub(crate) fn equation(alloc: Global, left: Form, right: Form) -> Result<Term, Memory>
    ensures { IfOk result (λ t. t ≡ equation_of left right) }
{
    let literals = are_literals(&left, &right);
    let formulas = are_formulas(&left, &right);
    let left = form_term(alloc, left)?;
    let right = form_term(alloc, right)?;
    equation_of_sides(alloc, left, right, literals, formulas)
}

// An equation by its sides, of which it is known whether they are literals and whether they are formulas.
fn equation_of_sides(
    alloc: Global,
    left: Term,
    right: Term,
    literals: bool,
    formulas: bool,
) -> Result<Term, Memory>
    ensures { IfOk result (λ t. t ≡ equation_by left right literals formulas) }
{
    if same_term(&left, &right) {
        return Ok(Term::True);
    }
    if literals {
        return Ok(Term::False);
    }
    if formulas {
        return iff_formula(alloc, left, right);
    }
    with_sign(alloc, Sign::Eq, left, right)
}

fn are_literals(left: &Form, right: &Form) -> bool
    ensures { result ≡ (is_literal_of left.now && is_literal_of right.now) }
{
    is_literal(left) && is_literal(right)
}

fn are_formulas(left: &Form, right: &Form) -> bool
    ensures { result ≡ (is_formula_of left.now && is_formula_of right.now) }
{
    is_formula(left) && is_formula(right)
}

fn is_formula(form: &Form) -> bool
    ensures { result ≡ is_formula_of form.now }
{
    match form {
        Form::Nat(_) => false,
        Form::Seq(_) => false,
        Form::Loc(_) => false,
        Form::Unit => false,
        Form::Bool(_) => true,
    }
}

// `a < b`: false where the sides are the same, and computed on numbers.
pub(crate) fn less(alloc: Global, left: Sum, right: Sum) -> Result<Term, Memory>
    ensures { IfOk result (λ t. t ≡ less_of left right) }
{
    let m = number_in(left.as_slice());
    let n = number_in(right.as_slice());
    let left = sum_term(alloc, left)?;
    let right = sum_term(alloc, right)?;
    if same_term(&left, &right) {
        return Ok(Term::False);
    }
    less_of_sides(alloc, m, n, left, right)
}

// `a < b` for sides that are not the same.
fn less_of_sides(
    alloc: Global,
    m: Option<u128>,
    n: Option<u128>,
    left: Term,
    right: Term,
) -> Result<Term, Memory>
    ensures { IfOk result (λ t. t ≡ less_by m n left right) }
{
    match (m, n) {
        (Some(m), Some(n)) => Ok(literal(m < n)),
        (Some(_), None) => with_sign(alloc, Sign::Lt, left, right),
        (None, _) => with_sign(alloc, Sign::Lt, left, right),
    }
}

// `a <= b`: true where the sides are the same or a is 0, and computed on numbers.
pub(crate) fn at_most(alloc: Global, left: Sum, right: Sum) -> Result<Term, Memory>
    ensures { IfOk result (λ t. t ≡ at_most_of left right) }
{
    let m = number_in(left.as_slice());
    let n = number_in(right.as_slice());
    let left = sum_term(alloc, left)?;
    let right = sum_term(alloc, right)?;
    if same_term(&left, &right) {
        return Ok(Term::True);
    }
    at_most_of_sides(alloc, m, n, left, right)
}

// `a <= b` for sides that are not the same.
#[tactic(auto, using(crate::proofs::Comparisons::known_side, crate::proofs::Comparisons::kept_side))]
fn at_most_of_sides(
    alloc: Global,
    m: Option<u128>,
    n: Option<u128>,
    left: Term,
    right: Term,
) -> Result<Term, Memory>
    ensures { IfOk result (λ t. t ≡ at_most_by m n left right) }
{
    match known_at_most(m, n) {
        Some(holds) => Ok(literal(holds)),
        None => with_sign(alloc, Sign::Le, left, right),
    }
}

// Whether `a <= b`, where a is 0 or both are known.
#[tactic(auto, using(crate::proofs::Comparisons::known_both, crate::proofs::Comparisons::known_none))]
fn known_at_most(m: Option<u128>, n: Option<u128>) -> Option<bool>
    ensures { result ≡ known_at_most_of m n }
{
    let m = m?;
    if m == 0 {
        return Some(true);
    }
    let n = n?;
    Some(m <= n)
}
