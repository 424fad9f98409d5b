// What a formula says, by its shape: the parts of one that has the shape.
ghost use Rattle.std.specs.Prelude.{◌≡◌, None, Some, MatchOption};
ghost use Rattle.tht_tree.specs.declared.term.Term.{out-Term};
ghost use Rattle.tht_tree.specs.declared.term.Term.TheVariants.{Add};
ghost use Rattle.tht_tree.specs.SameTree.{is_num as says_num, is_null as says_null, is_nil_term, is_true as says_true, is_false as says_false};
ghost use Rattle.tht_tree.specs.Rules.Shapes.{as_conjunction as conjunction_of, as_disjunction as disjunction_of, as_equation as equation_of, as_disequation as disequation_of};
ghost use Rattle.tht_tree.specs.Rules.Shapes.{is_nocons as says_nocons, as_nonnull as nonnull_of, as_monus as monus_of, monus_at, is_some_cons};

use tht_tree::term::{Term, same_term};

/// Two terms: the sides of an equation, say.
pub(crate) type Pair<'a> = (&'a Term, &'a Term);

// ---- connectives

/// `a and b`
pub(crate) fn as_conjunction(term: &Term) -> Option<Pair<'_>>
    ensures { MatchOption result (conjunction_of term.now ≡ None) (λ p. conjunction_of term.now ≡ Some (p.0.now, p.1.now)) }
{
    match term {
        Term::And(a, b) => Some((a.get(), b.get())),
        _ => None,
    }
}

/// `a or b`
pub(crate) fn as_disjunction(term: &Term) -> Option<Pair<'_>>
    ensures { MatchOption result (disjunction_of term.now ≡ None) (λ p. disjunction_of term.now ≡ Some (p.0.now, p.1.now)) }
{
    match term {
        Term::Or(a, b) => Some((a.get(), b.get())),
        _ => None,
    }
}

// ---- equations

/// `a = b`
pub(crate) fn as_equation(term: &Term) -> Option<Pair<'_>>
    ensures { MatchOption result (equation_of term.now ≡ None) (λ p. equation_of term.now ≡ Some (p.0.now, p.1.now)) }
{
    match term {
        Term::Eq(a, b) => Some((a.get(), b.get())),
        _ => None,
    }
}

/// `not (a = b)`
pub(crate) fn as_disequation(term: &Term) -> Option<Pair<'_>>
    ensures { MatchOption result (disequation_of term.now ≡ None) (λ p. disequation_of term.now ≡ Some (p.0.now, p.1.now)) }
{
    match term {
        Term::Not(a) => as_equation(a.get()),
        _ => None,
    }
}

/// Whether it is `not (nil = (x :: s))`.
pub(crate) fn is_nocons(term: &Term) -> bool
    ensures { result ≡ says_nocons term.now }
{
    match as_disequation(term) {
        Some((a, b)) => is_nil(a) && is_cons(b),
        None => false,
    }
}

fn is_nil(term: &Term) -> bool
    ensures { result ≡ is_nil_term (out-Term term.now) }
{
    matches!(term, Term::Nil)
}

fn is_cons(term: &Term) -> bool
    ensures { result ≡ is_some_cons (out-Term term.now) }
{
    matches!(term, Term::Cons(..))
}

/// The a of `not (a = null)`.
pub(crate) fn as_nonnull(term: &Term) -> Option<&Term>
    ensures { MatchOption result (nonnull_of term.now ≡ None) (λ a. nonnull_of term.now ≡ Some a.now) }
{
    match as_disequation(term) {
        Some((a, b)) if is_null(b) => Some(a),
        _ => None,
    }
}

fn is_null(term: &Term) -> bool
    ensures { result ≡ says_null (out-Term term.now) }
{
    matches!(term, Term::Null)
}

// ---- literals

pub(crate) fn is_true(term: &Term) -> bool
    ensures { result ≡ says_true (out-Term term.now) }
{
    matches!(term, Term::True)
}

pub(crate) fn is_false(term: &Term) -> bool
    ensures { result ≡ says_false (out-Term term.now) }
{
    matches!(term, Term::False)
}

// ---- differences

/// What must be at most what, for `(a - b) + b = a` and `a - b = 0`.
pub(crate) fn as_monus(term: &Term) -> Option<Pair<'_>>
    ensures { MatchOption result (monus_of term.now ≡ None) (λ p. monus_of term.now ≡ Some (p.0.now, p.1.now)) }
{
    let (left, right) = as_equation(term)?;
    monus_bound(left, right)
}

fn monus_bound<'a>(left: &'a Term, right: &'a Term) -> Option<Pair<'a>>
    ensures { MatchOption result (monus_at (out-Term left.now) right.now ≡ None) (λ p. monus_at (out-Term left.now) right.now ≡ Some (p.0.now, p.1.now)) }
{
    match left {
        Term::Add(difference, more) => restored(difference.get(), more.get(), right),
        Term::Sub(a, b) if is_zero(right) => Some((a.get(), b.get())),
        _ => None,
    }
}

fn is_zero(term: &Term) -> bool
    ensures { result ≡ says_num 0 (out-Term term.now) }
{
    matches!(term, Term::Num(0))
}

// b and a, where the difference is `a - b`.
fn restored<'a>(difference: &'a Term, more: &Term, whole: &Term) -> Option<Pair<'a>>
    ensures { let said = monus_at (out-Term (Add difference.now more.now)) whole.now in MatchOption result (said ≡ None) (λ p. said ≡ Some (p.0.now, p.1.now)) }
{
    match difference {
        Term::Sub(a, b) if same_term(more, b.get()) && same_term(whole, a.get()) => {
            Some((b.get(), a.get()))
        }
        _ => None,
    }
}
