// The order of terms and of products.
ghost use Rattle.std.specs.Prelude.{◌≡◌};
ghost use Rattle.tht_tree.specs.Normal.Order.{compare};
ghost use Rattle.tht_tree.specs.Normal.Sums.{compare_products as compare_factors};
ghost use Rattle.pure_terms.specs.Levels.{rank as rank_of, number as number_of, name as name_of, by_label, by_parts, ArePartsOf};

use std::cmp::Ordering;
use tht_tree::term::Term;

// The parts of a term's outermost level, from left to right.
#[derive(Clone, Copy)]
enum Parts<'a> {
    Nothing,
    One(&'a Term),
    Two(&'a Term, &'a Term),
}

/// How two terms stand in the order of terms: first by the form of the outermost level, then by the number or the name that
/// it bears, then by the parts, from left to right.
#[cycle(order)]
#[tactic(auto, using(crate::proofs::Levels::by_first))]
pub fn compare_terms(term: &Term, other: &Term) -> Ordering
    ensures { result ≡ compare term.now other.now }
{
    match compare_labels(term, other) {
        Ordering::Equal => compare_parts(parts_of(term), parts_of(other)),
        first => first,
    }
}

// The parts of two levels that have as many.
#[cycle(order)]
fn compare_parts(parts: Parts<'_>, others: Parts<'_>) -> Ordering
    ensures { result ≡ by_parts parts.entry others.entry }
{
    match (parts, others) {
        (Parts::One(a), Parts::One(b)) => compare_terms(a, b),
        (Parts::Two(a, b), Parts::Two(c, d)) => match compare_terms(a, c) {
            Ordering::Equal => compare_terms(b, d),
            first => first,
        },
        _ => Ordering::Equal,
    }
}

// The outermost levels alone: by form, by number, and by name.
fn compare_labels(term: &Term, other: &Term) -> Ordering
    ensures { result ≡ by_label term.now other.now }
{
    rank(term)
        .cmp(&rank(other))
        .then(number(term).cmp(&number(other)))
        .then(name(term).cmp(name(other)))
}

// The number that a level bears, and 0 where it bears none.
fn number(term: &Term) -> u128
    ensures { result ≡ number_of term.now }
{
    match term {
        Term::Num(n) => *n,
        Term::Offset(_, k) => u128::from(*k),
        Term::Var(_) => 0,
        Term::Len(_) => 0,
        Term::Sub(..) => 0,
        Term::Mul(..) => 0,
        Term::Add(..) => 0,
        Term::True => 0,
        Term::False => 0,
        Term::Null => 0,
        Term::Nil => 0,
        Term::Unit => 0,
        Term::Cons(..) => 0,
        Term::Cat(..) => 0,
        Term::Eq(..) => 0,
        Term::Lt(..) => 0,
        Term::Le(..) => 0,
        Term::Not(_) => 0,
        Term::And(..) => 0,
        Term::Or(..) => 0,
        Term::Imp(..) => 0,
    }
}

// The name that a level bears, and the empty text where it bears none.
fn name(term: &Term) -> &str
    ensures { result.now ≡ name_of term.now }
{
    match term {
        Term::Var(x) => x.as_str(),
        Term::Num(_) => "",
        Term::Len(_) => "",
        Term::Sub(..) => "",
        Term::Mul(..) => "",
        Term::Add(..) => "",
        Term::True => "",
        Term::False => "",
        Term::Null => "",
        Term::Nil => "",
        Term::Unit => "",
        Term::Offset(..) => "",
        Term::Cons(..) => "",
        Term::Cat(..) => "",
        Term::Eq(..) => "",
        Term::Lt(..) => "",
        Term::Le(..) => "",
        Term::Not(_) => "",
        Term::And(..) => "",
        Term::Or(..) => "",
        Term::Imp(..) => "",
    }
}

fn parts_of(term: &Term) -> Parts<'_>
    ensures { ArePartsOf term.now result }
{
    match term {
        Term::Num(_) => Parts::Nothing,
        Term::Var(_) => Parts::Nothing,
        Term::True => Parts::Nothing,
        Term::False => Parts::Nothing,
        Term::Null => Parts::Nothing,
        Term::Nil => Parts::Nothing,
        Term::Unit => Parts::Nothing,
        Term::Len(a) => Parts::One(a.get()),
        Term::Offset(a, _) => Parts::One(a.get()),
        Term::Not(a) => Parts::One(a.get()),
        Term::Sub(a, b) => Parts::Two(a.get(), b.get()),
        Term::Mul(a, b) => Parts::Two(a.get(), b.get()),
        Term::Add(a, b) => Parts::Two(a.get(), b.get()),
        Term::Cons(a, b) => Parts::Two(a.get(), b.get()),
        Term::Cat(a, b) => Parts::Two(a.get(), b.get()),
        Term::Eq(a, b) => Parts::Two(a.get(), b.get()),
        Term::Lt(a, b) => Parts::Two(a.get(), b.get()),
        Term::Le(a, b) => Parts::Two(a.get(), b.get()),
        Term::And(a, b) => Parts::Two(a.get(), b.get()),
        Term::Or(a, b) => Parts::Two(a.get(), b.get()),
        Term::Imp(a, b) => Parts::Two(a.get(), b.get()),
    }
}

// The number of the form of the outermost level.
fn rank(term: &Term) -> u8
    ensures { result ≡ rank_of term.now }
{
    match term {
        Term::Num(_) => 0,
        Term::Var(_) => 1,
        Term::Len(_) => 2,
        Term::Sub(..) => 3,
        Term::Mul(..) => 4,
        Term::Add(..) => 5,
        Term::True => 6,
        Term::False => 7,
        Term::Null => 8,
        Term::Nil => 9,
        Term::Unit => 10,
        Term::Offset(..) => 11,
        Term::Cons(..) => 12,
        Term::Cat(..) => 13,
        Term::Eq(..) => 14,
        Term::Lt(..) => 15,
        Term::Le(..) => 16,
        Term::Not(_) => 17,
        Term::And(..) => 18,
        Term::Or(..) => 19,
        Term::Imp(..) => 20,
    }
}

/// How two products stand: by their first factors that differ, where a product stands before those that go on behind it.
pub(crate) fn compare_products(product: &[Term], other: &[Term]) -> Ordering
    ensures { result ≡ compare_factors product.now other.now }
{
    for (x, y) in product.iter().zip(other) {
        match compare_terms(x, y) {
            Ordering::Equal => {}
            first => return first,
        }
    }
    product.len().cmp(&other.len())
}
