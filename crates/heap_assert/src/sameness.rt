// Whether two assertions are one tree, up to the names of their bound variables.
ghost use Rattle.std.specs.Prelude.{◌≡◌, ◌↔◌, [], IsTrue};
ghost use Rattle.tht_logic.specs.Assertions.{asn};
ghost use Rattle.tht_logic.specs.Alike.{alike as are_alike};
ghost use Rattle.heap_assert.specs.Heaps.{HaveTheSameHeaps};
ghost use Rattle.heap_assert.specs.SideBySide.{pairs_of, same_names, like_terms, like_lists, like_assns};

use crate::binders::Binders;
use sqlite_items::{Boxed, Items};
use tht_tree::assn::Assn;
use tht_tree::plain::Name;
use tht_tree::term::Term;

/// Whether the two are one tree, up to the names of their bound variables.
pub fn alike(assn: &Assn, other: &Assn) -> bool
    ensures test { result ≡ are_alike assn.now other.now }
    ensures decides { IsTrue result ↔ (asn [] [] assn.now ≡ asn [] [] other.now) }
    ensures heaps { IsTrue result → HaveTheSameHeaps assn.now other.now }
{
    let binders = no_binders();
    like_assn(assn, other, &binders)
}

// Where no name is bound.
fn no_binders<'a>() -> Binders<'a>
    ensures { pairs_of result ≡ [] }
{
    Binders::None
}

#[cycle(like_assn)]
fn like_assn(assn: &Assn, other: &Assn, binders: &Binders<'_>) -> bool
    ensures { result ≡ like_assns (pairs_of binders.now) assn.now other.now }
{
    match (assn, other) {
        (Assn::Emp, Assn::Emp) => true,
        (Assn::Fact(t), Assn::Fact(u)) => like(t, u, binders),
        (Assn::Own(t, u), Assn::Own(v, w)) => like(t, v, binders) && like(u, w, binders),
        (Assn::Shared(t, u), Assn::Shared(v, w)) => like(t, v, binders) && like(u, w, binders),
        (Assn::Star(a, b), Assn::Star(c, d)) => like_part(a, c, binders)
            && like_part(b, d, binders),
        (Assn::Inst(p, ts), Assn::Inst(q, us)) => p.as_str() == q.as_str()
            && like_list(ts, us, binders),
        (Assn::Exists(x, r, a), Assn::Exists(y, s, b)) => {
            *r == *s && like_part(a, b, &Binders::Pair(&*x, &*y, &*binders))
        }
        (Assn::Either(a, b), Assn::Either(c, d)) => like_part(a, c, binders)
            && like_part(b, d, binders),
        _ => false,
    }
}

#[cycle(like_assn)]
fn like_part(assn: &Boxed<Assn>, other: &Boxed<Assn>, binders: &Binders<'_>) -> bool
    ensures { result ≡ like_assns (pairs_of binders.now) assn.now other.now }
{
    like_assn(assn.get(), other.get(), binders)
}

#[cycle(like_term)]
fn like_term(term: &Term, other: &Term, binders: &Binders<'_>) -> bool
    ensures { result ≡ like_terms (pairs_of binders.now) term.now other.now }
{
    match (term, other) {
        (Term::Num(m), Term::Num(n)) => m == n,
        (Term::True, Term::True) => true,
        (Term::False, Term::False) => true,
        (Term::Null, Term::Null) => true,
        (Term::Nil, Term::Nil) => true,
        (Term::Unit, Term::Unit) => true,
        (Term::Var(x), Term::Var(y)) => same_name(x, y, binders),
        (Term::Len(a), Term::Len(b)) => like(a, b, binders),
        (Term::Offset(a, k), Term::Offset(b, l)) => k == l && like(a, b, binders),
        (Term::Mul(a, b), Term::Mul(c, d)) => like(a, c, binders) && like(b, d, binders),
        (Term::Add(a, b), Term::Add(c, d)) => like(a, c, binders) && like(b, d, binders),
        (Term::Sub(a, b), Term::Sub(c, d)) => like(a, c, binders) && like(b, d, binders),
        (Term::Cons(a, b), Term::Cons(c, d)) => like(a, c, binders) && like(b, d, binders),
        (Term::Cat(a, b), Term::Cat(c, d)) => like(a, c, binders) && like(b, d, binders),
        (Term::Eq(a, b), Term::Eq(c, d)) => like(a, c, binders) && like(b, d, binders),
        (Term::Lt(a, b), Term::Lt(c, d)) => like(a, c, binders) && like(b, d, binders),
        (Term::Le(a, b), Term::Le(c, d)) => like(a, c, binders) && like(b, d, binders),
        (Term::Not(a), Term::Not(b)) => like(a, b, binders),
        (Term::And(a, b), Term::And(c, d)) => like(a, c, binders) && like(b, d, binders),
        (Term::Or(a, b), Term::Or(c, d)) => like(a, c, binders) && like(b, d, binders),
        (Term::Imp(a, b), Term::Imp(c, d)) => like(a, c, binders) && like(b, d, binders),
        _ => false,
    }
}

#[cycle(like_term)]
fn like(term: &Boxed<Term>, other: &Boxed<Term>, binders: &Binders<'_>) -> bool
    ensures { result ≡ like_terms (pairs_of binders.now) term.now other.now }
{
    like_term(term.get(), other.get(), binders)
}

fn like_list(terms: &Items<Term>, others: &Items<Term>, binders: &Binders<'_>) -> bool
    ensures { result ≡ like_lists (pairs_of binders.now) terms.now others.now }
{
    if terms.len() != others.len() {
        return false;
    }
    for (term, other) in terms.as_slice().iter().zip(others.as_slice().iter()) {
        if !like_term(term, other, binders) {
            return false;
        }
    }
    true
}

// Whether both names stand for one variable: bound at one place, or free and the same.
fn same_name(name: &Name, other: &Name, binders: &Binders<'_>) -> bool
    ensures { result ≡ same_names (pairs_of binders.now) name.now other.now }
{
    match binders {
        Binders::None => name.as_str() == other.as_str(),
        Binders::Pair(left, right, outer) => {
            if left.as_str() == name.as_str() {
                return right.as_str() == other.as_str();
            }
            if right.as_str() == other.as_str() {
                return false;
            }
            same_name(name, other, outer)
        }
    }
}
