// The sorts of terms.
ghost use Rattle.std.specs.Prelude.{◌≡◌, None, is_some};
ghost use Rattle.tht_tree.specs.Syntax.{position};
ghost use Rattle.tht_tree.specs.Rules.Scoping.{sort_of, variable_sort, name_sort, both_of, equation_sort, cons_sort, len_sort, offset_sort, not_sort};
ghost use Rattle.pure_terms.specs.Locals.{locals_of};

use sqlite_items::Boxed;
use std::collections::BTreeMap;
use tht_tree::plain::{Name, Sort};
use tht_tree::state::Local;
use tht_tree::term::Term;

/// What each local name in scope stands for.
pub type Scope = BTreeMap<String, Local>;

/// The sort of a term over these roots: none where a name is neither a variable in scope nor a root, or a part has not the sort
/// that it must have. A variable in scope comes before a root of its name; the sort of a root is `Loc`.
#[cycle(sorts)]
pub fn sort_in(term: &Term, roots: &[Name], scope: &Scope) -> Option<Sort>
    ensures { result ≡ sort_of roots.now (locals_of scope.now) term.now }
{
    match term {
        Term::Num(_) => Some(Sort::Nat),
        Term::True => Some(Sort::Bool),
        Term::False => Some(Sort::Bool),
        Term::Null => Some(Sort::Loc),
        Term::Nil => Some(Sort::Seq),
        Term::Unit => Some(Sort::Unit),
        Term::Var(x) => sort_of_name(x, roots, scope),
        Term::Len(a) => sort_of_length(sort(a, roots, scope)),
        Term::Offset(a, _) => sort_of_offset(sort(a, roots, scope)),
        Term::Mul(a, b) => numbers(sort(a, roots, scope), sort(b, roots, scope)),
        Term::Add(a, b) => numbers(sort(a, roots, scope), sort(b, roots, scope)),
        Term::Sub(a, b) => numbers(sort(a, roots, scope), sort(b, roots, scope)),
        Term::Cons(a, b) => sort_of_cons(sort(a, roots, scope), sort(b, roots, scope)),
        Term::Cat(a, b) => sequences(sort(a, roots, scope), sort(b, roots, scope)),
        Term::Eq(a, b) => sort_of_equation(sort(a, roots, scope), sort(b, roots, scope)),
        Term::Lt(a, b) => compared(sort(a, roots, scope), sort(b, roots, scope)),
        Term::Le(a, b) => compared(sort(a, roots, scope), sort(b, roots, scope)),
        Term::Not(a) => sort_of_negation(sort(a, roots, scope)),
        Term::And(a, b) => formulas(sort(a, roots, scope), sort(b, roots, scope)),
        Term::Or(a, b) => formulas(sort(a, roots, scope), sort(b, roots, scope)),
        Term::Imp(a, b) => formulas(sort(a, roots, scope), sort(b, roots, scope)),
    }
}

#[cycle(sorts)]
fn sort(term: &Boxed<Term>, roots: &[Name], scope: &Scope) -> Option<Sort>
    ensures { result ≡ sort_of roots.now (locals_of scope.now) term.now }
{
    sort_in(term.get(), roots, scope)
}

// ---- names

fn sort_of_name(name: &Name, roots: &[Name], scope: &Scope) -> Option<Sort>
    ensures { result ≡ name_sort (variable_sort (locals_of scope.now name.now)) (position 0 roots.now name.now) }
{
    match scope.get(name.as_str()) {
        Some(Local::Variable(sort)) => Some(*sort),
        _ => sort_of_root(name, roots),
    }
}

fn sort_of_root(name: &Name, roots: &[Name]) -> Option<Sort>
    ensures { result ≡ name_sort None (position 0 roots.now name.now) }
{
    if is_root(name, roots) {
        Some(Sort::Loc)
    } else {
        None
    }
}

fn is_root(name: &Name, roots: &[Name]) -> bool
    ensures { result ≡ is_some (position 0 roots.now name.now) }
{
    for root in roots {
        if root.as_str() == name.as_str() {
            return true;
        }
    }
    false
}

// ---- operations, by the sorts of their parts

fn sort_of_length(part: Option<Sort>) -> Option<Sort>
    ensures { result ≡ len_sort part }
{
    match part {
        Some(Sort::Seq) => Some(Sort::Nat),
        _ => None,
    }
}

fn sort_of_offset(part: Option<Sort>) -> Option<Sort>
    ensures { result ≡ offset_sort part }
{
    match part {
        Some(Sort::Loc) => Some(Sort::Loc),
        _ => None,
    }
}

fn sort_of_negation(part: Option<Sort>) -> Option<Sort>
    ensures { result ≡ not_sort part }
{
    match part {
        Some(Sort::Bool) => Some(Sort::Bool),
        _ => None,
    }
}

fn sort_of_cons(first: Option<Sort>, others: Option<Sort>) -> Option<Sort>
    ensures { result ≡ cons_sort first others }
{
    match (first, others) {
        (Some(Sort::Nat), Some(Sort::Seq)) => Some(Sort::Seq),
        _ => None,
    }
}

fn sort_of_equation(a: Option<Sort>, b: Option<Sort>) -> Option<Sort>
    ensures { result ≡ equation_sort a b }
{
    match (a, b) {
        (Some(s), Some(r)) if s == r => Some(Sort::Bool),
        _ => None,
    }
}

// Both parts have the sort `of`, and the whole has `whole`.
fn both(of: Sort, a: Option<Sort>, b: Option<Sort>, whole: Sort) -> Option<Sort>
    ensures { result ≡ both_of of a b whole }
{
    match (a, b) {
        (Some(s), Some(r)) if of == s && of == r => Some(whole),
        _ => None,
    }
}

fn numbers(a: Option<Sort>, b: Option<Sort>) -> Option<Sort>
    ensures { result ≡ both_of Sort.Nat a b Sort.Nat }
{
    both(Sort::Nat, a, b, Sort::Nat)
}

fn sequences(a: Option<Sort>, b: Option<Sort>) -> Option<Sort>
    ensures { result ≡ both_of Sort.Seq a b Sort.Seq }
{
    both(Sort::Seq, a, b, Sort::Seq)
}

fn compared(a: Option<Sort>, b: Option<Sort>) -> Option<Sort>
    ensures { result ≡ both_of Sort.Nat a b Sort.Bool }
{
    both(Sort::Nat, a, b, Sort::Bool)
}

fn formulas(a: Option<Sort>, b: Option<Sort>) -> Option<Sort>
    ensures { result ≡ both_of Sort.Bool a b Sort.Bool }
{
    both(Sort::Bool, a, b, Sort::Bool)
}
