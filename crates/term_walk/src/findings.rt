//! What is found in a term of a construct: what is refused in it, and its sort.
ghost use Rattle.std.specs.Prelude.{◌≡◌, option_copied};
ghost use Rattle.tht_tree.specs.Walk.Sorts.{clash as clash_of, wants as wants_of, found_of, of_logic as of_logic_code, found_name, found};
ghost use Rattle.tht_tree.specs.Walk.Sorts.{agree as agree_code};
ghost use Rattle.tht_tree.specs.Walk.Codes.{first as first_code};
ghost use Rattle.tht_tree.specs.declared.plain.Sort.TheVariants.{Nat, Bool, Seq};
ghost use Rattle.term_walk.specs.Scopes.{scope_of};

use crate::codes::{first, unless};
use crate::scope::Scope;
use sqlite_items::Boxed;
use tht_tree::plain::Sort;
use tht_tree::term::Term;
use tht_tree::walk::{Class, Found, WalkCode};

/// The first in the table of all codes that are refused in a term, which may be one of the program, and its sort. A name that
/// stands for no value has no sort; every other term has one, whatever is refused in it.
#[cycle(find)]
#[tactic(auto, unfolding(tht_tree::specs::Walk::Sorts::found))]
pub fn find(scope: &Scope, program: bool, term: &Term) -> Found
    ensures { result ≡ found (scope_of scope.now) program term.now }
{
    match term {
        Term::Num(_) => of_sort(Sort::Nat, None),
        Term::True => of_sort(Sort::Bool, None),
        Term::False => of_sort(Sort::Bool, None),
        Term::Null => of_sort(Sort::Loc, None),
        Term::Nil => of_sort(Sort::Seq, of_logic(program)),
        Term::Unit => of_sort(Sort::Unit, None),
        Term::Var(x) => find_name(program, scope.get(x)),
        Term::Len(a) => of_sort(Sort::Nat, wants(Sort::Seq, part(scope, program, a))),
        Term::Offset(a, _) => of_sort(Sort::Loc, wants(Sort::Loc, part(scope, program, a))),
        Term::Mul(a, b) => number(part(scope, program, a), part(scope, program, b)),
        Term::Add(a, b) => number(part(scope, program, a), part(scope, program, b)),
        Term::Sub(a, b) => number(part(scope, program, a), part(scope, program, b)),
        Term::Cons(a, b) => cons(program, part(scope, program, a), part(scope, program, b)),
        Term::Cat(a, b) => cat(program, part(scope, program, a), part(scope, program, b)),
        Term::Eq(a, b) => equation(part(scope, program, a), part(scope, program, b)),
        Term::Lt(a, b) => order(part(scope, program, a), part(scope, program, b)),
        Term::Le(a, b) => order(part(scope, program, a), part(scope, program, b)),
        Term::Not(a) => of_sort(Sort::Bool, wants(Sort::Bool, part(scope, program, a))),
        Term::And(a, b) => truth(part(scope, program, a), part(scope, program, b)),
        Term::Or(a, b) => truth(part(scope, program, a), part(scope, program, b)),
        Term::Imp(a, b) => truth(part(scope, program, a), part(scope, program, b)),
    }
}

#[cycle(find)]
fn part(scope: &Scope, program: bool, term: &Boxed<Term>) -> Found
    ensures { result ≡ found (scope_of scope.now) program term.now }
{
    find(scope, program, term.get())
}

fn of_sort(sort: Sort, code: Option<WalkCode>) -> Found
    ensures { result ≡ found_of sort code }
{
    Found {
        code,
        sort: Some(sort),
    }
}

// A number, made from two numbers.
fn number(a: Found, b: Found) -> Found
    ensures { result ≡ found_of Nat (first_code (wants_of Nat a) (wants_of Nat b)) }
{
    of_sort(Sort::Nat, first(wants(Sort::Nat, a), wants(Sort::Nat, b)))
}

// A truth, made from two numbers.
fn order(a: Found, b: Found) -> Found
    ensures { result ≡ found_of Bool (first_code (wants_of Nat a) (wants_of Nat b)) }
{
    of_sort(Sort::Bool, first(wants(Sort::Nat, a), wants(Sort::Nat, b)))
}

// A truth, made from two truths.
fn truth(a: Found, b: Found) -> Found
    ensures { result ≡ found_of Bool (first_code (wants_of Bool a) (wants_of Bool b)) }
{
    of_sort(
        Sort::Bool,
        first(wants(Sort::Bool, a), wants(Sort::Bool, b)),
    )
}

// A sequence, made from a number and a sequence.
fn cons(program: bool, a: Found, b: Found) -> Found
    ensures { result ≡ found_of Seq (first_code (wants_of Nat a) (first_code (wants_of Seq b) (of_logic_code program))) }
{
    let rest = first(wants(Sort::Seq, b), of_logic(program));
    of_sort(Sort::Seq, first(wants(Sort::Nat, a), rest))
}

// A sequence, made from two sequences.
fn cat(program: bool, a: Found, b: Found) -> Found
    ensures { result ≡ found_of Seq (first_code (wants_of Seq a) (first_code (wants_of Seq b) (of_logic_code program))) }
{
    let rest = first(wants(Sort::Seq, b), of_logic(program));
    of_sort(Sort::Seq, first(wants(Sort::Seq, a), rest))
}

fn equation(a: Found, b: Found) -> Found
    ensures { result ≡ found_of Bool (first_code a.code (first_code b.code (agree_code a.sort b.sort))) }
{
    let rest = first(b.code, agree(a.sort, b.sort));
    of_sort(Sort::Bool, first(a.code, rest))
}

/// S1: this sort is wanted. Nothing is refused where none was found.
pub fn clash(sort: Sort, found: Option<Sort>) -> Option<WalkCode>
    ensures { result ≡ clash_of sort found }
{
    match found {
        Some(found) => unless(sort == found, WalkCode::S1),
        None => None,
    }
}

/// What is refused where a term of this sort is wanted.
pub fn wants(sort: Sort, found: Found) -> Option<WalkCode>
    ensures { result ≡ wants_of sort found }
{
    first(found.code, clash(sort, found.sort))
}

// Two parts of one sort.
fn agree(a: Option<Sort>, b: Option<Sort>) -> Option<WalkCode>
    ensures { result ≡ agree_code a b }
{
    match a {
        Some(sort) => clash(sort, b),
        None => None,
    }
}

// S2: of the logic alone.
fn of_logic(program: bool) -> Option<WalkCode>
    ensures { result ≡ of_logic_code program }
{
    unless(!program, WalkCode::S2)
}

// N1, N3: a name that stands for a value.
fn find_name(program: bool, class: Option<&Class>) -> Found
    ensures { result ≡ found_name program (option_copied class.entry) }
{
    match class {
        Some(Class::Root) => of_sort(Sort::Loc, None),
        Some(Class::Program(sort)) => of_sort(*sort, of_logic(program && *sort == Sort::Seq)),
        Some(Class::Logic(sort)) => of_sort(*sort, of_logic(program)),
        Some(_) => no_value(WalkCode::N3),
        None => no_value(WalkCode::N1),
    }
}

fn no_value(code: WalkCode) -> Found
    ensures { result ≡ record { code = Some code; sort = None } }
{
    Found {
        code: Some(code),
        sort: None,
    }
}
