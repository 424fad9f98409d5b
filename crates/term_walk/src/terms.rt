//! What is refused in the names and terms of a construct.
ghost use Rattle.std.specs.Prelude.{◌≡◌, true, false, option_copied};
ghost use Rattle.tht_tree.specs.Walk.Codes.{first as first_code};
ghost use Rattle.tht_tree.specs.Walk.Names.{is_variable as variable_test, new_name as new_name_code, hypothesis as hypothesis_code, may_name as may_name_code};
ghost use Rattle.tht_tree.specs.Walk.Terms.{term_of as term_code, formula as formula_code, any_term as any_term_code};
ghost use Rattle.tht_tree.specs.Walk.Terms.{program_of as program_code, any_program as any_program_code, held as held_code};
ghost use Rattle.tht_tree.specs.Walk.Terms.{storable as storable_code, storable_if, arguments as arguments_code};
ghost use Rattle.tht_tree.specs.Walk.Terms.{any_terms as any_terms_code, any_programs as any_programs_code};
ghost use Rattle.tht_tree.specs.Walk.Terms.{predicate as predicate_code, lemma as lemma_code};
ghost use Rattle.term_walk.specs.Scopes.{scope_of};

use crate::codes::{first, unless};
use crate::findings::{clash, find, wants};
use crate::scope::Scope;
use sqlite_items::Items;
use tht_tree::plain::{Name, Sort};
use tht_tree::term::Term;
use tht_tree::walk::{Class, Naming, WalkCode};

// ---- names

/// N2: a name is bound where nothing in scope has it.
pub fn new_name(scope: &Scope, name: &Name) -> Option<WalkCode>
    ensures { result ≡ new_name_code (scope_of scope.now) name.now }
{
    unless(scope.get(name).is_none(), WalkCode::N2)
}

/// N1, N3: a name that stands for a hypothesis.
pub fn hypothesis(scope: &Scope, name: &Name) -> Option<WalkCode>
    ensures { result ≡ hypothesis_code ((scope_of scope.now) name.now) }
{
    match scope.get(name) {
        Some(Class::Hypothesis) => None,
        Some(_) => Some(WalkCode::N3),
        None => Some(WalkCode::N1),
    }
}

// ---- one term

/// A term of the logic of this sort.
pub fn term_of(scope: &Scope, sort: Sort, term: &Term) -> Option<WalkCode>
    ensures { result ≡ term_code (scope_of scope.now) sort term.now }
{
    wants(sort, find(scope, false, term))
}

/// A formula: a term of the logic of sort `bool`.
pub fn formula(scope: &Scope, term: &Term) -> Option<WalkCode>
    ensures { result ≡ formula_code (scope_of scope.now) term.now }
{
    term_of(scope, Sort::Bool, term)
}

/// A term of the logic of any sort.
pub fn any_term(scope: &Scope, term: &Term) -> Option<WalkCode>
    ensures { result ≡ any_term_code (scope_of scope.now) term.now }
{
    find(scope, false, term).code
}

/// A program term of this sort.
pub fn program_of(scope: &Scope, sort: Sort, term: &Term) -> Option<WalkCode>
    ensures { result ≡ program_code (scope_of scope.now) sort term.now }
{
    wants(sort, find(scope, true, term))
}

/// A program term of any sort.
pub fn any_program(scope: &Scope, term: &Term) -> Option<WalkCode>
    ensures { result ≡ any_program_code (scope_of scope.now) term.now }
{
    find(scope, true, term).code
}

/// S5: the sort of a cell, a parameter of a command, or a result.
pub fn storable(sort: Sort) -> Option<WalkCode>
    ensures { result ≡ storable_code sort }
{
    unless(sort != Sort::Seq, WalkCode::S5)
}

/// What a cell holds: a term of the logic of a sort that can be stored, or S5.
pub fn held(scope: &Scope, term: &Term) -> Option<WalkCode>
    ensures { result ≡ held_code (scope_of scope.now) term.now }
{
    let found = find(scope, false, term);
    first(found.code, held_sort(found.sort))
}

fn held_sort(sort: Option<Sort>) -> Option<WalkCode>
    ensures { result ≡ storable_if sort }
{
    match sort {
        Some(sort) => storable(sort),
        None => None,
    }
}

// ---- several terms

/// Terms of the logic of any sorts.
#[tactic(auto, using(crate::proofs::Gathered::one_more))]
pub fn any_terms(scope: &Scope, terms: &[Term]) -> Option<WalkCode>
    ensures { result ≡ any_terms_code (scope_of scope.now) terms.now }
{
    let mut code = None;
    for term in terms {
        code = first(code, any_term(scope, term));
    }
    code
}

/// Program terms of any sorts.
#[tactic(auto, using(crate::proofs::Gathered::one_more))]
pub fn any_programs(scope: &Scope, terms: &[Term]) -> Option<WalkCode>
    ensures { result ≡ any_programs_code (scope_of scope.now) terms.now }
{
    let mut code = None;
    for term in terms {
        code = first(code, any_program(scope, term));
    }
    code
}

/// N4, S1: the terms, which may be of the program, as arguments for parameters of these sorts. What is refused in a term itself is
/// not told.
pub fn arguments(scope: &Scope, program: bool, sorts: &[Sort], terms: &[Term]) -> Option<WalkCode>
    ensures { result ≡ arguments_code (scope_of scope.now) program sorts.now terms.now }
{
    if sorts.len() != terms.len() {
        return Some(WalkCode::N4);
    }
    let mut code = None;
    for (sort, term) in sorts.iter().zip(terms.iter()) {
        code = first(code, clash(*sort, find(scope, program, term).sort));
    }
    code
}

// ---- predicates and lemmas with arguments

/// An instance of the predicate with this name, with these arguments: N1, N3, N4, N7, S1, and what is refused in the arguments.
pub fn predicate(scope: &Scope, name: &Name, terms: &Items<Term>) -> Option<WalkCode>
    ensures { result ≡ predicate_code (scope_of scope.now) name.now terms.now }
{
    let terms = terms.as_slice();
    let code = match scope.get(name) {
        Some(Class::Predicate(_, sorts, naming)) => {
            called(scope, sorts.as_slice(), naming, terms)
        }
        Some(_) => Some(WalkCode::N3),
        None => Some(WalkCode::N1),
    };
    first(any_terms(scope, terms), code)
}

/// The same of a lemma.
pub fn lemma(scope: &Scope, name: &Name, terms: &Items<Term>) -> Option<WalkCode>
    ensures { result ≡ lemma_code (scope_of scope.now) name.now terms.now }
{
    let terms = terms.as_slice();
    let code = match scope.get(name) {
        Some(Class::Lemma(sorts, naming)) => called(scope, sorts.as_slice(), naming, terms),
        Some(_) => Some(WalkCode::N3),
        None => Some(WalkCode::N1),
    };
    first(any_terms(scope, terms), code)
}

// A predicate or a lemma with parameters of these sorts, with these arguments.
fn called(scope: &Scope, sorts: &[Sort], naming: &Naming, terms: &[Term]) -> Option<WalkCode>
    ensures { result ≡ first_code (arguments_code (scope_of scope.now) false sorts.now terms.now) (may_name_code naming.now terms.now) }
{
    first(
        arguments(scope, false, sorts, terms),
        may_name(naming, terms),
    )
}

// N7: a predicate or a lemma with these arguments.
fn may_name(naming: &Naming, terms: &[Term]) -> Option<WalkCode>
    ensures { result ≡ may_name_code naming.now terms.now }
{
    match naming {
        Naming::Anywhere => None,
        Naming::Nowhere => Some(WalkCode::N7),
        Naming::Only { argument, variable } => {
            unless(is_variable(variable, terms.get(*argument)), WalkCode::N7)
        }
    }
}

fn is_variable(name: &Name, term: Option<&Term>) -> bool
    ensures { result ≡ variable_test name.now (option_copied term.entry) }
{
    match term {
        Some(Term::Var(x)) => name.as_str() == x.as_str(),
        _ => false,
    }
}
