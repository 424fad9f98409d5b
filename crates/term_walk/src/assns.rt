//! The names and sorts of an assertion.
ghost use Rattle.std.specs.Prelude.{◌≡◌, OnOk, IfOk};
ghost use Rattle.tht_tree.specs.Walk.Codes.{first as first_code};
ghost use Rattle.tht_tree.specs.Walk.Names.{with_variable};
ghost use Rattle.tht_tree.specs.Walk.Terms.{held as held_code, term_of as term_code};
ghost use Rattle.tht_tree.specs.Walk.Assns.{assn as assn_code};
ghost use Rattle.tht_tree.specs.declared.plain.Sort.TheVariants.{Loc};
ghost use Rattle.term_walk.specs.Scopes.{scope_of};

use crate::codes::first;
use crate::scope::Scope;
use crate::terms::{formula, held, new_name, predicate, term_of};
use sqlite_items::Boxed;
use std::alloc::AllocError;
use tht_tree::assn::Assn;
use tht_tree::plain::{Name, Sort};
use tht_tree::term::Term;
use tht_tree::walk::{Class, WalkCode};

/// The first in the table of all codes that are refused in an assertion. The scope is then as it was; an `Err` is want of memory.
#[cycle(assn)]
#[tactic(auto, unfolding(tht_tree::specs::Walk::Assns::assn))]
pub fn walk_assn(assn: &Assn, scope: &mut Scope) -> Result<Option<WalkCode>, AllocError>
    ensures ok { IfOk result (λ r. r ≡ assn_code assn.now (scope_of scope.old)) }
    ensures same { OnOk result (scope_of scope.new ≡ scope_of scope.old) }
{
    match assn {
        Assn::Emp => Ok(None),
        Assn::Fact(t) => Ok(formula(scope, t.get())),
        Assn::Own(t, u) => Ok(walk_cell(scope, t.get(), u.get())),
        Assn::Shared(t, u) => Ok(walk_cell(scope, t.get(), u.get())),
        Assn::Star(a, b) => {
            let code = walk_assn(a.get(), scope)?;
            Ok(first(code, walk_assn(b.get(), scope)?))
        }
        Assn::Inst(p, ts) => Ok(predicate(scope, p, ts)),
        Assn::Exists(x, sort, a) => {
            let code = new_name(scope, x);
            Ok(first(code, walk_inner(a, x, *sort, scope)?))
        }
        Assn::Either(a, b) => {
            let code = walk_assn(a.get(), scope)?;
            Ok(first(code, walk_assn(b.get(), scope)?))
        }
    }
}

// An assertion in which this variable of the logic is known.
#[cycle(assn)]
#[tactic(auto, using(crate::proofs::Shadowing::as_before))]
fn walk_inner(
    assn: &Boxed<Assn>,
    name: &Name,
    sort: Sort,
    scope: &mut Scope,
) -> Result<Option<WalkCode>, AllocError>
    ensures ok { IfOk result (λ r. r ≡ assn_code assn.now (with_variable (scope_of scope.old) name.now sort)) }
    ensures same { OnOk result (scope_of scope.new ≡ scope_of scope.old) }
{
    let shadowed = scope.bind(name, Class::Logic(sort))?;
    let code = walk_assn(assn.get(), scope)?;
    scope.unbind(name, shadowed)?;
    Ok(code)
}

// A place, and what its cell holds.
fn walk_cell(scope: &Scope, place: &Term, value: &Term) -> Option<WalkCode>
    ensures { result ≡ first_code (term_code (scope_of scope.now) Loc place.now) (held_code (scope_of scope.now) value.now) }
{
    first(term_of(scope, Sort::Loc, place), held(scope, value))
}
