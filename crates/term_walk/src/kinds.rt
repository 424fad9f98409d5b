//! Which cells an assertion speaks of.
ghost use Rattle.std.specs.Prelude.{◌≡◌, option_copied};
ghost use Rattle.tht_tree.specs.Walk.Kinds.{both as both_kinds, access_kind as kind_of_access, instance_kind as kind_of_instance};
ghost use Rattle.tht_tree.specs.Walk.Kinds.{kind_of as the_kind, is_private as private_test, is_shared as shared_test};
ghost use Rattle.tht_tree.specs.Walk.Kinds.{private_only as private_code, shared_only as shared_code, of_access as access_code};
ghost use Rattle.term_walk.specs.Scopes.{scope_of};

use crate::codes::unless;
use crate::scope::Scope;
use tht_tree::assn::Assn;
use tht_tree::decl::Access;
use tht_tree::walk::{Class, Kind, WalkCode};

/// Which cells the assertion speaks of. A predicate counts by its access; a name that stands for none counts for nothing.
#[tactic(auto, unfolding(tht_tree::specs::Walk::Kinds::kind_of))]
pub fn kind_of(scope: &Scope, assn: &Assn) -> Kind
    ensures { result ≡ the_kind (scope_of scope.now) assn.now }
{
    match assn {
        Assn::Emp => Kind::Pure,
        Assn::Fact(_) => Kind::Pure,
        Assn::Own(_, _) => Kind::Private,
        Assn::Shared(_, _) => Kind::Shared,
        Assn::Star(a, b) => both(kind_of(scope, a.get()), kind_of(scope, b.get())),
        Assn::Inst(p, _) => instance_kind(scope.get(p)),
        Assn::Exists(_, _, a) => kind_of(scope, a.get()),
        Assn::Either(a, b) => both(kind_of(scope, a.get()), kind_of(scope, b.get())),
    }
}

fn both(kind: Kind, other: Kind) -> Kind
    ensures { result ≡ both_kinds kind other }
{
    match (kind, other) {
        (Kind::Pure, k) => k,
        (k, Kind::Pure) => k,
        (Kind::Private, Kind::Private) => Kind::Private,
        (Kind::Shared, Kind::Shared) => Kind::Shared,
        _ => Kind::Mixed,
    }
}

fn access_kind(access: Access) -> Kind
    ensures { result ≡ kind_of_access access }
{
    match access {
        Access::Private => Kind::Private,
        Access::Shared => Kind::Shared,
    }
}

fn instance_kind(class: Option<&Class>) -> Kind
    ensures { result ≡ kind_of_instance (option_copied class.entry) }
{
    match class {
        Some(Class::Predicate(access, _, _)) => access_kind(*access),
        _ => Kind::Pure,
    }
}

// ---- which kinds are allowed

fn is_private(kind: Kind) -> bool
    ensures { result ≡ private_test kind }
{
    matches!(kind, Kind::Pure | Kind::Private)
}

fn is_shared(kind: Kind) -> bool
    ensures { result ≡ shared_test kind }
{
    matches!(kind, Kind::Pure | Kind::Shared)
}

/// S3: an assertion that speaks of private cells alone.
pub fn private_only(scope: &Scope, assn: &Assn) -> Option<WalkCode>
    ensures { result ≡ private_code (scope_of scope.now) assn.now }
{
    unless(is_private(kind_of(scope, assn)), WalkCode::S3)
}

/// S3: an assertion that speaks of shared cells alone.
pub fn shared_only(scope: &Scope, assn: &Assn) -> Option<WalkCode>
    ensures { result ≡ shared_code (scope_of scope.now) assn.now }
{
    unless(is_shared(kind_of(scope, assn)), WalkCode::S3)
}

/// S3: an assertion that speaks of the cells that a predicate with this access may.
pub fn of_access(access: Access, scope: &Scope, assn: &Assn) -> Option<WalkCode>
    ensures { result ≡ access_code access (scope_of scope.now) assn.now }
{
    match access {
        Access::Private => private_only(scope, assn),
        Access::Shared => shared_only(scope, assn),
    }
}
