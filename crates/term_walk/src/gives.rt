//! The names and sorts of a give.
ghost use Rattle.std.specs.Prelude.{◌≡◌, OnOk, IfOk};
ghost use Rattle.tht_tree.specs.Walk.Gives.{give as the_give, give_kind as the_kind};
ghost use Rattle.term_walk.specs.Scopes.{scope_of};

use self::GiveKind as Kind;
use crate::codes::{Walked, refuse};
use crate::proofs::walk_proof;
use crate::scope::Scope;
use crate::terms::any_term;
use tht_tree::give::{Give, GiveKind};
use tht_tree::plain::Spot;

/// The first refusal in a give. The scope is then as it was.
#[cycle(give)]
#[tactic(auto, unfolding(tht_tree::specs::Walk::Gives::give, tht_tree::specs::Walk::Gives::give_kind))]
pub fn walk_give(give: &Give, scope: &mut Scope) -> Walked
    ensures ok { IfOk result (λ r. r ≡ the_give give.now (scope_of scope.old)) }
    ensures same { OnOk result (scope_of scope.new ≡ scope_of scope.old) }
{
    walk_kind(&give.kind, give.spot, scope)
}

#[cycle(give)]
#[tactic(auto, unfolding(tht_tree::specs::Walk::Gives::give, tht_tree::specs::Walk::Gives::give_kind))]
fn walk_kind(kind: &GiveKind, spot: Spot, scope: &mut Scope) -> Walked
    ensures ok { IfOk result (λ r. r ≡ the_kind kind.now spot (scope_of scope.old)) }
    ensures same { OnOk result (scope_of scope.new ≡ scope_of scope.old) }
{
    match kind {
        Kind::Emp => Ok(None),
        Kind::Atom(_) => Ok(None),
        Kind::Fact(p) => walk_proof(p, scope),
        Kind::Star(g, h) => match walk_give(g.get(), scope)? {
            Some(refusal) => Ok(Some(refusal)),
            None => walk_give(h.get(), scope),
        },
        Kind::Ex(t, g) => match any_term(scope, t.get()) {
            Some(code) => refuse(spot, code),
            None => walk_give(g.get(), scope),
        },
        Kind::Left(g) => walk_give(g.get(), scope),
        Kind::Right(g) => walk_give(g.get(), scope),
        Kind::Fold(g) => walk_give(g.get(), scope),
    }
}
