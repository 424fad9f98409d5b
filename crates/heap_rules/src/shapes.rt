// Assertions by their shapes.
ghost use Rattle.std.specs.Prelude.{◌≡◌, None, Some, MatchOption};
ghost use Rattle.tht_tree.specs.declared.assn.Assn.{out-Assn};
ghost use Rattle.tht_logic.specs.Rules.Gives.{star_at, disjunction_at};

use tht_tree::assn::Assn;

/// Two assertions: the sides of a `*`, say.
pub type Sides<'a> = (&'a Assn, &'a Assn);

/// `p * q`
pub(crate) fn as_star(assn: &Assn) -> Option<Sides<'_>>
    ensures { MatchOption result (star_at (out-Assn assn.now) ≡ None) (λ p. star_at (out-Assn assn.now) ≡ Some (p.0.now, p.1.now)) }
{
    match assn {
        Assn::Star(p, q) => Some((p.get(), q.get())),
        _ => None,
    }
}

/// The sides of `either p q`.
pub fn as_disjunction(assn: &Assn) -> Option<Sides<'_>>
    ensures { MatchOption result (disjunction_at (out-Assn assn.now) ≡ None) (λ p. disjunction_at (out-Assn assn.now) ≡ Some (p.0.now, p.1.now)) }
{
    match assn {
        Assn::Either(p, q) => Some((p.get(), q.get())),
        _ => None,
    }
}
