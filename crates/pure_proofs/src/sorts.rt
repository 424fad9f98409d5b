// The sorts of terms, where these are known.
ghost use Rattle.std.specs.Prelude.{◌≡◌, None, Some, MatchOption};
ghost use Rattle.tht_tree.specs.Rules.Scoping.{is_of as has, sort_of};
ghost use Rattle.tht_tree.specs.Rules.Proofs.{equation_of as equation_in};
ghost use Rattle.pure_terms.specs.Locals.{locals_of};
ghost use Rattle.pure_proofs.specs.Verdicts.{without_lemmas};

use crate::shapes::{Pair, as_equation};
use pure_terms::{Scope, sort_in};
use tht_tree::plain::{Name, Sort};
use tht_tree::term::Term;

/// Whether the term has this sort.
pub(crate) fn has_sort(term: &Term, sort: Sort, roots: &[Name], scope: &Scope) -> bool
    ensures { result ≡ has sort (sort_of roots.now (locals_of scope.now) term.now) }
{
    match sort_in(term, roots, scope) {
        Some(s) => sort == s,
        None => false,
    }
}

/// The sides of an equation of this sort.
pub(crate) fn equation_of<'a>(
    goal: &'a Term,
    sort: Sort,
    roots: &[Name],
    scope: &Scope,
) -> Option<Pair<'a>>
    ensures { let said = equation_in (without_lemmas roots.now) sort (locals_of scope.now) goal.now in
        MatchOption result (said ≡ None) (λ p. said ≡ Some (p.0.now, p.1.now)) }
{
    let (a, b) = as_equation(goal)?;
    if has_sort(a, sort, roots, scope) {
        Some((a, b))
    } else {
        None
    }
}
