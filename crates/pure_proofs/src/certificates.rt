// The entries of a linear certificate, where these are known.
ghost use Rattle.std.specs.Prelude.{◌≡◌, None, Some, MatchOption, is_some, map, filter_map, IfOk};
ghost use Rattle.tht_tree.specs.Rules.Certificates.{aim_of as aim_in};
ghost use Rattle.tht_tree.specs.Rules.Proofs.{fact_in, certifies};
ghost use Rattle.pure_proofs.specs.Facts.{denied_by};
ghost use Rattle.pure_proofs.specs.Said.{known_in, said_of_entry};
ghost use Rattle.pure_proofs.specs.Verdicts.{without_lemmas};

use crate::facts::{Aim, aim_of, fact_of};
use crate::known::Known;
use crate::lin::{certify, facts_of};
use crate::verdict::Verdict;
use std::alloc::Global;
use tht_tree::plain::{Name, Spot};
use tht_tree::proof::LinEntry;
use tht_tree::term::Term;

/// The goal as what a linear certificate proves, if it is one of these.
#[tactic(auto, unfolding(crate::specs::Said::known_in))]
pub(crate) fn aim_at<'a>(goal: &'a Term, roots: &[Name], known: &Known) -> Option<Aim<'a>>
    ensures { let said = aim_in roots.now (known_in known.now.state).scope goal.now in
        MatchOption result (said ≡ None) (λ aim. said ≡ Some (denied_by aim)) }
{
    aim_of(goal, roots, &known.state.scope)
}

/// Whether the formula of the entry is read as a comparison.
pub(crate) fn is_fact(entry: &LinEntry, aim: Aim<'_>, roots: &[Name], known: &Known) -> bool
    ensures { result ≡ is_some (fact_in (without_lemmas roots.now) (known_in known.now.state).scope (denied_by aim.entry) (said_of_entry roots.now entry.now)) }
{
    fact_of(entry.fact.get(), aim, roots, &known.state.scope).is_some()
}

/// The facts of the entries are added up with what is denied.
pub(crate) fn certify_entries(
    alloc: Global,
    spot: Spot,
    roots: &[Name],
    known: &Known,
    multiplier: u64,
    aim: Aim<'_>,
    entries: &[LinEntry],
) -> Verdict
    ensures { IfOk result (λ r. r ≡ certifies spot (known_in known.now.state).scope multiplier (denied_by aim.entry)
        (filter_map (fact_in (without_lemmas roots.now) (known_in known.now.state).scope (denied_by aim.entry)) (map (said_of_entry roots.now) entries.now))) }
{
    let facts = facts_of(alloc, roots, &known.state.scope, aim, entries)?;
    certify(alloc, spot, &known.state.scope, multiplier, aim, &facts)
}
