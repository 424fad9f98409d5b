// Linear certificates: the facts are added up with the negation of the goal, and must refute it.
ghost use Rattle.std.specs.Prelude.{◌≡◌, map, filter_map, option_map, Some, IfOk};
ghost use Rattle.tht_tree.specs.Normal.Linear.{reading as reading_of};
ghost use Rattle.tht_tree.specs.Rules.Certificates.{denied as denied_of, with_row, fact_rows, refused_certificate, turned as turned_of};
ghost use Rattle.tht_tree.specs.Rules.Proofs.{certifies};
ghost use Rattle.tht_tree.specs.Rules.Refusals.{refused_as};
ghost use Rattle.pure_terms.specs.Readings.{IsReading};
ghost use Rattle.pure_terms.specs.Locals.{locals_of};
ghost use Rattle.pure_proofs.specs.Facts.{denied_by, comparing, fact_said, entry_fact};
ghost use Rattle.pure_proofs.specs.Rows.{rows_of, rows_before, AreRows};

use crate::facts::{Aim, Sides, at_most, below, fact_of};
use crate::forms::no_form;
use crate::refute::check_rows;
use crate::rows::Rows;
use crate::verdict::Verdict;
use pure_terms::{Scope, reading};
use sqlite_items::Items;
use std::alloc::{AllocError, Global};
use std::vec::Vec;
use tht_tree::form::{Comparison, Inequality, NormalEnd};
use tht_tree::plain::{Name, Spot};
use tht_tree::proof::LinEntry;

/// A fact with its multiplier.
#[derive(Clone, Copy)]
pub(crate) struct Fact<'a> {
    pub by: u64,
    pub sides: Sides<'a>,
}

/// The facts of the entries.
pub(crate) fn facts_of<'a>(
    alloc: Global,
    roots: &[Name],
    scope: &Scope,
    aim: Aim<'_>,
    entries: &'a [LinEntry],
) -> Result<Vec<Fact<'a>>, AllocError>
    ensures { IfOk result (λ fs. map fact_said fs.items ≡ filter_map (entry_fact roots.now (locals_of scope.now) (denied_by aim.entry)) entries.now) }
{
    let mut facts = Vec::new(alloc);
    for entry in entries {
        if let Some(sides) = fact_of(entry.fact.get(), aim, roots, scope) {
            facts.push(Fact {
                by: entry.multiplier,
                sides,
            })?;
        }
    }
    Ok(facts)
}

/// The certificates for what is denied: for an equation a second one, with each fact turned round.
pub(crate) fn certify(
    alloc: Global,
    spot: Spot,
    scope: &Scope,
    multiplier: u64,
    aim: Aim<'_>,
    facts: &[Fact<'_>],
) -> Verdict
    ensures { IfOk result (λ r. r ≡ certifies spot (locals_of scope.now) multiplier (denied_by aim.entry) (map fact_said facts.now)) }
{
    match aim {
        Aim::AtMost(a, b) => check(alloc, spot, scope, multiplier, Some(below(b, a)), facts),
        Aim::Below(a, b) => check(alloc, spot, scope, multiplier, Some(at_most(b, a)), facts),
        Aim::Falsehood => check(alloc, spot, scope, multiplier, None, facts),
        Aim::Equal(a, b) => {
            match check(alloc, spot, scope, multiplier, Some(below(b, a)), facts)? {
                Some(refusal) => Ok(Some(refusal)),
                None => check_turned(alloc, spot, scope, multiplier, below(a, b), facts),
            }
        }
    }
}

// The certificate in which the two sides of each fact are turned round.
fn check_turned(
    alloc: Global,
    spot: Spot,
    scope: &Scope,
    multiplier: u64,
    denied: Sides<'_>,
    facts: &[Fact<'_>],
) -> Verdict
    ensures { IfOk result (λ r. r ≡ refused_as spot (refused_certificate (locals_of scope.now) multiplier (Some (comparing denied.entry)) (map turned_of (map fact_said facts.now)))) }
{
    let turned = turned(alloc, facts)?;
    check(alloc, spot, scope, multiplier, Some(denied), &turned)
}

// The facts, the two sides of each turned round.
fn turned<'a>(alloc: Global, facts: &[Fact<'a>]) -> Result<Vec<Fact<'a>>, AllocError>
    ensures { IfOk result (λ fs. map fact_said fs.items ≡ map turned_of (map fact_said facts.now)) }
{
    let mut turned = Vec::new(alloc);
    for fact in facts {
        turned.push(Fact {
            by: fact.by,
            sides: at_most(fact.sides.right, fact.sides.left),
        })?;
    }
    Ok(turned)
}

// One certificate: what is denied and the facts are read as inequalities, which must refute each other.
fn check(
    alloc: Global,
    spot: Spot,
    scope: &Scope,
    multiplier: u64,
    denied: Option<Sides<'_>>,
    facts: &[Fact<'_>],
) -> Verdict
    ensures { IfOk result (λ r. r ≡ refused_as spot (refused_certificate (locals_of scope.now) multiplier (option_map comparing denied.entry) (map fact_said facts.now))) }
{
    match rows_of_facts(alloc, scope, multiplier, denied, facts) {
        Ok(rows) => check_rows(alloc, spot, &rows),
        Err(end) => no_form(spot, end),
    }
}

// The row of what is denied, and the rows of the facts.
#[tactic(auto, using(crate::proofs::Verdicts::no_rows, crate::proofs::Verdicts::first_ended))]
fn rows_of_facts(
    alloc: Global,
    scope: &Scope,
    multiplier: u64,
    denied: Option<Sides<'_>>,
    facts: &[Fact<'_>],
) -> Result<Rows, NormalEnd>
    ensures { AreRows result (with_row multiplier (denied_of (locals_of scope.now) (option_map comparing denied.entry)) (fact_rows (locals_of scope.now) (map fact_said facts.now))) }
{
    let mut rows = Rows::new(alloc);
    let form = denied_form(alloc, scope, denied)?;
    rows.add(multiplier, form)?;
    with_facts(alloc, scope, rows, facts)
}

// These rows, and then those of the facts.
#[tactic(auto, using(crate::proofs::Verdicts::no_rows, crate::proofs::Verdicts::row_ended))]
fn with_facts(
    alloc: Global,
    scope: &Scope,
    rows: Rows,
    facts: &[Fact<'_>],
) -> Result<Rows, NormalEnd>
    ensures { AreRows result (rows_before (rows_of rows) (fact_rows (locals_of scope.now) (map fact_said facts.now))) }
{
    let mut rows = rows;
    for fact in facts {
        let form = read(alloc, scope, fact.sides)?;
        rows.add(fact.by, form)?;
    }
    Ok(rows)
}

// The inequality of what is denied: where nothing is, the one that is 0.
fn denied_form(
    alloc: Global,
    scope: &Scope,
    denied: Option<Sides<'_>>,
) -> Result<Inequality, NormalEnd>
    ensures { IsReading result (denied_of (locals_of scope.now) (option_map comparing denied.entry)) }
{
    match denied {
        Some(sides) => read(alloc, scope, sides),
        None => Ok(Items::new(alloc)),
    }
}

#[tactic(auto, using(crate::proofs::Verdicts::no_reading))]
fn read(alloc: Global, scope: &Scope, sides: Sides<'_>) -> Result<Inequality, NormalEnd>
    ensures { IsReading result (reading_of (locals_of scope.now) (comparing sides.entry)) }
{
    let left = sides.left.copy(alloc)?;
    let right = sides.right.copy(alloc)?;
    let comparison = Comparison {
        left,
        right,
        strict: sides.strict,
    };
    reading(alloc, scope, &comparison)
}
