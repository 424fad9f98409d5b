// Rows that are added up, and must refute each other.
ghost use Rattle.std.specs.Prelude.{◌≡◌, [], map, IfOk};
ghost use Rattle.tht_tree.specs.Normal.Linear.{coefficient_of};
ghost use Rattle.tht_tree.specs.Rules.Inequalities.{refused_rows};
ghost use Rattle.tht_tree.specs.Rules.Refusals.{refused_as};
ghost use Rattle.lin_laws.specs.Forms.{plain, code_of as code_said, form_over as form_over_of, forms_of as forms_of_rows};
ghost use Rattle.pure_proofs.specs.Rows.{rows_of};

use crate::rows::Rows;
use crate::verdict::{Verdict, refuse};
use lin_certs::{LinForm, LinSaid, lin_check};
use pure_terms::{columns, row};
use sqlite_items::Items;
use std::alloc::Global;
use tht_tree::form::{Inequality, LinearTerm, Product};
use tht_tree::plain::{Memory, Spot};
use tht_tree::rule::RuleCode;

/// What is refused of the rows.
pub(crate) fn check_rows(alloc: Global, spot: Spot, rows: &Rows) -> Verdict
    ensures { IfOk result (λ r. r ≡ refused_as spot (refused_rows (rows_of rows.now))) }
{
    let forms = forms_of(alloc, rows)?;
    match refused_forms(forms.as_slice(), rows) {
        Some(code) => refuse(spot, code),
        None => Ok(None),
    }
}

// The rows as linear forms over the products of all of them.
fn forms_of(alloc: Global, rows: &Rows) -> Result<Items<LinForm>, Memory>
    ensures { IfOk result (λ fs. map plain fs ≡ forms_of_rows (rows_of rows.now)) }
{
    let products = columns(alloc, rows.forms.as_slice())?;
    forms_over(alloc, products.as_slice(), rows.forms.as_slice())
}

// Why the rows, which are these forms, are refused, if they are.
fn refused_forms(forms: &[LinForm], rows: &Rows) -> Option<RuleCode>
    requires { map plain forms.now ≡ forms_of_rows (rows_of rows.now) }
    ensures { result ≡ refused_rows (rows_of rows.now) }
{
    code_of(lin_check(forms, rows.by.as_slice()))
}

fn code_of(said: LinSaid) -> Option<RuleCode>
    ensures { result ≡ code_said said }
{
    match said {
        LinSaid::Refutes => None,
        LinSaid::Wide { index: _ } => Some(RuleCode::R7),
        LinSaid::Not {
            variable: _,
            sum: _,
        } => Some(RuleCode::R6),
    }
}

// The inequalities as linear forms over these products.
fn forms_over(
    alloc: Global,
    products: &[Product],
    forms: &[Inequality],
) -> Result<Items<LinForm>, Memory>
    ensures { IfOk result (λ fs. map plain fs ≡ map (form_over_of products.now) forms.now) }
{
    let mut over = Items::new(alloc);
    for form in forms {
        over.push(form_over(alloc, products, form)?)?;
    }
    Ok(over)
}

fn form_over(alloc: Global, products: &[Product], form: &Inequality) -> Result<LinForm, Memory>
    ensures { IfOk result (λ f. plain f ≡ form_over_of products.now form.now) }
{
    let constant = constant(form.as_slice());
    let coeffs = row(alloc, products, form.as_slice())?;
    Ok(LinForm { constant, coeffs })
}

// The coefficient of the product of nothing.
fn constant(form: &[LinearTerm]) -> i128
    ensures { result ≡ coefficient_of [] form.now }
{
    for term in form {
        if term.atoms.is_empty() {
            return term.coefficient;
        }
    }
    0
}
