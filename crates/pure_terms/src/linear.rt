// Linear readings of comparisons: inequalities whose variables are the products of monomials.
ghost use Rattle.std.specs.Prelude.{◌≡◌, ◌+◌, ◌<◌, pos, ◌-ℤ◌, true, [], ◌∷◌, ◌++◌, length, map, IfOk, FitsSigned};
ghost use Rattle.std.specs.Int.{w128};
ghost use Rattle.std.specs.Option.{SomeIff};
ghost use Rattle.std.specs.Set.{sorted_merge};
ghost use Rattle.tht_tree.specs.Normal.InPairs.{in_pairs, pairs as pairs_of};
ghost use Rattle.tht_tree.specs.Normal.Linear.{reading as reading_of, in_range, take_away, left_side, variables as variables_in, columns as columns_of, coefficient_of};
ghost use Rattle.tht_tree.specs.Normal.Sums.{compare_products as compare_factors};
ghost use Rattle.pure_terms.specs.Locals.{locals_of};
ghost use Rattle.pure_terms.specs.Readings.{IsReading, IsInLeft, IsInRight, IsNextTerm, IsLess, IsNextProduct, IsFewer, first_product_lower, is_narrow, has_constant as begins_constant, constant_of, without_constant, difference_of, term_in, ascend as ascend_all, from_product, first_coefficient as coefficient_at, merged_row as row_of};
ghost use Rattle.pure_terms.specs.Making.{first_lower};
ghost use Rattle.std.specs.declared.cmp.Ordering.TheVariants.{Equal};

use crate::normalize::{normal_form, sum_in};
use crate::order::compare_products;
use crate::queue::Queue;
use crate::sorts::Scope;
use crate::sums::lower;
use sqlite_items::Items;
use std::alloc::{AllocError, Global};
use std::cmp::Ordering;
use std::vec::Vec;
use tht_tree::form::{Comparison, Inequality, LinearTerm, Monomial, NormalEnd, Product, Sum};
use tht_tree::plain::Memory;
use tht_tree::term::Term;

/// A product with its coefficients in two sums, 0 where it does not stand there: it stands for the one less the other.
#[derive(Drop)]
struct Difference {
    atoms: Items<Term>,
    left: u128,
    right: u128,
}

// ---- readings

/// The inequality of a comparison: the left side less the right one, and 1 more where the left is below the right, is at most
/// 0. Its left side is made before its right one. It is `Large` or `Wide` where a side has no normal form, and `Wide` where a
/// coefficient leaves `i128` once both sides are taken together.
#[tactic(auto, using(crate::proofs::ReadingAnswers::side_end, crate::proofs::ReadingAnswers::side_made))]
pub fn reading(
    alloc: Global,
    scope: &Scope,
    comparison: &Comparison,
) -> Result<Inequality, NormalEnd>
    ensures { IsReading result (reading_of (locals_of scope.now) comparison.now) }
{
    let left = normal_form(alloc, scope, &comparison.left)?;
    let right = normal_form(alloc, scope, &comparison.right)?;
    one_side(
        alloc,
        comparison.strict,
        sum_in(alloc, left),
        sum_in(alloc, right),
    )
}

// The first sum, with 1 more where strict, less the second one.
#[tactic(auto, using(crate::proofs::ReadingAnswers::no_reading))]
fn one_side(alloc: Global, strict: bool, left: Sum, right: Sum) -> Result<Inequality, NormalEnd>
    ensures { IsReading result (in_range (take_away (left_side strict left) right)) }
{
    let left = Queue::new(alloc, left)?;
    let right = Queue::new(alloc, right)?;
    if strict {
        strict_difference(alloc, left, right)
    } else {
        subtract(Items::new(alloc), left, right)
    }
}

// One more than the first sum, less the second one.
#[tactic(auto, using(crate::proofs::ReadingAnswers::no_reading, crate::proofs::Differences::strict_made, crate::proofs::Differences::strict_wide, crate::proofs::Differences::strict_narrow))]
fn strict_difference(
    alloc: Global,
    left: Queue<Monomial>,
    right: Queue<Monomial>,
) -> Result<Inequality, NormalEnd>
    ensures { IsReading result (in_range (take_away (left_side true left) right)) }
{
    let (mut left, mut right) = (left, right);
    let (more, less) = (take_constant(&mut left), take_constant(&mut right));
    let Some(coefficient) = one_more(more, less) else {
        return Err(NormalEnd::Wide);
    };
    let mut form = Items::new(alloc);
    form.push(LinearTerm {
        coefficient,
        atoms: Items::new(alloc),
    })?;
    subtract(form, left, right)
}

// Takes the number of the empty product off the front of a sum: 0 where that does not stand there.
fn take_constant(sum: &mut Queue<Monomial>) -> u128
    ensures constant { result ≡ constant_of sum.old }
    ensures rest { sum.new ≡ without_constant sum.old }
{
    if !has_constant(sum) {
        return 0;
    }
    match sum.pop() {
        Some(m) => m.coefficient,
        None => 0,
    }
}

fn has_constant(sum: &Queue<Monomial>) -> bool
    ensures { result ≡ begins_constant sum.now }
{
    match sum.first() {
        Some(m) => m.atoms.is_empty(),
        None => false,
    }
}

// `left + 1 - right`, if it is in range: a sum of 2^128 is not.
fn one_more(left: u128, right: u128) -> Option<i128>
    ensures { let sum = pos (1 + left) -ℤ pos right in SomeIff result (FitsSigned w128 sum) sum }
{
    match right.checked_sub(1) {
        Some(right) => left.checked_signed_diff(right),
        None => left.checked_add(1)?.checked_signed_diff(0),
    }
}

// These terms, and behind them the first sum less the second one.
#[tactic(auto, using(crate::proofs::ReadingAnswers::no_reading, crate::proofs::Differences::with_term, crate::proofs::Differences::at_end, crate::proofs::Differences::at_wide))]
fn subtract(
    form: Inequality,
    left: Queue<Monomial>,
    right: Queue<Monomial>,
) -> Result<Inequality, NormalEnd>
    requires { is_narrow form ≡ true }
    ensures { IsReading result (in_range (form ++ take_away left right)) }
{
    let (mut form, mut left, mut right) = (form, left, right);
    'terms: while let Some(next) = next_difference(&mut left, &mut right) {
        match linear_term(next) {
            Some(term) => form.push(term)?,
            None => return Err(NormalEnd::Wide),
        }
    }
    Ok(form)
}

fn linear_term(difference: Difference) -> Option<LinearTerm>
    ensures { SomeIff result (FitsSigned w128 (difference_of difference)) (term_in difference) }
{
    let Difference { atoms, left, right } = difference;
    let coefficient = left.checked_signed_diff(right)?;
    Some(LinearTerm { coefficient, atoms })
}

// The next product of two sums, with its coefficients in both.
#[tactic(auto, using(crate::proofs::Differences::no_next, crate::proofs::Differences::next_left, crate::proofs::Differences::next_right, crate::proofs::Differences::less_left, crate::proofs::Differences::less_right))]
fn next_difference(left: &mut Queue<Monomial>, right: &mut Queue<Monomial>) -> Option<Difference>
    ensures next { IsNextTerm result (take_away left.old right.old) (take_away left.new right.new) }
    ensures fewer { IsLess result (length left.new + length right.new) (length left.old + length right.old) }
{
    match lower(left, right) {
        None => None,
        Some(Ordering::Less) => in_left(left),
        Some(Ordering::Equal) => in_both(left, right),
        Some(Ordering::Greater) => in_right(right),
    }
}

fn in_left(left: &mut Queue<Monomial>) -> Option<Difference>
    ensures next { IsInLeft result left.old left.new }
    ensures fewer { IsLess result (length left.new) (length left.old) }
{
    match left.pop() {
        Some(m) => {
            let Monomial { coefficient, atoms } = m;
            Some(Difference {
                atoms,
                left: coefficient,
                right: 0,
            })
        }
        None => None,
    }
}

fn in_right(right: &mut Queue<Monomial>) -> Option<Difference>
    ensures next { IsInRight result right.old right.new }
    ensures fewer { IsLess result (length right.new) (length right.old) }
{
    match right.pop() {
        Some(n) => {
            let Monomial { coefficient, atoms } = n;
            Some(Difference {
                atoms,
                left: 0,
                right: coefficient,
            })
        }
        None => None,
    }
}

#[tactic(auto, using(crate::proofs::Differences::next_both, crate::proofs::Differences::no_left, crate::proofs::Differences::no_right))]
fn in_both(left: &mut Queue<Monomial>, right: &mut Queue<Monomial>) -> Option<Difference>
    requires { first_lower left.old right.old ≡ Some Equal }
    ensures next { IsNextTerm result (take_away left.old right.old) (take_away left.new right.new) }
    ensures fewer { IsLess result (length left.new + length right.new) (length left.old + length right.old) }
{
    let Some(m) = left.pop() else {
        return None;
    };
    let Some(n) = right.pop() else {
        return None;
    };
    let Monomial { coefficient, atoms } = m;
    Some(Difference {
        atoms,
        left: coefficient,
        right: n.coefficient,
    })
}

// ---- columns

/// The variables of inequalities, in ascending order, each once: the products of their terms that have a factor. They are
/// merged in pairs, so each is moved in few rounds.
pub fn columns(alloc: Global, forms: &[Inequality]) -> Result<Items<Product>, Memory>
    ensures { IfOk result (λ ps. ps ≡ columns_of forms.now) }
{
    let lists = all_variables(alloc, forms)?;
    Ok(merge_all(alloc, lists)?)
}

fn all_variables(alloc: Global, forms: &[Inequality]) -> Result<Items<Items<Product>>, Memory>
    ensures { IfOk result (λ ls. ls ≡ map variables_in forms.now) }
{
    let mut lists = Items::new(alloc);
    for form in forms {
        lists.push(variables(alloc, form.as_slice())?)?;
    }
    Ok(lists)
}

fn variables(alloc: Global, form: &[LinearTerm]) -> Result<Items<Product>, Memory>
    ensures { IfOk result (λ ps. ps ≡ variables_in form.now) }
{
    let mut variables = Items::new(alloc);
    for term in form {
        if !term.atoms.is_empty() {
            variables.push(copied(alloc, term.atoms.as_slice())?)?;
        }
    }
    Ok(variables)
}

fn copied(alloc: Global, product: &[Term]) -> Result<Product, Memory>
    ensures { IfOk result (λ p. p ≡ product.now) }
{
    let mut copy = Items::new(alloc);
    for atom in product {
        copy.push(atom.copy(alloc)?)?;
    }
    Ok(copy)
}

// The lists merged in pairs, in few rounds, until one is left.
#[tactic(auto, using(crate::proofs::Rounds::after_round, crate::proofs::Rounds::fewer_pairs, crate::proofs::Rounds::one_left, crate::proofs::Rounds::none_left))]
fn merge_all(alloc: Global, lists: Items<Items<Product>>) -> Result<Items<Product>, AllocError>
    ensures { IfOk result (λ ps. ps ≡ in_pairs (sorted_merge compare_factors true) [] lists) }
{
    let mut lists = lists;
    while lists.len() > 1 {
        lists = merge_pairs(alloc, lists)?;
    }
    match lists.pop() {
        Some(list) => Ok(list),
        None => Ok(Items::new(alloc)),
    }
}

// Each list merged with its neighbour, and a last one alone.
fn merge_pairs(
    alloc: Global,
    lists: Items<Items<Product>>,
) -> Result<Items<Items<Product>>, AllocError>
    ensures { IfOk result (λ ls. ls ≡ pairs_of (sorted_merge compare_factors true) lists) }
{
    let mut rest = Queue::new(alloc, lists)?;
    let mut merged = Items::new(alloc);
    'lists: while let Some(list) = rest.pop() {
        match rest.pop() {
            Some(next) => merged.push(merge(alloc, list, next)?)?,
            None => merged.push(list)?,
        }
    }
    Ok(merged)
}

// The products of two lists; of two that are equal, the first list's.
fn merge(
    alloc: Global,
    left: Items<Product>,
    right: Items<Product>,
) -> Result<Items<Product>, AllocError>
    ensures { IfOk result (λ ps. ps ≡ sorted_merge compare_factors true left right) }
{
    let mut left = Queue::new(alloc, left)?;
    let mut right = Queue::new(alloc, right)?;
    let mut merged = Items::new(alloc);
    'products: while let Some(product) = next_product(&mut left, &mut right) {
        merged.push(product)?;
    }
    Ok(merged)
}

// The next product of two lists.
#[tactic(auto, using(crate::proofs::MergedLists::no_product, crate::proofs::MergedLists::from_left, crate::proofs::MergedLists::from_right, crate::proofs::MergedLists::fewer_left, crate::proofs::MergedLists::fewer_right))]
fn next_product(left: &mut Queue<Product>, right: &mut Queue<Product>) -> Option<Product>
    ensures next { IsNextProduct result (sorted_merge compare_factors true left.old right.old) (sorted_merge compare_factors true left.new right.new) }
    ensures fewer { IsFewer result (length left.new + length right.new) (length left.old + length right.old) }
{
    match first_below(left, right) {
        None => None,
        Some(Ordering::Less) => take_product(left),
        Some(Ordering::Equal) => take_both(left, right),
        Some(Ordering::Greater) => take_product(right),
    }
}

// How the first products stand, where one is left.
fn first_below(left: &Queue<Product>, right: &Queue<Product>) -> Option<Ordering>
    ensures { result ≡ first_product_lower left.now right.now }
{
    match (left.first(), right.first()) {
        (None, None) => None,
        (Some(_), None) => Some(Ordering::Less),
        (None, Some(_)) => Some(Ordering::Greater),
        (Some(x), Some(y)) => Some(compare_products(x.as_slice(), y.as_slice())),
    }
}

fn take_product(queue: &mut Queue<Product>) -> Option<Product>
    ensures next { IsNextProduct result queue.old queue.new }
    ensures fewer { IsFewer result (length queue.new) (length queue.old) }
{
    match queue.pop() {
        Some(product) => Some(product),
        None => None,
    }
}

#[tactic(auto, using(crate::proofs::MergedLists::from_both, crate::proofs::MergedLists::no_left, crate::proofs::MergedLists::no_right))]
fn take_both(left: &mut Queue<Product>, right: &mut Queue<Product>) -> Option<Product>
    requires { first_product_lower left.old right.old ≡ Some Equal }
    ensures next { IsNextProduct result (sorted_merge compare_factors true left.old right.old) (sorted_merge compare_factors true left.new right.new) }
    ensures fewer { IsFewer result (length left.new + length right.new) (length left.old + length right.old) }
{
    let Some(product) = left.pop() else {
        return None;
    };
    let Some(_same) = right.pop() else {
        return None;
    };
    Some(product)
}

// ---- rows

/// The coefficient of a product in an inequality, 0 where it does not stand there: that of the empty product is the constant.
pub fn coefficient(product: &[Term], form: &[LinearTerm]) -> i128
    ensures { result ≡ coefficient_of product.now form.now }
{
    for term in form {
        if compare_products(product, term.atoms.as_slice()).is_eq() {
            return term.coefficient;
        }
    }
    0
}

/// The coefficients of products in an inequality, in the order of the products: in one walk over both where the products and
/// those of the inequality strictly ascend, as columns and readings do, and else product by product.
#[tactic(auto, using(crate::proofs::ReadOnce::merged_is))]
pub fn row(alloc: Global, products: &[Product], form: &[LinearTerm]) -> Result<Vec<i128>, Memory>
    ensures { IfOk result (λ cs. cs.items ≡ map (λ p. coefficient_of p form.now) products.now) }
{
    if !ascend(products) {
        return Ok(read_each(alloc, products, form)?);
    }
    if !terms_ascend(form) {
        return Ok(read_each(alloc, products, form)?);
    }
    Ok(read_once(alloc, products, form)?)
}

fn ascend(products: &[Product]) -> bool
    ensures { result ≡ ascend_all products.now }
{
    let Some((first, others)) = products.split_first() else {
        return true;
    };
    let mut last = first;
    for product in others {
        if !compare_products(last.as_slice(), product.as_slice()).is_lt() {
            return false;
        }
        last = product;
    }
    true
}

fn terms_ascend(form: &[LinearTerm]) -> bool
    ensures { result ≡ ascend_all (map (λ t. t.atoms) form.now) }
{
    let Some((first, others)) = form.split_first() else {
        return true;
    };
    let mut last = first;
    for term in others {
        if !compare_products(last.atoms.as_slice(), term.atoms.as_slice()).is_lt() {
            return false;
        }
        last = term;
    }
    true
}

fn read_each(
    alloc: Global,
    products: &[Product],
    form: &[LinearTerm],
) -> Result<Vec<i128>, AllocError>
    ensures { IfOk result (λ cs. cs.items ≡ map (λ p. coefficient_of p form.now) products.now) }
{
    let mut row = Vec::new(alloc);
    for product in products {
        row.push(coefficient(product.as_slice(), form))?;
    }
    Ok(row)
}

fn read_once(
    alloc: Global,
    products: &[Product],
    form: &[LinearTerm],
) -> Result<Vec<i128>, AllocError>
    ensures { IfOk result (λ cs. cs.items ≡ row_of products.now form.now) }
{
    let mut row = Vec::new(alloc);
    let mut rest = form;
    for product in products {
        rest = without_lower(rest, product.as_slice());
        row.push(first_coefficient(rest, product.as_slice()))?;
    }
    Ok(row)
}

// What is left of an inequality, once the terms of lower products are through.
fn without_lower<'a>(form: &'a [LinearTerm], product: &[Term]) -> &'a [LinearTerm]
    ensures { result.now ≡ from_product product.now form.now }
{
    let mut rest = form;
    while let Some((term, others)) = rest.split_first() {
        if !compare_products(product, term.atoms.as_slice()).is_gt() {
            return rest;
        }
        rest = others;
    }
    rest
}

// The coefficient of a product where it stands first, and else 0.
fn first_coefficient(form: &[LinearTerm], product: &[Term]) -> i128
    ensures { result ≡ coefficient_at product.now form.now }
{
    match form.first() {
        Some(term) => coefficient_if(product, term),
        None => 0,
    }
}

fn coefficient_if(product: &[Term], term: &LinearTerm) -> i128
    ensures { result ≡ coefficient_at product.now (term.now ∷ []) }
{
    if compare_products(product, term.atoms.as_slice()).is_eq() {
        term.coefficient
    } else {
        0
    }
}
