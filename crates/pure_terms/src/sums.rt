// Sums of monomials.
ghost use Rattle.std.specs.Prelude.{◌≡◌, ◌+◌, ◌<◌, length, false};
ghost use Rattle.std.specs.declared.cmp.Ordering.TheVariants.{Equal};
ghost use Rattle.tht_tree.specs.Normal.InPairs.{pairs as pairs_of};
ghost use Rattle.tht_tree.specs.Normal.Sums.{monomial_product, plus, sum_of as sum_of_all, times};
ghost use Rattle.pure_terms.specs.Making.{have_wide, first_lower, products_with, IsMade, AreMade, IsMadeMonomial};
ghost use Rattle.pure_terms.specs.Turns.{IsNext, IsFewer, IsJoined};

use crate::factors::merge_factors;
use crate::order::compare_products;
use crate::queue::Queue;
use sqlite_items::Items;
use std::alloc::Global;
use std::cmp::Ordering;
use tht_tree::form::{Monomial, NormalEnd, Sum};

// The next monomial of two sums together, where there is one whose number is not wide.
#[derive(Drop)]
pub(crate) enum Next {
    Monomial(Monomial),
    Wide,
    End,
}

/// The sum of two sums.
#[tactic(auto, using(crate::proofs::NextMonomials::with_next, crate::proofs::NextMonomials::at_end, crate::proofs::NextMonomials::at_wide))]
pub(crate) fn add(alloc: Global, left: Sum, right: Sum) -> Result<Sum, NormalEnd>
    ensures { IsMade result (plus left right) }
{
    let mut left = Queue::new(alloc, left)?;
    let mut right = Queue::new(alloc, right)?;
    let mut sum = Items::new(alloc);
    'turns: loop {
        match next_monomial(&mut left, &mut right) {
            Next::Monomial(m) => sum.push(m)?,
            Next::Wide => return Err(NormalEnd::Wide),
            Next::End => return Ok(sum),
        }
    }
}

#[tactic(auto, using(crate::proofs::NextMonomials::none_next, crate::proofs::NextMonomials::next_left, crate::proofs::NextMonomials::next_right))]
fn next_monomial(left: &mut Queue<Monomial>, right: &mut Queue<Monomial>) -> Next
    ensures next { IsNext result (plus left.old right.old) (plus left.new right.new) }
    ensures fewer { IsFewer result (length left.new + length right.new) (length left.old + length right.old) }
{
    match lower(left, right) {
        None => Next::End,
        Some(Ordering::Less) => take(left),
        Some(Ordering::Equal) => join(left, right),
        Some(Ordering::Greater) => take(right),
    }
}

// How the products of the first monomials stand, where one is left.
pub(crate) fn lower(left: &Queue<Monomial>, right: &Queue<Monomial>) -> Option<Ordering>
    ensures { result ≡ first_lower left.now right.now }
{
    match (left.first(), right.first()) {
        (None, None) => None,
        (Some(_), None) => Some(Ordering::Less),
        (None, Some(_)) => Some(Ordering::Greater),
        (Some(m), Some(n)) => Some(compare_products(m.atoms.as_slice(), n.atoms.as_slice())),
    }
}

// The first monomial of what is left.
#[tactic(auto, using(crate::proofs::WideTests::not_wide))]
fn take(queue: &mut Queue<Monomial>) -> Next
    ensures { IsNext result queue.old queue.new }
{
    match queue.pop() {
        Some(m) => Next::Monomial(m),
        None => Next::End,
    }
}

// The first monomials of both, whose products are one, joined.
#[tactic(auto, using(crate::proofs::NextMonomials::next_both))]
fn join(left: &mut Queue<Monomial>, right: &mut Queue<Monomial>) -> Next
    requires { first_lower left.old right.old ≡ Some Equal }
    ensures next { IsNext result (plus left.old right.old) (plus left.new right.new) }
    ensures fewer { IsFewer result (length left.new + length right.new) (length left.old + length right.old) }
{
    match (left.pop(), right.pop()) {
        (Some(m), Some(n)) => joined(m, n),
        _ => Next::End,
    }
}

#[tactic(auto, using(crate::proofs::WideTests::not_wide, crate::proofs::WideTests::is_wide_from))]
fn joined(m: Monomial, n: Monomial) -> Next
    ensures { IsJoined result m n }
{
    let Monomial { coefficient, atoms } = m;
    match coefficient.checked_add(n.coefficient) {
        Some(coefficient) => Next::Monomial(Monomial { coefficient, atoms }),
        None => Next::Wide,
    }
}

// ---- the sum of many

/// The sum of many sums, added in pairs, in few rounds.
#[tactic(auto, using(crate::proofs::Rounds::after_round, crate::proofs::Rounds::fewer_pairs, crate::proofs::Rounds::one_left, crate::proofs::Rounds::none_left, crate::proofs::WideSums::wide_sum_of))]
pub(crate) fn sum_of(alloc: Global, sums: Items<Sum>) -> Result<Sum, NormalEnd>
    requires { have_wide sums ≡ false }
    ensures { IsMade result (sum_of_all sums) }
{
    let mut sums = sums;
    while sums.len() > 1 {
        sums = pairs(alloc, sums)?;
    }
    match sums.pop() {
        Some(sum) => Ok(sum),
        None => Ok(Items::new(alloc)),
    }
}

// Each sum with its neighbour, and a last one alone.
#[tactic(auto, using(crate::proofs::PairedSums::after_last, crate::proofs::PairedSums::all_paired, crate::proofs::PairedSums::pair_wide))]
fn pairs(alloc: Global, sums: Items<Sum>) -> Result<Items<Sum>, NormalEnd>
    requires { have_wide sums ≡ false }
    ensures { AreMade result (pairs_of plus sums) }
{
    let mut rest = Queue::new(alloc, sums)?;
    let mut pairs = Items::new(alloc);
    while let Some(sum) = rest.pop() {
        match rest.pop() {
            Some(next) => pairs.push(add(alloc, sum, next)?)?,
            None => pairs.push(sum)?,
        }
    }
    Ok(pairs)
}

// ---- products

/// The product of two sums: the sum of the products of each monomial with each.
#[tactic(auto, using(crate::proofs::GrownSums::grown_by, crate::proofs::GrownSums::grown_all, crate::proofs::GrownSums::grown_wide, crate::proofs::WideSums::wide_sum_of))]
pub(crate) fn multiply(
    alloc: Global,
    left: &[Monomial],
    right: &[Monomial],
) -> Result<Sum, NormalEnd>
    ensures { IsMade result (times left.now right.now) }
{
    let mut products = Items::new(alloc);
    for m in left {
        products.append(multiply_by(alloc, m, right)?)?;
    }
    sum_of(alloc, products)
}

// The products of a monomial with each of a sum, each as a sum of its own.
#[tactic(auto, using(crate::proofs::GrownSums::grown_by, crate::proofs::GrownSums::grown_all, crate::proofs::GrownSums::grown_wide))]
fn multiply_by(alloc: Global, m: &Monomial, sum: &[Monomial]) -> Result<Items<Sum>, NormalEnd>
    ensures { AreMade result (products_with m.now sum.now) }
{
    let mut products = Items::new(alloc);
    for n in sum {
        let mut product = Items::new(alloc);
        product.push(multiply_monomials(alloc, m, n)?)?;
        products.push(product)?;
    }
    Ok(products)
}

#[tactic(auto, using(crate::proofs::WideTests::not_wide, crate::proofs::WideTests::is_wide_from))]
fn multiply_monomials(alloc: Global, m: &Monomial, n: &Monomial) -> Result<Monomial, NormalEnd>
    ensures { IsMadeMonomial result (monomial_product m.now n.now) }
{
    let Some(coefficient) = m.coefficient.checked_mul(n.coefficient) else {
        return Err(NormalEnd::Wide);
    };
    let atoms = merge_factors(alloc, m.atoms.as_slice(), n.atoms.as_slice())?;
    Ok(Monomial { coefficient, atoms })
}
