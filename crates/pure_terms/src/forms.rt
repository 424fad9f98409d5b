// What normal forms of numbers, sequences and places give together.
ghost use Rattle.std.specs.Prelude.{◌≡◌, ◌+◌, ◌*◌, ◌==◌, ◌<◌, ◌^◌, [], ◌∷◌, ◌++◌, nat_lt, false, length, map, IfOk, MatchOption, if◌then◌else◌};
ghost use Rattle.tht_tree.specs.Normal.Sums.{plus, minus, minus_by, number, atom, number_in as number_of, number_at as number_of_one, sum_term as sum_as_term};
ghost use Rattle.tht_tree.specs.Normal.Forms.{within, product_within, moved, item_length, items_length};
ghost use Rattle.pure_terms.specs.Making.{has_wide};
ghost use Rattle.pure_terms.specs.Answers.{IsAnswer};

use crate::order::compare_products;
use crate::queue::Queue;
use crate::sums::{add, multiply, sum_of};
use crate::trees::sum_term;
use sqlite_items::{Boxed, Items};
use std::alloc::Global;
use std::cmp::Ordering;
use tht_tree::form::{Form, Item, Monomial, NormalEnd, PlaceForm, Sum};
use tht_tree::plain::{Memory, Name};
use tht_tree::term::Term;

/// The most monomials of a sum.
const MOST_MONOMIALS: usize = 65_536;

// ---- numbers and atoms

/// A sum that was made, if it has not too many monomials.
#[tactic(auto, using(crate::proofs::WithinLimits::too_long, crate::proofs::WithinLimits::is_within))]
pub(crate) fn bounded(sum: Sum) -> Result<Form, NormalEnd>
    requires { has_wide sum ≡ false }
    ensures { IsAnswer result (within sum) }
{
    if sum.len() > MOST_MONOMIALS {
        return Err(NormalEnd::Large);
    }
    Ok(Form::Nat(sum))
}

/// The form of a number.
pub(crate) fn number_form(alloc: Global, n: u128) -> Result<Form, NormalEnd>
    ensures { IsAnswer result (within (number n)) }
{
    bounded(number_sum(alloc, n)?)
}

/// A number has no monomial where it is 0.
#[tactic(auto, using(crate::proofs::WithinLimits::number_narrow))]
pub(crate) fn number_sum(alloc: Global, n: u128) -> Result<Sum, Memory>
    ensures sum { IfOk result (λ p. p ≡ number n) }
    ensures narrow { IfOk result (λ p. has_wide p ≡ false) }
{
    let mut sum = Items::new(alloc);
    if n != 0 {
        let atoms = Items::new(alloc);
        sum.push(Monomial {
            coefficient: n,
            atoms,
        })?;
    }
    Ok(sum)
}

/// The sum that is one atom.
pub(crate) fn atom_sum(alloc: Global, x: Term) -> Result<Sum, Memory>
    ensures { IfOk result (λ p. p ≡ atom x) }
{
    let mut atoms = Items::new(alloc);
    atoms.push(x)?;
    let mut sum = Items::new(alloc);
    sum.push(Monomial {
        coefficient: 1,
        atoms,
    })?;
    Ok(sum)
}

/// The number that a sum is, if it is one.
pub(crate) fn number_in(sum: &[Monomial]) -> Option<u128>
    ensures { result ≡ number_of sum.now }
{
    match sum.split_first() {
        None => Some(0),
        Some((m, rest)) => match rest.split_first() {
            None => number_at(m),
            Some(_) => None,
        },
    }
}

// The number that a monomial is, if it is one.
fn number_at(m: &Monomial) -> Option<u128>
    ensures { result ≡ number_of_one m.now.coefficient m.now.atoms }
{
    match m.atoms.as_slice().split_first() {
        None => Some(m.coefficient),
        Some(_) => None,
    }
}

// ---- sums, products and differences

#[tactic(auto, using(crate::proofs::WithinLimits::sum_large, crate::proofs::WithinLimits::sum_made))]
pub(crate) fn sum_form(alloc: Global, left: Sum, right: Sum) -> Result<Form, NormalEnd>
    ensures { IsAnswer result (within (plus left right)) }
{
    if are_many(left.as_slice(), right.as_slice()) {
        return Err(NormalEnd::Large);
    }
    Ok(Form::Nat(add(alloc, left, right)?))
}

// Whether two sums have too many monomials together, once like ones are joined.
#[tactic(auto, using(crate::proofs::LeftSums::few_together, crate::proofs::LeftSums::few_before, crate::proofs::LeftSums::few_after, crate::proofs::LeftSums::many_after))]
fn are_many(left: &[Monomial], right: &[Monomial]) -> bool
    ensures { result ≡ nat_lt 65536 (length (plus left.now right.now)) }
{
    if left.len().saturating_add(right.len()) <= MOST_MONOMIALS {
        return false;
    }
    let mut rest = Rest { left, right };
    for _turn in 0..MOST_MONOMIALS {
        match behind(rest) {
            Some(next) => rest = next,
            None => return false,
        }
    }
    match behind(rest) {
        Some(_) => true,
        None => false,
    }
}

// What is left of two sums.
#[derive(Clone, Copy)]
struct Rest<'a> {
    left: &'a [Monomial],
    right: &'a [Monomial],
}

// What is left behind the first monomial of two sums together.
#[tactic(auto, using(crate::proofs::LeftSums::behind_left, crate::proofs::LeftSums::behind_right, crate::proofs::LeftSums::behind_both, crate::proofs::LeftSums::behind_alone, crate::proofs::LeftSums::behind_other, crate::proofs::LeftSums::none_behind))]
fn behind(sums: Rest<'_>) -> Option<Rest<'_>>
    ensures { MatchOption result (plus sums.entry.left.now sums.entry.right.now ≡ [])
        (λ r. length (plus sums.entry.left.now sums.entry.right.now) ≡ length (plus r.left.now r.right.now) + 1) }
{
    match (sums.left.split_first(), sums.right.split_first()) {
        (None, None) => None,
        (Some((_, left)), None) => Some(Rest { left, ..sums }),
        (None, Some((_, right))) => Some(Rest { right, ..sums }),
        (Some((m, left)), Some((n, right))) => match compare_products(
            m.atoms.as_slice(),
            n.atoms.as_slice(),
        ) {
            Ordering::Less => Some(Rest { left, ..sums }),
            Ordering::Equal => Some(Rest { left, right }),
            Ordering::Greater => Some(Rest { right, ..sums }),
        },
    }
}

/// A product is refused by the numbers of monomials of its sides, before it is made.
#[tactic(auto, using(crate::proofs::WithinLimits::product_large, crate::proofs::WithinLimits::product_made))]
pub(crate) fn product_form(alloc: Global, left: Sum, right: Sum) -> Result<Form, NormalEnd>
    ensures { IsAnswer result (product_within left right) }
{
    if are_many_products(left.as_slice(), right.as_slice()) {
        return Err(NormalEnd::Large);
    }
    let product = multiply(alloc, left.as_slice(), right.as_slice())?;
    Ok(Form::Nat(product))
}

// Whether two sums have too many monomials to be multiplied.
#[tactic(auto, using(crate::proofs::LeftSums::many_products, crate::proofs::LeftSums::as_many_products))]
fn are_many_products(left: &[Monomial], right: &[Monomial]) -> bool
    ensures { result ≡ nat_lt 65536 (length left.now * length right.now) }
{
    match left.len().checked_mul(right.len()) {
        Some(count) => count > MOST_MONOMIALS,
        None => true,
    }
}

/// The difference of two sums.
pub(crate) fn difference_form(alloc: Global, left: Sum, right: Sum) -> Result<Form, NormalEnd>
    requires { has_wide left ≡ false }
    ensures { IsAnswer result (within (minus left right)) }
{
    let m = number_in(left.as_slice());
    let n = number_in(right.as_slice());
    difference_of(alloc, m, n, left, right)
}

// The difference of two sums, which are these numbers.
#[tactic(auto, using(crate::proofs::WithinLimits::kept_minus))]
fn difference_of(
    alloc: Global,
    m: Option<u128>,
    n: Option<u128>,
    left: Sum,
    right: Sum,
) -> Result<Form, NormalEnd>
    requires { has_wide left ≡ false }
    ensures { IsAnswer result (within (minus_by m n left right)) }
{
    match (m, n) {
        (Some(m), Some(n)) => number_form(alloc, m.saturating_sub(n)),
        (Some(_), None) => kept_difference(alloc, left, right),
        (None, None) => kept_difference(alloc, left, right),
        (None, Some(n)) => {
            if n == 0 {
                bounded(left)
            } else {
                kept_difference(alloc, left, right)
            }
        }
    }
}

// A difference that is an atom.
#[tactic(auto, using(crate::proofs::WithinLimits::atom_answer))]
fn kept_difference(alloc: Global, left: Sum, right: Sum) -> Result<Form, NormalEnd>
    ensures { IsAnswer result (within (atom (Term.Sub (sum_as_term left) (sum_as_term right)))) }
{
    let left = Boxed::new(alloc, sum_term(alloc, left)?)?;
    let right = Boxed::new(alloc, sum_term(alloc, right)?)?;
    Ok(Form::Nat(atom_sum(alloc, Term::Sub(left, right))?))
}

// ---- sequences and places

/// How many elements a sequence has.
#[tactic(auto, using(crate::proofs::WithinLimits::lengths_narrow))]
pub(crate) fn length_form(alloc: Global, items: Items<Item>) -> Result<Form, NormalEnd>
    ensures { IsAnswer result (within (items_length items)) }
{
    let sums = item_lengths(alloc, items)?;
    bounded(sum_of(alloc, sums)?)
}

fn item_lengths(alloc: Global, items: Items<Item>) -> Result<Items<Sum>, Memory>
    ensures sums { IfOk result (λ ps. ps ≡ map item_length items) }
    ensures few { length items < 2 ^ 64 }
{
    let mut rest = Queue::new(alloc, items)?;
    let mut sums = Items::new(alloc);
    while let Some(item) = rest.pop() {
        sums.push(length_of(alloc, item)?)?;
    }
    Ok(sums)
}

fn length_of(alloc: Global, item: Item) -> Result<Sum, Memory>
    ensures { IfOk result (λ p. p ≡ item_length item) }
{
    match item {
        Item::One(_sum) => number_sum(alloc, 1),
        Item::All(x) => atom_sum(alloc, Term::Len(Boxed::new(alloc, Term::Var(x))?)),
    }
}

/// An element before a sequence.
pub(crate) fn cons_form(alloc: Global, first: Sum, items: Items<Item>) -> Result<Form, NormalEnd>
    ensures { IsAnswer result (Ok (Form.Seq (Item.One first ∷ items))) }
{
    let mut all = Items::new(alloc);
    all.push(Item::One(first))?;
    all.append(items)?;
    Ok(Form::Seq(all))
}

/// Two sequences, one behind the other.
pub(crate) fn cat_form(left: Items<Item>, right: Items<Item>) -> Result<Form, NormalEnd>
    ensures { IsAnswer result (Ok (Form.Seq (left ++ right))) }
{
    let mut all = left;
    all.append(right)?;
    Ok(Form::Seq(all))
}

/// The place so many cells further.
pub(crate) fn moved_form(place: PlaceForm, by: u8) -> Result<Form, NormalEnd>
    ensures { IsAnswer result (moved by place) }
{
    match place {
        PlaceForm::Null => Ok(Form::Loc(PlaceForm::Null)),
        PlaceForm::Root(x) => Ok(Form::Loc(moved_root(x, by))),
        PlaceForm::At(x, offset) => moved_variable(x, offset, by),
    }
}

#[tactic(auto, using(crate::proofs::WideTests::not_wide, crate::proofs::WideTests::is_wide_from))]
fn moved_variable(name: Name, offset: u128, by: u8) -> Result<Form, NormalEnd>
    ensures { IsAnswer result (moved by (PlaceForm.At name offset)) }
{
    match offset.checked_add(u128::from(by)) {
        Some(offset) => Ok(Form::Loc(PlaceForm::At(name, offset))),
        None => Err(NormalEnd::Wide),
    }
}

// Only 0 cells further than a root is a place that is not `null`.
fn moved_root(root: Name, by: u8) -> PlaceForm
    ensures { result ≡ (if by == 0 then PlaceForm.Root root else PlaceForm.Null) }
{
    if by == 0 {
        PlaceForm::Root(root)
    } else {
        PlaceForm::Null
    }
}
