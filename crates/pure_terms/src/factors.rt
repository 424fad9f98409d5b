// Products of atoms.
ghost use Rattle.std.specs.Prelude.{◌≡◌, [], ◌∷◌, ◌+◌, ◌<◌, length, IfOk, IfSome, MatchOption};
ghost use Rattle.tht_tree.specs.Normal.Sums.{merge};

use crate::order::compare_terms;
use sqlite_items::Items;
use std::alloc::Global;
use std::cmp::Ordering;
use tht_tree::form::Product;
use tht_tree::plain::Memory;
use tht_tree::term::Term;

// The next factor of two products together, and what is left of them.
#[derive(Clone, Copy)]
struct Turn<'a> {
    factor: &'a Term,
    left: &'a [Term],
    right: &'a [Term],
}

/// All factors of two products.
pub(crate) fn merge_factors(alloc: Global, left: &[Term], right: &[Term]) -> Result<Product, Memory>
    ensures { IfOk result (λ xs. xs ≡ merge left.now right.now) }
{
    let mut factors = Items::new(alloc);
    let (mut left, mut right) = (left, right);
    while let Some(turn) = next_factor(left, right) {
        factors.push(turn.factor.copy(alloc)?)?;
        left = turn.left;
        right = turn.right;
    }
    Ok(factors)
}

fn next_factor<'a>(left: &'a [Term], right: &'a [Term]) -> Option<Turn<'a>>
    ensures factors { MatchOption result (merge left.now right.now ≡ []) (λ t. merge left.now right.now ≡ t.factor.now ∷ merge t.left.now t.right.now) }
    ensures fewer { IfSome result (λ t. length t.left.now + length t.right.now < length left.now + length right.now) }
{
    match (left.split_first(), right.split_first()) {
        (None, None) => None,
        (Some((x, xs)), None) => Some(Turn {
            factor: x,
            left: xs,
            right,
        }),
        (None, Some((y, ys))) => Some(Turn {
            factor: y,
            left,
            right: ys,
        }),
        (Some((x, xs)), Some((y, ys))) => match compare_terms(x, y) {
            Ordering::Greater => Some(Turn {
                factor: y,
                left,
                right: ys,
            }),
            _ => Some(Turn {
                factor: x,
                left: xs,
                right,
            }),
        },
    }
}
