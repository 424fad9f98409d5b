// Inner bodies: what they are given, and what they leave.
ghost use Rattle.std.specs.Prelude.{◌≡◌, ◌≤◌, All, IfOk, IfErr};
ghost use Rattle.tht_tree.specs.Rules.Context.{context_of};
ghost use Rattle.tht_logic.specs.Rules.Calls.{dealt};
ghost use Rattle.hoare_rules.specs.Blocks.{IsSplit, Splits, after_block};
ghost use Rattle.hoare_rules.specs.Cells.{Says};

use crate::outcomes::{Outcome, add_outcome};
use heap_rules::{assn_fits, refused};
use pure_proofs::{Known, Refusal, state_size};
use shared_rules::deal;
use std::alloc::Global;
use tht_tree::assn::Assn;
use tht_tree::plain::Spot;
use tht_tree::rule::RuleCode;
use tht_tree::state::{Post, State};

/// An inner body's result, the atoms that the body takes, and its box.
#[derive(Clone, Copy)]
pub(crate) struct Block<'a> {
    pub outcome: Outcome<'a>,
    pub numbers: &'a [u64],
    pub assn: &'a Assn,
}

/// A block with this result, these atoms and this box.
pub(crate) fn block_of<'a>(outcome: Outcome<'a>, numbers: &'a [u64], assn: &'a Assn) -> Block<'a>
    ensures outcome { result.outcome ≡ outcome.entry }
    ensures numbers { result.numbers.now ≡ numbers.now }
    ensures assn { result.assn.now ≡ assn.now }
{
    Block {
        outcome,
        numbers,
        assn,
    }
}

/// What an inner body is given. The others of the atoms are left.
#[tactic(auto, using(crate::proofs::InnerBlocks::splits))]
pub(crate) fn split_off(
    alloc: Global,
    known: &mut Known,
    spot: Spot,
    numbers: &[u64],
) -> Result<Known, Refusal>
    ensures { Splits result (dealt spot numbers.now (context_of known.old.state).atoms) (context_of known.old.state) (context_of known.new.state) }
{
    let given = take_given(alloc, known, spot, numbers)?;
    Known::new(alloc, given)
}

fn take_given(
    alloc: Global,
    known: &mut Known,
    spot: Spot,
    numbers: &[u64],
) -> Result<State, Refusal>
    ensures split { IsSplit result (dealt spot numbers.now (context_of known.old.state).atoms) (context_of known.old.state) (context_of known.new.state) }
    ensures numbered { IfOk result (λ s. All (λ a. a.0 ≤ (context_of s).made) (context_of s).atoms) }
{
    let given = deal(alloc, &mut known.state, numbers, spot);
    let nodes = state_size(&known.state);
    known.nodes = nodes;
    given
}

/// What an inner body is to leave.
pub(crate) fn post_of(alloc: Global, block: Block<'_>) -> Result<Post, Refusal>
    ensures ok { IfOk result (λ p. p ≡ record { result = block.entry.outcome.name.now; sort = block.entry.outcome.sort; assn = block.entry.assn.now }) }
    ensures memory { IfErr result (λ e. e ≡ Refusal.Memory) }
{
    let result = block.outcome.name.copy()?;
    let assn = block.assn.copy(alloc)?;
    Ok(Post {
        result,
        sort: block.outcome.sort,
        assn,
    })
}

/// The result of an inner body has its name, and the atoms of its box are there.
#[tactic(auto, using(crate::proofs::InnerBlocks::box_large, crate::proofs::InnerBlocks::box_fits))]
pub(crate) fn add_box(alloc: Global, known: &mut Known, block: Block<'_>) -> Result<(), Refusal>
    ensures { Says result (after_block block.entry.outcome.spot (context_of known.old.state) block.entry.outcome.name.now block.entry.outcome.sort block.entry.assn.now) (context_of known.new.state) }
{
    if !assn_fits(block.assn) {
        return Err(refused(block.outcome.spot, RuleCode::R10));
    }
    let assn = block.assn.copy(alloc)?;
    add_outcome(alloc, known, block.outcome, assn)
}
