// The end of a body with a value, and an end that cannot be.
ghost use Rattle.std.specs.Prelude.{◌≡◌, [], ◌∷◌, IfOk, IfErr};
ghost use Rattle.tht_tree.specs.declared.term.Term.TheVariants.{False};
ghost use Rattle.tht_tree.specs.Rules.Context.{context_of};
ghost use Rattle.tht_tree.specs.Rules.Proofs.{prove as said_of, proves};
ghost use Rattle.tht_logic.specs.Putting.{put_assn_within};
ghost use Rattle.tht_logic.specs.Rules.Bodies.{return_refused};
ghost use Rattle.tht_logic.specs.Rules.Checking.{put_or_refused};
ghost use Rattle.tht_logic.specs.Rules.Gives.{after_give};
ghost use Rattle.pure_proofs.specs.Verdicts.{IsVerdict};
ghost use Rattle.heap_rules.specs.Declarations.{declared_by};
ghost use Rattle.heap_rules.specs.Following.{Makes};
ghost use Rattle.hoare_rules.specs.Cells.{Says, undeclared};

use crate::atoms::ascend;
use heap_rules::{Predicates, formula_fits, put_within, refused, take_give};
use pure_proofs::{Known, Refusal, prove};
use pure_terms::Subst;
use std::alloc::Global;
use tht_tree::assn::Assn;
use tht_tree::give::Give;
use tht_tree::plain::Spot;
use tht_tree::proof::Proof;
use tht_tree::rule::RuleCode;
use tht_tree::state::Post;
use tht_tree::term::Term;

/// The end of a body with a value: `ret value by give`, at its spot.
#[derive(Clone, Copy)]
pub(crate) struct Return<'a> {
    pub spot: Spot,
    pub value: &'a Term,
    pub give: &'a Give,
}

/// Whether the end gives the postcondition, and no atom is left.
pub(crate) fn check_return(
    alloc: Global,
    known: &mut Known,
    predicates: &Predicates<'_>,
    end: Return<'_>,
    post: &Post,
) -> Result<(), Refusal>
    ensures { IsVerdict result (return_refused (declared_by predicates.now) end.entry.spot (context_of known.old.state) end.entry.value.now end.entry.give.now post.now) }
{
    let goal = post_with(alloc, end.spot, post, end.value)?;
    give_goal(alloc, known, predicates, end.give, &goal)?;
    if known.state.atoms.is_empty() {
        Ok(())
    } else {
        Err(refused(end.spot, RuleCode::R3))
    }
}

/// Consumes the atoms by which the give proves the goal.
#[tactic(auto, using(crate::proofs::Following::follows_says))]
pub(crate) fn give_goal(
    alloc: Global,
    known: &mut Known,
    predicates: &Predicates<'_>,
    give: &Give,
    goal: &Assn,
) -> Result<(), Refusal>
    ensures { Says result (after_give (declared_by predicates.now) (context_of known.old.state) give.now goal.now) (context_of known.new.state) }
{
    ascend(&known.state.atoms);
    take_give(alloc, known, predicates, give, goal)
}

// The postcondition with this value for its result.
#[tactic(auto, using(crate::proofs::BodyRefusals::put_same))]
fn post_with(alloc: Global, spot: Spot, post: &Post, value: &Term) -> Result<Assn, Refusal>
    ensures { Makes result (put_or_refused spot (put_assn_within ((post.now.result, value.now) ∷ []) post.now.assn)) }
{
    let by = for_result(alloc, post, value)?;
    put_within(alloc, spot, &post.assn, &by)
}

// This value for the result.
fn for_result(alloc: Global, post: &Post, value: &Term) -> Result<Subst, Refusal>
    ensures ok { IfOk result (λ by. by ≡ (post.now.result, value.now) ∷ []) }
    ensures memory { IfErr result (λ e. e ≡ Refusal.Memory) }
{
    let mut by = Subst::new(alloc);
    by.add(post.result.copy()?, value.copy(alloc)?)?;
    Ok(by)
}

/// Whether the proof shows that what is known cannot be. What is known stays as it was.
pub(crate) fn check_dead(
    alloc: Global,
    known: &mut Known,
    spot: Spot,
    proof: &Proof,
) -> Result<(), Refusal>
    ensures { IsVerdict result (proves spot (said_of undeclared proof.now) (context_of known.old.state) False) }
{
    let goal = Term::False;
    if !formula_fits(&goal) {
        return Err(refused(spot, RuleCode::R10));
    }
    prove(proof, alloc, &[], known, &goal)
}
