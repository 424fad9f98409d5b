// The rule of calls.
ghost use Rattle.std.specs.Prelude.{◌≡◌, ◌∷◌, [], ◌++◌, IfOk, IfErr};
ghost use Rattle.tht_tree.specs.declared.term.Term.TheVariants.{Var};
ghost use Rattle.tht_tree.specs.Rules.Context.{context_of};
ghost use Rattle.tht_logic.specs.Rules.Calls.{after_call, after_call_of, call_arguments};
ghost use Rattle.heap_rules.specs.Declarations.{declared_by};
ghost use Rattle.hoare_rules.specs.Calls.{given_before, known_behind};
ghost use Rattle.hoare_rules.specs.Cells.{Says};

use crate::outcomes::{Outcome, add_outcome};
use crate::returns::give_goal;
use heap_assert::add_arguments;
use heap_rules::{Predicates, put_within, refused};
use pure_proofs::{Known, Refusal};
use pure_terms::Subst;
use sqlite_items::Items;
use std::alloc::Global;
use tht_tree::decl::Head;
use tht_tree::give::Give;
use tht_tree::plain::{Name, Spot};
use tht_tree::rule::RuleCode;
use tht_tree::term::Term;

/// A call: the name of its result, its arguments, those for the logical variables, and the give of the precondition.
#[derive(Clone, Copy)]
pub(crate) struct Call<'a> {
    pub spot: Spot,
    pub name: &'a Name,
    pub arguments: &'a Items<Term>,
    pub logic: &'a Items<Term>,
    pub give: &'a Give,
}

/// A call of these parts.
pub(crate) fn call_of<'a>(
    spot: Spot,
    name: &'a Name,
    arguments: &'a Items<Term>,
    logic: &'a Items<Term>,
    give: &'a Give,
) -> Call<'a>
    ensures spot { result.spot ≡ spot }
    ensures name { result.name.now ≡ name.now }
    ensures arguments { result.arguments.now ≡ arguments.now }
    ensures logic { result.logic.now ≡ logic.now }
    ensures give { result.give.now ≡ give.now }
{
    Call {
        spot,
        name,
        arguments,
        logic,
        give,
    }
}

/// Goes on over a call of the proc with this name.
#[tactic(auto, using(crate::proofs::Calling::proc_called, crate::proofs::Calling::no_proc))]
pub(crate) fn check_call(
    alloc: Global,
    known: &mut Known,
    predicates: &Predicates<'_>,
    proc: &Name,
    call: Call<'_>,
) -> Result<(), Refusal>
    ensures { Says result (after_call (declared_by predicates.now) call.entry.spot (context_of known.old.state) call.entry.name.now proc.now call.entry.arguments.now call.entry.logic.now call.entry.give.now) (context_of known.new.state) }
{
    match predicates.proc(proc) {
        Some(head) => call_proc(alloc, known, predicates, head, call),
        None => Err(refused(call.spot, RuleCode::R12)),
    }
}

#[tactic(auto, using(crate::proofs::Calling::called, crate::proofs::Calling::not_called))]
fn call_proc(
    alloc: Global,
    known: &mut Known,
    predicates: &Predicates<'_>,
    head: &Head,
    call: Call<'_>,
) -> Result<(), Refusal>
    ensures { Says result (after_call_of (declared_by predicates.now) call.entry.spot (context_of known.old.state) call.entry.name.now call.entry.arguments.now call.entry.logic.now call.entry.give.now head.now) (context_of known.new.state) }
{
    give_precondition(alloc, known, predicates, head, call)?;
    add_postcondition(alloc, known, head, call)
}

// Consumes the atoms by which the give proves the precondition.
#[tactic(auto, using(crate::proofs::Calling::made_then, crate::proofs::Calling::not_made))]
fn give_precondition(
    alloc: Global,
    known: &mut Known,
    predicates: &Predicates<'_>,
    head: &Head,
    call: Call<'_>,
) -> Result<(), Refusal>
    ensures { Says result (given_before (declared_by predicates.now) call.entry.spot (context_of known.old.state) call.entry.arguments.now call.entry.logic.now call.entry.give.now head.now) (context_of known.new.state) }
{
    let by = add_all(alloc, Subst::new(alloc), head, call)?;
    let goal = put_within(alloc, call.spot, &head.pre, &by)?;
    give_goal(alloc, known, predicates, call.give, &goal)
}

// The result has its name, and the atoms of the postcondition are there.
#[tactic(auto, using(crate::proofs::Calling::made_then, crate::proofs::Calling::not_made))]
fn add_postcondition(
    alloc: Global,
    known: &mut Known,
    head: &Head,
    call: Call<'_>,
) -> Result<(), Refusal>
    ensures { Says result (known_behind call.entry.spot (context_of known.old.state) call.entry.name.now call.entry.arguments.now call.entry.logic.now head.now) (context_of known.new.state) }
{
    let by = for_result(alloc, head, call.name)?;
    let by = add_all(alloc, by, head, call)?;
    let post = put_within(alloc, call.spot, &head.post, &by)?;
    let outcome = Outcome {
        spot: call.spot,
        name: call.name,
        sort: head.sort,
    };
    add_outcome(alloc, known, outcome, post)
}

// The name of the call's result for the result of the proc.
fn for_result(alloc: Global, head: &Head, name: &Name) -> Result<Subst, Refusal>
    ensures ok { IfOk result (λ by. by ≡ (head.now.result, Var name.now) ∷ []) }
    ensures memory { IfErr result (λ e. e ≡ Refusal.Memory) }
{
    let mut by = Subst::new(alloc);
    by.add(head.result.copy()?, Term::Var(name.copy()?))?;
    Ok(by)
}

// With the arguments for the parameters, and those for the logical variables.
#[tactic(auto, using(crate::proofs::Calling::added_both))]
fn add_all(alloc: Global, by: Subst, head: &Head, call: Call<'_>) -> Result<Subst, Refusal>
    ensures ok { IfOk result (λ s. s ≡ by ++ call_arguments head.now call.entry.arguments.now call.entry.logic.now) }
    ensures memory { IfErr result (λ e. e ≡ Refusal.Memory) }
{
    let by = add_arguments(alloc, by, &head.params, call.arguments)?;
    Ok(add_arguments(alloc, by, &head.logic, call.logic)?)
}
