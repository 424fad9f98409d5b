// What the rules refuse of a file.
ghost use Rattle.std.specs.Prelude.{◌≡◌, true, All, IfOk, IfErr};
ghost use Rattle.tht_tree.specs.Walk.Files.{WellSorted};
ghost use Rattle.tht_tree.specs.Rules.Context.{no_context};
ghost use Rattle.tht_logic.specs.Built.{is_built};
ghost use Rattle.tht_logic.specs.Procedures.{head_post, main_post};
ghost use Rattle.tht_logic.specs.Rules.Bodies.{body_refused};
ghost use Rattle.tht_logic.specs.Rules.Checking.{and_then};
ghost use Rattle.tht_logic.specs.Rules.Files.{at_start, decl_refused, first_rule_refusal};
ghost use Rattle.pure_proofs.specs.Verdicts.{IsVerdict};
ghost use Rattle.heap_rules.specs.Declarations.{declared_by};
ghost use Rattle.file_checker.specs.Refusals.{decls_refused};
ghost use Rattle.file_checker.specs.Starts.{PreIsInOrder, StartsInOrder};

use crate::heads::state_at_start;
use hoare_rules::{Predicates, Refusal, body_holds};
use std::alloc::Global;
use tht_tree::assn::Assn;
use tht_tree::body::Body;
use tht_tree::decl::{Decl, DeclKind, Head};
use tht_tree::file::Source1;
use tht_tree::plain::{Name, Sort, Spot};
use tht_tree::state::{Post, State};

/// Whether the rules refuse nothing in a file whose names and sorts are in order; else the first that they refuse.
#[tactic(auto, using(crate::proofs::Refused::decls_stop, crate::proofs::Refused::main_checked, crate::proofs::InOrder::starts_in_order))]
pub(crate) fn file_holds(alloc: Global, file: &Source1) -> Result<(), Refusal>
    requires built { is_built file.now ≡ true }
    requires sorted { WellSorted file.now }
    ensures { IsVerdict result (first_rule_refusal file.now) }
{
    let decls = file.decls.as_slice();
    let predicates = Predicates::new(alloc, decls)?;
    decls_hold(alloc, &predicates, decls)?;
    main_holds(alloc, &predicates, file)
}

// ---- declarations

// Whether the rules refuse nothing in these declarations.
fn decls_hold(alloc: Global, predicates: &Predicates<'_>, decls: &[Decl]) -> Result<(), Refusal>
    requires { All (λ d. StartsInOrder (declared_by predicates.now) d.kind) decls.now }
    ensures { IsVerdict result (decls_refused (declared_by predicates.now) decls.now) }
{
    for decl in decls {
        decl_holds(alloc, predicates, decl)?;
    }
    Ok(())
}

// Whether the rules refuse nothing in the declaration.
fn decl_holds(alloc: Global, predicates: &Predicates<'_>, decl: &Decl) -> Result<(), Refusal>
    requires { StartsInOrder (declared_by predicates.now) decl.now.kind }
    ensures { IsVerdict result (decl_refused (declared_by predicates.now) decl.now.spot decl.now.kind) }
{
    match &decl.kind {
        DeclKind::Proc(head, body) => {
            proc_holds(alloc, predicates, decl.spot, head.get(), body.get())
        }
        _ => Ok(()),
    }
}

// Whether the body of the proc meets its postcondition, from the atoms of its precondition.
#[tactic(auto, using(crate::proofs::Refused::not_started, crate::proofs::Refused::started, crate::proofs::Refused::verdict_of))]
fn proc_holds(
    alloc: Global,
    predicates: &Predicates<'_>,
    spot: Spot,
    head: &Head,
    body: &Body,
) -> Result<(), Refusal>
    requires { PreIsInOrder (declared_by predicates.now) head.now }
    ensures { IsVerdict result (and_then (at_start spot head.now) (body_refused (declared_by predicates.now) body.now (head_post head.now))) }
{
    let state = state_at_start(alloc, spot, head)?;
    let post = post_of(alloc, &head.result, head.sort, &head.post)?;
    body_holds(alloc, predicates, state, body, &post)
}

// ---- main

// Whether main's body meets its postcondition, from no atom and with nothing known.
#[tactic(auto, using(crate::proofs::Refused::verdict_of))]
fn main_holds(alloc: Global, predicates: &Predicates<'_>, file: &Source1) -> Result<(), Refusal>
    ensures { IsVerdict result (body_refused (declared_by predicates.now) file.now.main.body (main_post file.now) no_context) }
{
    let main = &file.main;
    let post = post_of(alloc, &main.result, main.sort, &main.post)?;
    let state = State::new(alloc);
    body_holds(alloc, predicates, state, main.body.get(), &post)
}

// A postcondition, which speaks of the result by this name.
fn post_of(alloc: Global, name: &Name, sort: Sort, assn: &Assn) -> Result<Post, Refusal>
    ensures ok { IfOk result (λ p. p ≡ record { result = name.now; sort = sort; assn = assn.now }) }
    ensures memory { IfErr result (λ e. e ≡ Refusal.Memory) }
{
    let result = name.copy()?;
    let assn = assn.copy(alloc)?;
    Ok(Post { result, sort, assn })
}
