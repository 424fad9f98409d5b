//! The names and sorts of a file.
ghost use Rattle.std.specs.Prelude.{◌≡◌, OnOk, IfOk, IfErr};
ghost use Rattle.tht_tree.specs.Walk.Files.{has_invariant as invariant_test, is_invariant, main as main_code, first_refusal as the_first_refusal, WellSorted};
ghost use Rattle.tht_tree.specs.Walk.Bodies.{frame, new_result as new_result_code, private_box as private_box_code};
ghost use Rattle.tht_tree.specs.Walk.Codes.{first as first_code};
ghost use Rattle.tht_tree.specs.declared.walk.Where.TheVariants.{Outside};
ghost use Rattle.term_walk.specs.Scopes.{scope_of};
ghost use Rattle.name_walk.specs.declared.decls.Seen.{Seen as SeenOf};
ghost use Rattle.name_walk.specs.Known.{before_of};
ghost use Rattle.name_walk.specs.Ends.{IsFirst};

use crate::bodies::walk_body;
use crate::decls::{Seen, declare, walk_decl};
use crate::heads::Coded;
use crate::placing::{new_result, private_box};
use std::alloc::Global;
use term_walk::codes::{Walked, first, refuse};
use term_walk::scope::Scope;
use tht_tree::decl::{Decl, DeclKind};
use tht_tree::file::{Main, Source1};
use tht_tree::walk::{Frame, WalkRefusal, Where};

/// Why a file is not in order, or is not known to be.
#[derive(Clone, Copy, Debug, PartialEq, Eq)]
pub enum WalkEnd {
    /// The first refusal of the file.
    Refused(WalkRefusal),
    /// Want of memory.
    Memory,
}

/// Whether the names and sorts of a file are in order.
pub fn well_sorted(alloc: Global, file: &Source1) -> Result<(), WalkEnd>
    ensures ok { OnOk result (WellSorted file.now) }
    ensures refused { IfErr result (IsFirst file.now) }
{
    match first_refusal(alloc, file) {
        Ok(None) => Ok(()),
        Ok(Some(refusal)) => Err(WalkEnd::Refused(refusal)),
        Err(_) => Err(WalkEnd::Memory),
    }
}

// The first refusal of a file: in its declarations, or else in main.
fn first_refusal(alloc: Global, file: &Source1) -> Walked
    ensures { IfOk result (λ r. r ≡ the_first_refusal file.now) }
{
    let decls = file.decls.as_slice();
    let with_invariant = has_invariant(decls);
    let mut scope = Scope::new(alloc);
    let mut seen = Seen {
        invariant: false,
        commands: false,
    };
    for decl in decls {
        if let Some(refusal) = walk_decl(alloc, decl, with_invariant, seen, &mut scope)? {
            return Ok(Some(refusal));
        }
        seen = declare(alloc, decl, seen, &mut scope)?;
    }
    walk_main(alloc, &file.main, &mut scope)
}

fn has_invariant(decls: &[Decl]) -> bool
    ensures { result ≡ invariant_test decls.now }
{
    for decl in decls {
        if is_an_invariant(&decl.kind) {
            return true;
        }
    }
    false
}

fn is_an_invariant(kind: &DeclKind) -> bool
    ensures { result ≡ is_invariant kind.now }
{
    matches!(kind, DeclKind::Invariant(_, _))
}

// Main stands outside. Its result is known in its postcondition, and not in its body.
fn walk_main(alloc: Global, main: &Main, scope: &mut Scope) -> Walked
    ensures ok { (seen : SeenOf) → IfOk result (λ r. r ≡ main_code main.now (before_of seen (scope_of scope.old))) }
    ensures same { OnOk result (scope_of scope.new ≡ scope_of scope.old) }
{
    match main_own(main, scope)? {
        Some(code) => refuse(main.spot, code),
        None => walk_body(alloc, main.body.get(), outside(main), scope),
    }
}

fn outside(main: &Main) -> Frame
    ensures { result ≡ frame Outside main.now.sort }
{
    Frame {
        place: Where::Outside,
        result: main.sort,
    }
}

// The name of the result, and the postcondition, which speaks of private cells alone.
fn main_own(main: &Main, scope: &mut Scope) -> Coded
    ensures ok { IfOk result (λ c. c ≡ first_code (new_result_code (scope_of scope.old) main.now.result main.now.sort) (private_box_code (scope_of scope.old) main.now.result main.now.sort main.now.post)) }
    ensures same { OnOk result (scope_of scope.new ≡ scope_of scope.old) }
{
    let name = new_result(scope, &main.result, main.sort);
    Ok(first(
        name,
        private_box(scope, &main.result, main.sort, &main.post)?,
    ))
}
