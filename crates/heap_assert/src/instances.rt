// What an instance of a predicate is defined as.
ghost use Rattle.std.specs.Prelude.{◌≡◌, ◌++◌, ◌∷◌, [], IfOk, OnOk, MatchOption};
ghost use Rattle.tht_tree.specs.declared.term.Term.{out-Term};
ghost use Rattle.tht_tree.specs.declared.term.Term.TheVariants.{Var};
ghost use Rattle.tht_tree.specs.Normal.Putting.{put_name};
ghost use Rattle.tht_logic.specs.Rules.Definitions.{arguments as pairs_of, or_large, definition_of, case_for};
ghost use Rattle.tht_logic.specs.Putting.{put_assn_within};
ghost use Rattle.heap_assert.specs.Instances.{predicate_in, IsDefinition};
ghost use Rattle.heap_assert.specs.Heaps.{MeansItsDefinition};

use crate::definition_end::DefinitionEnd;
use crate::putting::put_in_assn;
use pure_terms::Subst;
use sqlite_items::Items;
use std::alloc::Global;
use tht_tree::assn::Assn;
use tht_tree::decl::{DeclKind, Param};
use tht_tree::plain::{Memory, Name};
use tht_tree::term::Term;

/// What an instance with these arguments is defined as, where this is the declaration of its predicate: the body with the
/// arguments put in, or the case for the argument that the predicate is defined by.
///
/// It is `NoCase` where that argument, as it stands, is neither `nil` nor a head and a tail, or where no predicate is declared; and
/// else `Large` where the definition would pass the limits of an assertion.
pub fn definition(
    alloc: Global,
    declared: &DeclKind,
    arguments: &Items<Term>,
) -> Result<Assn, DefinitionEnd>
    ensures answer { IsDefinition result (definition_of (predicate_in declared.now) arguments.now) }
    ensures heaps { IfOk result (λ made. MeansItsDefinition (predicate_in declared.now) arguments.now made) }
{
    defined_as(alloc, declared, arguments)
}

// What an instance is defined as.
#[tactic(auto, using(crate::proofs::Defined::none_defined))]
fn defined_as(
    alloc: Global,
    declared: &DeclKind,
    arguments: &Items<Term>,
) -> Result<Assn, DefinitionEnd>
    ensures { IsDefinition result (definition_of (predicate_in declared.now) arguments.now) }
{
    match declared {
        DeclKind::Pred(_, _, params, body) => {
            let by = Subst::new(alloc);
            with_arguments(alloc, body, by, params, arguments)
        }
        DeclKind::PredOn(_, _, params, on, nil, head, tail, cons) => {
            match argument_for(on, params, arguments) {
                Some(Term::Nil) => {
                    let by = Subst::new(alloc);
                    with_arguments(alloc, nil, by, params, arguments)
                }
                Some(Term::Cons(first, rest)) => {
                    let by = head_and_tail(alloc, head, first.get(), tail, rest.get())?;
                    with_arguments(alloc, cons, by, params, arguments)
                }
                _ => Err(DefinitionEnd::NoCase),
            }
        }
        _ => Err(DefinitionEnd::NoCase),
    }
}

// A case of a predicate with these put in, and then the arguments for its parameters.
#[tactic(auto, using(crate::proofs::Defined::ok_defined, crate::proofs::Defined::err_defined, crate::proofs::Defined::none_defined))]
fn with_arguments(
    alloc: Global,
    case: &Assn,
    by: Subst,
    params: &Items<Param>,
    arguments: &Items<Term>,
) -> Result<Assn, DefinitionEnd>
    ensures { IsDefinition result (or_large (put_assn_within (by ++ pairs_of params.now arguments.now) case.now)) }
{
    let by = add_arguments(alloc, by, params, arguments)?;
    Ok(put_in_assn(alloc, case, &by)?)
}

/// With an argument for each parameter, as far as there are both.
pub fn add_arguments(
    alloc: Global,
    by: Subst,
    params: &Items<Param>,
    arguments: &Items<Term>,
) -> Result<Subst, Memory>
    ensures { IfOk result (λ s. s ≡ by ++ pairs_of params.now arguments.now) }
{
    let mut all = by;
    for (param, term) in params.as_slice().iter().zip(arguments.as_slice().iter()) {
        add_argument(alloc, &mut all, param, term)?;
    }
    Ok(all)
}

fn add_argument(alloc: Global, by: &mut Subst, param: &Param, term: &Term) -> Result<(), Memory>
    ensures { OnOk result (by.new ≡ by.old ++ (param.now.name, term.now) ∷ []) }
{
    by.add(param.name.copy()?, term.copy(alloc)?)
}

// A head and a tail for their names.
fn head_and_tail(
    alloc: Global,
    head: &Name,
    first: &Term,
    tail: &Name,
    rest: &Term,
) -> Result<Subst, Memory>
    ensures { IfOk result (λ s. s ≡ (head.now, first.now) ∷ (tail.now, rest.now) ∷ []) }
{
    let mut by = Subst::new(alloc);
    by.add(head.copy()?, first.copy(alloc)?)?;
    by.add(tail.copy()?, rest.copy(alloc)?)?;
    Ok(by)
}

// The argument for the parameter with this name.
fn argument_for<'a>(
    name: &Name,
    params: &Items<Param>,
    arguments: &'a Items<Term>,
) -> Option<&'a Term>
    ensures { let pairs = pairs_of params.now arguments.now in
        MatchOption result (put_name pairs name.now ≡ Var name.now) (λ t. put_name pairs name.now ≡ t.now) }
{
    for (param, term) in params.as_slice().iter().zip(arguments.as_slice().iter()) {
        if param.name.same(name) {
            return Some(term);
        }
    }
    None
}
