// Terms put in for the free names of an assertion.
ghost use Rattle.std.specs.Prelude.{◌≡◌, ◌++◌, ◌∷◌, [], map, IfOk};
ghost use Rattle.tht_tree.specs.declared.assn.Assn.TheVariants.{Exists};
ghost use Rattle.tht_tree.specs.declared.term.Term.TheVariants.{Var};
ghost use Rattle.tht_tree.specs.Normal.Putting.{put_in};
ghost use Rattle.pure_terms.specs.Inside.{puts_of};
ghost use Rattle.tht_logic.specs.Putting.{put_assn_within, bound_name as name_of};
ghost use Rattle.heap_assert.specs.Answers.{IsPutAnswer};
ghost use Rattle.heap_assert.specs.ByNames.{put_named};
ghost use Rattle.heap_assert.specs.Heaps.{HasTheHeaps, CapturesNothing};

use crate::sizes::{put_depth, put_size};
use crate::zeros::zeros_made;
use pure_terms::{Inside, Subst, outside, term_inside};
use sqlite_items::{Boxed, Items};
use std::alloc::Global;
use tht_tree::assn::Assn;
use tht_tree::form::PutEnd;
use tht_tree::plain::{Memory, Name, Sort};
use tht_tree::term::Term;

/// The most nodes of an assertion, its terms' included.
const ASSERTION_NODES: u64 = 65_536;

/// The most levels of an assertion, its terms' included.
const ASSERTION_LEVELS: u64 = 1_000;

/// The assertion with these put in for its free names, all at once. Its bound variables are named by their levels, from the
/// outermost on, by names of zeros, each a zero longer than the one before. The first is a zero longer than the longest name of zeros that
/// is free in what is made, so nothing is captured: `0`, `00`, `000` and so on where no such name is free.
///
/// It is `Large`, and nothing is made, where what it would make passes the limits of an assertion: 65,536 nodes and 1,000 levels,
/// its terms' included.
pub fn put_in_assn(alloc: Global, assn: &Assn, by: &Subst) -> Result<Assn, PutEnd>
    ensures answer { IsPutAnswer result (put_assn_within by.now assn.now) }
    ensures heaps { IfOk result (λ made. HasTheHeaps by.now assn.now made) }
    ensures no_capture { IfOk result (λ made. CapturesNothing by.now assn.now made) }
{
    put_within(alloc, assn, by)
}

// What putting in answers.
#[tactic(auto, using(crate::proofs::PutFits::no_memory))]
fn put_within(alloc: Global, assn: &Assn, by: &Subst) -> Result<Assn, PutEnd>
    ensures { IsPutAnswer result (put_assn_within by.now assn.now) }
{
    let terms = outside(&*by);
    if put_size(assn, &terms) > ASSERTION_NODES {
        return Err(PutEnd::Large);
    }
    if put_depth(assn, &terms) > ASSERTION_LEVELS {
        return Err(PutEnd::Large);
    }
    let level = bound_name(alloc, zeros_made(alloc, assn, &terms))?;
    Ok(put_inside(alloc, assn, &level, &terms)?)
}

// The name of the bound variable of this number: so many zeros, and one more.
fn bound_name(alloc: Global, number: usize) -> Result<Name, Memory>
    ensures { IfOk result (λ x. x ≡ name_of number) }
{
    let mut text = String::from_str(alloc, "0")?;
    for _ in 0..number {
        text.push_str("0")?;
    }
    Ok(Name::new(text))
}

// The assertion with these put in, where this is the name of the next variable that is bound.
#[cycle(put)]
fn put_inside(alloc: Global, assn: &Assn, level: &Name, by: &Inside<'_>) -> Result<Assn, Memory>
    ensures { IfOk result (λ p. p ≡ put_named level.now (puts_of by.now) assn.now) }
{
    match assn {
        Assn::Emp => Ok(Assn::Emp),
        Assn::Fact(t) => Ok(Assn::Fact(put_term(alloc, t, by)?)),
        Assn::Own(t, u) => Ok(Assn::Own(put_term(alloc, t, by)?, put_term(alloc, u, by)?)),
        Assn::Shared(t, u) => Ok(Assn::Shared(put_term(alloc, t, by)?, put_term(alloc, u, by)?)),
        Assn::Star(a, b) => {
            Ok(Assn::Star(
                put_part(alloc, a, level, by)?,
                put_part(alloc, b, level, by)?,
            ))
        }
        Assn::Inst(p, ts) => Ok(Assn::Inst(p.copy()?, put_terms(alloc, ts, by)?)),
        Assn::Exists(x, sort, a) => put_bound(alloc, a, x, *sort, level, by),
        Assn::Either(a, b) => {
            Ok(Assn::Either(
                put_part(alloc, a, level, by)?,
                put_part(alloc, b, level, by)?,
            ))
        }
    }
}

#[cycle(put)]
fn put_part(
    alloc: Global,
    assn: &Boxed<Assn>,
    level: &Name,
    by: &Inside<'_>,
) -> Result<Boxed<Assn>, Memory>
    ensures { IfOk result (λ p. p ≡ put_named level.now (puts_of by.now) assn.now) }
{
    let made = put_inside(alloc, assn.get(), level, by)?;
    Ok(Boxed::new(alloc, made)?)
}

// An `exists` of `name` over the assertion: its variable gets the name of its level.
#[cycle(put)]
fn put_bound(
    alloc: Global,
    assn: &Boxed<Assn>,
    name: &Name,
    sort: Sort,
    level: &Name,
    by: &Inside<'_>,
) -> Result<Assn, Memory>
    ensures { IfOk result (λ p. p ≡ Exists level.now sort (put_named (level.now ++ 48 ∷ []) ((name.now, Var level.now) ∷ puts_of by.now) assn.now)) }
{
    let deeper = next_level(level)?;
    let made = put_part(
        alloc,
        assn,
        &deeper,
        &Inside::Renamed(&*name, &*level, &*by),
    )?;
    Ok(Assn::Exists(level.copy()?, sort, made))
}

// The name of the variable that is bound next behind the one with this name.
fn next_level(level: &Name) -> Result<Name, Memory>
    ensures { IfOk result (λ n. n ≡ level.now ++ 48 ∷ []) }
{
    let mut text = level.copy_text()?;
    text.push_str("0")?;
    Ok(Name::new(text))
}

fn put_term(alloc: Global, term: &Boxed<Term>, by: &Inside<'_>) -> Result<Boxed<Term>, Memory>
    ensures { IfOk result (λ t. t ≡ put_in (puts_of by.now) term.now) }
{
    let made = term_inside(alloc, term.get(), by)?;
    Ok(Boxed::new(alloc, made)?)
}

fn put_terms(alloc: Global, terms: &Items<Term>, by: &Inside<'_>) -> Result<Items<Term>, Memory>
    ensures { IfOk result (λ ts. ts ≡ map (put_in (puts_of by.now)) terms.now) }
{
    let mut made = Items::new(alloc);
    for term in terms.as_slice() {
        made.push(term_inside(alloc, term, by)?)?;
    }
    Ok(made)
}
