//! Proof steps.
ghost use Rattle.std.specs.Prelude.{◌≡◌, ℕ};
ghost use Rattle.tht_grammar.specs.Steps.{rest};
ghost use Rattle.tht_grammar.specs.Reading as spec;
ghost use Rattle.tht_parse.specs.Readings.{Reads};

use crate::arguments::arguments;
use crate::cursor::Tokens;
use crate::gives::give;
use crate::names::{name, number, sort};
use crate::proofs::proof;
use crate::stop::{Fault, Stop};
use crate::terms::term;
use sqlite_items::Boxed;
use std::alloc::Global;
use tht_tree::give::Give;
use tht_tree::proof::Proof;
use tht_tree::step::StepKind;
use tht_tree::token::TokenKind;

/// `"by" proof`
#[tactic(auto, unfolding(tht_grammar::specs::Reading::by_proof))]
pub fn by_proof(alloc: Global, tokens: &mut Tokens<'_>, depth: usize) -> Result<Boxed<Proof>, Stop>
    ensures { Reads (spec.by_proof (spec.nested depth) tokens.old) result tokens.new }
{
    tokens.expect(TokenKind::By)?;
    proof(alloc, tokens, depth)
}

/// `"by" give`
#[tactic(auto, unfolding(tht_grammar::specs::Reading::by_give))]
pub fn by_give(alloc: Global, tokens: &mut Tokens<'_>, depth: usize) -> Result<Boxed<Give>, Stop>
    ensures { Reads (spec.by_give (spec.nested depth) tokens.old) result tokens.new }
{
    tokens.expect(TokenKind::By)?;
    give(alloc, tokens, depth)
}

/// A step, by its first word.
#[tactic(auto, unfolding(tht_grammar::specs::Reading::step_kind))]
pub fn step_kind(
    alloc: Global,
    tokens: &mut Tokens<'_>,
    depth: usize,
) -> Result<Boxed<StepKind>, Stop>
    ensures { Reads (spec.step_kind (spec.nested depth) tokens.old) result tokens.new }
{
    match tokens.peek() {
        Some(TokenKind::Have) => have(alloc, tokens, depth),
        Some(TokenKind::Open) => open_atom(alloc, tokens),
        Some(TokenKind::Unfold) => unfold_atom(alloc, tokens),
        Some(TokenKind::Fold) => fold(alloc, tokens, depth),
        Some(TokenKind::Rewrite) => rewrite(alloc, tokens, depth),
        Some(TokenKind::Use) => use_lemma(alloc, tokens, depth),
        _ => Err(Stop::Fault(Fault::Unexpected)),
    }
}

/// `have h : t by p`
#[tactic(auto, unfolding(tht_grammar::specs::Reading::have))]
fn have(alloc: Global, tokens: &mut Tokens<'_>, depth: usize) -> Result<Boxed<StepKind>, Stop>
    ensures { Reads (spec.have (spec.nested depth) (rest tokens.old)) result tokens.new }
{
    tokens.advance();
    let hyp = name(alloc, tokens)?;
    tokens.expect(TokenKind::Colon)?;
    let formula = term(alloc, tokens, depth)?;
    let proof = by_proof(alloc, tokens, depth)?;
    let proof = proof.into_inner();
    Ok(Boxed::new(alloc, StepKind::Have(hyp, formula, proof))?)
}

/// `open i as x : sort` or `open i as h`
#[tactic(auto, unfolding(tht_grammar::specs::Reading::open_atom))]
fn open_atom(alloc: Global, tokens: &mut Tokens<'_>) -> Result<Boxed<StepKind>, Stop>
    ensures { (d : ℕ) → Reads (spec.open_atom (spec.nested d) (rest tokens.old)) result tokens.new }
{
    tokens.advance();
    let atom = number(tokens)?;
    tokens.expect(TokenKind::As)?;
    let name = name(alloc, tokens)?;
    if !tokens.sees(TokenKind::Colon) {
        return Ok(Boxed::new(alloc, StepKind::OpenFact(atom, name))?);
    }
    tokens.advance();
    let sort = sort(tokens)?;
    Ok(Boxed::new(alloc, StepKind::OpenVar(atom, name, sort))?)
}

/// `unfold i`
#[tactic(auto, unfolding(tht_grammar::specs::Reading::unfold_atom))]
fn unfold_atom(alloc: Global, tokens: &mut Tokens<'_>) -> Result<Boxed<StepKind>, Stop>
    ensures { (d : ℕ) → Reads (spec.unfold_atom (spec.nested d) (rest tokens.old)) result tokens.new }
{
    tokens.advance();
    let atom = number(tokens)?;
    Ok(Boxed::new(alloc, StepKind::Unfold(atom))?)
}

/// `fold P(t, ..) by g`
#[tactic(auto, unfolding(tht_grammar::specs::Reading::fold))]
fn fold(alloc: Global, tokens: &mut Tokens<'_>, depth: usize) -> Result<Boxed<StepKind>, Stop>
    ensures { Reads (spec.fold (spec.nested depth) (rest tokens.old)) result tokens.new }
{
    tokens.advance();
    let predicate = name(alloc, tokens)?;
    let arguments = arguments(alloc, tokens, depth)?;
    let give = by_give(alloc, tokens, depth)?;
    let give = give.into_inner();
    Ok(Boxed::new(alloc, StepKind::Fold(predicate, arguments, give))?)
}

/// `rewrite i k to u by p`
#[tactic(auto, unfolding(tht_grammar::specs::Reading::rewrite))]
fn rewrite(alloc: Global, tokens: &mut Tokens<'_>, depth: usize) -> Result<Boxed<StepKind>, Stop>
    ensures { Reads (spec.rewrite (spec.nested depth) (rest tokens.old)) result tokens.new }
{
    tokens.advance();
    let atom = number(tokens)?;
    let part = number(tokens)?;
    tokens.expect(TokenKind::To)?;
    let new = term(alloc, tokens, depth)?;
    let proof = by_proof(alloc, tokens, depth)?;
    let proof = proof.into_inner();
    Ok(Boxed::new(alloc, StepKind::Rewrite(atom, part, new, proof))?)
}

/// `use L(t, ..) by g`
#[tactic(auto, unfolding(tht_grammar::specs::Reading::use_lemma))]
fn use_lemma(alloc: Global, tokens: &mut Tokens<'_>, depth: usize) -> Result<Boxed<StepKind>, Stop>
    ensures { Reads (spec.use_lemma (spec.nested depth) (rest tokens.old)) result tokens.new }
{
    tokens.advance();
    let lemma = name(alloc, tokens)?;
    let arguments = arguments(alloc, tokens, depth)?;
    let give = by_give(alloc, tokens, depth)?;
    let give = give.into_inner();
    Ok(Boxed::new(alloc, StepKind::Use(lemma, arguments, give))?)
}
