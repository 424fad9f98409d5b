//! Proofs.
ghost use Rattle.std.specs.Prelude.{◌≡◌, ℕ, []};
ghost use Rattle.tht_tree.specs.declared.token.TokenKind.TheVariants as k;
ghost use Rattle.tht_tree.specs.Grammar.{a_proof};
ghost use Rattle.tht_grammar.specs.Steps.{is, rest, entries, listed};
ghost use Rattle.tht_grammar.specs.Reading as spec;
ghost use Rattle.tht_parse.specs.Forms.{over_proof, over_proofs, over_term, over_term_and_proofs, over_terms};
ghost use Rattle.tht_parse.specs.Readings.{Reads};

use crate::arguments::{arguments, bracketed};
use crate::cursor::Tokens;
use crate::forms::{OverProof, OverProofs, OverTerm, OverTermAndProofs, OverTerms};
use crate::names::{name, number, sort};
use crate::nesting::{Construct, enter};
use crate::stop::{Fault, Stop};
use crate::terms::term;
use sqlite_items::{Boxed, Items};
use std::alloc::Global;
use tht_tree::plain::Name;
use tht_tree::proof::{LinEntry, Proof, ProofKind};
use tht_tree::token::TokenKind;

/// How many entries a linear certificate may have.
const MAX_ENTRIES: usize = 64;

/// A proof, inside the constructs that are open, of which `depth` more may be.
#[cycle(proofs)]
#[tactic(auto, unfolding(tht_grammar::specs::Reading::proof))]
pub fn proof(alloc: Global, tokens: &mut Tokens<'_>, depth: usize) -> Result<Boxed<Proof>, Stop>
    ensures { Reads (spec.nested depth a_proof tokens.old) result tokens.new }
{
    let less = enter(tokens, Construct::Proof, depth)?;
    if tokens.sees(TokenKind::LParen) {
        tokens.advance();
        let inner = proof(alloc, tokens, less)?;
        tokens.expect(TokenKind::RParen)?;
        return Ok(inner);
    }
    let spot = tokens.spot();
    let kind = proof_kind(alloc, tokens, less)?;
    let kind = kind.into_inner();
    Ok(Boxed::new(alloc, Proof { spot, kind })?)
}

/// A proof, by its first word.
#[cycle(proofs)]
#[tactic(auto, unfolding(tht_grammar::specs::Reading::proof_kind))]
fn proof_kind(
    alloc: Global,
    tokens: &mut Tokens<'_>,
    depth: usize,
) -> Result<Boxed<ProofKind>, Stop>
    ensures { Reads (spec.proof_kind (spec.nested depth) tokens.old) result tokens.new }
{
    match tokens.peek() {
        Some(TokenKind::Hyp) => hyp(alloc, tokens),
        Some(TokenKind::Refl) => word(alloc, tokens, ProofKind::Refl),
        Some(TokenKind::Calc) => word(alloc, tokens, ProofKind::Calc),
        Some(TokenKind::As) => of_term(alloc, tokens, depth, OverTerm::Recast),
        Some(TokenKind::Sym) => of_proof(alloc, tokens, depth, OverProof::Sym),
        Some(TokenKind::Both) => of_proofs(alloc, tokens, depth, OverProofs::Both),
        Some(TokenKind::Subst) => subst(alloc, tokens, depth),
        Some(TokenKind::Pair) => of_proofs(alloc, tokens, depth, OverProofs::Pair),
        Some(TokenKind::Fst) => of_term(alloc, tokens, depth, OverTerm::Fst),
        Some(TokenKind::Snd) => of_term(alloc, tokens, depth, OverTerm::Snd),
        Some(TokenKind::Inl) => of_proof(alloc, tokens, depth, OverProof::Inl),
        Some(TokenKind::Inr) => of_proof(alloc, tokens, depth, OverProof::Inr),
        Some(TokenKind::Cases) => cases(alloc, tokens, depth),
        Some(TokenKind::Fun) => fun(alloc, tokens, depth),
        Some(TokenKind::App) => of_term_and_proofs(alloc, tokens, depth, OverTermAndProofs::App),
        Some(TokenKind::Neg) => of_term_and_proofs(alloc, tokens, depth, OverTermAndProofs::Neg),
        Some(TokenKind::Absurd) => of_proof(alloc, tokens, depth, OverProof::Absurd),
        Some(TokenKind::Em) => em(alloc, tokens, depth),
        Some(TokenKind::Lin) => lin(alloc, tokens, depth),
        Some(TokenKind::Monus) => of_proof(alloc, tokens, depth, OverProof::Monus),
        Some(TokenKind::Head) => of_terms(alloc, tokens, depth, OverTerms::Head),
        Some(TokenKind::Tail) => of_terms(alloc, tokens, depth, OverTerms::Tail),
        Some(TokenKind::Nocons) => word(alloc, tokens, ProofKind::Nocons),
        Some(TokenKind::Apart) => apart(alloc, tokens),
        Some(TokenKind::Nonnull) => nonnull(alloc, tokens),
        Some(TokenKind::Lemma) => lemma(alloc, tokens, depth),
        Some(TokenKind::Todo) => word(alloc, tokens, ProofKind::Todo),
        _ => Err(Stop::Fault(Fault::Unexpected)),
    }
}

/// A proof that is its word alone.
fn word(alloc: Global, tokens: &mut Tokens<'_>, kind: ProofKind) -> Result<Boxed<ProofKind>, Stop>
    ensures { Reads (Ok (kind, rest tokens.old)) result tokens.new }
{
    tokens.advance();
    Ok(Boxed::new(alloc, kind)?)
}

/// A word and a proof.
#[cycle(proofs)]
#[tactic(auto, unfolding(tht_grammar::specs::Reading::over_one))]
fn of_proof(
    alloc: Global,
    tokens: &mut Tokens<'_>,
    depth: usize,
    form: OverProof,
) -> Result<Boxed<ProofKind>, Stop>
    ensures { Reads (spec.over_one (spec.nested depth) (over_proof form) (rest tokens.old)) result tokens.new }
{
    tokens.advance();
    let inner = proof(alloc, tokens, depth)?;
    Ok(Boxed::new(alloc, form.of(inner))?)
}

/// A word and two proofs.
#[cycle(proofs)]
#[tactic(auto, unfolding(tht_grammar::specs::Reading::over_two))]
fn of_proofs(
    alloc: Global,
    tokens: &mut Tokens<'_>,
    depth: usize,
    form: OverProofs,
) -> Result<Boxed<ProofKind>, Stop>
    ensures { Reads (spec.over_two (spec.nested depth) (over_proofs form) (rest tokens.old)) result tokens.new }
{
    tokens.advance();
    let first = proof(alloc, tokens, depth)?;
    let second = proof(alloc, tokens, depth)?;
    Ok(Boxed::new(alloc, form.of(first, second))?)
}

/// A word, `[t]` and a proof.
#[cycle(proofs)]
#[tactic(auto, unfolding(tht_grammar::specs::Reading::of_over_one))]
fn of_term(
    alloc: Global,
    tokens: &mut Tokens<'_>,
    depth: usize,
    form: OverTerm,
) -> Result<Boxed<ProofKind>, Stop>
    ensures { Reads (spec.of_over_one (spec.nested depth) (over_term form) (rest tokens.old)) result tokens.new }
{
    tokens.advance();
    let term = bracketed(alloc, tokens, depth)?;
    let inner = proof(alloc, tokens, depth)?;
    Ok(Boxed::new(alloc, form.of(term, inner))?)
}

/// A word, `[t]` and two proofs.
#[cycle(proofs)]
#[tactic(auto, unfolding(tht_grammar::specs::Reading::of_over_two))]
fn of_term_and_proofs(
    alloc: Global,
    tokens: &mut Tokens<'_>,
    depth: usize,
    form: OverTermAndProofs,
) -> Result<Boxed<ProofKind>, Stop>
    ensures { Reads (spec.of_over_two (spec.nested depth) (over_term_and_proofs form) (rest tokens.old)) result tokens.new }
{
    tokens.advance();
    let term = bracketed(alloc, tokens, depth)?;
    let first = proof(alloc, tokens, depth)?;
    let second = proof(alloc, tokens, depth)?;
    Ok(Boxed::new(alloc, form.of(term, first, second))?)
}

/// A word, `[t]`, `[u]` and a proof.
#[cycle(proofs)]
#[tactic(auto, unfolding(tht_grammar::specs::Reading::of_two_over_one))]
fn of_terms(
    alloc: Global,
    tokens: &mut Tokens<'_>,
    depth: usize,
    form: OverTerms,
) -> Result<Boxed<ProofKind>, Stop>
    ensures { Reads (spec.of_two_over_one (spec.nested depth) (over_terms form) (rest tokens.old)) result tokens.new }
{
    tokens.advance();
    let first = bracketed(alloc, tokens, depth)?;
    let second = bracketed(alloc, tokens, depth)?;
    let inner = proof(alloc, tokens, depth)?;
    Ok(Boxed::new(alloc, form.of(first, second, inner))?)
}

/// `hyp h`
#[tactic(auto, unfolding(tht_grammar::specs::Reading::hyp))]
fn hyp(alloc: Global, tokens: &mut Tokens<'_>) -> Result<Boxed<ProofKind>, Stop>
    ensures { (d : ℕ) → Reads (spec.hyp (spec.nested d) (rest tokens.old)) result tokens.new }
{
    tokens.advance();
    let name = name(alloc, tokens)?;
    Ok(Boxed::new(alloc, ProofKind::Hyp(name))?)
}

/// `subst (x : s . t) [a] [b] p q`
#[cycle(proofs)]
#[tactic(auto, unfolding(tht_grammar::specs::Reading::subst))]
fn subst(alloc: Global, tokens: &mut Tokens<'_>, depth: usize) -> Result<Boxed<ProofKind>, Stop>
    ensures { Reads (spec.subst (spec.nested depth) (rest tokens.old)) result tokens.new }
{
    tokens.advance();
    tokens.expect(TokenKind::LParen)?;
    let bound = name(alloc, tokens)?;
    tokens.expect(TokenKind::Colon)?;
    let sort = sort(tokens)?;
    tokens.expect(TokenKind::Dot)?;
    let formula = term(alloc, tokens, depth)?;
    tokens.expect(TokenKind::RParen)?;
    let old = bracketed(alloc, tokens, depth)?;
    let new = bracketed(alloc, tokens, depth)?;
    let first = proof(alloc, tokens, depth)?;
    let second = proof(alloc, tokens, depth)?;
    let kind = ProofKind::Subst(bound, sort, formula, old, new, first, second);
    Ok(Boxed::new(alloc, kind)?)
}

/// `cases [t] p {h . q} {g . r}`
#[cycle(proofs)]
#[tactic(auto, unfolding(tht_grammar::specs::Reading::cases))]
fn cases(alloc: Global, tokens: &mut Tokens<'_>, depth: usize) -> Result<Boxed<ProofKind>, Stop>
    ensures { Reads (spec.cases (spec.nested depth) (rest tokens.old)) result tokens.new }
{
    tokens.advance();
    let either = bracketed(alloc, tokens, depth)?;
    let proof = proof(alloc, tokens, depth)?;
    let (left, first) = case(alloc, tokens, depth)?;
    let (right, second) = case(alloc, tokens, depth)?;
    let kind = ProofKind::Cases(either, proof, left, first, right, second);
    Ok(Boxed::new(alloc, kind)?)
}

/// `fun h . p`
#[cycle(proofs)]
#[tactic(auto, unfolding(tht_grammar::specs::Reading::fun))]
fn fun(alloc: Global, tokens: &mut Tokens<'_>, depth: usize) -> Result<Boxed<ProofKind>, Stop>
    ensures { Reads (spec.fun (spec.nested depth) (rest tokens.old)) result tokens.new }
{
    tokens.advance();
    let hyp = name(alloc, tokens)?;
    tokens.expect(TokenKind::Dot)?;
    let inner = proof(alloc, tokens, depth)?;
    Ok(Boxed::new(alloc, ProofKind::Fun(hyp, inner))?)
}

/// `em [t] {h . p} {g . q}`
#[cycle(proofs)]
#[tactic(auto, unfolding(tht_grammar::specs::Reading::em))]
fn em(alloc: Global, tokens: &mut Tokens<'_>, depth: usize) -> Result<Boxed<ProofKind>, Stop>
    ensures { Reads (spec.em (spec.nested depth) (rest tokens.old)) result tokens.new }
{
    tokens.advance();
    let formula = bracketed(alloc, tokens, depth)?;
    let (left, first) = case(alloc, tokens, depth)?;
    let (right, second) = case(alloc, tokens, depth)?;
    let kind = ProofKind::Em(formula, left, first, right, second);
    Ok(Boxed::new(alloc, kind)?)
}

/// `{h . p}`
#[cycle(proofs)]
#[tactic(auto, unfolding(tht_grammar::specs::Reading::case))]
fn case(alloc: Global, tokens: &mut Tokens<'_>, depth: usize) -> Result<(Name, Boxed<Proof>), Stop>
    ensures { Reads (spec.case (spec.nested depth) tokens.old) result tokens.new }
{
    tokens.expect(TokenKind::LBrace)?;
    let hyp = name(alloc, tokens)?;
    tokens.expect(TokenKind::Dot)?;
    let inner = proof(alloc, tokens, depth)?;
    tokens.expect(TokenKind::RBrace)?;
    Ok((hyp, inner))
}

/// `lin k { k1 [t1] p1, .. }`
#[cycle(proofs)]
#[tactic(auto, unfolding(tht_grammar::specs::Reading::lin))]
fn lin(alloc: Global, tokens: &mut Tokens<'_>, depth: usize) -> Result<Boxed<ProofKind>, Stop>
    ensures { Reads (spec.lin (spec.nested depth) (rest tokens.old)) result tokens.new }
{
    tokens.advance();
    let multiplier = number(tokens)?;
    tokens.expect(TokenKind::LBrace)?;
    let entries = lin_entries(alloc, tokens, depth)?;
    tokens.expect(TokenKind::RBrace)?;
    Ok(Boxed::new(alloc, ProofKind::Lin(multiplier, entries))?)
}

/// `list(NUM "[" term "]" proof)`
#[cycle(proofs)]
#[tactic(auto, using(crate::proofs::Entries::entries_more, crate::proofs::Entries::entries_last, crate::proofs::Entries::entries_err, crate::proofs::Entries::entries_many, crate::proofs::Entries::entries_over), unfolding(tht_grammar::specs::Steps::listed))]
fn lin_entries(
    alloc: Global,
    tokens: &mut Tokens<'_>,
    depth: usize,
) -> Result<Items<LinEntry>, Stop>
    ensures { Reads (listed (is k.Num) (spec.lin_entry (spec.nested depth)) 64 tokens.old) result tokens.new }
{
    let mut found = Items::new(alloc);
    if !tokens.sees(TokenKind::Num) {
        return Ok(found);
    }
    for _turn in 0..MAX_ENTRIES {
        let entry = lin_entry(alloc, tokens, depth)?;
        found.push(entry)?;
        if !tokens.sees(TokenKind::Comma) {
            return Ok(found);
        }
        tokens.advance();
    }
    if tokens.sees(TokenKind::Num) {
        return Err(Stop::Fault(Fault::Many));
    }
    Err(Stop::Fault(Fault::Unexpected))
}

/// `NUM "[" term "]" proof`
#[cycle(proofs)]
#[tactic(auto, unfolding(tht_grammar::specs::Reading::lin_entry))]
fn lin_entry(alloc: Global, tokens: &mut Tokens<'_>, depth: usize) -> Result<LinEntry, Stop>
    ensures { Reads (spec.lin_entry (spec.nested depth) tokens.old) result tokens.new }
{
    let multiplier = number(tokens)?;
    let fact = bracketed(alloc, tokens, depth)?;
    let proof = proof(alloc, tokens, depth)?;
    Ok(LinEntry {
        multiplier,
        fact,
        proof,
    })
}

/// `apart i j`
#[tactic(auto, unfolding(tht_grammar::specs::Reading::apart))]
fn apart(alloc: Global, tokens: &mut Tokens<'_>) -> Result<Boxed<ProofKind>, Stop>
    ensures { (d : ℕ) → Reads (spec.apart (spec.nested d) (rest tokens.old)) result tokens.new }
{
    tokens.advance();
    let first = number(tokens)?;
    let second = number(tokens)?;
    Ok(Boxed::new(alloc, ProofKind::Apart(first, second))?)
}

/// `nonnull i`
#[tactic(auto, unfolding(tht_grammar::specs::Reading::nonnull))]
fn nonnull(alloc: Global, tokens: &mut Tokens<'_>) -> Result<Boxed<ProofKind>, Stop>
    ensures { (d : ℕ) → Reads (spec.nonnull (spec.nested d) (rest tokens.old)) result tokens.new }
{
    tokens.advance();
    let atom = number(tokens)?;
    Ok(Boxed::new(alloc, ProofKind::Nonnull(atom))?)
}

/// `lemma L(t, ..) p`
#[cycle(proofs)]
#[tactic(auto, unfolding(tht_grammar::specs::Reading::lemma))]
fn lemma(alloc: Global, tokens: &mut Tokens<'_>, depth: usize) -> Result<Boxed<ProofKind>, Stop>
    ensures { Reads (spec.lemma (spec.nested depth) (rest tokens.old)) result tokens.new }
{
    tokens.advance();
    let name = name(alloc, tokens)?;
    let arguments = arguments(alloc, tokens, depth)?;
    let inner = proof(alloc, tokens, depth)?;
    Ok(Boxed::new(alloc, ProofKind::Lemma(name, arguments, inner))?)
}
