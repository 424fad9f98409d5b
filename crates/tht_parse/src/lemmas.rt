//! Lemmas.
ghost use Rattle.std.specs.Prelude.{◌≡◌, IfOk};
ghost use Rattle.tht_tree.specs.declared.decl.DeclKind.TheVariants as d;
ghost use Rattle.tht_grammar.specs.Steps.{rest};
ghost use Rattle.tht_grammar.specs.Reading as spec;
ghost use Rattle.tht_parse.specs.Readings.{Reads};

use crate::assns::braced;
use crate::bodies::body;
use crate::cursor::Tokens;
use crate::lists::params;
use crate::names::name;
use crate::stop::{Fault, Stop};
use sqlite_items::{Boxed, Items};
use std::alloc::{AllocError, Global};
use tht_tree::assn::Assn;
use tht_tree::decl::{DeclKind, Lemma, LemmaKind, Param};
use tht_tree::plain::{Name, Spot};
use tht_tree::token::TokenKind;

/// What stands before the cases of a lemma.
#[derive(Drop)]
struct Claim {
    spot: Spot,
    name: Name,
    params: Items<Param>,
    pre: Boxed<Assn>,
    post: Boxed<Assn>,
}

/// The lemma that is proved so.
fn claimed(alloc: Global, claim: Claim, kind: LemmaKind) -> Result<Boxed<DeclKind>, AllocError>
    ensures { IfOk result (λ x. x ≡ d.Lemma (record { spot = claim.spot; name = claim.name; params = claim.params; pre = claim.pre; post = claim.post; kind = kind })) }
{
    let Claim {
        spot,
        name,
        params,
        pre,
        post,
    } = claim;
    let (pre, post) = (pre.into_inner(), post.into_inner());
    let lemma = Lemma {
        spot,
        name,
        params,
        pre,
        post,
        kind,
    };
    let lemma = Boxed::new(alloc, lemma)?;
    Boxed::new(alloc, DeclKind::Lemma(lemma))
}

/// A lemma that stands at this spot.
#[tactic(auto, unfolding(tht_grammar::specs::Reading::lemma_decl))]
pub fn lemma(
    alloc: Global,
    tokens: &mut Tokens<'_>,
    depth: usize,
    spot: Spot,
) -> Result<Boxed<DeclKind>, Stop>
    ensures { Reads (spec.lemma_decl (spec.nested depth) spot (rest tokens.old)) result tokens.new }
{
    tokens.advance();
    let name = name(alloc, tokens)?;
    let params = params(alloc, tokens)?;
    if tokens.sees(TokenKind::On) {
        by_cases(alloc, tokens, depth, spot, name, params)
    } else {
        plain(alloc, tokens, depth, spot, name, params)
    }
}

/// `{pre} {post} body`, after the parameters.
#[tactic(auto, unfolding(tht_grammar::specs::Reading::lemma_plain))]
fn plain(
    alloc: Global,
    tokens: &mut Tokens<'_>,
    depth: usize,
    spot: Spot,
    name: Name,
    params: Items<Param>,
) -> Result<Boxed<DeclKind>, Stop>
    ensures { Reads (spec.lemma_plain (spec.nested depth) spot name params tokens.old) result tokens.new }
{
    let pre = braced(alloc, tokens, depth)?;
    let post = braced(alloc, tokens, depth)?;
    let body = body(alloc, tokens, depth)?;
    let claim = Claim {
        spot,
        name,
        params,
        pre,
        post,
    };
    Ok(claimed(alloc, claim, LemmaKind::Plain(body))?)
}

/// `on x {pre} {post}` and the cases, after the parameters.
#[tactic(auto, unfolding(tht_grammar::specs::Reading::lemma_on))]
fn by_cases(
    alloc: Global,
    tokens: &mut Tokens<'_>,
    depth: usize,
    spot: Spot,
    name: Name,
    params: Items<Param>,
) -> Result<Boxed<DeclKind>, Stop>
    ensures { Reads (spec.lemma_on (spec.nested depth) spot name params (rest tokens.old)) result tokens.new }
{
    tokens.advance();
    let subject = crate::names::name(alloc, tokens)?;
    let pre = braced(alloc, tokens, depth)?;
    let post = braced(alloc, tokens, depth)?;
    let claim = Claim {
        spot,
        name,
        params,
        pre,
        post,
    };
    match tokens.peek() {
        Some(TokenKind::Nil) => on_seq(alloc, tokens, depth, claim, subject),
        Some(TokenKind::Zero) => on_nat(alloc, tokens, depth, claim, subject),
        _ => Err(Stop::Fault(Fault::Unexpected)),
    }
}

/// `nil body cons x t body`
#[tactic(auto, unfolding(tht_grammar::specs::Reading::lemma_seq))]
fn on_seq(
    alloc: Global,
    tokens: &mut Tokens<'_>,
    depth: usize,
    claim: Claim,
    subject: Name,
) -> Result<Boxed<DeclKind>, Stop>
    ensures { Reads (spec.lemma_seq (spec.nested depth) claim.spot claim.name claim.params subject claim.pre claim.post (rest tokens.old)) result tokens.new }
{
    tokens.advance();
    let empty = body(alloc, tokens, depth)?;
    tokens.expect(TokenKind::Cons)?;
    let first = name(alloc, tokens)?;
    let others = name(alloc, tokens)?;
    let filled = body(alloc, tokens, depth)?;
    let kind = LemmaKind::OnSeq(subject, empty, first, others, filled);
    Ok(claimed(alloc, claim, kind)?)
}

/// `zero body next m body`
#[tactic(auto, unfolding(tht_grammar::specs::Reading::lemma_nat))]
fn on_nat(
    alloc: Global,
    tokens: &mut Tokens<'_>,
    depth: usize,
    claim: Claim,
    subject: Name,
) -> Result<Boxed<DeclKind>, Stop>
    ensures { Reads (spec.lemma_nat (spec.nested depth) claim.spot claim.name claim.params subject claim.pre claim.post (rest tokens.old)) result tokens.new }
{
    tokens.advance();
    let zero = body(alloc, tokens, depth)?;
    tokens.expect(TokenKind::Next)?;
    let smaller = name(alloc, tokens)?;
    let next = body(alloc, tokens, depth)?;
    let kind = LemmaKind::OnNat(subject, zero, smaller, next);
    Ok(claimed(alloc, claim, kind)?)
}
