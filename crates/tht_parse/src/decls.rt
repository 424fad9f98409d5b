//! Declarations.
ghost use Rattle.std.specs.Prelude.{◌≡◌, ℕ, []};
ghost use Rattle.tht_tree.specs.declared.token.TokenKind.TheVariants as k;
ghost use Rattle.tht_tree.specs.Tokens.{first_kind};
ghost use Rattle.tht_grammar.specs.Words.{begins_decl as starts_decl};
ghost use Rattle.tht_grammar.specs.Steps.{is, rest};
ghost use Rattle.tht_grammar.specs.Reading as spec;
ghost use Rattle.tht_parse.specs.Roots.{room_after};
ghost use Rattle.tht_parse.specs.Readings.{Reads};

use crate::assns::{assn, braced};
use crate::bodies::body;
use crate::cursor::Tokens;
use crate::lemmas::lemma;
use crate::lists::{logic, param, params};
use crate::names::name;
use crate::steps::by_give;
use crate::stop::{Fault, Stop};
use sqlite_items::{Boxed, Items};
use std::alloc::Global;
use tht_tree::assn::Assn;
use tht_tree::decl::{Access, Decl, DeclKind, Head, Initial, Param};
use tht_tree::plain::{Name, Spot};
use tht_tree::token::TokenKind;

/// How many declarations a file may have.
const MAX_DECLS: usize = 2000;
/// How many of them may be roots.
const MAX_ROOTS: usize = 256;

/// `NAME params "[" list(NAME ":" sort) "]" box NAME ":" sort box`
#[tactic(auto, unfolding(tht_grammar::specs::Reading::head))]
fn head(alloc: Global, tokens: &mut Tokens<'_>, depth: usize) -> Result<Boxed<Head>, Stop>
    ensures { Reads (spec.head (spec.nested depth) tokens.old) result tokens.new }
{
    let name = name(alloc, tokens)?;
    let params = params(alloc, tokens)?;
    let logic = logic(alloc, tokens)?;
    let pre = braced(alloc, tokens, depth)?;
    let result = param(alloc, tokens)?;
    let post = braced(alloc, tokens, depth)?;
    let Param { name: result, sort } = result;
    let (pre, post) = (pre.into_inner(), post.into_inner());
    let head = Head {
        name,
        params,
        logic,
        pre,
        result,
        sort,
        post,
    };
    Ok(Boxed::new(alloc, head)?)
}

/// The first value of a root: a number, a literal, `()`, or the name of a root.
#[tactic(auto, unfolding(tht_grammar::specs::Reading::initial))]
fn initial(alloc: Global, tokens: &mut Tokens<'_>) -> Result<Initial, Stop>
    ensures { Reads (spec.initial tokens.old) result tokens.new }
{
    match tokens.peek() {
        Some(TokenKind::Num) => {
            let value = tokens.value();
            tokens.advance();
            Ok(Initial::Num(value))
        }
        Some(TokenKind::True) => {
            tokens.advance();
            Ok(Initial::True)
        }
        Some(TokenKind::False) => {
            tokens.advance();
            Ok(Initial::False)
        }
        Some(TokenKind::Null) => {
            tokens.advance();
            Ok(Initial::Null)
        }
        Some(TokenKind::LParen) => {
            tokens.advance();
            tokens.expect(TokenKind::RParen)?;
            Ok(Initial::Unit)
        }
        Some(TokenKind::Name) => {
            let text = String::from_str(alloc, tokens.text())?;
            tokens.advance();
            Ok(Initial::Root(Name::new(text)))
        }
        _ => Err(Stop::Fault(Fault::Unexpected)),
    }
}

/// `root x : sort := value ;`
#[tactic(auto, unfolding(tht_grammar::specs::Reading::root))]
fn root(alloc: Global, tokens: &mut Tokens<'_>) -> Result<Boxed<DeclKind>, Stop>
    ensures { (d : ℕ) → Reads (spec.root (spec.nested d) (rest tokens.old)) result tokens.new }
{
    tokens.advance();
    let root = param(alloc, tokens)?;
    tokens.expect(TokenKind::Assign)?;
    let initial = initial(alloc, tokens)?;
    tokens.expect(TokenKind::Semicolon)?;
    let Param { name, sort } = root;
    Ok(Boxed::new(alloc, DeclKind::Root(name, sort, initial))?)
}

/// `invariant {box} by give ;`
#[tactic(auto, unfolding(tht_grammar::specs::Reading::invariant))]
fn invariant(alloc: Global, tokens: &mut Tokens<'_>, depth: usize) -> Result<Boxed<DeclKind>, Stop>
    ensures { Reads (spec.invariant (spec.nested depth) (rest tokens.old)) result tokens.new }
{
    tokens.advance();
    let holds = braced(alloc, tokens, depth)?;
    let give = by_give(alloc, tokens, depth)?;
    tokens.expect(TokenKind::Semicolon)?;
    let (holds, give) = (holds.into_inner(), give.into_inner());
    Ok(Boxed::new(alloc, DeclKind::Invariant(holds, give))?)
}

/// `"=" assn`
#[tactic(auto, unfolding(tht_grammar::specs::Reading::definition))]
fn definition(alloc: Global, tokens: &mut Tokens<'_>, depth: usize) -> Result<Boxed<Assn>, Stop>
    ensures { Reads (spec.definition (spec.nested depth) tokens.old) result tokens.new }
{
    tokens.expect(TokenKind::Equal)?;
    assn(alloc, tokens, depth)
}

/// A predicate, from `pred` on.
#[tactic(auto, unfolding(tht_grammar::specs::Reading::pred))]
fn pred(
    alloc: Global,
    tokens: &mut Tokens<'_>,
    depth: usize,
    access: Access,
) -> Result<Boxed<DeclKind>, Stop>
    ensures { Reads (spec.pred (spec.nested depth) access tokens.old) result tokens.new }
{
    tokens.expect(TokenKind::Pred)?;
    let name = name(alloc, tokens)?;
    let params = params(alloc, tokens)?;
    if tokens.sees(TokenKind::On) {
        pred_on(alloc, tokens, depth, access, name, params)
    } else {
        pred_plain(alloc, tokens, depth, access, name, params)
    }
}

/// `= definition ;`, after the parameters.
#[tactic(auto, unfolding(tht_grammar::specs::Reading::pred_plain))]
fn pred_plain(
    alloc: Global,
    tokens: &mut Tokens<'_>,
    depth: usize,
    access: Access,
    name: Name,
    params: Items<Param>,
) -> Result<Boxed<DeclKind>, Stop>
    ensures { Reads (spec.pred_plain (spec.nested depth) access name params tokens.old) result tokens.new }
{
    let definition = definition(alloc, tokens, depth)?;
    tokens.expect(TokenKind::Semicolon)?;
    let definition = definition.into_inner();
    Ok(Boxed::new(alloc, DeclKind::Pred(access, name, params, definition))?)
}

/// `on s nil = definition cons x t = definition ;`, after the parameters.
#[tactic(auto, unfolding(tht_grammar::specs::Reading::pred_on))]
fn pred_on(
    alloc: Global,
    tokens: &mut Tokens<'_>,
    depth: usize,
    access: Access,
    name: Name,
    params: Items<Param>,
) -> Result<Boxed<DeclKind>, Stop>
    ensures { Reads (spec.pred_on (spec.nested depth) access name params (rest tokens.old)) result tokens.new }
{
    tokens.advance();
    let subject = crate::names::name(alloc, tokens)?;
    tokens.expect(TokenKind::Nil)?;
    let empty = definition(alloc, tokens, depth)?;
    tokens.expect(TokenKind::Cons)?;
    let first = crate::names::name(alloc, tokens)?;
    let others = crate::names::name(alloc, tokens)?;
    let filled = definition(alloc, tokens, depth)?;
    tokens.expect(TokenKind::Semicolon)?;
    let (empty, filled) = (empty.into_inner(), filled.into_inner());
    let kind = DeclKind::PredOn(access, name, params, subject, empty, first, others, filled);
    Ok(Boxed::new(alloc, kind)?)
}

/// `txn head body`
#[tactic(auto, unfolding(tht_grammar::specs::Reading::txn))]
fn txn(alloc: Global, tokens: &mut Tokens<'_>, depth: usize) -> Result<Boxed<DeclKind>, Stop>
    ensures { Reads (spec.txn (spec.nested depth) (rest tokens.old)) result tokens.new }
{
    tokens.advance();
    let head = head(alloc, tokens, depth)?;
    let body = body(alloc, tokens, depth)?;
    Ok(Boxed::new(alloc, DeclKind::Txn(head, body))?)
}

/// `proc head body`
#[tactic(auto, unfolding(tht_grammar::specs::Reading::proc))]
fn proc(alloc: Global, tokens: &mut Tokens<'_>, depth: usize) -> Result<Boxed<DeclKind>, Stop>
    ensures { Reads (spec.proc (spec.nested depth) (rest tokens.old)) result tokens.new }
{
    tokens.advance();
    let head = head(alloc, tokens, depth)?;
    let body = body(alloc, tokens, depth)?;
    Ok(Boxed::new(alloc, DeclKind::Proc(head, body))?)
}

/// A declaration that stands at this spot, by its first word.
#[tactic(auto, unfolding(tht_grammar::specs::Reading::decl_kind))]
fn decl_kind(
    alloc: Global,
    tokens: &mut Tokens<'_>,
    depth: usize,
    spot: Spot,
) -> Result<Boxed<DeclKind>, Stop>
    ensures { Reads (spec.decl_kind (spec.nested depth) spot tokens.old) result tokens.new }
{
    match tokens.peek() {
        Some(TokenKind::Root) => root(alloc, tokens),
        Some(TokenKind::Invariant) => invariant(alloc, tokens, depth),
        Some(TokenKind::Shared) => {
            tokens.advance();
            pred(alloc, tokens, depth, Access::Shared)
        }
        Some(TokenKind::Pred) => pred(alloc, tokens, depth, Access::Private),
        Some(TokenKind::Lemma) => lemma(alloc, tokens, depth, spot),
        Some(TokenKind::Txn) => txn(alloc, tokens, depth),
        Some(TokenKind::Proc) => proc(alloc, tokens, depth),
        _ => Err(Stop::Fault(Fault::Unexpected)),
    }
}

/// A declaration.
#[tactic(auto, unfolding(tht_grammar::specs::Reading::decl))]
fn decl(alloc: Global, tokens: &mut Tokens<'_>, depth: usize) -> Result<Boxed<Decl>, Stop>
    ensures { Reads (spec.decl (spec.nested depth) tokens.old) result tokens.new }
{
    let spot = tokens.spot();
    let kind = decl_kind(alloc, tokens, depth, spot)?;
    let kind = kind.into_inner();
    Ok(Boxed::new(alloc, Decl { spot, kind })?)
}

/// Whether such a token begins a declaration.
fn begins_decl(kind: Option<TokenKind>) -> bool
    ensures { result ≡ starts_decl kind }
{
    matches!(
        kind,
        Some(
            TokenKind::Root
                | TokenKind::Invariant
                | TokenKind::Shared
                | TokenKind::Pred
                | TokenKind::Lemma
                | TokenKind::Txn
                | TokenKind::Proc
        )
    )
}

/// How many more roots may come after the declaration that begins here, or `None` where it is a root too many.
fn roots_after(tokens: &Tokens<'_>, room: usize) -> Option<usize>
    ensures { result ≡ room_after (is k.Root (first_kind tokens.now)) room }
{
    if tokens.sees(TokenKind::Root) {
        room.checked_sub(1)
    } else {
        Some(room)
    }
}

/// Declarations, at most 2,000, of which at most 256 are roots.
#[tactic(auto, using(crate::proofs::RootCounts::decls_none, crate::proofs::RootCounts::decls_full, crate::proofs::RootCounts::decls_over, crate::proofs::RootCounts::decls_err, crate::proofs::RootCounts::decls_step))]
pub fn decls(alloc: Global, tokens: &mut Tokens<'_>, depth: usize) -> Result<Items<Decl>, Stop>
    ensures { Reads (spec.decls (spec.nested depth) 2000 256 [] tokens.old) result tokens.new }
{
    let mut found = Items::new(alloc);
    let mut room = MAX_ROOTS;
    for _turn in 0..MAX_DECLS {
        if !begins_decl(tokens.peek()) {
            return Ok(found);
        }
        let Some(left) = roots_after(tokens, room) else {
            return Err(Stop::Fault(Fault::Many));
        };
        room = left;
        let declaration = decl(alloc, tokens, depth)?;
        let declaration = declaration.into_inner();
        found.push(declaration)?;
    }
    if begins_decl(tokens.peek()) {
        return Err(Stop::Fault(Fault::Many));
    }
    Ok(found)
}
