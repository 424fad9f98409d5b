//! Bodies: statements and ends.
ghost use Rattle.std.specs.Prelude.{◌≡◌};
ghost use Rattle.tht_tree.specs.Tokens.{first_kind};
ghost use Rattle.tht_tree.specs.Grammar.{a_body};
ghost use Rattle.tht_grammar.specs.Steps.{rest};
ghost use Rattle.tht_grammar.specs.Reading as spec;
ghost use Rattle.tht_parse.specs.Bodies.{par_blocks};
ghost use Rattle.tht_parse.specs.Readings.{Reads};

use crate::arguments::bracketed;
use crate::assns::braced;
use crate::cursor::Tokens;
use crate::lists::{nums, param};
use crate::names::{name, number, sort};
use crate::nesting::{Construct, enter};
use crate::proofs::proof;
use crate::statements::{OfCell, alloc_cells, at_cell, begins_stmt, call, read, step, write};
use crate::steps::by_give;
use crate::stop::{Fault, Stop};
use crate::terms::term;
use sqlite_items::{Boxed, Items};
use std::alloc::Global;
use tht_tree::assn::Assn;
use tht_tree::body::{Body, End, EndKind, Stmt, StmtKind};
use tht_tree::decl::Param;
use tht_tree::plain::{Name, Sort};
use tht_tree::token::TokenKind;

/// `"{" { stmt ";" }* end "}"`, inside the constructs that are open, of which `depth` more may be.
#[cycle(bodies)]
#[tactic(auto, unfolding(tht_grammar::specs::Reading::body))]
pub fn body(alloc: Global, tokens: &mut Tokens<'_>, depth: usize) -> Result<Boxed<Body>, Stop>
    ensures { Reads (spec.nested depth a_body tokens.old) result tokens.new }
{
    let less = enter(tokens, Construct::Body, depth)?;
    tokens.expect(TokenKind::LBrace)?;
    let stmts = statements(alloc, tokens, less)?;
    let end = end(alloc, tokens, less)?;
    tokens.expect(TokenKind::RBrace)?;
    let end = end.into_inner();
    Ok(Boxed::new(alloc, Body { stmts, end })?)
}

/// `{ stmt ";" }*`
#[cycle(bodies)]
#[tactic(auto, using(crate::proofs::Entries::repeat_none, crate::proofs::Entries::repeat_end, crate::proofs::Entries::repeat_step, crate::proofs::Entries::repeat_err), unfolding(tht_grammar::specs::Reading::stmts))]
fn statements(alloc: Global, tokens: &mut Tokens<'_>, depth: usize) -> Result<Items<Stmt>, Stop>
    ensures { Reads (spec.stmts (spec.nested depth) tokens.old) result tokens.new }
{
    let mut found = Items::new(alloc);
    for _turn in 0..tokens.len() {
        if !begins_stmt(tokens.peek()) {
            return Ok(found);
        }
        let statement = ended(alloc, tokens, depth)?;
        let statement = statement.into_inner();
        found.push(statement)?;
    }
    Ok(found)
}

/// A statement and a semicolon.
#[cycle(bodies)]
#[tactic(auto, unfolding(tht_grammar::specs::Reading::ended))]
fn ended(alloc: Global, tokens: &mut Tokens<'_>, depth: usize) -> Result<Boxed<Stmt>, Stop>
    ensures { Reads (spec.ended (spec.nested depth) tokens.old) result tokens.new }
{
    let spot = tokens.spot();
    let kind = stmt_kind(alloc, tokens, depth)?;
    tokens.expect(TokenKind::Semicolon)?;
    let kind = kind.into_inner();
    Ok(Boxed::new(alloc, Stmt { spot, kind })?)
}

/// A statement, by its first token.
#[cycle(bodies)]
#[tactic(auto, unfolding(tht_grammar::specs::Reading::stmt_kind))]
fn stmt_kind(alloc: Global, tokens: &mut Tokens<'_>, depth: usize) -> Result<Boxed<StmtKind>, Stop>
    ensures { Reads (spec.stmt_kind (spec.nested depth) tokens.old) result tokens.new }
{
    match tokens.peek() {
        Some(TokenKind::Name) => bound(alloc, tokens, depth),
        Some(TokenKind::LParen) => par(alloc, tokens, depth),
        Some(TokenKind::Write) => write(alloc, tokens, depth),
        Some(TokenKind::Free) => at_cell(alloc, tokens, depth, OfCell::Free),
        Some(TokenKind::Publish) => at_cell(alloc, tokens, depth, OfCell::Publish),
        Some(TokenKind::Retract) => at_cell(alloc, tokens, depth, OfCell::Retract),
        _ => step(alloc, tokens, depth),
    }
}

/// A statement that begins with a name.
#[cycle(bodies)]
#[tactic(auto, unfolding(tht_grammar::specs::Reading::bound))]
fn bound(alloc: Global, tokens: &mut Tokens<'_>, depth: usize) -> Result<Boxed<StmtKind>, Stop>
    ensures { Reads (spec.bound (spec.nested depth) tokens.old) result tokens.new }
{
    let bound = name(alloc, tokens)?;
    match tokens.peek() {
        Some(TokenKind::Colon) => typed(alloc, tokens, depth, bound),
        Some(TokenKind::LeftArrow) => made(alloc, tokens, depth, bound),
        _ => Err(Stop::Fault(Fault::Unexpected)),
    }
}

/// `: sort <-` and a statement, after the name of its result.
#[cycle(bodies)]
#[tactic(auto, unfolding(tht_grammar::specs::Reading::typed))]
fn typed(
    alloc: Global,
    tokens: &mut Tokens<'_>,
    depth: usize,
    bound: Name,
) -> Result<Boxed<StmtKind>, Stop>
    ensures { Reads (spec.typed (spec.nested depth) bound (rest tokens.old)) result tokens.new }
{
    tokens.advance();
    let sort = sort(tokens)?;
    tokens.expect(TokenKind::LeftArrow)?;
    match tokens.peek() {
        Some(TokenKind::Read) => read(alloc, tokens, depth, bound, sort),
        Some(TokenKind::Do) => do_block(alloc, tokens, depth, bound, sort),
        Some(TokenKind::Atomic) => atomic(alloc, tokens, depth, bound, sort),
        _ => Err(Stop::Fault(Fault::Unexpected)),
    }
}

/// `<- alloc ..` or `<- call ..`, after the name of the result.
fn made(
    alloc: Global,
    tokens: &mut Tokens<'_>,
    depth: usize,
    bound: Name,
) -> Result<Boxed<StmtKind>, Stop>
    ensures { Reads (spec.made_by (spec.nested depth) bound (first_kind (rest tokens.old)) (rest tokens.old)) result tokens.new }
{
    tokens.advance();
    match tokens.peek() {
        Some(TokenKind::Alloc) => alloc_cells(alloc, tokens, depth, bound),
        Some(TokenKind::Call) => call(alloc, tokens, depth, bound),
        _ => Err(Stop::Fault(Fault::Unexpected)),
    }
}

/// `do (atom, ..) body {box}`, after `x : sort <-`.
#[cycle(bodies)]
#[tactic(auto, unfolding(tht_grammar::specs::Reading::do_block))]
fn do_block(
    alloc: Global,
    tokens: &mut Tokens<'_>,
    depth: usize,
    bound: Name,
    sort: Sort,
) -> Result<Boxed<StmtKind>, Stop>
    ensures { Reads (spec.do_block (spec.nested depth) bound sort (rest tokens.old)) result tokens.new }
{
    tokens.advance();
    let (atoms, (body, post)) = block(alloc, tokens, depth)?;
    let post = post.into_inner();
    let kind = StmtKind::Do(bound, sort, atoms, body, post);
    Ok(Boxed::new(alloc, kind)?)
}

/// `atomic (atom, ..) body {box}`, after `x : sort <-`.
#[cycle(bodies)]
#[tactic(auto, unfolding(tht_grammar::specs::Reading::atomic))]
fn atomic(
    alloc: Global,
    tokens: &mut Tokens<'_>,
    depth: usize,
    bound: Name,
    sort: Sort,
) -> Result<Boxed<StmtKind>, Stop>
    ensures { Reads (spec.atomic (spec.nested depth) bound sort (rest tokens.old)) result tokens.new }
{
    tokens.advance();
    let (atoms, (body, post)) = block(alloc, tokens, depth)?;
    let post = post.into_inner();
    let kind = StmtKind::Atomic(bound, sort, atoms, body, post);
    Ok(Boxed::new(alloc, kind)?)
}

/// `(x : sort, y : sort) <- par` and two blocks.
#[cycle(bodies)]
#[tactic(auto, unfolding(tht_grammar::specs::Reading::par, crate::specs::Bodies::par_blocks))]
fn par(alloc: Global, tokens: &mut Tokens<'_>, depth: usize) -> Result<Boxed<StmtKind>, Stop>
    ensures { Reads (spec.par (spec.nested depth) (rest tokens.old)) result tokens.new }
{
    tokens.advance();
    let first = param(alloc, tokens)?;
    tokens.expect(TokenKind::Comma)?;
    let second = param(alloc, tokens)?;
    tokens.expect(TokenKind::RParen)?;
    tokens.expect(TokenKind::LeftArrow)?;
    tokens.expect(TokenKind::Par)?;
    branches(alloc, tokens, depth, first, second)
}

/// The two blocks of `par`, after its results.
#[cycle(bodies)]
#[tactic(auto, unfolding(crate::specs::Bodies::par_blocks))]
fn branches(
    alloc: Global,
    tokens: &mut Tokens<'_>,
    depth: usize,
    first: Param,
    second: Param,
) -> Result<Boxed<StmtKind>, Stop>
    ensures { Reads (par_blocks (spec.nested depth) first second tokens.old) result tokens.new }
{
    let (atoms, (body, post)) = block(alloc, tokens, depth)?;
    let (other_atoms, (other_body, other_post)) = block(alloc, tokens, depth)?;
    let (post, other_post) = (post.into_inner(), other_post.into_inner());
    let kind = StmtKind::Par(
        first.name,
        first.sort,
        second.name,
        second.sort,
        atoms,
        body,
        post,
        other_atoms,
        other_body,
        other_post,
    );
    Ok(Boxed::new(alloc, kind)?)
}

/// What a block takes, its body and its box.
type Block = (Items<u64>, (Boxed<Body>, Boxed<Assn>));

/// `(atom, ..) body {box}`
#[cycle(bodies)]
#[tactic(auto, unfolding(tht_grammar::specs::Reading::block))]
fn block(alloc: Global, tokens: &mut Tokens<'_>, depth: usize) -> Result<Block, Stop>
    ensures { Reads (spec.block (spec.nested depth) tokens.old) result tokens.new }
{
    let atoms = nums(alloc, tokens)?;
    let body = body(alloc, tokens, depth)?;
    let post = braced(alloc, tokens, depth)?;
    Ok((atoms, (body, post)))
}

/// An end.
#[cycle(bodies)]
#[tactic(auto, unfolding(tht_grammar::specs::Reading::end))]
fn end(alloc: Global, tokens: &mut Tokens<'_>, depth: usize) -> Result<Boxed<End>, Stop>
    ensures { Reads (spec.end (spec.nested depth) tokens.old) result tokens.new }
{
    let spot = tokens.spot();
    let kind = end_kind(alloc, tokens, depth)?;
    let kind = kind.into_inner();
    Ok(Boxed::new(alloc, End { spot, kind })?)
}

/// An end, by its first word.
#[cycle(bodies)]
#[tactic(auto, unfolding(tht_grammar::specs::Reading::end_kind))]
fn end_kind(alloc: Global, tokens: &mut Tokens<'_>, depth: usize) -> Result<Boxed<EndKind>, Stop>
    ensures { Reads (spec.end_kind (spec.nested depth) tokens.old) result tokens.new }
{
    match tokens.peek() {
        Some(TokenKind::Ret) => ret(alloc, tokens, depth),
        Some(TokenKind::If) => if_else(alloc, tokens, depth),
        Some(TokenKind::Case) => case(alloc, tokens, depth),
        Some(TokenKind::Dead) => dead(alloc, tokens, depth),
        _ => Err(Stop::Fault(Fault::Unexpected)),
    }
}

/// `ret value by give`
#[tactic(auto, unfolding(tht_grammar::specs::Reading::ret))]
fn ret(alloc: Global, tokens: &mut Tokens<'_>, depth: usize) -> Result<Boxed<EndKind>, Stop>
    ensures { Reads (spec.ret (spec.nested depth) (rest tokens.old)) result tokens.new }
{
    tokens.advance();
    let value = term(alloc, tokens, depth)?;
    let give = by_give(alloc, tokens, depth)?;
    let give = give.into_inner();
    Ok(Boxed::new(alloc, EndKind::Ret(value, give))?)
}

/// `if t as h body else body`
#[cycle(bodies)]
#[tactic(auto, unfolding(tht_grammar::specs::Reading::if_else))]
fn if_else(alloc: Global, tokens: &mut Tokens<'_>, depth: usize) -> Result<Boxed<EndKind>, Stop>
    ensures { Reads (spec.if_else (spec.nested depth) (rest tokens.old)) result tokens.new }
{
    tokens.advance();
    let condition = term(alloc, tokens, depth)?;
    tokens.expect(TokenKind::As)?;
    let hyp = name(alloc, tokens)?;
    let first = body(alloc, tokens, depth)?;
    tokens.expect(TokenKind::Else)?;
    let second = body(alloc, tokens, depth)?;
    Ok(Boxed::new(alloc, EndKind::If(condition, hyp, first, second))?)
}

/// `case`, by the token after it.
#[cycle(bodies)]
fn case(alloc: Global, tokens: &mut Tokens<'_>, depth: usize) -> Result<Boxed<EndKind>, Stop>
    ensures { Reads (spec.case_by (spec.nested depth) (first_kind (rest tokens.old)) (rest tokens.old)) result tokens.new }
{
    tokens.advance();
    match tokens.peek() {
        Some(TokenKind::Num) => case_atom(alloc, tokens, depth),
        Some(TokenKind::LBracket) => case_bool(alloc, tokens, depth),
        Some(TokenKind::Seq) => case_seq(alloc, tokens, depth),
        _ => Err(Stop::Fault(Fault::Unexpected)),
    }
}

/// `i body body`, after `case`.
#[cycle(bodies)]
#[tactic(auto, unfolding(tht_grammar::specs::Reading::case_atom))]
fn case_atom(alloc: Global, tokens: &mut Tokens<'_>, depth: usize) -> Result<Boxed<EndKind>, Stop>
    ensures { Reads (spec.case_atom (spec.nested depth) tokens.old) result tokens.new }
{
    let atom = number(tokens)?;
    let first = body(alloc, tokens, depth)?;
    let second = body(alloc, tokens, depth)?;
    Ok(Boxed::new(alloc, EndKind::CaseAtom(atom, first, second))?)
}

/// `[t] as h body body`, after `case`.
#[cycle(bodies)]
#[tactic(auto, unfolding(tht_grammar::specs::Reading::case_bool))]
fn case_bool(alloc: Global, tokens: &mut Tokens<'_>, depth: usize) -> Result<Boxed<EndKind>, Stop>
    ensures { Reads (spec.case_bool (spec.nested depth) tokens.old) result tokens.new }
{
    let condition = bracketed(alloc, tokens, depth)?;
    tokens.expect(TokenKind::As)?;
    let hyp = name(alloc, tokens)?;
    let first = body(alloc, tokens, depth)?;
    let second = body(alloc, tokens, depth)?;
    Ok(Boxed::new(alloc, EndKind::CaseBool(condition, hyp, first, second))?)
}

/// `seq t as h body x s body`, after `case`.
#[cycle(bodies)]
#[tactic(auto, unfolding(tht_grammar::specs::Reading::case_seq))]
fn case_seq(alloc: Global, tokens: &mut Tokens<'_>, depth: usize) -> Result<Boxed<EndKind>, Stop>
    ensures { Reads (spec.case_seq (spec.nested depth) (rest tokens.old)) result tokens.new }
{
    tokens.advance();
    let subject = term(alloc, tokens, depth)?;
    tokens.expect(TokenKind::As)?;
    let hyp = name(alloc, tokens)?;
    let first = body(alloc, tokens, depth)?;
    let head = name(alloc, tokens)?;
    let tail = name(alloc, tokens)?;
    let second = body(alloc, tokens, depth)?;
    let kind = EndKind::CaseSeq(subject, hyp, first, head, tail, second);
    Ok(Boxed::new(alloc, kind)?)
}

/// `dead proof body`
#[cycle(bodies)]
#[tactic(auto, unfolding(tht_grammar::specs::Reading::dead))]
fn dead(alloc: Global, tokens: &mut Tokens<'_>, depth: usize) -> Result<Boxed<EndKind>, Stop>
    ensures { Reads (spec.dead (spec.nested depth) (rest tokens.old)) result tokens.new }
{
    tokens.advance();
    let proof = proof(alloc, tokens, depth)?;
    let body = body(alloc, tokens, depth)?;
    let proof = proof.into_inner();
    Ok(Boxed::new(alloc, EndKind::Dead(proof, body))?)
}
