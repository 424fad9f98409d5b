// The tokens of bodies.
ghost use Rattle.std.specs.Prelude.{◌≡◌, ◌∷◌, map, OnOk};
ghost use Rattle.tht_tree.specs.Layout as layout;
ghost use Rattle.tht_tree.specs.Layout.{name, number};
ghost use Rattle.tht_tree.specs.declared.token.TokenKind.TheVariants as k;
ghost use Rattle.tht_print.specs.Parts.{end_kind, stmt, stmt_kind};
ghost use Rattle.tht_print.specs.Tokens.{tokens_of};

use crate::assn::boxed;
use crate::give::by_give;
use crate::names::{named, numbered, numbers, sorted};
use crate::proof::{by_proof, proof};
use crate::step::step;
use crate::term::{after_word, arguments, listed, off, over, term};
use crate::tokens::Tokens;
use std::alloc::AllocError;
use tht_tree::assn::Assn;
use tht_tree::body::{Body, EndKind, Stmt, StmtKind};
use tht_tree::give::Give;
use tht_tree::plain::{Name, Sort};
use tht_tree::proof::Proof;
use tht_tree::term::Term;
use tht_tree::token::TokenKind;

/// Puts a body before the tokens.
#[cycle(body)]
#[tactic(auto, unfolding(tht_tree::specs::Layout::body, crate::specs::Parts::end, crate::specs::Parts::end_kind, crate::specs::Parts::stmt))]
pub fn body<'a>(b: &'a Body, out: &mut Tokens<'a>) -> Result<(), AllocError>
    ensures { OnOk result (tokens_of out.new ≡ layout.body b.now (tokens_of out.old)) }
{
    out.word(TokenKind::RBrace)?;
    end(&b.end.kind, out)?;
    stmts(b.stmts.as_slice(), out)?;
    out.word(TokenKind::LBrace)
}

// Statements, each with its `;`.
#[cycle(body)]
#[tactic(auto, using(crate::proofs::Lists::ended_last, crate::proofs::Lists::most_last))]
fn stmts<'a>(stmts: &'a [Stmt], out: &mut Tokens<'a>) -> Result<(), AllocError>
    ensures { OnOk result (tokens_of out.new ≡ layout.ended (map stmt stmts.now) (tokens_of out.old)) }
{
    let mut rest = stmts;
    while let Some((s, front)) = rest.split_last() {
        out.word(TokenKind::Semicolon)?;
        stmt(s, out)?;
        rest = front;
    }
    Ok(())
}

#[cycle(body)]
#[tactic(auto, unfolding(crate::specs::Parts::stmt, crate::specs::Parts::stmt_kind))]
fn stmt<'a>(s: &'a Stmt, out: &mut Tokens<'a>) -> Result<(), AllocError>
    ensures { OnOk result (tokens_of out.new ≡ stmt s.now (tokens_of out.old)) }
{
    form(&s.kind, out)
}

#[cycle(body)]
#[tactic(auto, unfolding(tht_tree::specs::Layout::body, crate::specs::Parts::stmt_kind))]
fn form<'a>(s: &'a StmtKind, out: &mut Tokens<'a>) -> Result<(), AllocError>
    ensures { OnOk result (tokens_of out.new ≡ stmt_kind s.now (tokens_of out.old)) }
{
    match s {
        StmtKind::Read(x, sort, place, n, h, q) => {
            read(place.get(), *n, h, q, out)?;
            assigned(x, *sort, TokenKind::Read, out)
        }
        StmtKind::Write(place, value, n, q) => write_cell(place.get(), value.get(), *n, q, out),
        StmtKind::Alloc(x, ts) => {
            arguments(ts.as_slice(), out)?;
            bound(x, TokenKind::Alloc, out)
        }
        StmtKind::Free(place, n, q) => change(TokenKind::Free, place.get(), *n, q, out),
        StmtKind::Publish(place, n, q) => change(TokenKind::Publish, place.get(), *n, q, out),
        StmtKind::Retract(place, n, q) => change(TokenKind::Retract, place.get(), *n, q, out),
        StmtKind::Call(x, f, ts, us, g) => {
            call(f, ts.as_slice(), us.as_slice(), g, out)?;
            bound(x, TokenKind::Call, out)
        }
        StmtKind::Do(x, sort, is, b, post) => {
            block(b.get(), is.as_slice(), post, out)?;
            assigned(x, *sort, TokenKind::Do, out)
        }
        StmtKind::Atomic(x, sort, is, b, post) => {
            block(b.get(), is.as_slice(), post, out)?;
            assigned(x, *sort, TokenKind::Atomic, out)
        }
        StmtKind::Par(x, sort, y, other, is, b, post, js, c, last) => {
            block(c.get(), js.as_slice(), last, out)?;
            block(b.get(), is.as_slice(), post, out)?;
            forked((x, *sort), (y, *other), out)
        }
        StmtKind::Proof(s) => step(&s.kind, out),
    }
}

// What a statement gives a name with a sort, up to its first word.
fn assigned<'a>(
    x: &'a Name,
    sort: Sort,
    word: TokenKind,
    out: &mut Tokens<'a>,
) -> Result<(), AllocError>
    ensures { OnOk result (tokens_of out.new ≡ layout.sorted x.now sort (layout.◌▹◌ k.LeftArrow (layout.◌▹◌ word (tokens_of out.old)))) }
{
    out.word(word)?;
    out.word(TokenKind::LeftArrow)?;
    sorted(x, sort, out)
}

// The same of a name alone.
fn bound<'a>(x: &'a Name, word: TokenKind, out: &mut Tokens<'a>) -> Result<(), AllocError>
    ensures { OnOk result (tokens_of out.new ≡ name x.now ∷ layout.◌▹◌ k.LeftArrow (layout.◌▹◌ word (tokens_of out.old))) }
{
    out.word(word)?;
    out.word(TokenKind::LeftArrow)?;
    out.name(x)
}

// The same of two names in parentheses, before `par`.
fn forked<'a>(
    x: (&'a Name, Sort),
    y: (&'a Name, Sort),
    out: &mut Tokens<'a>,
) -> Result<(), AllocError>
    ensures { OnOk result (tokens_of out.new ≡ layout.◌▹◌ k.LParen (layout.sorted x.entry.0.now x.entry.1 (layout.◌▹◌ k.Comma (layout.sorted y.entry.0.now y.entry.1 (layout.◌▹◌ k.RParen (layout.◌▹◌ k.LeftArrow (layout.◌▹◌ k.Par (tokens_of out.old)))))))) }
{
    out.word(TokenKind::Par)?;
    out.word(TokenKind::LeftArrow)?;
    out.word(TokenKind::RParen)?;
    sorted(y.0, y.1, out)?;
    out.word(TokenKind::Comma)?;
    sorted(x.0, x.1, out)?;
    out.word(TokenKind::LParen)
}

fn read<'a>(
    place: &'a Term,
    n: u64,
    h: &'a Name,
    q: &'a Proof,
    out: &mut Tokens<'a>,
) -> Result<(), AllocError>
    ensures { OnOk result (tokens_of out.new ≡ layout.term place.now (layout.◌▹◌ k.At (number n ∷ layout.◌▹◌ k.As (name h.now ∷ layout.by_proof q.now (tokens_of out.old))))) }
{
    by_proof(q, out)?;
    named(TokenKind::As, h, out)?;
    numbered(TokenKind::At, n, out)?;
    term(place, out)
}

fn at_cell<'a>(n: u64, q: &'a Proof, out: &mut Tokens<'a>) -> Result<(), AllocError>
    ensures { OnOk result (tokens_of out.new ≡ layout.at_cell n q.now (tokens_of out.old)) }
{
    by_proof(q, out)?;
    numbered(TokenKind::At, n, out)
}

fn write_cell<'a>(
    place: &'a Term,
    value: &'a Term,
    n: u64,
    q: &'a Proof,
    out: &mut Tokens<'a>,
) -> Result<(), AllocError>
    ensures { OnOk result (tokens_of out.new ≡ layout.◌▹◌ k.Write (layout.off place.now (layout.off value.now (layout.at_cell n q.now (tokens_of out.old))))) }
{
    at_cell(n, q, out)?;
    off(value, out)?;
    off(place, out)?;
    out.word(TokenKind::Write)
}

// A word, a place, and the cell there.
fn change<'a>(
    word: TokenKind,
    place: &'a Term,
    n: u64,
    q: &'a Proof,
    out: &mut Tokens<'a>,
) -> Result<(), AllocError>
    ensures { OnOk result (tokens_of out.new ≡ layout.◌▹◌ word (layout.term place.now (layout.at_cell n q.now (tokens_of out.old)))) }
{
    at_cell(n, q, out)?;
    after_word(word, place, out)
}

fn call<'a>(
    f: &'a Name,
    ts: &'a [Term],
    us: &'a [Term],
    g: &'a Give,
    out: &mut Tokens<'a>,
) -> Result<(), AllocError>
    ensures { OnOk result (tokens_of out.new ≡ name f.now ∷ layout.arguments ts.now (layout.brackets (layout.commas (map layout.term us.now)) (layout.by_give g.now (tokens_of out.old)))) }
{
    by_give(g, out)?;
    out.word(TokenKind::RBracket)?;
    listed(us, out)?;
    out.word(TokenKind::LBracket)?;
    arguments(ts, out)?;
    out.name(f)
}

// The atoms that a block takes, its body and its box.
#[cycle(body)]
fn block<'a>(
    b: &'a Body,
    is: &'a [u64],
    post: &'a Assn,
    out: &mut Tokens<'a>,
) -> Result<(), AllocError>
    ensures { OnOk result (tokens_of out.new ≡ layout.block is.now (layout.body b.now) post.now (tokens_of out.old)) }
{
    boxed(post, out)?;
    body(b, out)?;
    numbers(is, out)
}

#[cycle(body)]
#[tactic(auto, unfolding(tht_tree::specs::Layout::body, crate::specs::Parts::end_kind))]
fn end<'a>(e: &'a EndKind, out: &mut Tokens<'a>) -> Result<(), AllocError>
    ensures { OnOk result (tokens_of out.new ≡ end_kind e.now (tokens_of out.old)) }
{
    match e {
        EndKind::Ret(t, g) => {
            by_give(g, out)?;
            after_word(TokenKind::Ret, t.get(), out)
        }
        EndKind::If(t, h, b, c) => choice(t.get(), h, b.get(), c.get(), out),
        EndKind::CaseAtom(n, b, c) => {
            bodies(b.get(), c.get(), out)?;
            numbered(TokenKind::Case, *n, out)
        }
        EndKind::CaseBool(t, h, b, c) => {
            bodies(b.get(), c.get(), out)?;
            named(TokenKind::As, h, out)?;
            over(TokenKind::Case, t.get(), out)
        }
        EndKind::CaseSeq(t, h, b, x, s, c) => {
            sequence(b.get(), (x, s), c.get(), out)?;
            named(TokenKind::As, h, out)?;
            after_case(t.get(), out)
        }
        EndKind::Dead(q, b) => dead(q, b.get(), out),
    }
}

#[cycle(body)]
fn bodies<'a>(b: &'a Body, c: &'a Body, out: &mut Tokens<'a>) -> Result<(), AllocError>
    ensures { OnOk result (tokens_of out.new ≡ layout.body b.now (layout.body c.now (tokens_of out.old))) }
{
    body(c, out)?;
    body(b, out)
}

#[cycle(body)]
fn choice<'a>(
    t: &'a Term,
    h: &'a Name,
    b: &'a Body,
    c: &'a Body,
    out: &mut Tokens<'a>,
) -> Result<(), AllocError>
    ensures { OnOk result (tokens_of out.new ≡ layout.◌▹◌ k.If (layout.term t.now (layout.◌▹◌ k.As (name h.now ∷ layout.body b.now (layout.◌▹◌ k.Else (layout.body c.now (tokens_of out.old))))))) }
{
    body(c, out)?;
    out.word(TokenKind::Else)?;
    body(b, out)?;
    named(TokenKind::As, h, out)?;
    after_word(TokenKind::If, t, out)
}

// The bodies for `nil`, and for a head and a tail with these names.
#[cycle(body)]
fn sequence<'a>(
    b: &'a Body,
    names: (&'a Name, &'a Name),
    c: &'a Body,
    out: &mut Tokens<'a>,
) -> Result<(), AllocError>
    ensures { OnOk result (tokens_of out.new ≡ layout.body b.now (name names.entry.0.now ∷ name names.entry.1.now ∷ layout.body c.now (tokens_of out.old))) }
{
    body(c, out)?;
    out.name(names.1)?;
    out.name(names.0)?;
    body(b, out)
}

fn after_case<'a>(t: &'a Term, out: &mut Tokens<'a>) -> Result<(), AllocError>
    ensures { OnOk result (tokens_of out.new ≡ layout.◌▹◌ k.Case (layout.◌▹◌ k.Seq (layout.term t.now (tokens_of out.old)))) }
{
    after_word(TokenKind::Seq, t, out)?;
    out.word(TokenKind::Case)
}

#[cycle(body)]
fn dead<'a>(q: &'a Proof, b: &'a Body, out: &mut Tokens<'a>) -> Result<(), AllocError>
    ensures { OnOk result (tokens_of out.new ≡ layout.◌▹◌ k.Dead (layout.proof q.now (layout.body b.now (tokens_of out.old)))) }
{
    body(b, out)?;
    proof(q, out)?;
    out.word(TokenKind::Dead)
}
