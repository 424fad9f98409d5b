// The tokens of declarations and of main.
ghost use Rattle.std.specs.Prelude.{◌≡◌, ◌∷◌, map, OnOk};
ghost use Rattle.tht_tree.specs.Layout as layout;
ghost use Rattle.tht_tree.specs.Layout.{name};
ghost use Rattle.tht_tree.specs.declared.token.TokenKind.TheVariants as k;
ghost use Rattle.tht_print.specs.Tokens.{tokens_of};

use crate::assn::{assn, boxed};
use crate::body::body;
use crate::give::by_give;
use crate::names::{listed, named, params, sorted};
use crate::tokens::Tokens;
use std::alloc::AllocError;
use tht_tree::assn::Assn;
use tht_tree::body::Body;
use tht_tree::decl::{Access, DeclKind, Head, Initial, Lemma, LemmaKind, Param};
use tht_tree::file::Main;
use tht_tree::give::Give;
use tht_tree::plain::{Name, Sort};
use tht_tree::token::TokenKind;

/// Puts a declaration before the tokens.
pub fn decl<'a>(d: &'a DeclKind, out: &mut Tokens<'a>) -> Result<(), AllocError>
    ensures { OnOk result (tokens_of out.new ≡ layout.decl d.now (tokens_of out.old)) }
{
    match d {
        DeclKind::Root(x, sort, value) => root(x, *sort, value, out),
        DeclKind::Invariant(a, g) => invariant(a, g, out),
        DeclKind::Pred(who, x, ps, a) => {
            definition(a, out)?;
            defining(*who, x, ps.as_slice(), out)
        }
        DeclKind::PredOn(who, x, ps, on, a, head, tail, b) => {
            case_of_cons((head, tail), b, out)?;
            case_of_nil(on, a, out)?;
            defining(*who, x, ps.as_slice(), out)
        }
        DeclKind::Lemma(lemma) => proved(lemma.get(), out),
        DeclKind::Txn(h, b) => command(TokenKind::Txn, h.get(), b.get(), out),
        DeclKind::Proc(h, b) => command(TokenKind::Proc, h.get(), b.get(), out),
    }
}

/// Puts main before the tokens.
pub fn main_command<'a>(m: &'a Main, out: &mut Tokens<'a>) -> Result<(), AllocError>
    ensures { OnOk result (tokens_of out.new ≡ layout.main m.now (tokens_of out.old)) }
{
    body(m.body.get(), out)?;
    boxed(&m.post, out)?;
    sorted(&m.result, m.sort, out)?;
    out.word(TokenKind::Main)
}

fn root<'a>(
    x: &'a Name,
    sort: Sort,
    value: &'a Initial,
    out: &mut Tokens<'a>,
) -> Result<(), AllocError>
    ensures { OnOk result (tokens_of out.new ≡ layout.◌▹◌ k.Root (layout.sorted x.now sort (layout.◌▹◌ k.Assign (layout.initial value.now (layout.◌▹◌ k.Semicolon (tokens_of out.old)))))) }
{
    out.word(TokenKind::Semicolon)?;
    initial(value, out)?;
    out.word(TokenKind::Assign)?;
    sorted(x, sort, out)?;
    out.word(TokenKind::Root)
}

fn initial<'a>(value: &'a Initial, out: &mut Tokens<'a>) -> Result<(), AllocError>
    ensures { OnOk result (tokens_of out.new ≡ layout.initial value.now (tokens_of out.old)) }
{
    match value {
        Initial::Num(n) => out.number(u128::from(*n)),
        Initial::True => out.word(TokenKind::True),
        Initial::False => out.word(TokenKind::False),
        Initial::Null => out.word(TokenKind::Null),
        Initial::Unit => {
            out.word(TokenKind::RParen)?;
            out.word(TokenKind::LParen)
        }
        Initial::Root(x) => out.name(x),
    }
}

fn invariant<'a>(a: &'a Assn, g: &'a Give, out: &mut Tokens<'a>) -> Result<(), AllocError>
    ensures { OnOk result (tokens_of out.new ≡ layout.◌▹◌ k.Invariant (layout.«box» a.now (layout.by_give g.now (layout.◌▹◌ k.Semicolon (tokens_of out.old))))) }
{
    out.word(TokenKind::Semicolon)?;
    by_give(g, out)?;
    boxed(a, out)?;
    out.word(TokenKind::Invariant)
}

// A predicate up to its parameters.
fn defining<'a>(
    who: Access,
    x: &'a Name,
    ps: &'a [Param],
    out: &mut Tokens<'a>,
) -> Result<(), AllocError>
    ensures { OnOk result (tokens_of out.new ≡ layout.defining who x.now ps.now (tokens_of out.old)) }
{
    params(ps, out)?;
    named(TokenKind::Pred, x, out)?;
    match who {
        Access::Private => Ok(()),
        Access::Shared => out.word(TokenKind::Shared),
    }
}

// A definition, and the end of its declaration.
fn definition<'a>(a: &'a Assn, out: &mut Tokens<'a>) -> Result<(), AllocError>
    ensures { OnOk result (tokens_of out.new ≡ layout.◌▹◌ k.Equal (layout.assn a.now (layout.◌▹◌ k.Semicolon (tokens_of out.old)))) }
{
    out.word(TokenKind::Semicolon)?;
    assn(a, out)?;
    out.word(TokenKind::Equal)
}

fn case_of_nil<'a>(on: &'a Name, a: &'a Assn, out: &mut Tokens<'a>) -> Result<(), AllocError>
    ensures { OnOk result (tokens_of out.new ≡ layout.◌▹◌ k.On (name on.now ∷ layout.◌▹◌ k.Nil (layout.◌▹◌ k.Equal (layout.assn a.now (tokens_of out.old))))) }
{
    assn(a, out)?;
    out.word(TokenKind::Equal)?;
    out.word(TokenKind::Nil)?;
    named(TokenKind::On, on, out)
}

fn case_of_cons<'a>(
    names: (&'a Name, &'a Name),
    a: &'a Assn,
    out: &mut Tokens<'a>,
) -> Result<(), AllocError>
    ensures { OnOk result (tokens_of out.new ≡ layout.◌▹◌ k.Cons (name names.entry.0.now ∷ name names.entry.1.now ∷ layout.◌▹◌ k.Equal (layout.assn a.now (layout.◌▹◌ k.Semicolon (tokens_of out.old))))) }
{
    definition(a, out)?;
    out.name(names.1)?;
    named(TokenKind::Cons, names.0, out)
}

fn proved<'a>(lemma: &'a Lemma, out: &mut Tokens<'a>) -> Result<(), AllocError>
    ensures { OnOk result (tokens_of out.new ≡ layout.◌▹◌ k.Lemma (name lemma.now.name ∷ layout.params lemma.now.params (layout.lemma_by lemma.now lemma.now.kind (tokens_of out.old)))) }
{
    lemma_by(lemma, out)?;
    params(lemma.params.as_slice(), out)?;
    named(TokenKind::Lemma, &lemma.name, out)
}

fn lemma_by<'a>(lemma: &'a Lemma, out: &mut Tokens<'a>) -> Result<(), AllocError>
    ensures { OnOk result (tokens_of out.new ≡ layout.lemma_by lemma.now lemma.now.kind (tokens_of out.old)) }
{
    match &lemma.kind {
        LemmaKind::Plain(b) => {
            body(b.get(), out)?;
            boxes(&lemma.pre, &lemma.post, out)
        }
        LemmaKind::OnSeq(on, b, head, tail, c) => {
            for_cons((head, tail), c.get(), out)?;
            body(b.get(), out)?;
            on_parameter(lemma, on, TokenKind::Nil, out)
        }
        LemmaKind::OnNat(on, b, less, c) => {
            for_next(less, c.get(), out)?;
            body(b.get(), out)?;
            on_parameter(lemma, on, TokenKind::Zero, out)
        }
    }
}

fn boxes<'a>(pre: &'a Assn, post: &'a Assn, out: &mut Tokens<'a>) -> Result<(), AllocError>
    ensures { OnOk result (tokens_of out.new ≡ layout.«box» pre.now (layout.«box» post.now (tokens_of out.old))) }
{
    boxed(post, out)?;
    boxed(pre, out)
}

// The parameter that a lemma goes by cases on, its boxes, and the word of the first case.
fn on_parameter<'a>(
    lemma: &'a Lemma,
    on: &'a Name,
    word: TokenKind,
    out: &mut Tokens<'a>,
) -> Result<(), AllocError>
    ensures { OnOk result (tokens_of out.new ≡ layout.◌▹◌ k.On (name on.now ∷ layout.«box» lemma.now.pre (layout.«box» lemma.now.post (layout.◌▹◌ word (tokens_of out.old))))) }
{
    out.word(word)?;
    boxes(&lemma.pre, &lemma.post, out)?;
    named(TokenKind::On, on, out)
}

fn for_cons<'a>(
    names: (&'a Name, &'a Name),
    b: &'a Body,
    out: &mut Tokens<'a>,
) -> Result<(), AllocError>
    ensures { OnOk result (tokens_of out.new ≡ layout.◌▹◌ k.Cons (name names.entry.0.now ∷ name names.entry.1.now ∷ layout.body b.now (tokens_of out.old))) }
{
    body(b, out)?;
    out.name(names.1)?;
    named(TokenKind::Cons, names.0, out)
}

fn for_next<'a>(less: &'a Name, b: &'a Body, out: &mut Tokens<'a>) -> Result<(), AllocError>
    ensures { OnOk result (tokens_of out.new ≡ layout.◌▹◌ k.Next (name less.now ∷ layout.body b.now (tokens_of out.old))) }
{
    body(b, out)?;
    named(TokenKind::Next, less, out)
}

fn command<'a>(
    word: TokenKind,
    h: &'a Head,
    b: &'a Body,
    out: &mut Tokens<'a>,
) -> Result<(), AllocError>
    ensures { OnOk result (tokens_of out.new ≡ layout.◌▹◌ word (layout.head h.now (layout.body b.now (tokens_of out.old)))) }
{
    body(b, out)?;
    head(h, out)?;
    out.word(word)
}

fn head<'a>(h: &'a Head, out: &mut Tokens<'a>) -> Result<(), AllocError>
    ensures { OnOk result (tokens_of out.new ≡ layout.head h.now (tokens_of out.old)) }
{
    boxed(&h.post, out)?;
    sorted(&h.result, h.sort, out)?;
    boxed(&h.pre, out)?;
    out.word(TokenKind::RBracket)?;
    listed(h.logic.as_slice(), out)?;
    out.word(TokenKind::LBracket)?;
    params(h.params.as_slice(), out)?;
    out.name(&h.name)
}
