//! Statements that have no body inside.
ghost use Rattle.std.specs.Prelude.{◌≡◌, []};
ghost use Rattle.tht_tree.specs.Grammar.{a_term};
ghost use Rattle.tht_grammar.specs.Words.{begins_stmt as starts_stmt, begins_term as starts_term};
ghost use Rattle.tht_grammar.specs.Steps.{rest, entries};
ghost use Rattle.tht_grammar.specs.Reading as spec;
ghost use Rattle.tht_parse.specs.Statements.{at_number, of_cell};
ghost use Rattle.tht_parse.specs.Readings.{Reads};

use crate::arguments::{arguments, some_terms, terms};
use crate::cursor::Tokens;
use crate::names::{name, number};
use crate::steps::{by_give, by_proof, step_kind};
use crate::stop::Stop;
use crate::terms::{off, term};
use sqlite_items::{Boxed, Items};
use std::alloc::Global;
use tht_tree::body::{Cells, StmtKind};
use tht_tree::plain::{Name, Sort};
use tht_tree::proof::Proof;
use tht_tree::step::Step;
use tht_tree::term::Term;
use tht_tree::token::TokenKind;

/// How many cells `alloc` may make.
const MAX_CELLS: usize = 8;

/// Whether such a token begins a statement.
pub fn begins_stmt(kind: Option<TokenKind>) -> bool
    ensures { result ≡ starts_stmt kind }
{
    matches!(
        kind,
        Some(
            TokenKind::Name
                | TokenKind::LParen
                | TokenKind::Write
                | TokenKind::Free
                | TokenKind::Publish
                | TokenKind::Retract
                | TokenKind::Have
                | TokenKind::Open
                | TokenKind::Unfold
                | TokenKind::Fold
                | TokenKind::Rewrite
                | TokenKind::Use
        )
    )
}

/// `"at" NUM`
fn at_atom(tokens: &mut Tokens<'_>) -> Result<u64, Stop>
    ensures { Reads (at_number tokens.old) result tokens.new }
{
    tokens.expect(TokenKind::At)?;
    number(tokens)
}

/// `read place at i as h by p`, after `x : sort <-`.
#[tactic(auto, unfolding(tht_grammar::specs::Reading::read, tht_grammar::specs::Reading::at_atom))]
pub fn read(
    alloc: Global,
    tokens: &mut Tokens<'_>,
    depth: usize,
    bound: Name,
    sort: Sort,
) -> Result<Boxed<StmtKind>, Stop>
    ensures { Reads (spec.read (spec.nested depth) bound sort (rest tokens.old)) result tokens.new }
{
    tokens.advance();
    let place = term(alloc, tokens, depth)?;
    let atom = at_atom(tokens)?;
    tokens.expect(TokenKind::As)?;
    let hyp = name(alloc, tokens)?;
    let proof = by_proof(alloc, tokens, depth)?;
    let proof = proof.into_inner();
    let kind = StmtKind::Read(bound, sort, place, atom, hyp, proof);
    Ok(Boxed::new(alloc, kind)?)
}

/// The values of one to eight cells.
#[tactic(auto, using(crate::proofs::Entries::entries_some, crate::proofs::Entries::entries_fit))]
fn cells(alloc: Global, tokens: &mut Tokens<'_>, depth: usize) -> Result<Cells, Stop>
    ensures { Reads (entries starts_term (spec.nested depth a_term) 8 [] tokens.old) result tokens.new }
{
    let terms = some_terms(alloc, tokens, depth, MAX_CELLS)?;
    Ok(Cells::new(terms))
}

/// `alloc (value, ..)`, after `x <-`.
#[tactic(auto, unfolding(tht_grammar::specs::Reading::alloc))]
pub fn alloc_cells(
    alloc: Global,
    tokens: &mut Tokens<'_>,
    depth: usize,
    bound: Name,
) -> Result<Boxed<StmtKind>, Stop>
    ensures { Reads (spec.alloc (spec.nested depth) bound (rest tokens.old)) result tokens.new }
{
    tokens.advance();
    tokens.expect(TokenKind::LParen)?;
    let values = cells(alloc, tokens, depth)?;
    tokens.expect(TokenKind::RParen)?;
    Ok(Boxed::new(alloc, StmtKind::Alloc(bound, values))?)
}

/// `call f(argument, ..)[logical argument, ..] by give`, after `x <-`.
#[tactic(auto, unfolding(tht_grammar::specs::Reading::call))]
pub fn call(
    alloc: Global,
    tokens: &mut Tokens<'_>,
    depth: usize,
    bound: Name,
) -> Result<Boxed<StmtKind>, Stop>
    ensures { Reads (spec.call (spec.nested depth) bound (rest tokens.old)) result tokens.new }
{
    tokens.advance();
    let called = name(alloc, tokens)?;
    let arguments = arguments(alloc, tokens, depth)?;
    tokens.expect(TokenKind::LBracket)?;
    let logic = terms(alloc, tokens, depth)?;
    tokens.expect(TokenKind::RBracket)?;
    let give = by_give(alloc, tokens, depth)?;
    let give = give.into_inner();
    let kind = StmtKind::Call(bound, called, arguments, logic, give);
    Ok(Boxed::new(alloc, kind)?)
}

/// `write place value at i by p`
#[tactic(auto, unfolding(tht_grammar::specs::Reading::write, tht_grammar::specs::Reading::at_atom))]
pub fn write(alloc: Global, tokens: &mut Tokens<'_>, depth: usize) -> Result<Boxed<StmtKind>, Stop>
    ensures { Reads (spec.write (spec.nested depth) (rest tokens.old)) result tokens.new }
{
    tokens.advance();
    let place = off(alloc, tokens, depth)?;
    let value = off(alloc, tokens, depth)?;
    let atom = at_atom(tokens)?;
    let proof = by_proof(alloc, tokens, depth)?;
    let proof = proof.into_inner();
    Ok(Boxed::new(alloc, StmtKind::Write(place, value, atom, proof))?)
}

/// A statement about one cell.
#[derive(Clone, Copy, Debug)]
pub enum OfCell {
    Free,
    Publish,
    Retract,
}

impl OfCell {
    fn of(self, place: Boxed<Term>, atom: u64, proof: Boxed<Proof>) -> StmtKind
        ensures { result ≡ of_cell self place atom proof }
    {
        let proof = proof.into_inner();
        match self {
            OfCell::Free => StmtKind::Free(place, atom, proof),
            OfCell::Publish => StmtKind::Publish(place, atom, proof),
            OfCell::Retract => StmtKind::Retract(place, atom, proof),
        }
    }
}

/// `free place at i by p`, and so `publish` and `retract`.
#[tactic(auto, unfolding(tht_grammar::specs::Reading::at_cell, tht_grammar::specs::Reading::at_atom))]
pub fn at_cell(
    alloc: Global,
    tokens: &mut Tokens<'_>,
    depth: usize,
    form: OfCell,
) -> Result<Boxed<StmtKind>, Stop>
    ensures { Reads (spec.at_cell (spec.nested depth) (of_cell form) (rest tokens.old)) result tokens.new }
{
    tokens.advance();
    let place = term(alloc, tokens, depth)?;
    let atom = at_atom(tokens)?;
    let proof = by_proof(alloc, tokens, depth)?;
    Ok(Boxed::new(alloc, form.of(place, atom, proof))?)
}

/// A proof step.
#[tactic(auto, unfolding(tht_grammar::specs::Reading::step))]
pub fn step(alloc: Global, tokens: &mut Tokens<'_>, depth: usize) -> Result<Boxed<StmtKind>, Stop>
    ensures { Reads (spec.step (spec.nested depth) tokens.old) result tokens.new }
{
    let spot = tokens.spot();
    let kind = step_kind(alloc, tokens, depth)?;
    let kind = kind.into_inner();
    Ok(Boxed::new(alloc, StmtKind::Proof(Step { spot, kind }))?)
}
