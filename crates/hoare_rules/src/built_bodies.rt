// Which bodies are built.
ghost use Rattle.std.specs.Prelude.{◌≡◌, map};
ghost use Rattle.std.specs.List.{list_all};
ghost use Rattle.tht_logic.specs.Built.{body as built_body, step as built_step};
ghost use Rattle.hoare_rules.specs.BuiltParts.{body_built, end_built, end_kind_built, stmt_built, stmt_kind_built};

use crate::built::is_built_assn;
use crate::built_proofs::{is_built_give, is_built_proof};
use sqlite_items::{Boxed, Items};
use tht_tree::body::{Body, End, EndKind, Stmt, StmtKind};
use tht_tree::step::StepKind;

/// Whether every form in the body is built.
#[tactic(auto, using(crate::proofs::BuiltParts::body_is))]
pub(crate) fn is_built_body(body: &Body) -> bool
    ensures { result ≡ built_body body.now }
{
    body_is_built(body)
}

#[cycle(built_body)]
fn body_is_built(body: &Body) -> bool
    ensures { result ≡ body_built body.now }
{
    stmts_are_built(&body.stmts) && end_is_built(&body.end)
}

#[cycle(built_body)]
fn part(body: &Boxed<Body>) -> bool
    ensures { result ≡ body_built body.now }
{
    body_is_built(body.get())
}

#[cycle(built_body)]
fn stmts_are_built(stmts: &Items<Stmt>) -> bool
    ensures { result ≡ list_all (λ s. s) (map stmt_built stmts.now) }
{
    for stmt in stmts.as_slice() {
        if !stmt_is_built(stmt) {
            return false;
        }
    }
    true
}

#[cycle(built_body)]
fn stmt_is_built(stmt: &Stmt) -> bool
    ensures { result ≡ stmt_built stmt.now }
{
    stmt_kind_is_built(&stmt.kind)
}

#[cycle(built_body)]
fn stmt_kind_is_built(kind: &StmtKind) -> bool
    ensures { result ≡ stmt_kind_built kind.now }
{
    match kind {
        StmtKind::Read(_, _, _, _, _, proof) => is_built_proof(proof),
        StmtKind::Write(_, _, _, proof) => is_built_proof(proof),
        StmtKind::Alloc(_, _) => true,
        StmtKind::Free(_, _, proof) => is_built_proof(proof),
        StmtKind::Call(_, _, _, _, give) => is_built_give(give),
        StmtKind::Do(_, _, _, body, assn) => part(body) && is_built_assn(assn),
        StmtKind::Proof(step) => step_is_built(&step.kind),
        _ => false,
    }
}

fn step_is_built(step: &StepKind) -> bool
    ensures { result ≡ built_step step.now }
{
    match step {
        StepKind::Have(_, _, proof) => is_built_proof(proof),
        StepKind::Fold(_, _, give) => is_built_give(give),
        StepKind::Rewrite(_, _, _, proof) => is_built_proof(proof),
        StepKind::Use(_, _, _) => false,
        _ => true,
    }
}

#[cycle(built_body)]
fn end_is_built(end: &End) -> bool
    ensures { result ≡ end_built end.now }
{
    end_kind_is_built(&end.kind)
}

#[cycle(built_body)]
fn end_kind_is_built(kind: &EndKind) -> bool
    ensures { result ≡ end_kind_built kind.now }
{
    match kind {
        EndKind::Ret(_, give) => is_built_give(give),
        EndKind::If(_, _, body, other) => part(body) && part(other),
        EndKind::CaseAtom(_, body, other) => part(body) && part(other),
        EndKind::CaseBool(_, _, body, other) => part(body) && part(other),
        EndKind::CaseSeq(_, _, body, _, _, other) => part(body) && part(other),
        EndKind::Dead(proof, body) => is_built_proof(proof) && part(body),
    }
}
