// Which files without declarations can be made into numbered code. Blocks and forks are not checked yet, so that the law of accepted files
// does not tell.
ghost use Rattle.std.specs.Prelude.{◌≡◌, true, map};
ghost use Rattle.std.specs.List.{list_all};
ghost use Rattle.tht_tree.specs.Rules.Scoping.{sequence_free};
ghost use Rattle.tht_logic.specs.PlainPrograms.{is_plain_file};
ghost use Rattle.test_code_form.specs.PlainParts.{body_plain, end_plain, end_kind_plain, stmt_plain, stmt_kind_plain};

use sqlite_items::{Boxed, Items};
use tht_tree::body::{Body, Cells, End, EndKind, Stmt, StmtKind};
use tht_tree::file::Source1;
use tht_tree::term::Term;

/// Whether the file declares nothing, calls nothing and has no term that makes a sequence.
#[tactic(auto, using(crate::proofs::PlainTrees::plain_file))]
pub(crate) fn is_plain(file: &Source1) -> bool
    ensures { result ≡ true → is_plain_file file.now ≡ true }
{
    if file.decls.len() != 0 {
        return false;
    }
    body_is_plain(file.main.body.get())
}

#[cycle(plain_term)]
fn term_is_plain(term: &Term) -> bool
    ensures { result ≡ sequence_free term.now }
{
    match term {
        Term::Num(_) => true,
        Term::True => true,
        Term::False => true,
        Term::Null => true,
        Term::Nil => false,
        Term::Unit => true,
        Term::Var(_) => true,
        Term::Len(a) => part_is_plain(a),
        Term::Offset(a, _) => part_is_plain(a),
        Term::Mul(a, b) => part_is_plain(a) && part_is_plain(b),
        Term::Add(a, b) => part_is_plain(a) && part_is_plain(b),
        Term::Sub(a, b) => part_is_plain(a) && part_is_plain(b),
        Term::Cons(_, _) => false,
        Term::Cat(_, _) => false,
        Term::Eq(a, b) => part_is_plain(a) && part_is_plain(b),
        Term::Lt(a, b) => part_is_plain(a) && part_is_plain(b),
        Term::Le(a, b) => part_is_plain(a) && part_is_plain(b),
        Term::Not(a) => part_is_plain(a),
        Term::And(a, b) => part_is_plain(a) && part_is_plain(b),
        Term::Or(a, b) => part_is_plain(a) && part_is_plain(b),
        Term::Imp(a, b) => part_is_plain(a) && part_is_plain(b),
    }
}

#[cycle(plain_term)]
fn part_is_plain(part: &Boxed<Term>) -> bool
    ensures { result ≡ sequence_free part.now }
{
    term_is_plain(part.get())
}

fn terms_are_plain(cells: &Cells) -> bool
    ensures { result ≡ list_all sequence_free cells.now }
{
    for term in cells.as_slice() {
        if !term_is_plain(term) {
            return false;
        }
    }
    true
}

#[cycle(plain_body)]
fn body_is_plain(body: &Body) -> bool
    ensures { result ≡ body_plain body.now }
{
    stmts_are_plain(&body.stmts) && end_is_plain(&body.end)
}

#[cycle(plain_body)]
fn inner_is_plain(body: &Boxed<Body>) -> bool
    ensures { result ≡ body_plain body.now }
{
    body_is_plain(body.get())
}

#[cycle(plain_body)]
fn stmts_are_plain(stmts: &Items<Stmt>) -> bool
    ensures { result ≡ list_all (λ s. s) (map stmt_plain stmts.now) }
{
    for stmt in stmts.as_slice() {
        if !stmt_is_plain(stmt) {
            return false;
        }
    }
    true
}

#[cycle(plain_body)]
fn stmt_is_plain(stmt: &Stmt) -> bool
    ensures { result ≡ stmt_plain stmt.now }
{
    stmt_kind_is_plain(&stmt.kind)
}

#[cycle(plain_body)]
fn stmt_kind_is_plain(kind: &StmtKind) -> bool
    ensures { result ≡ stmt_kind_plain kind.now }
{
    match kind {
        StmtKind::Read(_, _, place, _, _, _) => part_is_plain(place),
        StmtKind::Write(place, value, _, _) => part_is_plain(place) && part_is_plain(value),
        StmtKind::Alloc(_, cells) => terms_are_plain(cells),
        StmtKind::Free(place, _, _) => part_is_plain(place),
        StmtKind::Publish(place, _, _) => part_is_plain(place),
        StmtKind::Retract(place, _, _) => part_is_plain(place),
        StmtKind::Call(_, _, _, _, _) => false,
        StmtKind::Do(_, _, _, body, _) => inner_is_plain(body),
        StmtKind::Atomic(_, _, _, body, _) => inner_is_plain(body),
        StmtKind::Par(_, _, _, _, _, left, _, _, right, _) => {
            inner_is_plain(left) && inner_is_plain(right)
        }
        StmtKind::Proof(_) => true,
    }
}

#[cycle(plain_body)]
fn end_is_plain(end: &End) -> bool
    ensures { result ≡ end_plain end.now }
{
    end_kind_is_plain(&end.kind)
}

#[cycle(plain_body)]
fn end_kind_is_plain(kind: &EndKind) -> bool
    ensures { result ≡ end_kind_plain kind.now }
{
    match kind {
        EndKind::Ret(value, _) => part_is_plain(value),
        EndKind::If(test, _, body, other) => {
            part_is_plain(test) && inner_is_plain(body) && inner_is_plain(other)
        }
        EndKind::CaseAtom(_, body, _) => inner_is_plain(body),
        EndKind::CaseBool(_, _, body, _) => inner_is_plain(body),
        EndKind::CaseSeq(_, _, body, _, _, _) => inner_is_plain(body),
        EndKind::Dead(_, body) => inner_is_plain(body),
    }
}
