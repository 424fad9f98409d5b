// Which files are built.
ghost use Rattle.std.specs.Prelude.{◌≡◌, ◌&&◌};
ghost use Rattle.std.specs.List.{list_all};
ghost use Rattle.tht_logic.specs.Built.{is_built as built_file, decl as built_decl, body as built_body, assn as built_assn};
ghost use Rattle.hoare_rules.specs.BuiltParts.{assn_built};

use crate::built_bodies::is_built_body;
use sqlite_items::Boxed;
use tht_tree::assn::Assn;
use tht_tree::body::Body;
use tht_tree::decl::{Access, Decl, DeclKind, Head};
use tht_tree::file::Source1;

/// Whether every form of the file is built. It takes time in proportion to the size of the file.
pub fn is_built(file: &Source1) -> bool
    ensures { result ≡ built_file file.now }
{
    decls_are_built(file.decls.as_slice())
        && is_built_assn(&file.main.post)
        && is_built_body(file.main.body.get())
}

// ---- declarations

fn decls_are_built(decls: &[Decl]) -> bool
    ensures { result ≡ list_all (λ x. built_decl x.kind) decls.now }
{
    for decl in decls {
        if !decl_is_built(&decl.kind) {
            return false;
        }
    }
    true
}

fn decl_is_built(decl: &DeclKind) -> bool
    ensures { result ≡ built_decl decl.now }
{
    match decl {
        DeclKind::Pred(Access::Private, _, _, assn) => is_built_assn(assn),
        DeclKind::Proc(head, body) => proc_is_built(head.get(), body.get()),
        _ => false,
    }
}

fn proc_is_built(head: &Head, body: &Body) -> bool
    ensures { result ≡ (built_assn head.now.pre && built_assn head.now.post && built_body body.now) }
{
    is_built_assn(&head.pre) && is_built_assn(&head.post) && is_built_body(body)
}

// ---- assertions

#[tactic(auto, using(crate::proofs::BuiltParts::assn_is))]
pub(crate) fn is_built_assn(assn: &Assn) -> bool
    ensures { result ≡ built_assn assn.now }
{
    assn_is_built(assn)
}

#[cycle(built_assn)]
fn assn_is_built(assn: &Assn) -> bool
    ensures { result ≡ assn_built assn.now }
{
    match assn {
        Assn::Shared(_, _) => false,
        Assn::Star(p, q) => part_is_built(p) && part_is_built(q),
        Assn::Exists(_, _, p) => part_is_built(p),
        Assn::Either(p, q) => part_is_built(p) && part_is_built(q),
        _ => true,
    }
}

#[cycle(built_assn)]
fn part_is_built(assn: &Boxed<Assn>) -> bool
    ensures { result ≡ assn_built assn.now }
{
    assn_is_built(assn.get())
}
