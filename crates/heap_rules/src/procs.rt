// The procs of a file by their names.
ghost use Rattle.std.specs.Prelude.{◌≡◌, [], ◌++◌, ◌∷◌, List, length, None, Some, IfOk, OnOk, MatchOption};
ghost use Rattle.tht_tree.specs.declared.decl.Decl.{Decl};
ghost use Rattle.heap_rules.specs.Declarations.{declared_by};
ghost use Rattle.heap_rules.specs.PredicatePlaces.{AreProcs, proc_name_of, head_in, head_at as the_head_at};

use crate::places::{Places, Predicates};
use crate::predicates::put_place;
use std::alloc::Global;
use std::collections::BTreeMap;
use tht_tree::decl::{Decl, DeclKind, Head};
use tht_tree::plain::{Memory, Name};

impl<'a> Predicates<'a> {
    /// The head of the proc with this name.
    pub fn proc(&self, name: &Name) -> Option<&'a Head>
        ensures { MatchOption result ((declared_by self.now).procs name.now ≡ None) (λ x. (declared_by self.now).procs name.now ≡ Some x.now) }
    {
        match self.procs.get(name.as_str()) {
            Some(place) => head_at(self.decls, *place),
            None => None,
        }
    }
}

// The head of the proc that is declared at this place.
fn head_at(decls: &[Decl], place: usize) -> Option<&Head>
    ensures { MatchOption result (the_head_at (Some place) decls.now ≡ None) (λ x. the_head_at (Some place) decls.now ≡ Some x.now) }
{
    match decls.get(place) {
        Some(decl) => head_of(&decl.kind),
        None => None,
    }
}

// The head of the proc that is declared.
fn head_of(kind: &DeclKind) -> Option<&Head>
    ensures { MatchOption result (head_in kind.now ≡ None) (λ x. head_in kind.now ≡ Some x.now) }
{
    match kind {
        DeclKind::Proc(head, _) => Some(head.get()),
        _ => None,
    }
}

/// The places of the procs in these declarations.
pub(crate) fn procs_of(alloc: Global, decls: &[Decl]) -> Result<Places, Memory>
    ensures { IfOk result (λ procs. AreProcs procs decls.now) }
{
    let mut procs = no_procs(alloc);
    for (place, decl) in decls.iter().enumerate() {
        add_proc(&mut procs, &decl.kind, place)?;
    }
    Ok(procs)
}

fn no_procs(alloc: Global) -> Places
    ensures { AreProcs result [] }
{
    BTreeMap::new(alloc)
}

// The next declaration, whose place this is.
fn add_proc(procs: &mut Places, kind: &DeclKind, place: usize) -> Result<(), Memory>
    ensures { OnOk result ((decls : List Decl) (d : Decl) → AreProcs procs.old decls → length decls ≡ place → d.kind ≡ kind.now → AreProcs procs.new (decls ++ d ∷ [])) }
{
    match proc_name(kind) {
        Some(name) => put_place(procs, name, place),
        None => Ok(()),
    }
}

// The name of the proc that is declared.
fn proc_name(kind: &DeclKind) -> Option<&Name>
    ensures { MatchOption result (proc_name_of kind.now ≡ None) (λ n. proc_name_of kind.now ≡ Some n.now) }
{
    match kind {
        DeclKind::Proc(head, _) => Some(&head.get().name),
        _ => None,
    }
}
