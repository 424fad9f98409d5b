// The code of a file.
ghost use Rattle.std.specs.Prelude.{◌≡◌, true, List, [], map, None, IfOk, OnOk};
ghost use Rattle.tht_logic.specs.Machine.{closed};
ghost use Rattle.tht_logic.specs.Programs.{root_names, code as program};
ghost use Rattle.tht_logic.specs.Procedures.{Procedures, procedures_of, with_procedure, with_declared_procedure, bodies_in};
ghost use Rattle.tht_logic.specs.PlainPrograms.{is_plain_file};
ghost use Rattle.code_form.specs.declared.code.Proc.{Proc as ProcOf};
ghost use Rattle.code_form.specs.Codes.{means_of, bodies_of};
ghost use Rattle.code_form.specs.Files.{with_proc_name, with_proc_names, unmade, with_start, HasBodies};
ghost use Rattle.code_form.specs.Lowering.{Stands};
ghost use Rattle.code_form.specs.Means.{names_of, AreFound};

use crate::bodies::{Behind, Work, lower_body};
use crate::code::{Code, Node, Proc};
use crate::names::ProcNames;
use sqlite_items::Items;
use std::alloc::Global;
use tht_tree::body::Body;
use tht_tree::decl::{Decl, DeclKind, Head, Param};
use tht_tree::file::Source1;
use tht_tree::plain::{Memory, Name};

// More nodes than these are not made.
const MOST_NODES: usize = 4_294_967_295;

// ---- the names of procs

fn add_proc(kind: &DeclKind, names: &mut ProcNames) -> Result<(), Memory>
    ensures { OnOk result (names.new ≡ with_proc_name kind.now names.old) }
{
    match kind {
        DeclKind::Proc(head, _) => names.add(&head.get().name),
        _ => Ok(()),
    }
}

// The names of the procs among declarations.
fn proc_names(alloc: Global, decls: &[Decl]) -> Result<ProcNames, Memory>
    ensures { IfOk result (λ names. names ≡ with_proc_names [] decls.now) }
{
    let mut names = ProcNames::new(alloc);
    for decl in decls {
        add_proc(&decl.kind, &mut names)?;
    }
    Ok(names)
}

// A body for each proc, none of which is made yet.
fn unmade_bodies(alloc: Global, names: &ProcNames) -> Result<Items<Proc>, Memory>
    ensures { IfOk result (λ bodies. bodies ≡ unmade names.now) }
{
    let texts = names.texts();
    let mut bodies = Items::new(alloc);
    for text in texts {
        let name = Name::new(text.clone()?);
        bodies.push(Proc { name, start: 0 })?;
    }
    Ok(bodies)
}

// ---- the bodies of procs

// The names of parameters, in their order.
fn param_names(alloc: Global, params: &[Param]) -> Result<Items<Name>, Memory>
    ensures { IfOk result (λ names. names ≡ map (λ p. p.name) params.now) }
{
    let mut names = Items::new(alloc);
    for param in params {
        names.push(param.name.copy()?)?;
    }
    Ok(names)
}

// The body of the proc with this name begins at this node.
fn set_start(
    names: &ProcNames,
    name: &Name,
    start: usize,
    bodies: &mut Items<Proc>,
) -> Result<(), Memory>
    ensures { OnOk result (names_of bodies.old ≡ names.now → bodies.new ≡ with_start name.now start bodies.old) }
{
    let number = names.number_of(name);
    if number < bodies.len() {
        let name = name.copy()?;
        bodies.set(number, Proc { name, start });
    }
    Ok(())
}

// Makes the body of a proc. Of two procs of one name the last one counts.
fn lower_proc(
    alloc: Global,
    head: &Head,
    body: &Body,
    work: &mut Work,
    bodies: &mut Items<Proc>,
) -> Result<(), Memory>
    ensures procs { OnOk result (work.new.procs ≡ work.old.procs) }
    ensures bodies { OnOk result ((known : Procedures) → HasBodies work.old bodies.old known → HasBodies work.new bodies.new (with_procedure (record { head = head.now; body = body.now }) known)) }
{
    work.bound = param_names(alloc, head.params.as_slice())?;
    let start = lower_body(alloc, body, Behind::Caller, work)?;
    set_start(&work.procs, &head.name, start, bodies)
}

fn lower_decl(
    alloc: Global,
    kind: &DeclKind,
    work: &mut Work,
    bodies: &mut Items<Proc>,
) -> Result<(), Memory>
    ensures procs { OnOk result (work.new.procs ≡ work.old.procs) }
    ensures bodies { OnOk result ((known : Procedures) → HasBodies work.old bodies.old known → HasBodies work.new bodies.new (with_declared_procedure kind.now known)) }
{
    match kind {
        DeclKind::Proc(head, body) => lower_proc(alloc, head.get(), body.get(), work, bodies),
        _ => Ok(()),
    }
}

fn lower_decls(
    alloc: Global,
    decls: &[Decl],
    work: &mut Work,
    bodies: &mut Items<Proc>,
) -> Result<(), Memory>
    ensures procs { OnOk result (work.new.procs ≡ work.old.procs) }
    ensures bodies { OnOk result (HasBodies work.old bodies.old (λ f. None) → HasBodies work.new bodies.new (procedures_of decls.now)) }
{
    for decl in decls {
        lower_decl(alloc, &decl.kind, work, bodies)?;
    }
    Ok(())
}

// ---- the file

// The node that main begins with.
fn lower_main(alloc: Global, body: &Body, work: &mut Work) -> Result<usize, Memory>
    ensures main { IfOk result (λ i. Stands work.new.procs work.new.nodes Behind.Caller [] i (program [] body.now)) }
    ensures procs { OnOk result (work.new.procs ≡ work.old.procs) }
    ensures bodies { OnOk result ((bodies : List ProcOf) (known : Procedures) → HasBodies work.old bodies known → HasBodies work.new bodies known) }
{
    work.bound = Items::new(alloc);
    lower_body(alloc, body, Behind::Caller, work)
}

fn nodes_of(work: Work) -> Items<Node>
    ensures { result ≡ work.nodes }
{
    let Work {
        procs,
        bound,
        nodes,
    } = work;
    let _ = procs;
    let _ = bound;
    nodes
}

// The code with these nodes, if they are not too many.
fn code_of(nodes: Items<Node>, bodies: Items<Proc>, main: usize) -> Result<Code, Memory>
    requires found { AreFound bodies }
    ensures nodes { IfOk result (λ code. code.nodes ≡ nodes) }
    ensures bodies { IfOk result (λ code. code.bodies ≡ bodies) }
    ensures main { IfOk result (λ code. code.main ≡ main) }
{
    if nodes.len() > MOST_NODES {
        return Err(Memory);
    }
    Ok(Code {
        nodes,
        bodies,
        main,
    })
}

/// The numbered code of a file: main's, and a body for each proc. Its size is linear in that of the file, as is the time that
/// it takes, but for the look-up of a variable among those that are bound.
///
/// An `Err` is want of memory, or that there are more than 2^32 - 1 nodes.
pub fn lower(alloc: Global, file: &Source1) -> Result<Code, Memory>
    requires plain { is_plain_file file.now ≡ true }
    ensures main { IfOk result (λ code. means_of code code.main [] ≡ closed [] (program (root_names file.now) file.now.main.body [])) }
    ensures bodies { IfOk result (λ code. bodies_of code ≡ bodies_in file.now) }
{
    let decls = file.decls.as_slice();
    let mut work = Work {
        procs: proc_names(alloc, decls)?,
        bound: Items::new(alloc),
        nodes: Items::new(alloc),
    };
    let mut bodies = unmade_bodies(alloc, &work.procs)?;
    lower_decls(alloc, decls, &mut work, &mut bodies)?;
    let main = lower_main(alloc, file.main.body.get(), &mut work)?;
    code_of(nodes_of(work), bodies, main)
}
