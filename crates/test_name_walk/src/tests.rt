// Small files with their texts, and the first refusal of each, which was worked out by hand: its line, its column, its code.
use name_walk::files::{WalkEnd, well_sorted};
use sqlite_items::{Boxed, Items};
use std::alloc::{AllocError, Global};
use std::test::Fail;
use tht_tree::assn::Assn;
use tht_tree::body::{Body, Cells, End, EndKind, Stmt, StmtKind};
use tht_tree::decl::{Access, Decl, DeclKind, Head, Initial, Param};
use tht_tree::file::{Main, Source1};
use tht_tree::give::{Give, GiveKind};
use tht_tree::plain::{Name, Sort, Spot};
use tht_tree::proof::{Proof, ProofKind};
use tht_tree::step::{Step, StepKind};
use tht_tree::term::Term;
use tht_tree::walk::{WalkCode, WalkRefusal};

// ---- trees

fn at(line: u32, column: u32) -> Spot {
    Spot { line, column }
}

fn name(alloc: Global, text: &str) -> Result<Name, AllocError> {
    Ok(Name::new(text.to_string(alloc)?))
}

fn variable(alloc: Global, text: &str) -> Result<Term, AllocError> {
    Ok(Term::Var(name(alloc, text)?))
}

fn emp(spot: Spot) -> Give {
    Give {
        spot,
        kind: GiveKind::Emp,
    }
}

fn refl(spot: Spot) -> Proof {
    Proof {
        spot,
        kind: ProofKind::Refl,
    }
}

fn stmt(line: u32, kind: StmtKind) -> Stmt {
    Stmt {
        spot: at(line, 3),
        kind,
    }
}

// x <- alloc (value)
fn allocation(alloc: Global, line: u32, x: &str, value: Term) -> Result<Stmt, AllocError> {
    let cells = Cells::one(alloc, value)?;
    Ok(stmt(line, StmtKind::Alloc(name(alloc, x)?, cells)))
}

// { stmts ret value by emp }, with the `ret` here
fn block(
    alloc: Global,
    stmts: Items<Stmt>,
    value: Term,
    spot: Spot,
) -> Result<Boxed<Body>, AllocError> {
    let end = ret(alloc, value, spot)?;
    Boxed::new(alloc, Body { stmts, end })
}

fn ret(alloc: Global, value: Term, spot: Spot) -> Result<End, AllocError> {
    let value = Boxed::new(alloc, value)?;
    let kind = EndKind::Ret(value, emp(spot));
    Ok(End { spot, kind })
}

fn decl(line: u32, kind: DeclKind) -> Decl {
    Decl {
        spot: at(line, 1),
        kind,
    }
}

fn param(alloc: Global, text: &str, sort: Sort) -> Result<Param, AllocError> {
    let name = name(alloc, text)?;
    Ok(Param { name, sort })
}

// pred p (params) = assn;
fn predicate(
    alloc: Global,
    line: u32,
    params: Items<Param>,
    assn: Assn,
) -> Result<Decl, AllocError> {
    let p = name(alloc, "p")?;
    Ok(decl(line, DeclKind::Pred(Access::Private, p, params, assn)))
}

// p()
fn instance(alloc: Global) -> Result<Assn, AllocError> {
    Ok(Assn::Inst(name(alloc, "p")?, Items::new(alloc)))
}

// invariant { emp } by emp;
fn invariant(line: u32) -> Decl {
    decl(line, DeclKind::Invariant(Assn::Emp, emp(at(line, 22))))
}

// main r : SORT { post } body
fn main_of(
    alloc: Global,
    line: u32,
    sort: Sort,
    post: Assn,
    body: Boxed<Body>,
) -> Result<Main, AllocError> {
    let result = name(alloc, "r")?;
    Ok(Main {
        spot: at(line, 1),
        result,
        sort,
        post,
        body,
    })
}

// A file with `main r : nat { post } body` in this line.
fn file(
    alloc: Global,
    decls: Items<Decl>,
    line: u32,
    post: Assn,
    body: Boxed<Body>,
) -> Result<Source1, AllocError> {
    let main = main_of(alloc, line, Sort::Nat, post, body)?;
    Ok(Source1 {
        version: 1,
        decls,
        main,
    })
}

// A file with `main r : nat { emp } { ret 0 by emp }` in this line.
fn declaring(alloc: Global, decls: Items<Decl>, line: u32) -> Result<Source1, AllocError> {
    let body = block(alloc, Items::new(alloc), Term::Num(0), at(line, 24))?;
    file(alloc, decls, line, Assn::Emp, body)
}

// A file with `main r : nat { emp } {` in line 2, these statements, and `ret value by emp` in this line.
fn running(
    alloc: Global,
    stmts: Items<Stmt>,
    value: Term,
    line: u32,
) -> Result<Source1, AllocError> {
    let body = block(alloc, stmts, value, at(line, 3))?;
    file(alloc, Items::new(alloc), 2, Assn::Emp, body)
}

// A file with `main r : nat { emp } { ret value by emp }` in line 2.
fn returning(alloc: Global, value: Term) -> Result<Source1, AllocError> {
    let body = block(alloc, Items::new(alloc), value, at(2, 24))?;
    file(alloc, Items::new(alloc), 2, Assn::Emp, body)
}

// ---- one file for each code

// tht 1
// main r : nat { emp } {
//   x <- alloc (0);
//   x <- alloc (1);
//   ret 0 by emp
// }
fn bound_twice(alloc: Global) -> Result<Source1, AllocError> {
    let mut stmts = Items::new(alloc);
    stmts.push(allocation(alloc, 3, "x", Term::Num(0))?)?;
    stmts.push(allocation(alloc, 4, "x", Term::Num(1))?)?;
    running(alloc, stmts, Term::Num(0), 5)
}

// tht 1
// proc f () [] { emp } r : nat { emp } { ret 0 by emp }
// main r : nat { emp } { ret f by emp }
fn procedure_as_value(alloc: Global) -> Result<Source1, AllocError> {
    let mut decls = Items::new(alloc);
    decls.push(procedure(alloc)?)?;
    let body = block(alloc, Items::new(alloc), variable(alloc, "f")?, at(3, 24))?;
    file(alloc, decls, 3, Assn::Emp, body)
}

fn procedure(alloc: Global) -> Result<Decl, AllocError> {
    let body = block(alloc, Items::new(alloc), Term::Num(0), at(2, 40))?;
    Ok(decl(2, DeclKind::Proc(head(alloc)?, body)))
}

// f () [] { emp } r : nat { emp }
fn head(alloc: Global) -> Result<Boxed<Head>, AllocError> {
    let f = name(alloc, "f")?;
    let result = name(alloc, "r")?;
    let head = Head {
        name: f,
        params: Items::new(alloc),
        logic: Items::new(alloc),
        pre: Assn::Emp,
        result,
        sort: Sort::Nat,
        post: Assn::Emp,
    };
    Boxed::new(alloc, head)
}

// tht 1
// pred p (x : nat) = emp;
// main r : nat { p() } { ret 0 by emp }
fn too_few_arguments(alloc: Global) -> Result<Source1, AllocError> {
    let mut params = Items::new(alloc);
    params.push(param(alloc, "x", Sort::Nat)?)?;
    let mut decls = Items::new(alloc);
    decls.push(predicate(alloc, 2, params, Assn::Emp)?)?;
    let body = block(alloc, Items::new(alloc), Term::Num(0), at(3, 24))?;
    file(alloc, decls, 3, instance(alloc)?, body)
}

// tht 1
// invariant { emp } by emp;
// invariant { emp } by emp;
// main r : nat { emp } { ret 0 by emp }
fn second_invariant(alloc: Global) -> Result<Source1, AllocError> {
    let mut decls = Items::new(alloc);
    decls.push(invariant(2))?;
    decls.push(invariant(3))?;
    declaring(alloc, decls, 4)
}

// tht 1
// root a : nat := 0;
// main r : nat { emp } { ret 0 by emp }
fn root_without_invariant(alloc: Global) -> Result<Source1, AllocError> {
    let root = DeclKind::Root(name(alloc, "a")?, Sort::Nat, Initial::Num(0));
    let mut decls = Items::new(alloc);
    decls.push(decl(2, root))?;
    declaring(alloc, decls, 3)
}

// tht 1
// pred p () = p();
// main r : nat { emp } { ret 0 by emp }
fn predicate_of_itself(alloc: Global) -> Result<Source1, AllocError> {
    let mut decls = Items::new(alloc);
    let itself = instance(alloc)?;
    decls.push(predicate(alloc, 2, Items::new(alloc), itself)?)?;
    declaring(alloc, decls, 3)
}

// tht 1
// main r : nat { emp } {
//   open 1 as x : nat;
//   ret x by emp
// }
fn logic_in_program(alloc: Global) -> Result<Source1, AllocError> {
    let kind = StepKind::OpenVar(1, name(alloc, "x")?, Sort::Nat);
    let step = Step {
        spot: at(3, 3),
        kind,
    };
    let mut stmts = Items::new(alloc);
    stmts.push(stmt(3, StmtKind::Proof(step)))?;
    running(alloc, stmts, variable(alloc, "x")?, 4)
}

// tht 1
// main r : nat { null => 0 } { ret 0 by emp }
fn shared_cell_in_main(alloc: Global) -> Result<Source1, AllocError> {
    let place = Boxed::new(alloc, Term::Null)?;
    let post = Assn::Shared(place, Boxed::new(alloc, Term::Num(0))?);
    let body = block(alloc, Items::new(alloc), Term::Num(0), at(2, 30))?;
    file(alloc, Items::new(alloc), 2, post, body)
}

// tht 1
// main r : nat { emp } {
//   x <- alloc (0);
//   publish x at 1 by refl;
//   ret 0 by emp
// }
fn publish_outside(alloc: Global) -> Result<Source1, AllocError> {
    let mut stmts = Items::new(alloc);
    stmts.push(allocation(alloc, 3, "x", Term::Num(0))?)?;
    let place = Boxed::new(alloc, variable(alloc, "x")?)?;
    stmts.push(stmt(4, StmtKind::Publish(place, 1, refl(at(4, 21)))))?;
    running(alloc, stmts, Term::Num(0), 5)
}

// tht 1
// main r : seq { emp } { ret 0 by emp }
fn sequence_as_result(alloc: Global) -> Result<Source1, AllocError> {
    let body = block(alloc, Items::new(alloc), Term::Num(0), at(2, 24))?;
    let main = main_of(alloc, 2, Sort::Seq, Assn::Emp, body)?;
    Ok(Source1 {
        version: 1,
        decls: Items::new(alloc),
        main,
    })
}

// The file for a code.
fn sample(alloc: Global, code: WalkCode) -> Result<Source1, AllocError> {
    match code {
        // tht 1
        // main r : nat { emp } { ret x by emp }
        WalkCode::N1 => returning(alloc, variable(alloc, "x")?),
        WalkCode::N2 => bound_twice(alloc),
        WalkCode::N3 => procedure_as_value(alloc),
        WalkCode::N4 => too_few_arguments(alloc),
        WalkCode::N5 => second_invariant(alloc),
        WalkCode::N6 => root_without_invariant(alloc),
        WalkCode::N7 => predicate_of_itself(alloc),
        // tht 1
        // main r : nat { emp } { ret true by emp }
        WalkCode::S1 => returning(alloc, Term::True),
        WalkCode::S2 => logic_in_program(alloc),
        WalkCode::S3 => shared_cell_in_main(alloc),
        WalkCode::S4 => publish_outside(alloc),
        WalkCode::S5 => sequence_as_result(alloc),
    }
}

// Each code, with the line and the column of the construct that is refused in its file.
const REFUSALS: &[(WalkCode, u32, u32)] = &[
    (WalkCode::N1, 2, 24),
    (WalkCode::N2, 4, 3),
    (WalkCode::N3, 3, 24),
    (WalkCode::N4, 3, 1),
    (WalkCode::N5, 3, 1),
    (WalkCode::N6, 2, 1),
    (WalkCode::N7, 2, 1),
    (WalkCode::S1, 2, 24),
    (WalkCode::S2, 4, 3),
    (WalkCode::S3, 2, 1),
    (WalkCode::S4, 4, 3),
    (WalkCode::S5, 2, 1),
];

// Whether this is the first refusal of the file.
fn is_refused(alloc: Global, file: &Source1, code: WalkCode, spot: Spot) -> bool {
    match well_sorted(alloc, file) {
        Err(WalkEnd::Refused(refusal)) => refusal == WalkRefusal { spot, code },
        _ => false,
    }
}

fn sample_is_refused(
    alloc: Global,
    code: WalkCode,
    line: u32,
    column: u32,
) -> Result<bool, AllocError> {
    let file = sample(alloc, code)?;
    Ok(is_refused(alloc, &file, code, at(line, column)))
}

#[test]
fn each_code_at_its_place(rt: HostRuntime) -> Result<(), Fail> {
    let alloc = rt.alloc();
    for row in REFUSALS {
        let (code, line, column) = *row;
        assert!(rt; sample_is_refused(alloc, code, line, column)?, "{code:?}");
    }
    Ok(())
}

// ---- more files

// s = 0
fn is_zero(alloc: Global, text: &str) -> Result<Assn, AllocError> {
    let left = Boxed::new(alloc, variable(alloc, text)?)?;
    let zero = Boxed::new(alloc, Term::Num(0))?;
    let equation = Boxed::new(alloc, Term::Eq(left, zero))?;
    Ok(Assn::Fact(equation))
}

// pred p (s : seq, s : nat) on s nil = [s = 0] cons m t = emp;
fn on_one_of_two(alloc: Global) -> Result<Decl, AllocError> {
    let mut params = Items::new(alloc);
    params.push(param(alloc, "s", Sort::Seq)?)?;
    params.push(param(alloc, "s", Sort::Nat)?)?;
    let p = name(alloc, "p")?;
    let on = name(alloc, "s")?;
    let head = name(alloc, "m")?;
    let tail = name(alloc, "t")?;
    let nil = is_zero(alloc, "s")?;
    let kind = DeclKind::PredOn(Access::Private, p, params, on, nil, head, tail, Assn::Emp);
    Ok(decl(2, kind))
}

// The first `s` stands behind `on`, and the second is known in the cases: it is refused, and not its use.
#[test]
fn one_parameter_is_replaced(rt: HostRuntime) -> Result<(), Fail> {
    let alloc = rt.alloc();
    let mut decls = Items::new(alloc);
    decls.push(on_one_of_two(alloc)?)?;
    let file = declaring(alloc, decls, 3)?;
    assert!(rt; is_refused(alloc, &file, WalkCode::N2, at(2, 1)));
    Ok(())
}

// tht 1
// root a : nat := 0;
// invariant { emp } by emp;
// main r : nat { emp } { ret 0 by emp }
#[test]
fn a_file_in_order_is_well_sorted(rt: HostRuntime) -> Result<(), Fail> {
    let alloc = rt.alloc();
    let root = DeclKind::Root(name(alloc, "a")?, Sort::Nat, Initial::Num(0));
    let mut decls = Items::new(alloc);
    decls.push(decl(2, root))?;
    decls.push(invariant(3))?;
    let file = declaring(alloc, decls, 4)?;
    assert!(rt; well_sorted(alloc, &file).is_ok());
    Ok(())
}
