// Numbered code: each node names the nodes that follow it, which stand before it.
ghost use Rattle.std.specs.Prelude.{◌≤◌, length};
ghost use Rattle.code_form.specs.Means.{AreFound};

use crate::expr::Expr;
use crate::values::Row;
use sqlite_items::Items;
use tht_tree::plain::{Name, Sort};

/// A statement with the number of the node behind it, or an end.
#[derive(Drop)]
pub enum Node {
    /// The end of a body, with its value.
    Ret(Expr),
    /// The end of an inner body: so many variables go, and the value is the next one.
    Leave(Expr, usize, usize),
    If(Expr, usize, usize),
    Read(Sort, Expr, usize),
    Write(Expr, Expr, usize),
    Alloc(Row, usize),
    Free(Expr, usize),
    Publish(Expr, usize),
    Retract(Expr, usize),
    /// A call of the body with this number.
    Call(usize, Items<Expr>, usize),
    /// An atomic block: the node that its body begins with, which ends as one of a call does, and the node behind the block.
    Atomic(usize, usize),
    /// A fork: the nodes that its two bodies begin with, and the node behind the join.
    Fork(usize, usize, usize),
}

/// The body of a proc: its name, and the node that it begins with.
#[derive(Drop)]
pub struct Proc {
    pub name: Name,
    pub start: usize,
}

/// The numbered code of a file: its nodes, the bodies of its procs, whose names differ, and the node that main begins with.
#[derive(Drop)]
pub struct Code {
    pub nodes: Items<Node>,
    pub bodies: Items<Proc>,
    pub main: usize,
    ghost few: { length nodes ≤ 4294967295 },
    ghost found: { AreFound bodies },
}
