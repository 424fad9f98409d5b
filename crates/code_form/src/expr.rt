// Expressions: the terms of a program, with variables by position.
use sqlite_items::Boxed;
use tht_tree::plain::Value;

/// The operations on two values.
#[derive(Clone, Copy, Debug, PartialEq, Eq)]
pub enum Op {
    Mul,
    Add,
    Sub,
    Eq,
    Lt,
    Le,
    And,
    Or,
    Imp,
}

/// A term of a program. A variable is a number: how many were bound after it.
#[derive(Drop)]
pub enum Expr {
    Lit(Value),
    Var(usize),
    /// The length of a value that is no sequence: 0.
    Len(Boxed<Expr>),
    /// The place so many cells further.
    Offset(Boxed<Expr>, u8),
    Not(Boxed<Expr>),
    Both(Op, Boxed<Expr>, Boxed<Expr>),
}
