// What stands in front of a branch.
ghost use Rattle.std.specs.Prelude.{◌≡◌};
ghost use Rattle.tht_tree.specs.Values.{place_in};
ghost use Rattle.code_form.specs.Eval.{eval_of, all_of};
ghost use Rattle.code_form.specs.Statements.{node_ask, or_ask, call_ask, is_there, in_block};

use crate::code::Node;
use crate::eval::{eval, place};
use crate::expr::Expr;
use crate::values::{Values, values_of};
use tht_tree::plain::{Place, Sort, Value};

/// What stands in front of a branch, with the values of the statement's terms.
#[derive(Drop)]
pub enum Ask {
    /// The branch's body has this value.
    Value(Value),
    /// A condition or a returned term does not fit the machine.
    FrontBig,
    /// A term of the statement in front does not fit the machine.
    TermBig,
    Read { place: Place, sort: Sort },
    Write { place: Place, value: Value },
    Alloc { values: Values },
    Free { place: Place },
    Publish { place: Place },
    Retract { place: Place },
    Call,
    /// An atomic block.
    Atomic,
    /// The branch is inside an atomic block, whose body has become a value.
    BlockEnd,
    /// A fork of two bodies.
    Fork,
    /// The branch waits for the values of its children, which have these numbers.
    Waiting { left: u32, right: u32 },
}

/// What a statement asks for, at these values of the variables, in a code with so many bodies.
pub(crate) fn ask_at(node: &Node, env: &[Value], bodies: usize) -> Ask
    ensures { result ≡ node_ask bodies node.now env.now }
{
    match node {
        Node::Read(sort, e, _) => ask_read(*sort, e, env),
        Node::Write(e, f, _) => ask_write(e, f, env),
        Node::Alloc(row, _) => match values_of(row, env) {
            Some(values) => Ask::Alloc { values },
            None => Ask::TermBig,
        },
        Node::Free(e, _) => match eval(e, env) {
            Some(v) => Ask::Free { place: place(v) },
            None => Ask::TermBig,
        },
        Node::Publish(e, _) => match eval(e, env) {
            Some(v) => Ask::Publish { place: place(v) },
            None => Ask::TermBig,
        },
        Node::Retract(e, _) => match eval(e, env) {
            Some(v) => Ask::Retract { place: place(v) },
            None => Ask::TermBig,
        },
        Node::Call(f, es, _) => ask_call(*f < bodies, es.as_slice(), env),
        Node::Atomic(_, _) => Ask::Atomic,
        Node::Fork(_, _, _) => Ask::Fork,
        _ => Ask::FrontBig,
    }
}

/// What a block asks for where its body asks for this: a value is the end of the block.
pub(crate) fn ask_in_block(ask: Ask) -> Ask
    ensures { result ≡ in_block ask }
{
    match ask {
        Ask::Value(_) => Ask::BlockEnd,
        other => other,
    }
}

fn ask_read(sort: Sort, e: &Expr, env: &[Value]) -> Ask
    ensures { result ≡ or_ask (eval_of e.now env.now) (λ v. Ask.Read (place_in v) sort) }
{
    match eval(e, env) {
        Some(v) => Ask::Read {
            place: place(v),
            sort,
        },
        None => Ask::TermBig,
    }
}

fn ask_write(e: &Expr, f: &Expr, env: &[Value]) -> Ask
    ensures { result ≡ or_ask (eval_of e.now env.now) (λ v. or_ask (eval_of f.now env.now) (Ask.Write (place_in v))) }
{
    match eval(e, env) {
        Some(v) => match eval(f, env) {
            Some(value) => Ask::Write {
                place: place(v),
                value,
            },
            None => Ask::TermBig,
        },
        None => Ask::TermBig,
    }
}

fn ask_call(known: bool, es: &[Expr], env: &[Value]) -> Ask
    ensures { result ≡ call_ask known (all_of env.now es.now) }
{
    if !known {
        return Ask::FrontBig;
    }
    if all_fit(es, env) {
        Ask::Call
    } else {
        Ask::TermBig
    }
}

fn all_fit(es: &[Expr], env: &[Value]) -> bool
    ensures { result ≡ is_there (all_of env.now es.now) }
{
    for e in es {
        if eval(e, env).is_none() {
            return false;
        }
    }
    true
}
