// Going past what costs nothing: ifs, and the ends of inner bodies.
ghost use Rattle.std.specs.Prelude.{◌≡◌, ◌+◌, ◌-◌, ◌≤◌, ◌<◌, drop, take, length, List, [], ◌∷◌, ◌++◌, vec_len, vec_capacity};
ghost use Rattle.code_form.specs.Codes.{means_of};
ghost use Rattle.code_form.specs.Hops.{hop_prog, IsNear, stop_prog};
ghost use Rattle.code_form.specs.Turns.{turn_of, StopsPlain, HopsPlain};

use crate::code::{Code, Node};
use crate::eval::{eval, is_true};
use tht_tree::plain::Value;

/// What a node does at once.
#[derive(Clone, Copy, Debug)]
pub enum Turn {
    Stay,
    Goes(usize),
    Leaves(usize, usize, Value),
    Gives(Value),
    TooBig,
}

#[derive(Clone, Copy, Debug)]
pub enum Stop {
    Stands(usize),
    Gives(Value),
    TooBig,
}

#[derive(Clone, Copy, Debug)]
pub enum Hop {
    To(usize),
    Stop(Stop),
}

pub fn env_at(values: &[Value], base: usize) -> &[Value]
    requires { base ≤ length values.now }
    ensures { result.now ≡ drop base values.now }
{
    &values[base..]
}

/// What the node does at these values of the variables.
pub fn turn_at(node: &Node, env: &[Value]) -> Turn
    ensures { result ≡ turn_of node.now env.now }
{
    match node {
        Node::If(e, p, q) => match eval(e, env) {
            Some(v) => {
                if is_true(v) {
                    Turn::Goes(*p)
                } else {
                    Turn::Goes(*q)
                }
            }
            None => Turn::TooBig,
        },
        Node::Leave(e, gone, next) => match eval(e, env) {
            Some(v) => Turn::Leaves(*gone, *next, v),
            None => Turn::TooBig,
        },
        Node::Ret(e) => match eval(e, env) {
            Some(v) => Turn::Gives(v),
            None => Turn::TooBig,
        },
        _ => Turn::Stay,
    }
}

/// One node further, where it costs nothing.
pub fn hop_from(code: &Code, at: usize, base: usize, values: &mut Vec<Value>) -> Hop
    requires within { base ≤ vec_len values.old }
    requires room { vec_len values.old + at ≤ vec_capacity values.old }
    ensures same { hop_prog (means_of code.now) result (drop base values.new.items) ≡ means_of code.now at (drop base values.old.items) }
    ensures rest { take base values.new.items ≡ take base values.old.items }
    ensures within { base ≤ vec_len values.new }
    ensures near { IsNear result (vec_len values.new) (vec_len values.old + at) at }
    ensures capacity { vec_capacity values.new ≡ vec_capacity values.old }
    ensures plain { HopsPlain code.now.nodes result }
{
    match code.nodes.get(at) {
        Some(node) => match turn_at(node, env_at(values.as_slice(), base)) {
            Turn::Stay => Hop::Stop(Stop::Stands(at)),
            Turn::Goes(next) => {
                if next < at {
                    Hop::To(next)
                } else {
                    Hop::Stop(Stop::TooBig)
                }
            }
            Turn::Leaves(gone, next, v) => {
                if next < at {
                    leave(base, gone, v, values);
                    Hop::To(next)
                } else {
                    Hop::Stop(Stop::TooBig)
                }
            }
            Turn::Gives(v) => Hop::Stop(Stop::Gives(v)),
            Turn::TooBig => Hop::Stop(Stop::TooBig),
        },
        None => Hop::Stop(Stop::TooBig),
    }
}

// So many variables go, and a value comes.
fn leave(base: usize, gone: usize, v: Value, values: &mut Vec<Value>)
    requires within { base ≤ vec_len values.old }
    requires room { vec_len values.old < vec_capacity values.old }
    ensures env { drop base values.new.items ≡ take (length (drop base values.old.items) - gone) (drop base values.old.items) ++ v ∷ [] }
    ensures rest { take base values.new.items ≡ take base values.old.items }
    ensures len { vec_len values.new ≤ vec_len values.old + 1 }
    ensures within { base ≤ vec_len values.new }
    ensures capacity { vec_capacity values.new ≡ vec_capacity values.old }
{
    let keep = (values.len() - base).saturating_sub(gone);
    values.truncate(base + keep);
    values.push_reserved(v);
}

/// As far as it costs nothing.
pub fn walk(code: &Code, from: usize, base: usize, values: &mut Vec<Value>) -> Stop
    requires within { base ≤ vec_len values.old }
    requires room { vec_len values.old + length code.now.nodes ≤ vec_capacity values.old }
    ensures same { stop_prog (means_of code.now) result (drop base values.new.items) ≡ means_of code.now from (drop base values.old.items) }
    ensures rest { take base values.new.items ≡ take base values.old.items }
    ensures within { base ≤ vec_len values.new }
    ensures capacity { vec_capacity values.new ≡ vec_capacity values.old }
    ensures plain { StopsPlain code.now.nodes result }
{
    if from >= code.nodes.len() {
        return Stop::TooBig;
    }
    let mut at = from;
    loop {
        match hop_from(code, at, base, values) {
            Hop::To(next) => {
                at = next;
            }
            Hop::Stop(stop) => {
                return stop;
            }
        }
    }
}
