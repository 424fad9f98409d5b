// The frames of the calls that are under way, over one stack of values.
ghost use Rattle.std.specs.Prelude.{◌≡◌, ◌+◌, ◌≤◌, ◌<◌, drop, take, length, List, [], ◌∷◌, ◌++◌, vec_len, vec_capacity, IfOk, OnErr};
ghost use Rattle.tht_logic.specs.Machine.{Ended, and_then};
ghost use Rattle.tht_tree.specs.declared.plain.Value.{Value as ValueOf};
ghost use Rattle.code_form.specs.Codes.{means_of};
ghost use Rattle.code_form.specs.Means.{cut};
ghost use Rattle.code_form.specs.Stack.{Chain, rests, front_prog, IsAtEnd, IsPlainFront, value_or_unit, arguments_of, values_in};

use crate::code::Code;
use crate::eval::eval;
use crate::expr::Expr;
use crate::walk::{Stop, walk};
use std::alloc::AllocError;
use tht_tree::plain::Value;

/// Where a call goes on: the node, where its variables begin, and how many values there were.
#[derive(Clone, Copy, Debug, PartialEq, Eq)]
pub struct Frame {
    pub next: usize,
    pub base: usize,
    pub len: usize,
}

#[derive(Clone, Copy, Debug, PartialEq, Eq)]
pub enum Front {
    At(usize),
    Ended(Value),
    TooBig,
}

/// The values that a statement binds.
#[derive(Clone, Copy, Debug)]
pub enum Bound {
    Nothing,
    One(Value),
    Two(Value, Value),
}

#[derive(Clone, Copy, Debug)]
pub struct Resolved {
    pub front: Front,
    pub base: usize,
}

// A node that stands before another.
pub fn earlier(code: &Code, next: usize, at: usize) -> usize
    ensures { (env : List ValueOf) → means_of code.now result env ≡ cut at (means_of code.now) next env }
{
    if next < at { next } else { code.nodes.len() }
}

// Binds the values.
fn bind(bound: Bound, values: &mut Vec<Value>)
    requires { vec_len values.old + 1 < vec_capacity values.old }
    ensures items { values.new.items ≡ values.old.items ++ values_in bound }
    ensures less { vec_len values.old ≤ vec_len values.new }
    ensures len { vec_len values.new ≤ vec_len values.old + 2 }
    ensures capacity { vec_capacity values.new ≡ vec_capacity values.old }
{
    match bound {
        Bound::Nothing => {}
        Bound::One(v) => values.push_reserved(v),
        Bound::Two(v, w) => push_two(v, w, values),
    }
}

fn push_two(v: Value, w: Value, values: &mut Vec<Value>)
    requires { vec_len values.old + 1 < vec_capacity values.old }
    ensures items { values.new.items ≡ values.old.items ++ v ∷ w ∷ [] }
    ensures len { vec_len values.new ≡ vec_len values.old + 2 }
    ensures capacity { vec_capacity values.new ≡ vec_capacity values.old }
{
    values.push_reserved(v);
    values.push_reserved(w);
}

/// Goes on at a node after the one numbered `at`, with these values bound.
pub fn go_on(
    code: &Code,
    at: usize,
    next: usize,
    bound: Bound,
    base: usize,
    values: &mut Vec<Value>,
    frames: &mut Vec<Frame>,
) -> Result<Resolved, AllocError>
    requires chain { Chain 0 frames.old.items base }
    requires within { base ≤ vec_len values.old }
    ensures same { IfOk result (λ r. front_prog (means_of code.now) r.front (drop r.base values.new.items) (rests (means_of code.now) values.new.items frames.new.items Ended) ≡ and_then (cut at (means_of code.now) next (drop base values.old.items ++ values_in bound)) (rests (means_of code.now) values.old.items frames.old.items Ended)) }
    ensures chain { IfOk result (λ r. Chain 0 frames.new.items r.base) }
    ensures within { IfOk result (λ r. r.base ≤ vec_len values.new) }
    ensures end { IfOk result (λ r. IsAtEnd r.front frames.new.items) }
    ensures plain { IfOk result (λ r. IsPlainFront code.now.nodes r.front) }
    ensures values { OnErr result (values.new.items ≡ values.old.items) }
    ensures frames { OnErr result (frames.new.items ≡ frames.old.items) }
{
    values.reserve(code.nodes.len() + 3)?;
    bind(bound, values);
    let from = earlier(code, next, at);
    Ok(resolve(code, from, base, values, frames))
}

/// Back from a call with its value.
fn come_back(frame: Frame, v: Value, values: &mut Vec<Value>)
    requires within { (frame.base ≤ frame.len) }
    requires len { frame.len ≤ vec_len values.old }
    requires room { frame.len < vec_capacity values.old }
    ensures items { values.new.items ≡ take frame.len values.old.items ++ v ∷ [] }
    ensures len { vec_len values.new ≡ frame.len + 1 }
    ensures capacity { vec_capacity values.new ≡ vec_capacity values.old }
{
    values.truncate(frame.len);
    values.push_reserved(v);
}

/// What stands in front: past the ifs, the ends of inner bodies and the ends of calls.
pub fn resolve(
    code: &Code,
    from: usize,
    from_base: usize,
    values: &mut Vec<Value>,
    frames: &mut Vec<Frame>,
) -> Resolved
    requires chain { Chain 0 frames.old.items from_base }
    requires within { from_base ≤ vec_len values.old }
    requires room { vec_len values.old + length code.now.nodes < vec_capacity values.old }
    ensures same { front_prog (means_of code.now) result.front (drop result.base values.new.items) (rests (means_of code.now) values.new.items frames.new.items Ended) ≡ and_then (means_of code.now from (drop from_base values.old.items)) (rests (means_of code.now) values.old.items frames.old.items Ended) }
    ensures chain { Chain 0 frames.new.items result.base }
    ensures within { result.base ≤ vec_len values.new }
    ensures end { IsAtEnd result.front frames.new.items }
    ensures plain { IsPlainFront code.now.nodes result.front }
{
    let mut at = from;
    let mut base = from_base;
    loop {
        match walk(code, at, base, values) {
            Stop::Stands(i) => {
                return Resolved {
                    front: Front::At(i),
                    base,
                };
            }
            Stop::TooBig => {
                return Resolved {
                    front: Front::TooBig,
                    base,
                };
            }
            Stop::Gives(v) => match frames.pop() {
                Some(frame) => {
                    come_back(frame, v, values);
                    at = frame.next;
                    base = frame.base;
                }
                None => {
                    return Resolved {
                        front: Front::Ended(v),
                        base,
                    };
                }
            },
        }
    }
}

fn or_unit(v: Option<Value>) -> Value
    ensures { result ≡ value_or_unit v }
{
    match v {
        Some(v) => v,
        None => Value::Unit,
    }
}

/// The values of a call's arguments, on top of the others.
fn push_values(es: &[Expr], base: usize, values: &mut Vec<Value>)
    requires within { base ≤ vec_len values.old }
    requires room { vec_len values.old + length es.now ≤ vec_capacity values.old }
    ensures items { values.new.items ≡ values.old.items ++ arguments_of (drop base values.old.items) es.now }
    ensures len { vec_len values.new ≡ vec_len values.old + length es.now }
    ensures capacity { vec_capacity values.new ≡ vec_capacity values.old }
{
    let len = values.len();
    for e in es {
        let v = or_unit(eval(e, env_to(values.as_slice(), base, len)));
        values.push_reserved(v);
    }
}

fn env_to(values: &[Value], base: usize, len: usize) -> &[Value]
    requires { (base ≤ len) × (len ≤ length values.now) }
    ensures { result.now ≡ drop base (take len values.now) }
{
    &values[base..len]
}

/// Into a body, with the values of its arguments.
pub fn enter(
    code: &Code,
    es: &[Expr],
    next: usize,
    body: usize,
    base: usize,
    values: &mut Vec<Value>,
    frames: &mut Vec<Frame>,
) -> Result<Resolved, AllocError>
    requires chain { Chain 0 frames.old.items base }
    requires within { base ≤ vec_len values.old }
    ensures same { IfOk result (λ r. front_prog (means_of code.now) r.front (drop r.base values.new.items) (rests (means_of code.now) values.new.items frames.new.items Ended) ≡ and_then (means_of code.now body (arguments_of (drop base values.old.items) es.now)) (λ v. and_then (means_of code.now next (drop base values.old.items ++ v ∷ [])) (rests (means_of code.now) values.old.items frames.old.items Ended))) }
    ensures chain { IfOk result (λ r. Chain 0 frames.new.items r.base) }
    ensures within { IfOk result (λ r. r.base ≤ vec_len values.new) }
    ensures end { IfOk result (λ r. IsAtEnd r.front frames.new.items) }
    ensures plain { IfOk result (λ r. IsPlainFront code.now.nodes r.front) }
    ensures values { OnErr result (values.new.items ≡ values.old.items) }
    ensures frames { OnErr result (frames.new.items ≡ frames.old.items) }
{
    let len = values.len();
    values.reserve(code.nodes.len() + 1 + es.len())?;
    frames.reserve(1)?;
    push_values(es, base, values);
    frames.push_reserved(Frame { next, base, len });
    Ok(resolve(code, body, len, values, frames))
}

/// Begins at a node, where the variables have these values, and nothing else is under way.
pub fn begin(
    code: &Code,
    from: usize,
    env: &[Value],
    values: &mut Vec<Value>,
    frames: &mut Vec<Frame>,
) -> Result<Resolved, AllocError>
    ensures same { IfOk result (λ r. front_prog (means_of code.now) r.front (drop r.base values.new.items) (rests (means_of code.now) values.new.items frames.new.items Ended) ≡ means_of code.now from env.now) }
    ensures chain { IfOk result (λ r. Chain 0 frames.new.items r.base) }
    ensures within { IfOk result (λ r. r.base ≤ vec_len values.new) }
    ensures end { IfOk result (λ r. IsAtEnd r.front frames.new.items) }
    ensures plain { IfOk result (λ r. IsPlainFront code.now.nodes r.front) }
    ensures values { OnErr result (values.new.items ≡ values.old.items) }
    ensures frames { OnErr result (frames.new.items ≡ frames.old.items) }
{
    values.reserve(env.len() + code.nodes.len() + 1)?;
    frames.clear();
    replace_values(env, values);
    Ok(resolve(code, from, 0, values, frames))
}

// These values in place of the others.
fn replace_values(env: &[Value], values: &mut Vec<Value>)
    requires room { length env.now ≤ vec_capacity values.old }
    ensures items { values.new.items ≡ env.now }
    ensures len { vec_len values.new ≡ length env.now }
    ensures capacity { vec_capacity values.old ≤ vec_capacity values.new }
{
    values.clear();
    match values.extend_from_slice(env) {
        Ok(()) => {}
        Err(_failed) => unreachable!(),
    }
}
