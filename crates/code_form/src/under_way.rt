// A body on its way.
ghost use Rattle.std.specs.Prelude.{◌≡◌, ◌+◌, ◌≤◌, ◌<◌, ◌++◌, IfOk, OnOk, OnErr, [], ◌∷◌, length};
ghost use Rattle.tht_logic.specs.Machine.{and_then};
ghost use Rattle.tht_tree.specs.declared.plain.Value.TheVariants as value;
ghost use Rattle.code_form.specs.Codes.{means_of, bodies_of, body_at};
ghost use Rattle.code_form.specs.Means.{cut};
ghost use Rattle.code_form.specs.Stack.{arguments_of, values_in, IsAtEnd, IsPlainFront};
ghost use Rattle.code_form.specs.Stacks.{env_of, behind_of, stack_prog, is_block_node, is_fork_node, StandsAt, ended_in, inner_in, split_in, IsBlockFrom, ForksTo};
ghost use Rattle.code_form.specs.Fronts.{front_ask, FrontTakes, front_after, front_cells, block_rest, fork_rest, IsFork};

use crate::ask::{Ask, ask_at};
use crate::code::{Code, Node};
use crate::expr::Expr;
use crate::frames::{Bound, Frame, Front, begin, earlier, enter, go_on};
use crate::walk::env_at;
use crate::ways::{After, Into, Joined, Told, Way, arguments, way_at};
use std::alloc::Global;
use std::marker::Model;
use tht_tree::plain::{Memory, Place, Value};

/// A body on its way: what stands in front, and the values of the variables of all calls that are under way, with their frames.
#[derive(Drop)]
pub(crate) struct Stack {
    front: Front,
    base: usize,
    values: Vec<Value>,
    frames: Vec<Frame>,
}

impl Model for Stack {
    ghost use Rattle.std.specs.Prelude.{vec_len};
    ghost use Rattle.code_form.specs.StackValue.{StackValue, IsStack};

    ghost Value = { StackValue };

    ghost view = { λ s. record {
      front = s.front;
      base = s.base;
      values = s.values.items;
      frames = s.frames.items;
    } };

    ghost invariant = { λ s. IsStack s.front s.base (vec_len s.values) s.frames.items };
}

/// The nodes that the two bodies of a fork begin with.
#[derive(Clone, Copy, Debug)]
pub(crate) struct Sides {
    pub left: usize,
    pub right: usize,
}

impl Stack {
    /// A body that has a value.
    pub fn new(alloc: Global) -> Stack
        ensures { result.front ≡ Front.Ended value.Unit }
    {
        Stack {
            front: Front::Ended(Value::Unit),
            base: 0,
            values: Vec::new(alloc),
            frames: Vec::new(alloc),
        }
    }

    /// An equal one.
    pub fn copy(&self) -> Result<Stack, Memory>
        ensures { IfOk result (λ s. s ≡ self.now) }
    {
        let values = self.values.clone()?;
        let frames = self.frames.clone()?;
        Ok(Stack {
            front: self.front,
            base: self.base,
            values,
            frames,
        })
    }

    /// The allocator of its values.
    pub fn alloc(&self) -> Global {
        *self.values.allocator()
    }

    /// The values of the innermost variables.
    pub fn env(&self) -> &[Value]
        ensures { result.now ≡ env_of self.now }
    {
        env_at(self.values.as_slice(), self.base)
    }

    /// The value of the body, where it has one.
    pub fn ended(&self) -> Option<Value>
        ensures value { result ≡ ended_in self.now.front }
        ensures at_end { IsAtEnd self.now.front self.now.frames }
    {
        match self.front {
            Front::Ended(v) => Some(v),
            _ => None,
        }
    }

    /// What stands in front.
    pub fn ask(&self, code: &Code) -> Ask
        requires of_code { IsPlainFront code.now.nodes self.now.front }
        ensures { result ≡ front_ask (stack_prog code.now self.now) }
    {
        match self.front {
            Front::At(at) => match code.nodes.get(at) {
                Some(node) => ask_at(node, self.env(), code.bodies.len()),
                None => Ask::FrontBig,
            },
            Front::Ended(v) => Ask::Value(v),
            Front::TooBig => Ask::FrontBig,
        }
    }

    /// Begins anew at a node, where the variables have these values. After want of memory it is as it was.
    pub fn begin(&mut self, code: &Code, from: usize, env: &[Value]) -> Result<(), Memory>
        ensures of_code { OnOk result (IsPlainFront code.now.nodes self.new.front) }
        ensures program { OnOk result (stack_prog code.now self.new ≡ means_of code.now from env.now) }
        ensures err { OnErr result (self.new ≡ self.old) }
    {
        let on = begin(code, from, env, &mut self.values, &mut self.frames)?;
        self.front = on.front;
        self.base = on.base;
        Ok(())
    }

    /// Goes past the plain statement in front, which was carried out, and gives the number of cells that it made; the first of
    /// these is at this place. After want of memory it is as it was.
    pub fn tell(&mut self, code: &Code, told: Told, place: Place) -> Result<usize, Memory>
        requires of_code { IsPlainFront code.now.nodes self.old.front }
        requires takes { FrontTakes (stack_prog code.now self.old) told }
        ensures of_code { OnOk result (IsPlainFront code.now.nodes self.new.front) }
        ensures program { OnOk result (stack_prog code.now self.new ≡ front_after (bodies_of code.now) place (stack_prog code.now self.old) told) }
        ensures cells { IfOk result (λ n. n ≡ front_cells (stack_prog code.now self.old)) }
        ensures few { IfOk result (λ n. n ≤ 8) }
        ensures err { OnErr result (self.new ≡ self.old) }
    {
        let Front::At(at) = self.front else {
            unreachable!()
        };
        let Some(node) = code.nodes.get(at) else {
            unreachable!()
        };
        match way_at(node, told, place) {
            Way::On(after) => self.go_past(code, at, after),
            Way::In(into) => self.go_into(code, at, into, arguments(node)),
            Way::Nowhere => unreachable!(),
        }
    }

    fn go_past(&mut self, code: &Code, at: usize, after: After) -> Result<usize, Memory>
        ensures of_code { OnOk result (IsPlainFront code.now.nodes self.new.front) }
        ensures program { OnOk result (stack_prog code.now self.new ≡ and_then (cut at (means_of code.now) after.next (env_of self.old ++ values_in after.bound)) (behind_of code.now self.old)) }
        ensures cells { IfOk result (λ n. n ≡ after.cells) }
        ensures err { OnErr result (self.new ≡ self.old) }
    {
        self.go_on_from(code, at, after.next, after.bound)?;
        Ok(after.cells)
    }

    fn go_into(&mut self, code: &Code, at: usize, into: Into, es: &[Expr]) -> Result<usize, Memory>
        requires { into.body < length code.now.bodies }
        ensures of_code { OnOk result (IsPlainFront code.now.nodes self.new.front) }
        ensures program { OnOk result (stack_prog code.now self.new ≡ and_then (body_at code.now into.body (arguments_of (env_of self.old) es.now)) (λ v. and_then (cut at (means_of code.now) into.next (env_of self.old ++ v ∷ [])) (behind_of code.now self.old))) }
        ensures cells { IfOk result (λ n. n ≡ 0) }
        ensures err { OnErr result (self.new ≡ self.old) }
    {
        self.call(code, at, into, es)?;
        Ok(0)
    }

    // Goes on after the node numbered `at`.
    fn go_on_from(
        &mut self,
        code: &Code,
        at: usize,
        next: usize,
        bound: Bound,
    ) -> Result<(), Memory>
        ensures of_code { OnOk result (IsPlainFront code.now.nodes self.new.front) }
        ensures program { OnOk result (stack_prog code.now self.new ≡ and_then (cut at (means_of code.now) next (env_of self.old ++ values_in bound)) (behind_of code.now self.old)) }
        ensures err { OnErr result (self.new ≡ self.old) }
    {
        let on = go_on(
            code,
            at,
            next,
            bound,
            self.base,
            &mut self.values,
            &mut self.frames,
        )?;
        self.front = on.front;
        self.base = on.base;
        Ok(())
    }

    // Goes into a body from the node numbered `at`, with the values of these arguments.
    fn call(&mut self, code: &Code, at: usize, into: Into, es: &[Expr]) -> Result<(), Memory>
        requires { into.body < length code.now.bodies }
        ensures of_code { OnOk result (IsPlainFront code.now.nodes self.new.front) }
        ensures program { OnOk result (stack_prog code.now self.new ≡ and_then (body_at code.now into.body (arguments_of (env_of self.old) es.now)) (λ v. and_then (cut at (means_of code.now) into.next (env_of self.old ++ v ∷ [])) (behind_of code.now self.old))) }
        ensures err { OnErr result (self.new ≡ self.old) }
    {
        let Some(body) = code.bodies.get(into.body) else {
            unreachable!()
        };
        let next = earlier(code, into.next, at);
        let on = enter(
            code,
            es,
            next,
            body.start,
            self.base,
            &mut self.values,
            &mut self.frames,
        )?;
        self.front = on.front;
        self.base = on.base;
        Ok(())
    }

    /// The node that the atomic block in front begins with, where one stands there.
    pub fn block(&self, code: &Code) -> Option<usize>
        requires of_code { IsPlainFront code.now.nodes self.now.front }
        ensures { IsBlockFrom code.now self.now result }
    {
        match self.front {
            Front::At(at) => match code.nodes.get(at) {
                Some(node) => match block_of(node) {
                    Some(inner) => Some(earlier(code, inner.first, at)),
                    None => None,
                },
                None => None,
            },
            Front::Ended(_) => None,
            Front::TooBig => None,
        }
    }

    /// The nodes that the bodies of the fork in front begin with.
    pub fn sides(&self, code: &Code) -> Sides
        requires of_code { IsPlainFront code.now.nodes self.now.front }
        requires forks { IsFork (stack_prog code.now self.now) }
        ensures { ForksTo code.now self.now result }
    {
        let Front::At(at) = self.front else {
            unreachable!()
        };
        let Some(node) = code.nodes.get(at) else {
            unreachable!()
        };
        let Some(split) = fork_of(node) else {
            unreachable!()
        };
        Sides {
            left: earlier(code, split.left, at),
            right: earlier(code, split.right, at),
        }
    }

    /// Goes on behind the atomic block in front, whose body has this value. After want of memory it is as it was.
    pub fn leave(&mut self, code: &Code, v: Value) -> Result<(), Memory>
        requires { StandsAt is_block_node code.now.nodes self.old.front }
        ensures of_code { OnOk result (IsPlainFront code.now.nodes self.new.front) }
        ensures program { OnOk result (stack_prog code.now self.new ≡ block_rest (stack_prog code.now self.old) v) }
        ensures err { OnErr result (self.new ≡ self.old) }
    {
        match self.front {
            Front::At(at) => match code.nodes.get(at) {
                Some(node) => match block_of(node) {
                    Some(inner) => self.go_on_from(code, at, inner.next, Bound::One(v)),
                    None => unreachable!(),
                },
                None => unreachable!(),
            },
            Front::Ended(_) => unreachable!(),
            Front::TooBig => unreachable!(),
        }
    }

    /// Goes on behind the fork in front, whose bodies have these values. After want of memory it is as it was.
    pub fn join(&mut self, code: &Code, ends: Joined) -> Result<(), Memory>
        requires { StandsAt is_fork_node code.now.nodes self.old.front }
        ensures of_code { OnOk result (IsPlainFront code.now.nodes self.new.front) }
        ensures program { OnOk result (stack_prog code.now self.new ≡ fork_rest (stack_prog code.now self.old) ends.x ends.y) }
        ensures err { OnErr result (self.new ≡ self.old) }
    {
        match self.front {
            Front::At(at) => match code.nodes.get(at) {
                Some(node) => match fork_of(node) {
                    Some(split) => self.go_on_from(
                        code,
                        at,
                        split.next,
                        Bound::Two(ends.x, ends.y),
                    ),
                    None => unreachable!(),
                },
                None => unreachable!(),
            },
            Front::Ended(_) => unreachable!(),
            Front::TooBig => unreachable!(),
        }
    }
}

/// The nodes of an atomic block: the one that it begins with, and the one behind it.
#[derive(Clone, Copy, Debug)]
pub(crate) struct Inner {
    pub first: usize,
    pub next: usize,
}

/// The nodes of a fork: those that its bodies begin with, and the one behind the join.
#[derive(Clone, Copy, Debug)]
pub(crate) struct Split {
    pub left: usize,
    pub right: usize,
    pub next: usize,
}

fn block_of(node: &Node) -> Option<Inner>
    ensures { result ≡ inner_in node.now }
{
    match node {
        Node::Atomic(first, next) => Some(Inner {
            first: *first,
            next: *next,
        }),
        _ => None,
    }
}

fn fork_of(node: &Node) -> Option<Split>
    ensures { result ≡ split_in node.now }
{
    match node {
        Node::Fork(left, right, next) => Some(Split {
            left: *left,
            right: *right,
            next: *next,
        }),
        _ => None,
    }
}
