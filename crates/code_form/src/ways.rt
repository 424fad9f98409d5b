// Where a statement goes on that was carried out.
ghost use Rattle.std.specs.Prelude.{◌≡◌};
ghost use Rattle.code_form.specs.Statements.{way_in, arguments_in, HasFewCells};

use crate::code::Node;
use crate::expr::Expr;
use crate::frames::Bound;
use tht_tree::plain::{Place, Value};

/// The values of the two bodies of a fork.
#[derive(Clone, Copy, Debug, PartialEq, Eq)]
pub struct Joined {
    pub x: Value,
    pub y: Value,
}

/// What a branch is told of the statement in front of it: that it was carried out, the value that it read, or the values of its
/// children, which have joined.
#[derive(Clone, Copy, Debug, PartialEq, Eq)]
pub enum Told {
    Went,
    Got(Value),
    Joined(Joined),
}

/// Where a statement that was carried out goes on: at a node, with these values bound and so many cells made.
#[derive(Clone, Copy, Debug)]
pub(crate) struct After {
    pub next: usize,
    pub bound: Bound,
    pub cells: usize,
}

/// Where a call goes: into a body, and then on at a node.
#[derive(Clone, Copy, Debug)]
pub(crate) struct Into {
    pub body: usize,
    pub next: usize,
}

#[derive(Clone, Copy, Debug)]
pub(crate) enum Way {
    On(After),
    In(Into),
    Nowhere,
}

fn on(next: usize, bound: Bound, cells: usize) -> Way
    ensures { result ≡ Way.On (record { next = next; bound = bound; cells = cells }) }
{
    Way::On(After { next, bound, cells })
}

/// Where a plain statement goes on that is told this, where the next new cell is at this place.
pub(crate) fn way_at(node: &Node, told: Told, place: Place) -> Way
    ensures way { result ≡ way_in node.now told place }
    ensures few { HasFewCells result }
{
    match told {
        Told::Got(v) => match node {
            Node::Read(_, _, next) => on(*next, Bound::One(v), 0),
            _ => Way::Nowhere,
        },
        Told::Went => way_on(node, place),
        Told::Joined(_) => Way::Nowhere,
    }
}

fn way_on(node: &Node, place: Place) -> Way
    ensures way { result ≡ way_in node.now Told.Went place }
    ensures few { HasFewCells result }
{
    match node {
        Node::Write(_, _, next) => on(*next, Bound::Nothing, 0),
        Node::Alloc(row, next) => on(*next, Bound::One(Value::Loc(place)), row.as_slice().len()),
        Node::Free(_, next) => on(*next, Bound::Nothing, 0),
        Node::Publish(_, next) => on(*next, Bound::Nothing, 0),
        Node::Retract(_, next) => on(*next, Bound::Nothing, 0),
        Node::Call(body, _, next) => Way::In(Into {
            body: *body,
            next: *next,
        }),
        _ => Way::Nowhere,
    }
}

/// The arguments of a call.
pub(crate) fn arguments(node: &Node) -> &[Expr]
    ensures { result.now ≡ arguments_in node.now }
{
    match node {
        Node::Call(_, es, _) => es.as_slice(),
        _ => &[],
    }
}
