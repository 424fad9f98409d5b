// The values of expressions.
ghost use Rattle.std.specs.Prelude.{◌≡◌, ◌+◌, ◌-◌, ◌*◌, nat_lt, nat_le, not, ◌&&◌, ◌||◌, Some};
ghost use Rattle.tht_tree.specs.Values.{nat_in as nat_of, bool_in as bool_of, place_in as place_of, same_value as same_of, same_place as same_place_of};
ghost use Rattle.tht_tree.specs.Terms.{offset_by, implies};
ghost use Rattle.code_form.specs.Eval.{fitting as fitting_of, one, both, applied, var_in, eval_of};

use crate::expr::{Expr, Op};
use sqlite_items::Boxed;
use tht_tree::plain::{Place, Value};

// The first number that does not fit the machine.
const NUMBER_LIMIT: u128 = 0x1_0000_0000_0000_0000;

/// The value of an expression, where the variables have these values in the order in which they were bound. There is none
/// where the expression or a part of it does not fit the machine.
///
/// It recurses on the expression. A level takes few bytes of the stack, since no arm has a value of its own.
#[cycle(eval)]
pub fn eval(e: &Expr, env: &[Value]) -> Option<Value>
    ensures { result ≡ eval_of e.now env.now }
{
    match e {
        Expr::Lit(v) => fitting(*v),
        Expr::Var(k) => fitting(var(env, *k)),
        Expr::Len(a) => over_length(a, env),
        Expr::Offset(a, k) => over_offset(a, *k, env),
        Expr::Not(a) => over_not(a, env),
        Expr::Both(op, a, b) => over_two(*op, a, b, env),
    }
}

// An operation on the values of two expressions.
#[cycle(eval)]
#[inline(never)]
fn over_two(op: Op, a: &Boxed<Expr>, b: &Boxed<Expr>, env: &[Value]) -> Option<Value>
    ensures { result ≡ both (applied op) (eval_of a.now env.now) (eval_of b.now env.now) }
{
    let left = eval(a.get(), env)?;
    let right = eval(b.get(), env)?;
    apply(op, left, right)
}

#[cycle(eval)]
#[inline(never)]
fn over_length(a: &Boxed<Expr>, env: &[Value]) -> Option<Value>
    ensures { result ≡ one (λ x. Some (Value.Nat 0)) (eval_of a.now env.now) }
{
    length(eval(a.get(), env)?)
}

#[cycle(eval)]
#[inline(never)]
fn over_offset(a: &Boxed<Expr>, cells: u8, env: &[Value]) -> Option<Value>
    ensures { result ≡ one (λ x. fitting_of (Value.Loc (offset_by cells (place_of x)))) (eval_of a.now env.now) }
{
    moved(eval(a.get(), env)?, cells)
}

#[cycle(eval)]
#[inline(never)]
fn over_not(a: &Boxed<Expr>, env: &[Value]) -> Option<Value>
    ensures { result ≡ one (λ x. Some (Value.Bool (not (bool_of x)))) (eval_of a.now env.now) }
{
    negation(eval(a.get(), env)?)
}

#[inline(never)]
fn apply(op: Op, left: Value, right: Value) -> Option<Value>
    ensures { result ≡ applied op left right }
{
    match op {
        Op::Mul => product(left, right),
        Op::Add => sum(left, right),
        Op::Sub => difference(left, right),
        Op::Eq => equation(left, right),
        Op::Lt => less(left, right),
        Op::Le => at_most(left, right),
        Op::And => conjunction(left, right),
        Op::Or => disjunction(left, right),
        Op::Imp => implication(left, right),
    }
}

// The value of the variable after which so many were bound, or `()` where there is none.
fn var(env: &[Value], k: usize) -> Value
    ensures { result ≡ var_in env.now k }
{
    if k < env.len() {
        env[env.len() - 1 - k]
    } else {
        Value::Unit
    }
}

// The value, if it fits the machine.
fn fitting(value: Value) -> Option<Value>
    ensures { result ≡ fitting_of value }
{
    match value {
        Value::Nat(n) if n >= NUMBER_LIMIT => None,
        _ => Some(value),
    }
}

// The length of a value of a program: it is no sequence, and counts as the empty one.
fn length(_value: Value) -> Option<Value>
    ensures { result ≡ Some (Value.Nat 0) }
{
    Some(Value::Nat(0))
}

// The place so many cells further. Null stays null, and a root has no further place.
fn moved(place: Value, cells: u8) -> Option<Value>
    ensures { result ≡ fitting_of (Value.Loc (offset_by cells (place_of place))) }
{
    match place {
        Value::Loc(Place::Cell { arena, index }) => {
            let index = index.checked_add(u64::from(cells))?;
            Some(Value::Loc(Place::Cell { arena, index }))
        }
        Value::Loc(Place::Root(root)) if cells == 0 => Some(Value::Loc(Place::Root(root))),
        _ => Some(Value::Loc(Place::Null)),
    }
}

fn product(left: Value, right: Value) -> Option<Value>
    ensures { result ≡ fitting_of (Value.Nat (nat_of left * nat_of right)) }
{
    let product = nat_in(left).checked_mul(nat_in(right))?;
    fitting(Value::Nat(product))
}

fn sum(left: Value, right: Value) -> Option<Value>
    ensures { result ≡ fitting_of (Value.Nat (nat_of left + nat_of right)) }
{
    let total = nat_in(left).checked_add(nat_in(right))?;
    fitting(Value::Nat(total))
}

// What is left of the first number, at least 0.
fn difference(left: Value, right: Value) -> Option<Value>
    ensures { result ≡ fitting_of (Value.Nat (nat_of left - nat_of right)) }
{
    let rest = nat_in(left).saturating_sub(nat_in(right));
    fitting(Value::Nat(rest))
}

fn equation(left: Value, right: Value) -> Option<Value>
    ensures { result ≡ Some (Value.Bool (same_of left right)) }
{
    Some(Value::Bool(same_value(left, right)))
}

fn less(left: Value, right: Value) -> Option<Value>
    ensures { result ≡ Some (Value.Bool (nat_lt (nat_of left) (nat_of right))) }
{
    Some(Value::Bool(nat_in(left) < nat_in(right)))
}

fn at_most(left: Value, right: Value) -> Option<Value>
    ensures { result ≡ Some (Value.Bool (nat_le (nat_of left) (nat_of right))) }
{
    Some(Value::Bool(nat_in(left) <= nat_in(right)))
}

fn negation(value: Value) -> Option<Value>
    ensures { result ≡ Some (Value.Bool (not (bool_of value))) }
{
    Some(Value::Bool(!is_true(value)))
}

fn conjunction(left: Value, right: Value) -> Option<Value>
    ensures { result ≡ Some (Value.Bool (bool_of left && bool_of right)) }
{
    Some(Value::Bool(is_true(left) && is_true(right)))
}

fn disjunction(left: Value, right: Value) -> Option<Value>
    ensures { result ≡ Some (Value.Bool (bool_of left || bool_of right)) }
{
    Some(Value::Bool(is_true(left) || is_true(right)))
}

fn implication(left: Value, right: Value) -> Option<Value>
    ensures { result ≡ Some (Value.Bool (implies (bool_of left) (bool_of right))) }
{
    Some(Value::Bool(!is_true(left) || is_true(right)))
}

/// Whether the value is `true`, where one of another sort counts as `false`.
pub fn is_true(value: Value) -> bool
    ensures { result ≡ bool_of value }
{
    match value {
        Value::Bool(truth) => truth,
        _ => false,
    }
}

// The value as a number, where one of another sort counts as 0.
fn nat_in(value: Value) -> u128
    ensures { result ≡ nat_of value }
{
    match value {
        Value::Nat(n) => n,
        _ => 0,
    }
}

fn same_value(left: Value, right: Value) -> bool
    ensures { result ≡ same_of left right }
{
    match (left, right) {
        (Value::Nat(m), Value::Nat(n)) => m == n,
        (Value::Bool(a), Value::Bool(b)) => a == b,
        (Value::Loc(p), Value::Loc(q)) => same_place(p, q),
        (Value::Unit, Value::Unit) => true,
        _ => false,
    }
}

fn same_place(left: Place, right: Place) -> bool
    ensures { result ≡ same_place_of left right }
{
    match (left, right) {
        (Place::Null, Place::Null) => true,
        (Place::Root(r), Place::Root(s)) => r == s,
        (Place::Cell { arena: a, index: i }, Place::Cell { arena: b, index: j }) => a == b
            && i == j,
        _ => false,
    }
}

/// The value as a place, where one of another sort counts as null.
pub fn place(value: Value) -> Place
    ensures { result ≡ place_of value }
{
    match value {
        Value::Loc(place) => place,
        _ => Place::Null,
    }
}
