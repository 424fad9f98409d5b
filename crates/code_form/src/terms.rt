// Expressions of terms.
ghost use Rattle.std.specs.Prelude.{◌≡◌, map, reverse, IfOk};
ghost use Rattle.tht_tree.specs.Syntax.{position};
ghost use Rattle.code_form.specs.Lowering.{var_expr, expr_of};

use crate::expr::{Expr, Op};
use sqlite_items::{Boxed, Items};
use std::alloc::{AllocError, Global};
use tht_tree::plain::{Name, Place, Value};
use tht_tree::term::Term;

// A variable, where these names are bound, the innermost last. No program has a name that is not bound, which would count as
// `()`.
fn variable(bound: &[Name], name: &Name) -> Expr
    ensures { result ≡ var_expr (position 0 (reverse bound.now) name.now) }
{
    let mut rest = bound;
    let mut further = 0;
    while let Some((last, front)) = rest.split_last() {
        if last.same(name) {
            return Expr::Var(further);
        }
        further += 1;
        rest = front;
    }
    Expr::Lit(Value::Unit)
}

/// The expression of a term of a program, where these names are bound, the innermost last. No program has a term that makes a
/// sequence, which would count as `()`.
#[cycle(terms)]
pub(crate) fn lower_term(alloc: Global, term: &Term, bound: &[Name]) -> Result<Expr, AllocError>
    ensures { IfOk result (λ e. e ≡ expr_of (reverse bound.now) term.now) }
{
    match term {
        Term::Num(n) => Ok(Expr::Lit(Value::Nat(*n))),
        Term::True => Ok(Expr::Lit(Value::Bool(true))),
        Term::False => Ok(Expr::Lit(Value::Bool(false))),
        Term::Null => Ok(Expr::Lit(Value::Loc(Place::Null))),
        Term::Nil => Ok(Expr::Lit(Value::Unit)),
        Term::Unit => Ok(Expr::Lit(Value::Unit)),
        Term::Var(x) => Ok(variable(bound, x)),
        Term::Len(a) => Ok(Expr::Len(lower_part(alloc, a, bound)?)),
        Term::Offset(a, k) => Ok(Expr::Offset(lower_part(alloc, a, bound)?, *k)),
        Term::Mul(a, b) => lower_two(alloc, Op::Mul, a, b, bound),
        Term::Add(a, b) => lower_two(alloc, Op::Add, a, b, bound),
        Term::Sub(a, b) => lower_two(alloc, Op::Sub, a, b, bound),
        Term::Cons(_, _) => Ok(Expr::Lit(Value::Unit)),
        Term::Cat(_, _) => Ok(Expr::Lit(Value::Unit)),
        Term::Eq(a, b) => lower_two(alloc, Op::Eq, a, b, bound),
        Term::Lt(a, b) => lower_two(alloc, Op::Lt, a, b, bound),
        Term::Le(a, b) => lower_two(alloc, Op::Le, a, b, bound),
        Term::Not(a) => Ok(Expr::Not(lower_part(alloc, a, bound)?)),
        Term::And(a, b) => lower_two(alloc, Op::And, a, b, bound),
        Term::Or(a, b) => lower_two(alloc, Op::Or, a, b, bound),
        Term::Imp(a, b) => lower_two(alloc, Op::Imp, a, b, bound),
    }
}

#[cycle(terms)]
#[inline(never)]
fn lower_part(alloc: Global, part: &Boxed<Term>, bound: &[Name]) -> Result<Boxed<Expr>, AllocError>
    ensures { IfOk result (λ e. e ≡ expr_of (reverse bound.now) part.now) }
{
    let inner = lower_term(alloc, part.get(), bound)?;
    Boxed::new(alloc, inner)
}

#[cycle(terms)]
#[inline(never)]
fn lower_two(
    alloc: Global,
    op: Op,
    a: &Boxed<Term>,
    b: &Boxed<Term>,
    bound: &[Name],
) -> Result<Expr, AllocError>
    ensures { IfOk result (λ e. e ≡ Expr.Both op (expr_of (reverse bound.now) a.now) (expr_of (reverse bound.now) b.now)) }
{
    let left = lower_part(alloc, a, bound)?;
    let right = lower_part(alloc, b, bound)?;
    Ok(Expr::Both(op, left, right))
}

/// The expressions of terms, in their order.
pub(crate) fn lower_all(
    alloc: Global,
    terms: &[Term],
    bound: &[Name],
) -> Result<Items<Expr>, AllocError>
    ensures { IfOk result (λ es. es ≡ map (expr_of (reverse bound.now)) terms.now) }
{
    let mut exprs = Items::new(alloc);
    for term in terms {
        exprs.push(lower_term(alloc, term, bound)?)?;
    }
    Ok(exprs)
}
