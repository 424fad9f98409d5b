// Normal forms of small terms. What each must be is worked out by hand.
use pure_terms::{Scope, normal};
use sqlite_items::Boxed;
use std::alloc::{AllocError, Global};
use std::collections::BTreeMap;
use std::test::Fail;
use tht_tree::form::NormalEnd;
use tht_tree::plain::{Memory, Name, Sort};
use tht_tree::state::Local;
use tht_tree::term::{Term, same_term};

type Made = Result<Term, Memory>;

fn num(n: u128) -> Made {
    Ok(Term::Num(n))
}

fn var(alloc: Global, text: &str) -> Made {
    Ok(Term::Var(Name::new(String::from_str(alloc, text)?)))
}

fn boxed(alloc: Global, made: Made) -> Result<Boxed<Term>, Memory> {
    Ok(Boxed::new(alloc, made?)?)
}

fn add(alloc: Global, a: Made, b: Made) -> Made {
    let a = boxed(alloc, a)?;
    Ok(Term::Add(a, boxed(alloc, b)?))
}

fn mul(alloc: Global, a: Made, b: Made) -> Made {
    let a = boxed(alloc, a)?;
    Ok(Term::Mul(a, boxed(alloc, b)?))
}

fn sub(alloc: Global, a: Made, b: Made) -> Made {
    let a = boxed(alloc, a)?;
    Ok(Term::Sub(a, boxed(alloc, b)?))
}

fn cons(alloc: Global, a: Made, b: Made) -> Made {
    let a = boxed(alloc, a)?;
    Ok(Term::Cons(a, boxed(alloc, b)?))
}

fn cat(alloc: Global, a: Made, b: Made) -> Made {
    let a = boxed(alloc, a)?;
    Ok(Term::Cat(a, boxed(alloc, b)?))
}

fn eq(alloc: Global, a: Made, b: Made) -> Made {
    let a = boxed(alloc, a)?;
    Ok(Term::Eq(a, boxed(alloc, b)?))
}

fn lt(alloc: Global, a: Made, b: Made) -> Made {
    let a = boxed(alloc, a)?;
    Ok(Term::Lt(a, boxed(alloc, b)?))
}

fn le(alloc: Global, a: Made, b: Made) -> Made {
    let a = boxed(alloc, a)?;
    Ok(Term::Le(a, boxed(alloc, b)?))
}

fn len(alloc: Global, a: Made) -> Made {
    Ok(Term::Len(boxed(alloc, a)?))
}

fn offset(alloc: Global, a: Made, k: u8) -> Made {
    Ok(Term::Offset(boxed(alloc, a)?, k))
}

fn not(alloc: Global, a: Made) -> Made {
    Ok(Term::Not(boxed(alloc, a)?))
}

fn bind(alloc: Global, scope: &mut Scope, text: &str, sort: Sort) -> Result<(), AllocError> {
    let name = String::from_str(alloc, text)?;
    scope.insert(name, Local::Variable(sort))?;
    Ok(())
}

/// The numbers x and y, the sequences s and t, the truth b and the place p. Every other name is a root's.
fn scope(alloc: Global) -> Result<Scope, AllocError> {
    let mut scope = BTreeMap::new(alloc);
    bind(alloc, &mut scope, "x", Sort::Nat)?;
    bind(alloc, &mut scope, "y", Sort::Nat)?;
    bind(alloc, &mut scope, "s", Sort::Seq)?;
    bind(alloc, &mut scope, "t", Sort::Seq)?;
    bind(alloc, &mut scope, "b", Sort::Bool)?;
    bind(alloc, &mut scope, "p", Sort::Loc)?;
    Ok(scope)
}

/// Whether a term has this normal form.
fn is_normal(alloc: Global, term: Made, wanted: Made) -> Result<bool, Fail> {
    let wanted = wanted?;
    let found = normal_of(alloc, term)?;
    Ok(same_term(&found, &wanted))
}

fn normal_of(alloc: Global, term: Made) -> Result<Term, Fail> {
    let term = term?;
    let scope = scope(alloc)?;
    Ok(normal(alloc, &scope, &term)?)
}

/// Why a term has no normal form, if it has none.
fn normal_end(alloc: Global, term: Made) -> Result<Option<NormalEnd>, Fail> {
    let term = term?;
    let scope = scope(alloc)?;
    Ok(normal(alloc, &scope, &term).err())
}

// ---- numbers

#[test]
fn product_of_a_number_and_a_sum(rt: HostRuntime) -> Result<(), Fail> {
    let alloc = rt.alloc();
    // 2 * (x + 1) = 2 + 2 * x
    let term = mul(alloc, num(2), add(alloc, var(alloc, "x"), num(1)));
    let wanted = add(alloc, num(2), mul(alloc, num(2), var(alloc, "x")));
    assert!(rt; is_normal(alloc, term, wanted)?);
    Ok(())
}

#[test]
fn product_of_two_sums(rt: HostRuntime) -> Result<(), Fail> {
    let alloc = rt.alloc();
    // (x + 1) * (x + 2) = 2 + 3 * x + 1 * (x * x)
    let left = add(alloc, var(alloc, "x"), num(1));
    let right = add(alloc, var(alloc, "x"), num(2));
    let linear = add(alloc, num(2), mul(alloc, num(3), var(alloc, "x")));
    let square = mul(alloc, var(alloc, "x"), var(alloc, "x"));
    let wanted = add(alloc, linear, mul(alloc, num(1), square));
    assert!(rt; is_normal(alloc, mul(alloc, left, right), wanted)?);
    Ok(())
}

#[test]
fn sum_of_one_variable(rt: HostRuntime) -> Result<(), Fail> {
    let alloc = rt.alloc();
    // y + x + x = 2 * x + 1 * y
    let term = add(
        alloc,
        add(alloc, var(alloc, "y"), var(alloc, "x")),
        var(alloc, "x"),
    );
    let double = mul(alloc, num(2), var(alloc, "x"));
    let wanted = add(alloc, double, mul(alloc, num(1), var(alloc, "y")));
    assert!(rt; is_normal(alloc, term, wanted)?);
    Ok(())
}

#[test]
fn differences_of_numbers(rt: HostRuntime) -> Result<(), Fail> {
    let alloc = rt.alloc();
    assert!(rt; is_normal(alloc, sub(alloc, num(7), num(5)), num(2))?);
    assert!(rt; is_normal(alloc, sub(alloc, num(5), num(7)), num(0))?);
    assert!(rt; is_normal(alloc, sub(alloc, num(5), num(5)), num(0))?);
    Ok(())
}

#[test]
fn differences_of_terms(rt: HostRuntime) -> Result<(), Fail> {
    let alloc = rt.alloc();
    // x - 0 = 1 * x
    let one = mul(alloc, num(1), var(alloc, "x"));
    assert!(rt; is_normal(alloc, sub(alloc, var(alloc, "x"), num(0)), one)?);
    // x - x is an atom, whose sides are normal
    let sides = sub(
        alloc,
        mul(alloc, num(1), var(alloc, "x")),
        mul(alloc, num(1), var(alloc, "x")),
    );
    let term = sub(alloc, var(alloc, "x"), var(alloc, "x"));
    assert!(rt; is_normal(alloc, term, mul(alloc, num(1), sides))?);
    Ok(())
}

#[test]
fn numbers_that_are_wide(rt: HostRuntime) -> Result<(), Fail> {
    let alloc = rt.alloc();
    let above = normal_end(alloc, add(alloc, num(u128::MAX), num(1)))?;
    assert_eq!(rt; above, Some(NormalEnd::Wide));
    let square = normal_end(alloc, mul(alloc, num(1 << 64), num(1 << 64)))?;
    assert_eq!(rt; square, Some(NormalEnd::Wide));
    let last = normal_end(alloc, add(alloc, num(u128::MAX - 1), num(1)))?;
    assert_eq!(rt; last, None);
    Ok(())
}

// ---- sequences and places

#[test]
fn lengths(rt: HostRuntime) -> Result<(), Fail> {
    let alloc = rt.alloc();
    let len_s = mul(alloc, num(1), len(alloc, var(alloc, "s")));
    let len_t = mul(alloc, num(1), len(alloc, var(alloc, "t")));
    let term = len(alloc, cat(alloc, var(alloc, "s"), var(alloc, "t")));
    assert!(rt; is_normal(alloc, term, add(alloc, len_s, len_t))?);
    let longer = len(alloc, cons(alloc, num(9), var(alloc, "s")));
    let len_s = mul(alloc, num(1), len(alloc, var(alloc, "s")));
    assert!(rt; is_normal(alloc, longer, add(alloc, num(1), len_s))?);
    assert!(rt; is_normal(alloc, len(alloc, Ok(Term::Nil)), num(0))?);
    Ok(())
}

#[test]
fn appended_sequences(rt: HostRuntime) -> Result<(), Fail> {
    let alloc = rt.alloc();
    // (1 :: s) ++ t = 1 :: (s ++ (t ++ nil))
    let term = cat(alloc, cons(alloc, num(1), var(alloc, "s")), var(alloc, "t"));
    let rest = cat(
        alloc,
        var(alloc, "s"),
        cat(alloc, var(alloc, "t"), Ok(Term::Nil)),
    );
    assert!(rt; is_normal(alloc, term, cons(alloc, num(1), rest))?);
    Ok(())
}

#[test]
fn places(rt: HostRuntime) -> Result<(), Fail> {
    let alloc = rt.alloc();
    assert!(rt; is_normal(alloc, offset(alloc, Ok(Term::Null), 3), Ok(Term::Null))?);
    assert!(rt; is_normal(alloc, offset(alloc, var(alloc, "r"), 0), var(alloc, "r"))?);
    assert!(rt; is_normal(alloc, offset(alloc, var(alloc, "r"), 1), Ok(Term::Null))?);
    assert!(rt; is_normal(alloc, var(alloc, "p"), offset(alloc, var(alloc, "p"), 0))?);
    // p.3.5 = p.7.1
    let moved = offset(alloc, offset(alloc, var(alloc, "p"), 3), 5);
    let wanted = offset(alloc, offset(alloc, var(alloc, "p"), 7), 1);
    assert!(rt; is_normal(alloc, moved, wanted)?);
    Ok(())
}

// ---- formulas

#[test]
fn equations(rt: HostRuntime) -> Result<(), Fail> {
    let alloc = rt.alloc();
    assert!(rt; is_normal(alloc, eq(alloc, num(5), num(5)), Ok(Term::True))?);
    assert!(rt; is_normal(alloc, eq(alloc, num(5), num(7)), Ok(Term::False))?);
    let null_or_root = eq(alloc, Ok(Term::Null), var(alloc, "r"));
    assert!(rt; is_normal(alloc, null_or_root, Ok(Term::False))?);
    let kept = eq(alloc, mul(alloc, num(1), var(alloc, "x")), num(5));
    assert!(rt; is_normal(alloc, eq(alloc, var(alloc, "x"), num(5)), kept)?);
    let turned = not(alloc, var(alloc, "b"));
    assert!(rt; is_normal(alloc, eq(alloc, Ok(Term::False), var(alloc, "b")), turned)?);
    Ok(())
}

#[test]
fn orders(rt: HostRuntime) -> Result<(), Fail> {
    let alloc = rt.alloc();
    assert!(rt; is_normal(alloc, lt(alloc, num(5), num(7)), Ok(Term::True))?);
    assert!(rt;
        is_normal(
            alloc,
            lt(alloc, var(alloc, "x"), var(alloc, "x")),
            Ok(Term::False)
        )?
    );
    assert!(rt; is_normal(alloc, le(alloc, num(0), var(alloc, "x")), Ok(Term::True))?);
    assert!(rt; is_normal(alloc, le(alloc, num(7), num(5)), Ok(Term::False))?);
    let kept = le(alloc, num(1), mul(alloc, num(1), var(alloc, "x")));
    assert!(rt; is_normal(alloc, le(alloc, num(1), var(alloc, "x")), kept)?);
    Ok(())
}
