// Files and their texts, worked out by hand.
use crate::file::print;
use crate::term::term;
use crate::text::write_lines;
use crate::tokens::Tokens;
use sqlite_items::{Boxed, Items};
use std::alloc::{AllocError, Global};
use std::test::Fail;
use tht_tree::assn::Assn;
use tht_tree::body::{Body, End, EndKind};
use tht_tree::file::{Main, Source1};
use tht_tree::give::{Give, GiveKind};
use tht_tree::plain::{Name, Sort, Spot};
use tht_tree::proof::{Proof, ProofKind};
use tht_tree::term::Term;

const SPOT: Spot = Spot { line: 1, column: 1 };

type Node<T> = Result<Boxed<T>, AllocError>;

fn name(alloc: Global, text: &str) -> Result<Name, AllocError> {
    Ok(Name::new(String::from_str(alloc, text)?))
}

fn num(alloc: Global, value: u128) -> Node<Term> {
    Boxed::new(alloc, Term::Num(value))
}

fn var(alloc: Global, text: &str) -> Node<Term> {
    Boxed::new(alloc, Term::Var(name(alloc, text)?))
}

/// The operators with two operands.
#[derive(Clone, Copy)]
enum Operator {
    Mul,
    Add,
    Sub,
    Cons,
    Cat,
    Eq,
    Lt,
    Le,
    And,
    Or,
    Imp,
}

fn joined(op: Operator, x: Boxed<Term>, y: Boxed<Term>) -> Term {
    match op {
        Operator::Mul => Term::Mul(x, y),
        Operator::Add => Term::Add(x, y),
        Operator::Sub => Term::Sub(x, y),
        Operator::Cons => Term::Cons(x, y),
        Operator::Cat => Term::Cat(x, y),
        Operator::Eq => Term::Eq(x, y),
        Operator::Lt => Term::Lt(x, y),
        Operator::Le => Term::Le(x, y),
        Operator::And => Term::And(x, y),
        Operator::Or => Term::Or(x, y),
        Operator::Imp => Term::Imp(x, y),
    }
}

fn op(alloc: Global, op: Operator, x: Node<Term>, y: Node<Term>) -> Node<Term> {
    Boxed::new(alloc, joined(op, x?, y?))
}

fn emp(alloc: Global) -> Node<Assn> {
    Boxed::new(alloc, Assn::Emp)
}

fn fact(alloc: Global, t: Node<Term>) -> Node<Assn> {
    Boxed::new(alloc, Assn::Fact(t?))
}

fn star(alloc: Global, a: Node<Assn>, b: Node<Assn>) -> Node<Assn> {
    Boxed::new(alloc, Assn::Star(a?, b?))
}

fn either(alloc: Global, a: Node<Assn>, b: Node<Assn>) -> Node<Assn> {
    Boxed::new(alloc, Assn::Either(a?, b?))
}

fn exists(alloc: Global, x: &str, a: Node<Assn>) -> Node<Assn> {
    Boxed::new(alloc, Assn::Exists(name(alloc, x)?, Sort::Nat, a?))
}

fn calc(alloc: Global) -> Give {
    let _ = alloc;
    let proof = Proof {
        spot: SPOT,
        kind: ProofKind::Calc,
    };
    Give {
        spot: SPOT,
        kind: GiveKind::Fact(proof),
    }
}

/// `main r : nat { .. } { ret 7 by [ calc ] }`
fn main_with(alloc: Global, post: Boxed<Assn>) -> Result<Main, AllocError> {
    let end = End {
        spot: SPOT,
        kind: EndKind::Ret(num(alloc, 7)?, calc(alloc)),
    };
    let body = Boxed::new(
        alloc,
        Body {
            stmts: Items::new(alloc),
            end,
        },
    )?;
    Ok(Main {
        spot: SPOT,
        result: name(alloc, "r")?,
        sort: Sort::Nat,
        post: post.into_inner(),
        body,
    })
}

fn file_with(alloc: Global, post: Boxed<Assn>) -> Result<Source1, AllocError> {
    Ok(Source1 {
        version: 1,
        decls: Items::new(alloc),
        main: main_with(alloc, post)?,
    })
}

/// Whether the smallest file with this postcondition has this text for it.
fn has_text(alloc: Global, post: Node<Assn>, text: &str) -> Result<bool, AllocError> {
    let file = file_with(alloc, post?)?;
    let expected = format!(in alloc; "tht 1\nmain r : nat {{ {text} }} {{ ret 7 by [ calc ] }}\n")?;
    match print(alloc, &file) {
        Ok(bytes) => Ok(bytes.as_slice() == expected.as_bytes()),
        Err(_) => Err(AllocError),
    }
}

#[test]
fn the_smallest_file(rt: HostRuntime) -> Result<(), Fail> {
    let alloc = rt.alloc();
    let equation = op(alloc, Operator::Eq, var(alloc, "r"), num(alloc, 7));
    assert!(rt; has_text(alloc, fact(alloc, equation), "[ r = 7 ]")?);
    Ok(())
}

#[test]
fn operators_lean_as_the_grammar_does(rt: HostRuntime) -> Result<(), Fail> {
    let alloc = rt.alloc();
    let sum = op(alloc, Operator::Add, num(alloc, 1), num(alloc, 2));
    let product = op(alloc, Operator::Mul, sum, num(alloc, 3));
    let right = op(alloc, Operator::Sub, num(alloc, 5), num(alloc, 6));
    let difference = op(alloc, Operator::Sub, product, right);
    let order = op(alloc, Operator::Le, difference, num(alloc, 9));
    assert!(rt;
        has_text(
            alloc,
            fact(alloc, order),
            "[ ( 1 + 2 ) * 3 - ( 5 - 6 ) <= 9 ]"
        )?
    );
    Ok(())
}

#[test]
fn implications_and_lists_lean_to_the_right(rt: HostRuntime) -> Result<(), Fail> {
    let alloc = rt.alloc();
    let list = op(alloc, Operator::Cons, num(alloc, 1), var(alloc, "s"));
    let lists = op(alloc, Operator::Cat, list, var(alloc, "t"));
    let left = op(alloc, Operator::Imp, var(alloc, "a"), var(alloc, "b"));
    let right = op(
        alloc,
        Operator::Imp,
        var(alloc, "c"),
        op(alloc, Operator::Lt, lists, var(alloc, "u")),
    );
    let whole = op(alloc, Operator::Imp, left, right);
    assert!(rt;
        has_text(
            alloc,
            fact(alloc, whole),
            "[ ( a imp b ) imp c imp ( 1 :: s ) ++ t < u ]"
        )?
    );
    Ok(())
}

#[test]
fn an_exists_before_a_star_stands_in_parentheses(rt: HostRuntime) -> Result<(), Fail> {
    let alloc = rt.alloc();
    let inner = exists(alloc, "x", exists(alloc, "y", emp(alloc)));
    assert!(rt;
        has_text(
            alloc,
            star(alloc, inner, emp(alloc)),
            "( exists x : nat . exists y : nat . emp ) * emp"
        )?
    );
    let last = exists(alloc, "x", star(alloc, emp(alloc), emp(alloc)));
    assert!(rt;
        has_text(
            alloc,
            star(alloc, emp(alloc), last),
            "emp * exists x : nat . emp * emp"
        )?
    );
    Ok(())
}

#[test]
fn an_exists_that_ends_an_either_stands_in_parentheses(rt: HostRuntime) -> Result<(), Fail> {
    let alloc = rt.alloc();
    let choice = either(
        alloc,
        exists(alloc, "x", emp(alloc)),
        exists(alloc, "y", emp(alloc)),
    );
    assert!(rt;
        has_text(
            alloc,
            star(alloc, choice, emp(alloc)),
            "either exists x : nat . emp or ( exists y : nat . emp ) * emp"
        )?
    );
    let alone = either(alloc, emp(alloc), exists(alloc, "y", emp(alloc)));
    assert!(rt; has_text(alloc, alone, "either emp or exists y : nat . emp")?);
    Ok(())
}

/// `0 + 1 + 1 ..` with so many operators
fn long_sum(alloc: Global, operators: u32) -> Node<Term> {
    let mut sum = num(alloc, 0)?;
    for _ in 0..operators {
        sum = Boxed::new(alloc, Term::Add(sum, num(alloc, 1)?))?;
    }
    Ok(sum)
}

fn long_text(
    alloc: Global,
    open: &str,
    operators: u32,
    text: &mut String,
) -> Result<(), AllocError> {
    text.push_str(open)?;
    for _ in 0..operators {
        text.push_str(" + 1")?;
    }
    let _ = alloc;
    Ok(())
}

#[test]
fn at_most_64_operators_stand_bare(rt: HostRuntime) -> Result<(), Fail> {
    let alloc = rt.alloc();
    let mut bare = String::new(alloc);
    long_text(alloc, "[ 0", 64, &mut bare)?;
    bare.push_str(" ]")?;
    assert!(rt; has_text(alloc, fact(alloc, long_sum(alloc, 64)), bare.as_str())?);
    let mut split = String::new(alloc);
    long_text(alloc, "[ ( 0 + 1 )", 64, &mut split)?;
    split.push_str(" ]")?;
    assert!(rt; has_text(alloc, fact(alloc, long_sum(alloc, 65)), split.as_str())?);
    Ok(())
}

/// The term with so many operators of each of the five chains around it.
fn enclosed(alloc: Global, inner: Boxed<Term>, operators: u32) -> Node<Term> {
    let mut t = inner;
    for _ in 0..operators {
        t = Boxed::new(alloc, Term::Offset(t, 7))?;
    }
    for _ in 0..operators {
        t = op(alloc, Operator::Mul, Ok(t), num(alloc, 2))?;
    }
    for _ in 0..operators {
        t = op(alloc, Operator::Sub, Ok(t), num(alloc, 3))?;
    }
    for _ in 0..operators {
        t = op(alloc, Operator::And, Ok(t), num(alloc, 4))?;
    }
    for _ in 0..operators {
        t = op(alloc, Operator::Or, Ok(t), num(alloc, 5))?;
    }
    Ok(t)
}

/// The left operand of a term.
fn left_of(t: Term) -> Option<Boxed<Term>> {
    match t {
        Term::Offset(x, _offset) => Some(x),
        Term::Mul(x, _right) => Some(x),
        Term::Sub(x, _right) => Some(x),
        Term::And(x, _right) => Some(x),
        Term::Or(x, _right) => Some(x),
        _other => None,
    }
}

/// Lets go of a term by a loop, since each level of a drop takes room on the stack.
fn let_go(t: Boxed<Term>) {
    let mut left = Some(t);
    for _turn in 0..100_000 {
        left = match left {
            Some(t) => left_of(t.into_inner()),
            None => None,
        };
    }
}

fn length_of_text(alloc: Global, t: &Term) -> Result<usize, AllocError> {
    let mut tokens = Tokens::new(alloc);
    term(t, &mut tokens)?;
    let mut text = String::new(alloc);
    write_lines(tokens, &mut text)?;
    Ok(text.len())
}

#[test]
fn the_deepest_terms_are_printed(rt: HostRuntime) -> Result<(), Fail> {
    let alloc = rt.alloc();
    let mut t = num(alloc, 1)?;
    for _ in 0..99 {
        t = enclosed(alloc, t, 64)?;
    }
    let length = length_of_text(alloc, t.get())?;
    let_go(t);
    // An operator and its operand take 4, 4, 4, 6 and 5 bytes; each level but the last stands in parentheses.
    assert_eq!(rt; length, 2 + 99 * 64 * (4 + 4 + 4 + 6 + 5) + 98 * 4);
    Ok(())
}
