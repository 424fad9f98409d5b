// Copies of declarations, and their comparison but for spots.
ghost use Rattle.std.specs.Prelude.{◌≡◌, ◌↔◌, IfOk, IsTrue};
ghost use Rattle.tht_tree.specs.WithoutSpots.{bare_decl, bare_decl_kind, bare_lemma, bare_lemma_kind};

use crate::body::{copy as copy_body, same as same_body};
use crate::give::{copy_give, same_give};
use sqlite_items::{Boxed, Items};
use std::alloc::{AllocError, Global};
use tht_tree::assn::{Assn, copy_assn, same_assn};
use tht_tree::body::Body;
use tht_tree::decl::{
    Access, Decl, DeclKind, DeclKind as Kind, Head, Initial, Lemma, LemmaKind, Param,
};
use tht_tree::give::Give;
use tht_tree::plain::{Name, Sort};

// ---- copies

pub(crate) fn copy_decl(alloc: Global, decl: &Decl) -> Result<Decl, AllocError>
    ensures { IfOk result (λ d. d ≡ decl.now) }
{
    let kind = copy_kind(alloc, &decl.kind)?;
    Ok(Decl {
        spot: decl.spot,
        kind,
    })
}

fn copy_kind(alloc: Global, kind: &DeclKind) -> Result<DeclKind, AllocError>
    ensures { IfOk result (λ k. k ≡ kind.now) }
{
    match kind {
        Kind::Root(x, sort, value) => copy_root(x, *sort, value),
        Kind::Invariant(a, g) => copy_invariant(alloc, a, g),
        Kind::Pred(access, p, params, a) => copy_pred(alloc, *access, p, params, a),
        Kind::PredOn(access, p, params, x, a, head, tail, b) => {
            let cases = copy_cases(alloc, x, a, head, tail, b)?;
            copy_pred_on(alloc, *access, p, params, cases)
        }
        Kind::Lemma(lemma) => Ok(Kind::Lemma(copy_lemma(alloc, lemma)?)),
        Kind::Txn(head, body) => copy_txn(alloc, head, body),
        Kind::Proc(head, body) => copy_proc(alloc, head, body),
    }
}

fn copy_root(name: &Name, sort: Sort, value: &Initial) -> Result<DeclKind, AllocError>
    ensures { IfOk result (λ k. k ≡ DeclKind.Root name.now sort value.now) }
{
    let name = name.copy()?;
    let value = copy_initial(value)?;
    Ok(Kind::Root(name, sort, value))
}

fn copy_initial(value: &Initial) -> Result<Initial, AllocError>
    ensures { IfOk result (λ v. v ≡ value.now) }
{
    match value {
        Initial::Num(n) => Ok(Initial::Num(*n)),
        Initial::True => Ok(Initial::True),
        Initial::False => Ok(Initial::False),
        Initial::Null => Ok(Initial::Null),
        Initial::Unit => Ok(Initial::Unit),
        Initial::Root(x) => Ok(Initial::Root(x.copy()?)),
    }
}

fn copy_invariant(alloc: Global, assn: &Assn, give: &Give) -> Result<DeclKind, AllocError>
    ensures { IfOk result (λ k. k ≡ DeclKind.Invariant assn.now give.now) }
{
    let assn = copy_assn(alloc, assn)?;
    let give = copy_give(alloc, give)?;
    Ok(Kind::Invariant(assn, give))
}

fn copy_pred(
    alloc: Global,
    access: Access,
    name: &Name,
    params: &Items<Param>,
    assn: &Assn,
) -> Result<DeclKind, AllocError>
    ensures { IfOk result (λ k. k ≡ DeclKind.Pred access name.now params.now assn.now) }
{
    let name = name.copy()?;
    let params = copy_params(alloc, params)?;
    let assn = copy_assn(alloc, assn)?;
    Ok(Kind::Pred(access, name, params, assn))
}

/// The parameter that a predicate is defined by cases on, its definition for `nil`, and the names of a head and a tail with
/// its definition for these.
type Cases = (Name, Assn, Name, Name, Assn);

fn copy_cases(
    alloc: Global,
    on: &Name,
    nil: &Assn,
    head: &Name,
    tail: &Name,
    cons: &Assn,
) -> Result<Cases, AllocError>
    ensures { IfOk result (λ r. (r.0 ≡ on.now) × (r.1 ≡ nil.now) × (r.2 ≡ head.now) × (r.3 ≡ tail.now) × (r.4 ≡ cons.now)) }
{
    let on = on.copy()?;
    let nil = copy_assn(alloc, nil)?;
    let head = head.copy()?;
    let tail = tail.copy()?;
    let cons = copy_assn(alloc, cons)?;
    Ok((on, nil, head, tail, cons))
}

fn copy_pred_on(
    alloc: Global,
    access: Access,
    name: &Name,
    params: &Items<Param>,
    cases: Cases,
) -> Result<DeclKind, AllocError>
    ensures { IfOk result (λ k. k ≡ DeclKind.PredOn access name.now params.now cases.0 cases.1 cases.2 cases.3 cases.4) }
{
    let name = name.copy()?;
    let params = copy_params(alloc, params)?;
    let (on, nil, head, tail, cons) = cases;
    Ok(Kind::PredOn(access, name, params, on, nil, head, tail, cons))
}

fn copy_txn(alloc: Global, head: &Boxed<Head>, body: &Boxed<Body>) -> Result<DeclKind, AllocError>
    ensures { IfOk result (λ k. k ≡ DeclKind.Txn head.now body.now) }
{
    let head = copy_head(alloc, head)?;
    let body = copy_body(alloc, body)?;
    Ok(Kind::Txn(head, body))
}

fn copy_proc(alloc: Global, head: &Boxed<Head>, body: &Boxed<Body>) -> Result<DeclKind, AllocError>
    ensures { IfOk result (λ k. k ≡ DeclKind.Proc head.now body.now) }
{
    let head = copy_head(alloc, head)?;
    let body = copy_body(alloc, body)?;
    Ok(Kind::Proc(head, body))
}

fn copy_params(alloc: Global, params: &Items<Param>) -> Result<Items<Param>, AllocError>
    ensures { IfOk result (λ ps. ps ≡ params.now) }
{
    let mut copies = Items::new(alloc);
    for param in params.as_slice() {
        copies.push(Param {
            name: param.name.copy()?,
            sort: param.sort,
        })?;
    }
    Ok(copies)
}

fn copy_lemma(alloc: Global, lemma: &Boxed<Lemma>) -> Result<Boxed<Lemma>, AllocError>
    ensures { IfOk result (λ l. l ≡ lemma.now) }
{
    let lemma = lemma.get();
    let name = lemma.name.copy()?;
    let params = copy_params(alloc, &lemma.params)?;
    let pre = copy_assn(alloc, &lemma.pre)?;
    let post = copy_assn(alloc, &lemma.post)?;
    let kind = copy_lemma_kind(alloc, &lemma.kind)?;
    Boxed::new(
        alloc,
        Lemma {
            spot: lemma.spot,
            name,
            params,
            pre,
            post,
            kind,
        },
    )
}

fn copy_lemma_kind(alloc: Global, kind: &LemmaKind) -> Result<LemmaKind, AllocError>
    ensures { IfOk result (λ k. k ≡ kind.now) }
{
    match kind {
        LemmaKind::Plain(b) => Ok(LemmaKind::Plain(copy_body(alloc, b)?)),
        LemmaKind::OnSeq(x, b, head, tail, c) => copy_on_seq(alloc, x, b, head, tail, c),
        LemmaKind::OnNat(x, b, n, c) => copy_on_nat(alloc, x, b, n, c),
    }
}

fn copy_on_seq(
    alloc: Global,
    on: &Name,
    nil: &Boxed<Body>,
    head: &Name,
    tail: &Name,
    cons: &Boxed<Body>,
) -> Result<LemmaKind, AllocError>
    ensures { IfOk result (λ k. k ≡ LemmaKind.OnSeq on.now nil.now head.now tail.now cons.now) }
{
    let on = on.copy()?;
    let nil = copy_body(alloc, nil)?;
    let head = head.copy()?;
    let tail = tail.copy()?;
    let cons = copy_body(alloc, cons)?;
    Ok(LemmaKind::OnSeq(on, nil, head, tail, cons))
}

fn copy_on_nat(
    alloc: Global,
    on: &Name,
    zero: &Boxed<Body>,
    before: &Name,
    next: &Boxed<Body>,
) -> Result<LemmaKind, AllocError>
    ensures { IfOk result (λ k. k ≡ LemmaKind.OnNat on.now zero.now before.now next.now) }
{
    let on = on.copy()?;
    let zero = copy_body(alloc, zero)?;
    let before = before.copy()?;
    let next = copy_body(alloc, next)?;
    Ok(LemmaKind::OnNat(on, zero, before, next))
}

fn copy_head(alloc: Global, head: &Boxed<Head>) -> Result<Boxed<Head>, AllocError>
    ensures { IfOk result (λ h. h ≡ head.now) }
{
    let head = head.get();
    let name = head.name.copy()?;
    let params = copy_params(alloc, &head.params)?;
    let logic = copy_params(alloc, &head.logic)?;
    let pre = copy_assn(alloc, &head.pre)?;
    let result = head.result.copy()?;
    let post = copy_assn(alloc, &head.post)?;
    Boxed::new(
        alloc,
        Head {
            name,
            params,
            logic,
            pre,
            result,
            sort: head.sort,
            post,
        },
    )
}

// ---- sameness but for spots

pub(crate) fn same_decl(decl: &Decl, other: &Decl) -> bool
    ensures { IsTrue result ↔ (bare_decl decl.now ≡ bare_decl other.now) }
{
    same_kind(&decl.kind, &other.kind)
}

fn same_kind(kind: &DeclKind, other: &DeclKind) -> bool
    ensures { IsTrue result ↔ (bare_decl_kind kind.now ≡ bare_decl_kind other.now) }
{
    match (kind, other) {
        (Kind::Root(x, s, v), Kind::Root(y, r, w)) => x.same(y) && s == r && same_initial(v, w),
        (Kind::Invariant(a, g), Kind::Invariant(b, h)) => same_assn(a, b) && same_give(g, h),
        (Kind::Pred(k, p, xs, a), Kind::Pred(l, q, ys, b)) => {
            k == l && p.same(q) && same_params(xs, ys) && same_assn(a, b)
        }
        (Kind::PredOn(k, p, xs, x, a, m, n, b), Kind::PredOn(l, q, ys, y, c, u, v, d)) => {
            (k == l && p.same(q) && same_params(xs, ys) && x.same(y))
                && (same_assn(a, c) && m.same(u) && n.same(v) && same_assn(b, d))
        }
        (Kind::Lemma(l), Kind::Lemma(m)) => same_lemma(l.get(), m.get()),
        (Kind::Txn(h, b), Kind::Txn(k, c)) => same_head(h, k) && same_body(b, c),
        (Kind::Proc(h, b), Kind::Proc(k, c)) => same_head(h, k) && same_body(b, c),
        _ => false,
    }
}

fn same_initial(value: &Initial, other: &Initial) -> bool
    ensures { IsTrue result ↔ (value.now ≡ other.now) }
{
    match (value, other) {
        (Initial::Num(m), Initial::Num(n)) => m == n,
        (Initial::True, Initial::True) => true,
        (Initial::False, Initial::False) => true,
        (Initial::Null, Initial::Null) => true,
        (Initial::Unit, Initial::Unit) => true,
        (Initial::Root(x), Initial::Root(y)) => x.same(y),
        _ => false,
    }
}

fn same_params(params: &Items<Param>, others: &Items<Param>) -> bool
    ensures { IsTrue result ↔ (params.now ≡ others.now) }
{
    if params.len() != others.len() {
        return false;
    }
    for (param, other) in params.as_slice().iter().zip(others.as_slice().iter()) {
        if !same_param(param, other) {
            return false;
        }
    }
    true
}

fn same_param(param: &Param, other: &Param) -> bool
    ensures { IsTrue result ↔ (param.now ≡ other.now) }
{
    param.name.same(&other.name) && param.sort == other.sort
}

fn same_lemma(lemma: &Lemma, other: &Lemma) -> bool
    ensures { IsTrue result ↔ (bare_lemma lemma.now ≡ bare_lemma other.now) }
{
    lemma.name.same(&other.name)
        && same_params(&lemma.params, &other.params)
        && same_assn(&lemma.pre, &other.pre)
        && same_assn(&lemma.post, &other.post)
        && same_lemma_kind(&lemma.kind, &other.kind)
}

fn same_lemma_kind(kind: &LemmaKind, other: &LemmaKind) -> bool
    ensures { IsTrue result ↔ (bare_lemma_kind kind.now ≡ bare_lemma_kind other.now) }
{
    match (kind, other) {
        (LemmaKind::Plain(b), LemmaKind::Plain(c)) => same_body(b, c),
        (LemmaKind::OnSeq(x, a, m, n, b), LemmaKind::OnSeq(y, c, u, v, d)) => {
            x.same(y) && same_body(a, c) && m.same(u) && n.same(v) && same_body(b, d)
        }
        (LemmaKind::OnNat(x, a, n, b), LemmaKind::OnNat(y, c, m, d)) => {
            x.same(y) && same_body(a, c) && n.same(m) && same_body(b, d)
        }
        _ => false,
    }
}

fn same_head(head: &Boxed<Head>, other: &Boxed<Head>) -> bool
    ensures { IsTrue result ↔ (head.now ≡ other.now) }
{
    let (head, other) = (head.get(), other.get());
    head.name.same(&other.name)
        && same_params(&head.params, &other.params)
        && same_params(&head.logic, &other.logic)
        && same_assn(&head.pre, &other.pre)
        && head.result.same(&other.result)
        && head.sort == other.sort
        && same_assn(&head.post, &other.post)
}
