//! The names and sorts of a proof.
ghost use Rattle.std.specs.Prelude.{◌≡◌, OnOk, IfOk, IsTrue, map};
ghost use Rattle.tht_tree.specs.Walk.Codes.{first as first_code, first_of, construct, ◌▸◌, in_order};
ghost use Rattle.tht_tree.specs.Walk.Names.{with_variable, with_hypothesis, new_name as new_name_code};
ghost use Rattle.tht_tree.specs.Walk.Terms.{term_of as term_code, formula as formula_code};
ghost use Rattle.tht_tree.specs.Walk.Proofs.{proof as the_proof, proof_kind as the_kind, entry as the_entry};
ghost use Rattle.tht_tree.specs.declared.plain.Sort.TheVariants.{Nat, Seq};
ghost use Rattle.term_walk.specs.Scopes.{scope_of};
ghost use Rattle.term_walk.specs.Binding.{is_binding};

use self::ProofKind as Kind;
use crate::codes::{Walked, at, first, refuse};
use crate::scope::Scope;
use crate::terms::{formula, hypothesis, lemma, new_name, term_of};
use std::alloc::AllocError;
use tht_tree::plain::{Name, Sort, Spot};
use tht_tree::proof::{LinEntry, Proof, ProofKind};
use tht_tree::term::Term;
use tht_tree::walk::{Class, WalkCode};

/// The first refusal in a proof. The scope is then as it was.
#[cycle(proof)]
#[tactic(auto, unfolding(tht_tree::specs::Walk::Proofs::proof, tht_tree::specs::Walk::Proofs::proof_kind))]
pub fn walk_proof(proof: &Proof, scope: &mut Scope) -> Walked
    ensures ok { IfOk result (λ r. r ≡ the_proof proof.now (scope_of scope.old)) }
    ensures same { OnOk result (scope_of scope.new ≡ scope_of scope.old) }
{
    walk_kind(&proof.kind, proof.spot, scope)
}

#[cycle(proof)]
#[tactic(auto, unfolding(tht_tree::specs::Walk::Proofs::proof, tht_tree::specs::Walk::Proofs::proof_kind, tht_tree::specs::Walk::Proofs::entry))]
fn walk_kind(kind: &ProofKind, spot: Spot, scope: &mut Scope) -> Walked
    ensures ok { IfOk result (λ r. r ≡ the_kind kind.now spot (scope_of scope.old)) }
    ensures same { OnOk result (scope_of scope.new ≡ scope_of scope.old) }
{
    match kind {
        Kind::Hyp(h) => Ok(at(spot, hypothesis(scope, h))),
        Kind::Refl => Ok(None),
        Kind::Calc => Ok(None),
        Kind::Recast(t, p) => one(p.get(), formula(scope, t.get()), spot, scope),
        Kind::Sym(p) => walk_proof(p.get(), scope),
        Kind::Both(p, q) => two(p.get(), q.get(), None, spot, scope),
        Kind::Subst(..) => walk_binding(kind, spot, scope),
        Kind::Pair(p, q) => two(p.get(), q.get(), None, spot, scope),
        Kind::Fst(t, p) => one(p.get(), formula(scope, t.get()), spot, scope),
        Kind::Snd(t, p) => one(p.get(), formula(scope, t.get()), spot, scope),
        Kind::Inl(p) => walk_proof(p.get(), scope),
        Kind::Inr(p) => walk_proof(p.get(), scope),
        Kind::Cases(..) => walk_binding(kind, spot, scope),
        Kind::Fun(..) => walk_binding(kind, spot, scope),
        Kind::App(t, p, q) => two(p.get(), q.get(), formula(scope, t.get()), spot, scope),
        Kind::Neg(t, p, q) => two(p.get(), q.get(), formula(scope, t.get()), spot, scope),
        Kind::Absurd(p) => walk_proof(p.get(), scope),
        Kind::Em(..) => walk_binding(kind, spot, scope),
        Kind::Lin(_, entries) => certificate(entries.as_slice(), spot, scope),
        Kind::Monus(p) => walk_proof(p.get(), scope),
        Kind::Head(s, u, p) => one(p.get(), sequences(scope, s.get(), u.get()), spot, scope),
        Kind::Tail(x, y, p) => one(p.get(), numbers(scope, x.get(), y.get()), spot, scope),
        Kind::Nocons => Ok(None),
        Kind::Apart(_, _) => Ok(None),
        Kind::Nonnull(_) => Ok(None),
        Kind::Lemma(l, ts, p) => one(p.get(), lemma(scope, l, ts), spot, scope),
        Kind::Todo => Ok(None),
    }
}

// A proof that binds names: in its formula, or in the proofs inside it.
#[cycle(proof)]
#[tactic(auto, unfolding(tht_tree::specs::Walk::Proofs::proof, tht_tree::specs::Walk::Proofs::proof_kind))]
fn walk_binding(kind: &ProofKind, spot: Spot, scope: &mut Scope) -> Walked
    requires { IsTrue (is_binding kind.now) }
    ensures ok { IfOk result (λ r. r ≡ the_kind kind.now spot (scope_of scope.old)) }
    ensures same { OnOk result (scope_of scope.new ≡ scope_of scope.old) }
{
    match kind {
        Kind::Subst(x, sort, t, a, b, p, q) => {
            let own = subst(scope, x, *sort, t.get(), a.get(), b.get())?;
            two(p.get(), q.get(), own, spot, scope)
        }
        Kind::Cases(t, p, h, q, g, r) => match branches(scope, t.get(), h, g) {
            Some(code) => refuse(spot, code),
            None => three(p.get(), q.get(), r.get(), h, g, scope),
        },
        Kind::Fun(h, p) => function(p.get(), h, spot, scope),
        Kind::Em(t, h, p, g, q) => match branches(scope, t.get(), h, g) {
            Some(code) => refuse(spot, code),
            None => both_known(p.get(), q.get(), h, g, scope),
        },
        _ => unreachable!(),
    }
}

// ---- the proofs inside a proof

// One proof, in a proof that is refused itself where there is a code.
#[cycle(proof)]
fn one(p: &Proof, own: Option<WalkCode>, spot: Spot, scope: &mut Scope) -> Walked
    ensures ok { IfOk result (λ r. r ≡ construct spot own (the_proof p.now (scope_of scope.old))) }
    ensures same { OnOk result (scope_of scope.new ≡ scope_of scope.old) }
{
    match own {
        Some(code) => refuse(spot, code),
        None => walk_proof(p, scope),
    }
}

// Two proofs, in a proof that is refused itself where there is a code.
#[cycle(proof)]
fn two(p: &Proof, q: &Proof, own: Option<WalkCode>, spot: Spot, scope: &mut Scope) -> Walked
    ensures ok { IfOk result (λ r. r ≡ construct spot own (the_proof p.now (scope_of scope.old) ▸ the_proof q.now (scope_of scope.old))) }
    ensures same { OnOk result (scope_of scope.new ≡ scope_of scope.old) }
{
    match one(p, own, spot, scope)? {
        Some(refusal) => Ok(Some(refusal)),
        None => walk_proof(q, scope),
    }
}

// A proof in which this hypothesis is known.
#[cycle(proof)]
#[tactic(auto, using(crate::proofs::Shadowing::as_before))]
fn known(p: &Proof, h: &Name, scope: &mut Scope) -> Walked
    ensures ok { IfOk result (λ r. r ≡ the_proof p.now (with_hypothesis (scope_of scope.old) h.now)) }
    ensures same { OnOk result (scope_of scope.new ≡ scope_of scope.old) }
{
    let shadowed = scope.bind(h, Class::Hypothesis)?;
    let refusal = walk_proof(p, scope)?;
    scope.unbind(h, shadowed)?;
    Ok(refusal)
}

// The name of a hypothesis, and a proof in which it is known.
#[cycle(proof)]
fn function(p: &Proof, h: &Name, spot: Spot, scope: &mut Scope) -> Walked
    ensures ok { IfOk result (λ r. r ≡ construct spot (new_name_code (scope_of scope.old) h.now) (the_proof p.now (with_hypothesis (scope_of scope.old) h.now))) }
    ensures same { OnOk result (scope_of scope.new ≡ scope_of scope.old) }
{
    match new_name(scope, h) {
        Some(code) => refuse(spot, code),
        None => known(p, h, scope),
    }
}

// Two proofs, with a hypothesis that is known in each.
#[cycle(proof)]
fn both_known(p: &Proof, q: &Proof, h: &Name, g: &Name, scope: &mut Scope) -> Walked
    ensures ok { IfOk result (λ r. r ≡ the_proof p.now (with_hypothesis (scope_of scope.old) h.now) ▸ the_proof q.now (with_hypothesis (scope_of scope.old) g.now)) }
    ensures same { OnOk result (scope_of scope.new ≡ scope_of scope.old) }
{
    match known(p, h, scope)? {
        Some(refusal) => Ok(Some(refusal)),
        None => known(q, g, scope),
    }
}

// A proof, and two with a hypothesis that is known in each.
#[cycle(proof)]
fn three(p: &Proof, q: &Proof, r: &Proof, h: &Name, g: &Name, scope: &mut Scope) -> Walked
    ensures ok { IfOk result (λ o. o ≡ the_proof p.now (scope_of scope.old) ▸ the_proof q.now (with_hypothesis (scope_of scope.old) h.now) ▸ the_proof r.now (with_hypothesis (scope_of scope.old) g.now)) }
    ensures same { OnOk result (scope_of scope.new ≡ scope_of scope.old) }
{
    match walk_proof(p, scope)? {
        Some(refusal) => Ok(Some(refusal)),
        None => both_known(q, r, h, g, scope),
    }
}

// The entries of a linear certificate: their facts, and then their proofs.
#[cycle(proof)]
fn certificate(entries: &[LinEntry], spot: Spot, scope: &mut Scope) -> Walked
    ensures ok { IfOk result (λ r. r ≡ construct spot (first_of (map (λ e. e.fact (scope_of scope.old)) (map the_entry entries.now))) (in_order (map (λ e. e.proof (scope_of scope.old)) (map the_entry entries.now)))) }
    ensures same { OnOk result (scope_of scope.new ≡ scope_of scope.old) }
{
    match facts(scope, entries) {
        Some(code) => refuse(spot, code),
        None => walk_entries(entries, scope),
    }
}

// The proofs of the entries of a linear certificate.
#[cycle(proof)]
#[tactic(auto, unfolding(tht_tree::specs::Walk::Proofs::entry))]
fn walk_entries(entries: &[LinEntry], scope: &mut Scope) -> Walked
    ensures ok { IfOk result (λ r. r ≡ in_order (map (λ e. e.proof (scope_of scope.old)) (map the_entry entries.now))) }
    ensures same { OnOk result (scope_of scope.new ≡ scope_of scope.old) }
{
    for entry in entries {
        if let Some(refusal) = walk_proof(entry.proof.get(), scope)? {
            return Ok(Some(refusal));
        }
    }
    Ok(None)
}

// ---- the terms of a proof

// The terms of a `subst`: the variable is known in the formula.
fn subst(
    scope: &mut Scope,
    x: &Name,
    sort: Sort,
    formula: &Term,
    a: &Term,
    b: &Term,
) -> Result<Option<WalkCode>, AllocError>
    ensures ok { IfOk result (λ c. c ≡ first_code (first_code (new_name_code (scope_of scope.old) x.now) (formula_code (with_variable (scope_of scope.old) x.now sort) formula.now))
        (first_code (term_code (scope_of scope.old) sort a.now) (term_code (scope_of scope.old) sort b.now))) }
    ensures same { OnOk result (scope_of scope.new ≡ scope_of scope.old) }
{
    let name = new_name(scope, x);
    let motive = first(name, formula_over(scope, x, sort, formula)?);
    Ok(first(motive, both_of(scope, sort, a, b)))
}

// A formula in which this variable of the logic is known.
#[tactic(auto, using(crate::proofs::Shadowing::as_before))]
fn formula_over(
    scope: &mut Scope,
    x: &Name,
    sort: Sort,
    term: &Term,
) -> Result<Option<WalkCode>, AllocError>
    ensures ok { IfOk result (λ c. c ≡ formula_code (with_variable (scope_of scope.old) x.now sort) term.now) }
    ensures same { OnOk result (scope_of scope.new ≡ scope_of scope.old) }
{
    let shadowed = scope.bind(x, Class::Logic(sort))?;
    let code = formula(scope, term);
    scope.unbind(x, shadowed)?;
    Ok(code)
}

// Two terms of this sort.
fn both_of(scope: &Scope, sort: Sort, a: &Term, b: &Term) -> Option<WalkCode>
    ensures { result ≡ first_code (term_code (scope_of scope.now) sort a.now) (term_code (scope_of scope.now) sort b.now) }
{
    first(term_of(scope, sort, a), term_of(scope, sort, b))
}

fn sequences(scope: &Scope, a: &Term, b: &Term) -> Option<WalkCode>
    ensures { result ≡ first_code (term_code (scope_of scope.now) Seq a.now) (term_code (scope_of scope.now) Seq b.now) }
{
    both_of(scope, Sort::Seq, a, b)
}

fn numbers(scope: &Scope, a: &Term, b: &Term) -> Option<WalkCode>
    ensures { result ≡ first_code (term_code (scope_of scope.now) Nat a.now) (term_code (scope_of scope.now) Nat b.now) }
{
    both_of(scope, Sort::Nat, a, b)
}

// A formula, and the names of a hypothesis in each of two branches.
fn branches(scope: &Scope, term: &Term, h: &Name, g: &Name) -> Option<WalkCode>
    ensures { result ≡ first_code (formula_code (scope_of scope.now) term.now) (first_code (new_name_code (scope_of scope.now) h.now) (new_name_code (scope_of scope.now) g.now)) }
{
    first(
        formula(scope, term),
        first(new_name(scope, h), new_name(scope, g)),
    )
}

// The facts of the entries of a linear certificate.
#[tactic(auto, using(crate::proofs::Gathered::one_more), unfolding(tht_tree::specs::Walk::Proofs::entry))]
fn facts(scope: &Scope, entries: &[LinEntry]) -> Option<WalkCode>
    ensures { result ≡ first_of (map (λ e. e.fact (scope_of scope.now)) (map the_entry entries.now)) }
{
    let mut code = None;
    for entry in entries {
        code = first(code, formula(scope, entry.fact.get()));
    }
    code
}
