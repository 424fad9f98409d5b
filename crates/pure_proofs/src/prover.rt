// The rules of proofs.
ghost use Rattle.std.specs.Prelude.{◌≡◌, [], ◌∷◌, None, Some, Err, map, filter_map, OnOk, IfOk};
ghost use Rattle.tht_tree.specs.declared.plain.Sort.TheVariants as sort;
ghost use Rattle.tht_tree.specs.declared.rule.RuleCode.TheVariants.{R5};
ghost use Rattle.tht_tree.specs.declared.rule.RuleRefusal.{RuleRefusal};
ghost use Rattle.tht_tree.specs.declared.term.Term.{out-Term};
ghost use Rattle.tht_tree.specs.declared.term.Term.TheVariants as term;
ghost use Rattle.tht_tree.specs.Normal.Putting.{put_in};
ghost use Rattle.tht_tree.specs.SameTree.{is_false as says_false};
ghost use Rattle.tht_tree.specs.Rules.Certificates.{aim_of as aim_in};
ghost use Rattle.tht_tree.specs.Rules.Context.{context_of};
ghost use Rattle.tht_tree.specs.Rules.Proofs.{prove as prove_of, proves, proves_with, makes, needs_same_normal, equation_of as equation_in, entry_refused, fact_in, certifies};
ghost use Rattle.tht_tree.specs.Rules.Refusals.{needs, needs_some, needs_two, ◌▸◌, in_order};
ghost use Rattle.tht_tree.specs.Rules.Shapes.{as_conjunction as conjunction_of, as_disjunction as disjunction_of, as_implication as implication_of, as_equation as equation_at, as_monus as monus_of};
ghost use Rattle.pure_proofs.specs.Facts.{denied_by};
ghost use Rattle.pure_proofs.specs.Formulas.{made_of};
ghost use Rattle.pure_proofs.specs.Said.{known_in, said, said_of_kind, said_of_entry};
ghost use Rattle.pure_proofs.specs.Truth.{IsTrueWhereKnown};
ghost use Rattle.pure_proofs.specs.Verdicts.{without_lemmas};

use self::ProofKind as Kind;
use crate::certificates::{aim_at, certify_entries, is_fact};
use crate::facts::Aim;
use crate::formulas::{Formula, make};
use crate::known::Known;
use crate::leaves::{
    by_calculation, by_hypothesis, by_one_cell, by_reflexivity, by_two_cells, have_one_form,
    makes_goal, sides,
};
use crate::refusal::Refusal;
use crate::shapes::{as_conjunction, as_disjunction, as_equation, as_monus, is_false, is_nocons};
use crate::sizes::formula_fits;
use crate::verdict::{Verdict, need, refuse};
use std::alloc::Global;
use tht_tree::plain::{Memory, Name, Sort, Spot};
use tht_tree::proof::{LinEntry, Proof, ProofKind};
use tht_tree::rule::RuleCode;
use tht_tree::state::Hyp;
use tht_tree::term::Term;

/// Whether the proof proves the goal, a formula, from what is known, where these are the names of the roots. What is known is
/// the same afterwards.
///
/// The goal is then true in every environment and heap that satisfy what is known.
#[tactic(auto, unfolding(crate::specs::Said::known_in))]
pub fn prove(
    proof: &Proof,
    alloc: Global,
    roots: &[Name],
    known: &mut Known,
    goal: &Term,
) -> Result<(), Refusal>
    ensures ok { OnOk result (prove_of (without_lemmas roots.now) proof.now (context_of known.old.state) goal.now ≡ None) }
    ensures refused { (r : RuleRefusal) → result ≡ Err (Refusal.Rule r) → prove_of (without_lemmas roots.now) proof.now (context_of known.old.state) goal.now ≡ Some r }
    ensures kept { context_of known.new.state ≡ context_of known.old.state }
    ensures sound { OnOk result (IsTrueWhereKnown roots.now proof.now (context_of known.old.state) goal.now) }
{
    let setting = Setting {
        spot: proof.spot,
        alloc,
        roots,
    };
    match prove_proof(proof, setting, known, goal) {
        Ok(None) => Ok(()),
        Ok(Some(refusal)) => Err(Refusal::Rule(refusal)),
        Err(Memory) => Err(Refusal::Memory),
    }
}

/// Where a proof stands: its spot, what it makes formulas with, and the names of the roots.
#[derive(Clone, Copy)]
struct Setting<'a> {
    spot: Spot,
    alloc: Global,
    roots: &'a [Name],
}

/// A proof under a hypothesis with this name.
#[derive(Clone, Copy)]
struct Case<'a> {
    name: &'a Name,
    proof: &'a Proof,
}

impl<'a> Case<'a> {
    fn new(name: &'a Name, proof: &'a Proof) -> Case<'a>
        ensures name { result.name.now ≡ name.now }
        ensures proof { result.proof.now ≡ proof.now }
    {
        Case { name, proof }
    }

    /// The same where the hypothesis is this formula.
    fn of(self, formula: Formula<'a>) -> Branch<'a>
        ensures name { result.name.now ≡ self.entry.name.now }
        ensures formula { made_of result.formula ≡ made_of formula.entry }
        ensures proof { result.proof.now ≡ self.entry.proof.now }
    {
        Branch {
            name: self.name,
            formula,
            proof: self.proof,
        }
    }
}

/// A proof in which one more hypothesis is known.
#[derive(Clone, Copy)]
struct Branch<'a> {
    name: &'a Name,
    formula: Formula<'a>,
    proof: &'a Proof,
}

/// A formula in which a term is put in for a name: one term where it is proved, and an equal one in the goal.
#[derive(Clone, Copy)]
struct Motive<'a> {
    name: &'a Name,
    formula: &'a Term,
    from: &'a Term,
    to: &'a Term,
}

#[cycle(prover)]
#[tactic(auto, unfolding(tht_tree::specs::Rules::Proofs::prove, tht_tree::specs::Rules::Proofs::prove_kind))]
fn prove_proof(proof: &Proof, setting: Setting<'_>, known: &mut Known, goal: &Term) -> Verdict
    ensures verdict { IfOk result (λ v. v ≡ said setting.entry.roots.now proof.now (known_in known.old.state) goal.now) }
    ensures kept { known_in known.new.state ≡ known_in known.old.state }
{
    let setting = Setting {
        spot: proof.spot,
        ..setting
    };
    prove_kind(&proof.kind, setting, known, goal)
}

// A proof, by its form.
#[cycle(prover)]
#[tactic(auto, unfolding(tht_tree::specs::Rules::Proofs::prove, tht_tree::specs::Rules::Proofs::prove_kind, tht_tree::specs::Rules::Proofs::prove_entry))]
fn prove_kind(kind: &ProofKind, setting: Setting<'_>, known: &mut Known, goal: &Term) -> Verdict
    ensures verdict { IfOk result (λ v. v ≡ said_of_kind setting.entry.roots.now kind.now setting.entry.spot (known_in known.old.state) goal.now) }
    ensures kept { known_in known.new.state ≡ known_in known.old.state }
{
    match kind {
        Kind::Hyp(h) => Ok(by_hypothesis(setting.spot, h, known, goal)),
        Kind::Refl => Ok(by_reflexivity(setting.spot, goal)),
        Kind::Calc => by_calculation(setting.alloc, setting.spot, known, goal),
        Kind::Recast(t, q) => by_recast(q.get(), setting, known, t.get(), goal),
        Kind::Sym(q) => by_symmetry(q.get(), setting, known, goal),
        Kind::Both(q, r) => by_both(q.get(), r.get(), setting, known, goal),
        Kind::Subst(x, _, t, a, b, q, r) => {
            let motive = Motive {
                name: x,
                formula: t.get(),
                from: a.get(),
                to: b.get(),
            };
            by_substitution(q.get(), r.get(), setting, known, motive, goal)
        }
        Kind::Pair(q, r) => by_pair(q.get(), r.get(), setting, known, goal),
        Kind::Fst(t, q) => prove_made(q.get(), setting, known, Formula::Conjunction(goal, t.get())),
        Kind::Snd(t, q) => prove_made(q.get(), setting, known, Formula::Conjunction(t.get(), goal)),
        Kind::Inl(q) => by_left(q.get(), setting, known, goal),
        Kind::Inr(q) => by_right(q.get(), setting, known, goal),
        Kind::Cases(t, p, h, q, g, r) => {
            let (left, right) = (Case::new(h, q.get()), Case::new(g, r.get()));
            by_cases(p.get(), setting, known, t.get(), left, right, goal)
        }
        Kind::Fun(h, q) => by_function(Case::new(h, q.get()), setting, known, goal),
        Kind::App(t, q, r) => by_application(q.get(), r.get(), setting, known, t.get(), goal),
        Kind::Neg(t, q, r) => by_contradiction(q.get(), r.get(), setting, known, t.get(), goal),
        Kind::Absurd(q) => prove_made(q.get(), setting, known, Formula::Falsehood),
        Kind::Em(t, h, q, g, r) => {
            let (holds, fails) = (Case::new(h, q.get()), Case::new(g, r.get()));
            by_excluded_middle(holds, fails, setting, known, t.get(), goal)
        }
        Kind::Lin(k, entries) => by_lin(entries.as_slice(), setting, known, *k, goal),
        Kind::Monus(q) => by_monus(q.get(), setting, known, goal),
        Kind::Head(s, u, q) => by_heads(q.get(), setting, known, s.get(), u.get(), goal),
        Kind::Tail(x, y, q) => by_tails(q.get(), setting, known, x.get(), y.get(), goal),
        Kind::Nocons => Ok(need(setting.spot, RuleCode::R5, is_nocons(goal))),
        Kind::Apart(i, j) => Ok(by_two_cells(setting.spot, *i, *j, known, goal)),
        Kind::Nonnull(i) => Ok(by_one_cell(setting.spot, *i, known, goal)),
        Kind::Lemma(..) => refuse(setting.spot, RuleCode::R12),
        Kind::Todo => refuse(setting.spot, RuleCode::R9),
    }
}

// ---- proofs inside

// The proof of a formula, if that is not too large.
#[cycle(prover)]
fn prove_given(q: &Proof, setting: Setting<'_>, known: &mut Known, formula: &Term) -> Verdict
    ensures verdict { IfOk result (λ v. v ≡ proves setting.entry.spot (said setting.entry.roots.now q.now) (known_in known.old.state) formula.now) }
    ensures kept { known_in known.new.state ≡ known_in known.old.state }
{
    if !formula_fits(formula) {
        return refuse(setting.spot, RuleCode::R10);
    }
    prove_proof(q, setting, known, formula)
}

// The proof of a formula that is made.
#[cycle(prover)]
fn prove_made(q: &Proof, setting: Setting<'_>, known: &mut Known, formula: Formula<'_>) -> Verdict
    ensures verdict { IfOk result (λ v. v ≡ proves setting.entry.spot (said setting.entry.roots.now q.now) (known_in known.old.state) (made_of formula.entry)) }
    ensures kept { known_in known.new.state ≡ known_in known.old.state }
{
    match formula {
        Formula::Given(u) => prove_given(q, setting, known, u),
        _ => match make(formula, setting.alloc)? {
            Some(made) => prove_proof(q, setting, known, &made),
            None => refuse(setting.spot, RuleCode::R10),
        },
    }
}

// The proofs of two formulas that are made.
#[cycle(prover)]
fn prove_two(
    q: &Proof,
    r: &Proof,
    setting: Setting<'_>,
    known: &mut Known,
    first: Formula<'_>,
    second: Formula<'_>,
) -> Verdict
    ensures verdict { IfOk result (λ v. v ≡ proves setting.entry.spot (said setting.entry.roots.now q.now) (known_in known.old.state) (made_of first.entry) ▸ proves setting.entry.spot (said setting.entry.roots.now r.now) (known_in known.old.state) (made_of second.entry)) }
    ensures kept { known_in known.new.state ≡ known_in known.old.state }
{
    match prove_made(q, setting, known, first)? {
        Some(refusal) => Ok(Some(refusal)),
        None => prove_made(r, setting, known, second),
    }
}

// The proof of the goal with one more hypothesis, which is taken away again.
#[cycle(prover)]
fn prove_branch(branch: Branch<'_>, setting: Setting<'_>, known: &mut Known, goal: &Term) -> Verdict
    ensures verdict { IfOk result (λ v. v ≡ proves_with setting.entry.spot branch.entry.name.now (made_of branch.entry.formula) (said setting.entry.roots.now branch.entry.proof.now) (known_in known.old.state) goal.now) }
    ensures kept { known_in known.new.state ≡ known_in known.old.state }
{
    match make(branch.formula, setting.alloc)? {
        Some(formula) => prove_under(branch.proof, setting, known, branch.name, formula, goal),
        None => refuse(setting.spot, RuleCode::R10),
    }
}

// The same of a formula that was made.
#[cycle(prover)]
#[tactic(auto, unfolding(crate::specs::Said::known_in))]
fn prove_under(
    q: &Proof,
    setting: Setting<'_>,
    known: &mut Known,
    name: &Name,
    formula: Term,
    goal: &Term,
) -> Verdict
    ensures verdict { IfOk result (λ v. v ≡ proves_with setting.entry.spot name.now formula (said setting.entry.roots.now q.now) (known_in known.old.state) goal.now) }
    ensures kept { known_in known.new.state ≡ known_in known.old.state }
{
    let name = name.copy()?;
    match known.assume(setting.spot, Hyp { name, formula }) {
        Ok(shadowed) => {
            let verdict = prove_proof(q, setting, known, goal);
            known.forget(shadowed);
            verdict
        }
        Err(Refusal::Rule(refusal)) => Ok(Some(refusal)),
        Err(Refusal::Memory) => Err(Memory),
    }
}

// Two proofs of the goal, each with one more hypothesis.
#[cycle(prover)]
fn prove_branches(
    left: Branch<'_>,
    right: Branch<'_>,
    setting: Setting<'_>,
    known: &mut Known,
    goal: &Term,
) -> Verdict
    ensures verdict { IfOk result (λ v. v ≡ proves_with setting.entry.spot left.entry.name.now (made_of left.entry.formula) (said setting.entry.roots.now left.entry.proof.now) (known_in known.old.state) goal.now ▸ proves_with setting.entry.spot right.entry.name.now (made_of right.entry.formula) (said setting.entry.roots.now right.entry.proof.now) (known_in known.old.state) goal.now) }
    ensures kept { known_in known.new.state ≡ known_in known.old.state }
{
    match prove_branch(left, setting, known, goal)? {
        Some(refusal) => Ok(Some(refusal)),
        None => prove_branch(right, setting, known, goal),
    }
}

// ---- the forms of proofs

// `as [t] q`
#[cycle(prover)]
fn by_recast(q: &Proof, setting: Setting<'_>, known: &mut Known, t: &Term, goal: &Term) -> Verdict
    ensures verdict { IfOk result (λ v. v ≡ proves setting.entry.spot (said setting.entry.roots.now q.now) (known_in known.old.state) t.now ▸ needs_same_normal setting.entry.spot (known_in known.old.state).scope t.now goal.now) }
    ensures kept { known_in known.new.state ≡ known_in known.old.state }
{
    match prove_given(q, setting, known, t)? {
        Some(refusal) => Ok(Some(refusal)),
        None => have_one_form(setting.alloc, setting.spot, known, t, goal),
    }
}

// `sym q`
#[cycle(prover)]
fn by_symmetry(q: &Proof, setting: Setting<'_>, known: &mut Known, goal: &Term) -> Verdict
    ensures verdict { IfOk result (λ v. v ≡ needs_two setting.entry.spot R5 (equation_at goal.now) (λ a b. proves setting.entry.spot (said setting.entry.roots.now q.now) (known_in known.old.state) (term.Eq b a))) }
    ensures kept { known_in known.new.state ≡ known_in known.old.state }
{
    match as_equation(goal) {
        Some((a, b)) => prove_made(q, setting, known, Formula::Equation(b, a)),
        None => refuse(setting.spot, RuleCode::R5),
    }
}

// `both q r`
#[cycle(prover)]
fn by_both(q: &Proof, r: &Proof, setting: Setting<'_>, known: &mut Known, goal: &Term) -> Verdict
    ensures verdict { IfOk result (λ v. v ≡ needs_two setting.entry.spot R5 (equation_in (without_lemmas setting.entry.roots.now) sort.Nat (known_in known.old.state).scope goal.now) (λ a b. proves setting.entry.spot (said setting.entry.roots.now q.now) (known_in known.old.state) (term.Le a b) ▸ proves setting.entry.spot (said setting.entry.roots.now r.now) (known_in known.old.state) (term.Le b a))) }
    ensures kept { known_in known.new.state ≡ known_in known.old.state }
{
    match sides(goal, Sort::Nat, setting.roots, known) {
        Some((a, b)) => {
            let up = Formula::AtMost(a, b);
            let down = Formula::AtMost(b, a);
            prove_two(q, r, setting, known, up, down)
        }
        None => refuse(setting.spot, RuleCode::R5),
    }
}

// `subst (x : sort . t) [a] [b] q r`
#[cycle(prover)]
fn by_substitution(
    q: &Proof,
    r: &Proof,
    setting: Setting<'_>,
    known: &mut Known,
    motive: Motive<'_>,
    goal: &Term,
) -> Verdict
    ensures verdict { IfOk result (λ v. v ≡ makes setting.entry.spot (put_in ((motive.entry.name.now, motive.entry.to.now) ∷ []) motive.entry.formula.now) goal.now ▸ proves setting.entry.spot (said setting.entry.roots.now q.now) (known_in known.old.state) (term.Eq motive.entry.from.now motive.entry.to.now) ▸ proves setting.entry.spot (said setting.entry.roots.now r.now) (known_in known.old.state) (put_in ((motive.entry.name.now, motive.entry.from.now) ∷ []) motive.entry.formula.now)) }
    ensures kept { known_in known.new.state ≡ known_in known.old.state }
{
    let made = Formula::PutIn(motive.name, motive.to, motive.formula);
    match makes_goal(setting.alloc, setting.spot, made, goal)? {
        Some(refusal) => Ok(Some(refusal)),
        None => {
            let equation = Formula::Equation(motive.from, motive.to);
            let formula = Formula::PutIn(motive.name, motive.from, motive.formula);
            prove_two(q, r, setting, known, equation, formula)
        }
    }
}

// `pair q r`
#[cycle(prover)]
fn by_pair(q: &Proof, r: &Proof, setting: Setting<'_>, known: &mut Known, goal: &Term) -> Verdict
    ensures verdict { IfOk result (λ v. v ≡ needs_two setting.entry.spot R5 (conjunction_of goal.now) (λ a b. said setting.entry.roots.now q.now (known_in known.old.state) a ▸ said setting.entry.roots.now r.now (known_in known.old.state) b)) }
    ensures kept { known_in known.new.state ≡ known_in known.old.state }
{
    let Some((a, b)) = as_conjunction(goal) else {
        return refuse(setting.spot, RuleCode::R5);
    };
    match prove_proof(q, setting, known, a)? {
        Some(refusal) => Ok(Some(refusal)),
        None => prove_proof(r, setting, known, b),
    }
}

// `inl q`
#[cycle(prover)]
fn by_left(q: &Proof, setting: Setting<'_>, known: &mut Known, goal: &Term) -> Verdict
    ensures verdict { IfOk result (λ v. v ≡ needs_two setting.entry.spot R5 (disjunction_of goal.now) (λ a b. said setting.entry.roots.now q.now (known_in known.old.state) a)) }
    ensures kept { known_in known.new.state ≡ known_in known.old.state }
{
    match as_disjunction(goal) {
        Some((a, _)) => prove_proof(q, setting, known, a),
        None => refuse(setting.spot, RuleCode::R5),
    }
}

// `inr q`
#[cycle(prover)]
fn by_right(q: &Proof, setting: Setting<'_>, known: &mut Known, goal: &Term) -> Verdict
    ensures verdict { IfOk result (λ v. v ≡ needs_two setting.entry.spot R5 (disjunction_of goal.now) (λ a b. said setting.entry.roots.now q.now (known_in known.old.state) b)) }
    ensures kept { known_in known.new.state ≡ known_in known.old.state }
{
    match as_disjunction(goal) {
        Some((_, b)) => prove_proof(q, setting, known, b),
        None => refuse(setting.spot, RuleCode::R5),
    }
}

// `cases [t] p {h . q} {g . r}`
#[cycle(prover)]
fn by_cases(
    p: &Proof,
    setting: Setting<'_>,
    known: &mut Known,
    t: &Term,
    left: Case<'_>,
    right: Case<'_>,
    goal: &Term,
) -> Verdict
    ensures verdict { IfOk result (λ v. v ≡ needs_two setting.entry.spot R5 (disjunction_of t.now) (λ a b. proves setting.entry.spot (said setting.entry.roots.now p.now) (known_in known.old.state) t.now ▸ proves_with setting.entry.spot left.entry.name.now a (said setting.entry.roots.now left.entry.proof.now) (known_in known.old.state) goal.now ▸ proves_with setting.entry.spot right.entry.name.now b (said setting.entry.roots.now right.entry.proof.now) (known_in known.old.state) goal.now)) }
    ensures kept { known_in known.new.state ≡ known_in known.old.state }
{
    let Some((a, b)) = as_disjunction(t) else {
        return refuse(setting.spot, RuleCode::R5);
    };
    match prove_given(p, setting, known, t)? {
        Some(refusal) => Ok(Some(refusal)),
        None => {
            let left = left.of(Formula::Given(a));
            let right = right.of(Formula::Given(b));
            prove_branches(left, right, setting, known, goal)
        }
    }
}

// `fun h . q`
#[cycle(prover)]
fn by_function(case: Case<'_>, setting: Setting<'_>, known: &mut Known, goal: &Term) -> Verdict
    ensures verdict { IfOk result (λ v. v ≡ needs_two setting.entry.spot R5 (implication_of goal.now) (λ a b. proves_with setting.entry.spot case.entry.name.now a (said setting.entry.roots.now case.entry.proof.now) (known_in known.old.state) b)) }
    ensures kept { known_in known.new.state ≡ known_in known.old.state }
{
    match goal {
        Term::Imp(a, b) => {
            let branch = case.of(Formula::Given(a.get()));
            prove_branch(branch, setting, known, b.get())
        }
        Term::Not(a) => {
            let branch = case.of(Formula::Given(a.get()));
            let falsehood = Term::False;
            prove_branch(branch, setting, known, &falsehood)
        }
        _ => refuse(setting.spot, RuleCode::R5),
    }
}

// `app [t] q r`
#[cycle(prover)]
fn by_application(
    q: &Proof,
    r: &Proof,
    setting: Setting<'_>,
    known: &mut Known,
    t: &Term,
    goal: &Term,
) -> Verdict
    ensures verdict { IfOk result (λ v. v ≡ proves setting.entry.spot (said setting.entry.roots.now q.now) (known_in known.old.state) (term.Imp t.now goal.now) ▸ proves setting.entry.spot (said setting.entry.roots.now r.now) (known_in known.old.state) t.now) }
    ensures kept { known_in known.new.state ≡ known_in known.old.state }
{
    let implication = Formula::Implication(t, goal);
    prove_two(q, r, setting, known, implication, Formula::Given(t))
}

// `neg [t] q r`
#[cycle(prover)]
fn by_contradiction(
    q: &Proof,
    r: &Proof,
    setting: Setting<'_>,
    known: &mut Known,
    t: &Term,
    goal: &Term,
) -> Verdict
    ensures verdict { IfOk result (λ v. v ≡ needs setting.entry.spot R5 (says_false (out-Term goal.now)) ▸ proves setting.entry.spot (said setting.entry.roots.now q.now) (known_in known.old.state) (term.Not t.now) ▸ proves setting.entry.spot (said setting.entry.roots.now r.now) (known_in known.old.state) t.now) }
    ensures kept { known_in known.new.state ≡ known_in known.old.state }
{
    if !is_false(goal) {
        return refuse(setting.spot, RuleCode::R5);
    }
    prove_two(
        q,
        r,
        setting,
        known,
        Formula::Negation(t),
        Formula::Given(t),
    )
}

// `em [t] {h . q} {g . r}`
#[cycle(prover)]
fn by_excluded_middle(
    holds: Case<'_>,
    fails: Case<'_>,
    setting: Setting<'_>,
    known: &mut Known,
    t: &Term,
    goal: &Term,
) -> Verdict
    ensures verdict { IfOk result (λ v. v ≡ proves_with setting.entry.spot holds.entry.name.now t.now (said setting.entry.roots.now holds.entry.proof.now) (known_in known.old.state) goal.now ▸ proves_with setting.entry.spot fails.entry.name.now (term.Not t.now) (said setting.entry.roots.now fails.entry.proof.now) (known_in known.old.state) goal.now) }
    ensures kept { known_in known.new.state ≡ known_in known.old.state }
{
    let holds = holds.of(Formula::Given(t));
    let fails = fails.of(Formula::Negation(t));
    prove_branches(holds, fails, setting, known, goal)
}

// `monus q`
#[cycle(prover)]
fn by_monus(q: &Proof, setting: Setting<'_>, known: &mut Known, goal: &Term) -> Verdict
    ensures verdict { IfOk result (λ v. v ≡ needs_two setting.entry.spot R5 (monus_of goal.now) (λ a b. proves setting.entry.spot (said setting.entry.roots.now q.now) (known_in known.old.state) (term.Le a b))) }
    ensures kept { known_in known.new.state ≡ known_in known.old.state }
{
    match as_monus(goal) {
        Some((a, b)) => prove_made(q, setting, known, Formula::AtMost(a, b)),
        None => refuse(setting.spot, RuleCode::R5),
    }
}

// `head [s] [u] q`
#[cycle(prover)]
fn by_heads(
    q: &Proof,
    setting: Setting<'_>,
    known: &mut Known,
    s: &Term,
    u: &Term,
    goal: &Term,
) -> Verdict
    ensures verdict { IfOk result (λ v. v ≡ needs_two setting.entry.spot R5 (equation_in (without_lemmas setting.entry.roots.now) sort.Nat (known_in known.old.state).scope goal.now) (λ x y. proves setting.entry.spot (said setting.entry.roots.now q.now) (known_in known.old.state) (term.Eq (term.Cons x s.now) (term.Cons y u.now)))) }
    ensures kept { known_in known.new.state ≡ known_in known.old.state }
{
    match sides(goal, Sort::Nat, setting.roots, known) {
        Some((x, y)) => prove_made(q, setting, known, Formula::Conses(x, s, y, u)),
        None => refuse(setting.spot, RuleCode::R5),
    }
}

// `tail [x] [y] q`
#[cycle(prover)]
fn by_tails(
    q: &Proof,
    setting: Setting<'_>,
    known: &mut Known,
    x: &Term,
    y: &Term,
    goal: &Term,
) -> Verdict
    ensures verdict { IfOk result (λ v. v ≡ needs_two setting.entry.spot R5 (equation_in (without_lemmas setting.entry.roots.now) sort.Seq (known_in known.old.state).scope goal.now) (λ s u. proves setting.entry.spot (said setting.entry.roots.now q.now) (known_in known.old.state) (term.Eq (term.Cons x.now s) (term.Cons y.now u)))) }
    ensures kept { known_in known.new.state ≡ known_in known.old.state }
{
    match sides(goal, Sort::Seq, setting.roots, known) {
        Some((s, u)) => prove_made(q, setting, known, Formula::Conses(x, s, y, u)),
        None => refuse(setting.spot, RuleCode::R5),
    }
}

// ---- linear certificates

// `lin k { k1 [t1] q1, .. }`: each entry's formula is a fact that is proved, and then the facts are added up.
#[cycle(prover)]
fn by_lin(
    entries: &[LinEntry],
    setting: Setting<'_>,
    known: &mut Known,
    multiplier: u64,
    goal: &Term,
) -> Verdict
    ensures verdict { IfOk result (λ v. v ≡ needs_some setting.entry.spot R5 (aim_in setting.entry.roots.now (known_in known.old.state).scope goal.now) (λ aim. in_order (map (entry_refused (without_lemmas setting.entry.roots.now) setting.entry.spot (known_in known.old.state) aim) (map (said_of_entry setting.entry.roots.now) entries.now)) ▸ certifies setting.entry.spot (known_in known.old.state).scope multiplier aim (filter_map (fact_in (without_lemmas setting.entry.roots.now) (known_in known.old.state).scope aim) (map (said_of_entry setting.entry.roots.now) entries.now)))) }
    ensures kept { known_in known.new.state ≡ known_in known.old.state }
{
    match aim_at(goal, setting.roots, known) {
        Some(aim) => prove_certificate(entries, setting, known, multiplier, aim),
        None => refuse(setting.spot, RuleCode::R5),
    }
}

#[cycle(prover)]
fn prove_certificate(
    entries: &[LinEntry],
    setting: Setting<'_>,
    known: &mut Known,
    multiplier: u64,
    aim: Aim<'_>,
) -> Verdict
    ensures verdict { IfOk result (λ v. v ≡ in_order (map (entry_refused (without_lemmas setting.entry.roots.now) setting.entry.spot (known_in known.old.state) (denied_by aim.entry)) (map (said_of_entry setting.entry.roots.now) entries.now)) ▸ certifies setting.entry.spot (known_in known.old.state).scope multiplier (denied_by aim.entry) (filter_map (fact_in (without_lemmas setting.entry.roots.now) (known_in known.old.state).scope (denied_by aim.entry)) (map (said_of_entry setting.entry.roots.now) entries.now))) }
    ensures kept { known_in known.new.state ≡ known_in known.old.state }
{
    match prove_facts(entries, setting, known, aim)? {
        Some(refusal) => Ok(Some(refusal)),
        None => certify_entries(
            setting.alloc,
            setting.spot,
            setting.roots,
            known,
            multiplier,
            aim,
            entries,
        ),
    }
}

#[cycle(prover)]
fn prove_facts(
    entries: &[LinEntry],
    setting: Setting<'_>,
    known: &mut Known,
    aim: Aim<'_>,
) -> Verdict
    ensures verdict { IfOk result (λ v. v ≡ in_order (map (entry_refused (without_lemmas setting.entry.roots.now) setting.entry.spot (known_in known.old.state) (denied_by aim.entry)) (map (said_of_entry setting.entry.roots.now) entries.now))) }
    ensures kept { known_in known.new.state ≡ known_in known.old.state }
{
    for entry in entries {
        if let Some(refusal) = prove_fact(entry, setting, known, aim)? {
            return Ok(Some(refusal));
        }
    }
    Ok(None)
}

// An entry's formula is a fact, and is proved.
#[cycle(prover)]
fn prove_fact(entry: &LinEntry, setting: Setting<'_>, known: &mut Known, aim: Aim<'_>) -> Verdict
    ensures verdict { IfOk result (λ v. v ≡ entry_refused (without_lemmas setting.entry.roots.now) setting.entry.spot (known_in known.old.state) (denied_by aim.entry) (said_of_entry setting.entry.roots.now entry.now)) }
    ensures kept { known_in known.new.state ≡ known_in known.old.state }
{
    if !is_fact(entry, aim, setting.roots, known) {
        return refuse(setting.spot, RuleCode::R5);
    }
    prove_given(entry.proof.get(), setting, known, entry.fact.get())
}
