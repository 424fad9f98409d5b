// Gives: which atoms they consume.
ghost use Rattle.std.specs.Prelude.{◌≡◌, ◌∷◌, [], Ok, IfOk, OnErr};
ghost use Rattle.tht_tree.specs.declared.assn.Assn.{out-Assn};
ghost use Rattle.tht_tree.specs.declared.rule.RuleCode.TheVariants.{R1, R4};
ghost use Rattle.tht_tree.specs.Rules.Context.{context_of, atom_at, without_atom};
ghost use Rattle.tht_tree.specs.Rules.Proofs.{prove as said_of};
ghost use Rattle.tht_tree.specs.Rules.Scoping.{is_of as has, sort_of};
ghost use Rattle.tht_logic.specs.Alike.{alike as are_alike};
ghost use Rattle.tht_logic.specs.Rules.Checking.{unless_refused, on_some, on_ok, on_true, put_or_refused};
ghost use Rattle.tht_logic.specs.Putting.{put_assn_within};
ghost use Rattle.tht_logic.specs.Rules.Gives.{Atoms as AtomList, emp_at, fact_at, star_at, disjunction_at, frame_of, frame_of_kind, after_give};
ghost use Rattle.pure_terms.specs.Locals.{locals_of};
ghost use Rattle.pure_proofs.specs.Said.{known_in};
ghost use Rattle.heap_rules.specs.Declarations.{declared_by};
ghost use Rattle.heap_rules.specs.ConsumedAtoms.{left_of, IsCounted, Leaves, Consumes};
ghost use Rattle.heap_rules.specs.Following.{Makes, Follows};
ghost use Rattle.heap_rules.specs.Openings.{opened, unfolded};

use crate::consumed::Consumed;
use crate::places::Predicates;
use crate::predicates::defined;
use crate::refusals::{put_within, refused};
use crate::shapes::{as_disjunction, as_star};
use heap_assert::alike;
use pure_proofs::{Known, Refusal, prove};
use pure_terms::{Scope, Subst, sort_in};
use std::alloc::Global;
use tht_tree::assn::{Assn, assn_size};
use tht_tree::give::{Give, GiveKind};
use tht_tree::plain::{Name, Sort, Spot};
use tht_tree::proof::Proof;
use tht_tree::rule::RuleCode;
use tht_tree::term::Term;

/// Consumes the atoms by which the give proves the goal. On a refusal nothing has changed.
pub(crate) fn consume_given(
    alloc: Global,
    known: &mut Known,
    predicates: &Predicates<'_>,
    give: &Give,
    goal: &Assn,
) -> Result<(), Refusal>
    ensures follows { Follows result (after_give (declared_by predicates.now) (context_of known.old.state) give.now goal.now) (context_of known.old.state) (context_of known.new.state) }
    ensures err { OnErr result (context_of known.new.state ≡ context_of known.old.state) }
{
    match check_give(alloc, known, predicates, give, goal) {
        Ok(consumed) => {
            let made = known.state.made;
            consumed.take_out(known, made);
            Ok(())
        }
        Err(refusal) => Err(refusal),
    }
}

/// The atoms by which the give proves the goal. What is known stays as it was.
pub(crate) fn check_give(
    alloc: Global,
    known: &mut Known,
    predicates: &Predicates<'_>,
    give: &Give,
    goal: &Assn,
) -> Result<Consumed, Refusal>
    ensures frame { let c = known_in known.old.state in Consumes result (frame_of (declared_by predicates.now) c give.now c.atoms goal.now) c.atoms }
    ensures counted { IfOk result (λ s. IsCounted s (known_in known.old.state).atoms) }
    ensures kept { known_in known.new.state ≡ known_in known.old.state }
{
    let setting = Setting {
        spot: give.spot,
        alloc,
        predicates,
    };
    let mut consumed = Consumed::new(alloc);
    consume(give, setting, known, &mut consumed, goal)?;
    Ok(consumed)
}

/// Where a give stands: its spot, what it makes goals with, and the predicates of the file.
#[derive(Clone, Copy)]
struct Setting<'a, 'd> {
    spot: Spot,
    alloc: Global,
    predicates: &'a Predicates<'d>,
}

// Adds what a give of this goal consumes to what was consumed before it. What is known stays as it was.
#[cycle(gives)]
#[tactic(auto, unfolding(tht_logic::specs::Rules::Gives::frame_of, tht_logic::specs::Rules::Gives::frame_of_kind))]
fn consume(
    give: &Give,
    setting: Setting<'_, '_>,
    known: &mut Known,
    consumed: &mut Consumed,
    goal: &Assn,
) -> Result<(), Refusal>
    ensures frame { let c = known_in known.old.state in Leaves result (frame_of (declared_by setting.entry.predicates.now) c give.now (left_of consumed.old c.atoms) goal.now) (left_of consumed.new c.atoms) }
    ensures counted { IsCounted consumed.old (known_in known.old.state).atoms → IsCounted consumed.new (known_in known.old.state).atoms }
    ensures kept { known_in known.new.state ≡ known_in known.old.state }
{
    let setting = Setting {
        spot: give.spot,
        ..setting
    };
    consume_kind(&give.kind, setting, known, consumed, goal)
}

// A give, by its form.
#[cycle(gives)]
#[tactic(auto, unfolding(tht_logic::specs::Rules::Gives::frame_of, tht_logic::specs::Rules::Gives::frame_of_kind))]
fn consume_kind(
    kind: &GiveKind,
    setting: Setting<'_, '_>,
    known: &mut Known,
    consumed: &mut Consumed,
    goal: &Assn,
) -> Result<(), Refusal>
    ensures frame { let c = known_in known.old.state in Leaves result (frame_of_kind (declared_by setting.entry.predicates.now) c kind.now setting.entry.spot (left_of consumed.old c.atoms) goal.now) (left_of consumed.new c.atoms) }
    ensures counted { IsCounted consumed.old (known_in known.old.state).atoms → IsCounted consumed.new (known_in known.old.state).atoms }
    ensures kept { known_in known.new.state ≡ known_in known.old.state }
{
    match kind {
        GiveKind::Emp => consume_nothing(setting.spot, goal),
        GiveKind::Atom(number) => consume_atom(*number, setting.spot, known, consumed, goal),
        GiveKind::Fact(proof) => prove_fact(proof, setting, known, goal),
        GiveKind::Star(x, y) => consume_both(x.get(), y.get(), setting, known, consumed, goal),
        GiveKind::Ex(t, x) => consume_opened(x.get(), setting, known, consumed, t.get(), goal),
        GiveKind::Left(x) => consume_left(x.get(), setting, known, consumed, goal),
        GiveKind::Right(x) => consume_right(x.get(), setting, known, consumed, goal),
        GiveKind::Fold(x) => consume_unfolded(x.get(), setting, known, consumed, goal),
    }
}

// ---- gives without a give inside

// `emp`
fn consume_nothing(spot: Spot, goal: &Assn) -> Result<(), Refusal>
    ensures { (atoms : AtomList) → Leaves result (on_some spot R4 (emp_at (out-Assn goal.now)) (λ z. Ok atoms)) atoms }
{
    match goal {
        Assn::Emp => Ok(()),
        _ => Err(refused(spot, RuleCode::R4)),
    }
}

// `@i`
fn consume_atom(
    number: u64,
    spot: Spot,
    known: &Known,
    consumed: &mut Consumed,
    goal: &Assn,
) -> Result<(), Refusal>
    ensures frame { let c = known_in known.now.state in let atoms = left_of consumed.old c.atoms in
        Leaves result (on_some spot R1 (atom_at number atoms) (λ p. on_true spot R4 (are_alike p goal.now) (Ok (without_atom number atoms)))) (left_of consumed.new c.atoms) }
    ensures counted { IsCounted consumed.old (known_in known.now.state).atoms → IsCounted consumed.new (known_in known.now.state).atoms }
{
    let Some(atom) = consumed.at_hand(known, number) else {
        return Err(refused(spot, RuleCode::R1));
    };
    if !alike(atom, goal) {
        return Err(refused(spot, RuleCode::R4));
    }
    consumed.add(number, assn_size(atom))
}

// `[p]`
#[tactic(auto, unfolding(crate::specs::Declarations::declared_by, pure_proofs::specs::Said::known_in))]
fn prove_fact(
    proof: &Proof,
    setting: Setting<'_, '_>,
    known: &mut Known,
    goal: &Assn,
) -> Result<(), Refusal>
    ensures frame { (atoms : AtomList) → Leaves result (on_some setting.entry.spot R4 (fact_at (out-Assn goal.now)) (λ t. unless_refused (said_of (declared_by setting.entry.predicates.now).proofs proof.now (known_in known.old.state) t) (Ok atoms))) atoms }
    ensures kept { known_in known.new.state ≡ known_in known.old.state }
{
    match goal {
        Assn::Fact(formula) => prove(proof, setting.alloc, &[], known, formula.get()),
        _ => Err(refused(setting.spot, RuleCode::R4)),
    }
}

// ---- gives of goals inside

// `x * y`
#[cycle(gives)]
fn consume_both(
    x: &Give,
    y: &Give,
    setting: Setting<'_, '_>,
    known: &mut Known,
    consumed: &mut Consumed,
    goal: &Assn,
) -> Result<(), Refusal>
    ensures frame { let c = known_in known.old.state in let frame = frame_of (declared_by setting.entry.predicates.now) c in
        Leaves result (on_some setting.entry.spot R4 (star_at (out-Assn goal.now)) (λ p. on_ok (frame x.now (left_of consumed.old c.atoms) p.0) (λ left. frame y.now left p.1))) (left_of consumed.new c.atoms) }
    ensures counted { IsCounted consumed.old (known_in known.old.state).atoms → IsCounted consumed.new (known_in known.old.state).atoms }
    ensures kept { known_in known.new.state ≡ known_in known.old.state }
{
    let Some((p, q)) = as_star(goal) else {
        return Err(refused(setting.spot, RuleCode::R4));
    };
    consume(x, setting, known, consumed, p)?;
    consume(y, setting, known, consumed, q)
}

// `ex [t] x`
#[cycle(gives)]
fn consume_opened(
    x: &Give,
    setting: Setting<'_, '_>,
    known: &mut Known,
    consumed: &mut Consumed,
    t: &Term,
    goal: &Assn,
) -> Result<(), Refusal>
    ensures frame { let c = known_in known.old.state in let decl = declared_by setting.entry.predicates.now in
        Leaves result (on_ok (opened decl setting.entry.spot c.scope t.now goal.now) (frame_of decl c x.now (left_of consumed.old c.atoms))) (left_of consumed.new c.atoms) }
    ensures counted { IsCounted consumed.old (known_in known.old.state).atoms → IsCounted consumed.new (known_in known.old.state).atoms }
    ensures kept { known_in known.new.state ≡ known_in known.old.state }
{
    let body = open(setting, known, t, goal)?;
    consume(x, setting, known, consumed, &body)
}

// `fold x`
#[cycle(gives)]
fn consume_unfolded(
    x: &Give,
    setting: Setting<'_, '_>,
    known: &mut Known,
    consumed: &mut Consumed,
    goal: &Assn,
) -> Result<(), Refusal>
    ensures frame { let c = known_in known.old.state in let decl = declared_by setting.entry.predicates.now in
        Leaves result (on_ok (unfolded decl setting.entry.spot goal.now) (frame_of decl c x.now (left_of consumed.old c.atoms))) (left_of consumed.new c.atoms) }
    ensures counted { IsCounted consumed.old (known_in known.old.state).atoms → IsCounted consumed.new (known_in known.old.state).atoms }
    ensures kept { known_in known.new.state ≡ known_in known.old.state }
{
    let body = unfold(setting, goal)?;
    consume(x, setting, known, consumed, &body)
}

// `left x`
#[cycle(gives)]
fn consume_left(
    x: &Give,
    setting: Setting<'_, '_>,
    known: &mut Known,
    consumed: &mut Consumed,
    goal: &Assn,
) -> Result<(), Refusal>
    ensures frame { let c = known_in known.old.state in let frame = frame_of (declared_by setting.entry.predicates.now) c in
        Leaves result (on_some setting.entry.spot R4 (disjunction_at (out-Assn goal.now)) (λ p. frame x.now (left_of consumed.old c.atoms) p.0)) (left_of consumed.new c.atoms) }
    ensures counted { IsCounted consumed.old (known_in known.old.state).atoms → IsCounted consumed.new (known_in known.old.state).atoms }
    ensures kept { known_in known.new.state ≡ known_in known.old.state }
{
    match as_disjunction(goal) {
        Some((p, _)) => consume(x, setting, known, consumed, p),
        None => Err(refused(setting.spot, RuleCode::R4)),
    }
}

// `right x`
#[cycle(gives)]
fn consume_right(
    x: &Give,
    setting: Setting<'_, '_>,
    known: &mut Known,
    consumed: &mut Consumed,
    goal: &Assn,
) -> Result<(), Refusal>
    ensures frame { let c = known_in known.old.state in let frame = frame_of (declared_by setting.entry.predicates.now) c in
        Leaves result (on_some setting.entry.spot R4 (disjunction_at (out-Assn goal.now)) (λ p. frame x.now (left_of consumed.old c.atoms) p.1)) (left_of consumed.new c.atoms) }
    ensures counted { IsCounted consumed.old (known_in known.old.state).atoms → IsCounted consumed.new (known_in known.old.state).atoms }
    ensures kept { known_in known.new.state ≡ known_in known.old.state }
{
    match as_disjunction(goal) {
        Some((_, q)) => consume(x, setting, known, consumed, q),
        None => Err(refused(setting.spot, RuleCode::R4)),
    }
}

// ---- the goals that are made

// What stands behind an existential, for this term.
#[tactic(auto, unfolding(crate::specs::Declarations::declared_by, pure_proofs::specs::Said::known_in))]
fn open(setting: Setting<'_, '_>, known: &Known, t: &Term, goal: &Assn) -> Result<Assn, Refusal>
    ensures { Makes result (opened (declared_by setting.entry.predicates.now) setting.entry.spot (known_in known.now.state).scope t.now goal.now) }
{
    match goal {
        Assn::Exists(name, sort, body) => {
            if !has_sort(t, *sort, &known.state.scope) {
                return Err(refused(setting.spot, RuleCode::R4));
            }
            put_one(setting, name, t, body.get())
        }
        _ => Err(refused(setting.spot, RuleCode::R4)),
    }
}

// Whether the term has this sort, where there are no roots.
fn has_sort(term: &Term, sort: Sort, scope: &Scope) -> bool
    ensures { result ≡ has sort (sort_of [] (locals_of scope.now) term.now) }
{
    match sort_in(term, &[], scope) {
        Some(found) => sort == found,
        None => false,
    }
}

// The assertion with this term for the name.
fn put_one(setting: Setting<'_, '_>, name: &Name, t: &Term, assn: &Assn) -> Result<Assn, Refusal>
    ensures { Makes result (put_or_refused setting.entry.spot (put_assn_within ((name.now, t.now) ∷ []) assn.now)) }
{
    let mut by = Subst::new(setting.alloc);
    by.add(name.copy()?, t.copy(setting.alloc)?)?;
    put_within(setting.alloc, setting.spot, assn, &by)
}

// What an instance is defined as.
fn unfold(setting: Setting<'_, '_>, goal: &Assn) -> Result<Assn, Refusal>
    ensures { Makes result (unfolded (declared_by setting.entry.predicates.now) setting.entry.spot goal.now) }
{
    match goal {
        Assn::Inst(name, arguments) => {
            defined(
                setting.alloc,
                setting.predicates,
                setting.spot,
                name,
                arguments,
            )
        }
        _ => Err(refused(setting.spot, RuleCode::R4)),
    }
}
