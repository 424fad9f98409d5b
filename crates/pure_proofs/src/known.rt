// What is known where a proof stands.
ghost use Rattle.std.specs.Prelude.{◌≡◌, ◌<◌, ◌≤◌, ◌-◌, ◌^◌, ◌++◌, ◌∷◌, [], ℕ, List, All, OnOk, OnErr, IfOk, IfErr, None, Some, MatchOption, min};
ghost use Rattle.tht_tree.specs.declared.rule.RuleCode.TheVariants.{R10};
ghost use Rattle.tht_tree.specs.declared.term.Term.{Term};
ghost use Rattle.tht_tree.specs.declared.state.Hyp.{Hyp};
ghost use Rattle.tht_tree.specs.declared.state.Local.TheVariants.{Hypothesis};
ghost use Rattle.tht_tree.specs.Rules.Context.{Context, Scope as Names, context_of, context_nodes, atom_at, with_local};
ghost use Rattle.tht_tree.specs.Rules.Known.{hyp_named, with_hyp, hyp_fits};
ghost use Rattle.tht_tree.specs.Rules.Refusals.{needs};
ghost use Rattle.pure_terms.specs.Locals.{locals_of};
ghost use Rattle.pure_proofs.specs.Places.{ArePlaces, ArePlaces-prop, formula_at};
ghost use Rattle.pure_proofs.specs.Verdicts.{IsVerdict};

use crate::places::{Places, add_place, drop_place, places_of};
use crate::refusal::Refusal;
use crate::sizes::{context_is_within, formula_fits, state_size};
use pure_terms::Scope;
use sqlite_items::Items;
use std::alloc::Global;
use tht_tree::assn::Assn;
use tht_tree::plain::{Name, Spot};
use tht_tree::rule::{RuleCode, RuleRefusal};
use tht_tree::state::{Hyp, Local, State};
use tht_tree::term::{Term, term_size};

/// What is known where a proof stands: the state, with the number of nodes of its hypotheses and atoms, and for each name the
/// place of the first hypothesis with it.
#[derive(Drop)]
pub struct Known {
    pub state: State,
    pub nodes: u64,
    places: Places,
    pub ghost numbered: { All (λ a. a.0 ≤ state.made) state.atoms.entries },
    pub ghost counted: { nodes ≡ context_nodes (context_of state) },
    pub ghost in_range: { nodes < 2 ^ 64 },
    pub ghost made_in_range: { state.made < 2 ^ 32 },
    ghost placed: { ArePlaces places state.hyps } by { ArePlaces-prop places state.hyps },
}

impl Known {
    /// From this state, whose atoms have no number above those made. Where it has 2^64 - 1 nodes or more, which no memory
    /// holds, the answer is want of memory.
    pub fn new(alloc: Global, state: State) -> Result<Known, Refusal>
        requires { All (λ a. a.0 ≤ (context_of state).made) (context_of state).atoms }
        ensures ok { IfOk result (λ k. k.state ≡ state) }
        ensures memory { IfErr result (λ e. e ≡ Refusal.Memory) }
    {
        let nodes = state_size(&state);
        if nodes == u64::MAX {
            return Err(Refusal::Memory);
        }
        let places = places_of(alloc, state.hyps.as_slice())?;
        Ok(Known {
            state,
            nodes,
            places,
        })
    }

    /// The state alone.
    pub fn into_state(self) -> State
        ensures { result ≡ self.state }
    {
        self.state
    }

    /// The formula of the hypothesis with this name.
    pub(crate) fn hypothesis(&self, name: &Name) -> Option<&Term>
        ensures { MatchOption result (hyp_named name.now (context_of self.now.state).hyps ≡ None) (λ u. hyp_named name.now (context_of self.now.state).hyps ≡ Some u.now) }
    {
        match self.places.get(name.as_str()) {
            Some(place) => formula_of(self.state.hyps.as_slice(), *place),
            None => None,
        }
    }

    /// The atom with this number.
    pub(crate) fn atom(&self, number: u64) -> Option<&Assn>
        ensures { MatchOption result (atom_at number (context_of self.now.state).atoms ≡ None) (λ a. atom_at number (context_of self.now.state).atoms ≡ Some a.now) }
    {
        if number > u64::from(self.state.made) {
            return None;
        }
        let key = number as u32;
        self.state.atoms.get(&key)
    }

    /// Adds a hypothesis, if neither it nor the whole is then too large. The result is what its name stood for before, mostly
    /// nothing. After an `Err` nothing has changed.
    pub fn assume(&mut self, spot: Spot, hyp: Hyp) -> Result<Option<Local>, Refusal>
        ensures ok { OnOk result (context_of self.new.state ≡ with_hyp (context_of self.old.state) hyp.name hyp.formula) }
        ensures shadowed { IfOk result (λ was. was ≡ (context_of self.old.state).scope hyp.name) }
        ensures err { OnErr result (context_of self.new.state ≡ context_of self.old.state) }
        ensures fits { IsVerdict result (needs spot R10 (hyp_fits (context_of self.old.state) hyp.name hyp.formula)) }
    {
        let too_large = Refusal::Rule(RuleRefusal {
            spot,
            code: RuleCode::R10,
        });
        if !formula_fits(&hyp.formula) {
            return Err(too_large);
        }
        if !context_is_within(self.nodes_with(&hyp)) {
            return Err(too_large);
        }
        self.add(hyp)
    }

    /// Adds a hypothesis of any size, where a caller has seen that what is known is not too large in the end. The result is what its
    /// name stood for before. After an `Err`, which is want of memory, nothing has changed; it also comes where what is known would
    /// have 2^64 - 1 nodes or more, which no memory holds.
    pub fn add(&mut self, hyp: Hyp) -> Result<Option<Local>, Refusal>
        ensures ok { OnOk result (context_of self.new.state ≡ with_hyp (context_of self.old.state) hyp.name hyp.formula) }
        ensures shadowed { IfOk result (λ was. was ≡ (context_of self.old.state).scope hyp.name) }
        ensures err { OnErr result (context_of self.new.state ≡ context_of self.old.state) }
        ensures memory { IfErr result (λ e. e ≡ Refusal.Memory) }
    {
        let nodes = self.nodes_with(&hyp);
        if nodes == u64::MAX {
            return Err(Refusal::Memory);
        }
        let shadowed = add_placed(&mut self.state, &mut self.places, hyp)?;
        self.nodes = nodes;
        Ok(shadowed)
    }

    // How many nodes what is known has with this hypothesis: at most 2^64 - 1, where the count stays.
    fn nodes_with(&self, hyp: &Hyp) -> u64
        ensures { result ≡ min (context_nodes (with_hyp (context_of self.now.state) hyp.now.name hyp.now.formula)) (2 ^ 64 - 1) }
    {
        self.nodes.saturating_add(term_size(&hyp.formula))
    }

    /// Takes the last hypothesis away, whose name stood for `shadowed` before: what was known without it is known again.
    pub(crate) fn forget(&mut self, shadowed: Option<Local>)
        ensures { (was : Context) (h : List ℕ) (u : Term) → context_of self.old.state ≡ with_hyp was h u → was.scope h ≡ shadowed → context_of self.new.state ≡ was }
    {
        if let Some(hyp) = take_last(&mut self.state, shadowed) {
            self.nodes -= term_size(&hyp.formula);
            drop_place(&mut self.places, &hyp.name, self.state.hyps.len());
        }
    }
}

// The formula of the hypothesis at this place.
fn formula_of(hyps: &[Hyp], place: usize) -> Option<&Term>
    ensures { MatchOption result (formula_at (Some place) hyps.now ≡ None) (λ u. formula_at (Some place) hyps.now ≡ Some u.now) }
{
    match hyps.get(place) {
        Some(hyp) => Some(&hyp.formula),
        None => None,
    }
}

// Adds the hypothesis, its name and its place. The result is what the name stood for before. After an `Err` nothing has
// changed.
fn add_placed(state: &mut State, places: &mut Places, hyp: Hyp) -> Result<Option<Local>, Refusal>
    ensures ok { OnOk result (context_of state.new ≡ with_hyp (context_of state.old) hyp.name hyp.formula) }
    ensures shadowed { IfOk result (λ was. was ≡ (context_of state.old).scope hyp.name) }
    ensures err { OnErr result (context_of state.new ≡ context_of state.old) }
    ensures memory { IfErr result (λ e. e ≡ Refusal.Memory) }
    ensures placed { ArePlaces places.old state.old.hyps → ArePlaces places.new state.new.hyps }
{
    let place = state.hyps.len();
    let name = hyp.name.copy_text()?;
    let shadowed = add_hyp(state, hyp)?;
    match add_place(places, name, place) {
        Ok(()) => Ok(shadowed),
        Err(refusal) => {
            take_back(state, shadowed);
            Err(refusal)
        }
    }
}

// Adds the hypothesis, and its name to the names in scope. The result is what the name stood for before. After an `Err`
// nothing has changed.
fn add_hyp(state: &mut State, hyp: Hyp) -> Result<Option<Local>, Refusal>
    ensures ok { OnOk result (context_of state.new ≡ with_hyp (context_of state.old) hyp.name hyp.formula) }
    ensures shadowed { IfOk result (λ was. was ≡ (context_of state.old).scope hyp.name) }
    ensures err { OnErr result (context_of state.new ≡ context_of state.old) }
    ensures memory { IfErr result (λ e. e ≡ Refusal.Memory) }
{
    let name = hyp.name.copy_text()?;
    state.hyps.push(hyp)?;
    match state.scope.insert(name, Local::Hypothesis) {
        Ok(shadowed) => Ok(shadowed),
        Err(_failed) => {
            drop_last(&mut state.hyps);
            Err(Refusal::Memory)
        }
    }
}

// Takes the last hypothesis away, whose name stood for `shadowed` before.
fn take_last(state: &mut State, shadowed: Option<Local>) -> Option<Hyp>
    ensures back { (was : Context) (h : List ℕ) (u : Term) → context_of state.old ≡ with_hyp was h u → was.scope h ≡ shadowed → context_of state.new ≡ was }
    ensures hyps { MatchOption result (state.new.hyps ≡ state.old.hyps) (λ h. state.old.hyps ≡ state.new.hyps ++ h ∷ []) }
    ensures atoms { state.new.atoms.entries ≡ state.old.atoms.entries }
    ensures made { state.new.made ≡ state.old.made }
{
    let hyp = state.hyps.pop()?;
    put_back(&mut state.scope, &hyp.name, shadowed);
    Some(hyp)
}

// Takes back the last hypothesis, whose name stood for `shadowed` before.
fn take_back(state: &mut State, shadowed: Option<Local>)
    ensures { (was : Context) (h : List ℕ) (u : Term) → context_of state.old ≡ with_hyp was h u → was.scope h ≡ shadowed → context_of state.new ≡ was }
{
    if let Some(hyp) = take_last(state, shadowed) {
        let _ = hyp;
    }
}

// Takes the last hypothesis away.
fn drop_last(hyps: &mut Items<Hyp>)
    ensures { (was : List Hyp) (h : Hyp) → hyps.old ≡ was ++ h ∷ [] → hyps.new ≡ was }
{
    if let Some(hyp) = hyps.pop() {
        let _ = hyp;
    }
}

// Takes a hypothesis' name out of scope: what it stood for before comes back.
fn put_back(scope: &mut Scope, name: &Name, shadowed: Option<Local>)
    ensures { (was : Names) → locals_of scope.old ≡ with_local was name.now Hypothesis → was name.now ≡ shadowed → locals_of scope.new ≡ was }
{
    match shadowed {
        Some(local) => set_local(scope, name, local),
        None => {
            let _ = scope.remove(name.as_str());
        }
    }
}

// What a name in scope stands for from now on.
fn set_local(scope: &mut Scope, name: &Name, local: Local)
    ensures { (was : Names) → locals_of scope.old ≡ with_local was name.now Hypothesis → locals_of scope.new ≡ with_local was name.now local }
{
    if let Some(held) = scope.get_mut(name.as_str()) {
        *held = local;
    }
}
