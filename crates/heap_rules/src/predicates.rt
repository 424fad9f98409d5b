// The predicates of a file by their names.
ghost use Rattle.std.specs.Prelude.{◌≡◌, [], ◌++◌, ◌∷◌, ℕ, List, length, None, Some, IfOk, OnOk, MatchOption};
ghost use Rattle.tht_tree.specs.declared.decl.Decl.{Decl};
ghost use Rattle.tht_logic.specs.Rules.Definitions.{defined as defined_in};
ghost use Rattle.tht_logic.specs.Rules.Files.{declared};
ghost use Rattle.heap_assert.specs.Instances.{predicate_in};
ghost use Rattle.heap_rules.specs.Declarations.{declared_by};
ghost use Rattle.heap_rules.specs.Following.{Makes};
ghost use Rattle.heap_rules.specs.PredicatePlaces.{ArePlaces, name_of, with_name, places_in, predicate_at};

use crate::places::{Places, Predicates};
use crate::procs::procs_of;
use crate::refusals::refused;
use heap_assert::{DefinitionEnd, definition};
use pure_proofs::Refusal;
use sqlite_items::Items;
use std::alloc::Global;
use std::collections::BTreeMap;
use tht_tree::assn::Assn;
use tht_tree::decl::{Decl, DeclKind};
use tht_tree::plain::{Memory, Name, Spot};
use tht_tree::rule::RuleCode;
use tht_tree::term::Term;

impl<'a> Predicates<'a> {
    /// The predicates and the procs in these declarations: the last one of a name counts. It takes one look-up for each.
    #[tactic(auto, using(crate::specs::Declarations::declared_by_is))]
    pub fn new(alloc: Global, decls: &'a [Decl]) -> Result<Predicates<'a>, Memory>
        ensures { IfOk result (λ p. declared_by p ≡ declared [] decls.now) }
    {
        let places = places_of(alloc, decls)?;
        let procs = procs_of(alloc, decls)?;
        Ok(Predicates {
            decls,
            places,
            procs,
        })
    }

    /// The declaration of the predicate with this name.
    pub(crate) fn find(&self, name: &Name) -> Option<&'a DeclKind>
        ensures { MatchOption result ((declared_by self.now).predicates name.now ≡ None) (λ k. (declared_by self.now).predicates name.now ≡ predicate_in k.now) }
    {
        match self.places.get(name.as_str()) {
            Some(place) => declaration_at(self.decls, *place),
            None => None,
        }
    }
}

/// What an instance is defined as, for the construct at this spot: refused where no case of its predicate is for it, or the
/// definition is too large.
#[tactic(auto, using(crate::proofs::DefinedAs::found_defined, crate::proofs::DefinedAs::none_found))]
pub(crate) fn defined(
    alloc: Global,
    predicates: &Predicates<'_>,
    spot: Spot,
    name: &Name,
    arguments: &Items<Term>,
) -> Result<Assn, Refusal>
    ensures { Makes result (defined_in (declared_by predicates.now) spot name.now arguments.now) }
{
    let Some(declared) = predicates.find(name) else {
        return Err(refused(spot, RuleCode::R13));
    };
    match definition(alloc, declared, arguments) {
        Ok(made) => Ok(made),
        Err(DefinitionEnd::NoCase) => Err(refused(spot, RuleCode::R13)),
        Err(DefinitionEnd::Large) => Err(refused(spot, RuleCode::R10)),
        Err(DefinitionEnd::Memory) => Err(Refusal::Memory),
    }
}

// The declaration at this place.
fn declaration_at(decls: &[Decl], place: usize) -> Option<&DeclKind>
    ensures { MatchOption result (predicate_at (Some place) decls.now ≡ None) (λ k. predicate_at (Some place) decls.now ≡ predicate_in k.now) }
{
    match decls.get(place) {
        Some(decl) => Some(&decl.kind),
        None => None,
    }
}

// The places of the predicates in these declarations.
fn places_of(alloc: Global, decls: &[Decl]) -> Result<Places, Memory>
    ensures { IfOk result (λ places. ArePlaces places decls.now) }
{
    let mut places = no_places(alloc);
    for (place, decl) in decls.iter().enumerate() {
        add_declaration(&mut places, &decl.kind, place)?;
    }
    Ok(places)
}

fn no_places(alloc: Global) -> Places
    ensures { ArePlaces result [] }
{
    BTreeMap::new(alloc)
}

// The next declaration, whose place this is.
fn add_declaration(places: &mut Places, kind: &DeclKind, place: usize) -> Result<(), Memory>
    ensures { OnOk result ((decls : List Decl) (d : Decl) → ArePlaces places.old decls → length decls ≡ place → d.kind ≡ kind.now → ArePlaces places.new (decls ++ d ∷ [])) }
{
    match predicate_name(kind) {
        Some(name) => put_place(places, name, place),
        None => Ok(()),
    }
}

// The name of the predicate that is declared.
fn predicate_name(kind: &DeclKind) -> Option<&Name>
    ensures { MatchOption result (name_of kind.now ≡ None) (λ n. name_of kind.now ≡ Some n.now) }
{
    match kind {
        DeclKind::Pred(_, name, _, _) => Some(name),
        DeclKind::PredOn(_, name, _, _, _, _, _, _) => Some(name),
        _ => None,
    }
}

/// What has this name stands at this place.
pub(crate) fn put_place(places: &mut Places, name: &Name, place: usize) -> Result<(), Memory>
    ensures { OnOk result ((x : List ℕ) → places_in places.new x ≡ with_name name.now place (places_in places.old) x) }
{
    let name = name.copy_text()?;
    match places.insert(name, place) {
        Ok(_shadowed) => Ok(()),
        Err(_failed) => Err(Memory),
    }
}
