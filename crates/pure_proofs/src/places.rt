// The places of hypotheses, by their names.
ghost use Rattle.std.specs.Prelude.{◌≡◌, ◌↔◌, IsTrue, Some, ◌++◌, ◌∷◌, [], List, length, OnOk, OnErr, IfOk, IfErr};
ghost use Rattle.std.specs.String.{string_bytes};
ghost use Rattle.tht_tree.specs.declared.state.Hyp.{Hyp};
ghost use Rattle.pure_proofs.specs.Places.{ArePlaces, places_in};

use crate::refusal::Refusal;
use std::alloc::Global;
use std::collections::BTreeMap;
use tht_tree::plain::Name;
use tht_tree::state::Hyp;

/// For each name the place of the first hypothesis with it.
pub(crate) type Places = BTreeMap<String, usize>;

/// The places of these hypotheses.
pub(crate) fn places_of(alloc: Global, hyps: &[Hyp]) -> Result<Places, Refusal>
    ensures places { IfOk result (λ places. ArePlaces places hyps.now) }
    ensures memory { IfErr result (λ e. e ≡ Refusal.Memory) }
{
    let mut places = no_places(alloc);
    for (place, hyp) in hyps.iter().enumerate() {
        let name = hyp.name.copy_text()?;
        add_place(&mut places, name, place)?;
    }
    Ok(places)
}

fn no_places(alloc: Global) -> Places
    ensures { ArePlaces result [] }
{
    BTreeMap::new(alloc)
}

/// The next hypothesis, whose place this is, has this name. After an `Err` nothing has changed.
pub(crate) fn add_place(places: &mut Places, name: String, place: usize) -> Result<(), Refusal>
    ensures ok { OnOk result ((hyps : List Hyp) (h : Hyp) → ArePlaces places.old hyps → length hyps ≡ place → h.name ≡ string_bytes name → ArePlaces places.new (hyps ++ h ∷ [])) }
    ensures err { OnErr result (places.new.entries ≡ places.old.entries) }
    ensures memory { IfErr result (λ e. e ≡ Refusal.Memory) }
{
    if places.contains_key(name.as_str()) {
        return Ok(());
    }
    match places.insert(name, place) {
        Ok(_absent) => Ok(()),
        Err(_failed) => Err(Refusal::Memory),
    }
}

/// The last hypothesis, whose place and name these are, is known no more.
pub(crate) fn drop_place(places: &mut Places, name: &Name, place: usize)
    ensures { (hyps : List Hyp) (h : Hyp) → ArePlaces places.old (hyps ++ h ∷ []) → length hyps ≡ place → h.name ≡ name.now → ArePlaces places.new hyps }
{
    if is_place(places, name, place) {
        let _ = places.remove(name.as_str());
    }
}

// Whether the first hypothesis with this name stands at this place.
fn is_place(places: &Places, name: &Name, place: usize) -> bool
    ensures { IsTrue result ↔ (places_in places.now name.now ≡ Some place) }
{
    match places.get(name.as_str()) {
        Some(first) => *first == place,
        None => false,
    }
}
