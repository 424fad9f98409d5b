// Where the variables that are bound stand.
ghost use Rattle.std.specs.Prelude.{◌≡◌, ◌∷◌, ◌++◌, [], List, Some, None, OnOk, OnErr};
ghost use Rattle.std.specs.String.{string_bytes};
ghost use Rattle.program_forms.specs.declared.levels.Shadow.{Shadow};
ghost use Rattle.program_forms.specs.Levels.{Puts, levels_in, names_in, AreLevels, AreShadowed};
ghost use Rattle.program_forms.specs.Outside.{outside};

use sqlite_items::Items;
use std::alloc::{AllocError, Global};
use std::collections::BTreeMap;
use tht_tree::plain::Name;

/// For each name the level of the innermost variable with it. The outermost variable has the level 0.
pub(crate) type Levels = BTreeMap<String, usize>;

/// A variable that is bound, and the level of the innermost one outside of it with the same name, if there is one.
#[derive(Drop)]
pub(crate) struct Shadow {
    pub name: Name,
    pub outer: Option<usize>,
}

/// Where no variable is bound.
pub(crate) fn no_levels(alloc: Global) -> Levels
    ensures { (bound : List Shadow) → bound ≡ [] → AreLevels result bound }
{
    BTreeMap::new(alloc)
}

/// The level of a name.
pub(crate) fn level_of(levels: &Levels, name: &Name) -> Option<usize>
    ensures { result ≡ levels_in levels.now name.now }
{
    levels.get(name.as_str()).copied()
}

/// Binds a variable inside of the others. The key is its name. After an `Err` nothing has changed.
pub(crate) fn add(
    bound: &mut Items<Shadow>,
    levels: &mut Levels,
    key: String,
    shadow: Shadow,
) -> Result<(), AllocError>
    ensures names { OnOk result (names_in bound.new ≡ shadow.name ∷ names_in bound.old) }
    ensures leveled { shadow.name ≡ string_bytes key → AreLevels levels.old bound.old → AreLevels levels.new bound.new }
    ensures shadowed { shadow.outer ≡ levels_in levels.old shadow.name → AreLevels levels.old bound.old → AreShadowed bound.old → AreShadowed bound.new }
{
    let level = bound.len();
    bound.push(shadow)?;
    match put(levels, key, level) {
        Ok(()) => Ok(()),
        Err(error) => {
            drop_last(bound);
            Err(error)
        }
    }
}

/// Takes out the innermost variable. After an `Err` nothing has changed.
pub(crate) fn take_out(bound: &mut Items<Shadow>, levels: &mut Levels) -> Result<(), AllocError>
    ensures names { OnOk result (names_in bound.new ≡ outside (names_in bound.old)) }
    ensures leveled { AreLevels levels.old bound.old → AreShadowed bound.old → AreLevels levels.new bound.new }
    ensures shadowed { AreShadowed bound.old → AreShadowed bound.new }
{
    match bound.as_slice().split_last() {
        None => Ok(()),
        Some((shadow, _front)) => {
            let outer = shadow.outer;
            let key = shadow.name.copy_text()?;
            put_back(levels, key, outer)?;
            drop_last(bound);
            Ok(())
        }
    }
}

// Takes the last away.
fn drop_last(bound: &mut Items<Shadow>)
    ensures { (front : List Shadow) (s : Shadow) → bound.old ≡ front ++ s ∷ [] → bound.new ≡ front }
{
    if let Some(shadow) = bound.pop() {
        let _ = shadow;
    }
}

// Gives a name a level. After an `Err` nothing has changed.
fn put(levels: &mut Levels, name: String, level: usize) -> Result<(), AllocError>
    ensures ok { OnOk result (Puts levels.old levels.new (string_bytes name) (Some level)) }
    ensures err { OnErr result (levels.new.entries ≡ levels.old.entries) }
{
    let _ = levels.insert(name, level)?;
    Ok(())
}

// Gives a name the level that it had outside. After an `Err` nothing has changed.
fn put_back(levels: &mut Levels, name: String, outer: Option<usize>) -> Result<(), AllocError>
    ensures ok { OnOk result (Puts levels.old levels.new (string_bytes name) outer) }
    ensures err { OnErr result (levels.new.entries ≡ levels.old.entries) }
{
    match outer {
        Some(level) => put(levels, name, level),
        None => {
            remove(levels, name.as_str());
            Ok(())
        }
    }
}

fn remove(levels: &mut Levels, name: &str)
    ensures { Puts levels.old levels.new name.now None }
{
    let _ = levels.remove(name);
}
