// The variables that are bound where a walk over a body stands.
ghost use Rattle.program_forms.specs.Levels.{AreLevels, AreLevels-prop, AreShadowed, AreShadowed-prop};

use crate::levels::{Levels, Shadow, add, level_of, no_levels, take_out};
use sqlite_items::Items;
use std::alloc::{AllocError, Global};
use tht_tree::plain::Name;

/// The variables that are bound, from the outermost on, and the level of the innermost with each name.
#[derive(Drop)]
pub(crate) struct Binders {
    bound: Items<Shadow>,
    levels: Levels,
    ghost leveled: { AreLevels levels bound } by { AreLevels-prop levels bound },
    ghost shadowed: { AreShadowed bound } by { AreShadowed-prop bound },
}

#[tactic(auto, unfolding(crate::specs::Names::names_of))]
impl Binders {
    ghost use Rattle.std.specs.Prelude.{◌≡◌, ◌∷◌, [], OnOk};
    ghost use Rattle.tht_tree.specs.Syntax.{position};
    ghost use Rattle.program_forms.specs.Names.{names_of};
    ghost use Rattle.program_forms.specs.Outside.{outside};

    /// No variable is bound.
    #[tactic(auto, using(crate::proofs::Leveled::none_shadowed), unfolding(crate::specs::Names::names_of))]
    pub fn new(alloc: Global) -> Binders
        ensures { names_of result ≡ [] }
    {
        let levels = no_levels(alloc);
        Binders {
            bound: Items::new(alloc),
            levels,
        }
    }

    /// The number of binders between here and the innermost variable with this name, if there is one.
    pub fn position(&self, name: &Name) -> Option<usize>
        ensures { result ≡ position 0 (names_of self.now) name.now }
    {
        match level_of(&self.levels, name) {
            Some(level) => Some(self.bound.len().saturating_sub(level).saturating_sub(1)),
            None => None,
        }
    }

    /// Binds a variable inside of the others. After an `Err` nothing has changed.
    pub fn push(&mut self, name: &Name) -> Result<(), AllocError>
        ensures { OnOk result (names_of self.new ≡ name.now ∷ names_of self.old) }
    {
        let key = name.copy_text()?;
        let outer = level_of(&self.levels, name);
        let name = name.copy()?;
        add(
            &mut self.bound,
            &mut self.levels,
            key,
            Shadow { name, outer },
        )?;
        Ok(())
    }

    /// Takes out the innermost variable. After an `Err` nothing has changed.
    pub fn pop(&mut self) -> Result<(), AllocError>
        ensures { OnOk result (names_of self.new ≡ outside (names_of self.old)) }
    {
        take_out(&mut self.bound, &mut self.levels)
    }
}
