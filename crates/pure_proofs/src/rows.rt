// Inequalities with their multipliers.
ghost use Rattle.std.specs.Prelude.{◌≡◌, length};

use sqlite_items::Items;
use std::alloc::{AllocError, Global};
use std::vec::Vec;
use tht_tree::form::Inequality;

/// Inequalities, each with its multiplier.
#[derive(Drop)]
pub(crate) struct Rows {
    pub forms: Items<Inequality>,
    pub by: Vec<u64>,
    ghost paired: { length forms ≡ length by.items },
}

impl Rows {
    ghost use Rattle.std.specs.Prelude.{◌++◌, ◌∷◌, [], OnOk};
    ghost use Rattle.pure_proofs.specs.Rows.{rows_of};

    pub fn new(alloc: Global) -> Rows
        ensures { rows_of result ≡ [] }
    {
        Rows {
            forms: Items::new(alloc),
            by: Vec::new(alloc),
        }
    }

    /// Adds one.
    pub fn add(&mut self, by: u64, form: Inequality) -> Result<(), AllocError>
        ensures { OnOk result (rows_of self.new ≡ rows_of self.old ++ record { by = by; form = form } ∷ []) }
    {
        self.by.reserve(1)?;
        self.forms.push(form)?;
        self.by.push(by)?;
        Ok(())
    }
}
