// Files that were checked.
ghost use Rattle.std.specs.Prelude.{◌≡◌};
ghost use Rattle.tht_tree.specs.Walk.Files.{WellSorted};
ghost use Rattle.tht_logic.specs.Soundness.{IsSound};

use tht_tree::file::Source1;

/// A file whose names and sorts are in order and that is sound: over every order and budget no step of a run of it is a fault, and
/// where main has a value, the cells that are left satisfy its postcondition.
pub struct Vetted {
    file: Source1,
    pub ghost sorted: { WellSorted file },
    pub ghost sound: { ∥ IsSound file ∥₁ },
}

// By hand, so that a crate that lets a checked file go does not prove the drop of its tree again.
impl Drop for Vetted {
    fn drop(self) {
        let Vetted { file } = self;
        let _ = file;
    }
}

impl Vetted {
    /// The file, whose names and sorts must be in order, and which must be sound.
    pub fn new(file: Source1) -> Vetted
        requires sorted { WellSorted file }
        requires sound { IsSound file }
        ensures { result.file ≡ file }
    {
        Vetted { file }
    }

    pub fn file(&self) -> &Source1
        ensures { result.now ≡ self.now.file }
    {
        &self.file
    }
}
