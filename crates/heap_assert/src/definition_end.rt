// Why an instance has no definition.
use tht_tree::form::PutEnd;
use tht_tree::plain::Memory;

/// Why an instance has no definition: no case of its predicate is for it; or the definition would pass the limits of an assertion;
/// or there is no memory for it, of which the definitions do not speak.
#[derive(Clone, Copy, Debug, PartialEq, Eq)]
pub enum DefinitionEnd {
    NoCase,
    Large,
    Memory,
}

impl From<PutEnd> for DefinitionEnd {
    ghost use Rattle.std.specs.Prelude.{◌≡◌};
    ghost use Rattle.heap_assert.specs.DefinitionEnds.{end_of};

    ghost from_gives = { λ p e. e ≡ end_of p };

    fn from(end: PutEnd) -> DefinitionEnd {
        match end {
            PutEnd::Large => DefinitionEnd::Large,
            PutEnd::Memory => DefinitionEnd::Memory,
        }
    }
}

impl From<Memory> for DefinitionEnd {
    ghost use Rattle.std.specs.Prelude.{◌≡◌};
    ghost use Rattle.heap_assert.specs.declared.definition_end.DefinitionEnd.TheVariants.{Memory};

    ghost from_gives = { λ _ e. e ≡ Memory };

    fn from(_error: Memory) -> DefinitionEnd {
        DefinitionEnd::Memory
    }
}
