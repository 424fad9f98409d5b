// Laws of the layout, each the contract of a function that does nothing.
ghost use Rattle.tht_print.specs.Laws.{LayoutSpells};

/// The layout of a file that some bytes spell spells the same file, but for its spots.
pub fn layout_spells()
    ensures { LayoutSpells }
{}
