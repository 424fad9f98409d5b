// Laws over the definitions.
ghost use Rattle.std.specs.Prelude.{◌≡◌, List, ℕ};
ghost use Rattle.std.specs.declared.option.Option.{Option};
ghost use Rattle.tht_tree.specs.declared.status.Status.{Status};
ghost use Rattle.tht_tree.specs.declared.command.Command.{Command};
ghost use Rattle.tht_logic.specs.CommandLine.{Answers};

/// Words and input have one status and one output.
pub fn one_answer()
    ensures { (command : Option Command) (input : List ℕ) (s t : Status) (o p : List ℕ) →
        Answers command input s o → Answers command input t p → (s ≡ t) × (o ≡ p) }
{}
