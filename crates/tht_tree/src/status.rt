// How the program ends.
ghost use Rattle.std.specs.Prelude.{◌≡◌};
ghost use Rattle.tht_tree.specs.Statuses.{number_of};

/// How the program ends. The numbers 11 to 13 are kept for statuses that no command has yet.
#[derive(Clone, Copy, Debug, PartialEq, Eq)]
pub enum Status {
    Done,
    Words,
    ReadFault,
    WriteFault,
    TooLong,
    Text,
    NamesOrSorts,
    Rule,
    Spent,
    Big,
    Memory,
}

impl Status {
    /// The exit status: 0 where nothing was refused and the run was not cut short.
    pub fn number(self) -> u8
        ensures { result ≡ number_of self }
    {
        match self {
            Status::Done => 0,
            Status::Words => 1,
            Status::ReadFault => 2,
            Status::WriteFault => 3,
            Status::TooLong => 4,
            Status::Text => 5,
            Status::NamesOrSorts => 6,
            Status::Rule => 7,
            Status::Spent => 8,
            Status::Big => 9,
            Status::Memory => 10,
        }
    }
}
