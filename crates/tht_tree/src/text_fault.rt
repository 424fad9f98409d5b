// What is wrong at the first fault of a text.
ghost use Rattle.std.specs.Prelude.{◌≡◌};
ghost use Rattle.tht_tree.specs.Texts.{fault_word};

/// What is wrong at the first fault of a text.
#[derive(Clone, Copy, Debug, PartialEq, Eq)]
pub enum TextFault {
    /// A byte that begins no token, outside a comment.
    Byte,
    /// A name of more than 64 bytes.
    LongName,
    /// A number of 2^64 at least.
    BigNumber,
    /// A token that cannot stand there, or the end of the text.
    Unexpected,
    /// The first token of a construct that is the 101st open one.
    Deep,
    /// An operator, an entry or a declaration that is one too many.
    Many,
    /// A version that is not 1.
    Version,
}

impl TextFault {
    /// The word that the program prints for it.
    pub fn word(self) -> &'static str
        ensures { result.now ≡ fault_word self }
    {
        match self {
            TextFault::Byte => "byte",
            TextFault::LongName => "longname",
            TextFault::BigNumber => "bignumber",
            TextFault::Unexpected => "unexpected",
            TextFault::Deep => "deep",
            TextFault::Many => "many",
            TextFault::Version => "version",
        }
    }
}
