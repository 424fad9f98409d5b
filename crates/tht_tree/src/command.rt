// What the words of the command line ask for.

/// A command with its options.
#[derive(Clone, Copy, Debug, PartialEq, Eq)]
pub enum Command {
    Read(Reader),
}

/// A command that reads a source.
#[derive(Clone, Copy, Debug, PartialEq, Eq)]
pub enum Reader {
    /// Checks a file.
    Check,
    /// Checks a file and runs its `main`, with a budget of this many steps: from 1 to 1,000,000.
    Run(u32),
    /// Prints a file in its layout.
    Print,
}
