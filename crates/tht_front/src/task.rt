// What is done with an accepted file.

/// What a command does with a file that is accepted.
#[derive(Clone, Copy, Debug, PartialEq, Eq)]
pub enum Task {
    /// It says so.
    Say,
    /// It runs the file, with a budget of this many steps.
    Run(u32),
}
