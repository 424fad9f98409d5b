// The words of the command line.
ghost use Rattle.std.specs.Prelude.{◌≡◌, map, string_bytes, nat_le, None, Some, if◌then◌else◌};
ghost use Rattle.std.specs.Option.{option_and_then, option_map};
ghost use Rattle.tht_logic.specs.CommandLine.{asked, alone as alone_said, no_options as none_said, number_up_to as number_said, once as once_said, run_with as run_said, with_option as option_said, with_options as options_said};
ghost use Rattle.tht_front.specs.Asking.{begins_above_zero as begins_so, said_by};

use tht_tree::command::{Command, Reader};

// How many workers may be asked for.
const WORKERS_LIMIT: u32 = 1;

// How many steps may be asked for.
const STEPS_LIMIT: u32 = 1_000_000;

// The budget of steps where none is given.
const DEFAULT_BUDGET: u32 = 100_000;

/// What the options of `run` say, as far as they were given.
#[derive(Clone, Copy, Debug, PartialEq, Eq)]
pub struct Options {
    /// How many workers run the program.
    pub workers: Option<u32>,
    /// The budget of steps.
    pub steps: Option<u32>,
}

/// The command that the words ask for, or `None` where they are refused.
pub fn read_words(words: &[String]) -> Option<Command>
    ensures { result ≡ asked (map string_bytes words.now) }
{
    let (command, rest) = words.split_first()?;
    if command.as_str() == "run" {
        return run(rest);
    }
    if command.as_str() == "check" {
        return alone(rest, Reader::Check);
    }
    if command.as_str() == "print" {
        return alone(rest, Reader::Print);
    }
    None
}

// `run` with its options.
fn run(words: &[String]) -> Option<Command>
    ensures { result ≡ option_and_then run_said (options_said (map string_bytes words.now) none_said) }
{
    run_with(read_options(words)?)
}

// A command that takes no option.
fn alone(words: &[String], reader: Reader) -> Option<Command>
    ensures { result ≡ alone_said (map string_bytes words.now) reader }
{
    if words.is_empty() {
        Some(Command::Read(reader))
    } else {
        None
    }
}

// `run` with these options: the number of workers is to be given.
fn run_with(options: Options) -> Option<Command>
    ensures { result ≡ run_said (said_by options) }
{
    let _workers = options.workers?;
    let budget = options.steps.unwrap_or(DEFAULT_BUDGET);
    Some(Command::Read(Reader::Run(budget)))
}

// ---- options

// Options in any order, each at most once, a word for the name and one for the value.
#[tactic(auto, using(crate::proofs::OptionWords::no_value, crate::proofs::OptionWords::not_taken, crate::proofs::OptionWords::taken, crate::proofs::OptionWords::none_left))]
fn read_options(words: &[String]) -> Option<Options>
    ensures { option_map said_by result ≡ options_said (map string_bytes words.now) none_said }
{
    let mut options = Options {
        workers: None,
        steps: None,
    };
    let mut rest = words;
    while let Some((name, after)) = rest.split_first() {
        let (value, others) = after.split_first()?;
        options = with_option(options, name.as_str(), value.as_str())?;
        rest = others;
    }
    Some(options)
}

// With one more option.
fn with_option(options: Options, name: &str, value: &str) -> Option<Options>
    ensures { option_map said_by result ≡ option_said name.now value.now (said_by options) }
{
    if name == "--workers" {
        let workers = once(options.workers, WORKERS_LIMIT, value)?;
        return Some(Options {
            workers: Some(workers),
            steps: options.steps,
        });
    }
    if name == "--steps" {
        let steps = once(options.steps, STEPS_LIMIT, value)?;
        return Some(Options {
            workers: options.workers,
            steps: Some(steps),
        });
    }
    None
}

// The value of an option that was not given before.
fn once(given: Option<u32>, limit: u32, value: &str) -> Option<u32>
    ensures { result ≡ once_said given (number_said limit value.now) }
{
    match given {
        None => number_up_to(limit, value),
        Some(_) => None,
    }
}

// ---- numbers

// The number from 1 up to a limit that the word is in decimal, without a sign and without leading zeros.
#[tactic(auto, using(crate::proofs::Numerals::no_number, crate::proofs::Numerals::not_read, crate::proofs::Numerals::read))]
fn number_up_to(limit: u32, word: &str) -> Option<u32>
    ensures { result ≡ number_said limit word.now }
{
    if !begins_above_zero(word) {
        return None;
    }
    match word.parse::<u32>() {
        Ok(number) => up_to(limit, number),
        Err(_) => None,
    }
}

// Whether the word begins with a digit above 0.
fn begins_above_zero(word: &str) -> bool
    ensures { result ≡ begins_so word.now }
{
    match word.as_bytes().first() {
        Some(byte) => b'1' <= *byte && *byte <= b'9',
        None => false,
    }
}

// The number, where it is not above the limit.
fn up_to(limit: u32, number: u32) -> Option<u32>
    ensures { result ≡ (if nat_le number limit then Some number else None) }
{
    if number <= limit { Some(number) } else { None }
}
