// What is answered to the words and the input.
ghost use Rattle.std.specs.Prelude.{◌≡◌, ◌≤◌, length, true, IfOk, IsTrue};
ghost use Rattle.tht_logic.specs.CommandLine.{Accepts, FileAnswers, status_of as status_said};
ghost use Rattle.tht_logic.specs.Built.{is_built as built};
ghost use Rattle.tht_logic.specs.Rules.Files.{IsAccepted};
ghost use Rattle.tht_tree.specs.Layout.{layout};
ghost use Rattle.tht_front.specs.Asking.{reader_of};
ghost use Rattle.tht_front.specs.Refusals.{fault_in, AnswersTo, Judges, IsLineOf};
ghost use Rattle.tht_front.specs.Decided.{is_cut_short, is_decided, is_past_text, is_run};
ghost use Rattle.tht_front.specs.Outcomes.{RunEnds};

use crate::course::Course;
use crate::decided::Answer;
use crate::lines::{rule_line, walk_line};
use crate::report::{Ran, report};
use crate::run::run;
use crate::task::Task;
use file_checker::{CheckEnd, check};
use hoare_rules::is_built;
use std::alloc::{AllocError, Global};
use tht_parse::{ParseEnd, parse};
use tht_print::print;
use tht_tree::command::Reader;
use tht_tree::file::Source1;
use tht_tree::plain::Spot;
use tht_tree::run::End;
use tht_tree::status::Status;
use tht_tree::text_fault::TextFault;

/// A status with a text.
pub fn line(alloc: Global, status: Status, text: &[u8]) -> Result<Answer, AllocError>
    requires { IsTrue (is_decided status) }
    ensures status { IfOk result (λ answer. answer.status ≡ status) }
    ensures output { IfOk result (λ answer. answer.output.items ≡ text.now) }
{
    let output = text.to_vec(alloc)?;
    Ok(Answer { status, output })
}

/// The answer of a command to its whole input.
pub fn answer_to(alloc: Global, reader: Reader, input: &[u8]) -> Result<Answer, AllocError>
    requires { length input.now ≤ 1048576 }
    ensures answer { IfOk result (λ answer. FileAnswers reader input.now answer.status answer.output.items) }
    ensures run { IfOk result (λ answer. IsTrue (is_cut_short answer.status) → IsTrue (is_run reader)) }
{
    match parse(alloc, input) {
        Ok(file) => answer_to_file(alloc, reader, file),
        Err(end) => refused(alloc, end),
    }
}

// The answer to an input that spells no file.
fn refused(alloc: Global, end: ParseEnd) -> Result<Answer, AllocError>
    ensures status { IfOk result (λ answer. answer.status ≡ Status.Text) }
    ensures output { IfOk result (λ answer. IsLineOf end answer.output.items) }
{
    let Some((fault, spot)) = fault_of(end) else {
        return Err(AllocError);
    };
    let mut text = String::new(alloc);
    let (line, column, word) = (spot.line, spot.column, fault.word());
    writeln!(text, "text {line}:{column} {word}")?;
    Ok(Answer {
        status: Status::Text,
        output: text.into_bytes(),
    })
}

// The fault of a text and its place, unless memory ran out.
fn fault_of(end: ParseEnd) -> Option<(TextFault, Spot)>
    ensures { result ≡ fault_in end }
{
    match end {
        ParseEnd::BadByte { spot } => Some((TextFault::Byte, spot)),
        ParseEnd::LongName { spot } => Some((TextFault::LongName, spot)),
        ParseEnd::BigNumber { spot } => Some((TextFault::BigNumber, spot)),
        ParseEnd::Unexpected { spot, .. } => Some((TextFault::Unexpected, spot)),
        ParseEnd::Deep { spot } => Some((TextFault::Deep, spot)),
        ParseEnd::Many { spot } => Some((TextFault::Many, spot)),
        ParseEnd::Version { spot } => Some((TextFault::Version, spot)),
        ParseEnd::Memory => None,
    }
}

// ---- files

// The answer of a command to a file that the input spells.
fn answer_to_file(alloc: Global, reader: Reader, file: Source1) -> Result<Answer, AllocError>
    ensures { IfOk result (λ answer. AnswersTo reader file answer.status answer.output.items) }
{
    match reader {
        Reader::Check => judged(alloc, Task::Say, file),
        Reader::Run(budget) => judged(alloc, Task::Run(budget), file),
        Reader::Print => printed(alloc, &file),
    }
}

// The answer of `print`.
fn printed(alloc: Global, file: &Source1) -> Result<Answer, AllocError>
    ensures status { IfOk result (λ answer. answer.status ≡ Status.Done) }
    ensures output { IfOk result (λ answer. answer.output.items ≡ layout file.now) }
{
    let output = print(alloc, file).map_err(|_| AllocError)?;
    Ok(Answer {
        status: Status::Done,
        output,
    })
}

// The answer of a command that checks to a file that may not be built yet.
fn judged(alloc: Global, task: Task, file: Source1) -> Result<Answer, AllocError>
    ensures { IfOk result (λ answer. Judges (reader_of task) file answer.status answer.output.items) }
{
    if is_built(&file) {
        checked(alloc, task, file)
    } else {
        line(alloc, Status::Text, b"text later\n")
    }
}

// The answer of a command that checks.
fn checked(alloc: Global, task: Task, file: Source1) -> Result<Answer, AllocError>
    requires { built file ≡ true }
    ensures { IfOk result (λ answer. Judges (reader_of task) file answer.status answer.output.items) }
{
    match check(alloc, file) {
        Ok(vetted) => accepted(alloc, task, vetted.file()),
        Err(CheckEnd::Walk(refusal)) => walk_line(alloc, refusal),
        Err(CheckEnd::Rule(refusal)) => rule_line(alloc, refusal),
        Err(CheckEnd::Memory) => Err(AllocError),
    }
}

// The answer of a command that checks to a file that is accepted.
fn accepted(alloc: Global, task: Task, file: &Source1) -> Result<Answer, AllocError>
    requires { IsAccepted file.now }
    ensures output { IfOk result (λ answer. Accepts (reader_of task) file.now answer.status answer.output.items) }
    ensures status { IfOk result (λ answer. IsTrue (is_past_text answer.status)) }
{
    match task {
        Task::Say => line(alloc, Status::Done, b"accepted\n"),
        Task::Run(budget) => ran(alloc, file, budget),
    }
}

// ---- runs

// The answer of `run` to a file that is accepted.
fn ran(alloc: Global, file: &Source1, budget: u32) -> Result<Answer, AllocError>
    requires { IsAccepted file.now }
    ensures output { IfOk result (λ answer. Accepts (Reader.Run budget) file.now answer.status answer.output.items) }
    ensures status { IfOk result (λ answer. IsTrue (is_past_text answer.status)) }
{
    match run(alloc, file, budget)? {
        Course::Ended { end, steps } => reported(alloc, file, budget, end, steps),
        Course::Faulted => unreachable!(),
    }
}

// The answer to a run within the budget that has ended so, after this many steps.
fn reported(
    alloc: Global,
    file: &Source1,
    budget: u32,
    end: End,
    steps: u32,
) -> Result<Answer, AllocError>
    requires accepted { IsAccepted file.now }
    requires ends { RunEnds file.now budget end steps }
    ensures output { IfOk result (λ answer. Accepts (Reader.Run budget) file.now answer.status answer.output.items) }
    ensures status { IfOk result (λ answer. IsTrue (is_past_text answer.status)) }
{
    let ran = Ran {
        end,
        cost: steps,
        given_up: 0,
        order: vec![in alloc; 0; steps as usize]?,
    };
    let output = report(alloc, &[], &ran)?;
    Ok(Answer {
        status: status_of(end),
        output,
    })
}

// The status of a run that has ended so.
fn status_of(end: End) -> Status
    ensures status { result ≡ status_said end }
    ensures decided { IsTrue (is_decided result) }
    ensures past_text { IsTrue (is_past_text result) }
{
    match end {
        End::Done(_) => Status::Done,
        End::Spent(_) => Status::Spent,
        End::Big(_) => Status::Big,
    }
}
