// The top call.
ghost use Rattle.std.specs.Prelude.{◌≡◌, ◌≢◌, ◌<◌, ◌⊎◌, length, List, ℕ, map, string_bytes, IsTrue, None, Some, IfSome, IfOk, IsErrOf};
ghost use Rattle.std.specs.Io.KnownBytes.{Keeps};
ghost use Rattle.tht_logic.specs.CommandLine.{asked, Answers, AsksRunTo, FileAnswers, HasAnswered, HasInput, IsRefused, IsOutOfOrder, RunHasEnded, TakesNone, ends_a_run, input_limit};
ghost use Rattle.tht_ports.specs.Causes.{Rose};
ghost use Rattle.tht_front.specs.Decided.{is_cut_short, is_run};

use crate::answer::{answer_to, line};
use crate::decided::Answer;
use crate::words::read_words;
use std::alloc::Global;
use tht_ports::{ReadEnd, Sink, Source, WriteEnd, read_all, write_all};
use tht_tree::command::{Command, Reader};
use tht_tree::run::End;
use tht_tree::status::Status;

// The longest input that is read, in bytes.
const INPUT_LIMIT: usize = 1_048_576;

/// Carries out the words over the source and the sink on one worker, and says how it ended. It always returns.
///
/// The output is made whole and then written; where a push fails the status is `WriteFault`, and what was written is a
/// front of the output. On `Memory` and `ReadFault` nothing was written.
pub fn tht_alone<S: Source, T: Sink>(
    alloc: Global,
    words: &[String],
    source: &mut S,
    sink: &mut T,
) -> Status
    // The status has its cause in the words and the input, and what was written is the output that goes with it.
    ensures answered { (input : List ℕ) → HasInput (asked (map string_bytes words.now)) (S.left source.old) input →
        HasAnswered (asked (map string_bytes words.now)) input (T.written sink.old) (T.written sink.new) result }

    // The headline: each run of an accepted source is safe, and the report is of such a run.
    ensures accepted_runs_are_safe { (budget : ℕ) → asked (map string_bytes words.now) ≡ Some (Command.Read (Reader.Run budget)) → IsTrue (ends_a_run result) →
        IfSome (S.left source.old) (λ input. RunHasEnded input budget (T.written sink.old) (T.written sink.new) result) }

    // Each status comes only by its cause.
    ensures words { result ≡ Status.Words → asked (map string_bytes words.now) ≡ None }
    ensures words_first { asked (map string_bytes words.now) ≡ None → result ≢ Status.ReadFault }
    ensures too_long { result ≡ Status.TooLong → IfSome (S.left source.old) (λ input. input_limit < length input) }
    ensures text { (reader : Reader) → asked (map string_bytes words.now) ≡ Some (Command.Read reader) → result ≡ Status.Text →
        IfSome (S.left source.old) (λ input. TakesNone input reader) }
    ensures names { result ≡ Status.NamesOrSorts → IfSome (S.left source.old) IsOutOfOrder }
    ensures rule { result ≡ Status.Rule → IfSome (S.left source.old) IsRefused }
    ensures spent { result ≡ Status.Spent → AsksRunTo End.Spent (asked (map string_bytes words.now)) (S.left source.old) }
    ensures big { result ≡ Status.Big → AsksRunTo End.Big (asked (map string_bytes words.now)) (S.left source.old) }
    ensures nothing { (result ≡ Status.Memory) ⊎ (result ≡ Status.ReadFault) → Keeps (T.written sink.old) (T.written sink.new) }

    // A fault comes only from the source and the sink.
    ensures read_fault { result ≡ Status.ReadFault → Rose (S.faults source.old) (S.faults source.new) }
    ensures read_as_before { result ≢ Status.ReadFault → S.faults source.new ≡ S.faults source.old }
    ensures write_fault { result ≡ Status.WriteFault → Rose (T.faults sink.old) (T.faults sink.new) }
    ensures write_as_before { result ≢ Status.WriteFault → T.faults sink.new ≡ T.faults sink.old }
{
    match answer_from(alloc, words, source) {
        Ok(answer) => match write_all(sink, &answer.output) {
            Ok(()) => answer.status,
            Err(WriteEnd::Fault { .. }) => Status::WriteFault,
        },
        Err(NoAnswer::ReadFault) => Status::ReadFault,
        Err(NoAnswer::Memory) => Status::Memory,
    }
}

/// Why there is no answer.
#[derive(Clone, Copy, Debug, PartialEq, Eq)]
pub enum NoAnswer {
    ReadFault,
    Memory,
}

/// The answer to the words, for which the source is read where they ask for it.
fn answer_from<S: Source>(
    alloc: Global,
    words: &[String],
    source: &mut S,
) -> Result<Answer, NoAnswer>
    ensures answer { IfOk result (λ answer. (input : List ℕ) → HasInput (asked (map string_bytes words.now)) (S.left source.old) input →
        Answers (asked (map string_bytes words.now)) input answer.status answer.output.items) }
    ensures words { IfOk result (λ answer. answer.status ≡ Status.Words → asked (map string_bytes words.now) ≡ None) }
    ensures words_first { asked (map string_bytes words.now) ≡ None → ¬ IsErrOf result NoAnswer.ReadFault }
    ensures too_long { IfOk result (λ answer. answer.status ≡ Status.TooLong →
        IfSome (S.left source.old) (λ input. input_limit < length input)) }
    ensures text { IfOk result (λ answer. (reader : Reader) → asked (map string_bytes words.now) ≡ Some (Command.Read reader) →
        answer.status ≡ Status.Text → IfSome (S.left source.old) (λ input. TakesNone input reader)) }
    ensures names { IfOk result (λ answer. answer.status ≡ Status.NamesOrSorts → IfSome (S.left source.old) IsOutOfOrder) }
    ensures rule { IfOk result (λ answer. answer.status ≡ Status.Rule → IfSome (S.left source.old) IsRefused) }
    ensures spent { IfOk result (λ answer. answer.status ≡ Status.Spent → AsksRunTo End.Spent (asked (map string_bytes words.now)) (S.left source.old)) }
    ensures big { IfOk result (λ answer. answer.status ≡ Status.Big → AsksRunTo End.Big (asked (map string_bytes words.now)) (S.left source.old)) }
    ensures fault { IsErrOf result NoAnswer.ReadFault → Rose (S.faults source.old) (S.faults source.new) }
    ensures as_before { ¬ IsErrOf result NoAnswer.ReadFault → S.faults source.new ≡ S.faults source.old }
{
    match read_words(words) {
        None => line(alloc, Status::Words, b"words\n").map_err(|_| NoAnswer::Memory),
        Some(Command::Read(reader)) => answer_from_file(alloc, reader, source),
    }
}

/// The answer of a command that reads a file.
fn answer_from_file<S: Source>(
    alloc: Global,
    reader: Reader,
    source: &mut S,
) -> Result<Answer, NoAnswer>
    ensures answer { IfOk result (λ answer. IfSome (S.left source.old) (λ input.
        FileAnswers reader input answer.status answer.output.items)) }
    ensures run { IfOk result (λ answer. IsTrue (is_cut_short answer.status) → IsTrue (is_run reader)) }
    ensures no_words { IfOk result (λ answer. answer.status ≢ Status.Words) }
    ensures too_long { IfOk result (λ answer. answer.status ≡ Status.TooLong →
        IfSome (S.left source.old) (λ input. input_limit < length input)) }
    ensures fault { IsErrOf result NoAnswer.ReadFault → Rose (S.faults source.old) (S.faults source.new) }
    ensures as_before { ¬ IsErrOf result NoAnswer.ReadFault → S.faults source.new ≡ S.faults source.old }
{
    let outcome = match read_all(alloc, source, INPUT_LIMIT) {
        Ok(input) => answer_to(alloc, reader, &input),
        Err(ReadEnd::TooLong) => line(alloc, Status::TooLong, b"too long\n"),
        Err(ReadEnd::Fault) => return Err(NoAnswer::ReadFault),
        Err(ReadEnd::Memory) => return Err(NoAnswer::Memory),
    };
    outcome.map_err(|_| NoAnswer::Memory)
}
