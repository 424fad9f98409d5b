// The lines that say what is refused.
ghost use Rattle.std.specs.Prelude.{◌≡◌, IfOk, IsTrue};
ghost use Rattle.tht_tree.specs.Lines.{walk_word as word_of, walk_code_text, rule_code_text, refusal_line as line_of, walk_line as line_of_walk, rule_line as line_of_rule};
ghost use Rattle.tht_front.specs.Decided.{is_decided};

use crate::decided::Answer;
use std::alloc::{AllocError, Global};
use tht_tree::plain::Spot;
use tht_tree::rule::{RuleCode, RuleRefusal};
use tht_tree::status::Status;
use tht_tree::walk::{WalkCode, WalkRefusal};

/// The answer to a file whose names or sorts are not in order.
pub fn walk_line(alloc: Global, refusal: WalkRefusal) -> Result<Answer, AllocError>
    ensures status { IfOk result (λ answer. answer.status ≡ Status.NamesOrSorts) }
    ensures output { IfOk result (λ answer. answer.output.items ≡ line_of_walk refusal) }
{
    let (word, code) = (walk_word(refusal.code), walk_code(refusal.code));
    refusal_line(alloc, Status::NamesOrSorts, word, refusal.spot, code)
}

/// The answer to a file that a rule refuses.
pub fn rule_line(alloc: Global, refusal: RuleRefusal) -> Result<Answer, AllocError>
    ensures status { IfOk result (λ answer. answer.status ≡ Status.Rule) }
    ensures output { IfOk result (λ answer. answer.output.items ≡ line_of_rule refusal) }
{
    refusal_line(
        alloc,
        Status::Rule,
        "rule",
        refusal.spot,
        rule_code(refusal.code),
    )
}

// A word, a place in the source and a code.
fn refusal_line(
    alloc: Global,
    status: Status,
    word: &str,
    spot: Spot,
    code: &str,
) -> Result<Answer, AllocError>
    requires { IsTrue (is_decided status) }
    ensures status { IfOk result (λ answer. answer.status ≡ status) }
    ensures output { IfOk result (λ answer. answer.output.items ≡ line_of word.now spot code.now) }
{
    let mut text = String::new(alloc);
    let (line, column) = (spot.line, spot.column);
    writeln!(text, "{word} {line}:{column} {code}")?;
    Ok(Answer {
        status,
        output: text.into_bytes(),
    })
}

fn walk_word(code: WalkCode) -> &'static str
    ensures { result.now ≡ word_of code }
{
    match code {
        WalkCode::N1 => "names",
        WalkCode::N2 => "names",
        WalkCode::N3 => "names",
        WalkCode::N4 => "names",
        WalkCode::N5 => "names",
        WalkCode::N6 => "names",
        WalkCode::N7 => "names",
        _ => "sorts",
    }
}

fn walk_code(code: WalkCode) -> &'static str
    ensures { result.now ≡ walk_code_text code }
{
    match code {
        WalkCode::N1 => "N1",
        WalkCode::N2 => "N2",
        WalkCode::N3 => "N3",
        WalkCode::N4 => "N4",
        WalkCode::N5 => "N5",
        WalkCode::N6 => "N6",
        WalkCode::N7 => "N7",
        WalkCode::S1 => "S1",
        WalkCode::S2 => "S2",
        WalkCode::S3 => "S3",
        WalkCode::S4 => "S4",
        WalkCode::S5 => "S5",
    }
}

fn rule_code(code: RuleCode) -> &'static str
    ensures { result.now ≡ rule_code_text code }
{
    match code {
        RuleCode::R1 => "R1",
        RuleCode::R2 => "R2",
        RuleCode::R3 => "R3",
        RuleCode::R4 => "R4",
        RuleCode::R5 => "R5",
        RuleCode::R6 => "R6",
        RuleCode::R7 => "R7",
        RuleCode::R8 => "R8",
        RuleCode::R9 => "R9",
        RuleCode::R10 => "R10",
        RuleCode::R11 => "R11",
        RuleCode::R12 => "R12",
        RuleCode::R13 => "R13",
    }
}
