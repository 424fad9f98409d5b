// The worked cases of the top call, over a source and a sink in memory.
mod assertions;
mod blocks;
mod branches;
mod calls;
mod cases;
mod checks;
mod gives;
mod later;
mod limits;
mod names;
mod procs;
mod recursion;
mod results;
mod rules;
mod steps;

use std::alloc::{AllocError, Global};
use std::test::Fail;
use tht_front::tht_alone;
use tht_ports::{MemSink, MemSource};
use tht_tree::status::Status;

const FIRST: &[u8] = b"tht 1
main r : nat { emp } {
  x <- alloc (3);
  a : nat <- read x at 1 as h by refl;
  write x (a + 4) at 1 by refl;
  free x at 1 by refl;
  ret a by emp
}
";

const BIG: &[u8] = b"tht 1
main r : unit { emp } {
  x <- alloc (0);
  write x (18446744073709551615 + 1) at 1 by refl;
  free x at 1 by refl;
  ret () by emp
}
";

const CELL_LEFT: &[u8] = b"tht 1
main r : nat { emp } {
  x <- alloc (3);
  a : nat <- read x at 1 as h by refl;
  write x (a + 4) at 1 by refl;
  ret a by emp
}
";

fn words_of(alloc: Global, words: &[&str]) -> Result<Vec<String>, AllocError> {
    let mut owned = Vec::new(alloc);
    for word in words {
        owned.push(word.to_string(alloc)?)?;
    }
    Ok(owned)
}

fn no_memory<E: Drop>(_: E) -> AllocError {
    AllocError
}

#[test]
fn each_source_has_its_status_and_output(rt: HostRuntime) -> Result<(), Fail> {
    let alloc = rt.alloc();
    let words = words_of(alloc, &["run", "--workers", "1"])?;
    let cases: [(&[u8], Status, &[u8]); 13] = [
        (
            FIRST,
            Status::Done,
            b"end done\nresult 3\nevents 4\ncost 4\naborts 0\norder\n0*4\n",
        ),
        (
            BIG,
            Status::Big,
            b"end big 0\nevents 1\ncost 1\naborts 0\norder\n0\n",
        ),
        (CELL_LEFT, Status::Rule, b"rule 6:3 R3\n"),
        (
            b"tht 1\nmain r : nat { emp } { ret 3 by emp }\n",
            Status::Done,
            b"end done\nresult 3\nevents 0\ncost 0\naborts 0\norder\n",
        ),
        (
            b"tht 1\nmain r : nat { [r = 7] } { ret 7 by [calc] }\n",
            Status::Done,
            b"end done\nresult 7\nevents 0\ncost 0\naborts 0\norder\n",
        ),
        (
            b"tht 1 main r : nat { emp } { ret x by emp }",
            Status::NamesOrSorts,
            b"names 1:30 N1\n",
        ),
        (b"", Status::Text, b"text 1:1 unexpected\n"),
        (
            b"tht 1\ninvariant\n",
            Status::Text,
            b"text 3:1 unexpected\n",
        ),
        (b"tht 1\ninvariant", Status::Text, b"text 2:10 unexpected\n"),
        (
            b"tht 1\nmain r : nat { emp } { ret 18446744073709551616 by emp }\n",
            Status::Text,
            b"text 2:28 bignumber\n",
        ),
        (b"tht 2\n%", Status::Text, b"text 2:1 byte\n"),
        (b"tht 2\n", Status::Text, b"text 1:5 version\n"),
        (
            b"tht 1 # a comment\nmain r : unit { emp } { ret () by emp }",
            Status::Done,
            b"end done\nresult ()\nevents 0\ncost 0\naborts 0\norder\n",
        ),
    ];
    for (text, status, output) in cases {
        let mut source = MemSource::new(text.to_vec(alloc)?, Vec::new(alloc));
        let mut sink = MemSink::new(alloc, 100, Vec::new(alloc)).map_err(no_memory)?;
        assert_eq!(rt; tht_alone(alloc, &words, &mut source, &mut sink), status);
        assert_eq!(rt; sink.bytes(), output);
    }
    Ok(())
}

#[test]
fn a_file_is_printed_in_its_layout(rt: HostRuntime) -> Result<(), Fail> {
    let alloc = rt.alloc();
    let words = words_of(alloc, &["print"])?;
    let cases: [(&[u8], Status, &[u8]); 3] = [
        (
            b"tht 1 main r:nat{[r=7]}{ret 7 by[calc]}",
            Status::Done,
            b"tht 1\nmain r : nat { [ r = 7 ] } { ret 7 by [ calc ] }\n",
        ),
        (
            b"tht 1\nmain r : nat { [r = x] } { ret ((y)) by emp }",
            Status::Done,
            b"tht 1\nmain r : nat { [ r = x ] } { ret y by emp }\n",
        ),
        (b"tht 1\nmain r", Status::Text, b"text 2:7 unexpected\n"),
    ];
    for (text, status, output) in cases {
        let mut source = MemSource::new(text.to_vec(alloc)?, Vec::new(alloc));
        let mut sink = MemSink::new(alloc, 100, Vec::new(alloc)).map_err(no_memory)?;
        assert_eq!(rt; tht_alone(alloc, &words, &mut source, &mut sink), status);
        assert_eq!(rt; sink.bytes(), output);
    }
    Ok(())
}

#[test]
fn spaces_are_too_long(rt: HostRuntime) -> Result<(), Fail> {
    let alloc = rt.alloc();
    let words = words_of(alloc, &["run", "--workers", "1"])?;
    let mut source = MemSource::new(vec![in alloc; b' '; 1_048_577]?, Vec::new(alloc));
    let mut sink = MemSink::new(alloc, 100, Vec::new(alloc)).map_err(no_memory)?;
    assert_eq!(rt;
        tht_alone(alloc, &words, &mut source, &mut sink),
        Status::TooLong
    );
    assert_eq!(rt; sink.bytes(), b"too long\n".as_slice());
    Ok(())
}

#[test]
fn a_failed_pull_is_a_read_fault(rt: HostRuntime) -> Result<(), Fail> {
    let alloc = rt.alloc();
    let words = words_of(alloc, &["run", "--workers", "1"])?;
    for pull in 1..=2 {
        let mut source = MemSource::new(FIRST.to_vec(alloc)?, [pull].to_vec(alloc)?);
        let mut sink = MemSink::new(alloc, 100, Vec::new(alloc)).map_err(no_memory)?;
        assert_eq!(rt;
            tht_alone(alloc, &words, &mut source, &mut sink),
            Status::ReadFault
        );
        assert_eq!(rt; sink.bytes(), b"".as_slice());
    }
    Ok(())
}

#[test]
fn a_failed_push_is_a_write_fault(rt: HostRuntime) -> Result<(), Fail> {
    let alloc = rt.alloc();
    let words = words_of(alloc, &["run", "--workers", "1"])?;
    let mut source = MemSource::new(FIRST.to_vec(alloc)?, Vec::new(alloc));
    let mut sink = MemSink::new(alloc, 100, [1].to_vec(alloc)?).map_err(no_memory)?;
    assert_eq!(rt;
        tht_alone(alloc, &words, &mut source, &mut sink),
        Status::WriteFault
    );
    assert_eq!(rt; sink.bytes(), b"".as_slice());
    let mut source = MemSource::drip(FIRST.to_vec(alloc)?, Vec::new(alloc), 3);
    let mut sink = MemSink::drip(alloc, 100, [5].to_vec(alloc)?, 1).map_err(no_memory)?;
    assert_eq!(rt;
        tht_alone(alloc, &words, &mut source, &mut sink),
        Status::WriteFault
    );
    assert_eq!(rt; sink.bytes(), b"end ".as_slice());
    Ok(())
}

// Terms with their sorts and their values. Where a part does not fit the machine there is no value. 2^32 is 4294967296, and
// (2^32 - 1) * (2^32 + 1) is 2^64 - 1.
const TERMS: &[(&str, &str, Option<&str>)] = &[
    ("nat", "0 - 5", Some("0")),
    ("nat", "7 - 5", Some("2")),
    ("nat", "2 + 3 * 4", Some("14")),
    (
        "nat",
        "4294967295 * 4294967297",
        Some("18446744073709551615"),
    ),
    ("nat", "4294967296 * 4294967296", None),
    ("nat", "18446744073709551615 + 1", None),
    ("nat", "(18446744073709551615 + 1) - 1", None),
    ("bool", "3 < 3", Some("false")),
    ("bool", "2 < 3", Some("true")),
    ("bool", "3 <= 3", Some("true")),
    ("bool", "4 <= 3", Some("false")),
    ("bool", "0 - 5 = 0", Some("true")),
    ("bool", "true = false", Some("false")),
    ("bool", "() = ()", Some("true")),
    ("bool", "null.3 = null", Some("true")),
    ("bool", "not true", Some("false")),
    ("bool", "true and false", Some("false")),
    ("bool", "false or true", Some("true")),
    ("bool", "false imp false", Some("true")),
    ("bool", "true imp false", Some("false")),
    ("bool", "false and 18446744073709551615 + 1 = 0", None),
    ("bool", "true or 18446744073709551615 + 1 = 0", None),
    ("bool", "false imp 18446744073709551615 + 1 = 0", None),
    ("loc", "null.7", Some("null")),
];

fn returning(alloc: Global, sort: &str, term: &str) -> Result<Vec<u8>, AllocError> {
    let mut text = String::new(alloc);
    text.push_str("tht 1 main r : ")?;
    text.push_str(sort)?;
    text.push_str(" { emp } { ret ")?;
    text.push_str(term)?;
    text.push_str(" by emp }")?;
    Ok(text.into_bytes())
}

fn report_of(alloc: Global, value: Option<&str>) -> Result<Vec<u8>, AllocError> {
    let mut text = String::new(alloc);
    match value {
        Some(value) => {
            text.push_str("end done\nresult ")?;
            text.push_str(value)?;
        }
        None => text.push_str("end big 0")?,
    }
    text.push_str("\nevents 0\ncost 0\naborts 0\norder\n")?;
    Ok(text.into_bytes())
}

// Whether a run of the source writes this output.
fn writes(alloc: Global, source: Vec<u8>, output: &[u8]) -> Result<bool, AllocError> {
    let words = words_of(alloc, &["run", "--workers", "1"])?;
    let mut source = MemSource::new(source, Vec::new(alloc));
    let mut sink = MemSink::new(alloc, 100, Vec::new(alloc)).map_err(no_memory)?;
    let _ = tht_alone(alloc, &words, &mut source, &mut sink);
    Ok(sink.bytes() == output)
}

// Whether the words, over this source, have this status and write this output.
fn answers_so(
    alloc: Global,
    words: &[&str],
    source: &str,
    status: Status,
    output: &str,
) -> Result<bool, AllocError> {
    let words = words_of(alloc, words)?;
    let mut source = MemSource::new(source.as_bytes().to_vec(alloc)?, Vec::new(alloc));
    let mut sink = MemSink::new(alloc, 100, Vec::new(alloc)).map_err(no_memory)?;
    let ended = tht_alone(alloc, &words, &mut source, &mut sink);
    Ok(ended == status && sink.bytes() == output.as_bytes())
}

// Whether a run of the source has this status and writes this output.
fn runs_so(alloc: Global, source: &str, status: Status, output: &str) -> Result<bool, AllocError> {
    answers_so(alloc, &["run", "--workers", "1"], source, status, output)
}

// The report of a run of main alone, in which each event costs one step: how it ended, and the events.
fn report_with(alloc: Global, end: &str, events: &str) -> Result<String, AllocError> {
    let mut text = String::new(alloc);
    text.push_str("end ")?;
    text.push_str(end)?;
    text.push_str("\nevents ")?;
    text.push_str(events)?;
    text.push_str("\ncost ")?;
    text.push_str(events)?;
    text.push_str("\naborts 0\norder\n")?;
    push_order(&mut text, events)?;
    Ok(text)
}

// The order of so many entries of branch 0.
fn push_order(text: &mut String, events: &str) -> Result<(), AllocError> {
    if events == "0" {
        return Ok(());
    }
    text.push_str("0")?;
    if events != "1" {
        text.push_str("*")?;
        text.push_str(events)?;
    }
    text.push_str("\n")
}

// Whether a run of the source has this status and ends so after so many events.
fn ends_so(
    alloc: Global,
    source: &str,
    status: Status,
    end: &str,
    events: &str,
) -> Result<bool, AllocError> {
    let report = report_with(alloc, end, events)?;
    runs_so(alloc, source, status, report.as_str())
}

// These texts, one after another.
fn joined(alloc: Global, texts: &[&str]) -> Result<String, AllocError> {
    let mut source = String::new(alloc);
    for text in texts {
        source.push_str(*text)?;
    }
    Ok(source)
}

fn has_value(alloc: Global, row: (&str, &str, Option<&str>)) -> Result<bool, AllocError> {
    let (sort, term, value) = row;
    let source = returning(alloc, sort, term)?;
    let output = report_of(alloc, value)?;
    writes(alloc, source, &output)
}

#[test]
fn terms_have_their_values(rt: HostRuntime) -> Result<(), Fail> {
    let alloc = rt.alloc();
    for row in TERMS {
        assert_eq!(rt; has_value(alloc, *row)?, true);
    }
    Ok(())
}

const OFFSET: &[u8] = b"tht 1
main r : loc { emp } {
  x <- alloc (true);
  b : bool <- read x at 1 as h by refl;
  free x at 1 by refl;
  ret x.3.4 by emp
}
";

#[test]
fn an_offset_moves_the_index(rt: HostRuntime) -> Result<(), Fail> {
    let alloc = rt.alloc();
    let output = b"end done\nresult @0.7\nevents 3\ncost 3\naborts 0\norder\n0*3\n";
    assert_eq!(rt; writes(alloc, OFFSET.to_vec(alloc)?, output)?, true);
    Ok(())
}

#[test]
fn a_sequence_is_of_the_logic_alone(rt: HostRuntime) -> Result<(), Fail> {
    let alloc = rt.alloc();
    let source = returning(alloc, "nat", "len (1 :: nil)")?;
    assert_eq!(rt; writes(alloc, source, b"sorts 1:30 S2\n")?, true);
    Ok(())
}
