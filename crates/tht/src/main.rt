//! Checks a source file from standard input, runs it and writes the report to standard output.
#![tactic(auto)]

use std::alloc::Global;
use std::env;
use std::process::ExitCode;
use std::rt::Env;
use tht_front::tht_alone;
use tht_ports::{StdinSource, StdoutSink};

// The exit status where the arguments cannot be had. It is no status of a run.
const NO_ARGUMENTS: u8 = 64;

// The arguments after the program's name.
fn words<R: Env + Alloc<A = Global>>(rt: &R) -> Option<Vec<String>> {
    let mut arguments = env::args(rt).ok()?;
    let _ = arguments.next();
    arguments.collect(rt.alloc()).ok()
}

fn main(rt: HostRuntime) -> ExitCode {
    let Some(words) = words(&rt) else {
        return ExitCode::from(NO_ARGUMENTS);
    };
    let mut source = StdinSource::new(rt.stdin());
    let mut sink = StdoutSink::new(rt.stdout());
    let status = tht_alone(rt.alloc(), &words, &mut source, &mut sink);
    ExitCode::from(status.number())
}
