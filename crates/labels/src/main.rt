//! The program `labels`: gives its arguments, files and standard streams to `command::program`.
#![tactic(auto)]

use command::{StdFiles, arguments_of, program};
use device::{Buffered, StdSink, StdSource};
use std::process::ExitCode;

fn main(rt: HostRuntime) -> ExitCode {
    // The buffer comes first: after a call it would be cleared twice.
    let mut output = Buffered::new(StdSink::new(rt.stdout()));
    let mut errors = StdSink::new(rt.stderr());
    let mut input = StdSource::new(rt.stdin());
    ExitCode::from(program(
        rt.alloc(),
        arguments_of(&rt),
        &mut StdFiles::new(&rt),
        &mut input,
        &mut output,
        &mut errors,
    ))
}
