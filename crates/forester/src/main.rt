//! Forester: verifies and runs C programs.
//!
//! `fore_call` does all of it, and what is proved of the program is the contract of its top call. `main` makes the
//! real shelf and the real sinks, and calls it.
#![tactic(auto)]

use fore_answer::status::{NO_MEMORY, USAGE};
use fore_call::forester;
use fore_outside::file_shelf::FileShelf;
use fore_outside::stream_sink::StreamSink;
use par_kit::gate::NoGate;
use std::alloc::{AllocGlobal, Global};
use std::env;
use std::env::Env;
use std::io::ErrorKind;
use std::process::ExitCode;

fn main(rt: HostRuntime) -> ExitCode {
    let alloc = rt.alloc();
    let words = match words_of(&rt, alloc) {
        Ok(words) => words,
        Err(status) => return ExitCode::from(status),
    };
    let mut shelf = FileShelf::new(alloc, &rt);
    let mut out = StreamSink::new(rt.stdout());
    let mut notes = StreamSink::new(rt.stderr());
    let status = forester(
        &rt,
        alloc,
        words.as_slice(),
        &mut shelf,
        &mut out,
        &mut notes,
        &NoGate,
    );
    ExitCode::from(status)
}

/// The words after the program's name, or the status of a program that cannot read them: `USAGE` where one is not
/// UTF-8, `NO_MEMORY` for want of memory.
fn words_of<R: Env + AllocGlobal>(rt: &R, alloc: Global) -> Result<Vec<String>, u8> {
    let args = match env::args(rt) {
        Ok(args) => args,
        Err(error) => return Err(status_of(error.kind())),
    };
    let mut words = Vec::new(alloc);
    for word in args.skip(1) {
        if words.push(word).is_err() {
            return Err(NO_MEMORY);
        }
    }
    Ok(words)
}

fn status_of(kind: ErrorKind) -> u8 {
    match kind {
        ErrorKind::OutOfMemory => NO_MEMORY,
        _ => USAGE,
    }
}
