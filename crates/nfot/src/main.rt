//! This program passes the words of its command line, real files, standard output and standard error to `nf_app::run`. The exit status is
//! the status that `run` returns.
#![tactic(auto)]

use nf_app::{Status, run};
use nf_edge::{RealShelf, StdSink};
use std::alloc::AllocGlobal;
use std::process::ExitCode;
use std::rt::Env;
use std::{env, io};

/// The exit status if a word of the command line is not UTF-8 text.
const NOT_TEXT: u8 = 17;

// Returns the words of the command line, with the program's name first.
fn words<R: Env + AllocGlobal>(rt: &R) -> io::Result<Vec<String>> {
    let words = env::args(rt)?.collect(rt.alloc())?;
    Ok(words)
}

// Returns the exit status if the words cannot be read.
fn status_without_words(error: &io::Error) -> u8 {
    match error.kind() {
        io::ErrorKind::OutOfMemory => Status::Memory.number(),
        _ => NOT_TEXT,
    }
}

fn main(rt: HostRuntime) -> ExitCode {
    let words = match words(&rt) {
        Ok(words) => words,
        Err(error) => return ExitCode::from(status_without_words(&error)),
    };
    let mut shelf = RealShelf::new(&rt, rt.alloc());
    let mut out = StdSink::new(rt.stdout());
    let mut err = StdSink::new(rt.stderr());
    let status = run(rt.alloc(), &words, &mut shelf, &mut out, &mut err);
    ExitCode::from(status.number())
}
