// A run over the files, and its outcome.
ghost use Rattle.std.specs.Prelude.{◌<◌};

use crate::faults::Faults;
use crate::files::File;
use nf_app::{Status, run};
use nf_edge::{MemShelf, MemSink};
use std::alloc::{AllocError, Global};
use std::io;

// `ROOM` is the capacity of a sink in bytes. `MOST` is the greatest number of bytes of a write, if no write fails.
const ROOM: u32 = 100_000;

const MOST: u32 = 4096;

fn add_word(alloc: Global, words: &mut Vec<String>, word: &str) -> Result<(), AllocError> {
    let word = word.to_owned(alloc)?;
    words.push(word)?;
    Ok(())
}

fn add_words(alloc: Global, words: &mut Vec<String>, line: &str) -> Result<(), AllocError> {
    add_word(alloc, words, "nfot")?;
    if let Some(line) = line.strip_prefix(" ") {
        for word in line.split(' ') {
            add_word(alloc, words, word)?;
        }
    }
    Ok(())
}

// Returns the words of the command line, with the program's name first.
fn words_of(alloc: Global, line: &str) -> Result<Vec<String>, AllocError> {
    let mut words = Vec::new(alloc);
    add_words(alloc, &mut words, line)?;
    Ok(words)
}

// Returns whether one of the words is this name.
fn is_named(words: &[String], name: &str) -> bool {
    words.iter().any(|word| word.as_str() == name)
}

// Puts the files that the words name on a shelf.
fn fill(
    alloc: Global,
    shelf: &mut MemShelf,
    files: &[File],
    words: &[String],
) -> Result<(), AllocError> {
    for file in files {
        let name = file.name.as_str();
        if is_named(words, name) {
            shelf.put(alloc, name, &file.bytes)?;
        }
    }
    Ok(())
}

// Returns the greatest number of bytes of a write: one if a write fails, so that each byte is a write.
fn most_of(failing: u32) -> u32
    ensures { 0 < result }
{
    if failing == 0 { MOST } else { 1 }
}

// Returns a sink whose write with this number fails; 0 means that none fails.
fn sink(alloc: Global, failing: u32) -> Result<MemSink, AllocError> {
    let mut sink = MemSink::new(alloc, ROOM, most_of(failing))?;
    sink.fail(failing)?;
    Ok(sink)
}

// Prints bytes as text, each line after `mark`. Prints `\` if no LF ends them.
fn tell_text<R: Print>(rt: &R, bytes: &[u8], mark: &str) -> io::Result<()> {
    let text = std::str::from_utf8(bytes).unwrap_or("?");
    for line in text.lines() {
        print!(rt; "{mark}{line}")?;
        println!(rt; "")?;
    }
    if !text.is_empty() && !text.ends_with("\n") {
        println!(rt; "\\")?;
    }
    Ok(())
}

// Prints the outcome of a run.
fn tell_ended<R: Print>(rt: &R, status: Status, out: &MemSink, err: &MemSink) -> io::Result<()> {
    tell_text(rt, out.bytes(), "")?;
    tell_text(rt, err.bytes(), "! ")?;
    println!(rt; "= {}", status.number())
}

// Runs the program on these words, over the files of a shelf.
fn run_over<R: Print + AllocGlobal>(
    rt: &R,
    shelf: &mut MemShelf,
    faults: Faults,
    words: &[String],
) -> io::Result<()> {
    let mut out = sink(rt.alloc(), faults.out)?;
    let mut err = sink(rt.alloc(), faults.err)?;
    let status = run(rt.alloc(), words, shelf, &mut out, &mut err);
    tell_ended(rt, status, &out, &err)
}

// Runs the program on these words, over the files that they name.
fn run_words<R: Print + AllocGlobal>(
    rt: &R,
    files: &[File],
    faults: Faults,
    words: &[String],
) -> io::Result<()> {
    let mut shelf = MemShelf::new(rt.alloc());
    fill(rt.alloc(), &mut shelf, files, words)?;
    shelf.fail(faults.fetch)?;
    run_over(rt, &mut shelf, faults, words)
}

/// Runs the program on the words of a line, and prints the outcome.
pub fn tell<R: Print + AllocGlobal>(
    rt: &R,
    files: &[File],
    faults: Faults,
    line: &str,
) -> io::Result<()> {
    let words = words_of(rt.alloc(), line)?;
    run_words(rt, files, faults, &words)
}
