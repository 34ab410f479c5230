//! This program runs `nf_app` over files and sinks in memory, and answers questions about what no command shows. It reads its input line
//! by line:
//!
//!     == NAME        begins the file NAME, which replaces an earlier one of that name
//!     ++ COUNT       appends COUNT bytes `#` to the file
//!     LINE           any other line belongs to the file
//!     ?? SUBJECT     answers questions of the last file: `numbers` or `ladders`, one a line; or `lines` or `disk`, the whole file
//!     !! out CALL    in the next run each write to `out` accepts one byte, and the write with number CALL fails
//!     !! err CALL    the same for `err`
//!     !! fetch CALL  in the next run the fetch with number CALL fails
//!     $$ WORD ..     runs the program on these words, which are separated by single spaces
//!
//! In a line of a file `\` and two hexadecimal digits give the byte of that number. A `\` at the end of a line drops its LF.
//!
//! For each run, the program prints the line, the bytes in `out`, the lines in `err` after `! `, and the status after `= `. If bytes
//! do not end with LF, `\` and LF follow. For each question it prints the name of the file, and the answers.
#![tactic(auto)]

mod disk;
mod faults;
mod files;
mod ladders;
mod line;
mod numbers;
mod running;
mod shown;
mod subjects;
mod text;

use faults::Faults;
use files::File;
use std::alloc::{AllocError, Global};
use std::io;

// Adds a line to the last file, or begins a new file.
fn take_file_line(alloc: Global, files: &mut Vec<File>, line: &str) -> Result<(), AllocError> {
    if let Some(name) = line.strip_prefix("== ") {
        let file = File::new(alloc, name)?;
        files.push(file)?;
        return Ok(());
    }
    match files.last_mut() {
        Some(file) => file.add_line(line),
        None => Ok(()),
    }
}

// Answers the questions of the last file.
fn answer(rt: &HostRuntime, files: &[File], subject: &str) -> io::Result<()> {
    match files.last() {
        Some(file) => subjects::tell(rt, subject, file),
        None => Ok(()),
    }
}

// Carries out a line, and returns the calls that fail in the next run.
fn take_line(
    rt: &HostRuntime,
    files: &mut Vec<File>,
    faults: Faults,
    line: &str,
) -> io::Result<Faults> {
    if let Some(fault) = line.strip_prefix("!! ") {
        return Ok(faults.with(fault));
    }
    if let Some(words) = line.strip_prefix("$$") {
        println!(rt; "{line}")?;
        running::tell(rt, files, faults, words)?;
        return Ok(Faults::none());
    }
    match line.strip_prefix("?? ") {
        Some(subject) => answer(rt, files, subject)?,
        None => take_file_line(rt.alloc(), files, line)?,
    }
    Ok(faults)
}

// Carries out all lines of the input.
fn take_lines(rt: &HostRuntime, files: &mut Vec<File>) -> io::Result<()> {
    let mut faults = Faults::none();
    for line in rt.lines(rt.alloc()) {
        let line = line?;
        faults = take_line(rt, files, faults, line.as_str())?;
    }
    Ok(())
}

fn main(rt: HostRuntime) -> io::Result<()> {
    let mut files = Vec::new(rt.alloc());
    take_lines(&rt, &mut files)
}
