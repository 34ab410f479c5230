// Questions about what no command shows: numbers as words, lines of a text, ladders, and a real file.
use crate::files::File;
use crate::shown::as_text;
use crate::{disk, ladders, numbers, text};
use std::io;

// Answers one line of a subject.
fn tell_line(rt: &HostRuntime, subject: &str, line: &str) -> io::Result<()> {
    match subject {
        "numbers" => numbers::tell(rt, line),
        "ladders" => ladders::tell(rt, line),
        _ => println!(rt; "no subject"),
    }
}

// Answers each line of a text.
fn tell_each(rt: &HostRuntime, subject: &str, bytes: &[u8]) -> io::Result<()> {
    for line in as_text(bytes).lines() {
        tell_line(rt, subject, line)?;
    }
    Ok(())
}

/// Prints the name of a file, and answers its questions: of the subjects `lines` and `disk` its whole text, of any other each line.
pub fn tell(rt: &HostRuntime, subject: &str, file: &File) -> io::Result<()> {
    println!(rt; "== {}", file.name)?;
    match subject {
        "lines" => text::tell(rt, &file.bytes),
        "disk" => disk::tell(rt, &file.bytes),
        _ => tell_each(rt, subject, &file.bytes),
    }
}
