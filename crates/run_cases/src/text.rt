// A text as lines.
ghost use Rattle.std.specs.Prelude.{◌≤◌, length};
ghost use Rattle.nf_text_def.specs.Faults.{longest_text};

use crate::shown::as_text;
use nf_net::LONGEST_FILE;
use nf_text::{Line, Span, TextFault, lines};
use std::io;

// Returns a word of a text, or `?` if its span exceeds the text.
fn word_of(text: &[u8], place: Span) -> &str {
    if u64::from(place.start) + u64::from(place.len) > text.len() as u64 {
        return "?";
    }
    as_text(place.of(text))
}

// Prints the words of a line, each after a `|`.
fn tell_words(rt: &HostRuntime, text: &[u8], words: &[Span]) -> io::Result<()> {
    for word in words {
        print!(rt; "|{}", word_of(text, *word))?;
    }
    println!(rt; "")
}

// Prints the lines. Each is printed as a sign for plain or not, its number, and its words.
fn tell_lines(rt: &HostRuntime, text: &[u8], lines: &[Line]) -> io::Result<()> {
    for line in lines {
        let sign = if line.plain { "+" } else { "-" };
        print!(rt; "{sign} {}", line.number)?;
        tell_words(rt, text, &line.words)?;
    }
    Ok(())
}

/// Prints the lines of a text, or why it has none.
pub fn tell(rt: &HostRuntime, text: &[u8]) -> io::Result<()> {
    if text.len() > LONGEST_FILE as usize {
        return println!(rt; "too long");
    }
    match lines(rt.alloc(), text) {
        Ok(read) => tell_lines(rt, text, &read),
        Err(TextFault::NotAscii { line }) => println!(rt; "line {line} isn't ASCII"),
        Err(TextFault::LongLine { line }) => println!(rt; "line {line} is too long"),
        Err(TextFault::Memory) => println!(rt; "memory is wanting"),
    }
}
