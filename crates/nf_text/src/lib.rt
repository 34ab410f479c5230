//! This crate splits a text file into lines and words. `lines` reads all lines at once; a `Cursor` reads them one by one, and makes no
//! list of lines. The readers of all file formats depend on it.
#![tactic(auto)]

ghost use Rattle.std.specs.Prelude.{◌≡◌, ◌+◌, ◌≤◌, length, map, All, None, IfOk, IfErr, OnOk};
ghost use Rattle.nf_text_def.specs.Words.{read_lines};
ghost use Rattle.nf_text_def.specs.Faults.{first_fault, longest_text};
ghost use Rattle.nf_text.specs.Reading.{seen_line, spans_of, WordsAreIn, MatchesFault};
ghost use Rattle.nf_text.specs.Spans.{text_of, Rise};
ghost use Rattle.nf_text.specs.declared.TextFault.TheVariants as TextFault;

mod content;
mod cursor;
mod cursor_line;
mod fault;
mod places;
mod reading;
mod sameness;
mod words;
mod writing;

pub use content::contents;
pub use cursor::Cursor;
pub use cursor_line::{ReadLine, is_word};
pub use fault::{FileFault, LineFault};
use reading::read_line;
use std::alloc::{AllocError, AllocFailed, Global};
use thiserror::Error;
pub use writing::{push_bytes, push_line, push_word};

// A line has at most this many bytes, without its ending.
const LONGEST_LINE: usize = 1000;

/// A word of a text: the offset of its first byte, and its length in bytes.
#[derive(Clone, Copy)]
pub struct Span {
    pub start: u32,
    pub len: u32,
}

impl Span {
    /// Returns the bytes of the word. It must lie within the text.
    pub fn of(self, text: &[u8]) -> &[u8]
        requires { self.start + self.len ≤ length text.now }
        ensures { result.now ≡ text_of text.now self }
    {
        let start = self.start as usize;
        &text[start..start + self.len as usize]
    }
}

/// A line of a text. `number` counts from 1. `plain` is true if the line is its words, joined by single spaces and ended by LF.
#[derive(Drop)]
pub struct Line {
    pub number: u32,
    pub plain: bool,
    pub words: Vec<Span>,
}

/// A text is not read for one of these reasons.
#[derive(Clone, Copy, Debug, Error)]
pub enum TextFault {
    /// The line has a byte other than tab and 32 to 126.
    #[error("line {line} isn't ASCII")]
    NotAscii { line: u32 },
    /// The line has more than 1,000 bytes without its ending.
    #[error("line {line} is too long")]
    LongLine { line: u32 },
    /// An allocation failed.
    #[error("memory is wanting")]
    Memory,
}

impl From<AllocError> for TextFault {
    ghost from_gives = { λ _ fault. fault ≡ TextFault.Memory };

    fn from(_: AllocError) -> Self {
        TextFault::Memory
    }
}

impl<T: Drop> From<AllocFailed<T>> for TextFault {
    ghost from_gives = { λ _ fault. fault ≡ TextFault.Memory };

    fn from(_: AllocFailed<T>) -> Self {
        TextFault::Memory
    }
}

/// Returns the lines of a text, each with its words, or the fault of the first line that has one. The text must have at most
/// 67,108,864 bytes.
pub fn lines(alloc: Global, text: &[u8]) -> Result<Vec<Line>, TextFault>
    requires { length text.now ≤ longest_text }

    // Each word's text is the slice of its span.
    ensures lines { IfOk result
        (λ read. map (seen_line text.now) read.items ≡ read_lines text.now) }
    ensures within { IfOk result (λ read. All (WordsAreIn text.now) read.items) }
    ensures rise { IfOk result (λ read. Rise 0 (length text.now) (spans_of read.items)) }

    ensures none { OnOk result (first_fault text.now ≡ None) }
    ensures fault { IfErr result (λ fault. MatchesFault fault (first_fault text.now)) }
{
    let mut lines = Vec::new(alloc);
    let mut start = 0;
    while start < text.len() {
        let number = lines.len() as u32 + 1;
        let (line, next) = read_line(alloc, text, start, number)?;
        lines.push(line)?;
        start = next;
    }
    Ok(lines)
}
