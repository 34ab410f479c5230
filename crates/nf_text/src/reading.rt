// One line of a text.
ghost use Rattle.std.specs.Prelude.{◌≡◌, ◌+◌, ◌<◌, ◌≤◌, ◌∷◌, Bool, false, true, length, drop, None, IfOk, IfErr, OnOk, MatchResult};
ghost use Rattle.std.specs.List.{list_all};
ghost use Rattle.nf_text_def.specs.Lines.{lines_from};
ghost use Rattle.nf_text_def.specs.Words.{read_line as as_read};
ghost use Rattle.nf_text_def.specs.Faults.{is_allowed, fault_of, line_fault, longest_text};
ghost use Rattle.nf_text.specs.Spans.{Rise};
ghost use Rattle.nf_text.specs.Reading.{seen_line, WordsAreIn, MatchesFault, bytes_len, whole_len, first_line};

use crate::places::{comment_start, line_len};
use crate::words::{is_plain, spans};
use crate::{LONGEST_LINE, Line, TextFault};
use std::alloc::Global;

fn is_text_byte(byte: u8) -> bool
    ensures { result ≡ is_allowed byte }
{
    byte == b'\t' || (b' ' <= byte && byte <= b'~')
}

// Returns whether all bytes are allowed. A loop without an early exit, for speed: LLVM tests 16 bytes at once.
fn is_text(bytes: &[u8]) -> bool
    ensures { result ≡ list_all is_allowed bytes.now }
{
    let mut fine = true;
    for byte in bytes {
        fine &= is_text_byte(*byte);
    }
    fine
}

fn check_line(bytes: &[u8], number: u32) -> Result<(), TextFault>
    ensures { MatchResult result (λ _. fault_of number bytes.now ≡ None)
        (λ fault. MatchesFault fault (fault_of number bytes.now)) }
{
    if !is_text(bytes) {
        return Err(TextFault::NotAscii { line: number });
    }
    if bytes.len() > LONGEST_LINE {
        return Err(TextFault::LongLine { line: number });
    }
    Ok(())
}

// The number of bytes of a line: `bytes` without its ending, `whole` with it.
#[derive(Clone, Copy)]
struct Extent {
    bytes: usize,
    whole: usize,
}

// Returns the extent of the first line.
fn first_extent(rest: &[u8]) -> Extent
    ensures bytes { result.bytes ≡ bytes_len rest.now }
    ensures whole { result.whole ≡ whole_len rest.now }
    ensures ordered { result.bytes ≤ result.whole }
    ensures within { result.whole ≤ length rest.now }
    ensures some { 0 < length rest.now → 0 < result.whole }
{
    let len = line_len(rest);
    if len == rest.len() {
        return Extent {
            bytes: len,
            whole: len,
        };
    }
    let bytes = if len > 0 && rest[len - 1] == b'\r' {
        len - 1
    } else {
        len
    };
    Extent {
        bytes,
        whole: len + 1,
    }
}

/// Returns the line that begins at `start`, with its words, and where the next line begins; or the fault of the line. The text must
/// have at most 67,108,864 bytes. The line gets the number `number`.
pub fn read_line(
    alloc: Global,
    text: &[u8],
    start: usize,
    number: u32,
) -> Result<(Line, usize), TextFault>
    requires some { start < length text.now }
    requires small { length text.now ≤ longest_text }
    ensures line { IfOk result
        (λ r. seen_line text.now r.0 ≡ as_read (first_line number (drop start text.now))) }
    ensures rise { IfOk result (λ r. Rise start r.1 r.0.words.items) }
    ensures next { IfOk result (λ r. r.1 ≡ start + whole_len (drop start text.now)) }
    ensures more { IfOk result (λ r. start < r.1) }
    ensures within { IfOk result (λ r. r.1 ≤ length text.now) }
    ensures words { IfOk result (λ r. WordsAreIn text.now r.0) }
    ensures none { OnOk result (line_fault (first_line number (drop start text.now)) ≡ None) }
    ensures fault { IfErr result
        (λ fault. MatchesFault fault (line_fault (first_line number (drop start text.now)))) }
{
    let extent = first_extent(&text[start..]);
    let bytes = &text[start..start + extent.bytes];
    check_line(bytes, number)?;
    let words = spans(alloc, text, start, start + comment_start(bytes))?;
    let next = start + extent.whole;
    let plain = is_plain(text, start, next, &words);
    Ok((
        Line {
            number,
            plain,
            words,
        },
        next,
    ))
}
