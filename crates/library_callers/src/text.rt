// A caller of nf_text.
ghost use Rattle.std.specs.Prelude.{◌≡◌, ◌≤◌, ◌==◌, None, not, length, count_by, IfOk, IfErr, OnOk};
ghost use Rattle.nf_text_def.specs.Words.{content_lines, read_lines};
ghost use Rattle.nf_text_def.specs.Faults.{first_fault, longest_text};
ghost use Rattle.nf_text.specs.Reading.{MatchesFault};

use nf_text::{Line, TextFault, lines};
use std::alloc::Global;

// Returns the number of lines that have at least one word.
fn with_words(read: &[Line]) -> usize
    ensures { result ≡ count_by (λ line. not (length line.words.items == 0)) read.now }
{
    read.iter().filter(|line| !line.words.is_empty()).count()
}

/// Returns the number of lines that have at least one word: blank lines and lines with a comment alone don't count. The text must have at
/// most 67,108,864 bytes. Fails with the first line that isn't ASCII or is too long, or if an allocation fails.
pub fn content_count(alloc: Global, text: &[u8]) -> Result<usize, TextFault>
    requires { length text.now ≤ longest_text }
    ensures count { IfOk result (λ count. count ≡ length (content_lines (read_lines text.now))) }
    ensures fine { OnOk result (first_fault text.now ≡ None) }
    ensures fault { IfErr result (λ fault. MatchesFault fault (first_fault text.now)) }
{
    let read = lines(alloc, text)?;
    Ok(with_words(&read))
}
