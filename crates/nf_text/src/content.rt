// The lines of a text that have words.
ghost use Rattle.std.specs.Prelude.{◌≡◌, ◌≤◌, [], ◌∷◌, ◌++◌, length, None, IfOk, IfErr, OnOk};
ghost use Rattle.nf_text_def.specs.Words.{read_lines, content_lines};
ghost use Rattle.nf_text_def.specs.Faults.{first_fault, longest_text};
ghost use Rattle.nf_text.specs.Reading.{MatchesFault};

use crate::{Cursor, ReadLine, TextFault};
use std::alloc::{AllocError, Global};

// Appends a line if it has words.
fn push_content<'a>(lines: &mut Vec<ReadLine<'a>>, line: ReadLine<'a>) -> Result<(), AllocError>
    ensures { OnOk result (lines.new.items ≡ lines.old.items ++ content_lines (line.entry ∷ [])) }
{
    if line.len() > 0 {
        lines.push(line)?;
    }
    Ok(())
}

/// Returns the lines of a text that have words, in their order; or the fault of the first line that has one, with words or without. The
/// text must have at most 67,108,864 bytes.
pub fn contents<'a>(alloc: Global, text: &'a [u8]) -> Result<Vec<ReadLine<'a>>, TextFault>
    requires { length text.now ≤ longest_text }
    ensures lines { IfOk result (λ lines. lines.items ≡ content_lines (read_lines text.now)) }
    ensures none { OnOk result (first_fault text.now ≡ None) }
    ensures fault { IfErr result (λ fault. MatchesFault fault (first_fault text.now)) }
{
    let mut cursor = Cursor::new(text);
    let mut lines = Vec::new(alloc);
    loop {
        match cursor.next_line(alloc) {
            Ok(Some(line)) => push_content(&mut lines, line)?,
            Ok(None) => return Ok(lines),
            Err(fault) => return Err(fault),
        }
    }
}
