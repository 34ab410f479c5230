// A cursor over the lines of a text.
ghost use Rattle.std.specs.Prelude.{◌≡◌, ◌≤◌, [], ◌∷◌, length, map, IfOk, IfErr, OnErr, MatchOption};
ghost use Rattle.nf_text_def.specs.Lines.{lines as lines_of};
ghost use Rattle.nf_text_def.specs.Words.{read_line as as_read};
ghost use Rattle.nf_text_def.specs.Faults.{first_fault_of, longest_text};
ghost use Rattle.nf_text.specs.Reading.{MatchesFault};

use crate::TextFault;
use crate::cursor_line::ReadLine;
use crate::reading::read_line;
use std::alloc::Global;
use std::marker::Model;

/// A cursor stands at the beginning of a line of a text, and reads the lines from there on.
#[derive(Drop)]
pub struct Cursor<'a> {
    text: &'a [u8],
    start: usize,
    line_number: u32,
}

impl<'a> Model for Cursor<'a> {
    ghost use Rattle.std.specs.Prelude.{List, drop};
    ghost use Rattle.std.specs.Coded.{coded_list};
    ghost use Rattle.nf_text_def.specs.Lines.{TextLine, lines_from};
    ghost use Rattle.nf_text.specs.Places.{IsLineStart, coded_text_line};

    ghost Value = { List TextLine };

    ghost coded = { coded_list coded_text_line };

    ghost view = { λ c. lines_from c.line_number (drop c.start c.text.now) };

    ghost invariant = { λ c. IsLineStart c.text.now c.start c.line_number };
}

impl<'a> Cursor<'a> {
    /// Makes the cursor at the beginning of a text, which must have at most 67,108,864 bytes.
    pub fn new(text: &'a [u8]) -> Cursor<'a>
        requires { length text.now ≤ longest_text }
        ensures { result ≡ lines_of text.now }
    {
        Cursor {
            text,
            start: 0,
            line_number: 1,
        }
    }

    /// Returns the next line, and moves behind it; returns None at the end of the text. A line with a fault, and an allocation
    /// failure, give an `Err` and leave the cursor where it was.
    pub fn next_line(&mut self, alloc: Global) -> Result<Option<ReadLine<'a>>, TextFault>
        ensures line { IfOk result (λ next. MatchOption next (self.old ≡ [])
            (λ line. map as_read self.old ≡ line ∷ map as_read self.new)) }
        ensures fine { IfOk result
            (λ next. MatchOption next (self.new ≡ self.old)
            (λ line. first_fault_of self.old ≡ first_fault_of self.new)) }
        ensures fault { IfErr result (λ fault. MatchesFault fault (first_fault_of self.old)) }
        ensures kept { OnErr result (self.new ≡ self.old) }
    {
        if self.start == self.text.len() {
            return Ok(None);
        }
        match read_line(alloc, self.text, self.start, self.line_number) {
            Ok((line, next)) => {
                self.start = next;
                self.line_number += 1;
                Ok(Some(ReadLine::new(line.number, line.plain, self.text, line.words)))
            }
            Err(fault) => Err(fault),
        }
    }
}
