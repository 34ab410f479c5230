// A line with its words.
ghost use Rattle.std.specs.Prelude.{◌≡◌, ◌<◌, length, map};
ghost use Rattle.std.specs.Str.{bytes_eq};
ghost use Rattle.nf_text.specs.Spans.{text_of};
ghost use Rattle.nf_text.specs.Within.{LieWithin, word_at};

use crate::Span;
use crate::sameness::is_same;
use std::marker::Model;

/// A line of a text: its number, its words, and whether it is plain.
#[derive(Drop)]
pub struct ReadLine<'a> {
    line_number: u32,
    is_plain: bool,
    bytes: &'a [u8],
    spans: Vec<Span>,
}

impl<'a> Model for ReadLine<'a> {
    ghost use Rattle.std.specs.Prelude.{map};
    ghost use Rattle.nf_text_def.specs.Words.{ReadLine as SeenLine};
    ghost use Rattle.nf_text.specs.Spans.{text_of};
    ghost use Rattle.nf_text.specs.Within.{LieWithin};

    ghost Value = { SeenLine };

    ghost view = { λ l. record { number = l.line_number; plain = l.is_plain; words = map (text_of l.bytes.now) l.spans.items } };

    ghost invariant = { λ l. LieWithin l.bytes.now l.spans.items };
}

impl<'a> ReadLine<'a> {
    // Makes the line of these words, which must lie within `bytes`.
    pub(crate) fn new(number: u32, plain: bool, bytes: &'a [u8], spans: Vec<Span>) -> ReadLine<'a>
        requires { LieWithin bytes.now spans.items }
        ensures { result
            ≡ record { number = number; plain = plain; words = map (text_of bytes.now) spans.items } }
    {
        ReadLine {
            line_number: number,
            is_plain: plain,
            bytes,
            spans,
        }
    }

    /// Returns the number of the line, counted from 1.
    pub fn number(&self) -> u32
        ensures { result ≡ self.now.number }
    {
        self.line_number
    }

    /// Returns whether the line is its words, joined by single spaces and ended by LF.
    pub fn is_plain(&self) -> bool
        ensures { result ≡ self.now.plain }
    {
        self.is_plain
    }

    /// Returns the number of words.
    pub fn len(&self) -> usize
        ensures { result ≡ length self.now.words }
    {
        self.spans.len()
    }

    /// Returns the word at an index, which must be below `len`.
    pub fn at(&self, place: usize) -> &[u8]
        requires { place < length self.now.words }
        ensures { result.now ≡ word_at self.now.words place }
    {
        let span = self.spans[place];
        span.of(self.bytes)
    }
}

/// Returns whether two words are equal.
pub fn is_word(word: &[u8], wanted: &[u8]) -> bool
    ensures { result ≡ bytes_eq word.now wanted.now }
{
    is_same(word, wanted)
}
