// A line of words.
ghost use Rattle.std.specs.Prelude.{[], ◌∷◌, map};
ghost use Rattle.nf_edge.specs.Writing.{state_of};
ghost use Rattle.nf_report_pages.specs.Written.{after_words, WroteLines};
ghost use Rattle.nf_report_pages.specs.Pages.{Gathered, GatheredLines};

use crate::pages::{Page, put, put_byte};
use nf_edge::{Sink, SinkFault, write_text};

// Puts a word that isn't the first of its line.
fn put_word<O: Sink>(out: &mut O, page: &mut Page, word: &[u8]) -> Result<(), SinkFault>
    ensures { Gathered (state_of O.Sink out.old) (state_of O.Sink out.new) page.old page.new
        (32 ∷ word.now) result }
{
    put_byte(out, page, b' ')?;
    put(out, page, word)
}

// Puts the words after the first of their line.
fn put_words<O: Sink>(out: &mut O, page: &mut Page, words: &[&[u8]]) -> Result<(), SinkFault>
    ensures { Gathered (state_of O.Sink out.old) (state_of O.Sink out.new) page.old page.new
        (after_words (map (λ w. w.now) words.now)) result }
{
    for word in words {
        put_word(out, page, word)?;
    }
    Ok(())
}

/// Puts the line of these words on the page, and writes the page whenever it is full. Allocates nothing.
///
/// The first fault ends the writing. Then the sink took a proper prefix of the page and the line, and the page is empty. So it is with each
/// call that puts lines.
pub fn put_line<O: Sink>(
    out: &mut O,
    page: &mut Page,
    first: &[u8],
    words: &[&[u8]],
) -> Result<(), SinkFault>
    ensures { GatheredLines (state_of O.Sink out.old) (state_of O.Sink out.new) page.old page.new
        ((first.now ∷ map (λ w. w.now) words.now) ∷ []) result }
{
    put(out, page, first)?;
    put_words(out, page, words)?;
    put_byte(out, page, b'\n')
}

/// Writes the line of these words, in one write if it has at most 4096 bytes. Allocates nothing.
///
/// The first fault ends the writing; the sink then took a proper prefix of the line.
pub fn write_line<O: Sink>(out: &mut O, first: &[u8], words: &[&[u8]]) -> Result<(), SinkFault>
    ensures { WroteLines (state_of O.Sink out.old) (state_of O.Sink out.new)
        ((first.now ∷ map (λ w. w.now) words.now) ∷ []) result }
{
    let mut page = Page::new();
    put_line(out, &mut page, first, words)?;
    write_text(out, page.as_slice())
}
