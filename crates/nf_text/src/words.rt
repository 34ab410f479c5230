// The words of a line, by their places in the text.
ghost use Rattle.std.specs.Prelude.{◌≡◌, ◌+◌, ◌-◌, ◌<◌, ◌≤◌, [], ◌∷◌, ◌++◌, length, map, take, drop, All, IfOk, IfSome, IsTrue, Bool, true, false, ℕ, List, MatchOption};
ghost use Rattle.std.specs.List.{position_or_len, slice_split};
ghost use Rattle.std.specs.Str.{bytes_eq};
ghost use Rattle.nf_text_def.specs.Words.{is_blank, parts_with_bytes, line_of_words, without_comment};
ghost use Rattle.nf_text.specs.Spans.{text_of, between, Rise, space_before, ComparesPrefix};

use crate::Span;
use crate::places::word_len;
use crate::sameness::{begins_with, is_same};
use std::alloc::{AllocError, Global};

// The number of words for which room is made at first: most lines have fewer.
const MOST_WORDS: usize = 8;

// Returns the words between two offsets of the text, where no comment stands.
pub fn spans(alloc: Global, text: &[u8], start: usize, end: usize) -> Result<Vec<Span>, AllocError>
    requires ordered { start ≤ end }
    requires within { end ≤ length text.now }
    requires small { length text.now < 4294967295 }
    ensures words { IfOk result (λ spans. map (text_of text.now) spans.items ≡
        parts_with_bytes (slice_split is_blank (take (end - start) (drop start text.now)))) }
    ensures rise { IfOk result (λ spans. Rise start end spans.items) }
{
    let mut spans = Vec::with_capacity(alloc, MOST_WORDS)?;
    let mut at = start;
    while at < end {
        let len = word_len(&text[at..end]);
        if len > 0 {
            spans.push(Span {
                start: at as u32,
                len: len as u32,
            })?;
        }
        at += len + 1;
    }
    Ok(spans)
}

// Returns where the line goes on after a space, if it begins with one.
fn after_space(text: &[u8], at: usize, end: usize) -> Option<usize>
    requires ordered { at ≤ end }
    requires within { end ≤ length text.now }
    ensures goes_on { ComparesPrefix text.now end (between text.now at end) (32 ∷ []) result }
    ensures within { IfSome result (λ next. next ≤ end) }
{
    if at == end || text[at] != b' ' {
        return None;
    }
    Some(at + 1)
}

// Returns whether the line begins with a word. The word at its own place is not compared, for speed.
fn has_word(text: &[u8], at: usize, end: usize, word: Span) -> bool
    requires ordered { at ≤ end }
    requires within { end ≤ length text.now }
    requires word { word.start + word.len ≤ length text.now }
    ensures same { result ≡ bytes_eq
        (take (length (text_of text.now word)) (between text.now at end)) (text_of text.now word) }
    ensures fits { IsTrue result → at + word.len ≤ end }
{
    if end - at < word.len as usize {
        return false;
    }
    if word.start as usize == at {
        return true;
    }
    begins_with(&text[at..end], word.of(text))
}

// Returns where the line goes on after a word, if it begins with the word.
fn after(text: &[u8], at: usize, end: usize, word: Span) -> Option<usize>
    requires ordered { at ≤ end }
    requires within { end ≤ length text.now }
    requires word { word.start + word.len ≤ length text.now }
    ensures goes_on { ComparesPrefix text.now end (between text.now at end) (text_of text.now word) result }
    ensures within { IfSome result (λ next. next ≤ end) }
{
    if has_word(text, at, end, word) {
        Some(at + word.len as usize)
    } else {
        None
    }
}

// Returns where the line goes on after a word, if it begins with the word, after a space if `spaced`.
fn after_word(text: &[u8], at: usize, end: usize, word: Span, spaced: bool) -> Option<usize>
    requires ordered { at ≤ end }
    requires within { end ≤ length text.now }
    requires word { word.start + word.len ≤ length text.now }
    ensures goes_on { ComparesPrefix text.now end (between text.now at end)
        (space_before spaced (text_of text.now word)) result }
    ensures within { IfSome result (λ next. next ≤ end) }
{
    if spaced {
        let word_start = after_space(text, at, end)?;
        after(text, word_start, end, word)
    } else {
        after(text, at, end, word)
    }
}

// Returns whether a line with its ending, between two offsets of the text, is these words, joined by single spaces and ended by LF.
pub fn is_plain(text: &[u8], start: usize, end: usize, words: &[Span]) -> bool
    requires ordered { start ≤ end }
    requires within { end ≤ length text.now }
    requires words { All (λ span. span.start + span.len ≤ length text.now) words.now }
    ensures { result
        ≡ bytes_eq (between text.now start end) (line_of_words (map (text_of text.now) words.now)) }
{
    let mut at = start;
    for (index, word) in words.iter().enumerate() {
        let Some(next) = after_word(text, at, end, *word, index > 0) else {
            return false;
        };
        at = next;
    }
    is_same(&text[at..end], b"\n")
}
