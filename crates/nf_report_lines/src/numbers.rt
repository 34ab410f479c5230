// Numbers and counts of a report, in their printed form.
ghost use Rattle.std.specs.Prelude.{◌≡◌};
ghost use Rattle.std.specs.Str.{bytes_eq};
ghost use Rattle.nf_frac_words.specs.Digits.{count_of};
ghost use Rattle.nf_frac_words.specs.Printed.{printed};
ghost use Rattle.nf_report_def.specs.declared.ReportRule.TheVariants.{P8};
ghost use Rattle.nf_report_def.specs.ReportCauses.{printed_number as number_by, or_rule, place_in};
ghost use Rattle.nf_report_def.specs.ReportLines.{rate_word};

use crate::plain_numbers::plain_number;
use nf_frac::{Q, TextBuf};
use nf_frac_words::count;
use nf_report_def::ReportRule;
use nf_text::is_word;

// Returns whether the word is the printed form of this number.
fn is_printed(word: &[u8], number: Q) -> bool
    ensures { result ≡ bytes_eq word.now (printed number) }
{
    let mut text = TextBuf::new();
    number.write(&mut text);
    is_word(word, text.text())
}

// Returns the number whose printed form is the word. Reads the number, prints it, and compares the text with the word.
fn any_number(word: &[u8]) -> Option<Q>
    ensures { result ≡ number_by word.now }
{
    match Q::read(word) {
        Ok(number) if is_printed(word, number) => Some(number),
        _ => None,
    }
}

// Returns the number whose printed form is the word. Tries `plain_number` first, which reads nearly all words faster.
fn printed_number(word: &[u8]) -> Option<Q>
    ensures { result ≡ number_by word.now }
{
    match plain_number(word) {
        Some(number) => Some(number),
        None => any_number(word),
    }
}

/// Returns the number whose printed form is the word. Otherwise fails with P8.
pub(crate) fn read_number(word: &[u8]) -> Result<Q, ReportRule>
    ensures { result ≡ or_rule P8 (number_by word.now) }
{
    match printed_number(word) {
        Some(number) => Ok(number),
        None => Err(ReportRule::P8),
    }
}

/// Returns the count that the word writes. Otherwise fails with P8.
pub(crate) fn read_count(word: &[u8]) -> Result<u64, ReportRule>
    ensures { result ≡ or_rule P8 (count_of word.now) }
{
    match count(word) {
        Some(count) => Ok(count),
        None => Err(ReportRule::P8),
    }
}

/// Returns the count that the word writes, or None if the word is `-`. Otherwise fails with P8.
pub(crate) fn read_place(word: &[u8]) -> Result<Option<u64>, ReportRule>
    ensures { result ≡ or_rule P8 (place_in word.now) }
{
    if is_word(word, b"-") {
        return Ok(None);
    }
    let place = read_count(word)?;
    Ok(Some(place))
}

/// Returns the rate that the word writes, or None if the word is `-`. Otherwise fails with P8.
pub(crate) fn read_rate(word: &[u8]) -> Result<Option<Q>, ReportRule>
    ensures { result ≡ rate_word word.now }
{
    if is_word(word, b"-") {
        return Ok(None);
    }
    let rate = read_number(word)?;
    Ok(Some(rate))
}
