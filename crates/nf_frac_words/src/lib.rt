//! Rational numbers and counts as words of text: parsing and printing.
//!
//! A word is `a` or `a/b`, or a decimal `a.b` where the caller allows decimals. No function allocates memory.
#![tactic(auto)]

ghost use Rattle.nf_frac_words.specs.Laws.{PrintedReadsBack, PrintedIsInjective, CountsAreDigits, FractionsAreRead, DecimalsAreRead};

mod reading;
mod text;

pub use reading::{count, decimal_parts, parts};
pub use text::{TextBuf, write_count, write_parts};

/// Why a word is not a number. If several faults apply, parsing returns the first of them in this order.
#[derive(Clone, Copy, Debug, PartialEq, Eq)]
pub enum NumberFault {
    /// A field of digits is empty: `a` without its sign, or `b`.
    Empty,
    /// A field of digits contains a byte that is not a decimal digit.
    BadDigit,
    /// The numerator or the denominator, as written and not reduced, exceeds the bound in magnitude.
    TooWide,
    /// The denominator is 0.
    ZeroDenominator,
}

/// Proves that parsing the printed form of a number returns this number, with decimals allowed or not.
pub fn printed_reads_back()
    ensures { PrintedReadsBack }
{}

/// Proves that different numbers have different printed forms.
pub fn printed_is_injective()
    ensures { PrintedIsInjective }
{}

/// Proves that a word is parsed as a count exactly if it consists of the digits of that count.
pub fn counts_are_digits()
    ensures { CountsAreDigits }
{}

/// Proves to which number each of ten words `a` or `a/b` is parsed, or which fault it has.
pub fn fractions_are_read()
    ensures { FractionsAreRead }
{}

/// Proves to which number each of seven words is parsed with decimals allowed, or which fault it has.
pub fn decimals_are_read()
    ensures { DecimalsAreRead }
{}
