// Parsing and printing fractions.
ghost use Rattle.std.specs.Prelude.{◌≡◌, Ok};
ghost use Rattle.nf_frac_def.specs.Passing.{bound_of};
ghost use Rattle.nf_frac_words.specs.Numbers.{number_of, decimal_of};
ghost use Rattle.nf_frac_words.specs.Printed.{printed};

use crate::fraction::{Frac, bound};
use crate::lowest::Lowest;
use nf_frac_words::{NumberFault, TextBuf, decimal_parts, parts, write_parts};

impl<const BITS: u32> Frac<BITS> {
    /// Parses a word `a` or `a/b` of decimal digits, where `a` may begin with `-`, and returns its value, reduced.
    ///
    /// The word is split at its first slash; without a slash the denominator is 1. Returns an error exactly if a fault applies, and
    /// then the first of these: `Empty` if `a` without its sign, or `b`, is empty; `BadDigit` if a byte in them is not a digit;
    /// `TooWide` if `a` or `b` exceeds the bound in magnitude, as written, even if the reduced fraction is within it;
    /// `ZeroDenominator` if `b` is 0.
    pub fn read(word: &[u8]) -> Result<Frac<BITS>, NumberFault>
        ensures { result ≡ number_of (bound_of BITS) word.now }
    {
        let (num, den) = parts(word, bound(BITS))?;
        Ok(Frac {
            value: Lowest::over(num, den, den),
        })
    }

    /// Parses a word `a`, `a/b` or `a.b`, where `a` may begin with `-`, and returns its exact value, reduced.
    ///
    /// A word with a point and no slash is a decimal `a.b`, split at its first point. If `b` has k digits, its value is
    /// (|a| · 10^k + b) / 10^k with the sign of `a`: `-0.50` is -1/2. Every other word is parsed as by `read`, with the same value
    /// and the same faults.
    ///
    /// For a decimal, returns an error exactly if a fault applies, and then the first of these: `Empty` if `a` without its sign, or
    /// `b`, is empty; `BadDigit` if a byte in them is not a digit; `TooWide` if |a| · 10^k + b or 10^k exceeds the bound, even if
    /// the reduced fraction is within it.
    pub fn read_decimal(word: &[u8]) -> Result<Frac<BITS>, NumberFault>
        ensures { result ≡ decimal_of (bound_of BITS) word.now }
    {
        let (num, den) = decimal_parts(word, bound(BITS))?;
        Ok(Frac {
            value: Lowest::over(num, den, den),
        })
    }

    /// Replaces the text by the printed form: the numerator, followed by `/` and the denominator if the denominator is not 1. Both
    /// `read` and `read_decimal` return this value from the printed form.
    pub fn write(self, buf: &mut TextBuf)
        ensures text { buf.new ≡ printed self.entry }
        ensures reads_back { number_of (bound_of BITS) buf.new ≡ Ok self.entry }
        ensures reads_back_as_decimal { decimal_of (bound_of BITS) buf.new ≡ Ok self.entry }
    {
        write_parts(self.value.numer(), self.value.denom(), buf);
    }
}
