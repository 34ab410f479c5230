// Fractions whose parts have a bounded number of bits.
ghost use Rattle.std.specs.Prelude.{◌≡◌, ◌≢◌, ◌≤◌, pos, nat_abs, ◌≤ℤ◌, SomeIff, false};
ghost use Rattle.nf_rational.specs.Operations.{0ℚ, 1ℚ, whole, ◌/ℚ◌};
ghost use Rattle.nf_frac_def.specs.Passing.{bound_of, is_wide};
ghost use Rattle.nf_frac.specs.Parts.{greatest, IsWithin, IsMade};

use crate::lowest::Lowest;
use std::marker::Model;

/// A rational number as a fraction in lowest terms. The denominator is at least 1. Numerator and denominator are at most 2^b - 1
/// in magnitude, the bound, where b is BITS, but at least 8 and at most 127. Zero is 0/1.
#[derive(Clone, Copy)]
pub struct Frac<const BITS: u32> {
    pub(crate) value: Lowest,
}

/// Fractions with 127 bits, which all amounts, times and rates are.
pub type Q = Frac<127>;

impl<const BITS: u32> Model for Frac<BITS> {
    ghost use Rattle.nf_rational.specs.Rational.{ℚ, coded_ℚ};
    ghost use Rattle.nf_frac_def.specs.Passing.{bound_of};
    ghost use Rattle.nf_frac.specs.Parts.{IsWithin};

    ghost Value = { ℚ };

    ghost coded = { coded_ℚ };

    ghost view = { λ f. f.value };

    ghost invariant = { λ f. IsWithin (bound_of BITS) f.value };

    ghost inverse = { λ q. record { value = q } };
}

// Returns the greatest magnitude of a part.
pub(crate) fn bound(bits: u32) -> u128
    ensures value { result ≡ bound_of bits }
    ensures small { result ≤ greatest }
{
    (1 << bits.min(127).max(8)) - 1
}

impl<const BITS: u32> Frac<BITS> {
    /// Returns numerator over denominator, reduced. Returns None exactly if the denominator is 0, or the numerator or denominator of
    /// the reduced fraction exceeds the bound in magnitude.
    pub fn make(num: i128, den: i128) -> Option<Frac<BITS>>
        ensures { SomeIff result (IsMade (bound_of BITS) num den) (whole num /ℚ whole den) }
    {
        if den == 0 {
            return None;
        }
        let negative = (num < 0) != (den < 0);
        let value = Lowest::reduced(
            negative,
            num.unsigned_abs(),
            den.unsigned_abs(),
            bound(BITS),
        )?;
        Some(Frac { value })
    }

    /// Does nothing. Proof: states that neither part exceeds the bound in magnitude.
    pub fn recall(&self)
        ensures { is_wide (bound_of BITS) self.now ≡ false }
    {
        let _ = &self.value;
    }

    /// Returns the numerator of the reduced fraction.
    pub fn numer(self) -> i128
        ensures value { result ≡ self.entry.num }
        ensures small { nat_abs result ≤ bound_of BITS }
    {
        self.value.numer()
    }

    /// Returns the denominator of the reduced fraction, which is at least 1.
    pub fn denom(self) -> i128
        ensures value { result ≡ pos self.entry.den }
        ensures small { result ≤ℤ pos (bound_of BITS) }
    {
        self.value.denom() as i128
    }
}
