// Fractions in lowest terms with parts of at most 63 bits.
ghost use Rattle.std.specs.Prelude.{◌≡◌, ◌≢◌, ◌<◌, ◌≤◌, pos, nat_abs, SomeIff};
ghost use Rattle.nf_rational.specs.Gcd.{gcd};
ghost use Rattle.nf_rational.specs.Rational.{ratio};
ghost use Rattle.nf_rational.specs.Operations.{0ℚ, neg_ℚ, inv_ℚ};
ghost use Rattle.nf_rational.specs.Order.{cmp_ℚ};
ghost use Rattle.nf_frac.specs.Parts.{greatest, IsWithin};
ghost use Rattle.nf_frac.specs.Short.{short, AreShortParts};
ghost use Rattle.nf_frac.specs.Order.{same_ℚ};

use crate::lowest::Lowest;
use crate::short::{SHORT, common_factor, signed_short, times};
use std::cmp::Ordering;
use std::marker::Model;

// The greatest numerator of a small number.
const GREATEST_NUMERATOR: i128 = SHORT as i128;

/// A small number: a rational number whose numerator and denominator, in lowest terms, are at most 2^63 - 1 in magnitude.
#[derive(Clone, Copy)]
pub struct Small {
    num: i64,
    den: u64,
}

impl Model for Small {
    ghost use Rattle.nf_rational.specs.Rational.{ℚ, ratio, coded_ℚ};
    ghost use Rattle.nf_frac.specs.Short.{AreShortParts, short_back};

    ghost Value = { ℚ };

    ghost coded = { coded_ℚ };

    ghost view = { λ f. ratio f.num f.den };

    ghost invariant = { λ f. AreShortParts f.num f.den };

    ghost inverse = { λ q. record { num = q.num; den = q.den } };

    ghost inverse_ok = { λ a h. λ i. record { num = (short_back a.num a.den h).0 i; den = (short_back a.num a.den h).1 i } };
}

impl Lowest {
    /// Returns the same number as a small one. Returns None exactly if a part exceeds 2^63 - 1 in magnitude.
    pub(crate) fn small(self) -> Option<Small>
        ensures { SomeIff result (IsWithin short self) self }
    {
        let num = self.numer();
        let den = self.denom();
        if -GREATEST_NUMERATOR <= num && num <= GREATEST_NUMERATOR && den <= SHORT as u128 {
            Some(Small::of(num as i64, den as u64))
        } else {
            None
        }
    }
}

impl Small {
    // Returns the fraction with these parts.
    pub(crate) fn of(num: i64, den: u64) -> Small
        requires { AreShortParts num den }
        ensures value { result ≡ ratio num den }
        ensures small { IsWithin short result }
    {
        Small { num, den }
    }

    // Returns the numerator.
    pub(crate) fn numer(self) -> i64
        ensures value { result ≡ self.num }
        ensures small { nat_abs result ≤ short }
    {
        self.num
    }

    // Returns the denominator.
    pub(crate) fn denom(self) -> u64
        ensures value { result ≡ self.den }
        ensures small { result ≤ short }
        ensures positive { 0 < result }
    {
        self.den
    }

    // Returns the same number with wider parts.
    pub(crate) fn lowest(self) -> Lowest
        ensures value { result ≡ self }
        ensures small { IsWithin greatest result }
    {
        Lowest::of(self.num as i128, self.den as u128)
    }

    // Returns the negated number.
    pub(crate) fn negated(self) -> Small
        ensures value { result ≡ neg_ℚ self }
        ensures small { IsWithin short result }
    {
        Small {
            num: -self.num,
            den: self.den,
        }
    }

    // Returns the reciprocal.
    pub(crate) fn inverted(self) -> Small
        requires { self ≢ 0ℚ }
        ensures { result ≡ inv_ℚ self }
    {
        Small {
            num: signed_short(self.num < 0, self.den),
            den: self.num.unsigned_abs(),
        }
    }

    // Returns whether the two numbers are equal.
    pub(crate) fn is_same(self, right: Small) -> bool
        ensures { result ≡ same_ℚ self right }
    {
        self.num == right.num && self.den == right.den
    }

    // Returns the order of the two numbers.
    pub(crate) fn compare(self, right: Small) -> Ordering
        ensures { result ≡ cmp_ℚ self right }
    {
        if self.den == right.den {
            return self.num.cmp(&right.num);
        }
        times(self.num, right.den).cmp(&times(right.num, self.den))
    }

    // Returns the greatest common divisor of this numerator and the other denominator. It is 1 if the two denominators are equal.
    pub(crate) fn common_with(self, other: Small) -> u64
        ensures value { result ≡ gcd (nat_abs self.num) other.den }
        ensures positive { 0 < result }
        ensures small { result ≤ short }
    {
        if self.den == other.den {
            1
        } else {
            common_factor(self.num.unsigned_abs(), other.den)
        }
    }
}
