// Fractions in lowest terms with parts of at most 127 bits: reduction, sums and products within a limit, and comparisons.
ghost use Rattle.std.specs.Prelude.{◌≡◌, ◌≢◌, ◌*◌, ◌/◌, ◌-◌, ◌^◌, ◌<◌, ◌≤◌, pos, nat_abs, ◌*ℤ◌, SomeIff};
ghost use Rattle.nf_rational.specs.Gcd.{gcd};
ghost use Rattle.nf_rational.specs.Rational.{ratio};
ghost use Rattle.nf_rational.specs.Operations.{0ℚ, whole, ◌+ℚ◌, ◌*ℚ◌, neg_ℚ, inv_ℚ};
ghost use Rattle.nf_rational.specs.Order.{cmp_ℚ};
ghost use Rattle.nf_frac.specs.Parts.{greatest, signed, InForm, IsWithin, SumFits};
ghost use Rattle.nf_frac.specs.Order.{same_ℚ};

use crate::whole::{
    added, compare_quotients, divided, gcd_of, multiplied, product, shortened, with_sign,
};
use std::cmp::Ordering;
use std::marker::Model;

/// A fraction in lowest terms. The denominator is positive, and no part exceeds 2^127 - 1 in magnitude.
#[derive(Clone, Copy)]
pub(crate) struct Lowest {
    num: i128,
    den: u128,
}

impl Model for Lowest {
    ghost use Rattle.nf_rational.specs.Rational.{ℚ, ratio, coded_ℚ};
    ghost use Rattle.nf_frac.specs.Parts.{InForm};
    ghost use Rattle.nf_frac.specs.Form.{parts_back};

    ghost Value = { ℚ };

    ghost coded = { coded_ℚ };

    ghost view = { λ f. ratio f.num f.den };

    ghost invariant = { λ f. InForm f.num f.den };

    ghost inverse = { λ q. record { num = q.num; den = q.den } };

    ghost inverse_ok = { λ a h. λ i. record { num = (parts_back a.num a.den h).0 i; den = (parts_back a.num a.den h).1 i } };
}

impl Lowest {
    /// Returns the fraction with these parts.
    pub(crate) fn of(num: i128, den: u128) -> Lowest
        requires { InForm num den }
        ensures { result ≡ ratio num den }
    {
        Lowest { num, den }
    }

    /// Returns the numerator.
    pub(crate) fn numer(self) -> i128
        ensures value { result ≡ self.num }
        ensures small { nat_abs result ≤ greatest }
    {
        self.num
    }

    /// Returns the denominator.
    pub(crate) fn denom(self) -> u128
        ensures value { result ≡ self.den }
        ensures small { result ≤ greatest }
    {
        self.den
    }

    /// Returns 0 or 1.
    pub(crate) fn natural(number: u32) -> Lowest
        requires { number < 2 }
        ensures value { result ≡ whole (pos number) }
        ensures small { IsWithin 1 result }
    {
        Lowest {
            num: number as i128,
            den: 1,
        }
    }

    /// Returns the fraction with this sign, magnitude and denominator, reduced. Returns None exactly if a reduced part exceeds
    /// the limit.
    pub(crate) fn reduced(negative: bool, magnitude: u128, den: u128, limit: u128) -> Option<Lowest>
        requires positive { 0 < den }
        requires narrow { limit ≤ greatest }
        ensures { SomeIff result (IsWithin limit (ratio (signed negative magnitude) den))
            (ratio (signed negative magnitude) den) }
    {
        let common = gcd_of(magnitude, den);
        let above = divided(magnitude, common);
        let below = divided(den, common);
        if above > limit || below > limit {
            return None;
        }
        Some(Lowest {
            num: with_sign(negative, above),
            den: below,
        })
    }

    /// Returns the numerator over the denominator, reduced. Their common factors are those of the numerator and `common`.
    pub(crate) fn over(num: i128, den: u128, common: u128) -> Lowest
        requires positive { 0 < den }
        requires some { 0 < common }
        requires bounded { common ≤ greatest }
        requires small { nat_abs num ≤ greatest }
        requires small_den { den ≤ greatest }
        requires factor { gcd (nat_abs num) common ≡ gcd (nat_abs num) den }
        ensures { result ≡ ratio num den }
    {
        let rest = gcd_of(num.unsigned_abs(), common);
        Lowest {
            num: shortened(num, rest),
            den: divided(den, rest),
        }
    }

    // Returns the numerator times a factor. Returns None exactly if the product exceeds the limit in magnitude.
    fn scaled(self, factor: u128, limit: u128) -> Option<i128>
        requires bounded { factor ≤ greatest }
        requires narrow { limit ≤ greatest }
        ensures { SomeIff result (nat_abs (self.num *ℤ pos factor) ≤ limit)
            (self.num *ℤ pos factor) }
    {
        multiplied(self.num, factor as i128, limit)
    }

    /// Returns the sum, computed over the least common denominator. Returns None exactly if a number in this computation exceeds
    /// the limit.
    pub(crate) fn sum(self, right: Lowest, limit: u128) -> Option<Lowest>
        requires { limit ≤ greatest }
        ensures { SomeIff result (SumFits limit self right) (self +ℚ right) }
    {
        let common = gcd_of(self.den, right.den);
        let left_factor = divided(right.den, common);
        let right_factor = divided(self.den, common);
        let den = product(self.den, left_factor, limit)?;
        let left_part = self.scaled(left_factor, limit)?;
        let right_part = right.scaled(right_factor, limit)?;
        let num = added(left_part, right_part, limit)?;
        Some(Lowest::over(num, den, common))
    }

    /// Returns the product: each numerator is reduced with the other denominator before the multiplication. Returns None exactly
    /// if a part of the reduced product exceeds the limit.
    pub(crate) fn product(self, right: Lowest, limit: u128) -> Option<Lowest>
        requires { limit ≤ greatest }
        ensures { SomeIff result (IsWithin limit (self *ℚ right)) (self *ℚ right) }
    {
        let left = gcd_of(self.num.unsigned_abs(), right.den);
        let other = gcd_of(right.num.unsigned_abs(), self.den);
        let num = multiplied(
            shortened(self.num, left),
            shortened(right.num, other),
            limit,
        )?;
        let den = product(divided(self.den, other), divided(right.den, left), limit)?;
        Some(Lowest { num, den })
    }

    /// Returns the negated number.
    pub(crate) fn negated(self) -> Lowest
        ensures { result ≡ neg_ℚ self }
    {
        Lowest {
            num: -self.num,
            den: self.den,
        }
    }

    /// Returns the reciprocal.
    pub(crate) fn inverted(self) -> Lowest
        requires { self ≢ 0ℚ }
        ensures { result ≡ inv_ℚ self }
    {
        Lowest {
            num: with_sign(self.num < 0, self.den),
            den: self.num.unsigned_abs(),
        }
    }

    /// Returns whether the two numbers are equal.
    pub(crate) fn is_same(self, right: Lowest) -> bool
        ensures { result ≡ same_ℚ self right }
    {
        self.num == right.num && self.den == right.den
    }

    /// Returns the order of the two numbers: by the numerators if the denominators are equal, and by products of at most 128 bits
    /// if both numbers are small.
    pub(crate) fn compare(self, right: Lowest) -> Ordering
        ensures { result ≡ cmp_ℚ self right }
    {
        if self.den == right.den {
            return self.num.cmp(&right.num);
        }
        if let (Some(left), Some(other)) = (self.small(), right.small()) {
            return left.compare(other);
        }
        self.compare_wide(&right)
    }

    // Returns the order of numbers of any length. It is rarely needed, so it stays out of the callers' code.
    #[cold]
    #[inline(never)]
    fn compare_wide(&self, right: &Lowest) -> Ordering
        ensures { result ≡ cmp_ℚ self.now right.now }
    {
        if self.num < 0 {
            if right.num < 0 {
                compare_quotients(
                    right.num.unsigned_abs(),
                    right.den,
                    self.num.unsigned_abs(),
                    self.den,
                )
            } else {
                Ordering::Less
            }
        } else if right.num < 0 {
            Ordering::Greater
        } else {
            compare_quotients(
                self.num.unsigned_abs(),
                self.den,
                right.num.unsigned_abs(),
                right.den,
            )
        }
    }
}
