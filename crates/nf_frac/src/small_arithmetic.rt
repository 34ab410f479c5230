// The operations on small numbers. None can fail: every intermediate number has at most 127 bits.
ghost use Rattle.std.specs.Prelude.{◌≡◌, ◌≢◌, SomeIff};
ghost use Rattle.nf_rational.specs.Operations.{0ℚ, ◌+ℚ◌, ◌-ℚ◌, ◌*ℚ◌, ◌/ℚ◌, inv_ℚ};
ghost use Rattle.nf_frac.specs.Parts.{IsWithin};
ghost use Rattle.nf_frac.specs.Short.{short};

use crate::fraction::{Frac, Q};
use crate::lowest::Lowest;
use crate::short::{
    common_factor, divided_short, part_of, rest_factor, times, wide_product, wide_sum, widened,
};
use crate::small::Small;
use crate::whole::shortened;

impl Small {
    // Returns the sum, over the least common denominator.
    pub(crate) fn plus(self, right: Small) -> Lowest
        ensures { result ≡ self +ℚ right }
    {
        let den = self.denom();
        let right_den = right.denom();
        if den == right_den {
            return self.level_plus(right);
        }
        let num = self.numer();
        let right_num = right.numer();
        if num == 0 {
            return right.lowest();
        }
        if right_num == 0 {
            return self.lowest();
        }
        let common = common_factor(den, right_den);
        let left_factor = divided_short(right_den, common);
        let right_factor = divided_short(den, common);
        let total = times(num, left_factor) + times(right_num, right_factor);
        let rest = rest_factor(total.unsigned_abs(), common);
        Lowest::of(
            shortened(total, rest as u128),
            widened(divided_short(den, rest), left_factor),
        )
    }

    // Returns the sum of two numbers with equal denominators.
    fn level_plus(self, right: Small) -> Lowest
        requires { self.den ≡ right.den }
        ensures { result ≡ self +ℚ right }
    {
        let den = self.denom() as u128;
        Lowest::over(wide_sum(self.numer(), right.numer()), den, den)
    }

    // Returns the product: each numerator is reduced with the other denominator before the multiplication.
    pub(crate) fn multiplied(self, right: Small) -> Lowest
        ensures { result ≡ self *ℚ right }
    {
        let left = self.common_with(right);
        let other = right.common_with(self);
        Lowest::of(
            wide_product(part_of(self.numer(), left), part_of(right.numer(), other)),
            widened(
                divided_short(self.denom(), other),
                divided_short(right.denom(), left),
            ),
        )
    }

    /// Returns the same value as a `Q`.
    pub fn wide(self) -> Q
        ensures { result ≡ self }
    {
        Frac {
            value: self.lowest(),
        }
    }

    /// Returns the exact sum, which always fits a `Q`.
    pub fn sum(self, right: Small) -> Q
        ensures { result ≡ self +ℚ right }
    {
        Frac {
            value: self.plus(right),
        }
    }

    /// Returns the exact difference, which always fits a `Q`.
    pub fn difference(self, right: Small) -> Q
        ensures { result ≡ self -ℚ right }
    {
        Frac {
            value: self.plus(right.negated()),
        }
    }

    /// Returns the exact product, which always fits a `Q`.
    pub fn product(self, right: Small) -> Q
        ensures { result ≡ self *ℚ right }
    {
        Frac {
            value: self.multiplied(right),
        }
    }

    /// Returns the exact quotient by a value that is not 0. It always fits a `Q`.
    pub fn quotient(self, right: Small) -> Q
        requires { right ≢ 0ℚ }
        ensures { result ≡ self /ℚ right }
    {
        Frac {
            value: self.multiplied(right.inverted()),
        }
    }
}

impl Frac<127> {
    /// Returns the same value as a `Small`. Returns None exactly if the numerator or denominator exceeds 2^63 - 1 in magnitude.
    pub fn small(self) -> Option<Small>
        ensures { SomeIff result (IsWithin short self) self }
    {
        self.value.small()
    }
}
