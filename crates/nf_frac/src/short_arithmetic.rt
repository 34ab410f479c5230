// Sums and products of small numbers that are small too, in 64-bit arithmetic.
ghost use Rattle.std.specs.Prelude.{◌≡◌, ◌<◌, ◌≤◌, pos, ◌*ℤ◌, nat_abs, SomeIff};
ghost use Rattle.nf_rational.specs.Gcd.{gcd};
ghost use Rattle.nf_rational.specs.Rational.{ratio};
ghost use Rattle.nf_rational.specs.Operations.{◌+ℚ◌, ◌*ℚ◌};
ghost use Rattle.nf_frac.specs.Parts.{IsWithin, SumFits};
ghost use Rattle.nf_frac.specs.Short.{short};

use crate::short::{
    added_short, common_factor, divided_short, multiplied_short, part_of, product_short,
};
use crate::small::Small;

impl Small {
    // Returns the numerator over the denominator, reduced. Their common factors are those of the numerator and `common`.
    fn over(num: i64, den: u64, common: u64) -> Small
        requires positive { 0 < den }
        requires some { 0 < common }
        requires bounded { common ≤ short }
        requires small { nat_abs num ≤ short }
        requires small_den { den ≤ short }
        requires factor { gcd (nat_abs num) common ≡ gcd (nat_abs num) den }
        ensures { result ≡ ratio num den }
    {
        let rest = common_factor(num.unsigned_abs(), common);
        Small::of(part_of(num, rest), divided_short(den, rest))
    }

    // Returns the numerator times a factor. Returns None exactly if the product exceeds 2^63 - 1 in magnitude.
    fn scaled(self, factor: u64) -> Option<i64>
        requires { factor ≤ short }
        ensures { SomeIff result (nat_abs (self.num *ℤ pos factor) ≤ short)
            (self.num *ℤ pos factor) }
    {
        multiplied_short(self.numer(), factor as i64)
    }

    // Returns the sum of two numbers with equal denominators.
    fn level_sum(self, right: Small) -> Option<Small>
        requires { self.den ≡ right.den }
        ensures { SomeIff result (SumFits short self right) (self +ℚ right) }
    {
        let den = self.denom();
        let num = added_short(self.numer(), right.numer())?;
        Some(Small::over(num, den, den))
    }

    // Returns the sum, computed over the least common denominator. Returns None exactly if a number in this computation exceeds
    // 2^63 - 1.
    pub(crate) fn short_sum(self, right: Small) -> Option<Small>
        ensures { SomeIff result (SumFits short self right) (self +ℚ right) }
    {
        let den = self.denom();
        let right_den = right.denom();
        if den == right_den {
            return self.level_sum(right);
        }
        let common = common_factor(den, right_den);
        let left_factor = divided_short(right_den, common);
        let right_factor = divided_short(den, common);
        let low = product_short(den, left_factor)?;
        let left_part = self.scaled(left_factor)?;
        let right_part = right.scaled(right_factor)?;
        let num = added_short(left_part, right_part)?;
        Some(Small::over(num, low, common))
    }

    // Returns the product of two whole numbers.
    fn whole_product(self, right: Small) -> Option<Small>
        requires left { self.den ≡ 1 }
        requires right { right.den ≡ 1 }
        ensures { SomeIff result (IsWithin short (self *ℚ right)) (self *ℚ right) }
    {
        let num = multiplied_short(self.numer(), right.numer())?;
        Some(Small::of(num, 1))
    }

    // Returns the product: each numerator is reduced with the other denominator before the multiplication. Returns None exactly
    // if a part of the reduced product exceeds 2^63 - 1.
    pub(crate) fn short_product(self, right: Small) -> Option<Small>
        ensures { SomeIff result (IsWithin short (self *ℚ right)) (self *ℚ right) }
    {
        if self.denom() == 1 && right.denom() == 1 {
            return self.whole_product(right);
        }
        let left = self.common_with(right);
        let other = right.common_with(self);
        let num = multiplied_short(part_of(self.numer(), left), part_of(right.numer(), other))?;
        let den = product_short(
            divided_short(self.denom(), other),
            divided_short(right.denom(), left),
        )?;
        Some(Small::of(num, den))
    }
}
