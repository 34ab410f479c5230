// `Scalar` for small numbers: an operation exceeds the bound exactly if it does for fractions with 63 bits.
ghost use Rattle.std.specs.Prelude.{◌≡◌, ◌≢◌, refl};
ghost use Rattle.nf_rational.specs.Operations.{0ℚ, 1ℚ};
ghost use Rattle.nf_frac_def.specs.declared.Op.TheVariants.{Sum, Difference, Product, Quotient};
ghost use Rattle.nf_frac_def.specs.Passing.{bound_of, beyond};
ghost use Rattle.nf_frac_def.specs.Checked.{checked, seen};
ghost use Rattle.nf_frac.specs.Total.{cmp_total, same_values, sum_keeps_cmp, product_keeps_cmp, same_small_input};

use crate::scalar::Scalar;
use crate::small::Small;
use nf_frac_def::{Op, Passed};

impl Scalar for Small {
    ghost means = { λ q. q };

    ghost passes = { beyond (bound_of 63) };

    ghost equal_by_meaning = { same_values };

    ghost ordered = { cmp_total };

    ghost ordered_by_meaning = { λ x y. refl };

    ghost sums_keep_order = { sum_keeps_cmp };

    ghost products_keep_order = { product_keeps_cmp };

    ghost equal_hash = { same_small_input };

    /// Returns 0.
    fn zero() -> Self {
        Small::of(0, 1)
    }

    /// Returns 1.
    fn one() -> Self {
        Small::of(1, 1)
    }

    /// Returns the exact sum. Returns an error with the operands exactly if the least common denominator, one of the two numerators
    /// scaled to it, or their sum exceeds 2^63 - 1 in magnitude.
    fn sum(self, right: Self) -> Result<Self, Passed<Self>> {
        match self.short_sum(right) {
            Some(value) => Ok(value),
            None => Err(Passed {
                op: Op::Sum,
                left: self,
                right,
            }),
        }
    }

    /// Returns the exact difference. Returns an error with the operands exactly if the sum of the left value and the negated right
    /// value does.
    fn difference(self, right: Self) -> Result<Self, Passed<Self>> {
        match self.short_sum(right.negated()) {
            Some(value) => Ok(value),
            None => Err(Passed {
                op: Op::Difference,
                left: self,
                right,
            }),
        }
    }

    /// Returns the exact product. Returns an error with the operands exactly if the numerator or denominator of the reduced product
    /// exceeds 2^63 - 1 in magnitude.
    fn product(self, right: Self) -> Result<Self, Passed<Self>> {
        match self.short_product(right) {
            Some(value) => Ok(value),
            None => Err(Passed {
                op: Op::Product,
                left: self,
                right,
            }),
        }
    }

    /// Returns the exact quotient by a value that is not 0. Returns an error with the operands exactly if the numerator or
    /// denominator of the reduced quotient exceeds 2^63 - 1 in magnitude.
    fn quotient(self, right: Self) -> Result<Self, Passed<Self>> {
        match self.short_product(right.inverted()) {
            Some(value) => Ok(value),
            None => Err(Passed {
                op: Op::Quotient,
                left: self,
                right,
            }),
        }
    }
}
