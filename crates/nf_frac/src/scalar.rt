// The operations of the type that amounts, times and rates have.
ghost use Rattle.std.specs.Prelude.{◌≡◌, ◌≢◌, ◌↔◌, IsTrue, refl};
ghost use Rattle.std.specs.Cmp.{IsTotalOrder};
ghost use Rattle.nf_rational.specs.Rational.{ℚ};
ghost use Rattle.nf_rational.specs.Operations.{0ℚ, 1ℚ, ◌+ℚ◌, ◌*ℚ◌};
ghost use Rattle.nf_rational.specs.Order.{◌<ℚ◌, cmp_ℚ};
ghost use Rattle.nf_frac_def.specs.declared.Op.TheVariants.{Sum, Difference, Product, Quotient};
ghost use Rattle.nf_frac_def.specs.Passing.{Passing, bound_of, beyond};
ghost use Rattle.nf_frac_def.specs.Checked.{checked, seen};
ghost use Rattle.nf_frac.specs.Total.{cmp_total, same_values, sum_keeps_cmp, product_keeps_cmp, same_input};

use crate::fraction::Frac;
use nf_frac_def::Passed;
use std::hash::Hash;

/// Rational numbers with exact operations, each of which may exceed a bound. Each value stands for a rational number, and results
/// depend on these numbers alone.
pub trait Scalar: Copy + Eq + Ord + Hash {
    // The rational number of a value.
    ghost means: { Self → ℚ };

    // Whether an operation exceeds the bound on these operands.
    ghost passes: { Passing };

    /// Returns 0.
    fn zero() -> Self
        ensures { means result ≡ 0ℚ };

    /// Returns 1.
    fn one() -> Self
        ensures { means result ≡ 1ℚ };

    /// Returns the exact sum, or an error with the operands if the sum exceeds the bound.
    fn sum(self, right: Self) -> Result<Self, Passed<Self>>
        ensures { seen means means result ≡ checked passes Sum (means self) (means right) };

    /// Returns the exact difference, or an error with the operands if the difference exceeds the bound.
    fn difference(self, right: Self) -> Result<Self, Passed<Self>>
        ensures { seen means means result ≡ checked passes Difference (means self) (means right) };

    /// Returns the exact product, or an error with the operands if the product exceeds the bound.
    fn product(self, right: Self) -> Result<Self, Passed<Self>>
        ensures { seen means means result ≡ checked passes Product (means self) (means right) };

    /// Returns the exact quotient by a value that is not 0, or an error with the operands if the quotient exceeds the bound.
    fn quotient(self, right: Self) -> Result<Self, Passed<Self>>
        requires { means right ≢ 0ℚ }
        ensures { seen means means result ≡ checked passes Quotient (means self) (means right) };

    // Values are equal exactly if their numbers are.
    ghost equal_by_meaning: { (x y : Self) → IsTrue (Self.eq x y) ↔ (means x ≡ means y) };

    // The order is total. It is the order of the numbers.
    ghost ordered: { IsTotalOrder Self.cmp };

    ghost ordered_by_meaning: { (x y : Self) → Self.cmp x y ≡ cmp_ℚ (means x) (means y) };

    // Adding a value to both sides preserves the order. So does multiplying both sides by a positive value.
    ghost sums_keep_order: { (x y z s t : Self) → means s ≡ means x +ℚ means z → means t ≡ means y +ℚ means z
        → Self.cmp s t ≡ Self.cmp x y };

    ghost products_keep_order: { (x y k s t : Self) → 0ℚ <ℚ means k → means s ≡ means x *ℚ means k → means t ≡ means y *ℚ means k
        → Self.cmp s t ≡ Self.cmp x y };

    // Equal values have equal hashes.
    ghost equal_hash: { (x y : Self) → means x ≡ means y → Self.hash_input x ≡ Self.hash_input y };
}

impl<const BITS: u32> Scalar for Frac<BITS> {
    ghost means = { λ q. q };

    ghost passes = { beyond (bound_of BITS) };

    ghost equal_by_meaning = { same_values };

    ghost ordered = { cmp_total };

    ghost ordered_by_meaning = { λ x y. refl };

    ghost sums_keep_order = { sum_keeps_cmp };

    ghost products_keep_order = { product_keeps_cmp };

    ghost equal_hash = { same_input };

    fn zero() -> Self {
        Frac::zero()
    }

    fn one() -> Self {
        Frac::one()
    }

    fn sum(self, right: Self) -> Result<Self, Passed<Self>> {
        Frac::sum(self, right)
    }

    fn difference(self, right: Self) -> Result<Self, Passed<Self>> {
        Frac::difference(self, right)
    }

    fn product(self, right: Self) -> Result<Self, Passed<Self>> {
        Frac::product(self, right)
    }

    fn quotient(self, right: Self) -> Result<Self, Passed<Self>> {
        Frac::quotient(self, right)
    }
}
