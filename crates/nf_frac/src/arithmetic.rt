// The four operations on fractions. Each returns the exact result, or an error with its operands if it exceeds the bound.
ghost use Rattle.std.specs.Prelude.{◌≡◌, ◌≢◌, IfSome};
ghost use Rattle.nf_rational.specs.Operations.{0ℚ, 1ℚ, neg_ℚ};
ghost use Rattle.nf_frac_def.specs.declared.Op.TheVariants.{Sum, Difference, Product, Quotient};
ghost use Rattle.nf_frac_def.specs.Passing.{bound_of, beyond};
ghost use Rattle.nf_frac_def.specs.Checked.{checked};
ghost use Rattle.nf_frac.specs.Short.{AreSmall};

use crate::fraction::{Frac, bound};
use crate::lowest::Lowest;
use crate::small::Small;
use nf_frac_def::{Op, Passed};

impl<const BITS: u32> Frac<BITS> {
    // Returns both values as small numbers, if they are small and the bound is the widest. No operation on them exceeds this bound.
    fn small_pair(self, right: Frac<BITS>) -> Option<(Small, Small)>
        ensures { IfSome result (λ pair. AreSmall (bound_of BITS) self.entry right.entry pair) }
    {
        if BITS < 127 {
            return None;
        }
        let left = self.value.small()?;
        let right = right.value.small()?;
        Some((left, right))
    }

    /// Returns 0.
    pub fn zero() -> Frac<BITS>
        ensures { result ≡ 0ℚ }
    {
        Frac {
            value: Lowest::natural(0),
        }
    }

    /// Returns 1.
    pub fn one() -> Frac<BITS>
        ensures { result ≡ 1ℚ }
    {
        Frac {
            value: Lowest::natural(1),
        }
    }

    /// Returns the exact sum, computed over the least common denominator. Returns an error with the operands exactly if this
    /// denominator, one of the two numerators scaled to it, or their sum exceeds the bound in magnitude.
    pub fn sum(self, right: Frac<BITS>) -> Result<Frac<BITS>, Passed<Frac<BITS>>>
        ensures { result ≡ checked (beyond (bound_of BITS)) Sum self.entry right.entry }
    {
        if let Some((x, y)) = self.small_pair(right) {
            return Ok(Frac { value: x.plus(y) });
        }
        self.wide_sum(&right)
    }

    // Returns the sum for numbers of any length. It is rarely needed, so it stays out of the callers' code.
    #[cold]
    #[inline(never)]
    fn wide_sum(&self, right: &Frac<BITS>) -> Result<Frac<BITS>, Passed<Frac<BITS>>>
        ensures { result ≡ checked (beyond (bound_of BITS)) Sum self.now right.now }
    {
        match self.value.sum(right.value, bound(BITS)) {
            Some(value) => Ok(Frac { value }),
            None => Err(Passed {
                op: Op::Sum,
                left: *self,
                right: *right,
            }),
        }
    }

    /// Returns the exact difference. Returns an error with the operands exactly if the sum of the left value and the negated right
    /// value does.
    pub fn difference(self, right: Frac<BITS>) -> Result<Frac<BITS>, Passed<Frac<BITS>>>
        ensures { result ≡ checked (beyond (bound_of BITS)) Difference self.entry right.entry }
    {
        if let Some((x, y)) = self.small_pair(right) {
            return Ok(Frac {
                value: x.plus(y.negated()),
            });
        }
        self.wide_difference(&right)
    }

    // Returns the difference for numbers of any length, as `wide_sum`.
    #[cold]
    #[inline(never)]
    fn wide_difference(&self, right: &Frac<BITS>) -> Result<Frac<BITS>, Passed<Frac<BITS>>>
        ensures { result ≡ checked (beyond (bound_of BITS)) Difference self.now right.now }
    {
        match self.value.sum(right.value.negated(), bound(BITS)) {
            Some(value) => Ok(Frac { value }),
            None => Err(Passed {
                op: Op::Difference,
                left: *self,
                right: *right,
            }),
        }
    }

    /// Returns the negated value.
    pub fn negated(self) -> Frac<BITS>
        ensures { result ≡ neg_ℚ self.entry }
    {
        Frac {
            value: self.value.negated(),
        }
    }

    /// Returns the exact product. Returns an error with the operands exactly if the numerator or denominator of the reduced product
    /// exceeds the bound in magnitude.
    pub fn product(self, right: Frac<BITS>) -> Result<Frac<BITS>, Passed<Frac<BITS>>>
        ensures { result ≡ checked (beyond (bound_of BITS)) Product self.entry right.entry }
    {
        if let Some((x, y)) = self.small_pair(right) {
            return Ok(Frac {
                value: x.multiplied(y),
            });
        }
        self.wide_product(&right)
    }

    // Returns the product for numbers of any length, as `wide_sum`.
    #[cold]
    #[inline(never)]
    fn wide_product(&self, right: &Frac<BITS>) -> Result<Frac<BITS>, Passed<Frac<BITS>>>
        ensures { result ≡ checked (beyond (bound_of BITS)) Product self.now right.now }
    {
        match self.value.product(right.value, bound(BITS)) {
            Some(value) => Ok(Frac { value }),
            None => Err(Passed {
                op: Op::Product,
                left: *self,
                right: *right,
            }),
        }
    }

    /// Returns the exact quotient by a value that is not 0. Returns an error with the operands exactly if the numerator or
    /// denominator of the reduced quotient exceeds the bound in magnitude.
    pub fn quotient(self, right: Frac<BITS>) -> Result<Frac<BITS>, Passed<Frac<BITS>>>
        requires { right ≢ 0ℚ }
        ensures { result ≡ checked (beyond (bound_of BITS)) Quotient self.entry right.entry }
    {
        if let Some((x, y)) = self.small_pair(right) {
            return Ok(Frac {
                value: x.multiplied(y.inverted()),
            });
        }
        self.wide_quotient(&right)
    }

    // Returns the quotient for numbers of any length, as `wide_sum`.
    #[cold]
    #[inline(never)]
    fn wide_quotient(&self, right: &Frac<BITS>) -> Result<Frac<BITS>, Passed<Frac<BITS>>>
        requires { right.now ≢ 0ℚ }
        ensures { result ≡ checked (beyond (bound_of BITS)) Quotient self.now right.now }
    {
        match self.value.product(right.value.inverted(), bound(BITS)) {
            Some(value) => Ok(Frac { value }),
            None => Err(Passed {
                op: Op::Quotient,
                left: *self,
                right: *right,
            }),
        }
    }
}
