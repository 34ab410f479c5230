// Lengths of paths. Nearly all are whole numbers, which an `i64` holds without a denominator.
ghost use Rattle.std.specs.Prelude.{◌≡◌, ◌≤◌, nat_abs, ◌+ℤ◌, ◌-ℤ◌, SomeIff, IfSome};
ghost use Rattle.nf_rational.specs.Operations.{whole};
ghost use Rattle.nf_rational.specs.Order.{cmp_ℚ};
ghost use Rattle.nf_frac_def.specs.declared.Part.TheVariants.{Quick};
ghost use Rattle.nf_frac_def.specs.Passing.{passes_Q};
ghost use Rattle.nf_frac_def.specs.Checked.{checked_at};
ghost use Rattle.nf_quick_def.specs.Rounds.{op_of};
ghost use Rattle.nf_residual.specs.Lengths.{longest_whole, along_by, measured, IsHeldWhole, IsExactStep};

use crate::step::changed;
use nf_frac::{PassedAt, Q};
use std::cmp::Ordering;
use std::marker::Model;

// The greatest magnitude of a length held as an `i64`, 2^62 - 1.
const MOST: u64 = 0x3fff_ffff_ffff_ffff;

#[derive(Drop)]
enum Form {
    Whole(i64),
    Other(Q),
}

/// The length of a path or of a step, a time.
#[derive(Drop)]
pub(crate) struct Length {
    form: Form,
}

impl Model for Length {
    ghost use Rattle.nf_rational.specs.Rational.{ℚ};
    ghost use Rattle.nf_residual.specs.Lengths.{measured, IsHeldWhole};

    ghost Value = { ℚ };

    ghost view = { λ l. measured l.form };

    ghost invariant = { λ l. IsHeldWhole l.form };
}

// Returns the sum, or None exactly if its magnitude exceeds 2^62 - 1.
#[inline(always)]
fn added(a: i64, b: i64) -> Option<i64>
    ensures { SomeIff result (nat_abs (a +ℤ b) ≤ longest_whole) (a +ℤ b) }
{
    match a.checked_add(b) {
        Some(sum) if sum.unsigned_abs() <= MOST => Some(sum),
        _ => None,
    }
}

// Returns the difference, or None exactly if its magnitude exceeds 2^62 - 1.
#[inline(always)]
fn taken(a: i64, b: i64) -> Option<i64>
    ensures { SomeIff result (nat_abs (a -ℤ b) ≤ longest_whole) (a -ℤ b) }
{
    match a.checked_sub(b) {
        Some(difference) if difference.unsigned_abs() <= MOST => Some(difference),
        _ => None,
    }
}

// Returns the sum for a forward step and the difference for a backward one, or None exactly if its magnitude exceeds 2^62 - 1.
#[inline(always)]
fn along(forward: bool, a: i64, b: i64) -> Option<i64>
    ensures { SomeIff result (nat_abs (along_by forward a b) ≤ longest_whole) (along_by forward a b) }
{
    if forward { added(a, b) } else { taken(a, b) }
}

// Returns the whole number equal to `value`, of magnitude at most 2^62 - 1. The contract allows None for any value, and the caller then
// keeps the fraction.
fn counted(value: Q) -> Option<i64>
    ensures { IfSome result (λ n. (nat_abs n ≤ longest_whole) × (whole n ≡ value)) }
{
    let number = value.numer();
    if value.denom() == 1 && number.unsigned_abs() <= MOST as u128 {
        Some(number as i64)
    } else {
        None
    }
}

// Returns the whole number as a fraction.
fn fraction(number: i64) -> Q
    requires { nat_abs number ≤ longest_whole }
    ensures { result ≡ whole number }
{
    Q::make(number as i128, 1).unwrap()
}

impl Length {
    /// Returns the length with this value, a time.
    pub(crate) fn of(value: Q) -> Length
        ensures { result ≡ value }
    {
        match counted(value) {
            Some(number) => Length {
                form: Form::Whole(number),
            },
            None => Length {
                form: Form::Other(value),
            },
        }
    }

    /// Returns the value of the length, a time.
    pub(crate) fn value(&self) -> Q
        ensures { result ≡ self.now }
    {
        match &self.form {
            Form::Whole(number) => fraction(*number),
            Form::Other(value) => *value,
        }
    }

    /// Returns the whole number that a forward or backward step of this transit time changes the length to, if both lengths and the result are
    /// held as whole numbers. A returned number implies that the checked operation does not exceed its bound.
    #[inline(always)]
    pub(crate) fn whole_change(&self, forward: bool, transit: &Length) -> Option<i64>
        ensures { IfSome result
            (λ n. (nat_abs n ≤ longest_whole) × IsExactStep forward self.now transit.now (whole n)) }
    {
        if let Form::Whole(number) = &self.form {
            if let Form::Whole(change) = &transit.form {
                return along(forward, *number, *change);
            }
        }
        None
    }

    /// Returns the length of this whole number.
    #[inline(always)]
    pub(crate) fn of_whole(number: i64) -> Length
        requires { nat_abs number ≤ longest_whole }
        ensures { result ≡ whole number }
    {
        Length {
            form: Form::Whole(number),
        }
    }

    /// Compares a whole number with the length by their values.
    #[inline(always)]
    pub(crate) fn compare_whole(number: i64, other: &Length) -> Ordering
        requires { nat_abs number ≤ longest_whole }
        ensures { result ≡ cmp_ℚ (whole number) other.now }
    {
        match &other.form {
            Form::Whole(right) => number.cmp(right),
            Form::Other(right) => fraction(number).cmp(right),
        }
    }

    /// Returns the length after a forward step of this transit time, which adds it, or a backward step, which subtracts it. Refuses with
    /// Passed, of the part Quick, exactly if the operation exceeds its bound.
    pub(crate) fn changed(&self, forward: bool, transit: &Length) -> Result<Length, PassedAt<Q>>
        ensures { result ≡ checked_at passes_Q Quick (op_of forward) self.now transit.now }
    {
        let value = changed(forward, self.value(), transit.value())?;
        Ok(Length::of(value))
    }

    /// Compares the two lengths by their values.
    pub(crate) fn compare(&self, other: &Length) -> Ordering
        ensures { result ≡ cmp_ℚ self.now other.now }
    {
        self.value().cmp(&other.value())
    }
}
