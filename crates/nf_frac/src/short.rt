// Arithmetic of whole numbers of at most 63 bits.
ghost use Rattle.std.specs.Prelude.{◌≡◌, ◌*◌, ◌/◌, ◌<◌, ◌≤◌, pos, ◌+ℤ◌, ◌*ℤ◌, nat_abs, int_div, SomeIff};
ghost use Rattle.nf_rational.specs.Gcd.{gcd};
ghost use Rattle.nf_frac.specs.Parts.{signed};
ghost use Rattle.nf_frac.specs.Short.{short};

use crate::whole::gcd_short;

// The greatest part of a small number.
pub(crate) const SHORT: u64 = 0x7fff_ffff_ffff_ffff;

/// Returns the greatest common divisor. No division is needed if b is 1 or both numbers are equal.
pub(crate) fn common_factor(a: u64, b: u64) -> u64
    ensures value { result ≡ gcd a b }
    ensures positive { 0 < b → 0 < result }
    ensures small { 0 < b → result ≤ b }
{
    if b == 1 {
        1
    } else if a == b {
        b
    } else {
        gcd_short(a, b)
    }
}

/// Returns the quotient of two natural numbers, rounded down.
pub(crate) fn divided_short(a: u64, b: u64) -> u64
    requires { 0 < b }
    ensures { result ≡ a / b }
{
    if b == 1 {
        a
    } else if a == b {
        1
    } else {
        a / b
    }
}

/// Returns the whole number with this sign and magnitude.
pub(crate) fn signed_short(negative: bool, magnitude: u64) -> i64
    requires { magnitude ≤ short }
    ensures { result ≡ signed negative magnitude }
{
    if negative {
        -(magnitude as i64)
    } else {
        magnitude as i64
    }
}

/// Returns the product.
pub(crate) fn times(a: i64, b: u64) -> i128
    requires small { nat_abs a ≤ short }
    requires short { b ≤ short }
    ensures { result ≡ a *ℤ pos b }
{
    a as i128 * (b as i64) as i128
}

/// Returns the greatest common divisor of a number of any length and a short one.
pub(crate) fn rest_factor(a: u128, b: u64) -> u64
    requires { 0 < b }
    ensures value { result ≡ gcd a b }
    ensures positive { 0 < result }
    ensures small { result ≤ b }
{
    if b == 1 {
        1
    } else if a <= u64::MAX as u128 {
        gcd_short(a as u64, b)
    } else {
        gcd_short(b, (a % b as u128) as u64)
    }
}

/// Returns the quotient, rounded toward zero.
pub(crate) fn part_of(a: i64, b: u64) -> i64
    requires positive { 0 < b }
    requires bounded { b ≤ short }
    ensures { result ≡ int_div a (pos b) }
{
    if b == 1 { a } else { a / b as i64 }
}

/// Returns the product of two short signed numbers.
pub(crate) fn wide_product(a: i64, b: i64) -> i128
    requires left { nat_abs a ≤ short }
    requires right { nat_abs b ≤ short }
    ensures { result ≡ a *ℤ b }
{
    a as i128 * b as i128
}

/// Returns the sum of two short signed numbers.
pub(crate) fn wide_sum(a: i64, b: i64) -> i128
    requires left { nat_abs a ≤ short }
    requires right { nat_abs b ≤ short }
    ensures { result ≡ a +ℤ b }
{
    a as i128 + b as i128
}

/// Returns the product of two natural numbers.
pub(crate) fn widened(a: u64, b: u64) -> u128
    ensures { result ≡ a * b }
{
    a as u128 * b as u128
}

/// Returns the product of two natural numbers. Returns None exactly if it exceeds 2^63 - 1.
pub(crate) fn product_short(a: u64, b: u64) -> Option<u64>
    ensures { SomeIff result (a * b ≤ short) (a * b) }
{
    match a.checked_mul(b) {
        Some(product) if product <= SHORT => Some(product),
        _ => None,
    }
}

/// Returns the product. Returns None exactly if its magnitude exceeds 2^63 - 1.
pub(crate) fn multiplied_short(a: i64, b: i64) -> Option<i64>
    ensures { SomeIff result (nat_abs (a *ℤ b) ≤ short) (a *ℤ b) }
{
    match a.checked_mul(b) {
        Some(product) if product.unsigned_abs() <= SHORT => Some(product),
        _ => None,
    }
}

/// Returns the sum. Returns None exactly if its magnitude exceeds 2^63 - 1.
pub(crate) fn added_short(a: i64, b: i64) -> Option<i64>
    ensures { SomeIff result (nat_abs (a +ℤ b) ≤ short) (a +ℤ b) }
{
    match a.checked_add(b) {
        Some(sum) if sum.unsigned_abs() <= SHORT => Some(sum),
        _ => None,
    }
}
