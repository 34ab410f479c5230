// Arithmetic of whole numbers within a limit. Numbers of at most 64 bits, by far the most common, are handled in 64 bits.
ghost use Rattle.std.specs.Prelude.{◌≡◌, ℕ, ◌*◌, ◌/◌, ◌%◌, ◌-◌, ◌^◌, ◌<◌, ◌≤◌, pos, ◌+ℤ◌, ◌*ℤ◌, nat_abs, int_div, SomeIff};
ghost use Rattle.std.specs.Int.{IsGcd, trailing_zeros};
ghost use Rattle.std.specs.Ordering.{nat_cmp};
ghost use mir.Syntax.{w64};
ghost use Rattle.nf_rational.specs.Gcd.{gcd};
ghost use Rattle.nf_frac.specs.Parts.{greatest, signed};

use crate::short;
use std::cmp::Ordering;

// The greatest number of 63 bits.
const SHORT: u128 = short::SHORT as u128;

// The greatest number of 64 bits.
const WORD: u128 = 0xffff_ffff_ffff_ffff;

// Returns the odd part: the number without its factors 2.
fn odd_part(n: u64) -> u64
    requires { 0 < n }
    ensures power { n ≡ 2 ^ trailing_zeros w64 n * result }
    ensures odd { result % 2 ≡ 1 }
    ensures small { result ≤ n }
{
    n >> n.trailing_zeros()
}

// Returns the greatest common divisor of two odd numbers.
fn gcd_odd(a: u64, b: u64) -> u64
    requires left { a % 2 ≡ 1 }
    requires right { b % 2 ≡ 1 }
    ensures { result ≡ gcd a b }
{
    let mut x = a;
    let mut y = b;
    while x != y {
        let less = x.min(y);
        if less == 1 {
            return 1;
        }
        y = odd_part(x.max(y) - less);
        x = less;
    }
    x
}

// Returns the greatest common divisor of two positive numbers, from that of their odd parts.
fn gcd_halving(a: u64, b: u64) -> u64
    requires left { 0 < a }
    requires right { 0 < b }
    ensures { result ≡ gcd a b }
{
    let twos = a.trailing_zeros().min(b.trailing_zeros());
    gcd_odd(odd_part(a), odd_part(b)) << twos
}

/// Returns the greatest common divisor of two 64-bit numbers. One division comes first.
pub(crate) fn gcd_short(a: u64, b: u64) -> u64
    ensures { result ≡ gcd a b }
{
    if b == 0 {
        return a;
    }
    let rest = a % b;
    if rest == 0 { b } else { gcd_halving(b, rest) }
}

// Returns the greatest common divisor of two numbers of any length. It continues in 64 bits once both numbers fit them.
fn gcd_long(a: u128, b: u128) -> u128
    ensures { result ≡ gcd a b }
{
    let mut x = a;
    let mut y = b;
    while y > WORD {
        let rest = x % y;
        x = y;
        y = rest;
    }
    if y == 0 {
        x
    } else {
        gcd_short(y as u64, (x % y) as u64) as u128
    }
}

/// Returns the greatest common divisor.
pub(crate) fn gcd_of(a: u128, b: u128) -> u128
    ensures value { result ≡ gcd a b }
    ensures positive { 0 < b → 0 < result }
    ensures small { 0 < b → result ≤ b }
{
    if b == 1 {
        1
    } else if a <= WORD && b <= WORD {
        gcd_short(a as u64, b as u64) as u128
    } else {
        gcd_long(a, b)
    }
}

/// Returns the quotient of two natural numbers, rounded down.
pub(crate) fn divided(a: u128, b: u128) -> u128
    requires { 0 < b }
    ensures { result ≡ a / b }
{
    if b == 1 {
        a
    } else if a <= WORD && b <= WORD {
        (a as u64 / b as u64) as u128
    } else {
        a / b
    }
}

/// Returns the quotient, rounded toward zero.
pub(crate) fn shortened(a: i128, b: u128) -> i128
    requires positive { 0 < b }
    requires bounded { b ≤ greatest }
    ensures { result ≡ int_div a (pos b) }
{
    if b == 1 {
        a
    } else if a.unsigned_abs() <= SHORT && b <= SHORT {
        (a as i64 / b as i64) as i128
    } else {
        a / b as i128
    }
}

/// Returns the whole number with this sign and magnitude.
pub(crate) fn with_sign(negative: bool, magnitude: u128) -> i128
    requires { magnitude ≤ greatest }
    ensures { result ≡ signed negative magnitude }
{
    if negative {
        -(magnitude as i128)
    } else {
        magnitude as i128
    }
}

/// Returns the product. Returns None exactly if it exceeds the limit.
pub(crate) fn product(a: u128, b: u128, limit: u128) -> Option<u128>
    ensures { SomeIff result (a * b ≤ limit) (a * b) }
{
    if a <= SHORT && b <= SHORT {
        let product = a * b;
        if product <= limit {
            Some(product)
        } else {
            None
        }
    } else {
        match a.checked_mul(b) {
            Some(product) if product <= limit => Some(product),
            _ => None,
        }
    }
}

/// Returns the product. Returns None exactly if its magnitude exceeds the limit.
pub(crate) fn multiplied(a: i128, b: i128, limit: u128) -> Option<i128>
    requires { limit ≤ greatest }
    ensures { SomeIff result (nat_abs (a *ℤ b) ≤ limit) (a *ℤ b) }
{
    if a.unsigned_abs() <= SHORT && b.unsigned_abs() <= SHORT {
        let product = a * b;
        if product.unsigned_abs() <= limit {
            Some(product)
        } else {
            None
        }
    } else {
        match a.checked_mul(b) {
            Some(product) if product.unsigned_abs() <= limit => Some(product),
            _ => None,
        }
    }
}

/// Returns the sum. Returns None exactly if its magnitude exceeds the limit.
pub(crate) fn added(a: i128, b: i128, limit: u128) -> Option<i128>
    requires { limit ≤ greatest }
    ensures { SomeIff result (nat_abs (a +ℤ b) ≤ limit) (a +ℤ b) }
{
    match a.checked_add(b) {
        Some(sum) if sum.unsigned_abs() <= limit => Some(sum),
        _ => None,
    }
}

// Returns the order of a/b and c/d for numbers of any length: by the quotients, and if these are equal by the remainders.
fn compare_long(a: u128, b: u128, c: u128, d: u128) -> Ordering
    requires left { 0 < b }
    requires right { 0 < d }
    ensures { result ≡ nat_cmp (a * d) (c * b) }
{
    let mut above = a;
    let mut below = b;
    let mut other_above = c;
    let mut other_below = d;
    loop {
        let whole = above / below;
        let other_whole = other_above / other_below;
        if whole != other_whole {
            return whole.cmp(&other_whole);
        }
        let rest = above % below;
        let other_rest = other_above % other_below;
        if rest == 0 || other_rest == 0 {
            return rest.cmp(&other_rest);
        }
        // equal quotients: compare the reciprocals of the remainders, in the opposite order
        above = other_below;
        other_above = below;
        below = other_rest;
        other_below = rest;
    }
}

/// Returns the order of a/b and c/d. No product exceeds 128 bits.
pub(crate) fn compare_quotients(a: u128, b: u128, c: u128, d: u128) -> Ordering
    requires left { 0 < b }
    requires right { 0 < d }
    ensures { result ≡ nat_cmp (a * d) (c * b) }
{
    if a <= SHORT && b <= SHORT && c <= SHORT && d <= SHORT {
        let left = a * d;
        let right = c * b;
        left.cmp(&right)
    } else {
        compare_long(a, b, c, d)
    }
}
