//! Parsing the words of numbers and counts.
ghost use Rattle.std.specs.Prelude.{◌≡◌, ◌+◌, ◌*◌, ◌^◌, ◌<◌, ◌≤◌, ℕ, ℤ, ◌==◌, length, nat_abs, IsTrue, IfOk, IfErr, OnOk, SomeIff, Ok, Err};
ghost use Rattle.std.specs.List.{position, position_or_len};
ghost use Rattle.std.specs.Str.Parse.{starts_with_minus};
ghost use Rattle.nf_rational.specs.Rational.{ratio};
ghost use Rattle.nf_frac_words.specs.Digits.{are_digits, value_after, value_of, is_plain_count, count_of};
ghost use Rattle.nf_frac_words.specs.Numbers.{has, before, bytes_after, unsigned, signed_by, denominator, is_decimal, parts_or_fault, parts_of, decimal_parts_of, number_of, decimal_of};

use crate::NumberFault;

// ---- the fields of a word

fn has_byte(word: &[u8], byte: u8) -> bool
    ensures { result ≡ has byte word.now }
{
    word.iter().any(|c| *c == byte)
}

fn is_decimal_word(word: &[u8]) -> bool
    ensures { result ≡ is_decimal word.now }
{
    has_byte(word, b'.') && !has_byte(word, b'/')
}

fn position_of(word: &[u8], byte: u8) -> Option<usize>
    ensures { result ≡ position (λ c. c == byte) word.now }
{
    word.iter().position(|c| *c == byte)
}

// Returns the index of the first such byte, or the word's length if there is none.
fn place_of(word: &[u8], byte: u8) -> usize
    ensures place { result ≡ position_or_len (λ c. c == byte) word.now }
    ensures within { result ≤ length word.now }
{
    position_of(word, byte).unwrap_or(word.len())
}

fn before_byte(word: &[u8], byte: u8) -> &[u8]
    ensures { result.now ≡ before byte word.now }
{
    &word[..place_of(word, byte)]
}

fn after_byte(word: &[u8], byte: u8) -> &[u8]
    ensures { result.now ≡ bytes_after byte word.now }
{
    let place = place_of(word, byte);
    if place < word.len() {
        &word[place + 1..]
    } else {
        &[]
    }
}

fn is_negative(field: &[u8]) -> bool
    ensures { result ≡ starts_with_minus field.now }
{
    !field.is_empty() && field[0] == b'-'
}

fn without_minus(field: &[u8]) -> &[u8]
    ensures { result.now ≡ unsigned field.now }
{
    if is_negative(field) {
        &field[1..]
    } else {
        field
    }
}

// Returns the bytes after the first slash, or `1` if there is no slash.
fn denominator_of(word: &[u8]) -> &[u8]
    ensures { result.now ≡ denominator word.now }
{
    if has_byte(word, b'/') {
        after_byte(word, b'/')
    } else {
        b"1"
    }
}

// ---- digits

fn all_digits(word: &[u8]) -> bool
    ensures { result ≡ are_digits word.now }
{
    word.iter().all(|c| c.is_ascii_digit())
}

// The greatest count of digits whose number is computed in 64 bits.
const FEW_DIGITS: usize = 18;

// The greatest number of 18 digits.
const GREATEST_OF_FEW: u128 = 999_999_999_999_999_999;

// Returns the number with these digits, at most 18, computed in 64 bits.
fn short_value(digits: &[u8]) -> u64
    requires digits { IsTrue (are_digits digits.now) }
    requires few { length digits.now ≤ 18 }
    ensures value { result ≡ value_of digits.now }
    ensures small { result < 10 ^ 18 }
{
    let mut value: u64 = 0;
    for c in digits {
        value = 10 * value + u64::from(*c - b'0');
    }
    value
}

// Returns the number with the digits of `start` followed by `digits`. Returns None if it exceeds the bound.
fn value_within(start: u128, digits: &[u8], bound: u128) -> Option<u128>
    requires digits { IsTrue (are_digits digits.now) }
    requires start { start ≤ bound }
    requires bound { bound < 2 ^ 127 }
    ensures { SomeIff result (value_after start digits.now ≤ bound) (value_after start digits.now) }
{
    if start == 0 && digits.len() <= FEW_DIGITS && bound >= GREATEST_OF_FEW {
        return Some(short_value(digits) as u128);
    }
    let mut value = start;
    for c in digits {
        if value > bound / 10 {
            return None;
        }
        value = 10 * value + u128::from(*c - b'0');
        if value > bound {
            return None;
        }
    }
    Some(value)
}

// Returns the power of ten with this exponent. Returns None if it exceeds the bound.
fn power_of_ten(exponent: usize, bound: u128) -> Option<u128>
    requires { bound < 2 ^ 127 }
    ensures { SomeIff result (10 ^ exponent ≤ bound) (10 ^ exponent) }
{
    let mut power = 1;
    for _ in 0..exponent {
        if power > bound / 10 {
            return None;
        }
        power *= 10;
    }
    if power <= bound { Some(power) } else { None }
}

// ---- parts

// Checks that both fields are digits. Returns the first fault that applies, whatever their values are.
fn check_fields(left: &[u8], right: &[u8]) -> Result<(), NumberFault>
    ensures some_left { OnOk result (0 < length left.now) }
    ensures some_right { OnOk result (0 < length right.now) }
    ensures left { OnOk result (IsTrue (are_digits left.now)) }
    ensures right { OnOk result (IsTrue (are_digits right.now)) }
    ensures fault { IfErr result (λ fault. (bound : ℕ) (n : ℤ) (d : ℕ)
        → parts_or_fault bound left.now right.now n d ≡ Err fault) }
{
    if left.is_empty() || right.is_empty() {
        return Err(NumberFault::Empty);
    }
    if !all_digits(left) || !all_digits(right) {
        return Err(NumberFault::BadDigit);
    }
    Ok(())
}

// Returns the number with this magnitude and the sign of the field.
fn signed(field: &[u8], magnitude: u128) -> i128
    requires { magnitude < 2 ^ 127 }
    ensures sign { result ≡ signed_by field.now magnitude }
    ensures size { nat_abs result ≡ magnitude }
{
    let number = magnitude as i128;
    if is_negative(field) { -number } else { number }
}

// Returns the parts of the fraction with a signed numerator field and a denominator field.
fn fraction(left: &[u8], right: &[u8], bound: u128) -> Result<(i128, u128), NumberFault>
    requires { bound < 2 ^ 127 }
    ensures { let digits = unsigned left.now in
        result ≡ parts_or_fault bound digits right.now (signed_by left.now (value_of digits))
        (value_of right.now) }
{
    let digits = without_minus(left);
    check_fields(digits, right)?;
    let (Some(num), Some(den)) = (
        value_within(0, digits, bound),
        value_within(0, right, bound),
    ) else {
        return Err(NumberFault::TooWide);
    };
    if den == 0 {
        return Err(NumberFault::ZeroDenominator);
    }
    Ok((signed(left, num), den))
}

// Returns the number with the digits of the left field followed by those of the right field. Returns None if it exceeds the
// bound.
fn decimal_within(left: &[u8], right: &[u8], bound: u128) -> Option<u128>
    requires left { IsTrue (are_digits left.now) }
    requires right { IsTrue (are_digits right.now) }
    requires bound { bound < 2 ^ 127 }
    ensures { let value = value_of left.now * 10 ^ length right.now + value_of right.now in
        SomeIff result (value ≤ bound) value }
{
    let whole = value_within(0, left, bound)?;
    value_within(whole, right, bound)
}

// Returns the parts of the decimal with a signed field before the point and a field of digits after it.
fn decimal(left: &[u8], right: &[u8], bound: u128) -> Result<(i128, u128), NumberFault>
    requires { bound < 2 ^ 127 }
    ensures { let digits = unsigned left.now in
        let scale = 10 ^ length right.now in
        result ≡ parts_or_fault bound digits right.now
        (signed_by left.now (value_of digits * scale + value_of right.now)) scale }
{
    let digits = without_minus(left);
    check_fields(digits, right)?;
    let (Some(num), Some(den)) = (
        decimal_within(digits, right, bound),
        power_of_ten(right.len(), bound),
    ) else {
        return Err(NumberFault::TooWide);
    };
    Ok((signed(left, num), den))
}

/// Parses a word `a` or `a/b` into numerator and denominator, as written and not reduced.
///
/// The word is split at its first slash, and `a` may begin with `-`. Without a slash the denominator is 1. The bound is below
/// 2^127. Returns an error exactly if a fault applies, and then the first of these: `a` without its sign, or `b`, is empty;
/// a byte in them is not a digit; `a` or `b` exceeds the bound in magnitude; `b` is 0.
pub fn parts(word: &[u8], bound: u128) -> Result<(i128, u128), NumberFault>
    requires { bound < 2 ^ 127 }
    ensures exact { result ≡ parts_of bound word.now }
    ensures value { IfOk result (λ p. number_of bound word.now ≡ Ok (ratio p.0 p.1)) }
    ensures num { IfOk result (λ p. nat_abs p.0 ≤ bound) }
    ensures den { IfOk result (λ p. p.1 ≤ bound) }
    ensures positive { IfOk result (λ p. 0 < p.1) }
    ensures fault { IfErr result (λ fault. number_of bound word.now ≡ Err fault) }
{
    fraction(before_byte(word, b'/'), denominator_of(word), bound)
}

/// Parses a word `a`, `a/b` or `a.b` into numerator and denominator, as written and not reduced.
///
/// A word with a point and no slash is a decimal `a.b`, split at its first point, and `a` may begin with `-`. If `b` has
/// k digits, the denominator is 10^k, and the numerator is |a| · 10^k + b with the sign of `a`. So `-0.5` is -5 over 10. Every
/// other word is parsed as by `parts`. The bound is below 2^127.
///
/// Returns an error exactly if a fault applies, and then the first of these: `a` without its sign, or `b`, is empty; a byte
/// in them is not a digit; the numerator or the denominator exceeds the bound in magnitude; the denominator is 0.
pub fn decimal_parts(word: &[u8], bound: u128) -> Result<(i128, u128), NumberFault>
    requires { bound < 2 ^ 127 }
    ensures exact { result ≡ decimal_parts_of bound word.now }
    ensures value { IfOk result (λ p. decimal_of bound word.now ≡ Ok (ratio p.0 p.1)) }
    ensures num { IfOk result (λ p. nat_abs p.0 ≤ bound) }
    ensures den { IfOk result (λ p. p.1 ≤ bound) }
    ensures positive { IfOk result (λ p. 0 < p.1) }
    ensures fault { IfErr result (λ fault. decimal_of bound word.now ≡ Err fault) }
{
    if is_decimal_word(word) {
        decimal(before_byte(word, b'.'), after_byte(word, b'.'), bound)
    } else {
        parts(word, bound)
    }
}

// ---- counts

fn is_count(word: &[u8]) -> bool
    ensures { result ≡ is_plain_count word.now }
{
    all_digits(word) && !word.is_empty() && (word.len() == 1 || word[0] != b'0')
}

/// Parses a count in plain decimal. Returns None exactly if the word is empty, has a byte that is not a digit, has a zero before
/// other digits, or its number exceeds 2^64 - 1.
pub fn count(word: &[u8]) -> Option<u64>
    ensures { result ≡ count_of word.now }
{
    if !is_count(word) {
        return None;
    }
    let value = value_within(0, word, u128::from(u64::MAX))?;
    Some(value as u64)
}
