// Reading printed numbers whose numerator and denominator have at most 64 bits. The word is tested digit by digit, without printing.
ghost use Rattle.std.specs.Prelude.{◌≡◌, ◌+◌, ◌<◌, ◌≤◌, pos, neg_ℤ, length, take, drop, IfSome, IsTrue, Some};
ghost use Rattle.nf_frac_words.specs.Digits.{are_digits, value_of, digits_of, is_plain_count};
ghost use Rattle.nf_frac_words.specs.Printed.{printed_parts};
ghost use Rattle.nf_report_def.specs.ReportCauses.{printed_number as number_by};

use nf_frac::Q;

// A number of at most `ROOM` has room for one more digit in 64 bits.
const ROOM: u64 = 1_844_674_407_370_955_160;

// The least denominator of a printed form.
const LEAST: u64 = 2;

// Returns whether the first `end` bytes, which are digits, have no leading zero before another digit. False if `end` is 0.
fn is_plain_to(bytes: &[u8], end: usize) -> bool
    requires within { end ≤ length bytes.now }
    requires digits { IsTrue (are_digits (take end bytes.now)) }
    ensures { IsTrue result → IsTrue (is_plain_count (take end bytes.now)) }
{
    if end == 1 {
        return true;
    }
    end > 1 && bytes[0] != b'0'
}

// Returns the number that the first `end` bytes write, and `end`, if these digits are the printed form of the number.
fn plain_to(bytes: &[u8], number: u64, end: usize) -> Option<(u64, usize)>
    requires within { end ≤ length bytes.now }
    requires digits { IsTrue (are_digits (take end bytes.now)) }
    requires number { value_of (take end bytes.now) ≡ number }
    ensures within { IfSome result (λ p. p.1 ≤ length bytes.now) }
    ensures digits { IfSome result (λ p. take p.1 bytes.now ≡ digits_of p.0) }
{
    if is_plain_to(bytes, end) {
        Some((number, end))
    } else {
        None
    }
}

// Returns the number that the leading digits write, and their count, if these digits are the printed form of the number.
fn leading_number(bytes: &[u8]) -> Option<(u64, usize)>
    ensures within { IfSome result (λ p. p.1 ≤ length bytes.now) }
    ensures digits { IfSome result (λ p. take p.1 bytes.now ≡ digits_of p.0) }
{
    let mut number = 0;
    for (place, byte) in bytes.iter().enumerate() {
        if !byte.is_ascii_digit() {
            return plain_to(bytes, number, place);
        }
        if number > ROOM {
            return None;
        }
        number = 10 * number + u64::from(*byte - b'0');
    }
    plain_to(bytes, number, bytes.len())
}

// Returns the bytes after the index `place`.
fn behind(word: &[u8], place: usize) -> &[u8]
    requires { place < length word.now }
    ensures { result.now ≡ drop (place + 1) word.now }
{
    &word[place + 1..]
}

// Returns numerator and denominator of a word without a minus, if the word is their printed form.
fn unsigned_parts(word: &[u8]) -> Option<(u64, u64)>
    ensures { IfSome result (λ p. word.now ≡ printed_parts (pos p.0) p.1) }
{
    let (num, end) = leading_number(word)?;
    if end == word.len() {
        return Some((num, 1));
    }
    if word[end] != b'/' {
        return None;
    }
    let rest = behind(word, end);
    let (den, rest_end) = leading_number(rest)?;
    if rest_end < rest.len() || den < LEAST {
        return None;
    }
    Some((num, den))
}

// Returns the negative whole number of this magnitude. Returns None for magnitude 0, since `-0` is not a printed form.
fn negative(magnitude: u64) -> Option<i128>
    ensures value { IfSome result (λ n. n ≡ neg_ℤ (pos magnitude)) }
    ensures some { IfSome result (λ n. 0 < magnitude) }
{
    if magnitude == 0 {
        None
    } else {
        Some(-i128::from(magnitude))
    }
}

// Returns numerator and denominator of a word, if the word is their printed form.
fn plain_parts(word: &[u8]) -> Option<(i128, u64)>
    ensures { IfSome result (λ p. word.now ≡ printed_parts p.0 p.1) }
{
    if word.is_empty() || word[0] != b'-' {
        let (num, den) = unsigned_parts(word)?;
        return Some((i128::from(num), den));
    }
    let (magnitude, den) = unsigned_parts(behind(word, 0))?;
    let num = negative(magnitude)?;
    Some((num, den))
}

/// Returns the number whose printed form is the word, if numerator and denominator are at most ten times `ROOM` plus 9 in magnitude.
/// None does not mean that the word is no printed form.
pub(crate) fn plain_number(word: &[u8]) -> Option<Q>
    ensures { IfSome result (λ q. number_by word.now ≡ Some q) }
{
    let (num, den) = plain_parts(word)?;
    let number = Q::make(num, i128::from(den))?;
    if number.numer() == num && number.denom() == i128::from(den) {
        Some(number)
    } else {
        None
    }
}
