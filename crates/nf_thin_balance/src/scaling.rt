// Numbers times a scale, rounded outward to whole numbers.
ghost use Rattle.std.specs.Prelude.{pos, ◌*ℤ◌, ◌≤ℤ◌, IfSome};
ghost use Rattle.nf_thin_balance.specs.Ranges.{IsInRange, scaled};

use crate::ranges::Range;
use nf_frac::Q;

// The greatest magnitude of an end, 2^62 - 1.
const MOST: i128 = 0x3fff_ffff_ffff_ffff;

/// Returns the scale of a search with this supply: the smaller the supply, the greater the scale. Sums of many flows then have less than
/// 64 bits. No contract depends on it.
pub(crate) fn scale_for(supply: Q) -> u64 {
    match supply.numer().checked_div(supply.denom()) {
        Some(most) if most < 0x1_0000 => 1 << 36,
        Some(most) if most < 0x1_0000_0000 => 1 << 20,
        _ => 1,
    }
}

// Returns a whole number next to `scale` times the number, toward 0, or `None` if the numerator times `scale` has more than 127 bits. No
// contract depends on it.
fn next_to(scale: u64, number: Q) -> Option<i128> {
    let above = number.numer().checked_mul(scale as i128)?;
    above.checked_div(number.denom())
}

// Returns `end` if it is at most `scale` times the number. Otherwise, or if it is not known, returns `None`.
fn lower_end(scale: u64, number: Q, end: i128) -> Option<i64>
    ensures { IfSome result (λ least. (least *ℤ pos number.den) ≤ℤ (number.num *ℤ pos scale)) }
{
    let above = number.numer().checked_mul(scale as i128)?;
    if end > MOST || end < -MOST || end.checked_mul(number.denom())? > above {
        return None;
    }
    Some(end as i64)
}

// Returns `end` if it is at least `scale` times the number. Otherwise, or if it is not known, returns `None`.
fn upper_end(scale: u64, number: Q, end: i128) -> Option<i64>
    ensures { IfSome result
        (λ greatest. (number.num *ℤ pos scale) ≤ℤ (greatest *ℤ pos number.den)) }
{
    let above = number.numer().checked_mul(scale as i128)?;
    if end > MOST || end < -MOST || end.checked_mul(number.denom())? < above {
        return None;
    }
    Some(end as i64)
}

// Returns `end`, or else the next whole number, if it is at least `scale` times the number, and `None` otherwise.
fn first_upper_end(scale: u64, number: Q, end: i128) -> Option<i64>
    ensures { IfSome result
        (λ greatest. (number.num *ℤ pos scale) ≤ℤ (greatest *ℤ pos number.den)) }
{
    if let Some(greatest) = upper_end(scale, number, end) {
        return Some(greatest);
    }
    upper_end(scale, number, end.saturating_add(1))
}

/// Returns a range that holds `scale` times the number. Its ends are the whole numbers next to it, or unknown.
pub(crate) fn scaled_range(scale: u64, number: Q) -> Range
    ensures { IsInRange result (scaled scale number) }
{
    let Some(end) = next_to(scale, number) else {
        return Range::any();
    };
    let least = lower_end(scale, number, end);
    let greatest = first_upper_end(scale, number, end);
    Range { least, greatest }
}
