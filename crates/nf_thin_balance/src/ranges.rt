// Ranges of numbers, and the range of a link's flow by its state. Flows are scaled: multiplied by a whole number, the scale of the search.
ghost use Rattle.std.specs.Prelude.{◌≡◌, Bool, true, ℕ, pos, Option, Some, None};
ghost use Rattle.nf_rational.specs.Rational.{ℚ};
ghost use Rattle.nf_rational.specs.Operations.{0ℚ, ◌+ℚ◌, ◌-ℚ◌};
ghost use Rattle.nf_rational.specs.Order.{◌≤ℚ◌};
ghost use Rattle.nf_thin_balance.specs.Ranges.{IsAtLeastEnd, IsUpTo, IsInRange, IsEndOfSum, IsEndOfDifference, MeetsState, scaled};

use nf_model::State;
use std::alloc::AllocError;

// A range of one number, rounded a few times, is less wide than this.
const FEW: i64 = 1024;

/// The numbers from `least` to `greatest`. `None` means no bound on that side.
#[derive(Copy)]
pub(crate) struct Range {
    pub(crate) least: Option<i64>,
    pub(crate) greatest: Option<i64>,
}

impl Clone for Range {
    ghost is_clone = { λ x y. y ≡ x };

    fn clone(&self) -> Result<Self, AllocError> {
        Ok(*self)
    }
}

// Returns the sum of two ends, or `None` if one is unknown or the sum has more than 64 bits.
fn end_of_sum(one: Option<i64>, other: Option<i64>) -> Option<i64>
    ensures { IsEndOfSum one other result }
{
    let end = one?;
    let more = other?;
    end.checked_add(more)
}

// Returns the difference of two ends, or `None` if one is unknown or the difference has more than 64 bits.
fn end_of_difference(one: Option<i64>, other: Option<i64>) -> Option<i64>
    ensures { IsEndOfDifference one other result }
{
    let end = one?;
    let less = other?;
    end.checked_sub(less)
}

// Returns whether the lower end is at most the upper end, or one of them is unknown.
fn ends_meet(least: Option<i64>, greatest: Option<i64>) -> bool
    ensures { (x : ℚ) → IsAtLeastEnd least x → IsUpTo greatest x → result ≡ true }
{
    let Some(least) = least else {
        return true;
    };
    let Some(greatest) = greatest else {
        return true;
    };
    least <= greatest
}

// Returns whether the end is known to be 0.
fn is_zero_end(end: Option<i64>) -> bool
    ensures { result ≡ true → end ≡ Some (pos 0) }
{
    match end {
        Some(number) => number == 0,
        None => false,
    }
}

impl Range {
    /// Returns the range of all numbers.
    pub(crate) fn any() -> Range
        ensures least { result.least ≡ None }
        ensures greatest { result.greatest ≡ None }
    {
        Range {
            least: None,
            greatest: None,
        }
    }

    /// Returns the range that holds 0 alone.
    pub(crate) fn zero() -> Range
        ensures { IsInRange result 0ℚ }
    {
        Range {
            least: Some(0),
            greatest: Some(0),
        }
    }

    // Returns the range from 0 to the upper end of this one.
    fn from_zero(self) -> Range
        ensures { (x : ℚ) → 0ℚ ≤ℚ x → IsUpTo self.greatest x → IsInRange result x }
    {
        Range {
            least: Some(0),
            greatest: self.greatest,
        }
    }

    /// Returns a range that holds the sum of any number of this range and any of `other`.
    pub(crate) fn sum(self, other: Range) -> Range
        ensures { (x y : ℚ) → IsInRange self x → IsInRange other y → IsInRange result (x +ℚ y) }
    {
        Range {
            least: end_of_sum(self.least, other.least),
            greatest: end_of_sum(self.greatest, other.greatest),
        }
    }

    /// Returns a range that holds the difference of any number of this range and any of `other`.
    pub(crate) fn difference(self, other: Range) -> Range
        ensures { (x y : ℚ) → IsInRange self x → IsInRange other y → IsInRange result (x -ℚ y) }
    {
        Range {
            least: end_of_difference(self.least, other.greatest),
            greatest: end_of_difference(self.greatest, other.least),
        }
    }

    /// Returns whether some number can be in both ranges. The answer false means that none is.
    pub(crate) fn meets(&self, other: &Range) -> bool
        ensures { (x : ℚ) → IsInRange self.now x → IsInRange other.now x → result ≡ true }
    {
        if !ends_meet(self.least, other.greatest) {
            return false;
        }
        ends_meet(other.least, self.greatest)
    }

    /// Returns whether the range holds 0 alone. The answer false decides nothing.
    pub(crate) fn is_nothing(&self) -> bool
        ensures { result ≡ true → (x : ℚ) → IsInRange self.now x → x ≡ 0ℚ }
    {
        if !is_zero_end(self.greatest) {
            return false;
        }
        is_zero_end(self.least)
    }

    /// Returns whether the range holds few numbers: one number that is rounded, not all that a link may carry. No contract depends on it.
    pub(crate) fn is_one(self) -> bool {
        match (self.least, self.greatest) {
            (Some(least), Some(greatest)) => greatest.saturating_sub(least) < FEW,
            _ => false,
        }
    }
}

// Returns the range of a link's scaled flow in a state. `full` has the scaled flow that fills the link. A Tight link carries 0 to `full`, a
// Full link `full`, and a Zero link 0.
fn range_in(state: State, full: Range) -> Range
    ensures { (scale : ℕ) (resetting : Bool) (capacity : Option ℚ) (flow tail_slope head_slope : ℚ)
        → MeetsState scale (Some state) resetting full capacity flow tail_slope head_slope
        → IsInRange result (scaled scale flow) }
{
    match state {
        State::Tight => full.from_zero(),
        State::Full => full,
        State::Zero => Range::zero(),
    }
}

/// Returns the range of a link's scaled flow, by its state. `full` has the scaled flow that fills the link. A Tight link carries 0 to
/// `full`, a Full or resetting link `full`, and any other link 0.
pub(crate) fn flow_range(state: Option<State>, resetting: bool, full: Range) -> Range
    ensures { (scale : ℕ) (capacity : Option ℚ) (flow tail_slope head_slope : ℚ)
        → MeetsState scale state resetting full capacity flow tail_slope head_slope
        → IsInRange result (scaled scale flow) }
{
    if let Some(state) = state {
        return range_in(state, full);
    }
    if resetting { full } else { Range::zero() }
}
