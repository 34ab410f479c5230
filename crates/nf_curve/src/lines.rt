// Operations on pieces of curves. A piece leads from one point to a later one.
ghost use Rattle.std.specs.Prelude.{◌≡◌, ◌≢◌, true};
ghost use Rattle.nf_rational.specs.Order.{◌<ℚ◌};
ghost use Rattle.nf_frac_def.specs.Passing.{passes_Q};
ghost use Rattle.nf_frac_def.specs.Checked.{at_part};
ghost use Rattle.nf_curve_def.specs.Lines.{checked_slope, checked_line, checked_inverse, checked_cross};
ghost use Rattle.nf_curve_def.specs.Least.{is_crossed};
ghost use Rattle.nf_curve.specs.Sides.{sides_of};
ghost use Rattle.nf_curve.specs.Slopes.{checked_along};

use nf_frac::{Part, PassedAt, Q, at};

/// A point: a time and a value.
pub type Point = (Q, Q);

/// The values of two curves at one time. Each value has the unit of its curve.
#[derive(Clone, Copy)]
pub struct Sides {
    pub time: Q,
    pub left: Q,
    pub right: Q,
}

/// Returns the slope from one point to a later one, in value per unit of time. Returns `PassedAt` exactly if an operation of
/// `checked_slope` passes: the first one, with `part`. Does not allocate.
#[tactic(auto, unfolding(nf_curve_def::specs::Lines::checked_slope), using(crate::proofs::Pieces::run_apart))]
pub fn slope(p: &Point, q: &Point, part: Part) -> Result<Q, PassedAt<Q>>
    requires { p.now.0 <ℚ q.now.0 }
    ensures { result ≡ at_part part (checked_slope passes_Q p.now q.now) }
{
    let rise = at!(part, q.1.difference(p.1));
    let run = at!(part, q.0.difference(p.0));
    let slope = at!(part, rise.quotient(run));
    Ok(slope)
}

/// Returns the value at `time` on the line of this slope through a point.
#[tactic(auto, unfolding(crate::specs::Slopes::checked_along))]
pub(crate) fn along(p: &Point, slope: Q, time: Q, part: Part) -> Result<Q, PassedAt<Q>>
    ensures { result ≡ at_part part (checked_along passes_Q p.now slope time) }
{
    let run = at!(part, time.difference(p.0));
    let rise = at!(part, slope.product(run));
    let value = at!(part, p.1.sum(rise));
    Ok(value)
}

/// Returns the value at `time` on the line through a point and a later one. Returns `PassedAt` exactly if an operation of `checked_line`
/// passes: the first one, with `part`. Does not allocate.
#[tactic(auto, unfolding(nf_curve_def::specs::Lines::checked_line, crate::specs::Slopes::checked_along))]
pub fn line(p: &Point, q: &Point, time: Q, part: Part) -> Result<Q, PassedAt<Q>>
    requires { p.now.0 <ℚ q.now.0 }
    ensures { result ≡ at_part part (checked_line passes_Q p.now q.now time) }
{
    let slope = slope(p, q, part)?;
    along(p, slope, time, part)
}

/// Returns the time at which the line through two points of different values has this value.
#[tactic(auto, unfolding(nf_curve_def::specs::Lines::checked_inverse), using(crate::proofs::Pieces::slope_apart))]
pub(crate) fn inverse(p: &Point, q: &Point, value: Q, part: Part) -> Result<Q, PassedAt<Q>>
    requires later { p.now.0 <ℚ q.now.0 }
    requires apart { p.now.1 ≢ q.now.1 }
    ensures { result ≡ at_part part (checked_inverse passes_Q p.now q.now value) }
{
    let slope = slope(p, q, part)?;
    let rise = at!(part, value.difference(p.1));
    let run = at!(part, rise.quotient(slope));
    let time = at!(part, p.0.sum(run));
    Ok(time)
}

/// Returns the time at which two curves cross. Both are linear between the two times, and the lower one at the first is the higher one at
/// the second.
#[tactic(auto, unfolding(nf_curve_def::specs::Lines::checked_cross), using(crate::proofs::Pieces::change_apart))]
pub(crate) fn crossing_time(a: &Sides, b: &Sides, part: Part) -> Result<Q, PassedAt<Q>>
    requires { is_crossed (sides_of a.now) (sides_of b.now) ≡ true }
    ensures { result ≡ at_part part (checked_cross passes_Q (sides_of a.now) (sides_of b.now)) }
{
    let before = at!(part, a.left.difference(a.right));
    let after = at!(part, b.left.difference(b.right));
    let change = at!(part, before.difference(after));
    let share = at!(part, before.quotient(change));
    let length = at!(part, b.time.difference(a.time));
    let run = at!(part, share.product(length));
    let time = at!(part, a.time.sum(run));
    Ok(time)
}
