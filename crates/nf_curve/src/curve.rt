// Curves: points whose times increase strictly from 0.
ghost use Rattle.std.specs.Prelude.{◌≡◌, ℕ, ◌+◌, ◌-◌, ◌<◌, ◌≤◌, [], ◌∷◌, ◌++◌, length, if◌then◌else◌, IfOk, OnOk, OnErr, IsOk, slice_get, Some, option_map};
ghost use Rattle.nf_rational.specs.Rational.{ℚ};
ghost use Rattle.nf_rational.specs.Operations.{0ℚ};
ghost use Rattle.nf_rational.specs.Order.{◌≤ℚ◌, ◌<ℚ◌};
ghost use Rattle.nf_rational.specs.Signs.{is_zero};
ghost use Rattle.nf_frac_def.specs.Passing.{passes_Q};
ghost use Rattle.nf_frac_def.specs.Checked.{at_part, seen_at, Gives};
ghost use Rattle.nf_model.specs.Curve.{IsCurve, Within, value as value_of};
ghost use Rattle.nf_curve_def.specs.Values.{checked_value, checked_cut};
ghost use Rattle.nf_curve_def.specs.Sums.{checked_sum};
ghost use Rattle.nf_curve_def.specs.Least.{checked_least};
ghost use Rattle.nf_curve_def.specs.Composed.{checked_composed};
ghost use Rattle.nf_curve_def.specs.Short.{checked_short};
ghost use Rattle.nf_curve_def.specs.Differences.{checked_difference};
ghost use Rattle.nf_curve_def.specs.Meanings.{IsSumOf, IsLeastOf, IsComposedOf, IsCutOf, IsShortOf, IsDifference};
ghost use Rattle.nf_curve.specs.Points.{last_time};
ghost use Rattle.nf_curve.specs.Sides.{sides_of};
ghost use Rattle.nf_curve.specs.Differences.{difference_of};

use crate::composed::composed_until;
use crate::cut::cut_points;
use crate::differences::difference_until;
use crate::least::least_points;
use crate::lines::{Point, Sides};
use crate::places::place_up;
use crate::short::short_points;
use crate::sums::sum_points;
use crate::values::value_at;
use nf_frac::{Halt, Part, PassedAt, Q};
use std::alloc::{AllocError, Global};
use std::marker::Model;

/// A piecewise linear function of time from time 0 on. Its points (time, value) have times that increase strictly from 0. The function is
/// linear between neighbouring points and constant after the last one. Times and values are exact fractions, in units that the caller
/// chooses.
///
/// Each computing call takes a `Part` and performs one operation sequence in order. The clause `list` of its contract names the
/// sequence's definition, in nf_curve_def. The call returns `Passed` exactly if one of these operations passes the bound. `Passed`
/// carries the first such operation and the part.
#[derive(Drop)]
pub struct Curve {
    points: Vec<(Q, Q)>,
}

impl Model for Curve {
    ghost use Rattle.std.specs.Prelude.{◌-◌, vec_capacity, vec_len};
    ghost use Rattle.nf_model.specs.Curve.{IsCurve};
    ghost use Rattle.nf_curve.specs.Points.{Grown, coded_grown};

    ghost Value = { Grown };

    ghost coded = { coded_grown };

    ghost view = { λ a. record { points = a.points.items; spare = vec_capacity a.points - vec_len a.points } };

    ghost invariant = { λ a. IsCurve a.points.items };
}

impl Curve {
    /// Returns the constant curve of this value, with one point, at time 0. Fails only if the allocation fails.
    pub fn start(alloc: Global, value: Q) -> Result<Curve, AllocError>
        ensures { IfOk result (λ c. c.points ≡ (0ℚ, value) ∷ []) }
    {
        let mut points = Vec::new(alloc);
        points.push((Q::zero(), value))?;
        Ok(Curve { points })
    }

    /// Returns the curve of these points. Their times must increase strictly from 0.
    pub fn of_points(points: Vec<Point>) -> Curve
        requires { IsCurve points.items }
        ensures { result.points ≡ points.items }
    {
        Curve { points }
    }

    /// Returns the identity for times from 0 to `last`, constant after it. `last` must be at least 0. Fails only if an allocation fails.
    pub fn identity(alloc: Global, last: Q) -> Result<Curve, AllocError>
        requires { 0ℚ ≤ℚ last }
        ensures { IfOk result (λ c. c.points
            ≡ (if is_zero last then (0ℚ, 0ℚ) ∷ [] else (0ℚ, 0ℚ) ∷ (last, last) ∷ [])) }
    {
        let mut line = Curve::start(alloc, Q::zero())?;
        if !last.is_zero() {
            line.push(last, last)?;
        }
        Ok(line)
    }

    /// Allocates room, so that the next `more` pushes cannot fail. The points stay the same, even if the allocation fails.
    pub fn reserve(&mut self, more: usize) -> Result<(), AllocError>
        ensures points { self.new.points ≡ self.old.points }
        ensures ok { OnOk result (more ≤ self.new.spare) }
        ensures kept { self.old.spare ≤ self.new.spare }
        ensures refused { OnErr result (self.old.spare < more) }
    {
        self.points.reserve(more)
    }

    /// Gives back the room beyond the points, as far as the allocator takes it. The points stay the same.
    pub fn shrink_to_fit(&mut self)
        ensures { self.new.points ≡ self.old.points }
    {
        self.points.shrink_to_fit();
    }

    /// Appends a point, whose time must be after the last one. If the allocation fails, the points stay the same. The allocation cannot
    /// fail if room was reserved.
    pub fn push(&mut self, time: Q, value: Q) -> Result<(), AllocError>
        requires { last_time self.old.points <ℚ time }
        ensures ok { OnOk result (self.new.points ≡ self.old.points ++ (time, value) ∷ []) }
        ensures err { OnErr result (self.new.points ≡ self.old.points) }
        ensures spare { self.old.spare ≤ self.new.spare + 1 }
        ensures room { 0 < self.old.spare → IsOk result }
    {
        self.points.push((time, value))?;
        Ok(())
    }

    /// Does nothing. Proof: states that the points are a curve, so that there is one.
    #[tactic(auto, using(crate::proofs::Points::points_there))]
    pub fn recall(&self)
        ensures some { 0 < length self.now.points }
        ensures curve { IsCurve self.now.points }
    {
        let _ = &self.points;
    }

    /// Returns the number of points, which is at least 1.
    #[tactic(auto, using(crate::proofs::Points::points_there))]
    pub fn len(&self) -> usize
        ensures count { result ≡ length self.now.points }
        ensures some { 0 < result }
        ensures curve { IsCurve self.now.points }
    {
        self.points.len()
    }

    /// Returns the points in increasing order of time.
    pub fn as_points(&self) -> &[Point]
        ensures points { result.now ≡ self.now.points }
        ensures curve { IsCurve result.now }
    {
        &self.points
    }

    /// Returns the time and the value of the point at `index`, which must be less than `len`.
    pub fn point(&self, index: usize) -> (Q, Q)
        requires { index < length self.now.points }
        ensures { slice_get self.now.points index ≡ Some result }
    {
        self.points[index]
    }

    /// Returns the time and the value of the last point.
    pub fn last(&self) -> (Q, Q)
        ensures { slice_get self.now.points (length self.now.points - 1) ≡ Some result }
    {
        self.point(self.len() - 1)
    }

    /// Returns the value at `time`, which must be at least 0. The operation sequence is `checked_value` in
    /// nf_curve_def/specs/Values.antt. Returns `PassedAt` exactly if one of its operations passes: the first one, with `part`. Does not
    /// allocate.
    pub fn value(&self, time: Q, part: Part) -> Result<Q, PassedAt<Q>>
        requires { 0ℚ ≤ℚ time }
        ensures list { result ≡ at_part part (checked_value passes_Q self.now.points time) }
        ensures value { IfOk result (λ y. y ≡ value_of self.now.points time) }
    {
        let place = place_up(&self.points, 0, time);
        value_at(&self.points, place, time, part)
    }

    /// Returns the pointwise sum of two curves. The operation sequence is `checked_sum` in nf_curve_def/specs/Sums.antt. Returns
    /// `Passed` exactly if one of its operations passes: the first one, with `part`.
    pub fn sum(alloc: Global, left: &Curve, right: &Curve, part: Part) -> Result<Curve, Halt<Q>>
        ensures list { Gives (λ c. c.points) (λ q. q) result
            (at_part part (checked_sum passes_Q left.now.points right.now.points)) }
        ensures sum { IfOk result (λ c. IsSumOf left.now.points right.now.points c.points) }
    {
        let points = sum_points(alloc, &left.points, &right.points, part)?;
        Ok(Curve { points })
    }

    /// Returns the pointwise minimum of two curves. The operation sequence is `checked_least` in nf_curve_def/specs/Least.antt. Returns
    /// `Passed` exactly if one of its operations passes: the first one, with `part`.
    pub fn least(alloc: Global, left: &Curve, right: &Curve, part: Part) -> Result<Curve, Halt<Q>>
        ensures list { Gives (λ c. c.points) (λ q. q) result
            (at_part part (checked_least passes_Q left.now.points right.now.points)) }
        ensures least { IfOk result (λ c. IsLeastOf left.now.points right.now.points c.points) }
    {
        let points = least_points(alloc, &left.points, &right.points, part)?;
        Ok(Curve { points })
    }

    /// Returns the curve up to the time `last`, which must be at least 0: its points before `last`, then a point at `last`. The operation
    /// sequence is `checked_cut` in nf_curve_def/specs/Values.antt. Returns `Passed` exactly if one of its operations passes: the first
    /// one, with `part`.
    pub fn cut(&self, alloc: Global, last: Q, part: Part) -> Result<Curve, Halt<Q>>
        requires { 0ℚ ≤ℚ last }
        ensures list { Gives (λ c. c.points) (λ q. q) result
            (at_part part (checked_cut passes_Q self.now.points last)) }
        ensures cut { IfOk result (λ c. IsCutOf self.now.points last c.points) }
    {
        let points = cut_points(alloc, &self.points, last, part)?;
        Ok(Curve { points })
    }

    /// Returns the composition `outer(inner(time))` for times from 0 to `until`, which must be at least 0. The values of `inner` at these
    /// times must not be negative. The operation sequence is `checked_composed` in nf_curve_def/specs/Composed.antt. Returns `Passed`
    /// exactly if one of its operations passes: the first one, with `part`.
    pub fn compose(
        alloc: Global,
        outer: &Curve,
        inner: &Curve,
        until: Q,
        part: Part,
    ) -> Result<Curve, Halt<Q>>
        requires until { 0ℚ ≤ℚ until }
        requires inner { (time : ℚ) → Within 0ℚ until time → 0ℚ ≤ℚ value_of inner.now.points time }
        ensures list { Gives (λ c. c.points) (λ q. q) result
            (at_part part (checked_composed passes_Q outer.now.points inner.now.points until)) }
        ensures composed { IfOk result
            (λ c. IsComposedOf outer.now.points inner.now.points until c.points) }
    {
        let points = composed_until(alloc, &outer.points, &inner.points, until, part)?;
        Ok(Curve { points })
    }

    /// Returns the same function in short form, without inner points at which the slope stays the same. The operation sequence is
    /// `checked_short` in nf_curve_def/specs/Short.antt. Returns `Passed` exactly if one of its operations passes: the first one, with
    /// `part`.
    pub fn short(alloc: Global, curve: &Curve, part: Part) -> Result<Curve, Halt<Q>>
        ensures list { Gives (λ c. c.points) (λ q. q) result
            (at_part part (checked_short passes_Q curve.now.points)) }
        ensures short { IfOk result (λ c. IsShortOf curve.now.points c.points) }
    {
        let points = short_points(alloc, &curve.points, part)?;
        Ok(Curve { points })
    }

    /// Returns the first corner in [0, `until`] at which two curves differ, with both values. Returns None exactly if the curves agree at
    /// all these times. Corners are time 0, `until`, and the times between at which the slope of either curve changes. `until` must be at
    /// least 0. The operation sequence is `checked_difference` in nf_curve_def/specs/Differences.antt. Returns `PassedAt` exactly if
    /// one of its operations passes: the first one, with `part`. Does not allocate.
    pub fn first_difference(
        left: &Curve,
        right: &Curve,
        until: Q,
        part: Part,
    ) -> Result<Option<Difference>, PassedAt<Q>>
        requires { 0ℚ ≤ℚ until }
        ensures list { seen_at (option_map difference_of) (λ q. q) result ≡
            at_part part (checked_difference passes_Q left.now.points right.now.points until) }
        ensures difference { IfOk result (λ d.
            IsDifference left.now.points right.now.points until (option_map difference_of d)) }
    {
        match difference_until(&left.points, &right.points, until, part)? {
            Some(sides) => Ok(Some(Difference::of(sides))),
            None => Ok(None),
        }
    }
}

/// A time at which two curves differ, with both values.
#[derive(Clone, Copy)]
pub struct Difference {
    pub time: Q,
    pub left: Q,
    pub right: Q,
}

impl Difference {
    // Converts the two values at a time to a `Difference`.
    fn of(sides: Sides) -> Difference
        ensures { difference_of result ≡ sides_of sides }
    {
        Difference {
            time: sides.time,
            left: sides.left,
            right: sides.right,
        }
    }
}
