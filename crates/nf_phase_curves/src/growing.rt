// A growing curve: its corners, and the end that still moves.
ghost use Rattle.std.specs.Prelude.{◌≡◌, ◌<◌, ◌≤◌, length, IfOk, OnOk, IsSome};
ghost use Rattle.nf_rational.specs.Order.{◌<ℚ◌};
ghost use Rattle.nf_frac_def.specs.declared.Part.TheVariants.{Curve as CurvePart};
ghost use Rattle.nf_frac_def.specs.Passing.{passes_Q};
ghost use Rattle.nf_frac_def.specs.Checked.{at_part, Gives};
ghost use Rattle.nf_rational.specs.Signs.{is_positive};
ghost use Rattle.nf_thin_def.specs.Ends.{time_of_last};
ghost use Rattle.nf_thin_def.specs.ReportCurves.{keeps_slope as keeps_slope_by, curve_with, queue_curve_after};
ghost use Rattle.nf_thin_def.specs.ReportCurves.{first_label_curve, first_queue as queue_at_start};
ghost use Rattle.nf_phase_def.specs.Restoring.{growing as growing_by};
ghost use Rattle.nf_phase_curves.specs.Growing.{HasReserve, IsAfter, corners_by, points_to, end_value};

use crate::copies::{copy_of, first_points};
use crate::last_slopes::last_slope;
use crate::stepping::QueueStep;
use nf_curve::Curve;
use nf_frac::{Halt, Q};
use std::alloc::{AllocError, Global};
use std::marker::Model;

// The last point of a curve, with the slope of the last piece.
#[derive(Clone, Copy)]
struct End {
    time: Q,
    value: Q,
    slope: Q,
}

/// A growing curve in short form. An extension with the slope of the last piece moves the end. An extension with another slope turns the
/// end into a corner. Without an end the curve has its corners only.
#[derive(Drop)]
pub struct GrowingCurve {
    corners: Curve,
    end: Option<End>,
}

impl Model for GrowingCurve {
    ghost use Rattle.nf_thin_def.specs.ReportCurves.{GrowingCurve as SeenCurve};
    ghost use Rattle.nf_phase_curves.specs.Growing.{Roomy, coded_roomy, coded_growing, points_to, end_slope, IsAfter};

    ghost Value = { Roomy SeenCurve };

    ghost coded = { coded_roomy coded_growing };

    ghost view = { λ a. record {
      grown = record { points = points_to a.corners.points a.end; slope = end_slope a.end };
      spare = a.corners.spare;
    } };

    ghost invariant = { λ a. IsAfter a.corners.points a.end };
}

// Returns whether the slope of the last piece is known and equals `slope`.
fn keeps_slope_of(before: Option<Q>, slope: Q) -> bool
    ensures { result ≡ keeps_slope_by before slope }
{
    match before {
        Some(before) => before.is_same(slope),
        None => false,
    }
}

// Appends the end to the corners, unless the extension has the slope of the last piece.
fn close_unless(kept: bool, corners: &mut Curve, end: Option<End>)
    requires room { 0 < corners.old.spare }
    requires after { IsAfter corners.old.points end }
    ensures { corners.new.points ≡ corners_by kept corners.old.points end }
{
    if kept {
        return;
    }
    if let Some(end) = end {
        match corners.push(end.time, end.value) {
            Ok(()) => {}
            Err(_) => unreachable!(),
        }
    }
}

// Returns the corners followed by the end, if there is one.
fn with_end(mut corners: Curve, end: Option<End>) -> Result<Curve, AllocError>
    requires { IsAfter corners.points end }
    ensures { IfOk result (λ c. c.points ≡ points_to corners.points end) }
{
    let Some(end) = end else {
        return Ok(corners);
    };
    corners.push(end.time, end.value)?;
    Ok(corners)
}

impl GrowingCurve {
    /// Returns the curve with this value at time 0 as its only point.
    pub(crate) fn start(alloc: Global, value: Q) -> Result<GrowingCurve, AllocError>
        ensures { IfOk result (λ c. c.grown ≡ first_label_curve value) }
    {
        Ok(GrowingCurve {
            corners: Curve::start(alloc, value)?,
            end: None,
        })
    }

    /// Returns the curve that is 0 from time 0 until `label`, the label of departure 0 at its node.
    pub(crate) fn first_queue(alloc: Global, label: Q) -> Result<GrowingCurve, AllocError>
        ensures { IfOk result (λ c. c.grown ≡ queue_at_start (is_positive label) label) }
    {
        let corners = Curve::start(alloc, Q::zero())?;
        if !Q::zero().is_below(label) {
            return Ok(GrowingCurve { corners, end: None });
        }
        let end = End {
            time: label,
            value: Q::zero(),
            slope: Q::zero(),
        };
        Ok(GrowingCurve {
            corners,
            end: Some(end),
        })
    }

    /// Returns the growing curve with the points of `curve` and this slope of its last piece. None means that the slope is unknown or there
    /// is one point only. Fails if an allocation fails.
    pub(crate) fn ended(
        alloc: Global,
        curve: &Curve,
        slope: Option<Q>,
    ) -> Result<GrowingCurve, AllocError>
        requires { IsSome slope → 2 ≤ length curve.now.points }
        ensures points { IfOk result (λ c. c.grown.points ≡ curve.now.points) }
        ensures slope { IfOk result (λ c. c.grown.slope ≡ slope) }
    {
        let Some(slope) = slope else {
            let whole = copy_of(alloc, curve)?;
            return Ok(GrowingCurve {
                corners: whole,
                end: None,
            });
        };
        let (time, value) = curve.last();
        let corners = first_points(alloc, curve, curve.len() - 1)?;
        let end = Some(End { time, value, slope });
        Ok(GrowingCurve { corners, end })
    }

    /// Returns the growing curve with the points of `curve`. Refuses with Passed, of the part Curve, at the first operation of its list
    /// that exceeds its bound. Fails with `Memory` if an allocation fails.
    pub(crate) fn of(alloc: Global, curve: &Curve) -> Result<GrowingCurve, Halt<Q>>
        ensures { Gives (λ c. c.grown) (λ q. q) result
            (at_part CurvePart (growing_by passes_Q curve.now.points)) }
    {
        let slope = last_slope(curve)?;
        let grown = GrowingCurve::ended(alloc, curve, slope)?;
        Ok(grown)
    }

    /// Reserves memory for one more corner. The curve is unchanged, also if an allocation fails.
    pub(crate) fn reserve(&mut self) -> Result<(), AllocError>
        ensures same { self.new.grown ≡ self.old.grown }
        ensures room { OnOk result (HasReserve self.new) }
        ensures kept { self.old.spare ≤ self.new.spare }
    {
        self.corners.reserve(1)
    }

    /// Returns the slope of the last piece, or None if it is unknown or there is none.
    pub(crate) fn slope(&self) -> Option<Q>
        ensures { result ≡ self.now.grown.slope }
    {
        match self.end {
            Some(end) => Some(end.slope),
            None => None,
        }
    }

    /// Returns the value of the last point.
    pub(crate) fn value(&self) -> Q
        ensures { result ≡ end_value self.now.grown.points }
    {
        match self.end {
            Some(end) => end.value,
            None => {
                let (_, value) = self.corners.last();
                value
            }
        }
    }

    /// Returns whether an extension with this slope has the slope of the last piece.
    pub(crate) fn keeps_slope(&self, slope: Q) -> bool
        ensures { result ≡ keeps_slope_by self.now.grown.slope slope }
    {
        keeps_slope_of(self.slope(), slope)
    }

    /// Extends the curve to a later point, with this slope. Memory for a corner must be reserved.
    pub(crate) fn extend(&mut self, time: Q, value: Q, slope: Q)
        requires room { HasReserve self.old }
        requires later { time_of_last self.old.grown.points <ℚ time }
        ensures { self.new.grown ≡ curve_with self.old.grown (time, value) slope }
    {
        let kept = self.keeps_slope(slope);
        close_unless(kept, &mut self.corners, self.end);
        self.end = Some(End { time, value, slope });
    }

    /// Extends the queue of a link until the label of its tail, by a queue step. None means that the label is constant and the queue
    /// unchanged.
    pub(crate) fn extend_or_hold(&mut self, label: Q, step: Option<QueueStep>)
        requires room { HasReserve self.old }
        requires later { IsSome step → time_of_last self.old.grown.points <ℚ label }
        ensures { self.new.grown ≡ queue_curve_after self.old.grown label step }
    {
        if let Some(queue) = step {
            self.extend(label, queue.size, queue.slope);
        }
    }

    /// Returns the curve so far. Fails if an allocation fails.
    pub(crate) fn finish(self) -> Result<Curve, AllocError>
        ensures { IfOk result (λ c. c.points ≡ self.grown.points) }
    {
        let GrowingCurve { corners, end } = self;
        with_end(corners, end)
    }

    /// Returns a copy of the curve so far. Fails if an allocation fails.
    pub(crate) fn copy(&self, alloc: Global) -> Result<Curve, AllocError>
        ensures { IfOk result (λ c. c.points ≡ self.now.grown.points) }
    {
        let corners = copy_of(alloc, &self.corners)?;
        with_end(corners, self.end)
    }
}
