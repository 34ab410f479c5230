// A growing trace: a curve with its rates.
ghost use Rattle.std.specs.Prelude.{◌≡◌, ◌<◌, ◌≤◌, ◌++◌, IfOk, OnOk, IsSome, vec_len, vec_capacity};
ghost use Rattle.std.specs.Option.{option_to_list};
ghost use Rattle.nf_rational.specs.Order.{◌<ℚ◌};
ghost use Rattle.nf_model.specs.Curve.{AreSlopes};
ghost use Rattle.nf_curve.specs.Flows.{seen_trace};
ghost use Rattle.nf_rational.specs.Signs.{is_positive};
ghost use Rattle.nf_thin_def.specs.Ends.{time_of_last};
ghost use Rattle.nf_thin_def.specs.ReportCurves.{trace_with, trace_after, first_trace};
ghost use Rattle.nf_phase_curves.specs.Growing.{HasReserve, rates_by, end_value};

use crate::growing::GrowingCurve;
use nf_curve::Trace;
use nf_frac::Q;
use std::alloc::{AllocError, Global};
use std::marker::Model;

/// A growing trace in short form: its curve, and the rates of the pieces between its corners. The rate of the last piece is the slope of
/// the curve's end.
#[derive(Drop)]
pub(crate) struct GrowingTrace {
    curve: GrowingCurve,
    rates: Vec<Q>,
}

impl Model for GrowingTrace {
    ghost use Rattle.std.specs.Prelude.{◌-◌, ◌++◌, min, vec_capacity, vec_len};
    ghost use Rattle.std.specs.Option.{option_to_list};
    ghost use Rattle.nf_model.specs.Equilibrium.{Trace as SeenTrace};
    ghost use Rattle.nf_phase_curves.specs.Growing.{Roomy, coded_roomy, coded_trace, AreBefore};

    ghost Value = { Roomy SeenTrace };

    ghost coded = { coded_roomy coded_trace };

    ghost view = { λ a. record {
      grown = record { points = a.curve.grown.points; rates = a.rates.items ++ option_to_list a.curve.grown.slope };
      spare = min a.curve.spare (vec_capacity a.rates - vec_len a.rates);
    } };

    ghost invariant = { λ a. AreBefore a.rates.items a.curve.grown.slope };
}

// Appends the rate of the last piece to the rates, unless the extension has that rate.
fn close_unless(kept: bool, rates: &mut Vec<Q>, last: Option<Q>)
    requires { vec_len rates.old < vec_capacity rates.old }
    ensures { rates.new.items ≡ rates_by kept rates.old.items last }
{
    if kept {
        return;
    }
    if let Some(rate) = last {
        match rates.push(rate) {
            Ok(()) => {}
            Err(_) => unreachable!(),
        }
    }
}

// Returns the rates with that of the last piece, if there is one.
fn with_last(mut rates: Vec<Q>, last: Option<Q>) -> Result<Vec<Q>, AllocError>
    ensures { IfOk result (λ all. all.items ≡ rates.items ++ option_to_list last) }
{
    let Some(rate) = last else {
        return Ok(rates);
    };
    rates.push(rate)?;
    Ok(rates)
}

impl GrowingTrace {
    /// Returns the trace that is 0 from time 0 until `label`, the label of departure 0 at its node.
    pub(crate) fn first(alloc: Global, label: Q) -> Result<GrowingTrace, AllocError>
        ensures { IfOk result (λ t. t.grown ≡ first_trace (is_positive label) label) }
    {
        Ok(GrowingTrace {
            curve: GrowingCurve::first_queue(alloc, label)?,
            rates: Vec::new(alloc),
        })
    }

    /// Returns the growing trace with the points and rates of `trace`. Fails if an allocation fails.
    pub(crate) fn of(alloc: Global, trace: &Trace) -> Result<GrowingTrace, AllocError>
        requires { AreSlopes (seen_trace trace.now).points (seen_trace trace.now).rates }
        ensures { IfOk result (λ t. t.grown ≡ seen_trace trace.now) }
    {
        let mut rates = trace.rates.as_slice().to_vec(alloc)?;
        let last = rates.pop();
        let curve = GrowingCurve::ended(alloc, &trace.curve, last)?;
        Ok(GrowingTrace { curve, rates })
    }

    /// Reserves memory for one more corner. The trace is unchanged, also if an allocation fails.
    pub(crate) fn reserve(&mut self) -> Result<(), AllocError>
        ensures same { self.new.grown ≡ self.old.grown }
        ensures room { OnOk result (HasReserve self.new) }
        ensures kept { self.old.spare ≤ self.new.spare }
    {
        self.curve.reserve()?;
        self.rates.reserve(1)
    }

    /// Returns the amount at the last point.
    pub(crate) fn amount(&self) -> Q
        ensures { result ≡ end_value self.now.grown.points }
    {
        self.curve.value()
    }

    /// Extends the trace to a later point, at this rate. Memory for a corner must be reserved.
    pub(crate) fn extend(&mut self, time: Q, amount: Q, rate: Q)
        requires room { HasReserve self.old }
        requires later { time_of_last self.old.grown.points <ℚ time }
        ensures { self.new.grown ≡ trace_with self.old.grown (time, amount) rate }
    {
        let kept = self.curve.keeps_slope(rate);
        let last = self.curve.slope();
        close_unless(kept, &mut self.rates, last);
        self.curve.extend(time, amount, rate);
    }

    /// Extends the trace until the label of its node, to this amount and at this rate. None means that the label is constant and the trace
    /// unchanged.
    pub(crate) fn extend_or_hold(&mut self, label: Q, amount: Q, rate: Option<Q>)
        requires room { HasReserve self.old }
        requires later { IsSome rate → time_of_last self.old.grown.points <ℚ label }
        ensures { self.new.grown ≡ trace_after self.old.grown label amount rate }
    {
        if let Some(rate) = rate {
            self.extend(label, amount, rate);
        }
    }

    /// Returns the trace so far. Fails if an allocation fails.
    pub(crate) fn finish(self) -> Result<Trace, AllocError>
        ensures { IfOk result (λ t. seen_trace t ≡ self.grown) }
    {
        let GrowingTrace { curve, rates } = self;
        let rates = with_last(rates, curve.slope())?;
        let curve = curve.finish()?;
        Ok(Trace { curve, rates })
    }

    /// Returns a copy of the trace so far. Fails if an allocation fails.
    pub(crate) fn copy(&self, alloc: Global) -> Result<Trace, AllocError>
        ensures { IfOk result (λ t. seen_trace t ≡ self.now.grown) }
    {
        let rates = self.rates.as_slice().to_vec(alloc)?;
        let rates = with_last(rates, self.curve.slope())?;
        let curve = self.curve.copy(alloc)?;
        Ok(Trace { curve, rates })
    }
}
