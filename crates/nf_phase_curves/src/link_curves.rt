// The three growing curves of a link.
ghost use Rattle.std.specs.Prelude.{◌≡◌, ◌≤◌, IfOk, OnOk, IsSome};
ghost use Rattle.nf_rational.specs.Order.{◌<ℚ◌};
ghost use Rattle.nf_frac_def.specs.declared.Part.TheVariants.{Curve as CurvePart};
ghost use Rattle.nf_frac_def.specs.Passing.{passes_Q};
ghost use Rattle.nf_frac_def.specs.Checked.{at_part, Gives};
ghost use Rattle.nf_model.specs.Curve.{AreSlopes};
ghost use Rattle.nf_curve.specs.Flows.{seen_trace};
ghost use Rattle.nf_rational.specs.Signs.{is_positive};
ghost use Rattle.nf_thin_def.specs.Ends.{time_of_last};
ghost use Rattle.nf_thin_def.specs.ReportCurves.{trace_after, queue_curve_after, first_trace, first_queue, amount_so_far};
ghost use Rattle.nf_phase_curves.specs.Growing.{HasReserve};
ghost use Rattle.nf_phase_curves.specs.Restoring.{of_link};

use crate::growing::GrowingCurve;
use crate::stepping::LinkStep;
use crate::traces::GrowingTrace;
use nf_curve::{Curve, Trace};
use nf_frac::{Halt, Q};
use std::alloc::{AllocError, Global};
use std::marker::Model;

/// The flow over time of a link: the amounts that have entered and left it, and its queue. The inflow and the queue are by the time at its
/// tail, the outflow by the time at its head.
#[derive(Drop)]
pub(crate) struct LinkFlow {
    pub(crate) inflow: Trace,
    pub(crate) outflow: Trace,
    pub(crate) queue: Curve,
}

/// The growing flow over time of a link. The inflow and the queue are by the time at its tail, the outflow by the time at its head.
#[derive(Drop)]
pub struct LinkCurves {
    inflow: GrowingTrace,
    outflow: GrowingTrace,
    queue: GrowingCurve,
}

impl Model for LinkCurves {
    ghost use Rattle.std.specs.Prelude.{min};
    ghost use Rattle.nf_thin_def.specs.ReportCurves.{LinkCurves as SeenCurves};
    ghost use Rattle.nf_phase_curves.specs.Growing.{Roomy, coded_roomy, coded_curves};

    ghost Value = { Roomy SeenCurves };

    ghost coded = { coded_roomy coded_curves };

    ghost view = { λ a. record {
      grown = record { inflow = a.inflow.grown; outflow = a.outflow.grown; queue = a.queue.grown };
      spare = min a.inflow.spare (min a.outflow.spare a.queue.spare);
    } };
}

impl LinkCurves {
    /// Returns the curves before the first phase, with these labels of departure 0 at the ends of the link. Fails if an allocation fails.
    pub(crate) fn first(
        alloc: Global,
        tail_label: Q,
        head_label: Q,
    ) -> Result<LinkCurves, AllocError>
        ensures { IfOk result (λ c. c.grown ≡ record {
          inflow = first_trace (is_positive tail_label) tail_label;
          outflow = first_trace (is_positive head_label) head_label;
          queue = first_queue (is_positive tail_label) tail_label;
        }) }
    {
        let inflow = GrowingTrace::first(alloc, tail_label)?;
        let outflow = GrowingTrace::first(alloc, head_label)?;
        let queue = GrowingCurve::first_queue(alloc, tail_label)?;
        Ok(LinkCurves {
            inflow,
            outflow,
            queue,
        })
    }

    /// Returns the growing curves of a link with the points of these curves. Refuses with Passed, of the part Curve, at the first operation
    /// of the list of the queue that exceeds its bound. Fails with `Memory` if an allocation fails.
    pub(crate) fn of(
        alloc: Global,
        inflow: &Trace,
        outflow: &Trace,
        queue: &Curve,
    ) -> Result<LinkCurves, Halt<Q>>
        requires inflow { AreSlopes (seen_trace inflow.now).points (seen_trace inflow.now).rates }
        requires outflow { AreSlopes (seen_trace outflow.now).points (seen_trace outflow.now).rates }
        ensures { Gives (λ c. c.grown) (λ q. q) result
            (at_part CurvePart
            (of_link passes_Q (seen_trace inflow.now) (seen_trace outflow.now) queue.now.points)) }
    {
        let inflow = GrowingTrace::of(alloc, inflow)?;
        let outflow = GrowingTrace::of(alloc, outflow)?;
        let queue = GrowingCurve::of(alloc, queue)?;
        Ok(LinkCurves {
            inflow,
            outflow,
            queue,
        })
    }

    /// Reserves memory for one more corner of each curve. The curves are unchanged, also if an allocation fails.
    pub(crate) fn reserve(&mut self) -> Result<(), AllocError>
        ensures same { self.new.grown ≡ self.old.grown }
        ensures room { OnOk result (HasReserve self.new) }
        ensures kept { self.old.spare ≤ self.new.spare }
    {
        self.inflow.reserve()?;
        self.outflow.reserve()?;
        self.queue.reserve()
    }

    /// Returns the amount that has entered the link so far.
    pub(crate) fn amount(&self) -> Q
        ensures { result ≡ amount_so_far self.now.grown }
    {
        self.inflow.amount()
    }

    /// Extends the curves until the labels of the link's ends, by the step of the link. No rate and no queue step mean that the label is
    /// constant and the curve unchanged.
    pub(crate) fn extend(&mut self, tail_label: Q, head_label: Q, step: &LinkStep)
        requires room { HasReserve self.old }
        requires inflow { IsSome step.now.inflow_rate
            → time_of_last self.old.grown.inflow.points <ℚ tail_label }
        requires outflow { IsSome step.now.outflow_rate
            → time_of_last self.old.grown.outflow.points <ℚ head_label }
        requires queue { IsSome step.now.queue → time_of_last self.old.grown.queue.points <ℚ tail_label }
        ensures inflow { self.new.grown.inflow
            ≡ trace_after self.old.grown.inflow tail_label step.now.amount step.now.inflow_rate }
        ensures outflow { self.new.grown.outflow
            ≡ trace_after self.old.grown.outflow head_label step.now.amount step.now.outflow_rate }
        ensures queue { self.new.grown.queue
            ≡ queue_curve_after self.old.grown.queue tail_label step.now.queue }
    {
        self.inflow
            .extend_or_hold(tail_label, step.amount, step.inflow_rate);
        self.outflow
            .extend_or_hold(head_label, step.amount, step.outflow_rate);
        self.queue.extend_or_hold(tail_label, step.queue);
    }

    /// Returns the curves so far, and ends their growth. Fails if an allocation fails.
    pub(crate) fn finish(self) -> Result<LinkFlow, AllocError>
        ensures inflow { IfOk result (λ link. seen_trace link.inflow ≡ self.grown.inflow) }
        ensures outflow { IfOk result (λ link. seen_trace link.outflow ≡ self.grown.outflow) }
        ensures queue { IfOk result (λ link. link.queue.points ≡ self.grown.queue.points) }
    {
        let LinkCurves {
            inflow,
            outflow,
            queue,
        } = self;
        Ok(LinkFlow {
            inflow: inflow.finish()?,
            outflow: outflow.finish()?,
            queue: queue.finish()?,
        })
    }

    /// Returns copies of the curves so far. Fails if an allocation fails.
    pub(crate) fn copy(&self, alloc: Global) -> Result<LinkFlow, AllocError>
        ensures inflow { IfOk result (λ link. seen_trace link.inflow ≡ self.now.grown.inflow) }
        ensures outflow { IfOk result (λ link. seen_trace link.outflow ≡ self.now.grown.outflow) }
        ensures queue { IfOk result (λ link. link.queue.points ≡ self.now.grown.queue.points) }
    {
        Ok(LinkFlow {
            inflow: self.inflow.copy(alloc)?,
            outflow: self.outflow.copy(alloc)?,
            queue: self.queue.copy(alloc)?,
        })
    }
}
