// The data of a link in a phase, as the curve list reads it.
ghost use Rattle.std.specs.Prelude.{◌≡◌};
ghost use Rattle.nf_thin_def.specs.CurveList.{is_filled as is_filled_by};

use nf_frac::Q;
use nf_model::State;
use std::marker::Model;

/// A link in a phase: its capacity and transit time, its flow, and whether the flow fills it. The labels are those of its ends at the end
/// of the phase, and the slopes are of these labels.
#[derive(Clone, Copy)]
pub(crate) struct LinkPhase {
    pub capacity: Option<Q>,
    pub transit: Q,
    pub flow: Q,
    pub filled: bool,
    pub tail_slope: Q,
    pub head_slope: Q,
    pub tail_label: Q,
    pub head_label: Q,
}

impl Model for LinkPhase {
    ghost use Rattle.nf_thin_def.specs.CurveList.{LinkPhase as SeenPhase};
    ghost use Rattle.nf_phase_curves.specs.StepCodes.{coded_link_phase};

    ghost Value = { SeenPhase };

    ghost coded = { coded_link_phase };

    ghost view = { λ a. record {
      capacity = a.capacity;
      transit = a.transit;
      flow = a.flow;
      filled = a.filled;
      tail_slope = a.tail_slope;
      head_slope = a.head_slope;
      tail_label = a.tail_label;
      head_label = a.head_label;
    } };

    ghost inverse = { λ l. record {
      capacity = l.capacity;
      transit = l.transit;
      flow = l.flow;
      filled = l.filled;
      tail_slope = l.tail_slope;
      head_slope = l.head_slope;
      tail_label = l.tail_label;
      head_label = l.head_label;
    } };
}

/// Returns whether the flow fills a link: the link is resetting or Full.
pub(crate) fn is_filled(state: Option<State>, resetting: bool) -> bool
    ensures { result ≡ is_filled_by state resetting }
{
    match state {
        Some(State::Full) => true,
        _ => resetting,
    }
}
