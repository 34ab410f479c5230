// The step by which a phase extends the curves of a link.
ghost use Rattle.std.specs.Prelude.{◌≡◌, ◌≢◌, true};
ghost use Rattle.nf_rational.specs.Operations.{0ℚ};
ghost use Rattle.nf_frac_def.specs.declared.Part.TheVariants.{Curve};
ghost use Rattle.nf_frac_def.specs.Passing.{passes_Q};
ghost use Rattle.nf_frac_def.specs.Checked.{at_part};
ghost use Rattle.nf_rational.specs.Signs.{is_positive as is_positive_by};
ghost use Rattle.nf_thin_def.specs.CurveList.{rate_over as rate_over_by, size_at as size_at_by, slope_at as slope_at_by};
ghost use Rattle.nf_thin_def.specs.CurveList.{queue_step as queue_step_by, link_step as link_step_by};

use crate::phase_links::LinkPhase;
use nf_frac::{Part, PassedAt, Q, at};
use std::marker::Model;

/// The step of a queue: its size at the end of the phase, an amount, and its slope until then, by the time at the tail.
#[derive(Clone, Copy)]
pub struct QueueStep {
    pub size: Q,
    pub slope: Q,
}

impl Model for QueueStep {
    ghost use Rattle.nf_thin_def.specs.CurveList.{QueueStep as SeenStep};
    ghost use Rattle.nf_phase_curves.specs.StepCodes.{coded_queue_step};

    ghost Value = { SeenStep };

    ghost coded = { coded_queue_step };

    ghost view = { λ a. record { size = a.size; slope = a.slope } };

    ghost inverse = { λ s. record { size = s.size; slope = s.slope } };
}

/// The step of a link in a phase. `amount` has entered the link by the end of the phase. `inflow_rate` is by the time at its tail,
/// `outflow_rate` by the time at its head. If the label of the tail is constant, there is no inflow rate and no queue step. If the label of
/// the head is constant, there is no outflow rate.
#[derive(Clone, Copy)]
pub struct LinkStep {
    pub amount: Q,
    pub inflow_rate: Option<Q>,
    pub outflow_rate: Option<Q>,
    pub queue: Option<QueueStep>,
}

impl Model for LinkStep {
    ghost use Rattle.nf_thin_def.specs.CurveList.{LinkStep as SeenStep};
    ghost use Rattle.nf_phase_curves.specs.StepCodes.{coded_link_step};

    ghost Value = { SeenStep };

    ghost coded = { coded_link_step };

    ghost view = { λ a. record { amount = a.amount; inflow_rate = a.inflow_rate; outflow_rate = a.outflow_rate; queue = a.queue } };

    ghost inverse = { λ s. record { amount = s.amount; inflow_rate = s.inflow_rate; outflow_rate = s.outflow_rate; queue = s.queue } };
}

fn is_positive(number: Q) -> bool
    ensures { result ≡ is_positive_by number }
{
    Q::zero().is_below(number)
}

// Returns the flow divided by the slope if the slope is above 0, and None otherwise.
fn rate_over(above: bool, flow: Q, slope: Q) -> Result<Option<Q>, PassedAt<Q>>
    requires { above ≡ true → slope ≢ 0ℚ }
    ensures { result ≡ at_part Curve (rate_over_by passes_Q above flow slope) }
{
    if !above {
        return Ok(None);
    }
    let rate = at!(Part::Curve, flow.quotient(slope));
    Ok(Some(rate))
}

// Returns the size of the queue of a link with this slack; 0 if the link is unbounded or the slack is at most 0.
fn size_at(above: bool, capacity: Option<Q>, slack: Q) -> Result<Q, PassedAt<Q>>
    ensures { result ≡ at_part Curve (size_at_by passes_Q above capacity slack) }
{
    if !above {
        return Ok(Q::zero());
    }
    match capacity {
        None => Ok(Q::zero()),
        Some(capacity) => {
            let size = at!(Part::Curve, capacity.product(slack));
            Ok(size)
        }
    }
}

// Returns the slope of a queue that flow enters at this rate; 0 if the flow doesn't fill the link or the link is unbounded.
fn slope_at(filled: bool, capacity: Option<Q>, rate: Q) -> Result<Q, PassedAt<Q>>
    ensures { result ≡ at_part Curve (slope_at_by passes_Q filled capacity rate) }
{
    if !filled {
        return Ok(Q::zero());
    }
    match capacity {
        None => Ok(Q::zero()),
        Some(capacity) => {
            let slope = at!(Part::Curve, rate.difference(capacity));
            Ok(slope)
        }
    }
}

// Returns the queue step of a link, or None if there is no inflow rate.
fn queue_step(link: &LinkPhase, rate: Option<Q>) -> Result<Option<QueueStep>, PassedAt<Q>>
    ensures { result ≡ at_part Curve (queue_step_by passes_Q link.now rate) }
{
    match rate {
        None => Ok(None),
        Some(rate) => {
            let arrival = at!(Part::Curve, link.tail_label.sum(link.transit));
            let slack = at!(Part::Curve, link.head_label.difference(arrival));
            let size = size_at(is_positive(slack), link.capacity, slack)?;
            let slope = slope_at(link.filled, link.capacity, rate)?;
            Ok(Some(QueueStep { size, slope }))
        }
    }
}

/// Returns the step of a link in a phase of this length, where `so_far` had entered the link by its beginning. Refuses with Passed, of the
/// part Curve, at the first operation of the link's list that exceeds its bound. Allocates nothing.
pub(crate) fn link_step(length: Q, so_far: Q, link: &LinkPhase) -> Result<LinkStep, PassedAt<Q>>
    ensures { result ≡ at_part Curve (link_step_by passes_Q length so_far link.now) }
{
    let flowed = at!(Part::Curve, length.product(link.flow));
    let amount = at!(Part::Curve, so_far.sum(flowed));
    let inflow_rate = rate_over(is_positive(link.tail_slope), link.flow, link.tail_slope)?;
    let outflow_rate = rate_over(is_positive(link.head_slope), link.flow, link.head_slope)?;
    Ok(LinkStep {
        amount,
        inflow_rate,
        outflow_rate,
        queue: queue_step(link, inflow_rate)?,
    })
}
