// Shows that each number of a flow and of a stop is a fraction that a file may have, and that each count has at most 64 bits.
ghost use Rattle.std.specs.Prelude.{Some, map};
ghost use Rattle.std.specs.List.{AllByRecursion};
ghost use Rattle.std.specs.Option.{option_copied};
ghost use Rattle.nf_net_def.specs.WellNamed.{IsFraction};
ghost use Rattle.nf_curve.specs.Flows.{seen_trace};
ghost use Rattle.nf_report_laws.specs.Readable.{IsCount, IsCountOrNone, AreFractionPoints, IsFractionTrace, IsReadableCause};

use nf_curve::{Curve, Stop, Trace};
use nf_frac::Q;

fn know_points(curve: &Curve)
    ensures { AreFractionPoints curve.now.points }
{
    for index in 0..curve.len() {
        let here = curve.point(index);
        here.0.recall();
        here.1.recall();
    }
}

fn know_rates(rates: &[Q])
    ensures { AllByRecursion IsFraction rates.now }
{
    for rate in rates {
        rate.recall();
    }
}

fn know_trace(trace: &Trace)
    ensures { IsFractionTrace (seen_trace trace.now) }
{
    know_points(&trace.curve);
    know_rates(&trace.rates);
}

/// Shows this of the points of some curves.
pub(crate) fn know_curves(curves: &[Curve])
    ensures { AllByRecursion AreFractionPoints (map (λ c. c.points) curves.now) }
{
    for curve in curves {
        know_points(curve);
    }
}

/// Shows this of the points and rates of some traces.
pub(crate) fn know_traces(traces: &[Trace])
    ensures { AllByRecursion IsFractionTrace (map seen_trace traces.now) }
{
    for trace in traces {
        know_trace(trace);
    }
}

fn know_count(count: u64)
    ensures { IsCount count }
{}

fn know_place(place: Option<u64>)
    ensures { IsCountOrNone place }
{
    match place {
        None => {}
        Some(number) => know_count(number),
    }
}

fn know_stop(stop: &Stop)
    ensures { IsReadableCause (Some stop.now) }
{
    match stop {
        Stop::Phases { made } => know_count(*made),
        Stop::Patterns { phase, tried } => {
            know_count(*phase);
            know_count(*tried);
        }
        Stop::Passed { phase, place, at } => {
            know_count(*phase);
            know_place(*place);
            at.left.recall();
            at.right.recall();
        }
        Stop::NoPattern { phase } => know_count(*phase),
    }
}

/// Shows this of the numbers and counts of a stop, if there is one.
pub(crate) fn know_cause(stopped: Option<&Stop>)
    ensures { IsReadableCause (option_copied stopped.entry) }
{
    match stopped {
        None => {}
        Some(stop) => know_stop(stop),
    }
}
