// The arrival of a departure in an equilibrium.
ghost use Rattle.std.specs.Prelude.{◌≡◌, None, length, IfOk, IfSome};
ghost use Rattle.nf_rational.specs.Operations.{0ℚ};
ghost use Rattle.nf_rational.specs.Order.{◌≤ℚ◌};
ghost use Rattle.nf_model.specs.Equilibrium.{label};
ghost use Rattle.nf_curve.specs.Flows.{seen_flow};
ghost use Rattle.nf_phase.specs.Solution.{bounds_of};
ghost use Rattle.library_callers.specs.Arrivals.{ArrivesAt, StopsBefore};

use nf_curve::Flow;
use nf_frac::{Halt, Part, PassedAt, Q};
use nf_net::Network;
use nf_phase::{Budgets, solve};
use std::alloc::Global;

// Returns the label of the sink at a departure.
fn sink_label(net: &Network, flow: &Flow, departure: Q) -> Result<Q, PassedAt<Q>>
    requires labels { length flow.now.labels.items ≡ net.now.net.nodes }
    requires departure { 0ℚ ≤ℚ departure }
    ensures { IfOk result (λ time. time ≡ label (seen_flow flow.now) net.now.net.sink departure) }
{
    let place = net.sink().index();
    let curve = &flow.labels[place];
    curve.value(departure, Part::Curve)
}

/// Returns when a driver who leaves the source at `departure`, a time of at least 0, arrives at the sink in an equilibrium. Returns None
/// exactly if the run stops before this departure. Refuses if an operation exceeds its bound, or if an allocation fails.
pub fn arrival_after(
    alloc: Global,
    net: &Network,
    departure: Q,
    budgets: Budgets,
) -> Result<Option<Q>, Halt<Q>>
    requires { 0ℚ ≤ℚ departure }
    ensures arrives { IfOk result (λ found. IfSome found (ArrivesAt net.now.net departure)) }
    ensures stops { IfOk result
        (λ found. found ≡ None → StopsBefore net.now.net (bounds_of departure budgets)) }
{
    let solution = solve(alloc, net, departure, budgets)?;
    if solution.stopped.is_some() {
        return Ok(None);
    }
    let time = sink_label(net, &solution.flow, departure)?;
    Ok(Some(time))
}
