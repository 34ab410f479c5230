// The arrival in an equilibrium, after a given departure.
ghost use Rattle.std.specs.Prelude.{◌≡◌, ◌<◌, ◌-◌, length, slice_get, Some, IfSome, IfOk};
ghost use Rattle.nf_rational.specs.Operations.{0ℚ};
ghost use Rattle.nf_rational.specs.Order.{◌≤ℚ◌};
ghost use Rattle.nf_model.specs.Equilibrium.{points_at};
ghost use Rattle.nf_curve.specs.Flows.{seen_flow};
ghost use Rattle.nf_app.specs.Requests.{usual_budgets};
ghost use Rattle.nf_app.specs.Arrivals.{IsArrivalOf, ArrivesIn};

use nf_app_answers::Arrival;
use nf_app_words::{USUAL_PATTERNS, USUAL_PHASES};
use nf_curve::{Curve, Flow};
use nf_frac::Q;
use nf_net::{Network, NodeId};
use nf_phase::{Budgets, solve};
use std::alloc::{AllocError, Global};

// Returns the last point of a curve.
fn last_point(curve: &Curve) -> (Q, Q)
    ensures { slice_get curve.now.points (length curve.now.points - 1) ≡ Some result }
{
    curve.point(curve.len() - 1)
}

/// Returns the last point of the label curve of a node.
pub(crate) fn last_label(flow: &Flow, node: NodeId) -> (Q, Q)
    requires { node < length flow.now.labels.items }
    ensures { slice_get (points_at (seen_flow flow.now).labels node)
        (length (points_at (seen_flow flow.now).labels node) - 1) ≡ Some result }
{
    let place = node.index();
    let label = &flow.labels[place];
    last_point(label)
}

// Returns the default budgets.
fn usual_budgets() -> Budgets
    ensures { result ≡ usual_budgets }
{
    Budgets {
        phases: USUAL_PHASES,
        patterns: USUAL_PATTERNS,
    }
}

// Returns the arrival after this departure.
fn arrival_at(alloc: Global, net: &Network, departs: Q) -> Result<Arrival, AllocError>
    requires { 0ℚ ≤ℚ departs }
    ensures { IfOk result (ArrivesIn net.now.net departs) }
{
    // Proof: a network has its source among its nodes.
    net.recall();
    let budgets = usual_budgets();
    let solution = solve(alloc, net, departs, budgets)?;
    match solution.stopped.as_ref() {
        Some(stop) => Ok(Arrival::Stopped(*stop)),
        None => Ok(Arrival::At(last_label(&solution.flow, net.sink()).1)),
    }
}

/// Returns the arrival at the sink after this departure, in an equilibrium of the network. Without a departure the amount is never
/// supplied. The network is solved to the departure within the default budgets.
pub(crate) fn find_arrival(
    alloc: Global,
    net: &Network,
    departs: Option<Q>,
) -> Result<Arrival, AllocError>
    requires { IfSome departs (λ time. 0ℚ ≤ℚ time) }
    ensures { IfOk result (IsArrivalOf net.now.net departs) }
{
    match departs {
        None => Ok(Arrival::Never),
        Some(departs) => arrival_at(alloc, net, departs),
    }
}
