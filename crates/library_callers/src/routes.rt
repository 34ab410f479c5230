// The arrival of all that departs along a route.
ghost use Rattle.std.specs.Prelude.{◌≡◌, ◌<◌, length, IfOk};
ghost use Rattle.nf_rational.specs.Operations.{0ℚ};
ghost use Rattle.nf_rational.specs.Order.{◌≤ℚ◌};
ghost use Rattle.nf_model.specs.Curve.{value};
ghost use Rattle.nf_routes_def.specs.Routes.{AreWalks};
ghost use Rattle.nf_routes_def.specs.RoutesFile.{routes_of};
ghost use Rattle.nf_routes_def.specs.Meanings.{travel_at};
ghost use Rattle.nf_routes.specs.Routed.{routed_of};
ghost use Rattle.library_callers.specs.RouteArrivals.{AllArrivedBy};

use nf_frac::{Halt, Part, PassedAt, Q};
use nf_net::Network;
use nf_routes::{Routed, Routes, load_routes};
use std::alloc::Global;

// Returns the arrival of a departure along a route.
fn travel(routed: &Routed, route: u32, departure: Q) -> Result<Q, PassedAt<Q>>
    requires route { route < length routed.now.travels.items }
    requires departure { 0ℚ ≤ℚ departure }
    ensures { IfOk result
        (λ time. time ≡ value (travel_at (routed_of routed.now) route) departure) }
{
    let curve = &routed.travels[route as usize];
    curve.value(departure, Part::Load)
}

/// Returns a time by which all that departs along a route up to the horizon, a time of at least 0, has arrived. Refuses if an operation
/// exceeds its bound, or if an allocation fails.
pub fn all_arrived_by(
    alloc: Global,
    net: &Network,
    routes: &Routes,
    route: u32,
    horizon: Q,
) -> Result<Q, Halt<Q>>
    requires horizon { 0ℚ ≤ℚ horizon }
    requires walks { AreWalks net.now.net (routes_of routes.now) }
    requires route { route < length routes.now }
    ensures { IfOk result (AllArrivedBy net.now.net (routes_of routes.now) route horizon) }
{
    let routed = load_routes(alloc, net, routes, horizon)?;
    let time = travel(&routed, route, horizon)?;
    Ok(time)
}
