// Arrival times of the departures along a route.
ghost use Rattle.std.specs.Prelude.{◌≡◌, ◌<◌, ◌≤◌, length, map, IfOk, IsTrue};
ghost use Rattle.nf_rational.specs.Operations.{0ℚ};
ghost use Rattle.nf_rational.specs.Order.{◌≤ℚ◌};
ghost use Rattle.nf_frac_def.specs.Passing.{passes_Q};
ghost use Rattle.nf_frac_def.specs.declared.Part.TheVariants.{Load};
ghost use Rattle.nf_frac_def.specs.Checked.{at_part, each, Gives};
ghost use Rattle.nf_check_def.specs.Curves.{departures as departures_by};
ghost use Rattle.nf_load.specs.Loadings.{loaded_of};
ghost use Rattle.nf_routes_def.specs.RoutesFile.{routes_of, links_at};
ghost use Rattle.nf_routes_links.specs.Travels.{travel_along, HaveExits, GoOver, GoOverAll, AreTravels};

use crate::points::copied_points;
use nf_curve::Curve;
use nf_frac::{Halt, Part, Q};
use nf_load::Loaded;
use nf_net::LinkId;
use nf_routes_read::Route;
use std::alloc::{AllocError, Global};

// Composes the exits of the links of a route, in order. Returns the arrival time of each departure, in short form.
fn travel(alloc: Global, links: &[Loaded], route: &Route, horizon: Q) -> Result<Curve, Halt<Q>>
    requires horizon { 0ℚ ≤ℚ horizon }
    requires exits { HaveExits (map loaded_of links.now) }
    requires over { GoOver (map loaded_of links.now) route.now.route.links }
    ensures { Gives (λ c. c.points) (λ q. q) result
        (at_part Load (travel_along passes_Q horizon (map loaded_of links.now) route.now.route.links
        (departures_by horizon))) }
{
    let mut travel = Curve::identity(alloc, horizon)?;
    for link in route.links() {
        let exit = &links[link.index()].exit;
        travel = Curve::compose(alloc, exit, &travel, horizon, Part::Load)?;
    }
    Curve::short(alloc, &travel, Part::Load)
}

// Returns whether two routes have the same links.
fn has_same_links(left: &[LinkId], right: &[LinkId]) -> bool
    ensures { IsTrue result → left.now ≡ right.now }
{
    if left.len() != right.len() {
        return false;
    }
    for i in 0..left.len() {
        if left[i] != right[i] {
            return false;
        }
    }
    true
}

// Returns the number of the first route with the same links as the route of this number.
fn first_alike(routes: &[Route], route: usize) -> usize
    requires { route < length routes.now }
    ensures within { result ≤ route }
    ensures alike { links_at routes.now result ≡ links_at routes.now route }
{
    for i in 0..route {
        if has_same_links(routes[i].links(), routes[route].links()) {
            return i;
        }
    }
    route
}

// Returns the same curve.
fn copied(alloc: Global, curve: &Curve) -> Result<Curve, AllocError>
    ensures { IfOk result (λ c. c.points ≡ curve.now.points) }
{
    let points = copied_points(alloc, curve.as_points())?;
    Ok(Curve::of_points(points))
}

// Returns the travel of the first route that has none yet. If an earlier route has the same links, it has the same travel.
fn next_travel(
    alloc: Global,
    links: &[Loaded],
    routes: &[Route],
    horizon: Q,
    travels: &[Curve],
) -> Result<Curve, Halt<Q>>
    requires horizon { 0ℚ ≤ℚ horizon }
    requires exits { HaveExits (map loaded_of links.now) }
    requires over { GoOverAll (map loaded_of links.now) (routes_of routes.now) }
    requires left { length travels.now < length routes.now }
    requires travels { AreTravels horizon (map loaded_of links.now) routes.now
        (map (λ c. c.points) travels.now) }
    ensures { Gives (λ c. c.points) (λ q. q) result
        (at_part Load
        (travel_along passes_Q horizon (map loaded_of links.now)
        (links_at routes.now (length travels.now)) (departures_by horizon))) }
{
    let route = travels.len();
    let alike = first_alike(routes, route);
    if alike < route {
        let known = copied(alloc, &travels[alike])?;
        return Ok(known);
    }
    travel(alloc, links, &routes[route], horizon)
}

/// Returns for each route the arrival time of each departure up to the horizon. The arrival time is the composition of the exits of the
/// route's links, in order.
pub fn travels(
    alloc: Global,
    links: &[Loaded],
    routes: &[Route],
    horizon: Q,
) -> Result<Vec<Curve>, Halt<Q>>
    requires horizon { 0ℚ ≤ℚ horizon }
    requires exits { HaveExits (map loaded_of links.now) }
    requires over { GoOverAll (map loaded_of links.now) (routes_of routes.now) }
    ensures { Gives (λ travels. map (λ c. c.points) travels.items) (λ q. q) result
        (at_part Load (each (λ route.
        travel_along passes_Q horizon (map loaded_of links.now) route.links (departures_by horizon))
        (routes_of routes.now))) }
{
    let mut travels = Vec::new(alloc);
    for _ in 0..routes.len() {
        let one = next_travel(alloc, links, routes, horizon, &travels)?;
        travels.push(one)?;
    }
    Ok(travels)
}
