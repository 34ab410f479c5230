// Amounts that routes send through a link.
ghost use Rattle.std.specs.Prelude.{◌≡◌, ◌∷◌, [], length};
ghost use Rattle.nf_rational.specs.Operations.{0ℚ};
ghost use Rattle.nf_rational.specs.Order.{◌≤ℚ◌};
ghost use Rattle.nf_frac_def.specs.Passing.{passes_Q};
ghost use Rattle.nf_frac_def.specs.declared.Part.TheVariants.{Load};
ghost use Rattle.nf_frac_def.specs.Checked.{at_part, Gives};
ghost use Rattle.nf_model.specs.Network.{ArePieces};
ghost use Rattle.nf_routes_def.specs.RoutesList as lists;
ghost use Rattle.nf_routes_def.specs.RoutesFile.{routes_of};
ghost use Rattle.nf_routes_links.specs.Amounts.{AreExits};
ghost use Rattle.nf_routes_links.specs.Beginning.{first_entry as first_by, HavePieces};
ghost use Rattle.nf_routes_links.specs.Points.{AreKnown};
ghost use Rattle.nf_routes_links.specs.Standing.{ForEachRoute, Sends};

use crate::next::next_entry;
use crate::points::copied_points;
use crate::stages::Stages;
use nf_curve::{Curve, Point};
use nf_frac::{Halt, Part, Q};
use nf_load::cumulative;
use nf_net::{LinkId, Piece};
use nf_routes_read::Route;
use std::alloc::Global;

// Returns whether the first link of a route is `link`.
fn begins_with(links: &[LinkId], link: LinkId) -> bool
    ensures { result ≡ lists.begins_at links.now link }
{
    match links {
        [] => false,
        [first, ..] => *first == link,
    }
}

// Returns whether a route contains `link`.
fn goes_over(links: &[LinkId], link: LinkId) -> bool
    ensures { result ≡ lists.goes_over links.now link }
{
    links.iter().any(|one| *one == link)
}

// Returns the amount sent into the first link of a route by each time up to the horizon, in short form.
fn first_entry(alloc: Global, pieces: &[Piece], horizon: Q) -> Result<Curve, Halt<Q>>
    requires pieces { ArePieces pieces.now }
    requires horizon { 0ℚ ≤ℚ horizon }
    ensures { Gives (λ c. c.points) (λ q. q) result
        (at_part Load (first_by passes_Q pieces.now horizon)) }
{
    let amounts = cumulative(alloc, pieces, horizon)?;
    Curve::short(alloc, &amounts, Part::Load)
}

// Starts the route if its first link is `link`.
fn begin(
    alloc: Global,
    route: &Route,
    link: LinkId,
    horizon: Q,
    sent: &mut Stages,
) -> Result<(), Halt<Q>>
    requires pieces { ArePieces route.now.route.pieces }
    requires horizon { 0ℚ ≤ℚ horizon }
    ensures { Gives (λ _. sent.new) (λ q. q) result
        (at_part Load (lists.begin_if passes_Q
        (lists.begins_at route.now.route.links link) horizon route.now.route sent.old)) }
{
    if begins_with(route.links(), link) {
        let first = first_entry(alloc, route.pieces(), horizon)?;
        sent.begin(first)?;
    }
    Ok(())
}

/// Starts each route whose first link is `link`.
pub(crate) fn begin_all(
    alloc: Global,
    routes: &[Route],
    link: LinkId,
    horizon: Q,
    entries: &mut [Stages],
) -> Result<(), Halt<Q>>
    requires many { length entries.old ≡ length routes.now }
    requires pieces { HavePieces (routes_of routes.now) }
    requires horizon { 0ℚ ≤ℚ horizon }
    ensures { Gives (λ _. entries.new) (λ q. q) result
        (at_part Load (lists.begin_all passes_Q horizon link (routes_of routes.now) entries.old)) }
{
    for i in 0..routes.len() {
        begin(alloc, &routes[i], link, horizon, &mut entries[i])?;
    }
    Ok(())
}

// Adds the route's entry into the link to `total`, if the route contains the link.
fn with_entry(
    alloc: Global,
    total: Curve,
    route: &Route,
    link: LinkId,
    sent: &Stages,
) -> Result<Curve, Halt<Q>>
    requires { Sends link route.now.route sent.now }
    ensures { Gives (λ c. c.points) (λ q. q) result
        (at_part Load (lists.add_if passes_Q
        (lists.goes_over route.now.route.links link) total.points (lists.last_entry sent.now))) }
{
    if goes_over(route.links(), link) {
        Curve::sum(alloc, &total, sent.last(), Part::Load)
    } else {
        Ok(total)
    }
}

/// Returns the inflow of a link by time: the sum of the entries of the routes over it.
pub(crate) fn inflow_of(
    alloc: Global,
    routes: &[Route],
    link: LinkId,
    entries: &[Stages],
) -> Result<Curve, Halt<Q>>
    requires { ForEachRoute (Sends link) (routes_of routes.now) entries.now }
    ensures { Gives (λ c. c.points) (λ q. q) result
        (at_part Load
        (lists.sum_from passes_Q link ((0ℚ, 0ℚ) ∷ []) (routes_of routes.now) entries.now)) }
{
    let mut total = Curve::start(alloc, Q::zero())?;
    for i in 0..routes.len() {
        total = with_entry(alloc, total, &routes[i], link, &entries[i])?;
    }
    Ok(total)
}

// Sends the route's amount on through the link, if the route contains the link.
fn send_on(
    alloc: Global,
    route: &Route,
    link: LinkId,
    exit: &Curve,
    known: &mut Vec<Point>,
    sent: &mut Stages,
) -> Result<(), Halt<Q>>
    requires exits { AreExits exit.now.points }
    requires known { AreKnown exit.now.points known.old.items }
    requires sends { Sends link route.now.route sent.old }
    ensures list { Gives (λ _. sent.new) (λ q. q) result
        (at_part Load (lists.next_if passes_Q
        (lists.goes_over route.now.route.links link) exit.now.points sent.old)) }
    ensures known { AreKnown exit.now.points known.new.items }
{
    if goes_over(route.links(), link) {
        let next = next_entry(alloc, exit, known, sent.last())?;
        sent.push(next)?;
    }
    Ok(())
}

/// Sends the amounts of all routes over the link on through it. Exits at times that routes share are computed once.
pub(crate) fn send_all_on(
    alloc: Global,
    routes: &[Route],
    link: LinkId,
    exit: &Curve,
    entries: &mut [Stages],
) -> Result<(), Halt<Q>>
    requires exits { AreExits exit.now.points }
    requires send { ForEachRoute (Sends link) (routes_of routes.now) entries.old }
    ensures { Gives (λ _. entries.new) (λ q. q) result
        (at_part Load
        (lists.next_all passes_Q link exit.now.points (routes_of routes.now) entries.old)) }
{
    let mut known = copied_points(alloc, exit.as_points())?;
    for i in 0..routes.len() {
        send_on(alloc, &routes[i], link, exit, &mut known, &mut entries[i])?;
    }
    Ok(())
}
