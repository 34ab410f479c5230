// The whole loading by route.
ghost use Rattle.std.specs.Prelude.{◌≡◌, map, Ok, IfOk};
ghost use Rattle.nf_rational.specs.Operations.{0ℚ};
ghost use Rattle.nf_rational.specs.Order.{◌≤ℚ◌};
ghost use Rattle.nf_frac_def.specs.Passing.{passes_Q};
ghost use Rattle.nf_frac_def.specs.declared.Part.TheVariants.{Load};
ghost use Rattle.nf_frac_def.specs.Checked.{at_part, Gives};
ghost use Rattle.nf_routes_def.specs.Routes.{AreWalks};
ghost use Rattle.nf_routes_def.specs.RoutesList as lists;
ghost use Rattle.nf_routes_def.specs.RoutesList.{end_or, loaded_or, but_last, last_entry, routes_list};
ghost use Rattle.nf_routes_def.specs.Meanings.{IsRouted, RoutesArrive};
ghost use Rattle.nf_routes_def.specs.RoutesFile.{routes_of};
ghost use Rattle.nf_load.specs.Loadings.{loaded_of};
ghost use Rattle.nf_routes_links.specs.Standing.{AreAllLoaded, HaveSent};
ghost use Rattle.nf_routes.specs.KeptList.{kept_list};
ghost use Rattle.nf_routes.specs.Routed.{routed_of};

use nf_curve::Curve;
use nf_frac::{Halt, Q};
use nf_load::Loaded;
use nf_net::Network;
use nf_routes_links::{Kept, LoadedLink, Stages, load_all, travels};
use nf_routes_read::Routes;
use std::alloc::{AllocError, Global};

/// The loading of a network along routes, by time. `ends` and `links` are indexed by link: each link is loaded up to its end, with queue,
/// outflow and exits. The other fields are indexed by route. `entries` holds the amount that the route has sent into each of its links, in
/// route order. `arrivals` holds the amount that has arrived. `travels` holds the arrival time of each departure. Amounts count departures
/// up to the horizon.
#[derive(Drop)]
pub struct Routed {
    pub ends: Vec<Q>,
    pub links: Vec<Loaded>,
    pub entries: Vec<Vec<Curve>>,
    pub arrivals: Vec<Curve>,
    pub travels: Vec<Curve>,
}

// Returns the ends and the loadings of the links.
fn ended(alloc: Global, links: Vec<Option<LoadedLink>>) -> Result<(Vec<Q>, Vec<Loaded>), AllocError>
    requires { AreAllLoaded links.items }
    ensures ends { IfOk result (λ parts. parts.0.items ≡ map (end_or passes_Q) links.items) }
    ensures loaded { IfOk result
        (λ parts. map loaded_of parts.1.items ≡ map (loaded_or passes_Q) links.items) }
{
    let mut ends = Vec::new(alloc);
    let mut all = Vec::new(alloc);
    for link in links {
        if let Some(link) = link {
            ends.push(link.end)?;
            all.push(link.loaded)?;
        }
    }
    Ok((ends, all))
}

// Splits the routes' stages: returns the entries into the links of each route, and the amount that has arrived.
fn parted(alloc: Global, entries: Vec<Stages>) -> Result<(Vec<Vec<Curve>>, Vec<Curve>), AllocError>
    requires { HaveSent entries.items }
    ensures entries { IfOk result
        (λ parts. map (λ sent. map (λ c. c.points) sent.items) parts.0.items
        ≡ map (but_last passes_Q) entries.items) }
    ensures arrivals { IfOk result
        (λ parts. map (λ c. c.points) parts.1.items ≡ map last_entry entries.items) }
{
    let mut all = Vec::new(alloc);
    let mut arrivals = Vec::new(alloc);
    for stages in entries {
        if let Some((sent, arrival)) = stages.end() {
            all.push(sent)?;
            arrivals.push(arrival)?;
        }
    }
    Ok((all, arrivals))
}

/// Loads a network by route, with the entries that are kept, as `load_routes` does with all.
pub(crate) fn load_kept(
    alloc: Global,
    net: &Network,
    routes: &Routes,
    horizon: Q,
    kept: Kept,
) -> Result<Routed, Halt<Q>>
    requires horizon { 0ℚ ≤ℚ horizon }
    requires walks { AreWalks net.now.net (routes_of routes.now) }
    ensures list { Gives routed_of (λ q. q) result
        (at_part Load (kept_list passes_Q kept net.now.net (routes_of routes.now) horizon)) }
    ensures routed { (all : lists.Routed)
        → routes_list passes_Q net.now.net (routes_of routes.now) horizon ≡ Ok all
        → IsRouted net.now.net (routes_of routes.now) horizon all }
    ensures arrives { (all : lists.Routed)
        → routes_list passes_Q net.now.net (routes_of routes.now) horizon ≡ Ok all
        → RoutesArrive net.now.net (routes_of routes.now) horizon all }
{
    // Proof: transit times and capacities are those of a network.
    net.recall();
    let list = routes.as_slice();
    let so_far = load_all(alloc, net, list, horizon, kept)?;
    let (ends, links) = ended(alloc, so_far.links)?;
    let (entries, arrivals) = parted(alloc, so_far.entries)?;
    let travels = travels(alloc, &links, list, horizon)?;
    Ok(Routed {
        ends,
        links,
        entries,
        arrivals,
        travels,
    })
}

/// Loads a network by route up to a horizon, a time of at least 0, with routes of this network. The flow of a route uses its links in
/// order. Each link's inflow follows the law of the point queue (Vickrey 1969; Koch and Skutella 2011). Routes share each link first in,
/// first out. Each link is loaded after the links that directly precede it on a route.
///
/// All curves are in short form. All that is sent along a route arrives in the end, and `travels` holds the arrival of each departure. The
/// supply of the network is not used. Returns `Passed` exactly at the first operation of its operation sequence that passes, with part
/// Load.
pub fn load_routes(
    alloc: Global,
    net: &Network,
    routes: &Routes,
    horizon: Q,
) -> Result<Routed, Halt<Q>>
    requires horizon { 0ℚ ≤ℚ horizon }
    requires walks { AreWalks net.now.net (routes_of routes.now) }
    ensures list { Gives routed_of (λ q. q) result
        (at_part Load (routes_list passes_Q net.now.net (routes_of routes.now) horizon)) }
    ensures routed { IfOk result
        (λ r. IsRouted net.now.net (routes_of routes.now) horizon (routed_of r)) }
    ensures arrives { IfOk result
        (λ r. RoutesArrive net.now.net (routes_of routes.now) horizon (routed_of r)) }
{
    load_kept(alloc, net, routes, horizon, Kept::Every)
}
