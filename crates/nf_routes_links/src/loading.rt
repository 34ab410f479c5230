// Loading of the links, one after the other.
ghost use Rattle.std.specs.Prelude.{◌≡◌, ◌<◌, length, slice_get, IfOk};
ghost use Rattle.nf_rational.specs.Operations.{0ℚ};
ghost use Rattle.nf_rational.specs.Order.{◌≤ℚ◌};
ghost use Rattle.nf_frac_def.specs.Passing.{passes_Q};
ghost use Rattle.nf_frac_def.specs.declared.Part.TheVariants.{Load};
ghost use Rattle.nf_frac_def.specs.Checked.{at_part, Gives};
ghost use Rattle.nf_routes_def.specs.Routes.{AreRoutes, HoldCircle};
ghost use Rattle.nf_routes_def.specs.RoutesList as lists;
ghost use Rattle.nf_routes_def.specs.RoutesFile.{routes_of};
ghost use Rattle.nf_routes_links.specs.Keeping.{all_kept};
ghost use Rattle.nf_routes_links.specs.Standing.{seen_so_far, MayLoad, IsFullyLoaded};

use crate::ends::end_by;
use crate::entries::{begin_all, inflow_of, send_all_on};
use crate::keeping::{Kept, keep};
use crate::so_far::{LoadedLink, SoFar};
use nf_frac::{Halt, Q};
use nf_load::load_link;
use nf_net::{LinkId, Network};
use nf_routes_read::{Route, loading_order};
use std::alloc::Global;

/// Loads a link up to its end with the entries of the routes over it. Records the loading, and sends the routes' amounts on.
pub(crate) fn load_here(
    alloc: Global,
    net: &Network,
    routes: &[Route],
    horizon: Q,
    link: LinkId,
    so_far: &mut SoFar,
) -> Result<(), Halt<Q>>
    requires link { link < length net.now.net.links }
    requires horizon { 0ℚ ≤ℚ horizon }
    requires may { MayLoad net.now.net (routes_of routes.now) link (seen_so_far so_far.old) }
    ensures { Gives (λ _. seen_so_far so_far.new) (λ q. q) result
        (at_part Load
        (lists.load_here passes_Q horizon (routes_of routes.now) (seen_so_far so_far.old) link
        (slice_get net.now.net.links link))) }
{
    let here = net.link(link);
    let end = end_by(routes, &so_far.links, link, horizon);
    begin_all(alloc, routes, link, horizon, &mut so_far.entries)?;
    let inflow = inflow_of(alloc, routes, link, &so_far.entries)?;
    let loaded = load_link(alloc, here.transit, here.capacity, &inflow, end)?;
    send_all_on(alloc, routes, link, &loaded.exit, &mut so_far.entries)?;
    so_far.links[link.index()] = Some(LoadedLink { end, loaded });
    Ok(())
}

/// Loads all links, each after the links that directly precede it on a route. After each link, drops the entries that are not kept. The
/// routes may not hold a circle of links.
pub fn load_all(
    alloc: Global,
    net: &Network,
    routes: &[Route],
    horizon: Q,
    kept: Kept,
) -> Result<SoFar, Halt<Q>>
    requires horizon { 0ℚ ≤ℚ horizon }
    requires routes { AreRoutes net.now.net (routes_of routes.now) }
    requires straight { ¬ HoldCircle (routes_of routes.now) }
    ensures list { Gives seen_so_far (λ q. q) result
        (at_part Load (all_kept passes_Q kept net.now.net (routes_of routes.now) horizon)) }
    ensures complete { IfOk result
        (λ so_far. IsFullyLoaded net.now.net (routes_of routes.now) (seen_so_far so_far)) }
{
    // Proof: transit times and capacities are those of a network.
    net.recall();
    let order = loading_order(alloc, net.link_count(), routes)?;
    let mut so_far = SoFar::new(alloc, net, routes)?;
    for link in &order {
        load_here(alloc, net, routes, horizon, *link, &mut so_far)?;
        keep(&mut so_far, kept)?;
    }
    Ok(so_far)
}
