// The whole loading by route, without the entries.
ghost use Rattle.std.specs.Prelude.{IfOk};
ghost use Rattle.nf_rational.specs.Operations.{0ℚ};
ghost use Rattle.nf_rational.specs.Order.{◌≤ℚ◌};
ghost use Rattle.nf_frac_def.specs.Passing.{passes_Q};
ghost use Rattle.nf_frac_def.specs.declared.Part.TheVariants.{Load};
ghost use Rattle.nf_frac_def.specs.Checked.{at_part, Gives};
ghost use Rattle.nf_routes_def.specs.Routes.{AreWalks};
ghost use Rattle.nf_routes_def.specs.RoutesList.{routes_list};
ghost use Rattle.nf_routes_def.specs.Meanings.{IsRouted, RoutesArrive};
ghost use Rattle.nf_routes_def.specs.RoutesFile.{routes_of};
ghost use Rattle.nf_routes.specs.Carried.{carried_of};

use crate::routed::load_kept;
use nf_curve::Curve;
use nf_frac::{Halt, Q};
use nf_load::Loaded;
use nf_net::Network;
use nf_routes_links::Kept;
use nf_routes_read::Routes;
use std::alloc::Global;

/// The loading of a network along routes, by time, without the entries. The fields are those of `Routed`.
#[derive(Drop)]
pub struct Carried {
    pub ends: Vec<Q>,
    pub links: Vec<Loaded>,
    pub arrivals: Vec<Curve>,
    pub travels: Vec<Curve>,
}

/// Loads a network by route as `load_routes` does, without the entries: an entry is dropped once the link after it is loaded. The memory
/// grows by the curves of links and routes, and not by their product.
///
/// `carried_of` (nf_routes/specs/Carried.antt) is the loading with the entries of the operation sequence. Returns `Passed` exactly at the
/// first operation of the operation sequence of `load_routes` that passes, with part Load.
pub fn carry_routes(
    alloc: Global,
    net: &Network,
    routes: &Routes,
    horizon: Q,
) -> Result<Carried, Halt<Q>>
    requires horizon { 0ℚ ≤ℚ horizon }
    requires walks { AreWalks net.now.net (routes_of routes.now) }
    ensures list { Gives (carried_of net.now.net (routes_of routes.now) horizon) (λ q. q) result
        (at_part Load (routes_list passes_Q net.now.net (routes_of routes.now) horizon)) }
    ensures routed { IfOk result (λ c. IsRouted net.now.net (routes_of routes.now) horizon
        (carried_of net.now.net (routes_of routes.now) horizon c)) }
    ensures arrives { IfOk result (λ c. RoutesArrive net.now.net (routes_of routes.now) horizon
        (carried_of net.now.net (routes_of routes.now) horizon c)) }
{
    let loaded = load_kept(alloc, net, routes, horizon, Kept::Last)?;
    Ok(Carried {
        ends: loaded.ends,
        links: loaded.links,
        arrivals: loaded.arrivals,
        travels: loaded.travels,
    })
}
