// Progress of a loading.
ghost use Rattle.std.specs.Prelude.{◌≡◌, IfOk};
ghost use Rattle.nf_routes_def.specs.RoutesFile.{routes_of};
ghost use Rattle.nf_routes_links.specs.Beginning.{nothing_loaded, nothing_sent};

use crate::stages::Stages;
use nf_frac::Q;
use nf_load::Loaded;
use nf_net::Network;
use nf_routes_read::Route;
use std::alloc::{AllocError, Global};
use std::marker::Model;

/// A link loaded up to its end.
#[derive(Drop)]
pub struct LoadedLink {
    pub end: Q,
    pub loaded: Loaded,
}

impl Model for LoadedLink {
    ghost use Rattle.nf_routes_def.specs.RoutesList.{LoadedLink as SeenLink};
    ghost use Rattle.nf_load.specs.Loadings.{loaded_of};
    ghost use Rattle.nf_routes_links.specs.Codes.{coded_loaded_link};

    ghost Value = { SeenLink };

    ghost coded = { coded_loaded_link };

    ghost view = { λ l. record { end = l.end; loaded = loaded_of l.loaded } };
}

/// Progress of a loading. `links` holds the loading of each loaded link. `entries` holds the amounts that each route has sent so far.
#[derive(Drop)]
pub struct SoFar {
    pub links: Vec<Option<LoadedLink>>,
    pub entries: Vec<Stages>,
}

// Returns one `None` for each link: no link is loaded.
fn no_links(alloc: Global, net: &Network) -> Result<Vec<Option<LoadedLink>>, AllocError>
    ensures { IfOk result (λ links. links.items ≡ nothing_loaded net.now.net.links) }
{
    let mut links = Vec::new(alloc);
    for _ in 0..net.link_count() {
        links.push(None)?;
    }
    Ok(links)
}

// Returns empty stages for each route: no route has sent anything.
fn no_entries(alloc: Global, routes: &[Route]) -> Result<Vec<Stages>, AllocError>
    ensures { IfOk result (λ entries. entries.items ≡ nothing_sent (routes_of routes.now)) }
{
    let mut entries = Vec::new(alloc);
    for _route in routes {
        entries.push(Stages::new(alloc))?;
    }
    Ok(entries)
}

impl SoFar {
    /// Returns the progress at the start: no link is loaded, and no route has sent anything.
    pub fn new(alloc: Global, net: &Network, routes: &[Route]) -> Result<SoFar, AllocError>
        ensures links { IfOk result
            (λ so_far. so_far.links.items ≡ nothing_loaded net.now.net.links) }
        ensures entries { IfOk result
            (λ so_far. so_far.entries.items ≡ nothing_sent (routes_of routes.now)) }
    {
        Ok(SoFar {
            links: no_links(alloc, net)?,
            entries: no_entries(alloc, routes)?,
        })
    }
}
