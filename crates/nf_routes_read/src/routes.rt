// The routes of a file.
ghost use Rattle.std.specs.Prelude.{◌≡◌, ◌<◌, length};
ghost use Rattle.nf_net_def.specs.Names.{name_at};
ghost use Rattle.nf_routes_def.specs.RoutesFile.{route_names, links_at, pieces_at};
ghost use Rattle.nf_routes_def.specs.Kept.{KeepRules};

use crate::route::Route;
use nf_graph::LinkId;
use nf_net::Piece;
use std::marker::Model;

/// The routes of a routes file, in order. A file has at most 100 routes, with different names of 1 to 24 letters, digits, `_`, `-` and `.`.
/// Each has at least one link and at most 200 pieces. The pieces of a route have rising starts, and no negative start or rate. The routes
/// hold no circle: no links, each directly before the next on some route, start and end with the same link.
#[derive(Drop)]
pub struct Routes {
    list: Vec<Route>,
}

impl Model for Routes {
    ghost use Rattle.std.specs.Prelude.{List};
    ghost use Rattle.std.specs.Coded.{coded_list};
    ghost use Rattle.nf_routes_def.specs.RoutesFile.{NamedRoute};
    ghost use Rattle.nf_routes_def.specs.Kept.{KeepRules};
    ghost use Rattle.nf_routes_read.specs.Codes.{coded_named_route};

    ghost Value = { List NamedRoute };

    ghost coded = { coded_list coded_named_route };

    ghost view = { λ r. r.list.items };

    ghost invariant = { λ r. KeepRules r.list.items };
}

impl Routes {
    // Wraps routes that satisfy the rules.
    pub(crate) fn kept(list: Vec<Route>) -> Routes
        requires { KeepRules list.items }
        ensures { result ≡ list.items }
    {
        Routes { list }
    }

    /// Returns all routes, in order.
    pub fn as_slice(&self) -> &[Route]
        ensures value { result.now ≡ self.now }
        ensures kept { KeepRules self.now }
    {
        &self.list
    }

    /// Returns the number of routes. Allocates nothing.
    pub fn count(&self) -> u32
        ensures value { result ≡ length self.now }
        ensures kept { KeepRules self.now }
    {
        self.list.len() as u32
    }

    /// Returns the name of a route. Allocates nothing.
    pub fn name(&self, route: u32) -> &str
        requires { route < length self.now }
        ensures value { result.now ≡ name_at (route_names self.now) route }
        ensures kept { KeepRules self.now }
    {
        self.list[route as usize].name()
    }

    /// Returns the links of a route, in order. Allocates nothing.
    pub fn links(&self, route: u32) -> &[LinkId]
        requires { route < length self.now }
        ensures value { result.now ≡ links_at self.now route }
        ensures kept { KeepRules self.now }
    {
        self.list[route as usize].links()
    }

    /// Returns the pieces of a route's inflow, in the order of the lines. Allocates nothing.
    pub fn pieces(&self, route: u32) -> &[Piece]
        requires { route < length self.now }
        ensures value { result.now ≡ pieces_at self.now route }
        ensures kept { KeepRules self.now }
    {
        self.list[route as usize].pieces()
    }
}
