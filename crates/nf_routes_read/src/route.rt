// A single route.
ghost use Rattle.std.specs.Prelude.{◌≡◌, [], ◌∷◌, ◌++◌, IfOk, OnOk, OnErr};

use nf_graph::LinkId;
use nf_net::Piece;
use std::alloc::{AllocError, Global};
use std::marker::Model;

/// A route with its name and its links in order. `pieces` holds its inflow, in the order of the rate lines. A piece has a rate (an amount
/// per unit of time) from its start until the next start.
#[derive(Drop)]
pub struct Route {
    name: String,
    links: Vec<LinkId>,
    pieces: Vec<Piece>,
}

impl Model for Route {
    ghost use Rattle.std.specs.String.{string_bytes};
    ghost use Rattle.nf_routes_def.specs.RoutesFile.{NamedRoute};
    ghost use Rattle.nf_routes_read.specs.Codes.{coded_named_route};

    ghost Value = { NamedRoute };

    ghost coded = { coded_named_route };

    ghost view = { λ r. record { name = string_bytes r.name; route = record { links = r.links.items; pieces = r.pieces.items } } };
}

impl Route {
    /// Returns a route without pieces.
    pub(crate) fn new(alloc: Global, name: &str, links: Vec<LinkId>) -> Result<Route, AllocError>
        ensures { IfOk result (λ route. route
            ≡ record { name = name.now; route = record { links = links.items; pieces = [] } }) }
    {
        let name = String::from_str(alloc, name)?;
        Ok(Route {
            name,
            links,
            pieces: Vec::new(alloc),
        })
    }

    /// Returns the name.
    pub fn name(&self) -> &str
        ensures { result.now ≡ self.now.name }
    {
        &self.name
    }

    /// Returns the links, in order.
    pub fn links(&self) -> &[LinkId]
        ensures { result.now ≡ self.now.route.links }
    {
        &self.links
    }

    /// Returns the pieces of the route's inflow, in order.
    pub fn pieces(&self) -> &[Piece]
        ensures { result.now ≡ self.now.route.pieces }
    {
        &self.pieces
    }

    /// Appends a piece. If an allocation fails, the route is unchanged.
    pub(crate) fn push(&mut self, piece: Piece) -> Result<(), AllocError>
        ensures ok { OnOk result (self.new ≡ record {
          name = self.old.name;
          route = record { links = self.old.route.links; pieces = self.old.route.pieces ++ piece ∷ [] };
        }) }
        ensures err { OnErr result (self.new ≡ self.old) }
    {
        self.pieces.push(piece)?;
        Ok(())
    }
}
