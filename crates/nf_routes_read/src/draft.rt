// The parser state of a routes file.
ghost use Rattle.std.specs.Prelude.{◌≡◌, ◌<◌, length, Ok, Err, OnOk, MatchResult, All};
ghost use Rattle.nf_side.specs.Drafted.{open_frame};
ghost use Rattle.nf_side.specs.Faults.{IfBroken};
ghost use Rattle.nf_routes_def.specs.RoutesFile.{RouteLine, routes_rule_of, routes_after, routes_frame};
ghost use Rattle.nf_routes_read.specs.Entries.{seen_entry, FitsRoutes, HasLinksBelow};
ghost use Rattle.nf_routes_def.specs.Kept.{AreSound};
ghost use Rattle.nf_routes_read.specs.Drafts.{routes_closed};

use crate::entry::{Entry, place_of, read_entry};
use crate::order::takes_all;
use crate::reading::RoutesFault;
use crate::route::Route;
use crate::routes::Routes;
use crate::walk::is_walk;
use nf_net::Network;
use nf_routes_def::RoutesRule;
use nf_side::{FileHead, LineFault, MOST_LINES, PieceRules, ReadLine, SideDraft, piece_rule};
use std::alloc::{AllocError, Global};
use std::marker::Model;

/// The greatest number of routes.
const MOST_ROUTES: usize = 100;

// The rules of the pieces of a route.
const PIECE_RULES: PieceRules<RoutesRule> = PieceRules {
    negative: RoutesRule::G13,
    not_after: RoutesRule::G14,
    too_many: RoutesRule::G15,
    most: MOST_LINES,
};

/// The parser state: the routes so far, and whether `end` was read. New routes are allocated by `alloc`.
#[derive(Drop)]
pub struct Draft {
    alloc: Global,
    routes: Vec<Route>,
    ended: bool,
}

impl Model for Draft {
    ghost use Rattle.nf_routes_def.specs.RoutesFile.{RoutesDraft};

    ghost Value = { RoutesDraft };

    ghost view = { λ d. record { routes = d.routes.items; ended = d.ended } };
}

impl Draft {
    // Returns the first of G10 to G12 that a route breaks after the routes so far.
    fn route_rule(&self, net: &Network, route: &Route) -> Option<RoutesRule>
        requires { All (λ e. e < length net.now.link_names) route.now.route.links }
        ensures { result
            ≡ routes_rule_of net.now.net self.now (RouteLine route.now.name route.now.route.links) }
    {
        // Proof: each link has a name.
        net.recall();
        if place_of(&self.routes, route.name().as_bytes()).is_some() {
            return Some(RoutesRule::G10);
        }
        if self.routes.len() >= MOST_ROUTES {
            return Some(RoutesRule::G11);
        }
        if !is_walk(net, route.links()) {
            return Some(RoutesRule::G12);
        }
        None
    }

    // Returns the first of G10 to G15 that the entry breaks after the lines before it.
    fn rule(&self, net: &Network, entry: &Entry) -> Option<RoutesRule>
        requires fits { FitsRoutes (length self.now.routes) entry.now }
        requires links { HasLinksBelow (length net.now.link_names) entry.now }
        ensures { result ≡ routes_rule_of net.now.net self.now (seen_entry entry.now) }
    {
        match entry {
            Entry::Route(route) => self.route_rule(net, route),
            Entry::Rate(place, piece) => piece_rule(
                self.routes[*place].pieces(),
                piece,
                PIECE_RULES,
            ),
            Entry::End => None,
        }
    }

    fn add(&mut self, entry: Entry) -> Result<(), AllocError>
        requires { FitsRoutes (length self.old.routes) entry }
        ensures { OnOk result (self.new ≡ routes_after self.old (seen_entry entry)) }
    {
        match entry {
            Entry::Route(route) => self.routes.push(route)?,
            Entry::Rate(place, piece) => self.routes[place].push(piece)?,
            Entry::End => self.ended = true,
        }
        Ok(())
    }

    /// Returns the routes, or the first broken rule of G16 and G17. G16 is broken if there was no `end` line. G17 is broken if the loading
    /// order omits a link.
    pub fn close(self, alloc: Global, net: &Network) -> Result<Routes, RoutesFault>
        requires { AreSound net.now.net self.routes }
        ensures { MatchResult result (λ routes. routes_closed net.now self ≡ Ok routes)
            (λ fault. IfBroken fault (λ broken. routes_closed net.now self ≡ Err broken)) }
    {
        if !self.ended {
            return Err(RoutesFault::Broken {
                rule: RoutesRule::G16,
                line: 0,
            });
        }
        if !takes_all(alloc, net.link_count(), &self.routes)? {
            return Err(RoutesFault::Broken {
                rule: RoutesRule::G17,
                line: 0,
            });
        }
        Ok(Routes::kept(self.routes))
    }
}

impl SideDraft for Draft {
    type Rule = RoutesRule;

    ghost frame = { λ n. open_frame (routes_frame n) };

    fn head() -> FileHead<RoutesRule> {
        FileHead {
            not_ascii: RoutesRule::G1,
            long_line: RoutesRule::G2,
            no_head: RoutesRule::G3,
            keyword: b"routes",
        }
    }

    fn new(alloc: Global, _: &Network) -> Result<Draft, AllocError> {
        Ok(Draft {
            alloc,
            routes: Vec::new(alloc),
            ended: false,
        })
    }

    // Refuses with the first of G4 to G15 that the line breaks.
    fn add_line(&mut self, net: &Network, line: &ReadLine) -> Result<(), LineFault<RoutesRule>> {
        if self.ended {
            return Err(LineFault::Broken(RoutesRule::G4));
        }
        let entry = match read_entry(self.alloc, net, &self.routes, line) {
            Ok(entry) => entry,
            Err(fault) => return Err(fault),
        };
        if let Some(rule) = self.rule(net, &entry) {
            return Err(LineFault::Broken(rule));
        }
        self.add(entry)?;
        Ok(())
    }
}
