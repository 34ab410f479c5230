// Reading of a routes file.
ghost use Rattle.std.specs.Prelude.{◌≡◌, ◌≤◌, length, Ok, Err, IfOk, IfErr, MatchResult};
ghost use Rattle.nf_routes_def.specs.declared.RoutesRule.TheVariants.{G17};
ghost use Rattle.nf_text_def.specs.Faults.{longest_text};
ghost use Rattle.nf_side.specs.Faults.{IfBroken};
ghost use Rattle.nf_routes_def.specs.Routes.{AreWalks};
ghost use Rattle.nf_routes_def.specs.RoutesFile.{routes_in, routes_of, HoldsCircleIn, ReadsRoutes};
ghost use Rattle.nf_routes_def.specs.Kept.{KeepRules};

use crate::draft::Draft;
use crate::routes::Routes;
use nf_net::Network;
use nf_routes_def::RoutesRule;
use nf_side::{FileFault, read_draft};
use std::alloc::Global;

/// A reason to refuse a routes file.
pub type RoutesFault = FileFault<RoutesRule>;

// Reads a routes file. The loading order decides G17.
fn read_routes(alloc: Global, net: &Network, text: &[u8]) -> Result<Routes, RoutesFault>
    requires { length text.now ≤ longest_text }
    ensures { MatchResult result (λ routes. routes_in net.now text.now ≡ Ok routes)
        (λ fault. IfBroken fault (λ broken. routes_in net.now text.now ≡ Err broken)) }
{
    let draft = read_draft::<Draft>(alloc, net, text)?;
    draft.close(alloc, net)
}

/// Reads the routes of a network from a text of at most 67,108,864 bytes. Each route is a walk from source to sink. Refuses with the first
/// broken rule and its line. Rules of all bytes and lines come first, then rules of single lines in order, then rules of the whole file,
/// with line 0. The last rule, G17, is broken exactly if some links, each directly before the next on a route, start and end with the same
/// link.
pub fn parse_routes(alloc: Global, net: &Network, text: &[u8]) -> Result<Routes, RoutesFault>
    requires { length text.now ≤ longest_text }
    ensures reads { MatchResult result (λ routes. ReadsRoutes net.now text.now (Ok routes))
        (λ fault. IfBroken fault (λ broken. ReadsRoutes net.now text.now (Err broken))) }
    ensures kept { IfOk result (λ routes. KeepRules routes) }
    ensures walks { IfOk result (λ routes. AreWalks net.now.net (routes_of routes)) }
    ensures circle { IfErr result
        (λ fault. IfBroken fault (λ broken. broken.rule ≡ G17 → HoldsCircleIn net.now text.now)) }
{
    read_routes(alloc, net, text)
}
