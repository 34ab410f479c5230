// The text of a loading by route.
ghost use Rattle.std.specs.Prelude.{◌≡◌, [], ◌∷◌, ◌++◌, length, codes};
ghost use Rattle.nf_net_def.specs.Report.{for_each, point_lines};
ghost use Rattle.nf_edge.specs.Writing.{state_of, Wrote};
ghost use Rattle.nf_report_pages.specs.Written.{WroteLines};
ghost use Rattle.nf_routes_def.specs.RoutesText.{route_lines, routed_text};
ghost use Rattle.nf_routes.specs.Carried.{with_kept_entries};

use crate::load_text::{write_head, write_links};
use nf_curve::Curve;
use nf_edge::{Sink, SinkFault};
use nf_frac::Q;
use nf_net::Network;
use nf_report::{write_curve, write_line};
use nf_routes::{Carried, Routes};

// Writes the arrival and travel curves of a route.
fn write_route<O: Sink>(
    out: &mut O,
    name: &[u8],
    arrival: &Curve,
    travel: &Curve,
) -> Result<(), SinkFault>
    ensures { WroteLines (state_of O.Sink out.old)
        (state_of O.Sink out.new) (point_lines (codes "arrival") name.now arrival.now.points
        ++ point_lines (codes "travel") name.now travel.now.points) result }
{
    write_curve(out, b"arrival", name, arrival)?;
    write_curve(out, b"travel", name, travel)
}

// Writes the curves of the routes.
fn write_routes<O: Sink>(out: &mut O, routes: &Routes, routed: &Carried) -> Result<(), SinkFault>
    requires arrivals { length routed.now.arrivals.items ≡ length routes.now }
    requires travels { length routed.now.travels.items ≡ length routes.now }
    ensures { WroteLines (state_of O.Sink out.old) (state_of O.Sink out.new) (for_each
        (length routes.now) (route_lines routes.now (with_kept_entries [] routed.now))) result }
{
    for route in 0..routes.count() {
        let name = routes.name(route).as_bytes();
        let arrival = &routed.arrivals[route as usize];
        let travel = &routed.travels[route as usize];
        write_route(out, name, arrival, travel)?;
    }
    Ok(())
}

/// Writes a loading by route up to a horizon, a time. The queue, outflow and exit curves of each link come first. The arrival and travel
/// curves of each route follow. Allocates nothing.
///
/// The first fault ends the writing; the sink then took a proper prefix of the text.
pub fn write_routed<O: Sink>(
    out: &mut O,
    net: &Network,
    routes: &Routes,
    horizon: Q,
    routed: &Carried,
) -> Result<(), SinkFault>
    requires links { length routed.now.links.items ≡ length net.now.net.links }
    requires arrivals { length routed.now.arrivals.items ≡ length routes.now }
    requires travels { length routed.now.travels.items ≡ length routes.now }
    ensures { Wrote (state_of O.Sink out.old) (state_of O.Sink out.new)
        (routed_text net.now routes.now horizon (with_kept_entries [] routed.now)) result }
{
    write_head(out, b"routed", horizon)?;
    write_links(out, net, &routed.links)?;
    write_routes(out, routes, routed)?;
    write_line(out, b"end", &[])
}
