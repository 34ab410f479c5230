// Ends of links. A link is loaded up to its end. That time is the greatest of the horizon and the end exits of the links directly before it
// on a route. The end exit of a link is its exit at its own end.
ghost use Rattle.std.specs.Prelude.{◌≡◌, slice_get};
ghost use Rattle.nf_check_def.specs.Curves.{last_value as last_by};
ghost use Rattle.nf_routes_def.specs.Routes.{pairs_of, all_pairs};
ghost use Rattle.nf_routes_def.specs.RoutesList.{exit_end as exit_end_by, end_by};
ghost use Rattle.nf_routes_def.specs.RoutesFile.{routes_of};

use crate::so_far::LoadedLink;
use nf_curve::Curve;
use nf_frac::Q;
use nf_net::LinkId;
use nf_routes_read::Route;

// Returns the value of the last point.
fn last_value(curve: &Curve) -> Q
    ensures { result ≡ last_by curve.now.points }
{
    let (_, value) = curve.point(curve.len() - 1);
    value
}

// Returns the exit of a link at its own end, or 0 if the link is not loaded.
fn exit_end(links: &[Option<LoadedLink>], link: LinkId) -> Q
    ensures { result ≡ exit_end_by (slice_get links.now link) }
{
    match links.get(link.index()) {
        Some(Some(link)) => last_value(&link.loaded.exit),
        _ => Q::zero(),
    }
}

// Returns the greatest of `least` and the end exits of the links that directly precede `link` on one route.
fn end_along(along: &[LinkId], links: &[Option<LoadedLink>], link: LinkId, least: Q) -> Q
    ensures { result ≡ end_by least (pairs_of along.now) links.now link }
{
    let mut end = least;
    for i in 1..along.len() {
        if along[i] == link {
            end = end.greater(exit_end(links, along[i - 1]));
        }
    }
    end
}

/// Returns the end of a link: the time up to which it is loaded, at least `horizon`. The exits of the links that directly precede it on a
/// route may raise it.
pub(crate) fn end_by(routes: &[Route], links: &[Option<LoadedLink>], link: LinkId, horizon: Q) -> Q
    ensures { result ≡ end_by horizon (all_pairs (routes_of routes.now)) links.now link }
{
    let mut end = horizon;
    for route in routes {
        end = end_along(route.links(), links, link, end);
    }
    end
}
