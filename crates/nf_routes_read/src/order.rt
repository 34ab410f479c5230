// The loading order of links. The lowest remaining link whose direct predecessors on all routes were taken is taken next.
ghost use Rattle.std.specs.Prelude.{◌≡◌, ◌<◌, ◌||◌, ◌==◌, not, IfOk, IfSome};
ghost use Rattle.std.specs.List.{list_all, range_with_len};
ghost use Rattle.nf_routes_def.specs.Routes.{pairs_of, all_pairs, is_taken as is_taken_by, is_free as is_free_by, first_free, loading_order as order_by, takes_all as takes_all_by};
ghost use Rattle.nf_routes_def.specs.RoutesFile.{routes_of};

use crate::route::Route;
use nf_graph::LinkId;
use std::alloc::{AllocError, Global};

// Returns whether a link was taken.
fn is_taken(taken: &[LinkId], link: LinkId) -> bool
    ensures { result ≡ is_taken_by taken.now link }
{
    taken.iter().any(|one| *one == link)
}

// Returns whether each direct predecessor of the link on this route was taken.
fn may_follow(links: &[LinkId], taken: &[LinkId], link: LinkId) -> bool
    ensures { result
        ≡ list_all (λ p. not (p.1 == link) || is_taken_by taken.now p.0) (pairs_of links.now) }
{
    for i in 1..links.len() {
        if links[i] == link && !is_taken(taken, links[i - 1]) {
            return false;
        }
    }
    true
}

// Returns whether each direct predecessor of the link on all routes was taken.
fn may_follow_all(routes: &[Route], taken: &[LinkId], link: LinkId) -> bool
    ensures { result ≡ list_all (λ p. not (p.1 == link) || is_taken_by taken.now p.0)
        (all_pairs (routes_of routes.now)) }
{
    for route in routes {
        if !may_follow(route.links(), taken, link) {
            return false;
        }
    }
    true
}

// Returns whether the link was not taken yet, but all its direct predecessors were.
fn is_free(routes: &[Route], taken: &[LinkId], link: LinkId) -> bool
    ensures { result ≡ is_free_by (all_pairs (routes_of routes.now)) taken.now link }
{
    !is_taken(taken, link) && may_follow_all(routes, taken, link)
}

// Returns the lowest remaining link whose direct predecessors were all taken, if there is one.
fn next_free(routes: &[Route], taken: &[LinkId], link_count: u32) -> Option<LinkId>
    ensures { result
        ≡ first_free (all_pairs (routes_of routes.now)) taken.now (range_with_len 0 link_count) }
{
    for number in 0..link_count {
        let link = LinkId(number);
        if is_free(routes, taken, link) {
            return Some(link);
        }
    }
    None
}

/// Returns the loading order of the links. The lowest remaining link whose direct predecessors on all routes were taken is taken next. The
/// order omits the links of circles and the links after them.
pub fn loading_order(
    alloc: Global,
    link_count: u32,
    routes: &[Route],
) -> Result<Vec<LinkId>, AllocError>
    ensures { IfOk result (λ order. order.items ≡ order_by link_count (routes_of routes.now)) }
{
    let mut order = Vec::new(alloc);
    for _ in 0..link_count {
        let Some(link) = next_free(routes, &order, link_count) else {
            return Ok(order);
        };
        order.push(link)?;
    }
    Ok(order)
}

/// Returns whether the loading order takes every link. Every link is taken exactly if the routes hold no circle. A circle is a sequence of
/// links, each directly before the next on a route, that starts and ends with the same link.
pub(crate) fn takes_all(
    alloc: Global,
    link_count: u32,
    routes: &[Route],
) -> Result<bool, AllocError>
    ensures { IfOk result (λ all. all ≡ takes_all_by link_count (routes_of routes.now)) }
{
    let order = loading_order(alloc, link_count, routes)?;
    for number in 0..link_count {
        if !is_taken(&order, LinkId(number)) {
            return Ok(false);
        }
    }
    Ok(true)
}
