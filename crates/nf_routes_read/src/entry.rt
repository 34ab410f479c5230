// Single lines of a routes file.
ghost use Rattle.std.specs.Prelude.{◌≡◌, ℕ, ◌<◌, ◌≤◌, true, false, length, drop, position, MatchOption, IfSome, IfOk, MatchResult};
ghost use Rattle.std.specs.Str.{bytes_eq};
ghost use Rattle.nf_net_def.specs.Names as names;
ghost use Rattle.nf_net_def.specs.Names.{has_name};
ghost use Rattle.nf_side.specs.NameAt.{IsNameAt};
ghost use Rattle.nf_routes_def.specs.declared.RoutesRule.TheVariants.{G8};
ghost use Rattle.nf_routes_def.specs.RoutesFile.{route_names, route_line, rate_line, end_line, routes_entry};
ghost use Rattle.nf_routes_read.specs.Entries.{AreLinksOf, NoLinks, Says, FitsRoutes, HasLinksBelow};

use crate::route::Route;
use nf_net::{LinkId, Network, Piece};
use nf_routes_def::RoutesRule;
use nf_side::{LineFault, ReadLine, is_name, is_word, link_of, number_of};
use std::alloc::Global;

/// The entry of a line. `Route` is a route without pieces, `Rate` is a piece for the route at an index, and `End` is the `end` line.
#[derive(Drop)]
pub enum Entry {
    Route(Route),
    Rate(usize, Piece),
    End,
}

// Returns the word as a name, if it is one.
#[tactic(auto, using(nf_net_file::proofs::NameText::name_is_text, crate::proofs::RouteNames::no_name_text))]
fn name_of(word: &[u8]) -> Option<&str>
    ensures { MatchOption result (names.is_name word.now ≡ false)
        (λ name. (name.now ≡ word.now) × (names.is_name word.now ≡ true)) }
{
    match std::str::from_utf8(word) {
        Ok(name) if is_name(word) => Some(name),
        _ => None,
    }
}

// Returns the index of the first route with this name.
fn first_named(routes: &[Route], name: &[u8]) -> Option<usize>
    ensures { result ≡ position (λ route. bytes_eq name.now route.name) routes.now }
{
    routes
        .iter()
        .position(|route| is_word(name, route.name().as_bytes()))
}

/// Returns the index of the route with this name; `None` exactly if there is none.
#[tactic(auto, using(crate::proofs::RouteNames::found, crate::proofs::RouteNames::not_found))]
pub fn place_of(routes: &[Route], name: &[u8]) -> Option<usize>
    ensures named { MatchOption result (has_name (route_names routes.now) name.now ≡ false)
        (λ place. IsNameAt (route_names routes.now) name.now place) }
    ensures within { IfSome result (λ place. place < length routes.now) }
{
    first_named(routes, name)
}

// Returns the links named by the words from the third on. Refuses with G8 if a word names no link.
fn read_links(
    alloc: Global,
    net: &Network,
    line: &ReadLine,
) -> Result<Vec<LinkId>, LineFault<RoutesRule>>
    requires { 2 ≤ length line.now.words }
    ensures { MatchResult result
        (λ links. AreLinksOf net.now.link_names (drop 2 line.now.words) links.items)
        (λ fault. NoLinks fault net.now.link_names (drop 2 line.now.words)) }
{
    let mut links = Vec::new(alloc);
    for place in 2..line.len() {
        let Some(link) = link_of(net, line.at(place)) else {
            return Err(LineFault::Broken(RoutesRule::G8));
        };
        links.push(link)?;
    }
    Ok(links)
}

// Reads `route NAME LINK LINK ...`.
#[tactic(auto, using(crate::proofs::RouteWords::route_count_wrong, crate::proofs::RouteWords::route_bad_name, crate::proofs::RouteWords::route_known))]
fn read_route(alloc: Global, net: &Network, line: &ReadLine) -> Result<Entry, LineFault<RoutesRule>>
    requires { 0 < length line.now.words }
    ensures says { Says (route_line net.now.link_names (drop 1 line.now.words)) result }
    ensures fits { (routes : ℕ) → IfOk result (λ entry. FitsRoutes routes entry) }
    ensures links { IfOk result (λ entry. HasLinksBelow (length net.now.link_names) entry) }
{
    if line.len() < 3 {
        return Err(LineFault::Broken(RoutesRule::G6));
    }
    let Some(name) = name_of(line.at(1)) else {
        return Err(LineFault::Broken(RoutesRule::G7));
    };
    let links = read_links(alloc, net, line)?;
    let route = Route::new(alloc, name, links)?;
    Ok(Entry::Route(route))
}

// Reads `rate NAME START RATE`.
#[tactic(auto, using(nf_side::proofs::LineWords::rate_count_wrong, nf_side::proofs::LineWords::rate_unknown, nf_side::proofs::LineWords::rate_known))]
fn read_rate(routes: &[Route], line: &ReadLine) -> Result<Entry, LineFault<RoutesRule>>
    requires { 0 < length line.now.words }
    ensures says { Says (rate_line (route_names routes.now) (drop 1 line.now.words)) result }
    ensures fits { IfOk result (λ entry. FitsRoutes (length routes.now) entry) }
    ensures links { (links : ℕ) → IfOk result (λ entry. HasLinksBelow links entry) }
{
    if line.len() != 4 {
        return Err(LineFault::Broken(RoutesRule::G6));
    }
    let Some(place) = place_of(routes, line.at(1)) else {
        return Err(LineFault::Broken(RoutesRule::G8));
    };
    let Some(start) = number_of(line.at(2)) else {
        return Err(LineFault::Broken(RoutesRule::G9));
    };
    let Some(rate) = number_of(line.at(3)) else {
        return Err(LineFault::Broken(RoutesRule::G9));
    };
    Ok(Entry::Rate(place, Piece { start, rate }))
}

// Reads `end`.
#[tactic(auto, using(nf_side::proofs::LineWords::end_count_wrong, nf_side::proofs::LineWords::end_count_right))]
fn read_end(line: &ReadLine) -> Result<Entry, LineFault<RoutesRule>>
    requires { 0 < length line.now.words }
    ensures says { Says (end_line (drop 1 line.now.words)) result }
    ensures fits { (routes : ℕ) → IfOk result (λ entry. FitsRoutes routes entry) }
    ensures links { (links : ℕ) → IfOk result (λ entry. HasLinksBelow links entry) }
{
    if line.len() != 1 {
        return Err(LineFault::Broken(RoutesRule::G6));
    }
    Ok(Entry::End)
}

/// Returns the entry of a line after the routes read so far. Refuses with the first of G5 to G9 that the line breaks, or if an allocation
/// fails.
pub fn read_entry(
    alloc: Global,
    net: &Network,
    routes: &[Route],
    line: &ReadLine,
) -> Result<Entry, LineFault<RoutesRule>>
    ensures says { Says
        (routes_entry net.now.link_names (route_names routes.now) line.now.words) result }
    ensures fits { IfOk result (λ entry. FitsRoutes (length routes.now) entry) }
    ensures links { IfOk result (λ entry. HasLinksBelow (length net.now.link_names) entry) }
{
    if line.len() == 0 {
        return Err(LineFault::Broken(RoutesRule::G5));
    }
    let key = line.at(0);
    if is_word(key, b"route") {
        return read_route(alloc, net, line);
    }
    if is_word(key, b"rate") {
        return read_rate(routes, line);
    }
    if is_word(key, b"end") {
        return read_end(line);
    }
    Err(LineFault::Broken(RoutesRule::G5))
}
