// The slopes that solve a pattern's table, from one equation for each Tight component. All nodes of a component have the same slope, and
// its outflow less its inflow is known. No contract depends on these slopes, since a guess is judged like any other pattern.
ghost use Rattle.std.specs.Prelude.{◌≡◌, ◌<◌, ◌≤◌, length, IfOk, IfSome};
ghost use Rattle.nf_linear.specs.Limits.{most_unknowns};
ghost use Rattle.nf_thin_equation_laws.specs.Equations.{IsPatternIn};

use crate::node_parts::{Parts, state_in, tight_forest};
use crate::numbers::{add_at, number_or_zero, take_off_at};
use nf_frac::{Halt, Part, Q, at};
use nf_graph::{LinkId, LinkSets, NodeId};
use nf_linear::{MOST_UNKNOWNS, Table};
use nf_model::State;
use nf_net::Network;
use nf_pattern::Pattern;
use nf_thin_one::solved;
use std::alloc::{AllocError, Global};

// A Full or resetting link between two components.
#[derive(Clone, Copy)]
struct FullLink {
    tail: u32,
    head: u32,
    capacity: Q,
}

// Returns the Full and resetting links between two components, in link order. Fails if an allocation fails.
fn full_links(
    alloc: Global,
    net: &Network,
    sets: &LinkSets,
    pattern: &Pattern,
    parts: &Parts,
) -> Result<Vec<FullLink>, AllocError>
    requires { IsPatternIn net.now.net sets.now pattern.now }
{
    let mut links = Vec::new(alloc);
    for e in 0..net.link_count() {
        if let Some(State::Full) = state_in(sets, pattern, LinkId(e)) {
            let here = net.link(LinkId(e));
            let tail = parts.number(here.tail);
            let head = parts.number(here.head);
            let capacity = here.capacity.unwrap();
            if tail != head {
                links.push(FullLink {
                    tail,
                    head,
                    capacity,
                })?;
            }
        }
    }
    Ok(links)
}

// The coefficients of the equations of all components: of each component what leaves it less what enters it, by the slopes of the
// components. A component's coefficients stand together.
#[derive(Drop)]
struct Coefficients {
    count: u32,
    sums: Vec<Q>,
}

impl Coefficients {
    // Returns coefficients of 0.
    fn new(alloc: Global, count: u32) -> Result<Coefficients, AllocError> {
        let places = (count as usize).saturating_mul(count as usize);
        let sums = vec![in alloc; Q::zero(); places]?;
        Ok(Coefficients { count, sums })
    }

    // Returns the place of the coefficient of a component's slope in the equation of a component.
    fn place(&self, part: u32, slope: u32) -> usize {
        let start = (part as usize).saturating_mul(self.count as usize);
        start.saturating_add(slope as usize)
    }

    // Returns a coefficient.
    fn at(&self, part: u32, slope: u32) -> Q {
        number_or_zero(&self.sums, self.place(part, slope))
    }

    // Adds the flow of a link, which leaves its tail and enters its head.
    fn add(&mut self, link: FullLink) -> Result<(), Halt<Q>> {
        let leaving = self.place(link.tail, link.head);
        let entering = self.place(link.head, link.head);
        add_at(&mut self.sums, leaving, link.capacity)?;
        take_off_at(&mut self.sums, entering, link.capacity)
    }
}

// Returns the coefficients with the flows of all links.
fn summed(alloc: Global, count: u32, links: &[FullLink]) -> Result<Coefficients, Halt<Q>> {
    let mut sums = Coefficients::new(alloc, count)?;
    for i in 0..links.len() {
        sums.add(links[i])?;
    }
    Ok(sums)
}

// Sets an entry of the table, if it has such a place.
fn set_number(table: &mut Table<Q>, size: u32, row: u32, column: u32, number: Q)
    requires { length table.old ≡ size }
    ensures { length table.new ≡ size }
{
    if row >= size {
        return;
    }
    if column >= size {
        return;
    }
    table.set(row, column, number);
}

// Returns the component whose equation is in a row: that of the row's slope, or the source's component instead of the sink's.
fn part_of_row(row: u32, sink_part: u32) -> u32 {
    let part = row.saturating_add(1);
    if part == sink_part { 0 } else { part }
}

// Returns the row of a component's equation. Returns `None` for the sink's component, which has none.
fn row_of_part(part: u32, sink_part: u32) -> Option<u32> {
    if part == sink_part {
        return None;
    }
    let number = if part == 0 { sink_part } else { part };
    Some(number.saturating_sub(1))
}

// Sets the coefficient of a slope in the equation of a component. The slope of the source's component is 1, and has no column.
fn set_coefficient(
    table: &mut Table<Q>,
    size: u32,
    sums: &Coefficients,
    part: u32,
    slope: u32,
    sink_part: u32,
)
    requires { length table.old ≡ size }
    ensures { length table.new ≡ size }
{
    if slope == 0 {
        return;
    }
    if let Some(row) = row_of_part(part, sink_part) {
        set_number(table, size, row, slope - 1, sums.at(part, slope));
    }
}

// Sets the coefficients in which the flow of a link is.
fn set_link(table: &mut Table<Q>, size: u32, sums: &Coefficients, link: FullLink, sink_part: u32)
    requires { length table.old ≡ size }
    ensures { length table.new ≡ size }
{
    set_coefficient(table, size, sums, link.tail, link.head, sink_part);
    set_coefficient(table, size, sums, link.head, link.head, sink_part);
}

// Sets the right side of a row: what leaves the component and is not known by a slope.
fn set_right(
    table: &mut Table<Q>,
    sums: &Coefficients,
    row: u32,
    sink_part: u32,
    rate: Q,
) -> Result<(), Halt<Q>>
    requires { row < length table.old }
    ensures { length table.new ≡ length table.old }
{
    let part = part_of_row(row, sink_part);
    let surplus = if part == 0 { rate } else { Q::zero() };
    let right = at!(Part::Table, surplus.difference(sums.at(part, 0)));
    table.set_right(row, right);
    Ok(())
}

// Sets the right sides of all rows.
fn set_rights(
    table: &mut Table<Q>,
    size: u32,
    sums: &Coefficients,
    sink_part: u32,
    rate: Q,
) -> Result<(), Halt<Q>>
    requires { length table.old ≡ size }
    ensures { length table.new ≡ size }
{
    for row in 0..size {
        set_right(table, sums, row, sink_part, rate)?;
    }
    Ok(())
}

// Returns the table of the slopes of all components except that of the source.
fn slope_table(
    alloc: Global,
    size: u32,
    links: &[FullLink],
    sink_part: u32,
    rate: Q,
) -> Result<Table<Q>, Halt<Q>>
    requires some { 0 < size }
    requires few { size ≤ most_unknowns }
{
    let sums = summed(alloc, size + 1, links)?;
    let mut table = Table::new(alloc, size)?;
    for i in 0..links.len() {
        set_link(&mut table, size, &sums, links[i], sink_part);
    }
    set_rights(&mut table, size, &sums, sink_part, rate)?;
    Ok(table)
}

// Returns the slopes of all components except that of the source. Returns `None` if there is not exactly one solution, or the table is too
// large.
fn slopes_of_parts(
    alloc: Global,
    count: u32,
    links: &[FullLink],
    sink_part: u32,
    rate: Q,
) -> Result<Option<Vec<Q>>, Halt<Q>> {
    let size = count.saturating_sub(1);
    if size == 0 {
        return Ok(Some(Vec::new(alloc)));
    }
    if size > MOST_UNKNOWNS {
        return Ok(None);
    }
    let table = slope_table(alloc, size, links, sink_part, rate)?;
    solved(alloc, table)
}

// Returns the slope of a component. That of the source's component is 1.
fn slope_of_part(number: u32, others: &[Q]) -> Q {
    if number == 0 {
        Q::one()
    } else {
        number_or_zero(others, number as usize - 1)
    }
}

// Returns the slope of each node, from those of the components.
fn slopes_of_nodes(
    alloc: Global,
    nodes: u32,
    parts: &Parts,
    others: &[Q],
) -> Result<Vec<Q>, AllocError>
    ensures { IfOk result (λ slopes. length slopes.items ≡ nodes) }
{
    let mut slopes = Vec::with_capacity(alloc, nodes as usize)?;
    for v in 0..nodes {
        let number = parts.number(NodeId(v));
        slopes.push(slope_of_part(number, others))?;
    }
    Ok(slopes)
}

// Returns the slopes of the nodes from the components, or `None` if there is not exactly one solution.
fn slopes_from(
    alloc: Global,
    net: &Network,
    sets: &LinkSets,
    rate: Q,
    pattern: &Pattern,
    parts: &Parts,
) -> Result<Option<Vec<Q>>, Halt<Q>>
    requires { IsPatternIn net.now.net sets.now pattern.now }
    ensures { IfOk result
        (λ found. IfSome found (λ slopes. length slopes.items ≡ net.now.net.nodes)) }
{
    let links = full_links(alloc, net, sets, pattern, parts)?;
    let sink_part = parts.number(net.sink());
    let Some(others) = slopes_of_parts(alloc, parts.count, &links, sink_part, rate)? else {
        return Ok(None);
    };
    let slopes = slopes_of_nodes(alloc, net.node_count(), parts, &others)?;
    Ok(Some(slopes))
}

/// Returns the slopes of the nodes, in node order. Returns `None` if the pattern's table does not have exactly one solution, or is too
/// large.
pub(crate) fn part_slopes(
    alloc: Global,
    net: &Network,
    sets: &LinkSets,
    rate: Q,
    pattern: &Pattern,
) -> Result<Option<Vec<Q>>, Halt<Q>>
    requires { IsPatternIn net.now.net sets.now pattern.now }
    ensures { IfOk result
        (λ found. IfSome found (λ slopes. length slopes.items ≡ net.now.net.nodes)) }
{
    let Some(forest) = tight_forest(net, sets, pattern) else {
        return Ok(None);
    };
    let parts = Parts::new(net, &forest);
    slopes_from(alloc, net, sets, rate, pattern, &parts)
}
