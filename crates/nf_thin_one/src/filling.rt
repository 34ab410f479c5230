// The table of the equations of a pattern.
ghost use Rattle.std.specs.Prelude.{◌≡◌, ℕ, ◌<◌, ◌≤◌, length, set, unwrap_or, IfOk, MatchOption, IsTrue};
ghost use Rattle.nf_rational.specs.Rational.{ℚ};
ghost use Rattle.nf_rational.specs.Operations.{0ℚ, neg_ℚ};
ghost use Rattle.nf_model.specs.Pattern.{Pattern as SeenPattern};
ghost use Rattle.nf_net_def.specs.WellNamed.{IsNamed};
ghost use Rattle.nf_linear_def.specs.Table.{row_at};
ghost use Rattle.nf_linear.specs.Limits.{most_unknowns};
ghost use Rattle.nf_thin_def.specs.Equations.{unknowns, equations};
ghost use Rattle.nf_thin_one.specs.Filling.{all_zero, ChangesRow, IsFilledTo, IsRowOf, SetsAt, AddsFlow, with_entries, tight_entries, full_entries, link_entries, HoldsCapacity, HoldsCapacities, HoldsNumbers};

use nf_frac::Q;
use nf_graph::{LinkId, LinkSets, NodeId};
use nf_linear::{System, Table};
use nf_model::State;
use nf_net::{Link, Network};
use nf_pattern::Pattern;
use std::alloc::{AllocError, Global};

/// Returns the number of unknowns: the slope of each node, and the flow of each active link.
pub fn unknown_count(net: &Network, sets: &LinkSets) -> u32
    requires { length sets.now.active ≡ length net.now.net.links }
    ensures count { result ≡ length (unknowns net.now.net sets.now) }
    ensures some { 0 < result }
    ensures few { result ≤ most_unknowns }
    ensures named { IsNamed net.now }
{
    let links = net.hops();
    let mut count = net.node_count();
    for e in 0..links.len() {
        if sets.active(LinkId(e as u32)) {
            count += 1;
        }
    }
    count
}

// ---- the rows of nodes

// Returns the row of a node, after that of the source's slope. Returns `None` for the sink, which has no row.
fn row_of(node: NodeId, sink: NodeId) -> Option<u32>
    ensures { MatchOption result (node ≡ sink) (IsRowOf sink node) }
{
    if node.0 < sink.0 {
        Some(node.0 + 1)
    } else if sink.0 < node.0 {
        Some(node.0)
    } else {
        None
    }
}

// Sets a number in the row of a node. Does nothing for the sink.
fn set_at_node<T: System>(table: &mut T, sink: NodeId, node: NodeId, column: u32, number: Q)
    requires sink { sink < length (T.rows_of table.old) }
    requires node { node < length (T.rows_of table.old) }
    requires column { column < length (T.rows_of table.old) }
    requires takes { IsTrue (T.takes number) }
    ensures { SetsAt sink node column number (T.rows_of table.old) (T.rows_of table.new) }
{
    if let Some(row) = row_of(node, sink) {
        table.set(row, column, number);
    }
}

// Sets the coefficients of a link's flow: 1 in the row of its tail, -1 in that of its head. Does nothing for a link from a node to itself.
fn set_flow<T: System>(table: &mut T, sink: NodeId, column: u32, link: Link)
    requires sink { sink < length (T.rows_of table.old) }
    requires tail { link.tail < length (T.rows_of table.old) }
    requires head { link.head < length (T.rows_of table.old) }
    requires column { column < length (T.rows_of table.old) }
    ensures { AddsFlow sink column link (T.rows_of table.old) (T.rows_of table.new) }
{
    if link.tail != link.head {
        set_at_node(table, sink, link.tail, column, Q::one());
        set_at_node(table, sink, link.head, column, Q::one().negated());
    }
}

// Sets the right side of the source's row to the supply rate.
fn set_supply<T: System>(table: &mut T, source: NodeId, sink: NodeId, rate: Q)
    requires sink { sink < length (T.rows_of table.old) }
    requires source { source < length (T.rows_of table.old) }
    requires takes { IsTrue (T.takes rate) }
    ensures { (row : ℕ) → IsRowOf sink source row
        → ChangesRow (T.rows_of table.old) (T.rows_of table.new) row
        (set (row_at (T.rows_of table.old) row) (length (T.rows_of table.old)) rate) }
{
    if let Some(row) = row_of(source, sink) {
        table.set_right(row, rate);
    }
}

// Fills the rows of all nodes except the sink, in node order, after that of the source's slope.
fn fill_nodes<T: System>(table: &mut T, net: &Network, sets: &LinkSets, rate: Q)
    requires first { (pattern : SeenPattern)
        → IsFilledTo (equations net.now.net sets.now rate pattern) (T.rows_of table.old) 1 }
    requires sets { length sets.now.active ≡ length net.now.net.links }
    requires takes { IsTrue (T.takes rate) }
    ensures nodes { (pattern : SeenPattern)
        → IsFilledTo (equations net.now.net sets.now rate pattern)
        (T.rows_of table.new) net.now.net.nodes }
    ensures size { length (T.rows_of table.new) ≡ length (T.rows_of table.old) }
{
    let sink = net.sink();
    let mut column = net.node_count();
    for e in 0..net.link_count() {
        if sets.active(LinkId(e)) {
            set_flow(table, sink, column, net.link(LinkId(e)));
            column += 1;
        }
    }
    // Proof: the source is not the sink.
    net.recall();
    set_supply(table, net.source(), sink, rate);
}

// ---- the rows of links; the number of each is that of the column of the link's flow

// Fills the row of a Tight link: the slopes of its two ends are equal.
fn fill_tight<T: System>(table: &mut T, row: u32, link: Link)
    requires row { row < length (T.rows_of table.old) }
    requires tail { link.tail < length (T.rows_of table.old) }
    requires head { link.head < length (T.rows_of table.old) }
    ensures { ChangesRow (T.rows_of table.old) (T.rows_of table.new) row
        (with_entries (row_at (T.rows_of table.old) row) (tight_entries link)) }
{
    if link.head != link.tail {
        table.set(row, link.head.0, Q::one());
        table.set(row, link.tail.0, Q::one().negated());
    }
}

// Returns the coefficient of the head's slope in the row of a Full link: the negated capacity, or 0 without a capacity.
fn full_factor(link: Link) -> Q
    ensures { result ≡ neg_ℚ (unwrap_or link.capacity 0ℚ) }
{
    match link.capacity {
        Some(capacity) => capacity.negated(),
        None => Q::zero(),
    }
}

// Fills the row of a Full or resetting link: its flow is the capacity times the slope of its head.
fn fill_full<T: System>(table: &mut T, row: u32, link: Link)
    requires row { row < length (T.rows_of table.old) }
    requires head { link.head < length (T.rows_of table.old) }
    requires capacity { HoldsCapacity T.takes link }
    ensures { ChangesRow (T.rows_of table.old) (T.rows_of table.new) row
        (with_entries (row_at (T.rows_of table.old) row) (full_entries row link)) }
{
    table.set(row, link.head.0, full_factor(link));
    table.set(row, row, Q::one());
}

// Fills the row of a link in its state. A link without a state is resetting.
fn fill_link<T: System>(table: &mut T, row: u32, link: Link, state: Option<State>)
    requires row { row < length (T.rows_of table.old) }
    requires tail { link.tail < length (T.rows_of table.old) }
    requires head { link.head < length (T.rows_of table.old) }
    requires capacity { HoldsCapacity T.takes link }
    ensures { ChangesRow (T.rows_of table.old) (T.rows_of table.new) row
        (with_entries (row_at (T.rows_of table.old) row) (link_entries row link state)) }
{
    match state {
        Some(State::Tight) => fill_tight(table, row, link),
        Some(State::Zero) => table.set(row, row, Q::one()),
        Some(State::Full) | None => fill_full(table, row, link),
    }
}

// Fills the rows of the active links, in link order.
fn fill_links<T: System>(table: &mut T, net: &Network, sets: &LinkSets, pattern: &Pattern)
    requires size { length (T.rows_of table.old) ≡ length (unknowns net.now.net sets.now) }
    requires sets { length sets.now.active ≡ length net.now.net.links }
    requires states { length pattern.now ≡ length net.now.net.links }
    requires capacities { HoldsCapacities T.takes net.now.net }
    ensures { (rate : ℚ) → IsFilledTo (equations net.now.net sets.now rate pattern.now)
        (T.rows_of table.old) net.now.net.nodes
        → T.rows_of table.new ≡ equations net.now.net sets.now rate pattern.now }
{
    let mut row = net.node_count();
    for e in 0..net.link_count() {
        let link = LinkId(e);
        if sets.active(link) {
            fill_link(table, row, net.link(link), pattern.state(link));
            row += 1;
        }
    }
}

/// Writes the equations of a pattern at a supply rate into a system, which is all zero before. The columns are the slope of each node, in
/// node order, and then the flow of each active link, in link order. The rows are that of the source's slope, that of each node except the
/// sink, and that of each active link. The system must be able to hold the rate and the negated capacities.
pub fn fill<T: System>(table: &mut T, net: &Network, sets: &LinkSets, rate: Q, pattern: &Pattern)
    requires zero { T.rows_of table.old ≡ all_zero (length (unknowns net.now.net sets.now)) }
    requires sets { length sets.now.active ≡ length net.now.net.links }
    requires states { length pattern.now ≡ length net.now.net.links }
    requires numbers { HoldsNumbers T.takes net.now.net rate }
    ensures { T.rows_of table.new ≡ equations net.now.net sets.now rate pattern.now }
{
    // Proof: the network is well formed.
    let _ = net.hops();
    table.set(0, net.source().0, Q::one());
    table.set_right(0, Q::one());
    fill_nodes(table, net, sets, rate);
    fill_links(table, net, sets, pattern);
}

/// Returns the table of the equations of a pattern at a supply rate, with the columns and rows of `fill`. Fails if an allocation fails.
pub fn table_of(
    alloc: Global,
    net: &Network,
    sets: &LinkSets,
    rate: Q,
    pattern: &Pattern,
) -> Result<Table<Q>, AllocError>
    requires sets { length sets.now.active ≡ length net.now.net.links }
    requires states { length pattern.now ≡ length net.now.net.links }
    ensures { IfOk result (λ table. table ≡ equations net.now.net sets.now rate pattern.now) }
{
    let mut table = Table::new(alloc, unknown_count(net, sets))?;
    fill(&mut table, net, sets, rate, pattern);
    Ok(table)
}
