// A pattern near a base whose Tight links close no cycle, and which enters each node, if changes of single links can bring that about.
// Nothing depends on how near it is, and whether it is listed is tested by the caller.
ghost use Rattle.std.specs.Prelude.{◌≡◌, ◌<◌, length, IfOk};
ghost use Rattle.nf_model.specs.ThinFlow.{Sets};
ghost use Rattle.nf_thin_equation_laws.specs.Equations.{IsPatternIn};

use crate::forest::Forest;
use crate::repairs::{change, set_state};
use nf_frac::Q;
use nf_graph::{LinkId, LinkSets, NodeId};
use nf_model::State;
use nf_net::{MOST_NODES, Network};
use nf_pattern::Pattern;
use nf_thin_one::may_carry;
use std::alloc::{AllocError, Global};

// Returns the state to which a Tight link that closes a cycle changes: Full, or Zero if it is unbounded.
fn loose_state(capacity: Option<Q>) -> State {
    match capacity {
        Some(_) => State::Full,
        None => State::Zero,
    }
}

// Adds a Tight link to the forest. If it closes a cycle there, changes it to Full, or to Zero if it is unbounded.
fn keep_or_loosen(net: &Network, link: LinkId, forest: &mut Forest, pattern: &mut Pattern)
    requires pattern { (sets : Sets) × IsPatternIn net.now.net sets pattern.old }
    requires link { link < length net.now.net.links }
    ensures { (sets : Sets) → IsPatternIn net.now.net sets pattern.old
        → IsPatternIn net.now.net sets pattern.new }
{
    match pattern.state(link) {
        Some(State::Tight) => {}
        _ => return,
    }
    let here = net.link(link);
    if forest.grow(here.tail, here.head) {
        return;
    }
    set_state(net, pattern, link, loose_state(here.capacity));
}

// Changes each Tight link that closes a cycle with earlier ones. Returns the forest of those that stay.
fn cut_cycles(net: &Network, pattern: &mut Pattern) -> Forest
    requires { (sets : Sets) × IsPatternIn net.now.net sets pattern.old }
    ensures { (sets : Sets) → IsPatternIn net.now.net sets pattern.old
        → IsPatternIn net.now.net sets pattern.new }
{
    let mut forest = Forest::new();
    for e in 0..net.link_count() {
        keep_or_loosen(net, LinkId(e), &mut forest, pattern);
    }
    forest
}

// Sets the flag of a node, if it has one.
fn note(flags: &mut [bool], node: NodeId) {
    if node.index() < flags.len() {
        flags[node.index()] = true;
    }
}

// Returns whether the flag of a node is set.
fn is_noted(flags: &[bool], node: NodeId) -> bool {
    node.index() < flags.len() && flags[node.index()]
}

// Returns a flag for each node: whether it is the source, or a link that may carry flow enters it.
fn entered_nodes(net: &Network, sets: &LinkSets, pattern: &Pattern) -> [bool; MOST_NODES]
    requires { IsPatternIn net.now.net sets.now pattern.now }
{
    let mut entered = [false; MOST_NODES];
    note(&mut entered, net.source());
    for e in 0..net.link_count() {
        if may_carry(sets, pattern, LinkId(e)) {
            note(&mut entered, net.link(LinkId(e)).head);
        }
    }
    entered
}

// Changes a link with a state so that it enters its head: to Tight, or to Full if it would close a cycle. Returns whether it did.
fn enter_by(net: &Network, link: LinkId, forest: &mut Forest, pattern: &mut Pattern) -> bool
    requires pattern { (sets : Sets) × IsPatternIn net.now.net sets pattern.old }
    requires link { link < length net.now.net.links }
    ensures { (sets : Sets) → IsPatternIn net.now.net sets pattern.old
        → IsPatternIn net.now.net sets pattern.new }
{
    if pattern.state(link).is_none() {
        return false;
    }
    let here = net.link(link);
    if forest.grow(here.tail, here.head) {
        return change(net, pattern, link, State::Tight);
    }
    change(net, pattern, link, State::Full)
}

// Changes a link so that it enters its head, if the head is not entered and the link has a state.
fn enter_head(
    net: &Network,
    link: LinkId,
    entered: &mut [bool],
    forest: &mut Forest,
    pattern: &mut Pattern,
)
    requires pattern { (sets : Sets) × IsPatternIn net.now.net sets pattern.old }
    requires link { link < length net.now.net.links }
    ensures { (sets : Sets) → IsPatternIn net.now.net sets pattern.old
        → IsPatternIn net.now.net sets pattern.new }
{
    let head = net.link(link).head;
    if is_noted(entered, head) {
        return;
    }
    if enter_by(net, link, forest, pattern) {
        note(entered, head);
    }
}

// Changes a link into each node that is not entered, if it has one with a state.
fn enter_nodes(net: &Network, entered: &mut [bool], forest: &mut Forest, pattern: &mut Pattern)
    requires { (sets : Sets) × IsPatternIn net.now.net sets pattern.old }
    ensures { (sets : Sets) → IsPatternIn net.now.net sets pattern.old
        → IsPatternIn net.now.net sets pattern.new }
{
    for e in 0..net.link_count() {
        enter_head(net, LinkId(e), entered, forest, pattern);
    }
}

/// Returns a pattern near a base that is mostly listed: links whose change ends a cycle of Tight links, or enters a node, are changed.
/// Fails if an allocation fails.
pub fn mended(
    alloc: Global,
    net: &Network,
    sets: &LinkSets,
    base: &Pattern,
) -> Result<Pattern, AllocError>
    requires { IsPatternIn net.now.net sets.now base.now }
    ensures { IfOk result (λ near. IsPatternIn net.now.net sets.now near) }
{
    let mut near = base.copy(alloc)?;
    let mut forest = cut_cycles(net, &mut near);
    let mut entered = entered_nodes(net, sets, &near);
    enter_nodes(net, &mut entered, &mut forest, &mut near);
    Ok(near)
}
