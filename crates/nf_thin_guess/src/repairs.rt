// Repairs of a pattern: links that violate their inequalities change their states. No contract depends on repairs, since a guess is judged
// like any other pattern.
ghost use Rattle.std.specs.Prelude.{◌≡◌, ◌<◌, length, set, Some, IsTrue, IsSome};
ghost use Rattle.nf_model.specs.declared.State.TheVariants.{Full};
ghost use Rattle.nf_model.specs.ThinFlow.{Sets};
ghost use Rattle.nf_thin_equation_laws.specs.Equations.{IsPatternIn};
ghost use Rattle.nf_thin_guess.specs.Values.{AreComplete};

use crate::forest::Forest;
use crate::node_parts::tight_forest;
use crate::values::Values;
use nf_frac::Q;
use nf_graph::{LinkId, LinkSets};
use nf_model::State;
use nf_net::Network;
use nf_pattern::Pattern;
use nf_thin_one::{full_flow, may_carry};

// Returns whether a flow exceeds the flow that fills a link of this capacity at this slope of its head.
fn overfills(capacity: Option<Q>, flow: Q, head_slope: Q) -> bool {
    match full_flow(capacity, head_slope) {
        Some(most) => flow > most,
        None => false,
    }
}

// Returns whether a link of this capacity may have this state. An unbounded link may not be Full.
fn fits(capacity: Option<Q>, state: State) -> bool
    ensures { IsTrue result → state ≡ Full → IsSome capacity }
{
    match state {
        State::Full => capacity.is_some(),
        State::Tight => true,
        State::Zero => true,
    }
}

// Returns whether a link has a state, and may have this one.
fn may_have(net: &Network, pattern: &Pattern, link: LinkId, state: State) -> bool
    requires states { length pattern.now ≡ length net.now.net.links }
    requires link { link < length net.now.net.links }
    ensures { IsTrue result → (sets : Sets) → IsPatternIn net.now.net sets pattern.now
        → IsPatternIn net.now.net sets (set pattern.now link (Some state)) }
{
    if pattern.state(link).is_none() {
        return false;
    }
    let capacity = net.link(link).capacity;
    fits(capacity, state)
}

/// Sets the state of a link that has a state, if the link may have the new one. Returns whether it sets the state.
pub(crate) fn change(net: &Network, pattern: &mut Pattern, link: LinkId, state: State) -> bool
    requires states { length pattern.old ≡ length net.now.net.links }
    requires link { link < length net.now.net.links }
    ensures { (sets : Sets) → IsPatternIn net.now.net sets pattern.old
        → IsPatternIn net.now.net sets pattern.new }
{
    if !may_have(net, pattern, link, state) {
        return false;
    }
    pattern.set(link, Some(state));
    true
}

/// Sets the state of a link that has a state, if the link may have the new one.
pub(crate) fn set_state(net: &Network, pattern: &mut Pattern, link: LinkId, state: State)
    requires states { length pattern.old ≡ length net.now.net.links }
    requires link { link < length net.now.net.links }
    ensures { (sets : Sets) → IsPatternIn net.now.net sets pattern.old
        → IsPatternIn net.now.net sets pattern.new }
{
    if may_have(net, pattern, link, state) {
        pattern.set(link, Some(state));
    }
}

// Returns whether another Tight, Full or resetting link leads to the head of this link.
fn is_spare(net: &Network, sets: &LinkSets, pattern: &Pattern, link: LinkId) -> bool
    requires pattern { IsPatternIn net.now.net sets.now pattern.now }
    requires link { link < length net.now.net.links }
{
    let node = net.link(link).head;
    for e in 0..net.link_count() {
        if e != link.0 && net.link(LinkId(e)).head == node {
            if may_carry(sets, pattern, LinkId(e)) {
                return true;
            }
        }
    }
    false
}

// Returns whether the link is Full with a smaller slope at its head, or Zero with a greater one.
fn breaks(state: Option<State>, tail_slope: Q, head_slope: Q) -> bool {
    match state {
        Some(State::Full) => head_slope < tail_slope,
        Some(State::Zero) => tail_slope < head_slope,
        _ => false,
    }
}

/// Which links one repair of a pattern changes, of those that violate their inequalities.
#[derive(Clone, Copy)]
pub(crate) enum Extent {
    Each,
    First,
}

/// A borrowed view of what the repairs of a pattern read: a network with its sets, and the values that solve the pattern's table.
#[derive(Clone, Copy)]
pub(crate) struct Repairs<'a> {
    pub(crate) net: &'a Network,
    pub(crate) sets: &'a LinkSets,
    pub(crate) values: &'a Values,
    pub(crate) ghost complete: { AreComplete net.now.net values.now },
}

impl<'a> Repairs<'a> {
    // Makes a Tight link with a negative flow Zero, if another link that may carry flow leads to its head. Makes a Tight link with too much
    // flow Full. Returns whether the state changes.
    fn loosen_link(&self, link: LinkId, pattern: &mut Pattern) -> bool
        requires pattern { IsPatternIn self.now.net.now.net self.now.sets.now pattern.old }
        requires link { link < length self.now.net.now.net.links }
        ensures { IsPatternIn self.now.net.now.net self.now.sets.now pattern.new }
    {
        match pattern.state(link) {
            Some(State::Tight) => {}
            _ => return false,
        }
        let flow = self.values.flow(link);
        if flow < Q::zero() {
            if !is_spare(self.net, self.sets, pattern, link) {
                return false;
            }
            return change(self.net, pattern, link, State::Zero);
        }
        let here = self.net.link(link);
        if !overfills(here.capacity, flow, self.values.slope(here.head)) {
            return false;
        }
        change(self.net, pattern, link, State::Full)
    }

    // Repairs each Tight link that violates its inequalities. Returns whether a state changes.
    fn loosen(&self, pattern: &mut Pattern) -> bool
        requires { IsPatternIn self.now.net.now.net self.now.sets.now pattern.old }
        ensures { IsPatternIn self.now.net.now.net self.now.sets.now pattern.new }
    {
        let mut changes = false;
        for e in 0..self.net.link_count() {
            if self.loosen_link(LinkId(e), pattern) {
                changes = true;
            }
        }
        changes
    }

    // Makes a Full link with a smaller slope at its head, or a Zero link with a greater one, Tight. Changes nothing if the link would close
    // a cycle with other Tight links. Returns whether the state changes.
    fn tighten_link(&self, link: LinkId, forest: &mut Forest, pattern: &mut Pattern) -> bool
        requires pattern { IsPatternIn self.now.net.now.net self.now.sets.now pattern.old }
        requires link { link < length self.now.net.now.net.links }
        ensures { IsPatternIn self.now.net.now.net self.now.sets.now pattern.new }
    {
        let here = self.net.link(link);
        let tail_slope = self.values.slope(here.tail);
        let head_slope = self.values.slope(here.head);
        if !breaks(pattern.state(link), tail_slope, head_slope) {
            return false;
        }
        if !forest.grow(here.tail, here.head) {
            return false;
        }
        change(self.net, pattern, link, State::Tight)
    }

    // Repairs all Full and Zero links that violate their inequalities, in link order. Returns whether a state changes.
    fn tighten(&self, pattern: &mut Pattern) -> bool
        requires { IsPatternIn self.now.net.now.net self.now.sets.now pattern.old }
        ensures { IsPatternIn self.now.net.now.net self.now.sets.now pattern.new }
    {
        let Some(mut forest) = tight_forest(self.net, self.sets, pattern) else {
            return false;
        };
        let mut changes = false;
        for e in 0..self.net.link_count() {
            if self.tighten_link(LinkId(e), &mut forest, pattern) {
                changes = true;
            }
        }
        changes
    }

    // Repairs once each link that violates its inequality. Returns whether a state changes.
    fn repair_each(&self, pattern: &mut Pattern) -> bool
        requires { IsPatternIn self.now.net.now.net self.now.sets.now pattern.old }
        ensures { IsPatternIn self.now.net.now.net self.now.sets.now pattern.new }
    {
        let loosened = self.loosen(pattern);
        let tightened = self.tighten(pattern);
        loosened || tightened
    }

    // Repairs the first link that violates its inequality and changes its state. Returns whether there is one.
    fn repair_first(&self, pattern: &mut Pattern) -> bool
        requires { IsPatternIn self.now.net.now.net self.now.sets.now pattern.old }
        ensures { IsPatternIn self.now.net.now.net self.now.sets.now pattern.new }
    {
        let Some(mut forest) = tight_forest(self.net, self.sets, pattern) else {
            return false;
        };
        for e in 0..self.net.link_count() {
            if self.loosen_link(LinkId(e), pattern) {
                return true;
            }
            if self.tighten_link(LinkId(e), &mut forest, pattern) {
                return true;
            }
        }
        false
    }

    /// Repairs once each link that violates its inequality, or the first one. Returns whether a state changes.
    pub(crate) fn repair(&self, extent: Extent, pattern: &mut Pattern) -> bool
        requires { IsPatternIn self.now.net.now.net self.now.sets.now pattern.old }
        ensures { IsPatternIn self.now.net.now.net self.now.sets.now pattern.new }
    {
        match extent {
            Extent::Each => self.repair_each(pattern),
            Extent::First => self.repair_first(pattern),
        }
    }
}
