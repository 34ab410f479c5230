// The reverting of a guessed pattern towards the first one: a link takes its first state if its values suit that state. Among the accepted
// patterns, the listing reaches one with few changes first, and so mostly this one. No contract depends on reverting, since a guess is
// judged like any other pattern.
ghost use Rattle.std.specs.Prelude.{◌≡◌, ◌<◌, length, IfOk};
ghost use Rattle.nf_thin_equation_laws.specs.Equations.{IsPatternIn};
ghost use Rattle.nf_thin_guess.specs.Values.{AreComplete};

use crate::by_parts::part_values;
use crate::forest::Forest;
use crate::node_parts::tight_forest;
use crate::repairs::{Extent, Repairs, set_state};
use crate::values::Values;
use nf_frac::Q;
use nf_graph::{LinkId, LinkSets};
use nf_model::State;
use nf_net::Network;
use nf_pattern::Pattern;
use nf_thin_one::{each_is_led, full_flow, is_one_pattern};
use std::alloc::{AllocError, Global};

/// A borrowed view of what reverting reads: a network with its sets and its supply rate, the first pattern, and the values that solve the
/// guessed pattern's table. The rate is an amount per unit of time.
#[derive(Clone, Copy)]
pub(crate) struct Reverting<'a> {
    pub(crate) net: &'a Network,
    pub(crate) sets: &'a LinkSets,
    pub(crate) rate: Q,
    pub(crate) first: &'a Pattern,
    pub(crate) values: &'a Values,
    pub(crate) ghost first_count: { length first.now ≡ length net.now.net.links },
    pub(crate) ghost complete: { AreComplete net.now.net values.now },
}

impl<'a> Reverting<'a> {
    // Returns whether a state suits a link's flow and the slopes of its ends.
    fn suits(&self, link: LinkId, state: State) -> bool
        requires { link < length self.now.net.now.net.links }
    {
        let here = self.net.link(link);
        let tail_slope = self.values.slope(here.tail);
        let head_slope = self.values.slope(here.head);
        let flow = self.values.flow(link);
        match state {
            State::Tight => tail_slope == head_slope,
            State::Full => tail_slope <= head_slope
                && full_flow(here.capacity, head_slope) == Some(flow),
            State::Zero => head_slope <= tail_slope && flow == Q::zero(),
        }
    }

    // Gives a link its first state if that is Full or Zero and suits its values.
    fn revert_apart(&self, link: LinkId, pattern: &mut Pattern)
        requires pattern { IsPatternIn self.now.net.now.net self.now.sets.now pattern.old }
        requires link { link < length self.now.net.now.net.links }
        ensures { IsPatternIn self.now.net.now.net self.now.sets.now pattern.new }
    {
        let state = match self.first.state(link) {
            Some(State::Full) => State::Full,
            Some(State::Zero) => State::Zero,
            _ => return,
        };
        if self.suits(link, state) {
            set_state(self.net, pattern, link, state);
        }
    }

    // Gives each link its first state if that is Full or Zero and suits its values.
    fn revert_all_apart(&self, pattern: &mut Pattern)
        requires { IsPatternIn self.now.net.now.net self.now.sets.now pattern.old }
        ensures { IsPatternIn self.now.net.now.net self.now.sets.now pattern.new }
    {
        for e in 0..self.net.link_count() {
            self.revert_apart(LinkId(e), pattern);
        }
    }

    // Makes a link Tight if that is its first state, suits its slopes, and closes no cycle with other Tight links.
    fn revert_tight(&self, link: LinkId, forest: &mut Forest, pattern: &mut Pattern)
        requires pattern { IsPatternIn self.now.net.now.net self.now.sets.now pattern.old }
        requires link { link < length self.now.net.now.net.links }
        ensures { IsPatternIn self.now.net.now.net self.now.sets.now pattern.new }
    {
        match self.first.state(link) {
            Some(State::Tight) => {}
            _ => return,
        }
        if !self.suits(link, State::Tight) {
            return;
        }
        let here = self.net.link(link);
        if forest.grow(here.tail, here.head) {
            set_state(self.net, pattern, link, State::Tight);
        }
    }

    // Runs `revert_tight` for all links, with the forest of the links that are Tight already.
    fn revert_all_tight(&self, pattern: &mut Pattern)
        requires { IsPatternIn self.now.net.now.net self.now.sets.now pattern.old }
        ensures { IsPatternIn self.now.net.now.net self.now.sets.now pattern.new }
    {
        let Some(mut forest) = tight_forest(self.net, self.sets, pattern) else {
            return;
        };
        for e in 0..self.net.link_count() {
            self.revert_tight(LinkId(e), &mut forest, pattern);
        }
    }

    // Returns whether these values violate no link's inequality, so that no repair changes the pattern.
    fn suits_all(
        &self,
        alloc: Global,
        values: &Values,
        pattern: &Pattern,
    ) -> Result<bool, AllocError>
        requires values { AreComplete self.now.net.now.net values.now }
        requires pattern { IsPatternIn self.now.net.now.net self.now.sets.now pattern.now }
    {
        let mut repaired = pattern.copy(alloc)?;
        let repairs = Repairs {
            net: self.net,
            sets: self.sets,
            values,
        };
        Ok(!repairs.repair(Extent::Each, &mut repaired))
    }

    // Returns whether the pattern leads to each node and its values violate no link's inequality.
    fn is_repaired(&self, alloc: Global, pattern: &Pattern) -> Result<bool, AllocError>
        requires { IsPatternIn self.now.net.now.net self.now.sets.now pattern.now }
    {
        if !each_is_led(self.net, self.sets, pattern) {
            return Ok(false);
        }
        match part_values(alloc, self.net, self.sets, self.rate, pattern)? {
            Some(values) => self.suits_all(alloc, &values, pattern),
            None => Ok(false),
        }
    }

    // Gives the links of `nearer` their first states if these suit the values. Returns whether the result differs from `pattern`, leads to
    // each node and violates no inequality.
    fn revert(
        &self,
        alloc: Global,
        pattern: &Pattern,
        nearer: &mut Pattern,
    ) -> Result<bool, AllocError>
        requires pattern { IsPatternIn self.now.net.now.net self.now.sets.now pattern.now }
        requires nearer { IsPatternIn self.now.net.now.net self.now.sets.now nearer.old }
        ensures { IsPatternIn self.now.net.now.net self.now.sets.now nearer.new }
    {
        self.revert_all_apart(nearer);
        self.revert_all_tight(nearer);
        if is_one_pattern(self.net, nearer, pattern) {
            return Ok(false);
        }
        self.is_repaired(alloc, nearer)
    }

    /// Returns a pattern nearer to the first one if it leads to each node and violates no inequality. Otherwise returns the same pattern.
    /// Fails if an allocation fails.
    pub(crate) fn reverted(&self, alloc: Global, pattern: Pattern) -> Result<Pattern, AllocError>
        requires { IsPatternIn self.now.net.now.net self.now.sets.now pattern }
        ensures { IfOk result
            (λ nearer. IsPatternIn self.now.net.now.net self.now.sets.now nearer) }
    {
        let mut nearer = pattern.copy(alloc)?;
        if self.revert(alloc, &pattern, &mut nearer)? {
            Ok(nearer)
        } else {
            Ok(pattern)
        }
    }
}
