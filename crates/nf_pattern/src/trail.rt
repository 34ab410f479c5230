// The examined prefix of a pattern. It is shortened to what two patterns have in common, and extended from there.
use crate::entered::{chain, ends, is_end, is_entered_before, is_lost, may_carry};
use crate::firm::FirmLinks;
use crate::firming::firm_links;
use crate::stated::StatedLinks;
use crate::walking::{TightLinks, is_tight};
use nf_graph::{Hop, LinkId, NodeId};
use nf_model::State;
use std::alloc::{AllocError, Global};

// The links before number `depth` are examined. `tight` holds the Tight ones among them, and `firm` flags jointly acyclic links. `chain`
// has for each link the last link before it with the same head. `ends` has for each node the number after the last link that can enter it.
// `lost` says whether no link can enter some node other than the source.
#[derive(Drop)]
pub(crate) struct Trail {
    depth: usize,
    tight: TightLinks,
    firm: FirmLinks,
    chain: Vec<Option<LinkId>>,
    ends: Vec<usize>,
    lost: bool,
}

impl Trail {
    ghost use Rattle.std.specs.Prelude.{◌≡◌, ◌⊎◌, ◌^◌, ◌<◌, ◌≤◌, ℕ, suc, List, Bool, length, IfOk, MatchBool};
    ghost use Rattle.nf_model.specs.Walk.{Hop as SeenHop};
    ghost use Rattle.nf_model.specs.Pattern.{Pattern as SeenPattern};
    ghost use Rattle.nf_graph.specs.Graph.{AreBelow};
    ghost use Rattle.nf_pattern.specs.Forest.{Closes};
    ghost use Rattle.nf_pattern.specs.Entered.{AreChained, Strands, KeepsEntered, AreEnds, DoEndsCarry, IsLost};
    ghost use Rattle.nf_pattern.specs.Stated.{AreStated};
    ghost use Rattle.nf_pattern.specs.Trail.{Follows, IsLeft, IsLeftBy, IsOnWay};

    // Returns a trail of no examined links. Fails if an allocation fails.
    pub(crate) fn new(
        alloc: Global,
        nodes: u32,
        source: NodeId,
        hops: &[Hop],
        base: &[Option<State>],
        resetting: &[bool],
    ) -> Result<Trail, AllocError>
        requires below { AreBelow nodes hops.now }
        requires fewer { length hops.now < 2 ^ 32 }
        requires base { length base.now ≡ length hops.now }
        requires resetting { length resetting.now ≡ length hops.now }
        ensures follows { IfOk result
            (λ trail. (p : SeenPattern) → Follows source hops.now resetting.now p trail) }
        ensures nodes { IfOk result (λ trail. length trail.tight.last.items ≡ nodes) }
        ensures ends { IfOk result
            (λ trail. AreEnds hops.now resetting.now base.now trail.ends.items) }
        ensures lost { IfOk result (λ trail. IsLost source trail.ends.items trail.lost) }
    {
        let tight = TightLinks::none(alloc, nodes, hops)?;
        let firm = firm_links(alloc, nodes, hops, base)?;
        let chain = chain(alloc, nodes, hops)?;
        let ends = ends(alloc, nodes, hops, base, resetting)?;
        let lost = is_lost(&ends, source);
        Ok(Trail {
            depth: 0,
            tight,
            firm,
            chain,
            ends,
            lost,
        })
    }

    // Returns how many links are examined.
    pub(crate) fn depth(&self) -> usize
        ensures { result ≡ self.now.depth }
    {
        self.depth
    }

    // Returns whether no link can enter some node other than the source.
    pub(crate) fn is_lost(&self) -> bool
        ensures { result ≡ self.now.lost }
    {
        self.lost
    }

    // Returns whether the head of `link` is not the source, no link up to `link` enters it, and no later link can.
    fn strands(
        &self,
        hops: &[Hop],
        states: &[Option<State>],
        resetting: &[bool],
        source: NodeId,
        link: LinkId,
    ) -> bool
        requires link { link < length hops.now }
        requires states { length states.now ≡ length hops.now }
        requires resetting { length resetting.now ≡ length hops.now }
        requires below { AreBelow (length self.now.ends.items) hops.now }
        requires chain { AreChained hops.now self.now.chain.items }
        requires count { length self.now.chain.items ≡ length hops.now }
        ensures { MatchBool result
            (Strands source hops.now resetting.now states.now self.now.ends.items link)
            (KeepsEntered source hops.now resetting.now states.now self.now.ends.items link) }
    {
        if may_carry(states, resetting, link) {
            return false;
        }
        let hop = &hops[link.index()];
        let head = hop.head;
        if head == source {
            return false;
        }
        if !is_end(&self.ends, head, link) {
            return false;
        }
        !is_entered_before(states, resetting, link, &self.chain)
    }

    // Examines the next link. Returns false, and keeps the depth, if the link closes a cycle or strands a node.
    fn enter(
        &mut self,
        hops: &[Hop],
        states: &[Option<State>],
        resetting: &[bool],
        source: NodeId,
    ) -> bool
        requires states { length states.now ≡ length hops.now }
        requires resetting { length resetting.now ≡ length hops.now }
        requires fewer { length hops.now < 2 ^ 32 }
        requires follows { Follows source hops.now resetting.now states.now self.old }
        requires more { self.old.depth < length hops.now }
        ensures follows { Follows source hops.now resetting.now states.now self.new }
        ensures way { IsOnWay self.old self.new }
        ensures entered { MatchBool result (self.new.depth ≡ suc self.old.depth)
            ((self.new.depth ≡ self.old.depth)
            × (Strands source hops.now resetting.now states.now self.new.ends.items self.new.depth
            ⊎ Closes hops.now states.now self.new.depth)) }
    {
        let link = LinkId(self.depth as u32);
        if is_tight(states, link) {
            if !self.tight.enter(hops, states, link, &mut self.firm) {
                return false;
            }
            self.depth += 1;
            return true;
        }
        if self.strands(hops, states, resetting, source, link) {
            return false;
        }
        self.depth += 1;
        true
    }

    // Skips links without a state. Returns whether a link remains.
    fn pass(&mut self, hops: &[Hop], stated: &StatedLinks) -> bool
        ensures kept { (source : ℕ) (resetting : List Bool) (p : SeenPattern)
            → AreStated p stated.now → length p ≡ length hops.now
            → DoEndsCarry resetting p self.old.ends.items
            → Follows source hops.now resetting p self.old
            → Follows source hops.now resetting p self.new × (self.old.depth ≤ self.new.depth) }
        ensures way { IsOnWay self.old self.new }
        ensures left { MatchBool result (self.new.depth < length hops.now)
            (length hops.now ≤ self.new.depth) }
    {
        self.depth = stated.from(self.depth);
        self.depth < hops.len()
    }

    // Extends the trail. Returns false before the first link that closes a cycle or strands a node, and true after the last link. Skips
    // links without a state.
    pub(crate) fn extend(
        &mut self,
        hops: &[Hop],
        states: &[Option<State>],
        resetting: &[bool],
        source: NodeId,
        stated: &StatedLinks,
    ) -> bool
        requires states { length states.now ≡ length hops.now }
        requires resetting { length resetting.now ≡ length hops.now }
        requires fewer { length hops.now < 2 ^ 32 }
        requires stated { AreStated states.now stated.now }
        requires ends { DoEndsCarry resetting.now states.now self.old.ends.items }
        requires follows { Follows source hops.now resetting.now states.now self.old }
        ensures follows { Follows source hops.now resetting.now states.now self.new }
        ensures way { IsOnWay self.old self.new }
        ensures extended { MatchBool result (self.new.depth ≡ length hops.now)
            ((self.new.depth < length hops.now)
            × (Strands source hops.now resetting.now states.now self.new.ends.items self.new.depth
            ⊎ Closes hops.now states.now self.new.depth)) }
    {
        while self.pass(hops, stated) {
            if !self.enter(hops, states, resetting, source) {
                return false;
            }
        }
        true
    }

    // Removes the last examined link.
    fn leave(&mut self, hops: &[Hop])
        requires fewer { length hops.now < 2 ^ 32 }
        requires left { IsLeft hops.now self.old }
        requires some { 0 < self.old.depth }
        ensures kept { (source : ℕ) (resetting : List Bool) (p : SeenPattern)
            → Follows source hops.now resetting p self.old
            → Follows source hops.now resetting p self.new }
        ensures way { IsOnWay self.old self.new }
        ensures depth { suc self.new.depth ≡ self.old.depth }
    {
        self.depth -= 1;
        let link = LinkId(self.depth as u32);
        self.tight.take_back(hops, link);
    }

    // Removes links without a state from the end of the trail, but never the first link.
    fn pass_back(&mut self, stated: &StatedLinks)
        requires stated { (p : SeenPattern) × AreStated p stated.now }
        requires some { 0 < self.old.depth }
        ensures kept { (source : ℕ) (hops : List SeenHop) (resetting : List Bool) (p : SeenPattern)
            → AreStated p stated.now
            → Follows source hops resetting p self.old → Follows source hops resetting p self.new }
        ensures way { IsOnWay self.old self.new }
        ensures some { 0 < self.new.depth }
        ensures back { self.new.depth ≤ self.old.depth }
    {
        self.depth = stated.up_to(self.depth - 1) + 1;
    }

    // Shortens the trail until no link from `link` on is examined.
    pub(crate) fn retreat(&mut self, hops: &[Hop], link: usize, stated: &StatedLinks)
        requires fewer { length hops.now < 2 ^ 32 }
        requires left { IsLeftBy hops.now stated.now self.old }
        ensures kept { (source : ℕ) (resetting : List Bool) (p : SeenPattern)
            → AreStated p stated.now
            → Follows source hops.now resetting p self.old
            → Follows source hops.now resetting p self.new }
        ensures way { IsOnWay self.old self.new }
        ensures depth { self.new.depth ≤ link }
    {
        while self.depth > link {
            self.pass_back(stated);
            self.leave(hops);
        }
        self.firm.retreat(link);
    }
}
