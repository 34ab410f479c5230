// Forest traversal along the examined Tight links, each crossed in both directions.
ghost use Rattle.std.specs.Prelude.{◌<◌, length, MatchBool};
ghost use Rattle.nf_model.specs.declared.State.TheVariants.{Tight};
ghost use Rattle.nf_model.specs.Pattern.{HasState};

use crate::firm::FirmLinks;
use nf_graph::{Hop, LinkId, NodeId};
use nf_model::State;
use std::alloc::{AllocError, Global};

// The examined Tight links, as a stack. `last` has the last one at each node. `tails` and `heads` have, for each of them, the one before it
// at its tail and at its head.
#[derive(Drop)]
pub(crate) struct TightLinks {
    last: Vec<Option<LinkId>>,
    tails: Vec<Option<LinkId>>,
    heads: Vec<Option<LinkId>>,
}

// The position of a traversal: a node, and the link to cross next. `None` ends the node's link chain: `step` restarts it, or ends the
// traversal at its start node.
#[derive(Clone, Copy)]
pub(crate) struct Place {
    node: NodeId,
    link: Option<LinkId>,
}

// Returns whether the link's state is Tight.
pub(crate) fn is_tight(states: &[Option<State>], link: LinkId) -> bool
    requires { link < length states.now }
    ensures { MatchBool result (HasState states.now link Tight)
        (HasState states.now link Tight → ⊥) }
{
    let state = states[link.index()];
    match state {
        Some(State::Tight) => true,
        _ => false,
    }
}

impl TightLinks {
    ghost use Rattle.std.specs.Prelude.{◌≡◌, ◌<◌, ◌≤◌, ℕ, suc, length, List, Option, Some, None, slice_get, MatchBool, IfOk, IfSome};
    ghost use Rattle.nf_model.specs.declared.State.TheVariants.{Tight};
    ghost use Rattle.nf_model.specs.Pattern.{Pattern, HasState};
    ghost use Rattle.nf_graph.specs.Graph.{AreBelow};
    ghost use Rattle.nf_pattern.specs.Forest.{Closes, NoneCloses};
    ghost use Rattle.nf_pattern.specs.Firm.{AreCalm};
    ghost use Rattle.nf_pattern.specs.Walking.{last_at, ends_at, other_end, IsTightStack, IsPlace, Goes};

    // Returns a stack of no links. Fails if an allocation fails.
    pub(crate) fn none(alloc: Global, nodes: u32, hops: &[Hop]) -> Result<TightLinks, AllocError>
        requires { AreBelow nodes hops.now }
        ensures holds { IfOk result
            (λ tight. (pattern : Pattern) → IsTightStack hops.now pattern 0 tight) }
        ensures nodes { IfOk result (λ tight. length tight.last.items ≡ nodes) }
    {
        let last = vec![in alloc; None; nodes as usize]?;
        let tails = vec![in alloc; None; hops.len()]?;
        let heads = vec![in alloc; None; hops.len()]?;
        Ok(TightLinks { last, tails, heads })
    }

    // Crosses a link from a node. Returns the node at its other end, with the Tight link before this one there.
    fn cross(&self, hops: &[Hop], node: NodeId, link: LinkId) -> Place
        requires link { link < length hops.now }
        requires tails { length self.now.tails.items ≡ length hops.now }
        requires heads { length self.now.heads.items ≡ length hops.now }
        ensures node { result.node ≡ other_end hops.now link node }
        ensures link { (states : Pattern) (depth : ℕ) → IsTightStack hops.now states depth self.now
            → link < depth → HasState states link Tight
            → result.link ≡ last_at (ends_at hops.now states) link (other_end hops.now link node) }
    {
        let hop = &hops[link.index()];
        if hop.tail == node {
            Place {
                node: hop.head,
                link: self.heads[link.index()],
            }
        } else {
            Place {
                node: hop.tail,
                link: self.tails[link.index()],
            }
        }
    }

    // Makes one step of a traversal. Returns `None` at its end: at the start node, after all its links.
    fn step(&self, hops: &[Hop], start: NodeId, place: Place) -> Option<Place>
        requires placed { (states : Pattern) × (depth : ℕ) × IsTightStack hops.now states depth self.now
            × IsPlace hops.now states depth place.node place.link }
        requires within { place.node < length self.now.last.items }
        ensures goes { (states : Pattern) (depth : ℕ) → IsTightStack hops.now states depth self.now
            → IsPlace hops.now states depth place.node place.link
            → Goes hops.now states depth start place result }
        ensures place { IfSome result
            (λ after. (states : Pattern) (depth : ℕ) → IsTightStack hops.now states depth self.now
            → IsPlace hops.now states depth place.node place.link
            → IsPlace hops.now states depth after.node after.link) }
        ensures within { IfSome result (λ after. after.node < length self.now.last.items) }
    {
        match place.link {
            Some(link) => Some(self.cross(hops, place.node, link)),
            None => {
                if place.node == start {
                    return None;
                }
                Some(Place {
                    node: place.node,
                    link: self.last[place.node.index()],
                })
            }
        }
    }

    // Returns whether the link is Tight and closes a cycle with the Tight links before it. Two traversals alternate, one from each end of
    // the link, until one ends or reaches the start of the other.
    fn closes(&self, hops: &[Hop], states: &[Option<State>], link: LinkId) -> bool
        requires link { link < length hops.now }
        requires stated { link < length states.now }
        requires holds { IsTightStack hops.now states.now link self.now }
        requires clear { NoneCloses hops.now states.now link }
        ensures { MatchBool result (Closes hops.now states.now link)
            (Closes hops.now states.now link → ⊥) }
    {
        if !is_tight(states, link) {
            return false;
        }
        let hop = &hops[link.index()];
        let (tail, head) = (hop.tail, hop.head);
        if tail == head {
            return true;
        }
        let mut near = Place {
            node: tail,
            link: self.last[tail.index()],
        };
        let mut far = Place {
            node: head,
            link: self.last[head.index()],
        };
        while let Some(next) = self.step(hops, tail, near) {
            if next.node == head {
                return true;
            }
            near = next;
            let Some(other) = self.step(hops, head, far) else {
                return false;
            };
            if other.node == tail {
                return true;
            }
            far = other;
        }
        false
    }

    // Pushes a Tight link. It becomes the last link at both its ends, and stores the previous last links.
    fn put(&mut self, hops: &[Hop], link: LinkId)
        requires link { link < length hops.now }
        requires tails { length self.old.tails.items ≡ length hops.now }
        requires heads { length self.old.heads.items ≡ length hops.now }
        requires below { AreBelow (length self.old.last.items) hops.now }
        ensures holds { (pattern : Pattern) → IsTightStack hops.now pattern link self.old
            → HasState pattern link Tight
            → IsTightStack hops.now pattern (suc link) self.new }
        ensures nodes { length self.new.last.items ≡ length self.old.last.items }
    {
        let hop = &hops[link.index()];
        let (tail, head) = (hop.tail, hop.head);
        self.tails[link.index()] = self.last[tail.index()];
        self.heads[link.index()] = self.last[head.index()];
        self.last[tail.index()] = Some(link);
        self.last[head.index()] = Some(link);
    }

    // Pushes `link` if it is Tight. Returns false, and changes nothing, if it is Tight and closes a cycle with Tight links before it.
    pub(crate) fn enter_by_walk(
        &mut self,
        hops: &[Hop],
        states: &[Option<State>],
        link: LinkId,
    ) -> bool
        requires link { link < length hops.now }
        requires states { length states.now ≡ length hops.now }
        requires holds { IsTightStack hops.now states.now link self.old }
        requires clear { NoneCloses hops.now states.now link }
        ensures { MatchBool result (IsTightStack hops.now states.now (suc link) self.new
            × NoneCloses hops.now states.now (suc link))
            ((self.new ≡ self.old) × Closes hops.now states.now link) }
    {
        if !is_tight(states, link) {
            return true;
        }
        if self.closes(hops, states, link) {
            return false;
        }
        self.put(hops, link);
        true
    }

    // Pushes a Tight link. Returns false, and changes nothing, if it closes a cycle with Tight links before it. Needs no traversal if the
    // link and all Tight links before it are jointly acyclic by `firm`.
    pub(crate) fn enter(
        &mut self,
        hops: &[Hop],
        states: &[Option<State>],
        link: LinkId,
        firm: &mut FirmLinks,
    ) -> bool
        requires link { link < length hops.now }
        requires tight { HasState states.now link Tight }
        requires holds { IsTightStack hops.now states.now link self.old }
        requires clear { NoneCloses hops.now states.now link }
        requires calm { AreCalm hops.now states.now link firm.old }
        ensures entered { MatchBool result (IsTightStack hops.now states.now (suc link) self.new
            × NoneCloses hops.now states.now (suc link)
            × AreCalm hops.now states.now (suc link) firm.new)
            ((self.new ≡ self.old) × (firm.new ≡ firm.old) × Closes hops.now states.now link) }
        ensures nodes { length self.new.last.items ≡ length self.old.last.items }
    {
        if firm.covers(link) {
            self.put(hops, link);
            return true;
        }
        if self.closes(hops, states, link) {
            return false;
        }
        firm.note(link);
        self.put(hops, link);
        true
    }

    // Returns whether the link is the last one at the node.
    fn is_last_at(&self, node: NodeId, link: LinkId) -> bool
        requires { node < length self.now.last.items }
        ensures { MatchBool result (slice_get self.now.last.items node ≡ Some (Some link))
            (slice_get self.now.last.items node ≡ Some (Some link) → ⊥) }
    {
        match self.last[node.index()] {
            Some(last) => last == link,
            None => false,
        }
    }

    // Removes the last examined link. It was pushed exactly if it is the last link at its tail.
    pub(crate) fn take_back(&mut self, hops: &[Hop], link: LinkId)
        requires link { link < length hops.now }
        requires tails { length self.old.tails.items ≡ length hops.now }
        requires heads { length self.old.heads.items ≡ length hops.now }
        requires below { AreBelow (length self.old.last.items) hops.now }
        ensures holds { (pattern : Pattern) → IsTightStack hops.now pattern (suc link) self.old
            → IsTightStack hops.now pattern link self.new }
        ensures nodes { length self.new.last.items ≡ length self.old.last.items }
    {
        let hop = &hops[link.index()];
        let (tail, head) = (hop.tail, hop.head);
        if self.is_last_at(tail, link) {
            self.last[tail.index()] = self.tails[link.index()];
            self.last[head.index()] = self.heads[link.index()];
        }
    }
}
