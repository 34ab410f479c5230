// The question of a listing, and the step from one listed pattern to the next.
ghost use Rattle.std.specs.Prelude.{◌≡◌, ◌^◌, ◌<◌, length, IfOk};

use crate::assignments::{Order, Quiet};
use crate::pattern::Pattern;
use crate::sole::sole_links;
use crate::stated::StatedLinks;
use crate::trail::Trail;
use nf_graph::{Hop, LinkId, LinkSets, NodeId};
use nf_model::State;
use std::alloc::{AllocError, Global};
use std::marker::Model;

// What a listing depends on. The base has a state for exactly the links that need one, and `stated` indexes these links. No listed pattern
// has a link flagged in `sole` Zero.
#[derive(Drop)]
pub(crate) struct Question {
    nodes: u32,
    source: NodeId,
    hops: Vec<Hop>,
    active: Vec<bool>,
    resetting: Vec<bool>,
    unbounded: Vec<bool>,
    base: Pattern,
    stated: StatedLinks,
    sole: Vec<bool>,
}

// The nodes of a listing: how many there are, and which of them is the source.
#[derive(Clone, Copy)]
pub(crate) struct Nodes {
    pub(crate) count: u32,
    pub(crate) source: NodeId,
}

// The progress of a listing: before the first listed pattern, at a listed pattern, or after the last.
#[derive(Clone, Copy)]
pub(crate) enum Stand {
    Start,
    Listed,
    End,
}

impl Model for Question {
    ghost use Rattle.nf_pattern.specs.Given.{Question as SeenQuestion, IsQuestion, coded_question};
    ghost use Rattle.nf_pattern.specs.Stated.{AreStated};
    ghost use Rattle.nf_pattern.specs.Sole.{AreSpared};

    ghost Value = { SeenQuestion };

    ghost coded = { coded_question };

    ghost view = { λ q. record {
      nodes = q.nodes;
      source = q.source;
      hops = q.hops.items;
      sets = record { active = q.active.items; resetting = q.resetting.items };
      unbounded = q.unbounded.items;
      base = q.base;
    } };

    ghost invariant = { λ q. IsQuestion (record {
      nodes = q.nodes;
      source = q.source;
      hops = q.hops.items;
      sets = record { active = q.active.items; resetting = q.resetting.items };
      unbounded = q.unbounded.items;
      base = q.base;
    })
        × AreStated q.base q.stated
        × AreSpared (record {
          nodes = q.nodes;
          source = q.source;
          hops = q.hops.items;
          sets = record { active = q.active.items; resetting = q.resetting.items };
          unbounded = q.unbounded.items;
          base = q.base;
        }) q.sole.items };
}

// Returns the flags of the active links and those of the resetting links. Fails if an allocation fails.
fn copied_flags(
    alloc: Global,
    sets: &LinkSets,
    links: usize,
) -> Result<(Vec<bool>, Vec<bool>), AllocError>
    requires active { length sets.now.active ≡ links }
    requires resetting { length sets.now.resetting ≡ links }
    requires fewer { links < 2 ^ 32 }
    ensures active { IfOk result (λ flags. flags.0.items ≡ sets.now.active) }
    ensures resetting { IfOk result (λ flags. flags.1.items ≡ sets.now.resetting) }
{
    let mut active = Vec::new(alloc);
    let mut resetting = Vec::new(alloc);
    for e in 0..links {
        let link = LinkId(e as u32);
        let is_active = sets.active(link);
        active.push(is_active)?;
        let is_resetting = sets.resetting(link);
        resetting.push(is_resetting)?;
    }
    Ok((active, resetting))
}

impl Question {
    ghost use Rattle.std.specs.Prelude.{◌≡◌, ◌≤◌, length, take, IfOk, MatchBool, MatchOption, Some, None};
    ghost use Rattle.nf_model.specs.Pattern.{Pattern as SeenPattern};
    ghost use Rattle.nf_pattern.specs.Trail.{IsTrailOf};
    ghost use Rattle.nf_pattern.specs.Successor.{IsAssignment, IsSameBefore, IsQuiet};
    ghost use Rattle.nf_pattern.specs.Advancing.{Advances, NoneAdvances};
    ghost use Rattle.nf_pattern.specs.Given.{IsQuestion, IsListedBy, IsBarren, IsFirstFrom, NoneFrom, IsNext, NoneLeft, AtStart, UpTo};
    ghost use Rattle.nf_pattern.specs.declared.question.Stand.TheVariants.{Start};
    ghost use Rattle.nf_pattern.specs.Stands.{last_of, IsPlaced};

    // Returns the question of these values, copied. Fails if an allocation fails.
    pub(crate) fn new(
        alloc: Global,
        nodes: Nodes,
        hops: &[Hop],
        sets: &LinkSets,
        base: &Pattern,
        unbounded: &[bool],
    ) -> Result<Question, AllocError>
        requires { IsQuestion (record {
          nodes = nodes.count;
          source = nodes.source;
          hops = hops.now;
          sets = sets.now;
          unbounded = unbounded.now;
          base = base.now;
        }) }
        ensures { IfOk result (λ question. question ≡ record {
          nodes = nodes.count;
          source = nodes.source;
          hops = hops.now;
          sets = sets.now;
          unbounded = unbounded.now;
          base = base.now;
        }) }
    {
        let flags = copied_flags(alloc, sets, hops.len())?;
        let hops = hops.to_vec(alloc)?;
        let unbounded = unbounded.to_vec(alloc)?;
        let base = base.copy(alloc)?;
        let stated = StatedLinks::new(alloc, base.states())?;
        let sole = sole_links(
            alloc,
            nodes.count,
            nodes.source,
            &hops,
            base.states(),
            &flags.1,
        )?;
        Ok(Question {
            nodes: nodes.count,
            source: nodes.source,
            hops,
            active: flags.0,
            resetting: flags.1,
            unbounded,
            base,
            stated,
            sole,
        })
    }

    // Returns a trail of no examined links. Fails if an allocation fails.
    pub(crate) fn trail(&self, alloc: Global) -> Result<Trail, AllocError>
        requires question { IsQuestion self.now }
        ensures { IfOk result (λ trail. IsTrailOf self.now self.now.base trail) }
    {
        Trail::new(
            alloc,
            self.nodes,
            self.source,
            &self.hops,
            self.base.states(),
            &self.resetting,
        )
    }

    // Extends the trail along the states. Returns `None` if they are listed. Otherwise returns a number of links: no listed pattern has the
    // same states at that many first links.
    fn failing(&self, states: &[Option<State>], trail: &mut Trail) -> Option<usize>
        requires question { IsQuestion self.now }
        requires assigned { IsAssignment self.now.base self.now.unbounded states.now }
        requires trail { IsTrailOf self.now states.now trail.old }
        ensures trail { IsTrailOf self.now states.now trail.new }
        ensures found { MatchOption result (IsListedBy self.now states.now)
            (λ n. (n ≤ length self.now.base) × IsBarren self.now n states.now) }
    {
        if trail.is_lost() {
            return Some(0);
        }
        if trail.extend(
            &self.hops,
            states,
            &self.resetting,
            self.source,
            &self.stated,
        ) {
            return None;
        }
        Some(trail.depth() + 1)
    }

    // Sets `states` to a later assignment, such that all listed patterns between the two agree with the first one at the first `same`
    // links. Returns how many first links keep their states. Returns `None`, and changes nothing, if all later listed patterns agree with
    // this assignment there. Updates the unchanged suffix `quiet`.
    fn advance(&self, states: &mut [Option<State>], same: usize, quiet: &mut Quiet) -> Option<usize>
        requires assigned { IsAssignment self.now.base self.now.unbounded states.old }
        requires same { same ≤ length self.now.base }
        requires quiet { IsQuiet self.now.base quiet.old states.old }
        ensures quiet { IsQuiet self.now.base quiet.new states.new }
        ensures found { MatchOption result
            (NoneAdvances self.now same states.old × (states.new ≡ states.old))
            (λ link. Advances self.now same states.old states.new
            × IsSameBefore same link states.old states.new) }
    {
        let order = Order {
            base: self.base.states(),
            unbounded: &self.unbounded,
            sole: &self.sole,
            stated: &self.stated,
        };
        let raised = order.advance(states, same, *quiet)?;
        *quiet = raised.quiet;
        Some(raised.link)
    }

    // Shortens the trail to the first `link` links, so that it is one of all states that agree with the present ones there.
    fn retreat(&self, link: usize, trail: &mut Trail)
        requires left { (before : SeenPattern)
            × IsAssignment self.now.base self.now.unbounded before
            × IsTrailOf self.now before trail.old }
        ensures { (before after : SeenPattern) → IsTrailOf self.now before trail.old
            → IsAssignment self.now.base self.now.unbounded before
            → take link after ≡ take link before → IsTrailOf self.now after trail.new }
    {
        trail.retreat(&self.hops, link, &self.stated);
    }

    // Advances `states` to the first listed pattern from this assignment on. Returns whether there is one.
    fn seek(&self, states: &mut [Option<State>], trail: &mut Trail, quiet: &mut Quiet) -> bool
        requires placed { IsPlaced self.now states.old trail.old quiet.old }
        ensures placed { IsPlaced self.now states.new trail.new quiet.new }
        ensures found { MatchBool result (IsFirstFrom self.now states.old states.new)
            (NoneFrom self.now states.old) }
    {
        while let Some(same) = self.failing(states, trail) {
            let Some(link) = self.advance(states, same, quiet) else {
                return false;
            };
            self.retreat(link, trail);
        }
        true
    }

    // Advances `states` from the base to the first listed pattern. Returns whether there is one.
    fn first(&self, states: &mut [Option<State>], trail: &mut Trail, quiet: &mut Quiet) -> bool
        requires base { states.old ≡ self.now.base }
        requires placed { IsPlaced self.now states.old trail.old quiet.old }
        ensures placed { IsPlaced self.now states.new trail.new quiet.new }
        ensures found { MatchBool result (IsNext self.now AtStart states.new)
            (NoneLeft self.now AtStart) }
    {
        self.seek(states, trail, quiet)
    }

    // Advances `states` from a listed pattern to the next one. Returns whether there is one.
    fn after(&self, states: &mut [Option<State>], trail: &mut Trail, quiet: &mut Quiet) -> bool
        requires placed { IsPlaced self.now states.old trail.old quiet.old }
        ensures placed { IsPlaced self.now states.new trail.new quiet.new }
        ensures found { MatchBool result (IsNext self.now (UpTo states.old) states.new)
            (NoneLeft self.now (UpTo states.old)) }
    {
        let links = states.len();
        match self.advance(states, links, quiet) {
            None => false,
            Some(link) => {
                self.retreat(link, trail);
                self.seek(states, trail, quiet)
            }
        }
    }

    // Advances `states` to the next listed pattern, given the progress of the listing. Returns whether there is one.
    pub(crate) fn find(
        &self,
        stand: Stand,
        states: &mut [Option<State>],
        trail: &mut Trail,
        quiet: &mut Quiet,
    ) -> bool
        requires start { stand ≡ Start → states.old ≡ self.now.base }
        requires placed { IsPlaced self.now states.old trail.old quiet.old }
        ensures placed { IsPlaced self.now states.new trail.new quiet.new }
        ensures found { MatchBool result (IsNext self.now (last_of stand states.old) states.new)
            (NoneLeft self.now (last_of stand states.old)) }
    {
        match stand {
            Stand::Start => self.first(states, trail, quiet),
            Stand::Listed => self.after(states, trail, quiet),
            Stand::End => false,
        }
    }
}
