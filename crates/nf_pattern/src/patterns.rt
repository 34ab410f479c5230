// The listed patterns of a phase, in order.
use crate::assignments::Quiet;
use crate::pattern::Pattern;
use crate::question::{Nodes, Question, Stand};
use crate::trail::Trail;
use nf_graph::{Hop, LinkSets, NodeId};
use std::alloc::{AllocError, Global};
use std::marker::Model;

/// An enumeration of the listed patterns of a phase, in order. A pattern has a state for exactly the active links that are not resetting,
/// and Full for no unbounded link. It is listed if two conditions hold. Its Tight links, taken without direction, form a forest, and a
/// Tight, Full or resetting link enters each node except the source. Patterns are ordered by the number of links whose state differs from a
/// base. Equal numbers are ordered link by link, Tight before Full before Zero.
#[derive(Drop)]
pub struct Patterns {
    question: Question,
    current: Pattern,
    trail: Trail,
    quiet: Quiet,
    stand: Stand,
    place: u64,
}

impl Model for Patterns {
    ghost use Rattle.nf_pattern.specs.Given.{Given, coded_given};
    ghost use Rattle.nf_pattern.specs.Stands.{last_of, IsStanding};

    ghost Value = { Given };

    ghost coded = { coded_given };

    ghost view = { λ p. record { question = p.question; last = last_of p.stand p.current; place = p.place } };

    ghost invariant = { λ p. IsStanding p.question p.stand p.current p.trail p.quiet };
}

impl Patterns {
    ghost use Rattle.std.specs.Prelude.{◌≡◌, ◌^◌, ◌<◌, length, IfOk, MatchBool, Some, None, option_copied};
    ghost use Rattle.std.specs.Borrow.{sem};
    ghost use Rattle.nf_model.specs.Pattern.{Pattern as SeenPattern, IsPattern};
    ghost use Rattle.nf_graph.specs.Graph.{AreBelow};
    ghost use Rattle.nf_pattern.specs.Given.{AtStart, Enumerates};
    ghost use Rattle.nf_pattern.specs.Enumerating.{EnumeratesNext};

    /// Returns an enumeration that begins before the first listed pattern. Fails if an allocation fails. The base must have a state for
    /// exactly the active links that are not resetting, and Full for no unbounded link. `sets` and `unbounded` must have one flag for each
    /// link.
    pub fn new(
        alloc: Global,
        nodes: u32,
        source: NodeId,
        hops: &[Hop],
        sets: &LinkSets,
        base: &Pattern,
        unbounded: &[bool],
    ) -> Result<Patterns, AllocError>
        requires ends { AreBelow nodes hops.now }
        requires active { length sets.now.active ≡ length hops.now }
        requires resetting { length sets.now.resetting ≡ length hops.now }
        requires unbounded { length unbounded.now ≡ length hops.now }
        requires fewer { length hops.now < 2 ^ 32 }
        requires base { IsPattern sets.now unbounded.now base.now }
        ensures { IfOk result (λ patterns. patterns
            ≡ record {
              question = record {
                nodes = nodes;
                source = source;
                hops = hops.now;
                sets = sets.now;
                unbounded = unbounded.now;
                base = base.now;
              };
              last = AtStart;
              place = 0;
            }) }
    {
        let ends = Nodes {
            count: nodes,
            source,
        };
        let question = Question::new(alloc, ends, hops, sets, base, unbounded)?;
        let current = base.copy(alloc)?;
        let trail = question.trail(alloc)?;
        let quiet = Quiet {
            link: hops.len(),
            free: 0,
        };
        Ok(Patterns {
            question,
            current,
            trail,
            quiet,
            stand: Stand::Start,
            place: 0,
        })
    }

    // Advances to the next listed pattern. Returns whether there is one.
    fn step(&mut self) -> bool
        ensures { MatchBool result ((pattern : SeenPattern)
            × Enumerates self.old (Some pattern) self.new) (Enumerates self.old None self.new) }
    {
        let current = &mut self.current;
        if self.question.find(
            self.stand,
            &mut current.states,
            &mut self.trail,
            &mut self.quiet,
        ) {
            self.stand = Stand::Listed;
            self.place = self.place.saturating_add(1);
            return true;
        }
        self.stand = Stand::End;
        false
    }

    /// Returns the least listed pattern after those returned before, or `None` exactly if there is none. Does not allocate.
    pub fn next(&mut self) -> Option<&Pattern>
        ensures* { sem 𝓛 (EnumeratesNext self.entry (option_copied result)) }
    {
        if self.step() {
            Some(&self.current)
        } else {
            None
        }
    }

    /// Returns how many patterns `next` has returned, capped at 2^64 - 1.
    pub fn place(&self) -> u64
        ensures { result ≡ self.now.place }
    {
        self.place
    }
}
