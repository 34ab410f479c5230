// What the lines of a network file say so far.
ghost use Rattle.std.specs.Prelude.{◌≡◌, ◌<◌, ◌≤◌, ◌+◌, ◌||◌, [], ◌∷◌, length, nat_lt, None, Ok, Err, OnOk, MatchResult};
ghost use Rattle.std.specs.List.{last_or};
ghost use Rattle.std.specs.Str.{bytes_eq};
ghost use Rattle.nf_net_def.specs.declared.NetRule.TheVariants.{N9, N10};
ghost use Rattle.nf_net_def.specs.Names.{has_name, with_name, with_names};
ghost use Rattle.nf_net_def.specs.Named.{names_of};
ghost use Rattle.nf_net_def.specs.NetLines.{LinkLine, InflowLine, empty_draft, after, first_rule, too_many_nodes, is_no_capacity, is_not_after, broken_rule, add_line};
ghost use Rattle.nf_net_file.specs.Reading.{seen_entry};
ghost use Rattle.nf_text.specs.Faults.{IfRule};
ghost use Rattle.nf_net_file.specs.Drafts.{seen_draft, one_unless};
ghost use Rattle.nf_net_def.specs.Limits.{most_nodes};

use crate::entry::{Entry, read_entry};
use crate::link::{NamedLink, Piece};
use crate::name::Name;
use crate::names::Names;
use crate::sizes::{MOST_LINKS, MOST_NODES, MOST_PIECES};
use nf_frac::Q;
use nf_net_def::NetRule;
use nf_text::{LineFault, ReadLine};
use std::alloc::{AllocError, Global};

/// What the lines so far say: source, sink, nodes in the order of first appearance, links, pieces, and whether there was an
/// `end` line.
#[derive(Drop)]
pub struct Draft {
    pub version: u32,
    pub source: Option<Name>,
    pub sink: Option<Name>,
    pub nodes: Names,
    pub links: Vec<NamedLink>,
    pub pieces: Vec<Piece>,
    pub ended: bool,
}

// Returns how many names a name adds: none if it is known, else one.
fn count_new(known: bool) -> usize
    ensures { result ≡ one_unless known }
{
    if known { 0 } else { 1 }
}

fn is_known(nodes: &Names, name: &Name, other: &Name) -> bool
    ensures { result ≡ (has_name nodes.now name.now || bytes_eq name.now other.now) }
{
    nodes.has(name) || name == other
}

// Returns how many of two names are new.
#[tactic(auto, using(crate::proofs::NodeCounts::length_with_two))]
fn new_names(nodes: &Names, first: &Name, second: &Name) -> usize
    ensures count { length (with_names nodes.now (first.now ∷ second.now ∷ []))
        ≡ length nodes.now + result }
    ensures small { result ≤ 2 }
{
    count_new(nodes.has(first)) + count_new(is_known(nodes, second, first))
}

// Returns whether there are more than 64 nodes with this name.
#[tactic(auto, using(crate::proofs::NodeCounts::length_with_one))]
fn is_too_many(nodes: &Names, name: &Name) -> bool
    ensures { result ≡ nat_lt most_nodes (length (with_name nodes.now name.now)) }
{
    let more = count_new(nodes.has(name));
    nodes.len() > MOST_NODES - more
}

// Returns whether there are more than 64 nodes with these names.
fn are_too_many(nodes: &Names, first: &Name, second: &Name) -> bool
    ensures { result
        ≡ nat_lt most_nodes (length (with_names nodes.now (first.now ∷ second.now ∷ []))) }
{
    let more = new_names(nodes, first, second);
    nodes.len() > MOST_NODES - more
}

// Returns whether a link has this name.
fn has_link(links: &[NamedLink], name: &Name) -> bool
    ensures { result ≡ has_name (names_of links.now) name.now }
{
    for link in links {
        if *name == link.name {
            return true;
        }
    }
    false
}

// Returns whether a capacity is a number that is not above 0.
fn is_empty_capacity(capacity: Option<Q>) -> bool
    ensures { result ≡ is_no_capacity capacity }
{
    match capacity {
        Some(capacity) => capacity.is_at_most(Q::zero()),
        None => false,
    }
}

// Returns whether a start is not after that of the last piece.
fn is_too_early(pieces: &[Piece], start: Q) -> bool
    ensures { result ≡ is_not_after start (last_or None pieces.now) }
{
    if pieces.is_empty() {
        return false;
    }
    let last = &pieces[pieces.len() - 1];
    start.is_at_most(last.start)
}

impl Draft {
    // Returns the parser state after the first line, which gives this version.
    pub(crate) fn new(alloc: Global, version: u32) -> Draft
        ensures { seen_draft result ≡ empty_draft version }
    {
        Draft {
            version,
            source: None,
            sink: None,
            nodes: Names::new(alloc),
            links: Vec::new(alloc),
            pieces: Vec::new(alloc),
            ended: false,
        }
    }

    fn node_rule(&self, taken: bool, name: &Name) -> Option<NetRule>
        ensures { result ≡ first_rule
            ((taken, N9) ∷ (too_many_nodes (seen_draft self.now) (name.now ∷ []), N10) ∷ []) }
    {
        if taken {
            return Some(NetRule::N9);
        }
        if is_too_many(&self.nodes, name) {
            return Some(NetRule::N10);
        }
        None
    }

    fn link_rule(&self, link: &NamedLink) -> Option<NetRule>
        ensures { result ≡ broken_rule (seen_draft self.now) (LinkLine link.now) }
    {
        if has_link(&self.links, &link.name) {
            return Some(NetRule::N9);
        }
        if are_too_many(&self.nodes, &link.tail, &link.head) {
            return Some(NetRule::N10);
        }
        if self.links.len() >= MOST_LINKS {
            return Some(NetRule::N11);
        }
        if link.transit.is_below(Q::zero()) {
            return Some(NetRule::N13);
        }
        if is_empty_capacity(link.capacity) {
            return Some(NetRule::N14);
        }
        None
    }

    fn piece_rule(&self, piece: &Piece) -> Option<NetRule>
        ensures { result ≡ broken_rule (seen_draft self.now) (InflowLine piece.now) }
    {
        if self.pieces.len() >= MOST_PIECES {
            return Some(NetRule::N12);
        }
        if piece.start.is_below(Q::zero()) {
            return Some(NetRule::N15);
        }
        if piece.rate.is_below(Q::zero()) {
            return Some(NetRule::N15);
        }
        if is_too_early(&self.pieces, piece.start) {
            return Some(NetRule::N16);
        }
        None
    }

    // Returns the first of N9 to N16 that the line breaks after the lines before it.
    fn rule(&self, entry: &Entry) -> Option<NetRule>
        ensures { result ≡ broken_rule (seen_draft self.now) (seen_entry entry.now) }
    {
        match entry {
            Entry::Source(name) => self.node_rule(self.source.is_some(), name),
            Entry::Sink(name) => self.node_rule(self.sink.is_some(), name),
            Entry::Link(link) => self.link_rule(link),
            Entry::Inflow(piece) => self.piece_rule(piece),
            Entry::End => None,
        }
    }

    fn add_link(&mut self, link: NamedLink) -> Result<(), AllocError>
        ensures { OnOk result (seen_draft self.new ≡ after (seen_draft self.old) (LinkLine link)) }
    {
        self.nodes.put(link.tail.copy())?;
        self.nodes.put(link.head.copy())?;
        self.links.push(link)?;
        Ok(())
    }

    fn add(&mut self, entry: Entry) -> Result<(), AllocError>
        ensures { OnOk result
            (seen_draft self.new ≡ after (seen_draft self.old) (seen_entry entry)) }
    {
        match entry {
            Entry::Source(name) => {
                self.nodes.put(name.copy())?;
                self.source = Some(name);
            }
            Entry::Sink(name) => {
                self.nodes.put(name.copy())?;
                self.sink = Some(name);
            }
            Entry::Link(link) => self.add_link(link)?,
            Entry::Inflow(piece) => self.pieces.push(piece)?,
            Entry::End => self.ended = true,
        }
        Ok(())
    }

    // Adds what a line says. Refuses with the first of N4 to N16 that the line breaks, or if an allocation fails.
    pub(crate) fn add_line(&mut self, line: &ReadLine) -> Result<(), LineFault<NetRule>>
        ensures { MatchResult result
            (λ _. add_line (seen_draft self.old) line.now.words ≡ Ok (seen_draft self.new))
            (λ fault.
            IfRule fault (λ rule. add_line (seen_draft self.old) line.now.words ≡ Err rule)) }
    {
        if self.ended {
            return Err(LineFault::Broken(NetRule::N4));
        }
        let entry = match read_entry(self.version, line) {
            Ok(entry) => entry,
            Err(rule) => return Err(LineFault::Broken(rule)),
        };
        if let Some(rule) = self.rule(&entry) {
            return Err(LineFault::Broken(rule));
        }
        self.add(entry)?;
        Ok(())
    }
}
