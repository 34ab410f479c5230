// Networks.
ghost use Rattle.std.specs.Prelude.{◌≡◌, ◌<◌, ◌≤◌, ◌⊎◌, length, position, slice_get, Some, MatchOption, true, false};
ghost use Rattle.std.specs.List.{list_all};
ghost use Rattle.std.specs.Str.{bytes_eq};
ghost use Rattle.nf_model.specs.Network.{IsLink, hops as hops_of, rate_at as rate_of_net, next_change as change_of_net};
ghost use Rattle.nf_net_def.specs.Names.{has_name, is_name, name_at};
ghost use Rattle.nf_net_def.specs.WellNamed.{IsNamed};
ghost use Rattle.nf_net_def.specs.Limits.{most_links};

use nf_frac::Q;
use nf_graph::{Hop, LinkId, NodeId};
use nf_net_file::{Link, Name, NamedLink, Piece, rate_of, start_after};
use std::marker::Model;

/// The network of an accepted file, with its names. Node 0 is the source and node 1 the sink. The other nodes are numbered by first
/// appearance in the lines of links. Links and pieces are numbered in the order of their lines. A network of version 2 may also have idle
/// nodes, which no walk from the source reaches, and idle links out of these nodes. Idle nodes and links have no numbers here.
#[derive(Drop)]
pub struct Network {
    pub(crate) version: u32,
    pub(crate) node_names: Vec<Name>,
    pub(crate) link_names: Vec<Name>,
    pub(crate) links: Vec<Link>,
    pub(crate) hops: Vec<Hop>,
    pub(crate) pieces: Vec<Piece>,
    pub(crate) idle_nodes: Vec<Name>,
    pub(crate) idle_links: Vec<NamedLink>,
}

impl Model for Network {
    ghost use Rattle.nf_net_def.specs.Named.{Named, coded_named};
    ghost use Rattle.nf_net.specs.Kept.{with_parts, IsOfFile};

    ghost Value = { Named };

    ghost coded = { coded_named };

    ghost view = { λ a. with_parts a.version a.node_names.items a.link_names.items a.links.items a.pieces.items a.idle_nodes.items
        a.idle_links.items };

    ghost invariant = { λ a. IsOfFile
        (with_parts a.version a.node_names.items a.link_names.items a.links.items a.pieces.items
        a.idle_nodes.items a.idle_links.items)
        a.hops.items };
}

// Returns the index of a name, if the list contains it.
fn place_of(names: &[Name], name: &Name) -> Option<usize>
    ensures { result ≡ position (bytes_eq name.now) names.now }
{
    names.iter().position(|other| name == other)
}

// Returns the index of the name that `text` is, if the list contains it.
#[tactic(auto, using(crate::proofs::Limits::not_there, crate::proofs::Limits::no_place, crate::proofs::Limits::position_there))]
fn found(names: &[Name], text: &str) -> Option<u32>
    requires few { length names.now ≤ most_links }
    requires names { list_all is_name names.now ≡ true }
    ensures { MatchOption result (has_name names.now text.now ≡ false)
        (λ place. slice_get names.now place ≡ Some text.now) }
{
    match Name::read(text.as_bytes()) {
        Some(name) => match place_of(names, &name) {
            Some(place) => Some(place as u32),
            None => None,
        },
        None => None,
    }
}

#[tactic(auto, using(crate::proofs::Limits::few_nodes, crate::proofs::Limits::few_links, crate::proofs::Limits::few_idle_nodes, crate::proofs::Limits::as_many_names, crate::proofs::Limits::some_nodes, crate::proofs::Limits::named_nodes, crate::proofs::Limits::named_links, crate::proofs::Limits::few_link_names))]
impl Network {
    /// Returns the version of the file's format: 1 or 2.
    pub fn version(&self) -> u32
        ensures value { result ≡ self.now.version }
        ensures known { (result ≡ 1) ⊎ (result ≡ 2) }
    {
        self.version
    }

    /// Does nothing. Proof: states that the network is that of an accepted file.
    pub fn recall(&self)
        ensures { IsNamed self.now }
    {
        let _ = &self.version;
    }

    /// Returns the number of nodes, without idle nodes.
    pub fn node_count(&self) -> u32
        ensures { result ≡ self.now.net.nodes }
    {
        self.node_names.len() as u32
    }

    /// Returns the number of links, without idle links.
    pub fn link_count(&self) -> u32
        ensures { result ≡ length self.now.net.links }
    {
        self.links.len() as u32
    }

    /// Returns the source, which is node 0.
    pub fn source(&self) -> NodeId
        ensures value { result ≡ self.now.net.source }
        ensures node { result < self.now.net.nodes }
    {
        // Proof: a network that was read has a source and a sink.
        let _ = &self.version;
        NodeId(0)
    }

    /// Returns the sink, which is node 1.
    pub fn sink(&self) -> NodeId
        ensures value { result ≡ self.now.net.sink }
        ensures node { result < self.now.net.nodes }
    {
        // Proof: a network that was read has a source and a sink.
        let _ = &self.version;
        NodeId(1)
    }

    /// Returns the name of a node. The number must be less than `node_count`.
    pub fn node_name(&self, node: NodeId) -> &str
        requires { node < self.now.net.nodes }
        ensures { result.now ≡ name_at self.now.node_names node }
    {
        self.node_names[node.index()].text()
    }

    /// Returns the name of a link. The number must be less than `link_count`.
    pub fn link_name(&self, link: LinkId) -> &str
        requires { link < length self.now.net.links }
        ensures { result.now ≡ name_at self.now.link_names link }
    {
        self.link_names[link.index()].text()
    }

    /// Returns the node with this name. Returns None exactly if no node that is not idle has the name.
    pub fn node_named(&self, name: &str) -> Option<NodeId>
        ensures { MatchOption result (has_name self.now.node_names name.now ≡ false)
            (λ node. slice_get self.now.node_names node ≡ Some name.now) }
    {
        match found(&self.node_names, name) {
            Some(place) => Some(NodeId(place)),
            None => None,
        }
    }

    /// Returns the link with this name. Returns None exactly if no link that is not idle has the name.
    pub fn link_named(&self, name: &str) -> Option<LinkId>
        ensures { MatchOption result (has_name self.now.link_names name.now ≡ false)
            (λ link. slice_get self.now.link_names link ≡ Some name.now) }
    {
        match found(&self.link_names, name) {
            Some(place) => Some(LinkId(place)),
            None => None,
        }
    }

    /// Returns a link. The number must be less than `link_count`.
    pub fn link(&self, link: LinkId) -> Link
        requires { link < length self.now.net.links }
        ensures link { IsLink self.now.net link result }
        ensures named { IsNamed self.now }
    {
        self.links[link.index()]
    }

    /// Returns the pieces of the supply, in increasing order of their starts.
    pub fn pieces(&self) -> &[Piece]
        ensures value { result.now ≡ self.now.net.pieces }
        ensures named { IsNamed self.now }
    {
        &self.pieces
    }

    /// Returns the links without their capacities.
    pub fn hops(&self) -> &[Hop]
        ensures value { result.now ≡ hops_of self.now.net }
        ensures named { IsNamed self.now }
    {
        &self.hops
    }

    /// Returns the rate, in amount per unit of time, at which the source is supplied from `time` on. This is the rate of the last piece
    /// that starts at or before `time`, or 0 if none does.
    pub fn rate_at(&self, time: Q) -> Q
        ensures { result ≡ rate_of_net self.now.net time }
    {
        rate_of(&self.pieces, time)
    }

    /// Returns the first start of a piece after `time`. Returns None exactly if no piece starts later.
    pub fn next_change(&self, time: Q) -> Option<Q>
        ensures { result ≡ change_of_net self.now.net time }
    {
        start_after(&self.pieces, time)
    }

    // Returns the idle links, in the order of their lines.
    pub(crate) fn idle_links(&self) -> &[NamedLink]
        ensures { result.now ≡ self.now.idle_links }
    {
        &self.idle_links
    }

    /// Returns the number of idle nodes.
    pub fn idle_count(&self) -> u32
        ensures { result ≡ length self.now.idle_nodes }
    {
        self.idle_nodes.len() as u32
    }

    /// Returns the name of an idle node. The index must be less than `idle_count`.
    pub fn idle_name(&self, index: u32) -> &str
        requires { index < length self.now.idle_nodes }
        ensures { result.now ≡ name_at self.now.idle_nodes index }
    {
        let names = &self.idle_nodes;
        names[index as usize].text()
    }
}
