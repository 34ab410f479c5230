// The links at each node, in link order: a node's first link, and after each link the next ones at its ends.
ghost use Rattle.std.specs.Prelude.{◌<◌, suc, length, IfOk};
ghost use Rattle.nf_thin_balance.specs.LinksAt.{IsNextAt, HasLinksFrom, HasLinks};

use nf_graph::{LinkId, NodeId};
use nf_net::Network;
use std::alloc::{AllocError, Global};

/// The links at each node. The number of links stands for no link.
#[derive(Drop)]
pub(crate) struct LinksAt {
    // Of each node, its first link.
    first: Vec<u32>,
    // Of each link, the next link at its tail.
    at_tail: Vec<u32>,
    // Of each link, the next link at its head.
    at_head: Vec<u32>,
}

// Adds a link before all links that were added.
fn add_first(
    first: &mut Vec<u32>,
    at_tail: &mut Vec<u32>,
    at_head: &mut Vec<u32>,
    net: &Network,
    link: LinkId,
)
    requires link { link < length net.now.net.links }
    requires later { HasLinksFrom net.now.net
        (suc link) first.old.items at_tail.old.items at_head.old.items }
    ensures { HasLinksFrom net.now.net link first.new.items at_tail.new.items at_head.new.items }
{
    let hop = &net.hops()[link.index()];
    let tail = hop.tail.index();
    let head = hop.head.index();
    at_tail[link.index()] = first[tail];
    at_head[link.index()] = first[head];
    first[tail] = link.0;
    first[head] = link.0;
}

impl LinksAt {
    /// Returns the links at each node of the network. Fails if an allocation fails.
    pub(crate) fn new(alloc: Global, net: &Network) -> Result<LinksAt, AllocError>
        ensures { IfOk result (λ links. HasLinks net.now.net links) }
    {
        let count = net.link_count();
        let mut first = vec![in alloc; count; net.node_count() as usize]?;
        let mut at_tail = vec![in alloc; count; count as usize]?;
        let mut at_head = vec![in alloc; count; count as usize]?;
        let mut link = count;
        while link > 0 {
            link -= 1;
            add_first(&mut first, &mut at_tail, &mut at_head, net, LinkId(link));
        }
        Ok(LinksAt {
            first,
            at_tail,
            at_head,
        })
    }

    /// Returns the first link at a node.
    pub(crate) fn first(&self, net: &Network, node: NodeId) -> u32
        requires links { HasLinks net.now.net self.now }
        requires node { node < net.now.net.nodes }
        ensures { IsNextAt net.now.net node 0 result }
    {
        self.first[node.index()]
    }

    /// Returns the next link at a node after a link at this node. After another link, returns the next of all links.
    pub(crate) fn next(&self, net: &Network, node: NodeId, link: LinkId) -> u32
        requires links { HasLinks net.now.net self.now }
        requires link { link < length net.now.net.links }
        ensures { IsNextAt net.now.net node (suc link) result }
    {
        let hop = &net.hops()[link.index()];
        let leaves = hop.tail == node;
        let enters = hop.head == node;
        if leaves {
            return self.at_tail[link.index()];
        }
        if enters {
            return self.at_head[link.index()];
        }
        link.0 + 1
    }
}
