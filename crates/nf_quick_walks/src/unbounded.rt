// Walks of unbounded links from source to sink.
ghost use Rattle.std.specs.Prelude.{◌≡◌, ℕ, ◌<◌, List, [], ◌∷◌, ◌++◌, length, set, replicate, Some, None, is_some, IfOk, MatchOption};
ghost use Rattle.nf_quick_def.specs.Steps.{IsUnboundedWalk, IsLimited};
ghost use Rattle.nf_quick_walks.specs.Ways.{walk_to, leads_on as leads_on_by, LeadsToNew, NoneLeadsOn, AreAllWays};

use nf_graph::NodeId;
use nf_net::{Link, LinkId, Network};
use std::alloc::{AllocError, Global};
use std::marker::Model;

// The links of a walk from the source.
#[derive(Drop)]
struct Way {
    links: Vec<LinkId>,
}

impl Model for Way {
    ghost use Rattle.std.specs.Prelude.{ℕ, List};
    ghost use Rattle.std.specs.Coded.{coded_ℕ, coded_list};

    ghost Value = { List ℕ };

    ghost coded = { coded_list coded_ℕ };

    ghost view = { λ w. w.links.items };
}

// Returns whether a walk to the node is known.
fn is_known(ways: &[Option<Way>], node: NodeId) -> bool
    requires { node < length ways.now }
    ensures { result ≡ is_some (walk_to ways.now node) }
{
    ways[node.index()].is_some()
}

// Returns whether the link is unbounded and leads from a node with a known walk to a node without one.
fn leads_on(ways: &[Option<Way>], link: Link) -> bool
    requires tail { link.tail < length ways.now }
    requires head { link.head < length ways.now }
    ensures { result ≡ leads_on_by ways.now link }
{
    link.capacity.is_none() && is_known(ways, link.tail) && !is_known(ways, link.head)
}

// Returns the first link that leads to a new node, or None if there is none.
fn next_link(net: &Network, ways: &[Option<Way>]) -> Option<LinkId>
    requires { length ways.now ≡ net.now.net.nodes }
    ensures { MatchOption result (NoneLeadsOn net.now.net ways.now)
        (λ e. LeadsToNew net.now.net ways.now e) }
{
    net.recall();
    for number in 0..net.link_count() {
        let link = LinkId(number);
        if leads_on(ways, net.link(link)) {
            return Some(link);
        }
    }
    None
}

// Returns the walk to a node, extended by a link.
fn longer(
    alloc: Global,
    ways: &[Option<Way>],
    node: NodeId,
    link: LinkId,
) -> Result<Way, AllocError>
    requires { node < length ways.now }
    ensures { IfOk result
        (λ longer. (way : List ℕ) → walk_to ways.now node ≡ Some way → longer ≡ way ++ link ∷ []) }
{
    let mut links = Vec::new(alloc);
    if let Some(way) = &ways[node.index()] {
        links.extend_from_slice(&way.links)?;
    }
    links.push(link)?;
    Ok(Way { links })
}

// Returns the initial table: the empty walk to the source, and None for each other node.
fn first_ways(alloc: Global, net: &Network) -> Result<Vec<Option<Way>>, AllocError>
    ensures { IfOk result
        (λ ways. ways.items ≡ set (replicate net.now.net.nodes None) net.now.net.source (Some [])) }
{
    let mut ways = Vec::with_capacity(alloc, net.node_count() as usize)?;
    for _ in 0..net.node_count() {
        ways.push(None)?;
    }
    let source = net.source();
    ways[source.index()] = Some(Way {
        links: Vec::new(alloc),
    });
    Ok(ways)
}

fn put(ways: &mut Vec<Option<Way>>, node: NodeId, way: Way)
    requires { node < length ways.old.items }
    ensures { ways.new.items ≡ set ways.old.items node (Some way) }
{
    ways[node.index()] = Some(way);
}

// Returns a walk of unbounded links from the source to each node, or None where no such walk leads.
fn all_ways(alloc: Global, net: &Network) -> Result<Vec<Option<Way>>, AllocError>
    ensures { IfOk result (λ ways. AreAllWays net.now.net ways.items) }
{
    net.recall();
    let mut ways = first_ways(alloc, net)?;
    while let Some(link) = next_link(net, &ways) {
        let here = net.link(link);
        let way = longer(alloc, &ways, here.tail, link)?;
        put(&mut ways, here.head, way);
    }
    Ok(ways)
}

/// Returns a walk of unbounded links from source to sink, or None exactly if there is none. Fails if an allocation fails.
pub fn unbounded_walk(alloc: Global, net: &Network) -> Result<Option<Vec<LinkId>>, AllocError>
    ensures { IfOk result (λ found. MatchOption found (IsLimited net.now.net)
        (λ links. IsUnboundedWalk net.now.net links.items net.now.net.source net.now.net.sink)) }
{
    let mut ways = all_ways(alloc, net)?;
    let sink = net.sink();
    match ways.swap_remove(sink.index()) {
        None => Ok(None),
        Some(way) => Ok(Some(way.links)),
    }
}
