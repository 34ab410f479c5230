// The Tight components of a network: the sets of nodes that Tight links join, and their numbers.
ghost use Rattle.std.specs.Prelude.{◌≡◌, ℕ, ◌<◌, length, Some, IsSome, IfOk, MatchBool};
ghost use Rattle.nf_model.specs.declared.State.TheVariants.{Full};
ghost use Rattle.nf_model.specs.Network.{Link as SeenLink, Network as SeenNetwork, IsLink};
ghost use Rattle.nf_thin_equation_laws.specs.Equations.{IsPatternIn};

use crate::forest::Forest;
use nf_graph::{LinkId, LinkSets, NodeId};
use nf_model::State;
use nf_net::{MOST_NODES, Network};
use nf_pattern::Pattern;

/// Returns the state of an active link, where a resetting link counts as Full. Returns `None` if the link is not active. Only a link with a
/// capacity counts as Full.
pub(crate) fn state_in(sets: &LinkSets, pattern: &Pattern, link: LinkId) -> Option<State>
    requires sets { link < length sets.now.active }
    requires states { link < length pattern.now }
    ensures { result ≡ Some Full → (net : SeenNetwork) (here : SeenLink)
        → IsPatternIn net sets.now pattern.now
        → IsLink net link here → IsSome here.capacity }
{
    if !sets.active(link) {
        return None;
    }
    match pattern.state(link) {
        Some(state) => Some(state),
        None => Some(State::Full),
    }
}

/// Returns the forest of the Tight links, or `None` if they close a cycle.
pub fn tight_forest(net: &Network, sets: &LinkSets, pattern: &Pattern) -> Option<Forest>
    requires { IsPatternIn net.now.net sets.now pattern.now }
{
    let mut forest = Forest::new();
    for e in 0..net.link_count() {
        if let Some(State::Tight) = state_in(sets, pattern, LinkId(e)) {
            let here = net.link(LinkId(e));
            if !forest.grow(here.tail, here.head) {
                return None;
            }
        }
    }
    Some(forest)
}

/// The Tight components: each node's component number, and the number of components. The component of the source, which is node 0, has
/// number 0, and the others follow in node order.
#[derive(Clone, Copy)]
pub(crate) struct Parts {
    numbers: [u32; MOST_NODES],
    pub(crate) count: u32,
}

impl Parts {
    /// Returns the components that the links of a forest join.
    pub(crate) fn new(net: &Network, forest: &Forest) -> Parts {
        let mut parts = Parts {
            numbers: [0; MOST_NODES],
            count: 0,
        };
        for v in 0..net.node_count() {
            parts.add(NodeId(v), NodeId(forest.label(NodeId(v)) as u32));
        }
        parts
    }

    // Gives a node the number of the first node of its component, or the next number if it is the first one.
    fn add(&mut self, node: NodeId, first: NodeId) {
        if node.index() >= MOST_NODES {
            return;
        }
        if node == first {
            self.numbers[node.index()] = self.count;
            self.count = self.count.saturating_add(1);
        } else {
            self.numbers[node.index()] = self.number(first);
        }
    }

    /// Returns the number of a node's component, or 0 beyond the greatest number of nodes.
    pub(crate) fn number(&self, node: NodeId) -> u32 {
        if node.index() < MOST_NODES {
            self.numbers[node.index()]
        } else {
            0
        }
    }
}
