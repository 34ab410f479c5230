// A forest of links, by the nodes that it joins. No contract says which nodes it joins, since a guess is judged like any other pattern.
use nf_graph::NodeId;
use nf_net::MOST_NODES;

/// A forest of links. Each node has a label: the least number of a node that the forest joins with it.
#[derive(Clone, Copy)]
pub struct Forest {
    labels: [u8; MOST_NODES],
}

impl Forest {
    /// Returns a forest without links.
    pub(crate) fn new() -> Forest {
        let mut labels = [0; MOST_NODES];
        for v in 0..MOST_NODES {
            labels[v] = v as u8;
        }
        Forest { labels }
    }

    /// Returns the label of a node, or 0 beyond the greatest number of nodes.
    pub(crate) fn label(&self, node: NodeId) -> u8 {
        if node.index() < MOST_NODES {
            self.labels[node.index()]
        } else {
            0
        }
    }

    // Changes one label to another at each node.
    fn rename(&mut self, old: u8, new: u8) {
        for v in 0..MOST_NODES {
            let label = self.labels[v];
            self.labels[v] = if label == old { new } else { label };
        }
    }

    /// Adds a link between two nodes unless it closes a cycle. Returns whether it closes none.
    pub fn grow(&mut self, tail: NodeId, head: NodeId) -> bool {
        let one = self.label(tail);
        let other = self.label(head);
        if one == other {
            return false;
        }
        if one < other {
            self.rename(other, one);
        } else {
            self.rename(one, other);
        }
        true
    }
}
