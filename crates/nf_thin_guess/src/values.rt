// The slopes and flows that solve a pattern's table. No contract promises that they solve it.
use nf_frac::Q;
use nf_graph::{LinkId, NodeId};

/// A slope for each node, and a flow for each link. The flow of a link that is not active is 0. Flows are amounts per unit of time.
#[derive(Drop)]
pub(crate) struct Values {
    pub(crate) slopes: Vec<Q>,
    pub(crate) flows: Vec<Q>,
}

impl Values {
    ghost use Rattle.std.specs.Prelude.{◌<◌, length};

    /// Returns the slope of a node.
    pub(crate) fn slope(&self, node: NodeId) -> Q
        requires { node < length self.now.slopes.items }
    {
        self.slopes[node.index()]
    }

    /// Returns the flow of a link.
    pub(crate) fn flow(&self, link: LinkId) -> Q
        requires { link < length self.now.flows.items }
    {
        self.flows[link.index()]
    }
}
