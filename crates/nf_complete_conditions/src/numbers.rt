// Slopes of nodes and flows of links.
ghost use Rattle.std.specs.Prelude.{◌≡◌, ◌<◌, ◌&&◌, length};
ghost use Rattle.nf_model.specs.Entries.{number_at};

use nf_frac::Q;
use nf_graph::{LinkId, NodeId};

/// Returns whether both hold.
pub fn both(first: bool, second: bool) -> bool
    ensures { result ≡ (first && second) }
{
    first && second
}

/// Returns the slope of a node.
pub fn slope_of(slopes: &[Q], node: NodeId) -> Q
    requires { node < length slopes.now }
    ensures { result ≡ number_at slopes.now node }
{
    slopes[node.index()]
}

/// Returns the flow of a link.
pub fn flow_of(flows: &[Q], link: LinkId) -> Q
    requires { link < length flows.now }
    ensures { result ≡ number_at flows.now link }
{
    flows[link.index()]
}
