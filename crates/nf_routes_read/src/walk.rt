// Walks from source to sink.
ghost use Rattle.std.specs.Prelude.{◌≡◌, ◌<◌, length, All};
ghost use Rattle.nf_routes_def.specs.RoutesFile.{is_walk as is_walk_by};

use nf_net::{LinkId, Network};

/// Returns whether the links are a walk from source to sink. The first link leaves the source, each later link leaves the head of the one
/// before, and the last link leads to the sink.
pub fn is_walk(net: &Network, links: &[LinkId]) -> bool
    requires within { All (λ e. e < length net.now.net.links) links.now }
    ensures { result ≡ is_walk_by net.now.net.links links.now net.now.net.source net.now.net.sink }
{
    let mut node = net.source();
    for link in links {
        let link = net.link(*link);
        if link.tail != node {
            return false;
        }
        node = link.head;
    }
    node == net.sink()
}
