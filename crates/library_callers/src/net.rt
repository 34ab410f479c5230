// A caller of nf_net.
ghost use Rattle.std.specs.Prelude.{◌≤◌, Ok, length, IfOk};
ghost use Rattle.nf_text_def.specs.Faults.{longest_text};
ghost use Rattle.nf_model.specs.Walk.{IsLeastTransit};
ghost use Rattle.nf_model.specs.Network.{hops};
ghost use Rattle.nf_net_def.specs.Named.{Named};
ghost use Rattle.nf_net_def.specs.NetFile.{Reads};

use nf_frac::Q;
use nf_net::{NetFault, parse, start_labels};
use std::alloc::Global;

/// Returns the travel time from source to sink over empty links, of the network that a text of at most 67,108,864 bytes stands for. This
/// is the least transit sum of the walks from source to sink. Fails with the first rule that the text breaks, or if an allocation fails.
pub fn free_flow_time(alloc: Global, text: &[u8]) -> Result<Q, NetFault>
    requires { length text.now ≤ longest_text }
    ensures { IfOk result (λ time. (n : Named) × Reads text.now (Ok n)
        × IsLeastTransit (hops n.net) n.net.source n.net.sink time) }
{
    let net = parse(alloc, text)?;
    let sink = net.sink();
    let labels = start_labels(alloc, &net)?;
    Ok(labels[sink.index()])
}
