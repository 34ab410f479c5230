// A caller of nf_residual.
ghost use Rattle.std.specs.Prelude.{IfOk};
ghost use Rattle.nf_quick_def.specs.Flows.{IsSound};
ghost use Rattle.nf_quick_def.specs.Steps.{IsLimited};

use nf_frac::{Halt, Q};
use nf_net::Network;
use nf_residual::Residual;
use std::alloc::Global;

/// Returns the static flow after one push along a shortest walk from source to sink, with all that the walk can carry. Each walk from
/// source to sink must have a link with a capacity. The flow respects the capacities, and no closed residual walk has negative length.
/// Fails if an operation passes the bound, or if an allocation fails.
pub fn first_push(alloc: Global, net: &Network) -> Result<Residual, Halt<Q>>
    requires { IsLimited net.now.net }
    ensures { IfOk result (λ flow. IsSound net.now.net flow) }
{
    let mut flow = Residual::new(alloc, net)?;
    match flow.shortest(alloc, net)? {
        None => Ok(flow),
        Some(walk) => {
            flow.push(net, &walk, walk.room)?;
            Ok(flow)
        }
    }
}
