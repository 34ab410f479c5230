// Pushes of shortest residual walks in succession.
ghost use Rattle.std.specs.Prelude.{IfOk};
ghost use Rattle.nf_frac_def.specs.Passing.{passes_Q};
ghost use Rattle.nf_quick_def.specs.Steps.{IsLimited};
ghost use Rattle.nf_quick_def.specs.Flows.{IsSound};
ghost use Rattle.nf_quick.specs.Answered.{IsPushResult};

use crate::fault::QuickFault;
use nf_frac::Q;
use nf_net::Network;
use nf_quick_walks::QuickStanding;
use std::alloc::Global;

/// Pushes shortest walks until none is left that is shorter than the time. Refuses with Budget exactly if `augments` walks were pushed and
/// such a walk is left.
pub(crate) fn push_up_to(
    alloc: Global,
    net: &Network,
    amount: Q,
    augments: u64,
) -> Result<QuickStanding, QuickFault>
    requires { IsLimited net.now.net }
    ensures pushed { IsPushResult passes_Q net.now.net amount augments result }
    ensures sound { IfOk result (λ s. IsSound net.now.net s.flows) }
{
    let mut standing = QuickStanding::start(alloc, net)?;
    for _ in 0..augments {
        let Some(walk) = standing.next(alloc, net)? else {
            return Ok(standing);
        };
        standing.push_on(net, amount, walk)?;
    }
    match standing.next(alloc, net)? {
        None => Ok(standing),
        Some(_) => Err(QuickFault::Budget {
            walks: standing.pushed,
        }),
    }
}
