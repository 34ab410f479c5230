// Whether an amount can arrive by a deadline.
ghost use Rattle.std.specs.Prelude.{◌≡◌, ◌≤◌, IfOk, MatchBool};
ghost use Rattle.nf_rational.specs.Operations.{0ℚ};
ghost use Rattle.nf_rational.specs.Order.{◌≤ℚ◌, le_ℚ};
ghost use Rattle.library_callers.specs.Deadlines.{FitsBefore, NothingArrivesBy};

use nf_frac::Q;
use nf_net::Network;
use nf_quick::{Quick, QuickFault, quickest};
use std::alloc::Global;

// Returns whether a quickest flow ends by the deadline.
fn ends_by(quick: Quick, deadline: Q) -> bool
    ensures { result ≡ le_ℚ quick.time deadline }
{
    quick.time.is_at_most(deadline)
}

/// Returns whether an amount can be brought from source to sink by a deadline. The amount and the deadline are at least 0. At most
/// `augments` walks are pushed, at least 1. Refuses as `quickest` does.
pub fn can_arrive_by(
    alloc: Global,
    net: &Network,
    amount: Q,
    deadline: Q,
    augments: u64,
) -> Result<bool, QuickFault>
    requires amount { 0ℚ ≤ℚ amount }
    requires deadline { 0ℚ ≤ℚ deadline }
    requires augments { 1 ≤ augments }
    ensures { IfOk result (λ yes. MatchBool yes (FitsBefore net.now.net amount deadline)
        (NothingArrivesBy net.now.net amount deadline)) }
{
    match quickest(alloc, net, amount, augments) {
        Ok(quick) => Ok(ends_by(quick, deadline)),
        Err(fault) => Err(fault),
    }
}
