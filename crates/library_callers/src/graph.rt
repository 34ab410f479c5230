// A caller of nf_graph.
ghost use Rattle.std.specs.Prelude.{◌≡◌, Some, IfOk};
ghost use Rattle.nf_rational.specs.Operations.{0ℚ, ◌+ℚ◌};
ghost use Rattle.nf_rational.specs.Order.{◌≤ℚ◌};

use nf_frac::Q;
use nf_graph::{DistanceFault, Hop, NodeId, distances};
use std::alloc::Global;

/// Returns the travel time over two links, one behind the other: the sum of their transit times, which must be at least 0. Never returns
/// None. Fails if a sum passes the bound, or if an allocation fails.
pub fn path_time(alloc: Global, first: Q, second: Q) -> Result<Option<Q>, DistanceFault>
    requires first { 0ℚ ≤ℚ first }
    requires second { 0ℚ ≤ℚ second }
    ensures { IfOk result (λ time. time ≡ Some (first +ℚ second)) }
{
    let links = [
        Hop {
            tail: NodeId(0),
            head: NodeId(1),
            transit: first,
        },
        Hop {
            tail: NodeId(1),
            head: NodeId(2),
            transit: second,
        },
    ];
    let times = distances(alloc, 3, &links, NodeId(0))?;
    Ok(times[2])
}
