// A caller of nf_load.
ghost use Rattle.std.specs.Prelude.{◌≡◌, IfOk};
ghost use Rattle.nf_rational.specs.Operations.{0ℚ, ◌-ℚ◌, ◌*ℚ◌};
ghost use Rattle.nf_rational.specs.Order.{◌≤ℚ◌, ◌<ℚ◌};

use nf_frac::{Halt, Part, Q};
use nf_load::{cumulative, load_link};
use nf_net::Piece;
use std::alloc::Global;

/// Returns the queue on a link, an amount, at a time of at least 0, if a constant inflow has entered it since time 0. Its rate must be at
/// least the capacity, which must be above 0. Fails if an operation passes the bound, or if an allocation fails.
pub fn queue_after(alloc: Global, capacity: Q, rate: Q, time: Q) -> Result<Q, Halt<Q>>
    requires capacity { 0ℚ <ℚ capacity }
    requires rate { capacity ≤ℚ rate }
    requires time { 0ℚ ≤ℚ time }
    ensures { IfOk result (λ queue. queue ≡ (rate -ℚ capacity) *ℚ time) }
{
    let pieces = [Piece {
        start: Q::zero(),
        rate,
    }];
    let inflow = cumulative(alloc, &pieces, time)?;
    let loaded = load_link(alloc, Q::zero(), Some(capacity), &inflow, time)?;
    let queue = loaded.queue.value(time, Part::Load)?;
    Ok(queue)
}
