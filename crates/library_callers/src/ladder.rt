// A caller of nf_gen.
ghost use Rattle.std.specs.Prelude.{◌≡◌, ◌+◌, ◌*◌, ◌≤◌, IfOk};
ghost use Rattle.nf_gen.specs.Ladder.{most_rungs};

use nf_gen::{generated, ladder_is_named};
use std::alloc::{AllocError, Global};

/// Returns the numbers of nodes and links of a generated network with 1 to 30 rungs. Fails if an allocation fails.
pub fn ladder_size(alloc: Global, number: u64, rungs: u32) -> Result<(u32, u32), AllocError>
    requires some { 1 ≤ rungs }
    requires few { rungs ≤ most_rungs }
    ensures nodes { IfOk result (λ size. size.0 ≡ 2 * rungs + 2) }
    ensures links { IfOk result (λ size. size.1 ≡ 3 * rungs + 2) }
{
    ladder_is_named();
    let net = generated(alloc, number, rungs)?;
    Ok((net.node_count(), net.link_count()))
}
