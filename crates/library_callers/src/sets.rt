// A caller of nf_sets.
ghost use Rattle.std.specs.Prelude.{◌↔◌, ◌<◌, IsTrue, length, IfOk};
ghost use Rattle.nf_rational.specs.Operations.{◌+ℚ◌};
ghost use Rattle.nf_rational.specs.Order.{◌<ℚ◌};
ghost use Rattle.nf_model.specs.Entries.{number_at};
ghost use Rattle.nf_model.specs.Walk.{Hop as SeenHop, IsHop};
ghost use Rattle.nf_graph.specs.Graph.{AreBelow};

use nf_frac::{Halt, Q};
use nf_graph::{Hop, LinkId};
use nf_sets::{sets, slacks};
use std::alloc::Global;

/// Returns whether a queue stands on a link, at labels of the nodes: whether the label of its head is later than that of its tail plus the
/// transit time. Both ends of each link must have a label, a time. Fails if an operation passes the bound, or if an allocation fails.
pub fn has_queue(alloc: Global, links: &[Hop], labels: &[Q], link: LinkId) -> Result<bool, Halt<Q>>
    requires ends { AreBelow (length labels.now) links.now }
    requires link { link < length links.now }
    ensures { IfOk result (λ queued. (hop : SeenHop) → IsHop links.now link hop
        → (IsTrue queued
        ↔ ((number_at labels.now hop.tail +ℚ hop.transit) <ℚ number_at labels.now hop.head))) }
{
    let found = slacks(alloc, links, labels)?;
    let flags = sets(alloc, &found)?;
    Ok(flags.resetting(link))
}
