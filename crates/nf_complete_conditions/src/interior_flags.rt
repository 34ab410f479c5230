// Interior links.
ghost use Rattle.std.specs.Prelude.{◌≡◌, ◌<◌, length, IfOk};
ghost use Rattle.nf_complete_conditions.specs.InteriorFlags.{is_inside as between_by, interior_test, interior_flags};

use nf_frac::Q;
use nf_graph::{LinkId, LinkSets};
use std::alloc::{AllocError, Global};

// Returns whether a flow is above 0 and below the flow that fills the link.
fn between(full: Option<Q>, flow: Q) -> bool
    ensures { result ≡ between_by full flow }
{
    match full {
        None => Q::zero().is_below(flow),
        Some(full) => Q::zero().is_below(flow) && flow.is_below(full),
    }
}

// Returns whether the link is interior: active, not resetting, and neither empty nor full.
fn is_interior(sets: &LinkSets, fulls: &[Option<Q>], flows: &[Q], link: LinkId) -> bool
    requires link { link < length sets.now.active }
    requires fulls { length fulls.now ≡ length sets.now.active }
    requires flows { length flows.now ≡ length sets.now.active }
    ensures { result ≡ interior_test sets.now fulls.now flows.now link }
{
    sets.active(link) && !sets.resetting(link) && between(fulls[link.index()], flows[link.index()])
}

/// Returns for each link whether it is interior.
pub fn interior(
    alloc: Global,
    sets: &LinkSets,
    fulls: &[Option<Q>],
    flows: &[Q],
    links: u32,
) -> Result<Vec<bool>, AllocError>
    requires sets { length sets.now.active ≡ links }
    requires fulls { length fulls.now ≡ links }
    requires flows { length flows.now ≡ links }
    ensures { IfOk result (λ flags. flags.items ≡ interior_flags sets.now fulls.now flows.now) }
{
    let mut flags = Vec::new(alloc);
    for e in 0..links {
        flags.push(is_interior(sets, fulls, flows, LinkId(e)))?;
    }
    Ok(flags)
}
