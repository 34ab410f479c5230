// The supply and the flows that fill the links at known slopes, as ranges of scaled numbers.
ghost use Rattle.std.specs.Prelude.{◌≡◌, length, IfOk};
ghost use Rattle.nf_thin_balance.specs.Ranges.{IsFull};
ghost use Rattle.nf_thin_balance.specs.Conserving.{AreFull};
ghost use Rattle.nf_thin_balance.specs.Scaled.{IsScaled};

use crate::ranges::Range;
use crate::scaling::{scale_for, scaled_range};
use nf_frac::Q;
use nf_graph::{LinkId, LinkSets};
use nf_net::Network;
use nf_thin_one::full_flow;
use std::alloc::{AllocError, Global};

/// Ranges of the supply, and of the flows that fill the links at known slopes, in link order. All numbers are `scale` times as great.
#[derive(Drop)]
pub struct Scaled {
    pub(crate) scale: u64,
    pub(crate) supply: Range,
    pub(crate) full: Vec<Range>,
}

// Returns the range of the scaled flow that fills a link, at this slope of its head. The range is unknown if the link is inactive or
// unbounded, or the flow passes.
fn full_range(scale: u64, active: bool, capacity: Option<Q>, head_slope: Q) -> Range
    ensures { IsFull scale capacity head_slope result }
{
    if !active {
        return Range::any();
    }
    match full_flow(capacity, head_slope) {
        Some(flow) => scaled_range(scale, flow),
        None => Range::any(),
    }
}

// Returns the range of the scaled flow that fills each link at these slopes of the nodes, in link order. The ranges of inactive links are
// unknown. Fails if an allocation fails.
fn full_flows(
    alloc: Global,
    net: &Network,
    sets: &LinkSets,
    slopes: &[Q],
    scale: u64,
) -> Result<Vec<Range>, AllocError>
    requires slopes { length slopes.now ≡ net.now.net.nodes }
    requires sets { length sets.now.active ≡ length net.now.net.links }
    ensures count { IfOk result (λ full. length full.items ≡ length net.now.net.links) }
    ensures full { IfOk result (λ full. AreFull scale net.now.net slopes.now full.items) }
{
    let mut full = Vec::with_capacity(alloc, net.link_count() as usize)?;
    for e in 0..net.link_count() {
        let link = net.link(LinkId(e));
        let head_slope = slopes[link.head.index()];
        let active = sets.active(LinkId(e));
        full.push(full_range(scale, active, link.capacity, head_slope))?;
    }
    Ok(full)
}

/// Returns ranges of the supply `rate` and of the flows that fill the links at these slopes of the nodes, all scaled. Fails if an
/// allocation fails.
pub fn scaled_flows(
    alloc: Global,
    net: &Network,
    sets: &LinkSets,
    rate: Q,
    slopes: &[Q],
) -> Result<Scaled, AllocError>
    requires sets { length sets.now.active ≡ length net.now.net.links }
    requires slopes { length slopes.now ≡ net.now.net.nodes }
    ensures { IfOk result (λ found. IsScaled net.now.net rate slopes.now found) }
{
    let scale = scale_for(rate);
    let supply = scaled_range(scale, rate);
    let full = full_flows(alloc, net, sets, slopes, scale)?;
    Ok(Scaled {
        scale,
        supply,
        full,
    })
}
