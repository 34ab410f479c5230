// The cut over time of a static flow. The time of a node is the least of three numbers: the flow's time, the node's distance from the
// source, and that time plus its distance from the sink.
ghost use Rattle.std.specs.Prelude.{◌≡◌, ◌<◌, length, None, slice_get, unwrap_or, IfOk};
ghost use Rattle.nf_frac_def.specs.declared.Part.TheVariants.{Quick};
ghost use Rattle.nf_frac_def.specs.Passing.{passes_Q};
ghost use Rattle.nf_frac_def.specs.Checked.{at_part, Gives};
ghost use Rattle.nf_model.specs.Entries.{number_at};
ghost use Rattle.nf_quick_def.specs.Cuts.{at_most as at_most_by, node_time as node_time_by, node_times_list, value_along as value_along_by, value_after as value_after_by, value_list};

use nf_frac::{Halt, Part, PassedAt, Q};
use nf_graph::NodeId;
use nf_net::{Link, LinkId, Network};
use std::alloc::Global;

// Returns the lesser of `distance` and `time`, or `time` if there is no distance.
fn at_most(distance: Option<Q>, time: Q) -> Q
    ensures { result ≡ at_most_by distance time }
{
    match distance {
        None => time,
        Some(distance) => distance.lesser(time),
    }
}

// Returns the cut time of a node with these distances from source and sink. Refuses exactly if the sum exceeds its bound.
fn node_time(time: Q, from_source: Option<Q>, from_sink: Option<Q>) -> Result<Q, PassedAt<Q>>
    ensures { result ≡ at_part Quick (node_time_by passes_Q time from_source from_sink) }
{
    let so_far = at_most(from_source, time);
    match from_sink {
        None => Ok(so_far),
        Some(distance) => {
            let back = nf_frac::at!(Part::Quick, time.sum(distance));
            Ok(so_far.lesser(back))
        }
    }
}

// Returns the distance of a node from the sink, or None if there is none.
fn distance_at(distances: &[Option<Q>], node: usize) -> Option<Q>
    requires { node < length distances.now }
    ensures { result ≡ unwrap_or (slice_get distances.now node) None }
{
    distances[node]
}

/// Returns the cut times of all nodes, given their distances (times) from source and sink. Refuses with Passed, of the part Quick, at the
/// first operation of `node_times_list` that exceeds its bound. Fails with `Memory` if an allocation fails.
pub fn node_times(
    alloc: Global,
    time: Q,
    from_source: &[Option<Q>],
    from_sink: &[Option<Q>],
) -> Result<Vec<Q>, Halt<Q>>
    requires { length from_sink.now ≡ length from_source.now }
    ensures list { Gives (λ cut. cut.items) (λ q. q) result
        (at_part Quick (node_times_list passes_Q time from_source.now from_sink.now)) }
    ensures count { IfOk result (λ cut. length cut.items ≡ length from_source.now) }
{
    let mut cut = Vec::with_capacity(alloc, from_source.len())?;
    for (node, distance) in from_source.iter().enumerate() {
        let from_source: Option<Q> = *distance;
        let here = node_time(time, from_source, distance_at(from_sink, node))?;
        cut.push(here)?;
    }
    Ok(cut)
}

// Adds to `so_far` the amount that a link of this capacity and transit time lets through between the cut times of its ends.
fn value_along(
    capacity: Option<Q>,
    transit: Q,
    tail: Q,
    head: Q,
    so_far: Q,
) -> Result<Q, PassedAt<Q>>
    ensures { result ≡ at_part Quick (value_along_by passes_Q capacity transit tail head so_far) }
{
    let Some(capacity) = capacity else {
        return Ok(so_far);
    };
    let arrived = nf_frac::at!(Part::Quick, head.difference(transit));
    let over = nf_frac::at!(Part::Quick, arrived.difference(tail));
    if !Q::zero().is_below(over) {
        return Ok(so_far);
    }
    let through = nf_frac::at!(Part::Quick, capacity.product(over));
    Ok(nf_frac::at!(Part::Quick, so_far.sum(through)))
}

// Returns the cut time of a node.
fn time_of(cut: &[Q], node: NodeId) -> Q
    requires { node < length cut.now }
    ensures { result ≡ number_at cut.now node }
{
    cut[node.index()]
}

fn value_after(cut: &[Q], so_far: Q, link: Link) -> Result<Q, PassedAt<Q>>
    requires tail { link.tail < length cut.now }
    requires head { link.head < length cut.now }
    ensures { result ≡ at_part Quick (value_after_by passes_Q cut.now so_far link) }
{
    let tail = time_of(cut, link.tail);
    let head = time_of(cut, link.head);
    value_along(link.capacity, link.transit, tail, head, so_far)
}

/// Returns the value of a cut, an amount: the sum of what its links let through. Refuses with Passed, of the part Quick, at the first
/// operation of `value_list` that exceeds its bound. Allocates nothing.
pub fn value_of(net: &Network, cut: &[Q]) -> Result<Q, PassedAt<Q>>
    requires { length cut.now ≡ net.now.net.nodes }
    ensures { result ≡ at_part Quick (value_list passes_Q net.now.net.links cut.now) }
{
    net.recall();
    let mut value = Q::zero();
    for number in 0..net.link_count() {
        let here = net.link(LinkId(number));
        value = value_after(cut, value, here)?;
    }
    Ok(value)
}
