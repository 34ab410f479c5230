// The labels of departure 0.
ghost use Rattle.std.specs.Prelude.{◌≡◌, ℕ, length, map, slice_get, Some, None, IfOk};
ghost use Rattle.nf_model.specs.Phases.{AreStartLabels};
ghost use Rattle.nf_net_file.specs.Closing.{HasFraction};

use crate::network::Network;
use nf_frac::Q;
use nf_graph::{DistanceFault, distances};
use std::alloc::{AllocError, Global};

// Returns the numbers, none of which is missing.
fn given_sums(alloc: Global, sums: &[Option<Q>]) -> Result<Vec<Q>, AllocError>
    requires { (v : ℕ) → slice_get sums.now v ≡ Some None → ⊥ }
    ensures { IfOk result (λ numbers. map (λ q. Some q) numbers.items ≡ sums.now) }
{
    let mut numbers = Vec::new(alloc);
    for sum in sums {
        match sum {
            Some(sum) => numbers.push(*sum)?,
            None => unreachable!(),
        }
    }
    Ok(numbers)
}

// Converts the fault to an allocation failure. The fault must not be a sum of fractions that passes.
fn never_passing(fault: DistanceFault) -> AllocError
    requires { HasFraction fault → ⊥ }
{
    match fault {
        DistanceFault::Passed {
            link: _,
            left,
            right: _,
        } => {
            left.recall();
            unreachable!()
        }
        DistanceFault::Memory => AllocError,
    }
}

/// Returns, for each node, the least transit sum over the walks from the source. This is the earliest arrival time for departure 0, when
/// the links are empty. Fails only if an allocation fails: the sums of an accepted file do not pass.
pub fn start_labels(alloc: Global, net: &Network) -> Result<Vec<Q>, AllocError>
    ensures { IfOk result (λ labels. AreStartLabels net.now.net labels.items) }
{
    let hops = net.hops();
    let source = net.source();
    match distances(alloc, net.node_count(), hops, source) {
        Ok(sums) => given_sums(alloc, &sums),
        Err(fault) => Err(never_passing(fault)),
    }
}
