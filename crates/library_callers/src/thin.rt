// The slope of the sink's label in a phase.
ghost use Rattle.std.specs.Prelude.{◌≡◌, ◌<◌, List, length, IfOk};
ghost use Rattle.nf_rational.specs.Rational.{ℚ};
ghost use Rattle.nf_model.specs.Entries.{number_at};
ghost use Rattle.nf_model.specs.Network.{unbounded as unbounded_of};
ghost use Rattle.nf_model.specs.ThinFlow.{IsThinFlow};
ghost use Rattle.nf_model.specs.Pattern.{IsPattern};
ghost use Rattle.nf_thin_laws.specs.ActiveLinks.{HoldNoCycle};
ghost use Rattle.nf_thin_rank.specs.Questions.{AreSetsOf};

use nf_frac::Q;
use nf_graph::{LinkSets, NodeId};
use nf_net::Network;
use nf_pattern::Pattern;
use nf_thin::{SearchFault, find_thin};
use std::alloc::Global;

// Returns the slope of a node's label.
fn slope_of(slopes: &[Q], node: NodeId) -> Q
    requires { node < length slopes.now }
    ensures { result ≡ number_at slopes.now node }
{
    slopes[node.index()]
}

/// Returns by how much the arrival at the sink is later for each unit by which the departure is later, in the phase with these sets and
/// this supply rate. Each thin flow has this slope. Refuses as `find_thin` does.
pub fn sink_slope(
    alloc: Global,
    net: &Network,
    sets: &LinkSets,
    rate: Q,
    base: &Pattern,
    budget: u64,
) -> Result<Q, SearchFault>
    requires sets { AreSetsOf net.now.net sets.now }
    requires acyclic { HoldNoCycle net.now.net sets.now }
    requires base { IsPattern sets.now (unbounded_of net.now.net) base.now }
    ensures some { IfOk result
        (λ slope. (flows slopes : List ℚ) × IsThinFlow net.now.net sets.now rate flows slopes) }
    ensures all { IfOk result
        (λ slope. (flows slopes : List ℚ) → IsThinFlow net.now.net sets.now rate flows slopes
        → number_at slopes net.now.net.sink ≡ slope) }
{
    let thin = find_thin(alloc, net, sets, rate, base, budget)?;
    Ok(slope_of(&thin.slopes, net.sink()))
}
