// A thin flow is tested and settled.
ghost use Rattle.std.specs.Prelude.{◌≡◌, length, IfOk, IfSome, MatchOption};
ghost use Rattle.nf_rational.specs.Operations.{0ℚ};
ghost use Rattle.nf_rational.specs.Order.{◌≤ℚ◌};
ghost use Rattle.nf_model.specs.ThinFlow.{IsThinFlow};
ghost use Rattle.nf_model.specs.Pattern.{IsListedIn};
ghost use Rattle.nf_thin_laws.specs.ActiveLinks.{NoneEntersSource};
ghost use Rattle.nf_complete.specs.FitSets.{AreFitSets};

use nf_complete::{Settled, is_thin, settle};
use nf_frac::{Halt, Q};
use nf_graph::LinkSets;
use nf_net::Network;
use std::alloc::Global;

/// Returns the settled thin flow of these flows and slopes, or None exactly if they are no thin flow. The settled one has the same slopes
/// and a listed pattern. Refuses if an operation exceeds its bound, or if an allocation fails.
pub fn settle_if_thin(
    alloc: Global,
    net: &Network,
    sets: &LinkSets,
    rate: Q,
    flows: &[Q],
    slopes: &[Q],
) -> Result<Option<Settled>, Halt<Q>>
    requires sets { AreFitSets net.now.net sets.now }
    requires source { NoneEntersSource net.now.net sets.now }
    requires rate { 0ℚ ≤ℚ rate }
    requires flows { length flows.now ≡ length net.now.net.links }
    requires slopes { length slopes.now ≡ net.now.net.nodes }
    ensures thin { IfOk result
        (λ found. MatchOption found (IsThinFlow net.now.net sets.now rate flows.now slopes.now → ⊥)
        (λ s. IsThinFlow net.now.net sets.now rate s.flows.items slopes.now)) }
    ensures listed { IfOk result
        (λ found. IfSome found (λ s. IsListedIn net.now.net sets.now s.pattern)) }
{
    if !is_thin(net, sets, rate, flows, slopes)? {
        return Ok(None);
    }
    let settled = settle(alloc, net, sets, rate, flows, slopes)?;
    Ok(Some(settled))
}
