// The test for a thin flow.
ghost use Rattle.std.specs.Prelude.{◌≡◌, length, IfOk, MatchBool};
ghost use Rattle.nf_frac_def.specs.Passing.{passes_Q};
ghost use Rattle.nf_model.specs.ThinFlow.{IsThinFlow};
ghost use Rattle.nf_thin_laws.specs.ActiveLinks.{NoneEntersSource};
ghost use Rattle.nf_complete.specs.FitSets.{AreFitSets};
ghost use Rattle.nf_complete.specs.Settling.{Passes};

use nf_complete_conditions::{balances, both, is_proper, keep_slopes};
use nf_frac::{PassedAt, Q};
use nf_graph::LinkSets;
use nf_net::Network;

/// Returns whether flows and slopes are a thin flow with resetting (Cominetti, Correa and Larré 2015) that sends `rate` from source to
/// sink. `flows` has one number for each link, an amount per unit of time. `slopes` has one number for each node, its label's change per
/// unit of departure time. `rate` is an amount per unit of time. The active links must hold no cycle and not enter the source, and no
/// resetting link may be unbounded.
///
/// The operations are those of `thin_list` (nf_complete_def/specs/ThinList.antt). For each node the flows of the active links into it are
/// summed. The flows of the active links out of it are summed next, at the sink with the rate. After all nodes, each active link's capacity
/// is multiplied by the slope of its head. Returns `Passed` exactly at the first of these operations that passes, whatever the answer would
/// be, with the part Verdict. Allocates nothing.
pub fn is_thin(
    net: &Network,
    sets: &LinkSets,
    rate: Q,
    flows: &[Q],
    slopes: &[Q],
) -> Result<bool, PassedAt<Q>>
    requires sets { AreFitSets net.now.net sets.now }
    requires source { NoneEntersSource net.now.net sets.now }
    requires flows { length flows.now ≡ length net.now.net.links }
    requires slopes { length slopes.now ≡ net.now.net.nodes }
    ensures list { Passes passes_Q net.now.net sets.now rate flows.now slopes.now result }
    ensures thin { IfOk result
        (λ yes. MatchBool yes (IsThinFlow net.now.net sets.now rate flows.now slopes.now)
        (IsThinFlow net.now.net sets.now rate flows.now slopes.now → ⊥)) }
{
    // Proof: every network is well formed.
    net.recall();
    let balanced = balances(net, sets, rate, flows)?;
    let kept = keep_slopes(net, sets, flows, slopes)?;
    let proper = is_proper(net, sets, flows, slopes);
    let tested = both(balanced, kept);
    let thin = both(tested, proper);
    Ok(thin)
}
