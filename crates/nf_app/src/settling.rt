// Settling a thin flow at departure 0.
ghost use Rattle.std.specs.Prelude.{◌≡◌, length};
ghost use Rattle.nf_complete_read.specs.Files.{given_of};
ghost use Rattle.nf_app.specs.SettlingSteps.{AreStartSets, SettlesAtStart};

use nf_complete::{Settled, is_thin, settle};
use nf_complete_read::Flows;
use nf_frac::{Halt, Q};
use nf_graph::LinkSets;
use nf_net::{Network, start_labels};
use nf_sets::{sets, slacks};
use std::alloc::Global;

// Returns the sets of the slacks of the labels at departure 0.
fn start_sets(alloc: Global, net: &Network) -> Result<LinkSets, Halt<Q>>
    ensures { AreStartSets net.now.net result }
{
    let labels = start_labels(alloc, net)?;
    let slacks = slacks(alloc, net.hops(), &labels)?;
    let sets = sets(alloc, &slacks)?;
    Ok(sets)
}

/// Settles flows and slopes, by the sets of the labels at departure 0 and the rate then. Returns `None` if they are no thin flow for these.
/// Refuses at the first operation that exceeds the bound: of the slacks, of the test, or of the settling.
pub(crate) fn settle_at_start(
    alloc: Global,
    net: &Network,
    flows: &Flows,
) -> Result<Option<Settled>, Halt<Q>>
    requires flows { length flows.now.flows.items ≡ length net.now.net.links }
    requires slopes { length flows.now.slopes.items ≡ net.now.net.nodes }
    ensures { SettlesAtStart net.now.net (given_of flows.now) result }
{
    // Proof: the network is that of an accepted file.
    net.recall();
    let sets = start_sets(alloc, net)?;
    let rate = net.rate_at(Q::zero());
    if !is_thin(net, &sets, rate, &flows.flows, &flows.slopes)? {
        return Ok(None);
    }
    let settled = settle(alloc, net, &sets, rate, &flows.flows, &flows.slopes)?;
    Ok(Some(settled))
}
