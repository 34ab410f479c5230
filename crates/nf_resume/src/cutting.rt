// A flow, cut at the departure that it reached.
ghost use Rattle.std.specs.Prelude.{◌≡◌, ◌++◌, [], ◌∷◌, map, IfOk, OnOk};
ghost use Rattle.nf_rational.specs.Operations.{0ℚ};
ghost use Rattle.nf_rational.specs.Order.{◌≤ℚ◌};
ghost use Rattle.nf_frac_def.specs.declared.Part.TheVariants.{Curve as OfCurve};
ghost use Rattle.nf_frac_def.specs.Passing.{passes_Q};
ghost use Rattle.nf_frac_def.specs.Checked.{at_part, each, Gives};
ghost use Rattle.nf_model.specs.Equilibrium.{Equilibrium};
ghost use Rattle.nf_resume_def.specs.Resuming.{cut_short as cut_short_by, cut_flow as cut_flow_by};
ghost use Rattle.nf_curve.specs.Flows.{seen_trace, seen_flow};
ghost use Rattle.nf_resume.specs.Cuts.{points_of_each, cut_in, AreLists};

use crate::curves::cut_short;
use crate::links::{CutLink, cut_links};
use nf_curve::{Curve, Flow, Trace};
use nf_frac::{Halt, Q};
use nf_net::Network;
use std::alloc::{AllocError, Global};

// Returns the labels of all nodes up to the departure reached.
fn cut_labels(alloc: Global, labels: &[Curve], reached: Q) -> Result<Vec<Curve>, Halt<Q>>
    requires { 0ℚ ≤ℚ reached }
    ensures { Gives (λ cuts. points_of_each cuts.items) (λ q. q) result
        (at_part OfCurve (each (cut_short_by passes_Q reached) (points_of_each labels.now))) }
{
    let mut cuts = Vec::with_capacity(alloc, labels.len())?;
    for label in labels {
        let cut = cut_short(alloc, label, reached)?;
        cuts.push(cut)?;
    }
    Ok(cuts)
}

// The curves of links, each kind in its own list.
#[derive(Drop)]
struct OfLinks {
    inflows: Vec<Trace>,
    outflows: Vec<Trace>,
    queues: Vec<Curve>,
}

impl OfLinks {
    // Appends the curves of a link. Fails if an allocation fails.
    fn push(&mut self, cut: CutLink) -> Result<(), AllocError>
        ensures inflows { OnOk result
            (map seen_trace self.new.inflows.items
            ≡ map seen_trace self.old.inflows.items ++ (cut_in cut).inflow ∷ []) }
        ensures outflows { OnOk result
            (map seen_trace self.new.outflows.items
            ≡ map seen_trace self.old.outflows.items ++ (cut_in cut).outflow ∷ []) }
        ensures queues { OnOk result (points_of_each self.new.queues.items
            ≡ points_of_each self.old.queues.items ++ (cut_in cut).queue ∷ []) }
    {
        self.inflows.push(cut.inflow)?;
        self.outflows.push(cut.outflow)?;
        self.queues.push(cut.queue)?;
        Ok(())
    }
}

// Returns the cut curves of links, each kind in its own list.
fn in_lists(alloc: Global, cuts: Vec<CutLink>) -> Result<OfLinks, AllocError>
    ensures { IfOk result
        (λ links. AreLists (map seen_trace links.inflows.items) (map seen_trace links.outflows.items)
        (points_of_each links.queues.items) (map cut_in cuts.items)) }
{
    let mut links = OfLinks {
        inflows: Vec::new(alloc),
        outflows: Vec::new(alloc),
        queues: Vec::new(alloc),
    };
    for cut in cuts {
        links.push(cut)?;
    }
    Ok(links)
}

/// Returns an equilibrium, cut at the departure that it reached. Its labels end there. Inflow and queue of a link end at the label of its
/// tail there, the outflow at that of its head. All curves are in short form and have their rates. Refuses at the first operation that
/// exceeds its bound, or if an allocation fails.
#[tactic(auto, unfolding(nf_resume_def::specs::Resuming::cut_flow))]
pub(crate) fn cut_flow(alloc: Global, net: &Network, flow: &Flow) -> Result<Flow, Halt<Q>>
    requires { Equilibrium net.now.net (seen_flow flow.now) }
    ensures { Gives seen_flow (λ q. q) result
        (at_part OfCurve (cut_flow_by passes_Q net.now.net (seen_flow flow.now))) }
{
    // Proof: the network satisfies `IsNetwork`.
    net.recall();
    let labels = cut_labels(alloc, &flow.labels, flow.reached)?;
    let cuts = cut_links(alloc, net, flow, &labels)?;
    let links = in_lists(alloc, cuts)?;
    Ok(Flow {
        reached: flow.reached,
        labels,
        inflows: links.inflows,
        outflows: links.outflows,
        queues: links.queues,
    })
}
