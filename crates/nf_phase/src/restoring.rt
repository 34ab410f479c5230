// Runs restored from a flow.
ghost use Rattle.std.specs.Prelude.{◌≡◌, length, map, IfOk};
ghost use Rattle.nf_frac_def.specs.declared.Part.TheVariants.{Curve as CurvePart};
ghost use Rattle.nf_frac_def.specs.Passing.{passes_Q};
ghost use Rattle.nf_frac_def.specs.Checked.{at_part, Gives};
ghost use Rattle.nf_model.specs.Equilibrium.{Equilibrium};
ghost use Rattle.nf_thin_def.specs.PhaseRun.{IsShortFlow, flow_of};
ghost use Rattle.nf_phase_def.specs.Restoring.{value_at_end, restore_list};
ghost use Rattle.nf_curve.specs.Flows.{seen_flow as flow_in};
ghost use Rattle.nf_phase_def.specs.Restoring.{EndsAtItsLabels, NoneFull};
ghost use Rattle.nf_phase.specs.Stepping.{IsRunState};

use crate::run::Run;
use nf_curve::{Curve, Flow};
use nf_frac::{Halt, Q};
use nf_net::Network;
use nf_pattern::Pattern;
use nf_phase_curves::{restore_labels, restore_links};
use std::alloc::{AllocError, Global};

// Returns the last values of these curves.
fn end_values(alloc: Global, curves: &[Curve]) -> Result<Vec<Q>, AllocError>
    ensures { IfOk result (λ values. values.items ≡ map (λ c. value_at_end c.points) curves.now) }
{
    let mut values = Vec::new(alloc);
    for curve in curves {
        let (_, value) = curve.last();
        values.push(value)?;
    }
    Ok(values)
}

impl Run {
    /// Returns the run at the end of a flow, with no phase added since. The flow is an equilibrium whose curves are in short form and end
    /// at its labels at the departure reached. `last` has for each link its state or none, and never Full for an unbounded link. The labels
    /// of the run are those of the flow at the departure reached, and its curves end at them. The run stores the slopes of the last pieces
    /// of labels and queues. Refuses with Passed, of the part Curve, at the first operation that exceeds its bound, node by node and then
    /// link by link. Fails with `Memory` if an allocation fails.
    pub fn restore(alloc: Global, net: &Network, flow: Flow, last: Pattern) -> Result<Run, Halt<Q>>
        requires equilibrium { Equilibrium net.now.net (flow_in flow) }
        requires ends { EndsAtItsLabels net.now.net (flow_in flow) }
        requires short { IsShortFlow net.now.net (flow_in flow) }
        requires states { length last ≡ length net.now.net.links }
        requires no_full { NoneFull net.now.net last }
        ensures list { Gives (λ run. run) (λ q. q) result
            (at_part CurvePart (restore_list passes_Q (flow_in flow) last)) }
        ensures state { IfOk result (IsRunState passes_Q net.now.net) }
        ensures flow { IfOk result (λ run. flow_of run ≡ flow_in flow) }
        ensures fresh { IfOk result (λ run. run.made ≡ 0) }
        ensures last { IfOk result (λ run. run.last ≡ last) }
    {
        // Proof: the network is that of an accepted file.
        net.recall();
        let labels = end_values(alloc, &flow.labels)?;
        let label_curves = restore_labels(alloc, &flow.labels)?;
        let link_curves = restore_links(alloc, &flow.inflows, &flow.outflows, &flow.queues)?;
        Ok(Run {
            reached: flow.reached,
            labels,
            label_curves,
            link_curves,
            made: 0,
            last,
        })
    }
}
