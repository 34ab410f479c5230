// A phase before the run is extended by it: its length, and the changes of labels and links.
ghost use Rattle.std.specs.Prelude.{◌≡◌, ℕ, suc, IfOk, IfErr};
ghost use Rattle.nf_rational.specs.Order.{◌<ℚ◌};
ghost use Rattle.nf_frac_def.specs.Passing.{passes_Q};
ghost use Rattle.nf_net_def.specs.WellNamed.{IsNamed};
ghost use Rattle.nf_phase.specs.Stepping.{Reaches, IsFaultOf};
ghost use Rattle.nf_phase.specs.Finding.{IsFound, ListsPass, LeadsOn};

use crate::fault::StepFault;
use crate::finding::PhaseStart;
use crate::run::Run;
use nf_frac::Q;
use nf_net::Network;
use nf_phase_curves::{LinkStep, PhaseView, amounts};
use nf_phase_length::{Advanced, advance, extension};
use nf_thin::ThinFlow;
use std::alloc::Global;

// A phase: its length, the labels at its end, the step of each link, and its thin flow.
#[derive(Drop)]
pub(crate) struct Phase {
    pub(crate) length: Q,
    pub(crate) labels: Vec<Q>,
    pub(crate) steps: Vec<LinkStep>,
    pub(crate) thin: ThinFlow,
}

impl Run {
    // Returns the phase by a thin flow. Refuses at the first operation that exceeds its bound, or if an allocation fails.
    pub(crate) fn phase(
        &self,
        alloc: Global,
        net: &Network,
        horizon: Q,
        found: PhaseStart,
    ) -> Result<Phase, StepFault>
        requires reaches { Reaches passes_Q net.now.net self.now }
        requires named { IsNamed net.now }
        requires below { self.now.time <ℚ horizon }
        requires found { (patterns : ℕ) × IsFound passes_Q net.now.net patterns self.now found }
        ensures leads { (patterns : ℕ) → IsFound passes_Q net.now.net patterns self.now found
            → IfOk result (LeadsOn passes_Q net.now.net horizon patterns self.now) }
        ensures thin { IfOk result (λ phase. phase.thin ≡ found.thin) }
        ensures cause { IfErr result
            (IsFaultOf (ListsPass passes_Q net.now.net horizon self.now found.thin.pattern
            found.thin.flows.items found.thin.slopes.items)
            (suc self.now.made)) }
    {
        let slopes = &found.thin.slopes;
        let extension = extension(net, &found.slacks, slopes, self.reached)?;
        let end = advance(
            alloc,
            horizon,
            self.reached,
            extension,
            &self.labels,
            slopes,
        )?;
        let amounts = amounts(alloc, &self.link_curves)?;
        let phase = PhaseView {
            net,
            sets: &found.sets,
            pattern: &found.thin.pattern,
            flows: &found.thin.flows,
            slopes,
            length: end.length,
            labels: &end.labels,
        };
        let steps = phase.link_steps(alloc, &amounts)?;
        let PhaseStart {
            slacks: _,
            sets: _,
            thin,
        } = found;
        let Advanced { length, labels } = end;
        Ok(Phase {
            length,
            labels,
            steps,
            thin,
        })
    }
}
