// Runs: flows over time that are extended phase by phase.
ghost use Rattle.std.specs.Prelude.{◌≡◌, ◌<◌, ◌^◌, ◌-◌, MatchOption, IsSome, IfOk, OnOk, OnErr, IfErr};
ghost use Rattle.nf_rational.specs.Order.{◌<ℚ◌};
ghost use Rattle.nf_frac_def.specs.Passing.{passes_Q};
ghost use Rattle.nf_thin_def.specs.PhaseRun.{IsStart, Goes, flow_of};
ghost use Rattle.nf_phase_def.specs.Open.{Continues, Steps};
ghost use Rattle.nf_phase_def.specs.ToEnd.{GoesToEnd, GoesForever};
ghost use Rattle.nf_phase_laws.specs.RunLaws.{reached_by};
ghost use Rattle.nf_curve.specs.Flows.{seen_flow as flow_in};
ghost use Rattle.nf_phase.specs.Stepping.{Reaches, IsRunState, IsCause, IsCauseOn, LeadsOnlyTo, tail_by};

use crate::fault::StepFault;
use crate::finding::PhaseStart;
use nf_curve::Flow;
use nf_frac::Q;
use nf_net::{Network, start_labels};
use nf_pattern::Pattern;
use nf_phase_curves::{GrowingCurve, LinkCurves, copy_flow, first_labels, first_links};
use nf_phase_length::end_of;
use nf_thin::ThinFlow;
use std::alloc::{AllocError, Global};
use std::marker::Model;

/// A run in a network. It has the flow that leaves the source up to the departure reached, and the node labels there (the earliest
/// arrivals). It also has the number of phases and the pattern of the last one.
#[derive(Drop)]
pub struct Run {
    pub(crate) reached: Q,
    pub(crate) labels: Vec<Q>,
    pub(crate) label_curves: Vec<GrowingCurve>,
    pub(crate) link_curves: Vec<LinkCurves>,
    pub(crate) made: u64,
    pub(crate) last: Pattern,
}

impl Model for Run {
    ghost use Rattle.nf_thin_def.specs.PhaseRun.{Standing};
    ghost use Rattle.nf_phase_curves.specs.Growing.{all_grown};
    ghost use Rattle.nf_phase.specs.StandingCode.{coded_standing};

    ghost Value = { Standing };

    ghost coded = { coded_standing };

    ghost view = { λ a. record {
      time = a.reached;
      labels = a.labels.items;
      label_curves = all_grown a.label_curves.items;
      link_curves = all_grown a.link_curves.items;
      made = a.made;
      last = a.last;
    } };
}

impl Run {
    /// Returns the run before its first phase, at departure 0. Its labels are the least transit sums from the source. Fails if an
    /// allocation fails.
    pub fn start(alloc: Global, net: &Network) -> Result<Run, AllocError>
        ensures starts { IfOk result (IsStart net.now.net) }
        ensures state { IfOk result (IsRunState passes_Q net.now.net) }
    {
        // Proof: the network is that of an accepted file.
        net.recall();
        let labels = start_labels(alloc, net)?;
        let label_curves = first_labels(alloc, &labels)?;
        let link_curves = first_links(alloc, net, &labels)?;
        let last = Pattern::none(alloc, net.link_count())?;
        Ok(Run {
            reached: Q::zero(),
            labels,
            label_curves,
            link_curves,
            made: 0,
            last,
        })
    }

    /// Extends the run by one phase, which is as long as possible but ends at `horizon` at the latest. The phase has the first accepted
    /// pattern, of at most `patterns` patterns. The curves up to the departure reached stay an equilibrium in short form, and end at its
    /// labels. The last pattern stays if the phase is the remainder of an interrupted one, that is, the first after the run was restored.
    /// Refuses if no phase can be computed, with the first cause, or if an allocation fails. The run is then unchanged.
    pub fn step(
        &mut self,
        alloc: Global,
        net: &Network,
        horizon: Q,
        patterns: u64,
    ) -> Result<(), StepFault>
        requires reaches { Reaches passes_Q net.now.net self.old }
        requires below { self.old.time <ℚ horizon }
        requires more { self.old.made < 2 ^ 64 - 1 }
        ensures goes { OnOk result (Steps passes_Q net.now.net horizon patterns self.old self.new) }
        ensures begins { (Continues net.now.net self.old → ⊥)
            → OnOk result (Goes passes_Q net.now.net horizon patterns self.old self.new) }
        ensures only { OnOk result
            (LeadsOnlyTo net.now.net horizon (reached_by self.old) (reached_by self.new)) }
        ensures state { IsRunState passes_Q net.now.net self.new }
        ensures kept { OnErr result (self.new ≡ self.old) }
        ensures cause { IfErr result (IsCause passes_Q net.now.net horizon patterns self.old) }
    {
        let found = self.find(alloc, net, patterns)?;
        let rests = self.continues(net, &found.slacks);
        let phase = self.phase(alloc, net, horizon, found)?;
        self.extend_by_next(alloc, net, rests, phase)?;
        Ok(())
    }

    /// Extends the run by one phase, which is as long as possible. The phase has the first accepted pattern, of at most `patterns`
    /// patterns. If its length is unlimited, returns its thin flow instead, by which the flow continues forever; the run is then unchanged.
    /// The curves up to the departure reached stay an equilibrium in short form, and end at its labels. The last pattern becomes that of
    /// the phase, also in a restored run. Refuses if no phase can be computed, with the first cause, or if an allocation fails. The run is
    /// then unchanged.
    pub fn step_to_end(
        &mut self,
        alloc: Global,
        net: &Network,
        patterns: u64,
    ) -> Result<Option<ThinFlow>, StepFault>
        requires reaches { Reaches passes_Q net.now.net self.old }
        requires more { self.old.made < 2 ^ 64 - 1 }
        ensures phase { IfOk result
            (λ tail. MatchOption tail (GoesToEnd passes_Q net.now.net patterns self.old self.new)
            (λ thin.
            GoesForever passes_Q net.now.net patterns self.old thin.pattern (tail_by thin))) }
        ensures stays { IfOk result (λ tail. IsSome tail → self.new ≡ self.old) }
        ensures state { IsRunState passes_Q net.now.net self.new }
        ensures kept { OnErr result (self.new ≡ self.old) }
        ensures cause { IfErr result (IsCauseOn passes_Q net.now.net patterns self.old) }
    {
        let found = self.find(alloc, net, patterns)?;
        let Some(end) = end_of(net, &found.slacks, &found.thin.slopes, self.reached)? else {
            let PhaseStart {
                slacks: _,
                sets: _,
                thin,
            } = found;
            return Ok(Some(thin));
        };
        let phase = self.phase(alloc, net, end, found)?;
        self.extend_by(net, phase)?;
        Ok(None)
    }

    /// Returns the departure that the run has reached, a time.
    pub fn reached(&self) -> Q
        ensures { result ≡ self.now.time }
    {
        self.reached
    }

    /// Returns the number of phases since departure 0 or since the run was restored.
    pub fn phases(&self) -> u64
        ensures { result ≡ self.now.made }
    {
        self.made
    }

    /// Returns the labels of the nodes at the departure reached: the earliest arrivals there of particles that leave the source then.
    pub fn labels(&self) -> &[Q]
        ensures { result.now ≡ self.now.labels }
    {
        &self.labels
    }

    /// Returns the link states that determine the base pattern of the next phase: those of the last phase, or those with which the run was
    /// restored. Before the first phase no link has a state.
    pub fn last(&self) -> &Pattern
        ensures { result.now ≡ self.now.last }
    {
        &self.last
    }

    /// Returns the flow up to the departure reached. The run is unchanged and can be extended further. Fails if an allocation fails.
    pub fn flow(&self, alloc: Global) -> Result<Flow, AllocError>
        ensures { IfOk result (λ flow. flow_in flow ≡ flow_of self.now) }
    {
        copy_flow(alloc, self.reached, &self.label_curves, &self.link_curves)
    }
}
