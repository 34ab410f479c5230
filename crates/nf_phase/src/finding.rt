// The search for the thin flow of the next phase.
ghost use Rattle.std.specs.Prelude.{◌≡◌, suc, IfOk, IfErr};
ghost use Rattle.nf_rational.specs.Rational.{ℚ};
ghost use Rattle.nf_frac_def.specs.Passing.{passes_Q};
ghost use Rattle.nf_model.specs.ThinFlow.{sets_at};
ghost use Rattle.nf_net_def.specs.WellNamed.{IsNamed};
ghost use Rattle.nf_thin_def.specs.PhaseRun.{IsSearchHere};
ghost use Rattle.nf_thin.specs.Finding.{Finds};
ghost use Rattle.nf_phase.specs.Stepping.{Reaches, IsFaultOf};
ghost use Rattle.nf_phase.specs.Finding.{IsFound, FindsNone};

use crate::fault::StepFault;
use crate::run::Run;
use nf_frac::Q;
use nf_graph::LinkSets;
use nf_net::Network;
use nf_pattern::base;
use nf_sets::{sets, slacks};
use nf_thin::{SearchFault, ThinFlow, find_thin};
use std::alloc::Global;

// The data at the start of a phase: the slacks of the links, the active and resetting links, and a thin flow for them.
#[derive(Drop)]
pub(crate) struct PhaseStart {
    pub(crate) slacks: Vec<Q>,
    pub(crate) sets: LinkSets,
    pub(crate) thin: ThinFlow,
}

impl Run {
    // Returns a thin flow for the sets that the slacks define. The search starts at the base pattern.
    fn thin(
        &self,
        alloc: Global,
        net: &Network,
        sets: &LinkSets,
        patterns: u64,
    ) -> Result<ThinFlow, SearchFault>
        requires reaches { Reaches passes_Q net.now.net self.now }
        requires sets { sets.now ≡ sets_at net.now.net self.now.labels }
        ensures { (horizon : ℚ)
            → Finds (IsSearchHere passes_Q net.now.net horizon patterns self.now) patterns result }
    {
        let base = base(alloc, net.node_count(), net.hops(), sets, &self.last)?;
        find_thin(alloc, net, sets, net.rate_at(self.reached), &base, patterns)
    }

    // Returns the start of the next phase: slacks, link sets and thin flow. Refuses with the first cause for which there is none.
    pub(crate) fn find(
        &self,
        alloc: Global,
        net: &Network,
        patterns: u64,
    ) -> Result<PhaseStart, StepFault>
        requires reaches { Reaches passes_Q net.now.net self.now }
        ensures named { IsNamed net.now }
        ensures found { IfOk result (IsFound passes_Q net.now.net patterns self.now) }
        ensures cause { IfErr result
            (IsFaultOf (FindsNone passes_Q net.now.net patterns self.now) (suc self.now.made)) }
    {
        let slacks = slacks(alloc, net.hops(), &self.labels)?;
        let sets = sets(alloc, &slacks)?;
        let thin = self.thin(alloc, net, &sets, patterns)?;
        Ok(PhaseStart { slacks, sets, thin })
    }
}
