// The extension of a run by a phase.
ghost use Rattle.std.specs.Prelude.{◌≡◌, ℕ, ◌<◌, ◌^◌, ◌-◌, length, OnOk, OnErr};
ghost use Rattle.nf_rational.specs.Rational.{ℚ};
ghost use Rattle.nf_frac_def.specs.Passing.{passes_Q};
ghost use Rattle.nf_model.specs.Entries.{number_at};
ghost use Rattle.nf_net_def.specs.WellNamed.{IsNamed};
ghost use Rattle.nf_phase.specs.Stepping.{Reaches};
ghost use Rattle.nf_phase.specs.Finding.{LeadsOn, after_phase};
ghost use Rattle.nf_phase.specs.OpenRuns.{after_rest};

use crate::phase::Phase;
use crate::run::Run;
use nf_frac::Q;
use nf_net::Network;
use nf_phase_curves::{extend_labels, extend_links, reserve_labels, reserve_links};
use std::alloc::{AllocError, Global};

// Returns the label of the source, which equals the departure.
fn departure_in(net: &Network, labels: &[Q]) -> Q
    requires { length labels.now ≡ net.now.net.nodes }
    ensures { result ≡ number_at labels.now net.now.net.source }
{
    labels[net.source().index()]
}

impl Run {
    // Extends the run by a phase. Fails if an allocation fails; the run is then unchanged.
    pub(crate) fn extend_by(&mut self, net: &Network, phase: Phase) -> Result<(), AllocError>
        requires reaches { Reaches passes_Q net.now.net self.old }
        requires named { IsNamed net.now }
        requires more { self.old.made < 2 ^ 64 - 1 }
        requires leads { (horizon : ℚ) × (patterns : ℕ)
            × LeadsOn passes_Q net.now.net horizon patterns self.old phase }
        ensures made { OnOk result (self.new ≡ after_phase net.now.net self.old phase) }
        ensures kept { OnErr result (self.new ≡ self.old) }
    {
        reserve_labels(&mut self.label_curves)?;
        reserve_links(&mut self.link_curves)?;
        let Phase {
            length: _,
            labels,
            steps,
            thin,
        } = phase;
        let reached = departure_in(net, &labels);
        extend_labels(&mut self.label_curves, reached, &labels, &thin.slopes);
        extend_links(&mut self.link_curves, net, &labels, &steps);
        self.reached = reached;
        self.labels = labels;
        self.last = thin.pattern;
        self.made += 1;
        Ok(())
    }

    // Extends the run by the next phase. The last pattern stays if `rests` is true: the phase is then the remainder of an interrupted one.
    // Fails if an allocation fails; the run is then unchanged.
    pub(crate) fn extend_by_next(
        &mut self,
        alloc: Global,
        net: &Network,
        rests: bool,
        phase: Phase,
    ) -> Result<(), AllocError>
        requires reaches { Reaches passes_Q net.now.net self.old }
        requires named { IsNamed net.now }
        requires more { self.old.made < 2 ^ 64 - 1 }
        requires leads { (horizon : ℚ) × (patterns : ℕ)
            × LeadsOn passes_Q net.now.net horizon patterns self.old phase }
        ensures made { OnOk result (self.new ≡ after_rest rests net.now.net self.old phase) }
        ensures kept { OnErr result (self.new ≡ self.old) }
    {
        if !rests {
            return self.extend_by(net, phase);
        }
        let last = self.last.copy(alloc)?;
        self.extend_by(net, phase)?;
        self.last = last;
        Ok(())
    }
}
