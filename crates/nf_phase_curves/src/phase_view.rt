// A phase, and the steps of the links in it.
ghost use Rattle.std.specs.Prelude.{◌≡◌, ◌<◌, length as count_of};
ghost use Rattle.nf_frac_def.specs.declared.Part.TheVariants.{Curve};
ghost use Rattle.nf_frac_def.specs.Passing.{passes_Q};
ghost use Rattle.nf_frac_def.specs.Checked.{at_part, Gives};
ghost use Rattle.nf_model.specs.Entries.{number_at};
ghost use Rattle.nf_model.specs.Network.{Link as SeenLink, IsLink};
ghost use Rattle.nf_thin_def.specs.CurveList.{link_step as link_step_by, link_phase, curve_list};

use crate::phase_links::{LinkPhase, is_filled};
use crate::stepping::{LinkStep, link_step};
use nf_frac::{Halt, PassedAt, Q};
use nf_graph::{LinkId, LinkSets};
use nf_net::Network;
use nf_pattern::Pattern;
use std::alloc::Global;

/// A borrowed view of a phase. `sets` are the active and resetting links at its start. `pattern`, `flows` and `slopes` are its thin flow,
/// with a flow for each link and a slope for each node. `length` is its length, a time. `labels` are the labels of the nodes at its end.
#[derive(Clone, Copy)]
pub struct PhaseView<'a> {
    pub net: &'a Network,
    pub sets: &'a LinkSets,
    pub pattern: &'a Pattern,
    pub flows: &'a [Q],
    pub slopes: &'a [Q],
    pub length: Q,
    pub labels: &'a [Q],
    pub ghost set_count: { count_of sets.now.active ≡ count_of net.now.net.links },
    pub ghost state_count: { count_of pattern.now ≡ count_of net.now.net.links },
    pub ghost flow_count: { count_of flows.now ≡ count_of net.now.net.links },
    pub ghost slope_count: { count_of slopes.now ≡ net.now.net.nodes },
    pub ghost label_count: { count_of labels.now ≡ net.now.net.nodes },
}

impl<'a> PhaseView<'a> {
    // Returns the data of a link in the phase.
    fn link(&self, link: LinkId) -> LinkPhase
        requires { link < count_of self.now.net.now.net.links }
        ensures { (here : SeenLink) → IsLink self.now.net.now.net link here
            → result ≡ link_phase self.now.sets.now self.now.pattern.now
            self.now.flows.now self.now.slopes.now self.now.labels.now (link, here) }
    {
        let here = self.net.link(link);
        LinkPhase {
            capacity: here.capacity,
            transit: here.transit,
            flow: self.flows[link.index()],
            filled: is_filled(self.pattern.state(link), self.sets.resetting(link)),
            tail_slope: self.slopes[here.tail.index()],
            head_slope: self.slopes[here.head.index()],
            tail_label: self.labels[here.tail.index()],
            head_label: self.labels[here.head.index()],
        }
    }

    // Returns the step of a link in the phase. `amounts` had entered the links by its beginning.
    fn step_of(&self, amounts: &[Q], link: LinkId) -> Result<LinkStep, PassedAt<Q>>
        requires link { link < count_of self.now.net.now.net.links }
        requires amounts { count_of amounts.now ≡ count_of self.now.net.now.net.links }
        ensures { (here : SeenLink) → IsLink self.now.net.now.net link here
            → result ≡ at_part Curve (link_step_by passes_Q self.now.length
            (number_at amounts.now link) (link_phase self.now.sets.now
            self.now.pattern.now self.now.flows.now self.now.slopes.now self.now.labels.now
            (link, here))) }
    {
        let here = self.link(link);
        link_step(self.length, amounts[link.index()], &here)
    }

    /// Returns the steps of all links in the phase. `amounts` had entered the links by its beginning. Refuses with Passed, of the part
    /// Curve, at the first operation of the curve list that exceeds its bound. Fails with `Memory` if an allocation fails.
    pub fn link_steps(&self, alloc: Global, amounts: &[Q]) -> Result<Vec<LinkStep>, Halt<Q>>
        requires { count_of amounts.now ≡ count_of self.now.net.now.net.links }
        ensures { Gives (λ steps. steps.items) (λ q. q) result
            (at_part Curve (curve_list passes_Q self.now.net.now.net self.now.sets.now
            self.now.pattern.now self.now.length self.now.flows.now self.now.slopes.now
            self.now.labels.now amounts.now)) }
    {
        let mut steps = Vec::new(alloc);
        for e in 0..self.net.link_count() {
            let next = self.step_of(amounts, LinkId(e))?;
            steps.push(next)?;
        }
        Ok(steps)
    }
}
