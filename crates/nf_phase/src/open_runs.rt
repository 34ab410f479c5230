// The test whether the next phase of a run is the remainder of an interrupted phase.
ghost use Rattle.std.specs.Prelude.{◌≡◌, ◌<◌, length, MatchBool};
ghost use Rattle.nf_frac_def.specs.Passing.{passes_Q};
ghost use Rattle.nf_model.specs.Network.{hops as hops_of};
ghost use Rattle.nf_model.specs.ThinFlow.{slacks_of};
ghost use Rattle.nf_net_def.specs.WellNamed.{IsNamed};
ghost use Rattle.nf_phase_def.specs.Open.{IsOpen, Continues};
ghost use Rattle.nf_phase.specs.OpenRuns.{none_starts as none_starts_by, ApartAt, HaveStateOrSlack};
ghost use Rattle.nf_phase.specs.Stepping.{Reaches};

use crate::run::Run;
use nf_frac::Q;
use nf_graph::LinkId;
use nf_net::{Network, Piece};
use nf_pattern::Pattern;

// Returns whether no piece of the inflow starts at this time.
fn none_starts(pieces: &[Piece], time: Q) -> bool
    ensures { result ≡ none_starts_by pieces.now time }
{
    for piece in pieces {
        if piece.start.is_same(time) {
            return false;
        }
    }
    true
}

// Returns whether the link has a state or a nonzero slack.
fn is_apart(slacks: &[Q], last: &Pattern, link: LinkId) -> bool
    requires slacks { link < length slacks.now }
    requires last { link < length last.now }
    ensures { MatchBool result (ApartAt slacks.now last.now link)
        (ApartAt slacks.now last.now link → ⊥) }
{
    match last.state(link) {
        Some(_) => true,
        None => !slacks[link.index()].is_zero(),
    }
}

// Returns whether every link has a state or a nonzero slack.
fn are_apart(net: &Network, slacks: &[Q], last: &Pattern) -> bool
    requires slacks { length slacks.now ≡ length net.now.net.links }
    requires last { length last.now ≡ length net.now.net.links }
    ensures { MatchBool result (HaveStateOrSlack slacks.now last.now) (HaveStateOrSlack slacks.now last.now → ⊥) }
{
    for e in 0..net.link_count() {
        if !is_apart(slacks, last, LinkId(e)) {
            return false;
        }
    }
    true
}

impl Run {
    // Returns whether the run is mid-phase: no supply piece starts at the departure reached, and every link has a state or a nonzero slack.
    fn is_open(&self, net: &Network, slacks: &[Q]) -> bool
        requires reaches { Reaches passes_Q net.now.net self.now }
        requires named { IsNamed net.now }
        requires slacks { slacks.now ≡ slacks_of (hops_of net.now.net) self.now.labels }
        ensures { MatchBool result (IsOpen net.now.net self.now) (IsOpen net.now.net self.now → ⊥) }
    {
        let starts = none_starts(net.pieces(), self.reached);
        let apart = are_apart(net, slacks, &self.last);
        starts && apart
    }

    // Returns whether the next phase is the remainder of an interrupted one: the run is mid-phase, and no phase was added since it was
    // restored.
    pub(crate) fn continues(&self, net: &Network, slacks: &[Q]) -> bool
        requires reaches { Reaches passes_Q net.now.net self.now }
        requires named { IsNamed net.now }
        requires slacks { slacks.now ≡ slacks_of (hops_of net.now.net) self.now.labels }
        ensures { MatchBool result (Continues net.now.net self.now)
            (Continues net.now.net self.now → ⊥) }
    {
        if self.made > 0 {
            return false;
        }
        self.is_open(net, slacks)
    }
}
