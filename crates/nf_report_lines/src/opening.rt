// The curve that a line extends.
ghost use Rattle.std.specs.Prelude.{◌≡◌, IfOk};
ghost use Rattle.std.specs.List.{last_or};
ghost use Rattle.nf_net_def.specs.Named.{Named};
ghost use Rattle.nf_report_def.specs.ReportLines as lines;
ghost use Rattle.nf_report_def.specs.ReportLines.{opened as opened_for, comes_after as comes_after_by};
ghost use Rattle.nf_report_lines.specs.Keys.{seen_kind, key_of_number, is_some_key};
ghost use Rattle.nf_report_lines.specs.Drafts.{seen_draft, IsWithinNetwork, begun_count};
ghost use Rattle.nf_report_lines.specs.Entries.{opened_by, CanOpen};
ghost use Rattle.nf_side.specs.Said.{said_by};

use crate::draft::Draft;
use crate::entry::Opening;
use crate::keys::{Kind, is_key_at};
use nf_curve::Curve;
use nf_frac::Q;
use nf_net::Network;
use nf_report_def::ReportRule;

// Returns whether a time is later than all times of the curve's points.
fn is_later(curve: &Curve, time: Q) -> bool
    ensures { result ≡ comes_after_by (last_or None curve.now.points) time }
{
    let last = curve.point(curve.len() - 1);
    last.0.is_below(time)
}

impl Draft {
    /// Returns whether a line of this kind and name extends the current curve or begins the next one. Fails with P7 if it does neither.
    pub(crate) fn opened(
        &self,
        net: &Network,
        kind: Kind,
        name: &[u8],
    ) -> Result<Opening, ReportRule>
        requires { IsWithinNetwork net.now self.now }
        ensures says { let draft = seen_draft net.now self.now in
            opened_for draft (seen_kind kind) name.now draft.current
            ≡ said_by (opened_by draft) result }
        ensures can { IfOk result (λ opening. CanOpen (seen_draft net.now self.now) opening) }
    {
        let done = self.done_count();
        match &self.current {
            Some(_) if is_key_at(net, done, kind, name) => Ok(Opening::GoesOn),
            Some(_) if is_key_at(net, done + 1, kind, name) => Ok(Opening::Begins),
            None if is_key_at(net, done, kind, name) => Ok(Opening::Begins),
            _ => Err(ReportRule::P7),
        }
    }

    /// Returns whether the next curve is an idle node of this name.
    pub(crate) fn never_comes(&self, net: &Network, name: &[u8]) -> bool
        requires { IsWithinNetwork net.now self.now }
        ensures { result
            ≡ is_some_key lines.OfNever name.now (key_of_number net.now (begun_count self.now)) }
    {
        is_key_at(net, self.begun_count(), Kind::Never, name)
    }

    /// Returns whether a time may follow in a curve: it is later than the times of the curve's points, or 0 for the first point.
    pub(crate) fn comes_after(&self, opening: Opening, time: Q) -> bool
        ensures { (n : Named) → result ≡ comes_after_by
            (last_or None (opened_by (seen_draft n self.now) opening).curve.points) time }
    {
        match (opening, &self.current) {
            (Opening::GoesOn, Some(trace)) => is_later(&trace.curve, time),
            _ => time.is_same(Q::zero()),
        }
    }
}
