// A flow under test, with labels and loadings computed from it.
ghost use Rattle.std.specs.Prelude.{◌≡◌, ◌<◌, length, map, slice_get, Some};
ghost use Rattle.nf_rational.specs.Operations.{0ℚ};
ghost use Rattle.nf_rational.specs.Order.{◌≤ℚ◌};
ghost use Rattle.nf_model.specs.Equilibrium.{points_at, points_of};
ghost use Rattle.nf_check_def.specs.CheckList.{trace_of as trace_in};
ghost use Rattle.nf_check_def.specs.Curves.{loaded_at as loaded_by, last_value as last_by};
ghost use Rattle.nf_curve.specs.Flows.{seen_trace};
ghost use Rattle.nf_load.specs.Loadings.{loaded_of};
ghost use Rattle.nf_check_rules.specs.Kept.{IsFromZero, IsWorked, points_of_each, loadings_of};

use crate::values::last_value;
use nf_curve::{Curve, Flow, Trace};
use nf_frac::Q;
use nf_graph::{LinkId, NodeId};
use nf_load::Loaded;
use nf_net::Network;

/// A borrowed view of a flow and of the curves computed from it. `labels` are the labels up to the departure reached. `loaded` are the
/// loadings of the links.
#[derive(Clone, Copy)]
pub struct Worked<'a> {
    pub net: &'a Network,
    pub flow: &'a Flow,
    pub labels: &'a [Curve],
    pub loaded: &'a [Loaded],
    pub ghost known: { IsWorked net.now.net flow.now labels.now loaded.now },
}

/// Returns the curve of a number.
pub fn curve_at(curves: &[Curve], number: usize) -> &Curve
    requires { number < length curves.now }
    ensures { result.now.points ≡ points_at (points_of_each curves.now) number }
{
    &curves[number]
}

/// Returns the label of a node, up to the departure reached.
pub fn label_at<'a>(worked: &Worked<'a>, node: NodeId) -> &'a Curve
    requires { node < worked.now.net.now.net.nodes }
    ensures points { result.now.points ≡ points_at (points_of_each worked.now.labels.now) node }
    ensures from_zero { IsFromZero result.now.points }
{
    let label = curve_at(worked.labels, node.index());
    // Proof: the points are a curve.
    label.recall();
    label
}

/// Returns the last value of the label of a node.
pub(crate) fn last_label(worked: &Worked, node: NodeId) -> Q
    requires { node < worked.now.net.now.net.nodes }
    ensures value { result ≡ last_by (points_at (points_of_each worked.now.labels.now) node) }
    ensures nonnegative { 0ℚ ≤ℚ result }
{
    last_value(label_at(worked, node))
}

/// Returns the trace of a link.
pub(crate) fn trace_at(traces: &[Trace], link: LinkId) -> &Trace
    requires { link < length traces.now }
    ensures there { slice_get (map seen_trace traces.now) link ≡ Some (seen_trace result.now) }
    ensures trace { seen_trace result.now ≡ trace_in (map seen_trace traces.now) link }
    ensures points { result.now.curve.points
        ≡ points_at (points_of (map seen_trace traces.now)) link }
{
    &traces[link.index()]
}

/// Returns the loading of a link.
pub(crate) fn loaded_at(loaded: &[Loaded], link: LinkId) -> &Loaded
    requires { link < length loaded.now }
    ensures { loaded_of result.now ≡ loaded_by (loadings_of loaded.now) link }
{
    &loaded[link.index()]
}
