// The report that was read.
ghost use Rattle.std.specs.Prelude.{◌≡◌, ◌≤◌, List, [], ◌∷◌, ◌++◌, length, None, IfOk, OnOk, MatchResult};
ghost use Rattle.nf_report_def.specs.ReportLines.{CurveKey, ReadCurve, OfNever, curve_keys};
ghost use Rattle.nf_report_def.specs.ReportFile.{if_at_end};
ghost use Rattle.nf_report_lines.specs.Keys.{seen_kind};
ghost use Rattle.nf_report_lines.specs.Drafts.{seen_draft, seen_curve, seen_done, LacksIdleOnly, IsWithinNetwork};
ghost use Rattle.nf_report_read.specs.Files.{IfBroken, seen_report};
ghost use Rattle.nf_report_read.specs.Sorted.{AreSorted};

use crate::fault::ReportFault;
use nf_curve::{Flow, Stop, Trace};
use nf_frac::Q;
use nf_net::Network;
use nf_pattern::Pattern;
use nf_report_def::ReportRule;
use nf_report_lines::{Draft, Kind, Stage, key_at};
use std::alloc::{AllocError, Global};

/// A report of a run. `stopped` is the cause of a stop before the horizon, and `last` holds the states of the links in the last phase.
#[derive(Drop)]
pub struct Report {
    pub horizon: Q,
    pub flow: Flow,
    pub stopped: Option<Stop>,
    pub last: Pattern,
}

// Appends a curve to those of its kind in a flow. Every kind except `Never` must have a curve.
fn put(flow: &mut Flow, kind: Kind, curve: Option<Trace>) -> Result<(), AllocError>
    requires { curve ≡ None → seen_kind kind ≡ OfNever }
    ensures reached { OnOk result (flow.new.reached ≡ flow.old.reached) }
    ensures sorted { OnOk result ((curves : List ReadCurve) → (key : CurveKey)
        → key.kind ≡ seen_kind kind → AreSorted curves flow.old
        → AreSorted (curves ++ seen_curve key curve ∷ []) flow.new) }
{
    match (kind, curve) {
        (Kind::Never, _) => {}
        (Kind::Label, Some(trace)) => {
            let Trace { curve, rates: _ } = trace;
            flow.labels.push(curve)?;
        }
        (Kind::Inflow, Some(trace)) => flow.inflows.push(trace)?,
        (Kind::Outflow, Some(trace)) => flow.outflows.push(trace)?,
        (Kind::Queue, Some(trace)) => {
            let Trace { curve, rates: _ } = trace;
            flow.queues.push(curve)?;
        }
        (_, None) => unreachable!(),
    }
    Ok(())
}

// Divides the curves of a report by kind, into a flow up to `reached`.
fn by_kind(
    alloc: Global,
    net: &Network,
    reached: Q,
    curves: Vec<Option<Trace>>,
) -> Result<Flow, AllocError>
    requires count { length curves.items ≤ length (curve_keys net.now) }
    requires idle { LacksIdleOnly net.now curves.items }
    ensures reached { IfOk result (λ flow. flow.reached ≡ reached) }
    ensures sorted { IfOk result (λ flow. AreSorted (seen_done net.now 0 curves.items) flow) }
{
    // Proof: a network has few nodes and links.
    net.recall();
    let mut flow = Flow {
        reached,
        labels: Vec::new(alloc),
        inflows: Vec::new(alloc),
        outflows: Vec::new(alloc),
        queues: Vec::new(alloc),
    };
    let mut index = 0;
    for curve in curves {
        let kind = match key_at(net, index) {
            Some(key) => key.kind,
            None => unreachable!(),
        };
        put(&mut flow, kind, curve)?;
        index += 1;
    }
    Ok(flow)
}

/// Returns the report of the parser state at the end of the text. Fails with P14 if no `end` line was read, or if an allocation fails.
pub(crate) fn report_at_end(
    alloc: Global,
    net: &Network,
    draft: Draft,
) -> Result<Report, ReportFault>
    requires { IsWithinNetwork net.now draft }
    ensures { let read = seen_draft net.now draft in
        MatchResult result (λ report. if_at_end read.stage read ≡ Ok (seen_report report))
        (λ fault. IfBroken fault (λ broken. if_at_end read.stage read ≡ Err broken)) }
{
    if !matches!(draft.stage, Stage::End) {
        return Err(ReportFault::Broken {
            rule: ReportRule::P14,
            line: 0,
        });
    }
    let flow = by_kind(alloc, net, draft.reached, draft.done)?;
    Ok(Report {
        horizon: draft.horizon,
        flow,
        stopped: draft.stop,
        last: draft.states,
    })
}
