// A report is passed on, if its text is one.
ghost use Rattle.std.specs.Prelude.{◌≡◌, ◌≤◌, length, IfOk, IfErr, OnErr, MatchBool, Result};
ghost use Rattle.nf_edge.specs.Taken.{with_more, TookFront};
ghost use Rattle.nf_text_def.specs.Faults.{longest_text};
ghost use Rattle.nf_net_def.specs.Report.{IsWellFormed, report_text};
ghost use Rattle.nf_report_def.specs.ReportFile.{report_in};
ghost use Rattle.nf_report_read.specs.Files.{seen_report, IfBroken};

use nf_edge::Sink;
use nf_net::Network;
use nf_report::{Report, ReportFault, parse_report, write_report};
use std::alloc::Global;

// Writes a report. Returns whether the sink took its whole text.
fn write_whole<O: Sink>(net: &Network, report: &Report, out: &mut O) -> bool
    requires { IsWellFormed net.now.net (seen_report report.now) }
    ensures { MatchBool result
        (O.took out.new ≡ with_more (O.took out.old) (report_text net.now (seen_report report.now)))
        (TookFront (O.took out.old) (O.took out.new) (report_text net.now (seen_report report.now))) }
{
    let stopped = report.stopped.as_ref();
    write_report(
        net,
        report.horizon,
        &report.flow,
        stopped,
        &report.last,
        out,
    )
    .is_ok()
}

/// Writes a text to a sink, byte for byte, if the text is a report of the network. Returns whether the sink took all of it. Refuses with
/// the first rule that the text breaks, or if an allocation fails. The sink is then untouched. The text has at most 67,108,864 bytes.
pub fn pass_on<O: Sink>(
    alloc: Global,
    net: &Network,
    text: &[u8],
    out: &mut O,
) -> Result<bool, ReportFault>
    requires { length text.now ≤ longest_text }
    ensures taken { IfOk result
        (λ whole. MatchBool whole (O.took out.new ≡ with_more (O.took out.old) text.now)
        (TookFront (O.took out.old) (O.took out.new) text.now)) }
    ensures refused { IfErr result
        (λ fault. IfBroken fault (λ broken. report_in net.now text.now ≡ Err broken)) }
    ensures untouched { OnErr result (O.took out.new ≡ O.took out.old) }
{
    match parse_report(alloc, net, text) {
        Ok(report) => Ok(write_whole(net, &report, out)),
        Err(fault) => Err(fault),
    }
}
