// A report: its head, and what comes after it.
ghost use Rattle.std.specs.Prelude.{◌≡◌, [], ◌∷◌, length, codes, Ok};
ghost use Rattle.std.specs.Option.{option_copied};
ghost use Rattle.nf_frac_words.specs.Digits.{digits_of};
ghost use Rattle.nf_edge.specs.Writing.{state_of, Wrote};
ghost use Rattle.nf_model.specs.Equilibrium.{HasShape};
ghost use Rattle.nf_net_def.specs.Report.{IsWellFormed, report_text};
ghost use Rattle.nf_report_def.specs.ReportFile.{report_in};
ghost use Rattle.nf_curve.specs.Flows.{seen_flow};
ghost use Rattle.nf_report_pages.specs.Pages.{GatheredLines};
ghost use Rattle.nf_report.specs.Parts.{head_lines, body_lines};

use nf_curve::{Flow, Stop};
use nf_edge::{Sink, SinkFault, write_text};
use nf_frac::{Q, TextBuf};
use nf_frac_words::write_count;
use nf_net::Network;
use nf_pattern::Pattern;
use nf_report_pages::{
    Page, put_cause, put_flow, put_line, put_number, put_states, written_reads_back,
};

// Puts the first line, which has the version.
fn put_version<O: Sink>(out: &mut O, page: &mut Page, version: u32) -> Result<(), SinkFault>
    ensures { GatheredLines (state_of O.Sink out.old) (state_of O.Sink out.new) page.old page.new
        ((codes "report" ∷ digits_of version ∷ []) ∷ []) result }
{
    let mut text = TextBuf::new();
    write_count(u64::from(version), &mut text);
    put_line(out, page, b"report", &[text.text()])
}

// Puts the head of the report: its version, its horizon, the time reached, and why the run stopped.
fn put_head<O: Sink>(
    out: &mut O,
    page: &mut Page,
    net: &Network,
    horizon: Q,
    flow: &Flow,
    stopped: Option<&Stop>,
) -> Result<(), SinkFault>
    ensures { GatheredLines (state_of O.Sink out.old) (state_of O.Sink out.new) page.old page.new
        (head_lines net.now.version horizon flow.now.reached (option_copied stopped.entry)) result }
{
    put_version(out, page, net.version())?;
    put_number(out, page, b"horizon", horizon)?;
    put_number(out, page, b"reached", flow.reached)?;
    put_cause(out, page, stopped)
}

// Puts what comes after the head: the flow, the states of the links, and the end.
fn put_body<O: Sink>(
    out: &mut O,
    page: &mut Page,
    net: &Network,
    flow: &Flow,
    last: &Pattern,
) -> Result<(), SinkFault>
    requires shape { HasShape net.now.net (seen_flow flow.now) }
    requires states { length last.now ≡ length net.now.net.links }
    ensures { GatheredLines (state_of O.Sink out.old) (state_of O.Sink out.new) page.old page.new
        (body_lines net.now (seen_flow flow.now) last.now) result }
{
    put_flow(out, page, net, flow)?;
    put_states(out, page, net, last)?;
    put_line(out, page, b"end", &[])
}

/// Writes the text of a report: the horizon, the flow up to the time reached, why the run stopped if it did, and the links' states in its
/// last phase. Times, amounts and rates are exact fractions. Allocates nothing.
///
/// The report must be well formed: a curve for each node and link of the network, and a stop exactly if the time reached is below the
/// horizon. The text is read back as this report. The first fault ends the writing; the sink then took a proper prefix of the text.
pub fn write_report<O: Sink>(
    net: &Network,
    horizon: Q,
    flow: &Flow,
    stopped: Option<&Stop>,
    last: &Pattern,
    out: &mut O,
) -> Result<(), SinkFault>
    requires { IsWellFormed net.now.net
        (record { horizon = horizon; flow = seen_flow flow.now; stop = option_copied stopped; last = last.now }) }
    ensures wrote { Wrote (state_of O.Sink out.old) (state_of O.Sink out.new) (report_text net.now
        (record { horizon = horizon; flow = seen_flow flow.now; stop = option_copied stopped.entry; last = last.now }))
        result }
    ensures reads_back { report_in net.now
        (report_text net.now
        (record { horizon = horizon; flow = seen_flow flow.now; stop = option_copied stopped.entry; last = last.now }))
        ≡ Ok (record { horizon = horizon; flow = seen_flow flow.now; stop = option_copied stopped.entry; last = last.now }) }
{
    // Proof: all numbers and counts of the report can be read.
    written_reads_back(net, horizon, flow, stopped, last);
    let mut page = Page::new();
    put_head(out, &mut page, net, horizon, flow, stopped)?;
    put_body(out, &mut page, net, flow, last)?;
    write_text(out, page.as_slice())
}
