// The text of a report is read back as this report.
ghost use Rattle.std.specs.Prelude.{◌≡◌, Ok};
ghost use Rattle.std.specs.Option.{option_copied};
ghost use Rattle.nf_net_def.specs.Report.{Report, IsWellFormed, report_text};
ghost use Rattle.nf_report_def.specs.ReportFile.{report_in};
ghost use Rattle.nf_report_laws.specs.Readable.{IsReadable};
ghost use Rattle.nf_curve.specs.Flows.{seen_flow};

use crate::known::{know_cause, know_curves, know_traces};
use nf_curve::{Flow, Stop};
use nf_frac::Q;
use nf_net::Network;
use nf_pattern::Pattern;

/// Shows that the text of a well-formed report is read back as this report, and is the text of no other readable report.
///
/// Each number and count of the report fits its type, so it can be read. The call looks at each number once, in time linear in the curves'
/// sizes, and returns nothing: its contract is what it shows.
pub fn written_reads_back(
    net: &Network,
    horizon: Q,
    flow: &Flow,
    stopped: Option<&Stop>,
    last: &Pattern,
)
    requires { IsWellFormed net.now.net
        (record { horizon = horizon; flow = seen_flow flow.now; stop = option_copied stopped; last = last.now }) }
    ensures readable { IsReadable
        (record { horizon = horizon; flow = seen_flow flow.now; stop = option_copied stopped.entry; last = last.now }) }
    ensures reads_back { report_in net.now
        (report_text net.now
        (record { horizon = horizon; flow = seen_flow flow.now; stop = option_copied stopped.entry; last = last.now }))
        ≡ Ok (record { horizon = horizon; flow = seen_flow flow.now; stop = option_copied stopped.entry; last = last.now }) }
    ensures only { (other : Report) → IsWellFormed net.now.net other → IsReadable other
        → report_text net.now
        (record { horizon = horizon; flow = seen_flow flow.now; stop = option_copied stopped.entry; last = last.now })
        ≡ report_text net.now other
        → record { horizon = horizon; flow = seen_flow flow.now; stop = option_copied stopped.entry; last = last.now }
        ≡ other }
{
    // Proof: the network is that of an accepted file.
    net.recall();
    horizon.recall();
    flow.reached.recall();
    know_cause(stopped);
    know_curves(&flow.labels);
    know_traces(&flow.inflows);
    know_traces(&flow.outflows);
    know_curves(&flow.queues);
}
