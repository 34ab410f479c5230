// The meaning of a line of a report, by the stage of the parser.
ghost use Rattle.std.specs.Prelude.{◌≡◌, ◌<◌, length, IfOk, IsErr};
ghost use Rattle.std.specs.Option.{option_copied};
ghost use Rattle.nf_net_def.specs.Named.{Named};
ghost use Rattle.nf_report_def.specs.ReportLines.{ReportDraft, version_line, nothing_more, staged_line, report_line};
ghost use Rattle.nf_report_lines.specs.Lines.{words_behind};
ghost use Rattle.nf_report_lines.specs.Drafts.{seen_draft, IsWithinNetwork};
ghost use Rattle.nf_report_lines.specs.Entries.{drafted, FitsDraft};
ghost use Rattle.nf_side.specs.Said.{said_by};

use crate::draft::{Draft, Stage};
use crate::entry::Entry;
use crate::head::{is_version, read_horizon};
use nf_net::Network;
use nf_report_def::ReportRule;
use nf_text::ReadLine;

// Reads `report` and the version. Otherwise fails with P4.
fn read_version(net: &Network, line: &ReadLine) -> Result<Entry, ReportRule>
    ensures says { (draft : ReportDraft)
        → version_line net.now draft line.now.words ≡ said_by (drafted net.now draft) result }
    ensures fits { (draft : ReportDraft) → IfOk result (λ entry. FitsDraft net.now draft entry) }
{
    if !is_version(net, line) {
        return Err(ReportRule::P4);
    }
    Ok(Entry::Version)
}

// Refuses a line after `end`: with the rule that the line breaks, or else with P14.
fn read_nothing(said: Result<Entry, ReportRule>) -> Result<Entry, ReportRule>
    ensures says { (n : Named) → (draft : ReportDraft)
        → nothing_more (said_by (drafted n draft) said) ≡ said_by (drafted n draft) result }
    ensures none { IsErr result }
{
    match said {
        Ok(_) => Err(ReportRule::P14),
        Err(rule) => Err(rule),
    }
}

impl Draft {
    // Returns the meaning of a line with words at this stage, or the first rule that the line breaks. `next` is the line after it.
    fn read_staged(
        &self,
        net: &Network,
        line: &ReadLine,
        next: Option<&ReadLine>,
    ) -> Result<Entry, ReportRule>
        requires words { 0 < length line.now.words }
        requires within { IsWithinNetwork net.now self.now }
        ensures says { let draft = seen_draft net.now self.now in
            staged_line net.now draft
            (words_behind (option_copied next.entry)) line.now.words draft.stage
            ≡ said_by (drafted net.now draft) result }
        ensures fits { IfOk result (λ entry. FitsDraft net.now (seen_draft net.now self.now) entry) }
    {
        match self.stage {
            Stage::Version => read_version(net, line),
            Stage::Horizon => Ok(Entry::Horizon(read_horizon(line)?)),
            Stage::Reached => Ok(Entry::Reached(self.read_reached(line)?)),
            Stage::Cause => Ok(Entry::Cause(self.read_stop(line)?)),
            Stage::Body => self.read_body(net, line, next),
            Stage::End => read_nothing(self.read_body(net, line, next)),
        }
    }

    /// Returns the meaning of a line, or the first of P3 to P14 that the line breaks. `next` is the line after it.
    pub fn read_entry(
        &self,
        net: &Network,
        line: &ReadLine,
        next: Option<&ReadLine>,
    ) -> Result<Entry, ReportRule>
        requires { IsWithinNetwork net.now self.now }
        ensures says { let draft = seen_draft net.now self.now in
            report_line net.now draft line.now.plain
            (words_behind (option_copied next.entry)) line.now.words
            ≡ said_by (drafted net.now draft) result }
        ensures fits { IfOk result (λ entry. FitsDraft net.now (seen_draft net.now self.now) entry) }
    {
        if line.len() == 0 || !line.is_plain() {
            return Err(ReportRule::P3);
        }
        self.read_staged(net, line, next)
    }
}
