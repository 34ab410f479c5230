// The lines of a report's head.
ghost use Rattle.std.specs.Prelude.{◌≡◌, ◌<◌, length, drop};
ghost use Rattle.std.specs.Str.{bytes_eq};
ghost use Rattle.nf_frac_words.specs.Digits.{digits_of};
ghost use Rattle.nf_net_def.specs.Named.{Named};
ghost use Rattle.nf_report_def.specs.ReportLines as lines;
ghost use Rattle.nf_report_def.specs.ReportLines.{ReportDraft, is_version as is_version_by, number_alone, horizon_line, reached_line, cause_line};
ghost use Rattle.nf_report_lines.specs.Drafts.{seen_draft};
ghost use Rattle.nf_side.specs.Said.{said_by};

use crate::causes::read_cause;
use crate::draft::Draft;
use crate::numbers::read_number;
use nf_curve::Stop;
use nf_frac::{Q, TextBuf};
use nf_frac_words::write_count;
use nf_net::Network;
use nf_report_def::ReportRule;
use nf_text::{ReadLine, is_word};

// Returns whether the word is the decimal form of this number.
fn is_number(word: &[u8], number: u64) -> bool
    ensures { result ≡ bytes_eq word.now (digits_of number) }
{
    let mut text = TextBuf::new();
    write_count(number, &mut text);
    is_word(word, text.text())
}

/// Returns whether a line is `report` with the version of the network.
pub(crate) fn is_version(net: &Network, line: &ReadLine) -> bool
    ensures { result ≡ is_version_by net.now line.now.words }
{
    line.len() == 2
        && is_word(line.at(0), b"report")
        && is_number(line.at(1), u64::from(net.version()))
}

// Returns the number of a line that has exactly two words. Fails with P6 or P8.
fn second_number(line: &ReadLine) -> Result<Q, ReportRule>
    requires { 0 < length line.now.words }
    ensures { result ≡ number_alone (drop 1 line.now.words) }
{
    if line.len() != 2 {
        return Err(ReportRule::P6);
    }
    read_number(line.at(1))
}

/// Reads the line `horizon`. Fails with the first broken rule of P5, P6, P8 and P10.
pub(crate) fn read_horizon(line: &ReadLine) -> Result<Q, ReportRule>
    requires { 0 < length line.now.words }
    ensures { (draft : ReportDraft) → horizon_line draft line.now.words
        ≡ said_by (λ horizon. record draft { stage = lines.AtReached; horizon = horizon }) result }
{
    if !is_word(line.at(0), b"horizon") {
        return Err(ReportRule::P5);
    }
    let horizon = second_number(line)?;
    if horizon.is_below(Q::zero()) {
        return Err(ReportRule::P10);
    }
    Ok(horizon)
}

impl Draft {
    /// Reads the line `reached`. Fails with the first broken rule of P5, P6, P8 and P10.
    pub(crate) fn read_reached(&self, line: &ReadLine) -> Result<Q, ReportRule>
        requires { 0 < length line.now.words }
        ensures { (n : Named) → reached_line (seen_draft n self.now) line.now.words
            ≡ said_by (λ reached.
            record (seen_draft n self.now) { stage = lines.AtCause; reached = reached }) result }
    {
        if !is_word(line.at(0), b"reached") {
            return Err(ReportRule::P5);
        }
        let reached = second_number(line)?;
        if reached.is_below(Q::zero()) || self.horizon.is_below(reached) {
            return Err(ReportRule::P10);
        }
        Ok(reached)
    }

    /// Reads the line `cause`. Returns None for `done`. Fails with P5, P6, P8, P9 or P10. P5 is tested first, and P10 last.
    pub(crate) fn read_stop(&self, line: &ReadLine) -> Result<Option<Stop>, ReportRule>
        requires { 0 < length line.now.words }
        ensures { (n : Named) → cause_line (seen_draft n self.now) line.now.words
            ≡ said_by
            (λ stop. record (seen_draft n self.now) { stage = lines.InBody; stop = stop }) result }
    {
        if !is_word(line.at(0), b"cause") {
            return Err(ReportRule::P5);
        }
        let stop = read_cause(line)?;
        if stop.is_none() != self.reached.is_same(self.horizon) {
            return Err(ReportRule::P10);
        }
        Ok(stop)
    }
}
