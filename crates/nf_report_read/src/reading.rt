// Parsing a report.
ghost use Rattle.std.specs.Prelude.{◌≡◌, ◌≤◌, [], ◌∷◌, map, length, option_map, IfOk, IfErr, OnOk, MatchOption, MatchResult, Result};
ghost use Rattle.std.specs.Option.{option_copied};
ghost use Rattle.nf_text_def.specs.Words.{read_line};
ghost use Rattle.nf_text_def.specs.Faults.{first_fault_of, longest_text};
ghost use Rattle.nf_net_def.specs.Report.{Report as SeenReport, IsWellFormed, report_text};
ghost use Rattle.nf_report_def.specs.ReportLines.{report_line};
ghost use Rattle.nf_report_def.specs.ReportFile.{ReportBroken, as_report_rule, in_report_line, report_by_bytes, report_lines_from, if_at_end, report_in};
ghost use Rattle.nf_report_laws.specs.Readable.{IsReadable};
ghost use Rattle.nf_report_lines.specs.Lines.{words_behind};
ghost use Rattle.nf_report_lines.specs.Drafts.{seen_draft, seen_stage, IsWithinNetwork};
ghost use Rattle.nf_report_read.specs.Files.{IfBroken, seen_report, closed_by, ReturnsReport};

use crate::fault::ReportFault;
use crate::report::{Report, report_at_end};
use nf_net::Network;
use nf_report_def::ReportRule;
use nf_report_lines::Draft;
use nf_text::{Cursor, ReadLine};
use std::alloc::Global;

// Reads the next line of a text. Fails with P1 or P2 if the line breaks one of them.
fn next_line<'a>(
    alloc: Global,
    cursor: &mut Cursor<'a>,
) -> Result<Option<ReadLine<'a>>, ReportFault>
    ensures line { IfOk result
        (λ next. MatchOption next (cursor.old ≡ [])
        (λ line. map read_line cursor.old ≡ line ∷ map read_line cursor.new)) }
    ensures fine { IfOk result
        (λ next. MatchOption next (cursor.new ≡ cursor.old)
        (λ line. first_fault_of cursor.old ≡ first_fault_of cursor.new)) }
    ensures fault { IfErr result (λ fault. IfBroken fault
        (λ broken. option_map as_report_rule (first_fault_of cursor.old) ≡ Some broken)) }
{
    match cursor.next_line(alloc) {
        Ok(line) => Ok(line),
        Err(fault) => Err(fault.in_file(ReportRule::P1, ReportRule::P2)),
    }
}

// Tests P1 and P2 for all further lines.
fn check_rest(alloc: Global, cursor: &mut Cursor) -> Result<(), ReportFault>
    ensures none { OnOk result (first_fault_of cursor.old ≡ None) }
    ensures fault { IfErr result (λ fault. IfBroken fault
        (λ broken. option_map as_report_rule (first_fault_of cursor.old) ≡ Some broken)) }
{
    loop {
        match next_line(alloc, cursor) {
            Ok(Some(_)) => {}
            Ok(None) => return Ok(()),
            Err(fault) => return Err(fault),
        }
    }
}

// Returns the fault of a further line that breaks P1 or P2, if there is one, and otherwise `fault`.
fn first_broken(alloc: Global, cursor: &mut Cursor, fault: ReportFault) -> ReportFault
    ensures { (read : Result SeenReport ReportBroken) → IfBroken fault (λ broken. read ≡ Err broken)
        → IfBroken result
        (λ broken. report_by_bytes (first_fault_of cursor.old) read ≡ Err broken) }
{
    match check_rest(alloc, cursor) {
        Ok(()) => fault,
        Err(earlier) => earlier,
    }
}

// Applies a line to the state. Fails with the first of P3 to P14 that the line breaks, and the line's number, or if an allocation fails.
// `next` is the line after it.
fn add_line(
    alloc: Global,
    net: &Network,
    draft: &mut Draft,
    line: &ReadLine,
    next: Option<&ReadLine>,
) -> Result<(), ReportFault>
    requires { IsWithinNetwork net.now draft.old }
    ensures adds { let read = in_report_line line.now.number
        (report_line net.now (seen_draft net.now draft.old) line.now.plain
        (words_behind (option_copied next.entry)) line.now.words) in
        MatchResult result (λ _. read ≡ Ok (seen_draft net.now draft.new))
        (λ fault. IfBroken fault (λ broken. read ≡ Err broken)) }
    ensures within { OnOk result (IsWithinNetwork net.now draft.new) }
{
    match draft.read_entry(net, line, next) {
        Ok(entry) => {
            draft.add(alloc, net, &entry)?;
            Ok(())
        }
        Err(rule) => Err(ReportFault::Broken {
            rule,
            line: line.number(),
        }),
    }
}

// Applies this line and all further lines to the state. Each line is read together with the line after it.
fn add_lines(
    alloc: Global,
    net: &Network,
    cursor: &mut Cursor,
    first: ReadLine,
    draft: &mut Draft,
) -> Result<(), ReportFault>
    requires { IsWithinNetwork net.now draft.old }
    ensures draft { OnOk result (report_lines_from net.now (seen_draft net.now draft.old)
        (first.entry ∷ map read_line cursor.old)
        ≡ Ok (seen_draft net.now draft.new)) }
    ensures within { OnOk result (IsWithinNetwork net.now draft.new) }
    ensures fine { OnOk result (first_fault_of cursor.old ≡ None) }
    ensures fault { IfErr result (λ fault. IfBroken fault (λ broken.
        report_by_bytes (first_fault_of cursor.old)
        (closed_by (report_lines_from net.now (seen_draft net.now draft.old)
        (first.entry ∷ map read_line cursor.old))) ≡ Err broken)) }
{
    let mut line = Some(first);
    while let Some(current) = line {
        let next = next_line(alloc, cursor)?;
        match add_line(alloc, net, draft, &current, next.as_ref()) {
            Ok(()) => {}
            Err(fault) => return Err(first_broken(alloc, cursor, fault)),
        }
        line = next;
    }
    Ok(())
}

// Reads the lines of a text in order, and returns the parser state.
fn read_draft(alloc: Global, net: &Network, text: &[u8]) -> Result<Draft, ReportFault>
    requires { length text.now ≤ longest_text }
    ensures draft { IfOk result (λ draft. report_in net.now text.now
        ≡ if_at_end (seen_stage draft.stage) (seen_draft net.now draft)) }
    ensures within { IfOk result (λ draft. IsWithinNetwork net.now draft) }
    ensures fault { IfErr result
        (λ fault. IfBroken fault (λ broken. report_in net.now text.now ≡ Err broken)) }
{
    let mut cursor = Cursor::new(text);
    let line = next_line(alloc, &mut cursor)?;
    let Some(first) = line else {
        return Err(ReportFault::Broken {
            rule: ReportRule::P4,
            line: 1,
        });
    };
    let mut draft = Draft::new(alloc, net)?;
    add_lines(alloc, net, &mut cursor, first, &mut draft)?;
    Ok(draft)
}

// Returns the report that a text is.
fn read_report(alloc: Global, net: &Network, text: &[u8]) -> Result<Report, ReportFault>
    requires { length text.now ≤ longest_text }
    ensures { MatchResult result (λ report. report_in net.now text.now ≡ Ok (seen_report report))
        (λ fault. IfBroken fault (λ broken. report_in net.now text.now ≡ Err broken)) }
{
    let draft = read_draft(alloc, net, text)?;
    report_at_end(alloc, net, draft)
}

/// Parses a report of the network, from a text of at most 67,108,864 bytes. Returns the report, or the first rule that the text breaks,
/// with the line. The rules of all bytes and lines are tested first, then those of each line, then that of the whole file, with line 0.
/// Reads the text once, line by line. Also fails if an allocation fails.
pub fn parse_report(alloc: Global, net: &Network, text: &[u8]) -> Result<Report, ReportFault>
    requires { length text.now ≤ longest_text }
    ensures reads { MatchResult result
        (λ report. report_in net.now text.now ≡ Ok (seen_report report))
        (λ fault. IfBroken fault (λ broken. report_in net.now text.now ≡ Err broken)) }
    ensures formed { IfOk result (λ report. IsWellFormed net.now.net (seen_report report)) }
    ensures text { IfOk result (λ report. text.now ≡ report_text net.now (seen_report report)) }
    ensures all { (report : SeenReport) → IsWellFormed net.now.net report → IsReadable report
        → text.now ≡ report_text net.now report
        → ReturnsReport report result }
{
    // Proof: the network is that of an accepted file.
    net.recall();
    read_report(alloc, net, text)
}
