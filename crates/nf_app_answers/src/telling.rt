// The lines on standard error.
ghost use Rattle.std.specs.Prelude.{◌≡◌, flat_map};
ghost use Rattle.nf_edge.specs.Writing.{state_of, Wrote};
ghost use Rattle.nf_report_def.specs.RuleWords.{load_rule_word, report_rule_word};
ghost use Rattle.nf_complete_def.specs.RuleWords.{flows_rule_word};
ghost use Rattle.nf_routes_def.specs.RuleWords.{routes_rule_word};
ghost use Rattle.nf_app_answers.specs.ErrorLines.{rule_word, broken_line, stopped_line, passed_line, augments_line};
ghost use Rattle.nf_app_answers.specs.Answers.{err_text};
ghost use Rattle.nf_app_answers.specs.Refusals.{refused_answer};

use crate::refusal::Refusal;
use nf_complete_read::FlowsRule;
use nf_curve::Stop;
use nf_edge::{Sink, SinkFault, write_text};
use nf_frac::{PassedAt, Q, TextBuf};
use nf_frac_words::write_count;
use nf_load::LoadRule;
use nf_net::NetRule;
use nf_report::{ReportRule, write_passed_call, write_stop};
use nf_routes_read::RoutesRule;

// The usage text, which lists the commands.
const USAGE: &[u8] = b"nfot: usage
nfot solve NET --horizon Q [--phases N] [--patterns N]
nfot show NET
nfot load NET LOADS --horizon Q
nfot check NET REPORT
nfot quick NET --amount Q [--augments N]
nfot gen --number N --rungs N --horizon Q [--phases N] [--patterns N]
nfot settle NET FLOWS
nfot solve NET --forever [--phases N] [--patterns N]
nfot resume NET REPORT --horizon Q [--phases N] [--patterns N]
nfot routes NET ROUTES --horizon Q
";

fn network_rule_text(rule: NetRule) -> &'static [u8]
    ensures { result.now ≡ rule_word rule }
{
    match rule {
        NetRule::N1 => b"N1",
        NetRule::N2 => b"N2",
        NetRule::N3 => b"N3",
        NetRule::N4 => b"N4",
        NetRule::N5 => b"N5",
        NetRule::N6 => b"N6",
        NetRule::N7 => b"N7",
        NetRule::N8 => b"N8",
        NetRule::N9 => b"N9",
        NetRule::N10 => b"N10",
        NetRule::N11 => b"N11",
        NetRule::N12 => b"N12",
        NetRule::N13 => b"N13",
        NetRule::N14 => b"N14",
        NetRule::N15 => b"N15",
        NetRule::N16 => b"N16",
        NetRule::N17 => b"N17",
        NetRule::N18 => b"N18",
        NetRule::N19 => b"N19",
        NetRule::N20 => b"N20",
        NetRule::N21 => b"N21",
        NetRule::N22 => b"N22",
    }
}

fn load_rule_text(rule: LoadRule) -> &'static [u8]
    ensures { result.now ≡ load_rule_word rule }
{
    match rule {
        LoadRule::L1 => b"L1",
        LoadRule::L2 => b"L2",
        LoadRule::L3 => b"L3",
        LoadRule::L4 => b"L4",
        LoadRule::L5 => b"L5",
        LoadRule::L6 => b"L6",
        LoadRule::L7 => b"L7",
        LoadRule::L8 => b"L8",
        LoadRule::L9 => b"L9",
        LoadRule::L10 => b"L10",
        LoadRule::L11 => b"L11",
        LoadRule::L12 => b"L12",
    }
}

fn flows_rule_text(rule: FlowsRule) -> &'static [u8]
    ensures { result.now ≡ flows_rule_word rule }
{
    match rule {
        FlowsRule::S1 => b"S1",
        FlowsRule::S2 => b"S2",
        FlowsRule::S3 => b"S3",
        FlowsRule::S4 => b"S4",
        FlowsRule::S5 => b"S5",
        FlowsRule::S6 => b"S6",
        FlowsRule::S7 => b"S7",
        FlowsRule::S8 => b"S8",
        FlowsRule::S9 => b"S9",
        FlowsRule::S10 => b"S10",
        FlowsRule::S11 => b"S11",
    }
}

fn routes_rule_text(rule: RoutesRule) -> &'static [u8]
    ensures { result.now ≡ routes_rule_word rule }
{
    match rule {
        RoutesRule::G1 => b"G1",
        RoutesRule::G2 => b"G2",
        RoutesRule::G3 => b"G3",
        RoutesRule::G4 => b"G4",
        RoutesRule::G5 => b"G5",
        RoutesRule::G6 => b"G6",
        RoutesRule::G7 => b"G7",
        RoutesRule::G8 => b"G8",
        RoutesRule::G9 => b"G9",
        RoutesRule::G10 => b"G10",
        RoutesRule::G11 => b"G11",
        RoutesRule::G12 => b"G12",
        RoutesRule::G13 => b"G13",
        RoutesRule::G14 => b"G14",
        RoutesRule::G15 => b"G15",
        RoutesRule::G16 => b"G16",
        RoutesRule::G17 => b"G17",
    }
}

fn report_rule_text(rule: ReportRule) -> &'static [u8]
    ensures { result.now ≡ report_rule_word rule }
{
    match rule {
        ReportRule::P1 => b"P1",
        ReportRule::P2 => b"P2",
        ReportRule::P3 => b"P3",
        ReportRule::P4 => b"P4",
        ReportRule::P5 => b"P5",
        ReportRule::P6 => b"P6",
        ReportRule::P7 => b"P7",
        ReportRule::P8 => b"P8",
        ReportRule::P9 => b"P9",
        ReportRule::P10 => b"P10",
        ReportRule::P11 => b"P11",
        ReportRule::P12 => b"P12",
        ReportRule::P13 => b"P13",
        ReportRule::P14 => b"P14",
    }
}

// Writes texts, one after the other.
fn write_texts<E: Sink>(err: &mut E, texts: &[&[u8]]) -> Result<(), SinkFault>
    ensures { Wrote (state_of E.Sink err.old) (state_of E.Sink err.new)
        (flat_map (λ t. t.now) texts.now) result }
{
    for text in texts {
        write_text(err, text)?;
    }
    Ok(())
}

// Writes the line of the first rule that a file breaks: the kind of file, the line's number and the rule.
fn write_broken<E: Sink>(err: &mut E, file: &[u8], line: u32, rule: &[u8]) -> Result<(), SinkFault>
    ensures { Wrote (state_of E.Sink err.old) (state_of E.Sink err.new)
        (broken_line file.now line rule.now) result }
{
    let mut number = TextBuf::new();
    write_count(u64::from(line), &mut number);
    write_texts(
        err,
        &[
            b"nfot: ",
            file,
            b" line ",
            number.text(),
            b": ",
            rule,
            b"\n",
        ],
    )
}

// Writes the line of an operation that passes, in a command without phases.
fn write_passed<E: Sink>(err: &mut E, at: &PassedAt<Q>) -> Result<(), SinkFault>
    ensures { Wrote (state_of E.Sink err.old) (state_of E.Sink err.new)
        (passed_line at.now) result }
{
    write_text(err, b"nfot: ")?;
    write_passed_call(err, b"stopped:", at)
}

/// Writes the text of a refusal. Allocates nothing.
///
/// The first fault ends the writing; the sink then took a proper prefix of the text.
pub fn write_refusal<E: Sink>(err: &mut E, refusal: &Refusal) -> Result<(), SinkFault>
    ensures { Wrote (state_of E.Sink err.old) (state_of E.Sink err.new)
        (err_text (refused_answer refusal.now)) result }
{
    match refusal {
        Refusal::NoMemory => write_text(err, b"nfot: memory\n"),
        Refusal::NoRequest => write_text(err, USAGE),
        Refusal::ShelfFailed => write_text(err, b"nfot: shelf failed\n"),
        Refusal::ShelfTooLong => write_text(err, b"nfot: shelf too long\n"),
        Refusal::Malformed { rule, line } => {
            write_broken(err, b"network", *line, network_rule_text(*rule))
        }
        Refusal::MalformedLoads { rule, line } => {
            write_broken(err, b"loads", *line, load_rule_text(*rule))
        }
        Refusal::MalformedFlows { rule, line } => {
            write_broken(err, b"flows", *line, flows_rule_text(*rule))
        }
        Refusal::MalformedRoutes { rule, line } => {
            write_broken(err, b"routes", *line, routes_rule_text(*rule))
        }
        Refusal::MalformedReport { rule, line } => {
            write_broken(err, b"report", *line, report_rule_text(*rule))
        }
        Refusal::Passes(at) => write_passed(err, at),
        Refusal::Unbounded => write_text(err, b"nfot: unbounded\n"),
        Refusal::NotThin => write_text(err, b"nfot: no thin flow\n"),
        Refusal::Earlier => write_text(err, b"nfot: earlier\n"),
    }
}

/// Writes the line that states why a run stopped. Allocates nothing.
///
/// The first fault ends the writing; the sink then took a proper prefix of the line.
pub fn write_stopped<E: Sink>(err: &mut E, stop: &Stop) -> Result<(), SinkFault>
    ensures { Wrote (state_of E.Sink err.old) (state_of E.Sink err.new)
        (stopped_line stop.now) result }
{
    write_text(err, b"nfot: ")?;
    write_stop(err, b"stopped:", stop)
}

/// Writes the line that states how many walks were pushed, as many as allowed. Allocates nothing.
///
/// The first fault ends the writing; the sink then took a proper prefix of the line.
pub fn write_over_budget<E: Sink>(err: &mut E, augments: u64) -> Result<(), SinkFault>
    ensures { Wrote (state_of E.Sink err.old) (state_of E.Sink err.new)
        (augments_line augments) result }
{
    let mut count = TextBuf::new();
    write_count(augments, &mut count);
    write_texts(err, &[b"nfot: augments ", count.text(), b"\n"])
}
