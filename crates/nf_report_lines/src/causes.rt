// The words of a cause.
ghost use Rattle.std.specs.Prelude.{◌≡◌, ◌<◌, [], ◌∷◌, drop, length};
ghost use Rattle.nf_report_def.specs.declared.ReportRule.TheVariants.{P9};
ghost use Rattle.nf_report_def.specs.ReportCauses.{or_rule, part_of, op_of_word, done_cause, phases_cause, patterns_cause, passed_cause, nopattern_cause, cause_in};

use crate::numbers::{read_count, read_number, read_place};
use nf_curve::Stop;
use nf_frac::{Op, Part, PassedAt};
use nf_report_def::ReportRule;
use nf_text::{ReadLine, is_word};

fn part_named(word: &[u8]) -> Option<Part>
    ensures { result ≡ part_of word.now }
{
    if is_word(word, b"slack") {
        Some(Part::Slack)
    } else if is_word(word, b"table") {
        Some(Part::Table)
    } else if is_word(word, b"verdict") {
        Some(Part::Verdict)
    } else if is_word(word, b"extend") {
        Some(Part::Extend)
    } else if is_word(word, b"advance") {
        Some(Part::Advance)
    } else if is_word(word, b"curve") {
        Some(Part::Curve)
    } else if is_word(word, b"load") {
        Some(Part::Load)
    } else if is_word(word, b"check") {
        Some(Part::Check)
    } else if is_word(word, b"quick") {
        Some(Part::Quick)
    } else {
        None
    }
}

fn op_named(word: &[u8]) -> Option<Op>
    ensures { result ≡ op_of_word word.now }
{
    if is_word(word, b"sum") {
        Some(Op::Sum)
    } else if is_word(word, b"difference") {
        Some(Op::Difference)
    } else if is_word(word, b"product") {
        Some(Op::Product)
    } else if is_word(word, b"quotient") {
        Some(Op::Quotient)
    } else {
        None
    }
}

// Reads a part of the work. Otherwise fails with P9.
fn read_part(word: &[u8]) -> Result<Part, ReportRule>
    ensures { result ≡ or_rule P9 (part_of word.now) }
{
    match part_named(word) {
        Some(part) => Ok(part),
        None => Err(ReportRule::P9),
    }
}

// Reads an operation. Otherwise fails with P9.
fn read_op(word: &[u8]) -> Result<Op, ReportRule>
    ensures { result ≡ or_rule P9 (op_of_word word.now) }
{
    match op_named(word) {
        Some(op) => Ok(op),
        None => Err(ReportRule::P9),
    }
}

// Reads `cause done`.
fn read_done(line: &ReadLine) -> Result<Option<Stop>, ReportRule>
    requires { 1 < length line.now.words }
    ensures { result ≡ done_cause (drop 2 line.now.words) }
{
    if line.len() != 2 {
        return Err(ReportRule::P6);
    }
    Ok(None)
}

// Reads `cause phases MADE`.
fn read_phases(line: &ReadLine) -> Result<Option<Stop>, ReportRule>
    requires { 1 < length line.now.words }
    ensures { result ≡ phases_cause (drop 2 line.now.words) }
{
    if line.len() != 3 {
        return Err(ReportRule::P6);
    }
    let made = read_count(line.at(2))?;
    Ok(Some(Stop::Phases { made }))
}

// Reads `cause patterns PHASE TRIED`.
fn read_patterns(line: &ReadLine) -> Result<Option<Stop>, ReportRule>
    requires { 1 < length line.now.words }
    ensures { result ≡ patterns_cause (drop 2 line.now.words) }
{
    if line.len() != 4 {
        return Err(ReportRule::P6);
    }
    let phase = read_count(line.at(2))?;
    let tried = read_count(line.at(3))?;
    Ok(Some(Stop::Patterns { phase, tried }))
}

// Reads `cause nopattern PHASE`.
fn read_no_pattern(line: &ReadLine) -> Result<Option<Stop>, ReportRule>
    requires { 1 < length line.now.words }
    ensures { result ≡ nopattern_cause (drop 2 line.now.words) }
{
    if line.len() != 3 {
        return Err(ReportRule::P6);
    }
    let phase = read_count(line.at(2))?;
    Ok(Some(Stop::NoPattern { phase }))
}

// Reads the words after `passed`. Reads the numbers before the words.
fn read_operation(
    phase: &[u8],
    part: &[u8],
    place: &[u8],
    op: &[u8],
    left: &[u8],
    right: &[u8],
) -> Result<Option<Stop>, ReportRule>
    ensures { result
        ≡ passed_cause (phase.now ∷ part.now ∷ place.now ∷ op.now ∷ left.now ∷ right.now ∷ []) }
{
    let phase = read_count(phase)?;
    let place = read_place(place)?;
    let left = read_number(left)?;
    let right = read_number(right)?;
    let part = read_part(part)?;
    let op = read_op(op)?;
    Ok(Some(Stop::Passed {
        phase,
        place,
        at: PassedAt {
            part,
            op,
            left,
            right,
        },
    }))
}

// Reads `cause passed PHASE PART PLACE OP LEFT RIGHT`.
fn read_passed(line: &ReadLine) -> Result<Option<Stop>, ReportRule>
    requires { 1 < length line.now.words }
    ensures { result ≡ passed_cause (drop 2 line.now.words) }
{
    if line.len() != 8 {
        return Err(ReportRule::P6);
    }
    read_operation(
        line.at(2),
        line.at(3),
        line.at(4),
        line.at(5),
        line.at(6),
        line.at(7),
    )
}

/// Reads the words of a `cause` line. Returns None for `done`, and otherwise the cause of the stop. Fails with P6, P8 or P9.
pub(crate) fn read_cause(line: &ReadLine) -> Result<Option<Stop>, ReportRule>
    requires { 0 < length line.now.words }
    ensures { result ≡ cause_in (drop 1 line.now.words) }
{
    if line.len() < 2 {
        return Err(ReportRule::P6);
    }
    let kind = line.at(1);
    if is_word(kind, b"done") {
        read_done(line)
    } else if is_word(kind, b"phases") {
        read_phases(line)
    } else if is_word(kind, b"patterns") {
        read_patterns(line)
    } else if is_word(kind, b"passed") {
        read_passed(line)
    } else if is_word(kind, b"nopattern") {
        read_no_pattern(line)
    } else {
        Err(ReportRule::P9)
    }
}
