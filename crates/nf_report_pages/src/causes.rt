// The line that says why a run stopped, and the line of a link's state.
ghost use Rattle.std.specs.Prelude.{◌≡◌, [], ◌∷◌, Some, None, codes};
ghost use Rattle.std.specs.Option.{option_copied};
ghost use Rattle.nf_edge.specs.Writing.{state_of};
ghost use Rattle.nf_frac_words.specs.Digits.{digits_of};
ghost use Rattle.nf_frac_words.specs.Printed.{printed};
ghost use Rattle.nf_net_def.specs.Causes.{part_word, op_word, count_word, cause_words, passed_words};
ghost use Rattle.nf_net_def.specs.Report.{state_word, written_state};
ghost use Rattle.nf_report_pages.specs.Written.{WroteLines};
ghost use Rattle.nf_report_pages.specs.Pages.{GatheredLines};

use crate::line::put_line;
use crate::pages::Page;
use nf_curve::Stop;
use nf_edge::{Sink, SinkFault, write_text};
use nf_frac::{Op, Part, PassedAt, Q, TextBuf};
use nf_frac_words::write_count;
use nf_model::State;

fn part_text(part: Part) -> &'static [u8]
    ensures { result.now ≡ part_word part }
{
    match part {
        Part::Slack => b"slack",
        Part::Table => b"table",
        Part::Verdict => b"verdict",
        Part::Extend => b"extend",
        Part::Advance => b"advance",
        Part::Curve => b"curve",
        Part::Load => b"load",
        Part::Check => b"check",
        Part::Quick => b"quick",
    }
}

fn op_text(op: Op) -> &'static [u8]
    ensures { result.now ≡ op_word op }
{
    match op {
        Op::Sum => b"sum",
        Op::Difference => b"difference",
        Op::Product => b"product",
        Op::Quotient => b"quotient",
    }
}

fn state_text(state: State) -> &'static [u8]
    ensures { result.now ≡ state_word state }
{
    match state {
        State::Tight => b"tight",
        State::Full => b"full",
        State::Zero => b"zero",
    }
}

// Returns the digits of a count, which are written to `text`, or `-` without a count.
fn count_text<'t>(count: Option<u64>, text: &'t mut TextBuf) -> &'t [u8]
    ensures { result.now ≡ count_word count }
{
    match count {
        None => b"-",
        Some(count) => {
            write_count(count, text);
            text.text()
        }
    }
}

/// Puts a line on the page: this word and this number. After an `Err` the page is empty.
pub fn put_number<O: Sink>(
    out: &mut O,
    page: &mut Page,
    key: &[u8],
    number: Q,
) -> Result<(), SinkFault>
    ensures { GatheredLines (state_of O.Sink out.old) (state_of O.Sink out.new) page.old page.new
        ((key.now ∷ printed number ∷ []) ∷ []) result }
{
    let mut text = TextBuf::new();
    number.write(&mut text);
    put_line(out, page, key, &[text.text()])
}

// Puts a cause with one count.
fn put_counted<O: Sink>(
    out: &mut O,
    page: &mut Page,
    key: &[u8],
    word: &[u8],
    count: u64,
) -> Result<(), SinkFault>
    ensures { GatheredLines (state_of O.Sink out.old) (state_of O.Sink out.new) page.old page.new
        ((key.now ∷ word.now ∷ digits_of count ∷ []) ∷ []) result }
{
    let mut text = TextBuf::new();
    write_count(count, &mut text);
    put_line(out, page, key, &[word, text.text()])
}

fn put_patterns<O: Sink>(
    out: &mut O,
    page: &mut Page,
    key: &[u8],
    phase: u64,
    tried: u64,
) -> Result<(), SinkFault>
    ensures { GatheredLines (state_of O.Sink out.old) (state_of O.Sink out.new) page.old page.new
        ((key.now ∷ codes "patterns" ∷ digits_of phase ∷ digits_of tried ∷ []) ∷ []) result }
{
    let mut first = TextBuf::new();
    let mut second = TextBuf::new();
    write_count(phase, &mut first);
    write_count(tried, &mut second);
    put_line(out, page, key, &[b"patterns", first.text(), second.text()])
}

// Puts an operation that passes, with its phase and its place if there are any.
fn put_passed<O: Sink>(
    out: &mut O,
    page: &mut Page,
    key: &[u8],
    phase: Option<u64>,
    place: Option<u64>,
    at: &PassedAt<Q>,
) -> Result<(), SinkFault>
    ensures { GatheredLines (state_of O.Sink out.old) (state_of O.Sink out.new) page.old page.new
        ((key.now ∷ passed_words phase place at.now) ∷ []) result }
{
    let mut phase_text = TextBuf::new();
    let mut place_text = TextBuf::new();
    let mut left = TextBuf::new();
    let mut right = TextBuf::new();
    let phase_word = count_text(phase, &mut phase_text);
    let place_word = count_text(place, &mut place_text);
    let part = part_text(at.part);
    let op = op_text(at.op);
    at.left.write(&mut left);
    at.right.write(&mut right);
    put_line(
        out,
        page,
        key,
        &[
            b"passed",
            phase_word,
            part,
            place_word,
            op,
            left.text(),
            right.text(),
        ],
    )
}

/// Writes a line: this word, and the operation that passes in a command without phases. Allocates nothing.
///
/// The first fault ends the writing; the sink then took a proper prefix of the line.
pub fn write_passed_call<O: Sink>(
    out: &mut O,
    key: &[u8],
    at: &PassedAt<Q>,
) -> Result<(), SinkFault>
    ensures { WroteLines (state_of O.Sink out.old) (state_of O.Sink out.new)
        ((key.now ∷ passed_words None None at.now) ∷ []) result }
{
    let mut page = Page::new();
    put_passed(out, &mut page, key, None, None, at)?;
    write_text(out, page.as_slice())
}

// Puts a line: this word, and why a run stopped.
fn put_stop<O: Sink>(out: &mut O, page: &mut Page, key: &[u8], stop: &Stop) -> Result<(), SinkFault>
    ensures { GatheredLines (state_of O.Sink out.old) (state_of O.Sink out.new) page.old page.new
        ((key.now ∷ cause_words (Some stop.now)) ∷ []) result }
{
    match stop {
        Stop::Phases { made } => put_counted(out, page, key, b"phases", *made),
        Stop::Patterns { phase, tried } => put_patterns(out, page, key, *phase, *tried),
        Stop::Passed { phase, place, at } => put_passed(out, page, key, Some(*phase), *place, at),
        Stop::NoPattern { phase } => put_counted(out, page, key, b"nopattern", *phase),
    }
}

/// Writes a line: this word, and why a run stopped. Allocates nothing.
///
/// The first fault ends the writing; the sink then took a proper prefix of the line.
pub fn write_stop<O: Sink>(out: &mut O, key: &[u8], stop: &Stop) -> Result<(), SinkFault>
    ensures { WroteLines (state_of O.Sink out.old) (state_of O.Sink out.new)
        ((key.now ∷ cause_words (Some stop.now)) ∷ []) result }
{
    let mut page = Page::new();
    put_stop(out, &mut page, key, stop)?;
    write_text(out, page.as_slice())
}

/// Puts a line on the page: `cause`, and why a run stopped, or `done` without a stop. After an `Err` the page is empty.
pub fn put_cause<O: Sink>(
    out: &mut O,
    page: &mut Page,
    stop: Option<&Stop>,
) -> Result<(), SinkFault>
    ensures { GatheredLines (state_of O.Sink out.old) (state_of O.Sink out.new) page.old page.new
        ((codes "cause" ∷ cause_words (option_copied stop.entry)) ∷ []) result }
{
    match stop {
        None => put_line(out, page, b"cause", &[b"done"]),
        Some(stop) => put_stop(out, page, b"cause", stop),
    }
}

// Puts the line of a link's state.
fn put_named_state<O: Sink>(
    out: &mut O,
    page: &mut Page,
    name: &[u8],
    word: &[u8],
) -> Result<(), SinkFault>
    ensures { GatheredLines (state_of O.Sink out.old) (state_of O.Sink out.new) page.old page.new
        ((codes "state" ∷ name.now ∷ word.now ∷ []) ∷ []) result }
{
    put_line(out, page, b"state", &[name, word])
}

/// Puts the line of a link's state, if it has one.
pub(crate) fn put_state<O: Sink>(
    out: &mut O,
    page: &mut Page,
    name: &[u8],
    state: Option<State>,
) -> Result<(), SinkFault>
    ensures { GatheredLines (state_of O.Sink out.old) (state_of O.Sink out.new) page.old page.new
        (written_state name.now state) result }
{
    match state {
        None => Ok(()),
        Some(state) => put_named_state(out, page, name, state_text(state)),
    }
}
