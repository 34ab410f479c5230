// The summary of a run in a generated ladder.
ghost use Rattle.std.specs.Prelude.{◌≡◌, [], ◌∷◌, ◌++◌, codes};
ghost use Rattle.std.specs.Option.{option_copied};
ghost use Rattle.nf_rational.specs.Rational.{ℚ};
ghost use Rattle.nf_frac_words.specs.Digits.{digits_of};
ghost use Rattle.nf_frac_words.specs.Printed.{printed};
ghost use Rattle.nf_edge.specs.Writing.{state_of, Wrote};
ghost use Rattle.nf_net_def.specs.Causes.{cause_words};
ghost use Rattle.nf_phase.specs.Solution.{solution_report};
ghost use Rattle.nf_report_pages.specs.Written.{WroteLines};
ghost use Rattle.nf_app_answers.specs.GenText.{ladder_lines, size_lines, run_lines, run_end_lines, last_arrival, gen_text};

use nf_curve::Stop;
use nf_edge::{Sink, SinkFault};
use nf_frac::{Q, TextBuf};
use nf_frac_words::write_count;
use nf_net::Network;
use nf_phase::Solution;
use nf_report::{write_line, write_stop};

/// The number and the rungs of a generated ladder.
#[derive(Clone, Copy)]
pub struct Ladder {
    pub number: u64,
    pub rungs: u32,
}

// Writes a line: the name, and a count.
fn write_counted<O: Sink>(out: &mut O, name: &[u8], count: u64) -> Result<(), SinkFault>
    ensures { WroteLines (state_of O.Sink out.old) (state_of O.Sink out.new)
        ((name.now ∷ digits_of count ∷ []) ∷ []) result }
{
    let mut word = TextBuf::new();
    write_count(count, &mut word);
    write_line(out, name, &[word.text()])
}

// Writes a line: the name, and a number.
fn write_number<O: Sink>(out: &mut O, name: &[u8], number: Q) -> Result<(), SinkFault>
    ensures { WroteLines (state_of O.Sink out.old) (state_of O.Sink out.new)
        ((name.now ∷ printed number ∷ []) ∷ []) result }
{
    let mut word = TextBuf::new();
    number.write(&mut word);
    write_line(out, name, &[word.text()])
}

// Writes the line of a ladder: its number, and its number of rungs.
fn write_ladder<O: Sink>(out: &mut O, ladder: Ladder) -> Result<(), SinkFault>
    ensures { WroteLines (state_of O.Sink out.old) (state_of O.Sink out.new)
        (ladder_lines ladder.number ladder.rungs) result }
{
    let mut first = TextBuf::new();
    let mut second = TextBuf::new();
    write_count(ladder.number, &mut first);
    write_count(u64::from(ladder.rungs), &mut second);
    write_line(out, b"gen", &[first.text(), second.text()])
}

// Writes the numbers of nodes and links.
fn write_size<O: Sink>(out: &mut O, net: &Network) -> Result<(), SinkFault>
    ensures { WroteLines (state_of O.Sink out.old) (state_of O.Sink out.new)
        (size_lines net.now) result }
{
    write_counted(out, b"nodes", u64::from(net.node_count()))?;
    write_counted(out, b"links", u64::from(net.link_count()))
}

// Writes the number of phases, and the departure reached.
fn write_run<O: Sink>(out: &mut O, phases: u64, reached: Q) -> Result<(), SinkFault>
    ensures { WroteLines (state_of O.Sink out.old) (state_of O.Sink out.new)
        (run_lines phases reached) result }
{
    write_counted(out, b"phases", phases)?;
    write_number(out, b"reached", reached)
}

// Writes the cause of the run's end, or `done` without a stop.
fn write_cause<O: Sink>(out: &mut O, stop: Option<&Stop>) -> Result<(), SinkFault>
    ensures { WroteLines (state_of O.Sink out.old) (state_of O.Sink out.new)
        ((codes "cause" ∷ cause_words (option_copied stop.entry)) ∷ []) result }
{
    match stop {
        None => write_line(out, b"cause", &[b"done"]),
        Some(stop) => write_stop(out, b"cause", stop),
    }
}

// Writes the cause of the run's end, and the arrival of the last departure.
fn write_end<O: Sink>(out: &mut O, stop: Option<&Stop>, arrival: Q) -> Result<(), SinkFault>
    ensures { WroteLines (state_of O.Sink out.old) (state_of O.Sink out.new)
        (run_end_lines (option_copied stop.entry) arrival) result }
{
    write_cause(out, stop)?;
    write_number(out, b"arrival", arrival)
}

/// Writes the summary of a run in a ladder. The summary holds the ladder, the size of the network, the number of phases and the departure
/// reached. The cause of the run's end and `arrival` follow. `arrival` is the time at which the last departure reaches the sink. Allocates
/// nothing.
///
/// The first fault ends the writing; the sink then took a proper prefix of the text.
pub fn write_summary<O: Sink>(
    out: &mut O,
    net: &Network,
    ladder: Ladder,
    solution: &Solution,
    arrival: Q,
) -> Result<(), SinkFault>
    ensures text { (horizon : ℚ) → arrival ≡ last_arrival net.now (solution_report horizon solution.now)
        → Wrote (state_of O.Sink out.old) (state_of O.Sink out.new) (gen_text ladder.number
        ladder.rungs net.now solution.now.phases (solution_report horizon solution.now)) result }

    // `lines` states the same for any `arrival`, line by line.
    ensures lines { WroteLines (state_of O.Sink out.old)
        (state_of O.Sink out.new) (ladder_lines ladder.number ladder.rungs ++ size_lines net.now
        ++ run_lines solution.now.phases solution.now.flow.reached
        ++ run_end_lines solution.now.stopped arrival) result }
{
    write_ladder(out, ladder)?;
    write_size(out, net)?;
    write_run(out, solution.phases, solution.flow.reached)?;
    write_end(out, solution.stopped.as_ref(), arrival)
}
