// Writing an answer to the two sinks.
ghost use Rattle.std.specs.Prelude.{◌≡◌, ◌≤◌, ◌++◌};
ghost use Rattle.std.specs.Option.{option_copied};
ghost use Rattle.nf_edge.specs.Writing.{state_of, Wrote};
ghost use Rattle.nf_net_def.specs.Named.{Named};
ghost use Rattle.nf_app_answers.specs.Answers.{status_of, status_of_cause, status_of_stop, status_of_forever, status_of_verdict, err_text, text_of_stop, text_of_verdict};
ghost use Rattle.nf_app_answers.specs.QuickText.{arrival_text};
ghost use Rattle.nf_app_answers.specs.Refusals.{refused_answer};
ghost use Rattle.nf_app_answers.specs.Outcomes.{answer_in, answer_with, text_with, HasText, HasTextWith};
ghost use Rattle.nf_app_files.specs.Sinks.{took_of, TookText};
ghost use Rattle.nf_app_files.specs.Shown.{IsShown};

use nf_app_answers::{
    Arrival, Computed, Outcome, Refusal, Status, write_arrival, write_loads, write_over_budget,
    write_refusal, write_routed, write_settled, write_stopped, write_summary, write_verdict,
};
use nf_check::Answer;
use nf_curve::Stop;
use nf_edge::{Sink, SinkFault, write_text};
use nf_forever::write_forever;
use nf_net::Network;
use nf_report::write_report;

// Writes the text of a quickest flow, and then that of the arrival.
fn write_quick<O: Sink>(text: &[u8], arrival: &Arrival, out: &mut O) -> Result<(), SinkFault>
    ensures { Wrote (state_of O.Sink out.old) (state_of O.Sink out.new)
        (text.now ++ arrival_text arrival.now) result }
{
    write_text(out, text)?;
    write_arrival(out, arrival)
}

// Writes the text of an outcome.
fn write_found<O: Sink>(net: &Network, found: &Computed, out: &mut O) -> Result<(), SinkFault>
    requires { HasTextWith net.now found.now }
    ensures { Wrote (state_of O.Sink out.old) (state_of O.Sink out.new)
        (text_with net.now found.now) result }
{
    match found {
        Computed::Solved { horizon, solution } => write_report(
            net,
            *horizon,
            &solution.flow,
            solution.stopped.as_ref(),
            &solution.last,
            out,
        ),
        Computed::SolvedForever { forever } => write_forever(net, forever, out),
        Computed::Shown { text } => write_text(out, text),
        Computed::Loaded { horizon, links } => write_loads(out, net, *horizon, links),
        Computed::Checked { verdict } => write_verdict(out, net, verdict),
        Computed::Quickest { arrival, text, .. } => write_quick(text, arrival, out),
        Computed::TooManyWalks { text, .. } => write_text(out, text),
        Computed::Generated {
            ladder,
            solution,
            arrival,
            ..
        } => write_summary(out, net, *ladder, solution, *arrival),
        Computed::Settled { settled } => write_settled(out, net, settled),
        Computed::Distributed {
            routes,
            horizon,
            routed,
        } => write_routed(out, net, routes, *horizon, routed),
    }
}

// Returns the status of a run that stopped for this cause.
fn status_of_cause(stop: &Stop) -> Status
    ensures { result ≡ status_of_cause stop.now }
{
    match stop {
        Stop::Phases { .. } => Status::Phases,
        Stop::Patterns { .. } => Status::Patterns,
        Stop::Passed { .. } => Status::Passed,
        Stop::NoPattern { .. } => Status::NoPattern,
    }
}

// Writes to `err` why the run of a report stopped, if it did, and returns the status. A fault of `err` doesn't change the status.
fn tell_stop<E: Sink>(stop: Option<&Stop>, err: &mut E) -> Status
    ensures status { result ≡ status_of_stop (option_copied stop.entry) }
    ensures told { TookText (took_of E.Sink err.old err.new)
        (text_of_stop (option_copied stop.entry)) }
    ensures never_falls { E.faults err.old ≤ E.faults err.new }
{
    match stop {
        None => Status::Ok,
        Some(stop) => {
            let _ = write_stopped(err, stop);
            status_of_cause(stop)
        }
    }
}

// Does the same for a run without a horizon, whose budget of phases has a status of its own.
fn tell_forever<E: Sink>(stop: Option<&Stop>, err: &mut E) -> Status
    ensures status { result ≡ status_of_forever (option_copied stop.entry) }
    ensures told { TookText (took_of E.Sink err.old err.new)
        (text_of_stop (option_copied stop.entry)) }
    ensures never_falls { E.faults err.old ≤ E.faults err.new }
{
    match tell_stop(stop, err) {
        Status::Phases => Status::Events,
        status => status,
    }
}

// Writes to `err` that a flow is no equilibrium, if it is none, and returns the status. A fault of `err` doesn't change the status.
fn tell_verdict<E: Sink>(verdict: &Answer, err: &mut E) -> Status
    ensures status { result ≡ status_of_verdict verdict.now }
    ensures told { TookText (took_of E.Sink err.old err.new) (text_of_verdict verdict.now) }
    ensures never_falls { E.faults err.old ≤ E.faults err.new }
{
    match verdict {
        Answer::Yes => Status::Ok,
        Answer::No { .. } => {
            let _ = write_text(err, b"nfot: no equilibrium\n");
            Status::NotEquilibrium
        }
    }
}

// Writes to `err` why an outcome isn't the whole answer, if it isn't, and returns the status.
fn tell<E: Sink>(found: &Computed, err: &mut E) -> Status
    ensures status { (net : Named) → result ≡ status_of (answer_with net found.now) }
    ensures told { (net : Named)
        → TookText (took_of E.Sink err.old err.new) (err_text (answer_with net found.now)) }
    ensures never_falls { E.faults err.old ≤ E.faults err.new }
{
    match found {
        Computed::SolvedForever { forever, .. } => tell_forever(forever.stopped.as_ref(), err),
        Computed::Checked { verdict, .. } => tell_verdict(verdict, err),
        Computed::TooManyWalks { augments, .. } => {
            let _ = write_over_budget(err, *augments);
            Status::Augments
        }
        _ => tell_stop(found.stop(), err),
    }
}

/// Writes the text of an outcome to `out`, writes to `err` why it isn't the whole answer, if it isn't, and returns the status of the run.
///
/// If `out` has a fault, the status is `Output`, `out` took a proper prefix of the text, and `err` is told so. A fault of `err` changes no
/// status. The outcome must have the text that its command gives.
pub fn give<O: Sink, E: Sink>(outcome: &Outcome, out: &mut O, err: &mut E) -> Status
    requires { HasText outcome.now }
    ensures shown { IsShown (answer_in outcome.now) (took_of O.Sink out.old out.new)
        (took_of E.Sink err.old err.new) result }
    ensures out_never_falls { O.faults out.old ≤ O.faults out.new }
    ensures err_never_falls { E.faults err.old ≤ E.faults err.new }
{
    match write_found(&outcome.net, &outcome.found, out) {
        Ok(()) => tell(&outcome.found, err),
        Err(SinkFault) => {
            let _ = write_text(err, b"nfot: output\n");
            Status::Output
        }
    }
}

/// Writes to `err` why there is no answer, and returns the status of the run. A fault of `err` doesn't change the status.
pub fn refuse<E: Sink>(refusal: &Refusal, err: &mut E) -> Status
    ensures status { result ≡ status_of (refused_answer refusal.now) }
    ensures told { TookText (took_of E.Sink err.old err.new) (err_text (refused_answer refusal.now)) }
    ensures never_falls { E.faults err.old ≤ E.faults err.new }
{
    let _ = write_refusal(err, refusal);
    refusal.status()
}
