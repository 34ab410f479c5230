// The top call.
ghost use Rattle.std.specs.Prelude.{◌≡◌, ◌≤◌, ℕ, List};
ghost use Rattle.nf_app.specs.Runs.{this_call};
ghost use Rattle.nf_app.specs.Promises.{Promises};

use crate::answering::answer;
use nf_app_answers::{Outcome, Status};
use nf_app_files::{give, refuse};
use nf_edge::{Shelf, Sink};
use std::alloc::Global;

// Frees the outcome in a function of its own: the check of `run` then needn't follow the parts of each kind of outcome.
fn let_go(_outcome: Outcome) {}

/// Reads the words as one request, fetches its files, writes the answer to `out`, and returns the status.
///
/// All files are fetched, each once and in order, before a rule of one is checked. Nothing is written to `out` before the answer is
/// known. With a status other than 0, `err` is told why. The first of the words is the program's name.
///
/// - `solve`: the report of the phase run, up to the horizon or its stop
/// - `solve --forever`: the run with its last phase, which never ends
/// - `resume`: the report that continues a given report to a later horizon
/// - `check`: `yes`, or the first broken rule with two different values
/// - `show`: the network's canonical text
/// - `load`: queue, outflow and exits of each link under its loads
/// - `routes`: what links and routes carry, and when it arrives
/// - `quick`: a quickest flow, its cut, and the arrival in equilibrium
/// - `settle`: the pattern and the flows of a given thin flow
/// - `gen`: a summary of the phase run in a ladder
///
/// Failures, by status:
///
/// - 1: an allocation failed; `out` is untouched
/// - 2: the words are no request; no file is fetched
/// - 3: fetching failed or a file is too long; `out` is untouched
/// - 4: a file breaks a rule; `err` names the first, with its line
/// - 5, 6, 12: a budget ended the run; `out` has the report so far
/// - 7: an operation exceeds the bound; runs write their report so far
/// - 9: `out` failed and took a proper prefix of the answer
/// - 10: no equilibrium; `out` has the verdict
/// - 11: too many walks; `out` has those that were pushed
/// - 14, 15, 16: unbounded, no thin flow, earlier horizon; `out` is untouched
///
/// A failure of `err` changes no status. Status 8 never occurs.
pub fn run<S: Shelf, O: Sink, E: Sink>(
    alloc: Global,
    words: &[String],
    shelf: &mut S,
    out: &mut O,
    err: &mut E,
) -> Status
    // The promises are explained one by one in `specs/Promises`.
    ensures promises { Promises
        (this_call S.Shelf O.Sink E.Sink words.now shelf.old shelf.new out.old out.new err.old
        err.new result) }

    // What is known of the shelf's files stays the same, and no count of faults falls. So one call can follow another.
    ensures same { (name : List ℕ) → S.told shelf.new name ≡ S.told shelf.old name }
    ensures shelf_never_falls { S.faults shelf.old ≤ S.faults shelf.new }
    ensures out_never_falls { O.faults out.old ≤ O.faults out.new }
    ensures err_never_falls { E.faults err.old ≤ E.faults err.new }
{
    match answer(alloc, words, shelf) {
        Ok(outcome) => {
            let status = give(&outcome, out, err);
            let_go(outcome);
            status
        }
        Err(refusal) => refuse(&refusal, err),
    }
}
