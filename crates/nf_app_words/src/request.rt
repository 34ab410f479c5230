// The requests of the command line.
ghost use Rattle.std.specs.Prelude.{◌≡◌, option_map};
ghost use Rattle.nf_app_words.specs.MatchViews.{rows_in};
ghost use Rattle.nf_app_words.specs.Requests.{asked, request_in};
ghost use Rattle.nf_app_words.specs.RequestViews.{requested};

use crate::commands::{Task, task_of};
use crate::given::file_of;
use crate::numbers::{
    amount_of, augments_of, horizon_of, number_of, patterns_of, phases_of, rungs_of,
};
use clap::ArgMatches;
use nf_frac::Q;

/// A request, with files by name.
#[derive(Clone, Copy)]
pub enum Request<'w> {
    /// Asks for the report of a run in a network, from time 0 to `horizon`, which is at least 0. The run has at most `phases` phases, each
    /// of which tries at most `patterns` patterns. Both are at least 1.
    Solve {
        file: &'w str,
        horizon: Q,
        phases: u64,
        patterns: u64,
    },
    /// Asks for a run in a network from time 0 without a horizon. The run has at most `phases` phases, each of which tries at most
    /// `patterns` patterns. Both are at least 1.
    SolveForever {
        file: &'w str,
        phases: u64,
        patterns: u64,
    },
    /// Asks for the canonical text of a network.
    Show {
        file: &'w str,
    },
    /// Asks for the loading of each link of a network by the inflows of a loads file, up to `horizon`, which is at least 0.
    Load {
        file: &'w str,
        loads: &'w str,
        horizon: Q,
    },
    /// Asks whether the flow of a report is an equilibrium of a network.
    Check {
        file: &'w str,
        report: &'w str,
    },
    /// Asks for the quickest flow of `amount`, at least 0, in a network. At most `augments` walks are pushed, at least 1.
    Quick {
        file: &'w str,
        amount: Q,
        augments: u64,
    },
    /// Asks for the summary of a run as in `Solve`, in the generated ladder of a number with 1 to 30 rungs.
    Gen {
        number: u64,
        rungs: u32,
        horizon: Q,
        phases: u64,
        patterns: u64,
    },
    /// Asks for the settled form of a flows file's thin flow, for the sets of the labels at departure 0 of a network.
    Settle {
        file: &'w str,
        flows: &'w str,
    },
    /// Asks for the report of the run that continues another report's flow up to `horizon`, which is at least 0. The run has at most
    /// `phases` further phases, each of which tries at most `patterns` patterns. Both are at least 1.
    Resume {
        file: &'w str,
        report: &'w str,
        horizon: Q,
        phases: u64,
        patterns: u64,
    },
    /// Asks for the loading along the routes of a routes file, up to `horizon`, which is at least 0.
    Routes {
        file: &'w str,
        routes: &'w str,
        horizon: Q,
    },
}

// Reads `solve NET --horizon Q [--phases N] [--patterns N]`.
fn solve<'w>(matches: &ArgMatches<'w>) -> Option<Request<'w>>
    ensures { asked Task.Solve (rows_in matches.now) ≡ option_map requested result }
{
    Some(Request::Solve {
        file: file_of(matches, 0)?,
        horizon: horizon_of(matches)?,
        phases: phases_of(matches)?,
        patterns: patterns_of(matches)?,
    })
}

// Reads `solve NET --forever [--phases N] [--patterns N]`.
fn solve_forever<'w>(matches: &ArgMatches<'w>) -> Option<Request<'w>>
    ensures { asked Task.SolveForever (rows_in matches.now) ≡ option_map requested result }
{
    Some(Request::SolveForever {
        file: file_of(matches, 0)?,
        phases: phases_of(matches)?,
        patterns: patterns_of(matches)?,
    })
}

// Reads `show NET`.
fn show<'w>(matches: &ArgMatches<'w>) -> Option<Request<'w>>
    ensures { asked Task.Show (rows_in matches.now) ≡ option_map requested result }
{
    Some(Request::Show {
        file: file_of(matches, 0)?,
    })
}

// Reads `load NET LOADS --horizon Q`.
fn load<'w>(matches: &ArgMatches<'w>) -> Option<Request<'w>>
    ensures { asked Task.Load (rows_in matches.now) ≡ option_map requested result }
{
    Some(Request::Load {
        file: file_of(matches, 0)?,
        loads: file_of(matches, 1)?,
        horizon: horizon_of(matches)?,
    })
}

// Reads `check NET REPORT`.
fn check<'w>(matches: &ArgMatches<'w>) -> Option<Request<'w>>
    ensures { asked Task.Check (rows_in matches.now) ≡ option_map requested result }
{
    Some(Request::Check {
        file: file_of(matches, 0)?,
        report: file_of(matches, 1)?,
    })
}

// Reads `quick NET --amount Q [--augments N]`.
fn quick<'w>(matches: &ArgMatches<'w>) -> Option<Request<'w>>
    ensures { asked Task.Quick (rows_in matches.now) ≡ option_map requested result }
{
    Some(Request::Quick {
        file: file_of(matches, 0)?,
        amount: amount_of(matches)?,
        augments: augments_of(matches)?,
    })
}

// Reads `gen --number N --rungs N --horizon Q [--phases N] [--patterns N]`.
fn generate<'w>(matches: &ArgMatches<'w>) -> Option<Request<'w>>
    ensures { asked Task.Gen (rows_in matches.now) ≡ option_map requested result }
{
    Some(Request::Gen {
        number: number_of(matches)?,
        rungs: rungs_of(matches)?,
        horizon: horizon_of(matches)?,
        phases: phases_of(matches)?,
        patterns: patterns_of(matches)?,
    })
}

// Reads `settle NET FLOWS`.
fn settle<'w>(matches: &ArgMatches<'w>) -> Option<Request<'w>>
    ensures { asked Task.Settle (rows_in matches.now) ≡ option_map requested result }
{
    Some(Request::Settle {
        file: file_of(matches, 0)?,
        flows: file_of(matches, 1)?,
    })
}

// Reads `resume NET REPORT --horizon Q [--phases N] [--patterns N]`.
fn resume<'w>(matches: &ArgMatches<'w>) -> Option<Request<'w>>
    ensures { asked Task.Resume (rows_in matches.now) ≡ option_map requested result }
{
    Some(Request::Resume {
        file: file_of(matches, 0)?,
        report: file_of(matches, 1)?,
        horizon: horizon_of(matches)?,
        phases: phases_of(matches)?,
        patterns: patterns_of(matches)?,
    })
}

// Reads `routes NET ROUTES --horizon Q`.
fn routes<'w>(matches: &ArgMatches<'w>) -> Option<Request<'w>>
    ensures { asked Task.Routes (rows_in matches.now) ≡ option_map requested result }
{
    Some(Request::Routes {
        file: file_of(matches, 0)?,
        routes: file_of(matches, 1)?,
        horizon: horizon_of(matches)?,
    })
}

/// Returns the request of the matches. Returns `None` if no command fits them, or a number is outside its limits.
pub(crate) fn request_of<'w>(matches: &ArgMatches<'w>) -> Option<Request<'w>>
    ensures { request_in (rows_in matches.now) ≡ option_map requested result }
{
    match task_of(matches)? {
        Task::Solve => solve(matches),
        Task::SolveForever => solve_forever(matches),
        Task::Show => show(matches),
        Task::Load => load(matches),
        Task::Check => check(matches),
        Task::Quick => quick(matches),
        Task::Gen => generate(matches),
        Task::Settle => settle(matches),
        Task::Resume => resume(matches),
        Task::Routes => routes(matches),
    }
}
