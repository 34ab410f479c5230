// The commands, with their files and options.
ghost use Rattle.std.specs.Prelude.{◌≡◌, ◌&&◌, map};
ghost use Rattle.nf_app_words.specs.CommandLine.{options};
ghost use Rattle.nf_app_words.specs.Commands.{are_met, commands, first_task, fits, is_met, is_named, need_of};
ghost use Rattle.nf_app_words.specs.MatchViews.{line_of, rows_in, wanted_of};

use crate::command_line::OPTIONS;
use crate::given::{count_files, is_flagged, is_named, is_there};
use clap::ArgMatches;

/// The action of a command.
#[derive(Clone, Copy)]
pub enum Task {
    /// Writes the report of a run up to a horizon.
    Solve,
    /// Writes a run without a horizon.
    SolveForever,
    /// Writes the canonical text of a network.
    Show,
    /// Writes the loading of each link by a given inflow.
    Load,
    /// Decides whether a report's flow is an equilibrium.
    Check,
    /// Writes the quickest flow of an amount.
    Quick,
    /// Solves a generated ladder.
    Gen,
    /// Writes the settled form of a thin flow.
    Settle,
    /// Writes the report that continues another report.
    Resume,
    /// Writes the loading along given routes.
    Routes,
}

/// The need of an option or flag of a command: the command requires it, or allows it.
#[derive(Clone, Copy)]
pub(crate) enum Need {
    Required,
    Further,
}

/// A row of the table of commands: name, action, number of files, and the options and flags with their needs.
#[derive(Clone, Copy)]
pub(crate) struct Line {
    name: &'static str,
    task: Task,
    files: usize,
    options: &'static [(&'static str, Need)],
}

/// The table of commands. `solve` takes either a horizon or the flag `--forever`.
static COMMANDS: [Line; 10] = [
    Line {
        name: "solve",
        task: Task::Solve,
        files: 1,
        options: &[
            ("horizon", Need::Required),
            ("phases", Need::Further),
            ("patterns", Need::Further),
        ],
    },
    Line {
        name: "solve",
        task: Task::SolveForever,
        files: 1,
        options: &[
            ("forever", Need::Required),
            ("phases", Need::Further),
            ("patterns", Need::Further),
        ],
    },
    Line {
        name: "show",
        task: Task::Show,
        files: 1,
        options: &[],
    },
    Line {
        name: "load",
        task: Task::Load,
        files: 2,
        options: &[("horizon", Need::Required)],
    },
    Line {
        name: "check",
        task: Task::Check,
        files: 2,
        options: &[],
    },
    Line {
        name: "quick",
        task: Task::Quick,
        files: 1,
        options: &[("amount", Need::Required), ("augments", Need::Further)],
    },
    Line {
        name: "gen",
        task: Task::Gen,
        files: 0,
        options: &[
            ("number", Need::Required),
            ("rungs", Need::Required),
            ("horizon", Need::Required),
            ("phases", Need::Further),
            ("patterns", Need::Further),
        ],
    },
    Line {
        name: "settle",
        task: Task::Settle,
        files: 2,
        options: &[],
    },
    Line {
        name: "resume",
        task: Task::Resume,
        files: 2,
        options: &[
            ("horizon", Need::Required),
            ("phases", Need::Further),
            ("patterns", Need::Further),
        ],
    },
    Line {
        name: "routes",
        task: Task::Routes,
        files: 2,
        options: &[("horizon", Need::Required)],
    },
];

// Returns the need of an option of the command, or `None` if the command does not have the option.
fn need_of(options: &[(&'static str, Need)], name: &str) -> Option<Need>
    ensures { result ≡ need_of (map wanted_of options.now) name.now }
{
    for option in options {
        if option.0 == name {
            return Some(option.1);
        }
    }
    None
}

// Returns whether an option that is given or omitted agrees with its need. An option without a need must be omitted.
fn is_met(need: Option<Need>, there: bool) -> bool
    ensures { result ≡ is_met need there }
{
    match need {
        Some(Need::Required) => there,
        Some(Need::Further) => true,
        None => !there,
    }
}

// Returns whether each of the named options agrees with its need.
fn are_met(matches: &ArgMatches, wanted: &[(&'static str, Need)], names: &[&'static str]) -> bool
    ensures { result ≡ are_met (map wanted_of wanted.now) (rows_in matches.now)
        (map (λ name. name.now) names.now) }
{
    for name in names {
        if !is_met(need_of(wanted, name), is_there(matches, name)) {
            return false;
        }
    }
    true
}

// Returns whether each option with one value agrees with its need.
fn options_met(matches: &ArgMatches, wanted: &[(&'static str, Need)]) -> bool
    ensures { result ≡ are_met (map wanted_of wanted.now) (rows_in matches.now) options }
{
    are_met(matches, wanted, OPTIONS.as_slice())
}

// Returns whether the words fit the row. The number of files must agree, and each required option must be given. No option may be given
// that the command does not have.
#[tactic(auto, unfolding(crate::specs::Commands::fits))]
fn fits(matches: &ArgMatches, line: &Line) -> bool
    ensures { result ≡ fits (line_of line.now) (rows_in matches.now) }
{
    count_files(matches) == line.files
        && options_met(matches, line.options)
        && is_met(
            need_of(line.options, "forever"),
            is_flagged(matches, "forever"),
        )
}

// Returns whether the words name the command of the row and fit the row.
fn is_command(matches: &ArgMatches, line: &Line) -> bool
    ensures { result ≡ (is_named line.now.name.now (rows_in matches.now)
        && fits (line_of line.now) (rows_in matches.now)) }
{
    is_named(matches, line.name) && fits(matches, line)
}

// Returns the action of the first row that the words name and fit, or `None` if there is none.
fn first_task(matches: &ArgMatches, table: &[Line]) -> Option<Task>
    ensures { result ≡ first_task (rows_in matches.now) (map line_of table.now) }
{
    for line in table {
        if is_command(matches, line) {
            return Some(line.task);
        }
    }
    None
}

/// Returns the action of the command that the words name and fit, or `None` if there is none.
pub fn task_of(matches: &ArgMatches) -> Option<Task>
    ensures { result ≡ first_task (rows_in matches.now) commands }
{
    first_task(matches, COMMANDS.as_slice())
}
