// The words of the command line, as clap reads them.
ghost use Rattle.std.specs.Prelude.{◌≡◌, IfOk, map, option_map};
ghost use Rattle.clap.specs.Simple.{with_rule};
ghost use Rattle.nf_edge.specs.Names.{texts};
ghost use Rattle.nf_app_words.specs.CommandLine.{bare, nfot, command_rule, files_rule, flag_rule, with_options, matches_on};
ghost use Rattle.nf_app_words.specs.MatchViews.{app_in, rows_in};

use clap::error::ErrorKind;
use clap::{Arg, ArgAction, ArgMatches, Command};
use std::alloc::{AllocError, Global};

/// The options with one value.
pub(crate) static OPTIONS: [&str; 7] = [
    "horizon", "phases", "patterns", "amount", "augments", "number", "rungs",
];

// Returns the command with its required positional argument COMMAND.
fn start_command<'w>(alloc: Global) -> Result<Command<'w>, AllocError>
    ensures { IfOk result (λ command. app_in command ≡ with_rule bare command_rule) }
{
    let command = Arg::new(alloc, "command").required(true);
    Command::new(alloc, "nfot")
        .disable_help_flag(true)
        .arg(command)
}

// Adds an option `--name` with one value for each name.
fn with_options<'w>(
    alloc: Global,
    mut command: Command<'w>,
    names: &[&'static str],
) -> Result<Command<'w>, AllocError>
    ensures { IfOk result (λ more. app_in more
        ≡ with_options (map (λ name. name.now) names.now) (app_in command.entry)) }
{
    for name in names {
        let option = Arg::new(alloc, name).long(name);
        command = command.arg(option)?;
    }
    Ok(command)
}

// Adds a flag `--name` without a value.
fn with_flag<'w>(
    alloc: Global,
    command: Command<'w>,
    name: &'static str,
) -> Result<Command<'w>, AllocError>
    ensures { IfOk result
        (λ more. app_in more ≡ with_rule (app_in command.entry) (flag_rule name.now)) }
{
    let flag = Arg::new(alloc, name).long(name).action(ArgAction::SetTrue);
    command.arg(flag)
}

// Adds the last positional argument FILES, with any number of values.
fn with_files<'w>(alloc: Global, command: Command<'w>) -> Result<Command<'w>, AllocError>
    ensures { IfOk result (λ more. app_in more ≡ with_rule (app_in command.entry) files_rule) }
{
    let files = Arg::new(alloc, "files").num_args(0..);
    command.arg(files)
}

// Returns the command `nfot` with its arguments.
fn command_line<'w>(alloc: Global) -> Result<Command<'w>, AllocError>
    ensures { IfOk result (λ command. app_in command ≡ nfot) }
{
    let command = start_command(alloc)?;
    let command = with_options(alloc, command, OPTIONS.as_slice())?;
    let command = with_flag(alloc, command, "forever")?;
    with_files(alloc, command)
}

/// Returns clap's matches of the words, or `None` if clap rejects them. The first word is the program's name. Fails if an allocation fails.
pub fn match_words<'w>(
    alloc: Global,
    words: &'w [String],
) -> Result<Option<ArgMatches<'w>>, AllocError>
    ensures { IfOk result (λ matches. matches_on (texts words.now) ≡ option_map rows_in matches) }
{
    let command = command_line(alloc)?;
    match command.try_get_matches_from(words) {
        Ok(matches) => Ok(Some(matches)),
        Err(error) => match error.kind() {
            ErrorKind::OutOfMemory => Err(AllocError),
            _ => Ok(None),
        },
    }
}
