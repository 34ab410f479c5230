// Words and files of clap's matches, by argument name.
ghost use Rattle.std.specs.Prelude.{◌≡◌, length, slice_get};
ghost use Rattle.nf_app_words.specs.CommandLine.{word_in, files_in, file_in};
ghost use Rattle.nf_app_words.specs.Commands.{is_there, is_flagged, is_named};
ghost use Rattle.nf_app_words.specs.MatchViews.{rows_in, text_in};

use clap::ArgMatches;

/// Returns the word of an argument, if the argument is given.
pub fn word_of<'w>(matches: &ArgMatches<'w>, name: &str) -> Option<&'w str>
    ensures { text_in result ≡ word_in name.now (rows_in matches.now) }
{
    matches.get_str(name)
}

/// Returns whether the words give an option.
pub(crate) fn is_there(matches: &ArgMatches, name: &str) -> bool
    ensures { result ≡ is_there name.now (rows_in matches.now) }
{
    word_of(matches, name).is_some()
}

/// Returns whether the words give a flag.
pub(crate) fn is_flagged(matches: &ArgMatches, name: &str) -> bool
    ensures { result ≡ is_flagged name.now (rows_in matches.now) }
{
    match word_of(matches, name) {
        Some(word) => word == "true",
        None => false,
    }
}

/// Returns whether the word of COMMAND is `name`.
pub(crate) fn is_named(matches: &ArgMatches, name: &str) -> bool
    ensures { result ≡ is_named name.now (rows_in matches.now) }
{
    match word_of(matches, "command") {
        Some(word) => word == name,
        None => false,
    }
}

/// Returns the number of files.
pub(crate) fn count_files(matches: &ArgMatches) -> usize
    ensures { result ≡ length (files_in (rows_in matches.now)) }
{
    match matches.get_strs("files") {
        Some(files) => files.len(),
        None => 0,
    }
}

// Returns the file at an index, if there is one.
fn file_at<'w>(files: &[&'w str], place: usize) -> Option<&'w str>
    ensures { text_in result ≡ text_in (slice_get files.now place) }
{
    match files.get(place) {
        Some(file) => Some(*file),
        None => None,
    }
}

/// Returns the file at an index, counted from 0, if there is one.
pub fn file_of<'w>(matches: &ArgMatches<'w>, place: usize) -> Option<&'w str>
    ensures { text_in result ≡ file_in place (rows_in matches.now) }
{
    match matches.get_strs("files") {
        Some(files) => file_at(files, place),
        None => None,
    }
}
