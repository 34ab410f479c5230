// The numbers of the command line.
ghost use Rattle.std.specs.Prelude.{◌≡◌, ◌≤◌, IfSome};
ghost use Rattle.nf_frac_words.specs.Digits.{are_digits};
ghost use Rattle.nf_app_words.specs.MatchViews.{rows_in};
ghost use Rattle.nf_app_words.specs.Numbers.{count_in, count_between, is_between, is_whole, not_negative_in, not_negative_of, usual_or_count_in};
ghost use Rattle.nf_app_words.specs.Requests.{amount_in, augments_in, horizon_in, number_asked, patterns_in, phases_in, rungs_in};

use crate::given::word_of;
use clap::ArgMatches;
use nf_frac::Q;

/// The greatest number of phases.
const MOST_PHASES: u64 = 100_000;

/// The default number of phases.
pub const USUAL_PHASES: u64 = 10_000;

/// The greatest number of patterns for each phase.
const MOST_PATTERNS: u64 = 1_000_000;

/// The default number of patterns for each phase.
pub const USUAL_PATTERNS: u64 = 100_000;

/// The greatest number of walks that a quickest flow may push.
const MOST_AUGMENTS: u64 = 100_000;

/// The default number of walks.
const USUAL_AUGMENTS: u64 = 10_000;

/// The greatest number of rungs of a ladder.
const MOST_RUNGS: u64 = 30;

// Returns the number that a word writes, if it is at least 0.
#[tactic(auto, using(nf_frac::proofs::Comparisons::le_by_order))]
fn read_not_negative(word: &str) -> Option<Q>
    ensures { result ≡ not_negative_of word.now }
{
    match Q::read(word.as_bytes()) {
        Ok(number) if Q::zero() <= number => Some(number),
        _ => None,
    }
}

// Returns the number of an option, if the option is given and its number is at least 0.
fn not_negative_of(matches: &ArgMatches, name: &str) -> Option<Q>
    ensures { result ≡ not_negative_in name.now (rows_in matches.now) }
{
    let word = word_of(matches, name)?;
    read_not_negative(word)
}

fn are_digits(word: &[u8]) -> bool
    ensures { result ≡ are_digits word.now }
{
    word.iter().all(|c| c.is_ascii_digit())
}

// Returns whether a word consists of decimal digits, at least one.
fn is_whole(word: &[u8]) -> bool
    ensures { result ≡ is_whole word.now }
{
    !word.is_empty() && are_digits(word)
}

fn is_between(least: u64, most: u64, count: u64) -> bool
    ensures { result ≡ is_between least most count }
{
    least <= count && count <= most
}

// Returns the count that a word writes, if it is between `least` and `most`. Leading zeros are allowed.
fn read_count(word: &str, least: u64, most: u64) -> Option<u64>
    ensures value { result ≡ count_between least most word.now }
    ensures most { IfSome result (λ count. count ≤ most) }
{
    if !is_whole(word.as_bytes()) {
        return None;
    }
    match word.parse::<u64>() {
        Ok(count) if is_between(least, most, count) => Some(count),
        _ => None,
    }
}

// Returns the count of an option, if the option is given and its count is between `least` and `most`.
fn count_of(matches: &ArgMatches, name: &str, least: u64, most: u64) -> Option<u64>
    ensures value { result ≡ count_in least most name.now (rows_in matches.now) }
    ensures most { IfSome result (λ count. count ≤ most) }
{
    let word = word_of(matches, name)?;
    read_count(word, least, most)
}

// Returns the count of an option, if it is between 1 and `most`. The default is `usual`.
fn usual_or_count_of(matches: &ArgMatches, name: &str, usual: u64, most: u64) -> Option<u64>
    ensures { result ≡ usual_or_count_in usual most name.now (rows_in matches.now) }
{
    match word_of(matches, name) {
        Some(word) => read_count(word, 1, most),
        None => Some(usual),
    }
}

/// Returns the horizon.
#[tactic(auto, unfolding(crate::specs::Requests::horizon_in))]
pub(crate) fn horizon_of(matches: &ArgMatches) -> Option<Q>
    ensures { result ≡ horizon_in (rows_in matches.now) }
{
    not_negative_of(matches, "horizon")
}

/// Returns the greatest number of phases of a run.
#[tactic(auto, unfolding(crate::specs::Requests::phases_in))]
pub(crate) fn phases_of(matches: &ArgMatches) -> Option<u64>
    ensures { result ≡ phases_in (rows_in matches.now) }
{
    usual_or_count_of(matches, "phases", USUAL_PHASES, MOST_PHASES)
}

/// Returns the greatest number of patterns for each phase.
#[tactic(auto, unfolding(crate::specs::Requests::patterns_in))]
pub(crate) fn patterns_of(matches: &ArgMatches) -> Option<u64>
    ensures { result ≡ patterns_in (rows_in matches.now) }
{
    usual_or_count_of(matches, "patterns", USUAL_PATTERNS, MOST_PATTERNS)
}

/// Returns the amount.
#[tactic(auto, unfolding(crate::specs::Requests::amount_in))]
pub(crate) fn amount_of(matches: &ArgMatches) -> Option<Q>
    ensures { result ≡ amount_in (rows_in matches.now) }
{
    not_negative_of(matches, "amount")
}

/// Returns the greatest number of walks that a quickest flow may push.
#[tactic(auto, unfolding(crate::specs::Requests::augments_in))]
pub(crate) fn augments_of(matches: &ArgMatches) -> Option<u64>
    ensures { result ≡ augments_in (rows_in matches.now) }
{
    usual_or_count_of(matches, "augments", USUAL_AUGMENTS, MOST_AUGMENTS)
}

/// Returns the number of a ladder.
#[tactic(auto, unfolding(crate::specs::Requests::number_asked))]
pub(crate) fn number_of(matches: &ArgMatches) -> Option<u64>
    ensures { result ≡ number_asked (rows_in matches.now) }
{
    count_of(matches, "number", 0, u64::MAX)
}

/// Returns the number of rungs of a ladder.
#[tactic(auto, unfolding(crate::specs::Requests::rungs_in))]
pub(crate) fn rungs_of(matches: &ArgMatches) -> Option<u32>
    ensures { result ≡ rungs_in (rows_in matches.now) }
{
    let rungs = count_of(matches, "rungs", 1, MOST_RUNGS)?;
    Some(rungs as u32)
}
