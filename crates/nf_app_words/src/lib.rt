//! Reads the command line. Clap splits its words, a table of commands determines the command that they name and fit, and the request holds
//! that command's files and numbers.
#![tactic(auto)]

ghost use Rattle.std.specs.Prelude.{◌≡◌, option_map, IfOk, IfSome};
ghost use Rattle.nf_edge.specs.Names.{texts};
ghost use Rattle.nf_app_words.specs.Examples.{WordsAreRead};
ghost use Rattle.nf_app_words.specs.Requests.{CanBeAsked, request_of};
ghost use Rattle.nf_app_words.specs.RequestViews.{requested};

mod command_line;
mod commands;
mod given;
mod numbers;
mod request;

use command_line::match_words;
pub use numbers::{USUAL_PATTERNS, USUAL_PHASES};
pub use request::Request;
use request::request_of;
use std::alloc::{AllocError, Global};

/// Returns the request of the words, or `None` if they are not a request. The first word is the program's name. Fails if an allocation
/// fails.
pub fn read_request(alloc: Global, words: &[String]) -> Result<Option<Request>, AllocError>
    ensures value { IfOk result
        (λ request. request_of (texts words.now) ≡ option_map requested request) }
    ensures can_be { IfOk result
        (λ request. IfSome request (λ request. CanBeAsked (requested request))) }
{
    match match_words(alloc, words)? {
        Some(matches) => Ok(request_of(&matches)),
        None => Ok(None),
    }
}

/// Shows the requests of some example words.
pub fn words_are_read()
    ensures { WordsAreRead }
{}
