// A listed pattern near the base: a guess of slopes begins with it, and bounds of ranks go by it. Nothing depends on how near it is.
ghost use Rattle.std.specs.Prelude.{◌<◌, List, Bool, length, IfOk, IfSome};
ghost use Rattle.nf_model.specs.ThinFlow.{Sets};
ghost use Rattle.nf_model.specs.Pattern.{IsPattern};
ghost use Rattle.nf_pattern.specs.Given.{Enumerates};
ghost use Rattle.nf_thin_rank.specs.Posing.{IsPosed, IsListedFor, IsPatternFor};

use crate::listings::listing;
use crate::ranking::Ranking;
use nf_graph::LinkId;
use nf_model::State;
use nf_pattern::{Pattern, Patterns};
use nf_thin_guess::mended;
use std::alloc::{AllocError, Global};

// Returns a copy of the next listed pattern, or `None` if there is none. Fails if an allocation fails.
fn copy_next(alloc: Global, patterns: &mut Patterns) -> Result<Option<Pattern>, AllocError>
    ensures { IfOk result (λ given. Enumerates patterns.old given patterns.new) }
{
    match patterns.next() {
        Some(pattern) => {
            let pattern = pattern.copy(alloc)?;
            Ok(Some(pattern))
        }
        None => Ok(None),
    }
}

/// Returns a listed pattern near `base`, which need not be the ranking's base, or `None` if there is no listed pattern. It mostly takes no
/// enumeration, even if the first listed pattern is far from the base. Fails if an allocation fails.
pub fn near_listed(
    alloc: Global,
    ranking: &Ranking,
    base: &Pattern,
) -> Result<Option<Pattern>, AllocError>
    requires ranking { IsPosed ranking.now }
    requires base { IsPatternFor ranking.now base.now }
    ensures { IfOk result (λ found. IfSome found (λ near. IsListedFor ranking.now near)) }
{
    let near = mended(alloc, ranking.net, ranking.sets, base)?;
    let mut patterns = listing(alloc, ranking, &near)?;
    copy_next(alloc, &mut patterns)
}

// Makes the link Tight if it has a state.
fn tighten(link: LinkId, pattern: &mut Pattern)
    requires { link < length pattern.old }
    ensures { (sets : Sets) (unbounded : List Bool) → IsPattern sets unbounded pattern.old
        → IsPattern sets unbounded pattern.new }
{
    if pattern.state(link).is_none() {
        return;
    }
    pattern.set(link, Some(State::Tight));
}

// Returns the pattern in which each link with a state is Tight. Fails if an allocation fails.
fn all_tight(alloc: Global, ranking: &Ranking) -> Result<Pattern, AllocError>
    requires { IsPosed ranking.now }
    ensures { IfOk result (λ tight. IsPatternFor ranking.now tight) }
{
    let mut tight = ranking.base.copy(alloc)?;
    for e in 0..ranking.net.link_count() {
        tighten(LinkId(e), &mut tight);
    }
    Ok(tight)
}

/// Returns a listed pattern with many Tight links, as far as they close no cycle, or `None` if there is no listed pattern. Fails if an
/// allocation fails.
pub(crate) fn tight_listed(alloc: Global, ranking: &Ranking) -> Result<Option<Pattern>, AllocError>
    requires { IsPosed ranking.now }
    ensures { IfOk result (λ found. IfSome found (λ tight. IsListedFor ranking.now tight)) }
{
    let tight = all_tight(alloc, ranking)?;
    near_listed(alloc, ranking, &tight)
}
