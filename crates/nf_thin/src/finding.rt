// The narrow search, by known slopes of a thin flow. It tries only listed patterns with the states that the slopes force.
ghost use Rattle.std.specs.Prelude.{◌≡◌, IfOk, IfSome, None};
ghost use Rattle.nf_model.specs.Network.{unbounded as unbounded_of};
ghost use Rattle.nf_thin_laws.specs.Forcing.{IsForcing};
ghost use Rattle.nf_pattern.specs.Given.{AtStart};
ghost use Rattle.nf_thin_narrow.specs.Asking.{question_left};
ghost use Rattle.nf_thin_rank.specs.Keeping.{walk_of};
ghost use Rattle.nf_thin_rank.specs.Posing.{IsPosed, question_in};
ghost use Rattle.nf_thin.specs.Posing.{IsAnswerTo, GuidesFor, NarrowFindsFor};
ghost use Rattle.nf_thin.specs.Finding.{FindsBy};

use crate::fault::SearchFault;
use crate::problem::Problem;
use crate::sifting::{Guide, guide_of, sift_next};
use crate::vain::Vain;
use nf_graph::NodeId;
use nf_pattern::{Pattern, Patterns};
use nf_thin_narrow::{fill, forced_by, narrow_listing};
use nf_thin_one::ThinFlow;
use nf_thin_rank::{Pace, Ranking, near_listed, unbounded_flags};
use std::alloc::{AllocError, Global};

/// A borrowed view of what a narrow search goes by: a guide, and the states that its slopes force.
#[derive(Clone, Copy)]
struct Narrow<'a> {
    guide: &'a Guide,
    forced: &'a Pattern,
}

// Tries the patterns left without the forced links, with the forced states put in, until one is accepted or its rank in the whole listing
// is beyond the budget. The caller lends `pace` and `whole`, a copy of the base, for the current pattern with its forced states.
fn try_narrow(
    alloc: Global,
    problem: &Problem,
    narrow: &Narrow,
    patterns: &mut Patterns,
    pace: &mut Pace,
    whole: &mut Pattern,
) -> Result<Option<ThinFlow>, SearchFault>
    requires problem { IsPosed problem.now.ranking }
    requires guide { GuidesFor problem.now narrow.now.guide.now }
    requires forcing { IsForcing problem.now.ranking.sets.now
        (unbounded_of problem.now.ranking.net.now.net) narrow.now.forced.now }
    requires question { patterns.old.question
        ≡ question_left narrow.now.forced.now (question_in problem.now.ranking) }
    requires start { patterns.old.last ≡ AtStart }
    requires pace { walk_of pace.old ≡ None }
    requires whole { whole.old ≡ problem.now.ranking.base.now }
    ensures { NarrowFindsFor problem.now narrow.now.forced.now result }
{
    let budget = problem.ranking.budget;
    let mut vain = Vain {
        tried: 0,
        passed: None,
        node: NodeId(0),
    };
    while let Some(part) = patterns.next() {
        fill(whole, narrow.forced, part, problem.ranking.net.link_count());
        let standing = pace.keep_up(alloc, &problem.ranking, whole, vain.tried)?;
        if standing.is_beyond() {
            return Err(SearchFault::Budget { tried: budget });
        }
        let found = sift_next(alloc, problem, narrow.guide, whole, &mut vain)?;
        if let Some(thin) = found {
            if standing.is_within(alloc, &problem.ranking, whole)? {
                return Ok(Some(thin));
            }
            return Err(SearchFault::Budget { tried: budget });
        }
    }
    Ok(None)
}

// Returns the listing of the patterns left without the links that have forced states. Fails if an allocation fails.
fn narrowed(alloc: Global, ranking: &Ranking, forced: &Pattern) -> Result<Patterns, AllocError>
    requires ranking { IsPosed ranking.now }
    requires forcing { IsForcing ranking.now.sets.now
        (unbounded_of ranking.now.net.now.net) forced.now }
    ensures { IfOk result (λ patterns. patterns
        ≡ record { question = question_left forced.now (question_in ranking.now); last = AtStart; place = 0 }) }
{
    let net = ranking.net;
    let unbounded = unbounded_flags(alloc, net)?;
    narrow_listing(alloc, net, ranking.sets, ranking.base, &unbounded, forced)
}

// Runs `try_narrow` from the start.
fn go_narrow(
    alloc: Global,
    problem: &Problem,
    narrow: &Narrow,
) -> Result<Option<ThinFlow>, SearchFault>
    requires problem { IsPosed problem.now.ranking }
    requires guide { GuidesFor problem.now narrow.now.guide.now }
    requires forcing { IsForcing problem.now.ranking.sets.now
        (unbounded_of problem.now.ranking.net.now.net) narrow.now.forced.now }
    ensures { NarrowFindsFor problem.now narrow.now.forced.now result }
{
    let mut whole = problem.ranking.base.copy(alloc)?;
    let mut patterns = narrowed(alloc, &problem.ranking, narrow.forced)?;
    let mut pace = Pace::start();
    try_narrow(alloc, problem, narrow, &mut patterns, &mut pace, &mut whole)
}

// Searches by a guide among the listed patterns with the states that its slopes force. Returns `None` if none of them is accepted.
fn find_by(alloc: Global, problem: &Problem, guide: &Guide) -> Result<Option<ThinFlow>, SearchFault>
    requires problem { IsPosed problem.now.ranking }
    requires guide { GuidesFor problem.now guide.now }
    ensures { FindsBy (IsAnswerTo problem.now) problem.now.ranking.budget result }
{
    let forced = forced_by(
        alloc,
        problem.ranking.net,
        &guide.known.slopes,
        problem.ranking.base,
    )?;
    let narrow = Narrow {
        guide,
        forced: &forced,
    };
    go_narrow(alloc, problem, &narrow)
}

// Returns a guide guessed from a listed pattern near the base, or `None`. Fails if an allocation fails.
fn guide_from_base(alloc: Global, problem: &Problem) -> Result<Option<Guide>, AllocError>
    requires { IsPosed problem.now.ranking }
    ensures { IfOk result (λ found. IfSome found (λ guide. GuidesFor problem.now guide)) }
{
    let Some(near) = near_listed(alloc, &problem.ranking, problem.ranking.base)? else {
        return Ok(None);
    };
    guide_of(alloc, problem, &near)
}

/// Searches by the slopes of a thin flow, guessed from a listed pattern near the base. Every returned thin flow and refusal is the answer
/// of `search`, except `Memory`, an allocation failure. Returns `None` if the slopes give no answer; the contract does not say when.
pub(crate) fn find_by_slopes(
    alloc: Global,
    problem: &Problem,
) -> Result<Option<ThinFlow>, SearchFault>
    requires { IsPosed problem.now.ranking }
    ensures { FindsBy (IsAnswerTo problem.now) problem.now.ranking.budget result }
{
    match guide_from_base(alloc, problem)? {
        Some(guide) => find_by(alloc, problem, &guide),
        None => Ok(None),
    }
}
