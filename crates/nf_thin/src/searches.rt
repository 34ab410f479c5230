// The search for a thin flow, by the first accepted pattern of the listing.
ghost use Rattle.std.specs.Prelude.{◌≡◌, IfOk};
ghost use Rattle.nf_frac_def.specs.Passing.{passes_Q};
ghost use Rattle.nf_model.specs.Network.{unbounded as unbounded_of};
ghost use Rattle.nf_model.specs.ThinFlow.{IsThinFlow};
ghost use Rattle.nf_model.specs.Pattern.{IsPattern};
ghost use Rattle.nf_thin_def.specs.Search.{IsSearch};
ghost use Rattle.nf_thin_rank.specs.Questions.{AreSetsOf, AsksOf};
ghost use Rattle.nf_thin_rank.specs.Posing.{IsPosed};
ghost use Rattle.nf_thin.specs.Searching.{Searches, SlopesAreOnly};
ghost use Rattle.nf_thin.specs.Posing.{IsAnswerTo};
ghost use Rattle.nf_thin.specs.Finding.{Finds, FindsAt};

use crate::fault::SearchFault;
use crate::finding::find_by_slopes;
use crate::problem::Problem;
use crate::thin::Thin;
use crate::trying_next::try_next;
use crate::vain::Vain;
use nf_frac::Q;
use nf_graph::{LinkSets, NodeId};
use nf_net::Network;
use nf_pattern::{Pattern, Patterns};
use nf_thin_one::ThinFlow;
use nf_thin_rank::{Ranking, listing};
use std::alloc::Global;

// Tries the patterns of a listing from its start, until one is accepted. Returns its thin flow and its place.
fn go_through(
    alloc: Global,
    problem: &Problem,
    patterns: &mut Patterns,
) -> Result<(ThinFlow, u64), SearchFault>
    requires problem { IsPosed problem.now.ranking }
    requires question { AsksOf problem.now.ranking.net.now.net problem.now.ranking.sets.now
        patterns.old }
    requires base { patterns.old.question.base ≡ problem.now.ranking.base.now }
    ensures { FindsAt (IsAnswerTo problem.now) problem.now.ranking.budget result }
{
    let mut vain = Vain {
        tried: 0,
        passed: None,
        node: NodeId(0),
    };
    while let Some(pattern) = patterns.next() {
        let found = try_next(alloc, problem, pattern, &mut vain)?;
        if let Some(thin) = found {
            return Ok((thin, vain.tried));
        }
    }
    Err(vain.fault())
}

// Searches by the whole listing. Returns the thin flow and its place.
fn search_all(alloc: Global, problem: &Problem) -> Result<(ThinFlow, u64), SearchFault>
    requires { IsPosed problem.now.ranking }
    ensures { FindsAt (IsAnswerTo problem.now) problem.now.ranking.budget result }
{
    let mut patterns = listing(alloc, &problem.ranking, problem.ranking.base)?;
    go_through(alloc, problem, &mut patterns)
}

/// Searches for a thin flow with resetting. Tries the listed patterns in their order by changes from `base`, until one is accepted. A
/// pattern is accepted if its equations have exactly one solution, this solution meets its inequalities, and no operation of its table and
/// verdict passes. `rate` is the supply, an amount per unit of time.
///
/// - `Budget`: exactly if the listing is longer than the budget and none of its first `budget` patterns is accepted.
/// - `Passed`: exactly if the listing is not longer, none is accepted, and an operation passes. It names the first such pattern.
/// - `NoPattern`: exactly if the listing is not longer, none is accepted, and no operation passes.
/// - `Memory`: an allocation failed.
///
/// The base must have a state for exactly the active links that are not resetting, and Full for no unbounded link. No unbounded link may be
/// resetting.
pub fn search(
    alloc: Global,
    net: &Network,
    sets: &LinkSets,
    rate: Q,
    base: &Pattern,
    budget: u64,
) -> Result<Thin, SearchFault>
    requires sets { AreSetsOf net.now.net sets.now }
    requires base { IsPattern sets.now (unbounded_of net.now.net) base.now }
    ensures search { Searches
        (IsSearch passes_Q net.now.net sets.now rate base.now budget) budget result }
    ensures thin { IfOk result
        (λ thin. IsThinFlow net.now.net sets.now rate thin.flows.items thin.labels.items) }
    ensures only { IfOk result (λ thin. SlopesAreOnly net.now.net sets.now rate thin.labels.items) }
{
    // Proof: the network is well formed.
    net.recall();
    let problem = Problem {
        ranking: Ranking {
            net,
            sets,
            base,
            budget,
        },
        rate,
    };
    let (found, place) = search_all(alloc, &problem)?;
    let ThinFlow {
        flows,
        slopes,
        pattern,
    } = found;
    Ok(Thin {
        flows,
        labels: slopes,
        pattern,
        place,
    })
}

// Searches by the slopes of a thin flow, and by the whole listing if that finds no answer.
fn find_or_search(alloc: Global, problem: &Problem) -> Result<ThinFlow, SearchFault>
    requires { IsPosed problem.now.ranking }
    ensures { Finds (IsAnswerTo problem.now) problem.now.ranking.budget result }
{
    if let Some(found) = find_by_slopes(alloc, problem)? {
        return Ok(found);
    }
    let (found, _) = search_all(alloc, problem)?;
    Ok(found)
}

/// Returns the thin flow that `search` finds, without its place. Refuses if `search` does, with the same cause, or if an allocation fails.
/// If slopes of a thin flow are known, only the listed patterns with the states that the slopes force are tried.
pub fn find_thin(
    alloc: Global,
    net: &Network,
    sets: &LinkSets,
    rate: Q,
    base: &Pattern,
    budget: u64,
) -> Result<ThinFlow, SearchFault>
    requires sets { AreSetsOf net.now.net sets.now }
    requires base { IsPattern sets.now (unbounded_of net.now.net) base.now }
    ensures finds { Finds
        (IsSearch passes_Q net.now.net sets.now rate base.now budget) budget result }
    ensures thin { IfOk result
        (λ found. IsThinFlow net.now.net sets.now rate found.flows.items found.slopes.items) }
    ensures only { IfOk result
        (λ found. SlopesAreOnly net.now.net sets.now rate found.slopes.items) }
{
    // Proof: the network is well formed.
    net.recall();
    let problem = Problem {
        ranking: Ranking {
            net,
            sets,
            base,
            budget,
        },
        rate,
    };
    find_or_search(alloc, &problem)
}
