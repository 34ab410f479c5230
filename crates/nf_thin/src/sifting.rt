// Sifting of listed patterns by slopes of a thin flow: some are rejected without a table.
ghost use Rattle.std.specs.Prelude.{◌≤◌, IfOk, IfSome};
ghost use Rattle.nf_thin_equation_laws.specs.Equations.{IsPatternIn};
ghost use Rattle.nf_thin_rank.specs.Posing.{IsPosed, IsListedFor};
ghost use Rattle.nf_thin.specs.Posing.{GuidesFor, SiftsFor};

use crate::cycles::hold_no_cycle;
use crate::fault::SearchFault;
use crate::known::known_by;
use crate::problem::Problem;
use crate::trying_next::try_next;
use crate::vain::Vain;
use nf_pattern::Pattern;
use nf_thin_balance::{Scaled, ruled_out_at, scaled_flows};
use nf_thin_guess::guess;
use nf_thin_one::{ThinFlow, is_one_pattern};
use std::alloc::{AllocError, Global};

/// A pattern known to be accepted, with its flows and slopes. `scaled` has ranges of the supply, and of the flows that fill the links at
/// these slopes.
#[derive(Drop)]
pub(crate) struct Guide {
    pub(crate) known: ThinFlow,
    pub(crate) scaled: Scaled,
}

/// Sifts the next pattern. Returns its thin flow without a table if it is the known pattern. Otherwise rejects it if no flow within its
/// ranges is conserved at every node, and tries it if one may be. `sift_next` does not record passing operations of skipped patterns.
/// Refuses if the budget is spent.
pub(crate) fn sift_next(
    alloc: Global,
    problem: &Problem,
    guide: &Guide,
    pattern: &Pattern,
    vain: &mut Vain,
) -> Result<Option<ThinFlow>, SearchFault>
    requires problem { IsPosed problem.now.ranking }
    requires listed { IsListedFor problem.now.ranking pattern.now }
    requires guide { GuidesFor problem.now guide.now }
    requires within { vain.old.tried ≤ problem.now.ranking.budget }
    ensures { SiftsFor problem.now pattern.now vain.old vain.new result }
{
    let budget = problem.ranking.budget;
    if vain.tried == budget {
        return Err(SearchFault::Budget { tried: budget });
    }
    if is_one_pattern(problem.ranking.net, &guide.known.pattern, pattern) {
        vain.tried += 1;
        let found = guide.known.copy(alloc)?;
        return Ok(Some(found));
    }
    let Some(node) = ruled_out_at(
        alloc,
        problem.ranking.net,
        problem.ranking.sets,
        &guide.scaled,
        pattern,
        vain.node,
    )?
    else {
        return try_next(alloc, problem, pattern, vain);
    };
    vain.tried += 1;
    vain.node = node;
    Ok(None)
}

/// Returns the guide by a pattern guessed from `first`, or `None`. A returned guide's pattern is accepted, each node is entered, and the
/// active links hold no cycle. Fails if an allocation fails.
pub(crate) fn guide_of(
    alloc: Global,
    problem: &Problem,
    first: &Pattern,
) -> Result<Option<Guide>, AllocError>
    requires problem { IsPosed problem.now.ranking }
    requires first { IsPatternIn problem.now.ranking.net.now.net
        problem.now.ranking.sets.now first.now }
    ensures { IfOk result (λ found. IfSome found (λ guide. GuidesFor problem.now guide)) }
{
    let net = problem.ranking.net;
    let sets = problem.ranking.sets;
    let rate = problem.rate;
    if !hold_no_cycle(alloc, net, sets)? {
        return Ok(None);
    }
    let Some(last) = guess(alloc, net, sets, rate, first)? else {
        return Ok(None);
    };
    let Some(known) = known_by(alloc, problem, last)? else {
        return Ok(None);
    };
    let scaled = scaled_flows(alloc, net, sets, rate, &known.slopes)?;
    Ok(Some(Guide { known, scaled }))
}
