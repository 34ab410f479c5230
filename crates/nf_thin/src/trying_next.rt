// One step of the search, within the budget.
ghost use Rattle.std.specs.Prelude.{◌≤◌};
ghost use Rattle.nf_thin_equation_laws.specs.Equations.{IsPatternIn};
ghost use Rattle.nf_thin.specs.Posing.{TriesFor};

use crate::fault::SearchFault;
use crate::problem::Problem;
use crate::vain::Vain;
use nf_frac::Halt;
use nf_pattern::Pattern;
use nf_thin_one::{ThinFlow, try_one};
use std::alloc::Global;

/// Counts the next pattern and tries it. Returns its thin flow, or `None` if the pattern is not accepted. Refuses if the budget is spent.
pub(crate) fn try_next(
    alloc: Global,
    problem: &Problem,
    pattern: &Pattern,
    vain: &mut Vain,
) -> Result<Option<ThinFlow>, SearchFault>
    requires pattern { IsPatternIn problem.now.ranking.net.now.net problem.now.ranking.sets.now
        pattern.now }
    requires within { vain.old.tried ≤ problem.now.ranking.budget }
    ensures { TriesFor problem.now pattern.now vain.old vain.new result }
{
    let budget = problem.ranking.budget;
    if vain.tried == budget {
        return Err(SearchFault::Budget { tried: budget });
    }
    vain.tried += 1;
    match try_one(
        alloc,
        problem.ranking.net,
        problem.ranking.sets,
        problem.rate,
        pattern,
    ) {
        Ok(found) => Ok(found),
        Err(Halt::Passed(at)) => {
            vain.note(at);
            Ok(None)
        }
        Err(Halt::Memory) => Err(SearchFault::Memory),
    }
}
