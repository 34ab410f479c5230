// The budget status of a listed pattern: whether its rank in the listing is within the budget.
ghost use Rattle.std.specs.Prelude.{◌≡◌, true, false, length, IfOk, IfSome};
ghost use Rattle.nf_thin_narrow.specs.Asking.{StandsWithin};
ghost use Rattle.nf_thin_rank.specs.Keeping.{TellsStanding};
ghost use Rattle.nf_thin_rank.specs.Posing.{IsPosed, question_in, IsListedFor};

use crate::families::listed_before;
use crate::listings::{listing, unbounded_flags};
use crate::near::{near_listed, tight_listed};
use crate::ranking::Ranking;
use nf_pattern::Pattern;
use nf_thin_narrow::{goes_on_to, sole_flags, ways_before};
use std::alloc::{AllocError, Global};

/// The budget status of a listed pattern, as far as it is known: its rank is within the budget, or beyond it.
#[derive(Clone, Copy)]
pub enum Standing {
    Within,
    Beyond,
    Unknown,
}

/// Returns whether `ways_before`, a bound from above, shows that the pattern's rank is within the budget. The answer false decides nothing.
/// Fails if an allocation fails.
pub(crate) fn is_early(
    alloc: Global,
    ranking: &Ranking,
    pattern: &Pattern,
) -> Result<bool, AllocError>
    requires ranking { IsPosed ranking.now }
    requires pattern { length pattern.now ≡ length ranking.now.net.now.net.links }
    ensures { IfOk result (λ early. early ≡ true
        → StandsWithin (question_in ranking.now) pattern.now ranking.now.budget true) }
{
    let net = ranking.net;
    let unbounded = unbounded_flags(alloc, net)?;
    let sole = sole_flags(alloc, net.hops(), ranking.sets, net.source())?;
    let ways = ways_before(alloc, ranking.base, pattern, &unbounded, &sole)?;
    Ok(ways < ranking.budget)
}

// Returns whether `listed_before`, a bound from below, shows by a listed pattern that the rank is beyond the budget. The answer false
// decides nothing. Fails if an allocation fails.
fn is_late_by(
    alloc: Global,
    ranking: &Ranking,
    pattern: &Pattern,
    found: Option<Pattern>,
) -> Result<bool, AllocError>
    requires ranking { IsPosed ranking.now }
    requires pattern { length pattern.now ≡ length ranking.now.net.now.net.links }
    requires listed { IfSome found (λ listed. IsListedFor ranking.now listed) }
    ensures { IfOk result (λ late. late ≡ true
        → StandsWithin (question_in ranking.now) pattern.now ranking.now.budget false) }
{
    let Some(listed) = found else {
        return Ok(false);
    };
    let ways = listed_before(alloc, ranking, pattern, &listed)?;
    Ok(ways >= ranking.budget)
}

/// Returns whether a bound from below shows that the rank is beyond the budget, by a listed pattern near the base, or by one with many
/// Tight links. The answer false decides nothing. Fails if an allocation fails.
pub(crate) fn is_late(
    alloc: Global,
    ranking: &Ranking,
    pattern: &Pattern,
) -> Result<bool, AllocError>
    requires ranking { IsPosed ranking.now }
    requires pattern { length pattern.now ≡ length ranking.now.net.now.net.links }
    ensures { IfOk result (λ late. late ≡ true
        → StandsWithin (question_in ranking.now) pattern.now ranking.now.budget false) }
{
    let near = near_listed(alloc, ranking, ranking.base)?;
    if is_late_by(alloc, ranking, pattern, near)? {
        return Ok(true);
    }
    let tight = tight_listed(alloc, ranking)?;
    is_late_by(alloc, ranking, pattern, tight)
}

/// Returns whether a listed pattern is one of the first `budget` patterns. Bounds on its rank decide. If they do not, the listing is
/// enumerated up to the pattern or the budget. Fails if an allocation fails.
pub(crate) fn is_within(
    alloc: Global,
    ranking: &Ranking,
    pattern: &Pattern,
) -> Result<bool, AllocError>
    requires ranking { IsPosed ranking.now }
    requires pattern { length pattern.now ≡ length ranking.now.net.now.net.links }
    ensures { IfOk result
        (λ within. StandsWithin (question_in ranking.now) pattern.now ranking.now.budget within) }
{
    if is_early(alloc, ranking, pattern)? {
        return Ok(true);
    }
    if is_late(alloc, ranking, pattern)? {
        return Ok(false);
    }
    let mut patterns = listing(alloc, ranking, ranking.base)?;
    Ok(goes_on_to(
        &mut patterns,
        pattern,
        ranking.budget,
        ranking.net.link_count(),
    ))
}

impl Standing {
    ghost use Rattle.std.specs.Prelude.{MatchBool};
    ghost use Rattle.nf_thin_rank.specs.declared.standing.Standing.TheVariants.{Beyond};

    /// Returns whether the rank is known to be beyond the budget.
    pub fn is_beyond(self) -> bool
        ensures { MatchBool result (self ≡ Beyond) (self ≡ Beyond → ⊥) }
    {
        matches!(self, Standing::Beyond)
    }

    /// Returns whether the pattern's rank is within the budget. Calls the function `is_within` if the status is unknown. Fails if an
    /// allocation fails.
    pub fn is_within(
        self,
        alloc: Global,
        ranking: &Ranking,
        pattern: &Pattern,
    ) -> Result<bool, AllocError>
        requires ranking { IsPosed ranking.now }
        requires pattern { length pattern.now ≡ length ranking.now.net.now.net.links }
        requires told { TellsStanding (question_in ranking.now) pattern.now ranking.now.budget self }
        ensures { IfOk result (λ within.
            StandsWithin (question_in ranking.now) pattern.now ranking.now.budget within) }
    {
        match self {
            Standing::Within => Ok(true),
            Standing::Beyond => Ok(false),
            Standing::Unknown => is_within(alloc, ranking, pattern),
        }
    }
}
