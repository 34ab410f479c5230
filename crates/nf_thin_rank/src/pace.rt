// The budget status of the patterns that the narrow search tries, one after the other.
ghost use Rattle.nf_thin_rank.specs.Keeping.{TellsStanding, IsInStep, StaysBehind, walk_of};
ghost use Rattle.nf_thin_rank.specs.Posing.{IsPosed, question_in, IsListedFor};

use crate::listings::listing;
use crate::ranking::Ranking;
use crate::standing::{Standing, is_early, is_late};
use nf_pattern::{Pattern, Patterns};
use nf_thin_narrow::goes_on_to;
use std::alloc::{AllocError, Global};

// The full listing is advanced only after this many rejected patterns. Before that, the next bounds often decide.
const WALK_AFTER: u64 = 4095;

/// What a narrow search keeps for the budget status of its patterns. `asked` is the number of rejected patterns at which the bounds on a
/// pattern's rank are computed next. `walk` is the full listing, advanced to the last pattern. It is `None` until many patterns are
/// rejected and the bounds do not decide.
#[derive(Drop)]
pub struct Pace {
    pub(crate) asked: u64,
    pub(crate) walk: Option<Patterns>,
}

impl Pace {
    ghost use Rattle.std.specs.Prelude.{◌≡◌, None, IfOk};
    ghost use Rattle.nf_thin_rank.specs.declared.standing.Standing.TheVariants.{Beyond};

    /// Returns what a narrow search keeps before its first pattern. The full listing is not begun.
    pub fn start() -> Pace
        ensures { walk_of result ≡ None }
    {
        Pace {
            asked: 0,
            walk: None,
        }
    }

    // Advances the full listing to a pattern, and returns the pattern's budget status. Returns `Unknown` if there is no full listing.
    fn go_on(&mut self, ranking: &Ranking, pattern: &Pattern) -> Standing
        requires ranking { IsPosed ranking.now }
        requires listed { IsListedFor ranking.now pattern.now }
        requires behind { StaysBehind (question_in ranking.now) self.old pattern.now }
        ensures told { TellsStanding (question_in ranking.now) pattern.now ranking.now.budget result }
        ensures in_step { (result ≡ Beyond → ⊥)
            → IsInStep (question_in ranking.now) self.new pattern.now }
    {
        let Some(all) = &mut self.walk else {
            return Standing::Unknown;
        };
        let links = ranking.net.link_count();
        if goes_on_to(all, pattern, ranking.budget, links) {
            Standing::Within
        } else {
            Standing::Beyond
        }
    }

    // Begins the full listing, advances it to a pattern, and returns the pattern's budget status. Fails if an allocation fails.
    fn begin(
        &mut self,
        alloc: Global,
        ranking: &Ranking,
        pattern: &Pattern,
    ) -> Result<Standing, AllocError>
        requires ranking { IsPosed ranking.now }
        requires listed { IsListedFor ranking.now pattern.now }
        ensures told { IfOk result
            (λ standing. TellsStanding (question_in ranking.now) pattern.now ranking.now.budget standing) }
        ensures in_step { IfOk result (λ standing. (standing ≡ Beyond → ⊥)
            → IsInStep (question_in ranking.now) self.new pattern.now) }
    {
        let all = listing(alloc, ranking, ranking.base)?;
        self.walk = Some(all);
        Ok(self.go_on(ranking, pattern))
    }

    /// Returns the budget status of the next pattern, which is later than the last one. Fails if an allocation fails. Bounds on its rank
    /// decide, computed after 0, 1, 3, 7 and so on rejected patterns, or the full listing once that is advanced.
    pub fn keep_up(
        &mut self,
        alloc: Global,
        ranking: &Ranking,
        pattern: &Pattern,
        tried: u64,
    ) -> Result<Standing, AllocError>
        requires ranking { IsPosed ranking.now }
        requires listed { IsListedFor ranking.now pattern.now }
        requires behind { StaysBehind (question_in ranking.now) self.old pattern.now }
        ensures told { IfOk result
            (λ standing. TellsStanding (question_in ranking.now) pattern.now ranking.now.budget standing) }
        ensures in_step { IfOk result (λ standing. (standing ≡ Beyond → ⊥)
            → IsInStep (question_in ranking.now) self.new pattern.now) }
    {
        if self.walk.is_some() {
            return Ok(self.go_on(ranking, pattern));
        }
        if tried != self.asked {
            return Ok(Standing::Unknown);
        }
        self.asked = tried.saturating_mul(2).saturating_add(1);
        if is_early(alloc, ranking, pattern)? {
            return Ok(Standing::Within);
        }
        if is_late(alloc, ranking, pattern)? {
            return Ok(Standing::Beyond);
        }
        if tried < WALK_AFTER {
            return Ok(Standing::Unknown);
        }
        self.begin(alloc, ranking, pattern)
    }
}
