// Whether the repairs of a pattern go round. No contract depends on the answer.
ghost use Rattle.std.specs.Prelude.{◌≡◌, length, IfOk};

use nf_net::Network;
use nf_pattern::Pattern;
use nf_thin_one::is_one_pattern;
use std::alloc::{AllocError, Global};

/// A pattern that the repairs have met, to notice that they meet it again: the pattern after the last repair whose number is a power of two,
/// or the first pattern. `next` is the number of the repair whose pattern is kept next.
#[derive(Drop)]
pub(crate) struct Rounds {
    met: Pattern,
    count: u32,
    next: u32,
}

impl Rounds {
    /// Returns the start, before any repair of `first`. Fails if an allocation fails.
    pub(crate) fn start(alloc: Global, first: &Pattern) -> Result<Rounds, AllocError>
        ensures { IfOk result (λ rounds. length rounds.met ≡ length first.now) }
    {
        let met = first.copy(alloc)?;
        Ok(Rounds {
            met,
            count: 0,
            next: 1,
        })
    }

    /// Counts one more repair, which gives `pattern`. Returns whether the repairs have met this pattern before, as far as it is known. Fails if
    /// an allocation fails.
    pub(crate) fn come_back(
        &mut self,
        alloc: Global,
        net: &Network,
        pattern: &Pattern,
    ) -> Result<bool, AllocError>
        requires met { length self.old.met ≡ length net.now.net.links }
        requires pattern { length pattern.now ≡ length net.now.net.links }
        ensures { IfOk result (λ _. length self.new.met ≡ length net.now.net.links) }
    {
        let back = is_one_pattern(net, &self.met, pattern);
        self.count = self.count.saturating_add(1);
        if self.count == self.next {
            self.met = pattern.copy(alloc)?;
            self.next = self.next.saturating_mul(2);
        }
        Ok(back)
    }
}
