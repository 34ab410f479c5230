// Flags of jointly acyclic links. While all examined Tight links are flagged, none of them closes a cycle.
ghost use Rattle.std.specs.Prelude.{◌≡◌, IfOk};
ghost use Rattle.nf_model.specs.Pattern.{Pattern};
ghost use Rattle.nf_pattern.specs.Firm.{AreCalm};

use nf_graph::{Hop, LinkId};
use std::alloc::{AllocError, Global};

// Jointly acyclic links, by a flag for each link: no flagged link closes a cycle with flagged links before it. `calm` is the first possible
// exception: every examined Tight link before it is flagged.
#[derive(Drop)]
pub(crate) struct FirmLinks {
    flags: Vec<bool>,
    calm: usize,
}

impl FirmLinks {
    ghost use Rattle.std.specs.Prelude.{◌≡◌, ◌<◌, ◌≤◌, ℕ, suc, length, List, slice_set, IsTrue, IfOk};
    ghost use Rattle.nf_model.specs.Entries.{Has};
    ghost use Rattle.nf_model.specs.Walk.{Hop as SeenHop};
    ghost use Rattle.nf_model.specs.Pattern.{Pattern};
    ghost use Rattle.nf_pattern.specs.Firm.{AreCalm};

    // Returns flags of no link. Fails if an allocation fails.
    pub(crate) fn none(alloc: Global, hops: &[Hop]) -> Result<FirmLinks, AllocError>
        ensures count { IfOk result (λ firm. length firm.flags.items ≡ length hops.now) }
        ensures none { IfOk result (λ firm. (e : ℕ) → Has firm.flags.items e → ⊥) }
    {
        let flags = vec![in alloc; false; hops.len()]?;
        Ok(FirmLinks {
            flags,
            calm: hops.len(),
        })
    }

    // Returns whether the link and every examined Tight link before it are flagged. The answer false decides nothing.
    pub(crate) fn covers(&self, link: LinkId) -> bool
        requires { link < length self.now.flags.items }
        ensures { IsTrue result → (link ≤ self.now.calm) × Has self.now.flags.items link }
    {
        self.calm >= link.index() && self.flags[link.index()]
    }

    // Records that an examined Tight link may not be flagged.
    pub(crate) fn note(&mut self, link: LinkId)
        ensures { (hops : List SeenHop) (pattern : Pattern) → AreCalm hops pattern link self.old
            → AreCalm hops pattern (suc link) self.new }
    {
        if self.calm > link.index() {
            self.calm = link.index();
        }
    }

    // Records that no link from `link` on is examined.
    pub(crate) fn retreat(&mut self, link: usize)
        ensures { (hops : List SeenHop) (pattern : Pattern) (n : ℕ) → n ≤ link
            → AreCalm hops pattern n self.old
            → AreCalm hops pattern n self.new }
    {
        if self.calm >= link {
            self.calm = self.flags.len();
        }
    }

    // Sets the link's flag.
    pub(crate) fn mark(&mut self, link: LinkId, flag: bool)
        requires { link < length self.old.flags.items }
        ensures { self.new.flags.items ≡ slice_set self.old.flags.items link flag }
    {
        self.flags[link.index()] = flag;
    }
}
