// Sets of links.
use crate::ids::LinkId;
use std::alloc::{AllocError, Global};
use std::marker::Model;

/// Two flags for each link of a network, in link order: whether it is active, and whether it is resetting. A resetting link is
/// active.
#[derive(Drop)]
pub struct LinkSets {
    active: Vec<bool>,
    resetting: Vec<bool>,
}

impl Model for LinkSets {
    ghost use Rattle.nf_model.specs.ThinFlow.{Sets};
    ghost use Rattle.nf_model.specs.Codes.{coded_sets};
    ghost use Rattle.nf_graph.specs.Sets.{AreLinkSets};

    ghost Value = { Sets };

    ghost coded = { coded_sets };

    ghost view = { λ s. record { active = s.active.items; resetting = s.resetting.items } };

    ghost invariant = { λ s.
        AreLinkSets (record { active = s.active.items; resetting = s.resetting.items }) };
}

impl LinkSets {
    ghost use Rattle.std.specs.Prelude.{◌≡◌, ◌<◌, length, slice_get, IfOk};
    ghost use Rattle.nf_graph.specs.Sets.{AreLinkSets};

    /// Makes the sets of these flags, two for each link. Both lists must be equally long, and each resetting link active. Fails if an
    /// allocation fails.
    pub fn new(alloc: Global, active: &[bool], resetting: &[bool]) -> Result<LinkSets, AllocError>
        requires { AreLinkSets (record { active = active.now; resetting = resetting.now }) }
        ensures { IfOk result
            (λ sets. sets ≡ record { active = active.now; resetting = resetting.now }) }
    {
        let active = active.to_vec(alloc)?;
        let resetting = resetting.to_vec(alloc)?;
        Ok(LinkSets { active, resetting })
    }

    /// Returns whether the link is active. The sets must have a flag for the link.
    pub fn active(&self, link: LinkId) -> bool
        requires { link < length self.now.active }
        ensures flag { slice_get self.now.active link ≡ Some result }
        ensures sets { AreLinkSets self.now }
    {
        self.active[link.index()]
    }

    /// Returns whether the link is resetting. The sets must have a flag for the link.
    pub fn resetting(&self, link: LinkId) -> bool
        requires { link < length self.now.active }
        ensures flag { slice_get self.now.resetting link ≡ Some result }
        ensures sets { AreLinkSets self.now }
    {
        self.resetting[link.index()]
    }
}
