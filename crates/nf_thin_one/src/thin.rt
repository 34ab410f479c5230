// Thin flows, with their patterns.
ghost use Rattle.std.specs.Prelude.{IfOk};
ghost use Rattle.nf_thin_one.specs.Trying.{IsCopy};

use nf_frac::Q;
use nf_pattern::Pattern;
use std::alloc::{AllocError, Global};

/// A thin flow with resetting, with its pattern. `flows` has the flow of each link, an amount per unit of time. `slopes` has the slope of
/// each node's label.
#[derive(Drop)]
pub struct ThinFlow {
    pub flows: Vec<Q>,
    pub slopes: Vec<Q>,
    pub pattern: Pattern,
}

impl ThinFlow {
    /// Returns a copy. Fails if an allocation fails.
    pub fn copy(&self, alloc: Global) -> Result<ThinFlow, AllocError>
        ensures { IfOk result (IsCopy self.now) }
    {
        let flows = self.flows.as_slice().to_vec(alloc)?;
        let slopes = self.slopes.as_slice().to_vec(alloc)?;
        let pattern = self.pattern.copy(alloc)?;
        Ok(ThinFlow {
            flows,
            slopes,
            pattern,
        })
    }
}
