// Refusals of `quickest`.
ghost use Rattle.std.specs.Prelude.{◌≡◌};
ghost use Rattle.nf_quick.specs.Answered.{of_halt};
ghost use Rattle.nf_quick.specs.declared.fault.QuickFault.TheVariants as QuickFault;

use nf_frac::{Halt, PassedAt, Q};
use nf_graph::LinkId;
use nf_quick_walks::Augment;
use std::alloc::AllocError;

/// Why `quickest` returns no flow.
#[derive(Drop)]
pub enum QuickFault {
    /// As many walks as allowed were pushed, and the next one is shorter than the time.
    Budget { walks: Vec<Augment> },
    /// This walk from source to sink has no link with a capacity.
    Unbounded { links: Vec<LinkId> },
    /// An operation exceeds its bound.
    Passed(PassedAt<Q>),
    /// An allocation failed.
    Memory,
}

impl From<AllocError> for QuickFault {
    ghost from_gives = { λ _ fault. fault ≡ QuickFault.Memory };

    fn from(_: AllocError) -> Self {
        QuickFault::Memory
    }
}

impl From<Halt<Q>> for QuickFault {
    ghost from_gives = { λ halt fault. fault ≡ of_halt halt };

    fn from(halt: Halt<Q>) -> Self {
        match halt {
            Halt::Passed(at) => QuickFault::Passed(at),
            Halt::Memory => QuickFault::Memory,
        }
    }
}
