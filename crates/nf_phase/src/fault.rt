// Refusals of a phase.
ghost use Rattle.std.specs.Prelude.{◌≡◌};
ghost use Rattle.nf_phase.specs.Faults.{of_search, of_halt};
ghost use Rattle.nf_phase.specs.declared.fault.StepFault.TheVariants as StepFault;

use nf_frac::{Halt, PassedAt, Q};
use nf_thin::SearchFault;
use std::alloc::AllocError;

/// Why a phase could not be computed.
#[derive(Clone, Copy)]
pub enum StepFault {
    /// The search for its thin flow found none. The payload is never `SearchFault::Memory`.
    Search(SearchFault),
    /// An operation of the phase outside the search exceeds its bound.
    Passed(PassedAt<Q>),
    /// An allocation failed.
    Memory,
}

impl From<AllocError> for StepFault {
    ghost from_gives = { λ _ fault. fault ≡ StepFault.Memory };

    fn from(_: AllocError) -> Self {
        StepFault::Memory
    }
}

impl From<PassedAt<Q>> for StepFault {
    ghost from_gives = { λ at fault. fault ≡ StepFault.Passed at };

    fn from(at: PassedAt<Q>) -> Self {
        StepFault::Passed(at)
    }
}

impl From<Halt<Q>> for StepFault {
    ghost from_gives = { λ halt fault. fault ≡ of_halt halt };

    fn from(halt: Halt<Q>) -> Self {
        match halt {
            Halt::Passed(at) => StepFault::Passed(at),
            Halt::Memory => StepFault::Memory,
        }
    }
}

impl From<SearchFault> for StepFault {
    ghost from_gives = { λ search fault. fault ≡ of_search search };

    fn from(search: SearchFault) -> Self {
        match search {
            SearchFault::Memory => StepFault::Memory,
            fault => StepFault::Search(fault),
        }
    }
}
