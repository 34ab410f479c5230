// Refusals of `resume`.
ghost use Rattle.std.specs.Prelude.{◌≡◌};
ghost use Rattle.nf_resume.specs.Faults.{of_halt};
ghost use Rattle.nf_resume.specs.declared.fault.ResumeFault.TheVariants as ResumeFault;

use nf_check::Answer;
use nf_frac::{Halt, PassedAt, Q};
use std::alloc::AllocError;

/// Why a report is not resumed.
#[derive(Clone, Copy)]
pub enum ResumeFault {
    /// The horizon is before the departure that the report's flow has reached.
    Earlier { reached: Q },
    /// The report's flow is no equilibrium; the payload is the answer of the check, a No.
    No(Answer),
    /// An operation exceeds its bound.
    Passed(PassedAt<Q>),
    /// An allocation failed.
    Memory,
}

impl From<Halt<Q>> for ResumeFault {
    ghost from_gives = { λ halt fault. fault ≡ of_halt halt };

    fn from(halt: Halt<Q>) -> Self {
        match halt {
            Halt::Passed(at) => ResumeFault::Passed(at),
            Halt::Memory => ResumeFault::Memory,
        }
    }
}

impl From<AllocError> for ResumeFault {
    ghost from_gives = { λ _ fault. fault ≡ ResumeFault.Memory };

    fn from(_: AllocError) -> Self {
        ResumeFault::Memory
    }
}
