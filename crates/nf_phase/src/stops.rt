// The reasons why a run ends at a phase that can't be computed.
ghost use Rattle.std.specs.Prelude.{◌≡◌, IfErr, IfOk, None, Some};
ghost use Rattle.nf_phase.specs.Solution.{cause_of};

use crate::fault::StepFault;
use nf_curve::Stop;
use nf_thin::SearchFault;
use std::alloc::AllocError;

/// Returns why a run stops at phase number `phase`. Fails exactly if the fault is an allocation failure.
pub fn stop_by(phase: u64, fault: StepFault) -> Result<Stop, AllocError>
    ensures cause { IfOk result (λ stop. cause_of phase fault ≡ Some stop) }
    ensures memory { IfErr result (λ _. cause_of phase fault ≡ None) }
{
    match fault {
        StepFault::Search(SearchFault::Budget { tried }) => Ok(Stop::Patterns { phase, tried }),
        StepFault::Search(SearchFault::Passed { place, at }) => Ok(Stop::Passed {
            phase,
            place: Some(place),
            at,
        }),
        StepFault::Search(SearchFault::NoPattern) => Ok(Stop::NoPattern { phase }),
        StepFault::Search(SearchFault::Memory) => Err(AllocError),
        StepFault::Passed(at) => Ok(Stop::Passed {
            phase,
            place: None,
            at,
        }),
        StepFault::Memory => Err(AllocError),
    }
}
