// Exit times of a link.
ghost use Rattle.std.specs.Prelude.{◌≡◌};
ghost use Rattle.nf_frac_def.specs.declared.Part.TheVariants.{Load};
ghost use Rattle.nf_frac_def.specs.Passing.{passes_Q};
ghost use Rattle.nf_frac_def.specs.Checked.{at_part, each, Gives};
ghost use Rattle.nf_model_laws.specs.Capacity.{IsPositive};
ghost use Rattle.nf_load_def.specs.Loading as lists;

use crate::waits::{Exit, Waits};
use nf_frac::{Halt, Part, PassedAt, Q, at};
use std::alloc::Global;

// Returns the exit of flow that enters at a moment: the time, plus the transit time, plus the wait in the queue.
#[tactic(auto, unfolding(nf_load_def::specs::Loading::exit_after), using(crate::proofs::ExitSteps::capacity_apart))]
fn exit_after(capacity: &Option<Q>, transit: Q, waits: &Waits) -> Result<Q, PassedAt<Q>>
    requires { IsPositive capacity.now }
    ensures { result ≡ at_part Load (lists.exit_after passes_Q capacity.now transit waits.now) }
{
    match capacity {
        Some(capacity) => {
            let wait = at!(Part::Load, waits.queue.quotient(*capacity));
            let arrival = at!(Part::Load, waits.time.sum(transit));
            let exit = at!(Part::Load, arrival.sum(wait));
            Ok(exit)
        }
        None => {
            let exit = at!(Part::Load, waits.time.sum(transit));
            Ok(exit)
        }
    }
}

// Returns a moment with the exit of flow that enters then.
fn exit_of(capacity: &Option<Q>, transit: Q, waits: &Waits) -> Result<Exit, PassedAt<Q>>
    requires { IsPositive capacity.now }
    ensures { result ≡ at_part Load (lists.exit_of passes_Q capacity.now transit waits.now) }
{
    let exit = exit_after(capacity, transit, waits)?;
    Ok(Exit {
        waits: *waits,
        exit,
    })
}

/// Returns each moment with the exit of flow that enters then.
pub(crate) fn all_exits(
    alloc: Global,
    capacity: &Option<Q>,
    transit: Q,
    waits: &[Waits],
) -> Result<Vec<Exit>, Halt<Q>>
    requires { IsPositive capacity.now }
    ensures { Gives (λ all. all.items) (λ q. q) result
        (at_part Load (each (lists.exit_of passes_Q capacity.now transit) waits.now)) }
{
    let mut all = Vec::with_capacity(alloc, waits.len())?;
    for moment in waits {
        let one = exit_of(capacity, transit, moment)?;
        all.push(one)?;
    }
    Ok(all)
}
