// The slopes of exit and outflow from moment to moment.
ghost use Rattle.std.specs.Prelude.{◌≡◌, ◌≢◌, ◌&&◌, IfOk, IfSome, IsTrue, Ok};
ghost use Rattle.nf_rational.specs.Rational.{ℚ};
ghost use Rattle.nf_rational.specs.Operations.{0ℚ};
ghost use Rattle.nf_rational.specs.Signs.{is_zero};
ghost use Rattle.nf_frac_def.specs.Passing.{passes_Q};
ghost use Rattle.nf_frac_def.specs.Checked.{checked};
ghost use Rattle.nf_frac_def.specs.declared.Op.TheVariants.{Difference};
ghost use Rattle.nf_model_laws.specs.Capacity.{IsPositive};
ghost use Rattle.nf_load.specs.Paces.{IsPaceIf};
ghost use Rattle.nf_load.specs.Leaving.{AreTwoExits, AreExitsOf, AreLeaving, IsBusy, IsLeavingIf};

use crate::shortening::known_at;
use crate::waits::{Exit, Leaving, Pace};
use nf_frac::Q;
use std::alloc::{AllocError, Global};

// Returns whether the difference of two exits passes no bound.
fn is_step(before: &Exit, after: &Exit) -> bool
    ensures { IsTrue result
        → (step : ℚ) × (checked passes_Q Difference after.now.exit before.now.exit ≡ Ok step) }
{
    match after.exit.difference(before.exit) {
        Ok(_) => true,
        Err(_) => false,
    }
}

// Returns whether the queue is empty at both moments.
fn is_level(before: &Exit, after: &Exit) -> bool
    ensures { result ≡ (is_zero before.now.waits.queue && is_zero after.now.waits.queue) }
{
    before.waits.queue.is_zero() && after.waits.queue.is_zero()
}

// Returns the slopes over a piece in which the queue is not empty: the outflow is the capacity.
fn busy(capacity: Q, rate: Q) -> Option<Leaving>
    requires { capacity ≢ 0ℚ }
    ensures { IfSome result (IsBusy capacity rate) }
{
    match rate.quotient(capacity) {
        Ok(exit) => {
            // Proof: the parts of both slopes are within the bound.
            exit.recall();
            capacity.recall();
            Some(Leaving {
                exit,
                outflow: capacity,
            })
        }
        Err(_) => None,
    }
}

// Returns the slopes of exit and outflow over a piece, if its pace is known and no operation passes.
fn leaves(capacity: &Option<Q>, pace: Option<Pace>, before: &Exit, after: &Exit) -> Option<Leaving>
    requires capacity { IsPositive capacity.now }
    requires pace { IsPaceIf capacity.now pace before.now.waits after.now.waits }
    requires exits { AreTwoExits capacity.now before.now after.now }
    ensures { IsLeavingIf result before.now after.now }
{
    let Some(pace) = pace else {
        return None;
    };
    if !is_step(before, after) {
        return None;
    }
    if is_level(before, after) {
        return Some(Leaving {
            exit: Q::one(),
            outflow: pace.rate,
        });
    }
    match capacity {
        Some(capacity) => busy(*capacity, pace.rate),
        None => None,
    }
}

/// Returns the slopes of exit and outflow from each moment to the next, where the pace is known and no operation passes.
pub(crate) fn all_leaving(
    alloc: Global,
    capacity: &Option<Q>,
    paces: &[Option<Pace>],
    all: &[Exit],
) -> Result<Vec<Option<Leaving>>, AllocError>
    requires capacity { IsPositive capacity.now }
    requires exits { AreExitsOf capacity.now all.now paces.now }
    ensures { IfOk result (λ leaving. AreLeaving all.now leaving.items) }
{
    let mut leaving = Vec::with_capacity(alloc, all.len())?;
    for i in 1..all.len() {
        let slopes = leaves(capacity, known_at(paces, i - 1), &all[i - 1], &all[i]);
        leaving.push(slopes)?;
    }
    Ok(leaving)
}
