// Loading of a link with its inflow.
ghost use Rattle.std.specs.Prelude.{◌≡◌, Option, IfOk, Ok};
ghost use Rattle.nf_rational.specs.Rational.{ℚ};
ghost use Rattle.nf_rational.specs.Operations.{0ℚ};
ghost use Rattle.nf_rational.specs.Order.{◌≤ℚ◌};
ghost use Rattle.nf_frac_def.specs.declared.Part.TheVariants.{Load};
ghost use Rattle.nf_frac_def.specs.Passing.{passes_Q};
ghost use Rattle.nf_frac_def.specs.declared.Op.TheVariants.{Sum};
ghost use Rattle.nf_frac_def.specs.Checked.{checked, at_part, each, Gives};
ghost use Rattle.nf_model.specs.Curve.{NeverFalls, value};
ghost use Rattle.nf_model_laws.specs.Capacity.{IsPositive};
ghost use Rattle.nf_load_def.specs.Loading.{exit_of, checked_loading};
ghost use Rattle.nf_load_def.specs.Meanings.{IsLoaded};
ghost use Rattle.nf_load.specs.Loadings.{loaded_of};
ghost use Rattle.nf_load.specs.Leaving.{AreLeaving};
ghost use Rattle.nf_load.specs.Paces.{ArePaces};
ghost use Rattle.nf_load.specs.Rates.{AreRates};
ghost use Rattle.nf_load.specs.Slopes.{AreKnownSlopes};
ghost use Rattle.nf_load.specs.InSteps.{AreLoadCurves, LeadsToCurves, in_short_form, moments_of, until_transit, behind_cut};

use crate::curves::{Outflow, exit_curve, outflow_curve, outflow_until, queue_curve};
use crate::exiting::all_exits;
use crate::leaving::all_leaving;
use crate::waiting::{Moments, all_waits};
use crate::waits::{Exit, Leaving, Pace};
use nf_curve::{Curve, Trace, ends_at};
use nf_frac::{Halt, Part, PassedAt, Q, at};
use std::alloc::Global;

/// The result of loading a link.
#[derive(Drop)]
pub struct Loaded {
    /// The waiting amount by time.
    pub queue: Curve,
    /// The amount that has left the link, by time.
    pub outflow: Curve,
    /// The exit time, by the time of entry.
    pub exit: Curve,
}

// Returns the time one transit time after `time`.
fn after_transit(time: Q, transit: Q) -> Result<Q, PassedAt<Q>>
    ensures { result ≡ at_part Load (checked passes_Q Sum time transit) }
{
    let end = at!(Part::Load, time.sum(transit));
    Ok(end)
}

// Returns queue, outflow and exits in short form, from the exits of the moments and the whole outflow.
fn short_curves(
    alloc: Global,
    paces: &[Option<Pace>],
    all: &[Exit],
    leaving: &[Option<Leaving>],
    whole_outflow: &Outflow,
) -> Result<Loaded, Halt<Q>>
    requires curves { AreLoadCurves (moments_of all.now) all.now }
    requires paces { (capacity : Option ℚ)
        × ArePaces capacity (moments_of all.now) paces.now }
    requires leaving { AreLeaving all.now leaving.now }
    requires outflow { AreKnownSlopes whole_outflow.now.curve.points whole_outflow.now.slopes.items }
    ensures { Gives loaded_of (λ q. q) result
        (at_part Load
        (in_short_form passes_Q (moments_of all.now) all.now whole_outflow.now.curve.points)) }
{
    let queue = queue_curve(alloc, all, paces)?;
    let outflow = outflow_curve(alloc, whole_outflow)?;
    let exit = exit_curve(alloc, all, leaving)?;
    Ok(Loaded {
        queue,
        outflow,
        exit,
    })
}

// Returns the curves of a loaded link, with the outflow up to one transit time after `until`.
fn curves_until(
    alloc: Global,
    transit: Q,
    capacity: &Option<Q>,
    paces: &[Option<Pace>],
    all: &[Exit],
    until: Q,
) -> Result<Loaded, Halt<Q>>
    requires transit { 0ℚ ≤ℚ transit }
    requires capacity { IsPositive capacity.now }
    requires curves { AreLoadCurves (moments_of all.now) all.now }
    requires paces { ArePaces capacity.now (moments_of all.now) paces.now }
    requires exits { each (exit_of passes_Q capacity.now transit) (moments_of all.now)
        ≡ Ok all.now }
    requires until { 0ℚ ≤ℚ until }
    ensures { Gives loaded_of (λ q. q) result
        (at_part Load (until_transit passes_Q transit (moments_of all.now) all.now until)) }
{
    let end = after_transit(until, transit)?;
    let leaving = all_leaving(alloc, capacity, paces, all)?;
    let whole_outflow = outflow_until(alloc, all, &leaving, end)?;
    short_curves(alloc, paces, all, &leaving, &whole_outflow)
}

// Loads a link with an inflow that is cut at the time `until`. `rates` are known rates of its first pieces.
fn load_cut(
    alloc: Global,
    transit: Q,
    capacity: Option<Q>,
    cut: &Curve,
    rates: &[Q],
    until: Q,
) -> Result<Loaded, Halt<Q>>
    requires transit { 0ℚ ≤ℚ transit }
    requires capacity { IsPositive capacity }
    requires curves { LeadsToCurves passes_Q transit capacity cut.now.points }
    requires rates { AreRates cut.now.points rates.now }
    requires until { 0ℚ ≤ℚ until }
    ensures { Gives loaded_of (λ q. q) result
        (at_part Load (behind_cut passes_Q transit capacity cut.now.points until)) }
{
    let Moments { waits, paces } = all_waits(alloc, &capacity, cut, rates)?;
    let exits = all_exits(alloc, &capacity, transit, &waits)?;
    drop(waits);
    curves_until(alloc, transit, &capacity, &paces, &exits, until)
}

/// Loads a link by the law of the point queue (Koch and Skutella 2011). Returns queue and exit by time up to `until`, and the outflow up to
/// one transit time later, all in short form. The inflow is an amount by time, is 0 at time 0 and never falls. The capacity is an amount
/// per unit of time above 0; `None` means unbounded. No time is negative. Returns `Passed` exactly at the first operation of its operation
/// sequence that passes, with part Load.
pub fn load_link(
    alloc: Global,
    transit: Q,
    capacity: Option<Q>,
    inflow: &Curve,
    until: Q,
) -> Result<Loaded, Halt<Q>>
    requires transit { 0ℚ ≤ℚ transit }
    requires capacity { IsPositive capacity }
    requires begins { value inflow.now.points 0ℚ ≡ 0ℚ }
    requires rises { NeverFalls (value inflow.now.points) }
    requires until { 0ℚ ≤ℚ until }
    ensures list { Gives loaded_of (λ q. q) result
        (at_part Load (checked_loading passes_Q transit capacity inflow.now.points until)) }
    ensures loaded { IfOk result
        (λ l. IsLoaded transit capacity inflow.now.points until (loaded_of l)) }
{
    // Proof: the points of the inflow are a curve.
    inflow.recall();
    let cut = inflow.cut(alloc, until, Part::Load)?;
    load_cut(alloc, transit, capacity, &cut, &[], until)
}

/// Loads a link as `load_link` does. The rates of the inflow must be the slopes of its first pieces, none of whose operations passes.
/// They are not computed again.
pub fn load_trace(
    alloc: Global,
    transit: Q,
    capacity: Option<Q>,
    inflow: &Trace,
    until: Q,
) -> Result<Loaded, Halt<Q>>
    requires transit { 0ℚ ≤ℚ transit }
    requires capacity { IsPositive capacity }
    requires begins { value inflow.now.curve.points 0ℚ ≡ 0ℚ }
    requires rises { NeverFalls (value inflow.now.curve.points) }
    requires rates { AreRates inflow.now.curve.points inflow.now.rates.items }
    requires until { 0ℚ ≤ℚ until }
    ensures list { Gives loaded_of (λ q. q) result
        (at_part Load (checked_loading passes_Q transit capacity inflow.now.curve.points until)) }
    ensures loaded { IfOk result
        (λ l. IsLoaded transit capacity inflow.now.curve.points until (loaded_of l)) }
{
    // Proof: the points of the inflow are a curve.
    inflow.curve.recall();
    if ends_at(inflow.curve.as_points(), until) {
        return load_cut(
            alloc,
            transit,
            capacity,
            &inflow.curve,
            &inflow.rates,
            until,
        );
    }
    load_link(alloc, transit, capacity, &inflow.curve, until)
}
