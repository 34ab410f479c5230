// Queue, outflow and exit curves of a link.
ghost use Rattle.std.specs.Prelude.{◌≡◌, map, option_map, slice_get, IfOk};
ghost use Rattle.nf_rational.specs.Operations.{0ℚ};
ghost use Rattle.nf_rational.specs.Order.{◌≤ℚ◌};
ghost use Rattle.nf_frac_def.specs.declared.Part.TheVariants.{Load};
ghost use Rattle.nf_frac_def.specs.Passing.{passes_Q};
ghost use Rattle.nf_frac_def.specs.Checked.{at_part, Gives};
ghost use Rattle.nf_model.specs.Curve.{IsCurve};
ghost use Rattle.nf_curve_def.specs.Values.{checked_cut};
ghost use Rattle.nf_curve_def.specs.Short.{checked_short};
ghost use Rattle.nf_load_def.specs.Loading as lists;
ghost use Rattle.nf_load_def.specs.Loading.{queue_point, exit_point};
ghost use Rattle.nf_load.specs.Leaving.{AreLeaving, exit_slope_of, outflow_slope_of};
ghost use Rattle.nf_load.specs.Slopes.{AreKnownSlopes, flat};
ghost use Rattle.nf_load.specs.Paces.{change_of};
ghost use Rattle.nf_load.specs.InSteps.{moments_of};

use crate::shortening::short_points;
use crate::waits::{Exit, Leaving, Pace};
use nf_curve::{Curve, Point};
use nf_frac::{Halt, Part, Q};
use std::alloc::{AllocError, Global};

// Returns the points of the queue.
fn queue_points(alloc: Global, all: &[Exit]) -> Result<Vec<Point>, AllocError>
    ensures { IfOk result (λ points. points.items ≡ map (λ one. queue_point one.waits) all.now) }
{
    all.iter()
        .map(|one| (one.waits.time, one.waits.queue))
        .collect(alloc)
}

// Returns the slope of the queue, if it is known.
fn queue_slope(pace: &Option<Pace>) -> Option<Q>
    ensures { result ≡ option_map change_of pace.now }
{
    match pace {
        Some(pace) => Some(pace.change),
        None => None,
    }
}

// Returns the slopes of the queue that are known.
fn queue_slopes(alloc: Global, paces: &[Option<Pace>]) -> Result<Vec<Option<Q>>, AllocError>
    ensures { IfOk result (λ slopes. slopes.items ≡ map (option_map change_of) paces.now) }
{
    paces.iter().map(|pace| queue_slope(pace)).collect(alloc)
}

// Returns the points of the exits.
fn exit_points(alloc: Global, all: &[Exit]) -> Result<Vec<Point>, AllocError>
    ensures { IfOk result (λ points. points.items ≡ map exit_point all.now) }
{
    all.iter()
        .map(|one| (one.waits.time, one.exit))
        .collect(alloc)
}

// Points, and the slopes between them that are known.
#[derive(Drop)]
struct KnownPoints {
    points: Vec<Point>,
    slopes: Vec<Option<Q>>,
}

// Returns the slope of the outflow from the moment of this number on, if it is known.
fn outflow_slope(leaving: &[Option<Leaving>], index: usize) -> Option<Q>
    ensures { result ≡ option_map outflow_slope_of (flat (slice_get leaving.now index)) }
{
    if index >= leaving.len() {
        return None;
    }
    match &leaving[index] {
        Some(slopes) => Some(slopes.outflow),
        None => None,
    }
}

// Returns the points of the outflow, with the slopes that are known. The first is (0, 0). Each exit that differs from the one before adds a
// point.
fn outflow_points(
    alloc: Global,
    all: &[Exit],
    leaving: &[Option<Leaving>],
) -> Result<KnownPoints, AllocError>
    requires { AreLeaving all.now leaving.now }
    ensures points { IfOk result (λ outflow. outflow.points.items ≡ lists.outflow_points all.now) }
    ensures slopes { IfOk result (λ outflow. AreKnownSlopes outflow.points.items outflow.slopes.items) }
{
    let mut points = Vec::with_capacity(alloc, all.len() + 1)?;
    let mut slopes = Vec::with_capacity(alloc, all.len())?;
    let mut last = Q::zero();
    let mut known = None;
    points.push((last, Q::zero()))?;
    for (index, one) in all.iter().enumerate() {
        if last.is_same(one.exit) {
            known = None;
        } else {
            points.push((one.exit, one.waits.amount))?;
            slopes.push(known)?;
            last = one.exit;
            known = outflow_slope(leaving, index);
        }
    }
    Ok(KnownPoints { points, slopes })
}

// Returns the curve of the points, in short form. `slopes` are known slopes of its first pieces.
fn known_short(alloc: Global, points: &[Point], slopes: &[Option<Q>]) -> Result<Curve, Halt<Q>>
    requires curve { IsCurve points.now }
    requires slopes { AreKnownSlopes points.now slopes.now }
    ensures { Gives (λ c. c.points) (λ q. q) result
        (at_part Load (checked_short passes_Q points.now)) }
{
    let short = short_points(alloc, points, slopes, Part::Load)?;
    Ok(Curve::of_points(short))
}

/// Returns the queue by time, in short form.
pub(crate) fn queue_curve(
    alloc: Global,
    all: &[Exit],
    paces: &[Option<Pace>],
) -> Result<Curve, Halt<Q>>
    requires curve { IsCurve (map queue_point (moments_of all.now)) }
    requires slopes { AreKnownSlopes (map queue_point (moments_of all.now))
        (map (option_map change_of) paces.now) }
    ensures { Gives (λ c. c.points) (λ q. q) result
        (at_part Load (checked_short passes_Q (map queue_point (moments_of all.now)))) }
{
    let points = queue_points(alloc, all)?;
    let slopes = queue_slopes(alloc, paces)?;
    known_short(alloc, &points, &slopes)
}

// Returns the slope of the exits, if it is known.
fn exit_slope(leaving: &Option<Leaving>) -> Option<Q>
    ensures { result ≡ option_map exit_slope_of leaving.now }
{
    match leaving {
        Some(slopes) => Some(slopes.exit),
        None => None,
    }
}

// Returns the slopes of the exits that are known.
fn exit_slopes(alloc: Global, leaving: &[Option<Leaving>]) -> Result<Vec<Option<Q>>, AllocError>
    ensures { IfOk result (λ slopes. slopes.items ≡ map (option_map exit_slope_of) leaving.now) }
{
    leaving
        .iter()
        .map(|slopes| exit_slope(slopes))
        .collect(alloc)
}

/// Returns the exit by the time of entry, in short form.
pub(crate) fn exit_curve(
    alloc: Global,
    all: &[Exit],
    leaving: &[Option<Leaving>],
) -> Result<Curve, Halt<Q>>
    requires curve { IsCurve (map exit_point all.now) }
    requires leaving { AreLeaving all.now leaving.now }
    ensures { Gives (λ c. c.points) (λ q. q) result
        (at_part Load (checked_short passes_Q (map exit_point all.now))) }
{
    let points = exit_points(alloc, all)?;
    let slopes = exit_slopes(alloc, leaving)?;
    known_short(alloc, &points, &slopes)
}

/// The outflow by time, and the slopes of its first pieces that are known.
#[derive(Drop)]
pub(crate) struct Outflow {
    pub curve: Curve,
    pub slopes: Vec<Option<Q>>,
}

/// Returns the outflow by time, cut at the time `end`.
pub(crate) fn outflow_until(
    alloc: Global,
    all: &[Exit],
    leaving: &[Option<Leaving>],
    end: Q,
) -> Result<Outflow, Halt<Q>>
    requires curve { IsCurve (lists.outflow_points all.now) }
    requires leaving { AreLeaving all.now leaving.now }
    requires end { 0ℚ ≤ℚ end }
    ensures list { Gives (λ outflow. outflow.curve.points) (λ q. q) result
        (at_part Load (checked_cut passes_Q (lists.outflow_points all.now) end)) }
    ensures slopes { IfOk result (λ outflow. AreKnownSlopes outflow.curve.points outflow.slopes.items) }
{
    let KnownPoints { points, mut slopes } = outflow_points(alloc, all, leaving)?;
    let whole = Curve::of_points(points);
    let curve = whole.cut(alloc, end, Part::Load)?;
    slopes.truncate(curve.len().saturating_sub(2));
    Ok(Outflow { curve, slopes })
}

/// Returns the outflow in short form.
pub(crate) fn outflow_curve(alloc: Global, outflow: &Outflow) -> Result<Curve, Halt<Q>>
    requires { AreKnownSlopes outflow.now.curve.points outflow.now.slopes.items }
    ensures { Gives (λ c. c.points) (λ q. q) result
        (at_part Load (checked_short passes_Q outflow.now.curve.points)) }
{
    known_short(alloc, outflow.curve.as_points(), &outflow.slopes)
}
