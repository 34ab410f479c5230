// Tests for flow off the shortest routes, interval by interval. An interval of departures lies between consecutive times of three curves.
ghost use Rattle.std.specs.Prelude.{◌≡◌, true, pos, option_map, Some, IfOk, OnOk};
ghost use Rattle.nf_rational.specs.Operations.{0ℚ, whole};
ghost use Rattle.nf_rational.specs.Order.{◌≤ℚ◌};
ghost use Rattle.nf_frac_def.specs.declared.Part.TheVariants.{Check};
ghost use Rattle.nf_frac_def.specs.Passing.{passes_Q};
ghost use Rattle.nf_frac_def.specs.Checked.{at_part, seen_at};
ghost use Rattle.nf_curve_def.specs.Values.{checked_value};
ghost use Rattle.nf_curve_def.specs.Sums.{sides_at as sides_by};
ghost use Rattle.nf_curve_def.specs.Differences.{do_differ as do_differ_by};
ghost use Rattle.nf_check_def.specs.Routes.{checked_middle, at_middle as at_middle_by, on_stretch as on_stretch_by};
ghost use Rattle.nf_curve.specs.Differences.{difference_of};
ghost use Rattle.nf_check_rules.specs.Departures.{IsSentDeparture};
ghost use Rattle.nf_check_rules.specs.Sent.{AreSentCurves, ArePlaces, ArePlacesWithin, KeepSlopes, first_time, stretches_of};

use crate::sent::{Places, Sent, SentSlopes};
use nf_curve::{Difference, place_next, value_with};
use nf_frac::{Part, PassedAt, Q, Scalar, Small, at};

// Returns whether the two values differ.
fn do_differ(sides: &Difference) -> bool
    ensures { result ≡ do_differ_by (difference_of sides.now) }
{
    !sides.left.is_same(sides.right)
}

// Returns 2.
fn two() -> Q
    ensures { result ≡ whole (pos 2) }
{
    let unit = Small::one();
    unit.sum(unit)
}

// Returns the departure in the middle of an interval.
#[tactic(auto, unfolding(nf_check_def::specs::Routes::checked_middle), using(crate::proofs::Stretching::apart_by_two))]
fn middle(first: Q, next: Q) -> Result<Q, PassedAt<Q>>
    ensures { result ≡ at_part Check (checked_middle passes_Q first next) }
{
    let sum = at!(Part::Check, first.sum(next));
    let middle = at!(Part::Check, sum.quotient(two()));
    Ok(middle)
}

// A departure: its point counts on the three curves, the amount entered by then, and exit and head label once they are computed.
#[derive(Clone, Copy)]
struct Departure {
    time: Q,
    places: Places,
    taken: Q,
    sides: Option<Difference>,
}

// Returns the departure at time 0. The first amount needs no operation.
fn first_departure(sent: &Sent) -> Departure
    requires { AreSentCurves sent.now }
    ensures there { IsSentDeparture sent.now result }
    ensures time { result.time ≡ 0ℚ }
{
    let time = Q::zero();
    let none = Places {
        taken: 0,
        exits: 0,
        labels: 0,
    };
    let (_, taken) = sent.taken.point(0);
    Departure {
        time,
        places: sent.places_near(&none, time),
        taken,
        sides: None,
    }
}

// Returns the point counts at the next time of the curves' points.
fn places_next(sent: &Sent, here: &Departure, time: Q) -> Places
    requires curves { AreSentCurves sent.now }
    requires here { IsSentDeparture sent.now here.now }
    requires next { first_time sent.now here.now.places ≡ Some time }
    ensures { ArePlaces sent.now time result }
{
    let places = here.places;
    Places {
        taken: place_next(sent.taken.as_points(), places.taken, time),
        exits: place_next(sent.exits.as_points(), places.exits, time),
        labels: place_next(sent.labels.as_points(), places.labels, time),
    }
}

// Computes the amount entered by a departure from its point counts.
fn departure_at(
    sent: &Sent,
    places: Places,
    time: Q,
    kept: &mut SentSlopes,
) -> Result<Departure, PassedAt<Q>>
    requires time { 0ℚ ≤ℚ time }
    requires places { ArePlaces sent.now time places }
    requires kept { KeepSlopes sent.now kept.old }
    ensures taken { seen_at (λ d. d.taken) (λ q. q) result
        ≡ at_part Check (checked_value passes_Q sent.now.taken.points time) }
    ensures there { IfOk result (IsSentDeparture sent.now) }
    ensures time { IfOk result (λ d. d.time ≡ time) }
    ensures kept { KeepSlopes sent.now kept.new }
{
    let points = sent.taken.as_points();
    let taken = value_with(points, places.taken, time, &mut kept.taken, Part::Check)?;
    Ok(Departure {
        time,
        places,
        taken,
        sides: None,
    })
}

// Returns exit and head label at a departure. Reuses the stored values if they are there.
fn sides_of(sent: &Sent, here: &Departure, kept: &mut SentSlopes) -> Result<Difference, PassedAt<Q>>
    requires here { IsSentDeparture sent.now here.now }
    requires kept { KeepSlopes sent.now kept.old }
    ensures list { seen_at difference_of (λ q. q) result
        ≡ at_part Check
        (sides_by passes_Q sent.now.exits.points sent.now.labels.points here.now.time) }
    ensures kept { KeepSlopes sent.now kept.new }
{
    match here.sides {
        Some(sides) => Ok(sides),
        None => sent.sides_with(&here.places, here.time, kept),
    }
}

// Returns exit and head label in the middle of an interval.
fn at_middle(
    sent: &Sent,
    places: &Places,
    first: Q,
    next: Q,
) -> Result<Option<Difference>, PassedAt<Q>>
    requires first { 0ℚ ≤ℚ first }
    requires next { 0ℚ ≤ℚ next }
    requires within { ArePlacesWithin sent.now places.now }
    ensures { seen_at (option_map difference_of) (λ q. q) result ≡
        at_part Check
        (at_middle_by passes_Q true sent.now.exits.points sent.now.labels.points first next) }
{
    let time = middle(first, next)?;
    let sides = sent.sides_at(&sent.places_near(places, time), time)?;
    Ok(Some(sides))
}

// Returns a difference of exit and head label on an interval, if flow enters the link there. Tests the start first. If they agree there and
// differ at the end, returns their values in the middle.
fn on_stretch(
    sent: &Sent,
    here: &Departure,
    there: &mut Departure,
    kept: &mut SentSlopes,
) -> Result<Option<Difference>, PassedAt<Q>>
    requires here { IsSentDeparture sent.now here.now }
    requires there { IsSentDeparture sent.now there.old }
    requires kept { KeepSlopes sent.now kept.old }
    ensures list { seen_at (option_map difference_of) (λ q. q) result ≡
        at_part Check
        (on_stretch_by passes_Q sent.now.taken.points sent.now.exits.points sent.now.labels.points
        here.now.time there.old.time) }
    ensures there { OnOk result (IsSentDeparture sent.now there.new) }
    ensures time { OnOk result (there.new.time ≡ there.old.time) }
    ensures kept { KeepSlopes sent.now kept.new }
{
    if !here.taken.is_below(there.taken) {
        return Ok(None);
    }
    let sides = sides_of(sent, here, kept)?;
    if do_differ(&sides) {
        return Ok(Some(sides));
    }
    let end = sent.sides_with(&there.places, there.time, kept)?;
    there.sides = Some(end);
    if do_differ(&end) {
        at_middle(sent, &here.places, here.time, there.time)
    } else {
        Ok(None)
    }
}

/// Returns the first departure from which on flow enters the link while exit and head label differ. Tests the intervals between consecutive
/// times of the curves' points. The values at the end of an interval are reused at the start of the next.
pub(crate) fn first_detour(sent: &Sent) -> Result<Option<Difference>, PassedAt<Q>>
    requires { AreSentCurves sent.now }
    ensures { seen_at (option_map difference_of) (λ q. q) result
        ≡ at_part Check (stretches_of sent.now) }
{
    let mut kept = SentSlopes::none();
    let mut here = first_departure(sent);
    while let Some(time) = sent.next_time(&here.places) {
        let places = places_next(sent, &here, time);
        let mut there = departure_at(sent, places, time, &mut kept)?;
        if let Some(sides) = on_stretch(sent, &here, &mut there, &mut kept)? {
            return Ok(Some(sides));
        }
        here = there;
    }
    Ok(None)
}
