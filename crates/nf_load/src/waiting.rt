// The queue over the pieces of an inflow.
ghost use Rattle.std.specs.Prelude.{◌≡◌, ◌&&◌, [], ◌∷◌, ◌++◌, Some, None, Option, true, IfOk, IfSome, OnOk, option_map, IsTrue, Ok, slice_get};
ghost use Rattle.nf_rational.specs.Rational.{ℚ};
ghost use Rattle.nf_rational.specs.Operations.{0ℚ};
ghost use Rattle.nf_rational.specs.Order.{◌<ℚ◌, lt_ℚ, le_ℚ};
ghost use Rattle.nf_frac_def.specs.declared.Part.TheVariants.{Load};
ghost use Rattle.nf_frac_def.specs.Passing.{passes_Q};
ghost use Rattle.nf_frac_def.specs.Checked.{checked, at_part, seen_at, Gives};
ghost use Rattle.nf_frac_def.specs.declared.Op.TheVariants.{Difference};
ghost use Rattle.nf_rational.specs.Signs.{is_zero, is_positive};
ghost use Rattle.nf_model.specs.Curve.{Point as SeenPoint};
ghost use Rattle.nf_curve_def.specs.Lines.{checked_slope, checked_line};
ghost use Rattle.nf_load_def.specs.Loading as lists;
ghost use Rattle.nf_load.specs.Loadings.{over_list};
ghost use Rattle.nf_load.specs.Paces.{ArePaces, IsPaced, grown_by, level, level_over, over_paces};
ghost use Rattle.nf_load.specs.Rates.{AreRates, IsRate};

use crate::shortening::slope_or;
use crate::waits::{Pace, Waits};
use nf_curve::{Curve, Point, line};
use nf_frac::{Halt, Part, PassedAt, Q, at};
use std::alloc::{AllocError, Global};

// The queue over a piece of the inflow. `empty` is the moment strictly within the piece at which the queue drains to 0, if there is one.
// `end` is the moment at the end of the piece. `pace` has the slopes up to the first of them, if they are known.
#[derive(Clone, Copy)]
struct Over {
    empty: Option<Waits>,
    end: Waits,
    pace: Option<Pace>,
}

// Returns the pace of an empty queue, if the rate is known.
fn level_pace(rate: Option<Q>) -> Option<Pace>
    ensures { result ≡ option_map level rate }
{
    match rate {
        Some(rate) => Some(Pace {
            rate,
            change: Q::zero(),
        }),
        None => None,
    }
}

// Returns an empty queue at the end of the piece, with the inflow rate if it is known.
fn empty_at(end: &Point, rate: Option<Q>) -> Over
    ensures over { result ≡ level_over end.now rate }
    ensures list { over_list result
        ≡ record { time = end.now.0; amount = end.now.1; queue = 0ℚ } ∷ [] }
    ensures end { result.end.time ≡ end.now.0 }
    ensures amount { result.end.amount ≡ end.now.1 }
{
    Over {
        empty: None,
        end: Waits {
            time: end.0,
            amount: end.1,
            queue: Q::zero(),
        },
        pace: level_pace(rate),
    }
}

// Returns the inflow rate over a piece: its slope, unless the rate is known.
fn inflow_rate(before: &Waits, end: &Point, known: Option<Q>) -> Result<Q, PassedAt<Q>>
    requires later { before.now.time <ℚ end.now.0 }
    requires known { IsRate known (before.now.time, before.now.amount) end.now }
    ensures { result
        ≡ at_part Load (checked_slope passes_Q (before.now.time, before.now.amount) end.now) }
{
    let start = (before.time, before.amount);
    slope_or(&start, end, known, Part::Load)
}

// Returns the amount that has entered by a time of a piece.
fn amount_at(before: &Waits, end: &Point, time: Q) -> Result<Q, PassedAt<Q>>
    requires { before.now.time <ℚ end.now.0 }
    ensures { result
        ≡ at_part Load (checked_line passes_Q (before.now.time, before.now.amount) end.now time) }
{
    let start = (before.time, before.amount);
    line(&start, end, time, Part::Load)
}

// Returns the slope of a queue that is not empty: the rate less the capacity.
fn queue_change(capacity: Q, rate: Q) -> Result<Q, PassedAt<Q>>
    ensures { result ≡ at_part Load (checked passes_Q Difference rate capacity) }
{
    let change = at!(Part::Load, rate.difference(capacity));
    Ok(change)
}

// Returns the queue at `end` if it changes from `start` at this slope.
#[tactic(auto, unfolding(crate::specs::Paces::grown_by))]
fn grown(change: Q, queue: Q, start: Q, end: Q) -> Result<Q, PassedAt<Q>>
    ensures { result ≡ at_part Load (grown_by passes_Q change queue start end) }
{
    let length = at!(Part::Load, end.difference(start));
    let growth = at!(Part::Load, change.product(length));
    let queue = at!(Part::Load, queue.sum(growth));
    Ok(queue)
}

// Returns the time at which the queue drains to 0. The rate is below the capacity.
#[tactic(auto, unfolding(nf_load_def::specs::Loading::drained), using(crate::proofs::QueueSteps::change_apart))]
fn drained(capacity: Q, rate: Q, queue: Q, start: Q) -> Result<Q, PassedAt<Q>>
    requires { lt_ℚ rate capacity ≡ true }
    ensures { result ≡ at_part Load (lists.drained passes_Q capacity rate queue start) }
{
    let change = at!(Part::Load, rate.difference(capacity));
    let less = at!(Part::Load, Q::zero().difference(queue));
    let length = at!(Part::Load, less.quotient(change));
    let time = at!(Part::Load, start.sum(length));
    Ok(time)
}

// Returns the queue at the end of the piece. The queue changes at the rate less the capacity.
fn grow(capacity: Q, rate: Q, before: &Waits, end: &Point) -> Result<Over, PassedAt<Q>>
    requires later { before.now.time <ℚ end.now.0 }
    requires rate { checked_slope passes_Q (before.now.time, before.now.amount) end.now ≡ Ok rate }
    ensures list { seen_at over_list (λ q. q) result
        ≡ at_part Load (lists.grows passes_Q capacity rate before.now end.now) }
    ensures end { IfOk result (λ over. over.end.time ≡ end.now.0) }
    ensures amount { IfOk result (λ over. over.end.amount ≡ end.now.1) }
    ensures pace { IfOk result (λ over. IsPaced (Some capacity) before.now over) }
{
    let change = queue_change(capacity, rate)?;
    // Proof: the parts of the slope are within the bound.
    change.recall();
    let queue = grown(change, before.queue, before.time, end.0)?;
    Ok(Over {
        empty: None,
        end: Waits {
            time: end.0,
            amount: end.1,
            queue,
        },
        pace: Some(Pace { rate, change }),
    })
}

// Returns a queue that is 0 from `time` on, a time within the piece.
fn drain_at(before: &Waits, end: &Point, time: Q) -> Result<Over, PassedAt<Q>>
    requires { before.now.time <ℚ end.now.0 }
    ensures list { (capacity rate : ℚ) → seen_at over_list (λ q. q) result
        ≡ at_part Load (lists.drains_at passes_Q true capacity rate before.now end.now time) }
    ensures end { IfOk result (λ over. over.end.time ≡ end.now.0) }
    ensures amount { IfOk result (λ over. over.end.amount ≡ end.now.1) }
    ensures pace { (capacity : Option ℚ) → IfOk result (λ over. IsPaced capacity before.now over) }
{
    let amount = amount_at(before, end, time)?;
    Ok(Over {
        empty: Some(Waits {
            time,
            amount,
            queue: Q::zero(),
        }),
        end: Waits {
            time: end.0,
            amount: end.1,
            queue: Q::zero(),
        },
        pace: None,
    })
}

// Returns the queue, which drains until it is empty or the piece ends. The rate is below the capacity.
fn drain(capacity: Q, rate: Q, before: &Waits, end: &Point) -> Result<Over, PassedAt<Q>>
    requires later { before.now.time <ℚ end.now.0 }
    requires rate { checked_slope passes_Q (before.now.time, before.now.amount) end.now ≡ Ok rate }
    requires below { lt_ℚ rate capacity ≡ true }
    ensures list { seen_at over_list (λ q. q) result
        ≡ at_part Load (lists.moves passes_Q true capacity rate before.now end.now) }
    ensures end { IfOk result (λ over. over.end.time ≡ end.now.0) }
    ensures amount { IfOk result (λ over. over.end.amount ≡ end.now.1) }
    ensures pace { IfOk result (λ over. IsPaced (Some capacity) before.now over) }
{
    let time = drained(capacity, rate, before.queue, before.time)?;
    if time.is_below(end.0) {
        return drain_at(before, end, time);
    }
    grow(capacity, rate, before, end)
}

// Returns whether an empty queue stays empty: the rate is at most the capacity.
fn stays_empty(capacity: Q, rate: Q, queue: Q) -> bool
    ensures { result ≡ (is_zero queue && le_ℚ rate capacity) }
{
    queue.is_zero() && rate.is_at_most(capacity)
}

// Returns whether the queue is not empty and drains: the rate is below the capacity.
fn drains(capacity: Q, rate: Q, queue: Q) -> bool
    ensures test { result ≡ (is_positive queue && lt_ℚ rate capacity) }
    ensures below { IsTrue result → lt_ℚ rate capacity ≡ true }
{
    Q::zero().is_below(queue) && rate.is_below(capacity)
}

// Returns the queue over a piece of the inflow, for a link with a capacity.
fn over_bounded(
    capacity: Q,
    before: &Waits,
    end: &Point,
    known: Option<Q>,
) -> Result<Over, PassedAt<Q>>
    requires later { before.now.time <ℚ end.now.0 }
    requires known { IsRate known (before.now.time, before.now.amount) end.now }
    ensures list { seen_at over_list (λ q. q) result
        ≡ at_part Load (lists.after_piece passes_Q (Some capacity) before.now end.now) }
    ensures end { IfOk result (λ over. over.end.time ≡ end.now.0) }
    ensures amount { IfOk result (λ over. over.end.amount ≡ end.now.1) }
    ensures pace { IfOk result (λ over. IsPaced (Some capacity) before.now over) }
{
    let rate = inflow_rate(before, end, known)?;
    if stays_empty(capacity, rate, before.queue) {
        return Ok(empty_at(end, Some(rate)));
    }
    if drains(capacity, rate, before.queue) {
        return drain(capacity, rate, before, end);
    }
    grow(capacity, rate, before, end)
}

// Returns the inflow rate if it is known and the queue is empty.
fn rate_if_empty(before: &Waits, known: Option<Q>) -> Option<Q>
    ensures rate { (p q : SeenPoint) → IsRate known p q → IsRate result p q }
    ensures empty { IfSome result (λ rate. is_zero before.now.queue ≡ true) }
{
    if before.queue.is_zero() { known } else { None }
}

// Returns the queue over a piece of the inflow, whose rate may be known. The queue of an unbounded link is 0.
fn over_piece(
    capacity: &Option<Q>,
    before: &Waits,
    end: &Point,
    known: Option<Q>,
) -> Result<Over, PassedAt<Q>>
    requires later { before.now.time <ℚ end.now.0 }
    requires known { IsRate known (before.now.time, before.now.amount) end.now }
    ensures list { seen_at over_list (λ q. q) result
        ≡ at_part Load (lists.after_piece passes_Q capacity.now before.now end.now) }
    ensures end { IfOk result (λ over. over.end.time ≡ end.now.0) }
    ensures amount { IfOk result (λ over. over.end.amount ≡ end.now.1) }
    ensures pace { IfOk result (λ over. IsPaced capacity.now before.now over) }
{
    match capacity {
        Some(capacity) => over_bounded(*capacity, before, end, known),
        None => Ok(empty_at(end, rate_if_empty(before, known))),
    }
}

/// Moments in order, and the pace from each to the next if it is known.
#[derive(Drop)]
pub(crate) struct Moments {
    pub waits: Vec<Waits>,
    pub paces: Vec<Option<Pace>>,
}

impl Moments {
    // Returns the first moment, with room for `count` of them.
    fn start(alloc: Global, count: usize, first: Waits) -> Result<Moments, AllocError>
        ensures waits { IfOk result (λ moments. moments.waits.items ≡ first ∷ []) }
        ensures paces { IfOk result (λ moments. moments.paces.items ≡ []) }
    {
        let mut waits = Vec::with_capacity(alloc, count)?;
        let paces = Vec::with_capacity(alloc, count)?;
        waits.push(first)?;
        Ok(Moments { waits, paces })
    }

    // Appends the moments of a piece.
    fn put(&mut self, over: &Over) -> Result<(), AllocError>
        ensures waits { OnOk result
            (self.new.waits.items ≡ self.old.waits.items ++ over_list over.now) }
        ensures paces { OnOk result
            (self.new.paces.items ≡ self.old.paces.items ++ over_paces over.now) }
    {
        self.paces.push(over.pace)?;
        if let Some(empty) = over.empty {
            self.waits.push(empty)?;
            self.paces.push(None)?;
        }
        self.waits.push(over.end)?;
        Ok(())
    }
}

// Returns the rate of the piece from the point of this number on, if it is known.
fn rate_at(rates: &[Q], index: usize) -> Option<Q>
    ensures { result ≡ slice_get rates.now index }
{
    if index < rates.len() {
        Some(rates[index])
    } else {
        None
    }
}

/// Returns the queue's moments: time 0, the end of each piece of the inflow, and each time at which the queue drains to 0. `rates` are
/// known rates of the first pieces.
pub(crate) fn all_waits(
    alloc: Global,
    capacity: &Option<Q>,
    inflow: &Curve,
    rates: &[Q],
) -> Result<Moments, Halt<Q>>
    requires { AreRates inflow.now.points rates.now }
    ensures list { Gives (λ moments. moments.waits.items) (λ q. q) result
        (at_part Load (lists.all_waits passes_Q capacity.now inflow.now.points)) }
    ensures paces { IfOk result
        (λ moments. ArePaces capacity.now moments.waits.items moments.paces.items) }
{
    let count = inflow.len();
    let (time, amount) = inflow.point(0);
    let mut last = Waits {
        time,
        amount,
        queue: Q::zero(),
    };
    let mut moments = Moments::start(alloc, count, last)?;
    for i in 1..count {
        let end = inflow.point(i);
        let over = over_piece(capacity, &last, &end, rate_at(rates, i - 1))?;
        moments.put(&over)?;
        last = over.end;
    }
    Ok(moments)
}
