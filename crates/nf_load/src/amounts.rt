// The amount supplied by pieces, by time, and the rates between its points.
ghost use Rattle.std.specs.Prelude.{◌≡◌, ◌+◌, [], ◌∷◌, ◌++◌, length, IfOk, OnOk};
ghost use Rattle.nf_rational.specs.Operations.{0ℚ};
ghost use Rattle.nf_rational.specs.Order.{◌≤ℚ◌};
ghost use Rattle.nf_frac_def.specs.declared.Part.TheVariants.{Load};
ghost use Rattle.nf_frac_def.specs.Passing.{passes_Q};
ghost use Rattle.nf_frac_def.specs.Checked.{at_part, Gives};
ghost use Rattle.nf_model.specs.Network.{ArePieces};
ghost use Rattle.nf_load_def.specs.Cumulative as lists;
ghost use Rattle.nf_load_def.specs.Cumulative.{point_if_after_0, checked_cumulative};
ghost use Rattle.nf_load_def.specs.Meanings.{IsCumulative};
ghost use Rattle.nf_load.specs.Rates.{AreRates, rate_if_after_0};

use nf_curve::{Curve, Point, Trace};
use nf_frac::{Halt, Part, PassedAt, Q, at};
use nf_net::Piece;
use std::alloc::{AllocError, Global};

// Returns the lesser of the next piece's start and `last`.
fn end_of(later: &[Piece], last: Q) -> Q
    ensures { result ≡ lists.piece_end later.now last }
{
    match later {
        [] => last,
        [next, ..] => next.start.lesser(last),
    }
}

// Adds the amount of a piece from its start to `end` to the amount so far.
fn with_piece(so_far: Q, piece: &Piece, end: Q) -> Result<Q, PassedAt<Q>>
    ensures { result ≡ at_part Load (lists.with_piece passes_Q so_far piece.now end) }
{
    let length = at!(Part::Load, end.difference(piece.start));
    let amount = at!(Part::Load, piece.rate.product(length));
    let sum = at!(Part::Load, so_far.sum(amount));
    Ok(sum)
}

// Appends the point, unless its time is 0.
#[tactic(auto, using(crate::proofs::Supplying::after_0, nf_load_laws::proofs::Cumulative::at_0))]
fn push_after_0(points: &mut Vec<Point>, time: Q, amount: Q) -> Result<(), AllocError>
    ensures { OnOk result (points.new.items ≡ points.old.items ++ point_if_after_0 time amount) }
{
    if !time.is_zero() {
        points.push((time, amount))?;
    }
    Ok(())
}

// Appends the rate of the piece that ends at a time, unless the time is 0.
#[tactic(auto, using(crate::proofs::Supplying::rate_after_0, crate::proofs::Supplying::rate_at_0))]
fn push_rate(rates: &mut Vec<Q>, time: Q, rate: Q) -> Result<(), AllocError>
    ensures { OnOk result (rates.new.items ≡ rates.old.items ++ rate_if_after_0 time rate) }
{
    if !time.is_zero() {
        rates.push(rate)?;
    }
    Ok(())
}

// Points, and the rates between them.
#[derive(Drop)]
struct Supply {
    points: Vec<Point>,
    rates: Vec<Q>,
}

impl Supply {
    // Returns the point at time 0, with room for the points of these pieces.
    fn start(alloc: Global, pieces: &[Piece]) -> Result<Supply, AllocError>
        ensures points { IfOk result (λ supply. supply.points.items ≡ (0ℚ, 0ℚ) ∷ []) }
        ensures rates { IfOk result (λ supply. supply.rates.items ≡ []) }
    {
        let mut points = Vec::with_capacity(alloc, pieces.len() + 2)?;
        let rates = Vec::with_capacity(alloc, pieces.len() + 1)?;
        points.push((Q::zero(), Q::zero()))?;
        Ok(Supply { points, rates })
    }

    // Appends the point and the rate before it, unless the point's time is 0.
    fn push(&mut self, time: Q, amount: Q, rate: Q) -> Result<(), AllocError>
        ensures points { OnOk result
            (self.new.points.items ≡ self.old.points.items ++ point_if_after_0 time amount) }
        ensures rates { OnOk result
            (self.new.rates.items ≡ self.old.rates.items ++ rate_if_after_0 time rate) }
    {
        push_after_0(&mut self.points, time, amount)?;
        push_rate(&mut self.rates, time, rate)
    }

    // Appends the point at `last` and the rate before it, unless `last` is 0.
    fn ended(mut self, last: Q, so_far: Q, rate: Q) -> Result<Supply, AllocError>
        ensures points { IfOk result
            (λ all. all.points.items ≡ self.points.items ++ point_if_after_0 last so_far) }
        ensures rates { IfOk result
            (λ all. all.rates.items ≡ self.rates.items ++ rate_if_after_0 last rate) }
    {
        self.push(last, so_far, rate)?;
        Ok(self)
    }
}

// Returns the points at time 0, at the start of each piece before `last`, and at `last`, with the rates between them.
fn supply_until(alloc: Global, pieces: &[Piece], last: Q) -> Result<Supply, Halt<Q>>
    requires { ArePieces pieces.now }
    ensures list { Gives (λ supply. supply.points.items) (λ q. q) result
        (at_part Load (checked_cumulative passes_Q pieces.now last)) }
    ensures rates { IfOk result (λ supply. AreRates supply.points.items supply.rates.items) }
    ensures all { IfOk result (λ supply. length supply.points.items ≡ length supply.rates.items + 1) }
{
    let mut supply = Supply::start(alloc, pieces)?;
    let mut so_far = Q::zero();
    let mut rate = Q::zero();
    // Proof: the parts of a time or a rate are within the bound.
    last.recall();
    for (index, piece) in pieces.iter().enumerate() {
        if !piece.start.is_below(last) {
            return Ok(supply.ended(last, so_far, rate)?);
        }
        piece.start.recall();
        piece.rate.recall();
        let sum = with_piece(so_far, piece, end_of(&pieces[index + 1..], last))?;
        supply.push(piece.start, so_far, rate)?;
        so_far = sum;
        rate = piece.rate;
    }
    Ok(supply.ended(last, so_far, rate)?)
}

/// Returns the amount that the pieces supply by each time up to `until`, a time of at least 0. The amount is constant after `until`. The
/// starts of the pieces rise from at least 0, and their rates are at least 0. Without pieces the amount is 0. Returns `Passed` exactly at
/// the first operation of its operation sequence that passes, with part Load.
pub fn cumulative(alloc: Global, pieces: &[Piece], until: Q) -> Result<Curve, Halt<Q>>
    requires pieces { ArePieces pieces.now }
    requires until { 0ℚ ≤ℚ until }
    ensures list { Gives (λ c. c.points) (λ q. q) result
        (at_part Load (checked_cumulative passes_Q pieces.now until)) }
    ensures amount { IfOk result (λ c. IsCumulative pieces.now until c.points) }
{
    let trace = supplied(alloc, pieces, until)?;
    Ok(trace.curve)
}

/// Returns the same curve as `cumulative`, with the rates between its points, one for each piece. No operation of these slopes passes.
pub fn supplied(alloc: Global, pieces: &[Piece], until: Q) -> Result<Trace, Halt<Q>>
    requires pieces { ArePieces pieces.now }
    requires until { 0ℚ ≤ℚ until }
    ensures list { Gives (λ t. t.curve.points) (λ q. q) result
        (at_part Load (checked_cumulative passes_Q pieces.now until)) }
    ensures amount { IfOk result (λ t. IsCumulative pieces.now until t.curve.points) }
    ensures rates { IfOk result (λ t. AreRates t.curve.points t.rates.items) }
    ensures all { IfOk result (λ t. length t.curve.points ≡ length t.rates.items + 1) }
{
    let supply = supply_until(alloc, pieces, until)?;
    Ok(Trace {
        curve: Curve::of_points(supply.points),
        rates: supply.rates,
    })
}
