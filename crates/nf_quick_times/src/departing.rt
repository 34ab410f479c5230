// The least departure by which the supply reaches an amount.
ghost use Rattle.std.specs.Prelude.{◌≡◌, IfOk, slice_get, option_map};
ghost use Rattle.nf_rational.specs.Rational.{ℚ};
ghost use Rattle.nf_rational.specs.Operations.{0ℚ};
ghost use Rattle.nf_rational.specs.Order.{◌≤ℚ◌, ◌<ℚ◌, lt_ℚ};
ghost use Rattle.nf_frac_def.specs.declared.Part.TheVariants.{Quick};
ghost use Rattle.nf_frac_def.specs.Passing.{passes_Q};
ghost use Rattle.nf_frac_def.specs.Checked.{Checked, at_part};
ghost use Rattle.nf_net.specs.Supply.{plus_piece as with_piece_by, checked_supply};
ghost use Rattle.nf_quick_def.specs.Departures.{within_piece, last_piece, departs as departs_by, departure_list, IsDeparture};

use nf_frac::{Part, PassedAt, Q};
use nf_net::{Network, Piece};

// Returns the departure in a piece of rate above 0, where `known` is the amount supplied before its start.
fn within(amount: Q, known: Q, piece: &Piece) -> Result<Option<Q>, PassedAt<Q>>
    requires { 0ℚ <ℚ piece.now.rate }
    ensures { (supply_at : ℚ → Checked ℚ)
        → result ≡ at_part Quick (within_piece passes_Q supply_at amount known piece.now) }
{
    let wanted = nf_frac::at!(Part::Quick, amount.difference(known));
    let length = nf_frac::at!(Part::Quick, wanted.quotient(piece.rate));
    let time = nf_frac::at!(Part::Quick, piece.start.sum(length));
    Ok(Some(time))
}

// Returns the departure in the last piece, or None if its rate is 0 or less.
fn in_last(amount: Q, known: Q, piece: &Piece) -> Result<Option<Q>, PassedAt<Q>>
    ensures { (supply_at : ℚ → Checked ℚ)
        → result ≡ at_part Quick
        (last_piece passes_Q supply_at amount (lt_ℚ 0ℚ piece.now.rate) known piece.now) }
{
    if !Q::zero().is_below(piece.rate) {
        return Ok(None);
    }
    within(amount, known, piece)
}

// Returns the start of a piece, a time, or None if there is no piece of this index.
fn start_at(pieces: &[Piece], index: usize) -> Option<Q>
    ensures { result ≡ option_map (λ piece. piece.start) (slice_get pieces.now index) }
{
    if index < pieces.len() {
        let piece: &Piece = &pieces[index];
        Some(piece.start)
    } else {
        None
    }
}

// Adds to `known` the amount that a piece supplies up to the next start.
fn with_piece(known: Q, piece: &Piece, next: Q) -> Result<Q, PassedAt<Q>>
    ensures { result ≡ at_part Quick (with_piece_by passes_Q known piece.now next) }
{
    let length = nf_frac::at!(Part::Quick, next.difference(piece.start));
    let amount = nf_frac::at!(Part::Quick, piece.rate.product(length));
    Ok(nf_frac::at!(Part::Quick, known.sum(amount)))
}

// Returns the departure for an amount above 0. It lies in the first piece by whose end the amount is supplied, or else in the last piece.
// `known` holds the supply by the start of each piece: computing it anew would repeat the same operations.
fn departs(net: &Network, amount: Q) -> Result<Option<Q>, PassedAt<Q>>
    requires { 0ℚ <ℚ amount }
    ensures { result ≡ at_part Quick
        (departs_by passes_Q (checked_supply passes_Q net.now.net) amount 0ℚ net.now.net.pieces) }
{
    let pieces = net.pieces();
    let mut known = Q::zero();
    for (index, piece) in pieces.iter().enumerate() {
        let Some(next) = start_at(pieces, index + 1) else {
            return in_last(amount, known, piece);
        };
        let by_next = with_piece(known, piece, next)?;
        if amount.is_at_most(by_next) {
            return within(amount, known, piece);
        }
        known = by_next;
    }
    Ok(None)
}

/// Returns the least departure, a time of at least 0, by which the source is supplied with `amount`, which is at least 0. Returns None
/// exactly if the supply never reaches `amount`. Refuses with Passed, of the part Quick, at the first operation that exceeds its bound. The
/// operations of each piece give the supply by the next start. In the piece that reaches the amount, they give the missing amount, its
/// quotient by the rate, and the sum of that and the piece's start.
#[tactic(auto, unfolding(nf_quick_def::specs::Departures::departure_list))]
pub fn departure(net: &Network, amount: Q) -> Result<Option<Q>, PassedAt<Q>>
    requires amount { 0ℚ ≤ℚ amount }
    ensures list { result ≡ at_part Quick
        (departure_list passes_Q (checked_supply passes_Q net.now.net) amount net.now.net.pieces) }
    ensures least { IfOk result (IsDeparture net.now.net amount) }
{
    net.recall();
    if amount.is_at_most(Q::zero()) {
        return Ok(Some(Q::zero()));
    }
    departs(net, amount)
}
