// The rate of the supply, and when it changes.
ghost use Rattle.std.specs.Prelude.{◌≡◌};
ghost use Rattle.nf_rational.specs.Operations.{0ℚ};
ghost use Rattle.nf_model.specs.Network.{rate_from, first_start};

use crate::link::Piece;
use nf_frac::Q;

/// Returns the rate of the last piece that starts at or before the time, or 0 if none does.
pub fn rate_of(pieces: &[Piece], time: Q) -> Q
    ensures { result ≡ rate_from 0ℚ pieces.now time }
{
    let mut rate = Q::zero();
    for piece in pieces {
        if !piece.start.is_at_most(time) {
            return rate;
        }
        rate = piece.rate;
    }
    rate
}

/// Returns the first start of a piece after the time. Returns None exactly if there is none.
pub fn start_after(pieces: &[Piece], time: Q) -> Option<Q>
    ensures { result ≡ first_start pieces.now time }
{
    for piece in pieces {
        if time.is_below(piece.start) {
            return Some(piece.start);
        }
    }
    None
}
