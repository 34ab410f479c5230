// The amount supplied to the source.
ghost use Rattle.std.specs.Prelude.{◌≡◌, drop, IfOk};
ghost use Rattle.nf_rational.specs.Operations.{0ℚ};
ghost use Rattle.nf_rational.specs.Order.{◌≤ℚ◌};
ghost use Rattle.nf_frac_def.specs.Passing.{passes_Q};
ghost use Rattle.nf_model.specs.Network.{supply as supply_of};
ghost use Rattle.nf_net.specs.Supply.{end_before, plus_piece, supplied_after, checked_supply};

use crate::network::Network;
use nf_frac::{Passed, Q};
use nf_net_file::Piece;

// Returns the lesser of the next start and the time.
fn end_before(later: &[Piece], time: Q) -> Q
    ensures { result ≡ end_before later.now time }
{
    match later {
        [] => time,
        [next, ..] => time.lesser(next.start),
    }
}

// Returns the amount so far plus the amount of a piece from its start to `end`.
fn with_amount(so_far: Q, piece: &Piece, end: Q) -> Result<Q, Passed<Q>>
    ensures { result ≡ plus_piece passes_Q so_far piece.now end }
{
    let length = end.difference(piece.start)?;
    let amount = piece.rate.product(length)?;
    so_far.sum(amount)
}

fn amount_of(pieces: &[Piece], time: Q) -> Result<Q, Passed<Q>>
    ensures { result ≡ supplied_after passes_Q 0ℚ pieces.now time }
{
    let mut so_far = Q::zero();
    for (index, piece) in pieces.iter().enumerate() {
        if piece.start.is_below(time) {
            let end = end_before(&pieces[index + 1..], time);
            so_far = with_amount(so_far, piece, end)?;
        }
    }
    Ok(so_far)
}

/// Returns the amount supplied to the source from time 0 to `time`, which must be at least 0. Each piece adds its rate times the duration
/// during which it is the latest one started. Fails exactly if an operation passes, with the first such operation. For each piece that
/// starts before `time`, in order, the operations are the difference of end and start, the product with the rate, and the sum.
pub fn supply(net: &Network, time: Q) -> Result<Q, Passed<Q>>
    requires { 0ℚ ≤ℚ time }
    ensures operations { result ≡ checked_supply passes_Q net.now.net time }
    ensures value { IfOk result (λ amount. amount ≡ supply_of net.now.net time) }
{
    amount_of(net.pieces(), time)
}
