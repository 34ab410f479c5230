// What is wrong with a piece behind others.
ghost use Rattle.std.specs.Prelude.{◌≡◌, None};
ghost use Rattle.std.specs.List.{last_or};
ghost use Rattle.nf_net_def.specs.NetLines as lines;
ghost use Rattle.nf_side_def.specs.Lines.{piece_rule as piece_rule_by};

use nf_frac::Q;
use nf_net::Piece;

/// The most lines of a link in a loads file, and of a route in a routes file.
pub const MOST_LINES: usize = 200;

/// The rules that a piece can break behind others, for one kind of side file.
#[derive(Clone, Copy)]
pub struct PieceRules<R> {
    /// Its start or its rate is negative.
    pub negative: R,
    /// Its start isn't after that of the piece before.
    pub not_after: R,
    /// There are already `most` pieces.
    pub too_many: R,
    pub most: usize,
}

// A start isn't after that of the last piece.
fn is_not_after(before: &[Piece], start: Q) -> bool
    ensures { result ≡ lines.is_not_after start (last_or None before.now) }
{
    if before.is_empty() {
        return false;
    }
    let last = &before[before.len() - 1];
    start.is_at_most(last.start)
}

/// The first rule that a piece breaks behind those before it, in the order of the fields of PieceRules; None where it breaks none. Takes
/// no memory.
pub fn piece_rule<R: Copy>(before: &[Piece], piece: &Piece, rules: PieceRules<R>) -> Option<R>
    ensures { result ≡ piece_rule_by rules.most rules.negative rules.not_after rules.too_many
        before.now piece.now }
{
    if piece.start.is_below(Q::zero()) || piece.rate.is_below(Q::zero()) {
        return Some(rules.negative);
    }
    if is_not_after(before, piece.start) {
        return Some(rules.not_after);
    }
    if before.len() >= rules.most {
        return Some(rules.too_many);
    }
    None
}
