// What a search is asked.
use nf_frac::Q;
use nf_thin_rank::Ranking;

/// What a search is asked: the listing of the patterns that it tries, with the budget, and the supply `rate`, an amount per unit of time.
#[derive(Clone, Copy)]
pub(crate) struct Problem<'a> {
    pub(crate) ranking: Ranking<'a>,
    pub(crate) rate: Q,
}
