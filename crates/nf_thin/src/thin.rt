// The result of `search`.
use nf_frac::Q;
use nf_pattern::Pattern;

/// A thin flow with resetting, with its pattern. `flows` has the flow of each link, an amount per unit of time. `labels` has the slope of
/// each node's label. `place` is the pattern's rank in the listing, counted from 1.
#[derive(Drop)]
pub struct Thin {
    pub flows: Vec<Q>,
    pub labels: Vec<Q>,
    pub pattern: Pattern,
    pub place: u64,
}
