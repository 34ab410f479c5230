// A settled thin flow.
use nf_frac::Q;
use nf_pattern::Pattern;

/// A settled thin flow. `flows` holds the flow of each link, an amount per unit of time. `pattern` holds the state of each link that needs
/// one.
#[derive(Drop)]
pub struct Settled {
    pub flows: Vec<Q>,
    pub pattern: Pattern,
}
