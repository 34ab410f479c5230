// The result of a run without a horizon.
use nf_curve::{Flow, Stop};
use nf_frac::Q;
use nf_pattern::Pattern;

/// The change of labels and flows in a last phase that never ends: the slope of each node's label, and the flow of each link, an amount per
/// unit of time of departure (Cominetti, Correa and Larré 2015: long term behaviour).
#[derive(Drop)]
pub struct Tail {
    pub slopes: Vec<Q>,
    pub flows: Vec<Q>,
}

/// The result of a run without a horizon. It has the flow up to the departure reached, and the number of phases, not counting the tail.
/// `last` has the state of each link in the tail, or in the last phase if there is no tail. Exactly one of `stopped` and `tail` is present:
/// why the run stopped, or the tail by which the flow continues forever.
#[derive(Drop)]
pub struct Forever {
    pub flow: Flow,
    pub phases: u64,
    pub last: Pattern,
    pub stopped: Option<Stop>,
    pub tail: Option<Tail>,
}
