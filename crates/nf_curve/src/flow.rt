// The flow over time of a run.
use crate::curve::Curve;
use nf_frac::Q;
use nf_net_def::Cause;

/// A cumulative amount by time. Each point but the last has a rate: the slope from that point to the next.
#[derive(Drop)]
pub struct Trace {
    pub curve: Curve,
    pub rates: Vec<Q>,
}

/// A flow over time, up to departure `reached`. `labels` gives the earliest arrival time at each node by departure time. `inflows`,
/// `outflows` and `queues` give, for each link by time, the amounts that entered, left and wait.
#[derive(Drop)]
pub struct Flow {
    pub reached: Q,
    pub labels: Vec<Curve>,
    pub inflows: Vec<Trace>,
    pub outflows: Vec<Trace>,
    pub queues: Vec<Curve>,
}

/// The cause of a stop before the horizon.
pub type Stop = Cause<Q>;
