// The meaning of a line of a report.
use nf_curve::Stop;
use nf_frac::Q;
use nf_model::State;
use nf_net::LinkId;

/// The curve that a line extends. `GoesOn` means the current curve, and `Begins` the next one.
#[derive(Clone, Copy)]
pub enum Opening {
    GoesOn,
    Begins,
}

/// A point of a curve. `rate` is the slope to the next point, if the line has one.
#[derive(Clone, Copy)]
pub struct RatedPoint {
    pub time: Q,
    pub value: Q,
    pub rate: Option<Q>,
}

/// The meaning of a line.
#[derive(Drop)]
pub enum Entry {
    Version,
    Horizon(Q),
    Reached(Q),
    Cause(Option<Stop>),
    OfCurve(Opening, RatedPoint),
    Never,
    OfLink(LinkId, State),
    End,
}
