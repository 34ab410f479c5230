// Arrivals in an equilibrium.
use nf_curve::Stop;
use nf_frac::Q;

/// The arrival of an amount in an equilibrium.
#[derive(Clone, Copy)]
pub enum Arrival {
    /// The amount is never supplied.
    Never,
    /// The arrival at the sink, a time.
    At(Q),
    /// The run ended before the departure by which the amount is supplied.
    Stopped(Stop),
}
