// The content of a flows file.
use nf_frac::Q;

/// Flows and slopes of a network. The flow of a link is a rate. The slope of a node is the growth of its label per unit of departure time.
/// No number is negative. A number that the file does not name is 0.
#[derive(Drop)]
pub struct Flows {
    pub flows: Vec<Q>,
    pub slopes: Vec<Q>,
}
