//! This crate defines the model: networks, queues, flows over time, equilibria and quickest flows. `specs/` holds the definitions, and
//! docs/MODEL.md states them in prose. The code contains only plain enums that code and definitions share.
#![tactic(auto)]

/// The state, in a phase, of an active link that is not resetting. `Tight`: the labels of both ends have the same slope, and the link
/// carries any flow up to its capacity. `Full`: the link carries its capacity, and its queue may grow. `Zero`: the link carries nothing,
/// and may become inactive. (These are the cases of a thin flow with resetting, Cominetti, Correa and Larré 2015.)
#[derive(Clone, Copy, PartialEq, Eq)]
pub enum State {
    Tight,
    Full,
    Zero,
}
