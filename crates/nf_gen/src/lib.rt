//! This crate generates ladders: networks with two rails between the source and the sink, joined by rungs. A linear congruential
//! generator draws the transit times, capacities and rates. Equal numbers and equal rungs give equal networks.
#![tactic(auto)]

ghost use Rattle.nf_gen.specs.Laws.{LadderIsNamed};

mod draws;
mod generating;
mod lines;
mod rails;

pub use generating::generated;

/// A ladder of K rungs, from 1 to 30, is a network within the limits of a file. The network has 2 K + 2 nodes and 3 K + 2 links.
pub fn ladder_is_named()
    ensures { LadderIsNamed }
{}
