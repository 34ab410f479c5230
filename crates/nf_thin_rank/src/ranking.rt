// The listing of a network's patterns, with a budget of ranks.
use nf_graph::LinkSets;
use nf_net::Network;
use nf_pattern::Pattern;

/// A borrowed view of a listing and a budget. `sets` are the active and resetting links. The patterns of the network and these sets are
/// listed in their order by changes from `base`, and at most `budget` of them are tried.
#[derive(Clone, Copy)]
pub struct Ranking<'a> {
    pub net: &'a Network,
    pub sets: &'a LinkSets,
    pub base: &'a Pattern,
    pub budget: u64,
}
