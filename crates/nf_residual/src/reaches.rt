// The result of the Bellman-Ford rounds: for each node the best path to it, if there is one.
ghost use Rattle.std.specs.Prelude.{◌≡◌, ◌<◌, length, map, option_map, IfOk};
ghost use Rattle.nf_quick_def.specs.Rounds.{known_at};
ghost use Rattle.nf_residual.specs.Ways.{place_at, known_by, ArePathsBelow};

use crate::step::Step;
use crate::ways::Ways;
use nf_frac::Q;
use nf_graph::NodeId;
use std::alloc::{AllocError, Global};
use std::marker::Model;

/// A path to a node: its length, a time, and its steps.
#[derive(Drop)]
pub(crate) struct Reach {
    pub distance: Q,
    pub steps: Vec<Step>,
}

impl Model for Reach {
    ghost use Rattle.nf_quick_def.specs.Order.{Reach as SeenReach};
    ghost use Rattle.nf_quick_def.specs.Codes.{coded_reach};

    ghost Value = { SeenReach };

    ghost coded = { coded_reach };

    ghost view = { λ r. record { distance = r.distance; steps = r.steps.items } };
}

/// For each node, by its number, the index of the best path to it; None if no path is known.
#[derive(Drop)]
pub(crate) struct Reaches {
    ways: Ways,
    places: Vec<Option<usize>>,
}

impl Model for Reaches {
    ghost use Rattle.std.specs.Prelude.{length};
    ghost use Rattle.nf_quick_def.specs.Rounds.{Known};
    ghost use Rattle.nf_residual.specs.Ways.{known_by, ArePathsBelow};

    ghost Value = { Known };

    ghost view = { λ r. known_by r.ways r.places.items };

    ghost invariant = { λ r. ArePathsBelow (length r.ways) r.places.items };
}

/// Returns the index of the best path to a node, or None if no path is known.
pub(crate) fn place_of(places: &[Option<usize>], node: usize) -> Option<usize>
    requires { node < length places.now }
    ensures { result ≡ place_at places.now node }
{
    places[node]
}

impl Reaches {
    /// Returns the table made of these paths and, for each node, the index of its best path.
    pub(crate) fn of(ways: Ways, places: Vec<Option<usize>>) -> Reaches
        requires { ArePathsBelow (length ways) places.items }
        ensures { result ≡ known_by ways places.items }
    {
        Reaches { ways, places }
    }

    /// Returns the best path to a node, or None if no path is known. Fails if an allocation fails.
    pub(crate) fn way_to(&self, alloc: Global, node: NodeId) -> Result<Option<Reach>, AllocError>
        requires { node < length self.now }
        ensures { IfOk result (λ way. way ≡ known_at self.now node) }
    {
        match place_of(&self.places, node.index()) {
            None => Ok(None),
            Some(way) => {
                let steps = self.ways.steps(alloc, way)?;
                Ok(Some(Reach {
                    distance: self.ways.distance(way),
                    steps,
                }))
            }
        }
    }

    // Returns the length of the best path to a node, a time, or None if no path is known.
    fn distance_to(&self, node: usize) -> Option<Q>
        requires { node < length self.now }
        ensures { result ≡ option_map (λ reach. reach.distance) (known_at self.now node) }
    {
        match place_of(&self.places, node) {
            None => None,
            Some(way) => Some(self.ways.distance(way)),
        }
    }

    /// Returns for each node the length of the best path to it, a time, or None if no path is known. Fails if an allocation fails.
    pub(crate) fn distances(&self, alloc: Global) -> Result<Vec<Option<Q>>, AllocError>
        ensures { IfOk result
            (λ distances. distances.items ≡ map (option_map (λ reach. reach.distance)) self.now) }
    {
        let mut distances = Vec::with_capacity(alloc, self.places.len())?;
        for node in 0..self.places.len() {
            distances.push(self.distance_to(node))?;
        }
        Ok(distances)
    }
}
