// Walks with rates.
use nf_frac::Q;
use nf_graph::LinkId;
use nf_residual::Walk;
use std::marker::Model;

/// A walk from source to sink, by its links. It is fed at a constant rate from time 0 for as long as the flow can still arrive by the end
/// (temporally repeated flows go back to Ford and Fulkerson 1958).
#[derive(Drop)]
pub struct Rated {
    pub rate: Q,
    pub links: Vec<LinkId>,
}

impl Model for Rated {
    ghost use Rattle.nf_model.specs.Quickest.{Fed};
    ghost use Rattle.nf_quick_walks.specs.Codes.{coded_fed};

    ghost Value = { Fed };

    ghost coded = { coded_fed };

    ghost view = { λ r. record { rate = r.rate; walk = r.links.items } };
}

/// A pushed residual walk, with the pushed rate `amount`.
#[derive(Drop)]
pub struct Augment {
    pub walk: Walk,
    pub amount: Q,
}

impl Model for Augment {
    ghost use Rattle.nf_quick_def.specs.Quick.{Augment as SeenAugment};
    ghost use Rattle.nf_quick_walks.specs.Codes.{coded_augment};

    ghost Value = { SeenAugment };

    ghost coded = { coded_augment };

    ghost view = { λ a. record { walk = a.walk; amount = a.amount } };
}
