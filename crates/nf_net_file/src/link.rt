// Links and pieces of the supply.
ghost use Rattle.std.specs.Prelude.{◌≡◌};

use crate::name::Name;
use nf_frac::Q;
use nf_graph::NodeId;
use std::marker::Model;

/// A link leads from its tail to its head. Flow that enters it waits in a queue at the tail, leaves the queue at most at the rate
/// `capacity`, an amount per unit of time, and then takes the time `transit`. A link without a capacity is unbounded: it has no
/// queue. In a network that is read, `transit` is at least 0 and `capacity` above 0.
#[derive(Clone, Copy)]
pub struct Link {
    pub tail: NodeId,
    pub head: NodeId,
    pub transit: Q,
    pub capacity: Option<Q>,
}

impl Model for Link {
    ghost use Rattle.nf_model.specs.Network.{Link as SeenLink};
    ghost use Rattle.nf_model.specs.Codes.{coded_link};

    ghost Value = { SeenLink };

    ghost coded = { coded_link };

    ghost view = { λ a. record { tail = a.tail; head = a.head; transit = a.transit; capacity = a.capacity } };

    ghost inverse = { λ l. record { tail = l.tail; head = l.head; transit = l.transit; capacity = l.capacity } };
}

/// A piece of the supply: the source is supplied at `rate`, an amount per unit of time, from the time `start` until the next piece starts.
#[derive(Clone, Copy)]
pub struct Piece {
    pub start: Q,
    pub rate: Q,
}

impl Model for Piece {
    ghost use Rattle.nf_model.specs.Network.{Piece as SeenPiece};
    ghost use Rattle.nf_model.specs.Codes.{coded_piece};

    ghost Value = { SeenPiece };

    ghost coded = { coded_piece };

    ghost view = { λ a. record { start = a.start; rate = a.rate } };

    ghost inverse = { λ p. record { start = p.start; rate = p.rate } };
}

/// A link by names: its own and those of its ends. Readers use it until links have numbers, and for idle links.
#[derive(Drop)]
pub struct NamedLink {
    pub name: Name,
    pub tail: Name,
    pub head: Name,
    pub transit: Q,
    pub capacity: Option<Q>,
}

impl Model for NamedLink {
    ghost use Rattle.nf_net_def.specs.Named.{NamedLink as SeenLink, coded_named_link};

    ghost Value = { SeenLink };

    ghost coded = { coded_named_link };

    ghost view = { λ a. record { name = a.name; tail = a.tail; head = a.head; transit = a.transit; capacity = a.capacity } };
}

impl NamedLink {
    /// Returns a copy of the link.
    pub fn copy(&self) -> NamedLink
        ensures { result ≡ self.now }
    {
        NamedLink {
            name: self.name.copy(),
            tail: self.tail.copy(),
            head: self.head.copy(),
            transit: self.transit,
            capacity: self.capacity,
        }
    }
}
