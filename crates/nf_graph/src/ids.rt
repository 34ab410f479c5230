// Nodes and links by their numbers, and hops.
ghost use Rattle.std.specs.Prelude.{◌≡◌};

use nf_frac::Q;
use std::marker::Model;

/// A node, by its number.
#[derive(Clone, Copy, PartialEq, Eq)]
pub struct NodeId(pub u32);

impl Model for NodeId {
    ghost use Rattle.std.specs.Prelude.{ℕ};

    ghost Value = { ℕ };

    ghost view = { λ a. a.0 };

    ghost inverse = { λ n. record { 0 = n } };
}

impl NodeId {
    /// Returns its index in a list with one entry for each node.
    #[inline(always)]
    pub fn index(self) -> usize
        ensures { result ≡ self }
    {
        self.0 as usize
    }
}

/// A link, by its number.
#[derive(Clone, Copy, PartialEq, Eq)]
pub struct LinkId(pub u32);

impl Model for LinkId {
    ghost use Rattle.std.specs.Prelude.{ℕ};

    ghost Value = { ℕ };

    ghost view = { λ a. a.0 };

    ghost inverse = { λ n. record { 0 = n } };
}

impl LinkId {
    /// Returns its index in a list with one entry for each link.
    #[inline(always)]
    pub fn index(self) -> usize
        ensures { result ≡ self }
    {
        self.0 as usize
    }
}

/// A link without its capacity: it leads from one node to another and takes its transit time, which is in the unit of time.
#[derive(Clone, Copy)]
pub struct Hop {
    pub tail: NodeId,
    pub head: NodeId,
    pub transit: Q,
}

impl Model for Hop {
    ghost use Rattle.nf_model.specs.Walk.{Hop as SeenHop};
    ghost use Rattle.nf_model.specs.Codes.{coded_hop};

    ghost Value = { SeenHop };

    ghost coded = { coded_hop };

    ghost view = { λ a. record { tail = a.tail; head = a.head; transit = a.transit } };

    ghost inverse = { λ h. record { tail = h.tail; head = h.head; transit = h.transit } };
}
