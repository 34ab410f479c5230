// Steps along links, forward or backward.
use nf_graph::LinkId;
use std::marker::Model;

/// A step along a link, forward or backward.
#[derive(Clone, Copy)]
pub struct Step {
    pub link: LinkId,
    pub forward: bool,
}

impl Model for Step {
    ghost use Rattle.std.specs.Prelude.{ℕ, Bool};

    ghost Value = { ℕ × Bool };

    ghost view = { λ s. (s.link, s.forward) };

    ghost inverse = { λ p. record { link = p.0; forward = p.1 } };
}
