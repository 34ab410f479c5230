// Patterns: one optional state for each link.
use nf_graph::LinkId;
use nf_model::State;
use std::alloc::{AllocError, Global};
use std::marker::Model;

/// A pattern: for each link its state, or none.
#[derive(Drop)]
pub struct Pattern {
    pub(crate) states: Vec<Option<State>>,
}

impl Model for Pattern {
    ghost use Rattle.nf_model.specs.Pattern.{Pattern as SeenPattern};
    ghost use Rattle.nf_model.specs.Codes.{coded_pattern};

    ghost Value = { SeenPattern };

    ghost coded = { coded_pattern };

    ghost view = { λ a. a.states.items };
}

impl Pattern {
    ghost use Rattle.std.specs.Prelude.{◌≡◌, ◌<◌, length, replicate, slice_get, slice_set, Some, None, IfOk};

    /// Returns a pattern of `links` links, none of which has a state. Fails if an allocation fails.
    pub fn none(alloc: Global, links: u32) -> Result<Pattern, AllocError>
        ensures { IfOk result (λ pattern. pattern ≡ replicate links None) }
    {
        let states = vec![in alloc; None; links as usize]?;
        Ok(Pattern { states })
    }

    // Returns the pattern of these states, link by link.
    pub(crate) fn of(states: Vec<Option<State>>) -> Pattern
        ensures { result ≡ states.items }
    {
        Pattern { states }
    }

    // Returns the states, link by link.
    pub(crate) fn states(&self) -> &[Option<State>]
        ensures { result.now ≡ self.now }
    {
        self.states.as_slice()
    }

    /// Returns the state of a link, or `None` if it has none.
    pub fn state(&self, link: LinkId) -> Option<State>
        requires { link < length self.now }
        ensures { slice_get self.now link ≡ Some result }
    {
        self.states[link.index()]
    }

    /// Sets the state of a link. The other links keep theirs.
    pub fn set(&mut self, link: LinkId, state: Option<State>)
        requires { link < length self.old }
        ensures { self.new ≡ slice_set self.old link state }
    {
        self.states[link.index()] = state;
    }

    /// Returns an equal pattern. Fails if an allocation fails.
    pub fn copy(&self, alloc: Global) -> Result<Pattern, AllocError>
        ensures { IfOk result (λ pattern. pattern ≡ self.now) }
    {
        let states = self.states.as_slice().to_vec(alloc)?;
        Ok(Pattern { states })
    }
}
