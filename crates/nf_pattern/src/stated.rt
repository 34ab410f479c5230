// An index of the links that have a state in a base; searches skip the others.
ghost use Rattle.std.specs.Prelude.{◌≡◌, ◌<◌, ◌≤◌, ℕ, suc, length, Some, slice_get, IfOk};
ghost use Rattle.nf_pattern.specs.Stated.{AreIdle, IsNextFrom, IsLastTo};

use nf_model::State;
use std::alloc::{AllocError, Global};

// An index of the links with a state. `next` has for each link the next one from it on, or the number of links. `last` has the last one up
// to it, or 0.
#[derive(Drop)]
pub(crate) struct StatedLinks {
    next: Vec<usize>,
    last: Vec<usize>,
}

// Returns the link itself if it has a state, and otherwise `behind`, the next such link after it.
fn next_here(base: &[Option<State>], link: usize, behind: usize) -> usize
    requires link { link < length base.now }
    requires behind { IsNextFrom base.now (suc link) behind }
    ensures { IsNextFrom base.now link result }
{
    if base[link].is_some() { link } else { behind }
}

// Returns for each link the next link from it on that has a state, or the number of links. Fails if an allocation fails.
fn next_stated(alloc: Global, base: &[Option<State>]) -> Result<Vec<usize>, AllocError>
    ensures count { IfOk result (λ next. length next.items ≡ length base.now) }
    ensures next { IfOk result
        (λ next. (e n : ℕ) → slice_get next.items e ≡ Some n → IsNextFrom base.now e n) }
{
    let links = base.len();
    let mut next = vec![in alloc; links; links]?;
    let mut found = links;
    let mut e = links;
    while e > 0 {
        e -= 1;
        found = next_here(base, e, found);
        next[e] = found;
    }
    Ok(next)
}

// Returns the link itself if it has a state, and otherwise `before`, the last such link before it.
fn last_here(base: &[Option<State>], link: usize, before: usize) -> usize
    requires link { link < length base.now }
    requires before { (before ≤ link) × AreIdle base.now (suc before) link }
    ensures { IsLastTo base.now link result }
{
    if base[link].is_some() { link } else { before }
}

// Returns for each link the last link up to it that has a state, or 0. Fails if an allocation fails.
fn last_stated(alloc: Global, base: &[Option<State>]) -> Result<Vec<usize>, AllocError>
    ensures count { IfOk result (λ last. length last.items ≡ length base.now) }
    ensures last { IfOk result
        (λ last. (e n : ℕ) → slice_get last.items e ≡ Some n → IsLastTo base.now e n) }
{
    let mut last = Vec::new(alloc);
    let mut found = 0;
    for e in 0..base.len() {
        found = last_here(base, e, found);
        last.push(found)?;
    }
    Ok(last)
}

impl StatedLinks {
    ghost use Rattle.std.specs.Prelude.{◌<◌, ◌≤◌, length, IfOk};
    ghost use Rattle.nf_model.specs.Pattern.{Pattern as SeenPattern};
    ghost use Rattle.nf_pattern.specs.Stated.{IsNextFrom, IsLastTo, AreStated};

    // Returns the index of a base. Fails if an allocation fails.
    pub(crate) fn new(alloc: Global, base: &[Option<State>]) -> Result<StatedLinks, AllocError>
        ensures { IfOk result (λ stated. AreStated base.now stated) }
    {
        let next = next_stated(alloc, base)?;
        let last = last_stated(alloc, base)?;
        Ok(StatedLinks { next, last })
    }

    // Returns the next link from this one on that has a state, or the number of links.
    pub(crate) fn from(&self, link: usize) -> usize
        ensures { (p : SeenPattern) → AreStated p self.now → link ≤ length p
            → IsNextFrom p link result }
    {
        if link < self.next.len() {
            self.next[link]
        } else {
            link
        }
    }

    // Returns the last link up to this one that has a state, or 0.
    pub(crate) fn up_to(&self, link: usize) -> usize
        ensures { (p : SeenPattern) → AreStated p self.now → IsLastTo p link result }
    {
        if link < self.last.len() {
            self.last[link]
        } else {
            link
        }
    }
}
