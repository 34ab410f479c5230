// Paths from one node, each with an index, and their order: by length, then by number of steps, then lexicographically by their steps.
ghost use Rattle.std.specs.Prelude.{◌≡◌, ◌+◌, ◌^◌, ◌<◌, ◌≤◌, nat_abs, ◌++◌, [], ◌∷◌, suc, length, option_map, IfOk, IfSome, OnOk};
ghost use Rattle.nf_rational.specs.Rational.{ℚ};
ghost use Rattle.nf_rational.specs.Operations.{whole};
ghost use Rattle.nf_rational.specs.Order.{cmp_ℚ};
ghost use Rattle.nf_frac_def.specs.declared.Part.TheVariants.{Quick};
ghost use Rattle.nf_frac_def.specs.Passing.{passes_Q};
ghost use Rattle.nf_frac_def.specs.Checked.{checked_at};
ghost use Rattle.nf_quick_def.specs.Steps.{place as place_of};
ghost use Rattle.nf_quick_def.specs.Rounds.{op_of};
ghost use Rattle.nf_quick_def.specs.Order.{are_before as are_before_by, are_fewer_or_before as are_fewer_or_before_by, is_better as is_better_by};
ghost use Rattle.nf_residual.specs.Lengths.{longest_whole, IsExactStep};
ghost use Rattle.nf_residual.specs.Ways.{first_twig, twig_at, way_at, extended_by, one_before, gains, twig_after, IsPathTree};

use crate::legs::Leg;
use crate::length::Length;
use crate::step::Step;
use nf_frac::{PassedAt, Q};
use nf_graph::LinkId;
use std::alloc::{AllocError, Global};
use std::cmp::Ordering;
use std::marker::Model;

/// A path: its length, its number of steps, its last step, and the index of the path before that step.
#[derive(Drop)]
pub(crate) struct Twig {
    pub distance: Length,
    pub count: usize,
    pub last: Step,
    pub before: usize,
}

/// Paths from one node, indexed in the order in which they were added. Path 0 has no step; each other path extends an earlier one by a
/// step.
#[derive(Drop)]
pub(crate) struct Ways {
    twigs: Vec<Twig>,
}

impl Model for Ways {
    ghost use Rattle.std.specs.Prelude.{List};
    ghost use Rattle.nf_residual.specs.declared.ways.Twig.{Twig as SeenTwig};
    ghost use Rattle.nf_residual.specs.Ways.{IsPathTree};

    ghost Value = { List SeenTwig };

    ghost view = { λ w. w.twigs.items };

    ghost invariant = { λ w. IsPathTree w.twigs.items };
}

// Returns the sort key of a step: steps are ordered by link number, a forward step before the backward one.
fn place(step: Step) -> u64
    ensures { result ≡ place_of step }
{
    let side = if step.forward { 0 } else { 1 };
    2 * (step.link.0 as u64) + side
}

// Returns whether `here` precedes `there`; if their keys are equal, returns `later`.
fn decided(here: Step, there: Step, later: bool) -> bool
    ensures { result ≡ one_before here there later }
{
    let left = place(here);
    let right = place(there);
    if left == right { later } else { left < right }
}

impl Ways {
    /// Returns the tree with only the path of no step, with memory for `room` paths.
    pub(crate) fn start(alloc: Global, room: usize) -> Result<Ways, AllocError>
        ensures { IfOk result (λ ways. ways ≡ first_twig ∷ []) }
    {
        let mut twigs = Vec::with_capacity(alloc, room)?;
        twigs.push(Twig {
            distance: Length::of(Q::zero()),
            count: 0,
            last: Step {
                link: LinkId(0),
                forward: true,
            },
            before: 0,
        })?;
        Ok(Ways { twigs })
    }

    /// Returns the number of paths.
    pub(crate) fn count(&self) -> usize
        ensures count { result ≡ length self.now }
        ensures tree { IsPathTree self.now }
    {
        self.twigs.len()
    }

    /// Returns the length of a path, a time.
    pub(crate) fn distance(&self, way: usize) -> Q
        requires { way < length self.now }
        ensures { result ≡ (twig_at self.now way).distance }
    {
        self.twigs[way].distance.value()
    }

    /// Returns the length of a path extended by a residual arc, a time. Refuses with Passed, of the part Quick, exactly if the operation
    /// exceeds its bound.
    pub(crate) fn changed(&self, way: usize, leg: &Leg) -> Result<Length, PassedAt<Q>>
        requires { way < length self.now }
        ensures { result ≡ checked_at passes_Q Quick (op_of leg.now.step.forward)
            (twig_at self.now way).distance leg.now.transit }
    {
        self.twigs[way]
            .distance
            .changed(leg.step.forward, &leg.transit)
    }

    /// Returns the length of a path extended by a residual arc, if the whole numbers of both give it (see `Length::whole_change`).
    #[inline(always)]
    pub(crate) fn whole_change(&self, way: usize, leg: &Leg) -> Option<i64>
        requires { way < length self.now }
        ensures { IfSome result (λ n. (nat_abs n ≤ longest_whole)
            × IsExactStep leg.now.step.forward (twig_at self.now way).distance leg.now.transit
            (whole n)) }
    {
        self.twigs[way]
            .distance
            .whole_change(leg.step.forward, &leg.transit)
    }

    // Compares this length with the length of a path.
    fn compare(&self, distance: &Length, way: usize) -> Ordering
        requires { way < length self.now }
        ensures { result ≡ cmp_ℚ distance.now (twig_at self.now way).distance }
    {
        distance.compare(&self.twigs[way].distance)
    }

    // Compares this whole length with the length of a path.
    #[inline(always)]
    fn compare_whole(&self, number: i64, way: usize) -> Ordering
        requires number { nat_abs number ≤ longest_whole }
        requires way { way < length self.now }
        ensures { result ≡ cmp_ℚ (whole number) (twig_at self.now way).distance }
    {
        Length::compare_whole(number, &self.twigs[way].distance)
    }

    // Returns the number of steps of a path.
    fn step_count(&self, way: usize) -> usize
        requires { way < length self.now }
        ensures value { result ≡ (twig_at self.now way).count }
        ensures small { result + 1 < 2 ^ 64 }
    {
        self.twigs[way].count
    }

    // Returns the last step of a path.
    fn last(&self, way: usize) -> Step
        requires { way < length self.now }
        ensures { result ≡ (twig_at self.now way).last }
    {
        self.twigs[way].last
    }

    // Returns the index of the path before the last step.
    fn before(&self, way: usize) -> usize
        requires { way < length self.now }
        ensures value { result ≡ (twig_at self.now way).before }
        ensures within { result < length self.now }
    {
        self.twigs[way].before
    }

    // Returns whether a path extended by `step` precedes another path with as many steps lexicographically. The loop compares from the last
    // step back, and ends where the two share a path.
    fn are_before(&self, way: usize, step: Step, other: usize) -> bool
        requires way { way < length self.now }
        requires other { other < length self.now }
        requires count { (twig_at self.now other).count ≡ suc (twig_at self.now way).count }
        ensures { result ≡ are_before_by ((way_at self.now way).steps ++ step ∷ [])
            (way_at self.now other).steps }
    {
        let mut are_before = decided(step, self.last(other), false);
        let mut here = way;
        let mut there = self.before(other);
        for _ in 0..self.step_count(way) {
            if here == there {
                return are_before;
            }
            are_before = decided(self.last(here), self.last(there), are_before);
            here = self.before(here);
            there = self.before(there);
        }
        are_before
    }

    // Returns whether a path extended by `step` has fewer steps than the other, or as many and precedes it.
    fn are_fewer_or_before(&self, way: usize, step: Step, other: usize) -> bool
        requires way { way < length self.now }
        requires other { other < length self.now }
        ensures { result ≡ are_fewer_or_before_by ((way_at self.now way).steps ++ step ∷ [])
            (way_at self.now other).steps }
    {
        let fewer = self.step_count(way);
        let count = self.step_count(other);
        if fewer + 1 == count {
            self.are_before(way, step, other)
        } else {
            fewer + 1 < count
        }
    }

    // Returns whether a path extended by `step` precedes the other path, given the order of their lengths.
    #[inline(always)]
    fn is_better(&self, way: usize, step: Step, order: Ordering, other: usize) -> bool
        requires way { way < length self.now }
        requires other { other < length self.now }
        ensures { (distance : ℚ) → order ≡ cmp_ℚ distance (twig_at self.now other).distance
            → result
            ≡ is_better_by (extended_by (way_at self.now way) step distance) (way_at self.now other) }
    {
        match order {
            Ordering::Less => true,
            Ordering::Greater => false,
            Ordering::Equal => self.are_fewer_or_before(way, step, other),
        }
    }

    /// Returns whether a path extended by `step`, of length `distance`, precedes the known path, or no path is known.
    pub(crate) fn is_gain(
        &self,
        way: usize,
        step: Step,
        distance: &Length,
        known: Option<usize>,
    ) -> bool
        requires way { way < length self.now }
        requires known { IfSome known (λ other. other < length self.now) }
        ensures { result ≡ gains (extended_by (way_at self.now way) step distance.now)
            (option_map (way_at self.now) known) }
    {
        match known {
            None => true,
            Some(other) => {
                let order = self.compare(distance, other);
                self.is_better(way, step, order, other)
            }
        }
    }

    /// Returns the same as `is_gain`, for a whole length.
    #[inline(always)]
    pub(crate) fn is_whole_gain(
        &self,
        way: usize,
        step: Step,
        number: i64,
        known: Option<usize>,
    ) -> bool
        requires number { nat_abs number ≤ longest_whole }
        requires way { way < length self.now }
        requires known { IfSome known (λ other. other < length self.now) }
        ensures { result ≡ gains (extended_by (way_at self.now way) step (whole number))
            (option_map (way_at self.now) known) }
    {
        match known {
            None => true,
            Some(other) => {
                let order = self.compare_whole(number, other);
                self.is_better(way, step, order, other)
            }
        }
    }

    /// Adds a path extended by `step`, of length `distance`. Fails if an allocation fails.
    pub(crate) fn add(&mut self, way: usize, step: Step, distance: Length) -> Result<(), AllocError>
        requires { way < length self.old }
        ensures { OnOk result (self.new ≡ self.old ++ twig_after self.old way step distance ∷ []) }
    {
        let count = self.step_count(way) + 1;
        self.twigs.push(Twig {
            distance,
            count,
            last: step,
            before: way,
        })?;
        Ok(())
    }

    /// Returns the steps of a path from first to last. Fails if an allocation fails.
    pub(crate) fn steps(&self, alloc: Global, way: usize) -> Result<Vec<Step>, AllocError>
        requires { way < length self.now }
        ensures { IfOk result (λ steps. steps.items ≡ (way_at self.now way).steps) }
    {
        let count = self.step_count(way);
        let mut steps = Vec::with_capacity(alloc, count)?;
        let mut here = way;
        for _ in 0..count {
            steps.push(self.last(here))?;
            here = self.before(here);
        }
        steps.reverse();
        Ok(steps)
    }
}
