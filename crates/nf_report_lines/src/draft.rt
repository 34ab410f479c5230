// The parser state of a report.
ghost use Rattle.std.specs.Prelude.{◌≡◌, true, ◌+◌, ◌<◌, [], ◌∷◌, ◌++◌, length, IfOk, OnOk, IsSome, IfSome};
ghost use Rattle.std.specs.List.{last_or};
ghost use Rattle.nf_net_def.specs.Named.{Named};
ghost use Rattle.nf_report_def.specs.ReportLines.{empty_report, curve_keys, with_rate, comes_after, has_all as has_all_by};
ghost use Rattle.nf_report_lines.specs.Drafts.{seen_draft, LacksIdleOnly, IsWithinNetwork, begun_count};
ghost use Rattle.nf_report_lines.specs.Entries.{drafted, closed, FitsDraft};
ghost use Rattle.nf_report_lines.specs.declared.entry.Entry.TheVariants.{OfCurve, Never, OfLink, End};
ghost use Rattle.nf_report_lines.specs.declared.entry.Opening.TheVariants.{GoesOn, Begins};

use crate::entry::{Entry, Opening, RatedPoint};
use crate::keys::curve_count;
use nf_curve::{Curve, Stop, Trace};
use nf_frac::Q;
use nf_model::State;
use nf_net::{LinkId, Network};
use nf_pattern::Pattern;
use std::alloc::{AllocError, Global};

/// The expected line is one of the head, one after the head, or none after `end`.
#[derive(Clone, Copy)]
pub enum Stage {
    Version,
    Horizon,
    Reached,
    Cause,
    Body,
    End,
}

/// The parser state after some lines. The fields hold the numbers of the head, the complete curves by number (None for an idle node), the
/// current curve, and the states of the links. `next_state` is the least number of a link that a `state` line may name next.
#[derive(Drop)]
pub struct Draft {
    pub stage: Stage,
    pub horizon: Q,
    pub reached: Q,
    pub stop: Option<Stop>,
    pub done: Vec<Option<Trace>>,
    pub current: Option<Trace>,
    pub next_state: u32,
    pub states: Pattern,
}

// Appends a rate, if there is one.
fn push_rate(rates: &mut Vec<Q>, rate: Option<Q>) -> Result<(), AllocError>
    ensures { OnOk result (rates.new.items ≡ with_rate rates.old.items rate) }
{
    if let Some(rate) = rate {
        rates.push(rate)?;
    }
    Ok(())
}

// Begins a curve with a point at time 0.
fn begun(alloc: Global, point: &RatedPoint) -> Result<Trace, AllocError>
    requires { comes_after None point.now.time ≡ true }
    ensures points { IfOk result
        (λ trace. trace.curve.points ≡ (point.now.time, point.now.value) ∷ []) }
    ensures rates { IfOk result (λ trace. trace.rates.items ≡ with_rate [] point.now.rate) }
{
    let mut rates = Vec::new(alloc);
    push_rate(&mut rates, point.rate)?;
    let curve = Curve::start(alloc, point.value)?;
    Ok(Trace { curve, rates })
}

// Appends a point to a curve. Its time must be later than those of the curve's points.
fn put_behind(trace: &mut Trace, point: &RatedPoint) -> Result<(), AllocError>
    requires { comes_after (last_or None trace.old.curve.points) point.now.time ≡ true }
    ensures points { OnOk result (trace.new.curve.points
        ≡ trace.old.curve.points ++ (point.now.time, point.now.value) ∷ []) }
    ensures rates { OnOk result
        (trace.new.rates.items ≡ with_rate trace.old.rates.items point.now.rate) }
{
    // Proof: a curve has a point.
    trace.curve.recall();
    push_rate(&mut trace.rates, point.rate)?;
    trace.curve.push(point.time, point.value)
}

// Gives back the room that a complete curve doesn't need.
fn fitted(mut trace: Trace) -> Trace
    ensures points { result.curve.points ≡ trace.curve.points }
    ensures rates { result.rates.items ≡ trace.rates.items }
{
    trace.curve.shrink_to_fit();
    trace.rates.shrink_to_fit();
    trace
}

impl Draft {
    /// Returns the state before the first line.
    pub fn new(alloc: Global, net: &Network) -> Result<Draft, AllocError>
        ensures draft { IfOk result (λ draft. seen_draft net.now draft ≡ empty_report net.now) }
        ensures within { IfOk result (λ draft. IsWithinNetwork net.now draft) }
    {
        // Proof: each link has a name.
        net.recall();
        Ok(Draft {
            stage: Stage::Version,
            horizon: Q::zero(),
            reached: Q::zero(),
            stop: None,
            done: Vec::new(alloc),
            current: None,
            next_state: 0,
            states: Pattern::none(alloc, net.link_count())?,
        })
    }

    /// Returns the number of complete curves, without the current one.
    pub(crate) fn done_count(&self) -> usize
        ensures { result ≡ length self.now.done.items }
    {
        self.done.len()
    }

    /// Returns the number of curves that have begun, including the current one.
    pub(crate) fn begun_count(&self) -> usize
        requires { begun_count self.now < 18446744073709551616 }
        ensures { result ≡ begun_count self.now }
    {
        match &self.current {
            None => self.done.len(),
            Some(_) => self.done.len() + 1,
        }
    }

    /// Returns whether every curve of the network has begun.
    pub(crate) fn has_all(&self, net: &Network) -> bool
        requires { IsWithinNetwork net.now self.now }
        ensures { result ≡ has_all_by (seen_draft net.now self.now).keys }
    {
        self.begun_count() == curve_count(net)
    }

    // Moves the current curve, if there is one, to the complete curves.
    fn close(&mut self) -> Result<(), AllocError>
        ensures draft { OnOk result
            ((n : Named) → seen_draft n self.new ≡ closed (seen_draft n self.old)) }
        ensures count { OnOk result (length self.new.done.items ≡ begun_count self.old) }
        ensures shut { OnOk result (self.new.current ≡ None) }
        ensures idle { OnOk result ((n : Named) → LacksIdleOnly n self.old.done.items
            → LacksIdleOnly n self.new.done.items) }
        ensures states { self.new.states ≡ self.old.states }
    {
        if let Some(trace) = self.current.take() {
            self.done.push(Some(fitted(trace)))?;
        }
        Ok(())
    }

    // Completes the current curve, and begins the next one with a point.
    fn begin(&mut self, alloc: Global, point: &RatedPoint) -> Result<(), AllocError>
        requires { comes_after None point.now.time ≡ true }
        ensures draft { OnOk result ((n : Named) → begun_count self.old < length (curve_keys n)
            → seen_draft n self.new
            ≡ drafted n (seen_draft n self.old) (OfCurve Begins point.now)) }
        ensures count { OnOk result (begun_count self.new ≡ begun_count self.old + 1) }
        ensures idle { OnOk result ((n : Named) → LacksIdleOnly n self.old.done.items
            → LacksIdleOnly n self.new.done.items) }
        ensures states { self.new.states ≡ self.old.states }
    {
        self.close()?;
        self.current = Some(begun(alloc, point)?);
        Ok(())
    }

    // Appends a point to the current curve.
    fn go_on(&mut self, point: &RatedPoint) -> Result<(), AllocError>
        requires some { IsSome self.old.current }
        requires later { IfSome self.old.current
            (λ trace. comes_after (last_or None trace.curve.points) point.now.time ≡ true) }
        ensures draft { OnOk result ((n : Named) → seen_draft n self.new
            ≡ drafted n (seen_draft n self.old) (OfCurve GoesOn point.now)) }
        ensures count { OnOk result (begun_count self.new ≡ begun_count self.old) }
        ensures done { self.new.done.items ≡ self.old.done.items }
        ensures states { self.new.states ≡ self.old.states }
    {
        match &mut self.current {
            Some(trace) => put_behind(trace, point),
            None => Ok(()),
        }
    }

    // Completes the current curve, and adds an idle node, which has no curve.
    fn add_never(&mut self) -> Result<(), AllocError>
        ensures draft { (n : Named) → IsWithinNetwork n self.old → FitsDraft n (seen_draft n self.old) Never
            → OnOk result (seen_draft n self.new ≡ drafted n (seen_draft n self.old) Never) }
        ensures within { (n : Named) → IsWithinNetwork n self.old → FitsDraft n (seen_draft n self.old) Never
            → OnOk result (IsWithinNetwork n self.new) }
    {
        self.close()?;
        self.done.push(None)?;
        Ok(())
    }

    // Completes the current curve, and sets the state of a link.
    fn add_state(&mut self, net: &Network, link: LinkId, state: State) -> Result<(), AllocError>
        requires within { IsWithinNetwork net.now self.old }
        requires fits { FitsDraft net.now (seen_draft net.now self.old) (OfLink link state) }
        ensures draft { OnOk result (seen_draft net.now self.new
            ≡ drafted net.now (seen_draft net.now self.old) (OfLink link state)) }
        ensures within { OnOk result (IsWithinNetwork net.now self.new) }
    {
        // Proof: the number of links is small.
        net.recall();
        self.close()?;
        self.next_state = link.0 + 1;
        self.states.set(link, Some(state));
        Ok(())
    }

    // Completes the current curve, and marks the report as ended.
    fn add_end(&mut self) -> Result<(), AllocError>
        ensures draft { (n : Named)
            → OnOk result (seen_draft n self.new ≡ drafted n (seen_draft n self.old) End) }
        ensures within { (n : Named) → IsWithinNetwork n self.old → OnOk result (IsWithinNetwork n self.new) }
    {
        self.close()?;
        self.stage = Stage::End;
        Ok(())
    }

    /// Applies the meaning of a line to the state. Fails if an allocation fails.
    pub fn add(&mut self, alloc: Global, net: &Network, entry: &Entry) -> Result<(), AllocError>
        requires within { IsWithinNetwork net.now self.old }
        requires fits { FitsDraft net.now (seen_draft net.now self.old) entry.now }
        ensures draft { OnOk result (seen_draft net.now self.new
            ≡ drafted net.now (seen_draft net.now self.old) entry.now) }
        ensures within { OnOk result (IsWithinNetwork net.now self.new) }
    {
        match entry {
            Entry::Version => self.stage = Stage::Horizon,
            Entry::Horizon(horizon) => {
                self.horizon = *horizon;
                self.stage = Stage::Reached;
            }
            Entry::Reached(reached) => {
                self.reached = *reached;
                self.stage = Stage::Cause;
            }
            Entry::Cause(stop) => {
                self.stop = *stop;
                self.stage = Stage::Body;
            }
            Entry::OfCurve(Opening::Begins, point) => return self.begin(alloc, point),
            Entry::OfCurve(Opening::GoesOn, point) => return self.go_on(point),
            Entry::Never => return self.add_never(),
            Entry::OfLink(link, state) => return self.add_state(net, *link, *state),
            Entry::End => return self.add_end(),
        }
        Ok(())
    }
}
