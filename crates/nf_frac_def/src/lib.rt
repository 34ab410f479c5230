//! This crate defines the operations on fractions, when one passes the bound of a fraction, and how a computation reports the
//! first operation that passes.
#![tactic(auto)]

ghost use Rattle.std.specs.Prelude.{◌≡◌};
ghost use Rattle.nf_frac_def.specs.declared.Halt.TheVariants as Halt;
ghost use Rattle.nf_frac_def.specs.Laws.{ReadingsAgree, FirstPassingIsAnswered};

use std::alloc::{AllocError, AllocFailed};

/// An operation on two fractions.
#[derive(Clone, Copy)]
pub enum Op {
    /// `left` + `right`.
    Sum,
    /// `left` - `right`.
    Difference,
    /// `left` · `right`.
    Product,
    /// `left` / `right`, where `right` isn't 0.
    Quotient,
}

/// An operation passes if its exact result, or for sums a number on the way to it, is beyond the bound of a fraction's
/// numerator and denominator. The operands are those of the call.
#[derive(Copy)]
pub struct Passed<S> {
    pub op: Op,
    pub left: S,
    pub right: S,
}

impl<S: Copy> Clone for Passed<S> {
    ghost is_clone = { λ x y. y ≡ x };

    fn clone(&self) -> Result<Self, AllocError> {
        Ok(*self)
    }
}

/// A report's cause names the part of the work in which an operation passes.
#[derive(Clone, Copy)]
pub enum Part {
    /// The slacks of the links at the start of a phase.
    Slack,
    /// The equations of a pattern.
    Table,
    /// The inequalities of a pattern, and the settling of a thin flow.
    Verdict,
    /// The length of a phase: how long it lasts.
    Extend,
    /// The labels at the end of a phase.
    Advance,
    /// The curves of flows and queues, also of a report that is resumed.
    Curve,
    /// The loading of links, by their inflows or along routes.
    Load,
    /// The check of a reported flow.
    Check,
    /// The search for a quickest flow.
    Quick,
}

/// This operation passes in this part of the work.
#[derive(Copy)]
pub struct PassedAt<S> {
    pub part: Part,
    pub op: Op,
    pub left: S,
    pub right: S,
}

impl<S: Copy> Clone for PassedAt<S> {
    ghost is_clone = { λ x y. y ≡ x };

    fn clone(&self) -> Result<Self, AllocError> {
        Ok(*self)
    }
}

/// A computation ends without a value if an operation passes or an allocation fails.
#[derive(Copy)]
pub enum Halt<S> {
    Passed(PassedAt<S>),
    Memory,
}

impl<S: Copy> Clone for Halt<S> {
    ghost is_clone = { λ x y. y ≡ x };

    fn clone(&self) -> Result<Self, AllocError> {
        Ok(*self)
    }
}

impl<S> From<PassedAt<S>> for Halt<S> {
    ghost from_gives = { λ p h. h ≡ Halt.Passed p };

    fn from(passed: PassedAt<S>) -> Self {
        Halt::Passed(passed)
    }
}

impl<S> From<AllocError> for Halt<S> {
    ghost from_gives = { λ _ h. h ≡ Halt.Memory };

    fn from(_: AllocError) -> Self {
        Halt::Memory
    }
}

impl<S, T: Drop> From<AllocFailed<T>> for Halt<S> {
    ghost from_gives = { λ _ h. h ≡ Halt.Memory };

    fn from(_: AllocFailed<T>) -> Self {
        Halt::Memory
    }
}

/// The two readings of a computation agree: its list of operations with the first one that passes, and the checked computation
/// that stops there.
pub fn readings_agree()
    ensures { ReadingsAgree }
{}

/// A computation reports an operation exactly if that is the first of its list that passes. It returns its value exactly if none
/// passes.
pub fn first_passing_is_answered()
    ensures { FirstPassingIsAnswered }
{}
