//! Theorems about the operation sequences of curves: if no operation passes, each result has the specified values at every time. Each
//! theorem is the contract of a public function with an empty body.
#![tactic(auto)]

ghost use Rattle.nf_curve_laws.specs.Laws.{ValueIs, CutIs, SumIs, LeastIs, ComposedIs, ShortIs, DifferenceIs};

/// If no operation passes, `checked_value` gives the value of the curve at the time.
pub fn value_is()
    ensures { ValueIs }
{}

/// If no operation passes, a cut has the points before its last time, then a point there. Up to that time it has the curve's values.
pub fn cut_is()
    ensures { CutIs }
{}

/// If no operation passes, `checked_sum` gives the pointwise sum of two curves.
pub fn sum_is()
    ensures { SumIs }
{}

/// If no operation passes, `checked_least` gives the pointwise minimum of two curves.
pub fn least_is()
    ensures { LeastIs }
{}

/// If no operation passes, `checked_composed` gives the composition of two curves at times from 0 to `last`.
pub fn composed_is()
    ensures { ComposedIs }
{}

/// If no operation passes, the short form has the same values and no removable point.
pub fn short_is()
    ensures { ShortIs }
{}

/// If no operation passes, None means that the curves agree up to `last`. Otherwise the result is the first corner at which they differ.
pub fn difference_is()
    ensures { DifferenceIs }
{}
