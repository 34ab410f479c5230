// Curves of a link.
ghost use Rattle.nf_rational.specs.Rational.{ℚ};
ghost use Rattle.nf_rational.specs.Operations.{0ℚ};
ghost use Rattle.nf_rational.specs.Order.{◌≤ℚ◌};
ghost use Rattle.nf_frac_def.specs.declared.Part.TheVariants.{Check};
ghost use Rattle.nf_frac_def.specs.Passing.{passes_Q};
ghost use Rattle.nf_frac_def.specs.Checked.{at_part, Gives};
ghost use Rattle.nf_model.specs.Curve.{Within, value};
ghost use Rattle.nf_curve_def.specs.Composed.{checked_composed};

use nf_curve::Curve;
use nf_frac::{Halt, Part, Q};
use std::alloc::Global;

/// A borrowed view of the curves of a link: its inflow and its exits, by time, and the labels of its ends, by departure. Departures up to
/// `last` are tested.
#[derive(Clone, Copy)]
pub(crate) struct LinkCurves<'a> {
    pub inflow: &'a Curve,
    pub exit: &'a Curve,
    pub tail_label: &'a Curve,
    pub head_label: &'a Curve,
    pub last: Q,
    pub ghost last_from_zero: { 0ℚ ≤ℚ last },
    pub ghost entries_from_zero: { (time : ℚ) → Within 0ℚ last time → 0ℚ ≤ℚ value tail_label.now.points time },
}

impl<'a> LinkCurves<'a> {
    /// Returns the inflow or the exits by departure, from `curve`, by time. A departure enters the link at the label of the link's tail.
    pub(crate) fn by_departure(&self, alloc: Global, curve: &Curve) -> Result<Curve, Halt<Q>>
        ensures { Gives (λ c. c.points) (λ q. q) result
            (at_part Check (checked_composed passes_Q curve.now.points
            self.now.tail_label.now.points self.now.last)) }
    {
        Curve::compose(alloc, curve, self.tail_label, self.last, Part::Check)
    }
}
