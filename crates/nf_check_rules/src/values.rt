// The greatest, first and last value.
ghost use Rattle.std.specs.Prelude.{◌≡◌};
ghost use Rattle.std.specs.List.{AllByRecursion};
ghost use Rattle.nf_rational.specs.Operations.{0ℚ};
ghost use Rattle.nf_rational.specs.Order.{◌≤ℚ◌};
ghost use Rattle.nf_check_def.specs.Curves.{greatest_value as greatest_by, last_value as last_by};
ghost use Rattle.nf_check_rules.specs.Points.{first_value as first_by};

use nf_curve::Curve;
use nf_frac::Q;

/// Returns the greatest of 0 and the values of a curve's points.
pub(crate) fn greatest_value(curve: &Curve) -> Q
    ensures value { result ≡ greatest_by curve.now.points }
    ensures nonnegative { 0ℚ ≤ℚ result }
{
    let mut greatest = Q::zero();
    let mut left = curve.len();
    while left > 0 {
        left -= 1;
        let (_, value) = curve.point(left);
        greatest = value.greater(greatest);
    }
    greatest
}

/// Returns the value of the first point.
pub(crate) fn first_value(curve: &Curve) -> Q
    ensures value { result ≡ first_by curve.now.points }
    ensures nonnegative { AllByRecursion (λ q. 0ℚ ≤ℚ q.1) curve.now.points → 0ℚ ≤ℚ result }
{
    // Proof: there is a point.
    curve.recall();
    let (_, value) = curve.point(0);
    value
}

/// Returns the value of the last point, which the curve has from then on.
pub(crate) fn last_value(curve: &Curve) -> Q
    ensures value { result ≡ last_by curve.now.points }
    ensures nonnegative { AllByRecursion (λ q. 0ℚ ≤ℚ q.1) curve.now.points → 0ℚ ≤ℚ result }
{
    // Proof: there is a point.
    curve.recall();
    let (_, value) = curve.last();
    value
}
