// The growing curves of all nodes and links.
ghost use Rattle.std.specs.Prelude.{◌≡◌, length, map, IfOk, OnOk};
ghost use Rattle.nf_frac_def.specs.declared.Part.TheVariants.{Curve as CurvePart};
ghost use Rattle.nf_frac_def.specs.Passing.{passes_Q};
ghost use Rattle.nf_frac_def.specs.Checked.{at_part, each, Gives};
ghost use Rattle.nf_thin_def.specs.ReportCurves.{first_label_curve, label_curves_after};
ghost use Rattle.nf_phase_def.specs.Restoring.{growing};
ghost use Rattle.nf_phase_curves.specs.Growing.{all_grown, AllHaveRoom, AllEndBefore};

use crate::growing::GrowingCurve;
use crate::link_curves::LinkCurves;
use nf_curve::Curve;
use nf_frac::{Halt, Q};
use std::alloc::{AllocError, Global};

/// Returns the curves of the nodes before the first phase, where `labels` are the labels of departure 0, times. Fails if an allocation
/// fails.
pub fn first_labels(alloc: Global, labels: &[Q]) -> Result<Vec<GrowingCurve>, AllocError>
    ensures { IfOk result (λ curves. all_grown curves.items ≡ map first_label_curve labels.now) }
{
    let mut curves = Vec::new(alloc);
    for label in labels {
        curves.push(GrowingCurve::start(alloc, *label)?)?;
    }
    Ok(curves)
}

/// Returns growing curves with the points of these curves. Refuses with Passed, of the part Curve, at the first operation of their list
/// that exceeds its bound. Fails with `Memory` if an allocation fails.
pub fn restore_labels(alloc: Global, curves: &[Curve]) -> Result<Vec<GrowingCurve>, Halt<Q>>
    ensures { Gives (λ grown. all_grown grown.items) (λ q. q) result
        (at_part CurvePart (each (growing passes_Q) (map (λ c. c.points) curves.now))) }
{
    let mut grown = Vec::new(alloc);
    for curve in curves {
        let next = GrowingCurve::of(alloc, curve)?;
        grown.push(next)?;
    }
    Ok(grown)
}

/// Reserves memory for one more corner of each curve. The curves are unchanged, also if an allocation fails.
pub fn reserve_labels(curves: &mut [GrowingCurve]) -> Result<(), AllocError>
    ensures same { all_grown curves.new ≡ all_grown curves.old }
    ensures room { OnOk result (AllHaveRoom curves.new) }
{
    for i in 0..curves.len() {
        curves[i].reserve()?;
    }
    Ok(())
}

/// Reserves memory for one more corner of each curve of each link. The curves are unchanged, also if an allocation fails.
pub fn reserve_links(curves: &mut [LinkCurves]) -> Result<(), AllocError>
    ensures same { all_grown curves.new ≡ all_grown curves.old }
    ensures room { OnOk result (AllHaveRoom curves.new) }
{
    for i in 0..curves.len() {
        curves[i].reserve()?;
    }
    Ok(())
}

/// Extends the label curves to departure `time`, to these labels there, with these slopes. Memory for a corner of each curve must be
/// reserved, and the curves must end before `time`. Cannot fail.
pub fn extend_labels(curves: &mut [GrowingCurve], time: Q, labels: &[Q], slopes: &[Q])
    requires labels { length labels.now ≡ length curves.old }
    requires slopes { length slopes.now ≡ length curves.old }
    requires room { AllHaveRoom curves.old }
    requires later { AllEndBefore time (all_grown curves.old) }
    ensures { all_grown curves.new
        ≡ label_curves_after time labels.now slopes.now (all_grown curves.old) }
{
    for v in 0..curves.len() {
        curves[v].extend(time, labels[v], slopes[v]);
    }
}
