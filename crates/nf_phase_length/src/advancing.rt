// The length of a phase, and the labels at its end.
ghost use Rattle.std.specs.Prelude.{◌≡◌, ◌<◌, length as count_of};
ghost use Rattle.nf_frac_def.specs.declared.Part.TheVariants.{Advance};
ghost use Rattle.nf_frac_def.specs.Passing.{passes_Q};
ghost use Rattle.nf_frac_def.specs.Checked.{at_part, Gives};
ghost use Rattle.nf_thin_def.specs.Advance.{cut_at, label_after as label_after_by, labels_after as labels_after_by, advance_list};

use nf_frac::{Halt, Part, PassedAt, Q, at};
use std::alloc::Global;
use std::marker::Model;

/// The length of a phase, a time, and the label of each node at its end.
#[derive(Drop)]
pub struct Advanced {
    pub length: Q,
    pub labels: Vec<Q>,
}

impl Model for Advanced {
    ghost use Rattle.nf_thin_def.specs.Advance.{Advanced as SeenAdvanced};
    ghost use Rattle.nf_phase_length.specs.StepCodes.{coded_advanced};

    ghost Value = { SeenAdvanced };

    ghost coded = { coded_advanced };

    ghost view = { λ a. record { length = a.length; labels = a.labels.items } };
}

// Returns the lesser of the extension length and the time left to the horizon, or the time left if there is no extension length.
fn cut(left: Q, extension: Option<Q>) -> Q
    ensures { result ≡ cut_at left extension }
{
    match extension {
        None => left,
        Some(extension) => left.lesser(extension),
    }
}

// Returns the label of a node after a phase of this length.
fn label_after(length: Q, slopes: &[Q], node: usize, label: Q) -> Result<Q, PassedAt<Q>>
    requires { node < count_of slopes.now }
    ensures { result ≡ at_part Advance (label_after_by passes_Q length slopes.now (node, label)) }
{
    let change = at!(Part::Advance, length.product(slopes[node]));
    let moved = at!(Part::Advance, label.sum(change));
    Ok(moved)
}

// Returns the labels of all nodes after a phase of this length.
fn labels_after(alloc: Global, length: Q, labels: &[Q], slopes: &[Q]) -> Result<Vec<Q>, Halt<Q>>
    requires { count_of slopes.now ≡ count_of labels.now }
    ensures { Gives (λ moved. moved.items) (λ q. q) result
        (at_part Advance (labels_after_by passes_Q length labels.now slopes.now)) }
{
    let mut moved = Vec::new(alloc);
    for (v, label) in labels.iter().enumerate() {
        let next = label_after(length, slopes, v, *label)?;
        moved.push(next)?;
    }
    Ok(moved)
}

/// Returns the length of a phase that begins at `time`, and the labels at its end. The length is the extension length, but ends at the
/// horizon at the latest. Refuses with Passed, of the part Advance, at the first operation of the advance list that exceeds its bound.
/// Fails with `Memory` if an allocation fails.
#[tactic(auto, unfolding(nf_thin_def::specs::Advance::advance_list))]
pub fn advance(
    alloc: Global,
    horizon: Q,
    time: Q,
    extension: Option<Q>,
    labels: &[Q],
    slopes: &[Q],
) -> Result<Advanced, Halt<Q>>
    requires { count_of slopes.now ≡ count_of labels.now }
    ensures { Gives (λ advanced. advanced) (λ q. q) result
        (at_part Advance (advance_list passes_Q horizon time extension labels.now slopes.now)) }
{
    let left = at!(Part::Advance, horizon.difference(time));
    let length = cut(left, extension);
    let labels = labels_after(alloc, length, labels, slopes)?;
    Ok(Advanced { length, labels })
}
