// Access to a list of numbers by an index that may be beyond its end. A read there gives 0, and a write does nothing.
use nf_frac::{Halt, Part, Q, at};

/// Returns the number at an index, or 0 beyond the end.
pub fn number_or_zero(numbers: &[Q], place: usize) -> Q {
    if place < numbers.len() {
        numbers[place]
    } else {
        Q::zero()
    }
}

/// Sets the entry at an index, or does nothing beyond the end.
pub(crate) fn set_at(numbers: &mut [Q], place: usize, number: Q) {
    if place < numbers.len() {
        numbers[place] = number;
    }
}

/// Adds a number to the entry at an index, or does nothing beyond the end. Refuses if the sum passes.
pub(crate) fn add_at(numbers: &mut [Q], place: usize, number: Q) -> Result<(), Halt<Q>> {
    if place < numbers.len() {
        let sum = at!(Part::Table, numbers[place].sum(number));
        numbers[place] = sum;
    }
    Ok(())
}

/// Subtracts a number from the entry at an index, or does nothing beyond the end. Refuses if the difference passes.
pub(crate) fn take_off_at(numbers: &mut [Q], place: usize, number: Q) -> Result<(), Halt<Q>> {
    if place < numbers.len() {
        let difference = at!(Part::Table, numbers[place].difference(number));
        numbers[place] = difference;
    }
    Ok(())
}
