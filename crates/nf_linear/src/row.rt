// Rows of a linear system, and what one loses in a step of the elimination.
ghost use Rattle.std.specs.Prelude.{◌≡◌, ◌≢◌, ℕ, ◌+◌, ◌<◌, ◌≤◌, List, [], ◌∷◌, ◌++◌, length, set, take, drop, false, if◌then◌else◌};
ghost use Rattle.std.specs.List.{AllByRecursion};
ghost use Rattle.nf_rational.specs.Rational.{ℚ};
ghost use Rattle.nf_rational.specs.Operations.{0ℚ};
ghost use Rattle.nf_frac_def.specs.declared.Part.TheVariants as Part;
ghost use Rattle.nf_frac_def.specs.declared.Op.TheVariants.{Quotient};
ghost use Rattle.nf_frac_def.specs.Checked.{at_part, checked_at, fold_checked, seen_at};
ghost use Rattle.nf_model.specs.Entries.{number_at};
ghost use Rattle.nf_rational.specs.Signs as Signs;
ghost use Rattle.nf_linear_def.specs.Table.{less_unless};
ghost use Rattle.nf_linear.specs.Rows.{meant, some_from, entry_less, clear_row};

use nf_frac::{Part, PassedAt, Scalar};
use std::marker::Model;

// Where the numbers of a row are held: one for each unknown, and the right side last.
pub trait Cells: Drop {
    // What holds one number.
    type Number: Scalar;

    // The numbers, in order.
    ghost numbers: { Self → List ℚ };

    // Returns the number of a column.
    fn at(&self, column: usize) -> Self::Number
        requires { column < length (numbers self.now) }
        ensures { Self.Number.means result ≡ number_at (numbers self.now) column };

    // Returns whether the number of a column is 0.
    fn is_zero_at(&self, column: usize) -> bool
        requires { column < length (numbers self.now) }
        ensures { result ≡ Signs.is_zero (number_at (numbers self.now) column) };

    // Returns a column from `from` up to `end`. The numbers from `from` on and before that column are 0.
    fn next_some(&self, from: usize, end: usize) -> usize
        requires { from ≤ end }
        ensures later { (from ≤ result) × (result ≤ end) }
        ensures zero { (i : ℕ) → from ≤ i → i < result → number_at (numbers self.now) i ≡ 0ℚ };

    // Sets the number of a column.
    fn set(&mut self, column: usize, value: Self::Number)
        requires { column < length (numbers self.old) }
        ensures { numbers self.new ≡ set (numbers self.old) column (Self.Number.means value) };
}

// A row of a linear system: a number for each unknown, and the right side.
#[derive(Drop)]
pub struct Row<C: Cells> {
    pub(crate) cells: C,
}

impl<C: Cells> Model for Row<C> {
    ghost use Rattle.std.specs.Prelude.{List};
    ghost use Rattle.nf_rational.specs.Rational.{ℚ};

    ghost Value = { List ℚ };

    ghost view = { λ r. C.numbers r.cells };
}

// Returns a value less a factor times another.
fn less<S: Scalar>(value: S, factor: S, other: S) -> Result<S, PassedAt<S>>
    ensures { seen_at S.means S.means result
        ≡ at_part Part.Table
        (less_unless S.passes false (S.means factor) (S.means other) (S.means value)) }
{
    let product = nf_frac::at!(Part::Table, factor.product(other));
    let less = nf_frac::at!(Part::Table, value.difference(product));
    Ok(less)
}

impl<C: Cells> Row<C> {
    // Returns the row of these numbers.
    pub fn of(cells: C) -> Row<C>
        ensures { result ≡ C.numbers cells }
    {
        Row { cells }
    }

    // Returns the number of a column.
    pub fn at(&self, column: usize) -> C::Number
        requires { column < length self.now }
        ensures { C.Number.means result ≡ number_at self.now column }
    {
        self.cells.at(column)
    }

    // Returns whether the number of a column is 0.
    pub fn is_zero_at(&self, column: usize) -> bool
        requires { column < length self.now }
        ensures { result ≡ Signs.is_zero (number_at self.now column) }
    {
        self.cells.is_zero_at(column)
    }

    // Returns a column from `from` up to `end`. The numbers from `from` on and before that column are 0.
    pub fn next_some(&self, from: usize, end: usize) -> usize
        requires { from ≤ end }
        ensures later { (from ≤ result) × (result ≤ end) }
        ensures zero { (i : ℕ) → from ≤ i → i < result → number_at self.now i ≡ 0ℚ }
    {
        self.cells.next_some(from, end)
    }

    // Sets the number of a column.
    pub fn set(&mut self, column: usize, value: C::Number)
        requires { column < length self.old }
        ensures { self.new ≡ set self.old column (C.Number.means value) }
    {
        self.cells.set(column, value);
    }

    // Writes the entry of a column to place `count` of `entries`, unless it is 0. Returns how many entries there are then.
    fn push_some(&self, entries: &mut [(usize, C::Number)], count: usize, column: usize) -> usize
        requires column { column < length self.now }
        requires room { count < length entries.old }
        ensures value { meant C.Number.means (take result entries.new)
            ≡ meant C.Number.means (take count entries.old)
            ++ (if Signs.is_zero
            (number_at self.now column) then [] else (column, number_at self.now column) ∷ []) }
        ensures count { result ≤ count + 1 }
    {
        if self.is_zero_at(column) {
            return count;
        }
        entries[count] = (column, self.at(column));
        count + 1
    }

    // Writes the entries other than 0 after a column, the right side included, to the front of `entries`. Returns how many they are.
    pub fn later(&self, column: usize, right: usize, entries: &mut [(usize, C::Number)]) -> usize
        requires column { column < right }
        requires right { length self.now ≡ right + 1 }
        requires room { right ≤ length entries.old }
        ensures value { meant C.Number.means (take result entries.new)
            ≡ some_from (column + 1) (drop (column + 1) self.now) }
        ensures within { result ≤ length entries.new }
    {
        let mut count = 0;
        let mut at = self.next_some(column + 1, right);
        while at < right {
            count = self.push_some(entries, count, at);
            at = self.next_some(at + 1, right);
        }
        self.push_some(entries, count, right)
    }

    // Subtracts the factor times each of these entries of another row.
    fn subtract(
        &mut self,
        factor: C::Number,
        others: &[(usize, C::Number)],
    ) -> Result<(), PassedAt<C::Number>>
        requires { AllByRecursion (λ other. other.0 < length self.old)
            (meant C.Number.means others.now) }
        ensures { seen_at (λ _. self.new) C.Number.means result
            ≡ at_part Part.Table (fold_checked (entry_less C.Number.passes (C.Number.means factor))
            self.old (meant C.Number.means others.now)) }
    {
        for other in others {
            let (column, entry) = *other;
            let value = self.at(column);
            let value = less(value, factor, entry)?;
            self.set(column, value);
        }
        Ok(())
    }

    // Clears the entry of a column: subtracts the pivot row times the quotient of the two entries. `own` is the pivot row's entry in
    // the column, and `later` has its entries after it.
    pub fn clear(
        &mut self,
        column: usize,
        own: C::Number,
        later: &[(usize, C::Number)],
    ) -> Result<(), PassedAt<C::Number>>
        requires column { column < length self.old }
        requires own { C.Number.means own ≢ 0ℚ }
        requires later { AllByRecursion (λ other. other.0 < length self.old)
            (meant C.Number.means later.now) }
        ensures { seen_at (λ _. self.new) C.Number.means result
            ≡ at_part Part.Table (clear_row C.Number.passes column (C.Number.means own)
            (meant C.Number.means later.now) self.old) }
    {
        let factor = nf_frac::at!(Part::Table, self.at(column).quotient(own));
        self.set(column, C::Number::zero());
        self.subtract(factor, later)
    }

    // Returns the right side over the entry of a column.
    pub fn value_of(&self, column: usize, right: usize) -> Result<C::Number, PassedAt<C::Number>>
        requires column { column < right }
        requires right { length self.now ≡ right + 1 }
        requires own { number_at self.now column ≢ 0ℚ }
        ensures { seen_at C.Number.means C.Number.means result
            ≡ checked_at C.Number.passes Part.Table Quotient (number_at self.now right)
            (number_at self.now column) }
    {
        let value = nf_frac::at!(Part::Table, self.at(right).quotient(self.at(column)));
        Ok(value)
    }
}
