// The elimination, column by column: the pivot of a column, and the rows that are cleared in it.
ghost use Rattle.std.specs.Prelude.{◌≡◌, ◌≢◌, ℕ, ◌+◌, ◌<◌, ◌≤◌, ◌==◌, ◌||◌, ◌&&◌, not, true, false, List, [], length, take, set, get_or, Some, None, IfOk, if◌then◌else◌};
ghost use Rattle.std.specs.List.{AllByRecursion};
ghost use Rattle.std.specs.Int.RustNames.{bit_or};
ghost use Rattle.nf_rational.specs.Operations.{0ℚ};
ghost use Rattle.nf_frac_def.specs.declared.Part.TheVariants as Part;
ghost use Rattle.nf_frac_def.specs.Checked.{at_part, seen_at};
ghost use Rattle.nf_model.specs.Entries.{number_at};
ghost use Rattle.nf_rational.specs.Signs as Signs;
ghost use Rattle.nf_linear_def.specs.Table as Lists;
ghost use Rattle.nf_linear_def.specs.Table.{row_at};
ghost use Rattle.nf_linear_laws.specs.Solution.{IsSquare};
ghost use Rattle.nf_linear.specs.Marks as Marked;
ghost use Rattle.nf_linear.specs.Marks.{IsFree, IsSubset, IsZeroUnless, Covers, AreSameUnless};
ghost use Rattle.nf_linear.specs.Rows.{meant, clear_unless, clear_each};
ghost use Rattle.nf_linear.specs.Pivots.{AreTaken, eliminated, HasPivots};

use crate::marks::Marks;
use crate::row::{Cells, Row};
use nf_frac::{PassedAt, Scalar};

// ---- the rows of each column's numbers

// Puts a row into the set of each column where its number is not 0.
fn mark_row<C: Cells>(row: &Row<C>, number: usize, columns: &mut [Marks])
    ensures marked { (column : ℕ) → column < length columns.old
        → IsFree (get_or columns.new column 0) number → number_at row.now column ≡ 0ℚ }
    ensures kept { (column : ℕ) → IsSubset (get_or columns.old column 0)
        (get_or columns.new column 0) }
{
    let mut at = row.next_some(0, columns.len());
    while at < columns.len() {
        let marks = &mut columns[at];
        marks.put(number);
        at = row.next_some(at + 1, columns.len());
    }
}

// Puts each row into the set of each column where its number is not 0.
fn mark_rows<C: Cells>(rows: &[Row<C>], columns: &mut [Marks])
    ensures { Covers columns.new rows.now }
{
    for i in 0..rows.len() {
        mark_row(&rows[i], i, columns);
    }
}

// Puts these rows into the set of a column, if the column has one.
fn join_at(columns: &mut [Marks], column: usize, rows: Marks)
    ensures { columns.new ≡ set columns.old column (bit_or (get_or columns.old column 0) rows) }
{
    if column < columns.len() {
        let marks = &mut columns[column];
        marks.join(rows);
    }
}

// Puts these rows into the sets of the columns of some entries.
fn spread<S: Scalar>(columns: &mut [Marks], rows: Marks, entries: &[(usize, S)])
    ensures { columns.new ≡ Marked.spread rows (meant S.means entries.now) columns.old }
{
    for entry in entries {
        let (column, _) = *entry;
        join_at(columns, column, rows);
    }
}

// ---- one column

// Returns whether the row is no pivot row yet, and has an entry in the column.
fn is_candidate<C: Cells>(row: &Row<C>, is_taken: bool, column: usize) -> bool
    requires { column < length row.now }
    ensures { result ≡ (not is_taken && not (Signs.is_zero (number_at row.now column))) }
{
    if is_taken {
        return false;
    }
    !row.is_zero_at(column)
}

// Returns the pivot row of a column, whose entries are in the marked rows. `taken` has of each row whether it is a pivot row already.
fn pivot_of<C: Cells>(
    rows: &[Row<C>],
    taken: &[bool],
    marked: Marks,
    column: usize,
) -> Option<usize>
    requires column { (i : ℕ) → i < length rows.now → column < length (row_at rows.now i) }
    requires taken { length rows.now ≤ length taken.now }
    requires marked { IsZeroUnless marked rows.now column }
    ensures { (pivots : List ℕ) → AreTaken taken.now pivots
        → result ≡ Lists.pivot_of rows.now pivots column }
{
    let mut i = marked.next(0, rows.len());
    while i < rows.len() {
        if is_candidate(&rows[i], taken[i], column) {
            return Some(i);
        }
        i = marked.next(i + 1, rows.len());
    }
    None
}

// Clears a row in the column, unless it is the pivot row or has no entry there. Returns whether it did.
fn clear_one<C: Cells>(
    row: &mut Row<C>,
    is_pivot: bool,
    column: usize,
    own: C::Number,
    later: &[(usize, C::Number)],
) -> Result<bool, PassedAt<C::Number>>
    requires column { column < length row.old }
    requires own { C.Number.means own ≢ 0ℚ }
    requires later { AllByRecursion (λ other. other.0 < length row.old)
        (meant C.Number.means later.now) }
    ensures list { seen_at (λ _. row.new) C.Number.means result ≡ at_part Part.Table
        (clear_unless C.Number.passes (is_pivot || Signs.is_zero (number_at row.old column)) column
        (C.Number.means own)
        (meant C.Number.means later.now) row.old) }
    ensures kept { IfOk result (λ cleared. cleared ≡ false → row.new ≡ row.old) }
{
    if is_pivot || row.is_zero_at(column) {
        return Ok(false);
    }
    row.clear(column, own, later)?;
    Ok(true)
}

// Clears the marked rows in the column, but not the pivot row, which has this entry there and these ones after it. Returns the rows
// that it cleared.
fn clear_rows<C: Cells>(
    rows: &mut [Row<C>],
    marked: Marks,
    pivot: usize,
    column: usize,
    own: C::Number,
    later: &[(usize, C::Number)],
) -> Result<Marks, PassedAt<C::Number>>
    requires own { C.Number.means own ≢ 0ℚ }
    requires column { (i : ℕ) → i < length rows.old → column < length (row_at rows.old i) }
    requires later { (i : ℕ) → i < length rows.old
        → AllByRecursion (λ other. other.0 < length (row_at rows.old i))
        (meant C.Number.means later.now) }
    requires marked { IsZeroUnless marked rows.old column }
    ensures list { seen_at (λ _. rows.new) C.Number.means result ≡ at_part Part.Table
        (clear_each C.Number.passes column pivot (C.Number.means own)
        (meant C.Number.means later.now) 0 rows.old) }
    ensures kept { IfOk result (λ cleared. AreSameUnless cleared rows.new rows.old) }
{
    let mut cleared = Marks::none();
    let mut i = marked.next(0, rows.len());
    while i < rows.len() {
        let is_cleared = clear_one(&mut rows[i], i == pivot, column, own, later)?;
        cleared.put_if(i, is_cleared);
        i = marked.next(i + 1, rows.len());
    }
    Ok(cleared)
}

// Clears a column in all rows but its pivot row.
fn eliminate<C: Cells>(
    rows: &mut [Row<C>],
    columns: &mut [Marks],
    entries: &mut [(usize, C::Number)],
    pivot: usize,
    column: usize,
) -> Result<(), PassedAt<C::Number>>
    requires square { IsSquare rows.old }
    requires pivot { pivot < length rows.old }
    requires column { column < length rows.old }
    requires some { number_at (row_at rows.old pivot) column ≢ 0ℚ }
    requires entries { length rows.old ≤ length entries.old }
    requires sets { length rows.old ≤ length columns.old }
    requires covers { Covers columns.old rows.old }
    ensures list { seen_at (λ _. rows.new) C.Number.means result
        ≡ at_part Part.Table
        (Lists.clear_rows C.Number.passes column pivot (row_at rows.old pivot) 0 rows.old) }
    ensures covers { IfOk result (λ _. Covers columns.new rows.new) }
{
    let right = rows.len();
    let own = rows[pivot].at(column);
    let count = rows[pivot].later(column, right, entries);
    let later = &entries[..count];
    let cleared = clear_rows(rows, columns[column], pivot, column, own, later)?;
    spread(columns, cleared, later);
    Ok(())
}

// Clears a column, and notes its pivot row. Returns false if the column has no pivot.
fn clear_column<C: Cells>(
    rows: &mut [Row<C>],
    columns: &mut [Marks],
    entries: &mut [(usize, C::Number)],
    taken: &mut [bool],
    pivots: &mut [usize],
    column: usize,
) -> Result<bool, PassedAt<C::Number>>
    requires square { IsSquare rows.old }
    requires column { column < length rows.old }
    requires entries { length rows.old ≤ length entries.old }
    requires flags { length rows.old ≤ length taken.old }
    requires count { length rows.old ≤ length pivots.old }
    requires taken { AreTaken taken.old (take column pivots.old) }
    requires sets { length rows.old ≤ length columns.old }
    requires covers { Covers columns.old rows.old }
    ensures list { seen_at (λ found. if found then Some
        (eliminated rows.new (take (column + 1) pivots.new)) else None) C.Number.means result
        ≡ at_part Part.Table (Lists.eliminate_column C.Number.passes
        (eliminated rows.old (take column pivots.old)) column) }
    ensures taken { IfOk result
        (λ found. found ≡ true → AreTaken taken.new (take (column + 1) pivots.new)) }
    ensures covers { IfOk result (λ _. Covers columns.new rows.new) }
{
    let Some(pivot) = pivot_of(rows, taken, columns[column], column) else {
        return Ok(false);
    };
    eliminate(rows, columns, entries, pivot, column)?;
    pivots[column] = pivot;
    taken[pivot] = true;
    Ok(true)
}

// Clears all columns in order, and notes the pivot row of each. Returns false if a column has no pivot. `columns` has a set for each
// column and `entries` room for the entries of a pivot row. No row is taken at first.
pub fn clear_columns<C: Cells>(
    rows: &mut [Row<C>],
    columns: &mut [Marks],
    entries: &mut [(usize, C::Number)],
    taken: &mut [bool],
    pivots: &mut [usize],
) -> Result<bool, PassedAt<C::Number>>
    requires square { IsSquare rows.old }
    requires entries { length rows.old ≤ length entries.old }
    requires flags { length rows.old ≤ length taken.old }
    requires count { length pivots.old ≡ length rows.old }
    requires taken { AreTaken taken.old [] }
    requires sets { length rows.old ≤ length columns.old }
    ensures list { seen_at (λ found. if found then Some (eliminated rows.new pivots.new) else None)
        C.Number.means result
        ≡ at_part Part.Table
        (Lists.eliminate_from C.Number.passes (length rows.old) 0 (eliminated rows.old [])) }
    ensures pivots { IfOk result (λ found. found ≡ true → HasPivots rows.new pivots.new) }
{
    mark_rows(rows, columns);
    for column in 0..rows.len() {
        if !clear_column(rows, columns, entries, taken, pivots, column)? {
            return Ok(false);
        }
    }
    Ok(true)
}
