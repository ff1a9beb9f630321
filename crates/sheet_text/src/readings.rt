ghost use Rattle.std.specs.Prelude.{◌≡◌, ◌≤◌, ◌<◌, ℕ, IfOk};
ghost use Rattle.sheet_value.specs.Tables.{Table};
ghost use Rattle.sheet_text.specs.Values.{all_text, indexes_between, range_values_text, read_head_text, values_from, values_text, IsPartOf};

use crate::refusal;
use crate::values::{Values, read_head, value_lines, values_head};
use sheet_ops::EditErr;
use sheet_value::Grid;
use ss_base::{Memory, Span, Txt};
use std::alloc::Global;

/// The text of all values of a sheet, evaluated at a length of the history: a first line with that
/// length and the visible size, and below it a line for each value that isn't empty, row by row. It
/// takes time with the number of the cells.
pub fn all_text(alloc: Global, length: u32, grid: &Grid) -> Result<Txt, Memory>
    ensures { IfOk result (λ t. t ≡ all_text length grid.now) }
{
    let size = grid.size();
    let head = values_head(alloc, length, size)?;
    let values = Values {
        grid,
        top: 0,
        left: 0,
    };
    value_lines(alloc, &head, &values, 0..size.rows, 0..size.cols)
}

/// The text of the values in a range of a sheet, evaluated at a length of the history: a first line
/// with the name of the site that reads, that length and the range, and below it a line for each value
/// that isn't empty, row by row. Where the range isn't in the visible sheet it is the line of a refusal,
/// by the number of the line that asked. It takes time with the number of the cells in the range.
pub fn range_text(
    alloc: Global,
    number: u32,
    name: &Txt,
    range: &Span,
    length: u32,
    grid: &Grid,
) -> Result<Txt, Memory>
    requires rows { range.now.top ≤ range.now.bottom }
    requires cols { range.now.left ≤ range.now.right }
    ensures { IfOk result (λ t. t ≡ range_values_text number name.now range.now length grid.now) }
{
    let size = grid.size();
    if range.bottom < size.rows && range.right < size.cols {
        text_within(alloc, name, range, length, grid)
    } else {
        refusal(alloc, number, EditErr::OutOfSheet)
    }
}

/// The text of the values in a range that is in the visible sheet.
fn text_within(
    alloc: Global,
    name: &Txt,
    range: &Span,
    length: u32,
    grid: &Grid,
) -> Result<Txt, Memory>
    requires last_row { range.now.bottom < grid.now.size.rows }
    requires last_col { range.now.right < grid.now.size.cols }
    requires rows { range.now.top ≤ range.now.bottom }
    requires cols { range.now.left ≤ range.now.right }
    ensures { (number : ℕ) → IfOk result (λ t. t ≡ range_values_text number name.now range.now length grid.now) }
{
    // There are at most 16,000 rows and columns.
    let _size = grid.size();
    let values = Values {
        grid,
        top: 0,
        left: 0,
    };
    values_between(alloc, name, range, length, &values)
}

/// The same text for who has the values of the range alone: the first value of `part` is that of the
/// range's first cell. It takes time with the number of the cells in the range.
pub fn part_text(
    alloc: Global,
    name: &Txt,
    range: &Span,
    length: u32,
    part: &Grid,
) -> Result<Txt, Memory>
    requires last_row { range.now.bottom < 9999999 }
    requires last_col { range.now.right < 18278 }
    requires rows { range.now.top ≤ range.now.bottom }
    requires cols { range.now.left ≤ range.now.right }
    ensures { (T : Table) (number : ℕ) → IsPartOf T range.now part.now → IfOk result (λ t. t ≡ range_values_text number name.now range.now length T) }
{
    let values = Values {
        grid: part,
        top: range.top,
        left: range.left,
    };
    values_between(alloc, name, range, length, &values)
}

/// The text of the values in a range, by their addresses.
fn values_between(
    alloc: Global,
    name: &Txt,
    range: &Span,
    length: u32,
    values: &Values,
) -> Result<Txt, Memory>
    requires first_row { values.now.top ≤ range.now.top }
    requires first_col { values.now.left ≤ range.now.left }
    requires last_row { range.now.bottom < 9999999 }
    requires last_col { range.now.right < 18278 }
    requires rows { range.now.top ≤ range.now.bottom }
    requires cols { range.now.left ≤ range.now.right }
    ensures { IfOk result (λ t. t ≡ values_text (read_head_text name.now length range.now) (values_from values.now.top values.now.left values.now.grid.now) (indexes_between range.now.top range.now.bottom) (indexes_between range.now.left range.now.right)) }
{
    let head = read_head(alloc, name, length, range)?;
    value_lines(
        alloc,
        &head,
        values,
        range.top..range.bottom + 1,
        range.left..range.right + 1,
    )
}
