ghost use Rattle.std.specs.Prelude.{◌≡◌, ◌<◌, ◌≤◌, ◌-◌, ◌++◌, IfOk, OnOk};
ghost use Rattle.std.specs.List.{range_with_len};
ghost use Rattle.cell_addr.specs.Cells.{address};
ghost use Rattle.formula_tree.specs.Printed.{quoted};
ghost use Rattle.std.specs.Option.{option_copied};
ghost use Rattle.sheet_value.specs.Tables.{filled};
ghost use Rattle.sheet_text.specs.Texts.{cell_line};
ghost use Rattle.sheet_text.specs.Values.{is_one_cell, lines_in_row, range_text, read_head_text, value_text, values_from, values_head_text, values_text};

use crate::lines::{push_address, push_cell};
use formula_print::push_quoted;
use formula_tree::error_name;
use sheet_value::{Grid, Value};
use ss_base::{Memory, Size, Span, Txt};
use std::alloc::Global;
use std::ops::Range;

/// The line above a sheet's values, without its line feed: the length of the history that was
/// evaluated, and how many rows and columns are visible.
pub(crate) fn values_head(alloc: Global, length: u32, size: Size) -> Result<Txt, Memory>
    ensures { IfOk result (λ t. t ≡ values_head_text length size) }
{
    let text = format!(in alloc;
        "values at {length} rows {} columns {}",
        size.rows, size.cols
    )?;
    Ok(Txt::from_vec(text.into_bytes()))
}

/// The line above the values in a range, without its line feed: the name of the site that reads, the
/// length of the history that was evaluated, and the range by its addresses, one cell by a single one.
pub(crate) fn read_head(alloc: Global, name: &Txt, length: u32, range: &Span) -> Result<Txt, Memory>
    requires last_row { range.now.bottom < 9999999 }
    requires last_col { range.now.right < 18278 }
    requires rows { range.now.top ≤ range.now.bottom }
    requires cols { range.now.left ≤ range.now.right }
    ensures { IfOk result (λ t. t ≡ read_head_text name.now length range.now) }
{
    let length = format!(in alloc; " at {length} ")?;
    let mut text = Vec::from_slice(alloc, b"read ")?;
    text.extend_from_slice(name.bytes())?;
    text.extend_from_slice(length.as_bytes())?;
    push_range(alloc, &mut text, range)?;
    Ok(Txt::from_vec(text))
}

/// Appends the addresses of a range's corners, or that of its one cell.
fn push_range(alloc: Global, out: &mut Vec<u8>, range: &Span) -> Result<(), Memory>
    requires last_row { range.now.bottom < 9999999 }
    requires last_col { range.now.right < 18278 }
    requires rows { range.now.top ≤ range.now.bottom }
    requires cols { range.now.left ≤ range.now.right }
    ensures { OnOk result (out.new.items ≡ out.old.items ++ range_text range.now) }
{
    push_address(alloc, out, range.top, range.left)?;
    if is_one_cell(range) {
        return Ok(());
    }
    out.push(b':')?;
    push_address(alloc, out, range.bottom, range.right)
}

fn is_one_cell(range: &Span) -> bool
    ensures { result ≡ is_one_cell range.now }
{
    range.top == range.bottom && range.left == range.right
}

/// Values by their addresses.
#[derive(Drop)]
pub(crate) struct Values<'a> {
    pub grid: &'a Grid,
    /// The address of the grid's first value.
    pub top: u32,
    pub left: u32,
}

impl Values<'_> {
    /// The value with this address, and `None` exactly where it is empty or the grid has none there.
    fn at(&self, row: u32, col: u32) -> Option<&Value>
        requires row { self.now.top ≤ row }
        requires col { self.now.left ≤ col }
        ensures { option_copied result ≡ filled (values_from self.now.top self.now.left self.now.grid.now row col) }
    {
        self.grid.at(row - self.top, col - self.left)
    }
}

/// A first line, and below it a line for each value with these addresses that isn't empty, row by row,
/// in a row by columns: the address, a space and the value. It takes time with the number of these
/// cells.
pub(crate) fn value_lines(
    alloc: Global,
    head: &Txt,
    values: &Values,
    rows: Range<u32>,
    cols: Range<u32>,
) -> Result<Txt, Memory>
    requires first_row { values.now.top ≤ rows.start }
    requires first_col { values.now.left ≤ cols.start }
    requires rows { rows.end ≤ 9999999 }
    requires cols { cols.end ≤ 18278 }
    ensures { IfOk result (λ t. t ≡ values_text head.now (values_from values.now.top values.now.left values.now.grid.now) (range_with_len rows.start (rows.end - rows.start)) (range_with_len cols.start (cols.end - cols.start))) }
{
    let mut out = Vec::from_slice(alloc, head.bytes())?;
    out.push(b'\n')?;
    for row in rows.start..rows.end {
        push_values(alloc, &mut out, values, row, cols.start, cols.end)?;
    }
    Ok(Txt::from_vec(out))
}

/// Appends the lines of a row's values, from a first column to the one before another.
fn push_values(
    alloc: Global,
    out: &mut Vec<u8>,
    values: &Values,
    row: u32,
    first: u32,
    end: u32,
) -> Result<(), Memory>
    requires first_row { values.now.top ≤ row }
    requires first_col { values.now.left ≤ first }
    requires row { row < 9999999 }
    requires cols { end ≤ 18278 }
    ensures { OnOk result (out.new.items ≡ out.old.items ++ lines_in_row (values_from values.now.top values.now.left values.now.grid.now) (range_with_len first (end - first)) row) }
{
    for col in first..end {
        push_value(alloc, out, values, row, col)?;
    }
    Ok(())
}

/// Appends the line of a value, unless it is empty.
fn push_value(
    alloc: Global,
    out: &mut Vec<u8>,
    values: &Values,
    row: u32,
    col: u32,
) -> Result<(), Memory>
    requires first_row { values.now.top ≤ row }
    requires first_col { values.now.left ≤ col }
    requires row { row < 9999999 }
    requires col { col < 18278 }
    ensures { OnOk result (out.new.items ≡ out.old.items ++ cell_line row col (value_text (values_from values.now.top values.now.left values.now.grid.now row col))) }
{
    let Some(value) = values.at(row, col) else {
        return Ok(());
    };
    let text = text_of_value(alloc, value)?;
    push_cell(alloc, out, row, col, &text)
}

/// The text of a value.
fn text_of_value(alloc: Global, value: &Value) -> Result<Vec<u8>, Memory>
    ensures { IfOk result (λ t. t.items ≡ value_text value.now) }
{
    match value {
        Value::Empty => Ok(Vec::new(alloc)),
        Value::Num(number) => {
            let text = format!(in alloc; "{number}")?;
            Ok(text.into_bytes())
        }
        Value::Text(text) => quoted(alloc, text.bytes()),
        Value::Err(fault) => {
            let name = Vec::from_slice(alloc, error_name(*fault))?;
            Ok(name)
        }
    }
}

/// A text in double quotes, with the quotes in it doubled.
fn quoted(alloc: Global, text: &[u8]) -> Result<Vec<u8>, Memory>
    ensures { IfOk result (λ t. t.items ≡ quoted text.now) }
{
    let mut out = Vec::new(alloc);
    push_quoted(&mut out, text)?;
    Ok(out)
}
