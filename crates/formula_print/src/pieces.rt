ghost use Rattle.std.specs.Prelude.{◌≡◌, ◌++◌, ◌+◌, ◌<◌, if◌then◌else◌, [], ◌∷◌, OnOk, decimal};
ghost use Rattle.std.specs.Fmt.{signed_decimal};
ghost use Rattle.cell_addr.specs.Cells.{spot_text, span_text};
ghost use Rattle.cell_addr.specs.Columns.{letters};
ghost use Rattle.formula_tree.specs.Printed.{quoted};
ghost use Rattle.formula_tree.specs.Tokens.{doubled};
ghost use Rattle.formula_tree.specs.WellFormed.{IsCell, IsRange};

use cell_addr::letters_of;
use itoa::Buffer;
use ss_base::{Memory, Span, Spot};

/// Appends a byte.
pub fn push_byte(out: &mut Vec<u8>, byte: u8) -> Result<(), Memory>
    ensures { OnOk result (out.new.items ≡ out.old.items ++ byte ∷ []) }
{
    out.push(byte)?;
    Ok(())
}

/// Appends a byte where it is wanted.
pub fn push_if(out: &mut Vec<u8>, wanted: bool, byte: u8) -> Result<(), Memory>
    ensures { OnOk result (out.new.items ≡ out.old.items ++ (if wanted then byte ∷ [] else [])) }
{
    if wanted { push_byte(out, byte) } else { Ok(()) }
}

/// Appends bytes.
pub fn push_bytes(out: &mut Vec<u8>, bytes: &[u8]) -> Result<(), Memory>
    ensures { OnOk result (out.new.items ≡ out.old.items ++ bytes.now) }
{
    out.extend_from_slice(bytes)?;
    Ok(())
}

/// Appends a number in decimal.
pub fn push_number(out: &mut Vec<u8>, number: i64) -> Result<(), Memory>
    ensures { OnOk result (out.new.items ≡ out.old.items ++ signed_decimal number) }
{
    let mut buffer = Buffer::new();
    push_bytes(out, buffer.format(number).as_bytes())
}

/// Appends a row's number, which counts from 1.
fn push_row(out: &mut Vec<u8>, row: u32) -> Result<(), Memory>
    requires { row < 9999999 }
    ensures { OnOk result (out.new.items ≡ out.old.items ++ decimal (row + 1)) }
{
    let mut buffer = Buffer::new();
    push_bytes(out, buffer.format(row + 1).as_bytes())
}

/// Appends a text in quotes, with each quote in it twice.
pub fn push_quoted(out: &mut Vec<u8>, text: &[u8]) -> Result<(), Memory>
    ensures { OnOk result (out.new.items ≡ out.old.items ++ quoted text.now) }
{
    push_byte(out, b'"')?;
    push_doubled(out, text)?;
    push_byte(out, b'"')
}

/// Appends bytes, each quote twice.
fn push_doubled(out: &mut Vec<u8>, text: &[u8]) -> Result<(), Memory>
    ensures { OnOk result (out.new.items ≡ out.old.items ++ doubled text.now) }
{
    for b in text {
        push_if(out, *b == b'"', b'"')?;
        push_byte(out, *b)?;
    }
    Ok(())
}

/// Appends a range's address.
pub fn push_range(out: &mut Vec<u8>, range: Span) -> Result<(), Memory>
    requires { IsRange range }
    ensures { OnOk result (out.new.items ≡ out.old.items ++ span_text range) }
{
    let first = Spot {
        row: range.top,
        col: range.left,
        abs_row: range.abs_top,
        abs_col: range.abs_left,
    };
    let last = Spot {
        row: range.bottom,
        col: range.right,
        abs_row: range.abs_bottom,
        abs_col: range.abs_right,
    };
    push_cell(out, first)?;
    push_byte(out, b':')?;
    push_cell(out, last)
}

/// Appends a cell's address.
pub fn push_cell(out: &mut Vec<u8>, cell: Spot) -> Result<(), Memory>
    requires { IsCell cell }
    ensures { OnOk result (out.new.items ≡ out.old.items ++ spot_text cell) }
{
    push_if(out, cell.abs_col, b'$')?;
    push_letters(out, cell.col)?;
    push_if(out, cell.abs_row, b'$')?;
    push_row(out, cell.row)
}

/// Appends a column's letters.
fn push_letters(out: &mut Vec<u8>, col: u32) -> Result<(), Memory>
    requires { col < 18278 }
    ensures { OnOk result (out.new.items ≡ out.old.items ++ letters col) }
{
    let mut text = [0; 4];
    let count = letters_of(col, &mut text);
    push_bytes(out, &text[..count])
}
