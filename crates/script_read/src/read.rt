ghost use Rattle.std.specs.Prelude.{◌≡◌, ◌↔◌, Some, None, IfOk, IsErrOf, length};
ghost use Rattle.std.specs.List.{list_all};
ghost use Rattle.cell_addr.specs.Cells.{cell_of, range_of};
ghost use Rattle.cell_addr.specs.Columns.{col_named};
ghost use Rattle.cell_addr.specs.Rows.{row_numbered};
ghost use Rattle.script_read.specs.Commands.{command_of, CommandWithin, is_note, of_words, of_one_word, of_one_site, of_two_words, of_three_words, of_one_line, of_more_words, plain_cell, plain_range, row_range_of, rows_between, is_downward, set_of, sort_command, sort_of, sheet_sized};
ghost use Rattle.script_read.specs.Forms.{said};
ghost use Rattle.script_read.specs.Words.{is_line_byte, named, words};

use crate::command::{Command, LineFault};
use crate::form::{Form, to_command};
use crate::words::{colon_in, cut, is_word, name_of};
use cell_addr::{col_of, read_cell, read_count, read_range};
use ss_base::{Size, Span, Spot};
use std::alloc::Global;

/// The command that a line of a script is, given without its line feed. `Grammar` comes exactly where the
/// line is none of the forms; then no memory was asked for. A sheet has 1 to 1,000 rows and 1 to 64
/// columns, and an entry is no longer than its line.
pub fn read_command(alloc: Global, line: &[u8]) -> Result<Command, LineFault>
    ensures command { IfOk result (λ c. command_of line.now ≡ Some c) }
    ensures within { IfOk result (λ c. CommandWithin (length line.now) c) }
    ensures grammar { IsErrOf result LineFault.Grammar ↔ (command_of line.now ≡ None) }
{
    match form_of(line) {
        None => Err(LineFault::Grammar),
        Some(form) => Ok(to_command(alloc, form)?),
    }
}

fn form_of(line: &[u8]) -> Option<Form<'_>>
    ensures { said result ≡ command_of line.now }
{
    if !is_clean(line) {
        return None;
    }
    if is_note(line) {
        return Some(Form::Note);
    }
    form_of_words(line)
}

/// Whether a line has bytes 32 to 126 alone.
fn is_clean(line: &[u8]) -> bool
    ensures { result ≡ list_all is_line_byte line.now }
{
    line.iter().all(|b| (b' '..=b'~').contains(b))
}

fn is_note(line: &[u8]) -> bool
    ensures { result ≡ is_note line.now }
{
    matches!(line, [] | [b'#', ..])
}

/// By the number of words.
fn form_of_words(line: &[u8]) -> Option<Form<'_>>
    ensures { said result ≡ of_words (words line.now) }
{
    let (first, rest) = cut(line);
    let Some(rest) = rest else {
        return of_one_word(first);
    };
    let (second, rest) = cut(rest);
    let Some(rest) = rest else {
        return of_two_words(first, second);
    };
    let (third, entry) = cut(rest);
    match entry {
        None => of_three_words(first, second, third),
        Some(entry) => of_more_words(first, second, third, entry),
    }
}

fn of_one_word<'a>(first: &'a [u8]) -> Option<Form<'a>>
    ensures { said result ≡ of_one_word first.now }
{
    if is_word(first, b"recalc") {
        Some(Form::Recalc(None))
    } else if is_word(first, b"values") {
        Some(Form::Values)
    } else if is_word(first, b"history") {
        Some(Form::History)
    } else if is_word(first, b"wire") {
        Some(Form::Wire)
    } else if is_word(first, b"end") {
        Some(Form::End)
    } else {
        None
    }
}

fn of_two_words<'a>(first: &'a [u8], second: &'a [u8]) -> Option<Form<'a>>
    ensures { said result ≡ of_two_words first.now second.now }
{
    if is_word(first, b"site") {
        Some(Form::Site(name_of(second)?))
    } else if is_word(first, b"show") {
        if is_word(second, b"server") {
            Some(Form::ShowServer)
        } else {
            Some(Form::Show(name_of(second)?))
        }
    } else if is_word(first, b"push") {
        if is_word(second, b"all") {
            Some(Form::PushAll)
        } else {
            None
        }
    } else if is_word(first, b"pull") {
        if is_word(second, b"all") {
            Some(Form::PullAll)
        } else {
            None
        }
    } else if is_word(first, b"recalc") {
        Some(Form::Recalc(Some(read_count(second)?)))
    } else {
        of_one_site(first, second)
    }
}

/// `NAME push`, `NAME pull`, `NAME sync`.
fn of_one_site<'a>(first: &'a [u8], second: &'a [u8]) -> Option<Form<'a>>
    ensures { said result ≡ of_one_site first.now second.now }
{
    if is_word(second, b"push") {
        Some(Form::Push(name_of(first)?, None))
    } else if is_word(second, b"pull") {
        Some(Form::Pull(name_of(first)?, None))
    } else if is_word(second, b"sync") {
        Some(Form::Sync(name_of(first)?))
    } else {
        None
    }
}

fn of_three_words<'a>(first: &'a [u8], second: &'a [u8], third: &'a [u8]) -> Option<Form<'a>>
    ensures { said result ≡ of_three_words first.now second.now third.now }
{
    if is_word(first, b"sheet") {
        sheet_sized(read_count(second)?, read_count(third)?)
    } else if is_word(second, b"push") {
        Some(Form::Push(name_of(first)?, Some(read_count(third)?)))
    } else if is_word(second, b"pull") {
        Some(Form::Pull(name_of(first)?, Some(read_count(third)?)))
    } else if is_word(second, b"read") {
        Some(Form::Read(name_of(first)?, plain_range(third)?))
    } else if is_word(second, b"clear") {
        Some(Form::Clear(name_of(first)?, plain_cell(third)?))
    } else {
        of_one_line(first, second, third)
    }
}

/// An edit of one visible line: `NAME insrow COUNT` and the like.
fn of_one_line<'a>(first: &'a [u8], second: &'a [u8], third: &'a [u8]) -> Option<Form<'a>>
    ensures { said result ≡ of_one_line first.now second.now third.now }
{
    if is_word(second, b"insrow") {
        Some(Form::InsRow(name_of(first)?, row_of(third)?))
    } else if is_word(second, b"inscol") {
        Some(Form::InsCol(name_of(first)?, col_of(third)?))
    } else if is_word(second, b"delrow") {
        Some(Form::DelRow(name_of(first)?, row_of(third)?))
    } else if is_word(second, b"delcol") {
        Some(Form::DelCol(name_of(first)?, col_of(third)?))
    } else {
        None
    }
}

/// The index from 0 of the row with a number, which counts from 1.
fn row_of(text: &[u8]) -> Option<u32>
    ensures { result ≡ row_numbered text.now }
{
    let number = read_count(text)?;
    Some(number - 1)
}

/// The opening of a sheet, where it is of a size that a sheet may have.
fn sheet_sized<'a>(rows: u32, cols: u32) -> Option<Form<'a>>
    ensures { said result ≡ sheet_sized (Some rows) (Some cols) }
{
    if rows <= 1000 && cols <= 64 {
        Some(Form::Sheet(Size { rows, cols }))
    } else {
        None
    }
}

/// By what stands behind the third word.
fn of_more_words<'a>(
    first: &'a [u8],
    second: &'a [u8],
    third: &'a [u8],
    rest: &'a [u8],
) -> Option<Form<'a>>
    ensures { said result ≡ of_more_words first.now second.now third.now rest.now }
{
    if is_word(second, b"set") {
        set_of(first, third, rest)
    } else if is_word(second, b"copy") {
        Some(Form::Copy(name_of(first)?, plain_range(third)?, plain_cell(rest)?))
    } else if is_word(second, b"sort") {
        sort_of(first, third, rest)
    } else {
        None
    }
}

/// `NAME set CELL ENTRY`.
fn set_of<'a>(name: &'a [u8], cell: &'a [u8], entry: &'a [u8]) -> Option<Form<'a>>
    ensures { said result ≡ set_of (named name.now) (plain_cell (cell_of cell.now)) entry.now }
{
    let name = name_of(name)?;
    let spot = plain_cell(cell)?;
    if entry.is_empty() {
        None
    } else {
        Some(Form::Set(name, spot, entry))
    }
}

/// `NAME sort COUNT:COUNT LETTERS up`, or `down`, by what stands behind the rows.
fn sort_of<'a>(name: &'a [u8], rows: &'a [u8], rest: &'a [u8]) -> Option<Form<'a>>
    ensures { said result ≡ sort_of (words rest.now) (named name.now) (row_range_of rows.now) }
{
    let (col, rest) = cut(rest);
    let Some(rest) = rest else {
        return None;
    };
    let (direction, others) = cut(rest);
    match others {
        None => sort_by(name, rows, col, direction),
        Some(_) => None,
    }
}

fn sort_by<'a>(
    name: &'a [u8],
    rows: &'a [u8],
    col: &'a [u8],
    direction: &'a [u8],
) -> Option<Form<'a>>
    ensures { said result ≡ sort_command (named name.now) (row_range_of rows.now) (col_named col.now) (is_downward direction.now) }
{
    Some(Form::Sort(
        name_of(name)?,
        rows_of(rows)?,
        col_of(col)?,
        is_downward(direction)?,
    ))
}

/// Whether a sort goes downwards.
fn is_downward(word: &[u8]) -> Option<bool>
    ensures { result ≡ is_downward word.now }
{
    if is_word(word, b"up") {
        Some(false)
    } else if is_word(word, b"down") {
        Some(true)
    } else {
        None
    }
}

/// The indexes from 0 of the rows of two numbers parted by a colon, put in order.
fn rows_of(text: &[u8]) -> Option<(u32, u32)>
    ensures { result ≡ row_range_of text.now }
{
    let colon = colon_in(text)?;
    rows_between(row_of(&text[..colon]), row_of(&text[colon + 1..]))
}

fn rows_between(a: Option<u32>, b: Option<u32>) -> Option<(u32, u32)>
    ensures { result ≡ rows_between a b }
{
    let (a, b) = (a?, b?);
    Some((a.min(b), a.max(b)))
}

/// The cell of an address without `$`.
fn plain_cell(text: &[u8]) -> Option<Spot>
    ensures { result ≡ plain_cell (cell_of text.now) }
{
    let spot = read_cell(text)?;
    if spot.abs_row || spot.abs_col {
        None
    } else {
        Some(spot)
    }
}

/// The range of two addresses without `$`, or of one.
fn plain_range(text: &[u8]) -> Option<Span>
    ensures { result ≡ plain_range (range_of text.now) }
{
    let range = read_range(text)?;
    if (range.abs_top || range.abs_left) || (range.abs_bottom || range.abs_right) {
        None
    } else {
        Some(range)
    }
}
