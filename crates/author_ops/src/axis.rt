ghost use Rattle.std.specs.Prelude.{◌≡◌, ◌<◌, ◌≤◌, ◌+◌, Some, IfOk, IfSome, slice_get};
ghost use Rattle.std.specs.Option.{option_and_then};
ghost use Rattle.marked_lines.specs.Marks.{visible_count, visible_places, visible_of, span_of};
ghost use Rattle.sheet_grid.specs.Values.{placed_in};
ghost use Rattle.author_ops.specs.Copies.{are_seen, line_count, line_pairs, line_shifted, ends_shifted};
ghost use Rattle.author_ops.specs.Placed.{marks_on};

use sheet_grid::Sheet;
use ss_base::Memory;
use std::alloc::Global;

/// Rows or columns.
#[derive(Clone, Copy, Debug, PartialEq, Eq)]
pub enum Dimension {
    Rows,
    Cols,
}

/// How many lines of an axis are visible.
pub fn visible(sheet: &Sheet, axis: Dimension) -> u32
    ensures value { result ≡ visible_count (marks_on (placed_in sheet.now) axis) }
    ensures few { result ≤ 16000 }
{
    let size = sheet.visible();
    match axis {
        Dimension::Rows => size.rows,
        Dimension::Cols => size.cols,
    }
}

/// The position of the line with a visible index.
pub fn line_at(sheet: &Sheet, axis: Dimension, visible: u32) -> Option<u32>
    ensures { result ≡ slice_get (visible_places (marks_on (placed_in sheet.now) axis)) visible }
{
    match axis {
        Dimension::Rows => sheet.row_at(visible),
        Dimension::Cols => sheet.col_at(visible),
    }
}

/// The position of a visible line that is there.
pub fn place_of(sheet: &Sheet, axis: Dimension, visible: u32) -> u32
    requires { visible < visible_count (marks_on (placed_in sheet.now) axis) }
    ensures { slice_get (visible_places (marks_on (placed_in sheet.now) axis)) visible ≡ Some result }
{
    match line_at(sheet, axis, visible) {
        Some(p) => p,
        None => unreachable!(),
    }
}

/// The visible index of the line at a position.
fn line_seen(sheet: &Sheet, axis: Dimension, p: u32) -> Option<u32>
    ensures index { result ≡ visible_of (marks_on (placed_in sheet.now) axis) p }
    ensures few { IfSome result (λ v. v < 16000) }
{
    match axis {
        Dimension::Rows => sheet.row_seen(p),
        Dimension::Cols => sheet.col_seen(p),
    }
}

/// The visible indexes of the first and of the last visible line between two positions.
fn lines_seen(sheet: &Sheet, axis: Dimension, first: u32, last: u32) -> Option<(u32, u32)>
    ensures span { result ≡ span_of (marks_on (placed_in sheet.now) axis) first last }
    ensures few { IfSome result (λ seen. (seen.0 < 16000) × (seen.1 < 16000)) }
{
    match axis {
        Dimension::Rows => sheet.rows_seen(first, last),
        Dimension::Cols => sheet.cols_seen(first, last),
    }
}

/// Whether the visible lines from a first to a last one are there, and as many from another one on.
pub fn are_seen(sheet: &Sheet, axis: Dimension, first: u32, last: u32, to: u32) -> bool
    requires { first ≤ last }
    ensures { result ≡ are_seen (marks_on (placed_in sheet.now) axis) first last to }
{
    let seen = visible(sheet, axis);
    last < seen && u64::from(to) + u64::from(last - first) < u64::from(seen)
}

/// How many visible lines there are from a first to a last one.
pub fn line_count(sheet: &Sheet, axis: Dimension, first: u32, last: u32) -> u32
    requires order { first ≤ last }
    requires seen { last < visible_count (marks_on (placed_in sheet.now) axis) }
    ensures value { result ≡ line_count first last }
    ensures few { result ≤ 16000 }
{
    // There are at most 16,000.
    let _seen = visible(sheet, axis);
    last - first + 1
}

/// The positions of so many visible lines from one on, each beside that of the line to which it is
/// copied. It takes time with them.
pub fn line_pairs(
    alloc: Global,
    sheet: &Sheet,
    axis: Dimension,
    from: u32,
    to: u32,
    count: u32,
) -> Result<Vec<(u32, u32)>, Memory>
    requires from { from + count ≤ visible_count (marks_on (placed_in sheet.now) axis) }
    requires to { to + count ≤ visible_count (marks_on (placed_in sheet.now) axis) }
    ensures { IfOk result (λ v. v.items ≡ line_pairs (marks_on (placed_in sheet.now) axis) from to count) }
{
    // No visible index is above the number of lines.
    let _seen = visible(sheet, axis);
    let mut pairs = Vec::new(alloc);
    for k in 0..count {
        let source = place_of(sheet, axis, from + k);
        let target = place_of(sheet, axis, to + k);
        pairs.push((source, target))?;
    }
    Ok(pairs)
}

/// By how many visible lines an axis is shifted: as many as lie from one line to another.
#[derive(Clone, Copy, Debug, PartialEq, Eq)]
pub struct Shift {
    pub from: u32,
    pub to: u32,
}

/// The position of the visible line to which one is shifted, unless it has a `$`.
fn line_shifted(sheet: &Sheet, axis: Dimension, shift: Shift, abs: bool, seen: u32) -> Option<u32>
    ensures { result ≡ line_shifted (marks_on (placed_in sheet.now) axis) shift.from shift.to abs seen }
{
    if abs {
        return line_at(sheet, axis, seen);
    }
    let from = u64::from(shift.from);
    let moved = u64::from(seen) + u64::from(shift.to);
    if moved < from || moved - from >= u64::from(visible(sheet, axis)) {
        return None;
    }
    line_at(sheet, axis, (moved - from) as u32)
}

/// Where a reference to one line is copied, by positions.
pub fn line_copied(sheet: &Sheet, axis: Dimension, shift: Shift, abs: bool, p: u32) -> Option<u32>
    ensures { result ≡ option_and_then (line_shifted (marks_on (placed_in sheet.now) axis) shift.from shift.to abs) (visible_of (marks_on (placed_in sheet.now) axis) p) }
{
    line_shifted(sheet, axis, shift, abs, line_seen(sheet, axis, p)?)
}

/// Where the first and the last line of a range are copied, by positions; they may come out of order.
pub fn ends_copied(
    sheet: &Sheet,
    axis: Dimension,
    shift: Shift,
    abs: (bool, bool),
    first: u32,
    last: u32,
) -> Option<(u32, u32)>
    ensures { result ≡ option_and_then (ends_shifted (marks_on (placed_in sheet.now) axis) shift.from shift.to abs.0 abs.1) (span_of (marks_on (placed_in sheet.now) axis) first last) }
{
    let seen = lines_seen(sheet, axis, first, last)?;
    let first = line_shifted(sheet, axis, shift, abs.0, seen.0)?;
    let last = line_shifted(sheet, axis, shift, abs.1, seen.1)?;
    Some((first, last))
}
