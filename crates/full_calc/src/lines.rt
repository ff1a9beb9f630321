ghost use Rattle.std.specs.Prelude.{◌≡◌, ◌+◌, ◌<◌, ◌≤◌, if◌then◌else◌, length, IfOk, IfSome};
ghost use Rattle.marked_lines.specs.Marks.{visible_before, visible_of, span_of};
ghost use Rattle.sheet_grid.specs.Values.{placed_in};
ghost use Rattle.full_calc.specs.Counted.{AreCounts};

use sheet_grid::Sheet;
use ss_base::Memory;
use std::alloc::Global;
use std::marker::Model;

/// The lines of an axis, which contracts see by their marks, `true` for a hidden one. It keeps for
/// each position how many visible lines stand before it, so that each question takes constant time.
#[derive(Debug, Drop)]
pub(crate) struct LineCounts {
    marks: Vec<bool>,
    // one for each line, and one for the end
    before: Vec<u32>,
}

impl Model for LineCounts {
    ghost use Rattle.std.specs.Prelude.{List, Bool};
    ghost use Rattle.full_calc.specs.Counted.{AreCounts};

    ghost Value = { List Bool };

    ghost view = { λ l. l.marks.items };

    ghost invariant = { λ l. AreCounts l.marks.items l.before.items };
}

impl LineCounts {
    /// Lines with these marks, in the time of their number.
    fn new(alloc: Global, marks: Vec<bool>) -> Result<LineCounts, Memory>
        requires { length marks.items ≤ 16000 }
        ensures { IfOk result (λ l. l ≡ marks.items) }
    {
        let before = counts(alloc, &marks)?;
        Ok(LineCounts { marks, before })
    }

    /// How many visible lines stand before a position: all of them behind the last line.
    fn before(&self, p: usize) -> u32
        ensures count { result ≡ visible_before self.now p }
        ensures few { result ≤ 16000 }
    {
        self.before[p.min(self.marks.len())]
    }

    /// The visible index of the line at a position, and `None` exactly where it is hidden or isn't
    /// there.
    pub fn index(&self, p: u32) -> Option<u32>
        ensures { result ≡ visible_of self.now p }
    {
        match self.marks.get(p as usize) {
            Some(false) => Some(self.before(p as usize)),
            _ => None,
        }
    }

    /// The visible indexes of the first and of the last visible line from one position to another,
    /// both counted, and `None` exactly where no line between is visible.
    pub fn span(&self, first: u32, last: u32) -> Option<(u32, u32)>
        ensures span { result ≡ span_of self.now first last }
        ensures few { IfSome result (λ seen. (seen.0 < 16000) × (seen.1 < 16000)) }
    {
        let from = self.before(first as usize);
        let behind = self.before(last as usize + 1);
        if from < behind {
            Some((from, behind - 1))
        } else {
            None
        }
    }
}

/// The rows and the columns of a sheet.
#[derive(Debug, Drop)]
pub(crate) struct SheetLines {
    pub rows: LineCounts,
    pub cols: LineCounts,
}

impl SheetLines {
    /// Those of a sheet, in the time of their number.
    pub fn of(alloc: Global, sheet: &Sheet) -> Result<SheetLines, Memory>
        ensures rows { IfOk result (λ l. l.rows ≡ (placed_in sheet.now).rows) }
        ensures cols { IfOk result (λ l. l.cols ≡ (placed_in sheet.now).cols) }
    {
        let rows = LineCounts::new(alloc, row_marks(alloc, sheet)?)?;
        let cols = LineCounts::new(alloc, col_marks(alloc, sheet)?)?;
        Ok(SheetLines { rows, cols })
    }
}

/// The marks of a sheet's rows.
fn row_marks(alloc: Global, sheet: &Sheet) -> Result<Vec<bool>, Memory>
    ensures marks { IfOk result (λ v. v.items ≡ (placed_in sheet.now).rows) }
    ensures few { IfOk result (λ v. length v.items ≤ 16000) }
{
    let mut marks = Vec::new(alloc);
    for p in 0..sheet.size().rows {
        marks.push(sheet.is_row_marked(p))?;
    }
    Ok(marks)
}

/// The marks of a sheet's columns.
fn col_marks(alloc: Global, sheet: &Sheet) -> Result<Vec<bool>, Memory>
    ensures marks { IfOk result (λ v. v.items ≡ (placed_in sheet.now).cols) }
    ensures few { IfOk result (λ v. length v.items ≤ 16000) }
{
    let mut marks = Vec::new(alloc);
    for p in 0..sheet.size().cols {
        marks.push(sheet.is_col_marked(p))?;
    }
    Ok(marks)
}

/// How many visible lines there are with one more line.
fn with_line(count: u32, hidden: bool) -> u32
    requires { count < 16000 }
    ensures { result ≡ if hidden then count else count + 1 }
{
    if hidden { count } else { count + 1 }
}

/// How many visible lines stand before each line, and before the end.
fn counts(alloc: Global, marks: &[bool]) -> Result<Vec<u32>, Memory>
    requires { length marks.now ≤ 16000 }
    ensures { IfOk result (λ v. AreCounts marks.now v.items) }
{
    let mut before = Vec::with_capacity(alloc, marks.len() + 1)?;
    let mut count = 0;
    for hidden in marks {
        before.push(count)?;
        count = with_line(count, *hidden);
    }
    before.push(count)?;
    Ok(before)
}
