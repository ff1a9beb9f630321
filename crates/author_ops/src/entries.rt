ghost use Rattle.std.specs.Prelude.{◌≡◌, ◌≢◌, ◌<◌, ◌^◌, true, length, Ok, Err, IfOk, IfErr};
ghost use Rattle.sheet_grid.specs.Values.{placed_in};
ghost use Rattle.sheet_ops.specs.Numerals.{is_numeral};
ghost use Rattle.author_ops.specs.Entries.{entered, formula_entered, number_entered, typed};
ghost use Rattle.formula_read.proofs.Readings.{reading};

use crate::numbers::read_number;
use formula_read::{ParseErr, parse};
use formula_tree::{Remap, rename};
use sheet_grid::Sheet;
use sheet_ops::{Content, EditErr, is_numeral};
use ss_base::{Memory, Txt};
use std::alloc::Global;

/// What an entry puts into its cell.
pub fn content_of(alloc: Global, sheet: &Sheet, entry: &Txt) -> Result<Content, EditErr>
    requires { length entry.now < 2 ^ 24 }
    ensures content { IfOk result (λ c. entered (placed_in sheet.now).rows (placed_in sheet.now).cols entry.now ≡ Ok c) }
    ensures cause { IfErr result (λ e. e ≢ EditErr.Memory → entered (placed_in sheet.now).rows (placed_in sheet.now).cols entry.now ≡ Err e) }
{
    match entry.bytes() {
        [b'=', ..] => formula_of(alloc, sheet, entry),
        [b'\'', text @ ..] => Ok(text_of(alloc, text)?),
        text if is_numeral(text) => number_of(text),
        text => Ok(text_of(alloc, text)?),
    }
}

fn text_of(alloc: Global, text: &[u8]) -> Result<Content, Memory>
    ensures { IfOk result (λ c. c ≡ Content.Text text.now) }
{
    Ok(Content::Text(Txt::new(alloc, text)?))
}

/// The number of an optional `-` and digits.
fn number_of(text: &[u8]) -> Result<Content, EditErr>
    requires numeral { is_numeral text.now ≡ true }
    requires short { length text.now < 2 ^ 24 }
    ensures { result ≡ number_entered text.now }
{
    match read_number(text) {
        Ok(number) => Ok(Content::Num(number)),
        Err(front) => Err(EditErr::BadFormula(front)),
    }
}

/// Where a reference is typed, the lines that are seen there are meant.
#[derive(Drop)]
struct Typed<'a> {
    sheet: &'a Sheet,
}

impl Remap for Typed<'_> {
    ghost images = { λ t. typed (placed_in t.sheet.now).rows (placed_in t.sheet.now).cols };

    fn rec_row(&self, row: u32) -> Option<u32> {
        self.sheet.row_at(row)
    }

    fn rec_col(&self, col: u32) -> Option<u32> {
        self.sheet.col_at(col)
    }

    fn span_rows(&self, top: u32, bottom: u32) -> Option<(u32, u32)> {
        let top = self.sheet.row_at(top)?;
        let bottom = self.sheet.row_at(bottom)?;
        Some((top, bottom))
    }

    fn span_cols(&self, left: u32, right: u32) -> Option<(u32, u32)> {
        let left = self.sheet.col_at(left)?;
        let right = self.sheet.col_at(right)?;
        Some((left, right))
    }
}

/// A formula as it was typed, its references by positions.
fn formula_of(alloc: Global, sheet: &Sheet, entry: &Txt) -> Result<Content, EditErr>
    requires { length entry.now < 2 ^ 24 }
    ensures content { IfOk result (λ c. formula_entered (placed_in sheet.now).rows (placed_in sheet.now).cols (reading entry.now) ≡ Ok c) }
    ensures cause { IfErr result (λ e. e ≢ EditErr.Memory → formula_entered (placed_in sheet.now).rows (placed_in sheet.now).cols (reading entry.now) ≡ Err e) }
{
    // No position is above the size.
    let _size = sheet.size();
    match parse(alloc, entry) {
        Ok(mut formula) => {
            rename(&mut formula, &Typed { sheet });
            Ok(Content::Formula(formula))
        }
        Err(ParseErr::At(front)) => Err(EditErr::BadFormula(front)),
        Err(ParseErr::Deep) => Err(EditErr::Deep),
        Err(ParseErr::Memory) => Err(EditErr::Memory),
    }
}
