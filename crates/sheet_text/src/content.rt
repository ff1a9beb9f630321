ghost use Rattle.std.specs.Prelude.{◌≡◌, ◌∷◌, if◌then◌else◌, IfOk};
ghost use Rattle.formula_tree.specs.Printed.{formula_text};
ghost use Rattle.formula_tree.specs.Remap.{mapped};
ghost use Rattle.sheet_grid.specs.Values.{placed_in};
ghost use Rattle.sheet_text.specs.Shown.{is_plain, seen, shown_text};

use formula_print::print;
use formula_tree::{Formula, Remap, rename};
use sheet_grid::Sheet;
use sheet_ops::{Content, is_numeral};
use ss_base::{Memory, Txt};
use std::alloc::Global;

/// A content as it is shown on a sheet.
pub fn text_of(alloc: Global, sheet: &Sheet, content: Content) -> Result<Txt, Memory>
    ensures { IfOk result (λ t. t ≡ shown_text (placed_in sheet.now) content) }
{
    match content {
        Content::Empty => Ok(Txt::from_vec(Vec::new(alloc))),
        Content::Num(number) => {
            let text = format!(in alloc; "{number}")?;
            Ok(Txt::from_vec(text.into_bytes()))
        }
        Content::Text(text) => marked(alloc, text),
        Content::Formula(formula) => formula_seen(alloc, sheet, formula),
    }
}

/// A text, with `'` before it where it would be something else without.
pub(crate) fn marked(alloc: Global, text: Txt) -> Result<Txt, Memory>
    ensures { IfOk result (λ t. t ≡ (if is_plain text then text else 39 ∷ text)) }
{
    if is_plain(text.bytes()) {
        return Ok(text);
    }
    let mut marked = Vec::from_slice(alloc, b"'")?;
    marked.extend_from_slice(text.bytes())?;
    Ok(Txt::from_vec(marked))
}

/// Whether a text, typed as it is, would be this text.
fn is_plain(text: &[u8]) -> bool
    ensures { result ≡ is_plain text.now }
{
    match text {
        [] | [b'=' | b'\'', ..] => false,
        _ => !is_numeral(text),
    }
}

/// Where the lines of a sheet are seen.
#[derive(Drop)]
struct Seen<'a> {
    sheet: &'a Sheet,
}

impl Remap for Seen<'_> {
    ghost images = { λ s. seen (placed_in s.sheet.now).rows (placed_in s.sheet.now).cols };

    fn rec_row(&self, row: u32) -> Option<u32> {
        self.sheet.row_seen(row)
    }

    fn rec_col(&self, col: u32) -> Option<u32> {
        self.sheet.col_seen(col)
    }

    fn span_rows(&self, top: u32, bottom: u32) -> Option<(u32, u32)> {
        self.sheet.rows_seen(top, bottom)
    }

    fn span_cols(&self, left: u32, right: u32) -> Option<(u32, u32)> {
        self.sheet.cols_seen(left, right)
    }
}

/// A formula with its references as they are seen on a sheet.
fn formula_seen(alloc: Global, sheet: &Sheet, formula: Formula) -> Result<Txt, Memory>
    ensures { IfOk result (λ t. t ≡ formula_text (mapped (seen (placed_in sheet.now).rows (placed_in sheet.now).cols) formula)) }
{
    // No visible index is above the size.
    let _size = sheet.size();
    let mut formula = formula;
    rename(&mut formula, &Seen { sheet });
    print(alloc, &formula)
}
