ghost use Rattle.std.specs.Prelude.{◌≡◌, None, Some, map, replicate, unwrap_or, IsSome, IfOk, IfSome, IfNone, OnOk, OnErr};
ghost use Rattle.std.specs.BTreeMap.{insert_entry};
ghost use Rattle.std.specs.Ordering.{nat_cmp};
ghost use Rattle.sheet_ops.specs.declared.content.Content.TheVariants as content;
ghost use Rattle.sheet_grid.specs.Cells.{kind_of, formula_of};
ghost use Rattle.sheet_grid.specs.Kept.{held, no_cells};
ghost use Rattle.sheet_grid.specs.Rows.{with_column, settled};

use crate::Kind;
use formula_tree::Formula;
use sheet_ops::Content;
use ss_base::Memory;
use std::alloc::Global;
use std::collections::BTreeMap;

/// So many rows with nothing in them.
pub fn empty_rows(alloc: Global, count: u32) -> Result<Vec<BTreeMap<u32, Content>>, Memory>
    ensures { IfOk result (λ rows. map held rows.items ≡ replicate count no_cells) }
{
    let mut rows = Vec::with_capacity(alloc, count as usize)?;
    for _i in 0..count {
        rows.push(BTreeMap::new(alloc))?;
    }
    Ok(rows)
}

/// Equal rows.
pub fn copy_rows(rows: &Vec<BTreeMap<u32, Content>>) -> Result<Vec<BTreeMap<u32, Content>>, Memory>
    ensures { IfOk result (λ copies. map held copies.items ≡ map held rows.now.items) }
{
    let alloc = *rows.allocator();
    let mut copies = Vec::with_capacity(alloc, rows.len())?;
    for row in rows {
        copies.push(copy_row(alloc, row)?)?;
    }
    Ok(copies)
}

/// An equal row.
fn copy_row(alloc: Global, row: &BTreeMap<u32, Content>) -> Result<BTreeMap<u32, Content>, Memory>
    ensures { IfOk result (λ copy. held copy ≡ held row.now) }
{
    let mut copy = BTreeMap::new(alloc);
    for (col, what) in row.iter() {
        copy_cell(&mut copy, *col, what)?;
    }
    Ok(copy)
}

// Puts a copy of a content under the key of a column.
fn copy_cell(row: &mut BTreeMap<u32, Content>, col: u32, what: &Content) -> Result<(), Memory>
    ensures { OnOk result (row.new.entries ≡ insert_entry nat_cmp row.old.entries col what.now) }
{
    let what = what.copy()?;
    let _old = row.insert(col, what)?;
    Ok(())
}

/// What kind of content the cell of a column holds.
pub fn kind_in(row: &BTreeMap<u32, Content>, col: u32) -> Kind
    ensures { result ≡ kind_of (unwrap_or (held row.now col) content.Empty) }
{
    match row.get(&col) {
        Some(Content::Num(n)) => Kind::Num(*n),
        Some(Content::Text(_)) => Kind::Text,
        Some(Content::Formula(_)) => Kind::Formula,
        Some(Content::Empty) | None => Kind::Empty,
    }
}

/// The formula under the key of a column.
pub fn formula_in(row: &BTreeMap<u32, Content>, col: u32) -> Option<&Formula>
    ensures formula { IfSome result (λ f. unwrap_or (held row.now col) content.Empty ≡ content.Formula f.now) }
    ensures none { IfNone result (formula_of (unwrap_or (held row.now col) content.Empty) ≡ None) }
{
    match row.get(&col) {
        Some(Content::Formula(formula)) => Some(formula),
        _ => None,
    }
}

/// Puts a content under the key of a column, an empty one too, and answers what stood there. A
/// refused call leaves the row.
pub fn store(
    row: &mut BTreeMap<u32, Content>,
    col: u32,
    what: Content,
) -> Result<Option<Content>, Memory>
    ensures old { IfOk result (λ old. old ≡ held row.old col) }
    ensures ok { IfOk result (λ old. held row.new ≡ with_column (held row.old) col (Some what)) }
    ensures err { OnErr result (held row.new ≡ held row.old) }
{
    Ok(row.insert(col, what)?)
}

/// Puts back what stood at a column whose key is there.
pub fn put_back(row: &mut BTreeMap<u32, Content>, col: u32, old: Option<Content>)
    requires { IsSome (held row.old col) }
    ensures { held row.new ≡ with_column (held row.old) col old }
{
    match old {
        Some(what) => match row.insert(col, what) {
            Ok(_) => {}
            Err(_) => unreachable!(),
        },
        None => {
            let _ = row.remove(&col);
        }
    }
}

/// Takes the key of a column out where its content is empty.
pub fn settle(row: &mut BTreeMap<u32, Content>, col: u32)
    ensures { held row.new ≡ with_column (held row.old) col (settled (held row.old col)) }
{
    if let Some(Content::Empty) = row.get(&col) {
        let _ = row.remove(&col);
    }
}
