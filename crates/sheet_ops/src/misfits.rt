ghost use Rattle.std.specs.Prelude.{◌≡◌, ◌≤◌, ◌<◌, ◌↔◌, ℕ, [], ◌∷◌, ◌++◌, length, nat_lt, nat_le, not, ◌&&◌, map as map_list, IsNone, OnOk, false, slice_index_or};
ghost use Rattle.formula_tree.specs.Erase.{tree_of};
ghost use Rattle.formula_tree.specs.Tree.{trees_from};
ghost use Rattle.marked_lines.specs.Moves.{IsPerm};
ghost use Rattle.sheet_ops.specs.declared.operation.Intent.TheVariants as intent;
ghost use Rattle.sheet_ops.specs.Fits.{IntentFits, EffectFits, writes_cell};
ghost use Rattle.sheet_ops.specs.Misfits.{misfit, walked, beside_earlier, cell_tests, range_tests, tree_tests, trees_tests, content_tests, put_tests, slot_tests, rec_tests, move_tests, intent_tests, effect_tests, MovesArePerm};

use crate::content::{Content, Put};
use crate::operation::{Effect, Intent};
use formula_tree::Expr;
use marked_lines::{MOST_LINES, Perm};
use ss_base::{Size, Span, Spot};

/// How many cells an operation writes at most.
const MOST_CELLS: usize = 128;

/// How many slots a sort has at most.
const MOST_SLOTS: usize = 1024;

/// `None` exactly where the intent fits a sheet of this size, and else the index, counted from 0, of the
/// first of its numbers that breaks its rule; 2^32 - 1 stands for all above it. It takes no memory, and the
/// time of reading the numbers once, but for a write's cells that of comparing each with each.
pub fn fits(intent: &Intent, size: Size) -> Option<u32>
    requires { size.rows ≤ MOST_LINES }
    ensures misfit { result ≡ misfit (intent_tests size intent.now) }
    ensures fits { IsNone result ↔ IntentFits size intent.now }
{
    walk_intent(intent, size).err()
}

/// `None` exactly where the effect fits a sheet of this size, and else the index, counted from 0, of the
/// first of its numbers that breaks its rule; 2^32 - 1 stands for all above it. It takes no memory, and the
/// time of reading the numbers once, but for a write's cells that of comparing each with each.
pub fn fits_effect(effect: &Effect, size: Size) -> Option<u32>
    requires { size.rows ≤ MOST_LINES }
    ensures misfit { result ≡ misfit (effect_tests size effect.now) }
    ensures fits { IsNone result ↔ EffectFits size effect.now }
{
    walk_effect(effect, size).err()
}

fn walk_intent(intent: &Intent, size: Size) -> Result<u32, u32>
    requires { size.rows ≤ MOST_LINES }
    ensures { result ≡ walked 0 (intent_tests size intent.now) }
{
    match intent {
        Intent::Write(puts) => match puts.as_slice() {
            [] => Err(0),
            puts => walk_puts(puts, size),
        },
        Intent::InsRow(p) => walk_number(0, *p <= size.rows),
        Intent::InsCol(p) => walk_number(0, *p <= size.cols),
        Intent::DelRow(p) => walk_number(0, *p < size.rows),
        Intent::DelCol(p) => walk_number(0, *p < size.cols),
        Intent::Sort(slots, recs) => walk_sort(slots.as_slice(), recs.as_slice(), size),
    }
}

fn walk_effect(effect: &Effect, size: Size) -> Result<u32, u32>
    requires { size.rows ≤ MOST_LINES }
    ensures walk { result ≡ walked 0 (effect_tests size effect.now) }
    ensures perm { MovesArePerm effect.now }
{
    match effect {
        Effect::Write(puts) => walk_puts(puts.as_slice(), size),
        Effect::InsRow(p) => walk_number(0, *p <= size.rows),
        Effect::InsCol(p) => walk_number(0, *p <= size.cols),
        Effect::DelRow(p) => walk_number(0, *p < size.rows),
        Effect::DelCol(p) => walk_number(0, *p < size.cols),
        Effect::Move(perm) => walk_moves(perm, size),
    }
}

/// The index behind a number's own where the number meets its rule, and else its own as an error.
fn walk_number(at: u32, met: bool) -> Result<u32, u32>
    ensures { result ≡ walked at (met ∷ []) }
{
    if met {
        Ok(at.saturating_add(1))
    } else {
        Err(at)
    }
}

fn walk_puts(puts: &[Put], size: Size) -> Result<u32, u32>
    ensures { result ≡ walked 0 (beside_earlier (put_tests size) [] puts.now) }
{
    let mut at = 0;
    for (i, put) in puts.iter().enumerate() {
        at = walk_put(at, &puts[..i], put, size)?;
    }
    Ok(at)
}

fn walk_put(at: u32, earlier: &[Put], put: &Put, size: Size) -> Result<u32, u32>
    ensures { result ≡ walked at (put_tests size earlier.now put.now) }
{
    let at = walk_number(at, earlier.len() < MOST_CELLS && put.row < size.rows)?;
    let at = walk_number(at, put.col < size.cols && !is_written(earlier, put))?;
    match &put.content {
        Content::Empty | Content::Num(_) | Content::Text(_) => Ok(at),
        Content::Formula(formula) => walk_expr(formula.expr(), size, at),
    }
}

/// Whether the cell is among those that are written.
fn is_written(puts: &[Put], put: &Put) -> bool
    ensures { result ≡ writes_cell puts.now put.now }
{
    puts.iter().any(|p| p.row == put.row && p.col == put.col)
}

#[cycle(walk)]
fn walk_expr(expr: &Expr, size: Size, at: u32) -> Result<u32, u32>
    ensures { result ≡ walked at (tree_tests size (tree_of expr.now)) }
{
    match expr {
        Expr::Num(_) | Expr::Text(_) | Expr::Err(_) => Ok(at),
        Expr::Cell(spot) => walk_cell(spot, size, at),
        Expr::Range(span) => walk_range(span, size, at),
        Expr::Pre(_, e) => walk_expr(e, size, at),
        Expr::Bin(_, d, e) => {
            let at = walk_expr(d, size, at)?;
            walk_expr(e, size, at)
        }
        Expr::Call(_, args) => walk_args(args.as_slice(), size, at),
    }
}

#[cycle(walk)]
fn walk_args(exprs: &[Expr], size: Size, mut at: u32) -> Result<u32, u32>
    ensures { result ≡ walked at (trees_tests size (trees_from (map_list tree_of exprs.now))) }
{
    for e in exprs {
        at = walk_expr(e, size, at)?;
    }
    Ok(at)
}

fn walk_cell(spot: &Spot, size: Size, at: u32) -> Result<u32, u32>
    ensures { result ≡ walked at (cell_tests size spot.now) }
{
    let at = walk_number(at, spot.row < size.rows)?;
    walk_number(at, spot.col < size.cols)
}

fn walk_range(span: &Span, size: Size, at: u32) -> Result<u32, u32>
    ensures { result ≡ walked at (range_tests size span.now) }
{
    let at = walk_number(at, span.top < size.rows)?;
    let at = walk_number(at, span.left < size.cols)?;
    let at = walk_number(at, span.bottom < size.rows)?;
    walk_number(at, span.right < size.cols)
}

fn walk_sort(slots: &[u32], recs: &[u32], size: Size) -> Result<u32, u32>
    requires { size.rows ≤ MOST_LINES }
    ensures { result ≡ walked 0 (intent_tests size (intent.Sort slots.now recs.now)) }
{
    let at = walk_slots(slots, size)?;
    let at = walk_recs(recs, slots.len(), size, at)?;
    if recs.len() < slots.len() {
        return Err(at);
    }
    Ok(at)
}

fn walk_slots(slots: &[u32], size: Size) -> Result<u32, u32>
    ensures { result ≡ walked 0 (beside_earlier (slot_tests size) [] slots.now) }
{
    let mut at = 0;
    // The least that the next slot may be.
    let mut low = 0;
    for (i, slot) in slots.iter().enumerate() {
        let slot = *slot;
        at = walk_slot(at, i, slot, low, size)?;
        low = slot + 1;
    }
    Ok(at)
}

/// The slot at an index, where `low` is the least that it may be.
fn walk_slot(at: u32, i: usize, slot: u32, low: u32, size: Size) -> Result<u32, u32>
    ensures walk { result ≡ walked at ((nat_lt i 1024 && nat_lt slot size.rows && nat_le low slot) ∷ []) }
    ensures met { OnOk result ((slot < size.rows) × (low ≤ slot)) }
{
    walk_number(at, i < MOST_SLOTS && slot < size.rows && low <= slot)
}

/// The records behind so many slots.
fn walk_recs(recs: &[u32], slots: usize, size: Size, mut at: u32) -> Result<u32, u32>
    requires { size.rows ≤ MOST_LINES }
    ensures { result ≡ walked at (beside_earlier (rec_tests size slots) [] recs.now) }
{
    let mut seen = none_seen();
    for (i, rec) in recs.iter().enumerate() {
        let rec = *rec;
        at = walk_rec(at, i, slots, rec, size, &seen)?;
        seen[rec as usize] = true;
    }
    Ok(at)
}

/// A table of the rows, of which none is seen.
fn none_seen() -> [bool; MOST_LINES as usize]
    ensures len { length result ≡ MOST_LINES }
    ensures none { (p : ℕ) → slice_index_or result p false ≡ false }
{
    [false; MOST_LINES as usize]
}

/// The record at an index, behind so many slots, where those before it are seen.
fn walk_rec(
    at: u32,
    i: usize,
    slots: usize,
    rec: u32,
    size: Size,
    seen: &[bool],
) -> Result<u32, u32>
    requires { size.rows ≤ length seen.now }
    ensures walk { result ≡ walked at ((nat_lt i slots && nat_lt rec size.rows && not (slice_index_or seen.now rec false)) ∷ []) }
    ensures met { OnOk result (rec < size.rows) }
{
    walk_number(at, i < slots && rec < size.rows && !seen[rec as usize])
}

fn walk_moves(perm: &Perm, size: Size) -> Result<u32, u32>
    requires { size.rows ≤ MOST_LINES }
    ensures walk { result ≡ walked 0 (beside_earlier (move_tests size) [] perm.now) }
    ensures perm { IsPerm perm.now }
{
    let mut at = 0;
    let mut i = 0usize;
    while let Some((from, to)) = perm.pair(i) {
        at = walk_move(at, from, to, size)?;
        i += 1;
    }
    Ok(at)
}

/// A moved position and its image.
fn walk_move(at: u32, from: u32, to: u32, size: Size) -> Result<u32, u32>
    ensures walk { result ≡ walked at (nat_lt from size.rows ∷ nat_lt to size.rows ∷ []) }
    ensures met { OnOk result (from < size.rows) }
{
    let at = walk_number(at, from < size.rows)?;
    walk_number(at, to < size.rows)
}
