ghost use Rattle.std.specs.Prelude.{◌≡◌, ◌≢◌, ◌≤◌, ◌<◌, ◌+◌, Ok, Err, AllPairs, IfOk, IfErr, length, map, take, drop, unwrap_or, if◌then◌else◌, slice_index};
ghost use Rattle.std.specs.List.{range_with_len};
ghost use Rattle.std.specs.Option.{option_copied};
ghost use Rattle.marked_lines.specs.Marks.{visible_count, visible_places};
ghost use Rattle.sheet_value.specs.Order.{order_of};
ghost use Rattle.sheet_value.specs.declared.value.Value.TheVariants as value;
ghost use Rattle.sheet_grid.specs.Values.{placed_in};
ghost use Rattle.sheet_ops.specs.Fits.{IntentFits};
ghost use Rattle.sheet_ops.specs.Placed.{placed_size};
ghost use Rattle.author_ops.specs.Copies.{line_count};
ghost use Rattle.author_ops.specs.Edits.{sort_on};
ghost use Rattle.author_ops.specs.Orders.{empty_rank, key_order, row_at, row_order, places_sorted};

use crate::axis::{Dimension, place_of};
use sheet_grid::Sheet;
use sheet_ops::{EditErr, Intent};
use sheet_value::{Value, order, order_is_total};
use ss_base::{Memory, Seq};
use std::alloc::{AllocError, Global};
use std::cmp::Ordering;

/// How many rows a sort has at most.
const MOST_ROWS: u32 = 1024;

/// What sorting the visible rows from a first to a last one by their keys denotes, one key a row: its
/// slots are those rows, and its records those standing there, in the order of their keys. Empty keys
/// stand last, the others follow the order of values, reversed for `down`, and ties stand as they stand.
/// `OutOfSheet` comes exactly where a row isn't in the visible sheet, else `SortLong` exactly above 1,024
/// rows. It takes the time of sorting the rows.
pub fn sort(
    alloc: Global,
    sheet: &Sheet,
    first: u32,
    last: u32,
    keys: &[Value],
    down: bool,
) -> Result<Intent, EditErr>
    requires order { first ≤ last }
    requires keys { last < visible_count (placed_in sheet.now).rows → length keys.now ≡ line_count first last }
    ensures intent { IfOk result (λ op. sort_on (placed_in sheet.now).rows first last keys.now down ≡ Ok op) }
    ensures cause { IfErr result (λ e. e ≢ EditErr.Memory → sort_on (placed_in sheet.now).rows first last keys.now down ≡ Err e) }
    ensures fits { IfOk result (IntentFits (placed_size (placed_in sheet.now))) }
{
    if last >= sheet.visible().rows {
        return Err(EditErr::OutOfSheet);
    }
    order_is_total();
    let count = last - first + 1;
    if count > MOST_ROWS {
        return Err(EditErr::SortLong(count));
    }
    let slots = slots_from(alloc, sheet, first, count)?;
    let recs = sorted(alloc, &slots, keys, down)?;
    Ok(Intent::Sort(Seq::from_vec(slots), Seq::from_vec(recs)))
}

/// The positions of so many visible rows from one on.
fn slots_from(alloc: Global, sheet: &Sheet, first: u32, count: u32) -> Result<Vec<u32>, Memory>
    requires { first + count ≤ visible_count (placed_in sheet.now).rows }
    ensures { IfOk result (λ v. v.items ≡ take count (drop first (visible_places (placed_in sheet.now).rows))) }
{
    // No visible index is above the number of rows.
    let _seen = sheet.visible();
    let mut slots = Vec::new(alloc);
    for k in 0..count {
        slots.push(place_of(sheet, Dimension::Rows, first + k))?;
    }
    Ok(slots)
}

/// Positions in the order of their keys.
fn sorted(alloc: Global, slots: &[u32], keys: &[Value], down: bool) -> Result<Vec<u32>, Memory>
    requires many { length keys.now ≡ length slots.now }
    requires few { length slots.now ≤ 1024 }
    requires ascending { AllPairs (λ p q. p < q) slots.now }
    ensures { IfOk result (λ v. v.items ≡ places_sorted down slots.now keys.now) }
{
    order_is_total();
    let mut order = indexes(alloc, slots)?;
    order.sort_unstable_by(|a, b| compared(slots, keys, down, *a, *b));
    Ok(places_at(alloc, slots, &order)?)
}

/// The indexes of some positions.
fn indexes(alloc: Global, slots: &[u32]) -> Result<Vec<u32>, AllocError>
    requires { length slots.now ≤ 1024 }
    ensures { IfOk result (λ v. v.items ≡ range_with_len 0 (length slots.now)) }
{
    let mut found = Vec::new(alloc);
    for i in 0..slots.len() {
        found.push(i as u32)?;
    }
    Ok(found)
}

/// The positions at some indexes.
fn places_at(alloc: Global, slots: &[u32], order: &[u32]) -> Result<Vec<u32>, AllocError>
    ensures { IfOk result (λ v. v.items ≡ map (slice_index slots.now) order.now) }
{
    order.iter().map(|i| place_at(slots, *i)).collect(alloc)
}

/// The position at an index; of an index past the end it is 0.
fn place_at(slots: &[u32], i: u32) -> u32
    ensures { result ≡ slice_index slots.now i }
{
    slots.get(i as usize).copied().unwrap_or(0)
}

/// How the rows at two indexes stand to each other.
fn compared(slots: &[u32], keys: &[Value], down: bool, a: u32, b: u32) -> Ordering
    ensures { result ≡ row_order down (row_at slots.now keys.now a) (row_at slots.now keys.now b) }
{
    let by_place = place_at(slots, a).cmp(&place_at(slots, b));
    key_order(keys.get(a as usize), keys.get(b as usize), down).then(by_place)
}

/// How two keys stand to each other; one that isn't there is an empty one.
fn key_order(a: Option<&Value>, b: Option<&Value>, down: bool) -> Ordering
    ensures { result ≡ key_order down (unwrap_or (option_copied a.entry) value.Empty) (unwrap_or (option_copied b.entry) value.Empty) }
{
    let by_rank = empty_rank(a).cmp(&empty_rank(b));
    by_rank.then(filled_order(a, b, down))
}

/// The rank of an empty key is above that of the others.
fn empty_rank(key: Option<&Value>) -> u8
    ensures { result ≡ empty_rank (unwrap_or (option_copied key.entry) value.Empty) }
{
    match key {
        None | Some(Value::Empty) => 1,
        Some(Value::Num(_) | Value::Text(_) | Value::Err(_)) => 0,
    }
}

/// How two keys of one rank stand to each other.
fn filled_order(a: Option<&Value>, b: Option<&Value>, down: bool) -> Ordering
    ensures { empty_rank (unwrap_or (option_copied a.entry) value.Empty) ≡ empty_rank (unwrap_or (option_copied b.entry) value.Empty) →
        result ≡ (if down then order_of (unwrap_or (option_copied b.entry) value.Empty) (unwrap_or (option_copied a.entry) value.Empty) else order_of (unwrap_or (option_copied a.entry) value.Empty) (unwrap_or (option_copied b.entry) value.Empty)) }
{
    match (a, b) {
        (Some(a), Some(b)) if down => order(b, a),
        (Some(a), Some(b)) => order(a, b),
        _ => Ordering::Equal,
    }
}
