ghost use Rattle.std.specs.Prelude.{◌≡◌, ◌^◌, ◌+◌, ◌*ℤ◌, ◌<◌, ◌≤◌, [], ◌∷◌, Ok, Err, None, find, length, slice_get, IfOk, IfSome, OnOk, MatchOption, MatchResult};
ghost use Rattle.std.specs.List.{position_from};
ghost use Rattle.sheet_value.specs.declared.value.Value.TheVariants as value;
ghost use Rattle.funcs.specs.Areas.{items, width, same, same_shape, sheet_numbers};
ghost use Rattle.funcs.specs.Args.{criterion};
ghost use Rattle.funcs.specs.Numbers.{in_range};
ghost use Rattle.funcs.specs.Refs.{owned, owned_result};
ghost use Rattle.funcs.specs.Steps.{all_of};
ghost use Rattle.funcs.specs.Tallies.{with_numbers};
ghost use Rattle.funcs.specs.Tables.{index_of, exact_match, line, match_of, column, begins_with, looked_up, vlookup_of, countif_of, chosen, chosen_total, sumif_of, no_errors, number_or_zero, products, product_total, sumproduct_of, rows_of, columns_of};

use crate::area::Area;
use crate::arg::{Arg, number, value};
use crate::arity::{four, one, three, two, two_or_three};
use crate::list::{Counted, count_area, with_value};
use crate::number::{in_range, number_value, place};
use crate::tally::Tally;
use crate::text::number_or_one;
use crate::value_ref::ValueRef;
use sheet_value::{Look, Value};
use ss_base::{CalcErr, Txt};

/// What items are compared with.
fn criterion<'a, L: Look>(arg: &'a Arg, look: &'a L) -> Result<ValueRef<'a>, CalcErr>
    ensures { owned_result result ≡ criterion (L.environment look.now) arg.now }
{
    match value(arg, look) {
        ValueRef::Err(e) => Err(e),
        ValueRef::Empty => Ok(ValueRef::Num(0)),
        v => Ok(v),
    }
}

/// The item that an INDEX comes to.
pub(crate) fn index_value<'a, L: Look>(
    args: &'a [Arg],
    look: &'a L,
) -> Result<ValueRef<'a>, CalcErr>
    ensures { owned_result result ≡ index_of (L.environment look.now) args.now }
{
    let (a, r, c) = two_or_three(args)?;
    let area = Area::of(a, look)?;
    let r = number(r, look)?;
    let c = number_or_one(c, look)?;
    let row = place(r)?;
    let col = place(c)?;
    area.get(row, col)
}

/// Whether an exact match is asked for, which is the only kind.
fn exact_match(m: i64) -> Result<(), CalcErr>
    ensures { result ≡ exact_match m }
{
    if m != 0 {
        return Err(CalcErr::BadKind);
    }
    Ok(())
}

/// A single row or column.
fn line(area: &Area<'_>) -> Result<(), CalcErr>
    ensures { MatchResult result (λ _. line area.now ≡ Ok (items area.now)) (λ e. line area.now ≡ Err e) }
{
    if area.rows() == 1 || area.cols() == 1 {
        return Ok(());
    }
    Err(CalcErr::BadKind)
}

/// The place from 0 of the first value that is this number.
fn number_place(values: &[Value], n: i64) -> Option<usize>
    ensures place { result ≡ position_from (λ v. same v (value.Num n)) 0 values.now }
    ensures inside { IfSome result (λ i. i < length values.now) }
{
    for (i, v) in values.iter().enumerate() {
        if is_number(v, n) {
            return Some(i);
        }
    }
    None
}

fn is_number(v: &Value, n: i64) -> bool
    ensures { result ≡ same v.now (value.Num n) }
{
    match v {
        Value::Num(m) => *m == n,
        Value::Empty | Value::Text(_) | Value::Err(_) => false,
    }
}

/// The place from 0 of the first value that is this text.
fn text_place(values: &[Value], t: &Txt) -> Option<usize>
    ensures place { result ≡ position_from (λ v. same v (value.Text t.now)) 0 values.now }
    ensures inside { IfSome result (λ i. i < length values.now) }
{
    for (i, v) in values.iter().enumerate() {
        if is_text(v, t) {
            return Some(i);
        }
    }
    None
}

fn is_text(v: &Value, t: &Txt) -> bool
    ensures { result ≡ same v.now (value.Text t.now) }
{
    match v {
        Value::Text(s) => s.bytes() == t.bytes(),
        Value::Empty | Value::Num(_) | Value::Err(_) => false,
    }
}

/// The place from 0 of the first value that is the same. No other is examined after it.
fn place_in_column(values: &[Value], x: ValueRef<'_>) -> Option<usize>
    ensures place { result ≡ position_from (λ v. same v (owned x.entry)) 0 values.now }
    ensures inside { IfSome result (λ i. i < length values.now) }
{
    match x {
        ValueRef::Num(n) => number_place(values, n),
        ValueRef::Text(t) => text_place(values, t),
        ValueRef::Empty | ValueRef::Err(_) => None,
    }
}

/// The place from 0 of the first item that is the same, item by item.
fn place_in_items(area: &Area<'_>, x: ValueRef<'_>) -> Option<usize>
    ensures place { result ≡ position_from (λ v. same v (owned x.entry)) 0 (items area.now) }
    ensures few { IfSome result (λ i. i < 256000000) }
{
    for i in 0..area.count() {
        if area.item(i).is_same(x) {
            return Some(i);
        }
    }
    None
}

/// The place from 0 of the first item that is the same.
fn place_in(area: &Area<'_>, x: ValueRef<'_>) -> Option<usize>
    ensures place { result ≡ position_from (λ v. same v (owned x.entry)) 0 (items area.now) }
    ensures few { IfSome result (λ i. i < 256000000) }
{
    match area.only_column() {
        Some(values) => place_in_column(values, x),
        None => place_in_items(area, x),
    }
}

/// The place from 1 of the first item that is the same.
fn position(area: &Area<'_>, x: ValueRef<'_>) -> Option<usize>
    ensures value { result ≡ position_from (λ v. same v (owned x.entry)) 1 (items area.now) }
    ensures few { IfSome result (λ k. k ≤ 256000000) }
{
    match place_in(area, x) {
        Some(i) => Some(i + 1),
        None => None,
    }
}

pub(crate) fn match_place<L: Look>(args: &[Arg], look: &L) -> Result<Value, CalcErr>
    ensures { result ≡ match_of (L.environment look.now) args.now }
{
    let (x, a, m) = three(args)?;
    let x = criterion(x, look)?;
    let area = Area::of(a, look)?;
    let m = number(m, look)?;
    exact_match(m)?;
    line(&area)?;
    match position(&area, x) {
        Some(k) => Ok(Value::Num(k as i64)),
        None => Err(CalcErr::Na),
    }
}

/// A column of the shape.
fn column(area: &Area<'_>, col: usize) -> Result<usize, CalcErr>
    ensures { result ≡ column area.now col }
{
    if col < area.cols() as usize {
        return Ok(col);
    }
    Err(CalcErr::Lost)
}

/// The first row that begins with the same item.
fn find_row(area: &Area<'_>, x: ValueRef<'_>) -> Option<usize>
    requires { 0 < width area.now }
    ensures { MatchOption result (find (begins_with (owned x.entry)) area.now ≡ None) (λ row. (row < length area.now) × (find (begins_with (owned x.entry)) area.now ≡ slice_get area.now row)) }
{
    place_in_column(area.column(0), x)
}

/// The item in a column of that row.
fn looked_up<'a>(area: &Area<'a>, x: ValueRef<'_>, col: usize) -> Result<ValueRef<'a>, CalcErr>
    requires { col < width area.now }
    ensures { owned_result result ≡ looked_up (owned x.entry) col area.now }
{
    match find_row(area, x) {
        Some(row) => area.get(row, col),
        None => Err(CalcErr::Na),
    }
}

/// The item that a VLOOKUP comes to.
pub(crate) fn vlookup_value<'a, L: Look>(
    args: &'a [Arg],
    look: &'a L,
) -> Result<ValueRef<'a>, CalcErr>
    ensures { owned_result result ≡ vlookup_of (L.environment look.now) args.now }
{
    let (x, a, c, m) = four(args)?;
    let x = criterion(x, look)?;
    let area = Area::of(a, look)?;
    let c = number(c, look)?;
    let m = number(m, look)?;
    exact_match(m)?;
    let k = place(c)?;
    let col = column(&area, k)?;
    looked_up(&area, x, col)
}

pub(crate) fn countif<L: Look>(args: &[Arg], look: &L) -> Result<Value, CalcErr>
    ensures { result ≡ countif_of (L.environment look.now) args.now }
{
    let (a, x) = two(args)?;
    let area = Area::of(a, look)?;
    let x = criterion(x, look)?;
    Ok(Value::Num(count_area(&area, Counted::Same(x)) as i64))
}

/// Two areas of one shape.
fn same_shape(xs: &Area<'_>, ys: &Area<'_>) -> Result<(), CalcErr>
    ensures shape { result ≡ same_shape xs.now ys.now }
    ensures count { OnOk result (length (items xs.now) ≡ length (items ys.now)) }
{
    if xs.rows() == ys.rows() && xs.cols() == ys.cols() {
        return Ok(());
    }
    Err(CalcErr::BadKind)
}

/// A tally with the number of an item, if the item beside it is the same; an error is the result.
fn with_same(
    found: Tally,
    v: ValueRef<'_>,
    x: ValueRef<'_>,
    w: ValueRef<'_>,
) -> Result<Tally, CalcErr>
    requires { found.count < 2 ^ 63 }
    ensures numbers { result ≡ with_numbers found (sheet_numbers (chosen (owned x.entry) (owned v.entry ∷ []) (owned w.entry ∷ []))) }
    ensures few { IfOk result (λ t. t.count ≤ found.count + 1) }
{
    if v.is_same(x) {
        return with_value(found, w);
    }
    Ok(found)
}

/// The exact total of the numbers of the items whose items beside them are the same.
fn chosen_total(area: &Area<'_>, x: ValueRef<'_>, sums: &Area<'_>) -> Result<Value, CalcErr>
    requires { length (items area.now) ≡ length (items sums.now) }
    ensures { result ≡ chosen_total (owned x.entry) area.now sums.now }
{
    let mut found = Tally::new();
    for i in 0..area.count() {
        found = with_same(found, area.item(i), x, sums.item(i))?;
    }
    number_value(found.total())
}

pub(crate) fn sumif<L: Look>(args: &[Arg], look: &L) -> Result<Value, CalcErr>
    ensures { result ≡ sumif_of (L.environment look.now) args.now }
{
    let (a, x, s) = two_or_three(args)?;
    let area = Area::of(a, look)?;
    let x = criterion(x, look)?;
    let sums = Area::of(s.unwrap_or(a), look)?;
    same_shape(&area, &sums)?;
    chosen_total(&area, x, &sums)
}

/// Whether no item is an error; the first one is the result.
fn no_errors(area: &Area<'_>) -> Result<(), CalcErr>
    ensures { MatchResult result (λ _. no_errors area.now ≡ Ok (items area.now)) (λ e. no_errors area.now ≡ Err e) }
{
    for i in 0..area.count() {
        if let ValueRef::Err(e) = area.item(i) {
            return Err(e);
        }
    }
    Ok(())
}

/// An item that is a number, or else 0.
fn number_or_zero(v: ValueRef<'_>) -> i64
    ensures { result ≡ number_or_zero (owned v.entry) }
{
    match v {
        ValueRef::Num(n) => n,
        ValueRef::Empty | ValueRef::Text(_) | ValueRef::Err(_) => 0,
    }
}

/// The product of two items; one that has no 64 bits is `#NUM!`.
fn product(v: ValueRef<'_>, w: ValueRef<'_>) -> Result<i64, CalcErr>
    ensures { result ≡ in_range (number_or_zero (owned v.entry) *ℤ number_or_zero (owned w.entry)) }
{
    in_range(i128::from(number_or_zero(v)) * i128::from(number_or_zero(w)))
}

/// A tally with the product of two items; one that has no 64 bits is the result.
fn with_product(found: Tally, v: ValueRef<'_>, w: ValueRef<'_>) -> Result<Tally, CalcErr>
    requires { found.count < 2 ^ 63 }
    ensures numbers { result ≡ with_numbers found (all_of (products (owned v.entry ∷ []) (owned w.entry ∷ []))) }
    ensures few { IfOk result (λ t. t.count ≤ found.count + 1) }
{
    let n = product(v, w)?;
    Ok(found.with(n))
}

/// The exact total of the products place by place; the first that has no 64 bits is the result.
fn product_total(xs: &Area<'_>, ys: &Area<'_>) -> Result<Value, CalcErr>
    requires { length (items xs.now) ≡ length (items ys.now) }
    ensures { result ≡ product_total (items xs.now) (items ys.now) }
{
    let mut found = Tally::new();
    for i in 0..xs.count() {
        found = with_product(found, xs.item(i), ys.item(i))?;
    }
    number_value(found.total())
}

pub(crate) fn sumproduct<L: Look>(args: &[Arg], look: &L) -> Result<Value, CalcErr>
    ensures { result ≡ sumproduct_of (L.environment look.now) args.now }
{
    let (x, y) = two(args)?;
    let xs = Area::of(x, look)?;
    let ys = Area::of(y, look)?;
    same_shape(&xs, &ys)?;
    no_errors(&xs)?;
    no_errors(&ys)?;
    product_total(&xs, &ys)
}

pub(crate) fn rows<L: Look>(args: &[Arg], look: &L) -> Result<Value, CalcErr>
    ensures { result ≡ rows_of (L.environment look.now) args.now }
{
    let a = one(args)?;
    let area = Area::of(a, look)?;
    Ok(Value::Num(i64::from(area.rows())))
}

pub(crate) fn columns<L: Look>(args: &[Arg], look: &L) -> Result<Value, CalcErr>
    ensures { result ≡ columns_of (L.environment look.now) args.now }
{
    let a = one(args)?;
    let area = Area::of(a, look)?;
    Ok(Value::Num(i64::from(area.cols())))
}
