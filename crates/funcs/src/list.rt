ghost use Rattle.std.specs.Prelude.{◌≡◌, ◌≢◌, ◌^◌, ◌+◌, ◌<◌, ◌≤◌, [], ◌∷◌, Ok, length, count_by, IfOk};
ghost use Rattle.ss_base.specs.declared.types.CalcErr.{CalcErr};
ghost use Rattle.sheet_value.specs.declared.value.Value.TheVariants as value;
ghost use Rattle.funcs.specs.Areas.{items, item_value, items_of, item_numbers, sheet_numbers, numbers, direct};
ghost use Rattle.funcs.specs.Counts.{counts, counted_of};
ghost use Rattle.funcs.specs.Lists.{numbers_given, sum_of, min_of, max_of, and_of, or_of};
ghost use Rattle.funcs.specs.Tallies.{with_numbers, tally_of};
ghost use Rattle.funcs.specs.Refs.{owned};

use crate::area::Area;
use crate::arg::Arg;
use crate::arity::one_or_more;
use crate::number::{number_value, truth};
use crate::tally::Tally;
use crate::value_ref::ValueRef;
use sheet_value::{Look, Value, to_num};
use ss_base::CalcErr;

/// A tally with the number of a value from the sheet, if it is one; an error is the result.
pub(crate) fn with_value(found: Tally, v: ValueRef<'_>) -> Result<Tally, CalcErr>
    requires { found.count < 2 ^ 63 }
    ensures numbers { result ≡ with_numbers found (sheet_numbers (owned v.entry ∷ [])) }
    ensures few { IfOk result (λ t. t.count ≤ found.count + 1) }
{
    match v {
        ValueRef::Num(n) => Ok(found.with(n)),
        ValueRef::Err(e) => Err(e),
        ValueRef::Text(_) | ValueRef::Empty => Ok(found),
    }
}

/// Adds the number of a value that isn't an error, if it is one. It is added in place: a tally that
/// is handed on is copied, and a column is gone through faster than that.
fn add_number_of(found: &mut Tally, v: ValueRef<'_>)
    requires { found.old.count < 2 ^ 63 }
    ensures numbers { ((e : CalcErr) → owned v.entry ≢ value.Err e) → Ok found.new ≡ with_numbers found.old (sheet_numbers (owned v.entry ∷ [])) }
    ensures few { found.new.count ≤ found.old.count + 1 }
{
    if let ValueRef::Num(n) = v {
        found.add(n);
    }
}

/// With the numbers of a column.
fn with_column(found: Tally, values: &[Value]) -> Result<Tally, CalcErr>
    requires count { found.count ≤ 2 ^ 62 }
    requires few { length values.now ≤ 256000000 }
    ensures numbers { result ≡ with_numbers found (sheet_numbers values.now) }
    ensures few { IfOk result (λ t. t.count ≤ found.count + length values.now) }
{
    let mut found = found;
    for v in values {
        if let Value::Err(e) = v {
            return Err(*e);
        }
        add_number_of(&mut found, ValueRef::of(v));
    }
    Ok(found)
}

/// With the numbers of an area, item by item.
fn with_items(found: Tally, area: &Area<'_>) -> Result<Tally, CalcErr>
    requires { found.count ≤ 2 ^ 62 }
    ensures numbers { result ≡ with_numbers found (sheet_numbers (items area.now)) }
    ensures few { IfOk result (λ t. t.count ≤ found.count + 256000000) }
{
    let mut found = found;
    for i in 0..area.count() {
        let v = area.item(i);
        if let ValueRef::Err(e) = v {
            return Err(e);
        }
        add_number_of(&mut found, v);
    }
    Ok(found)
}

/// With the numbers of an area.
fn with_area(found: Tally, area: &Area<'_>) -> Result<Tally, CalcErr>
    requires { found.count ≤ 2 ^ 62 }
    ensures numbers { result ≡ with_numbers found (sheet_numbers (items area.now)) }
    ensures few { IfOk result (λ t. t.count ≤ found.count + 256000000) }
{
    match area.only_column() {
        Some(values) => with_column(found, values),
        None => with_items(found, area),
    }
}

/// With a value that is given directly, as a number.
fn with_given(found: Tally, v: &Value) -> Result<Tally, CalcErr>
    requires { found.count < 2 ^ 63 }
    ensures numbers { result ≡ with_numbers found (item_numbers (direct v.now ∷ [])) }
    ensures few { IfOk result (λ t. t.count ≤ found.count + 1) }
{
    let n = to_num(v)?;
    Ok(found.with(n))
}

/// With the numbers of an argument.
fn with_arg<L: Look>(found: Tally, arg: &Arg, look: &L) -> Result<Tally, CalcErr>
    requires { found.count ≤ 2 ^ 62 }
    ensures numbers { result ≡ with_numbers found (item_numbers (items_of (L.environment look.now) arg.now)) }
    ensures few { IfOk result (λ t. t.count ≤ found.count + 256000000) }
{
    match arg {
        Arg::One(v) => with_given(found, v),
        _ => match Area::of(arg, look) {
            Ok(area) => with_area(found, &area),
            Err(e) => Err(e),
        },
    }
}

/// The tally of the numbers of some arguments.
fn tally<L: Look>(args: &[Arg], look: &L) -> Result<Tally, CalcErr>
    requires { length args.now < 2 ^ 24 }
    ensures { result ≡ tally_of (numbers (L.environment look.now) args.now) }
{
    let mut found = Tally::new();
    for arg in args {
        found = with_arg(found, arg, look)?;
    }
    Ok(found)
}

/// The same of one or more arguments.
fn tally_given<L: Look>(args: &[Arg], look: &L) -> Result<Tally, CalcErr>
    requires { length args.now < 2 ^ 24 }
    ensures { result ≡ tally_of (numbers_given (L.environment look.now) args.now) }
{
    one_or_more(args)?;
    tally(args, look)
}

pub(crate) fn sum<L: Look>(args: &[Arg], look: &L) -> Result<Value, CalcErr>
    requires { length args.now < 2 ^ 24 }
    ensures { result ≡ sum_of (L.environment look.now) args.now }
{
    let found = tally_given(args, look)?;
    number_value(found.total())
}

pub(crate) fn min<L: Look>(args: &[Arg], look: &L) -> Result<Value, CalcErr>
    requires { length args.now < 2 ^ 24 }
    ensures { result ≡ min_of (L.environment look.now) args.now }
{
    let found = tally_given(args, look)?;
    Ok(Value::Num(found.least().unwrap_or(0)))
}

pub(crate) fn max<L: Look>(args: &[Arg], look: &L) -> Result<Value, CalcErr>
    requires { length args.now < 2 ^ 24 }
    ensures { result ≡ max_of (L.environment look.now) args.now }
{
    let found = tally_given(args, look)?;
    Ok(Value::Num(found.greatest().unwrap_or(0)))
}

pub(crate) fn and<L: Look>(args: &[Arg], look: &L) -> Result<Value, CalcErr>
    requires { length args.now < 2 ^ 24 }
    ensures { result ≡ and_of (L.environment look.now) args.now }
{
    let found = tally_given(args, look)?;
    match found.least() {
        Some(_) => Ok(truth(found.all_true())),
        None => Err(CalcErr::BadKind),
    }
}

pub(crate) fn or<L: Look>(args: &[Arg], look: &L) -> Result<Value, CalcErr>
    requires { length args.now < 2 ^ 24 }
    ensures { result ≡ or_of (L.environment look.now) args.now }
{
    let found = tally_given(args, look)?;
    match found.least() {
        Some(_) => Ok(truth(found.any_true())),
        None => Err(CalcErr::BadKind),
    }
}

/// Which items are counted.
#[derive(Clone, Copy, Debug)]
pub(crate) enum Counted<'a> {
    Numbers,
    Filled,
    Same(ValueRef<'a>),
}

impl Counted<'_> {
    fn counts(self, v: ValueRef<'_>) -> bool
        ensures { result ≡ counts self.entry (owned v.entry) }
    {
        match self {
            Counted::Numbers => matches!(v, ValueRef::Num(_)),
            Counted::Filled => !matches!(v, ValueRef::Empty),
            Counted::Same(x) => v.is_same(x),
        }
    }
}

/// How many values of a column are counted.
fn count_column(values: &[Value], counted: Counted<'_>) -> u64
    requires { length values.now ≤ 256000000 }
    ensures count { result ≡ count_by (λ v. counts counted.entry v) values.now }
    ensures few { result ≤ 256000000 }
{
    let mut count = 0;
    for v in values {
        count += u64::from(counted.counts(ValueRef::of(v)));
    }
    count
}

/// How many items of an area are counted, item by item.
fn count_items(area: &Area<'_>, counted: Counted<'_>) -> u64
    ensures count { result ≡ count_by (λ v. counts counted.entry v) (items area.now) }
    ensures few { result ≤ 256000000 }
{
    let mut count = 0;
    for i in 0..area.count() {
        count += u64::from(counted.counts(area.item(i)));
    }
    count
}

/// How many items of an area are counted.
pub(crate) fn count_area(area: &Area<'_>, counted: Counted<'_>) -> u64
    ensures count { result ≡ count_by (λ v. counts counted.entry v) (items area.now) }
    ensures few { result ≤ 256000000 }
{
    match area.only_column() {
        Some(values) => count_column(values, counted),
        None => count_items(area, counted),
    }
}

/// How many items of an argument are counted.
fn count_arg<L: Look>(arg: &Arg, look: &L, counted: Counted<'_>) -> u64
    ensures count { result ≡ count_by (λ i. counts counted.entry (item_value i)) (items_of (L.environment look.now) arg.now) }
    ensures few { result ≤ 256000000 }
{
    match arg {
        Arg::One(v) => u64::from(counted.counts(ValueRef::of(v))),
        _ => match Area::of(arg, look) {
            Ok(area) => count_area(&area, counted),
            Err(e) => u64::from(counted.counts(ValueRef::Err(e))),
        },
    }
}

/// How many items of some arguments are counted.
pub(crate) fn count<L: Look>(args: &[Arg], look: &L, counted: Counted<'_>) -> Result<Value, CalcErr>
    requires { length args.now < 2 ^ 24 }
    ensures { result ≡ counted_of counted.entry (L.environment look.now) args.now }
{
    one_or_more(args)?;
    let mut count = 0;
    for arg in args {
        count += count_arg(arg, look, counted);
    }
    Ok(Value::Num(count as i64))
}
