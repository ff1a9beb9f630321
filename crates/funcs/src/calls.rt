ghost use Rattle.std.specs.Prelude.{◌≡◌, ◌^◌, ◌<◌, true, false, Ok, length, IfOk};
ghost use Rattle.sheet_value.specs.Environment.{HasShortTexts};
ghost use Rattle.sheet_value.specs.Values.{IsWithinLimit};
ghost use Rattle.funcs.specs.Args.{AreWithinLimit};
ghost use Rattle.funcs.specs.Steps.{answer};
ghost use Rattle.funcs.specs.Scalars.{abs_of, sign_of, mod_of, quotient_of, if_of, not_of, iferror_of, test_of, is_error, is_na, is_blank, is_number, is_text, na_of, truth_of, choose_of};
ghost use Rattle.funcs.specs.Texts.{len_of, left_of, right_of, mid_of, concatenate_of, exact_of};
ghost use Rattle.funcs.specs.Lists.{sum_of, count_of, counta_of, min_of, max_of, and_of, or_of};
ghost use Rattle.funcs.specs.Tables.{index_of, match_of, vlookup_of, countif_of, sumif_of, sumproduct_of, rows_of, columns_of};
ghost use Rattle.funcs.specs.Calls.{call_of};

use crate::arg::Arg;
use crate::list::{self, Counted};
use crate::stop::{answer, copied, settled};
use crate::{scalar, table, text};
use formula_tree::Fun;
use sheet_value::{Look, Value};
use ss_base::{CalcErr, Memory};
use std::alloc::Global;

/// SUM: the exact total of the numbers of the arguments; `#NUM!` outside 64 bits.
pub fn sum_fn<L: Look>(_alloc: Global, args: &[Arg], look: &L) -> Result<Value, Memory>
    requires { length args.now < 2 ^ 24 }
    ensures { result ≡ Ok (answer (sum_of (L.environment look.now) args.now)) }
{
    Ok(answer(list::sum(args, look)))
}

/// COUNT: how many items are numbers; errors are passed over.
pub fn count_fn<L: Look>(_alloc: Global, args: &[Arg], look: &L) -> Result<Value, Memory>
    requires { length args.now < 2 ^ 24 }
    ensures { result ≡ Ok (answer (count_of (L.environment look.now) args.now)) }
{
    Ok(answer(list::count(args, look, Counted::Numbers)))
}

/// COUNTA: how many items aren't empty; errors count.
pub fn counta_fn<L: Look>(_alloc: Global, args: &[Arg], look: &L) -> Result<Value, Memory>
    requires { length args.now < 2 ^ 24 }
    ensures { result ≡ Ok (answer (counta_of (L.environment look.now) args.now)) }
{
    Ok(answer(list::count(args, look, Counted::Filled)))
}

/// MIN: the least number, 0 where there is none.
pub fn min_fn<L: Look>(_alloc: Global, args: &[Arg], look: &L) -> Result<Value, Memory>
    requires { length args.now < 2 ^ 24 }
    ensures { result ≡ Ok (answer (min_of (L.environment look.now) args.now)) }
{
    Ok(answer(list::min(args, look)))
}

/// MAX: the greatest number, 0 where there is none.
pub fn max_fn<L: Look>(_alloc: Global, args: &[Arg], look: &L) -> Result<Value, Memory>
    requires { length args.now < 2 ^ 24 }
    ensures { result ≡ Ok (answer (max_of (L.environment look.now) args.now)) }
{
    Ok(answer(list::max(args, look)))
}

/// AND: 1 where no number is 0, else 0; `#VALUE!` where there is none.
pub fn and_fn<L: Look>(_alloc: Global, args: &[Arg], look: &L) -> Result<Value, Memory>
    requires { length args.now < 2 ^ 24 }
    ensures { result ≡ Ok (answer (and_of (L.environment look.now) args.now)) }
{
    Ok(answer(list::and(args, look)))
}

/// OR: 1 where some number isn't 0, else 0; `#VALUE!` where there is none.
pub fn or_fn<L: Look>(_alloc: Global, args: &[Arg], look: &L) -> Result<Value, Memory>
    requires { length args.now < 2 ^ 24 }
    ensures { result ≡ Ok (answer (or_of (L.environment look.now) args.now)) }
{
    Ok(answer(list::or(args, look)))
}

/// ABS: the absolute value; `#NUM!` outside 64 bits.
pub fn abs_fn<L: Look>(_alloc: Global, args: &[Arg], look: &L) -> Result<Value, Memory>
    ensures { result ≡ Ok (answer (abs_of (L.environment look.now) args.now)) }
{
    Ok(answer(scalar::abs(args, look)))
}

/// SIGN: -1, 0 or 1.
pub fn sign_fn<L: Look>(_alloc: Global, args: &[Arg], look: &L) -> Result<Value, Memory>
    ensures { result ≡ Ok (answer (sign_of (L.environment look.now) args.now)) }
{
    Ok(answer(scalar::sign(args, look)))
}

/// MOD: what is left of a number by the floor of its quotient; `#DIV/0!` by 0.
pub fn mod_fn<L: Look>(_alloc: Global, args: &[Arg], look: &L) -> Result<Value, Memory>
    ensures { result ≡ Ok (answer (mod_of (L.environment look.now) args.now)) }
{
    Ok(answer(scalar::modulo(args, look)))
}

/// QUOTIENT: truncated towards 0; `#DIV/0!` by 0, `#NUM!` outside 64 bits.
pub fn quotient_fn<L: Look>(_alloc: Global, args: &[Arg], look: &L) -> Result<Value, Memory>
    ensures { result ≡ Ok (answer (quotient_of (L.environment look.now) args.now)) }
{
    Ok(answer(scalar::quotient(args, look)))
}

/// IF: the second argument where the first isn't 0, else the third, or 0. The other isn't examined.
pub fn if_fn<L: Look>(_alloc: Global, args: &[Arg], look: &L) -> Result<Value, Memory>
    ensures { IfOk result (λ v. v ≡ answer (if_of (L.environment look.now) args.now)) }
{
    copied(scalar::if_value(args, look))
}

/// NOT: 1 for 0, else 0.
pub fn not_fn<L: Look>(_alloc: Global, args: &[Arg], look: &L) -> Result<Value, Memory>
    ensures { result ≡ Ok (answer (not_of (L.environment look.now) args.now)) }
{
    Ok(answer(scalar::not(args, look)))
}

/// IFERROR: the second argument where the first is an error, else the first, and then the second
/// isn't examined.
pub fn iferror_fn<L: Look>(_alloc: Global, args: &[Arg], look: &L) -> Result<Value, Memory>
    ensures { IfOk result (λ v. v ≡ answer (iferror_of (L.environment look.now) args.now)) }
{
    copied(scalar::iferror_value(args, look))
}

/// ISERROR: 1 for an error, else 0.
pub fn iserror_fn<L: Look>(_alloc: Global, args: &[Arg], look: &L) -> Result<Value, Memory>
    ensures { result ≡ Ok (answer (test_of is_error (L.environment look.now) args.now)) }
{
    Ok(answer(scalar::iserror(args, look)))
}

/// ISNA: 1 for `#N/A`, else 0.
pub fn isna_fn<L: Look>(_alloc: Global, args: &[Arg], look: &L) -> Result<Value, Memory>
    ensures { result ≡ Ok (answer (test_of is_na (L.environment look.now) args.now)) }
{
    Ok(answer(scalar::isna(args, look)))
}

/// ISBLANK: 1 for an empty value, else 0.
pub fn isblank_fn<L: Look>(_alloc: Global, args: &[Arg], look: &L) -> Result<Value, Memory>
    ensures { result ≡ Ok (answer (test_of is_blank (L.environment look.now) args.now)) }
{
    Ok(answer(scalar::isblank(args, look)))
}

/// ISNUMBER: 1 for a number, else 0.
pub fn isnumber_fn<L: Look>(_alloc: Global, args: &[Arg], look: &L) -> Result<Value, Memory>
    ensures { result ≡ Ok (answer (test_of is_number (L.environment look.now) args.now)) }
{
    Ok(answer(scalar::isnumber(args, look)))
}

/// ISTEXT: 1 for a text, else 0.
pub fn istext_fn<L: Look>(_alloc: Global, args: &[Arg], look: &L) -> Result<Value, Memory>
    ensures { result ≡ Ok (answer (test_of is_text (L.environment look.now) args.now)) }
{
    Ok(answer(scalar::istext(args, look)))
}

/// NA: `#N/A`.
pub fn na_fn<L: Look>(_alloc: Global, args: &[Arg], _look: &L) -> Result<Value, Memory>
    ensures { result ≡ Ok (answer (na_of args.now)) }
{
    Ok(answer(scalar::na(args)))
}

/// TRUE: 1.
pub fn true_fn<L: Look>(_alloc: Global, args: &[Arg], _look: &L) -> Result<Value, Memory>
    ensures { result ≡ Ok (answer (truth_of true args.now)) }
{
    Ok(answer(scalar::constant(true, args)))
}

/// FALSE: 0.
pub fn false_fn<L: Look>(_alloc: Global, args: &[Arg], _look: &L) -> Result<Value, Memory>
    ensures { result ≡ Ok (answer (truth_of false args.now)) }
{
    Ok(answer(scalar::constant(false, args)))
}

/// LEN: how many bytes a text has.
pub fn len_fn<L: Look>(alloc: Global, args: &[Arg], look: &L) -> Result<Value, Memory>
    ensures { IfOk result (λ v. v ≡ answer (len_of (L.environment look.now) args.now)) }
{
    settled(text::len(alloc, args, look))
}

/// LEFT: the first bytes of a text, 1 when their number is left out, all where it is greater;
/// `#VALUE!` where it is negative.
pub fn left_fn<L: Look>(alloc: Global, args: &[Arg], look: &L) -> Result<Value, Memory>
    ensures { IfOk result (λ v. v ≡ answer (left_of (L.environment look.now) args.now)) }
{
    settled(text::left(alloc, args, look))
}

/// RIGHT: the last bytes of a text, as LEFT has the first.
pub fn right_fn<L: Look>(alloc: Global, args: &[Arg], look: &L) -> Result<Value, Memory>
    ensures { IfOk result (λ v. v ≡ answer (right_of (L.environment look.now) args.now)) }
{
    settled(text::right(alloc, args, look))
}

/// MID: the bytes of a text from a place on, counted from 1, up to a number; `#VALUE!` where the
/// place is below 1 or the number negative.
pub fn mid_fn<L: Look>(alloc: Global, args: &[Arg], look: &L) -> Result<Value, Memory>
    ensures { IfOk result (λ v. v ≡ answer (mid_of (L.environment look.now) args.now)) }
{
    settled(text::mid(alloc, args, look))
}

/// CONCATENATE: all texts joined.
pub fn concatenate_fn<L: Look>(alloc: Global, args: &[Arg], look: &L) -> Result<Value, Memory>
    ensures { IfOk result (λ v. v ≡ answer (concatenate_of (L.environment look.now) args.now)) }
{
    settled(text::concatenate(alloc, args, look))
}

/// EXACT: 1 where two texts are equal, else 0.
pub fn exact_fn<L: Look>(alloc: Global, args: &[Arg], look: &L) -> Result<Value, Memory>
    ensures { IfOk result (λ v. v ≡ answer (exact_of (L.environment look.now) args.now)) }
{
    settled(text::exact(alloc, args, look))
}

/// CHOOSE: the argument at a place, counted from 1 behind the first. The others aren't examined;
/// `#VALUE!` where there is no such one.
pub fn choose_fn<L: Look>(_alloc: Global, args: &[Arg], look: &L) -> Result<Value, Memory>
    ensures { IfOk result (λ v. v ≡ answer (choose_of (L.environment look.now) args.now)) }
{
    copied(scalar::choose_value(args, look))
}

/// INDEX: the item in a row and a column, counted from 1; `#VALUE!` below 1, `#REF!` outside the
/// shape.
pub fn index_fn<L: Look>(_alloc: Global, args: &[Arg], look: &L) -> Result<Value, Memory>
    ensures { IfOk result (λ v. v ≡ answer (index_of (L.environment look.now) args.now)) }
{
    copied(table::index_value(args, look))
}

/// MATCH: the place, counted from 1, of the first item of a row or a column that is the same; `#N/A`
/// where there is none.
pub fn match_fn<L: Look>(_alloc: Global, args: &[Arg], look: &L) -> Result<Value, Memory>
    ensures { result ≡ Ok (answer (match_of (L.environment look.now) args.now)) }
{
    Ok(answer(table::match_place(args, look)))
}

/// VLOOKUP: the item in a column, counted from 1, of the first row that begins with the same item;
/// `#N/A` where there is none, `#REF!` outside the shape.
pub fn vlookup_fn<L: Look>(_alloc: Global, args: &[Arg], look: &L) -> Result<Value, Memory>
    ensures { IfOk result (λ v. v ≡ answer (vlookup_of (L.environment look.now) args.now)) }
{
    copied(table::vlookup_value(args, look))
}

/// COUNTIF: how many items are the same.
pub fn countif_fn<L: Look>(_alloc: Global, args: &[Arg], look: &L) -> Result<Value, Memory>
    ensures { result ≡ Ok (answer (countif_of (L.environment look.now) args.now)) }
{
    Ok(answer(table::countif(args, look)))
}

/// SUMIF: the exact total of the numbers at the places whose item is the same; `#NUM!` outside 64
/// bits.
pub fn sumif_fn<L: Look>(_alloc: Global, args: &[Arg], look: &L) -> Result<Value, Memory>
    ensures { result ≡ Ok (answer (sumif_of (L.environment look.now) args.now)) }
{
    Ok(answer(table::sumif(args, look)))
}

/// SUMPRODUCT: the exact total of the products place by place; `#NUM!` outside 64 bits.
pub fn sumproduct_fn<L: Look>(_alloc: Global, args: &[Arg], look: &L) -> Result<Value, Memory>
    ensures { result ≡ Ok (answer (sumproduct_of (L.environment look.now) args.now)) }
{
    Ok(answer(table::sumproduct(args, look)))
}

/// ROWS: how many rows the shape has.
pub fn rows_fn<L: Look>(_alloc: Global, args: &[Arg], look: &L) -> Result<Value, Memory>
    ensures { result ≡ Ok (answer (rows_of (L.environment look.now) args.now)) }
{
    Ok(answer(table::rows(args, look)))
}

/// COLUMNS: how many columns the shape has.
pub fn columns_fn<L: Look>(_alloc: Global, args: &[Arg], look: &L) -> Result<Value, Memory>
    ensures { result ≡ Ok (answer (columns_of (L.environment look.now) args.now)) }
{
    Ok(answer(table::columns(args, look)))
}

/// What a function answers for its arguments; a name that no function has is `#NAME?`.
pub fn call<L: Look>(alloc: Global, fun: &Fun, args: &[Arg], look: &L) -> Result<Value, Memory>
    requires { length args.now < 2 ^ 24 }
    ensures value { IfOk result (λ v. v ≡ answer (call_of fun.now (L.environment look.now) args.now)) }
    ensures limit { HasShortTexts (L.environment look.now) → AreWithinLimit args.now → IfOk result (λ v. IsWithinLimit v) }
{
    match fun {
        Fun::Sum => sum_fn(alloc, args, look),
        Fun::Count => count_fn(alloc, args, look),
        Fun::Counta => counta_fn(alloc, args, look),
        Fun::Min => min_fn(alloc, args, look),
        Fun::Max => max_fn(alloc, args, look),
        Fun::And => and_fn(alloc, args, look),
        Fun::Or => or_fn(alloc, args, look),
        Fun::Abs => abs_fn(alloc, args, look),
        Fun::Sign => sign_fn(alloc, args, look),
        Fun::Mod => mod_fn(alloc, args, look),
        Fun::Quotient => quotient_fn(alloc, args, look),
        Fun::If => if_fn(alloc, args, look),
        Fun::Not => not_fn(alloc, args, look),
        Fun::Iferror => iferror_fn(alloc, args, look),
        Fun::Iserror => iserror_fn(alloc, args, look),
        Fun::Isna => isna_fn(alloc, args, look),
        Fun::Isblank => isblank_fn(alloc, args, look),
        Fun::Isnumber => isnumber_fn(alloc, args, look),
        Fun::Istext => istext_fn(alloc, args, look),
        Fun::Na => na_fn(alloc, args, look),
        Fun::True => true_fn(alloc, args, look),
        Fun::False => false_fn(alloc, args, look),
        Fun::Len => len_fn(alloc, args, look),
        Fun::Left => left_fn(alloc, args, look),
        Fun::Right => right_fn(alloc, args, look),
        Fun::Mid => mid_fn(alloc, args, look),
        Fun::Concatenate => concatenate_fn(alloc, args, look),
        Fun::Exact => exact_fn(alloc, args, look),
        Fun::Choose => choose_fn(alloc, args, look),
        Fun::Index => index_fn(alloc, args, look),
        Fun::Match => match_fn(alloc, args, look),
        Fun::Vlookup => vlookup_fn(alloc, args, look),
        Fun::Countif => countif_fn(alloc, args, look),
        Fun::Sumif => sumif_fn(alloc, args, look),
        Fun::Sumproduct => sumproduct_fn(alloc, args, look),
        Fun::Rows => rows_fn(alloc, args, look),
        Fun::Columns => columns_fn(alloc, args, look),
        Fun::Unknown(_) => Ok(Value::Err(CalcErr::NoName)),
    }
}
