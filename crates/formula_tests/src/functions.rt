ghost use Rattle.std.specs.Prelude.{◌^◌, ◌<◌, length};

use Wanted::{Bytes, Fault, Number};
use formula_tree::Fun;
use funcs::{Arg, call};
use sheet_value::{Grid, Value};
use ss_base::{CalcErr, Memory, Size, Span, Spot, Txt};
use std::alloc::Global;
use std::process::Abort;
use std::test::Fail;

/// What a call is to answer.
#[derive(Clone, Copy, Debug)]
enum Wanted<'a> {
    Number(i64),
    Bytes(&'a [u8]),
    Fault(CalcErr),
}

fn number(n: i64) -> Arg {
    Arg::One(Value::Num(n))
}

fn fault(e: CalcErr) -> Arg {
    Arg::One(Value::Err(e))
}

fn text(alloc: Global, bytes: &[u8]) -> Result<Arg, Memory> {
    let text = Txt::new(alloc, bytes)?;
    Ok(Arg::One(Value::Text(text)))
}

fn cell(row: u32, col: u32) -> Arg {
    Arg::At(Spot {
        row,
        col,
        abs_row: false,
        abs_col: false,
    })
}

fn range(top: u32, left: u32, bottom: u32, right: u32) -> Arg {
    Arg::Over(Span {
        top,
        left,
        bottom,
        right,
        abs_top: false,
        abs_left: false,
        abs_bottom: false,
        abs_right: false,
    })
}

/// A1 is the text b, A2 is -3, A3 is #N/A, A4 is empty, A5 is the least number, B2 is 1.
fn sheet(alloc: Global) -> Result<Grid, Memory> {
    let mut grid = Grid::new(alloc, Size { rows: 5, cols: 2 })?;
    let b = Txt::new(alloc, b"b")?;
    put(&mut grid, 0, 0, Value::Text(b))?;
    put(&mut grid, 1, 0, Value::Num(-3))?;
    put(&mut grid, 2, 0, Value::Err(CalcErr::Na))?;
    put(&mut grid, 4, 0, Value::Num(i64::MIN))?;
    put(&mut grid, 1, 1, Value::Num(1))?;
    Ok(grid)
}

/// Puts a value into a cell, if the grid has it.
fn put(grid: &mut Grid, row: u32, col: u32, value: Value) -> Result<(), Memory> {
    let size = grid.size();
    if row < size.rows && col < size.cols {
        grid.put(row, col, value)?;
    }
    Ok(())
}

fn answers(
    rt: &impl Abort,
    alloc: Global,
    fun: Fun,
    args: &[Arg],
    wanted: Wanted<'_>,
) -> Result<(), Memory>
    requires { length args.now < 2 ^ 24 }
{
    let value = call(alloc, &fun, args, &sheet(alloc)?)?;
    match (&value, wanted) {
        (Value::Num(n), Number(m)) => assert_eq!(rt; *n, m, "{fun:?}"),
        (Value::Text(t), Bytes(bytes)) => assert_eq!(rt; t.bytes(), bytes, "{fun:?}"),
        (Value::Err(d), Fault(e)) => assert_eq!(rt; *d, e, "{fun:?}"),
        (value, wanted) => assert!(rt; false, "{fun:?} is {value:?} and not {wanted:?}"),
    }
    Ok(())
}

#[test]
fn lists_of_items(rt: HostRuntime) -> Result<(), Fail> {
    let al = rt.alloc();
    answers(&rt, al, Fun::Counta, &[range(0, 0, 3, 0)], Number(3))?;
    answers(&rt, al, Fun::Count, &[range(0, 0, 2, 0)], Number(1))?;
    let args = [range(0, 0, 1, 0), number(5)];
    answers(&rt, al, Fun::Min, &args, Number(-3))?;
    answers(&rt, al, Fun::Min, &[range(1, 1, 4, 1)], Number(1))?;
    answers(&rt, al, Fun::Max, &[range(0, 0, 1, 0)], Number(-3))?;
    answers(&rt, al, Fun::Max, &[cell(3, 0)], Number(0))?;
    answers(&rt, al, Fun::And, &[cell(1, 0), number(0)], Number(0))?;
    answers(&rt, al, Fun::Or, &[cell(1, 0), number(0)], Number(1))?;
    answers(&rt, al, Fun::Or, &[cell(0, 0)], Fault(CalcErr::BadKind))?;
    answers(&rt, al, Fun::Sum, &[range(0, 0, 2, 0)], Fault(CalcErr::Na))?;
    let args = [cell(4, 0), number(-1), number(1)];
    answers(&rt, al, Fun::Sum, &args, Number(i64::MIN))?;
    let args = [cell(4, 0), number(-1)];
    answers(&rt, al, Fun::Sum, &args, Fault(CalcErr::BadNum))?;
    answers(&rt, al, Fun::Sum, &[], Fault(CalcErr::BadKind))?;
    Ok(())
}

#[test]
fn numbers_at_their_edges(rt: HostRuntime) -> Result<(), Fail> {
    let al = rt.alloc();
    answers(&rt, al, Fun::Abs, &[cell(4, 0)], Fault(CalcErr::BadNum))?;
    answers(&rt, al, Fun::Sign, &[cell(4, 0)], Number(-1))?;
    answers(&rt, al, Fun::Mod, &[number(-7), number(2)], Number(1))?;
    answers(&rt, al, Fun::Mod, &[number(7), number(-2)], Number(-1))?;
    answers(&rt, al, Fun::Mod, &[cell(4, 0), number(-1)], Number(0))?;
    let args = [number(1), cell(3, 0)];
    answers(&rt, al, Fun::Mod, &args, Fault(CalcErr::Div0))?;
    answers(&rt, al, Fun::Quotient, &[number(-7), number(2)], Number(-3))?;
    let args = [cell(4, 0), number(-1)];
    answers(&rt, al, Fun::Quotient, &args, Fault(CalcErr::BadNum))?;
    answers(&rt, al, Fun::Not, &[cell(3, 0)], Number(1))?;
    answers(&rt, al, Fun::True, &[], Number(1))?;
    answers(&rt, al, Fun::False, &[], Number(0))?;
    Ok(())
}

#[test]
fn errors_and_kinds(rt: HostRuntime) -> Result<(), Fail> {
    let al = rt.alloc();
    let bad = fault(CalcErr::BadNum);
    let na = fault(CalcErr::Na);
    answers(&rt, al, Fun::Quotient, &[bad, na], Fault(CalcErr::BadNum))?;
    let args = [cell(2, 0), cell(0, 0)];
    answers(&rt, al, Fun::Iferror, &args, Bytes(b"b"))?;
    let args = [number(1), number(2), cell(2, 0)];
    answers(&rt, al, Fun::If, &args, Number(2))?;
    answers(&rt, al, Fun::If, &[number(0), cell(2, 0)], Number(0))?;
    let args = [number(2), cell(2, 0), number(7)];
    answers(&rt, al, Fun::Choose, &args, Number(7))?;
    answers(&rt, al, Fun::Iserror, &[range(0, 0, 1, 0)], Number(1))?;
    answers(&rt, al, Fun::Isna, &[cell(2, 0)], Number(1))?;
    answers(&rt, al, Fun::Isblank, &[cell(3, 0)], Number(1))?;
    answers(&rt, al, Fun::Isnumber, &[cell(1, 0)], Number(1))?;
    answers(&rt, al, Fun::Istext, &[cell(0, 0)], Number(1))?;
    answers(&rt, al, Fun::Na, &[], Fault(CalcErr::Na))?;
    let unknown = Fun::Unknown(Txt::new(al, b"XYZ")?);
    answers(&rt, al, unknown, &[number(1)], Fault(CalcErr::NoName))?;
    Ok(())
}

#[test]
fn lost_references(rt: HostRuntime) -> Result<(), Fail> {
    let al = rt.alloc();
    answers(&rt, al, Fun::Abs, &[cell(5, 0)], Fault(CalcErr::Lost))?;
    let args = [range(0, 2, 1, 2)];
    answers(&rt, al, Fun::Len, &args, Fault(CalcErr::Lost))?;
    let args = [range(0, 0, 1, 0)];
    answers(&rt, al, Fun::Len, &args, Fault(CalcErr::BadKind))?;
    let args = [range(5, 0, 6, 0)];
    answers(&rt, al, Fun::Sum, &args, Fault(CalcErr::Lost))?;
    answers(&rt, al, Fun::Counta, &[cell(5, 0)], Number(1))?;
    answers(&rt, al, Fun::Rows, &[cell(5, 0)], Fault(CalcErr::Lost))?;
    let args = [fault(CalcErr::Lost)];
    answers(&rt, al, Fun::Rows, &args, Fault(CalcErr::BadKind))?;
    answers(&rt, al, Fun::Rows, &[range(3, 0, 9, 1)], Number(2))?;
    answers(&rt, al, Fun::Columns, &[range(0, 0, 3, 0)], Number(1))?;
    Ok(())
}

#[test]
fn texts_and_their_ends(rt: HostRuntime) -> Result<(), Fail> {
    let al = rt.alloc();
    answers(&rt, al, Fun::Len, &[text(al, b"a\"b")?], Number(3))?;
    answers(&rt, al, Fun::Left, &[text(al, b"xyz")?], Bytes(b"x"))?;
    let args = [text(al, b"xyz")?, number(9)];
    answers(&rt, al, Fun::Left, &args, Bytes(b"xyz"))?;
    let args = [cell(0, 0), number(-1)];
    answers(&rt, al, Fun::Left, &args, Fault(CalcErr::BadKind))?;
    let args = [text(al, b"xyz")?, number(2)];
    answers(&rt, al, Fun::Right, &args, Bytes(b"yz"))?;
    let args = [text(al, b"xyz")?, number(2), number(9)];
    answers(&rt, al, Fun::Mid, &args, Bytes(b"yz"))?;
    let args = [text(al, b"xyz")?, number(4), number(1)];
    answers(&rt, al, Fun::Mid, &args, Bytes(b""))?;
    let args = [text(al, b"p")?, number(-1)];
    answers(&rt, al, Fun::Concatenate, &args, Bytes(b"p-1"))?;
    let longest = text(al, &[b'x'; 127])?;
    let args = [longest, cell(0, 0)];
    answers(&rt, al, Fun::Concatenate, &args, Fault(CalcErr::BadKind))?;
    let args = [text(al, b"b")?, cell(0, 0)];
    answers(&rt, al, Fun::Exact, &args, Number(1))?;
    let args = [text(al, b"B")?, cell(0, 0)];
    answers(&rt, al, Fun::Exact, &args, Number(0))?;
    Ok(())
}

#[test]
fn items_that_are_the_same(rt: HostRuntime) -> Result<(), Fail> {
    let al = rt.alloc();
    let column = || range(0, 0, 2, 0);
    let args = [number(-3), column(), number(0)];
    answers(&rt, al, Fun::Match, &args, Number(2))?;
    let args = [text(al, b"1")?, cell(1, 1), number(0)];
    answers(&rt, al, Fun::Match, &args, Fault(CalcErr::Na))?;
    let args = [number(1), range(0, 0, 1, 1), number(0)];
    answers(&rt, al, Fun::Match, &args, Fault(CalcErr::BadKind))?;
    let args = [range(0, 0, 3, 0), number(2)];
    answers(&rt, al, Fun::Index, &args, Number(-3))?;
    let args = [column(), number(1), number(2)];
    answers(&rt, al, Fun::Index, &args, Fault(CalcErr::Lost))?;
    let args = [number(-3), range(0, 0, 4, 1), number(2), number(0)];
    answers(&rt, al, Fun::Vlookup, &args, Number(1))?;
    let args = [range(0, 0, 3, 0), text(al, b"b")?];
    answers(&rt, al, Fun::Countif, &args, Number(1))?;
    let args = [range(0, 0, 1, 0), cell(0, 0), range(1, 0, 2, 0)];
    answers(&rt, al, Fun::Sumif, &args, Number(-3))?;
    let args = [column(), cell(1, 0), cell(0, 0)];
    answers(&rt, al, Fun::Sumif, &args, Fault(CalcErr::BadKind))?;
    let args = [range(0, 0, 1, 0), range(0, 0, 1, 0)];
    answers(&rt, al, Fun::Sumproduct, &args, Number(9))?;
    let args = [cell(4, 0), cell(1, 0)];
    answers(&rt, al, Fun::Sumproduct, &args, Fault(CalcErr::BadNum))?;
    Ok(())
}

#[test]
fn tests_in_the_order_of_their_definitions(rt: HostRuntime) -> Result<(), Fail> {
    let al = rt.alloc();
    let column = || range(0, 0, 2, 0);
    let args = [text(al, b"nosuch")?, column(), number(5), number(0)];
    answers(&rt, al, Fun::Vlookup, &args, Fault(CalcErr::Lost))?;
    let args = [text(al, b"nosuch")?, range(0, 0, 1, 1), number(0)];
    answers(&rt, al, Fun::Match, &args, Fault(CalcErr::BadKind))?;
    let args = [column(), range(0, 0, 1, 0)];
    answers(&rt, al, Fun::Sumproduct, &args, Fault(CalcErr::BadKind))?;
    let args = [number(1), range(0, 0, 1, 0)];
    answers(&rt, al, Fun::Iferror, &args, Number(1))?;
    Ok(())
}
