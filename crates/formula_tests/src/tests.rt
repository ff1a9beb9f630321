ghost use Rattle.std.specs.Prelude.{◌≡◌, ◌<◌};

use cell_eval::{Steps, eval};
use formula_code::compile;
use formula_read::{ParseErr, parse};
use formula_tree::{Formula, error_name};
use sheet_value::{Grid, Value, to_text};
use ss_base::{CalcErr, Memory, Size, Txt};
use std::alloc::Global;
use std::marker::Brand;
use std::process::Abort;
use std::sync::ledger::{Blank, Ledger};
use std::test::Fail;

/// A1 is the text b, A2 is -3, A3 is #N/A, A4 is empty, A5 is the least number.
fn sheet(alloc: Global) -> Result<Grid, Memory> {
    let mut grid = Grid::new(alloc, Size { rows: 5, cols: 2 })?;
    let b = Txt::new(alloc, b"b")?;
    put(&mut grid, 0, Value::Text(b))?;
    put(&mut grid, 1, Value::Num(-3))?;
    put(&mut grid, 2, Value::Err(CalcErr::Na))?;
    put(&mut grid, 4, Value::Num(i64::MIN))?;
    Ok(grid)
}

/// Puts a value into a cell of the first column, if the grid has it.
fn put(grid: &mut Grid, row: u32, value: Value) -> Result<(), Memory> {
    let size = grid.size();
    if row < size.rows && 0 < size.cols {
        grid.put(row, 0, value)?;
    }
    Ok(())
}

fn read(rt: &impl Abort, alloc: Global, text: &[u8]) -> Result<Formula, Memory> {
    assert!(rt; text.len() < 1000);
    match parse(alloc, &Txt::new(alloc, text)?) {
        Ok(formula) => Ok(formula),
        Err(ParseErr::Memory) => Err(Memory),
        Err(_) => panic!(rt; "no formula"),
    }
}

/// The value of a formula on the sheet.
fn value_of<G: Ledger>(alloc: Global, formula: &Formula, blank: Blank) -> Result<Value, Memory>
    requires name { blank.name ≡ G.name }
    requires parts { blank.parts ≡ G.parts }
    requires some { 0 < blank.parts }
{
    let mut steps = Steps::<G>::new(blank);
    eval(alloc, &compile(alloc, formula)?, &sheet(alloc)?, &mut steps)
}

/// A value as programs print it.
fn printed(alloc: Global, value: &Value) -> Result<Txt, Memory> {
    match (value, to_text(alloc, value)?) {
        (Value::Text(t), _) => {
            let mut quoted = Vec::from_slice(alloc, b"\"")?;
            quoted.extend_from_slice(t.bytes())?;
            quoted.push(b'"')?;
            Ok(Txt::from_vec(quoted))
        }
        (_, Ok(t)) => Ok(t),
        (_, Err(e)) => Txt::new(alloc, error_name(e)),
    }
}

fn comes_to(rt: &impl Abort, alloc: Global, text: &[u8], wanted: &[u8]) -> Result<(), Memory> {
    let formula = read(rt, alloc, text)?;
    let value = value_of::<Brand>(alloc, &formula, Blank::new(1))?;
    assert_eq!(rt; printed(alloc, &value)?.bytes(), wanted);
    Ok(())
}

#[test]
fn numbers(rt: HostRuntime) -> Result<(), Fail> {
    let values: [(&[u8], &[u8]); 20] = [
        (b"=-2^2", b"4"),
        (b"=7/2", b"#NUM!"),
        (b"=-8/2", b"-4"),
        (b"=1/0", b"#DIV/0!"),
        (b"=0/0", b"#DIV/0!"),
        (b"=A5/-1", b"#NUM!"),
        (b"=A5*-1", b"#NUM!"),
        (b"=A5*A5", b"#NUM!"),
        (b"=-A5", b"#NUM!"),
        (b"=+A5", b"-9223372036854775808"),
        (b"=A5-1", b"#NUM!"),
        (b"=9223372036854775807+1", b"#NUM!"),
        (b"=9223372036854775807+A5", b"-1"),
        (b"=0^0", b"1"),
        (b"=A5^0", b"1"),
        (b"=-2^63", b"-9223372036854775808"),
        (b"=2^63", b"#NUM!"),
        (b"=2^-1", b"#NUM!"),
        (b"=-1^9223372036854775807", b"-1"),
        (b"=QUOTIENT(-7;2)&MOD(-7;2)", b"\"-31\""),
    ];
    for (text, wanted) in values {
        comes_to(&rt, rt.alloc(), text, wanted)?;
    }
    Ok(())
}

#[test]
fn texts_and_comparisons(rt: HostRuntime) -> Result<(), Fail> {
    let values: [(&[u8], &[u8]); 15] = [
        (b"=\"a\"&1&A4&A1", b"\"a1b\""),
        (b"=A4", b"0"),
        (b"=A4&A4", b"\"\""),
        (b"=\"b\"=A1", b"1"),
        (b"=\"B\"=A1", b"0"),
        (b"=A1<>A2", b"1"),
        (b"=A5<\"\"", b"1"),
        (b"=A4=0", b"1"),
        (b"=A4=\"\"", b"1"),
        (b"=A4=A4", b"1"),
        (b"=2>=2", b"1"),
        (b"=NA()=1/0", b"#N/A"),
        (b"=\"x\"+A3", b"#VALUE!"),
        (b"=A3+\"x\"", b"#N/A"),
        (b"=1/0&A3", b"#DIV/0!"),
    ];
    for (text, wanted) in values {
        comes_to(&rt, rt.alloc(), text, wanted)?;
    }
    Ok(())
}

#[test]
fn texts_of_127_and_128_bytes(rt: HostRuntime) -> Result<(), Fail> {
    let values: [(&[u8], &[u8]); 3] = [
        (
            b"=LEN(\"0123456789012345678901234567890123456789012345678901234567890123456789012345678901234567890123456789012345678901234567890123456\")",
            b"127",
        ),
        (
            b"=LEN(\"01234567890123456789012345678901234567890123456789012345678901234567890123456789012345678901234567890123456789012345678901234567\")",
            b"#VALUE!",
        ),
        (
            b"=\"0123456789012345678901234567890123456789012345678901234567890123456789012345678901234567890123456789012345678901234567890123456\"&7",
            b"#VALUE!",
        ),
    ];
    for (text, wanted) in values {
        comes_to(&rt, rt.alloc(), text, wanted)?;
    }
    Ok(())
}

#[test]
fn choices(rt: HostRuntime) -> Result<(), Fail> {
    let values: [(&[u8], &[u8]); 19] = [
        (b"=IF(1;A1)", b"\"b\""),
        (b"=IF(0;A1)", b"0"),
        (b"=IF(0;NA();7)", b"7"),
        (b"=IF(A2;7;NA())", b"7"),
        (b"=IF(A3;1;2)", b"#N/A"),
        (b"=IF(A1;1;2)", b"#VALUE!"),
        (b"=IF(A1:A2;1;2)", b"#VALUE!"),
        (b"=IF(1)", b"#VALUE!"),
        (b"=IF(1;2;3;4)", b"#VALUE!"),
        (b"=IF(IF(1;0);1;IF(1;5;NA()))+1", b"6"),
        (b"=IF(1;A4)", b"0"),
        (b"=ISBLANK(IF(1;A4))", b"1"),
        (b"=SUM(A1)", b"0"),
        (b"=SUM(IF(1;A1))", b"#VALUE!"),
        (b"=ROWS(IF(1;A1))", b"#VALUE!"),
        (b"=IFERROR(7;NA())", b"7"),
        (b"=IFERROR(A3;A1)", b"\"b\""),
        (b"=CHOOSE(2;A3;7)", b"7"),
        (b"=CHOOSE(3;1;2)", b"#VALUE!"),
    ];
    for (text, wanted) in values {
        comes_to(&rt, rt.alloc(), text, wanted)?;
    }
    Ok(())
}

#[test]
fn references(rt: HostRuntime) -> Result<(), Fail> {
    let values: [(&[u8], &[u8]); 15] = [
        (b"=A9", b"#REF!"),
        (b"=A1:A2", b"#VALUE!"),
        (b"=A8:A9", b"#REF!"),
        (b"=-A1:A2", b"#VALUE!"),
        (b"=ISERROR(A1:A2)", b"1"),
        (b"=IFERROR(A1:A2;5)", b"5"),
        (b"=SUM(A9)", b"#REF!"),
        (b"=COUNT(A9;A2)", b"1"),
        (b"=ROWS(A9)", b"#REF!"),
        (b"=ROWS(#REF!)", b"#VALUE!"),
        (b"=SUM(#REF!)", b"#REF!"),
        (b"=ABS(A9)", b"#REF!"),
        (b"=LEN(A8:A9)", b"#REF!"),
        (b"=SUMPRODUCT(A1:A2;A1:B1)", b"#VALUE!"),
        (b"=ROWS(A1:A9)&COLUMNS(A1:B1)", b"\"52\""),
    ];
    for (text, wanted) in values {
        comes_to(&rt, rt.alloc(), text, wanted)?;
    }
    Ok(())
}

#[test]
fn calls_in_one_another(rt: HostRuntime) -> Result<(), Fail> {
    let values: [(&[u8], &[u8]); 14] = [
        (
            b"=COUNTA(A1:A4)&COUNT(A1:A3)&ROWS(A1:A4)&COLUMNS(A1:A4)",
            b"\"3141\"",
        ),
        (
            b"=MIN(A1:A2;5)&MAX(A1:A2)&AND(A2;0)&OR(A2;0)",
            b"\"-3-301\"",
        ),
        (b"=ABS(A5)", b"#NUM!"),
        (
            b"=SIGN(A5)&NOT(A4)&ISNA(A3)&ISBLANK(A4)&ISNUMBER(A2)&ISTEXT(A1)&TRUE()&FALSE()",
            b"\"-11111110\"",
        ),
        (b"=SUM(A1:A3)", b"#N/A"),
        (
            b"=LEN(\"a\"\"b\")&LEFT(\"xyz\")&RIGHT(\"xyz\";2)&MID(\"xyz\";2;9)&CONCATENATE(\"p\";1)",
            b"\"3xyzyzp1\"",
        ),
        (
            b"=EXACT(\"b\";A1)&CHOOSE(2;A3;7)&INDEX(A1:A4;2)&COUNTIF(A1:A4;\"b\")",
            b"\"17-31\"",
        ),
        (b"=SUMIF(A1:A2;\"b\";A2:A3)", b"-3"),
        (b"=SUMPRODUCT(A1:A2;A1:A2)", b"9"),
        (b"=XYZ(1)", b"#NAME?"),
        (b"=XYZ(A9)+1", b"#NAME?"),
        (b"=MATCH(-3;A1:A3;0)", b"2"),
        (b"=SUM(A5;-1;1)", b"-9223372036854775808"),
        (b"=VLOOKUP(\"b\";A1:A3;1;0)", b"\"b\""),
    ];
    for (text, wanted) in values {
        comes_to(&rt, rt.alloc(), text, wanted)?;
    }
    Ok(())
}
