use sheet_value::{Grid, Value, compare, order, text_value, to_num, to_text};
use ss_base::{CalcErr, Memory, Size, Txt};
use std::alloc::Global;
use std::cmp::Ordering;
use std::test::Fail;

fn text(alloc: Global, bytes: &[u8]) -> Result<Value, Memory> {
    let text = Txt::new(alloc, bytes)?;
    Ok(Value::Text(text))
}

#[test]
fn values_stand_in_order(rt: HostRuntime) -> Result<(), Fail> {
    let alloc = rt.alloc();
    let ascending = [
        Value::Num(i64::MIN),
        Value::Num(-1),
        Value::Num(i64::MAX),
        text(alloc, b"")?,
        text(alloc, b"B")?,
        text(alloc, b"Ba")?,
        text(alloc, b"a")?,
        Value::Err(CalcErr::Div0),
        Value::Err(CalcErr::Na),
        Value::Err(CalcErr::NoName),
        Value::Err(CalcErr::BadNum),
        Value::Err(CalcErr::Lost),
        Value::Err(CalcErr::BadKind),
        Value::Err(CalcErr::Circ),
        Value::Empty,
    ];
    for (i, a) in ascending.iter().enumerate() {
        for (j, b) in ascending.iter().enumerate() {
            assert_eq!(rt; order(a, b), i.cmp(&j), "{i} beside {j}");
        }
    }
    Ok(())
}

#[test]
fn empty_values_compare_as_what_they_stand_beside(rt: HostRuntime) -> Result<(), Fail> {
    let alloc = rt.alloc();
    let x = text(alloc, b"x")?;
    let bad = Value::Err(CalcErr::BadNum);
    let na = Value::Err(CalcErr::Na);
    assert_eq!(rt; compare(&Value::Empty, &Value::Num(0)), Ok(Ordering::Equal));
    assert_eq!(rt; compare(&Value::Num(-1), &Value::Empty), Ok(Ordering::Less));
    assert_eq!(rt;
        compare(&Value::Empty, &text(alloc, b"")?),
        Ok(Ordering::Equal)
    );
    assert_eq!(rt; compare(&x, &Value::Empty), Ok(Ordering::Greater));
    assert_eq!(rt; compare(&Value::Empty, &Value::Empty), Ok(Ordering::Equal));
    assert_eq!(rt; compare(&Value::Num(9), &x), Ok(Ordering::Less));
    assert_eq!(rt; compare(&bad, &na), Err(CalcErr::BadNum));
    assert_eq!(rt; compare(&x, &na), Err(CalcErr::Na));
    Ok(())
}

#[test]
fn converts_to_texts(rt: HostRuntime) -> Result<(), Fail> {
    let alloc = rt.alloc();
    let values = [
        (Value::Empty, b"".as_slice()),
        (Value::Num(i64::MIN), b"-9223372036854775808"),
        (text(alloc, b"a b")?, b"a b"),
    ];
    for (value, bytes) in &values {
        match to_text(alloc, &value.copy()?)? {
            Ok(text) => assert_eq!(rt; text.bytes(), *bytes),
            Err(_) => assert!(rt; false),
        }
    }
    Ok(())
}

#[test]
fn texts_have_at_most_127_bytes(rt: HostRuntime) -> Result<(), Fail> {
    let alloc = rt.alloc();
    let longest = Txt::new(alloc, &[b'x'; 127])?;
    let longer = Txt::new(alloc, &[b'x'; 128])?;
    assert_eq!(rt; to_num(&text_value(longest)), Err(CalcErr::BadKind));
    assert!(rt; matches!(text_value(longer), Value::Err(CalcErr::BadKind)));
    Ok(())
}

#[test]
fn grid_keeps_values(rt: HostRuntime) -> Result<(), Fail> {
    let mut grid = Grid::new(rt.alloc(), Size { rows: 2, cols: 3 })?;
    assert_eq!(rt; grid.size(), Size { rows: 2, cols: 3 });
    grid.put(1, 2, Value::Num(7))?;
    assert_eq!(rt; grid.at(1, 2).map(|v| to_num(v)), Some(Ok(7)));
    assert!(rt; grid.at(0, 2).is_none());
    assert!(rt; grid.at(2, 0).is_none());
    grid.put(1, 2, Value::Empty)?;
    assert!(rt; grid.at(1, 2).is_none());
    Ok(())
}
