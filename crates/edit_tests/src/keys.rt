use sheet_grid::Sheet;
use sheet_ops::{Content, Edit, Effect, Put};
use sheet_value::Value;
use sort_keys::keys;
use ss_base::{Memory, Seq, Size};
use std::alloc::Global;
use std::test::Fail;

/// A sheet of three rows with 7 in B2.
fn opened(alloc: Global) -> Result<Sheet, Memory> {
    let mut sheet = Sheet::new(alloc, Size { rows: 3, cols: 2 })?;
    let mut puts = Seq::new(alloc);
    puts.push(Put {
        row: 1,
        col: 1,
        content: Content::Num(7),
    })?;
    sheet.apply(&Effect::Write(puts))?;
    Ok(sheet)
}

#[test]
fn a_sort_has_a_key_for_each_row(rt: HostRuntime) -> Result<(), Fail> {
    let alloc = rt.alloc();
    let sheet = opened(alloc)?;
    let keys = keys(alloc, &sheet, &Edit::Sort(1, 2, 1, false))?;
    assert!(rt; matches!(keys.as_slice(), [Value::Num(7), Value::Empty]));
    Ok(())
}
