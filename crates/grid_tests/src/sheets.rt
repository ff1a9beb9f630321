use sheet_grid::Sheet;
use ss_base::Size;
use std::test::Fail;

const SIZE: Size = Size { rows: 3, cols: 2 };

#[test]
fn lines_of_a_new_sheet_have_their_numbers_in_order(rt: HostRuntime) -> Result<(), Fail> {
    let sheet = Sheet::new(rt.alloc(), SIZE)?;
    assert_eq!(rt; sheet.visible(), SIZE);
    assert_eq!(rt; sheet.row_of(2), Some(2));
    assert_eq!(rt; sheet.row_of(3), None);
    assert_eq!(rt; sheet.col_pos(1), Some(1));
    Ok(())
}

#[test]
fn a_copy_has_the_same_lines(rt: HostRuntime) -> Result<(), Fail> {
    let sheet = Sheet::new(rt.alloc(), SIZE)?;
    let copy = sheet.copy()?;
    assert_eq!(rt; copy.size(), SIZE);
    assert_eq!(rt; copy.row_at(2), Some(2));
    assert!(rt; copy.stored(0, 0).is_none());
    Ok(())
}
