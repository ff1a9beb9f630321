use sheet_grid::Sheet;
use sheet_ops::EditErr;
use sheet_text::{
    all_text, answer_text, head, part_text, range_text, refusal, server_head, sheet_lines,
};
use sheet_value::{Grid, Value};
use ss_base::{CalcErr, Memory, Size, Span, Txt};
use std::alloc::Global;
use std::test::Fail;

const SIZE: Size = Size { rows: 2, cols: 2 };

// A new sheet, of which the test is proved without its contents.
fn opened(alloc: Global) -> Result<Sheet, Memory> {
    Sheet::new(alloc, SIZE)
}

#[test]
fn heads_an_empty_sheet(rt: HostRuntime) -> Result<(), Fail> {
    let alloc = rt.alloc();
    let sheet = opened(alloc)?;
    let first = head(alloc, &Txt::new(alloc, b"b")?, 1, 10, &sheet)?;
    assert_eq!(rt;
        sheet_lines(alloc, &first, &sheet)?.bytes(),
        b"sheet b taken 1 pending 10 rows 2 columns 2\n".as_slice()
    );
    let first = server_head(alloc, 3, &sheet)?;
    assert_eq!(rt;
        first.bytes(),
        b"sheet server length 3 rows 2 columns 2".as_slice()
    );
    Ok(())
}

// Whether the refusal of a line is told so.
fn is_told(alloc: Global, line: u32, cause: EditErr, text: &[u8]) -> Result<bool, Memory> {
    match cause {
        EditErr::Memory => Ok(false),
        _ => Ok(refusal(alloc, line, cause)?.bytes() == text),
    }
}

#[test]
fn refuses(rt: HostRuntime) -> Result<(), Fail> {
    let alloc = rt.alloc();
    assert!(rt; is_told(alloc, 7, EditErr::OutOfSheet, b"refused 7 outside\n")?);
    assert!(rt; is_told(alloc, 1004, EditErr::Spent, b"refused 1004 spent\n")?);
    assert!(rt; is_told(alloc, 6, EditErr::BadFormula(18), b"refused 6 at 18\n")?);
    assert!(rt; is_told(alloc, 4, EditErr::Deep, b"refused 4 deep\n")?);
    assert!(rt; is_told(alloc, 3, EditErr::Heavy(513), b"refused 3 heavy 513\n")?);
    Ok(())
}

// Values of two rows and columns.
fn filled(alloc: Global) -> Result<Grid, Memory> {
    let mut grid = Grid::new(alloc, SIZE)?;
    grid.put(0, 1, Value::Num(-30))?;
    grid.put(1, 0, Value::Text(Txt::new(alloc, b"a\"b")?))?;
    grid.put(1, 1, Value::Err(CalcErr::Circ))?;
    Ok(grid)
}

const B1_TO_B2: Span = Span {
    top: 0,
    left: 1,
    bottom: 1,
    right: 1,
    abs_top: false,
    abs_left: false,
    abs_bottom: false,
    abs_right: false,
};

#[test]
fn prints_values(rt: HostRuntime) -> Result<(), Fail> {
    let alloc = rt.alloc();
    let grid = filled(alloc)?;
    assert_eq!(rt;
        all_text(alloc, 3, &grid)?.bytes(),
        b"values at 3 rows 2 columns 2\nB1 -30\nA2 \"a\"\"b\"\nB2 #CIRC!\n".as_slice()
    );
    let name = Txt::new(alloc, b"ann")?;
    assert_eq!(rt;
        range_text(alloc, 9, &name, &B1_TO_B2, 3, &grid)?.bytes(),
        b"read ann at 3 B1:B2\nB1 -30\nB2 #CIRC!\n".as_slice()
    );
    Ok(())
}

#[test]
fn prints_a_part_by_its_addresses(rt: HostRuntime) -> Result<(), Fail> {
    let alloc = rt.alloc();
    let mut part = Grid::new(alloc, Size { rows: 2, cols: 1 })?;
    part.put(0, 0, Value::Num(-30))?;
    part.put(1, 0, Value::Err(CalcErr::Circ))?;
    assert_eq!(rt;
        part_text(alloc, &Txt::new(alloc, b"ann")?, &B1_TO_B2, 3, &part)?.bytes(),
        b"read ann at 3 B1:B2\nB1 -30\nB2 #CIRC!\n".as_slice()
    );
    Ok(())
}

#[test]
fn tells_an_answer(rt: HostRuntime) -> Result<(), Fail> {
    let alloc = rt.alloc();
    assert!(rt; answer_text(alloc, 4, Ok(()))?.bytes().is_empty());
    assert_eq!(rt;
        answer_text(alloc, 4, Err(EditErr::Spent))?.bytes(),
        b"refused 4 spent\n".as_slice()
    );
    Ok(())
}
