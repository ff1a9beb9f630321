use script_read::{LineFault, read_command};
use std::test::Fail;

#[test]
fn lines_and_their_commands(rt: HostRuntime) -> Result<(), Fail> {
    let table: [(&[u8], &str); 30] = [
        (b"", "Ok(Note)"),
        (b"# sheet 1 1", "Ok(Note)"),
        (b"sheet 1000 64", "Ok(Sheet(Size { rows: 1000, cols: 64 }))"),
        (b"site a", "Ok(Site(Txt { bytes: [97] }))"),
        (
            b"site abcdefghijklmnop",
            "Ok(Site(Txt { bytes: [97, 98, 99, 100, 101, 102, 103, 104, 105, 106, 107, 108, 109, 110, 111, 112] }))",
        ),
        (
            b"a set b3 -007",
            "Ok(Edit(Txt { bytes: [97] }, Set(Spot { row: 2, col: 1, abs_row: false, abs_col: false }, Txt { bytes: [45, 48, 48, 55] })))",
        ),
        (
            b"a set A1  x ",
            "Ok(Edit(Txt { bytes: [97] }, Set(Spot { row: 0, col: 0, abs_row: false, abs_col: false }, Txt { bytes: [32, 120, 32] })))",
        ),
        (
            b"a clear A1",
            "Ok(Edit(Txt { bytes: [97] }, Clear(Spot { row: 0, col: 0, abs_row: false, abs_col: false })))",
        ),
        (b"a insrow 2", "Ok(Edit(Txt { bytes: [97] }, InsRow(1)))"),
        (b"a inscol aa", "Ok(Edit(Txt { bytes: [97] }, InsCol(26)))"),
        (
            b"a delrow 9999999",
            "Ok(Edit(Txt { bytes: [97] }, DelRow(9999998)))",
        ),
        (
            b"a delcol ZZZ",
            "Ok(Edit(Txt { bytes: [97] }, DelCol(18277)))",
        ),
        (b"a push", "Ok(Push(Txt { bytes: [97] }, None))"),
        (
            b"set push 9999999",
            "Ok(Push(Txt { bytes: [115, 101, 116] }, Some(9999999)))",
        ),
        (b"a pull", "Ok(Pull(Txt { bytes: [97] }, None))"),
        (b"a pull 7", "Ok(Pull(Txt { bytes: [97] }, Some(7)))"),
        (b"push all", "Ok(PushAll)"),
        (b"pull all", "Ok(PullAll)"),
        (
            b"a copy A1 C3",
            "Ok(Edit(Txt { bytes: [97] }, Copy(Span { top: 0, left: 0, bottom: 0, right: 0, abs_top: false, abs_left: false, abs_bottom: false, abs_right: false }, Spot { row: 2, col: 2, abs_row: false, abs_col: false })))",
        ),
        (
            b"a sort 4:2 b down",
            "Ok(Edit(Txt { bytes: [97] }, Sort(1, 3, 1, true)))",
        ),
        (b"a sync", "Ok(Sync(Txt { bytes: [97] }))"),
        (b"recalc", "Ok(Recalc(None))"),
        (b"recalc 20", "Ok(Recalc(Some(20)))"),
        (
            b"a read b3:a2",
            "Ok(Read(Txt { bytes: [97] }, Span { top: 1, left: 0, bottom: 2, right: 1, abs_top: false, abs_left: false, abs_bottom: false, abs_right: false }))",
        ),
        (b"values", "Ok(Values)"),
        (b"history", "Ok(History)"),
        (b"wire", "Ok(Wire)"),
        (b"show a1", "Ok(Show(Txt { bytes: [97, 49] }))"),
        (b"show server", "Ok(ShowServer)"),
        (b"end", "Ok(End)"),
    ];
    for (line, answer) in table {
        let told = format!(in rt.alloc(); "{:?}", read_command(rt.alloc(), line))?;
        assert_eq!(rt; told.as_str(), answer);
    }
    Ok(())
}

#[test]
fn lines_outside_the_grammar(rt: HostRuntime) -> Result<(), Fail> {
    let lines: [&[u8]; 23] = [
        b" end",
        b"end ",
        b"push  all",
        b"a push 0",
        b"a push 07",
        b"site all",
        b"site A",
        b"site abcdefghijklmnopq",
        b"sheet 1001 1",
        b"sheet 1 65",
        b"a set A$1 1",
        b"a set A1 ",
        b"a insrow 0",
        b"a delcol $A",
        b"site server",
        b"# a\ttab",
        b"recalc 0",
        b"values 1",
        b"a read $A1:B2",
        b"a copy A1 B2 ",
        b"a sort 1:2 A",
        b"a sort 1 A up",
        b"a sort 1:2 A up down",
    ];
    for line in lines {
        assert!(rt; matches!(read_command(rt.alloc(), line), Err(LineFault::Grammar)));
    }
    Ok(())
}
