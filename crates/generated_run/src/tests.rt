use crate::summary::load_summary;
use std::test::Fail;

/// What sheetshare prints of a script of the same commands, written by another program: its refusals, and
/// counts of the lines of `show server` and `values` at its end.
const SEVEN: &[u8] =
    b"load 7\nhistory 2543 refused 657\nsheet rows 24 columns 36 cells 81\nvalues at 2543 numbers 52 texts 0 errors 29 circular 0 total 29574\nequal 8\n";

#[test]
fn summary_of_seven(rt: HostRuntime) -> Result<(), Fail> {
    let loaded = load_summary(rt.alloc(), 7)?;
    assert_eq!(rt; loaded.summary.bytes(), SEVEN);
    Ok(())
}
