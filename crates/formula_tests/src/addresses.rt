use cell_addr::{col_of, letters_of, read_cell, read_count, read_range};
use ss_base::{Span, Spot};

#[test]
fn columns_and_letters(rt: HostRuntime) {
    assert_eq!(rt; col_of(b"A"), Some(0));
    assert_eq!(rt; col_of(b"z"), Some(25));
    assert_eq!(rt; col_of(b"AA"), Some(26));
    assert_eq!(rt; col_of(b"zZ"), Some(701));
    assert_eq!(rt; col_of(b"AAA"), Some(702));
    assert_eq!(rt; col_of(b"XFD"), Some(16383));
    assert_eq!(rt; col_of(b"ZZZ"), Some(18277));
    assert_eq!(rt; col_of(b""), None);
    assert_eq!(rt; col_of(b"A1"), None);
    assert_eq!(rt; col_of(b"AAAA"), None);
    let mut out = [0; 4];
    assert_eq!(rt; letters_of(16383, &mut out), 3);
    assert_eq!(rt; out, *b"XFD\0");
    assert_eq!(rt; letters_of(701, &mut out), 2);
    assert_eq!(rt; out, *b"ZZD\0");
}

#[test]
fn cells_and_ranges(rt: HostRuntime) {
    let b2 = Spot {
        row: 1,
        col: 1,
        abs_row: true,
        abs_col: false,
    };
    assert_eq!(rt; read_cell(b"b$2"), Some(b2));
    assert_eq!(rt; read_cell(b"A0"), None);
    assert_eq!(rt; read_cell(b"$$A1"), None);
    assert_eq!(rt; read_cell(b"A12345678"), None);
    assert_eq!(rt; read_cell(b"A1 "), None);
    assert_eq!(rt; read_count(b"9999999"), Some(9999999));
    assert_eq!(rt; read_count(b"007"), None);
    let span = Span {
        top: 0,
        left: 0,
        bottom: 1,
        right: 1,
        abs_top: true,
        abs_left: true,
        abs_bottom: false,
        abs_right: true,
    };
    assert_eq!(rt; read_range(b"$b$1:$A2"), Some(span));
    assert_eq!(rt; read_range(b"A1:B2:C3"), None);
    assert_eq!(rt; read_range(b"A1: B2"), None);
}
