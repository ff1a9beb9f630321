use crate::play::play;
use run_status::Status;
use ss_base::{MemSink, MemSource, Memory};
use std::alloc::Global;
use std::test::Fail;

/// Two sites write one cell. One of them takes the other's write before its own, and shows its own.
const FRONT: &[u8] =
    b"sheet 1 1\nsite a\nsite b\na set A1 1\nb set A1 2\na push\nb push\nb pull 1\nshow b\n";

/// Each site takes what is left, and shows what the other shows.
const BACK: &[u8] = b"pull all\nshow a\nshow b\nend\n";

/// What the first `show` prints, the first two, and all.
const ONE: &[u8] = b"sheet b taken 1 pending 1 rows 1 columns 1\nA1 2\n";

const TWO: &[u8] =
    b"sheet b taken 1 pending 1 rows 1 columns 1\nA1 2\nsheet a taken 2 pending 0 rows 1 columns 1\nA1 2\n";

const ALL: &[u8] =
    b"sheet b taken 1 pending 1 rows 1 columns 1\nA1 2\nsheet a taken 2 pending 0 rows 1 columns 1\nA1 2\nsheet b taken 2 pending 0 rows 1 columns 1\nA1 2\n";

/// The script, with so many notes of the greatest length between its parts.
fn script(alloc: Global, notes: usize) -> Result<Vec<u8>, Memory> {
    let mut bytes = Vec::from_slice(alloc, FRONT)?;
    for _ in 0..notes {
        let note = vec![in alloc; b'#'; 4096]?;
        bytes.extend_from_slice(note.as_slice())?;
        bytes.push(b'\n')?;
    }
    bytes.extend_from_slice(BACK)?;
    Ok(bytes)
}

/// Plays a script with the reads and writes of these numbers failing.
fn played(
    alloc: Global,
    bytes: &[u8],
    reads: &[u64],
    writes: &[u64],
) -> Result<(Status, MemSink), Memory> {
    let mut source = MemSource::new(alloc, bytes, reads)?;
    let mut sink = MemSink::new(alloc, 1024, writes)?;
    let end = play(alloc, &[], &mut source, &mut sink);
    Ok((end.status, sink))
}

#[test]
fn writes_each_text_before_the_next_line(rt: HostRuntime) -> Result<(), Fail> {
    let bytes = script(rt.alloc(), 0)?;
    let table = [
        (1, Status::WriteFault, b"".as_slice()),
        (2, Status::WriteFault, ONE),
        (3, Status::WriteFault, TWO),
        (4, Status::Done, ALL),
    ];
    for (write, status, taken) in table {
        let (answer, sink) = played(rt.alloc(), bytes.as_slice(), &[], &[write])?;
        assert_eq!(rt; answer, status, "where write {write} fails");
        assert_eq!(rt; sink.bytes(), taken, "where write {write} fails");
    }
    Ok(())
}

/// Two notes move what follows behind the bytes that one read gives.
#[test]
fn keeps_what_was_written_before_a_read_fails(rt: HostRuntime) -> Result<(), Fail> {
    let bytes = script(rt.alloc(), 2)?;
    let table = [
        (1, Status::ReadFault, b"".as_slice()),
        (2, Status::ReadFault, ONE),
        (3, Status::Done, ALL),
    ];
    for (read, status, taken) in table {
        let (answer, sink) = played(rt.alloc(), bytes.as_slice(), &[read], &[])?;
        assert_eq!(rt; answer, status, "where read {read} fails");
        assert_eq!(rt; sink.bytes(), taken, "where read {read} fails");
    }
    Ok(())
}

/// The script is whole from the last letter of its `end` on.
#[test]
fn stops_where_the_script_is_cut(rt: HostRuntime) -> Result<(), Fail> {
    let bytes = script(rt.alloc(), 0)?;
    for cut in 0..=bytes.len() {
        let (answer, sink) = played(rt.alloc(), &bytes.as_slice()[..cut], &[], &[])?;
        let whole = cut + 1 >= bytes.len();
        assert_eq!(rt; answer == Status::Done, whole, "cut after {cut} bytes");
        assert_eq!(rt;
            matches!(answer, Status::Script(_)),
            !whole,
            "cut after {cut} bytes"
        );
        assert!(rt; ALL.starts_with(sink.bytes()), "cut after {cut} bytes");
    }
    Ok(())
}
