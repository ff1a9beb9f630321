use jup_server::{Answer, Sent, Server, SubmitErr, submit_all};
use sheet_grid::Kind;
use sheet_ops::{Content, Intent, Put, Up};
use ss_base::{Memory, Seq, Site, Size};
use std::alloc::Global;
use std::test::Fail;

fn write(alloc: Global, seen: u32) -> Result<Up, Memory> {
    let mut puts = Seq::new(alloc);
    puts.push(Put {
        row: 0,
        col: 0,
        content: Content::Num(1),
    })?;
    Ok(Up {
        seen,
        intent: Intent::Write(puts),
    })
}

const CELL: Size = Size { rows: 1, cols: 1 };

#[test]
fn a_strange_operation_is_refused_by_its_cause(rt: HostRuntime) -> Result<(), Fail> {
    let alloc = rt.alloc();
    let mut server = Server::new(alloc, CELL, 1)?;
    let up = write(alloc, 0)?;
    server.submit(Site(1), &up)?;
    server.submit(Site(1), &up)?;
    let late = write(alloc, 5)?;
    let far = SubmitErr::BadSeen {
        seen: 5,
        low: 0,
        high: 2,
    };
    assert_eq!(rt; server.submit(Site(1), &late).err(), Some(far));
    assert_eq!(rt; server.submit(Site(2), &up).err(), Some(SubmitErr::NoSite));
    assert_eq!(rt; server.submit(Site(0), &up).err(), Some(SubmitErr::NoSite));
    assert_eq!(rt; server.count(), 2);
    assert_eq!(rt; server.sheet().size(), CELL);
    assert_eq!(rt; server.sheet().kind(0, 0), Kind::Num(1));
    Ok(())
}

#[test]
fn messages_are_answered_one_by_one(rt: HostRuntime) -> Result<(), Fail> {
    let alloc = rt.alloc();
    let mut server = Server::new(alloc, CELL, 1)?;
    let mut list = Seq::new(alloc);
    for (site, seen) in [(1, 0), (1, 2)] {
        list.push(Sent {
            site: Site(site),
            up: write(alloc, seen)?,
        })?;
    }
    let past = Up {
        seen: 0,
        intent: Intent::InsRow(2),
    };
    list.push(Sent {
        site: Site(1),
        up: past,
    })?;
    for site in [1, 2] {
        list.push(Sent {
            site: Site(site),
            up: write(alloc, 0)?,
        })?;
    }
    let answers = submit_all(alloc, &mut server, &list)?;
    let wanted = [
        Answer::Taken,
        Answer::Refused(SubmitErr::BadSeen {
            seen: 2,
            low: 0,
            high: 1,
        }),
        Answer::Refused(SubmitErr::BadPlace(0)),
        Answer::Taken,
        Answer::Refused(SubmitErr::NoSite),
    ];
    assert_eq!(rt; answers.as_slice(), wanted.as_slice());
    Ok(())
}
