ghost use Rattle.std.specs.Prelude.{◌≤◌};

use jup_client::{Client, Down, TakeErr};
use sheet_ops::Effect;
use ss_base::{Memory, Site, Size};
use std::alloc::Global;
use std::test::Fail;

const CELL: Size = Size { rows: 1, cols: 1 };

// A new client, of which the tests that use it are proved without its contents.
fn opened(alloc: Global, size: Size) -> Result<Client, Memory>
    requires rows { size.rows ≤ 1000 }
    requires cols { size.cols ≤ 64 }
{
    Client::new(alloc, Site(2), size)
}

// Takes another's effect.
fn take(client: &mut Client, effect: Effect) -> Result<(), TakeErr> {
    client.take(&Down::Other(effect))
}

// How many entries are taken, how many operations issued and how many pending.
fn counts(client: &Client) -> (u32, u32, u32) {
    (client.taken(), client.issued(), client.pending())
}

#[test]
fn a_strange_message_is_refused_by_its_cause(rt: HostRuntime) -> Result<(), Fail> {
    let mut client = opened(rt.alloc(), CELL)?;
    assert_eq!(rt; client.take(&Down::Own), Err(TakeErr::NotMine));
    assert_eq!(rt;
        take(&mut client, Effect::DelRow(1)),
        Err(TakeErr::BadPlace(0))
    );
    assert_eq!(rt; counts(&client), (0, 0, 0));
    Ok(())
}

#[test]
fn rows_past_what_a_history_comes_to_are_refused(rt: HostRuntime) -> Result<(), Fail> {
    let size = Size {
        rows: 1000,
        cols: 1,
    };
    let mut client = opened(rt.alloc(), size)?;
    for _ in 0..8000 {
        take(&mut client, Effect::InsRow(0))?;
    }
    assert_eq!(rt; take(&mut client, Effect::InsRow(0)), Err(TakeErr::TooBig));
    assert_eq!(rt; counts(&client), (8000, 0, 0));
    Ok(())
}
