//! Two clients and a server in one program, without a script: both sites edit at once, and end with
//! the same sheet. This is how a program of one's own would use the library.
#![tactic(auto)]

ghost use Rattle.std.specs.Prelude.{◌<◌, ◌^◌, length};

use anyhow::Result;
use author_ops::{ins_row, set};
use jup_client::{Client, Down};
use jup_server::Server;
use sheet_ops::Up;
use sheet_text::{head, sheet_lines};
use ss_base::{Site, Size, Spot, Txt};
use std::alloc::Global;
use std::process::ExitCode;

const SIZE: Size = Size { rows: 3, cols: 2 };

const ANN: Site = Site(1);

const BOB: Site = Site(2);

const B1: Spot = Spot {
    row: 0,
    col: 1,
    abs_row: false,
    abs_col: false,
};

fn main(rt: HostRuntime) -> ExitCode {
    match converge(&rt) {
        Ok(()) => ExitCode::SUCCESS,
        Err(error) => {
            let _ = eprintln!(rt; "two_clients: {error}");
            ExitCode::FAILURE
        }
    }
}

/// `ann` enters a formula that refers to A3, and `bob` puts a row before it. Neither has seen the
/// other's edit. `bob`'s comes first in the history.
fn converge(rt: &HostRuntime) -> Result<()> {
    let alloc = rt.alloc();
    let mut server = opened_server(alloc)?;
    let mut ann = opened_client(alloc, ANN)?;
    let mut bob = opened_client(alloc, BOB)?;
    edit_at_once(alloc, &mut server, &mut ann, &mut bob)?;
    show(rt, b"ann", &ann)?;
    show(rt, b"bob", &bob)
}

/// A server for both sites.
fn opened_server(alloc: Global) -> Result<Server> {
    Ok(Server::new(alloc, SIZE, 2)?)
}

/// The client of a site.
fn opened_client(alloc: Global, site: Site) -> Result<Client>
    requires { 0 < site.0 }
{
    Ok(Client::new(alloc, site, SIZE)?)
}

/// Both edit before either has seen the other's entry.
fn edit_at_once(
    alloc: Global,
    server: &mut Server,
    ann: &mut Client,
    bob: &mut Client,
) -> Result<()> {
    let from_ann = enter(alloc, ann, &B1, b"=A3")?;
    let from_bob = insert_row(bob, 1)?;
    deliver(server, BOB, &from_bob, bob, ann)?;
    deliver(server, ANN, &from_ann, ann, bob)
}

/// Enters a text into a cell that the client's person sees, at once on that client.
fn enter(alloc: Global, client: &mut Client, at: &Spot, text: &[u8]) -> Result<Up>
    requires { length text.now < 2 ^ 24 }
{
    let entry = Txt::new(alloc, text)?;
    let intent = set(alloc, client.sheet(), at, &entry)?;
    Ok(client.edit(intent)?)
}

/// Puts a row before a visible one, at once on that client.
fn insert_row(client: &mut Client, before: u32) -> Result<Up> {
    let intent = ins_row(client.sheet(), before)?;
    Ok(client.edit(intent)?)
}

/// The server takes an operation, and both clients take the entry that it became.
fn deliver(
    server: &mut Server,
    site: Site,
    up: &Up,
    author: &mut Client,
    other: &mut Client,
) -> Result<()> {
    let effect = server.submit(site, up)?;
    author.take(&Down::Own)?;
    other.take(&Down::Other(effect))?;
    Ok(())
}

fn show(rt: &HostRuntime, name: &[u8], client: &Client) -> Result<()> {
    let alloc = rt.alloc();
    let name = Txt::new(alloc, name)?;
    let first = head(
        alloc,
        &name,
        client.taken(),
        client.pending(),
        client.sheet(),
    )?;
    let lines = sheet_lines(alloc, &first, client.sheet())?;
    let text = String::from_utf8(lines.into_vec())?;
    print!(rt; "{text}")?;
    Ok(())
}
