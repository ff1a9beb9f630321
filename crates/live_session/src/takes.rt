ghost use Rattle.std.specs.Prelude.{◌≡◌, ◌≤◌, ℕ, List, length, OnErr, OnOk, IfOk};
ghost use Rattle.sheet_ops.specs.declared.operation.Entry.{Entry};
ghost use Rattle.sheet_ops.specs.Represents.{ClientRepresents};
ghost use Rattle.jup_client.specs.declared.client.TakeErr.TheVariants as fault;
ghost use Rattle.live_session.specs.Pulling.{AreNextMessages, HasTakenMore};

use jup_client::{Client, Down, TakeErr};
use ss_base::Memory;

/// A client refuses the next message of a history for want of memory alone.
fn untaken(err: TakeErr) -> Memory
    requires { err ≡ fault.Memory }
{
    match err {
        TakeErr::Memory => Memory,
        _ => unreachable!(),
    }
}

/// Takes messages one after another. After want of memory those are taken that came before.
pub(crate) fn take_all(client: &mut Client, downs: &[Down]) -> Result<(), Memory>
    requires { (H : List Entry) × (G : List Entry) × AreNextMessages client.old H G downs.now }
    ensures ok { OnOk result (HasTakenMore (length downs.now) client.old client.new) }
    ensures err { OnErr result ((count : ℕ) × (count ≤ length downs.now) × HasTakenMore count client.old client.new) }
    ensures represents { (H G : List Entry) → AreNextMessages client.old H G downs.now → ClientRepresents client.new H G }
{
    for down in downs {
        match client.take(down) {
            Ok(()) => {}
            Err(err) => return Err(untaken(err)),
        }
    }
    Ok(())
}
