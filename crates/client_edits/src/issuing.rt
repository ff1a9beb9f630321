ghost use Rattle.std.specs.Prelude.{◌≡◌, ◌≢◌, ◌<◌, ℕ, List, [], ◌∷◌, ◌++◌, Ok, Err, IfOk, IfErr, OnOk, OnErr};
ghost use Rattle.ss_base.specs.Lists.{IsPrefixOf};
ghost use Rattle.sheet_ops.specs.declared.operation.Entry.{Entry};
ghost use Rattle.sheet_ops.specs.History.{own_entries, IsValidHistory};
ghost use Rattle.sheet_ops.specs.Represents.{ClientRepresents};
ghost use Rattle.jup_client.specs.Clients.{own_entry};
ghost use Rattle.sort_keys.specs.Keys.{IsOrderly};
ghost use Rattle.client_edits.specs.Decided.{Decides, with_operation};

use author_ops::denoted;
use jup_client::Client;
use sheet_ops::{Edit, EditErr, Up};
use sort_keys::keys;
use std::alloc::Global;

/// Does an edit at a client at once, and gives the message for it. A refused call leaves the client.
/// The causes are those of the edit on the client's sheet, in the order `OutOfSheet`, `CopyLarge`,
/// `SortLong`, `BadFormula`, `Deep`, `Heavy`, and behind them `Spent`, which comes where 1,000 operations
/// were issued. A sort whose rows and column are in the visible sheet takes the time of a full
/// evaluation where there is a formula among its keys.
pub fn issue(alloc: Global, client: &mut Client, edit: &Edit) -> Result<Up, EditErr>
    requires { IsOrderly edit.now }
    ensures few { OnOk result (client.old.issued < 1000) }
    ensures decided { IfOk result (λ up. Decides client.old edit.now (Ok up.intent)) }
    ensures seen { IfOk result (λ up. up.seen ≡ client.old.taken) }
    ensures done { IfOk result (λ up. client.new ≡ with_operation client.old up.intent) }
    ensures represents { (sites : ℕ) (H G : List Entry) → IsValidHistory client.old.size sites H → ClientRepresents client.old H G → IsPrefixOf (own_entries client.old.site H) G →
        IfOk result (λ up. ClientRepresents client.new H (G ++ own_entry client.old up.intent ∷ [])) }
    ensures cause { IfErr result (λ e. e ≢ EditErr.Memory → Decides client.old edit.now (Err e)) }
    ensures err { OnErr result (client.new ≡ client.old) }
{
    // A client has issued 1,000 operations at most.
    let _issued = client.issued();
    let keys = keys(alloc, client.sheet(), edit)?;
    let intent = denoted(alloc, client.sheet(), edit, &keys)?;
    client.edit(intent)
}
