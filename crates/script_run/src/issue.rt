ghost use Rattle.std.specs.Prelude.{◌≡◌, ◌≢◌, ◌≤◌, ◌++◌, ◌↔◌, ◌⊎◌, ℕ, List, [], ◌∷◌, Err, IfErr, IsErrOf, OnOk, OnErr};
ghost use Rattle.ss_base.specs.Lists.{IsPrefixOf};
ghost use Rattle.sheet_ops.specs.declared.operation.Entry.{Entry};
ghost use Rattle.sheet_ops.specs.History.{own_entries, IsValidHistory};
ghost use Rattle.sheet_ops.specs.Represents.{ClientRepresents};
ghost use Rattle.sheet_ops.specs.Fits.{IntentFits};
ghost use Rattle.sheet_ops.specs.Placed.{placed_size};
ghost use Rattle.jup_client.specs.Clients.{own_entry};
ghost use Rattle.script_read.specs.Commands.{EditWithin};
ghost use Rattle.client_edits.specs.Decided.{Decides};
ghost use Rattle.script_run.specs.Issues.{Issues};

use crate::seat::Seat;
use author_ops::denoted;
use jup_client::Client;
use sheet_ops::{Edit, EditErr, Entry, Intent};
use sort_keys::keys;
use ss_base::Site;
use std::alloc::Global;

/// Does an own operation at the client of a site. A refused call leaves the client.
fn done(client: &mut Client, intent: Intent) -> Result<(), EditErr>
    requires { IntentFits (placed_size client.old.sheet) intent }
    ensures spent { IsErrOf result EditErr.Spent ↔ (client.old.issued ≡ 1000) }
    ensures causes { IfErr result (λ x. (x ≡ EditErr.Spent) ⊎ (x ≡ EditErr.Memory)) }
    ensures counts { OnOk result ((client.new.site ≡ client.old.site) × (client.new.size ≡ client.old.size) × (client.new.taken ≡ client.old.taken)) }
    ensures represents { (sites : ℕ) (H G : List Entry) → IsValidHistory client.old.size sites H → ClientRepresents client.old H G → IsPrefixOf (own_entries client.old.site H) G →
        OnOk result (ClientRepresents client.new H (G ++ own_entry client.old intent ∷ [])) }
    ensures err { OnErr result (client.new ≡ client.old) }
{
    client.edit(intent)?;
    Ok(())
}

/// Does an edit of a site at once. A refused edit leaves its seat and its client.
pub fn issue(
    alloc: Global,
    site: Site,
    seat: &mut Seat,
    client: &mut Client,
    edit: &Edit,
) -> Result<(), EditErr>
    requires entry { EditWithin 4096 edit.now }
    requires few { client.old.issued ≤ 1000 }
    ensures ok { OnOk result (Issues site edit.now seat.old seat.new client.old client.new) }
    ensures represents { (sites : ℕ) (H : List Entry) → site.0 ≡ client.old.site → seat.old.taken ≡ client.old.taken →
        IsValidHistory client.old.size sites H → ClientRepresents client.old H seat.old.made → IsPrefixOf (own_entries client.old.site H) seat.old.made →
        OnOk result (ClientRepresents client.new H seat.new.made) }
    ensures err { OnErr result ((seat.new ≡ seat.old) × (client.new ≡ client.old)) }
    ensures cause { IfErr result (λ e. e ≢ EditErr.Memory → Decides client.old edit.now (Err e)) }
{
    let keys = keys(alloc, client.sheet(), edit)?;
    let intent = denoted(alloc, client.sheet(), edit, &keys)?;
    let kept = intent.copy()?;
    seat.made.push(Entry {
        site,
        seen: seat.taken,
        intent: kept,
    })?;
    match done(client, intent) {
        Ok(()) => Ok(()),
        Err(err) => {
            let _ = seat.made.pop();
            Err(err)
        }
    }
}
