ghost use Rattle.std.specs.Prelude.{◌≡◌, ◌≤◌, ◌<◌, ◌+◌, ◌++◌, ◌^◌, ℕ, suc, List, [], ◌∷◌, length, take, slice_get, Some, IfOk, OnOk, OnErr, MatchResult};
ghost use Rattle.ss_base.specs.Lists.{IsPrefixOf};
ghost use Rattle.sheet_ops.specs.declared.operation.Entry.{Entry};
ghost use Rattle.sheet_ops.specs.History.{own_entries};
ghost use Rattle.sheet_ops.specs.Represents.{ClientRepresents, ServerRepresents, is_own};
ghost use Rattle.sheet_ops.specs.Published.{effect_at};
ghost use Rattle.jup_client.specs.Clients.{down_at, IsTaken};
ghost use Rattle.jup_client.specs.declared.client.TakeErr.TheVariants as take_fault;
ghost use Rattle.jup_server.specs.declared.SubmitErr.TheVariants as submit_fault;
ghost use Rattle.script_run.specs.Deliveries.{MaySubmit, MayPull};

use crate::seat::Seat;
use jup_client::{Client, TakeErr};
use jup_server::{Server, SubmitErr};
use sheet_ops::{Effect, Entry, Up};
use ss_base::{Memory, Site};

/// Hands the first own entry of a site that the history lacks to the server, and gives the entry and its
/// effect. A refused call leaves the server.
pub fn hand_in(server: &mut Server, site: Site, seat: &Seat) -> Result<(Entry, Effect), Memory>
    requires { MaySubmit server.old site.0 seat.now }
    ensures next { IfOk result (λ r. slice_get seat.now.made seat.now.pushed ≡ Some r.0) }
    ensures represents { (H : List Entry) → ServerRepresents server.old H → IfOk result (λ r. ServerRepresents server.new (H ++ r.0 ∷ [])) }
    ensures effect { (H : List Entry) → ServerRepresents server.old H → IfOk result (λ r. r.1 ≡ effect_at server.old.size (H ++ r.0 ∷ []) (length H)) }
    ensures counts { OnOk result ((server.new.size ≡ server.old.size) × (server.new.sites ≡ server.old.sites)) }
    ensures err { OnErr result (server.new ≡ server.old) }
{
    match seat.made.get(seat.pushed as usize) {
        Some(entry) => {
            let intent = entry.intent.copy()?;
            let up = Up {
                seen: entry.seen,
                intent,
            };
            match server.submit(site, &up) {
                Ok(effect) => {
                    let entry = Entry {
                        site,
                        seen: up.seen,
                        intent: up.intent,
                    };
                    Ok((entry, effect))
                }
                Err(err) => Err(unsubmitted(err)),
            }
        }
        None => unreachable!(),
    }
}

/// A server refuses the next entry of a site for want of memory alone.
fn unsubmitted(err: SubmitErr) -> Memory
    requires { err ≡ submit_fault.Memory }
{
    match err {
        SubmitErr::Memory => Memory,
        _ => unreachable!(),
    }
}

/// A client refuses the next entry of the history for want of memory alone.
fn untaken(err: TakeErr) -> Memory
    requires { err ≡ take_fault.Memory }
{
    match err {
        TakeErr::Memory => Memory,
        _ => unreachable!(),
    }
}

/// Whether the entry at a place of the history is a site's own.
fn is_own(history: &[Entry], site: Site, place: usize) -> bool
    requires { place < length history.now }
    ensures { result ≡ is_own history.now site.0 place }
{
    history[place].site == site
}

/// The client of a site takes what the next entry of the history is to it. A refused call leaves the
/// client.
fn take_next(
    client: &mut Client,
    site: Site,
    history: &[Entry],
    effects: &[Effect],
) -> Result<(), TakeErr>
    requires { MayPull client.old site.0 history.now effects.now }
    ensures represents { (G : List Entry) → ClientRepresents client.old history.now G → IsPrefixOf (own_entries site.0 history.now) G →
        MatchResult result (λ _. ClientRepresents client.new history.now G) (λ x. x ≡ take_fault.Memory) }
    ensures taken { OnOk result (IsTaken client.old (down_at client.old.size history.now site.0 client.old.taken) client.new) }
    ensures err { OnErr result (client.new ≡ client.old) }
{
    let place = client.taken() as usize;
    if is_own(history, site, place) {
        client.take_own()
    } else {
        client.take_other(&effects[place])
    }
}

/// Sends the client of a site what the next entry of the history is to it. A refused call leaves the
/// client.
pub fn deliver(
    client: &mut Client,
    site: Site,
    history: &[Entry],
    effects: &[Effect],
) -> Result<(), Memory>
    requires { MayPull client.old site.0 history.now effects.now }
    ensures represents { (G : List Entry) → ClientRepresents client.old history.now G → IsPrefixOf (own_entries site.0 history.now) G →
        OnOk result (ClientRepresents client.new history.now G) }
    ensures counts { OnOk result ((client.new.site ≡ client.old.site) × (client.new.size ≡ client.old.size) × (client.new.taken ≡ client.old.taken + 1)) }
    ensures err { OnErr result (client.new ≡ client.old) }
{
    match take_next(client, site, history, effects) {
        Ok(()) => Ok(()),
        Err(err) => Err(untaken(err)),
    }
}
