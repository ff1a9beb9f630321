ghost use Rattle.std.specs.Prelude.{◌≡◌, ◌+◌, ◌<◌, length, min, IfOk, IfErr, OnOk, OnErr};
ghost use Rattle.sheet_ops.specs.History.{IsValidHistory};
ghost use Rattle.sheet_ops.specs.Represents.{ClientState};
ghost use Rattle.jup_server.specs.declared.SubmitErr.TheVariants as fault;
ghost use Rattle.live_session.specs.Pushing.{Pushes, PushesFirst, MayPushFirst, StandsIn};
ghost use Rattle.live_session.specs.Sessions.{entries_by};

use hub::Hub;
use jup_server::SubmitErr;
use sheet_ops::Up;
use ss_base::{Memory, Site};
use std::collections::VecDeque;

/// Puts the first message that waits behind the history. A refused call leaves both.
fn push_first(hub: &mut Hub, site: Site, unpushed: &mut VecDeque<Up>) -> Result<(), SubmitErr>
    requires { 0 < length unpushed.old.items }
    ensures ok { OnOk result (PushesFirst site hub.old hub.new unpushed.old.items unpushed.new.items) }
    ensures valid { OnOk result (IsValidHistory hub.new.size hub.new.sites hub.new.entries) }
    ensures may { MayPushFirst site hub.old unpushed.old.items → IfErr result (λ x. x ≡ fault.Memory) }
    ensures err { OnErr result ((hub.new ≡ hub.old) × (unpushed.new.items ≡ unpushed.old.items)) }
{
    let Some(up) = unpushed.pop_front() else {
        unreachable!()
    };
    let pushed = hub.push(site, &up);
    if pushed.is_err() {
        unpushed.push_front_reserved(up);
    }
    pushed
}

/// A server refuses the next message of a site for want of memory alone.
fn unsubmitted(err: SubmitErr) -> Memory
    requires { err ≡ fault.Memory }
{
    match err {
        SubmitErr::Memory => Memory,
        _ => unreachable!(),
    }
}

/// Puts messages that wait behind the history, at most so many, in their order. After want of memory
/// those stand there that the hub took.
pub(crate) fn push_waiting(
    hub: &mut Hub,
    site: Site,
    unpushed: &mut VecDeque<Up>,
    most: u32,
) -> Result<u32, Memory>
    requires { (c : ClientState) × StandsIn hub.old c site.0 (entries_by site unpushed.old.items) }
    ensures pushes { Pushes site hub.old hub.new unpushed.old.items unpushed.new.items }
    ensures count { IfOk result (λ n. length unpushed.old.items ≡ n + length unpushed.new.items) }
    ensures all { IfOk result (λ n. n ≡ min most (length unpushed.old.items)) }
    ensures stands { (c : ClientState) → StandsIn hub.old c site.0 (entries_by site unpushed.old.items) → StandsIn hub.new c site.0 (entries_by site unpushed.new.items) }
{
    let mut count = 0;
    while count < most && unpushed.len() > 0 {
        match push_first(hub, site, unpushed) {
            Ok(()) => count += 1,
            Err(err) => return Err(unsubmitted(err)),
        }
    }
    Ok(count)
}
