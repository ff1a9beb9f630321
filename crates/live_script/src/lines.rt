ghost use Rattle.std.specs.Prelude.{◌≡◌, ◌<◌, ℕ, List, Some, None, true, false, map, length, OnOk, MatchOption, get_or};
ghost use Rattle.std.specs.List.{All};
ghost use Rattle.std.specs.Str.{bytes_eq};
ghost use Rattle.live_script.specs.declared.script.SiteScript.{SiteScript};
ghost use Rattle.live_script.specs.declared.script.Action.{Action};
ghost use Rattle.live_script.specs.declared.script.Action.TheVariants as action;
ghost use Rattle.live_script.specs.declared.lines.ForAll.TheVariants as for_all;
ghost use Rattle.live_script.specs.Scripts.{only_for};
ghost use Rattle.live_script.specs.SoFar.{NamesDiffer, with_action, with_line};
ghost use Rattle.live_script.specs.SoFar.{action_for_all};

use crate::script::{Action, SiteLine, SiteScript};
use script_read::Command;
use ss_base::{Memory, Txt};

/// A command that is for every site.
#[derive(Clone, Copy, Debug)]
enum ForAll {
    Push,
    Pull,
}

/// Adds the line of a command to the sites that it is for: to the one that it names, or to all. After a
/// refused call some may have it.
pub fn add_lines(sites: &mut Vec<SiteScript>, number: u32, command: Command) -> Result<(), Memory>
    ensures { NamesDiffer (map (λ (s : SiteScript). s.name) sites.old.items) → OnOk result (sites.new.items ≡ map (with_line number command) sites.old.items) }
{
    match command {
        Command::Edit(name, edit) => add_line(sites, number, name.bytes(), Action::Edit(edit)),
        Command::Push(name, count) => add_line(sites, number, name.bytes(), Action::Push(count)),
        Command::Pull(name, count) => add_line(sites, number, name.bytes(), Action::Pull(count)),
        Command::Sync(name) => add_line(sites, number, name.bytes(), Action::Sync),
        Command::Read(name, range) => add_line(sites, number, name.bytes(), Action::Read(range)),
        Command::PushAll => add_each(sites, number, ForAll::Push),
        Command::PullAll => add_each(sites, number, ForAll::Pull),
        Command::Note
        | Command::Sheet(_)
        | Command::Site(_)
        | Command::Recalc(_)
        | Command::Values
        | Command::History
        | Command::Wire
        | Command::Show(_)
        | Command::ShowServer
        | Command::End => Ok(()),
    }
}

/// Adds a line to the site of a name, if there is one.
fn add_line(
    sites: &mut Vec<SiteScript>,
    number: u32,
    name: &[u8],
    action: Action,
) -> Result<(), Memory>
    ensures { NamesDiffer (map (λ (s : SiteScript). s.name) sites.old.items) → OnOk result (sites.new.items ≡ map (with_action number (λ site. only_for site name.now action)) sites.old.items) }
{
    match place_of(sites.as_slice(), name) {
        Some(place) => sites[place].lines.push(SiteLine { number, action }),
        None => Ok(()),
    }
}

/// Where the site of a name stands, counted from 0.
fn place_of(sites: &[SiteScript], name: &[u8]) -> Option<usize>
    ensures { MatchOption result (All (λ (s : SiteScript). bytes_eq s.name name.now ≡ false) sites.now)
        (λ p. (p < length sites.now) × ((d : SiteScript) → bytes_eq (get_or sites.now p d).name name.now ≡ true)) }
{
    sites.iter().position(|site| site.name.bytes() == name)
}

/// Adds a line to each site.
fn add_each(sites: &mut Vec<SiteScript>, number: u32, what: ForAll) -> Result<(), Memory>
    ensures { OnOk result (sites.new.items ≡ map (with_action number (λ (site : List ℕ). Some (action_for_all what))) sites.old.items) }
{
    for site in sites.iter_mut() {
        site.lines.push(SiteLine {
            number,
            action: action_of(what),
        })?;
    }
    Ok(())
}

fn action_of(what: ForAll) -> Action
    ensures { result ≡ action_for_all what }
{
    match what {
        ForAll::Push => Action::Push(None),
        ForAll::Pull => Action::Pull(None),
    }
}
