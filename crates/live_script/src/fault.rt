ghost use Rattle.std.specs.Prelude.{◌≡◌, ◌||◌, Bool, true, false, List, length, map, nat_lt};
ghost use Rattle.std.specs.List.{list_any};
ghost use Rattle.std.specs.Str.{bytes_eq};
ghost use Rattle.script_read.specs.declared.command.Command.TheVariants as command;
ghost use Rattle.script_read.specs.Script.{fault_of, is_declared, without_site};
ghost use Rattle.live_script.specs.declared.script.SiteScript.{SiteScript};
ghost use Rattle.live_script.specs.Scripts.{is_for_threads};
ghost use Rattle.live_script.specs.SoFar.{declared_by, live_fault, only_live};

use crate::script::SiteScript;
use script_read::{Command, ScriptKind};
use ss_base::Txt;

/// The first kind of fault that fits a command, if one does, by whether there is a sheet, by the sites
/// that are declared, and by whether none may follow.
pub fn fault_of(
    sheet: bool,
    sites: &[SiteScript],
    closed: bool,
    command: &Command,
) -> Option<ScriptKind>
    ensures { result ≡ live_fault (declared_by sheet sites.now closed) command.now }
{
    only_live(command, script_fault(sheet, sites, closed, command))
}

/// The fault of a command that isn't for running threads, where no other fits.
fn only_live(command: &Command, fault: Option<ScriptKind>) -> Option<ScriptKind>
    ensures { result ≡ only_live command.now fault }
{
    match fault {
        Some(kind) => Some(kind),
        None => not_live(command),
    }
}

fn not_live(command: &Command) -> Option<ScriptKind>
    ensures { result ≡ only_live command.now None }
{
    match command {
        Command::Recalc(_)
        | Command::Values
        | Command::History
        | Command::Wire
        | Command::Show(_)
        | Command::ShowServer => Some(ScriptKind::NotLive),
        _ => None,
    }
}

/// The fault that fits a command in any script.
fn script_fault(
    sheet: bool,
    sites: &[SiteScript],
    closed: bool,
    command: &Command,
) -> Option<ScriptKind>
    ensures { result ≡ fault_of (declared_by sheet sites.now closed) command.now }
{
    if sheet {
        fault_in(sites, closed, command)
    } else {
        fault_unopened(command)
    }
}

/// The fault of a command before the `sheet` line.
fn fault_unopened(command: &Command) -> Option<ScriptKind>
    ensures { (sites : List SiteScript) (closed : Bool) → result ≡ fault_of (declared_by false sites closed) command.now }
{
    match command {
        Command::Note | Command::Sheet(_) => None,
        _ => Some(ScriptKind::Sheet),
    }
}

/// The fault of a command behind the `sheet` line.
fn fault_in(sites: &[SiteScript], closed: bool, command: &Command) -> Option<ScriptKind>
    ensures { result ≡ fault_of (declared_by true sites.now closed) command.now }
{
    match command {
        Command::Sheet(_) => Some(ScriptKind::Sheet),
        Command::Site(name) => site_refused(sites, closed, name),
        Command::Edit(name, _)
        | Command::Push(name, _)
        | Command::Pull(name, _)
        | Command::Sync(name)
        | Command::Read(name, _)
        | Command::Show(name) => site_missing(sites, name),
        Command::Note
        | Command::PushAll
        | Command::PullAll
        | Command::Recalc(_)
        | Command::Values
        | Command::History
        | Command::Wire
        | Command::ShowServer
        | Command::End => None,
    }
}

fn is_declared(sites: &[SiteScript], name: &Txt) -> bool
    ensures { result ≡ list_any (bytes_eq name.now) (map (λ (s : SiteScript). s.name) sites.now) }
{
    has_name(sites, name.bytes())
}

fn has_name(sites: &[SiteScript], name: &[u8]) -> bool
    ensures { result ≡ list_any (λ s. bytes_eq name.now s.name) sites.now }
{
    sites.iter().any(|site| name == site.name.bytes())
}

/// The fault of a line that names a site.
fn site_missing(sites: &[SiteScript], name: &Txt) -> Option<ScriptKind>
    ensures { (closed : Bool) → result ≡ without_site (declared_by true sites.now closed) name.now }
{
    if is_declared(sites, name) {
        None
    } else {
        Some(ScriptKind::Site)
    }
}

/// The fault of a line that declares a site.
fn site_refused(sites: &[SiteScript], closed: bool, name: &Txt) -> Option<ScriptKind>
    ensures { result ≡ fault_of (declared_by true sites.now closed) (command.Site name.now) }
{
    if refuses_site(sites, closed, name) {
        Some(ScriptKind::Site)
    } else {
        None
    }
}

/// Whether no further site may have this name.
fn refuses_site(sites: &[SiteScript], closed: bool, name: &Txt) -> bool
    ensures { result ≡ (closed || (is_declared (declared_by true sites.now closed) name.now || nat_lt 7 (length sites.now))) }
{
    closed || has_no_place(sites, name)
}

/// Whether a name is declared already, or all sites are.
fn has_no_place(sites: &[SiteScript], name: &Txt) -> bool
    ensures { result ≡ (list_any (bytes_eq name.now) (map (λ (s : SiteScript). s.name) sites.now) || nat_lt 7 (length sites.now)) }
{
    is_declared(sites, name) || sites.len() > 7
}
