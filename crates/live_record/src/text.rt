ghost use Rattle.std.specs.Prelude.{◌≡◌, ◌++◌, ℕ, suc, All, List, length, slice_get, Some, IfOk, OnOk};
ghost use Rattle.std.specs.List.{flat_map};
ghost use Rattle.ss_base.specs.declared.types.Size.{Size};
ghost use Rattle.sheet_ops.specs.declared.operation.Entry.{Entry};
ghost use Rattle.sheet_ops.specs.History.{sheet_of};
ghost use Rattle.sheet_ops.specs.Represents.{ClientState, ServerRepresents};
ghost use Rattle.sheet_text.specs.Operations.{history_text, IntentWithin};
ghost use Rattle.sheet_text.specs.Shown.{shown, shown_placed};
ghost use Rattle.sheet_text.specs.Texts.{head_text, server_head_text, sheet_text};
ghost use Rattle.full_calc.specs.Values.{value_table};
ghost use Rattle.sheet_text.specs.Values.{all_text};
ghost use Rattle.live_record.specs.Records.{live_text, log_text, logs_text, names_of, replica_text, AllHaveAll, HasTakenAll};

use full_calc::evaluated;
use jup_client::Client;
use jup_server::Server;
use live_script::{LiveScript, SiteScript};
use sheet_ops::Entry;
use sheet_text::{all_text, head, history_lines, server_head, sheet_lines};
use ss_base::{Memory, Txt};
use std::alloc::Global;

/// The text of a record, by its script, the log of each site, the client of each site, the server and
/// the history: the logs, the sheet on each replica and on the server, its values, and the history. It
/// is that text where the server stands for the history and each client has taken all of it. No
/// position is above 16,000, as in every history of a server. It takes the time of a full evaluation
/// and that of the text.
pub fn live_text(
    alloc: Global,
    script: &LiveScript,
    logs: &[Txt],
    clients: &[Client],
    server: &Server,
    history: &[Entry],
) -> Result<Txt, Memory>
    requires logs { length logs.now ≡ length script.now.sites }
    requires clients { length clients.now ≡ length script.now.sites }
    requires entries { All (λ e. IntentWithin 16000 e.intent) history.now }
    ensures { AllHaveAll script.now.size history.now server.now clients.now → IfOk result (λ t. t ≡ live_text script.now history.now logs.now) }
{
    let sites = script.sites.as_slice();
    let mut out = Vec::new(alloc);
    push_logs(&mut out, sites, logs)?;
    push_replicas(alloc, &mut out, sites, clients)?;
    push_text(&mut out, &server_lines(alloc, server)?)?;
    push_text(&mut out, &values_lines(alloc, server)?)?;
    push_text(&mut out, &entries_lines(alloc, sites, history)?)?;
    Ok(Txt::from_vec(out))
}

/// Appends a text.
fn push_text(out: &mut Vec<u8>, text: &Txt) -> Result<(), Memory>
    ensures { OnOk result (out.new.items ≡ out.old.items ++ text.now) }
{
    out.extend_from_slice(text.bytes())?;
    Ok(())
}

/// Appends for each site `log NAME`, and below it its log.
fn push_logs(out: &mut Vec<u8>, sites: &[SiteScript], logs: &[Txt]) -> Result<(), Memory>
    requires { length logs.now ≡ length sites.now }
    ensures { OnOk result (out.new.items ≡ out.old.items ++ logs_text sites.now logs.now) }
{
    for (k, site) in sites.iter().enumerate() {
        push_log(out, &site.name, &logs[k])?;
    }
    Ok(())
}

/// Appends the log of one site, by its name.
fn push_log(out: &mut Vec<u8>, name: &Txt, log: &Txt) -> Result<(), Memory>
    ensures { OnOk result (out.new.items ≡ out.old.items ++ log_text name.now log.now) }
{
    out.extend_from_slice(b"log ")?;
    out.extend_from_slice(name.bytes())?;
    out.push(b'\n')?;
    out.extend_from_slice(log.bytes())?;
    Ok(())
}

/// Appends the sheet of each site's client.
fn push_replicas(
    alloc: Global,
    out: &mut Vec<u8>,
    sites: &[SiteScript],
    clients: &[Client],
) -> Result<(), Memory>
    requires { length clients.now ≡ length sites.now }
    ensures { (size : Size) (H : List Entry) → ((k : ℕ) (c : ClientState) → slice_get clients.now k ≡ Some c → HasTakenAll size H (suc k) c) →
        OnOk result (out.new.items ≡ out.old.items ++ flat_map (replica_text (sheet_of size H) (length H)) sites.now) }
{
    for (k, site) in sites.iter().enumerate() {
        let text = replica_lines(alloc, &site.name, &clients[k])?;
        push_text(out, &text)?;
    }
    Ok(())
}

/// The text of a client's sheet, by the name of its site.
fn replica_lines(alloc: Global, name: &Txt, client: &Client) -> Result<Txt, Memory>
    ensures { IfOk result (λ t. t ≡ sheet_text (head_text name.now client.now.taken (length client.now.pending) (shown_placed client.now.sheet)) (shown_placed client.now.sheet)) }
{
    let head = head(
        alloc,
        name,
        client.taken(),
        client.pending(),
        client.sheet(),
    )?;
    sheet_lines(alloc, &head, client.sheet())
}

/// The text of the server's sheet.
fn server_lines(alloc: Global, server: &Server) -> Result<Txt, Memory>
    ensures { (H : List Entry) → ServerRepresents server.now H →
        IfOk result (λ t. let S = shown (sheet_of server.now.size H) in t ≡ sheet_text (server_head_text (length H) S) S) }
{
    let head = server_head(alloc, server.count(), server.sheet())?;
    sheet_lines(alloc, &head, server.sheet())
}

/// The text of the values of the server's sheet, evaluated in full.
fn values_lines(alloc: Global, server: &Server) -> Result<Txt, Memory>
    ensures { (H : List Entry) → ServerRepresents server.now H →
        IfOk result (λ t. t ≡ all_text (length H) (value_table (sheet_of server.now.size H))) }
{
    let values = evaluated(alloc, server.sheet())?;
    all_text(alloc, server.count(), &values)
}

/// The text of a history, by its sites.
fn entries_lines(alloc: Global, sites: &[SiteScript], history: &[Entry]) -> Result<Txt, Memory>
    requires { All (λ e. IntentWithin 16000 e.intent) history.now }
    ensures { IfOk result (λ t. t ≡ history_text (names_of sites.now) history.now) }
{
    let names = names_of(alloc, sites)?;
    history_lines(alloc, names.as_slice(), history)
}

/// The names of sites, in their order.
fn names_of(alloc: Global, sites: &[SiteScript]) -> Result<Vec<Txt>, Memory>
    ensures { IfOk result (λ v. v.items ≡ names_of sites.now) }
{
    let mut names = Vec::new(alloc);
    for site in sites {
        names.push(site.name.copy()?)?;
    }
    Ok(names)
}
