ghost use Rattle.std.specs.Prelude.{◌≡◌, ◌++◌, IfOk, OnOk};
ghost use Rattle.script_run.specs.Rooms.{RoomRepresents};
ghost use Rattle.generated_run.specs.Runs.{generated_world};
ghost use Rattle.generated_run.specs.Summary.{IsSummary, load_line, history_line, sheet_line, values_line, equal_line, summary_text};

use crate::figures::{Figures, figures_of};
use crate::load::Load;
use crate::tally::Tally;
use script_run::Room;
use ss_base::{Memory, Size, Txt};
use std::alloc::Global;

/// What a generated run leaves: its summary, and the server and the clients.
#[derive(Debug, Drop)]
pub struct Loaded {
    pub summary: Txt,
    pub room: Room,
}

/// Does the generated run of a number, and gives its summary and its room. It takes the time of the
/// run, of a full evaluation, and of a look at each cell of each sheet.
pub fn load_summary(alloc: Global, number: u64) -> Result<Loaded, Memory>
    ensures summary { IfOk result (λ l. IsSummary number l.summary) }
    ensures room { IfOk result (λ l. RoomRepresents (generated_world number) l.room) }
{
    let load = Load::new(alloc, number)?;
    let figures = figures_of(alloc, &load.run, load.refused)?;
    let summary = summary_text(alloc, number, &figures)?;
    let room = load.into_room();
    Ok(Loaded { summary, room })
}

/// The text of a summary.
fn summary_text(alloc: Global, number: u64, figures: &Figures) -> Result<Txt, Memory>
    ensures { IfOk result (λ t. t ≡ summary_text number figures.now) }
{
    let mut text = Vec::new(alloc);
    push_load(alloc, &mut text, number)?;
    push_history(alloc, &mut text, figures)?;
    push_sheet(alloc, &mut text, figures)?;
    push_values(alloc, &mut text, figures)?;
    push_equal(alloc, &mut text, figures)?;
    Ok(Txt::from_vec(text))
}

fn push_load(alloc: Global, text: &mut Vec<u8>, number: u64) -> Result<(), Memory>
    ensures { OnOk result (text.new.items ≡ text.old.items ++ load_line number) }
{
    let line = format!(in alloc; "load {number}\n")?;
    text.extend_from_slice(line.as_bytes())?;
    Ok(())
}

fn push_history(alloc: Global, text: &mut Vec<u8>, figures: &Figures) -> Result<(), Memory>
    ensures { OnOk result (text.new.items ≡ text.old.items ++ history_line figures.now) }
{
    let Figures {
        history,
        refused,
        ..
    } = figures;
    let line = format!(in alloc; "history {history} refused {refused}\n")?;
    text.extend_from_slice(line.as_bytes())?;
    Ok(())
}

fn push_sheet(alloc: Global, text: &mut Vec<u8>, figures: &Figures) -> Result<(), Memory>
    ensures { OnOk result (text.new.items ≡ text.old.items ++ sheet_line figures.now) }
{
    let Size { rows, cols } = figures.size;
    let cells = figures.cells;
    let line = format!(in alloc; "sheet rows {rows} columns {cols} cells {cells}\n")?;
    text.extend_from_slice(line.as_bytes())?;
    Ok(())
}

fn push_values(alloc: Global, text: &mut Vec<u8>, figures: &Figures) -> Result<(), Memory>
    ensures { OnOk result (text.new.items ≡ text.old.items ++ values_line figures.now) }
{
    let at = figures.published;
    let Tally {
        numbers,
        texts,
        errors,
        circular,
        total,
    } = figures.tally;
    let line = format!(in alloc;
        "values at {at} numbers {numbers} texts {texts} errors {errors} circular {circular} total {total}\n"
    )?;
    text.extend_from_slice(line.as_bytes())?;
    Ok(())
}

fn push_equal(alloc: Global, text: &mut Vec<u8>, figures: &Figures) -> Result<(), Memory>
    ensures { OnOk result (text.new.items ≡ text.old.items ++ equal_line figures.now) }
{
    let line = format!(in alloc; "equal {}\n", figures.equal)?;
    text.extend_from_slice(line.as_bytes())?;
    Ok(())
}
