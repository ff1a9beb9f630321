ghost use Rattle.std.specs.Prelude.{◌≡◌, ◌≢◌, IfOk};
ghost use Rattle.sheet_ops.specs.declared.edit.EditErr.TheVariants as fault;
ghost use Rattle.sheet_grid.specs.Values.{placed_in};
ghost use Rattle.sheet_text.specs.Shown.{shown_placed};
ghost use Rattle.sheet_text.specs.Texts.{cause_text, head_text, refusal_text, server_head_text};

use sheet_grid::Sheet;
use sheet_ops::EditErr;
use ss_base::{Memory, Txt};
use std::alloc::Global;

/// The line above a replica's cells, without its line feed: the name of its site, how many entries
/// it has taken, how many of its own operations aren't acknowledged, and how many rows and columns
/// are visible.
pub fn head(
    alloc: Global,
    name: &Txt,
    taken: u32,
    pending: u32,
    sheet: &Sheet,
) -> Result<Txt, Memory>
    ensures { IfOk result (λ t. t ≡ head_text name.now taken pending (shown_placed (placed_in sheet.now))) }
{
    let seen = sheet.visible();
    let counts = format!(in alloc;
        " taken {taken} pending {pending} rows {} columns {}",
        seen.rows, seen.cols
    )?;
    let mut text = Vec::from_slice(alloc, b"sheet ")?;
    text.extend_from_slice(name.bytes())?;
    text.extend_from_slice(counts.as_bytes())?;
    Ok(Txt::from_vec(text))
}

/// The line above the server's cells, without its line feed: how many entries its history has, and
/// how many rows and columns are visible.
pub fn server_head(alloc: Global, length: u32, sheet: &Sheet) -> Result<Txt, Memory>
    ensures { IfOk result (λ t. t ≡ server_head_text length (shown_placed (placed_in sheet.now))) }
{
    let seen = sheet.visible();
    let text = format!(in alloc;
        "sheet server length {length} rows {} columns {}",
        seen.rows, seen.cols
    )?;
    Ok(Txt::from_vec(text.into_bytes()))
}

/// The line of a refused edit, by the number of its line in the script. Want of memory isn't
/// printed.
pub fn refusal(alloc: Global, line: u32, cause: EditErr) -> Result<Txt, Memory>
    requires { cause ≢ fault.Memory }
    ensures { IfOk result (λ t. t ≡ refusal_text line cause) }
{
    let words = words(alloc, cause)?;
    let front = format!(in alloc; "refused {line} ")?;
    let mut text = front.into_bytes();
    text.extend_from_slice(words.bytes())?;
    text.push(b'\n')?;
    Ok(Txt::from_vec(text))
}

/// Why an edit was refused.
fn words(alloc: Global, cause: EditErr) -> Result<Txt, Memory>
    requires { cause ≢ fault.Memory }
    ensures { IfOk result (λ t. t ≡ cause_text cause) }
{
    let words = match cause {
        EditErr::OutOfSheet => format!(in alloc; "outside")?,
        EditErr::CopyLarge(cells) => format!(in alloc; "copy {cells}")?,
        EditErr::SortLong(rows) => format!(in alloc; "sort {rows}")?,
        EditErr::BadFormula(front) => format!(in alloc; "at {front}")?,
        EditErr::Deep => format!(in alloc; "deep")?,
        EditErr::Heavy(weight) => format!(in alloc; "heavy {weight}")?,
        EditErr::Spent => format!(in alloc; "spent")?,
        EditErr::Memory => unreachable!(),
    };
    Ok(Txt::from_vec(words.into_bytes()))
}
