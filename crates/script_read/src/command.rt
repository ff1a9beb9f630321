ghost use Rattle.std.specs.Prelude.{◌≡◌};
ghost use Rattle.script_read.specs.declared.command.LineFault.TheVariants as line_fault;

use sheet_ops::Edit;
use ss_base::{Memory, Size, Span, Txt};
use thiserror::Error;

/// What a line of a script asks for. Sites go by their names.
#[derive(Debug, Drop)]
pub enum Command {
    /// A line for its readers alone: an empty one, or one that begins with `#`.
    Note,
    /// `sheet COUNT COUNT`: opens the sheet, with this many rows and columns.
    Sheet(Size),
    /// `site NAME`: declares a site.
    Site(Txt),
    /// An edit of the site. `NAME set CELL ENTRY` enters a text into a cell, `NAME clear CELL` empties one,
    /// `NAME insrow COUNT` and `NAME inscol LETTERS` insert a line before a visible one,
    /// `NAME delrow COUNT` and `NAME delcol LETTERS` delete a visible line, `NAME copy RANGE CELL` copies
    /// cells to where the first one goes to that cell, and `NAME sort COUNT:COUNT LETTERS up`, or `down`,
    /// sorts rows by a column.
    Edit(Txt, Edit),
    /// `NAME push` or `NAME push COUNT`: the site's operations go to the server, all or at most so many.
    Push(Txt, Option<u32>),
    /// `NAME pull` or `NAME pull COUNT`: the server's operations come to the site, all or at most so many.
    Pull(Txt, Option<u32>),
    /// `push all`: every site pushes, in the order of declaration.
    PushAll,
    /// `pull all`: every site pulls, in the order of declaration.
    PullAll,
    /// `NAME sync`: the site pushes all, and then all of the history is published.
    Sync(Txt),
    /// `recalc` or `recalc COUNT`: the rest of the history is published, all of it or at most so many
    /// entries.
    Recalc(Option<u32>),
    /// `NAME read RANGE`: prints the published values of a range to the site.
    Read(Txt, Span),
    /// `values`: prints all published values.
    Values,
    /// `history`: prints the entries of the history, each as its author issued it.
    History,
    /// `wire`: prints the effects of the history's entries, each as the server applied it.
    Wire,
    /// `show NAME`: prints the site's sheet.
    Show(Txt),
    /// `show server`: prints the server's sheet.
    ShowServer,
    /// `end`: ends the script.
    End,
}

/// Why a line was not read.
#[derive(Clone, Copy, Debug, PartialEq, Eq, Error)]
pub enum LineFault {
    /// The line is none of the forms.
    #[error("no line of a script")]
    Grammar,
    #[error("no memory")]
    Memory,
}

impl From<Memory> for LineFault {
    ghost from_gives = { λ _ fault. fault ≡ line_fault.Memory };

    fn from(_: Memory) -> LineFault {
        LineFault::Memory
    }
}
