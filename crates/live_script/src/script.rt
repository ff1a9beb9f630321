use script_read::ScriptErr;
use sheet_ops::Edit;
use ss_base::{Memory, Seq, Size, Span, Txt};
use thiserror::Error;

/// What a line has one site do.
#[derive(Debug, Drop)]
pub enum Action {
    Edit(Edit),
    /// Pushes own entries, all or at most so many.
    Push(Option<u32>),
    /// Takes entries of the history, all or at most so many.
    Pull(Option<u32>),
    /// Pushes all, and waits for values that reach as far.
    Sync,
    /// Reads the published values of a range.
    Read(Span),
}

/// A line of one site: its number in the script, counted from 1, and what it has the site do.
#[derive(Debug, Drop)]
pub struct SiteLine {
    pub number: u32,
    pub action: Action,
}

/// A site, with its lines in order: those that name it, and those that are for every site.
#[derive(Debug, Drop)]
pub struct SiteScript {
    pub name: Txt,
    pub lines: Seq<SiteLine>,
}

/// A script for running threads: the size of the opening sheet, and the sites in the order of their
/// declaration.
#[derive(Debug, Drop)]
pub struct LiveScript {
    pub size: Size,
    pub sites: Seq<SiteScript>,
}

/// Why a script was not read to its end.
#[derive(Clone, Copy, Debug, PartialEq, Eq, Error)]
pub enum LiveStop {
    /// A line was refused, or the input ended before the line `end`.
    #[error("{0}")]
    Script(ScriptErr),
    /// The line with this number is too long.
    #[error("line {0}: too long")]
    TooLong(u32),
    #[error("read fault")]
    ReadFault,
    #[error("no memory")]
    Memory,
}
