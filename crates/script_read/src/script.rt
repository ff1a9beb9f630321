use thiserror::Error;

/// Why a script stops at a line. Of the kinds that fit a line the first one is told.
#[derive(Clone, Copy, Debug, PartialEq, Eq, Error)]
pub enum ScriptKind {
    /// The line is none of the forms, or the size of its sheet is out of bounds.
    #[error("no line of a script")]
    Grammar,
    /// No `sheet` line stands before the line, which is neither a note nor one itself; or it is a second one.
    #[error("the sheet line is not the first")]
    Sheet,
    /// The line declares a site a second time, a ninth site, or a site behind a line that is neither a note,
    /// `sheet` nor `site`; or it names a site that isn't declared.
    #[error("no such site, or no more sites")]
    Site,
    /// The line asks for what a script of running threads doesn't have.
    #[error("not in a live script")]
    NotLive,
    /// The input ended before the line `end`.
    #[error("no end")]
    Unended,
}

/// Where a script stops, by the number of the line, counted from 1, and why.
#[derive(Clone, Copy, Debug, PartialEq, Eq, Error)]
#[error("line {line}: {kind}")]
pub struct ScriptErr {
    pub line: u32,
    pub kind: ScriptKind,
}
