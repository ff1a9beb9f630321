/// What a note is of.
#[derive(Clone, Copy, Debug, PartialEq, Eq)]
pub enum NoteKind {
    /// A push: how long the history was that the site had seen behind it.
    Pushed,
    /// A pull: how many entries of the history the site had taken behind it.
    Taken,
    /// A read, a refused one too: how many entries the values that it saw stand for.
    Read,
    /// A push of all with values that reach as far: how many entries no later read is behind.
    Synced,
}

/// What a site noted of a line: the line's number in the script, counted from 1, and a length of the
/// history.
#[derive(Clone, Copy, Debug, PartialEq, Eq)]
pub struct Note {
    pub line: u32,
    pub kind: NoteKind,
    pub length: u32,
}
