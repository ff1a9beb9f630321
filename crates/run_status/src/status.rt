ghost use Rattle.std.specs.Prelude.{◌≡◌, Some};
ghost use Rattle.run_status.specs.Exits.{exit_code, stop_text, status_text};

use script_read::{ScriptErr, ScriptKind};
use std::fmt;
use std::fmt::{Display, Formatter};

/// How a run ended. The program ends with the number of the status, counted from 0 in this order.
#[derive(Clone, Copy, Debug, PartialEq, Eq)]
pub enum Status {
    /// The script was read up to its line `end`, or the generated run was done, and all was written.
    Done,
    /// A line was refused, or the input ended before `end`.
    Script(ScriptErr),
    ReadFault,
    WriteFault,
    Memory,
    /// The words on the command line ask for nothing.
    Usage,
    /// The line with this number is too long.
    TooLong(u32),
}

impl Status {
    /// The number that the program ends with.
    pub fn code(self) -> u8
        ensures { result ≡ exit_code self }
    {
        match self {
            Status::Done => 0,
            Status::Script(_) => 1,
            Status::ReadFault => 2,
            Status::WriteFault => 3,
            Status::Memory => 4,
            Status::Usage => 5,
            Status::TooLong(_) => 6,
        }
    }
}

/// Why a script stopped, in one word or two.
fn cause(kind: ScriptKind) -> &'static str
    ensures { result.now ≡ stop_text kind }
{
    match kind {
        ScriptKind::Grammar => "grammar",
        ScriptKind::Sheet => "sheet",
        ScriptKind::Site => "site",
        ScriptKind::NotLive => "not live",
        ScriptKind::Unended => "unended",
    }
}

/// What the program says of a status on standard error, behind its name. Lines count from 1.
impl Display for Status {
    ghost output = { λ s. Some (status_text s) };

    fn fmt<W: fmt::Write>(&self, f: &mut Formatter<W>) -> fmt::Result {
        match *self {
            Status::Done => f.write_str("done"),
            Status::Script(err) => {
                let line = err.line;
                let cause = cause(err.kind);
                write!(f, "line {line}: {cause}")
            }
            Status::ReadFault => f.write_str("read fault"),
            Status::WriteFault => f.write_str("write fault"),
            Status::Memory => f.write_str("no memory"),
            Status::Usage => f.write_str("usage"),
            Status::TooLong(line) => write!(f, "line {line}: too long"),
        }
    }
}
