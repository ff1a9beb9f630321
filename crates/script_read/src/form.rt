ghost use Rattle.std.specs.Prelude.{◌≡◌, IfOk};
ghost use Rattle.script_read.specs.Forms.{command_said};

use crate::command::Command;
use sheet_ops::Edit;
use ss_base::{Memory, Size, Span, Spot, Txt};
use std::alloc::Global;

/// A command whose texts are still parts of the line.
#[derive(Clone, Copy, Debug)]
pub enum Form<'a> {
    Note,
    Sheet(Size),
    Site(&'a [u8]),
    Set(&'a [u8], Spot, &'a [u8]),
    Clear(&'a [u8], Spot),
    InsRow(&'a [u8], u32),
    InsCol(&'a [u8], u32),
    DelRow(&'a [u8], u32),
    DelCol(&'a [u8], u32),
    Copy(&'a [u8], Span, Spot),
    Sort(&'a [u8], (u32, u32), u32, bool),
    Push(&'a [u8], Option<u32>),
    Pull(&'a [u8], Option<u32>),
    PushAll,
    PullAll,
    Sync(&'a [u8]),
    Recalc(Option<u32>),
    Read(&'a [u8], Span),
    Values,
    History,
    Wire,
    Show(&'a [u8]),
    ShowServer,
    End,
}

/// The command, with texts of its own.
pub fn to_command(alloc: Global, form: Form<'_>) -> Result<Command, Memory>
    ensures { IfOk result (λ c. c ≡ command_said form.entry) }
{
    let command = match form {
        Form::Note => Command::Note,
        Form::Sheet(size) => Command::Sheet(size),
        Form::Site(name) => Command::Site(Txt::new(alloc, name)?),
        Form::Set(name, spot, entry) => {
            let name = Txt::new(alloc, name)?;
            Command::Edit(name, Edit::Set(spot, Txt::new(alloc, entry)?))
        }
        Form::Clear(name, spot) => Command::Edit(Txt::new(alloc, name)?, Edit::Clear(spot)),
        Form::InsRow(name, row) => Command::Edit(Txt::new(alloc, name)?, Edit::InsRow(row)),
        Form::InsCol(name, col) => Command::Edit(Txt::new(alloc, name)?, Edit::InsCol(col)),
        Form::DelRow(name, row) => Command::Edit(Txt::new(alloc, name)?, Edit::DelRow(row)),
        Form::DelCol(name, col) => Command::Edit(Txt::new(alloc, name)?, Edit::DelCol(col)),
        Form::Copy(name, from, to) => Command::Edit(Txt::new(alloc, name)?, Edit::Copy(from, to)),
        Form::Sort(name, (first, last), col, down) => Command::Edit(
            Txt::new(alloc, name)?,
            Edit::Sort(first, last, col, down),
        ),
        Form::Push(name, count) => Command::Push(Txt::new(alloc, name)?, count),
        Form::Pull(name, count) => Command::Pull(Txt::new(alloc, name)?, count),
        Form::PushAll => Command::PushAll,
        Form::PullAll => Command::PullAll,
        Form::Sync(name) => Command::Sync(Txt::new(alloc, name)?),
        Form::Recalc(count) => Command::Recalc(count),
        Form::Read(name, range) => Command::Read(Txt::new(alloc, name)?, range),
        Form::Values => Command::Values,
        Form::History => Command::History,
        Form::Wire => Command::Wire,
        Form::Show(name) => Command::Show(Txt::new(alloc, name)?),
        Form::ShowServer => Command::ShowServer,
        Form::End => Command::End,
    };
    Ok(command)
}
