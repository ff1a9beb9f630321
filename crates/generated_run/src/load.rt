ghost use Rattle.std.specs.Prelude.{◌≡◌, ◌≢◌, ◌<◌, ◌≤◌, ◌+◌, ◌^◌, IfOk, OnOk};
ghost use Rattle.script_read.specs.Commands.{EditWithin};
ghost use Rattle.script_read.specs.declared.command.Command.TheVariants as command;
ghost use Rattle.script_run.specs.World.{after_command};
ghost use Rattle.script_run.specs.Rooms.{RoomRepresents};
ghost use Rattle.generated_run.specs.Generator.{after_draws, draws_from};
ghost use Rattle.generated_run.specs.Turns.{site_name, delivery, turn_commands, turns, closing};
ghost use Rattle.generated_run.specs.Runs.{after_commands, generated_world, refused_by, refused_among, generated_refusals, opened_with, HasSites};

use crate::draws::Generator;
use crate::edits::edit_of;
use script_run::{Room, Run};
use sheet_ops::{Edit, EditErr};
use ss_base::{Memory, Size, Txt};
use std::alloc::Global;

/// The sheet of a generated run.
const SIZE: Size = Size { rows: 40, cols: 8 };

const SITES: u32 = 8;

const TURNS: u32 = 3200;

/// A generated run under way.
#[derive(Debug, Drop)]
pub struct Load {
    pub run: Run,
    generator: Generator,
    /// How many edits were refused.
    pub refused: u32,
}

impl Load {
    /// The whole run of a number, up to its last publishing.
    pub fn new(alloc: Global, number: u64) -> Result<Load, Memory>
        ensures run { IfOk result (λ l. l.run ≡ generated_world number) }
        ensures refused { IfOk result (λ l. l.refused ≡ generated_refusals number) }
    {
        let run = opened(alloc)?;
        let mut load = Load {
            run,
            generator: Generator { number },
            refused: 0,
        };
        load.turns(alloc)?;
        load.close()?;
        Ok(load)
    }

    /// The server and the clients, as the run leaves them. It takes no memory.
    pub fn into_room(self) -> Room
        ensures { RoomRepresents self.run result }
    {
        self.run.into_room()
    }

    /// All turns, one site after the other.
    fn turns(&mut self, alloc: Global) -> Result<(), Memory>
        requires sites { HasSites self.old.run }
        requires first { self.old.refused ≡ 0 }
        ensures run { OnOk result (self.new.run ≡ after_commands self.old.run (turns self.old.generator.number 3200)) }
        ensures refused { OnOk result (self.new.refused ≡ refused_among self.old.run (turns self.old.generator.number 3200)) }
    {
        for turn in 0..TURNS {
            self.turn(alloc, turn % SITES)?;
        }
        Ok(())
    }

    /// A turn of the site at a place: its edit, and what follows.
    fn turn(&mut self, alloc: Global, place: u32) -> Result<(), Memory>
        requires place { place < 8 }
        requires sites { HasSites self.old.run }
        requires few { self.old.refused < 2 ^ 31 }
        ensures run { OnOk result (self.new.run ≡ after_commands self.old.run (turn_commands (site_name place) (draws_from self.old.generator.number))) }
        ensures refused { OnOk result (self.new.refused ≡ self.old.refused + refused_among self.old.run (turn_commands (site_name place) (draws_from self.old.generator.number))) }
        ensures few { self.new.refused ≤ self.old.refused + 1 }
        ensures number { self.new.generator.number ≡ after_draws 7 self.old.generator.number }
    {
        let draws = self.generator.draws();
        let edit = edit_of(alloc, &draws)?;
        self.edit(alloc, place, &edit)?;
        self.deliver(place, draws.delivery)
    }

    /// Does an edit of a site, and counts it if it is refused.
    fn edit(&mut self, alloc: Global, place: u32, edit: &Edit) -> Result<(), Memory>
        requires place { place < 8 }
        requires sites { HasSites self.old.run }
        requires short { EditWithin 4096 edit.now }
        requires few { self.old.refused < 2 ^ 31 }
        ensures run { OnOk result (self.new.run ≡ after_command self.old.run (command.Edit (site_name place) edit.now)) }
        ensures refused { OnOk result (self.new.refused ≡ self.old.refused + refused_by self.old.run (command.Edit (site_name place) edit.now)) }
        ensures few { self.new.refused ≤ self.old.refused + 1 }
        ensures generator { self.new.generator ≡ self.old.generator }
    {
        match self.run.edit(alloc, place as usize, edit) {
            Ok(()) => Ok(()),
            Err(cause) => self.count(cause),
        }
    }

    /// Counts a refused edit, unless it was refused for want of memory.
    fn count(&mut self, cause: EditErr) -> Result<(), Memory>
        requires few { self.old.refused < 2 ^ 31 }
        ensures cause { OnOk result (cause ≢ EditErr.Memory) }
        ensures refused { OnOk result (self.new.refused ≡ self.old.refused + 1) }
        ensures few { self.new.refused ≤ self.old.refused + 1 }
        ensures run { self.new.run ≡ self.old.run }
        ensures generator { self.new.generator ≡ self.old.generator }
    {
        match cause {
            EditErr::Memory => Err(Memory),
            _ => {
                self.refused += 1;
                Ok(())
            }
        }
    }

    /// What follows an edit: the site pushes or pulls, all is published, or nothing is done.
    fn deliver(&mut self, place: u32, choice: u32) -> Result<(), Memory>
        requires place { place < 8 }
        requires sites { HasSites self.old.run }
        ensures run { OnOk result (self.new.run ≡ after_commands self.old.run (delivery choice (site_name place))) }
        ensures refused { self.new.refused ≡ self.old.refused }
        ensures generator { self.new.generator ≡ self.old.generator }
    {
        let place = place as usize;
        match choice {
            0 => self.run.push(place, None),
            1 => self.run.pull(place, None),
            2 => self.run.recalc(None),
            _ => Ok(()),
        }
    }

    /// All sites push, all pull, and all of the history is published.
    fn close(&mut self) -> Result<(), Memory>
        ensures run { OnOk result (self.new.run ≡ after_commands self.old.run closing) }
        ensures refused { self.new.refused ≡ self.old.refused }
    {
        self.run.push_all()?;
        self.run.pull_all()?;
        self.run.recalc(None)
    }
}

/// The opening sheet and its sites.
fn opened(alloc: Global) -> Result<Run, Memory>
    ensures { IfOk result (λ r. r ≡ opened_with 8) }
{
    let mut run = Run::open(alloc, SIZE)?;
    for place in 0..SITES {
        let name = site_name(alloc, place)?;
        run.add_site(alloc, &name)?;
    }
    Ok(run)
}

/// The name of the site at a place.
fn site_name(alloc: Global, place: u32) -> Result<Txt, Memory>
    requires { place < 8 }
    ensures { IfOk result (λ t. t ≡ site_name place) }
{
    let text = format!(in alloc; "s{}", place + 1)?;
    Ok(Txt::from_vec(text.into_bytes()))
}
