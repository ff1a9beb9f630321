ghost use Rattle.std.specs.Prelude.{◌≡◌, ◌∷◌, [], ◌++◌, ℕ, List, None, OnOk};
ghost use Rattle.script_read.specs.declared.command.Command.{Command};
ghost use Rattle.script_read.specs.Commands.{CommandWithin};
ghost use Rattle.live_script.specs.SoFar.{nothing_so_far, live_fault, CommandAddressed, IsSoFar, AddsSite};

use crate::fault::fault_of;
use crate::lines::add_lines;
use crate::script::{LiveScript, SiteScript};
use script_read::{Command, ScriptKind};
use ss_base::{Memory, Seq, Size, Txt};
use std::alloc::Global;
use std::marker::Model;

/// What the lines of a script so far came to.
#[derive(Debug, Drop)]
pub struct Collected {
    /// There is none before the `sheet` line.
    size: Option<Size>,
    sites: Vec<SiteScript>,
    /// Whether a line was read behind which no site may be declared.
    closed: bool,
}

impl Model for Collected {
    ghost use Rattle.live_script.specs.SoFar.{SoFar, so_far};

    ghost Value = { SoFar };

    ghost view = { λ c. so_far c.size c.sites.items c.closed };
}

impl Collected {
    /// Nothing is declared yet. It takes no memory.
    pub fn new(alloc: Global) -> Collected
        ensures { result ≡ nothing_so_far }
    {
        Collected {
            size: None,
            sites: Vec::new(alloc),
            closed: false,
        }
    }

    /// The first kind of fault that fits a command, if one does. It takes the time for the bytes of the
    /// names that are declared.
    pub fn fault_of(&self, command: &Command) -> Option<ScriptKind>
        ensures { result ≡ live_fault self.now.declared command.now }
    {
        fault_of(
            self.size.is_some(),
            self.sites.as_slice(),
            self.closed,
            command,
        )
    }

    /// Adds what the command on the line with this number has the sites do. It moves an edit to the site
    /// that it names, and makes a line for each site of a command that is for all. After a refused call
    /// only a part may be added.
    pub fn add(&mut self, alloc: Global, number: u32, command: Command) -> Result<(), Memory>
        requires accepted { live_fault self.old.declared command ≡ None }
        requires within { CommandWithin 4096 command }
        requires addressed { CommandAddressed command }
        ensures { (cs : List (ℕ × Command)) → IsSoFar cs self.old → OnOk result (IsSoFar (cs ++ (number, command) ∷ []) self.new) }
    {
        match command {
            Command::Note => Ok(()),
            Command::Sheet(size) => {
                self.size = Some(size);
                Ok(())
            }
            Command::Site(name) => self.add_site(alloc, name),
            command => {
                self.closed = true;
                add_lines(&mut self.sites, number, command)
            }
        }
    }

    /// Adds a site that has no line yet.
    fn add_site(&mut self, alloc: Global, name: Txt) -> Result<(), Memory>
        ensures { OnOk result (AddsSite self.old self.new name) }
    {
        self.sites.push(SiteScript {
            name,
            lines: Seq::new(alloc),
        })?;
        Ok(())
    }

    /// The script of all sites. It takes no memory.
    pub fn into_script(self) -> LiveScript
        ensures { result ≡ self.script }
    {
        LiveScript {
            size: self.size.unwrap_or(Size { rows: 0, cols: 0 }),
            sites: Seq::from_vec(self.sites),
        }
    }
}
