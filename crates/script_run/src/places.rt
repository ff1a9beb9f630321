ghost use Rattle.std.specs.Prelude.{◌≡◌, [], OnOk, OnErr};
ghost use Rattle.std.specs.Map.{lookup};
ghost use Rattle.std.specs.Str.{bytes_eq};
ghost use Rattle.script_run.specs.Places.{with_place};

use indexmap::IndexMap;
use ss_base::{Memory, Txt};
use std::alloc::Global;
use std::marker::Model;

/// The places of sites by their names, in the order in which the names came.
#[derive(Debug, Drop)]
pub struct Places {
    places: IndexMap<Vec<u8>, usize>,
}

impl Model for Places {
    ghost use Rattle.std.specs.Prelude.{List, ℕ};
    ghost use Rattle.script_run.specs.Places.{pairs_of};

    ghost Value = { List (List ℕ × ℕ) };

    ghost view = { λ p. pairs_of p.places.entries };
}

impl Places {
    /// No name has a place. It takes no memory.
    pub fn new(alloc: Global) -> Places
        ensures { result ≡ [] }
    {
        Places {
            places: IndexMap::new(alloc),
        }
    }

    /// The place of a name, if it has one. It takes constant time on the average, beside the time for the
    /// bytes of the name.
    pub fn get(&self, name: &Txt) -> Option<usize>
        ensures { result ≡ lookup (bytes_eq name.now) self.now }
    {
        self.places.get(name.bytes()).copied()
    }

    /// Gives a name a place, unless it has one. A refused call leaves the places.
    pub fn add(&mut self, name: &Txt, place: usize) -> Result<(), Memory>
        ensures ok { OnOk result (self.new ≡ with_place self.old name.now place) }
        ensures err { OnErr result (self.new ≡ self.old) }
    {
        if self.get(name).is_none() {
            let name = name.copy()?;
            let _ = self.places.insert(name.into_vec(), place)?;
        }
        Ok(())
    }
}
