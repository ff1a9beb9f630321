//! The rule of what is on show, which holds between any two steps of the threads.
use crate::shown::Shown;
use atomic_table::{Join, Split};
use crossbeam_utils::rule::{Outcome, Protocol};

/// Which store: the log of what it published, and the size of its opening sheet. Contracts alone
/// speak of it, and no value of it is made.
pub struct Store {
    pub number: u64,
    pub log_name: u64,
    pub cells_name: u64,
    pub rows: u32,
    pub cols: u32,
}

/// The values on show are the replay of the list beside them, and who knows which store it is isn't
/// wrong.
pub struct OnShow;

impl Protocol<Shown, Option<Store>> for OnShow {
    ghost use Rattle.std.specs.Prelude.{None};
    ghost use Rattle.value_snap.specs.Views.{IsOnShow};

    ghost holds = { IsOnShow };

    ghost first = { None };
}

/// A step that tells which store it is.
pub struct Sees;

impl Outcome<Shown, Option<Store>> for Sees {
    ghost use Rattle.value_snap.specs.Views.{Seeing};

    ghost then = { Seeing };
}

/// What the writer knows is handed to a new reader, and both know it.
pub struct HandsOn;

impl Split<Option<Store>> for HandsOn {
    ghost left = { λ v. v };

    ghost right = { λ v. v };
}

impl Join<Option<Store>> for HandsOn {
    ghost use Rattle.std.specs.Prelude.{None};

    ghost both = { λ v w. w };

    ghost spent = { None };
}
