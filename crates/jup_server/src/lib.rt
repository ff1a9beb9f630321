//! The server, after Jupiter (Nichols, Curtis, Dixon and Lamping, UIST 1995): the sheet of the
//! history, and what is kept of each site. It keeps no history.
#![tactic(auto)]

mod chain;
mod link;
mod list;
mod server;
mod shared;

pub use list::{Answer, Sent, submit_all};
pub use server::Server;
use ss_base::Memory;
use thiserror::Error;

/// Why an operation was refused.
#[derive(Clone, Copy, Debug, PartialEq, Eq, Error)]
pub enum SubmitErr {
    /// The server has no site of this number.
    #[error("no such site")]
    NoSite,
    /// The site has issued all its operations.
    #[error("no operation is left to this site")]
    Spent,
    /// What the operation had seen is below what its site's last one had, or above the number of entries.
    #[error("seen {seen}, and not from {low} to {high}")]
    BadSeen { seen: u32, low: u32, high: u32 },
    /// The number of the operation at this index, counted from 0, isn't in its author's view.
    #[error("a bad place at {0}")]
    BadPlace(u32),
    /// Memory was refused.
    #[error("no memory")]
    Memory,
}

impl From<Memory> for SubmitErr {
    ghost use Rattle.std.specs.Prelude.{◌≡◌};
    ghost use Rattle.jup_server.specs.declared.SubmitErr.TheVariants as fault;

    ghost from_gives = { λ _ e. e ≡ fault.Memory };

    fn from(_: Memory) -> SubmitErr {
        SubmitErr::Memory
    }
}
