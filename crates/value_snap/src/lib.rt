//! Published values. A publisher shows what recalculations give, batch by batch, and a reader in
//! another thread reads them without ever waiting: never the values of two states mixed, and never
//! older ones than it read, or was told of, before.
//!
//! A store keeps two copies of its values by `left_right`: readers read one, and the publisher
//! changes the other. Nothing is said of how long the publisher waits for readers.
#![tactic(auto)]

mod cells;
mod front;
mod law;
mod order;
mod published;
mod publisher;
mod reader;
mod rule;
mod shown;
mod snap;
mod teller;

pub use law::{ends_go_to_threads, replay_is_the_snapshot};
pub use published::Published;
pub use publisher::{Publisher, Told, store};
pub use reader::{NoEntry, ReadErr, Reader};
pub use rule::Store;
pub use snap::View;
pub use teller::Teller;
