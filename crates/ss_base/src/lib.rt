//! Texts, lists, addresses, and what bytes are read from and written to.
#![tactic(auto)]

mod feed;
mod lines;
mod memory;
mod plan;
mod search;
mod seq;
mod standard;
mod stream;
mod text;
mod types;

pub use feed::LineFeed;
pub use lines::{LineErr, Turn};
pub use memory::{MemSink, MemSource, PureSink, PureSource};
pub use seq::Seq;
pub use standard::{StdSink, StdSource};
pub use stream::{Sink, Source, write_all};
pub use text::Txt;
pub use types::{CalcErr, Failed, Memory, Name, Site, Size, Span, Spot};
