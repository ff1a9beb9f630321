//! A walk of cells by what they mention: which of them are circular, and an order of the others in
//! which each stands behind all that it mentions.
//!
//! It is depth-first search with colours, as in Cormen, Leiserson, Rivest and Stein, but that all of
//! the stack is marked at once where a cycle is met: a cell that only leads into a cycle counts as
//! circular too. It keeps a stack of its own, so that a chain of any length is walked without
//! recursion, and never a list of what a cell mentions: it goes through that by a cursor, and skips
//! runs of cells that are in order.
#![tactic(auto)]

mod walking;

pub use walking::{Colour, Found, Interval, Mentions, Progress, walk_all, walk_new};
