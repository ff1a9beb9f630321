//! The laws of the transforms as calls: both ways round, done on real sheets, lead to the sheet that
//! the operations give by identity, untransformed.
#![tactic(auto)]

mod both;
mod fit;
mod laws;
mod several;
mod steps;

pub use both::{Ways, both_ways};
pub use fit::fits_each;
pub use laws::lifted_sheets;
pub use several::{Chain, chain_ways};
