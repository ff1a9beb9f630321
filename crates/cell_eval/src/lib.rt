//! What a formula's code comes to, where what it looks at is known. Each evaluation is counted.
#![tactic(auto)]

mod counter;
mod evaluation;
mod machine;
mod operators;
mod stack;

pub use counter::Steps;
pub use evaluation::eval;
