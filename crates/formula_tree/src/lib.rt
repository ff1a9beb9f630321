//! Formulas as trees: their expressions, what bounds them, and how their references are replaced.
//! They are those of OpenFormula (part 4 of OpenDocument 1.3) in a profile of whole numbers and texts.
#![tactic(auto)]

mod copying;
mod errors;
mod expression;
mod formulas;
mod functions;
mod measures;
mod operators;
mod renaming;

pub use errors::error_name;
pub use expression::Expr;
pub use formulas::{Formula, rename};
pub use functions::Fun;
pub use measures::{nesting, precedence, weight};
pub use operators::{BinOp, PreOp};
pub use renaming::Remap;
