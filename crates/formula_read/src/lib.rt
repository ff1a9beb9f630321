//! Formulas read: exactly the texts of the grammar, and exactly where any other text stops being the
//! front of one.
#![tactic(auto)]

mod brackets;
mod class;
mod cursor;
mod front;
mod kinds;
mod laws;
mod leaves;
mod lexer;
mod operand;
mod parsing;
mod partial;
mod stack;
mod steps;
mod tree;
mod tree_err;

pub use kinds::{ParseErr, Token, TokenKind};
pub use laws::{next_tokens, one_reading, text_fronts, text_readings, token_fronts};
pub use lexer::tokens;
pub use parsing::parse;
