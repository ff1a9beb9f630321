//! Tests of the laws of the transforms on real sheets: both ways round of an operation, or of a chain
//! of operations, and another's effect lead to equal sheets, and to those that the operations give by
//! identity. Beside an insertion, a deletion and a sort stand sorts whose rows these touch.
#![tactic(auto)]

#[cfg(test)]
mod tests;
