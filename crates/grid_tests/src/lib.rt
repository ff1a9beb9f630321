//! Tests of a sheet under the numbers of its lines, over the operations and the sheet: what an
//! insertion, a deletion and a move leave of the numbers of rows, of references and of ranges, on
//! sheets of three rows and one column.
#![tactic(auto)]

#[cfg(test)]
mod lines;
#[cfg(test)]
mod operations;
#[cfg(test)]
mod sheets;
#[cfg(test)]
mod tests;
#[cfg(test)]
mod transforms;
#[cfg(test)]
mod walks;
