//! Tests of formulas from their text to their value, over all the crates between: what each comes to on
//! a small sheet, as the definition of the functions and operators has it.
#![tactic(auto)]

#[cfg(test)]
mod addresses;
#[cfg(test)]
mod code;
#[cfg(test)]
mod functions;
#[cfg(test)]
mod printing;
#[cfg(test)]
mod tests;
#[cfg(test)]
mod tokens;
#[cfg(test)]
mod trees;
#[cfg(test)]
mod values;
