//! Tests of edits on their way: client, server, full evaluation and the keys of a sort, each call on small
//! sheets.
#![tactic(auto)]

#[cfg(test)]
mod clients;
#[cfg(test)]
mod evaluation;
#[cfg(test)]
mod keys;
#[cfg(test)]
mod servers;
