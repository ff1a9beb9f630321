//! Tests of scripts and of what a run prints: lines, words, statuses and texts.
#![tactic(auto)]

#[cfg(test)]
mod commands;
#[cfg(test)]
mod history;
#[cfg(test)]
mod live;
#[cfg(test)]
mod statuses;
#[cfg(test)]
mod texts;
#[cfg(test)]
mod words_given;
