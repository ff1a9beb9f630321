//! Tests of running threads: the book, the stores of values, the hub, desks, sessions and sites, each call
//! with ample memory and with others beside.
#![tactic(auto)]

#[cfg(test)]
mod books;
#[cfg(test)]
mod desks;
#[cfg(test)]
mod hubs;
#[cfg(test)]
mod passes_made;
#[cfg(test)]
mod sessions;
#[cfg(test)]
mod sites;
#[cfg(test)]
mod stores;
