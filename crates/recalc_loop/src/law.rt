use crate::desk::{Desk, Nap};
use crate::state::DeskState;
use crate::workplace::Workplace;

/// A desk's state, and the place where its thread parks, go from thread to thread, and threads share the
/// desk by reference.
pub fn desk_goes_to_threads<J: Workplace + Send>(state: &DeskState<J>, nap: &Nap, desk: &Desk<J>) {
    goes(state);
    goes(nap);
    is_shared(desk);
}

fn goes<T: Send>(_it: &T) {}

fn is_shared<T: Sync>(_it: &T) {}
