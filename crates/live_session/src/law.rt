use crate::Session;

/// A session goes from thread to thread.
pub fn session_goes_to_threads(session: &Session) {
    goes(session);
}

fn goes<T: Send>(_it: &T) {}
