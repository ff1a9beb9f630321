use crate::hub::Hub;
use turn_book::{Book, Pass};

/// A hub and a pass of its book go from thread to thread, and threads share the book by reference.
pub fn hub_goes_to_threads(hub: &Hub, pass: &Pass<Hub>, book: &Book<Hub>) {
    goes(hub);
    goes(pass);
    is_shared(book);
}

fn goes<T: Send>(_it: &T) {}

fn is_shared<T: Sync>(_it: &T) {}
