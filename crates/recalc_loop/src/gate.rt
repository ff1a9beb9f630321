use ss_base::Site;
use std::sync::Wait;

/// A point that a thread of a running sheet comes to.
#[derive(Clone, Copy, Debug, PartialEq, Eq)]
pub enum Point {
    /// A site's thread, before the line of the script with this number.
    Line { site: Site, line: u32 },
    /// The recalculation, before it publishes the values after so many entries of the history.
    Publish { length: u32 },
}

/// Who is told of each point, and may hold the thread there. Contracts see nothing of it.
pub trait Gate {
    fn at<R: Wait>(&self, rt: &R, point: Point);
}

/// The gate that holds no thread.
#[derive(Clone, Copy, Debug)]
pub struct NoGate;

impl Gate for NoGate {
    fn at<R: Wait>(&self, _rt: &R, _point: Point) {}
}
