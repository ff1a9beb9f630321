/// What a line leads to that no fault stops.
#[derive(Clone, Copy, Debug)]
pub enum Flow {
    /// The next line.
    GoesOn,
    /// It was the line `end`.
    Ended,
}
