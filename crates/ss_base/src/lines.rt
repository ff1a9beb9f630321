use thiserror::Error;

/// What a reading of a line came to.
#[derive(Clone, Copy, Debug, PartialEq, Eq)]
pub enum Turn {
    /// A line was read.
    Line,
    /// No byte is left.
    End,
}

/// Why no line was read.
#[derive(Clone, Copy, Debug, PartialEq, Eq, Error)]
pub enum LineErr {
    /// A read of the source failed.
    #[error("read fault")]
    ReadFault,
    /// The line has more than 4,096 bytes without its line feed, or ends behind byte 1,048,576.
    #[error("too long")]
    TooLong,
}
