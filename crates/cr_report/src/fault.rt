// Why nothing is reported.
use thiserror::Error;

/// Why bytes are reported as no reduction.
#[derive(Clone, Copy, Debug, PartialEq, Eq, Error)]
pub enum ReportFault {
    #[error("out of memory")]
    NoMemory,
    /// A log of more than 2^30 bytes.
    #[error("a log of creduce has 1073741824 bytes at most")]
    TooLong,
    /// Lines are counted from 1. Where the text ends without a last line, it is the line that would follow.
    #[error("line {0} isn't in the form of a log")]
    Line(u64),
    #[error("line {0} doesn't follow from what stands before it")]
    LineBehind(u64),
    #[error("it is no journal of creduce, or nothing is kept in it yet")]
    NoHeader,
    /// Records are counted from 0, which is the header.
    #[error("record {0} isn't in the form of a journal")]
    Record(u64),
    #[error("record {0} doesn't follow from what stands before it")]
    RecordBehind(u64),
}
