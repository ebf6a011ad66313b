//! Why no job board was made.
use thiserror::Error;

/// Why no job board was made.
#[derive(Debug, Clone, Copy, PartialEq, Eq, Error)]
pub enum MakeFault {
    /// More than `MOST_JOBS` jobs, or callers outside 1 to `MOST_CALLERS`.
    #[error("the number of jobs or of callers is out of range")]
    Size,
    /// A request for memory was refused.
    #[error("out of memory")]
    NoMemory,
}
