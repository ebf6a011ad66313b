//! Why no table was made.
use thiserror::Error;

/// Why no table was made.
#[derive(Debug, Clone, Copy, PartialEq, Eq, Error)]
pub enum MakeFault {
    /// Slots outside 1 to `MOST_SLOTS`, or callers outside 1 to `MOST_CALLERS`.
    #[error("the number of slots or of callers is out of range")]
    Size,
    /// A request for memory was refused.
    #[error("out of memory")]
    NoMemory,
}
