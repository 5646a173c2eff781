//! Why a half was not read.

use p3_base::Refusal;
use thiserror::Error;

/// Why a half was not read.
#[derive(Debug, Drop, Error)]
pub enum ReadFail {
    /// The text is no such half.
    #[error("the text is refused")]
    Refused(Refusal),
    /// Memory is wanting.
    #[error("want of memory")]
    NoMemory,
}
