//! Why what names stand for was not put whole.

use thiserror::Error;

/// Why what names stand for was not put whole.
#[derive(Debug, Drop, Error)]
pub enum NamesFail {
    /// Memory is wanting.
    #[error("want of memory")]
    NoMemory,
    /// The sink failed.
    #[error("the sink failed")]
    SinkFailed,
}
