// Why bytes are no record.
use thiserror::Error;

/// Why a record was refused. A file is judged from its front on, and the first fault is told.
#[derive(Clone, Copy, Debug, PartialEq, Eq, Error)]
pub enum BadRecord {
    /// The file has fewer than four bytes, or does not begin with `PSIR`.
    #[error("no record file")]
    Magic,
    /// The file has another version than 1. `found` is its version.
    #[error("a record of version {found}")]
    Version { found: u8 },
    /// The file ends within the part that begins at `offset`: the version, the count, the slots, a frame or the seal.
    #[error("a record that is cut behind byte {offset}")]
    Short { offset: u64 },
    /// The frame that begins at `offset` is of none of the kinds 1 to 5. `found` is its kind.
    #[error("a frame of kind {found} at byte {offset} of a record")]
    Kind { offset: u64, found: u8 },
    /// The file does not end with the SHA-256 of all bytes before.
    #[error("a record with a wrong seal")]
    Seal,
    /// The file goes on at `offset`, behind its seal.
    #[error("a record that goes on at byte {offset}, behind its seal")]
    Trailing { offset: u64 },
    /// Memory was wanting.
    #[error("out of memory")]
    NoMemory,
}
