// Why a file has no items.
use thiserror::Error;

/// Why a file was refused. `line` is the number of its first line with a fault, counted from 1.
#[derive(Clone, Copy, Debug, PartialEq, Eq, Error)]
pub enum BadItems {
    /// The line holds a control byte other than a tab. `found` is the first of them.
    #[error("line {line}: control byte {found}")]
    Byte { line: u32, found: u8 },
    /// The line's item would have more than 256 bytes. `length` is how many.
    #[error("line {line}: an item of {length} bytes")]
    Long { line: u32, length: u32 },
    /// The line's item would be one more than 1,048,576.
    #[error("line {line}: too many items")]
    Many { line: u32 },
    /// There was no memory for an item.
    #[error("out of memory")]
    NoMemory,
}
