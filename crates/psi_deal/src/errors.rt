// Why there is no deal, and where two deals differ.
use thiserror::Error;

/// Why a deal was refused. Of several reasons the first one is told, in this order.
#[derive(Clone, Copy, Debug, PartialEq, Eq, Error)]
pub enum BadDeal {
    /// The file has fewer than four bytes, or does not begin with `PSID`.
    #[error("no deal file")]
    Magic,
    /// The file has another version than the one that is read: 2, or 1 where it is to be renewed. `found` is its
    /// version.
    #[error("a deal file of version {found}")]
    Version { found: u8 },
    /// The file is not for the end that reads it, or for no end. `found` is its role: 0 is the receiver's, 1 the
    /// sender's, and others are no end's.
    #[error("a deal file of role {found}")]
    Role { found: u8 },
    /// The file is shorter or longer than those of its role. `found` is its length in bytes.
    #[error("a deal file of {found} bytes")]
    Length { found: u32 },
    /// The length of a tag is 0 or above 16. `found` is that length in bytes.
    #[error("tags of {found} bytes")]
    TagBytes { found: u8 },
    /// The stash has more rows than `psi_base::STASH_LIMIT`. `found` is their number.
    #[error("a stash of {found} rows")]
    StashRows { found: u8 },
    /// The file does not end with the SHA-256 of all bytes before.
    #[error("a deal file with a wrong seal")]
    Seal,
    /// Memory was wanting.
    #[error("out of memory")]
    NoMemory,
}

/// The first field, in this order, in which two deals are no pair.
#[derive(Clone, Copy, Debug, PartialEq, Eq)]
pub enum DealField {
    /// The name of the deal.
    Id,
    /// The number of the session.
    Session,
    /// The key of the hashes.
    Key,
    /// The length of a tag.
    TagBytes,
    /// The rows of the stash.
    StashRows,
    /// The seed of a base transfer: `column` is the least in which the sender's is not the one that
    /// its choice word names.
    Seed { column: u16 },
}
