// What both deals hold.
ghost use Rattle.std.specs.Prelude.{◌≡◌, ◌≤◌, length, drop, take, slice_index, true, IfOk};
ghost use Rattle.std.specs.Int.{w64, from_be_bytes};
ghost use Rattle.psi_spec.specs.Deals.{fits_tag_length};
ghost use Rattle.psi_spec.specs.DealFiles.{deal_front};
ghost use Rattle.psi_deal.specs.Roles.{role_byte};

use crate::arrays::array_at;
use crate::judging::judged_tag_length;
use crate::role::Role;
use psi_base::TagLength;
use std::alloc::{AllocError, Global};

/// The version of the deal files that are written, and of those that are read but to be renewed.
pub const VERSION: u8 = 2;

/// What both deals of a pair hold.
#[derive(Clone, Copy, Debug, PartialEq, Eq)]
pub struct Head {
    /// The name of the deal.
    pub id: [u8; 16],
    /// The number of the session.
    pub session: u64,
    /// The key of codes, bins and tags.
    pub key: [u8; 16],
    /// The length of a tag.
    pub tag_length: TagLength,
    /// The rows of the stash.
    pub stash: u8,
}

impl Head {
    /// The head that the first 47 bytes of a deal file hold, with so many rows of the stash. The last of them is a
    /// length that a tag can have.
    pub fn read(bytes: &[u8], stash: u8) -> Head
        requires long { 47 ≤ length bytes.now }
        requires fits { fits_tag_length (slice_index bytes.now 46) ≡ true }
        ensures id { result.id ≡ take 16 (drop 6 bytes.now) }
        ensures session { result.session ≡ from_be_bytes w64 (take 8 (drop 22 bytes.now)) }
        ensures key { result.key ≡ take 16 (drop 30 bytes.now) }
        ensures tag_length { result.tag_length ≡ slice_index bytes.now 46 }
        ensures stash { result.stash ≡ stash }
    {
        Head {
            id: array_at(bytes, 6),
            session: u64::from_be_bytes(array_at(bytes, 22)),
            key: array_at(bytes, 30),
            tag_length: judged_tag_length(bytes[46]),
            stash,
        }
    }

    /// The front of the deal file of a role, in a vector with room for the whole file.
    pub fn write(&self, alloc: Global, role: Role) -> Result<Vec<u8>, AllocError>
        ensures { IfOk result (λ bytes. bytes.items ≡ deal_front (role_byte role) self.now.id
            self.now.session self.now.key self.now.tag_length self.now.stash) }
    {
        let mut bytes = Vec::with_capacity(alloc, role.size())?;
        bytes.extend_from_slice(b"PSID")?;
        bytes.extend_from_slice(&[VERSION, role.byte()])?;
        bytes.extend_from_slice(&self.id)?;
        bytes.extend_from_slice(&self.session.to_be_bytes())?;
        bytes.extend_from_slice(&self.key)?;
        bytes.extend_from_slice(&[self.tag_length.get(), self.stash])?;
        Ok(bytes)
    }
}
