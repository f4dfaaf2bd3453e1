// The length of a tag.
ghost use Rattle.std.specs.Prelude.{◌≡◌, ◌≤◌, Some, None, if◌then◌else◌};
ghost use Rattle.psi_spec.specs.Deals.{fits_tag_length};

use crate::limits::TAG_LIMIT;
use std::marker::Model;

/// The length of a tag in bytes: 1 to `TAG_LIMIT`.
#[derive(Clone, Copy, Debug, PartialEq, Eq)]
pub struct TagLength {
    bytes: u8,
}

impl Model for TagLength {
    ghost use Rattle.std.specs.Prelude.{ℕ, ◌≤◌};
    ghost use Rattle.psi_spec.specs.Limits.{tag_limit};

    ghost Value = { ℕ };

    ghost view = { λ t. t.bytes };

    ghost invariant = { λ t. (1 ≤ t.bytes) × (t.bytes ≤ tag_limit) };

    ghost inverse = { λ n. record { bytes = n } };
}

impl TagLength {
    /// The length of so many bytes. None where a tag can't have as many: for 0, and above `TAG_LIMIT`.
    pub fn new(bytes: u8) -> Option<TagLength>
        ensures { result ≡ (if fits_tag_length bytes then Some bytes else None) }
    {
        if (1..=TAG_LIMIT).contains(&bytes) {
            Some(TagLength { bytes })
        } else {
            None
        }
    }

    /// The number of bytes.
    pub fn get(self) -> u8
        ensures same { result ≡ self }
        ensures least { 1 ≤ result }
        ensures most { result ≤ TAG_LIMIT }
    {
        self.bytes
    }
}
