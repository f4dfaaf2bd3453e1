// The place of an item.

/// The place of an item: a row, and the index of the candidate that it is, from 1 to 3, or 0 for a row of the stash.
#[derive(Clone, Copy, Debug, PartialEq, Eq)]
pub struct Slot {
    pub row: u32,
    pub index: u8,
}
