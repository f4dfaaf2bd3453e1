// The items of a file.
ghost use Rattle.std.specs.Prelude.{◌≡◌, ◌≤◌, ◌<◌, ◌^◌, ◌↔◌, ℕ, List, [], map, length, OnErr, IfSome, IsNone, IsSome, IsTrue, Contains, slice_get, option_map, position};
ghost use Rattle.std.specs.Str.{bytes_eq};
ghost use Rattle.psi_spec.specs.Limits.{limit_items, line_limit, file_limit};
ghost use Rattle.psi_items.specs.Members.{AreItems, IsItem};
ghost use Rattle.psi_items.specs.Reading.{ReadsItems, AddsLine, AddsItem};

use crate::errors::BadItems;
use crate::lines::NormalLine;
use indexmap::IndexSet;
use std::alloc::Global;
use std::marker::Model;

/// The most items of a file.
const LIMIT_ITEMS: usize = psi_base::LIMIT_ITEMS as usize;

/// The items of a file: at most 1,048,576 distinct byte strings of 1 to 256 bytes each, in the order
/// in which the file's lines first give them.
pub struct Items {
    set: IndexSet<Vec<u8>>,
}

impl Model for Items {
    ghost use Rattle.std.specs.Prelude.{ℕ, List, map};
    ghost use Rattle.psi_items.specs.Members.{AreItems};

    ghost Value = { List (List ℕ) };

    ghost view = { λ s. map (λ v. v.items) s.set.keys };

    ghost invariant = { λ s. AreItems (map (λ v. v.items) s.set.keys) };
}

// Written out, so that callers need not look into the set to let its items go.
impl Drop for Items {
    fn drop(self) {
        let Items { set: _set } = self;
    }
}

impl Items {
    /// The items of a file of at most 33,554,432 bytes.
    ///
    /// A line ends at a line feed or at the end of the bytes. One carriage return at its end and the
    /// spaces and tabs round it are no part of its item, and ASCII capitals become small letters. A
    /// line that is then empty gives no item, and one that repeats an item gives no new one.
    ///
    /// The first line with a fault decides: `Byte` where it holds a control byte other than a tab,
    /// else `Long` where its item would have more than 256 bytes, else `Many` where its item would
    /// be one more than 1,048,576. `NoMemory` comes where there is no memory for an item.
    pub fn read(alloc: Global, bytes: &[u8]) -> Result<Items, BadItems>
        requires { length bytes.now ≤ file_limit }
        ensures { ReadsItems bytes.now result }
    {
        let mut items = Items {
            set: IndexSet::new(alloc),
        };
        let mut room = NormalLine::empty();
        let mut number = 0;
        for line in bytes.split(|byte| *byte == b'\n') {
            number += 1;
            items.add_line(number, line, &mut room)?;
        }
        Ok(items)
    }

    /// Adds what the line with this number gives. Its item is made in `room`.
    fn add_line(&mut self, number: u32, line: &[u8], room: &mut NormalLine) -> Result<(), BadItems>
        requires { length line.now < 2 ^ 32 }
        ensures added { AddsLine self.old number line.now result self.new }
        ensures err { OnErr result (self.new ≡ self.old) }
    {
        // Done first, since a file may have tens of millions of empty lines.
        if line.is_empty() {
            return Ok(());
        }
        room.read(number, line)?;
        if room.text().is_empty() {
            return Ok(());
        }
        self.add_item(number, room.text())
    }

    /// Adds an item of the line with this number, where it is not among the items.
    fn add_item(&mut self, number: u32, item: &[u8]) -> Result<(), BadItems>
        requires { IsItem item.now }
        ensures added { AddsItem self.old number item.now result self.new }
        ensures err { OnErr result (self.new ≡ self.old) }
    {
        if self.set.contains(item) {
            return Ok(());
        }
        if self.set.len() == LIMIT_ITEMS {
            return Err(BadItems::Many { line: number });
        }
        let copy = item
            .to_vec(*self.set.allocator())
            .map_err(|_| BadItems::NoMemory)?;
        self.set.insert(copy).map_err(|_| BadItems::NoMemory)?;
        Ok(())
    }

    /// How many items there are: at most 1,048,576.
    pub fn len(&self) -> u32
        ensures len { result ≡ length self.now }
        ensures items { AreItems self.now }
    {
        self.set.len() as u32
    }

    /// Whether there are no items.
    pub fn is_empty(&self) -> bool
        ensures { IsTrue result ↔ (self.now ≡ []) }
    {
        self.set.is_empty()
    }

    /// The item at a place, counted from 0: 1 to 256 bytes. None exactly where the place is not below `len`.
    pub fn get(&self, i: u32) -> Option<&[u8]>
        ensures item { option_map (λ item. item.now) result ≡ slice_get self.now i }
        ensures past { IsNone result ↔ (length self.now ≤ i) }
        ensures within { IfSome result (λ _. i < limit_items) }
        ensures length { IfSome result (λ item. (1 ≤ length item.now) × (length item.now ≤ line_limit)) }
    {
        let item = self.set.get_index(i as usize)?;
        Some(item.as_slice())
    }

    /// The place of an item, counted from 0. None exactly where it is not among the items.
    pub fn find(&self, item: &[u8]) -> Option<u32>
        ensures place { result ≡ position (bytes_eq item.now) self.now }
        ensures found { IsSome result ↔ Contains self.now item.now }
    {
        let place = self.set.get_index_of(item)?;
        Some(place as u32)
    }
}
