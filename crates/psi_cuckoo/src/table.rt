// Items in rows.
ghost use Rattle.std.specs.Prelude.{◌≡◌, ◌<◌, ◌+◌, ◌-◌, ◌*◌, ◌^◌, ◌≤◌, ◌++◌, ◌∷◌, [], ℕ, Some, None, IsSome, IfOk, IfSome, IfNone, OnOk, length, map, option_map, replicate, slice_index_or, slice_set};
ghost use Rattle.psi_spec.specs.Placement.{MayHave, stash_slots};
ghost use Rattle.psi_spec.specs.Picking.{choices_of, first_free};
ghost use Rattle.psi_cuckoo.specs.Picks.{stash_slot};
ghost use Rattle.psi_cuckoo.specs.Table.{AllTaken, AreOccupants, IsTask, IsFree, Names, occupant_at, slot_at, slot_of};

use crate::slot::Slot;
use psi_base::NoMemory;
use std::alloc::Global;

/// What is to be placed, and in how many rows: `bins`, then `stash` rows of the stash.
#[derive(Drop)]
pub(crate) struct Task<'a> {
    /// The bins that each item's candidates name.
    pub candidates: &'a [[u32; 3]],
    pub bins: u32,
    pub stash: u32,
}

impl Task<'_> {
    /// The bin that an item's candidate with this index names.
    pub fn candidate(&self, item: u32, index: u8) -> u32
        requires task { IsTask self.now }
        requires item { item < length self.now.candidates.now }
        requires least { 1 ≤ index }
        requires most { index ≤ 3 }
        ensures { Names self.now.candidates.now item index result }
    {
        self.candidates[item as usize][index as usize - 1]
    }
}

/// Items in rows.
#[derive(Drop)]
pub(crate) struct Table {
    /// The slots of the items so far, in the order of the items.
    pub slots: Vec<Slot>,
    /// The item that stands in each row: the bins, the stash, and while items are placed the row where one waits.
    pub occupants: Vec<Option<u32>>,
}

impl Table {
    /// A table of so many rows without items, with room for the slots of `items` items.
    pub fn new(alloc: Global, items: usize, rows: u32) -> Result<Table, NoMemory>
        requires { 8 * items < 2 ^ 63 }
        ensures slots { IfOk result (λ table. table.slots.items ≡ []) }
        ensures free { IfOk result (λ table. table.occupants.items ≡ replicate rows None) }
    {
        Ok(Table {
            slots: Vec::with_capacity(alloc, items)?,
            occupants: vec![in alloc; None; rows as usize]?,
        })
    }

    /// Adds the next item in a free row.
    pub fn add_item(&mut self, slot: Slot) -> Result<(), NoMemory>
        requires few { length self.old.slots.items < 2 ^ 32 }
        requires inside { slot.row < length self.old.occupants.items }
        ensures slots { OnOk result (self.new.slots.items ≡ self.old.slots.items ++ slot ∷ []) }
        ensures occupants { OnOk result (self.new.occupants.items
            ≡ slice_set self.old.occupants.items slot.row (Some (length self.old.slots.items))) }
    {
        let item = self.slots.len() as u32;
        self.slots.push(slot)?;
        self.occupants[slot.row as usize] = Some(item);
        Ok(())
    }

    /// Moves an item to a free row. The row that it had is free then.
    pub fn move_item(&mut self, item: u32, slot: Slot)
        requires item { item < length self.old.slots.items }
        requires old { (slot_at self.old.slots.items item).row < length self.old.occupants.items }
        requires new { slot.row < length self.old.occupants.items }
        ensures slots { self.new.slots.items ≡ slice_set self.old.slots.items item slot }
        ensures occupants { self.new.occupants.items
            ≡ slice_set (slice_set self.old.occupants.items (slot_at self.old.slots.items item).row None)
            slot.row (Some item) }
    {
        let old = self.slots[item as usize];
        self.occupants[old.row as usize] = None;
        self.occupants[slot.row as usize] = Some(item);
        self.slots[item as usize] = slot;
    }

    /// A candidate of an item where none stands.
    pub fn free_candidate(&self, task: &Task<'_>, item: u32) -> Option<Slot>
        requires task { IsTask task.now }
        requires rows { task.now.bins ≤ length self.now.occupants.items }
        requires item { item < length task.now.candidates.now }
        requires standing { AreOccupants self.now.slots.items self.now.occupants.items }
        ensures may { (spare : ℕ) → IfSome result
            (λ slot. MayHave spare task.now.bins (slice_index_or task.now.candidates.now item []) (slot_of slot)) }
        ensures free { IfSome result (λ slot. IsFree self.now.occupants.items slot.row) }
        ensures bin { IfSome result (λ slot. slot.row < task.now.bins) }
        ensures named { IfSome result (λ slot. Names task.now.candidates.now item slot.index slot.row) }
        ensures full { IfNone result (AllTaken task.now.candidates.now self.now.occupants.items item) }
        ensures first { first_free (map slot_of self.now.slots.items) (choices_of task.now.candidates.now item)
            ≡ option_map slot_of result }
    {
        for index in 1..4u8 {
            let row = task.candidate(item, index);
            if self.occupants[row as usize].is_none() {
                return Some(Slot { row, index });
            }
        }
        None
    }

    /// The first free row of the stash.
    pub fn free_stash_row(&self, task: &Task<'_>) -> Option<u32>
        requires task { IsTask task.now }
        requires rows { length self.now.occupants.items ≡ task.now.bins + (task.now.stash + 1) }
        requires standing { AreOccupants self.now.slots.items self.now.occupants.items }
        ensures free { IfSome result (λ row. IsFree self.now.occupants.items row) }
        ensures behind { IfSome result (λ row. task.now.bins ≤ row) }
        ensures full { IfNone result ((row : ℕ) → task.now.bins ≤ row → row < task.now.bins + task.now.stash
            → IsSome (occupant_at self.now.occupants.items row)) }
        ensures first { first_free (map slot_of self.now.slots.items) (stash_slots task.now.bins task.now.stash)
            ≡ option_map stash_slot result }
    {
        for row in task.bins..task.bins + task.stash {
            if self.occupants[row as usize].is_none() {
                return Some(row);
            }
        }
        None
    }
}
