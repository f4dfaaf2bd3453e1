// The slots of all items.
ghost use Rattle.std.specs.Prelude.{◌≡◌, ◌<◌, ◌^◌, ◌↔◌, ℕ, Some, length, map, option_map, slice_get};
ghost use Rattle.psi_cuckoo.specs.Table.{AreOccupants, slot_of};

use crate::slot::Slot;
use crate::table::Table;
use std::marker::Model;

/// The slots of all items, in the order of the items.
#[derive(Drop)]
pub struct Placement {
    table: Table,
}

impl Model for Placement {
    ghost use Rattle.std.specs.Prelude.{◌<◌, ◌^◌, List, length, map};
    ghost use Rattle.psi_spec.specs.Placement.{Slot as PlacedSlot};
    ghost use Rattle.psi_cuckoo.specs.Table.{AreOccupants, slot_of};

    ghost Value = { List PlacedSlot };

    ghost view = { λ p. map slot_of p.table.slots.items };

    ghost invariant = { λ p. AreOccupants p.table.slots.items p.table.occupants.items
        × (length p.table.slots.items < 2 ^ 32) };
}

impl Placement {
    ghost use Rattle.std.specs.Prelude.{map};
    ghost use Rattle.psi_cuckoo.specs.Table.{AreOccupants, slot_of};

    /// The placement that a table has.
    pub(crate) fn new(table: Table) -> Placement
        requires standing { AreOccupants table.slots.items table.occupants.items }
        requires few { length table.slots.items < 2 ^ 32 }
        ensures { result ≡ map slot_of table.slots.items }
    {
        Placement { table }
    }

    /// How many items have slots.
    pub fn len(&self) -> u32
        ensures { result ≡ length self.now }
    {
        self.table.slots.len() as u32
    }

    /// The slot of item `i`, and None where there are not so many items.
    pub fn slot(&self, i: u32) -> Option<Slot>
        ensures { option_map slot_of result ≡ slice_get self.now i }
    {
        self.table.slots.get(i as usize).copied()
    }

    /// The item that has a row, and None where none has it.
    pub fn item_at(&self, row: u32) -> Option<u32>
        ensures { (i : ℕ) → (result ≡ Some i) ↔ (option_map (λ slot. slot.row) (slice_get self.now i) ≡ Some row) }
    {
        let row = row as usize;
        if row < self.table.occupants.len() {
            self.table.occupants[row]
        } else {
            None
        }
    }
}
