// Whether given slots are a placement.
ghost use Rattle.std.specs.Prelude.{◌≡◌, ◌≢◌, ◌<◌, ◌+◌, ◌≤◌, ◌^◌, [], All, Err, IfErr, IfOk, IsOkUnless, None, OnOk, Some, length, map, slice_index_or, take};
ghost use Rattle.psi_spec.specs.Limits.{bins_for, limit_items, stash_limit};
ghost use Rattle.psi_spec.specs.Placement.{IsPlacement};
ghost use Rattle.psi_cuckoo.specs.Table.{AreSeated, IsTask, slot_of};
ghost use Rattle.psi_cuckoo.specs.Refusal.{fault_of, first_fault, may_have};
ghost use Rattle.psi_cuckoo.specs.declared.errors.BadSlots.TheVariants as bad;

use crate::errors::BadSlots;
use crate::placement::Placement;
use crate::slot::Slot;
use crate::table::{Table, Task};
use std::alloc::Global;

/// Whether the row of an item's slot is the one that its index, at most 3, names.
fn names_row(task: &Task<'_>, item: u32, slot: Slot) -> bool
    requires task { IsTask task.now }
    requires item { item < length task.now.candidates.now }
    requires index { slot.index ≤ 3 }
    ensures { result ≡ may_have task.now.stash task.now.bins (slice_index_or task.now.candidates.now item []) slot }
{
    if slot.index == 0 {
        task.bins <= slot.row && slot.row < task.bins + task.stash
    } else {
        task.candidate(item, slot.index) == slot.row
    }
}

/// Judges the slot of an item, where the items before it stand in the table.
fn judge(task: &Task<'_>, table: &Table, slots: &[Slot], item: u32) -> Result<(), BadSlots>
    requires task { IsTask task.now }
    requires count { length slots.now ≡ length task.now.candidates.now }
    requires item { item < length slots.now }
    requires before { table.now.slots.items ≡ take item slots.now }
    requires seated { AreSeated task.now.stash task.now.bins task.now.candidates.now table.now.slots.items
        table.now.occupants.items }
    ensures right { OnOk result (fault_of task.now.stash task.now.bins task.now.candidates.now slots.now item ≡ None) }
    ensures wrong { IfErr result
        (λ e. fault_of task.now.stash task.now.bins task.now.candidates.now slots.now item ≡ Some e) }
{
    let slot = slots[item as usize];
    if slot.index > 3 {
        return Err(BadSlots::Index { item });
    }
    if !names_row(task, item, slot) {
        return Err(BadSlots::Row { item });
    }
    if table.occupants[slot.row as usize].is_some() {
        return Err(BadSlots::Twice { row: slot.row });
    }
    Ok(())
}

/// Puts the items into the given slots, one after another, up to the first fault.
fn seat_given(task: &Task<'_>, table: &mut Table, slots: &[Slot]) -> Result<(), BadSlots>
    requires task { IsTask task.now }
    requires count { length slots.now ≡ length task.now.candidates.now }
    requires none { table.old.slots.items ≡ [] }
    requires seated { AreSeated task.now.stash task.now.bins task.now.candidates.now table.old.slots.items
        table.old.occupants.items }
    ensures kept { OnOk result (table.new.slots.items ≡ slots.now) }
    ensures seated { OnOk result (AreSeated task.now.stash task.now.bins task.now.candidates.now table.new.slots.items
        table.new.occupants.items) }
    ensures right { OnOk result (first_fault task.now.stash task.now.bins task.now.candidates.now slots.now ≡ None) }
    ensures wrong { IfErr result (λ e. e ≢ bad.NoMemory
        → first_fault task.now.stash task.now.bins task.now.candidates.now slots.now ≡ Some e) }
{
    for item in 0..slots.len() as u32 {
        judge(task, table, slots, item)?;
        table.add_item(slots[item as usize])?;
    }
    Ok(())
}

/// The placement that has these slots, kept as they are, or the first fault of the slots: their number is judged first,
/// and then item by item the index, the row, and whether an earlier item has the row. `BadSlots::NoMemory` comes where
/// memory was wanting, and only where the slots are as many as the items.
///
/// There is at least one bin, and at most as many as for `LIMIT_ITEMS` items; each candidate is a bin. There are at
/// most `LIMIT_ITEMS` items and `STASH_LIMIT` rows of the stash, and fewer than 2^32 slots.
pub fn check_placement(
    alloc: Global,
    cands: &[[u32; 3]],
    bins: u32,
    stash: u8,
    slots: &[Slot],
) -> Result<Placement, BadSlots>
    requires some_bins { 1 ≤ bins }
    requires few_bins { bins ≤ bins_for limit_items }
    requires few_items { length cands.now ≤ limit_items }
    requires stash { stash ≤ stash_limit }
    requires candidates { All (λ rows. All (λ row. row < bins) rows) cands.now }
    requires few_slots { length slots.now < 2 ^ 32 }
    ensures kept { IfOk result (λ placement. placement ≡ map slot_of slots.now) }
    ensures placement { IfOk result (IsPlacement stash bins cands.now) }
    ensures right { OnOk result (first_fault stash bins cands.now slots.now ≡ None) }
    ensures wrong { IfErr result (λ e. e ≢ bad.NoMemory → first_fault stash bins cands.now slots.now ≡ Some e) }

    // Slots that are a placement are not refused, and another number of slots always is.
    ensures accepted { IsPlacement stash bins cands.now (map slot_of slots.now) → IsOkUnless result bad.NoMemory }
    ensures count { length slots.now ≢ length cands.now → result ≡ Err (bad.Count (length slots.now)) }
{
    if slots.len() != cands.len() {
        return Err(BadSlots::Count {
            found: slots.len() as u32,
        });
    }
    let task = Task {
        candidates: cands,
        bins,
        stash: u32::from(stash),
    };
    let mut table = Table::new(alloc, slots.len(), bins + task.stash)?;
    seat_given(&task, &mut table, slots)?;
    Ok(Placement::new(table))
}
