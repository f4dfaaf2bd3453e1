// Items are put in one after another.
ghost use Rattle.std.specs.Prelude.{◌≡◌, ◌<◌, ◌+◌, ◌-◌, ◌≤◌, [], IfOk, OnOk, MatchBool, None, Some, if◌then◌else◌, length, map, option_map};
ghost use Rattle.psi_spec.specs.Picking.{moved, picked, walk, with_next, with_room};
ghost use Rattle.psi_cuckoo.specs.Picks.{first_ways, waiting_way};
ghost use Rattle.psi_cuckoo.specs.Table.{AllTaken, IsReady, IsStashFull, IsTable, IsTask, occupant_at, slot_of};
ghost use Rattle.psi_cuckoo.specs.Search.{IsEnded};

use crate::search::Search;
use crate::slot::Slot;
use crate::table::{Table, Task};
use psi_base::NoMemory;

/// Moves items until none waits, where the stash is full and the item that waits has no free candidate. Answers false
/// where that can't be.
fn make_room(
    task: &Task<'_>,
    table: &mut Table,
    search: &mut Search,
    item: u32,
) -> Result<bool, NoMemory>
    requires task { IsTask task.now }
    requires table { IsTable task.now table.old }
    requires few { length table.old.slots.items ≤ length task.now.candidates.now }
    requires numbers { length task.now.candidates.now ≤ length search.old.numbers.items }
    requires full { IsStashFull task.now table.old }
    requires waits { occupant_at table.old.occupants.items (task.now.bins + task.now.stash) ≡ Some item }
    requires last { item ≡ length table.old.slots.items - 1 }
    requires taken { AllTaken task.now.candidates.now table.old.occupants.items item }
    ensures numbers { OnOk result (length task.now.candidates.now ≤ length search.new.numbers.items) }
    ensures count { length table.new.slots.items ≡ length table.old.slots.items }
    ensures room { IfOk result (λ done. MatchBool done
        (IsReady task.now table.new) (IsEnded task.now table.new search.new)) }
    ensures picks { IfOk result (λ done. option_map (moved (map slot_of table.old.slots.items))
        (walk (length table.old.slots.items) task.now.candidates.now (map slot_of table.old.slots.items) 0
        (first_ways task.now.stash task.now.bins (map slot_of table.old.slots.items)
        (waiting_way table.old.slots.items)))
        ≡ (if done then Some (map slot_of table.new.slots.items) else None)) }
{
    let Some(path) = search.find_path_from_all(task, table, item)? else {
        return Ok(false);
    };
    table.follow(task, search, path);
    Ok(true)
}

/// Seats the item that waits, which has no free candidate. Answers false where that can't be.
fn seat_last(
    task: &Task<'_>,
    table: &mut Table,
    search: &mut Search,
    item: u32,
) -> Result<bool, NoMemory>
    requires task { IsTask task.now }
    requires table { IsTable task.now table.old }
    requires few { length table.old.slots.items ≤ length task.now.candidates.now }
    requires numbers { length task.now.candidates.now ≤ length search.old.numbers.items }
    requires waits { occupant_at table.old.occupants.items (task.now.bins + task.now.stash) ≡ Some item }
    requires last { item ≡ length table.old.slots.items - 1 }
    requires taken { AllTaken task.now.candidates.now table.old.occupants.items item }
    ensures numbers { OnOk result (length task.now.candidates.now ≤ length search.new.numbers.items) }
    ensures count { OnOk result (length table.new.slots.items ≡ length table.old.slots.items) }
    ensures room { IfOk result (λ done. MatchBool done
        (IsReady task.now table.new) (IsEnded task.now table.new search.new)) }
    ensures picks { IfOk result (λ done. with_room task.now.stash task.now.bins task.now.candidates.now
        (map slot_of table.old.slots.items) (waiting_way table.old.slots.items)
        ≡ (if done then Some (map slot_of table.new.slots.items) else None)) }
{
    if let Some(path) = search.find_path(task, table, item)? {
        table.follow(task, search, path);
        return Ok(true);
    }
    if let Some(row) = table.free_stash_row(task) {
        table.seat_waiting(task, row);
        return Ok(true);
    }
    make_room(task, table, search, item)
}

/// Puts the next item in. Answers false where that can't be.
pub(crate) fn seat_next(
    task: &Task<'_>,
    table: &mut Table,
    search: &mut Search,
) -> Result<bool, NoMemory>
    requires task { IsTask task.now }
    requires ready { IsReady task.now table.old }
    requires next { length table.old.slots.items < length task.now.candidates.now }
    requires numbers { length task.now.candidates.now ≤ length search.old.numbers.items }
    ensures numbers { OnOk result (length task.now.candidates.now ≤ length search.new.numbers.items) }
    ensures count { OnOk result (length table.new.slots.items ≡ length table.old.slots.items + 1) }
    ensures seated { IfOk result (λ done. MatchBool done
        (IsReady task.now table.new) (IsEnded task.now table.new search.new)) }
    ensures picks { IfOk result (λ done. with_next task.now.stash task.now.bins task.now.candidates.now
        (map slot_of table.old.slots.items)
        ≡ (if done then Some (map slot_of table.new.slots.items) else None)) }
{
    let item = table.slots.len() as u32;
    if let Some(slot) = table.free_candidate(task, item) {
        table.add_item(slot)?;
        return Ok(true);
    }
    let row = task.bins + task.stash;
    table.add_item(Slot { row, index: 0 })?;
    seat_last(task, table, search, item)
}

/// Puts all items in. Answers false where one can't be put in.
pub(crate) fn seat_all(
    task: &Task<'_>,
    table: &mut Table,
    search: &mut Search,
) -> Result<bool, NoMemory>
    requires task { IsTask task.now }
    requires ready { IsReady task.now table.old }
    requires none { table.old.slots.items ≡ [] }
    requires numbers { length task.now.candidates.now ≤ length search.old.numbers.items }
    ensures count { OnOk result (length table.new.slots.items ≤ length task.now.candidates.now) }
    ensures seated { IfOk result (λ done. MatchBool done
        ((length table.new.slots.items ≡ length task.now.candidates.now) × IsReady task.now table.new)
        (IsEnded task.now table.new search.new)) }
    ensures picks { IfOk result (λ done. picked task.now.stash task.now.bins task.now.candidates.now
        ≡ (if done then Some (map slot_of table.new.slots.items) else None)) }
{
    for _item in 0..task.candidates.len() {
        if !seat_next(task, table, search)? {
            return Ok(false);
        }
    }
    Ok(true)
}
