// Items that move along a path.
ghost use Rattle.std.specs.Prelude.{◌≡◌, ◌<◌, ◌+◌, ◌-◌, ◌≤◌, Some, length, map};
ghost use Rattle.psi_spec.specs.Picking.{moved};
ghost use Rattle.psi_cuckoo.specs.Picks.{path_moves, still_waits, waiting_moves, ways_of};
ghost use Rattle.psi_cuckoo.specs.Table.{IsTask, IsTable, IsFree, IsReady, LeadsToFree, occupant_at, slot_of};
ghost use Rattle.psi_cuckoo.specs.Search.{IsForest, visit_at};

use crate::search::{Path, Search};
use crate::slot::Slot;
use crate::table::{Table, Task};

impl Table {
    /// Moves each item of a path one step on. The row behind the bins where the path begins is free then, and answered.
    fn move_along(&mut self, task: &Task<'_>, search: &Search, path: Path) -> u32
        requires task { IsTask task.now }
        requires table { IsTable task.now self.old }
        requires forest { IsForest task.now self.old search.now }
        requires last { path.last < length search.now.visits.items }
        requires free { LeadsToFree task.now.candidates.now self.old.occupants.items
            (visit_at search.now.visits.items path.last).item path.index }
        requires waits { occupant_at self.old.occupants.items (task.now.bins + task.now.stash)
            ≡ Some (length self.old.slots.items - 1) }
        ensures table { IsTable task.now self.new }
        ensures free { IsFree self.new.occupants.items result }
        ensures behind { task.now.bins ≤ result }
        ensures count { length self.new.slots.items ≡ length self.old.slots.items }
        ensures moves { moved (map slot_of self.old.slots.items) (path_moves task.now.candidates.now
            (ways_of (task.now.bins + task.now.stash) self.old.slots.items search.now.visits.items)
            path.last path.index)
            ≡ moved (map slot_of self.new.slots.items) (waiting_moves (still_waits (task.now.bins + task.now.stash)
            (length self.old.slots.items - 1) result) result) }
        ensures waits { occupant_at self.new.occupants.items (task.now.bins + task.now.stash)
            ≡ still_waits (task.now.bins + task.now.stash) (length self.old.slots.items - 1) result }
    {
        let mut at = path.last;
        let mut index = path.index;
        while search.visits[at].index != 0 {
            let visit = search.visits[at];
            let row = task.candidate(visit.item, index);
            self.move_item(visit.item, Slot { row, index });
            at = visit.parent;
            index = visit.index;
        }
        let item = search.visits[at].item;
        let freed = self.slots[item as usize].row;
        let row = task.candidate(item, index);
        self.move_item(item, Slot { row, index });
        freed
    }

    /// Moves the item that waits, if one does, to a free row behind the bins.
    pub fn seat_waiting(&mut self, task: &Task<'_>, row: u32)
        requires task { IsTask task.now }
        requires table { IsTable task.now self.old }
        requires free { IsFree self.old.occupants.items row }
        requires behind { task.now.bins ≤ row }
        ensures ready { IsReady task.now self.new }
        ensures count { length self.new.slots.items ≡ length self.old.slots.items }
        ensures moves { map slot_of self.new.slots.items ≡ moved (map slot_of self.old.slots.items)
            (waiting_moves (occupant_at self.old.occupants.items (task.now.bins + task.now.stash)) row) }
    {
        let waiting = task.bins + task.stash;
        if let Some(item) = self.occupants[waiting as usize] {
            self.move_item(item, Slot { row, index: 0 });
        }
    }

    /// Moves each item of a path one step on, and the item that waits, if it still does, to the row that is left.
    pub fn follow(&mut self, task: &Task<'_>, search: &Search, path: Path)
        requires task { IsTask task.now }
        requires table { IsTable task.now self.old }
        requires waits { occupant_at self.old.occupants.items (task.now.bins + task.now.stash)
            ≡ Some (length self.old.slots.items - 1) }
        requires forest { IsForest task.now self.old search.now }
        requires last { path.last < length search.now.visits.items }
        requires free { LeadsToFree task.now.candidates.now self.old.occupants.items
            (visit_at search.now.visits.items path.last).item path.index }
        ensures ready { IsReady task.now self.new }
        ensures count { length self.new.slots.items ≡ length self.old.slots.items }
        ensures moves { moved (map slot_of self.old.slots.items) (path_moves task.now.candidates.now
            (ways_of (task.now.bins + task.now.stash) self.old.slots.items search.now.visits.items)
            path.last path.index)
            ≡ map slot_of self.new.slots.items }
    {
        let row = self.move_along(task, search, path);
        self.seat_waiting(task, row);
    }
}
