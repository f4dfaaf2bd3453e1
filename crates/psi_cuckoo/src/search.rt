// A breadth-first search for a free bin.
ghost use Rattle.std.specs.Prelude.{◌≡◌, ◌<◌, ◌+◌, ◌-◌, ◌*◌, ◌≤◌, ◌^◌, IsTrue, ◌↔◌, IfNone, IfOk, IfSome, IsSome, OnOk, MatchBool, MatchOption, Some, ◌∷◌, [], fold, length, map, option_map};
ghost use Rattle.psi_spec.specs.Picking.{choices_of, led_to, walk};
ghost use Rattle.psi_cuckoo.specs.Picks.{Begins, first_ways, path_moves, waiting_way, way_at, ways_of};
ghost use Rattle.psi_cuckoo.specs.Table.{AllTaken, IsStashFull, IsTable, IsTask, LeadsToFree, occupant_at, slot_of};
ghost use Rattle.psi_cuckoo.specs.Search.{AllFollowed, AllReached, AreNumbered, AreRising, ComesTo, Extends, IsAdded, IsClosed, IsFirstPath, IsForest, IsKept, IsReached, IsVisited, NoneFree, StashReached, visit_at};

use crate::table::{Table, Task};
use psi_base::{NoMemory, Places};
use std::alloc::Global;

/// How a search came to an item: from the item of its parent, an earlier visit, whose candidate with this index is the
/// item's row, or from the rows behind the bins where the index is 0.
#[derive(Clone, Copy, Debug, PartialEq, Eq)]
pub(crate) struct Visit {
    pub item: u32,
    pub parent: usize,
    pub index: u8,
}

/// A path from a row behind the bins to a free bin: its last visit, whose item has the bin as its candidate with this
/// index.
#[derive(Clone, Copy, Debug, PartialEq, Eq)]
pub(crate) struct Path {
    pub last: usize,
    pub index: u8,
}

/// A search, with buffers that serve all searches.
#[derive(Drop)]
pub(crate) struct Search {
    /// The visits in their order.
    pub visits: Vec<Visit>,
    /// The number of each item's visit. An item was visited where the visit of that number is its own, so what earlier
    /// searches left here is harmless.
    pub numbers: Vec<usize>,
}

impl Search {
    /// A search that has visited none of so many items.
    pub fn new(alloc: Global, items: usize) -> Result<Search, NoMemory>
        requires { 8 * items < 2 ^ 63 }
        ensures { IfOk result (λ search. length search.numbers.items ≡ items) }
    {
        Ok(Search {
            visits: Vec::new(alloc),
            numbers: vec![in alloc; 0usize; items]?,
        })
    }

    /// Whether an item was visited.
    pub fn is_visited(&self, item: u32) -> bool
        requires item { item < length self.now.numbers.items }
        requires numbered { AreNumbered self.now.visits.items self.now.numbers.items }
        ensures { IsTrue result ↔ IsVisited self.now.visits.items item }
    {
        let number = self.numbers[item as usize];
        number < self.visits.len() && self.visits[number].item == item
    }

    /// Adds a visit, where its item has none yet. Answers whether it has none.
    pub fn visit(&mut self, visit: Visit) -> Result<bool, NoMemory>
        requires item { visit.item < length self.old.numbers.items }
        requires numbered { AreNumbered self.old.visits.items self.old.numbers.items }
        ensures { IfOk result (λ is_new. MatchBool is_new
            (IsAdded self.old self.new visit) (IsKept self.old self.new visit)) }
    {
        if self.is_visited(visit.item) {
            return Ok(false);
        }
        self.numbers[visit.item as usize] = self.visits.len();
        self.visits.push(visit)?;
        Ok(true)
    }

    /// Visits the item that stands in a row, where it has no visit yet. Answers the path that ends with it, if it has a
    /// free candidate.
    fn reach(
        &mut self,
        task: &Task<'_>,
        table: &Table,
        row: u32,
        parent: usize,
        index: u8,
    ) -> Result<Option<Path>, NoMemory>
        requires task { IsTask task.now }
        requires table { IsTable task.now table.now }
        requires forest { IsForest task.now table.now self.old }
        requires inside { row < length table.now.occupants.items }
        requires stands { IsSome (occupant_at table.now.occupants.items row) }
        requires taken { NoneFree task.now table.now self.old }
        ensures came { OnOk result (ComesTo table.now self.old self.new row parent index) }
        ensures found { IfOk result (λ found. MatchOption found
            (NoneFree task.now table.now self.new) (λ path. IsFirstPath task.now table.now self.new path)) }
        ensures late { IfOk result (λ found. IfSome found (λ path. length self.old.visits.items ≤ path.last)) }
    {
        let Some(item) = table.occupants[row as usize] else {
            return Ok(None);
        };
        let is_new = self.visit(Visit {
            item,
            parent,
            index,
        })?;
        if !is_new {
            return Ok(None);
        }
        let Some(free) = table.free_candidate(task, item) else {
            return Ok(None);
        };
        let last = self.visits.len() - 1;
        Ok(Some(Path {
            last,
            index: free.index,
        }))
    }

    /// Begins a search with the item that waits, which has no free candidate.
    fn begin(&mut self, task: &Task<'_>, table: &Table, item: u32) -> Result<(), NoMemory>
        requires task { IsTask task.now }
        requires table { IsTable task.now table.now }
        requires few { length table.now.slots.items ≤ length task.now.candidates.now }
        requires numbers { length task.now.candidates.now ≤ length self.old.numbers.items }
        requires waits { occupant_at table.now.occupants.items (task.now.bins + task.now.stash) ≡ Some item }
        requires last { item ≡ length table.now.slots.items - 1 }
        requires taken { AllTaken task.now.candidates.now table.now.occupants.items item }
        ensures forest { OnOk result (IsForest task.now table.now self.new) }
        ensures reached { OnOk result
            (IsReached table.now.occupants.items self.new.visits.items (task.now.bins + task.now.stash)) }
        ensures taken { OnOk result (NoneFree task.now table.now self.new) }
        ensures ways { OnOk result (
            ways_of (task.now.bins + task.now.stash) table.now.slots.items self.new.visits.items
            ≡ waiting_way table.now.slots.items ∷ []) }
    {
        self.visits.clear();
        self.visit(Visit {
            item,
            parent: 0,
            index: 0,
        })?;
        Ok(())
    }

    /// Visits the items of the stash, up to the first that has a free candidate. Answers the path that ends with it, if
    /// there is one.
    fn visit_stash(&mut self, task: &Task<'_>, table: &Table) -> Result<Option<Path>, NoMemory>
        requires task { IsTask task.now }
        requires table { IsTable task.now table.now }
        requires full { IsStashFull task.now table.now }
        requires forest { IsForest task.now table.now self.old }
        requires reached { IsReached table.now.occupants.items self.old.visits.items (task.now.bins + task.now.stash) }
        requires taken { NoneFree task.now table.now self.old }
        requires ways { ways_of (task.now.bins + task.now.stash) table.now.slots.items self.old.visits.items
            ≡ waiting_way table.now.slots.items ∷ [] }
        ensures forest { OnOk result (IsForest task.now table.now self.new) }
        ensures found { IfOk result (λ found. MatchOption found
            (NoneFree task.now table.now self.new) (λ path. IsFirstPath task.now table.now self.new path)) }
        ensures reached { IfOk result (λ found. IfNone found (StashReached task.now table.now self.new)) }
        ensures ways { IfOk result (λ found. IfNone found (
            ways_of (task.now.bins + task.now.stash) table.now.slots.items self.new.visits.items
            ≡ first_ways task.now.stash task.now.bins (map slot_of table.now.slots.items)
            (waiting_way table.now.slots.items))) }
        ensures begins { OnOk result (Begins
            (ways_of (task.now.bins + task.now.stash) table.now.slots.items self.new.visits.items)
            (first_ways task.now.stash task.now.bins (map slot_of table.now.slots.items)
            (waiting_way table.now.slots.items))) }
    {
        for row in task.bins..task.bins + task.stash {
            if let Some(path) = self.reach(task, table, row, 0, 0)? {
                return Ok(Some(path));
            }
        }
        Ok(None)
    }

    /// Visits the items that stand where candidates of a visited item are, up to the first that has a free candidate.
    /// Answers the path that ends with it, if there is one.
    fn visit_candidates(
        &mut self,
        task: &Task<'_>,
        table: &Table,
        at: usize,
    ) -> Result<Option<Path>, NoMemory>
        requires task { IsTask task.now }
        requires table { IsTable task.now table.now }
        requires forest { IsForest task.now table.now self.old }
        requires at { at < length self.old.visits.items }
        requires taken { NoneFree task.now table.now self.old }
        ensures forest { OnOk result (IsForest task.now table.now self.new) }
        ensures grows { OnOk result (Extends self.old.visits.items self.new.visits.items) }
        ensures found { IfOk result (λ found. MatchOption found
            (NoneFree task.now table.now self.new) (λ path. IsFirstPath task.now table.now self.new path)) }
        ensures late { IfOk result (λ found. IfSome found (λ path. length self.old.visits.items ≤ path.last)) }
        ensures reached { IfOk result (λ found. IfNone found
            (AllReached task.now.candidates.now table.now.occupants.items self.new.visits.items
            (visit_at self.old.visits.items at).item)) }
        ensures ways { IfOk result (λ found. IfNone found (
            ways_of (task.now.bins + task.now.stash) table.now.slots.items self.new.visits.items
            ≡ fold (led_to (map slot_of table.now.slots.items) (way_at (ways_of (task.now.bins + task.now.stash)
            table.now.slots.items self.old.visits.items) at))
            (ways_of (task.now.bins + task.now.stash) table.now.slots.items self.old.visits.items)
            (choices_of task.now.candidates.now (visit_at self.old.visits.items at).item))) }
        ensures begins { OnOk result (Begins
            (ways_of (task.now.bins + task.now.stash) table.now.slots.items self.new.visits.items)
            (fold (led_to (map slot_of table.now.slots.items) (way_at (ways_of (task.now.bins + task.now.stash)
            table.now.slots.items self.old.visits.items) at))
            (ways_of (task.now.bins + task.now.stash) table.now.slots.items self.old.visits.items)
            (choices_of task.now.candidates.now (visit_at self.old.visits.items at).item))) }
    {
        let parent = self.visits[at].item;
        for index in 1..4u8 {
            let row = task.candidate(parent, index);
            if let Some(path) = self.reach(task, table, row, at, index)? {
                return Ok(Some(path));
            }
        }
        Ok(None)
    }

    /// Goes on from visits whose items have no free candidate to the first item that has one. Answers the path that
    /// ends with it, if there is one.
    fn go_on(&mut self, task: &Task<'_>, table: &Table) -> Result<Option<Path>, NoMemory>
        requires task { IsTask task.now }
        requires table { IsTable task.now table.now }
        requires forest { IsForest task.now table.now self.old }
        requires taken { NoneFree task.now table.now self.old }
        ensures forest { OnOk result (IsForest task.now table.now self.new) }
        ensures grows { OnOk result (Extends self.old.visits.items self.new.visits.items) }
        ensures found { IfOk result (λ found. MatchOption found
            (AllFollowed task.now.candidates.now table.now.occupants.items self.new.visits.items)
            (λ path. (path.last < length self.new.visits.items)
            × LeadsToFree task.now.candidates.now table.now.occupants.items
            (visit_at self.new.visits.items path.last).item path.index)) }
        ensures way { IfOk result (λ found. walk (length table.now.slots.items) task.now.candidates.now
            (map slot_of table.now.slots.items) 0
            (ways_of (task.now.bins + task.now.stash) table.now.slots.items self.old.visits.items)
            ≡ option_map (λ path. path_moves task.now.candidates.now (ways_of (task.now.bins + task.now.stash)
            table.now.slots.items self.new.visits.items) path.last path.index) found) }
    {
        let mut at = 0;
        while at < self.visits.len() {
            if let Some(path) = self.visit_candidates(task, table, at)? {
                return Ok(Some(path));
            }
            at += 1;
        }
        Ok(None)
    }

    /// A shortest path from the item that waits, which has no free candidate, to a free bin, if there is one.
    pub fn find_path(
        &mut self,
        task: &Task<'_>,
        table: &Table,
        item: u32,
    ) -> Result<Option<Path>, NoMemory>
        requires task { IsTask task.now }
        requires table { IsTable task.now table.now }
        requires few { length table.now.slots.items ≤ length task.now.candidates.now }
        requires numbers { length task.now.candidates.now ≤ length self.old.numbers.items }
        requires waits { occupant_at table.now.occupants.items (task.now.bins + task.now.stash) ≡ Some item }
        requires last { item ≡ length table.now.slots.items - 1 }
        requires taken { AllTaken task.now.candidates.now table.now.occupants.items item }
        ensures forest { OnOk result (IsForest task.now table.now self.new) }
        ensures found { IfOk result (λ found. IfSome found
            (λ path. (path.last < length self.new.visits.items)
            × LeadsToFree task.now.candidates.now table.now.occupants.items
            (visit_at self.new.visits.items path.last).item path.index)) }
        ensures way { IfOk result (λ found. walk (length table.now.slots.items) task.now.candidates.now
            (map slot_of table.now.slots.items) 0 (waiting_way table.now.slots.items ∷ [])
            ≡ option_map (λ path. path_moves task.now.candidates.now (ways_of (task.now.bins + task.now.stash)
            table.now.slots.items self.new.visits.items) path.last path.index) found) }
    {
        self.begin(task, table, item)?;
        self.go_on(task, table)
    }

    /// A shortest path from the items behind the bins to a free bin, if there is one.
    pub fn find_path_from_all(
        &mut self,
        task: &Task<'_>,
        table: &Table,
        item: u32,
    ) -> Result<Option<Path>, NoMemory>
        requires task { IsTask task.now }
        requires table { IsTable task.now table.now }
        requires few { length table.now.slots.items ≤ length task.now.candidates.now }
        requires numbers { length task.now.candidates.now ≤ length self.old.numbers.items }
        requires full { IsStashFull task.now table.now }
        requires waits { occupant_at table.now.occupants.items (task.now.bins + task.now.stash) ≡ Some item }
        requires last { item ≡ length table.now.slots.items - 1 }
        requires taken { AllTaken task.now.candidates.now table.now.occupants.items item }
        ensures forest { OnOk result (IsForest task.now table.now self.new) }
        ensures found { IfOk result (λ found. MatchOption found
            (IsClosed (task.now.stash + 1) task.now.bins task.now.candidates.now table.now.occupants.items
            self.new.visits.items)
            (λ path. (path.last < length self.new.visits.items)
            × LeadsToFree task.now.candidates.now table.now.occupants.items
            (visit_at self.new.visits.items path.last).item path.index)) }
        ensures way { IfOk result (λ found. walk (length table.now.slots.items) task.now.candidates.now
            (map slot_of table.now.slots.items) 0 (first_ways task.now.stash task.now.bins
            (map slot_of table.now.slots.items) (waiting_way table.now.slots.items))
            ≡ option_map (λ path. path_moves task.now.candidates.now (ways_of (task.now.bins + task.now.stash)
            table.now.slots.items self.new.visits.items) path.last path.index) found) }
    {
        self.begin(task, table, item)?;
        if let Some(path) = self.visit_stash(task, table)? {
            return Ok(Some(path));
        }
        let found = self.go_on(task, table)?;
        Ok(found)
    }

    /// The visited items below `end`, rising.
    pub fn visited_items(&self, alloc: Global, end: u32) -> Result<Places, NoMemory>
        requires numbers { end ≤ length self.now.numbers.items }
        requires numbered { AreNumbered self.now.visits.items self.now.numbers.items }
        ensures rising { IfOk result (λ items. AreRising self.now.visits.items end items) }
        ensures few { IfOk result (λ items. length items ≤ end) }
    {
        let mut items = Places::new(alloc);
        for item in 0..end {
            if self.is_visited(item) {
                items.push(item)?;
            }
        }
        Ok(items)
    }
}
