// A placement of all items, or the items that exclude one.
ghost use Rattle.std.specs.Prelude.{◌≡◌, ◌<◌, ◌+◌, ◌≤◌, ◌≢◌, [], All, IfErr, IfNone, IfOk, IfSome, IsOkUnless, None, OnOk, Some, if◌then◌else◌, is_some, length, map};
ghost use Rattle.psi_spec.specs.Picking.{picked};
ghost use Rattle.psi_spec.specs.Limits.{bins_for, limit_items, stash_limit};
ghost use Rattle.psi_spec.specs.Placement.{IsPlacement};
ghost use Rattle.psi_spec.specs.CrowdedLists.{IsCrowded, touched_by};
ghost use Rattle.psi_cuckoo.specs.Table.{AreOccupants, IsReady, IsTask, slot_of};
ghost use Rattle.psi_cuckoo.specs.Refusal.{HasPlacement, Refuses};
ghost use Rattle.psi_cuckoo.specs.declared.errors.NoFit.TheVariants as fit;

use crate::errors::NoFit;
use crate::placement::Placement;
use crate::search::Search;
use crate::seating::seat_all;
use crate::table::{Table, Task};
use psi_base::{NoMemory, Places};
use std::alloc::Global;

/// Puts all items in. Answers the visited items, rising, where one can't be put in.
fn seat_or_refuse(
    alloc: Global,
    task: &Task<'_>,
    table: &mut Table,
    search: &mut Search,
) -> Result<Option<Places>, NoMemory>
    requires task { IsTask task.now }
    requires ready { IsReady task.now table.old }
    requires none { table.old.slots.items ≡ [] }
    requires numbers { length task.now.candidates.now ≤ length search.old.numbers.items }
    ensures placement { IfOk result (λ crowd. IfNone crowd
        (IsPlacement task.now.stash task.now.bins task.now.candidates.now (map slot_of table.new.slots.items))) }
    ensures small { OnOk result (length table.new.slots.items ≤ length task.now.candidates.now) }
    ensures standing { IfOk result (λ crowd. IfNone crowd
        (AreOccupants table.new.slots.items table.new.occupants.items)) }
    ensures crowded { IfOk result (λ crowd. IfSome crowd
        (λ items. IsCrowded task.now.stash task.now.candidates.now items)) }
    ensures touched { IfOk result (λ crowd. IfSome crowd
        (λ items. length items ≡ touched_by task.now.candidates.now items + (task.now.stash + 1))) }
    ensures few { IfOk result (λ crowd. IfSome crowd (λ items. length items ≤ length task.now.candidates.now)) }
    ensures picks { IfOk result (λ crowd. picked task.now.stash task.now.bins task.now.candidates.now
        ≡ (if is_some crowd then None else Some (map slot_of table.new.slots.items))) }
{
    if seat_all(task, table, search)? {
        return Ok(None);
    }
    let items = search.visited_items(alloc, table.slots.len() as u32)?;
    Ok(Some(items))
}

/// A placement of items with these candidates in `bins` bins and `stash` rows of the stash, or why there is none:
/// `NoFit::Crowded` comes exactly where no placement exists, and `NoFit::NoMemory` where memory was wanting.
///
/// There is at least one bin, and at most as many as for `LIMIT_ITEMS` items; each candidate is a bin. There are at
/// most `LIMIT_ITEMS` items and `STASH_LIMIT` rows of the stash.
///
/// Items are put in one after another. An item takes its first free candidate. Where it has none, a breadth-first
/// search from it alone looks for a path of moves to a free bin, as for bipartite matching. Where there is no such
/// path, the item takes the first free row of the stash. Only where the stash is full does the search begin with the
/// stash's items too. Where that finds no path either, the items that it reached are the crowded list, after Hall's
/// theorem.
pub fn place(alloc: Global, cands: &[[u32; 3]], bins: u32, stash: u8) -> Result<Placement, NoFit>
    requires some_bins { 1 ≤ bins }
    requires few_bins { bins ≤ bins_for limit_items }
    requires few_items { length cands.now ≤ limit_items }
    requires stash { stash ≤ stash_limit }
    requires candidates { All (λ rows. All (λ row. row < bins) rows) cands.now }
    ensures placement { IfOk result (IsPlacement stash bins cands.now) }
    ensures refusal { IfErr result (Refuses stash cands.now) }

    // Items that have a placement are not refused.
    ensures found { HasPlacement stash bins cands.now → IsOkUnless result fit.NoMemory }

    // It is the picked one, which depends on nothing else, and none is picked where items are refused.
    ensures picked { IfOk result (λ slots. picked stash bins cands.now ≡ Some slots) }
    ensures none_picked { IfErr result (λ e. e ≢ fit.NoMemory → picked stash bins cands.now ≡ None) }
{
    let task = Task {
        candidates: cands,
        bins,
        stash: u32::from(stash),
    };
    let mut table = Table::new(alloc, cands.len(), bins + task.stash + 1)?;
    let mut search = Search::new(alloc, cands.len())?;
    match seat_or_refuse(alloc, &task, &mut table, &mut search)? {
        None => Ok(Placement::new(table)),
        Some(items) => {
            let touched = items.len() as u32 - task.stash - 1;
            Err(NoFit::Crowded { items, touched })
        }
    }
}
