// The collisions of a session.
ghost use Rattle.std.specs.Prelude.{◌≡◌, ◌≤◌, ◌<◌, ◌+◌, [], IfOk, length, map};
ghost use Rattle.psi_spec.specs.Collisions.{collisions as all_collisions};
ghost use Rattle.psi_spec.specs.Hits.{list_of_slot};
ghost use Rattle.psi_spec.specs.Limits.{row_limit};
ghost use Rattle.psi_spec.specs.Meeting.{is_shown};
ghost use Rattle.psi_cuckoo.specs.Table.{slot_of};
ghost use Rattle.psi_audit.specs.Naming.{AreInputs, AreRowsOf, AreWithin, named_pairs, own_listed, rows_in, setup_in, stranger_tag};
ghost use Rattle.psi_audit.specs.Searching.{found_at};
ghost use Rattle.psi_audit.specs.Verdicts.{places_of};

use crate::inputs::Inputs;
use crate::naming::{ListedTag, Search};
use crate::rows::SessionRows;
use crate::strangers::{Stranger, strangers};
use psi_base::{NoMemory, Pairs, bins};
use psi_cuckoo::Slot;
use psi_oprf::own_tag;
use std::alloc::Global;

// The number of the list in which the tag of a slot is looked up, where there are so many bins.
fn list_of(slot: Slot, bins: u32) -> u32
    requires { slot.row ≤ row_limit }
    ensures { result ≡ list_of_slot bins (slot_of slot) }
{
    if slot.index == 0 {
        3 + slot.row.saturating_sub(bins)
    } else {
        u32::from(slot.index) - 1
    }
}

// The own tag of a slot, in the list in which it is looked up.
fn own_listed(inputs: &Inputs<'_>, rows: &SessionRows, slot: Slot) -> ListedTag
    requires inputs { AreInputs inputs.now }
    requires rows { AreRowsOf inputs.now rows.now }
    requires row { slot.row < rows_in inputs.now }
    ensures { result ≡ own_listed (setup_in inputs.now) (slot_of slot) }
{
    let key = inputs.receiver.key();
    let tag_length = inputs.receiver.tag_length();
    let word = rows.zero.row(slot.row);
    ListedTag {
        list: list_of(slot, bins(inputs.own.len())),
        tag: own_tag(key, tag_length, slot.row, word),
    }
}

// The own tags of strangers, in their order.
fn own_tags(
    alloc: Global,
    inputs: &Inputs<'_>,
    rows: &SessionRows,
    strangers: &[Stranger],
) -> Result<Vec<ListedTag>, NoMemory>
    requires inputs { AreInputs inputs.now }
    requires rows { AreRowsOf inputs.now rows.now }
    requires within { AreWithin (rows_in inputs.now) strangers.now }
    ensures { IfOk result (λ tags. tags.items ≡ map (stranger_tag (setup_in inputs.now)) strangers.now) }
{
    let mut tags = Vec::with_capacity(alloc, strangers.len())?;
    for i in 0..strangers.len() {
        tags.push(own_listed(inputs, rows, strangers[i].slot))?;
    }
    Ok(tags)
}

// The places of strangers that have these tags, each with the place that was found for its tag.
fn pairs(
    alloc: Global,
    strangers: &[Stranger],
    tags: &[ListedTag],
    search: &Search,
) -> Result<Pairs, NoMemory>
    requires { length tags.now ≡ length strangers.now }
    ensures { IfOk result (λ pairs. pairs ≡ named_pairs strangers.now (map (found_at search.now) tags.now)) }
{
    let mut pairs = Pairs::new(alloc);
    for i in 0..strangers.len() {
        if let Some(place) = search.place_of(&tags[i]) {
            pairs.push(strangers[i].item, place)?;
        }
    }
    Ok(pairs)
}

/// The places of the collisions, in the order of the receiver's items, of which those that are shown have a mark. It is
/// refused only where memory is wanting.
pub(crate) fn collisions(
    alloc: Global,
    inputs: &Inputs<'_>,
    marks: &[bool],
) -> Result<Pairs, NoMemory>
    requires inputs { AreInputs inputs.now }
    requires marks { marks.now ≡ map (is_shown (setup_in inputs.now) inputs.now.peer.now) (setup_in inputs.now).placed }
    ensures { IfOk result (λ pairs. pairs ≡ map places_of (all_collisions (setup_in inputs.now) inputs.now.peer.now)) }
{
    let strangers = strangers(alloc, inputs, marks)?;
    if strangers.is_empty() {
        return Ok(Pairs::new(alloc));
    }
    let rows = SessionRows::new(alloc, inputs)?;
    let tags = own_tags(alloc, inputs, &rows, &strangers)?;
    let mut search = Search::begin(alloc, &tags)?;
    search.meet_all(inputs, &rows)?;
    pairs(alloc, &strangers, &tags, &search)
}
