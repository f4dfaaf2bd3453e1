// The items of the sender that have wanted tags.
ghost use Rattle.std.specs.Prelude.{◌≡◌, ◌<◌, ◌+◌, All, IfOk, OnOk, length};
ghost use Rattle.psi_spec.specs.Limits.{bins_for};
ghost use Rattle.psi_audit.specs.Naming.{AreInputs, AreRowsOf, setup_in};
ghost use Rattle.psi_audit.specs.Searching.{AreMarked, HasMet, HasMetAll, HasMetIn, IsBegun, found_at};

use crate::inputs::Inputs;
use crate::peer::PeerItem;
use crate::rows::SessionRows;
use indexmap::{IndexMap, IndexSet};
use psi_base::{NoMemory, bins};
use psi_oprf::Tag;
use std::alloc::Global;

/// The most lists of tags.
const LISTS: usize = 19;

/// A tag in one of the lists.
#[derive(Clone, Copy, PartialEq, Eq, Hash)]
pub(crate) struct ListedTag {
    /// The number of the list.
    pub(crate) list: u32,
    /// The tag, padded.
    pub(crate) tag: Tag,
}

/// Tags that are wanted, and the items of the sender that have them.
#[derive(Drop)]
pub(crate) struct Search {
    /// The wanted tags.
    pub(crate) wanted: IndexSet<ListedTag>,
    /// Whether a list has a wanted tag.
    pub(crate) lists: [bool; LISTS],
    /// Of each wanted tag that came the place of the first item that has it.
    pub(crate) found: IndexMap<ListedTag, u32>,
}

impl Search {
    /// The search for these tags, of which none came yet.
    pub(crate) fn begin(alloc: Global, tags: &[ListedTag]) -> Result<Search, NoMemory>
        requires { All (λ tag. tag.list < 19) tags.now }
        ensures { IfOk result (IsBegun tags.now) }
    {
        let mut search = Search {
            wanted: IndexSet::with_capacity(alloc, tags.len())?,
            lists: [false; LISTS],
            found: IndexMap::with_capacity(alloc, tags.len())?,
        };
        for tag in tags {
            search.lists[tag.list as usize] = true;
            search.wanted.insert(*tag)?;
        }
        Ok(search)
    }

    // Notes that the item at a place has a tag, where that is wanted and no earlier item has it.
    fn meet(&mut self, tag: ListedTag, place: u32) -> Result<(), NoMemory>
        ensures { OnOk result (HasMet tag place self.old self.new) }
    {
        if self.wanted.contains(&tag) && !self.found.contains_key(&tag) {
            self.found.insert(tag, place)?;
        }
        Ok(())
    }

    // Notes what tags the item at a place has in the lists that have wanted ones.
    fn meet_item(
        &mut self,
        inputs: &Inputs<'_>,
        rows: &SessionRows,
        item: &PeerItem,
        place: u32,
    ) -> Result<(), NoMemory>
        requires inputs { AreInputs inputs.now }
        requires rows { AreRowsOf inputs.now rows.now }
        requires bins { All (λ row. row < bins_for (length inputs.now.own.now)) item.now.bins }
        requires marked { AreMarked self.old }
        ensures { OnOk result (HasMetIn (setup_in inputs.now) (3 + inputs.now.receiver.now.stash) item.now place
            self.old self.new) }
    {
        for list in 0..3 + u32::from(inputs.receiver.stash()) {
            if self.lists[list as usize] {
                let tag = item.tag(inputs, rows, list);
                self.meet(ListedTag { list, tag }, place)?;
            }
        }
        Ok(())
    }

    /// Looks the tags of all items of the sender up, in the order of the items.
    pub(crate) fn meet_all(
        &mut self,
        inputs: &Inputs<'_>,
        rows: &SessionRows,
    ) -> Result<(), NoMemory>
        requires inputs { AreInputs inputs.now }
        requires rows { AreRowsOf inputs.now rows.now }
        requires marked { AreMarked self.old }
        ensures { OnOk result (HasMetAll (setup_in inputs.now) (3 + inputs.now.receiver.now.stash)
            inputs.now.peer.now self.old self.new) }
    {
        let bins = bins(inputs.own.len());
        for place in 0..inputs.peer.len() {
            let bytes = inputs.peer.get(place).unwrap();
            let item = PeerItem::new(inputs.receiver.key(), bins, bytes);
            self.meet_item(inputs, rows, &item, place)?;
        }
        Ok(())
    }

    /// The place of the first item that has a tag, and None where none has it.
    pub(crate) fn place_of(&self, tag: &ListedTag) -> Option<u32>
        ensures { result ≡ found_at self.now tag.now }
    {
        self.found.get(tag).copied()
    }
}
