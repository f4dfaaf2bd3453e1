// How far a session has come.
ghost use Rattle.std.specs.Prelude.{◌≡◌, ◌<◌, ◌≤◌};
ghost use Rattle.psi_spec.specs.Limits.{limit_items};
ghost use Rattle.psi_spec.specs.Streams.{block_tags, blocks_for};
ghost use Rattle.psi_receiver.specs.Phases.{first_of, next_phase};
ghost use Rattle.psi_receiver.specs.Script.{tags_at};

use psi_frames::BLOCK_TAGS;
use psi_oprf::Tag;

/// A block of a list that is awaited.
#[derive(Clone, Copy, Debug, PartialEq, Eq)]
pub(crate) struct Merge {
    /// The number of the list.
    pub(crate) list: u8,
    /// The number of the block.
    pub(crate) block: u32,
    /// The last tag of the block before it, padded, and zeros where there is none.
    pub(crate) floor: Tag,
    /// How many own tags of the list are not above the floor, where any block came.
    pub(crate) from: u32,
    /// How many tags each list has.
    pub(crate) count: u32,
}

/// What comes next in a session, once nothing is to be sent.
#[derive(Clone, Copy, Debug, PartialEq, Eq)]
pub(crate) enum Phase {
    /// The sender's hello is awaited.
    Hello,
    /// The column with this index is sent, 0 to 511. The sender has `count` items.
    Columns { next: u16, count: u32 },
    /// A block of tags is awaited.
    Tags(Merge),
    /// The end of the session is sent.
    Done,
    /// Nothing.
    Over,
}

impl Merge {
    /// The first block of a list of `count` tags.
    pub(crate) fn first(list: u8, count: u32) -> Merge
        ensures { result ≡ first_of list count }
    {
        Merge {
            list,
            block: 0,
            floor: [0; 16],
            from: 0,
            count,
        }
    }

    /// How many tags the block has.
    pub(crate) fn tags(&self) -> u16
        requires { self.now.block < blocks_for self.now.count }
        ensures tags { result ≡ tags_at self.now.count self.now.block }
        ensures some { 1 ≤ result }
        ensures few { result ≤ block_tags }
    {
        (self.count - BLOCK_TAGS * self.block).min(BLOCK_TAGS) as u16
    }

    /// What comes after the block, where there are so many lists. `last` is its last tag, padded, and `from` is how
    /// many own tags are not above that.
    pub(crate) fn after(&self, lists: u8, last: Tag, from: u32) -> Phase
        requires list { self.now.list < lists }
        requires block { self.now.block < blocks_for self.now.count }
        requires few { self.now.count ≤ limit_items }
        ensures { result ≡ next_phase lists self.now last from }
    {
        if self.block + 1 < self.count.div_ceil(BLOCK_TAGS) {
            return Phase::Tags(Merge {
                block: self.block + 1,
                floor: last,
                from,
                ..*self
            });
        }
        if self.list + 1 < lists {
            return Phase::Tags(Merge::first(self.list + 1, self.count));
        }
        Phase::Done
    }
}
