// What a record holds.
ghost use Rattle.std.specs.Prelude.{◌≡◌, ◌<◌, ◌^◌, length, map};
ghost use Rattle.psi_cuckoo.specs.Table.{slot_of};

use crate::layout::wire_place;
use psi_cuckoo::Slot;
use std::marker::Model;

/// What a record holds: the slot of each item of the receiver, and the frames that both ends exchanged.
///
/// The frames are lent: kinds 1 to 4, and then one of kind 5. What slots and payloads hold was not judged.
#[derive(Drop)]
pub struct LoggedSession<'a> {
    pub(crate) slots: Vec<Slot>,
    pub(crate) wire: &'a [u8],
}

impl<'a> Model for LoggedSession<'a> {
    ghost use Rattle.std.specs.Prelude.{◌<◌, ◌^◌, length, map};
    ghost use Rattle.psi_cuckoo.specs.Table.{slot_of};
    ghost use Rattle.psi_spec.specs.Records.{LoggedSession as Logged, IsLogged};

    ghost Value = { Logged };

    ghost view = { λ s. record { slots = map slot_of s.slots.items; wire = s.wire.now } };

    ghost invariant = { λ s. IsLogged (record { slots = map slot_of s.slots.items; wire = s.wire.now }) };
}

impl<'a> LoggedSession<'a> {
    ghost use Rattle.psi_spec.specs.Records.{IsWire, wire_place as place_of};

    /// The slot of each item, in order: fewer than 2^32.
    pub fn slots(&self) -> &[Slot]
        ensures slots { map slot_of result.now ≡ self.now.slots }
        ensures few { length result.now < 2 ^ 32 }
    {
        &self.slots
    }

    /// The bytes of the frames, of which the last alone is of kind 5.
    pub fn wire(&self) -> &'a [u8]
        ensures wire { result.now ≡ self.now.wire }
        ensures frames { IsWire result.now }
    {
        self.wire
    }

    /// The place of the first frame in the file: 9, and 5 more for each slot.
    pub fn wire_offset(&self) -> u64
        ensures { result ≡ place_of (length self.now.slots) }
    {
        wire_place(self.slots.len() as u32) as u64
    }
}
