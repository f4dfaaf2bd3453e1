// What an audit answers.

use psi_base::{Pairs, Places};
use psi_cuckoo::BadSlots;
use psi_deal::DealField;

/// What an audit answers: the first of these that applies, in the order of deals, slots and frames.
#[derive(Drop)]
pub enum Verdict {
    /// The record is that of the session: the places, from 0 on and rising, of the receiver's items that are shown, and
    /// of each shown item that is no item of the sender its place and that of the first item of the sender whose tag it
    /// shares.
    Consistent { shown: Places, collisions: Pairs },
    /// The deals are no pair, and this is the first field in which they differ.
    DealsDiffer(DealField),
    /// The recorded slots are no placement of the receiver's items, and this is their first fault.
    Slots(BadSlots),
    /// At this place, counted from the start of the record, stands the byte `found`, where the session has `wanted`:
    /// the first place at which they differ.
    Differs { offset: u64, found: u8, wanted: u8 },
}
