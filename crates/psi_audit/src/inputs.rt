// The inputs of a session that is played again.

use psi_cuckoo::Placement;
use psi_deal::{ReceiverDeal, SenderDeal};
use psi_items::Items;

/// The inputs of a session: the items of both ends, their deals, which are a pair, and the slots of the receiver's
/// items.
#[derive(Clone, Copy)]
pub(crate) struct Inputs<'a> {
    /// The receiver's items.
    pub(crate) own: &'a Items,
    /// Their digests, in their order.
    pub(crate) digests: &'a [[u8; 32]],
    /// Their slots.
    pub(crate) placement: &'a Placement,
    /// The sender's items.
    pub(crate) peer: &'a Items,
    /// The receiver's deal.
    pub(crate) receiver: &'a ReceiverDeal,
    /// The sender's deal.
    pub(crate) sender: &'a SenderDeal,
}
