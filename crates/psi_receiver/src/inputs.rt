// The inputs of a session.

use psi_cuckoo::Placement;
use psi_deal::ReceiverDeal;
use psi_items::Items;

/// The inputs of a session: items with their digests and slots, and the deal. The digests are read while it is made,
/// and the others as long as it lasts.
#[derive(Clone, Copy)]
pub(crate) struct Inputs<'a, 'd> {
    /// The items.
    pub(crate) items: &'a Items,
    /// Their digests, in their order.
    pub(crate) digests: &'d [[u8; 32]],
    /// The deal.
    pub(crate) deal: &'a ReceiverDeal,
    /// The slots of the items.
    pub(crate) placement: &'a Placement,
}
