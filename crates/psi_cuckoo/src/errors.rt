// Why items are not placed, and why slots are no placement.
ghost use Rattle.std.specs.Prelude.{◌≡◌};
ghost use Rattle.psi_cuckoo.specs.declared.errors.NoFit.TheVariants as fit;
ghost use Rattle.psi_cuckoo.specs.declared.errors.BadSlots.TheVariants as slots;

use psi_base::{NoMemory, Places};

/// Why items have no placement.
#[derive(Drop)]
pub enum NoFit {
    /// These items, in rising order, name `touched` different bins, and are more than those and the rows of the stash.
    Crowded { items: Places, touched: u32 },
    /// Memory was wanting.
    NoMemory,
}

/// Why slots are no placement of the items: the first fault, where the number of slots is judged first, and then the
/// slot of one item after another.
#[derive(Clone, Copy, Debug, PartialEq, Eq)]
pub enum BadSlots {
    /// There are `found` slots, and another number of items.
    Count { found: u32 },
    /// The index of the item's slot is above 3.
    Index { item: u32 },
    /// The row of the item's slot is not the one that its index names: the item's candidate, or a row of the stash.
    Row { item: u32 },
    /// An item and an earlier one have this row.
    Twice { row: u32 },
    /// Memory was wanting.
    NoMemory,
}

impl From<NoMemory> for NoFit {
    ghost from_gives = { λ _ e. e ≡ fit.NoMemory };

    fn from(_: NoMemory) -> NoFit {
        NoFit::NoMemory
    }
}

impl From<NoMemory> for BadSlots {
    ghost from_gives = { λ _ e. e ≡ slots.NoMemory };

    fn from(_: NoMemory) -> BadSlots {
        BadSlots::NoMemory
    }
}
