//! Laws of item files. The functions do nothing: their contracts are the laws.
ghost use Rattle.std.specs.Prelude.{◌≡◌, ℕ, List, None};
ghost use Rattle.psi_spec.specs.Items.{first_bad, items_of};
ghost use Rattle.psi_items.specs.Made.{MadeFilesHoldLines};
ghost use Rattle.psi_items.specs.Members.{AreItems};

/// The items of every file without a bad line are at most 1,048,576, distinct, and of 1 to 256 bytes each.
pub fn files_have_items()
    ensures { (bytes : List ℕ) → first_bad bytes ≡ None → AreItems (items_of bytes) }
{}

/// No line of a made file is bad, and its items are its lines, in their order: so they are as many as were asked for,
/// and no two of them are equal.
pub fn made_files_hold_lines()
    ensures { MadeFilesHoldLines }
{}
