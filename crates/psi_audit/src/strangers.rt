// Items that are shown and are none of the sender's.
ghost use Rattle.std.specs.Prelude.{◌≡◌, ◌<◌, ◌&&◌, false, not, [], IfOk, length, map, slice_index_or};
ghost use Rattle.std.specs.List.{list_any};
ghost use Rattle.std.specs.Str.{bytes_eq};
ghost use Rattle.psi_spec.specs.Meeting.{is_shown};
ghost use Rattle.psi_audit.specs.Naming.{AreInputs, setup_in, strangers_from};

use crate::inputs::Inputs;
use psi_base::NoMemory;
use psi_cuckoo::Slot;
use std::alloc::Global;

/// An item of the receiver that is shown and is no item of the sender.
#[derive(Clone, Copy)]
pub(crate) struct Stranger {
    /// Its place.
    pub(crate) item: u32,
    /// Its slot.
    pub(crate) slot: Slot,
}

// Whether the receiver's item at a place is none of the sender's.
fn is_foreign(inputs: &Inputs<'_>, place: u32) -> bool
    requires { place < length inputs.now.own.now }
    ensures { result ≡ not (list_any (bytes_eq (slice_index_or inputs.now.own.now place [])) inputs.now.peer.now) }
{
    let item = inputs.own.get(place).unwrap();
    inputs.peer.find(item).is_none()
}

// Whether the receiver's item at a place is a stranger, where those that are shown have a mark.
fn is_stranger(inputs: &Inputs<'_>, marks: &[bool], place: u32) -> bool
    requires mark { place < length marks.now }
    requires item { place < length inputs.now.own.now }
    ensures { result ≡ (slice_index_or marks.now place false
        && not (list_any (bytes_eq (slice_index_or inputs.now.own.now place [])) inputs.now.peer.now)) }
{
    marks[place as usize] && is_foreign(inputs, place)
}

/// The strangers among the receiver's items, of which those that are shown have a mark.
pub(crate) fn strangers(
    alloc: Global,
    inputs: &Inputs<'_>,
    marks: &[bool],
) -> Result<Vec<Stranger>, NoMemory>
    requires inputs { AreInputs inputs.now }
    requires marks { marks.now ≡ map (is_shown (setup_in inputs.now) inputs.now.peer.now) (setup_in inputs.now).placed }
    ensures { IfOk result (λ made. made.items
        ≡ strangers_from (setup_in inputs.now) inputs.now.peer.now 0 (setup_in inputs.now).placed) }
{
    let mut made = Vec::new(alloc);
    for item in 0..inputs.own.len() {
        if is_stranger(inputs, marks, item) {
            let slot = inputs.placement.slot(item).unwrap();
            made.push(Stranger { item, slot })?;
        }
    }
    Ok(made)
}
