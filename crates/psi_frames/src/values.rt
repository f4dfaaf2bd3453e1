// Blocks of values: kind 7. The payload is the number of the block and its values, tags one after another in the order of
// rows.
ghost use Rattle.std.specs.Prelude.{◌≡◌, ◌+◌, ◌≤◌, ℕ, length};
ghost use Rattle.psi_spec.specs.Frames.{first_wrong, layout, values_frame};
ghost use Rattle.psi_frames.specs.Boxes.{with_added};
ghost use Rattle.psi_frames.specs.Values.{values_fields};

use crate::header::put_header;
use crate::outbox::Outbox;
use crate::reasons::Reason;

/// The kind of a block of values.
pub(crate) const VALUES: u8 = 7;

/// Adds a block of values.
pub(crate) fn put_values(out: &mut Outbox, block: u32, bytes: &[u8])
    requires { 9 + length bytes.now ≤ out.old.spare }
    ensures { out.new ≡ with_added (layout (values_frame block bytes.now)) out.old }
{
    put_header(out, VALUES, 4 + bytes.len());
    out.add(&block.to_be_bytes());
    out.add(bytes);
}

/// What is wrong with the payload of a block of values. Values may be any, and stand in any order.
pub(crate) fn wrong_values(block: u32, payload: &[u8]) -> Option<Reason>
    ensures { (tags tag_length : ℕ) → result ≡ first_wrong (values_fields block tags tag_length) payload.now }
{
    let (found, _) = payload.split_first_chunk::<4>()?;
    let found = u32::from_be_bytes(*found);
    if found != block {
        return Some(Reason::Index {
            found,
            wanted: block,
        });
    }
    None
}
