// What every frame begins with: its kind, and the length of its payload.
ghost use Rattle.std.specs.Prelude.{◌≡◌, ◌+◌, ◌≤◌, ◌∷◌};
ghost use Rattle.std.specs.Int.{w32, to_be_bytes};
ghost use Rattle.psi_frames.specs.Boxes.{with_added};

use crate::outbox::Outbox;

/// The bytes before a payload: the kind, and the length of the payload.
pub(crate) const HEADER_LENGTH: usize = 5;

/// Adds the kind of a frame and the length of its payload.
#[tactic(auto, using(crate::proofs::Added::with_added_twice))]
pub(crate) fn put_header(out: &mut Outbox, kind: u8, length: usize)
    requires { 5 + length ≤ out.old.spare }
    ensures { out.new ≡ with_added (kind ∷ to_be_bytes w32 length) out.old }
{
    out.add(&[kind]);
    out.add(&(length as u32).to_be_bytes());
}
