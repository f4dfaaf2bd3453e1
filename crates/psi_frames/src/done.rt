// The end of a session: kind 5, without a payload.
ghost use Rattle.std.specs.Prelude.{◌≡◌, ◌≤◌};
ghost use Rattle.psi_spec.specs.Frames.{done_frame, layout};
ghost use Rattle.psi_frames.specs.Boxes.{with_added};

use crate::header::put_header;
use crate::outbox::Outbox;

/// The kind of the end of a session.
pub(crate) const DONE: u8 = 5;

/// The bytes of its frame.
pub const DONE_SIZE: u32 = 5;

/// Adds the end of a session.
pub(crate) fn put_done(out: &mut Outbox)
    requires { 5 ≤ out.old.spare }
    ensures { out.new ≡ with_added (layout done_frame) out.old }
{
    put_header(out, DONE, 0);
}
