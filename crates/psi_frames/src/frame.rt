// Frames, and how one is written. What each kind has stands in the file of its kind.
ghost use Rattle.std.specs.Prelude.{◌≡◌, ◌≤◌, length};
ghost use Rattle.psi_spec.specs.Frames.{layout};
ghost use Rattle.psi_frames.specs.Boxes.{with_added};
ghost use Rattle.psi_frames.specs.Expected.{seen};

use crate::column::put_column;
use crate::done::put_done;
use crate::hello::{RECEIVER_HELLO, SENDER_HELLO, put_hello};
use crate::outbox::Outbox;
use crate::tags::put_tags;
use crate::values::put_values;

/// A frame. Its bytes are lent.
#[derive(Clone, Copy, Debug, PartialEq, Eq)]
pub enum Frame<'a> {
    /// The receiver's first: the id and the session of its deal, and how many items it has.
    ReceiverHello {
        id: [u8; 16],
        session: u64,
        count: u32,
    },
    /// The sender's first: the id and the session of its deal, and how many items it has.
    SenderHello {
        id: [u8; 16],
        session: u64,
        count: u32,
    },
    /// The column with this index, from 0 to 511: one bit for each row, eight to a byte.
    Column {
        index: u16,
        bytes: &'a [u8],
    },
    /// The tags of a block of a list, one after another.
    Tags {
        list: u8,
        block: u32,
        bytes: &'a [u8],
    },
    /// The values of a block of rows, one after another in the order of rows.
    Values {
        block: u32,
        bytes: &'a [u8],
    },
    /// The end of the session.
    Done,
}

/// Adds the bytes of a frame. The outbox has room to spare for them.
pub fn put(out: &mut Outbox, frame: &Frame<'_>)
    requires { length (layout (seen frame.now)) ≤ out.old.spare }
    ensures { out.new ≡ with_added (layout (seen frame.now)) out.old }
{
    match frame {
        Frame::ReceiverHello { id, session, count } => put_hello(
            out,
            RECEIVER_HELLO,
            id,
            *session,
            *count,
        ),
        Frame::SenderHello { id, session, count } => put_hello(
            out,
            SENDER_HELLO,
            id,
            *session,
            *count,
        ),
        Frame::Column { index, bytes } => put_column(out, *index, bytes),
        Frame::Tags { list, block, bytes } => put_tags(out, *list, *block, bytes),
        Frame::Values { block, bytes } => put_values(out, *block, bytes),
        Frame::Done => put_done(out),
    }
}
