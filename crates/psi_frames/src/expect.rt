// The one frame that may come next, and how its payload is judged and read. What each kind has stands in the file of
// its kind.
ghost use Rattle.std.specs.Prelude.{◌≡◌, length};
ghost use Rattle.psi_spec.specs.Frames.{first_wrong};
ghost use Rattle.psi_frames.specs.Expected.{frame_length, kind_of, payload_fields, payload_frame as spec_frame, payload_of, seen};

use crate::column::{COLUMN, column_bytes, wrong_column};
use crate::done::DONE;
use crate::frame::Frame;
use crate::header::HEADER_LENGTH;
use crate::hello::{HELLO_LENGTH, RECEIVER_HELLO, SENDER_HELLO, count_of, wrong_hello};
use crate::reasons::Reason;
use crate::tags::{TAGS, wrong_tags};
use crate::values::{VALUES, wrong_values};
use psi_base::TagLength;

/// The one frame that may come next.
#[derive(Clone, Copy, Debug, PartialEq, Eq)]
pub enum Expect {
    /// The receiver's hello, of this deal and session.
    ReceiverHello {
        id: [u8; 16],
        session: u64,
    },
    /// The sender's hello, of this deal and session.
    SenderHello {
        id: [u8; 16],
        session: u64,
    },
    /// The column with this index, of so many rows.
    Column {
        index: u16,
        rows: u32,
    },
    /// A block of a list: so many tags of this length. `floor` is the last tag of the block before it with zeros
    /// behind it, and all zeros where there is none.
    Tags {
        list: u8,
        block: u32,
        tags: u16,
        tag_length: TagLength,
        floor: [u8; 16],
    },
    /// A block of values: so many tags of `tag_length` bytes, in the order of rows.
    Values {
        block: u32,
        tags: u16,
        tag_length: TagLength,
    },
    /// The end of the session.
    Done,
}

impl Expect {
    /// The kind of the frame, its first byte.
    pub(crate) fn kind(&self) -> u8
        ensures { result ≡ kind_of self.now }
    {
        match self {
            Expect::ReceiverHello { .. } => RECEIVER_HELLO,
            Expect::SenderHello { .. } => SENDER_HELLO,
            Expect::Column { .. } => COLUMN,
            Expect::Tags { .. } => TAGS,
            Expect::Values { .. } => VALUES,
            Expect::Done => DONE,
        }
    }

    /// The exact length of the frame's payload, in bytes.
    pub fn payload(&self) -> u32
        ensures { result ≡ payload_of self.now }
    {
        match self {
            Expect::ReceiverHello { .. } | Expect::SenderHello { .. } => HELLO_LENGTH as u32,
            Expect::Column { rows, .. } => 2 + column_bytes(*rows),
            Expect::Tags {
                tags,
                tag_length,
                ..
            } => 5 + u32::from(*tags) * u32::from(tag_length.get()),
            Expect::Values {
                tags,
                tag_length,
                ..
            } => 4 + u32::from(*tags) * u32::from(tag_length.get()),
            Expect::Done => 0,
        }
    }

    /// The length of the whole frame, in bytes.
    pub(crate) fn frame_length(&self) -> usize
        ensures { result ≡ frame_length self.now }
    {
        HEADER_LENGTH + self.payload() as usize
    }
}

/// What is wrong with a payload.
pub(crate) fn wrong_payload(expect: &Expect, payload: &[u8]) -> Option<Reason>
    ensures { result ≡ first_wrong (payload_fields expect.now) payload.now }
{
    match expect {
        Expect::ReceiverHello { id, session } | Expect::SenderHello { id, session } => {
            wrong_hello(id, *session, payload)
        }
        Expect::Column { index, rows } => wrong_column(*index, *rows, payload),
        Expect::Tags {
            list,
            block,
            tags,
            tag_length,
            floor,
        } => wrong_tags(*list, *block, *tags, *tag_length, floor, payload),
        Expect::Values { block, .. } => wrong_values(*block, payload),
        Expect::Done => None,
    }
}

/// The frame that a payload holds, where it is the expected one.
pub(crate) fn payload_frame<'a>(expect: &Expect, payload: &'a [u8]) -> Frame<'a>
    requires { length payload.now ≡ payload_of expect.now }
    ensures { seen result ≡ spec_frame expect.now payload.now }
{
    match expect {
        Expect::ReceiverHello { id, session } => Frame::ReceiverHello {
            id: *id,
            session: *session,
            count: count_of(payload),
        },
        Expect::SenderHello { id, session } => Frame::SenderHello {
            id: *id,
            session: *session,
            count: count_of(payload),
        },
        Expect::Column { index, .. } => Frame::Column {
            index: *index,
            bytes: &payload[2..],
        },
        Expect::Tags { list, block, .. } => Frame::Tags {
            list: *list,
            block: *block,
            bytes: &payload[5..],
        },
        Expect::Values { block, .. } => Frame::Values {
            block: *block,
            bytes: &payload[4..],
        },
        Expect::Done => Frame::Done,
    }
}
