// Bytes in the place of an expected frame: each field is judged, in order, once its last byte is there, and the frame
// is read where it is whole. No kind of frame is known here.
ghost use Rattle.std.specs.Prelude.{◌≡◌, length, None};
ghost use Rattle.psi_frames.specs.Expected.{IsWhole, frame_length, seen, wrong};

use crate::expect::{Expect, payload_frame, wrong_payload};
use crate::frame::Frame;
use crate::header::HEADER_LENGTH;
use crate::reasons::Reason;

/// The reason of the first field that is wrong, among those of the expected frame whose last byte is
/// there.
#[tactic(auto, unfolding(crate::specs::Expected::wrong))]
pub(crate) fn first_fault(expect: &Expect, bytes: &[u8]) -> Option<Reason>
    ensures { result ≡ wrong expect.now bytes.now }
{
    let (kind, rest) = bytes.split_first()?;
    if *kind != expect.kind() {
        return Some(Reason::Kind {
            found: *kind,
            wanted: expect.kind(),
        });
    }
    let (length, payload) = rest.split_first_chunk::<4>()?;
    let length = u32::from_be_bytes(*length);
    if length != expect.payload() {
        return Some(Reason::Length {
            found: length,
            wanted: expect.payload(),
        });
    }
    wrong_payload(expect, payload)
}

/// The frame that bytes are which have its length and in which no field is wrong. Its bytes are lent.
pub(crate) fn frame_of<'a>(expect: &Expect, bytes: &'a [u8]) -> Frame<'a>
    requires long { length bytes.now ≡ frame_length expect.now }
    requires right { wrong expect.now bytes.now ≡ None }
    ensures { IsWhole expect.now bytes.now (seen result) }
{
    payload_frame(expect, &bytes[HEADER_LENGTH..])
}
