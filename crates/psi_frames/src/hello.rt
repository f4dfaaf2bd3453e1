// The hellos of both ends: kind 1 is the receiver's and kind 2 the sender's. The payload is the version, the id of the
// deal, the number of the session and the count of items.
ghost use Rattle.std.specs.Prelude.{◌≡◌, ◌+◌, ◌≤◌, length};
ghost use Rattle.psi_spec.specs.Frames.{first_wrong, framed, hello_payload};
ghost use Rattle.psi_frames.specs.Boxes.{with_added};
ghost use Rattle.psi_frames.specs.Hello.{count_in, hello_fields, number_fields};

use crate::header::put_header;
use crate::outbox::Outbox;
use crate::reasons::Reason;
use psi_base::LIMIT_ITEMS;

/// The kind of the receiver's hello.
pub(crate) const RECEIVER_HELLO: u8 = 1;

/// The kind of the sender's hello.
pub(crate) const SENDER_HELLO: u8 = 2;

/// The bytes of a hello's payload.
pub(crate) const HELLO_LENGTH: usize = 29;

/// The bytes of a hello's frame.
pub const HELLO_SIZE: u32 = 34;

// The one version of the frames.
const VERSION: u8 = 1;

/// Adds a hello of this kind.
pub(crate) fn put_hello(out: &mut Outbox, kind: u8, id: &[u8; 16], session: u64, count: u32)
    requires { 18 + length id.now ≤ out.old.spare }
    ensures { out.new ≡ with_added (framed kind (hello_payload id.now session count)) out.old }
{
    put_header(out, kind, HELLO_LENGTH);
    out.add(&[VERSION]);
    out.add(id);
    out.add(&session.to_be_bytes());
    out.add(&count.to_be_bytes());
}

/// What is wrong with the payload of a hello.
pub(crate) fn wrong_hello(id: &[u8; 16], session: u64, payload: &[u8]) -> Option<Reason>
    ensures { result ≡ first_wrong (hello_fields id.now session) payload.now }
{
    let (version, rest) = payload.split_first()?;
    if *version != VERSION {
        return Some(Reason::Version { found: *version });
    }
    let (found, rest) = rest.split_first_chunk::<16>()?;
    if found != id {
        return Some(Reason::Deal { found: *found });
    }
    wrong_numbers(session, rest)
}

// What is wrong with the numbers of a hello.
fn wrong_numbers(session: u64, numbers: &[u8]) -> Option<Reason>
    ensures { result ≡ first_wrong (number_fields session) numbers.now }
{
    let (found, rest) = numbers.split_first_chunk::<8>()?;
    let found = u64::from_be_bytes(*found);
    if found != session {
        return Some(Reason::Session { found });
    }
    let (found, _) = rest.split_first_chunk::<4>()?;
    let found = u32::from_be_bytes(*found);
    if found > LIMIT_ITEMS {
        return Some(Reason::Count { found });
    }
    None
}

/// The number in the last four bytes of a hello's payload.
pub(crate) fn count_of(payload: &[u8]) -> u32
    requires { length payload.now ≡ 29 }
    ensures { result ≡ count_in payload.now }
{
    u32::from_be_bytes([payload[25], payload[26], payload[27], payload[28]])
}
