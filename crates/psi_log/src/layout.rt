// The parts of a record.
ghost use Rattle.std.specs.Prelude.{◌≡◌, ◌+◌, ◌≤◌, length, drop, take};
ghost use Rattle.psi_spec.specs.Records.{slot_count as count_of, wire_place as place_of};

/// The version of the records that are read and written.
pub const VERSION: u8 = 1;

/// The place of the first slot, behind the magic bytes, the version and the count.
pub const SLOTS: usize = 9;

/// The bytes of a slot: its row and its index.
pub const SLOT_LENGTH: usize = 5;

/// The bytes of a frame before its payload: the kind, and the length of the payload.
pub const HEADER_LENGTH: usize = 5;

/// The bytes of the seal.
pub const SEAL_LENGTH: usize = 32;

/// The kind of the last frame.
pub const DONE: u8 = 5;

/// The `N` bytes from a place on.
pub fn array_at<const N: usize>(bytes: &[u8], at: usize) -> [u8; N]
    requires { at + N ≤ length bytes.now }
    ensures { result ≡ take N (drop at bytes.now) }
{
    let mut part = [0; N];
    part.copy_from_slice(&bytes[at..at + N]);
    part
}

/// How many slots a record says that it has.
pub fn slot_count(bytes: &[u8]) -> u32
    requires { 9 ≤ length bytes.now }
    ensures { result ≡ count_of bytes.now }
{
    u32::from_be_bytes(array_at(bytes, 5))
}

/// The place of the first frame, behind so many slots.
pub fn wire_place(count: u32) -> usize
    ensures { result ≡ place_of count }
{
    SLOTS + SLOT_LENGTH * count as usize
}
