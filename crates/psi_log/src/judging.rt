// What is wrong with the bytes of a record.
ghost use Rattle.std.specs.Prelude.{◌≡◌, ◌+◌, ◌≤◌, ◌<◌, ◌^◌, length, drop, nat_le, if◌then◌else◌, Some, None};
ghost use Rattle.psi_spec.specs.DealFiles.{is_sealed as sealed_by};
ghost use Rattle.psi_spec.specs.Records.{has_record_magic as magic_of, is_kind as kind_of, frame_size, last_place};
ghost use Rattle.psi_log.specs.BadRecords.{EndsFrame, bad_record, bad_seal};

use crate::errors::BadRecord;
use crate::layout::{DONE, HEADER_LENGTH, SEAL_LENGTH, SLOTS, VERSION, slot_count, wire_place};
use sha2::{Digest, Sha256};

// Whether bytes begin with `PSIR`.
fn has_magic(bytes: &[u8]) -> bool
    ensures { result ≡ magic_of bytes.now }
{
    bytes.len() >= 4 && &bytes[..4] == b"PSIR".as_slice()
}

// Whether a frame may have this kind.
fn is_kind(kind: u8) -> bool
    ensures { result ≡ kind_of kind }
{
    (1..=DONE).contains(&kind)
}

// Whether the last 32 bytes are the hash of those before.
#[tactic(auto, unfolding(psi_spec::specs::DealFiles::is_sealed))]
fn is_sealed(bytes: &[u8]) -> bool
    requires { 32 ≤ length bytes.now }
    ensures { result ≡ sealed_by bytes.now }
{
    let (body, seal) = bytes.split_at(bytes.len() - SEAL_LENGTH);
    seal == Sha256::digest(body).as_slice()
}

// The size of the frame that bytes begin with, where they have as many.
fn whole_size(bytes: &[u8]) -> Option<usize>
    ensures { result
        ≡ (if nat_le (frame_size bytes.now) (length bytes.now) then Some (frame_size bytes.now) else None) }
{
    let (_, rest) = bytes.split_first()?;
    let (length, payload) = rest.split_first_chunk::<4>()?;
    let length = u32::from_be_bytes(*length) as usize;
    if length <= payload.len() {
        Some(HEADER_LENGTH + length)
    } else {
        None
    }
}

// The place behind the frame that begins at a place within the bytes, or why it is not whole.
fn frame_end(bytes: &[u8], at: usize) -> Result<usize, BadRecord>
    requires { at < length bytes.now }
    ensures { EndsFrame at bytes.now result }
{
    let offset = at as u64;
    let found = bytes[at];
    if !is_kind(found) {
        return Err(BadRecord::Kind { offset, found });
    }
    match whole_size(&bytes[at..]) {
        Some(size) => Ok(at + size),
        None => Err(BadRecord::Short { offset }),
    }
}

// The place behind the first frame of kind 5 of the frames that begin at a place, or why one is not whole.
fn wire_end(bytes: &[u8], start: usize) -> Result<usize, BadRecord>
    requires { start ≤ length bytes.now }
    ensures { EndsFrame (last_place start (drop start bytes.now)) bytes.now result }
{
    let mut at = start;
    while at < bytes.len() {
        let end = frame_end(bytes, at)?;
        if bytes[at] == DONE {
            return Ok(end);
        }
        at = end;
    }
    Err(BadRecord::Short { offset: at as u64 })
}

/// Why bytes are no record.
pub fn judge(bytes: &[u8]) -> Option<BadRecord>
    ensures { result ≡ bad_record bytes.now }
{
    if !has_magic(bytes) {
        return Some(BadRecord::Magic);
    }
    if bytes.len() < 5 {
        return Some(BadRecord::Short { offset: 4 });
    }
    if bytes[4] != VERSION {
        return Some(BadRecord::Version { found: bytes[4] });
    }
    if bytes.len() < SLOTS {
        return Some(BadRecord::Short { offset: 5 });
    }
    let start = wire_place(slot_count(bytes));
    if bytes.len() < start {
        return Some(BadRecord::Short {
            offset: SLOTS as u64,
        });
    }
    match wire_end(bytes, start) {
        Ok(end) => judge_seal(bytes, end),
        Err(bad) => Some(bad),
    }
}

// Why bytes do not end with a seal that begins at a place.
fn judge_seal(bytes: &[u8], at: usize) -> Option<BadRecord>
    requires { at ≤ length bytes.now }
    ensures { result ≡ bad_seal at bytes.now }
{
    let rest = bytes.len() - at;
    if rest < SEAL_LENGTH {
        return Some(BadRecord::Short { offset: at as u64 });
    }
    if rest > SEAL_LENGTH {
        return Some(BadRecord::Trailing {
            offset: (at + SEAL_LENGTH) as u64,
        });
    }
    if !is_sealed(bytes) {
        return Some(BadRecord::Seal);
    }
    None
}
