// Records that are read.
ghost use Rattle.std.specs.Prelude.{◌≡◌, ◌+◌, ◌*◌, ◌≤◌, length, map, IfOk, None};
ghost use Rattle.psi_cuckoo.specs.Table.{slot_of};
ghost use Rattle.psi_spec.specs.Limits.{record_limit};
ghost use Rattle.psi_spec.specs.Records.{LoggedSession as Logged, IsLogged, logged_of, record_file, slots_of};
ghost use Rattle.psi_log.specs.BadRecords.{IsJudged, bad_record};

use crate::errors::BadRecord;
use crate::judging::judge;
use crate::layout::{SEAL_LENGTH, SLOT_LENGTH, SLOTS, array_at, slot_count, wire_place};
use crate::session::LoggedSession;
use psi_cuckoo::Slot;
use std::alloc::{AllocError, Global};

/// What a record of at most `psi_base::RECORD_LIMIT` bytes holds; its frames are lent.
///
/// The file is judged from its front on, and the first fault decides: `Magic`; `Short` where a part is not whole, with
/// the place where it begins; `Version`; `Kind`; `Trailing`; `Seal` last. `NoMemory` comes only where there is no fault
/// and memory for the slots is wanting.
pub fn read_record<'a>(alloc: Global, bytes: &'a [u8]) -> Result<LoggedSession<'a>, BadRecord>
    requires { length bytes.now ≤ record_limit }
    ensures exact { IsJudged (bad_record bytes.now) (logged_of bytes.now) result }
    ensures found { IfOk result (λ session. IsLogged session × (bytes.now ≡ record_file session.slots session.wire)) }
    ensures only { (session : Logged) → IsLogged session → bytes.now ≡ record_file session.slots session.wire
        → IsJudged None session result }
{
    if let Some(bad) = judge(bytes) {
        return Err(bad);
    }
    session_in(alloc, bytes).map_err(|_| BadRecord::NoMemory)
}

// What a record without a fault holds.
fn session_in<'a>(alloc: Global, bytes: &'a [u8]) -> Result<LoggedSession<'a>, AllocError>
    requires { bad_record bytes.now ≡ None }
    ensures { IfOk result (λ session. session ≡ logged_of bytes.now) }
{
    let count = slot_count(bytes);
    let slots = slots_in(alloc, &bytes[SLOTS..], count)?;
    let wire = &bytes[wire_place(count)..bytes.len() - SEAL_LENGTH];
    Ok(LoggedSession { slots, wire })
}

// The slots that stand one after another in the first bytes.
fn slots_in(alloc: Global, bytes: &[u8], count: u32) -> Result<Vec<Slot>, AllocError>
    requires { 5 * count ≤ length bytes.now }
    ensures { IfOk result (λ slots. map slot_of slots.items ≡ slots_of count bytes.now) }
{
    let mut slots = Vec::with_capacity(alloc, count as usize)?;
    for i in 0..count as usize {
        let at = SLOT_LENGTH * i;
        let row = u32::from_be_bytes(array_at(bytes, at));
        slots.push(Slot {
            row,
            index: bytes[at + 4],
        })?;
    }
    Ok(slots)
}
