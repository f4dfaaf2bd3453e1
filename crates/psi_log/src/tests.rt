//! Files that are made by hand: a record, records that are cut or changed, and what a recorder writes.
use crate::{BadRecord, LoggedSession, Recorder, read_record, write_record};
use psi_base::RECORD_LIMIT;
use psi_cuckoo::{BadSlots, Placement, Slot, check_placement};
use sha2::{Digest, Sha256};
use std::alloc::{AllocError, Global};
use std::process::Abort;
use std::test::Fail;

const SLOTS: [Slot; 2] = [Slot { row: 258, index: 1 }, Slot { row: 300, index: 0 }];

// A record of those slots up to its seal: the front, two slots, and frames of kinds 1, 4 and 5 at 19, 27 and 32.
const BODY: [u8; 38] = [
    0x50, 0x53, 0x49, 0x52, 1, 0, 0, 0, 2, 0, 0, 1, 2, 1, 0, 0, 1, 0x2c, 0, 1, 0, 0, 0, 3, 9, 8, 7,
    4, 0, 0, 0, 0, 5, 0, 0, 0, 1, 6,
];

// Its SHA-256, as another program computed it.
const SEAL: [u8; 32] = [
    0x5c, 0xca, 0x69, 0x12, 0x78, 0xb1, 0xc9, 0xc5, 0x54, 0x21, 0xc2, 0xe5, 0x7c, 0xd1, 0x77, 0xf7,
    0xea, 0xab, 0xe1, 0xac, 0xe9, 0x32, 0x43, 0x75, 0x47, 0x97, 0xcb, 0xb1, 0xa1, 0xfd, 0xd6, 0x5b,
];

// The front of the bytes, of so many bytes, with the byte at a place changed by these bits.
fn changed(
    alloc: Global,
    bytes: &[u8],
    length: usize,
    at: usize,
    bits: u8,
) -> Result<Vec<u8>, AllocError> {
    let mut bytes = Vec::from_slice(alloc, bytes)?;
    bytes.truncate(length);
    if let Some(byte) = bytes.get_mut(at) {
        *byte ^= bits;
    }
    Ok(bytes)
}

// The bytes, and more behind them.
fn joined(alloc: Global, bytes: &[u8], more: &[u8]) -> Result<Vec<u8>, AllocError> {
    let mut bytes = Vec::from_slice(alloc, bytes)?;
    bytes.extend_from_slice(more)?;
    Ok(bytes)
}

// What is answered to a file that is not too long.
fn read<'a>(alloc: Global, file: &'a [u8]) -> Result<LoggedSession<'a>, BadRecord> {
    if file.len() > RECORD_LIMIT as usize {
        return Err(BadRecord::NoMemory);
    }
    read_record(alloc, file)
}

#[test]
fn a_record_is_read(rt: HostRuntime) -> Result<(), Fail> {
    let file = joined(rt.alloc(), &BODY, &SEAL)?;
    let session = read(rt.alloc(), &file)?;
    assert_eq!(rt; session.slots(), SLOTS.as_slice());
    assert_eq!(rt; session.wire(), &BODY[19..]);
    assert_eq!(rt; session.wire_offset(), 19);
    Ok(())
}

#[test]
fn a_cut_record_is_short(rt: HostRuntime) -> Result<(), Fail> {
    let file = joined(rt.alloc(), &BODY, &SEAL)?;
    for (length, want) in [
        (0, BadRecord::Magic),
        (3, BadRecord::Magic),
        (4, BadRecord::Short { offset: 4 }),
        (5, BadRecord::Short { offset: 5 }),
        (8, BadRecord::Short { offset: 5 }),
        (9, BadRecord::Short { offset: 9 }),
        (18, BadRecord::Short { offset: 9 }),
        (19, BadRecord::Short { offset: 19 }),
        (20, BadRecord::Short { offset: 19 }),
        (23, BadRecord::Short { offset: 19 }),
        (26, BadRecord::Short { offset: 19 }),
        (27, BadRecord::Short { offset: 27 }),
        (31, BadRecord::Short { offset: 27 }),
        (32, BadRecord::Short { offset: 32 }),
        (37, BadRecord::Short { offset: 32 }),
        (38, BadRecord::Short { offset: 38 }),
        (69, BadRecord::Short { offset: 38 }),
    ] {
        let bytes = changed(rt.alloc(), &file, length, length, 0)?;
        assert_eq!(rt;
            read(rt.alloc(), &bytes).err(),
            Some(want),
            "{length} bytes"
        );
    }
    Ok(())
}

#[test]
fn the_first_fault_decides(rt: HostRuntime) -> Result<(), Fail> {
    for (at, bits, want) in [
        (0, 1, BadRecord::Magic),
        (4, 3, BadRecord::Version { found: 2 }),
        (8, 0x80, BadRecord::Short { offset: 9 }),
        (
            19,
            1,
            BadRecord::Kind {
                offset: 19,
                found: 0,
            },
        ),
        (
            27,
            2,
            BadRecord::Kind {
                offset: 27,
                found: 6,
            },
        ),
        (
            32,
            0x80,
            BadRecord::Kind {
                offset: 32,
                found: 0x85,
            },
        ),
        (20, 0x80, BadRecord::Short { offset: 19 }),
        (36, 0x40, BadRecord::Short { offset: 32 }),
        (36, 0x20, BadRecord::Short { offset: 70 }),
        (36, 1, BadRecord::Trailing { offset: 69 }),
    ] {
        let body = changed(rt.alloc(), &BODY, 38, at, bits)?;
        let file = joined(rt.alloc(), &body, &SEAL)?;
        assert_eq!(rt;
            read(rt.alloc(), &file).err(),
            Some(want),
            "a false seal, byte {at}"
        );
        let file = joined(rt.alloc(), &body, &Sha256::digest(&body))?;
        assert_eq!(rt;
            read(rt.alloc(), &file).err(),
            Some(want),
            "a true seal, byte {at}"
        );
    }
    Ok(())
}

#[test]
fn nothing_stands_between_the_last_frame_and_the_seal(rt: HostRuntime) -> Result<(), Fail> {
    let second = [5, 0, 0, 0, 0];
    let body = joined(rt.alloc(), &BODY, &second)?;
    let sealed = joined(rt.alloc(), &body, &Sha256::digest(&body))?;
    let in_place = joined(rt.alloc(), &body, &[0; 27])?;
    let file = joined(rt.alloc(), &BODY, &SEAL)?;
    let longer = joined(rt.alloc(), &file, &[0])?;
    for (bytes, want) in [
        (&body, BadRecord::Short { offset: 38 }),
        (&sealed, BadRecord::Trailing { offset: 70 }),
        (&in_place, BadRecord::Seal),
        (&longer, BadRecord::Trailing { offset: 70 }),
    ] {
        assert_eq!(rt; read(rt.alloc(), bytes).err(), Some(want));
    }
    Ok(())
}

#[test]
fn one_changed_bit_breaks_the_seal(rt: HostRuntime) -> Result<(), Fail> {
    let file = joined(rt.alloc(), &BODY, &SEAL)?;
    for at in [9, 18, 24, 37, 38, 69] {
        let bytes = changed(rt.alloc(), &file, 70, at, 0x80)?;
        assert_eq!(rt;
            read(rt.alloc(), &bytes).err(),
            Some(BadRecord::Seal),
            "at byte {at}"
        );
    }
    Ok(())
}

// A placement with those slots: 300 bins, and rows of the stash behind them.
fn placed(alloc: Global) -> Result<Placement, BadSlots> {
    check_placement(alloc, &[[258, 0, 1], [2, 3, 4]], 300, 4, &SLOTS)
}

#[test]
fn a_session_is_written(rt: HostRuntime) -> Result<(), Fail> {
    let placement = placed(rt.alloc()).ok().expect(&rt, "a placement");
    let mut log = Recorder::begin(rt.alloc(), &placement)?;
    log.reserve(19)?;
    assert!(rt; log.spare() >= 19);
    log.add(&BODY[19..27]);
    log.add(&BODY[27..]);
    let file = write_record(log);
    assert_eq!(rt; file, joined(rt.alloc(), &BODY, &SEAL)?);
    Ok(())
}
