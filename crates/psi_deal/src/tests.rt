//! Values of other programs, and files that differ in one byte from those that are written here.
use crate::{
    BadDeal, DealField, ReceiverDeal, SenderDeal, deal, deals_differ, fill_column, read_receiver,
    read_sender, write_receiver, write_sender,
};
use psi_base::FILE_LIMIT;
use psi_bits::Columns;
use sha2::{Digest, Sha256};
use std::alloc::{AllocError, Global};
use std::test::Fail;

const ZERO: [u8; 32] = [0; 32];

const OTHER: [u8; 32] = [
    0x00, 0x01, 0x02, 0x03, 0x04, 0x05, 0x06, 0x07, 0x08, 0x09, 0x0a, 0x0b, 0x0c, 0x0d, 0x0e, 0x0f,
    0x10, 0x11, 0x12, 0x13, 0x14, 0x15, 0x16, 0x17, 0x18, 0x19, 0x1a, 0x1b, 0x1c, 0x1d, 0x1e, 0x1f,
];

// The front and the seals of the files of the zero seed, for session 0, tags of 16 bytes and a stash of 4 rows.
const ZERO_FRONT: [u8; 48] = [
    0x50, 0x53, 0x49, 0x44, 0x02, 0x00, 0x76, 0xb8, 0xe0, 0xad, 0xa0, 0xf1, 0x3d, 0x90, 0x40, 0x5d,
    0x6a, 0xe5, 0x53, 0x86, 0xbd, 0x28, 0x00, 0x00, 0x00, 0x00, 0x00, 0x00, 0x00, 0x00, 0xbd, 0xd2,
    0x19, 0xb8, 0xa0, 0x8d, 0xed, 0x1a, 0xa8, 0x36, 0xef, 0xcc, 0x8b, 0x77, 0x0d, 0xc7, 0x10, 0x04,
];

const ZERO_SEALS: [[u8; 32]; 2] = [
    [
        0x6e, 0x18, 0x45, 0xd4, 0x3f, 0x24, 0x1e, 0x01, 0xce, 0x24, 0x2a, 0x8e, 0x01, 0x33, 0x83,
        0x1c, 0x6f, 0x24, 0x32, 0x83, 0x89, 0xda, 0x9f, 0x48, 0x02, 0xb3, 0x71, 0x89, 0x86, 0xc0,
        0x1d, 0x28,
    ],
    [
        0x1c, 0x05, 0x72, 0xbf, 0x58, 0xd4, 0x8e, 0x31, 0xcd, 0xbe, 0x97, 0xfb, 0x5d, 0x8d, 0x73,
        0xc8, 0xe9, 0xc7, 0x9a, 0x9f, 0x6f, 0xaa, 0xd7, 0x40, 0xb7, 0x0d, 0x6b, 0x1c, 0x72, 0x75,
        0xfe, 0xb9,
    ],
];

// The same of the seed of the bytes 0 to 31, for session 0x0123456789abcdef, tags of 3 bytes and no stash.
const OTHER_FRONT: [u8; 48] = [
    0x50, 0x53, 0x49, 0x44, 0x02, 0x00, 0x39, 0xfd, 0x2b, 0x7d, 0xd9, 0xc5, 0x19, 0x6a, 0x8d, 0xbd,
    0x03, 0x77, 0xb8, 0xdc, 0x4a, 0x49, 0x01, 0x23, 0x45, 0x67, 0x89, 0xab, 0xcd, 0xef, 0x8a, 0x35,
    0xd8, 0x6f, 0xbc, 0xde, 0x6a, 0xcc, 0xb2, 0xcc, 0x7d, 0x4c, 0xd8, 0xea, 0x24, 0x92, 0x03, 0x00,
];

const OTHER_SEALS: [[u8; 32]; 2] = [
    [
        0xf4, 0x30, 0xd7, 0xad, 0x72, 0xb2, 0xf0, 0x34, 0x8b, 0x6d, 0xc8, 0xfd, 0xe4, 0x8d, 0xcf,
        0xfa, 0x84, 0x26, 0xee, 0xb3, 0x60, 0x51, 0x80, 0x73, 0x50, 0x6f, 0x4f, 0x9d, 0x26, 0xde,
        0x4b, 0x32,
    ],
    [
        0x3f, 0x1a, 0x1e, 0xe6, 0xcc, 0xe7, 0x8b, 0x6c, 0x5c, 0x2a, 0x51, 0xe2, 0x37, 0x83, 0x14,
        0xbc, 0x78, 0xf2, 0x9e, 0x4f, 0x0e, 0x83, 0x52, 0x64, 0xc5, 0x46, 0x46, 0x14, 0x3c, 0x37,
        0xbd, 0x32,
    ],
];

// The deals of the zero seed, for session 0, tags of 16 bytes and a stash of 4 rows.
fn dealt(alloc: Global) -> Result<(ReceiverDeal, SenderDeal), BadDeal> {
    deal(alloc, &ZERO, 0, 16, 4)
}

// What the readers answer of a file that is not too long.
fn receiver_in(alloc: Global, file: &[u8]) -> Result<ReceiverDeal, BadDeal> {
    if file.len() > FILE_LIMIT as usize {
        return Err(BadDeal::NoMemory);
    }
    read_receiver(alloc, file)
}

fn sender_in(alloc: Global, file: &[u8]) -> Result<SenderDeal, BadDeal> {
    if file.len() > FILE_LIMIT as usize {
        return Err(BadDeal::NoMemory);
    }
    read_sender(alloc, file)
}

// The front of a file, of so many bytes, with the byte at a place changed by these bits.
fn changed(
    alloc: Global,
    file: &[u8],
    length: usize,
    at: usize,
    bits: u8,
) -> Result<Vec<u8>, AllocError> {
    let mut bytes = Vec::from_slice(alloc, file)?;
    bytes.truncate(length);
    if let Some(byte) = bytes.get_mut(at) {
        *byte ^= bits;
    }
    Ok(bytes)
}

// The first 48 and the last 32 bytes of a file; zeros where it has fewer.
fn front_of(file: &[u8]) -> [u8; 48] {
    file.first_chunk().copied().unwrap_or([0; 48])
}

fn seal_of(file: &[u8]) -> [u8; 32] {
    file.last_chunk().copied().unwrap_or([0; 32])
}

// Makes the seal of a file true.
fn seal(bytes: &mut [u8]) {
    if let Some((body, seal)) = bytes.split_last_chunk_mut::<32>() {
        *seal = Sha256::digest(body);
    }
}

#[test]
fn columns_end_with_cleared_bits(rt: HostRuntime) {
    for (rows, want) in [
        (32, [0x76, 0xb8, 0xe0, 0xad]),
        (30, [0x76, 0xb8, 0xe0, 0x2d]),
    ] {
        let mut out = [0; 4];
        fill_column(&ZERO, 0, rows, &mut out);
        assert_eq!(rt; out, want, "at {rows} rows");
    }
}

#[test]
fn files_are_as_computed_elsewhere(rt: HostRuntime) -> Result<(), Fail> {
    for (seed, session, tag_length, stash, front, seals) in [
        (ZERO, 0, 16, 4, ZERO_FRONT, ZERO_SEALS),
        (OTHER, 0x0123_4567_89ab_cdef, 3, 0, OTHER_FRONT, OTHER_SEALS),
    ] {
        let (receiver, sender) = deal(rt.alloc(), &seed, session, tag_length, stash)?;
        let file = write_receiver(rt.alloc(), &receiver)?;
        assert_eq!(rt; file.len(), 32_848);
        assert_eq!(rt; front_of(&file), front);
        assert_eq!(rt; seal_of(&file), seals[0]);
        let file = write_sender(rt.alloc(), &sender)?;
        assert_eq!(rt; file.len(), 16_528);
        assert_eq!(rt; seal_of(&file), seals[1]);
    }
    Ok(())
}

#[test]
fn choice_bits_follow_the_seed(rt: HostRuntime) -> Result<(), Fail> {
    let (_, sender) = dealt(rt.alloc())?;
    for (c, want) in [false, true, false, true, true, false, true, true]
        .into_iter()
        .enumerate()
    {
        assert_eq!(rt; sender.choice().bit(c as u16), want, "at bit {c}");
    }
    Ok(())
}

#[test]
fn lengths_are_judged_first(rt: HostRuntime) {
    for (tag_length, stash, want) in [
        (0, 17, BadDeal::TagBytes { found: 0 }),
        (17, 4, BadDeal::TagBytes { found: 17 }),
        (1, 17, BadDeal::StashRows { found: 17 }),
    ] {
        let answer = deal(rt.alloc(), &ZERO, 0, tag_length, stash);
        assert_eq!(rt; answer.err(), Some(want));
    }
}

#[test]
fn the_first_fault_of_a_file_decides(rt: HostRuntime) -> Result<(), Fail> {
    let (receiver, _) = dealt(rt.alloc())?;
    let file = write_receiver(rt.alloc(), &receiver)?;
    for (length, at, bits, want) in [
        (0, 0, 0, BadDeal::Magic),
        (3, 3, 0, BadDeal::Magic),
        (32_848, 0, 1, BadDeal::Magic),
        (5, 4, 1, BadDeal::Version { found: 3 }),
        (32_848, 4, 3, BadDeal::Version { found: 1 }),
        (32_848, 5, 1, BadDeal::Role { found: 1 }),
        (5, 4, 0, BadDeal::Length { found: 5 }),
        (32_847, 46, 1, BadDeal::Length { found: 32_847 }),
        (32_848, 46, 16, BadDeal::TagBytes { found: 0 }),
        (32_848, 46, 1, BadDeal::TagBytes { found: 17 }),
        (32_848, 47, 21, BadDeal::StashRows { found: 17 }),
    ] {
        let mut bytes = changed(rt.alloc(), &file, length, at, bits)?;
        let answer = receiver_in(rt.alloc(), &bytes);
        assert_eq!(rt; answer.err(), Some(want), "a false seal, byte {at}");
        seal(&mut bytes);
        let answer = receiver_in(rt.alloc(), &bytes);
        assert_eq!(rt; answer.err(), Some(want), "a true seal, byte {at}");
    }
    Ok(())
}

#[test]
fn one_changed_bit_breaks_the_seal(rt: HostRuntime) -> Result<(), Fail> {
    let (receiver, sender) = dealt(rt.alloc())?;
    let file = write_receiver(rt.alloc(), &receiver)?;
    for at in [6, 22, 30, 48, 32_815, 32_816, 32_847] {
        let bytes = changed(rt.alloc(), &file, 32_848, at, 0x80)?;
        let answer = receiver_in(rt.alloc(), &bytes);
        assert_eq!(rt; answer.err(), Some(BadDeal::Seal), "at byte {at}");
    }
    let file = write_sender(rt.alloc(), &sender)?;
    for at in [48, 111, 112, 16_495, 16_527] {
        let bytes = changed(rt.alloc(), &file, 16_528, at, 1)?;
        let answer = sender_in(rt.alloc(), &bytes);
        assert_eq!(rt; answer.err(), Some(BadDeal::Seal), "at byte {at}");
    }
    Ok(())
}

#[test]
fn what_is_written_is_read_again(rt: HostRuntime) -> Result<(), Fail> {
    let (receiver, sender) = dealt(rt.alloc())?;
    let receiver_file = write_receiver(rt.alloc(), &receiver)?;
    let sender_file = write_sender(rt.alloc(), &sender)?;
    let receiver = receiver_in(rt.alloc(), &receiver_file)?;
    let sender = sender_in(rt.alloc(), &sender_file)?;
    assert_eq!(rt; write_receiver(rt.alloc(), &receiver)?, receiver_file);
    assert_eq!(rt; write_sender(rt.alloc(), &sender)?, sender_file);
    assert_eq!(rt; deals_differ(&receiver, &sender), None);
    let answer = receiver_in(rt.alloc(), &sender_file);
    assert_eq!(rt; answer.err(), Some(BadDeal::Role { found: 1 }));
    let answer = sender_in(rt.alloc(), &receiver_file);
    assert_eq!(rt; answer.err(), Some(BadDeal::Role { found: 0 }));
    Ok(())
}

#[test]
fn the_first_differing_field_is_named(rt: HostRuntime) -> Result<(), Fail> {
    let (receiver, sender) = dealt(rt.alloc())?;
    let file = write_sender(rt.alloc(), &sender)?;
    for (at, bits, want) in [
        (21, 1, DealField::Id),
        (29, 1, DealField::Session),
        (45, 1, DealField::Key),
        (46, 24, DealField::TagBytes),
        (47, 4, DealField::StashRows),
        (48, 1, DealField::Seed { column: 0 }),
        (111, 0x80, DealField::Seed { column: 511 }),
        (143, 1, DealField::Seed { column: 0 }),
        (16_464, 1, DealField::Seed { column: 511 }),
    ] {
        let mut bytes = changed(rt.alloc(), &file, 16_528, at, bits)?;
        seal(&mut bytes);
        let other = sender_in(rt.alloc(), &bytes)?;
        assert_eq!(rt; deals_differ(&receiver, &other), Some(want), "at byte {at}");
    }
    Ok(())
}

#[test]
fn chosen_columns_are_among_both(rt: HostRuntime) -> Result<(), Fail> {
    let (receiver, sender) = dealt(rt.alloc())?;
    let mut zeros = Columns::zero(rt.alloc(), 30)?;
    let mut ones = Columns::zero(rt.alloc(), 30)?;
    let mut chosen = Columns::zero(rt.alloc(), 30)?;
    receiver.columns(&mut zeros, &mut ones);
    sender.chosen(&mut chosen);
    for c in [0, 1, 511] {
        let bit = sender.choice().bit(c);
        let named = if bit { &ones } else { &zeros };
        assert_eq!(rt; chosen.column(c), named.column(c), "at column {c}");
        assert_eq!(rt;
            sender.chosen_seed(c),
            receiver.seed(u8::from(bit), c),
            "at column {c}"
        );
    }
    Ok(())
}
