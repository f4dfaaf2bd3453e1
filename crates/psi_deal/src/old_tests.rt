//! Deal files of version 1, made by their layout of those that are written here.
use crate::{BadDeal, OldDeal, deal, read_old, write_receiver, write_sender};
use psi_base::FILE_LIMIT;
use sha2::{Digest, Sha256};
use std::alloc::{AllocError, Global};
use std::test::Fail;

// The seals of both files of version 1 of the zero seed, for session 0 and tags of 16 bytes, as
// another program makes them.
const SEALS: [[u8; 32]; 2] = [
    [
        0x94, 0x93, 0x7b, 0x2b, 0x75, 0x36, 0x59, 0xdb, 0xc0, 0xe6, 0x21, 0x13, 0xaf, 0xb6, 0xc0,
        0x36, 0x3d, 0x59, 0x80, 0xf2, 0x7d, 0x36, 0xc9, 0x3e, 0x94, 0x42, 0xb3, 0x5f, 0x6b, 0x71,
        0x19, 0xee,
    ],
    [
        0xff, 0x1e, 0x10, 0xf3, 0xdc, 0x01, 0xce, 0x81, 0xdb, 0x15, 0x94, 0xd4, 0x76, 0xc1, 0xda,
        0x51, 0x67, 0x9f, 0x32, 0x77, 0xbc, 0xf7, 0x8c, 0xbe, 0xa8, 0x3b, 0x22, 0x51, 0x5e, 0xab,
        0x6d, 0x14,
    ],
];

// The receiver's and the sender's file of that seed, of version 2 with a stash of 4 rows.
fn files(alloc: Global) -> Result<(Vec<u8>, Vec<u8>), Fail> {
    let (receiver, sender) = deal(alloc, &[0; 32], 0, 16, 4)?;
    Ok((
        write_receiver(alloc, &receiver)?,
        write_sender(alloc, &sender)?,
    ))
}

// Makes the seal of a file true.
fn seal(bytes: &mut [u8]) {
    if let Some((body, seal)) = bytes.split_last_chunk_mut::<32>() {
        *seal = Sha256::digest(body);
    }
}

// The file of version 1 of the deal of a file of version 2.
fn old_file(alloc: Global, file: &[u8]) -> Result<Vec<u8>, AllocError> {
    let mut bytes = Vec::from_slice(alloc, file)?;
    if bytes.len() > 47 {
        bytes.remove(47);
    }
    if let Some(version) = bytes.get_mut(4) {
        *version = 1;
    }
    seal(&mut bytes);
    Ok(bytes)
}

// The front of a file, of so many bytes, with the byte at a place changed by these bits.
fn changed(
    alloc: Global,
    file: &[u8],
    length: usize,
    at: usize,
    bits: u8,
) -> Result<Vec<u8>, AllocError> {
    let mut bytes = Vec::from_slice(alloc, file)?;
    bytes.truncate(length);
    if let Some(byte) = bytes.get_mut(at) {
        *byte ^= bits;
    }
    Ok(bytes)
}

// What is answered of a file that is not too long.
fn old_in(alloc: Global, file: &[u8]) -> Result<OldDeal, BadDeal> {
    if file.len() > FILE_LIMIT as usize {
        return Err(BadDeal::NoMemory);
    }
    read_old(alloc, file)
}

#[test]
fn old_files_are_renewed(rt: HostRuntime) -> Result<(), Fail> {
    let (receiver, sender) = files(rt.alloc())?;
    for (file, size, want) in [(&receiver, 32_847, SEALS[0]), (&sender, 16_527, SEALS[1])] {
        let old = old_file(rt.alloc(), file)?;
        assert_eq!(rt; old.len(), size);
        assert_eq!(rt; old.last_chunk(), Some(&want));
        let read = old_in(rt.alloc(), &old)?;
        assert_eq!(rt; &read.renew(rt.alloc())?, file);
    }
    Ok(())
}

#[test]
fn the_first_fault_of_an_old_file_decides(rt: HostRuntime) -> Result<(), Fail> {
    let (receiver, sender) = files(rt.alloc())?;
    let receiver = old_file(rt.alloc(), &receiver)?;
    let sender = old_file(rt.alloc(), &sender)?;
    for (file, length, at, bits, want) in [
        (&receiver, 3, 3, 0, BadDeal::Magic),
        (&receiver, 32_847, 0, 1, BadDeal::Magic),
        (&receiver, 5, 4, 3, BadDeal::Version { found: 2 }),
        (&receiver, 32_847, 4, 3, BadDeal::Version { found: 2 }),
        (&sender, 16_527, 4, 1, BadDeal::Version { found: 0 }),
        (&receiver, 6, 5, 2, BadDeal::Role { found: 2 }),
        (&sender, 16_527, 5, 3, BadDeal::Role { found: 2 }),
        (&receiver, 4, 0, 0, BadDeal::Length { found: 4 }),
        (&sender, 5, 0, 0, BadDeal::Length { found: 5 }),
        (&receiver, 32_847, 5, 1, BadDeal::Length { found: 32_847 }),
        (&sender, 16_527, 5, 1, BadDeal::Length { found: 16_527 }),
        (&receiver, 32_846, 46, 16, BadDeal::Length { found: 32_846 }),
        (&receiver, 32_847, 46, 16, BadDeal::TagBytes { found: 0 }),
        (&sender, 16_527, 46, 1, BadDeal::TagBytes { found: 17 }),
    ] {
        let mut bytes = changed(rt.alloc(), file, length, at, bits)?;
        let answer = old_in(rt.alloc(), &bytes);
        assert_eq!(rt; answer.err(), Some(want), "a false seal, byte {at}");
        seal(&mut bytes);
        let answer = old_in(rt.alloc(), &bytes);
        assert_eq!(rt; answer.err(), Some(want), "a true seal, byte {at}");
    }
    Ok(())
}

#[test]
fn one_changed_bit_breaks_the_old_seal(rt: HostRuntime) -> Result<(), Fail> {
    let (receiver, sender) = files(rt.alloc())?;
    let receiver = old_file(rt.alloc(), &receiver)?;
    let sender = old_file(rt.alloc(), &sender)?;
    for (file, at) in [
        (&receiver, 6),
        (&receiver, 47),
        (&receiver, 32_846),
        (&sender, 110),
        (&sender, 16_495),
    ] {
        let bytes = changed(rt.alloc(), file, 32_847, at, 0x80)?;
        let answer = old_in(rt.alloc(), &bytes);
        assert_eq!(rt; answer.err(), Some(BadDeal::Seal), "at byte {at}");
    }
    Ok(())
}
