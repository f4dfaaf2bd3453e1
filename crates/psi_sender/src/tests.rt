//! A session whose bytes another program computed.
use crate::{SenderCore, run_sender};
use psi_base::{QuietMem, Side, World};
use psi_deal::deal;
use psi_items::Items;
use std::alloc::{AllocError, Global};
use std::test::Fail;

// The receiver's hello, of five items, for the zero seed's deal of session 0.
const HELLO: [u8; 34] = [
    1, 0, 0, 0, 29, 1, 0x76, 0xb8, 0xe0, 0xad, 0xa0, 0xf1, 0x3d, 0x90, 0x40, 0x5d, 0x6a, 0xe5,
    0x53, 0x86, 0xbd, 0x28, 0, 0, 0, 0, 0, 0, 0, 0, 0, 0, 0, 5,
];

const DONE: [u8; 5] = [5, 0, 0, 0, 0];

// What a sender with three items, tags of 4 bytes and one row of the stash answers.
const ANSWER: [u8; 122] = [
    2, 0, 0, 0, 0x1d, 1, 0x76, 0xb8, 0xe0, 0xad, 0xa0, 0xf1, 0x3d, 0x90, 0x40, 0x5d, 0x6a, 0xe5,
    0x53, 0x86, 0xbd, 0x28, 0, 0, 0, 0, 0, 0, 0, 0, 0, 0, 0, 3, 4, 0, 0, 0, 0x11, 0, 0, 0, 0, 0,
    0x7c, 0xd6, 0x7a, 0x77, 0xcb, 6, 0x86, 0x30, 0xd6, 0x5d, 0x12, 0xf6, 4, 0, 0, 0, 0x11, 1, 0, 0,
    0, 0, 0xa5, 0x6c, 0x14, 0xb0, 0xdb, 0xd9, 0x18, 0x6f, 0xf9, 0x77, 0x8c, 0x4c, 4, 0, 0, 0, 0x11,
    2, 0, 0, 0, 0, 0x68, 0xa0, 0xf9, 0xb0, 0x9b, 0xf1, 0x55, 0x65, 0xf8, 0x36, 0x37, 0xe2, 4, 0, 0,
    0, 0x11, 3, 0, 0, 0, 0, 0x89, 0x65, 1, 0xf9, 0xc0, 0x72, 0x49, 0x9d, 0xf1, 0x45, 0xd4, 0xec,
];

// A receiver's stream, in which column c is the byte c mod 256.
fn receiver_bytes(alloc: Global) -> Result<Vec<u8>, AllocError> {
    let mut bytes = Vec::from_slice(alloc, &HELLO)?;
    for c in 0..512u16 {
        let [high, low] = c.to_be_bytes();
        bytes.extend_from_slice(&[3, 0, 0, 0, 3, high, low, low])?;
    }
    bytes.extend_from_slice(&DONE)?;
    Ok(bytes)
}

#[test]
fn a_session_answers_as_computed_elsewhere(rt: HostRuntime) -> Result<(), Fail> {
    let alloc = rt.alloc();
    let items = Items::read(alloc, b"ann\nbob\neve\n")?;
    let (_receiver, deal) = deal(alloc, &[0; 32], 0, 4, 1)?;
    let mut core = SenderCore::new(alloc, &items, &deal);
    let mut world = QuietMem::new(alloc);
    world.set_incoming(&receiver_bytes(alloc)?, &[7, 100, 1000])?;
    world.open_link(Side::Listen, "here")?;
    run_sender(alloc, &mut core, &mut world)?;
    assert_eq!(rt; world.outgoing(), ANSWER.as_slice());
    assert_eq!(rt; world.left(), [].as_slice());
    Ok(())
}
