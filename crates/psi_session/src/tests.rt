//! A whole session of three items on either side.
use crate::{Transcript, exchange};
use psi_base::{NoMemory, bins};
use psi_cuckoo::place;
use psi_deal::deal;
use psi_items::Items;
use psi_oprf::item_candidates;
use psi_receiver::ReceiverCore;
use psi_sender::SenderCore;
use std::test::Fail;

// The receiver's hello, of three items, for the zero seed's deal of session 0.
const HELLO: [u8; 34] = [
    1, 0, 0, 0, 29, 1, 0x76, 0xb8, 0xe0, 0xad, 0xa0, 0xf1, 0x3d, 0x90, 0x40, 0x5d, 0x6a, 0xe5,
    0x53, 0x86, 0xbd, 0x28, 0, 0, 0, 0, 0, 0, 0, 0, 0, 0, 0, 3,
];

// All bytes that passed.
#[derive(Drop)]
struct Passed {
    bytes: Vec<u8>,
}

impl Transcript for Passed {
    ghost use Rattle.std.specs.Prelude.{◌≡◌, ◌++◌};

    ghost hears = { λ new old bytes. new.bytes.items ≡ old.bytes.items ++ bytes };

    fn add(&mut self, bytes: &[u8]) -> Result<(), NoMemory> {
        self.bytes.extend_from_slice(bytes)?;
        Ok(())
    }
}

#[test]
fn common_items_are_shown(rt: HostRuntime) -> Result<(), Fail> {
    let alloc = rt.alloc();
    let items = Items::read(alloc, b"a\nb\nc\n")?;
    let peer_items = Items::read(alloc, b"b\nc\nd\n")?;
    let (own_deal, peer_deal) = deal(alloc, &[0; 32], 0, 16, 4)?;
    let bins = bins(items.len());
    let digests = items.digests(alloc)?;
    let candidates = item_candidates(alloc, own_deal.key(), bins, &digests)?;
    let placement = place(alloc, &candidates, bins, own_deal.stash())
        .ok()
        .expect(&rt, "a placement");
    let mut receiver = ReceiverCore::new(alloc, &items, &digests, &own_deal, &placement)?;
    let mut sender = SenderCore::new(alloc, &peer_items, &peer_deal);
    let mut passed = Passed {
        bytes: Vec::new(alloc),
    };
    assert_eq!(rt; peer_items.len(), 3);
    exchange(alloc, &mut receiver, &mut sender, &mut passed)?;
    assert_eq!(rt; receiver.shown(), [false, true, true].as_slice());
    assert_eq!(rt; passed.bytes.len(), 4_135 + 440);
    assert_eq!(rt; passed.bytes.get(..34), Some(HELLO.as_slice()));
    Ok(())
}
