//! Audits of small sessions.
ghost use Rattle.psi_spec.specs.Deals.{ArePair};

use crate::{Verdict, audit};
use psi_base::{NoMemory, Pairs, Places, RECORD_LIMIT, bins};
use psi_cuckoo::{BadSlots, place};
use psi_deal::{DealField, ReceiverDeal, SenderDeal, deal};
use psi_items::Items;
use psi_log::{Recorder, read_record, write_record};
use psi_oprf::item_candidates;
use psi_receiver::ReceiverCore;
use psi_sender::SenderCore;
use psi_session::{Transcript, exchange};
use std::alloc::Global;
use std::process::Abort;
use std::test::Fail;

// The record of a session, as it is written.
#[derive(Drop)]
struct Recording {
    record: Recorder,
}

impl Transcript for Recording {
    ghost use Rattle.std.specs.Prelude.{◌≡◌, ◌++◌};

    ghost hears = { λ new old bytes. new.record.bytes ≡ old.record.bytes ++ bytes };

    fn add(&mut self, bytes: &[u8]) -> Result<(), NoMemory> {
        self.record.reserve(bytes.len() as u64)?;
        self.record.add(bytes);
        Ok(())
    }
}

// The record of a session of these inputs.
fn record(
    rt: &impl Abort,
    alloc: Global,
    x: &Items,
    y: &Items,
    receiver: &ReceiverDeal,
    sender: &SenderDeal,
) -> Result<Vec<u8>, Fail>
    requires { ArePair receiver.now sender.now }
{
    let bin_count = bins(x.len());
    let digests = x.digests(alloc)?;
    let candidates = item_candidates(alloc, receiver.key(), bin_count, &digests)?;
    let placement = place(alloc, &candidates, bin_count, receiver.stash())
        .ok()
        .expect(rt, "a placement");
    let mut own = ReceiverCore::new(alloc, x, &digests, receiver, &placement)?;
    let mut peer = SenderCore::new(alloc, y, sender);
    let mut recording = Recording {
        record: Recorder::begin(alloc, &placement)?,
    };
    assert!(rt; y.len() < 100);
    exchange(alloc, &mut own, &mut peer, &mut recording)?;
    Ok(write_record(recording.record))
}

// The verdict on a record.
fn judge(
    rt: &impl Abort,
    alloc: Global,
    x: &Items,
    y: &Items,
    receiver: &ReceiverDeal,
    sender: &SenderDeal,
    bytes: &[u8],
) -> Result<Verdict, Fail> {
    assert!(rt; bytes.len() <= RECORD_LIMIT as usize);
    let log = read_record(alloc, bytes)?;
    Ok(audit(alloc, x, y, receiver, sender, &log)?)
}

// What a consistent verdict holds.
fn consistent(rt: &impl Abort, verdict: Verdict) -> (Places, Pairs) {
    match verdict {
        Verdict::Consistent { shown, collisions } => (shown, collisions),
        Verdict::DealsDiffer(_) | Verdict::Slots(_) | Verdict::Differs { .. } => {
            panic!(rt; "an honest session")
        }
    }
}

#[test]
fn an_honest_session_is_consistent(rt: HostRuntime) -> Result<(), Fail> {
    let alloc = rt.alloc();
    let x = Items::read(alloc, b"ann\nbob\ncat\n")?;
    let y = Items::read(alloc, b"bob\ndan\n")?;
    let (receiver, sender) = deal(alloc, &[0; 32], 0, 16, 4)?;
    let bytes = record(&rt, alloc, &x, &y, &receiver, &sender)?;
    let verdict = judge(&rt, alloc, &x, &y, &receiver, &sender, &bytes)?;
    let (shown, collisions) = consistent(&rt, verdict);
    assert_eq!(rt; shown.len(), 1);
    assert_eq!(rt; shown.get(0), Some(1));
    assert_eq!(rt; collisions.len(), 0);
    Ok(())
}

#[test]
fn tags_of_one_byte_collide(rt: HostRuntime) -> Result<(), Fail> {
    let alloc = rt.alloc();
    let x = Items::read(
        alloc,
        b"a\nb\nc\nd\ne\nf\ng\nh\ni\nj\nk\nl\nm\nn\no\np\nq\nr\ns\nt\n",
    )?;
    let y = Items::read(
        alloc,
        b"0\n1\n2\n3\n4\n5\n6\n7\n8\n9\nu\nv\nw\nx\ny\nz\na0\nb0\nc0\nd0\ne0\nf0\ng0\n",
    )?;
    let (receiver, sender) = deal(alloc, &[0; 32], 0, 1, 4)?;
    let bytes = record(&rt, alloc, &x, &y, &receiver, &sender)?;
    let verdict = judge(&rt, alloc, &x, &y, &receiver, &sender, &bytes)?;
    let (shown, collisions) = consistent(&rt, verdict);
    assert!(rt; shown.len() > 0);
    assert_eq!(rt; collisions.len(), shown.len());
    assert_eq!(rt; collisions.get(0).map(|pair| pair.0), shown.get(0));
    Ok(())
}

#[test]
fn another_count_differs_in_the_hello(rt: HostRuntime) -> Result<(), Fail> {
    let alloc = rt.alloc();
    let x = Items::read(alloc, b"ann\nbob\ncat\n")?;
    let y = Items::read(alloc, b"bob\ndan\n")?;
    let more = Items::read(alloc, b"bob\ndan\neve\n")?;
    let (receiver, sender) = deal(alloc, &[0; 32], 0, 16, 4)?;
    let bytes = record(&rt, alloc, &x, &y, &receiver, &sender)?;
    // The record has 9 bytes and 5 for each slot before the hellos, which have 34 bytes each.
    match judge(&rt, alloc, &x, &more, &receiver, &sender, &bytes)? {
        Verdict::Differs {
            offset,
            found,
            wanted,
        } => {
            assert_eq!(rt; offset, 24 + 67);
            assert_eq!(rt; found, 2);
            assert_eq!(rt; wanted, 3);
        }
        Verdict::Consistent { .. } | Verdict::DealsDiffer(_) | Verdict::Slots(_) => {
            panic!(rt; "another session")
        }
    }
    Ok(())
}

#[test]
fn deals_are_judged_before_slots(rt: HostRuntime) -> Result<(), Fail> {
    let alloc = rt.alloc();
    let x = Items::read(alloc, b"ann\nbob\n")?;
    let y = Items::read(alloc, b"bob\n")?;
    let (receiver, sender) = deal(alloc, &[0; 32], 0, 16, 4)?;
    let (_other, stranger) = deal(alloc, &[0; 32], 7, 16, 4)?;
    let bytes = record(&rt, alloc, &x, &y, &receiver, &sender)?;
    match judge(&rt, alloc, &y, &y, &receiver, &sender, &bytes)? {
        Verdict::Slots(fault) => assert_eq!(rt; fault, BadSlots::Count { found: 2 }),
        Verdict::Consistent { .. } | Verdict::DealsDiffer(_) | Verdict::Differs { .. } => {
            panic!(rt; "other slots")
        }
    }
    match judge(&rt, alloc, &y, &y, &receiver, &stranger, &bytes)? {
        Verdict::DealsDiffer(field) => assert_eq!(rt; field, DealField::Session),
        Verdict::Consistent { .. } | Verdict::Slots(_) | Verdict::Differs { .. } => {
            panic!(rt; "another deal")
        }
    }
    Ok(())
}
