// The receiver's end over a link in memory: what it sends, prints and records for a sender's stream, and each refusal.
use crate::runs::{DONE, ZERO_SEED as Z, expect_run, words_of};
use psi_base::{MemWorld, NoMemory};
use psi_frames::{BadFrame, Reason};
use psi_top::{Status, run};
use std::process::Abort;
use std::test::Fail;

/// The words of the receiver's end.
const RECEIVE: &[&str] = &["receive", "a", "x", "r", "record"];

/// The words of the sender's end.
const SEND: &[&str] = &["send", "a", "y", "s"];

/// The id of the deal of the seed of zeros: bytes of RFC 8439, appendix A.1, test vector 1.
const ID: [u8; 16] = [
    0x76, 0xb8, 0xe0, 0xad, 0xa0, 0xf1, 0x3d, 0x90, 0x40, 0x5d, 0x6a, 0xe5, 0x53, 0x86, 0xbd, 0x28,
];

/// The receiver's list.
const X: &[u8] = b"a\nb\nc\n";

/// The sender's list.
const Y: &[u8] = b"b\nc\nd\n";

/// The frame that ends a receiver's stream.
const LAST: &[u8] = &[5, 0, 0, 0, 0];

// The hello of one end, by its kind, of the deal of the seed of zeros in session 0, for so many items.
fn hello(kind: u8, count: u32) -> [u8; 34] {
    let mut bytes = [0; 34];
    bytes[0] = kind;
    bytes[4] = 29;
    bytes[5] = 1;
    bytes[6..22].copy_from_slice(&ID);
    bytes[30..].copy_from_slice(&count.to_be_bytes());
    bytes
}

/// A world with both lists, both deal files of these sizes, and what a peer sends.
pub fn world_of(
    rt: &(impl Abort + AllocGlobal),
    sizes: &str,
    lists: [&[u8]; 2],
    incoming: &[u8],
) -> Result<MemWorld, NoMemory> {
    let mut world = MemWorld::new(rt.alloc());
    expect_run(
        rt,
        &["deal", Z, "0", sizes, "r", "s"],
        &mut world,
        DONE,
        b"",
        sizes,
    )?;
    world.put_file("x", lists[0])?;
    world.put_file("y", lists[1])?;
    world.set_incoming(incoming, &[])?;
    Ok(world)
}

/// The stream of a receiver with these lists' first against a sender of so many items: the columns come once the
/// sender's hello was taken, and the last frame stands behind them.
pub fn receiver_stream(
    rt: &(impl Abort + AllocGlobal),
    sizes: &str,
    lists: [&[u8]; 2],
    count: u32,
) -> Result<Vec<u8>, NoMemory> {
    let mut world = world_of(rt, sizes, lists, &hello(2, count))?;
    let words = words_of(rt.alloc(), RECEIVE)?;
    run(rt.alloc(), &words, &mut world);
    let mut bytes = world.outgoing().to_vec(rt.alloc())?;
    if count > 0 {
        bytes.extend_from_slice(LAST)?;
    }
    Ok(bytes)
}

/// The stream of the sender of these lists' second, of so many items, for the receiver of the first.
pub fn sender_stream(
    rt: &(impl Abort + AllocGlobal),
    sizes: &str,
    lists: [&[u8]; 2],
    count: u32,
) -> Result<Vec<u8>, NoMemory> {
    let incoming = receiver_stream(rt, sizes, lists, count)?;
    let mut world = world_of(rt, sizes, lists, &incoming)?;
    expect_run(rt, SEND, &mut world, DONE, b"", sizes)?;
    Ok(world.outgoing().to_vec(rt.alloc())?)
}

/// A session: the sizes of the deal, both lists and the sender's count of items, what is printed, and the sizes of the
/// receiver's stream, the sender's and the record.
struct Session {
    name: &'static str,
    sizes: &'static str,
    lists: [&'static [u8]; 2],
    count: u32,
    printed: &'static [u8],
    sent: usize,
    taken: usize,
    record: usize,
}

const SESSIONS: &[Session] = &[
    Session {
        name: "three and three",
        sizes: "16",
        lists: [X, Y],
        count: 3,
        printed: b"b\nc\n",
        sent: 4135,
        taken: 440,
        record: 4631,
    },
    Session {
        name: "no item of the receiver",
        sizes: "16",
        lists: [b"", b"a\n"],
        count: 1,
        printed: b"",
        sent: 4135,
        taken: 216,
        record: 4392,
    },
    Session {
        name: "no item of the sender",
        sizes: "16",
        lists: [b"a\n", b""],
        count: 0,
        printed: b"",
        sent: 4135,
        taken: 34,
        record: 4215,
    },
    Session {
        name: "no stash rows",
        sizes: "16/0",
        lists: [b"a\n", b"a\n"],
        count: 1,
        printed: b"a\n",
        sent: 4135,
        taken: 112,
        record: 4293,
    },
    Session {
        name: "sixteen stash rows",
        sizes: "16/16",
        lists: [X, Y],
        count: 3,
        printed: b"b\nc\n",
        sent: 5159,
        taken: 1136,
        record: 6351,
    },
    Session {
        name: "items that are trimmed",
        sizes: "16",
        lists: [b"  Ann \r\nann\n\nBob", b"bob\r\n"],
        count: 1,
        printed: b"bob\n",
        sent: 4135,
        taken: 216,
        record: 4402,
    },
];

#[test]
fn common_items_are_printed_and_recorded(rt: HostRuntime) -> Result<(), Fail> {
    for row in SESSIONS {
        let mut incoming = sender_stream(&rt, row.sizes, row.lists, row.count)?;
        assert_eq!(rt; incoming.len(), row.taken, "at {}", row.name);
        incoming.extend_from_slice(b"rest")?;
        let mut world = world_of(&rt, row.sizes, row.lists, &incoming)?;
        expect_run(&rt, RECEIVE, &mut world, DONE, row.printed, row.name)?;
        assert_eq!(rt; world.outgoing().len(), row.sent, "at {}", row.name);
        assert_eq!(rt; world.left(), b"rest".as_slice(), "at {}", row.name);
        let record = world.file("record").unwrap_or(&[]);
        assert_eq!(rt; record.len(), row.record, "at {}", row.name);
    }
    Ok(())
}

#[test]
fn the_hello_comes_first(rt: HostRuntime) -> Result<(), Fail> {
    let mut world = world_of(&rt, "16", [X, Y], &[])?;
    expect_run(
        &rt,
        RECEIVE,
        &mut world,
        "psi: peer ended at 0\n",
        b"",
        "no bytes",
    )?;
    assert_eq!(rt; world.outgoing(), hello(1, 3).as_slice());
    Ok(())
}

#[test]
fn pieces_make_no_difference(rt: HostRuntime) -> Result<(), Fail> {
    let incoming = sender_stream(&rt, "16", [X, Y], 3)?;
    let mut whole = world_of(&rt, "16", [X, Y], &incoming)?;
    expect_run(&rt, RECEIVE, &mut whole, DONE, b"b\nc\n", "in one piece")?;
    let mut cut = world_of(&rt, "16", [X, Y], &[])?;
    cut.set_incoming(&incoming, &[1; 440])?;
    cut.trickle(1);
    expect_run(&rt, RECEIVE, &mut cut, DONE, b"b\nc\n", "byte by byte")?;
    assert_eq!(rt; whole.outgoing(), cut.outgoing());
    assert_eq!(rt; whole.file("record"), cut.file("record"));
    Ok(())
}

/// A sender's stream that is changed in one byte, what is refused, and how many bytes were sent.
struct Changed {
    name: &'static str,
    place: usize,
    byte: u8,
    offset: u64,
    reason: Reason,
    sent: usize,
}

const CHANGED: &[Changed] = &[
    Changed {
        name: "kind of the hello",
        place: 0,
        byte: 1,
        offset: 0,
        reason: Reason::Kind {
            found: 1,
            wanted: 2,
        },
        sent: 34,
    },
    Changed {
        name: "count",
        place: 30,
        byte: 255,
        offset: 0,
        reason: Reason::Count { found: 0xff00_0003 },
        sent: 34,
    },
    Changed {
        name: "kind of a list",
        place: 34,
        byte: 5,
        offset: 34,
        reason: Reason::Kind {
            found: 5,
            wanted: 4,
        },
        sent: 4130,
    },
    Changed {
        name: "number of a list",
        place: 39,
        byte: 1,
        offset: 34,
        reason: Reason::List {
            found: 1,
            wanted: 0,
        },
        sent: 4130,
    },
    Changed {
        name: "number of a block",
        place: 43,
        byte: 1,
        offset: 34,
        reason: Reason::Index {
            found: 1,
            wanted: 0,
        },
        sent: 4130,
    },
];

#[test]
fn changed_streams_are_refused(rt: HostRuntime) -> Result<(), Fail> {
    let words = words_of(rt.alloc(), RECEIVE)?;
    let stream = sender_stream(&rt, "16", [X, Y], 3)?;
    for changed in CHANGED {
        let mut incoming = stream.to_vec(rt.alloc())?;
        if let Some(byte) = incoming.get_mut(changed.place) {
            *byte = changed.byte;
        }
        let mut world = world_of(&rt, "16", [X, Y], &incoming)?;
        let outcome = run(rt.alloc(), &words, &mut world);
        let refused = Status::BadFrame(BadFrame {
            offset: changed.offset,
            reason: changed.reason,
        });
        assert_eq!(rt; outcome.status, refused, "at {}", changed.name);
        assert_eq!(rt; world.outgoing().len(), changed.sent, "at {}", changed.name);
        assert_eq!(rt; world.file("record"), None, "at {}", changed.name);
    }
    Ok(())
}

#[test]
fn falling_tags_are_refused(rt: HostRuntime) -> Result<(), Fail> {
    let mut incoming = sender_stream(&rt, "16", [X, Y], 3)?;
    for i in 0..16usize {
        if let Some(byte) = incoming.get_mut(392 + i) {
            *byte = 0xff;
        }
        if let Some(byte) = incoming.get_mut(408 + i) {
            *byte = 0;
        }
    }
    let mut world = world_of(&rt, "16", [X, Y], &incoming)?;
    expect_run(
        &rt,
        RECEIVE,
        &mut world,
        "psi: frame at 382: reason 9\n",
        b"",
        "list 6",
    )?;
    assert_eq!(rt; world.outgoing().len(), 4130);
    Ok(())
}

// A sender's hello of 1,025 items, and list 0 in two blocks: 1,024 tags of sixteen bytes 1, and one of 16 such bytes.
fn two_blocks(rt: &(impl Abort + AllocGlobal), last: u8) -> Result<Vec<u8>, NoMemory> {
    let mut bytes = Vec::new(rt.alloc());
    bytes.extend_from_slice(&hello(2, 1025))?;
    bytes.extend_from_slice(&[4, 0, 0, 0x40, 5, 0, 0, 0, 0, 0])?;
    for _ in 0..16384u16 {
        bytes.push(1)?;
    }
    bytes.extend_from_slice(&[4, 0, 0, 0, 21, 0, 0, 0, 0, 1])?;
    bytes.extend_from_slice(&[last; 16])?;
    Ok(bytes)
}

#[test]
fn a_block_rises_from_the_one_before(rt: HostRuntime) -> Result<(), Fail> {
    let below = two_blocks(&rt, 0)?;
    let mut world = world_of(&rt, "16", [X, Y], &below)?;
    expect_run(
        &rt,
        RECEIVE,
        &mut world,
        "psi: frame at 16428: reason 9\n",
        b"",
        "below",
    )?;
    let equal = two_blocks(&rt, 1)?;
    let mut world = world_of(&rt, "16", [X, Y], &equal)?;
    expect_run(
        &rt,
        RECEIVE,
        &mut world,
        "psi: peer ended at 16454\n",
        b"",
        "equal",
    )?;
    Ok(())
}

#[test]
fn too_many_items_are_refused(rt: HostRuntime) -> Result<(), Fail> {
    let mut world = world_of(&rt, "16", [X, Y], &hello(2, 1_048_577))?;
    expect_run(
        &rt,
        RECEIVE,
        &mut world,
        "psi: frame at 0: reason 6\n",
        b"",
        "count",
    )?;
    assert_eq!(rt; world.outgoing(), hello(1, 3).as_slice());
    Ok(())
}

// The first byte of the frame that is due where the sender's stream of three tags a list is cut, and how many bytes
// are sent by then.
fn at_cut(cut: usize) -> (u64, usize) {
    match cut {
        0..34 => (0, 34),
        _ => (34 + 58 * ((cut as u64 - 34) / 58), 4130),
    }
}

#[test]
fn cut_streams_end_early(rt: HostRuntime) -> Result<(), Fail> {
    let words = words_of(rt.alloc(), RECEIVE)?;
    let stream = sender_stream(&rt, "16", [X, Y], 3)?;
    for cut in 0..stream.len() {
        let mut world = world_of(&rt, "16", [X, Y], &stream[..cut])?;
        let outcome = run(rt.alloc(), &words, &mut world);
        let (offset, sent) = at_cut(cut);
        assert_eq!(rt; outcome.status, Status::PeerEnded { offset }, "at {cut}");
        assert_eq!(rt; world.outgoing().len(), sent, "at {cut}");
        assert_eq!(rt; world.file("record"), None, "at {cut}");
    }
    Ok(())
}

#[test]
fn a_crowded_set_has_no_placement(rt: HostRuntime) -> Result<(), Fail> {
    let mut world = world_of(&rt, "16/0", [b"h\nat\n", Y], &hello(2, 3))?;
    expect_run(
        &rt,
        RECEIVE,
        &mut world,
        "psi: word 2: 2 items touch 1 bins\n",
        b"",
        "both in bin 0",
    )?;
    assert_eq!(rt; world.outgoing().len(), 0);
    assert_eq!(rt; world.left().len(), 34);
    Ok(())
}

/// The words of the receiver's end, and the line of the refusal.
const BAD_WORDS: &[(&str, &[&str], &str)] = &[
    ("no words", &["receive"], "psi: bad word at 1\n"),
    (
        "no address",
        &["receive", "", "x", "r", "record"],
        "psi: bad word at 1\n",
    ),
    (
        "no record",
        &["receive", "a", "x", "r"],
        "psi: bad word at 4\n",
    ),
    (
        "the record is the list",
        &["receive", "a", "x", "r", "x"],
        "psi: bad word at 4\n",
    ),
    (
        "the record is the deal",
        &["receive", "a", "x", "r", "r"],
        "psi: bad word at 4\n",
    ),
    (
        "six words",
        &["receive", "a", "x", "r", "record", "t"],
        "psi: bad word at 5\n",
    ),
];

#[test]
fn bad_words_send_nothing(rt: HostRuntime) -> Result<(), Fail> {
    for &(name, texts, line) in BAD_WORDS {
        let mut world = world_of(&rt, "16", [X, Y], &hello(2, 3))?;
        expect_run(&rt, texts, &mut world, line, b"", name)?;
        assert_eq!(rt; world.outgoing().len(), 0, "at {name}");
    }
    Ok(())
}
