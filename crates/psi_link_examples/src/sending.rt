// The sender's end over a link in memory: what it sends for a receiver's stream, and each refusal.
ghost use Rattle.std.specs.Prelude.{◌≤◌, length};

use crate::runs::{DONE, ZERO_SEED as Z, expect_run, words_of};
use psi_base::{FILE_LIMIT, MemWorld, NoMemory};
use psi_frames::{BadFrame, Reason};
use psi_top::{Status, run};
use std::alloc::{AllocError, Global};
use std::process::Abort;
use std::test::Fail;

/// The words of the sender's end.
const SEND: &[&str] = &["send", "a", "y", "s"];

/// The id of the deal of the seed of zeros: bytes of RFC 8439, appendix A.1, test vector 1.
const ID: [u8; 16] = [
    0x76, 0xb8, 0xe0, 0xad, 0xa0, 0xf1, 0x3d, 0x90, 0x40, 0x5d, 0x6a, 0xe5, 0x53, 0x86, 0xbd, 0x28,
];

/// The sender's list.
const LIST: &[u8] = b"b\nc\nd\n";

// The stream of a receiver of so many items, in session 0, whose columns are `column` zero bytes each.
fn stream_of(alloc: Global, count: u32, column: u8) -> Result<Vec<u8>, AllocError> {
    let mut bytes = Vec::new(alloc);
    bytes.extend_from_slice(&[1, 0, 0, 0, 29, 1])?;
    bytes.extend_from_slice(&ID)?;
    bytes.extend_from_slice(&[0; 8])?;
    bytes.extend_from_slice(&count.to_be_bytes())?;
    for index in 0..512u16 {
        bytes.extend_from_slice(&[3])?;
        bytes.extend_from_slice(&(2 + u32::from(column)).to_be_bytes())?;
        bytes.extend_from_slice(&index.to_be_bytes())?;
        for _ in 0..column {
            bytes.push(0)?;
        }
    }
    bytes.extend_from_slice(&[5, 0, 0, 0, 0])?;
    Ok(bytes)
}

// The sender's deal file of these sizes.
fn sender_file(rt: &(impl Abort + AllocGlobal), sizes: &str) -> Result<Vec<u8>, NoMemory> {
    let mut world = MemWorld::new(rt.alloc());
    expect_run(
        rt,
        &["deal", Z, "0", sizes, "r", "s"],
        &mut world,
        DONE,
        b"",
        sizes,
    )?;
    let bytes = world.file("s").unwrap_or(&[]);
    Ok(bytes.to_vec(rt.alloc())?)
}

// A world with a list, a deal file and what a peer sends.
fn world_of(
    alloc: Global,
    list: &[u8],
    deal: &[u8],
    incoming: &[u8],
) -> Result<MemWorld, NoMemory> {
    let mut world = MemWorld::new(alloc);
    world.put_file("y", list)?;
    world.put_file("s", deal)?;
    world.set_incoming(incoming, &[])?;
    Ok(world)
}

/// The name of a row, the sizes of the deal, the receiver's count and the bytes of its columns, the list, and how many
/// bytes are sent.
const SESSIONS: &[(&str, &str, u32, u8, &[u8], usize)] = &[
    ("three and three", "16", 3, 1, LIST, 440),
    ("no item of the sender", "16", 3, 1, b"", 34),
    ("no item of the receiver", "16", 0, 1, LIST, 440),
    ("no stash rows", "16/0", 1, 1, b"a\n", 112),
    ("sixteen stash rows", "16/16", 3, 3, LIST, 1136),
    ("tags of one byte", "1", 3, 1, LIST, 125),
];

#[test]
fn a_receiver_is_served(rt: HostRuntime) -> Result<(), Fail> {
    for &(name, sizes, count, column, list, sent) in SESSIONS {
        let deal = sender_file(&rt, sizes)?;
        let mut stream = stream_of(rt.alloc(), count, column)?;
        stream.extend_from_slice(b"rest")?;
        let mut world = world_of(rt.alloc(), list, &deal, &stream)?;
        expect_run(&rt, SEND, &mut world, DONE, b"", name)?;
        assert_eq!(rt; world.outgoing().len(), sent, "at {name}");
        assert_eq!(rt; world.left(), b"rest".as_slice(), "at {name}");
    }
    Ok(())
}

#[test]
fn the_order_of_the_list_does_not_show(rt: HostRuntime) -> Result<(), Fail> {
    let deal = sender_file(&rt, "16")?;
    let stream = stream_of(rt.alloc(), 3, 1)?;
    let mut first = world_of(rt.alloc(), LIST, &deal, &stream)?;
    expect_run(&rt, SEND, &mut first, DONE, b"", "in order")?;
    let mut second = world_of(rt.alloc(), b"d\nc\nb\n", &deal, &stream)?;
    second.trickle(7);
    expect_run(&rt, SEND, &mut second, DONE, b"", "reversed")?;
    assert_eq!(rt; first.outgoing().len(), 440);
    assert_eq!(rt; first.outgoing(), second.outgoing());
    Ok(())
}

/// A stream of a receiver of ten items that is changed in one byte, what is refused, and how many bytes were sent.
struct Changed {
    name: &'static str,
    place: usize,
    byte: u8,
    offset: u64,
    reason: Reason,
    sent: usize,
}

const CHANGED: &[Changed] = &[
    Changed {
        name: "kind of the hello",
        place: 0,
        byte: 2,
        offset: 0,
        reason: Reason::Kind {
            found: 2,
            wanted: 1,
        },
        sent: 0,
    },
    Changed {
        name: "length of the hello",
        place: 4,
        byte: 30,
        offset: 0,
        reason: Reason::Length {
            found: 30,
            wanted: 29,
        },
        sent: 0,
    },
    Changed {
        name: "version",
        place: 5,
        byte: 2,
        offset: 0,
        reason: Reason::Version { found: 2 },
        sent: 0,
    },
    Changed {
        name: "deal",
        place: 6,
        byte: 0x77,
        offset: 0,
        reason: Reason::Deal {
            found: [
                0x77, 0xb8, 0xe0, 0xad, 0xa0, 0xf1, 0x3d, 0x90, 0x40, 0x5d, 0x6a, 0xe5, 0x53, 0x86,
                0xbd, 0x28,
            ],
        },
        sent: 0,
    },
    Changed {
        name: "session",
        place: 29,
        byte: 1,
        offset: 0,
        reason: Reason::Session { found: 1 },
        sent: 0,
    },
    Changed {
        name: "count",
        place: 30,
        byte: 255,
        offset: 0,
        reason: Reason::Count { found: 0xff00_000a },
        sent: 0,
    },
    Changed {
        name: "index of column 0",
        place: 40,
        byte: 1,
        offset: 34,
        reason: Reason::Index {
            found: 1,
            wanted: 0,
        },
        sent: 34,
    },
    Changed {
        name: "padding of column 0",
        place: 43,
        byte: 2,
        offset: 34,
        reason: Reason::Padding { byte: 2 },
        sent: 34,
    },
    Changed {
        name: "padding of column 511",
        place: 5153,
        byte: 2,
        offset: 5144,
        reason: Reason::Padding { byte: 2 },
        sent: 34,
    },
    Changed {
        name: "kind of the end",
        place: 5154,
        byte: 3,
        offset: 5154,
        reason: Reason::Kind {
            found: 3,
            wanted: 5,
        },
        sent: 440,
    },
    Changed {
        name: "length of the end",
        place: 5158,
        byte: 1,
        offset: 5154,
        reason: Reason::Length {
            found: 1,
            wanted: 0,
        },
        sent: 440,
    },
];

#[test]
fn changed_streams_are_refused(rt: HostRuntime) -> Result<(), Fail> {
    let deal = sender_file(&rt, "16")?;
    let words = words_of(rt.alloc(), SEND)?;
    for changed in CHANGED {
        let mut stream = stream_of(rt.alloc(), 10, 3)?;
        if let Some(byte) = stream.get_mut(changed.place) {
            *byte = changed.byte;
        }
        let mut world = world_of(rt.alloc(), LIST, &deal, &stream)?;
        let outcome = run(rt.alloc(), &words, &mut world);
        let refused = Status::BadFrame(BadFrame {
            offset: changed.offset,
            reason: changed.reason,
        });
        assert_eq!(rt; outcome.status, refused, "at {}", changed.name);
        assert_eq!(rt; world.outgoing().len(), changed.sent, "at {}", changed.name);
    }
    Ok(())
}

// The first byte of the frame that is due where a stream of a receiver of three items is cut, and how many bytes are
// sent by then.
fn at_cut(cut: usize) -> (u64, usize) {
    match cut {
        0..34 => (0, 0),
        34..4130 => (34 + 8 * ((cut as u64 - 34) / 8), 34),
        _ => (4130, 440),
    }
}

#[test]
fn cut_streams_end_early(rt: HostRuntime) -> Result<(), Fail> {
    let deal = sender_file(&rt, "16")?;
    let words = words_of(rt.alloc(), SEND)?;
    let stream = stream_of(rt.alloc(), 3, 1)?;
    assert_eq!(rt; stream.len(), 4135);
    for cut in 0..stream.len() {
        let mut world = world_of(rt.alloc(), LIST, &deal, &stream[..cut])?;
        let outcome = run(rt.alloc(), &words, &mut world);
        let (offset, sent) = at_cut(cut);
        assert_eq!(rt; outcome.status, Status::PeerEnded { offset }, "at {cut}");
        assert_eq!(rt; world.outgoing().len(), sent, "at {cut}");
    }
    Ok(())
}

#[test]
fn a_column_is_cut(rt: HostRuntime) -> Result<(), Fail> {
    let deal = sender_file(&rt, "16")?;
    let stream = stream_of(rt.alloc(), 10, 3)?;
    let front = stream.get(..5147).unwrap_or(&[]);
    let mut world = world_of(rt.alloc(), LIST, &deal, front)?;
    expect_run(
        &rt,
        SEND,
        &mut world,
        "psi: peer ended at 5144\n",
        b"",
        "cut",
    )
    .map_err(Fail::from)
}

/// A list with a control byte.
const BAD_LIST: &[u8] = b"x\ry";

// Runs the sender's end with these files, each of them only where its content is given, and asserts the line of the
// refusal, and that nothing was sent.
fn expect_refused(
    rt: &(impl Abort + AllocGlobal),
    y: Option<&[u8]>,
    s: Option<&[u8]>,
    line: &str,
    name: &str,
) -> Result<(), NoMemory> {
    let mut world = MemWorld::new(rt.alloc());
    if let Some(bytes) = y {
        world.put_file("y", bytes)?;
    }
    if let Some(bytes) = s {
        world.put_file("s", bytes)?;
    }
    let stream = stream_of(rt.alloc(), 3, 1)?;
    world.set_incoming(&stream, &[])?;
    expect_run(rt, SEND, &mut world, line, b"", name)?;
    assert_eq!(rt; world.outgoing().len(), 0, "at {name}");
    assert_eq!(rt; world.left().len(), 4135, "at {name}");
    Ok(())
}

#[test]
fn bad_lists_send_nothing(rt: HostRuntime) -> Result<(), Fail> {
    let deal = sender_file(&rt, "16")?;
    expect_refused(
        &rt,
        None,
        Some(&deal),
        "psi: word 2: file fault\n",
        "no list",
    )?;
    expect_refused(
        &rt,
        Some(BAD_LIST),
        Some(&deal),
        "psi: word 2: line 1: byte 13\n",
        "bad list",
    )?;
    expect_refused(
        &rt,
        Some(BAD_LIST),
        None,
        "psi: word 2: line 1: byte 13\n",
        "bad list, no deal",
    )?;
    Ok(())
}

#[test]
fn bad_deals_send_nothing(rt: HostRuntime) -> Result<(), Fail> {
    let list = Some(LIST);
    let mut deal = sender_file(&rt, "16")?;
    let short = deal.get(1..).unwrap_or(&[]);
    expect_refused(&rt, list, None, "psi: word 3: file fault\n", "no deal")?;
    expect_refused(
        &rt,
        list,
        Some(b""),
        "psi: word 3: not a deal file\n",
        "empty deal",
    )?;
    expect_refused(
        &rt,
        list,
        Some(short),
        "psi: word 3: not a deal file\n",
        "no magic",
    )?;
    let cut = deal.get(..16527).unwrap_or(&[]);
    expect_refused(
        &rt,
        list,
        Some(cut),
        "psi: word 3: deal length 16527\n",
        "cut deal",
    )?;
    if let Some(byte) = deal.last_mut() {
        *byte ^= 1;
    }
    expect_refused(
        &rt,
        list,
        Some(&deal),
        "psi: word 3: deal seal\n",
        "other seal",
    )?;
    if let Some(byte) = deal.get_mut(5) {
        *byte = 0;
    }
    expect_refused(
        &rt,
        list,
        Some(&deal),
        "psi: word 3: deal role 0\n",
        "receiver's deal",
    )?;
    Ok(())
}

/// The words of the sender's end, and the line of the refusal.
const BAD_WORDS: &[(&str, &[&str], &str)] = &[
    ("no words", &["send"], "psi: bad word at 1\n"),
    (
        "no address",
        &["send", "", "y", "s"],
        "psi: bad word at 1\n",
    ),
    ("no list", &["send", "a", "", "s"], "psi: bad word at 2\n"),
    ("no deal", &["send", "a", "y"], "psi: bad word at 3\n"),
    (
        "five words",
        &["send", "a", "y", "s", "t"],
        "psi: bad word at 4\n",
    ),
];

#[test]
fn bad_words_send_nothing(rt: HostRuntime) -> Result<(), Fail> {
    for &(name, texts, line) in BAD_WORDS {
        let mut world = MemWorld::new(rt.alloc());
        expect_run(&rt, texts, &mut world, line, b"", name)?;
        assert_eq!(rt; world.outgoing().len(), 0, "at {name}");
    }
    Ok(())
}
