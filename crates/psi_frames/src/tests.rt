// Worked frames: their bytes, and what an inbox answers to bytes in the place of an expected one.
ghost use Rattle.std.specs.Prelude.{◌≡◌, ◌≤◌, length, true};
ghost use Rattle.psi_spec.specs.Deals.{fits_tag_length};
ghost use Rattle.psi_spec.specs.Frames.{layout};
ghost use Rattle.psi_frames.specs.Expected.{seen};

use super::*;
use psi_base::{INBOX_ROOM, TagLength};
use std::alloc::Global;
use std::process::Abort;
use std::test::Fail;

/// The id of the deal of the zero seed.
const ID: [u8; 16] = [
    0x76, 0xb8, 0xe0, 0xad, 0xa0, 0xf1, 0x3d, 0x90, 0x40, 0x5d, 0x6a, 0xe5, 0x53, 0x86, 0xbd, 0x28,
];

/// The receiver's hello with that deal, session 0 and three items.
const HELLO: &[u8] = &[
    0x01, 0, 0, 0, 0x1d, 0x01, 0x76, 0xb8, 0xe0, 0xad, 0xa0, 0xf1, 0x3d, 0x90, 0x40, 0x5d, 0x6a,
    0xe5, 0x53, 0x86, 0xbd, 0x28, 0, 0, 0, 0, 0, 0, 0, 0, 0, 0, 0, 3,
];

const HELLO_FRAME: Frame<'static> = Frame::ReceiverHello {
    id: ID,
    session: 0,
    count: 3,
};

const HELLO_DUE: Expect = Expect::ReceiverHello { id: ID, session: 0 };

/// The sender's hello with session 258 and as many items as there may be.
const SENDER_HELLO: &[u8] = &[
    2, 0, 0, 0, 29, 1, 9, 9, 9, 9, 9, 9, 9, 9, 9, 9, 9, 9, 9, 9, 9, 9, 0, 0, 0, 0, 0, 0, 1, 2, 0,
    16, 0, 0,
];

const SENDER_HELLO_FRAME: Frame<'static> = Frame::SenderHello {
    id: [9; 16],
    session: 258,
    count: 1_048_576,
};

const SENDER_HELLO_DUE: Expect = Expect::SenderHello {
    id: [9; 16],
    session: 258,
};

/// A column of 17 rows, those for ten items.
const COLUMN: &[u8] = &[3, 0, 0, 0, 5, 1, 255, 1, 2, 1];

const COLUMN_FRAME: Frame<'static> = Frame::Column {
    index: 511,
    bytes: &[1, 2, 1],
};

const COLUMN_DUE: Expect = Expect::Column {
    index: 511,
    rows: 17,
};

const FIRST_COLUMN_DUE: Expect = Expect::Column { index: 0, rows: 17 };

/// The only block of a list of three tags of 16 bytes.
const TAGS: &[u8] = &[
    4, 0, 0, 0, 0x35, 2, 0, 0, 0, 0, 1, 1, 1, 1, 1, 1, 1, 1, 1, 1, 1, 1, 1, 1, 1, 1, 2, 2, 2, 2, 2,
    2, 2, 2, 2, 2, 2, 2, 2, 2, 2, 2, 3, 3, 3, 3, 3, 3, 3, 3, 3, 3, 3, 3, 3, 3, 3, 3,
];

const TAGS_FRAME: Frame<'static> = Frame::Tags {
    list: 2,
    block: 0,
    bytes: &[
        1, 1, 1, 1, 1, 1, 1, 1, 1, 1, 1, 1, 1, 1, 1, 1, 2, 2, 2, 2, 2, 2, 2, 2, 2, 2, 2, 2, 2, 2,
        2, 2, 3, 3, 3, 3, 3, 3, 3, 3, 3, 3, 3, 3, 3, 3, 3, 3,
    ],
};

/// The values of a block, two of two bytes, of which the second is the lower one.
const VALUES: &[u8] = &[7, 0, 0, 0, 8, 0, 0, 1, 2, 9, 9, 1, 2];

const VALUES_FRAME: Frame<'static> = Frame::Values {
    block: 258,
    bytes: &[9, 9, 1, 2],
};

const DONE: &[u8] = &[5, 0, 0, 0, 0];

const TWO_EQUAL_TAGS: Frame<'static> = Frame::Tags {
    list: 0,
    block: 0,
    bytes: &[5, 5],
};

const ONE_MORE_TAG: Frame<'static> = Frame::Tags {
    list: 0,
    block: 1,
    bytes: &[7],
};

/// What a row expects. A constant can hold no length of a tag, so an `Expect` is made of it.
#[derive(Clone, Copy)]
enum Due {
    Hello,
    SenderHello,
    Column,
    FirstColumn,
    /// The first block of list 2, of three tags of 16 bytes.
    Tags,
    /// The first block of list 0, of two tags of one byte.
    TwoTags,
    /// A block of one tag of one byte, after the tag 7.
    OneMore,
    /// The first block of list 2, of one tag of one byte.
    LastList,
    /// Block 258 of two values of two bytes.
    Values,
    Done,
}

/// The length of a tag.
fn tag_length(bytes: u8) -> TagLength
    requires { fits_tag_length bytes ≡ true }
    ensures { result ≡ bytes }
{
    TagLength::new(bytes).unwrap()
}

/// The block of a list, of so many tags of this length, after a tag that begins with the byte `before`.
fn tags_due(list: u8, block: u32, tags: u16, tag_length: TagLength, before: u8) -> Expect {
    let mut floor = [0; 16];
    floor[0] = before;
    Expect::Tags {
        list,
        block,
        tags,
        tag_length,
        floor,
    }
}

impl Due {
    fn expect(self) -> Expect {
        match self {
            Due::Hello => HELLO_DUE,
            Due::SenderHello => SENDER_HELLO_DUE,
            Due::Column => COLUMN_DUE,
            Due::FirstColumn => FIRST_COLUMN_DUE,
            Due::Tags => tags_due(2, 0, 3, tag_length(16), 0),
            Due::TwoTags => tags_due(0, 0, 2, tag_length(1), 0),
            Due::OneMore => tags_due(0, 1, 1, tag_length(1), 7),
            Due::LastList => tags_due(2, 0, 1, tag_length(1), 0),
            Due::Values => Expect::Values {
                block: 258,
                tags: 2,
                tag_length: tag_length(2),
            },
            Due::Done => Expect::Done,
        }
    }
}

/// The name of a row, what is expected, the bytes that are fed, how many of them are taken, and the frame.
const READ: &[(&str, Due, &[u8], usize, Option<Frame<'static>>)] = &[
    ("receiver's hello", Due::Hello, HELLO, 34, Some(HELLO_FRAME)),
    (
        "sender's hello",
        Due::SenderHello,
        SENDER_HELLO,
        34,
        Some(SENDER_HELLO_FRAME),
    ),
    ("last column", Due::Column, COLUMN, 10, Some(COLUMN_FRAME)),
    ("tags of 16 bytes", Due::Tags, TAGS, 58, Some(TAGS_FRAME)),
    (
        "falling values",
        Due::Values,
        VALUES,
        13,
        Some(VALUES_FRAME),
    ),
    ("end", Due::Done, DONE, 5, Some(Frame::Done)),
    (
        "byte after the end",
        Due::Done,
        &[5, 0, 0, 0, 0, 5],
        5,
        Some(Frame::Done),
    ),
    (
        "equal tags",
        Due::TwoTags,
        &[4, 0, 0, 0, 7, 0, 0, 0, 0, 0, 5, 5],
        12,
        Some(TWO_EQUAL_TAGS),
    ),
    (
        "tag that equals its floor",
        Due::OneMore,
        &[4, 0, 0, 0, 6, 0, 0, 0, 0, 1, 7],
        11,
        Some(ONE_MORE_TAG),
    ),
    ("no byte", Due::Done, &[], 0, None),
    (
        "cut in the length",
        Due::FirstColumn,
        &[3, 0, 0, 0],
        4,
        None,
    ),
    (
        "cut before the last tag",
        Due::TwoTags,
        &[4, 0, 0, 0, 7, 0, 0, 0, 0, 0, 5],
        11,
        None,
    ),
];

const OTHER_KIND: Reason = Reason::Kind {
    found: 4,
    wanted: 3,
};

const OTHER_LENGTH: Reason = Reason::Length {
    found: 6,
    wanted: 5,
};

const OTHER_ID: Reason = Reason::Deal {
    found: [
        0x76, 0xb8, 0xe0, 0xad, 0xa0, 0xf1, 0x3d, 0x90, 0x40, 0x5d, 0x6a, 0xe5, 0x53, 0x86, 0xbd, 0,
    ],
};

const OTHER_COLUMN: Reason = Reason::Index {
    found: 256,
    wanted: 0,
};

const OTHER_BLOCK: Reason = Reason::Index {
    found: 2,
    wanted: 1,
};

const OTHER_LIST: Reason = Reason::List {
    found: 3,
    wanted: 2,
};

const NO_VALUES: Reason = Reason::Kind {
    found: 4,
    wanted: 7,
};

const ONE_BYTE_FEWER: Reason = Reason::Length {
    found: 7,
    wanted: 8,
};

const OTHER_VALUES: Reason = Reason::Index {
    found: 513,
    wanted: 258,
};

/// The name of a row, what is expected, the bytes that are fed, and why they are refused.
const REFUSED: &[(&str, Due, &[u8], Reason)] = &[
    ("other kind", Due::FirstColumn, &[4], OTHER_KIND),
    (
        "other length",
        Due::FirstColumn,
        &[3, 0, 0, 0, 6],
        OTHER_LENGTH,
    ),
    (
        "other version",
        Due::Hello,
        &[1, 0, 0, 0, 29, 2],
        Reason::Version { found: 2 },
    ),
    (
        "other deal",
        Due::Hello,
        &[
            0x01, 0, 0, 0, 0x1d, 0x01, 0x76, 0xb8, 0xe0, 0xad, 0xa0, 0xf1, 0x3d, 0x90, 0x40, 0x5d,
            0x6a, 0xe5, 0x53, 0x86, 0xbd, 0,
        ],
        OTHER_ID,
    ),
    (
        "other session",
        Due::SenderHello,
        &[
            2, 0, 0, 0, 29, 1, 9, 9, 9, 9, 9, 9, 9, 9, 9, 9, 9, 9, 9, 9, 9, 9, 1, 0, 0, 0, 0, 0, 1,
            2,
        ],
        Reason::Session {
            found: 72_057_594_037_928_194,
        },
    ),
    (
        "too many items",
        Due::SenderHello,
        &[
            2, 0, 0, 0, 29, 1, 9, 9, 9, 9, 9, 9, 9, 9, 9, 9, 9, 9, 9, 9, 9, 9, 0, 0, 0, 0, 0, 0, 1,
            2, 0, 16, 0, 1,
        ],
        Reason::Count { found: 1_048_577 },
    ),
    (
        "other column, and a padding bit behind it",
        Due::FirstColumn,
        &[3, 0, 0, 0, 5, 1, 0, 255, 255, 2],
        OTHER_COLUMN,
    ),
    (
        "padding bit",
        Due::FirstColumn,
        &[3, 0, 0, 0, 5, 0, 0, 255, 255, 2],
        Reason::Padding { byte: 2 },
    ),
    ("other list", Due::LastList, &[4, 0, 0, 0, 6, 3], OTHER_LIST),
    (
        "other block",
        Due::OneMore,
        &[4, 0, 0, 0, 6, 0, 0, 0, 0, 2],
        OTHER_BLOCK,
    ),
    (
        "falling tags",
        Due::TwoTags,
        &[4, 0, 0, 0, 7, 0, 0, 0, 0, 0, 5, 3],
        Reason::Order { at: 1 },
    ),
    (
        "tag below its floor",
        Due::OneMore,
        &[4, 0, 0, 0, 6, 0, 0, 0, 0, 1, 6],
        Reason::Order { at: 0 },
    ),
    ("tags for values", Due::Values, &[4], NO_VALUES),
    (
        "values of one byte fewer",
        Due::Values,
        &[7, 0, 0, 0, 7],
        ONE_BYTE_FEWER,
    ),
    (
        "other block of values",
        Due::Values,
        &[7, 0, 0, 0, 8, 0, 0, 2, 1],
        OTHER_VALUES,
    ),
];

/// Compares how many of these bytes an inbox takes, and what it answers then.
fn check(
    rt: &impl Abort,
    alloc: Global,
    name: &str,
    expect: &Expect,
    fed: &[u8],
    taken: usize,
    answer: Result<Option<Frame<'_>>, BadFrame>,
) -> Result<(), Fail> {
    assert!(rt; expect.payload() <= INBOX_ROOM - 5, "{name}: too long");
    let mut inbox = Inbox::with_room(alloc, INBOX_ROOM)?;
    assert_eq!(rt; inbox.feed(expect, fed), taken, "{name}");
    assert_eq!(rt; inbox.next(expect), answer, "{name}");
    Ok(())
}

#[test]
fn frames_are_read(rt: HostRuntime) -> Result<(), Fail> {
    for &(name, due, fed, taken, frame) in READ {
        check(&rt, rt.alloc(), name, &due.expect(), fed, taken, Ok(frame))?;
    }
    Ok(())
}

#[test]
fn values_are_begun_wherever_they_are_cut(rt: HostRuntime) -> Result<(), Fail> {
    for cut in 0..VALUES.len() {
        check(
            &rt,
            rt.alloc(),
            "cut values",
            &Due::Values.expect(),
            &VALUES[..cut],
            cut,
            Ok(None),
        )?;
    }
    Ok(())
}

#[test]
fn wrong_fields_are_refused(rt: HostRuntime) -> Result<(), Fail> {
    for &(name, due, fed, reason) in REFUSED {
        let bad = BadFrame { offset: 0, reason };
        check(
            &rt,
            rt.alloc(),
            name,
            &due.expect(),
            fed,
            fed.len(),
            Err(bad),
        )?;
    }
    Ok(())
}

#[test]
fn a_refusal_stays(rt: HostRuntime) -> Result<(), Fail> {
    let mut inbox = Inbox::with_room(rt.alloc(), 10)?;
    let refusal = Err(BadFrame {
        offset: 0,
        reason: OTHER_KIND,
    });
    assert_eq!(rt; inbox.feed(&FIRST_COLUMN_DUE, &[4]), 1);
    assert_eq!(rt; inbox.next(&FIRST_COLUMN_DUE), refusal);
    assert_eq!(rt; inbox.missing(&FIRST_COLUMN_DUE), 0);
    assert_eq!(rt; inbox.feed(&FIRST_COLUMN_DUE, &[0]), 0);
    assert_eq!(rt; inbox.next(&FIRST_COLUMN_DUE), refusal);
    Ok(())
}

/// Compares the bytes that an outbox gets of a frame.
fn check_put(rt: &impl Abort, alloc: Global, frame: &Frame<'_>, bytes: &[u8]) -> Result<(), Fail>
    requires { length (layout (seen frame.now)) ≤ 58 }
{
    let mut outbox = Outbox::with_room(alloc, 58)?;
    put(&mut outbox, frame);
    assert_eq!(rt; outbox.pending(), bytes);
    Ok(())
}

#[test]
fn frames_are_put(rt: HostRuntime) -> Result<(), Fail> {
    check_put(&rt, rt.alloc(), &HELLO_FRAME, HELLO)?;
    check_put(&rt, rt.alloc(), &SENDER_HELLO_FRAME, SENDER_HELLO)?;
    check_put(&rt, rt.alloc(), &COLUMN_FRAME, COLUMN)?;
    check_put(&rt, rt.alloc(), &TAGS_FRAME, TAGS)?;
    check_put(&rt, rt.alloc(), &VALUES_FRAME, VALUES)?;
    check_put(&rt, rt.alloc(), &Frame::Done, DONE)
}

#[test]
fn what_is_put_is_read(rt: HostRuntime) -> Result<(), Fail> {
    let mut outbox = Outbox::with_room(rt.alloc(), 20)?;
    put(&mut outbox, &COLUMN_FRAME);
    put(&mut outbox, &Frame::Done);
    assert_eq!(rt; outbox.spare(), 5);
    let mut inbox = Inbox::with_room(rt.alloc(), 10)?;
    let taken = inbox.feed(&COLUMN_DUE, outbox.pending());
    assert_eq!(rt; inbox.next(&COLUMN_DUE), Ok(Some(COLUMN_FRAME)));
    assert_eq!(rt; inbox.offset(), 10);
    assert_eq!(rt; taken, 10);
    outbox.sent(taken);
    assert_eq!(rt; outbox.pending(), DONE);
    assert_eq!(rt; inbox.feed(&Expect::Done, outbox.pending()), 5);
    assert_eq!(rt; inbox.next(&Expect::Done), Ok(Some(Frame::Done)));
    outbox.sent(5);
    assert_eq!(rt; outbox.spare(), 20);
    Ok(())
}

#[test]
fn one_tag_of_many(rt: HostRuntime) {
    let third = [5, 6, 0, 0, 0, 0, 0, 0, 0, 0, 0, 0, 0, 0, 0, 0];
    assert_eq!(rt; tag_at(&[1, 2, 3, 4, 5, 6, 7, 8], tag_length(2), 2), third);
}
