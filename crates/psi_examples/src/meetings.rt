// Items that are shown though they are not common, since a short tag of theirs is met by chance. The
// texts were found by programs apart from this one.
use crate::runs::{DONE, ZERO_SEED, expect_run, numbered_lines, world_of};
use std::test::Fail;

/// The name of a row, the number of a session, the length of a tag, and the text that is printed.
const MEETINGS: &[(&str, &str, &str, &[u8])] = &[
    ("session 0, 1 byte", "0", "1", b"a\nb\nc\nd\n"),
    ("session 1, 1 byte", "1", "1", b"b\nd\n"),
    ("session 2, 1 byte", "2", "1", b"a\nb\nc\n"),
    ("session 3, 1 byte", "3", "1", b"a\nb\nc\nd\n"),
    ("session 4, 1 byte", "4", "1", b"c\nd\n"),
    ("session 0, 16 bytes", "0", "16", b""),
    ("session 1, 16 bytes", "1", "16", b""),
    ("session 2, 16 bytes", "2", "16", b""),
    ("session 3, 16 bytes", "3", "16", b""),
    ("session 4, 16 bytes", "4", "16", b""),
];

#[test]
fn short_tags_meet(rt: HostRuntime) -> Result<(), Fail> {
    let y = numbered_lines(rt.alloc(), 'y', 200)?;
    for &(name, session, tag_length, printed) in MEETINGS {
        let texts = ["local", "x", "y", ZERO_SEED, session, tag_length];
        let mut world = world_of(rt.alloc(), Some(b"a\nb\nc\nd\n"), Some(y.as_bytes()))?;
        expect_run(&rt, &texts, &mut world, DONE, printed, name)?;
    }
    Ok(())
}
