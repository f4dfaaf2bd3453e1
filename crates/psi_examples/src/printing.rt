// What `local` prints where nothing is refused.
use crate::runs::{DONE, LOCAL, expect_run, world_of};
use std::test::Fail;

/// The name of a row, the files x and y, and the text that is printed.
const PRINTED: &[(&str, &[u8], &[u8], &[u8])] = &[
    ("two common", b"a\nb\nc\n", b"b\nc\nd\n", b"b\nc\n"),
    (
        "normal forms",
        b"  Ann \r\nann\n\nBob",
        b"bob\r\n",
        b"bob\n",
    ),
    ("empty x", b"", b"a\n", b""),
    ("empty y", b"a\n", b"", b""),
];

#[test]
fn prints_common_items(rt: HostRuntime) -> Result<(), Fail> {
    for &(name, x, y, printed) in PRINTED {
        let mut world = world_of(rt.alloc(), Some(x), Some(y))?;
        expect_run(&rt, LOCAL, &mut world, DONE, printed, name)?;
    }
    Ok(())
}
