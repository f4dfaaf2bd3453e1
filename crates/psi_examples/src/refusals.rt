// Files and sets that `local` refuses, and the order of its refusals. A refused run prints nothing.
use crate::runs::{DONE, LOCAL, expect_run, world_of};
use psi_base::FaultKind;
use std::test::Fail;

const ONE_ITEM: Option<&[u8]> = Some(b"a\n");

/// Six items whose candidates are all one bin of the eight, in which the stash leaves one without a row.
pub const CROWDED: &[u8] = b"i16\ni278\ni331\ni351\ni551\ni723\n";

const RETURN_IN_LINE: Option<&[u8]> = Some(b"x\ry");

/// Line 2 is 300 letters, and line 3 holds a control byte.
const LONG_LINE: Option<&[u8]> = Some(
    b"a\n\
    qqqqqqqqqqqqqqqqqqqqqqqqqqqqqqqqqqqqqqqqqqqqqqqqqqqqqqqqqqqq\
    qqqqqqqqqqqqqqqqqqqqqqqqqqqqqqqqqqqqqqqqqqqqqqqqqqqqqqqqqqqq\
    qqqqqqqqqqqqqqqqqqqqqqqqqqqqqqqqqqqqqqqqqqqqqqqqqqqqqqqqqqqq\
    qqqqqqqqqqqqqqqqqqqqqqqqqqqqqqqqqqqqqqqqqqqqqqqqqqqqqqqqqqqq\
    qqqqqqqqqqqqqqqqqqqqqqqqqqqqqqqqqqqqqqqqqqqqqqqqqqqqqqqqqqqq\
    \n\x07\n",
);

const X_FAULT: &str = "psi: word 1: file fault\n";

const Y_FAULT: &str = "psi: word 2: file fault\n";

const CROWD: &str = "psi: word 1: 6 items touch 1 bins\n";

const LONG_IN_X: &str = "psi: word 1: line 2: item of 300 bytes\n";

const LONG_IN_Y: &str = "psi: word 2: line 2: item of 300 bytes\n";

const BYTE_IN_X: &str = "psi: word 1: line 1: byte 13\n";

const BYTE_IN_Y: &str = "psi: word 2: line 1: byte 13\n";

/// The name of a row, the files x and y, of which None is missing, and the line of the refusal.
const REFUSED: &[(&str, Option<&[u8]>, Option<&[u8]>, &str)] = &[
    ("no y", ONE_ITEM, None, Y_FAULT),
    ("no x", None, ONE_ITEM, X_FAULT),
    ("long line in x", LONG_LINE, ONE_ITEM, LONG_IN_X),
    ("byte in x", RETURN_IN_LINE, ONE_ITEM, BYTE_IN_X),
    ("long line in y", ONE_ITEM, LONG_LINE, LONG_IN_Y),
    ("byte in y", ONE_ITEM, RETURN_IN_LINE, BYTE_IN_Y),
    ("byte in x, no y", RETURN_IN_LINE, None, BYTE_IN_X),
    ("crowded x", Some(CROWDED), ONE_ITEM, CROWD),
    ("crowded x, no y", Some(CROWDED), None, Y_FAULT),
    (
        "crowded x, byte in y",
        Some(CROWDED),
        RETURN_IN_LINE,
        BYTE_IN_Y,
    ),
];

#[test]
fn refuses_files_in_order(rt: HostRuntime) -> Result<(), Fail> {
    for &(name, x, y, line) in REFUSED {
        let mut world = world_of(rt.alloc(), x, y)?;
        expect_run(&rt, LOCAL, &mut world, line, b"", name)?;
    }
    Ok(())
}

/// The name of a row, the kind of the call that fails and its place, and the line of the refusal.
const FAILED: &[(&str, FaultKind, u64, &str)] = &[
    ("read of x", FaultKind::File, 0, X_FAULT),
    ("read of y", FaultKind::File, 1, Y_FAULT),
    ("print", FaultKind::Print, 0, "psi: print fault\n"),
];

#[test]
fn failed_calls_end_the_run(rt: HostRuntime) -> Result<(), Fail> {
    for &(name, kind, nth, line) in FAILED {
        let mut world = world_of(rt.alloc(), ONE_ITEM, ONE_ITEM)?;
        world.fail(kind, nth)?;
        expect_run(&rt, LOCAL, &mut world, line, b"", name)?;
    }
    Ok(())
}

const TOO_LONG: &str = "psi: word 1: too long after 33554433 bytes\n";

/// The name of a row, the length of the file x, which is of line feeds alone, and the line of the
/// run.
const LENGTHS: &[(&str, u32, &str)] = &[
    ("the longest file", 33_554_432, DONE),
    ("one byte more", 33_554_433, TOO_LONG),
];

#[test]
fn reads_files_up_to_the_limit(rt: HostRuntime) -> Result<(), Fail> {
    for &(name, length, line) in LENGTHS {
        let blank = vec![in rt.alloc(); b'\n'; length as usize]?;
        let mut world = world_of(rt.alloc(), Some(&blank), ONE_ITEM)?;
        expect_run(&rt, LOCAL, &mut world, line, b"", name)?;
    }
    Ok(())
}
