// Files worked out by hand from the rules of paired lines.
use super::*;
use psi_items::BadItems;
use std::alloc::{AllocError, Global};
use std::process::Abort;
use std::test::Fail;

const LONGEST_FILE: usize = 33_554_432;

/// What the reading of a file answers.
fn read(rt: &impl Abort, alloc: Global, bytes: &[u8]) -> Result<Lines, BadItems> {
    assert!(rt; bytes.len() <= LONGEST_FILE);
    Lines::read(alloc, bytes)
}

/// The lines of a file, each followed by a line feed.
fn listed(rt: &impl Abort, alloc: Global, bytes: &[u8]) -> Result<Vec<u8>, Fail> {
    let lines = read(rt, alloc, bytes)?;
    let mut text = Vec::new(alloc);
    for place in 0..lines.len() {
        text.extend_from_slice(lines.get(place).expect(rt, "a place below the length"))?;
        text.push(b'\n')?;
    }
    Ok(text)
}

/// This many letters.
fn letters(alloc: Global, count: usize) -> Result<Vec<u8>, AllocError> {
    vec![in alloc; b'Q'; count]
}

#[test]
fn lists_lines(rt: HostRuntime) -> Result<(), Fail> {
    let files: [(&[u8], &[u8]); 10] = [
        (b"", b""),
        (b"\n", b"\n"),
        (b"a", b"a\n"),
        (b"a\n", b"a\n"),
        (b"a\n\n", b"a\n\n"),
        (b"a\n\r", b"a\n\n"),
        (b" \t", b"\n"),
        (b"a\r\n b \n", b"a\nb\n"),
        (b"b\nB\n\n b\nlast", b"b\nb\n\nb\nlast\n"),
        (b"\xc3\x84\x80\xff\tAZ@[`{\n", b"\xc3\x84\x80\xff\taz@[`{\n"),
    ];
    for (bytes, lines) in files {
        assert_eq!(rt; listed(&rt, rt.alloc(), bytes)?.as_slice(), lines);
    }
    Ok(())
}

#[test]
fn gets_lines(rt: HostRuntime) -> Result<(), Fail> {
    let lines = Lines::read(rt.alloc(), b"Ann\n\nann\n")?;
    assert_eq!(rt; lines.len(), 3);
    assert!(rt; lines.get(1).expect(&rt, "a line").is_empty());
    assert_eq!(rt; lines.get(2).expect(&rt, "a line"), b"ann".as_slice());
    assert!(rt; lines.get(3).is_none());
    Ok(())
}

#[test]
fn refuses_control_bytes(rt: HostRuntime) {
    let files: [(&[u8], u32, u8); 4] = [
        (b"a\r\r\n", 1, 13),
        (b"a\n\n\x07b\x01", 3, 7),
        (b"\n \x7f ", 2, 127),
        (b"x\n\x00", 2, 0),
    ];
    for (bytes, line, found) in files {
        let refused = Some(BadItems::Byte { line, found });
        assert_eq!(rt; read(&rt, rt.alloc(), bytes).err(), refused);
    }
}

#[test]
fn refuses_long_lines(rt: HostRuntime) -> Result<(), Fail> {
    let longest = letters(rt.alloc(), 256)?;
    assert_eq!(rt; listed(&rt, rt.alloc(), longest.as_slice())?.len(), 257);

    let mut bytes = letters(rt.alloc(), 257)?;
    let refused = Some(BadItems::Long {
        line: 1,
        length: 257,
    });
    assert_eq!(rt; read(&rt, rt.alloc(), bytes.as_slice()).err(), refused);

    // A control byte comes first wherever it stands in the line, and a fault of line 1 before one of line 2.
    bytes.extend_from_slice(b"\n\x02")?;
    assert_eq!(rt; read(&rt, rt.alloc(), bytes.as_slice()).err(), refused);
    bytes.truncate(257);
    bytes.push(0x03)?;
    let refused = Some(BadItems::Byte { line: 1, found: 3 });
    assert_eq!(rt; read(&rt, rt.alloc(), bytes.as_slice()).err(), refused);
    Ok(())
}

#[test]
fn refuses_too_many_lines(rt: HostRuntime) -> Result<(), Fail> {
    let mut bytes = vec![in rt.alloc(); b'\n'; 1_048_576]?;
    assert_eq!(rt; Lines::read(rt.alloc(), bytes.as_slice())?.len(), 1_048_576);

    bytes.push(b' ')?;
    let refused = Some(BadItems::Many { line: 1_048_577 });
    assert_eq!(rt; read(&rt, rt.alloc(), bytes.as_slice()).err(), refused);

    bytes.push(0x01)?;
    let refused = Some(BadItems::Byte {
        line: 1_048_577,
        found: 1,
    });
    assert_eq!(rt; read(&rt, rt.alloc(), bytes.as_slice()).err(), refused);
    Ok(())
}
