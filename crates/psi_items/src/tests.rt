// Files worked out by hand from the rules of item files, and a digest from outside.
use super::*;
use std::alloc::{AllocError, Global};
use std::process::Abort;
use std::test::Fail;

const LONGEST_FILE: usize = 33_554_432;

/// What the reading of a file answers.
fn read(rt: &impl Abort, alloc: Global, bytes: &[u8]) -> Result<Items, BadItems> {
    assert!(rt; bytes.len() <= LONGEST_FILE);
    Items::read(alloc, bytes)
}

/// The items of a file, each followed by a line feed.
fn listed(rt: &impl Abort, alloc: Global, bytes: &[u8]) -> Result<Vec<u8>, Fail> {
    let items = read(rt, alloc, bytes)?;
    let mut text = Vec::new(alloc);
    for place in 0..items.len() {
        text.extend_from_slice(items.get(place).expect(rt, "a place below the length"))?;
        text.push(b'\n')?;
    }
    Ok(text)
}

/// Why a file was refused.
fn refusal(rt: &impl Abort, alloc: Global, bytes: &[u8]) -> Option<BadItems> {
    read(rt, alloc, bytes).err()
}

#[test]
fn lists_items(rt: HostRuntime) -> Result<(), Fail> {
    let files: [(&[u8], &[u8]); 8] = [
        (b"", b""),
        (b"\n\r\n \t\n", b""),
        (b"  Ann \r\nann\n\nBob", b"ann\nbob\n"),
        (b"cat\nCAT\ncat\n", b"cat\n"),
        (b"\tone\ttwo \n", b"one\ttwo\n"),
        (b"\xc3\x84\x80\xff\n", b"\xc3\x84\x80\xff\n"),
        (b"AZ@[`{\n", b"az@[`{\n"),
        (b"b\na\nb\nlast", b"b\na\nlast\n"),
    ];
    for (bytes, items) in files {
        assert_eq!(rt; listed(&rt, rt.alloc(), bytes)?.as_slice(), items);
    }
    Ok(())
}

#[test]
fn refuses_control_bytes(rt: HostRuntime) {
    let files: [(&[u8], u32, u8); 7] = [
        (b"a\r\r\n", 1, 13),
        (b"x\ry", 1, 13),
        (b"a\n\x00b\n", 2, 0),
        (b"a\nb\x1f\x01\n", 2, 31),
        (b"a\n\n \x7f", 3, 127),
        (b"\x0b\n\x0c\n", 1, 11),
        (b"\r\n\r\r", 2, 13),
    ];
    for (bytes, line, found) in files {
        assert_eq!(rt;
            refusal(&rt, rt.alloc(), bytes),
            Some(BadItems::Byte { line, found })
        );
    }
}

/// A line of this many letters, with the same blanks before and after them.
fn line_of(alloc: Global, blanks: &[u8], letters: usize) -> Result<Vec<u8>, AllocError> {
    let mut line = Vec::new(alloc);
    line.extend_from_slice(blanks)?;
    for _ in 0..letters {
        line.push(b'Q')?;
    }
    line.extend_from_slice(blanks)?;
    Ok(line)
}

#[test]
fn refuses_long_items(rt: HostRuntime) -> Result<(), Fail> {
    let blanks: [&[u8]; 3] = [b"", b" ", b"\t \t"];
    for around in blanks {
        let fits = line_of(rt.alloc(), around, 256)?;
        assert_eq!(rt; listed(&rt, rt.alloc(), fits.as_slice())?.len(), 257);

        let long = line_of(rt.alloc(), around, 257)?;
        let refused = Some(BadItems::Long {
            line: 1,
            length: 257,
        });
        assert_eq!(rt; refusal(&rt, rt.alloc(), long.as_slice()), refused);
    }
    Ok(())
}

#[test]
fn refuses_by_the_first_fault(rt: HostRuntime) -> Result<(), Fail> {
    // The rest of line 2 after 300 letters, and the lines after it.
    let files: [(&[u8], BadItems); 2] = [
        (
            b"\n\x07\n",
            BadItems::Long {
                line: 2,
                length: 300,
            },
        ),
        (b"\x07\n\x01", BadItems::Byte { line: 2, found: 7 }),
    ];
    for (rest, refused) in files {
        let mut bytes = Vec::new(rt.alloc());
        bytes.extend_from_slice(b"ok\n")?;
        bytes.extend_from_slice(line_of(rt.alloc(), b"", 300)?.as_slice())?;
        bytes.extend_from_slice(rest)?;
        assert_eq!(rt; refusal(&rt, rt.alloc(), bytes.as_slice()), Some(refused));
    }
    Ok(())
}

#[test]
fn refuses_too_many_items(rt: HostRuntime) -> Result<(), Fail> {
    let mut bytes = Vec::new(rt.alloc());
    for number in 0..1_048_576u32 {
        for place in [16, 12, 8, 4, 0] {
            bytes.push(b'a' + (number >> place & 0xf) as u8)?;
        }
        bytes.push(b'\n')?;
    }
    assert_eq!(rt;
        listed(&rt, rt.alloc(), bytes.as_slice())?.len(),
        1_048_576 * 6
    );

    // A repeat in line 1,048,577 adds nothing, and another item there is one too many.
    let whole = bytes.len();
    bytes.extend_from_slice(b"AAAAA\n")?;
    assert_eq!(rt;
        listed(&rt, rt.alloc(), bytes.as_slice())?.len(),
        1_048_576 * 6
    );

    bytes.truncate(whole);
    bytes.extend_from_slice(b"other\n")?;
    assert_eq!(rt;
        refusal(&rt, rt.alloc(), bytes.as_slice()),
        Some(BadItems::Many { line: 1_048_577 })
    );
    Ok(())
}

#[test]
fn finds_items(rt: HostRuntime) -> Result<(), Fail> {
    let items = Items::read(rt.alloc(), b"Ann\nbob\n")?;
    assert_eq!(rt; items.len(), 2);
    assert!(rt; !items.is_empty());
    assert_eq!(rt; items.find(b"ann"), Some(0));
    assert_eq!(rt; items.find(b"bob"), Some(1));
    assert_eq!(rt; items.find(b"Ann"), None);
    assert_eq!(rt; items.get(2), None);
    Ok(())
}

#[test]
fn digests_as_published(rt: HostRuntime) {
    // SHA-256 of `psi-itemb`.
    let expected = [
        0xaf, 0xd4, 0x61, 0x30, 0x66, 0x93, 0x1f, 0x73, 0xc7, 0xce, 0x45, 0x3d, 0x0d, 0xde, 0x71,
        0x88, 0x5c, 0xcb, 0x7b, 0x72, 0x9d, 0xb6, 0xa5, 0xca, 0xdd, 0x13, 0x44, 0x2a, 0x2d, 0xb0,
        0xdc, 0x9f,
    ];
    assert_eq!(rt; digest(b"b"), expected);
}

#[test]
fn makes_files(rt: HostRuntime) -> Result<(), Fail> {
    let first = make_file(rt.alloc(), MadeFile::First, 3, 1, 7)?;
    assert_eq!(rt; first.as_slice(), b"s7-0\nx7-1\nx7-2\n".as_slice());
    let second = make_file(rt.alloc(), MadeFile::Second, 3, 1, 7)?;
    assert_eq!(rt; second.as_slice(), b"y7-2\ny7-1\ns7-0\n".as_slice());
    assert!(rt; make_file(rt.alloc(), MadeFile::Second, 0, 0, 7)?.is_empty());
    Ok(())
}
