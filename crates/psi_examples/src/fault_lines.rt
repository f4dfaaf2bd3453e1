// The lines that name faults, and the numbers of the statuses.
use psi_base::Places;
use psi_frames::{BadFrame, Reason};
use psi_items::BadItems;
use psi_top::{Status, fault_line, status_number};
use std::process::Abort;
use std::test::Fail;

// Asserts the number of a status and the line that names its fault.
fn expect_line(rt: &impl Abort, status: &Status, number: u8, line: &str) {
    let mut out = [0; 120];
    let length = fault_line(status, &mut out);
    assert_eq!(rt; &out[..length], line.as_bytes(), "at {line}");
    assert_eq!(rt; status_number(status), number, "at {line}");
}

/// The fault of an item file of a word, and its line.
const BAD_ITEMS: &[(u8, BadItems, &str)] = &[
    (
        2,
        BadItems::Byte { line: 1, found: 13 },
        "psi: word 2: line 1: byte 13\n",
    ),
    (
        1,
        BadItems::Long {
            line: 2,
            length: 300,
        },
        "psi: word 1: line 2: item of 300 bytes\n",
    ),
    (
        1,
        BadItems::Many { line: 1_048_577 },
        "psi: word 1: line 1048577: too many items\n",
    ),
    (1, BadItems::NoMemory, "psi: no memory\n"),
];

#[test]
fn bad_items_have_lines(rt: HostRuntime) {
    for &(word, fault, line) in BAD_ITEMS {
        expect_line(&rt, &Status::BadItems { word, fault }, 3, line);
    }
}

#[test]
fn files_and_words_have_lines(rt: HostRuntime) {
    let bad_words = Status::BadWords { at: 4 };
    let file_fault = Status::FileFault { word: 2 };
    let too_long = Status::TooLong {
        word: 1,
        taken: 33_554_433,
    };
    expect_line(&rt, &Status::Done, 0, "");
    expect_line(&rt, &bad_words, 2, "psi: bad word at 4\n");
    expect_line(&rt, &file_fault, 10, "psi: word 2: file fault\n");
    expect_line(&rt, &Status::PrintFault, 12, "psi: print fault\n");
    expect_line(
        &rt,
        &too_long,
        13,
        "psi: word 1: too long after 33554433 bytes\n",
    );
    let sizes = Status::SizesDiffer {
        first: 1,
        second: 1_048_576,
    };
    expect_line(&rt, &sizes, 15, "psi: sizes differ: 1 and 1048576\n");
    expect_line(&rt, &Status::NoMemory, 70, "psi: no memory\n");
}

#[test]
fn peers_have_lines(rt: HostRuntime) {
    let bad_frame = Status::BadFrame(BadFrame {
        offset: 16_428,
        reason: Reason::Order { at: 0 },
    });
    let peer_ended = Status::PeerEnded { offset: 5_144 };
    expect_line(&rt, &bad_frame, 6, "psi: frame at 16428: reason 9\n");
    expect_line(&rt, &peer_ended, 7, "psi: peer ended at 5144\n");
    expect_line(&rt, &Status::LinkFault, 11, "psi: link fault\n");
}

#[test]
fn crowded_sets_have_a_line(rt: HostRuntime) -> Result<(), Fail> {
    let mut items = Places::new(rt.alloc());
    for item in 0..6 {
        items.push(item)?;
    }
    let crowded = Status::NoPlacement {
        word: 2,
        items,
        touched: 1,
    };
    expect_line(&rt, &crowded, 5, "psi: word 2: 6 items touch 1 bins\n");
    Ok(())
}
