// Digests beside the standard's own and those of a hash that works on one message.
use crate::{EndBlock, Schedules, digests_of_two_blocks};
use sha2::{Digest, Sha256};

// The example of two blocks of FIPS 180-4, and its digest.
const EXAMPLE: &[u8; 56] = b"abcdbcdecdefdefgefghfghighijhijkijkljklmklmnlmnomnopnopq";

const EXAMPLE_DIGEST: [u8; 32] = [
    0x24, 0x8d, 0x6a, 0x61, 0xd2, 0x06, 0x38, 0xb8, 0xe5, 0xc0, 0x26, 0x93, 0x0c, 0x3e, 0x60, 0x39,
    0xa3, 0x3c, 0xe4, 0x59, 0x64, 0xff, 0x21, 0x67, 0xf6, 0xec, 0xed, 0xd4, 0x19, 0xdb, 0x06, 0xc1,
];

// The byte at a place of two blocks that are a message of 56 to 119 bytes with its padding (5.1.1).
fn padded_byte(message: &[u8], at: usize) -> u8 {
    let length = message.len();
    match (message.get(at), at) {
        (Some(byte), _) => *byte,
        (None, 126) => (length / 32) as u8,
        (None, 127) => (length % 32 * 8) as u8,
        (None, _) if at == length => 0x80,
        (None, _) => 0,
    }
}

// The two blocks of a message of 56 to 119 bytes with its padding.
fn two_blocks(message: &[u8]) -> ([u8; 64], [u8; 64]) {
    let mut first = [0; 64];
    let mut second = [0; 64];
    for i in 0..64 {
        first[i] = padded_byte(message, i);
        second[i] = padded_byte(message, i + 64);
    }
    (first, second)
}

#[test]
fn the_example_of_the_standard_has_its_digest(rt: HostRuntime) {
    let (first, end) = two_blocks(EXAMPLE);
    let mut room = Schedules::new();
    for digest in EndBlock::new(&end).digests(&[first; 8], &mut room) {
        assert_eq!(rt; digest, EXAMPLE_DIGEST);
    }
    for digest in digests_of_two_blocks(&[first; 8], &[end; 8], &mut room) {
        assert_eq!(rt; digest, EXAMPLE_DIGEST);
    }
}

#[test]
fn each_lane_has_the_digest_of_its_own_message(rt: HostRuntime) {
    let messages = [
        [0; 92], [1; 92], [2; 92], [3; 92], [85; 92], [127; 92], [128; 92], [255; 92],
    ];
    let mut room = Schedules::new();
    for length in [56, 58, 92] {
        let mut first = [[0; 64]; 8];
        let mut second = [[0; 64]; 8];
        for j in 0..8 {
            (first[j], second[j]) = two_blocks(&messages[j][..length]);
        }
        let digests = digests_of_two_blocks(&first, &second, &mut room);
        for j in 0..8 {
            assert_eq!(rt;
                digests[j],
                Sha256::digest(&messages[j][..length]),
                "of {length} bytes at {j}"
            );
        }
    }
}

#[test]
fn a_common_end_serves_each_lane(rt: HostRuntime) {
    let mut room = Schedules::new();
    for length in [56, 58] {
        let messages = [
            [3; 58], [5; 58], [7; 58], [9; 58], [11; 58], [13; 58], [15; 58], [17; 58],
        ];
        let (_, end) = two_blocks(&messages[0][..length]);
        let mut first = [[0; 64]; 8];
        for j in 0..8 {
            (first[j], _) = two_blocks(&messages[j][..length]);
        }
        let digests = EndBlock::new(&end).digests(&first, &mut room);
        for j in 0..8 {
            assert_eq!(rt;
                digests[j],
                Sha256::digest(&messages[j][..length]),
                "of {length} bytes at {j}"
            );
        }
    }
}
