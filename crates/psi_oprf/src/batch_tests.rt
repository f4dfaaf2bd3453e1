// Batches beside values that another program computed and beside the single calls.
use crate::tests::tag_length;
use crate::{
    Tag, candidates, candidates_of, code, codes, codes_at, item_candidates, own_tag, tags,
};
use psi_base::NoMemory;
use psi_bits::Word512;

// The key of a deal.
const KEY: [u8; 16] = [
    0xbd, 0xd2, 0x19, 0xb8, 0xa0, 0x8d, 0xed, 0x1a, 0xa8, 0x36, 0xef, 0xcc, 0x8b, 0x77, 0x0d, 0xc7,
];

// Two eights and one more.
const DIGESTS: [[u8; 32]; 17] = [
    [0; 32], [1; 32], [2; 32], [3; 32], [4; 32], [5; 32], [6; 32], [7; 32], [8; 32], [9; 32],
    [10; 32], [11; 32], [12; 32], [13; 32], [14; 32], [15; 32], [16; 32],
];

// How both halves begin of the codes at index 1 of the first five digests.
const CODES: [[u8; 8]; 5] = [
    [0x82, 0xf1, 0x29, 0xd3, 0x7d, 0x8e, 0xf6, 0xeb],
    [0x3f, 0x63, 0xa3, 0xf7, 0x4b, 0x03, 0xc7, 0x62],
    [0x77, 0xf5, 0x74, 0x2a, 0xb7, 0x41, 0x12, 0x40],
    [0x1b, 0x6e, 0xe1, 0x59, 0xb6, 0x67, 0x5c, 0xc7],
    [0x57, 0x0e, 0xed, 0x1f, 0x78, 0x7d, 0xb9, 0x95],
];

// The tags of rows 5 to 9 and the words of 64 zeros, ones, twos, threes and fours.
const TAGS: [Tag; 5] = [
    [
        0x38, 0x9f, 0x74, 0x64, 0x09, 0x95, 0xc5, 0xb1, 0xf6, 0xba, 0x0d, 0x27, 0xca, 0xc8, 0xf2,
        0xc5,
    ],
    [
        0x2e, 0xb8, 0xb1, 0x27, 0xb5, 0x13, 0xa9, 0x32, 0xd0, 0x0e, 0x0f, 0xce, 0xc5, 0x35, 0x58,
        0xe5,
    ],
    [
        0x53, 0x89, 0x95, 0xde, 0xa9, 0x3e, 0xb3, 0x8c, 0x84, 0x66, 0x7e, 0x92, 0x15, 0x4c, 0xfc,
        0x51,
    ],
    [
        0xa8, 0xbf, 0x17, 0x45, 0x7c, 0x82, 0xa1, 0x08, 0xf4, 0xb8, 0x57, 0x47, 0x14, 0xca, 0xbd,
        0x96,
    ],
    [
        0x0d, 0xcb, 0x1e, 0xe5, 0x7f, 0xb7, 0x26, 0x8f, 0x12, 0x99, 0xe2, 0xc8, 0x91, 0x3c, 0xfc,
        0xd3,
    ],
];

#[test]
fn codes_begin_as_computed_elsewhere(rt: HostRuntime) {
    let mut words = [Word512::zero(); 8];
    codes(&KEY, 1, &DIGESTS[..8], &mut words);
    for (word, want) in words.iter().zip(&CODES) {
        let bytes = word.to_bytes();
        assert_eq!(rt; &bytes[..4], &want[..4]);
        assert_eq!(rt; &bytes[32..36], &want[4..]);
    }
}

#[test]
fn tags_are_as_computed_elsewhere(rt: HostRuntime) {
    let words = [
        Word512::zero(),
        Word512::from_bytes(&[1; 64]),
        Word512::from_bytes(&[2; 64]),
        Word512::from_bytes(&[3; 64]),
        Word512::from_bytes(&[4; 64]),
        Word512::from_bytes(&[5; 64]),
        Word512::from_bytes(&[6; 64]),
        Word512::from_bytes(&[7; 64]),
    ];
    let mut out = [[0; 16]; 8];
    tags(
        &KEY,
        tag_length(16),
        &[5, 6, 7, 8, 9, 10, 11, 12],
        &words,
        &mut out,
    );
    assert_eq!(rt; &out[..5], TAGS.as_slice());
}

#[test]
fn codes_of_any_length_are_the_single_calls(rt: HostRuntime) {
    for size in 0..18usize {
        let digests = &DIGESTS[..size];
        let mut words = [Word512::zero(); 17];
        codes(&KEY, 2, digests, &mut words[..size]);
        for (word, digest) in words.iter().zip(digests) {
            assert_eq!(rt; *word, code(&KEY, 2, digest), "of {size}");
        }
    }
}

#[test]
fn codes_at_their_indices_are_the_single_calls(rt: HostRuntime) {
    let indices = [3, 1, 0, 2, 2, 0, 1, 3, 3, 2, 1, 0, 0, 3, 1, 2, 1];
    for size in 0..18usize {
        let mut words = [Word512::zero(); 17];
        codes_at(&KEY, &indices[..size], &DIGESTS[..size], &mut words[..size]);
        for i in 0..size {
            assert_eq!(rt;
                words.get(i).copied(),
                Some(code(&KEY, indices[i], &DIGESTS[i])),
                "of {size}"
            );
        }
    }
}

#[test]
fn tags_of_any_length_are_the_single_calls(rt: HostRuntime) {
    let rows = [
        7, 0, 0xffffffff, 7, 256, 65_536, 1, 2, 3, 4, 5, 6, 8, 16_777_216, 9, 10, 11,
    ];
    let word = Word512::from_bytes(&[0x5a; 64]);
    let words = [word; 17];
    for size in 0..18usize {
        let mut out = [[0; 16]; 17];
        tags(
            &KEY,
            tag_length(5),
            &rows[..size],
            &words[..size],
            &mut out[..size],
        );
        for (tag, row) in out.iter().zip(&rows[..size]) {
            assert_eq!(rt;
                *tag,
                own_tag(&KEY, tag_length(5), *row, &word),
                "of {size}"
            );
        }
    }
}

#[test]
fn candidates_of_any_length_are_the_single_calls(rt: HostRuntime) {
    for size in 0..18usize {
        let digests = &DIGESTS[..size];
        let mut out = [[0; 3]; 17];
        candidates_of(&KEY, digests, 1000, &mut out[..size]);
        for (bins, digest) in out.iter().zip(digests) {
            assert_eq!(rt; *bins, candidates(&KEY, digest, 1000), "of {size}");
        }
    }
}

#[test]
fn candidates_of_items_are_the_single_calls(rt: HostRuntime) -> Result<(), NoMemory> {
    let made = item_candidates(rt.alloc(), &KEY, 1000, &DIGESTS)?;
    assert_eq!(rt; made.len(), 17);
    for (bins, digest) in made.iter().zip(&DIGESTS) {
        assert_eq!(rt; *bins, candidates(&KEY, digest, 1000));
    }
    Ok(())
}
