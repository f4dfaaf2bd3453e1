//! Values that were computed by other programs, and small columns.
ghost use Rattle.std.specs.Prelude.{◌≡◌, ◌<◌, true};
ghost use Rattle.psi_spec.specs.Deals.{fits_tag_length};

use crate::{bin_of, candidates, change, code, mask, open_column, own_tag, peer_tag, tag_into};
use psi_base::{NoMemory, TagLength};
use psi_bits::{Columns, Rows, Word512};

// The key of a deal, and the digest of an item.
const KEY: [u8; 16] = [
    0xbd, 0xd2, 0x19, 0xb8, 0xa0, 0x8d, 0xed, 0x1a, 0xa8, 0x36, 0xef, 0xcc, 0x8b, 0x77, 0x0d, 0xc7,
];

const DIGEST: [u8; 32] = [
    0xaf, 0xd4, 0x61, 0x30, 0x66, 0x93, 0x1f, 0x73, 0xc7, 0xce, 0x45, 0x3d, 0x0d, 0xde, 0x71, 0x88,
    0x5c, 0xcb, 0x7b, 0x72, 0x9d, 0xb6, 0xa5, 0xca, 0xdd, 0x13, 0x44, 0x2a, 0x2d, 0xb0, 0xdc, 0x9f,
];

// The tag of row 5 and the zero word.
const TAG: [u8; 16] = [
    0x38, 0x9f, 0x74, 0x64, 0x09, 0x95, 0xc5, 0xb1, 0xf6, 0xba, 0x0d, 0x27, 0xca, 0xc8, 0xf2, 0xc5,
];

// The length of a tag.
pub(crate) fn tag_length(bytes: u8) -> TagLength
    requires { fits_tag_length bytes ≡ true }
    ensures { result ≡ bytes }
{
    TagLength::new(bytes).unwrap()
}

#[test]
fn codes_begin_as_computed_elsewhere(rt: HostRuntime) {
    let first = code(&KEY, 0, &DIGEST).to_bytes();
    assert_eq!(rt;
        &first[..8],
        [0x8f, 0x07, 0x12, 0x52, 0xd1, 0x3d, 0x36, 0x35].as_slice()
    );
    assert_eq!(rt;
        &first[32..40],
        [0x45, 0xde, 0x14, 0x91, 0x6e, 0xc7, 0x61, 0x1d].as_slice()
    );
    let second = code(&KEY, 1, &DIGEST).to_bytes();
    assert_eq!(rt;
        &second[..8],
        [0x04, 0x21, 0xe0, 0xb7, 0xe5, 0x23, 0x58, 0xc7].as_slice()
    );
}

#[test]
fn bins_are_as_computed_elsewhere(rt: HostRuntime) {
    for (bins, want) in [
        (1, [0, 0, 0]),
        (4, [3, 3, 1]),
        (1_258_292, [1_047_459, 827_143, 374_637]),
        (u32::MAX, [3_605_232_288, 2_934_436_279, 860_140_662]),
    ] {
        assert_eq!(rt; candidates(&KEY, &DIGEST, bins), want, "of {bins} bins");
        for (i, bin) in [(1, want[0]), (2, want[1]), (3, want[2])] {
            assert_eq!(rt;
                bin_of(&KEY, i, &DIGEST, bins),
                bin,
                "at index {i} of {bins} bins"
            );
        }
    }
}

#[test]
fn tags_are_as_computed_elsewhere(rt: HostRuntime) {
    let zero = Word512::zero();
    assert_eq!(rt; own_tag(&KEY, tag_length(16), 5, &zero), TAG);
    let mut narrow = [0; 16];
    narrow[..3].copy_from_slice(&TAG[..3]);
    assert_eq!(rt; own_tag(&KEY, tag_length(3), 5, &zero), narrow);
    let mut out = [0; 3];
    tag_into(&KEY, 5, &zero, &mut out);
    assert_eq!(rt; &out[..], &TAG[..3]);
}

#[test]
fn what_choice_and_code_share_is_flipped(rt: HostRuntime) {
    let zero = Word512::zero();
    let code = code(&KEY, 0, &DIGEST);
    assert_eq!(rt; peer_tag(&KEY, tag_length(16), 5, &zero, &zero, &code), TAG);
    assert_eq!(rt; peer_tag(&KEY, tag_length(16), 5, &code, &code, &code), TAG);
}

#[test]
fn a_masked_column_is_opened(rt: HostRuntime) -> Result<(), NoMemory> {
    let mut zeros = Columns::zero(rt.alloc(), 9)?;
    let mut ones = Columns::zero(rt.alloc(), 9)?;
    let mut out = Columns::zero(rt.alloc(), 9)?;
    let mut codes = Rows::with_rows(rt.alloc(), 9)?;
    let mut bytes = [0; 64];
    bytes[37] = 0x20;
    let word = Word512::from_bytes(&bytes);
    *codes.row_mut(8) = word;
    assert_eq!(rt; zeros.set_column(301, &[0x0f, 0]), Ok(()));
    assert_eq!(rt; ones.set_column(301, &[0x3c, 0]), Ok(()));
    mask(&zeros, &ones, &codes, &mut out);
    assert_eq!(rt; out.column(301), [0x33, 1].as_slice());
    assert_eq!(rt; out.column(300), [0, 0].as_slice());
    open_column(&mut zeros, &Word512::zero(), 301, out.column(301));
    assert_eq!(rt; zeros.column(301), [0x0f, 0].as_slice());
    open_column(&mut ones, &word, 301, out.column(301));
    assert_eq!(rt; ones.column(301), [0x0f, 1].as_slice());
    Ok(())
}

// A word with these bits in one byte, and no other.
fn word_with(byte: usize, bits: u8) -> Word512
    requires { byte < 64 }
{
    let mut bytes = [0; 64];
    bytes[byte] = bits;
    Word512::from_bytes(&bytes)
}

#[test]
fn columns_that_are_not_chosen_are_changed(rt: HostRuntime) -> Result<(), NoMemory> {
    let mut zeros = Columns::zero(rt.alloc(), 3)?;
    let mut ones = Columns::zero(rt.alloc(), 3)?;
    let mut room = Columns::zero(rt.alloc(), 3)?;
    assert_eq!(rt; zeros.set_column(9, &[0b001]), Ok(()));
    assert_eq!(rt; ones.set_column(9, &[0b111]), Ok(()));
    assert_eq!(rt; ones.set_column(300, &[0b010]), Ok(()));
    // Of column 9 the choice word chooses the one column, and of column 300 the zero column. The words differ in bit 9
    // of row 2 and in bit 300 of row 0; in row 1 they are the same.
    let choice = word_with(1, 0b10);
    let mut words = Rows::with_rows(rt.alloc(), 3)?;
    let mut others = Rows::with_rows(rt.alloc(), 3)?;
    *words.row_mut(1) = word_with(1, 0b10);
    *others.row_mut(1) = word_with(1, 0b10);
    *words.row_mut(2) = word_with(1, 0b10);
    *others.row_mut(0) = word_with(37, 0b1_0000);
    change(&mut zeros, &mut ones, &choice, &words, &others, &mut room);
    assert_eq!(rt; zeros.column(9), [0b101].as_slice());
    assert_eq!(rt; ones.column(9), [0b111].as_slice());
    assert_eq!(rt; zeros.column(300), [0].as_slice());
    assert_eq!(rt; ones.column(300), [0b011].as_slice());
    change(&mut zeros, &mut ones, &choice, &words, &others, &mut room);
    assert_eq!(rt; zeros.column(9), [0b001].as_slice());
    assert_eq!(rt; ones.column(300), [0b010].as_slice());
    Ok(())
}
