// The messages of codes, bins and tags in blocks of 64 bytes, with their padding (FIPS 180-4, 5.1.1).
ghost use Rattle.std.specs.Prelude.{◌≡◌};
ghost use Rattle.psi_lanes.specs.Digests.{IsTwoBlocks};
ghost use Rattle.psi_oprf.specs.Messages.{bins_message, code_message, tag_message};

// The padding of a message of 58 bytes up to the end of its first block.
const CODE_PADDING: [u8; 6] = [0x80, 0, 0, 0, 0, 0];

/// The second block of the message of half a code, which is padding alone: zeros and the length of 464 bits.
pub(crate) const CODE_END: [u8; 64] = [
    0, 0, 0, 0, 0, 0, 0, 0, 0, 0, 0, 0, 0, 0, 0, 0, 0, 0, 0, 0, 0, 0, 0, 0, 0, 0, 0, 0, 0, 0, 0, 0,
    0, 0, 0, 0, 0, 0, 0, 0, 0, 0, 0, 0, 0, 0, 0, 0, 0, 0, 0, 0, 0, 0, 0, 0, 0, 0, 0, 0, 0, 0, 0x01,
    0xd0,
];

// The padding of a message of 56 bytes up to the end of its first block.
const BINS_PADDING: [u8; 8] = [0x80, 0, 0, 0, 0, 0, 0, 0];

/// The second block of the message of an item's bins, which is padding alone: zeros and the length of 448 bits.
pub(crate) const BINS_END: [u8; 64] = [
    0, 0, 0, 0, 0, 0, 0, 0, 0, 0, 0, 0, 0, 0, 0, 0, 0, 0, 0, 0, 0, 0, 0, 0, 0, 0, 0, 0, 0, 0, 0, 0,
    0, 0, 0, 0, 0, 0, 0, 0, 0, 0, 0, 0, 0, 0, 0, 0, 0, 0, 0, 0, 0, 0, 0, 0, 0, 0, 0, 0, 0, 0, 0x01,
    0xc0,
];

// The padding of a message of 92 bytes: a bit, zeros and the length of 736 bits.
const TAG_PADDING: [u8; 36] = [
    0x80, 0, 0, 0, 0, 0, 0, 0, 0, 0, 0, 0, 0, 0, 0, 0, 0, 0, 0, 0, 0, 0, 0, 0, 0, 0, 0, 0, 0, 0, 0,
    0, 0, 0, 0x02, 0xe0,
];

/// Writes the first block of the message of half `half`, 0 or 1, of a code. The second one is `CODE_END`.
#[inline(always)]
pub(crate) fn put_code_block(
    key: &[u8; 16],
    index: u8,
    half: u8,
    digest: &[u8; 32],
    block: &mut [u8; 64],
)
    ensures { IsTwoBlocks (code_message key.now index half digest.now) block.new CODE_END }
{
    let (name, rest) = block.split_at_mut(8);
    name.copy_from_slice(b"psi-code");
    let (key_bytes, rest) = rest.split_at_mut(16);
    key_bytes.copy_from_slice(key);
    let (numbers, rest) = rest.split_at_mut(2);
    numbers.copy_from_slice(&[index, half]);
    let (digest_bytes, padding) = rest.split_at_mut(32);
    digest_bytes.copy_from_slice(digest);
    padding.copy_from_slice(&CODE_PADDING);
}

/// Writes the first block of the message of the bins of a digest. The second one is `BINS_END`.
#[inline(always)]
pub(crate) fn put_bins_block(key: &[u8; 16], digest: &[u8; 32], block: &mut [u8; 64])
    ensures { IsTwoBlocks (bins_message key.now digest.now) block.new BINS_END }
{
    let (name, rest) = block.split_at_mut(8);
    name.copy_from_slice(b"psi-bins");
    let (key_bytes, rest) = rest.split_at_mut(16);
    key_bytes.copy_from_slice(key);
    let (digest_bytes, padding) = rest.split_at_mut(32);
    digest_bytes.copy_from_slice(digest);
    padding.copy_from_slice(&BINS_PADDING);
}

/// Writes the two blocks of the message of the tag of a word at a row.
#[inline(always)]
pub(crate) fn put_tag_blocks(
    key: &[u8; 16],
    row: u32,
    word: &[u8; 64],
    first: &mut [u8; 64],
    second: &mut [u8; 64],
)
    ensures { IsTwoBlocks (tag_message key.now row word.now) first.new second.new }
{
    let (name, rest) = first.split_at_mut(8);
    name.copy_from_slice(b"psi-tags");
    let (key_bytes, rest) = rest.split_at_mut(16);
    key_bytes.copy_from_slice(key);
    let (row_bytes, word_bytes) = rest.split_at_mut(4);
    row_bytes.copy_from_slice(&row.to_be_bytes());
    word_bytes.copy_from_slice(&word[..36]);

    let (word_bytes, padding) = second.split_at_mut(28);
    word_bytes.copy_from_slice(&word[36..]);
    padding.copy_from_slice(&TAG_PADDING);
}
