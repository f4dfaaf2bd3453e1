//! Words of 64 bits within lists of bytes.
ghost use Rattle.std.specs.Prelude.{◌≡◌, ◌<◌, ◌+◌, ◌≤◌, ◌*◌, ◌^◌, ℕ, length, slice_index};
ghost use Rattle.std.specs.Int.{bit_at};
ghost use Rattle.psi_spec.specs.Bits.{bit_of};
ghost use Rattle.psi_lanes.specs.Strips.{PutsWord};

// Fewer than eight bytes, and zeros behind them.
fn last_bytes(bytes: &[u8]) -> [u8; 8]
    requires { length bytes.now < 8 }
    ensures { (k : ℕ) → k < 8 → slice_index result k ≡ slice_index bytes.now k }
{
    let mut word = [0; 8];
    word[..bytes.len()].copy_from_slice(bytes);
    word
}

// The eight bytes from byte `at` on, with zeros past the end.
#[inline(always)]
fn bytes_at(bytes: &[u8], at: usize) -> [u8; 8]
    requires { at ≤ length bytes.now }
    ensures { (k : ℕ) → k < 8 → slice_index result k ≡ slice_index bytes.now (at + k) }
{
    let rest = &bytes[at..];
    match rest.first_chunk::<8>() {
        Some(word) => *word,
        None => last_bytes(rest),
    }
}

// The 64 bits from byte `at` on, with zeros past the end.
#[inline(always)]
pub fn word_at(bytes: &[u8], at: usize) -> u64
    requires { at ≤ length bytes.now }
    ensures { (i : ℕ) → i < 64 → bit_at result i ≡ bit_of bytes.now (8 * at + i) }
{
    u64::from_le_bytes(bytes_at(bytes, at))
}

// Writes eight bytes at the front, as far as there is room.
#[inline(always)]
fn put_front(bytes: &mut [u8], word: &[u8; 8])
    ensures { (k : ℕ) → k < 8 → k < length bytes.old →
        slice_index bytes.new k ≡ slice_index word.now k }
{
    if bytes.len() >= 8 {
        bytes[..8].copy_from_slice(word);
    } else {
        bytes.copy_from_slice(&word[..bytes.len()]);
    }
}

// Writes the 64 bits from byte `at` on, as far as there are bytes.
#[inline(always)]
pub fn put_word(bytes: &mut [u8], at: usize, word: u64)
    requires { at ≤ length bytes.old }
    ensures puts { PutsWord at word bytes.old bytes.new }
    ensures small { (i : ℕ) → slice_index bytes.new i < 2 ^ 8 }
{
    put_front(&mut bytes[at..], &word.to_le_bytes());
}
