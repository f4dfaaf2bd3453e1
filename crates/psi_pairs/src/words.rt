// The words of lines.
ghost use Rattle.std.specs.Prelude.{◌≡◌, ◌≤◌, ◌<◌, ◌+◌, ◌^◌, drop, length, map, take, IfOk};
ghost use Rattle.psi_spec.specs.Formulas.{item_digest};
ghost use Rattle.psi_spec.specs.PairedRows.{line_word, paired_words};

use psi_base::NoMemory;
use psi_bits::{Rows, Word512};
use psi_items::digest;
use psi_lines::Lines;
use psi_oprf::codes;
use std::alloc::Global;

/// How many lines are worked on at once.
const BATCH: usize = 64;

// Makes `out` the digests of as many lines from a place on.
fn put_digests(lines: &Lines, at: u32, out: &mut [[u8; 32]])
    requires few { length lines.now < 2 ^ 32 }
    requires within { at + length out.old ≤ length lines.now }
    ensures { out.new ≡ map item_digest (take (length out.new) (drop at lines.now)) }
{
    for i in 0..out.len() {
        out[i] = digest(lines.get(at + i as u32).unwrap());
    }
}

// Makes `out` the words of as many lines, at most `BATCH`, from a place on.
fn put_words(lines: &Lines, key: &[u8; 16], at: u32, out: &mut [Word512])
    requires batch { length out.old ≤ 64 }
    requires few { length lines.now < 2 ^ 32 }
    requires within { at + length out.old ≤ length lines.now }
    ensures { out.new ≡ map (line_word key.now) (take (length out.new) (drop at lines.now)) }
{
    let mut digests = [[0; 32]; BATCH];
    let digests = &mut digests[..out.len()];
    put_digests(lines, at, digests);
    codes(key, 0, digests, out);
}

// Makes `out` the words of all lines.
fn put_all_words(lines: &Lines, key: &[u8; 16], out: &mut [Word512])
    requires { length out.old ≡ length lines.now }
    ensures { out.new ≡ map (line_word key.now) lines.now }
{
    let count = lines.len() as usize;
    for turn in 0..count.div_ceil(BATCH) {
        let at = BATCH * turn;
        let end = count.min(at + BATCH);
        put_words(lines, key, at as u32, &mut out[at..end]);
    }
}

/// The words of the rows of lines, under a key of 16 bytes: that of each line is its code at index 0. Where there are
/// no lines there is one row all the same, and its word is zero. It is refused only where memory is wanting.
pub fn pair_words(alloc: Global, lines: &Lines, key: &[u8; 16]) -> Result<Rows, NoMemory>
    ensures { IfOk result (λ rows. rows ≡ paired_words key.now lines.now) }
{
    if lines.len() == 0 {
        return Rows::with_rows(alloc, 1);
    }
    let mut rows = Rows::with_rows(alloc, lines.len())?;
    put_all_words(lines, key, rows.words_mut());
    Ok(rows)
}
