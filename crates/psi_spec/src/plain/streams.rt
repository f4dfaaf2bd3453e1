//! The key stream of ChaCha20, and the columns that it fills.
ghost use Rattle.std.specs.Prelude.{◌≡◌, ◌<◌, ◌%◌, ◌^◌, length};
ghost use Rattle.psi_spec.specs.Columns.{key_stream as stream_of, column as column_of, column_bytes};

use rand_chacha::ChaCha20Rng;
use rand_core::{Rng, SeedableRng};

/// Fills `out` with the first bytes of the key stream of a seed and a stream number.
pub fn key_stream(seed: &[u8; 32], stream: u64, out: &mut [u8])
    ensures { out.new ≡ stream_of seed.now stream (length out.old) }
{
    let mut rng = ChaCha20Rng::from_seed(*seed);
    rng.set_stream(stream);
    rng.fill_bytes(out);
}

// The low bits, fewer than 8, of a byte.
fn low_bits(byte: u8, count: u32) -> u8
    requires { count < 8 }
    ensures { result ≡ byte % 2 ^ count }
{
    match count {
        0 => 0,
        1 => byte % 2,
        2 => byte % 4,
        3 => byte % 8,
        4 => byte % 16,
        5 => byte % 32,
        6 => byte % 64,
        _ => byte % 128,
    }
}

/// Fills `out`, as many bytes as hold one bit for each row, with the column of a seed in a session.
#[tactic(auto, unfolding(crate::specs::Columns::column))]
pub fn column(seed: &[u8; 32], session: u64, rows: u32, out: &mut [u8])
    requires { length out.old ≡ column_bytes rows }
    ensures { out.new ≡ column_of seed.now session rows }
{
    key_stream(seed, session, out);
    let over = rows % 8;
    if over != 0 {
        let last = (rows / 8) as usize;
        out[last] = low_bits(out[last], over);
    }
}
