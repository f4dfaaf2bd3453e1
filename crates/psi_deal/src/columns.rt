// Columns of key streams.
ghost use Rattle.std.specs.Prelude.{◌≡◌, length};
ghost use Rattle.psi_spec.specs.Columns.{column as column_of, column_bytes, key_stream};

use rand_chacha::ChaCha20Rng;
use rand_core::{Rng, SeedableRng};

/// Fills `out` with the front of the key stream of a seed and a stream number: ChaCha20 with the
/// block function of RFC 8439, section 2.3, a 64-bit counter and a 64-bit stream number.
pub fn fill_stream(seed: &[u8; 32], stream: u64, out: &mut [u8])
    ensures { out.new ≡ key_stream seed.now stream (length out.old) }
{
    let mut rng = ChaCha20Rng::from_seed(*seed);
    rng.set_stream(stream);
    rng.fill_bytes(out);
}

/// Fills `out`, as many bytes as hold one bit for each row, with the column of a seed in a session.
/// The bits past the last row are zero.
#[tactic(auto, unfolding(psi_spec::specs::Columns::column))]
pub fn fill_column(seed: &[u8; 32], session: u64, rows: u32, out: &mut [u8])
    requires { length out.old ≡ column_bytes rows }
    ensures { out.new ≡ column_of seed.now session rows }
{
    fill_stream(seed, session, out);
    let over = rows % 8;
    if over != 0 {
        out[(rows / 8) as usize] %= 1 << over;
    }
}
