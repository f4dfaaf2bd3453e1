//! Bits of bytes.
ghost use Rattle.std.specs.Prelude.{◌≡◌, ◌*◌, ◌<◌, length};
ghost use Rattle.psi_spec.specs.Bits.{bit_of as bit_of_bytes};

/// Bit `j`, counted from 0 and from the lowest of the first byte on: 0 or 1.
pub fn bit_of(bytes: &[u8], j: usize) -> u8
    requires { j < 8 * length bytes.now }
    ensures { result ≡ bit_of_bytes bytes.now j }
{
    (bytes[j / 8] >> (j % 8)) & 1
}
