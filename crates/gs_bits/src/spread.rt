ghost use Rattle.std.specs.Prelude.{◌≡◌, ◌*◌, ◌≤◌, length, take};
ghost use Rattle.gs_bits.specs.Bits.{bits_of};
ghost use Rattle.gs_bits.specs.PackedBits.{bits_of_bytes};

/// Returns the bits of a byte, from the highest. The product has eight copies of the byte, 9 places apart: the top bit of its
/// byte j, from the lowest, is bit 7 - j of the byte.
fn bits_of_byte(byte: u8) -> [u8; 8]
    ensures { result ≡ bits_of 8 byte }
{
    let copies = u64::from(byte).wrapping_mul(0x8040_2010_0804_0201);
    ((copies >> 7) & 0x0101_0101_0101_0101).to_le_bytes()
}

/// Writes the bits of some bytes to the start of the symbols, byte by byte.
pub(crate) fn spread(bytes: &[u8], symbols: &mut [u8])
    requires small { length bytes.now ≤ 64 }
    requires room { 8 * length bytes.now ≤ length symbols.old }
    ensures count { length symbols.new ≡ length symbols.old }
    ensures written { take (8 * length bytes.now) symbols.new ≡ bits_of_bytes bytes.now }
{
    for place in 0..bytes.len() {
        symbols[8 * place..8 * place + 8].copy_from_slice(&bits_of_byte(bytes[place]));
    }
}
