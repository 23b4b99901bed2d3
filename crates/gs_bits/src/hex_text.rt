ghost use Rattle.std.specs.Prelude.{◌≡◌, ◌*◌, ℕ, ◌≤◌, ◌↔◌, length, take, IsOk, OnOk, Ok, Err};
ghost use Rattle.std.specs.List.{AllPass};
ghost use Rattle.gs_bits.specs.HexText.{FirstBadDigit, bits_of_hex, hex_of_bits, is_hex_digit};
ghost use Rattle.gs_bits.specs.PackedBits.{bits_of_bytes};

use hex::FromHexError;

/// Writes the bytes of a text of hexadecimal digits, two digits to a byte. The error is the place of the first byte that is not a
/// hexadecimal digit.
pub(crate) fn decode(text: &[u8], out: &mut [u8]) -> Result<(), usize>
    requires { length text.now ≡ 2 * length out.old }
    ensures bad { (place : ℕ) → (result ≡ Err place) ↔ FirstBadDigit text.now place }
    ensures digits { IsOk result ↔ AllPass is_hex_digit text.now }
    ensures bits { OnOk result (bits_of_bytes out.new ≡ bits_of_hex text.now) }
{
    match hex::decode_to_slice(text, out) {
        Ok(()) => Ok(()),
        Err(error) => match error {
            FromHexError::InvalidHexCharacter { index, .. } => Err(index),
            _ => unreachable!(),
        },
    }
}

/// The upper-case digits, by their values.
static DIGITS: [u8; 16] = *b"0123456789ABCDEF";

/// Writes the upper-case digits of some bytes to the start of `out`, two to a byte.
pub(crate) fn write_digits(bytes: &[u8], out: &mut [u8])
    requires room { 2 * length bytes.now ≤ length out.old }
    ensures count { length out.new ≡ length out.old }
    ensures written { take (2 * length bytes.now) out.new ≡ hex_of_bits (bits_of_bytes bytes.now) }
{
    for place in 0..bytes.len() {
        let byte = bytes[place];
        out[2 * place] = DIGITS[usize::from(byte / 16)];
        out[2 * place + 1] = DIGITS[usize::from(byte % 16)];
    }
}
