ghost use Rattle.std.specs.Prelude.{◌≡◌};
ghost use Rattle.gs_bits.specs.Digits.{are_bit_digits};

/// Returns whether a text has only the digits 0 and 1, the written form of bits.
pub fn are_bit_digits(text: &[u8]) -> bool
    ensures { result ≡ are_bit_digits text.now }
{
    text.iter().all(|c| *c == b'0' || *c == b'1')
}
