ghost use Rattle.std.specs.Prelude.{◌≡◌, ℕ, ◌^◌, ◌<◌, List, length};
ghost use Rattle.gs_bits.specs.Bits.{AreBits, bits_of, number_of};

/// States that the bits of a number, if there are enough of them, write that number.
pub fn number_of_its_bits()
    ensures { (n number : ℕ) → number < 2 ^ n → number_of (bits_of n number) ≡ number }
{}

/// States that the number of a list of bits has these bits.
pub fn bits_of_their_number()
    ensures { (bits : List ℕ) → AreBits bits → bits_of (length bits) (number_of bits) ≡ bits }
{}
