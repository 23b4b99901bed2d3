ghost use Rattle.std.specs.Prelude.{◌≡◌, ◌+◌, ◌*◌, ◌≤◌, ◌<◌, ◌↔◌, length, take, drop, IsErr, IfOk, OnOk, OnErr};
ghost use Rattle.gs_bits.specs.Bits.{AreBits, number_of};
ghost use Rattle.gs_bits.specs.PackedBits.{packed_bits};

use crate::errors::Short;
use crate::packed_bits::number_in;
use std::marker::Model;

/// A place in the bits of a buffer. Contracts see the bits that are left.
#[derive(Drop)]
pub struct Cursor<'a, const N: usize> {
    bytes: &'a [u8],
    len: usize,
    at: usize,
}

impl<'a, const N: usize> Model for Cursor<'a, N> {
    ghost use Rattle.std.specs.Prelude.{List, ℕ, ◌*◌, ◌≤◌, length, drop};
    ghost use Rattle.gs_bits.specs.PackedBits.{packed_bits};

    ghost Value = { List ℕ };

    ghost view = { λ c. drop c.at (packed_bits c.len c.bytes.now) };

    ghost invariant = { λ c. (c.at ≤ c.len) × (c.len ≤ 8 * length c.bytes.now) × (length c.bytes.now ≤ 64) };
}

impl<'a, const N: usize> Cursor<'a, N> {
    /// Returns a cursor at the first of the bits of some bytes.
    pub(crate) fn at_start(bytes: &'a [u8], len: usize) -> Cursor<'a, N>
        requires within { len ≤ 8 * length bytes.now }
        requires small { length bytes.now ≤ 64 }
        ensures { result ≡ packed_bits len bytes.now }
    {
        Cursor { bytes, len, at: 0 }
    }

    /// Returns the number of bits that are left.
    pub fn left(&self) -> usize
        ensures count { result ≡ length self.now }
        ensures bits { AreBits self.now }
    {
        self.len - self.at
    }

    /// Returns the number of the next n bits, the highest first. Returns `Short` if and only if fewer bits are left; the cursor
    /// then does not move. n is at most 64.
    pub fn take(&mut self, n: u32) -> Result<u64, Short>
        requires { n ≤ 64 }
        ensures short { IsErr result ↔ (length self.old < n) }
        ensures number { IfOk result (λ number. number ≡ number_of (take n self.old)) }
        ensures moved { OnOk result (self.new ≡ drop n self.old) }
        ensures stays { OnErr result (self.new ≡ self.old) }
    {
        if self.len - self.at < n as usize {
            return Err(Short);
        }
        let number = number_in(self.bytes, self.at, n);
        self.at += n as usize;
        Ok(number)
    }
}
