use thiserror::Error;

/// There is no room for the bits.
#[derive(Clone, Copy, Debug)]
pub struct Full;

/// The error of a read of more bits than are left.
#[derive(Clone, Copy, Debug)]
pub struct Short;

/// Why a text is not a hexadecimal text of the bits of a buffer.
#[derive(Clone, Copy, Debug, PartialEq, Error)]
pub enum HexFault {
    /// The text has an odd number of bytes.
    #[error("an odd number of hexadecimal digits")]
    OddDigits,
    /// The text has more digits than the buffer holds, two to a byte.
    #[error("more hexadecimal digits than the buffer holds")]
    Full,
    /// The byte at this place, from 0, is the first that is not a digit.
    #[error("no hexadecimal digit at byte {0}")]
    BadDigit(usize),
}
