//! Lists of bits in a fixed array, read by a cursor, and their hexadecimal texts.
//!
//! - `BitBuf` takes bits at its end, and is made of and written as hexadecimal digits, the highest bit first.
//! - `Cursor` takes numbers of that many bits from the start.
//! - `are_bit_digits` says whether a text writes bits, as the digits 0 and 1.
//!
//! # Example
//!
//! The header, filter value, partition value and further fields of an SGTIN-96 are taken, and then one bit more than it has.
//! The gate runs this case, for which crates/vectors_grammars/src/bits.rt makes the calls.
//!
//! ```text
//! gs_bits::take 12 3074257BF7194E4000001A85 8 3 3 24 20 38 1 0
//! 48 3 5 614141 812345 6789 Short 0 left 0
//! ```
//!
//! # Differences from the standard
//!
//! - GS1 EPC Tag Data Standard gives a tag's bits as hexadecimal digits. Here their number is even; they are read
//!   case-insensitively and written in upper case.
#![tactic(auto)]

mod bit_buf;
mod cursor;
mod digits;
mod errors;
mod hex_text;
mod laws;
mod packed_bits;
mod spread;

pub use bit_buf::BitBuf;
pub use cursor::Cursor;
pub use digits::are_bit_digits;
pub use errors::{Full, HexFault, Short};
pub use laws::{bits_of_their_number, number_of_its_bits};
