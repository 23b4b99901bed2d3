//! The grammar of options: items, the words of their values, and the texts and bits that options write.
//!
//! - `Item` is a literal, digits, a number, a text with escapes, or one of these in bits; `Opt` is a list of items.
//! - `write_text` and `write_bits` write values by an option, and `append_text` appends them; `holds` says whether an item
//!   holds a value, or why not.
//! - `read_option` says whether bits are written by an option, and gives its numbers.
//!
//! # Example
//!
//! The tag bits of an SGTIN-96: header, filter value, partition value, company prefix, item reference and serial number. The
//! gate runs this case, for which crates/vectors_grammars/src/grammars.rt makes the call; `\e` is the empty value of a literal.
//!
//! ```text
//! gs_grammar::write_bits bits:00110000 num:3:7 bits:101 numpad:24:7 numpad:20:6 num:38:274877906943 = \e 3 \e 0614141 812345 6789
//! 3074257BF7194E4000001A85
//! ```
//!
//! # Differences from the standards
//!
//! - GS1 EPC Tag Data Translation describes a form by a pattern and a grammar with functions. Here an option is a list of
//!   items, each with the words of its values, so that reading and writing are one relation.
#![tactic(auto)]

mod bit_words;
mod bit_writer;
mod error;
mod item;
mod laws;
mod number_words;
mod numerals;
mod opt;
mod own_words;
mod tally;
mod text_writer;
mod value_test;
mod word_tests;
mod words;

pub use bit_words::unpack;
pub use bit_writer::write_bits;
pub use error::{OptFault, Why, WriteFault};
pub use item::Item;
pub use laws::{
    each_level_is_judged, each_text_is_counted, no_word_is_empty, one_derivation_is_alone,
    unambiguous_levels_read_alone, what_is_written_is_derived, what_is_written_is_read,
    word_fixes_its_value, word_writes_its_value, words_without_values,
};
pub use number_words::{is_number_word, number_value};
pub use numerals::digits_behind;
pub use opt::{MOST_SYMBOLS, Opt};
pub use own_words::is_own_word;
pub use tally::read_option;
pub use text_writer::{append_text, write_text};
pub use value_test::holds;
pub use word_tests::is_filling;
pub use words::{read_word, value_of};
