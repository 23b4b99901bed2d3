ghost use Rattle.std.specs.Prelude.{◌≡◌};
ghost use Rattle.gs_chars.specs.Answers.{first_or};
ghost use Rattle.gs_prefix.specs.Lengths.{is_prefix};
ghost use Rattle.gs_prefix.specs.Rules.{entry_rejections};

use crate::error::PrefixFault;
use crate::prefix_list::Index;
use gs_chars::{Text, are_digits};

/// An entry of a list of company prefix lengths.
#[derive(Drop)]
pub struct PrefixEntry {
    /// The first digits of keys.
    pub prefix: Text,
    /// The number of digits of the company prefix of such a key, and 0 if the digits belong to no company prefix.
    pub length: u64,
}

/// The most digits that a company prefix has.
const GREATEST_LENGTH: u64 = 12;

/// Returns whether a text is 1 to 12 digits.
fn is_prefix(text: &[u8]) -> bool
    ensures { result ≡ is_prefix text.now }
{
    are_digits(text) && 1 <= text.len() && text.len() <= 12
}

/// Finds the first rule that an entry breaks, given the earlier entries.
pub(crate) fn check_entry(earlier: &Index, i: usize, entry: &PrefixEntry) -> Result<(), PrefixFault>
    ensures { result ≡ first_or (entry_rejections earlier.now i entry.now) tt }
{
    let prefix = entry.prefix.as_bytes();
    if !is_prefix(prefix) {
        Err(PrefixFault::BadPrefix(i))
    } else if entry.length > GREATEST_LENGTH {
        Err(PrefixFault::BadLength(i))
    } else if earlier.length_of(prefix).is_some() {
        Err(PrefixFault::Twice(i))
    } else {
        Ok(())
    }
}
