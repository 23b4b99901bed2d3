use gs_chars::Memory;
use gs_json::JsonFault;
use thiserror::Error;

/// Why a list of company prefix lengths is rejected. Entries are counted from 0.
#[derive(Debug, PartialEq, Drop, Error)]
pub enum PrefixFault {
    /// The document is not of the form of such a list.
    #[error("another form than that of a list of company prefix lengths")]
    Json(JsonFault),
    /// The prefix of the entry at this index is not 1 to 12 digits.
    #[error("the prefix of entry {0} is not 1 to 12 digits")]
    BadPrefix(usize),
    /// The length of the entry at this index is above 12.
    #[error("the length of entry {0} is above 12")]
    BadLength(usize),
    /// An earlier entry has the prefix of the entry at this index.
    #[error("an earlier entry has the prefix of entry {0}")]
    Twice(usize),
    /// There are more than 65,536 entries.
    #[error("more than 65,536 entries")]
    Limit,
    /// Out of memory.
    #[error("out of memory")]
    Memory,
}

impl From<Memory> for PrefixFault {
    ghost use Rattle.std.specs.Prelude.{◌≡◌};
    ghost use Rattle.gs_prefix.specs.declared.error.PrefixFault.TheVariants.{Memory as WantOfMemory};

    ghost from_gives = { λ _ e. e ≡ WantOfMemory };

    fn from(_rejected: Memory) -> PrefixFault {
        PrefixFault::Memory
    }
}

impl From<JsonFault> for PrefixFault {
    ghost use Rattle.std.specs.Prelude.{◌≡◌};
    ghost use Rattle.gs_json.specs.Answers.{of_json};
    ghost use Rattle.gs_prefix.specs.declared.error.PrefixFault.TheVariants.{Json as OfJson, Memory as WantOfMemory};

    ghost from_gives = { λ error e. e ≡ of_json WantOfMemory OfJson error };

    fn from(error: JsonFault) -> PrefixFault {
        match error {
            JsonFault::Memory => PrefixFault::Memory,
            other => PrefixFault::Json(other),
        }
    }
}
