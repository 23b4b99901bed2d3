use crate::document::LevelName;
use gs_ai::AiFault;
use gs_chars::{Memory, Text};
use gs_json::JsonFault;
use thiserror::Error;

/// A quantity that is limited.
#[derive(Clone, Copy, Debug, PartialEq)]
pub enum LimitName {
    /// Rows of application identifiers, at most `MOST_ROWS`.
    Ais,
    /// Kinds, at most `MOST_KINDS`.
    Kinds,
    /// Options of a level, at most `MOST_ROWS`.
    Options,
    /// Items of an option, at most `MOST_ITEMS`.
    Items,
    /// Symbols of an option, at most `MOST_SYMBOLS` of gs_grammar.
    Size,
}

/// Why tables are rejected. The indexes count from 0.
#[derive(Debug, PartialEq, Drop, Error)]
pub enum LoadFault {
    /// The document is not of the form of a table document.
    #[error("another form than that of a table document")]
    Json(JsonFault),
    /// The version is neither 1 nor 2.
    #[error("the version is neither 1 nor 2")]
    Version,
    /// There is more than the limit allows.
    #[error("more than a limit allows")]
    Limit(LimitName),
    /// A rule of the application identifiers is broken.
    #[error("a rule of application identifiers is broken")]
    Ai(AiFault),
    /// The kind at this index breaks a rule.
    #[error("kind {0} breaks a rule")]
    BadKind(usize),
    /// The item at the last index, of the option of the level, is not an item of the level or breaks a bound.
    #[error("an item of an option breaks a bound or is not of the level")]
    BadItem(LevelName, usize, usize),
    /// The option of the level does not fit its kind.
    #[error("an option breaks a rule of options")]
    Mismatch(LevelName, usize),
    /// The options of the level at the two indexes have the same kind, encoding and prefix length.
    #[error("two options have one kind, encoding and company prefix length")]
    Duplicate(LevelName, usize, usize),
    /// The options of the level at the two indexes, which may be one option, are the first pair that shares a list of symbols.
    /// No earlier level has such a pair. The text is one that they share, with bits as `0` and `1`.
    #[error("two options both read a text")]
    Ambiguous {
        /// The level.
        level: LevelName,
        /// The index of the first of the two options.
        i: usize,
        /// The index of the second.
        j: usize,
        /// The symbols that they share.
        text: Text,
    },
    /// Out of memory.
    #[error("out of memory")]
    Memory,
}

/// Why an item is not read.
#[derive(Clone, Copy, Debug, PartialEq, Error)]
pub enum ItemFault {
    /// It is not an item of the level.
    #[error("no item of the level")]
    Bad,
    /// Out of memory.
    #[error("out of memory")]
    Memory,
}

impl From<Memory> for LoadFault {
    ghost use Rattle.std.specs.Prelude.{◌≡◌};
    ghost use Rattle.gs_tables_document.specs.declared.error.LoadFault.TheVariants.{Memory as WantOfMemory};

    ghost from_gives = { λ _ e. e ≡ WantOfMemory };

    fn from(_rejected: Memory) -> LoadFault {
        LoadFault::Memory
    }
}

impl From<JsonFault> for LoadFault {
    ghost use Rattle.std.specs.Prelude.{◌≡◌};
    ghost use Rattle.gs_json.specs.Answers.{of_json};
    ghost use Rattle.gs_tables_document.specs.declared.error.LoadFault.TheVariants.{Json as OfJson, Memory as WantOfMemory};

    ghost from_gives = { λ error e. e ≡ of_json WantOfMemory OfJson error };

    fn from(error: JsonFault) -> LoadFault {
        match error {
            JsonFault::Memory => LoadFault::Memory,
            other => LoadFault::Json(other),
        }
    }
}

impl From<Memory> for ItemFault {
    ghost use Rattle.std.specs.Prelude.{◌≡◌};
    ghost use Rattle.gs_tables_document.specs.declared.error.ItemFault.TheVariants.{Memory as WantOfMemory};

    ghost from_gives = { λ _ e. e ≡ WantOfMemory };

    fn from(_rejected: Memory) -> ItemFault {
        ItemFault::Memory
    }
}
