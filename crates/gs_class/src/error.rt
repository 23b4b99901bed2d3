use gs_chars::{Memory, Text};
use gs_grammar::Why;
use gs_json::JsonFault;
use thiserror::Error;

/// Why a set of classes is rejected. The indexes count from 0.
#[derive(Debug, PartialEq, Drop, Error)]
pub enum ClassLoadFault {
    /// The document is not of the form of a document of classes.
    #[error("another form than that of a document of classes")]
    Json(JsonFault),
    /// The version is not 1.
    #[error("the version is not 1")]
    Version,
    /// There are more than 256 classes, or more than 24 items of one.
    #[error("more than 256 classes, or more than 24 items of one")]
    Limit,
    /// The item at the last index, of the class at the first, is bad. It is not an item of a text, breaks a bound, or belongs
    /// to another field.
    #[error("item {1} of class {0} is not an item of a text level, or has another field")]
    BadItem(usize, usize),
    /// The items of the class have more than 512 symbols together.
    #[error("the items of class {0} have more than 512 symbols")]
    Size(usize),
    /// The class breaks a rule.
    #[error("class {0} breaks a rule")]
    Mismatch(usize),
    /// The classes at the two indexes have one name and one length of the company prefix.
    #[error("class {1} repeats the name and company prefix length of class {0}")]
    Duplicate(usize, usize),
    /// The classes at the two indexes, which may be one class, are the first pair that shares a text. This is such a text.
    #[error("classes {i} and {j} both read a text")]
    Ambiguous {
        /// The index of the first of the two classes.
        i: usize,
        /// The index of the second.
        j: usize,
        /// The text that they share.
        text: Text,
    },
    /// Out of memory.
    #[error("out of memory")]
    Memory,
}

/// Why a text names no class.
#[derive(Clone, Copy, Debug, PartialEq, Error)]
pub enum ClassFault {
    /// The text has no derivation by a class of the set.
    #[error("no class reads the text")]
    NoReading,
    /// Out of memory.
    #[error("out of memory")]
    Memory,
}

/// Why an identity is not written as a class URI.
#[derive(Debug, PartialEq, Drop, Error)]
pub enum ClassWriteFault {
    /// No class has the key of the identity.
    #[error("no class has this key")]
    NoClass,
    /// No class that has the key has an element that is a pair of the identity.
    #[error("no element makes a class")]
    MissingElement,
    /// The identity has this pair in addition to the key and the element.
    #[error("a class has no place for a pair")]
    Extra(Text),
    /// No length of the company prefix is given, and the list has none.
    #[error("the company prefix length is unknown")]
    MissingGcp,
    /// No class of the name has a company prefix of this length.
    #[error("no class of this name has this company prefix length")]
    NoOption,
    /// The item of the lot does not hold it, for this reason.
    #[error("the class cannot hold the value of the element")]
    CannotHold(Why),
    /// Out of memory.
    #[error("out of memory")]
    Memory,
}

impl From<Memory> for ClassLoadFault {
    ghost use Rattle.std.specs.Prelude.{◌≡◌};
    ghost use Rattle.gs_class.specs.declared.error.ClassLoadFault.TheVariants.{Memory as WantOfMemory};

    ghost from_gives = { λ _ e. e ≡ WantOfMemory };

    fn from(_rejected: Memory) -> ClassLoadFault {
        ClassLoadFault::Memory
    }
}

impl From<JsonFault> for ClassLoadFault {
    ghost use Rattle.std.specs.Prelude.{◌≡◌};
    ghost use Rattle.gs_json.specs.Answers.{of_json};
    ghost use Rattle.gs_class.specs.declared.error.ClassLoadFault.TheVariants.{Json as OfJson, Memory as WantOfMemory};

    ghost from_gives = { λ error e. e ≡ of_json WantOfMemory OfJson error };

    fn from(error: JsonFault) -> ClassLoadFault {
        match error {
            JsonFault::Memory => ClassLoadFault::Memory,
            other => ClassLoadFault::Json(other),
        }
    }
}

impl From<Memory> for ClassFault {
    ghost use Rattle.std.specs.Prelude.{◌≡◌};
    ghost use Rattle.gs_class.specs.declared.error.ClassFault.TheVariants.{Memory as WantOfMemory};

    ghost from_gives = { λ _ e. e ≡ WantOfMemory };

    fn from(_rejected: Memory) -> ClassFault {
        ClassFault::Memory
    }
}

impl From<Memory> for ClassWriteFault {
    ghost use Rattle.std.specs.Prelude.{◌≡◌};
    ghost use Rattle.gs_class.specs.declared.error.ClassWriteFault.TheVariants.{Memory as WantOfMemory};

    ghost from_gives = { λ _ e. e ≡ WantOfMemory };

    fn from(_rejected: Memory) -> ClassWriteFault {
        ClassWriteFault::Memory
    }
}
