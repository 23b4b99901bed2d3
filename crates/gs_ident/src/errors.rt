ghost use Rattle.std.specs.Prelude.{◌≡◌};

use gs_chars::{Memory, Text};
use thiserror::Error;

/// Why a list of pairs has no identity.
#[derive(Debug, PartialEq, Drop, Error)]
pub enum IdentFault {
    /// The code occurs a second time with another value.
    #[error("an application identifier occurs twice with different values")]
    Repeat(Text),
    /// No pair has the code of a key.
    #[error("no element is a key")]
    NoKey,
    /// The code is that of a second key.
    #[error("two elements are keys")]
    TwoKeys(Text),
    /// Out of memory.
    #[error("out of memory")]
    Memory,
}

impl From<Memory> for IdentFault {
    ghost use Rattle.gs_ident.specs.declared.errors.IdentFault.TheVariants.{Memory as memory};

    ghost from_gives = { λ _ e. e ≡ memory };

    fn from(_rejected: Memory) -> IdentFault {
        IdentFault::Memory
    }
}
