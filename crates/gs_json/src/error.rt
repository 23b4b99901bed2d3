use gs_chars::{Memory, Text};
use thiserror::Error;

/// Why a document is not read as asked. The places are JSON Pointers (RFC 6901).
#[derive(Debug, PartialEq, Drop, Error)]
pub enum JsonFault {
    /// The bytes are invalid JSON.
    #[error("invalid JSON")]
    Syntax,
    /// The object has no member at this place.
    #[error("a member is missing")]
    Lacks(Text),
    /// The value at this place is of another kind.
    #[error("a value is of another kind")]
    Kind(Text),
    /// The object must not have the member at this place.
    #[error("the object must not have a member")]
    Unknown(Text),
    /// Out of memory.
    #[error("out of memory")]
    Memory,
}

impl From<Memory> for JsonFault {
    ghost use Rattle.std.specs.Prelude.{◌≡◌};
    ghost use Rattle.gs_json.specs.declared.error.JsonFault.TheVariants.{Memory as WantOfMemory};

    ghost from_gives = { λ _ e. e ≡ WantOfMemory };

    fn from(_rejected: Memory) -> JsonFault {
        JsonFault::Memory
    }
}
