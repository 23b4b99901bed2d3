ghost use Rattle.std.specs.Prelude.{◌≡◌};

use gs_ai::{ElementFault, ElementWhy};
use gs_chars::Memory;
use thiserror::Error;

/// Why a text gives no pairs.
#[derive(Clone, Copy, Debug, PartialEq, Error)]
pub enum RawFault {
    /// The text is not an element string: where, and why.
    #[error("{0}")]
    Element(ElementFault),
    /// Out of memory.
    #[error("out of memory")]
    Memory,
}

impl From<Memory> for RawFault {
    ghost use Rattle.gs_element.specs.declared.errors.RawFault.TheVariants.{Memory as memory};

    ghost from_gives = { λ _ e. e ≡ memory };

    fn from(_rejected: Memory) -> RawFault {
        RawFault::Memory
    }
}

/// Returns the rejection for an error at a place.
pub fn error_at(at: usize, why: ElementWhy) -> RawFault
    ensures { result ≡ RawFault.Element (record { at = at; why = why }) }
{
    RawFault::Element(ElementFault { at, why })
}
