ghost use Rattle.std.specs.Prelude.{◌≡◌};

use gs_chars::Memory;
use std::alloc::{AllocError, AllocFailed};
use thiserror::Error;

/// Why a text is not a linkset. Links are counted from 0, in the order of the text.
#[derive(Clone, Copy, Debug, PartialEq, Error)]
pub enum LinkTextFault {
    /// The bytes are not a document of the grammar.
    #[error("not a linkset as text")]
    Syntax,
    /// The link at this index has no parameter `anchor`.
    #[error("link {0} has no anchor")]
    Anchor(usize),
    /// The link at this index has no relation type, or one that is `anchor`.
    #[error("link {0} has no relation type, or the relation type anchor")]
    Rel(usize),
    /// Out of memory.
    #[error("out of memory")]
    Memory,
}

impl From<Memory> for LinkTextFault {
    ghost use Rattle.gs_linktext_grammar.specs.declared.error.LinkTextFault.TheVariants.{Memory as memory};

    ghost from_gives = { λ _ e. e ≡ memory };

    fn from(_error: Memory) -> LinkTextFault {
        LinkTextFault::Memory
    }
}

impl From<AllocError> for LinkTextFault {
    ghost use Rattle.gs_linktext_grammar.specs.declared.error.LinkTextFault.TheVariants.{Memory as memory};

    ghost from_gives = { λ _ e. e ≡ memory };

    fn from(_error: AllocError) -> LinkTextFault {
        LinkTextFault::Memory
    }
}

impl<T: Drop> From<AllocFailed<T>> for LinkTextFault {
    ghost use Rattle.gs_linktext_grammar.specs.declared.error.LinkTextFault.TheVariants.{Memory as memory};

    ghost from_gives = { λ _ e. e ≡ memory };

    fn from(_error: AllocFailed<T>) -> LinkTextFault {
        LinkTextFault::Memory
    }
}
