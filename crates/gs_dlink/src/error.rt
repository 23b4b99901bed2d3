use gs_ai::ElementFault;
use gs_chars::Memory;
use thiserror::Error;

/// Why a text is not a link, or a target none of a link.
#[derive(Clone, Copy, Debug, PartialEq, Error)]
pub enum LinkFault {
    /// It does not begin with `http://` or `https://` and an authority.
    #[error("the text does not begin with http:// or https:// and an authority")]
    NotHttp,
    /// Its path ends in no key with its qualifiers.
    #[error("the path ends in no key with its qualifiers")]
    NoKeyPath,
    /// The error of a pair, at the place of its code in the whole text.
    #[error("{0}")]
    Element(ElementFault),
    /// Out of memory.
    #[error("out of memory")]
    Memory,
}

impl From<Memory> for LinkFault {
    ghost use Rattle.std.specs.Prelude.{◌≡◌};
    ghost use Rattle.gs_dlink.specs.declared.error.LinkFault.TheVariants.{Memory as WantOfMemory};

    ghost from_gives = { λ _ e. e ≡ WantOfMemory };

    fn from(_rejected: Memory) -> LinkFault {
        LinkFault::Memory
    }
}
