use gs_chars::Memory;
use gs_dlink::LinkFault;
use gs_ident::IdentFault;
use thiserror::Error;

/// Why an anchor is invalid.
#[derive(Debug, PartialEq, Drop, Error)]
pub enum AnchorWhy {
    /// It is not a link or, if it begins with a slash, not a link's request target.
    #[error("the anchor is no link")]
    Link(LinkFault),
    /// Its pairs have no identity.
    #[error("the elements of the anchor have no identity")]
    Ident(IdentFault),
    /// Its identity has attributes.
    #[error("the identity of the anchor has attributes")]
    Attributes,
}

/// Why a linkset is not a store. Contexts, the relations of a context and the targets of a relation are counted from 0.
#[derive(Debug, PartialEq, Drop, Error)]
pub enum StoreFault {
    /// It has more than 65,536 targets.
    #[error("more than 65,536 links")]
    TooMany,
    /// The anchor of the context at this index is invalid.
    #[error("the anchor of context {0} is invalid")]
    BadAnchor(usize, AnchorWhy),
    /// The context, the relation and the target whose `href` is not 1 to 2,048 bytes from 33 to 126.
    #[error("relation {1} of context {0}: the href of target {2} is not 1 to 2,048 bytes from 33 to 126")]
    BadHref(usize, usize, usize),
    /// Out of memory.
    #[error("out of memory")]
    Memory,
}

impl From<Memory> for StoreFault {
    ghost use Rattle.std.specs.Prelude.{◌≡◌};
    ghost use Rattle.gs_links.specs.declared.error.StoreFault.TheVariants.{Memory as WantOfMemory};

    ghost from_gives = { λ _ e. e ≡ WantOfMemory };

    fn from(_rejected: Memory) -> StoreFault {
        StoreFault::Memory
    }
}
