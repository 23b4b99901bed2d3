use gs_chars::Memory;
use thiserror::Error;

/// Why two stores have no merged document.
#[derive(Clone, Copy, Debug, PartialEq, Error)]
pub enum MergeFault {
    /// It would have more than 65,536 targets.
    #[error("the merged document has more than 65,536 targets")]
    TooMany,
    /// Out of memory.
    #[error("out of memory")]
    Memory,
}

impl From<Memory> for MergeFault {
    ghost use Rattle.std.specs.Prelude.{◌≡◌};
    ghost use Rattle.gs_merge.specs.declared.error.MergeFault.TheVariants.{Memory as OutOfMemory};

    ghost from_gives = { λ _ e. e ≡ OutOfMemory };

    fn from(_: Memory) -> MergeFault {
        MergeFault::Memory
    }
}
