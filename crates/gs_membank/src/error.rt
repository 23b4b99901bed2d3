use gs_bits::HexFault;
use gs_chars::Memory;
use gs_epc::EpcWriteFault;
use gs_grammar::Why;
use gs_tables::Field;
use thiserror::Error;

/// Why a text is not a dump.
#[derive(Clone, Copy, Debug, PartialEq, Error)]
pub enum DumpFault {
    /// The text is not a hexadecimal text of at most 128 digits.
    #[error("{0}")]
    Hex(HexFault),
    /// There are fewer than the 16 bits of a protocol control word.
    #[error("shorter than the control word")]
    NoWord,
    /// The bit of the word that says that an extended word follows is 1.
    #[error("the extended bit is set")]
    Extended,
    /// The bit of the word that says that the bank holds no EPC is 1.
    #[error("the toggle bit is set")]
    Toggle,
    /// The number of bits after the word is not that of its words of 16 bits.
    #[error("{said} words of 16 bits are announced, but {bits} bits follow")]
    Words {
        /// How many words it says, at most 31.
        said: u8,
        /// How many bits are after it, at most 496.
        bits: u16,
    },
    /// The bits after the word have no derivation in the level of bits.
    #[error("no option reads the bits after the control word")]
    NoReading,
    /// Out of memory.
    #[error("out of memory")]
    Memory,
}

/// Why a dump is not written.
#[derive(Clone, Copy, Debug, PartialEq, Error)]
pub enum DumpWriteFault {
    /// The level has no option of the EPC's kind and prefix length and of its encoding.
    #[error("no option of this scheme and company prefix length")]
    NoOption,
    /// No such option holds every field. The last one does not hold this field, for this reason.
    #[error("no option holds every field")]
    CannotHold(Field, Why),
    /// The encoding has more than the 31 words that a protocol control word can say.
    #[error("an encoding of more than 31 words")]
    TooLong,
    /// Out of memory.
    #[error("out of memory")]
    Memory,
}

impl From<Memory> for DumpWriteFault {
    ghost use Rattle.std.specs.Prelude.{◌≡◌};
    ghost use Rattle.gs_membank.specs.declared.error.DumpWriteFault.TheVariants.{Memory as OutOfMemory};

    ghost from_gives = { λ _ e. e ≡ OutOfMemory };

    fn from(_: Memory) -> DumpWriteFault {
        DumpWriteFault::Memory
    }
}

impl From<EpcWriteFault> for DumpWriteFault {
    ghost use Rattle.std.specs.Prelude.{◌≡◌};
    ghost use Rattle.gs_membank.specs.Answers.{of_writing};

    ghost from_gives = { λ given e. e ≡ of_writing given };

    fn from(given: EpcWriteFault) -> DumpWriteFault {
        match given {
            EpcWriteFault::NoOption => DumpWriteFault::NoOption,
            EpcWriteFault::CannotHold(field, why) => DumpWriteFault::CannotHold(field, why),
            EpcWriteFault::Memory => DumpWriteFault::Memory,
        }
    }
}

/// Why a line shows no dump.
#[derive(Clone, Copy, Debug, PartialEq, Error)]
pub enum DumpLineFault {
    /// The line does not begin with the user memory bit and the attribute bits.
    #[error("the line does not begin with the user memory bit and the attribute bits")]
    Line,
    /// The rest has no derivation in the level of tag URIs.
    #[error("no option reads the tag URI")]
    NoReading,
    /// Out of memory.
    #[error("out of memory")]
    Memory,
}
