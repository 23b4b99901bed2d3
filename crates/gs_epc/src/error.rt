use gs_bits::HexFault;
use gs_chars::Memory;
use gs_grammar::Why;
use gs_tables::Field;
use thiserror::Error;

/// Why a text says no EPC.
#[derive(Clone, Copy, Debug, PartialEq, Error)]
pub enum EpcFault {
    /// The text is not a hexadecimal text of at most 128 digits.
    #[error("the text is not at most 128 hexadecimal digits of whole bytes")]
    Hex(HexFault),
    /// The level has no derivation of it.
    #[error("no option of the tables reads the text")]
    NoReading,
    /// Out of memory.
    #[error("out of memory")]
    Memory,
}

impl From<Memory> for EpcFault {
    ghost use Rattle.std.specs.Prelude.{◌≡◌};
    ghost use Rattle.gs_epc.specs.declared.error.EpcFault.TheVariants.{Memory as WantOfMemory};

    ghost from_gives = { λ _ e. e ≡ WantOfMemory };

    fn from(_rejected: Memory) -> EpcFault {
        EpcFault::Memory
    }
}

/// Why an identity is not taken apart.
#[derive(Clone, Copy, Debug, PartialEq, Error)]
pub enum FieldsFault {
    /// The kind has a serial, the identity has none, and no text means its absence.
    #[error("the identity lacks the serial that its kind has")]
    MissingSerial,
    /// Out of memory.
    #[error("out of memory")]
    Memory,
}

impl From<Memory> for FieldsFault {
    ghost use Rattle.std.specs.Prelude.{◌≡◌};
    ghost use Rattle.gs_epc.specs.declared.error.FieldsFault.TheVariants.{Memory as WantOfMemory};

    ghost from_gives = { λ _ e. e ≡ WantOfMemory };

    fn from(_rejected: Memory) -> FieldsFault {
        FieldsFault::Memory
    }
}

/// Why an EPC is not written.
#[derive(Clone, Copy, Debug, PartialEq, Error)]
pub enum EpcWriteFault {
    /// The level has no option of this kind, company prefix length and requested encoding.
    #[error("no option has the kind, the company prefix length and the encoding")]
    NoOption,
    /// No such option holds every field. The last one does not hold this field, for this reason.
    #[error("no option of the kind, the company prefix length and the encoding holds every field")]
    CannotHold(Field, Why),
    /// Out of memory.
    #[error("out of memory")]
    Memory,
}

impl From<Memory> for EpcWriteFault {
    ghost use Rattle.std.specs.Prelude.{◌≡◌};
    ghost use Rattle.gs_epc.specs.declared.error.EpcWriteFault.TheVariants.{Memory as WantOfMemory};

    ghost from_gives = { λ _ e. e ≡ WantOfMemory };

    fn from(_rejected: Memory) -> EpcWriteFault {
        EpcWriteFault::Memory
    }
}
