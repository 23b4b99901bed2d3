ghost use Rattle.std.specs.Prelude.{◌≡◌};
ghost use Rattle.tdl_answers.specs.Reasons.{class_reason, class_write_reason, dump_line_reason, dump_reason, dump_write_reason};

use gs_class::{ClassFault, ClassWriteFault};
use gs_epc::EpcFault;
use gs_membank::{DumpFault, DumpLineFault, DumpWriteFault};
use gs_tables::Field;
use gs_translate::{FieldName, Reason};

/// Returns the reason why a text is not a class URI.
pub(crate) fn class_reason(error: ClassFault) -> Reason
    ensures { result ≡ class_reason error }
{
    match error {
        ClassFault::NoReading => Reason::Epc(EpcFault::NoReading),
        ClassFault::Memory => Reason::Memory,
    }
}

/// Returns the reason why an identity is not written as a class URI.
pub(crate) fn class_write_reason(error: ClassWriteFault) -> Reason
    ensures { result ≡ class_write_reason error }
{
    match error {
        ClassWriteFault::NoClass => Reason::NoClass,
        ClassWriteFault::MissingElement => Reason::MissingElement,
        ClassWriteFault::Extra(code) => Reason::Extra(code),
        ClassWriteFault::MissingGcp => Reason::Missing(FieldName::Gcp),
        ClassWriteFault::NoOption => Reason::NoOption,
        ClassWriteFault::CannotHold(why) => Reason::CannotHold(Field::Serial, why),
        ClassWriteFault::Memory => Reason::Memory,
    }
}

/// Returns the reason why a text is not a dump.
pub(crate) fn dump_reason(error: DumpFault) -> Reason
    ensures { result ≡ dump_reason error }
{
    match error {
        DumpFault::Hex(error) => Reason::Epc(EpcFault::Hex(error)),
        DumpFault::NoWord => Reason::NoWord,
        DumpFault::Extended => Reason::Extended,
        DumpFault::Toggle => Reason::Toggle,
        DumpFault::Words { said, bits } => Reason::Words { said, bits },
        DumpFault::NoReading => Reason::Epc(EpcFault::NoReading),
        DumpFault::Memory => Reason::Memory,
    }
}

/// Returns the reason why a dump is not written or shown.
pub(crate) fn dump_write_reason(error: DumpWriteFault) -> Reason
    ensures { result ≡ dump_write_reason error }
{
    match error {
        DumpWriteFault::NoOption => Reason::NoOption,
        DumpWriteFault::CannotHold(field, why) => Reason::CannotHold(field, why),
        DumpWriteFault::TooLong => Reason::TooLong,
        DumpWriteFault::Memory => Reason::Memory,
    }
}

/// Returns the reason why a line does not show a dump.
pub(crate) fn dump_line_reason(error: DumpLineFault) -> Reason
    ensures { result ≡ dump_line_reason error }
{
    match error {
        DumpLineFault::Line => Reason::Line,
        DumpLineFault::NoReading => Reason::Epc(EpcFault::NoReading),
        DumpLineFault::Memory => Reason::Memory,
    }
}
