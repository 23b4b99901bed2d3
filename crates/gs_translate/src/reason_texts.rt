ghost use Rattle.std.specs.Prelude.{◌≡◌, ◌≢◌, ◌++◌, IfOk, OnErr, OnOk};
ghost use Rattle.gs_chars.specs.Answers.{BeginsWith};
ghost use Rattle.gs_translate.specs.declared.reason.Reason.TheVariants.{Memory as OutOfMemory};
ghost use Rattle.gs_translate.specs.Reasons.{element_text, epc_text, hex_text, ident_text, reason_text, value_text};

use crate::hold_text::{append_hold, append_missing};
use crate::reason::Reason;
use crate::words::{append_numbered, append_numbered_twice, append_word};
use gs_ai::{ElementFault, ElementWhy, ValueFault};
use gs_bits::HexFault;
use gs_chars::{Memory, Text};
use gs_epc::EpcFault;
use gs_ident::IdentFault;
use std::alloc::Global;

/// Returns the printed text of a reason, without the `no ` before it. Fails only with `Memory`, as `append_reason` does.
pub fn reason_text(alloc: Global, reason: &Reason) -> Result<Text, Memory>
    ensures text { IfOk result (λ text. text ≡ reason_text reason.now) }
    ensures known { OnOk result (reason.now ≢ OutOfMemory) }
{
    let mut text = Vec::new(alloc);
    append_reason(alloc, &mut text, reason)?;
    Ok(Text::from_vec(text))
}

/// Appends the printed reason why a text is rejected. Fails only with `Memory`, if memory runs out or as the reason itself, which
/// is not printed; `out` then begins with its old contents.
pub fn append_reason(alloc: Global, out: &mut Vec<u8>, reason: &Reason) -> Result<(), Memory>
    ensures written { OnOk result (out.new.items ≡ out.old.items ++ reason_text reason.now) }
    ensures known { OnOk result (reason.now ≢ OutOfMemory) }
    ensures begun { OnErr result (BeginsWith out.new.items out.old.items) }
{
    match reason {
        Reason::Long => append_word(out, b"long"),
        Reason::Epc(error) => append_epc(alloc, out, *error),
        Reason::Element(error) => append_element_fault(alloc, out, *error),
        Reason::NotHttp => append_word(out, b"http"),
        Reason::NoKeyPath => append_word(out, b"path"),
        Reason::Ident(error) => append_ident(out, error),
        Reason::NoKind => append_word(out, b"kind"),
        Reason::Extra(code) => append_code(out, b"extra ", code),
        Reason::Missing(name) => append_missing(out, *name),
        Reason::NoOption => append_word(out, b"option"),
        Reason::CannotHold(field, why) => append_hold(out, *field, *why),
        Reason::NoClass => append_word(out, b"class"),
        Reason::MissingElement => append_word(out, b"missing element"),
        Reason::NoWord => append_word(out, b"word"),
        Reason::Extended => append_word(out, b"extended"),
        Reason::Toggle => append_word(out, b"toggle"),
        Reason::Words { said, bits } => {
            append_numbered_twice(alloc, out, b"words", *said as usize, *bits as usize)
        }
        Reason::Line => append_word(out, b"line"),
        Reason::TooLong => append_word(out, b"too-long"),
        Reason::Memory => Err(Memory),
    }
}

/// Appends why a text says no EPC.
fn append_epc(alloc: Global, out: &mut Vec<u8>, error: EpcFault) -> Result<(), Memory>
    ensures written { OnOk result (out.new.items ≡ out.old.items ++ epc_text error) }
    ensures begun { OnErr result (BeginsWith out.new.items out.old.items) }
{
    match error {
        EpcFault::Hex(error) => append_hex(alloc, out, error),
        EpcFault::NoReading => append_word(out, b"reading"),
        EpcFault::Memory => append_word(out, b"memory"),
    }
}

/// Appends why a text is not a hexadecimal text.
fn append_hex(alloc: Global, out: &mut Vec<u8>, error: HexFault) -> Result<(), Memory>
    ensures written { OnOk result (out.new.items ≡ out.old.items ++ hex_text error) }
    ensures begun { OnErr result (BeginsWith out.new.items out.old.items) }
{
    match error {
        HexFault::OddDigits => append_word(out, b"odd"),
        HexFault::Full => append_word(out, b"full"),
        HexFault::BadDigit(place) => append_numbered(alloc, out, b"digit", place),
    }
}

/// Appends the error of an element, and its place.
fn append_element_fault(alloc: Global, out: &mut Vec<u8>, error: ElementFault) -> Result<(), Memory>
    ensures written { OnOk result (out.new.items ≡ out.old.items ++ element_text error) }
    ensures begun { OnErr result (BeginsWith out.new.items out.old.items) }
{
    match error.why {
        ElementWhy::Value(why) => append_value(alloc, out, error.at, why),
        ElementWhy::Escape => append_numbered(alloc, out, b"escape", error.at),
        ElementWhy::Bracket => append_numbered(alloc, out, b"bracket", error.at),
    }
}

/// Appends why a value is invalid for its code, and the place of the code.
fn append_value(
    alloc: Global,
    out: &mut Vec<u8>,
    at: usize,
    error: ValueFault,
) -> Result<(), Memory>
    ensures written { OnOk result (out.new.items ≡ out.old.items ++ value_text at error) }
    ensures begun { OnErr result (BeginsWith out.new.items out.old.items) }
{
    match error {
        ValueFault::Unknown => append_numbered(alloc, out, b"unknown", at),
        ValueFault::Length => append_numbered(alloc, out, b"length", at),
        ValueFault::Char(place) => append_numbered_twice(alloc, out, b"char", at, place),
        ValueFault::Check => append_numbered(alloc, out, b"check", at),
        ValueFault::Date => append_numbered(alloc, out, b"date", at),
    }
}

/// Appends the printed reason why elements have no identity. Fails as `append_reason` does.
pub fn append_ident(out: &mut Vec<u8>, error: &IdentFault) -> Result<(), Memory>
    ensures written { OnOk result (out.new.items ≡ out.old.items ++ ident_text error.now) }
    ensures begun { OnErr result (BeginsWith out.new.items out.old.items) }
{
    match error {
        IdentFault::Repeat(code) => append_code(out, b"repeat ", code),
        IdentFault::NoKey => append_word(out, b"key"),
        IdentFault::TwoKeys(code) => append_code(out, b"keys ", code),
        IdentFault::Memory => append_word(out, b"memory"),
    }
}

/// Appends a word and the code of an application identifier.
fn append_code(out: &mut Vec<u8>, word: &[u8], code: &Text) -> Result<(), Memory>
    ensures written { OnOk result (out.new.items ≡ out.old.items ++ (word.now ++ code.now)) }
    ensures begun { OnErr result (BeginsWith out.new.items out.old.items) }
{
    append_word(out, word)?;
    append_word(out, code.as_bytes())
}
