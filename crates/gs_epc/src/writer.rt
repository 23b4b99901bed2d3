ghost use Rattle.std.specs.Prelude.{◌≡◌, ◌%◌, OnErr, length, false, true};
ghost use Rattle.gs_chars.specs.Answers.{BeginsWith};
ghost use Rattle.gs_tables_document.specs.Documents.{is_bits};
ghost use Rattle.gs_grammar.specs.Items.{size_of_all};
ghost use Rattle.gs_epc.specs.Candidates.{Candidate, HasFilter, HasFilterOn};
ghost use Rattle.gs_epc.specs.Tries.{AppendsDigits, AppendsOption, IsTried};
ghost use Rattle.gs_epc.specs.Writes.{AppendsAs, WritesAs, field_at};

use crate::candidates::{is_asked, left_out, values_for};
use crate::epc::{Epc, EpcRef, lent};
use crate::error::EpcWriteFault;
use gs_bits::BitBuf;
use gs_chars::{CowText, Memory, Text};
use gs_grammar::{Opt, Why, WriteFault, append_text, write_bits};
use gs_tables::{Field, LevelName, TableSet};
use std::alloc::Global;

/// Appends the hexadecimal digits of the bits of an option.
fn append_digits(option: &Opt, values: &[CowText<'_>], out: &mut Vec<u8>) -> Result<(), WriteFault>
    requires bit_level { option.now.bit_level ≡ true }
    requires one_each { length values.now ≡ length option.now.items }
    requires whole_bytes { size_of_all option.now.items % 8 ≡ 0 }
    ensures written { AppendsDigits option.now.items values.now out.old.items out.new.items result }
    ensures begun { OnErr result (BeginsWith out.new.items out.old.items) }
{
    // only for the proof: the items are within their bounds
    let _ = option.items();
    let mut bits = BitBuf::<64>::new();
    if let Err(error) = write_bits(option, values, &mut bits) {
        return Err(error);
    }
    match bits.append_hex(out) {
        Ok(()) => Ok(()),
        Err(_) => Err(WriteFault::Memory),
    }
}

/// Appends the text of an option of a level of texts.
fn append_uri(
    level: LevelName,
    option: &Opt,
    values: &[CowText<'_>],
    out: &mut Vec<u8>,
) -> Result<(), WriteFault>
    requires text_level { option.now.bit_level ≡ false }
    requires one_each { length values.now ≡ length option.now.items }
    ensures written { is_bits level ≡ false
        → AppendsOption level option.now.items values.now out.old.items out.new.items result }
    ensures begun { OnErr result (BeginsWith out.new.items out.old.items) }
{
    append_text(option, values, out)
}

/// Appends the text of an option of a level: of bits their hexadecimal digits.
fn append_option(
    level: LevelName,
    option: &Opt,
    values: &[CowText<'_>],
    out: &mut Vec<u8>,
) -> Result<(), WriteFault>
    requires of_level { option.now.bit_level ≡ is_bits level }
    requires one_each { length values.now ≡ length option.now.items }
    requires whole_bytes { level ≡ LevelName.Binary → size_of_all option.now.items % 8 ≡ 0 }
    ensures written { AppendsOption level option.now.items values.now out.old.items out.new.items result }
    ensures begun { OnErr result (BeginsWith out.new.items out.old.items) }
{
    match level {
        LevelName::Binary => append_digits(option, values, out),
        LevelName::Tag | LevelName::Pure => append_uri(level, option, values, out),
    }
}

/// Returns the field that an item stands for.
fn field_at(fields: &[Option<Field>], item: usize) -> Field
    ensures { result ≡ field_at fields.now item }
{
    match fields.get(item) {
        Some(Some(field)) => *field,
        // an item without a field counts as the reference
        _ => Field::Rest,
    }
}

/// Why a candidate does not write an EPC.
enum Rejection {
    /// It does not hold this field, for this reason.
    CannotHold(Field, Why),
    /// Out of memory.
    Memory,
}

impl From<Memory> for Rejection {
    ghost use Rattle.std.specs.Prelude.{◌≡◌};
    ghost use Rattle.gs_epc.specs.declared.writer.Rejection.TheVariants.{Memory as WantOfMemory};

    ghost from_gives = { λ _ e. e ≡ WantOfMemory };

    fn from(_rejected: Memory) -> Rejection {
        Rejection::Memory
    }
}

/// Appends the text of an EPC by a candidate, or returns the field that it does not hold.
fn try_candidate(
    alloc: Global,
    set: &TableSet,
    level: LevelName,
    epc: &EpcRef<'_>,
    i: usize,
    out: &mut Vec<u8>,
) -> Result<(), Rejection>
    requires filter { HasFilterOn level epc.now.filter }
    requires candidate { Candidate set.now level epc.now i }
    ensures tried { (candidate : Candidate set.now level epc.now i)
        → IsTried set.now level epc.now candidate out.old.items out.new.items result }
    ensures begun { OnErr result (BeginsWith out.new.items out.old.items) }
{
    let fields = set.info(level)[i].fields.items();
    let values = values_for(alloc, level, epc, fields)?;
    let start = out.len();
    match append_option(level, &set.level(level).options()[i], &values, out) {
        Ok(()) => match left_out(fields, epc) {
            Some(field) => {
                out.truncate(start);
                Err(Rejection::CannotHold(field, Why::Length))
            }
            None => Ok(()),
        },
        Err(WriteFault::CannotHold { item, why }) => {
            Err(Rejection::CannotHold(field_at(fields, item), why))
        }
        Err(WriteFault::Memory) => Err(Rejection::Memory),
    }
}

/// Appends the text of an EPC by the options of a level, with the errors of `write_hex`, `write_tag` or `write_pure`. For bits
/// it appends the hexadecimal digits of `write_hex`, otherwise the URI of one of the others. After a rejection nothing is
/// appended; after out of memory `out` begins with its old contents. The EPC has a filter value of at most 7, except for the
/// level of pure identities.
pub fn append_lent(
    alloc: Global,
    set: &TableSet,
    level: LevelName,
    epc: &EpcRef<'_>,
    out: &mut Vec<u8>,
) -> Result<(), EpcWriteFault>
    requires { HasFilterOn level epc.now.filter }
    ensures written { AppendsAs set.now level epc.now out.old.items out.new.items result }
    ensures begun { OnErr result (BeginsWith out.new.items out.old.items) }
{
    let info = set.info(level);
    let numbers = set.candidates(level, epc.kind, epc.gcp);
    let mut rejection = EpcWriteFault::NoOption;
    for number in numbers {
        let i = *number;
        if !is_asked(level, epc.encoding, info[i].encoding.as_bytes()) {
            continue;
        }
        match try_candidate(alloc, set, level, epc, i, out) {
            Ok(()) => return Ok(()),
            Err(Rejection::CannotHold(field, why)) => {
                rejection = EpcWriteFault::CannotHold(field, why);
            }
            Err(Rejection::Memory) => return Err(EpcWriteFault::Memory),
        }
    }
    Err(rejection)
}

/// Writes an EPC by the options of a level, as `append_lent` does.
pub fn write_level(
    alloc: Global,
    set: &TableSet,
    level: LevelName,
    epc: &Epc,
) -> Result<Text, EpcWriteFault>
    requires { HasFilterOn level epc.now.filter }
    ensures { WritesAs set.now level epc.now result }
{
    let mut text = Vec::new(alloc);
    let fields = lent(epc);
    match append_lent(alloc, set, level, &fields, &mut text) {
        Ok(()) => Ok(Text::from_vec(text)),
        Err(error) => Err(error),
    }
}

/// Returns the bits of an EPC in upper-case hexadecimal digits (TDS 2.0, section 14). The candidates are the options of bits of
/// the EPC's kind and company prefix length, in their order. If its encoding is not empty, they also have that encoding. The
/// first that holds every field writes. Returns `NoOption` if and only if there is no candidate. Returns `CannotHold` if and
/// only if there are some and none holds every field. It names the first field, in the order of the items, that the last
/// candidate does not hold. A reference or serial without an item follows all items and has to be empty. The EPC has a filter
/// value of at most 7.
pub fn write_hex(alloc: Global, set: &TableSet, epc: &Epc) -> Result<Text, EpcWriteFault>
    requires { HasFilter epc.now.filter }
    ensures { WritesAs set.now LevelName.Binary epc.now result }
{
    write_level(alloc, set, LevelName::Binary, epc)
}

/// Returns the EPC tag URI of an EPC (TDS 2.0, section 12), by the options of tag URIs as `write_hex` by those of bits. The EPC
/// has a filter value, which is at most 7.
pub fn write_tag(alloc: Global, set: &TableSet, epc: &Epc) -> Result<Text, EpcWriteFault>
    requires { HasFilter epc.now.filter }
    ensures { WritesAs set.now LevelName.Tag epc.now result }
{
    write_level(alloc, set, LevelName::Tag, epc)
}

/// Returns the EPC pure identity URI of an EPC (TDS 2.0, section 6). It uses the options of pure identity URIs as `write_hex`
/// uses those of bits. The encoding and the filter value of the EPC are not used.
pub fn write_pure(alloc: Global, set: &TableSet, epc: &Epc) -> Result<Text, EpcWriteFault>
    ensures { WritesAs set.now LevelName.Pure epc.now result }
{
    write_level(alloc, set, LevelName::Pure, epc)
}
