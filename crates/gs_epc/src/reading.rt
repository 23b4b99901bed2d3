ghost use Rattle.std.specs.Prelude.{◌≡◌, ◌∷◌, ◌++◌, All, IfOk, IfSome, List, OnErr, ℕ, length};
ghost use Rattle.gs_chars.specs.Answers.{BeginsWith};
ghost use Rattle.gs_grammar.specs.Limits.{most_symbols};
ghost use Rattle.gs_grammar_level.specs.Readings.{Reads};
ghost use Rattle.gs_ident.specs.Elements.{Elements, pairs_of};
ghost use Rattle.gs_ident.specs.Identities.{IsInOrder, IsMadeWith};
ghost use Rattle.gs_ident.specs.Links.{spelled};
ghost use Rattle.gs_ident.specs.QualifiedKeys.{pairs_in};
ghost use Rattle.gs_tables_document.specs.declared.document.Field.{Field};
ghost use Rattle.gs_epc.specs.Epcs.{IsOfSet, epc_of, options_of, value_at};
ghost use Rattle.gs_epc.specs.Filters.{IsFilter};
ghost use Rattle.gs_epc.specs.Layout.{IsLaidOut};
ghost use Rattle.gs_epc.specs.Readings.{ReadsAs, ReadsHex};
ghost use Rattle.gs_epc.specs.ReadingsSupport.{AnswersReading};
ghost use Rattle.gs_epc.specs.Writes.{ReadsText};

use crate::epc::{Epc, EpcRef};
use crate::error::EpcFault;
use crate::fields::{epc_of, key_texts};
use crate::key_parts::copied;
use crate::layout::{KeyAndSerial, key_and_serial, kind_at, lay_out};
use crate::link_writer::append_laid_out;
use gs_bits::BitBuf;
use gs_chars::{CowText, List, Memory};
use gs_grammar::MOST_SYMBOLS;
use gs_grammar_level::{Reading, read_bits_within, read_text};
use gs_ident::Identity;
use gs_tables::{LevelName, OptInfo, TableSet};
use std::alloc::Global;
use std::marker::Model;

/// The reading of a text as an EPC: the facts of its option, and the value of each item. Contracts see the EPC.
#[derive(Drop)]
pub struct EpcReading<'a> {
    info: &'a OptInfo,
    values: List<CowText<'a>>,
}

impl<'a> Model for EpcReading<'a> {
    ghost use Rattle.std.specs.Prelude.{IfSome};
    ghost use Rattle.gs_tables_document.specs.declared.document.Field.TheVariants.{Filter};
    ghost use Rattle.gs_epc.specs.declared.epc.Epc.{Epc};
    ghost use Rattle.gs_epc.specs.Epcs.{epc_of, value_at};
    ghost use Rattle.gs_epc.specs.Filters.{IsFilter};

    ghost Value = { Epc };

    ghost view = { λ t. epc_of t.info.now t.values };

    ghost invariant = { λ t. IfSome (value_at Filter t.info.now.fields t.values) IsFilter };
}

impl EpcReading<'_> {
    /// Returns the EPC, each text lent.
    pub fn epc(&self) -> EpcRef<'_>
        ensures { result ≡ self.now }
    {
        epc_of(self.info, self.values.items())
    }

    /// Returns the identity that the EPC names, as `identity_of` does, without copies of the fields. The EPC is one of the set.
    pub fn identity<'i>(&'i self, alloc: Global, set: &'i TableSet) -> Result<Identity<'i>, Memory>
        requires { IsOfSet set.now self.now }
        ensures laid { IfOk result (IsLaidOut set.now self.now) }
        ensures with_table { IfOk result (IsMadeWith set.now.ais) }
    {
        let kind = kind_at(set, self.info.kind);
        lay_out(alloc, set, kind, &self.epc())
    }

    /// Returns the pairs of the identity that the EPC names, for which no list is made. Fails only with `Memory`. The EPC is one
    /// of the set.
    pub fn pairs<'i>(&'i self, alloc: Global, set: &'i TableSet) -> Result<KeyAndSerial<'i>, Memory>
        requires { IsOfSet set.now self.now }
        ensures pairs { (identity : Elements) → IsLaidOut set.now self.now identity
            → IfOk result (λ pairs. pairs_of identity ≡ pairs.key ∷ pairs_in pairs.serial) }
        ensures in_order { IfOk result (λ pairs.
            All (IsInOrder set.now.ais) (pairs.key ∷ pairs_in pairs.serial)) }
    {
        // only for the proof: the rows satisfy the rules of application identifiers
        let _ = set.ais().rows();
        let kind = kind_at(set, self.info.kind);
        let lent = self.epc();
        key_and_serial(alloc, set, kind, &lent)
    }

    /// Appends the link, under the stem, of the identity that the EPC names, as `append_link` of gs_ident does. The identity is
    /// not made for it. Fails only with `Memory`; `out` then begins with its old contents. The EPC is one of the set.
    pub fn append_link(&self, set: &TableSet, stem: &[u8], out: &mut Vec<u8>) -> Result<(), Memory>
        requires { IsOfSet set.now self.now }
        ensures written { (identity : Elements) → IsLaidOut set.now self.now identity → IfOk result (λ _.
            out.new.items ≡ out.old.items ++ spelled stem.now identity) }
        ensures begun { OnErr result (BeginsWith out.new.items out.old.items) }
    {
        let kind = kind_at(set, self.info.kind);
        let texts = key_texts(self.info, self.values.items());
        append_laid_out(set, self.info.kind, kind, &texts, stem, out)
    }
}

/// Returns the reading by an option and the values of its items.
fn reading_by<'a>(info: &'a OptInfo, values: List<CowText<'a>>) -> EpcReading<'a>
    requires { IfSome (value_at Field.Filter info.now.fields values) IsFilter }
    ensures { result ≡ epc_of info.now values.entry }
{
    EpcReading { info, values }
}

/// Returns the EPC of a reading of symbols in a level.
fn answer<'a>(
    set: &'a TableSet,
    level: LevelName,
    reading: Reading<'a>,
) -> Result<EpcReading<'a>, EpcFault>
    requires { (symbols : List ℕ) × Reads (options_of level set.now) symbols reading }
    ensures says { AnswersReading set.now level reading.entry result }
    ensures of_set { IfOk result (IsOfSet set.now) }
{
    match reading {
        Reading::One { option, values } => Ok(reading_by(&set.info(level)[option], values)),
        Reading::Nothing => Err(EpcFault::NoReading),
        Reading::Memory => Err(EpcFault::Memory),
    }
}

/// Reads the bits of a tag, a text of hexadecimal digits.
fn reading_of_digits<'a>(
    alloc: Global,
    set: &'a TableSet,
    text: &[u8],
    room: &'a mut [u8],
) -> Result<EpcReading<'a>, EpcFault>
    requires { length room.old ≡ most_symbols }
    ensures answer { ReadsHex set.now text.now result }
    ensures of_set { IfOk result (IsOfSet set.now) }
{
    let level = LevelName::Binary;
    match BitBuf::<64>::from_hex(text) {
        Ok(bits) => {
            let reading = read_bits_within(alloc, set.level(level), &bits, room);
            answer(set, level, reading)
        }
        Err(error) => Err(EpcFault::Hex(error)),
    }
}

/// Reads an EPC URI of a level.
fn reading_of_uri<'a>(
    alloc: Global,
    set: &'a TableSet,
    level: LevelName,
    text: &'a [u8],
) -> Result<EpcReading<'a>, EpcFault>
    ensures answer { ReadsAs set.now level text.now result }
    ensures of_set { IfOk result (IsOfSet set.now) }
{
    answer(set, level, read_text(alloc, set.level(level), text))
}

/// Reads a text of a level as `read_hex`, `read_tag` and `read_pure` do, with their errors, and copies no field that the text
/// spells out. Bits are unpacked to the room, which has 512 symbols.
pub fn reading_of<'a>(
    alloc: Global,
    set: &'a TableSet,
    level: LevelName,
    text: &'a [u8],
    room: &'a mut [u8],
) -> Result<EpcReading<'a>, EpcFault>
    requires { length room.old ≡ most_symbols }
    ensures answer { ReadsText set.now level text.now result }
    ensures of_set { IfOk result (IsOfSet set.now) }
{
    match level {
        LevelName::Binary => reading_of_digits(alloc, set, text, room),
        LevelName::Tag => reading_of_uri(alloc, set, LevelName::Tag, text),
        LevelName::Pure => reading_of_uri(alloc, set, LevelName::Pure, text),
    }
}

/// Reads a text of a level, and copies the fields.
fn read_level(alloc: Global, set: &TableSet, level: LevelName, text: &[u8]) -> Result<Epc, EpcFault>
    ensures answer { ReadsText set.now level text.now result }
    ensures of_set { IfOk result (IsOfSet set.now) }
{
    let mut room = [0; MOST_SYMBOLS];
    let reading = reading_of(alloc, set, level, text, &mut room)?;
    Ok(copied(alloc, reading.epc())?)
}

/// Reads the bits of a tag, a text of at most 128 hexadecimal digits in either case (TDS 2.0, section 14). The errors are tried
/// in this order: the text is not such a hexadecimal text; the bits have no derivation in the level of bits.
pub fn read_hex(alloc: Global, set: &TableSet, text: &[u8]) -> Result<Epc, EpcFault>
    ensures answer { ReadsHex set.now text.now result }
    ensures of_set { IfOk result (IsOfSet set.now) }
{
    read_level(alloc, set, LevelName::Binary, text)
}

/// Reads an EPC tag URI (TDS 2.0, section 12). Returns `NoReading` if and only if the text has no derivation in the level of tag
/// URIs.
pub fn read_tag(alloc: Global, set: &TableSet, text: &[u8]) -> Result<Epc, EpcFault>
    ensures answer { ReadsAs set.now LevelName.Tag text.now result }
    ensures of_set { IfOk result (IsOfSet set.now) }
{
    read_level(alloc, set, LevelName::Tag, text)
}

/// Reads an EPC pure identity URI (TDS 2.0, section 6). Returns `NoReading` if and only if the text has no derivation in the
/// level of pure identity URIs.
pub fn read_pure(alloc: Global, set: &TableSet, text: &[u8]) -> Result<Epc, EpcFault>
    ensures answer { ReadsAs set.now LevelName.Pure text.now result }
    ensures of_set { IfOk result (IsOfSet set.now) }
{
    read_level(alloc, set, LevelName::Pure, text)
}
