ghost use Rattle.std.specs.Prelude.{◌≡◌, ◌∷◌, ◌++◌, ℕ, All, IfOk, IfSome, List, Ok, OnErr};
ghost use Rattle.gs_chars.specs.Answers.{BeginsWith};
ghost use Rattle.gs_grammar.specs.Derivations.{OneDerivation};
ghost use Rattle.gs_ident.specs.Elements.{Elements, pairs_of};
ghost use Rattle.gs_ident.specs.Identities.{IsInOrder};
ghost use Rattle.gs_ident.specs.Links.{spelled};
ghost use Rattle.gs_ident.specs.QualifiedKeys.{pairs_in};
ghost use Rattle.gs_epc.specs.Epcs.{IsOfSet, options_of};
ghost use Rattle.gs_epc.specs.Layout.{IsLaidOut};
ghost use Rattle.gs_epc.specs.Readings.{ReadsAs, ReadsHex};
ghost use Rattle.gs_epc.specs.WordsOfLevels.{AnswersWords, words_in};

use crate::epc::EpcRef;
use crate::fields::epc_with;
use crate::item_numbers::ItemNumbers;
use crate::layout::{KeyAndSerial, key_and_serial, kind_at};
use crate::level_words::{LevelWords, Rooms};
use crate::link_writer::append_laid_out;
use gs_bits::BitBuf;
use gs_chars::Memory;
use gs_grammar::{MOST_SYMBOLS, unpack};
use gs_grammar_level::{find_bits, find_words};
use gs_tables::{LevelName, OptInfo, TableSet};
use std::alloc::Global;
use std::marker::Model;

/// The words of an EPC URI, or of the bits of a tag, as an EPC: the facts of the option, and the words of its items. Contracts
/// see the EPC.
#[derive(Drop)]
pub struct EpcWords<'a> {
    info: &'a OptInfo,
    words: LevelWords<'a>,
}

impl<'a> Model for EpcWords<'a> {
    ghost use Rattle.std.specs.Prelude.{IfSome};
    ghost use Rattle.gs_tables_document.specs.declared.document.Field.TheVariants.{Filter};
    ghost use Rattle.gs_epc.specs.declared.epc.Epc.{Epc};
    ghost use Rattle.gs_epc.specs.Epcs.{epc_of, value_at};
    ghost use Rattle.gs_epc.specs.Filters.{IsFilter};
    ghost use Rattle.gs_epc.specs.WordsOfLevels.{words_in};

    ghost Value = { Epc };

    ghost view = { λ t. epc_of t.info.now (words_in t.words).values };

    ghost invariant = { λ t. IfSome (value_at Filter t.info.now.fields (words_in t.words).values) IsFilter };
}

impl EpcWords<'_> {
    /// Returns the EPC, each text lent. The values of bits are written to the rooms.
    pub fn epc<'r>(&'r self, rooms: &'r mut Rooms) -> EpcRef<'r>
        ensures { result ≡ self.now }
    {
        let numbers = ItemNumbers::new(self.info.fields.items());
        let filter = self.words.filter(&numbers);
        epc_with(self.info, filter, self.words.key_texts(&numbers, rooms))
    }

    /// Returns the pairs of the identity that the EPC names, as `EpcReading::pairs` does. The values of bits are written to the
    /// rooms. Fails only with `Memory`. The EPC is one of the set.
    pub fn pairs<'i>(
        &'i self,
        alloc: Global,
        set: &'i TableSet,
        rooms: &'i mut Rooms,
    ) -> Result<KeyAndSerial<'i>, Memory>
        requires { IsOfSet set.now self.now }
        ensures pairs { (identity : Elements) → IsLaidOut set.now self.now identity
            → IfOk result (λ pairs. pairs_of identity ≡ pairs.key ∷ pairs_in pairs.serial) }
        ensures in_order { IfOk result (λ pairs.
            All (IsInOrder set.now.ais) (pairs.key ∷ pairs_in pairs.serial)) }
    {
        // only for the proof: the rows satisfy the rules of application identifiers
        let _ = set.ais().rows();
        let kind = kind_at(set, self.info.kind);
        let lent = self.epc(rooms);
        key_and_serial(alloc, set, kind, &lent)
    }

    /// Appends the link, under the stem, of the identity that the EPC names, as `EpcReading::append_link` does. Fails only with
    /// `Memory`; `out` then begins with its old contents. The EPC is one of the set.
    pub fn append_link(&self, set: &TableSet, stem: &[u8], out: &mut Vec<u8>) -> Result<(), Memory>
        requires { IsOfSet set.now self.now }
        ensures written { (identity : Elements) → IsLaidOut set.now self.now identity → IfOk result (λ _.
            out.new.items ≡ out.old.items ++ spelled stem.now identity) }
        ensures begun { OnErr result (BeginsWith out.new.items out.old.items) }
    {
        let kind = kind_at(set, self.info.kind);
        let numbers = ItemNumbers::new(self.info.fields.items());
        let mut rooms = Rooms::new();
        let texts = self.words.key_texts(&numbers, &mut rooms);
        append_laid_out(set, self.info.kind, kind, &texts, stem, out)
    }
}

/// Returns the EPC of words of symbols in a level.
fn words_by<'a>(set: &'a TableSet, level: LevelName, words: LevelWords<'a>) -> EpcWords<'a>
    requires { (symbols : List ℕ)
        × OneDerivation (options_of level set.now) symbols (words_in words).option (words_in words).values }
    ensures says { AnswersWords set.now level (words_in words.entry) result }
    ensures of_set { IsOfSet set.now result }
{
    let info = &set.info(level)[words.option()];
    EpcWords { info, words }
}

/// Finds the words of an EPC URI of a level that has the value of each field as it is. `None` says nothing: `reading_of`
/// decides then. Does not allocate.
pub fn words_of<'a>(set: &'a TableSet, level: LevelName, text: &'a [u8]) -> Option<EpcWords<'a>>
    ensures answer { IfSome result (λ epc. ReadsAs set.now level text.now (Ok epc)) }
    ensures of_set { IfSome result (IsOfSet set.now) }
{
    match find_words(set.level(level), text) {
        Some(words) => Some(words_by(set, level, LevelWords::Text(words))),
        None => None,
    }
}

/// Room for the bits of a tag, packed and one to a symbol.
#[derive(Drop)]
pub struct TagBits {
    bits: BitBuf<64>,
    symbols: [u8; MOST_SYMBOLS],
}

impl TagBits {
    /// Makes room for the bits of one tag.
    pub fn new() -> TagBits {
        TagBits {
            bits: BitBuf::new(),
            symbols: [0; MOST_SYMBOLS],
        }
    }
}

/// Finds the words of the bits of a tag, a text of hexadecimal digits, if its option cuts them at fixed places into literals and
/// numbers. `None` says nothing: `reading_of` decides then. Does not allocate.
pub fn bit_words_of<'a>(
    set: &'a TableSet,
    text: &[u8],
    room: &'a mut TagBits,
) -> Option<EpcWords<'a>>
    ensures answer { IfSome result (λ epc. ReadsHex set.now text.now (Ok epc)) }
    ensures of_set { IfSome result (IsOfSet set.now) }
{
    let level = LevelName::Binary;
    let Ok(bits) = BitBuf::from_hex(text) else {
        return None;
    };
    room.bits = bits;
    let count = unpack(&room.bits, &mut room.symbols);
    match find_bits(set.level(level), &room.bits, &room.symbols[..count]) {
        Some(words) => Some(words_by(set, level, LevelWords::Bits(words))),
        None => None,
    }
}
