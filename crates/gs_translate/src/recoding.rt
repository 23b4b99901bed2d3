ghost use Rattle.std.specs.Prelude.{◌≤◌, IfSome, List, Ok, OnErr, length};
ghost use Rattle.gs_chars.specs.Answers.{BeginsWith};
ghost use Rattle.gs_chars.specs.Limits.{longest_text};
ghost use Rattle.gs_epc.specs.Epcs.{IsOfSet};
ghost use Rattle.gs_epc.specs.Layout.{IsLaidOut};
ghost use Rattle.gs_epc.specs.Writes.{ReadsText};
ghost use Rattle.gs_ident.specs.Elements.{Elements};
ghost use Rattle.gs_prefix.specs.declared.entry.PrefixEntry.{PrefixEntry};
ghost use Rattle.gs_translate.specs.Meanings.{epc_meaning};
ghost use Rattle.gs_translate.specs.declared.form.Form.{Form};
ghost use Rattle.gs_translate.specs.MeaningsSupport.{form_at};
ghost use Rattle.gs_translate.specs.Steps.{AppendsText, UnlessMemory};
ghost use Rattle.gs_translate.specs.Targets.{FitsFilter};
ghost use Rattle.gs_translate.specs.Translations.{AreInOrder, IsOfLevel, IsSpelling, IsTranslation};

use crate::form::{Options, Target};
use crate::reason::Reason;
use crate::spelling::append_epc;
use crate::tag_fields::retagged;
use gs_element::{append_bracketed_pairs, append_raw_pairs};
use gs_epc::{EpcReading, EpcRef, EpcWords, Rooms, TagBits, bit_words_of, reading_of, words_of};
use gs_grammar::MOST_SYMBOLS;
use gs_ident::CANONICAL_STEM;
use gs_tables::{LevelName, TableSet};
use std::alloc::Global;

/// Appends the text of a level for an EPC, or returns the first reason against it. The filter value and the encoding are
/// those of the options, or its own. Its identity is not laid out: taken apart, it would give the fields back.
fn append_recoded(
    alloc: Global,
    set: &TableSet,
    options: &Options,
    to: LevelName,
    epc: EpcRef<'_>,
    out: &mut Vec<u8>,
) -> Result<(), Reason>
    requires options { FitsFilter options.now.filter }
    requires of_set { IsOfSet set.now epc }
    requires given { FitsFilter epc.filter }
    ensures written { (prefixes : List PrefixEntry) (identity : Elements)
        → IsLaidOut set.now epc.entry identity → UnlessMemory result (AppendsText
        (IsOfLevel set.now prefixes options.now to (epc_meaning epc.entry identity))
        out.old.items out.new.items result) }
    ensures begun { OnErr result (BeginsWith out.new.items out.old.items) }
{
    // only for the proof: the rows satisfy the rules of tables
    let _ = set.ais();
    let epc = retagged(options, to, epc)?;
    append_epc(alloc, set, to, &epc, out)
}

/// Appends the spelling of an EPC in the requested form, or gives the first reason why there is none. The identity that it
/// names is not made for it.
fn append_reading(
    alloc: Global,
    set: &TableSet,
    options: &Options,
    to: Target,
    reading: &EpcReading<'_>,
    out: &mut Vec<u8>,
) -> Result<(), Reason>
    requires options { AreInOrder options.now }
    requires of_set { IsOfSet set.now reading.now }
    requires given { FitsFilter reading.now.filter }
    ensures written { (prefixes : List PrefixEntry) (identity : Elements)
        → IsLaidOut set.now reading.now identity → UnlessMemory result (AppendsText
        (IsSpelling set.now prefixes options.now to (epc_meaning reading.now identity))
        out.old.items out.new.items result) }
    ensures begun { OnErr result (BeginsWith out.new.items out.old.items) }
{
    match to {
        Target::Hex => append_recoded(alloc, set, options, LevelName::Binary, reading.epc(), out),
        Target::Tag => append_recoded(alloc, set, options, LevelName::Tag, reading.epc(), out),
        Target::Pure => append_recoded(alloc, set, options, LevelName::Pure, reading.epc(), out),
        Target::Raw => {
            let pairs = reading.pairs(alloc, set)?;
            Ok(append_raw_pairs(out, set.ais(), &pairs.key, pairs.serial.as_slice(), &[])?)
        }
        Target::Bracketed => {
            let pairs = reading.pairs(alloc, set)?;
            Ok(append_bracketed_pairs(out, &pairs.key, pairs.serial.as_slice(), &[])?)
        }
        Target::Link => Ok(reading.append_link(set, options.stem.as_bytes(), out)?),
        Target::Canon => Ok(reading.append_link(set, CANONICAL_STEM.as_bytes(), out)?),
    }
}

/// Appends the translation of a text of a level as `append_of_level` does, by its reading.
#[inline(never)]
fn append_read(
    alloc: Global,
    set: &TableSet,
    options: &Options,
    from: LevelName,
    to: Target,
    text: &[u8],
    out: &mut Vec<u8>,
) -> Result<(), Reason>
    requires options { AreInOrder options.now }
    requires short { length text.now ≤ longest_text }
    ensures written { (prefixes : List PrefixEntry) → UnlessMemory result (AppendsText
        (IsTranslation set.now prefixes options.now (form_at from) to text.now)
        out.old.items out.new.items result) }
    ensures begun { OnErr result (BeginsWith out.new.items out.old.items) }
{
    // only for the proof: the rows satisfy the rules of tables
    let _ = set.ais();
    let mut room = [0; MOST_SYMBOLS];
    let reading = reading_of(alloc, set, from, text, &mut room)?;
    append_reading(alloc, set, options, to, &reading, out)
}

/// Appends the spelling of an EPC as `append_reading` does, of its words.
#[inline(never)]
fn append_words(
    alloc: Global,
    set: &TableSet,
    options: &Options,
    to: Target,
    words: &EpcWords<'_>,
    out: &mut Vec<u8>,
) -> Result<(), Reason>
    requires options { AreInOrder options.now }
    requires of_set { IsOfSet set.now words.now }
    requires given { FitsFilter words.now.filter }
    ensures written { (prefixes : List PrefixEntry) (identity : Elements)
        → IsLaidOut set.now words.now identity → UnlessMemory result (AppendsText
        (IsSpelling set.now prefixes options.now to (epc_meaning words.now identity))
        out.old.items out.new.items result) }
    ensures begun { OnErr result (BeginsWith out.new.items out.old.items) }
{
    let mut rooms = Rooms::new();
    match to {
        Target::Hex => {
            let epc = words.epc(&mut rooms);
            append_recoded(alloc, set, options, LevelName::Binary, epc, out)
        }
        Target::Tag => {
            let epc = words.epc(&mut rooms);
            append_recoded(alloc, set, options, LevelName::Tag, epc, out)
        }
        Target::Pure => {
            let epc = words.epc(&mut rooms);
            append_recoded(alloc, set, options, LevelName::Pure, epc, out)
        }
        Target::Raw => {
            let pairs = words.pairs(alloc, set, &mut rooms)?;
            Ok(append_raw_pairs(out, set.ais(), &pairs.key, pairs.serial.as_slice(), &[])?)
        }
        Target::Bracketed => {
            let pairs = words.pairs(alloc, set, &mut rooms)?;
            Ok(append_bracketed_pairs(out, &pairs.key, pairs.serial.as_slice(), &[])?)
        }
        Target::Link => Ok(words.append_link(set, options.stem.as_bytes(), out)?),
        Target::Canon => Ok(words.append_link(set, CANONICAL_STEM.as_bytes(), out)?),
    }
}

/// Appends the translation of a text of a level as `append_of_level` does: by its words, if these are given, otherwise by
/// its reading.
#[inline(always)]
fn append_found(
    alloc: Global,
    set: &TableSet,
    options: &Options,
    from: LevelName,
    to: Target,
    text: &[u8],
    found: Option<EpcWords<'_>>,
    out: &mut Vec<u8>,
) -> Result<(), Reason>
    requires options { AreInOrder options.now }
    requires short { length text.now ≤ longest_text }
    requires answer { IfSome found (λ epc. ReadsText set.now from text.now (Ok epc)) }
    requires of_set { IfSome found (IsOfSet set.now) }
    ensures written { (prefixes : List PrefixEntry) → UnlessMemory result (AppendsText
        (IsTranslation set.now prefixes options.now (form_at from) to text.now)
        out.old.items out.new.items result) }
    ensures begun { OnErr result (BeginsWith out.new.items out.old.items) }
{
    // only for the proof: the rows satisfy the rules of tables
    let _ = set.ais();
    match found {
        Some(words) => match to {
            // here and not there, where the places of all targets are cleared first
            Target::Canon => Ok(words.append_link(set, CANONICAL_STEM.as_bytes(), out)?),
            _ => append_words(alloc, set, options, to, &words, out),
        },
        None => append_read(alloc, set, options, from, to, text, out),
    }
}

/// Appends the translation of the bits of a tag as `append_of_level` does. It has room for bits, which other texts do not
/// need.
#[inline(never)]
fn append_of_bits(
    alloc: Global,
    set: &TableSet,
    options: &Options,
    to: Target,
    text: &[u8],
    out: &mut Vec<u8>,
) -> Result<(), Reason>
    requires options { AreInOrder options.now }
    requires short { length text.now ≤ longest_text }
    ensures written { (prefixes : List PrefixEntry) → UnlessMemory result (AppendsText
        (IsTranslation set.now prefixes options.now Form.Hex to text.now)
        out.old.items out.new.items result) }
    ensures begun { OnErr result (BeginsWith out.new.items out.old.items) }
{
    let mut room = TagBits::new();
    let found = bit_words_of(set, text, &mut room);
    append_found(alloc, set, options, LevelName::Binary, to, text, found, out)
}

/// Appends the translation of a text of a level, or returns the first reason why it is rejected. The text is not too long.
/// The identity of an EPC has only a key and its serial, so keeping only keys does not change it. A text whose words are
/// found needs no reading.
pub(crate) fn append_of_level(
    alloc: Global,
    set: &TableSet,
    options: &Options,
    from: LevelName,
    to: Target,
    text: &[u8],
    out: &mut Vec<u8>,
) -> Result<(), Reason>
    requires options { AreInOrder options.now }
    requires short { length text.now ≤ longest_text }
    ensures written { (prefixes : List PrefixEntry) → UnlessMemory result (AppendsText
        (IsTranslation set.now prefixes options.now (form_at from) to text.now)
        out.old.items out.new.items result) }
    ensures begun { OnErr result (BeginsWith out.new.items out.old.items) }
{
    match from {
        LevelName::Binary => append_of_bits(alloc, set, options, to, text, out),
        LevelName::Tag => {
            let found = words_of(set, LevelName::Tag, text);
            append_found(alloc, set, options, LevelName::Tag, to, text, found, out)
        }
        LevelName::Pure => {
            let found = words_of(set, LevelName::Pure, text);
            append_found(alloc, set, options, LevelName::Pure, to, text, found, out)
        }
    }
}
