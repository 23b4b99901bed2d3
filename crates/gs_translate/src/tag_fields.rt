ghost use Rattle.std.specs.Prelude.{◌≡◌, ◌<◌, IfOk, find, if◌then◌else◌, length, not, position};
ghost use Rattle.std.specs.List.{list_any};
ghost use Rattle.std.specs.Option.{option_copied, option_or};
ghost use Rattle.gs_ai.specs.Tables.{is_empty};
ghost use Rattle.gs_epc.specs.Candidates.{HasFilterOn};
ghost use Rattle.gs_ident.specs.Elements.{Elements};
ghost use Rattle.gs_translate.specs.Meanings.{epc_meaning};
ghost use Rattle.gs_translate.specs.Steps.{UnlessMemory};
ghost use Rattle.gs_translate.specs.Targets.{FitsFilter, digits_from_prefix, epc_for, extra_pair, has_key, has_option, is_option_of, is_serial, kind_for, known_length, lacks_filter, length_for, with_tag};

use crate::form::{FieldName, Options};
use crate::reader::Meaning;
use crate::reason::Reason;
use gs_ai::Pair;
use gs_chars::{Text, count_digits};
use gs_epc::{EpcRef, lent_fields_of, value_from_prefix};
use gs_ident::{Identity, same_code};
use gs_prefix::PrefixList;
use gs_tables::{LevelName, OptInfo, SerialAt, TableSet};
use std::alloc::Global;

/// Returns the index of the kind of the key.
fn kind_place(set: &TableSet, key: &Pair<'_>) -> Option<usize>
    ensures { result ≡ position (has_key key.now.code) set.now.kinds }
{
    set.kinds()
        .iter()
        .position(|kind| same_code(key.code.as_bytes(), kind.key.as_bytes()))
}

/// Returns whether the pair is the serial, in a separate element.
fn is_serial(serial: &SerialAt, pair: &Pair<'_>) -> bool
    ensures { result ≡ is_serial serial.now pair.now }
{
    match serial {
        SerialAt::Ai(code) => same_code(code.as_bytes(), pair.code.as_bytes()),
        SerialAt::Nowhere | SerialAt::Tail => false,
    }
}

/// Returns the first pair that is not the serial.
fn first_other<'p, 'a>(serial: &SerialAt, pairs: &'p [Pair<'a>]) -> Option<&'p Pair<'a>>
    ensures { option_copied result ≡ find (λ pair. not (is_serial serial.now pair)) pairs.now }
{
    pairs.iter().find(|pair| !is_serial(serial, pair))
}

/// Returns the first pair that no EPC says.
fn extra_pair<'i, 'a>(serial: &SerialAt, identity: &'i Identity<'a>) -> Option<&'i Pair<'a>>
    ensures { option_copied result ≡ extra_pair serial.now identity.now }
{
    match first_other(serial, identity.qualifiers()) {
        Some(pair) => Some(pair),
        None => first_other(serial, identity.attributes()),
    }
}

/// Returns the index of the kind of the key, if an EPC of it holds the whole identity.
fn kind_for(alloc: Global, set: &TableSet, identity: &Identity<'_>) -> Result<usize, Reason>
    ensures kind { UnlessMemory result (result ≡ kind_for set.now identity.now) }
    ensures within { IfOk result (λ kind. kind < length set.now.kinds) }
{
    let Some(kind) = kind_place(set, identity.key()) else {
        return Err(Reason::NoKind);
    };
    match extra_pair(&set.kinds()[kind].serial, identity) {
        Some(pair) => Err(Reason::Extra(Text::from_bytes(alloc, pair.code.as_bytes())?)),
        None => Ok(kind),
    }
}

/// Returns the digits in which the value of a key goes on from the company prefix.
fn digits_from_prefix<'a>(set: &TableSet, kind: usize, value: &'a [u8]) -> &'a [u8]
    requires { kind < length set.now.kinds }
    ensures { result.now ≡ digits_from_prefix set.now kind value.now }
{
    let value = value_from_prefix(set, kind, value);
    &value[..count_digits(value)]
}

/// Returns the length of the company prefix that the text gives, otherwise that of the options, otherwise that of the list.
fn known_length(
    set: &TableSet,
    prefixes: &PrefixList,
    options: &Options,
    meaning: &Meaning<'_>,
    kind: usize,
) -> Option<u8>
    requires { kind < length set.now.kinds }
    ensures { result ≡ known_length set.now prefixes.now options.now meaning.now kind }
{
    let value = meaning.identity.key().value.as_bytes();
    match meaning.gcp.or(options.gcp) {
        Some(length) => Some(length),
        None => prefixes.length_of(digits_from_prefix(set, kind, value)),
    }
}

/// Returns whether one of the options is of the kind and the length of the company prefix.
fn is_option_of(options: &[OptInfo], kind: usize, gcp: u8) -> bool
    ensures { result ≡ list_any (is_option_of kind gcp) options.now }
{
    options
        .iter()
        .any(|info| info.kind == kind && info.gcp == gcp)
}

/// Returns whether an option of any level is of the kind and the length of the company prefix.
fn has_option(set: &TableSet, kind: usize, gcp: u8) -> bool
    ensures { result ≡ has_option set.now kind gcp }
{
    is_option_of(set.info(LevelName::Binary), kind, gcp)
        || is_option_of(set.info(LevelName::Tag), kind, gcp)
        || is_option_of(set.info(LevelName::Pure), kind, gcp)
}

/// Returns the company prefix length, if there is an option of this length.
fn length_for(
    set: &TableSet,
    prefixes: &PrefixList,
    options: &Options,
    meaning: &Meaning<'_>,
    kind: usize,
) -> Result<u8, Reason>
    requires { kind < length set.now.kinds }
    ensures { result ≡ length_for set.now prefixes.now options.now meaning.now kind }
{
    let Some(gcp) = known_length(set, prefixes, options, meaning, kind) else {
        return Err(Reason::Missing(FieldName::Gcp));
    };
    if has_option(set, kind, gcp) {
        Ok(gcp)
    } else {
        Err(Reason::NoOption)
    }
}

/// Returns the filter value that the text gives, otherwise that of the options.
fn filter_for(options: &Options, given: Option<u8>) -> Option<u8>
    ensures { result ≡ option_or given options.now.filter }
{
    given.or(options.filter)
}

/// Returns whether a filter value is missing, which a pure identity does not need.
fn lacks_filter(level: LevelName, filter: Option<u8>) -> bool
    ensures { result ≡ lacks_filter level filter }
{
    match level {
        LevelName::Pure => false,
        LevelName::Binary | LevelName::Tag => filter.is_none(),
    }
}

/// Returns the encoding of the options, otherwise that of the text.
fn encoding_for<'a>(options: &'a Options, given: &'a [u8]) -> &'a [u8]
    ensures { result.now ≡ (if is_empty options.now.encoding then given.now else options.now.encoding) }
{
    let encoding = options.encoding.as_bytes();
    if encoding.is_empty() { given } else { encoding }
}

/// Returns the EPC of a text with the encoding and the filter value of a tag.
pub(crate) fn retagged<'a>(
    options: &'a Options,
    level: LevelName,
    epc: EpcRef<'a>,
) -> Result<EpcRef<'a>, Reason>
    requires options { FitsFilter options.now.filter }
    requires given { FitsFilter epc.filter }
    ensures tagged { (identity : Elements) → UnlessMemory result
        (result ≡ with_tag options.now level (epc_meaning epc.entry identity) epc.entry) }
    ensures filter { IfOk result (λ epc. HasFilterOn level epc.filter) }
{
    let filter = filter_for(options, epc.filter);
    if lacks_filter(level, filter) {
        return Err(Reason::Missing(FieldName::Filter));
    }
    let mut epc = epc;
    epc.encoding = encoding_for(options, epc.encoding);
    epc.filter = filter;
    Ok(epc)
}

/// Returns the EPC with the encoding and the filter value of a tag.
fn with_tag<'a>(
    options: &'a Options,
    level: LevelName,
    meaning: &'a Meaning<'_>,
    epc: EpcRef<'a>,
) -> Result<EpcRef<'a>, Reason>
    requires options { FitsFilter options.now.filter }
    requires meaning { FitsFilter meaning.now.filter }
    ensures tagged { UnlessMemory result (result ≡ with_tag options.now level meaning.now epc.entry) }
    ensures filter { IfOk result (λ epc. HasFilterOn level epc.filter) }
{
    let mut epc = epc;
    epc.encoding = meaning.encoding.as_bytes();
    epc.filter = meaning.filter;
    retagged(options, level, epc)
}

/// Returns the EPC that is written of a meaning as a tag or an EPC URI, or the first reason why there is none.
pub(crate) fn epc_for<'a>(
    alloc: Global,
    set: &'a TableSet,
    prefixes: &PrefixList,
    options: &'a Options,
    level: LevelName,
    meaning: &'a Meaning<'_>,
) -> Result<EpcRef<'a>, Reason>
    requires options { FitsFilter options.now.filter }
    requires meaning { FitsFilter meaning.now.filter }
    ensures epc { UnlessMemory result (result ≡ epc_for set.now prefixes.now options.now level meaning.now) }
    ensures filter { IfOk result (λ epc. HasFilterOn level epc.filter) }
{
    let kind = kind_for(alloc, set, &meaning.identity)?;
    let gcp = length_for(set, prefixes, options, meaning, kind)?;
    let epc = lent_fields_of(alloc, set, kind, &meaning.identity, gcp)?;
    with_tag(options, level, meaning, epc)
}
