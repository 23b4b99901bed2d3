ghost use Rattle.std.specs.Prelude.{◌≡◌, ◌∷◌, ◌++◌, All, IfOk, OnErr, is_none};
ghost use Rattle.gs_chars.specs.Answers.{BeginsWith};
ghost use Rattle.gs_ai.specs.PredefinedLengths.{predefined_length};
ghost use Rattle.gs_ident.specs.Elements.{pairs_of};
ghost use Rattle.gs_ident.specs.Identities.{IsInOrder, IsMadeWith};
ghost use Rattle.gs_element.specs.BracketedTexts.{bracketed_element, bracketed_text, written_character, written_value};
ghost use Rattle.gs_element.specs.Raw.{raw_text};
ghost use Rattle.gs_element.specs.WrittenTexts.{last_open, raw_behind, separator_of};

use gs_ai::{AiTable, Pair};
use gs_chars::{Memory, Text};
use gs_ident::Identity;
use std::alloc::Global;

/// Returns whether the code has no predefined length.
fn is_open(table: &AiTable, pair: &Pair<'_>) -> bool
    requires { IsInOrder table.now pair.now }
    ensures { result ≡ is_none (predefined_length pair.now.code) }
{
    let Some(row) = table.find(pair.code.as_bytes()) else {
        return true;
    };
    match table.predefined(row) {
        Some(_) => false,
        None => true,
    }
}

/// Appends an FNC1 if the element before is open.
fn write_separator(out: &mut Vec<u8>, unclosed: bool) -> Result<(), Memory>
    ensures written { IfOk result (λ _. out.new.items ≡ out.old.items ++ separator_of unclosed) }
    ensures begun { OnErr result (BeginsWith out.new.items out.old.items) }
{
    if unclosed {
        out.push(29)?;
    }
    Ok(())
}

/// Appends the elements of the pairs after one that is open or not, and returns whether the last of all is open.
fn write_elements(
    table: &AiTable,
    out: &mut Vec<u8>,
    unclosed: bool,
    pairs: &[Pair<'_>],
) -> Result<bool, Memory>
    requires { All (IsInOrder table.now) pairs.now }
    ensures written { IfOk result (λ _. out.new.items ≡ out.old.items ++ raw_behind unclosed pairs.now) }
    ensures last { IfOk result (λ last. last ≡ last_open unclosed pairs.now) }
    ensures begun { OnErr result (BeginsWith out.new.items out.old.items) }
{
    let mut last = unclosed;
    for pair in pairs {
        write_separator(out, last)?;
        out.extend_from_slice(pair.code.as_bytes())?;
        out.extend_from_slice(pair.value.as_bytes())?;
        last = is_open(table, pair);
    }
    Ok(last)
}

/// Appends the element string of a key, of the pairs that qualify it, and of its attributes, as `append_raw` does for an identity.
/// Fails only with `Memory`; `out` then begins with its old contents. Each pair is valid by the table.
pub fn append_raw_pairs(
    out: &mut Vec<u8>,
    table: &AiTable,
    key: &Pair<'_>,
    qualifiers: &[Pair<'_>],
    attributes: &[Pair<'_>],
) -> Result<(), Memory>
    requires { All (IsInOrder table.now) (key.now ∷ (qualifiers.now ++ attributes.now)) }
    ensures written { IfOk result (λ _. out.new.items
        ≡ out.old.items ++ raw_text (key.now ∷ (qualifiers.now ++ attributes.now))) }
    ensures begun { OnErr result (BeginsWith out.new.items out.old.items) }
{
    out.extend_from_slice(key.code.as_bytes())?;
    out.extend_from_slice(key.value.as_bytes())?;
    let unclosed = is_open(table, key);
    let unclosed = write_elements(table, out, unclosed, qualifiers)?;
    write_elements(table, out, unclosed, attributes)?;
    Ok(())
}

/// Appends the element string of the identity, as `write_raw` returns it. Fails only with `Memory`; `out` then begins with its old
/// contents. `make` of gs_ident made the identity with this table.
pub fn append_raw(out: &mut Vec<u8>, table: &AiTable, identity: &Identity<'_>) -> Result<(), Memory>
    requires { IsMadeWith table.now identity.now }
    ensures written { IfOk result (λ _. out.new.items ≡ out.old.items ++ raw_text (pairs_of identity.now)) }
    ensures begun { OnErr result (BeginsWith out.new.items out.old.items) }
{
    append_raw_pairs(
        out,
        table,
        identity.key(),
        identity.qualifiers(),
        identity.attributes(),
    )
}

/// Returns the element string of the identity (GS1 General Specifications, section 7.8): code and value of each pair, in order.
/// An FNC1 (the byte 29) follows each element without predefined length, except the last. It has no symbology identifier. Fails
/// only with `Memory`. `make` of gs_ident made the identity with this table.
pub fn write_raw(alloc: Global, table: &AiTable, identity: &Identity<'_>) -> Result<Text, Memory>
    requires { IsMadeWith table.now identity.now }
    ensures { IfOk result (λ text. text ≡ raw_text (pairs_of identity.now)) }
{
    let mut out = Vec::with_capacity(alloc, identity.room())?;
    append_raw(&mut out, table, identity)?;
    Ok(Text::from_vec(out))
}

/// Appends a character of a value, an opening bracket with a backslash before it.
fn write_character(out: &mut Vec<u8>, c: u8) -> Result<(), Memory>
    ensures written { IfOk result (λ _. out.new.items ≡ out.old.items ++ written_character c) }
    ensures begun { OnErr result (BeginsWith out.new.items out.old.items) }
{
    if c == b'(' {
        out.push(b'\\')?;
        out.push(b'(')?;
        Ok(())
    } else {
        out.push(c)?;
        Ok(())
    }
}

/// Appends a value.
fn write_value(out: &mut Vec<u8>, value: &[u8]) -> Result<(), Memory>
    ensures written { IfOk result (λ _. out.new.items ≡ out.old.items ++ written_value value.now) }
    ensures begun { OnErr result (BeginsWith out.new.items out.old.items) }
{
    for c in value {
        write_character(out, *c)?;
    }
    Ok(())
}

/// Appends the code of the pair in brackets, and its value.
fn write_pair(out: &mut Vec<u8>, pair: &Pair<'_>) -> Result<(), Memory>
    ensures written { IfOk result (λ _. out.new.items ≡ out.old.items ++ bracketed_element pair.now) }
    ensures begun { OnErr result (BeginsWith out.new.items out.old.items) }
{
    out.push(b'(')?;
    out.extend_from_slice(pair.code.as_bytes())?;
    out.push(b')')?;
    write_value(out, pair.value.as_bytes())
}

/// Appends each pair.
fn write_pairs(out: &mut Vec<u8>, pairs: &[Pair<'_>]) -> Result<(), Memory>
    ensures written { IfOk result (λ _. out.new.items ≡ out.old.items ++ bracketed_text pairs.now) }
    ensures begun { OnErr result (BeginsWith out.new.items out.old.items) }
{
    for pair in pairs {
        write_pair(out, pair)?;
    }
    Ok(())
}

/// Appends the element string of a key, its qualifiers and its attributes in the printed form, as `append_bracketed` does for
/// an identity. Fails only with `Memory`; `out` then begins with its old contents.
pub fn append_bracketed_pairs(
    out: &mut Vec<u8>,
    key: &Pair<'_>,
    qualifiers: &[Pair<'_>],
    attributes: &[Pair<'_>],
) -> Result<(), Memory>
    ensures written { IfOk result (λ _. out.new.items
        ≡ out.old.items ++ bracketed_text (key.now ∷ (qualifiers.now ++ attributes.now))) }
    ensures begun { OnErr result (BeginsWith out.new.items out.old.items) }
{
    write_pair(out, key)?;
    write_pairs(out, qualifiers)?;
    write_pairs(out, attributes)
}

/// Appends the element string of the identity in the printed form, as `write_bracketed` returns it. Fails only with `Memory`;
/// `out` then begins with its old contents.
pub fn append_bracketed(out: &mut Vec<u8>, identity: &Identity<'_>) -> Result<(), Memory>
    ensures written { IfOk result (λ _.
        out.new.items ≡ out.old.items ++ bracketed_text (pairs_of identity.now)) }
    ensures begun { OnErr result (BeginsWith out.new.items out.old.items) }
{
    append_bracketed_pairs(
        out,
        identity.key(),
        identity.qualifiers(),
        identity.attributes(),
    )
}

/// Returns the element string of the identity in the printed form, in the order of its pairs. Each code is in brackets, and its
/// value has `\(` for an opening bracket. Fails only with `Memory`.
pub fn write_bracketed(alloc: Global, identity: &Identity<'_>) -> Result<Text, Memory>
    ensures { IfOk result (λ text. text ≡ bracketed_text (pairs_of identity.now)) }
{
    let mut out = Vec::with_capacity(alloc, identity.room())?;
    append_bracketed(&mut out, identity)?;
    Ok(Text::from_vec(out))
}
