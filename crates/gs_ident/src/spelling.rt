ghost use Rattle.std.specs.Prelude.{◌≡◌, ◌↔◌, ◌++◌, ◌∷◌, IfOk, OnErr};
ghost use Rattle.std.specs.List.{flat_map, list_all};
ghost use Rattle.gs_chars.specs.Answers.{BeginsWith};
ghost use Rattle.gs_ident.specs.Elements.{Elements};
ghost use Rattle.gs_ident.specs.Identities.{IsMadeWith};
ghost use Rattle.gs_ident.specs.Links.{canonical_link, is_unescaped, percent_encoded, query_of, spelled};

use crate::identity::Identity;
use gs_ai::{AiTable, Pair};
use gs_chars::{Memory, Text};
use percent_encoding::{AsciiSet, NON_ALPHANUMERIC, percent_encode};
use std::alloc::Global;

/// ASCII bytes that a value escapes: all but letters, digits, `-`, `.` and `_`.
const ESCAPED: AsciiSet = percent_encoding::ascii_set!(
    NON_ALPHANUMERIC.remove(b'-').remove(b'.').remove(b'_')
);

/// For each byte, 1 if it stands for itself in a value, and 0 if not.
static UNESCAPED: [u8; 256] = [
    0, 0, 0, 0, 0, 0, 0, 0, 0, 0, 0, 0, 0, 0, 0, 0, 0, 0, 0, 0, 0, 0, 0, 0, 0, 0, 0, 0, 0, 0, 0, 0,
    0, 0, 0, 0, 0, 0, 0, 0, 0, 0, 0, 0, 0, 1, 1, 0, 1, 1, 1, 1, 1, 1, 1, 1, 1, 1, 0, 0, 0, 0, 0, 0,
    0, 1, 1, 1, 1, 1, 1, 1, 1, 1, 1, 1, 1, 1, 1, 1, 1, 1, 1, 1, 1, 1, 1, 1, 1, 1, 1, 0, 0, 0, 0, 1,
    0, 1, 1, 1, 1, 1, 1, 1, 1, 1, 1, 1, 1, 1, 1, 1, 1, 1, 1, 1, 1, 1, 1, 1, 1, 1, 1, 0, 0, 0, 0, 0,
    0, 0, 0, 0, 0, 0, 0, 0, 0, 0, 0, 0, 0, 0, 0, 0, 0, 0, 0, 0, 0, 0, 0, 0, 0, 0, 0, 0, 0, 0, 0, 0,
    0, 0, 0, 0, 0, 0, 0, 0, 0, 0, 0, 0, 0, 0, 0, 0, 0, 0, 0, 0, 0, 0, 0, 0, 0, 0, 0, 0, 0, 0, 0, 0,
    0, 0, 0, 0, 0, 0, 0, 0, 0, 0, 0, 0, 0, 0, 0, 0, 0, 0, 0, 0, 0, 0, 0, 0, 0, 0, 0, 0, 0, 0, 0, 0,
    0, 0, 0, 0, 0, 0, 0, 0, 0, 0, 0, 0, 0, 0, 0, 0, 0, 0, 0, 0, 0, 0, 0, 0, 0, 0, 0, 0, 0, 0, 0, 0,
];

/// Returns whether the byte stands for itself in a value: letters, digits, `-`, `.` and `_`.
fn is_unescaped(c: u8) -> bool
    ensures { result ≡ is_unescaped c }
{
    UNESCAPED[usize::from(c)] == 1
}

/// Returns whether no byte of the value is escaped.
fn is_plain(value: &[u8]) -> bool
    ensures { result ≡ list_all is_unescaped value.now }
{
    value.iter().all(|c| is_unescaped(*c))
}

/// Appends the value with its escapes.
fn append_pieces(out: &mut Vec<u8>, value: &[u8]) -> Result<(), Memory>
    ensures written { IfOk result (λ _. out.new.items ≡ out.old.items ++ percent_encoded value.now) }
    ensures begun { OnErr result (BeginsWith out.new.items out.old.items) }
{
    for piece in percent_encode(value, ESCAPED) {
        out.extend_from_slice(piece.as_bytes())?;
    }
    Ok(())
}

/// Appends the written form of a value in a link (RFC 3986, section 2.1). Letters, digits, `-`, `.` and `_` are unchanged, any
/// other byte becomes `%` and two upper-case hexadecimal digits. Fails only with `Memory`; `out` then begins with its old
/// contents.
pub fn append_escaped(out: &mut Vec<u8>, value: &[u8]) -> Result<(), Memory>
    ensures written { IfOk result (λ _. out.new.items ≡ out.old.items ++ percent_encoded value.now) }
    ensures begun { OnErr result (BeginsWith out.new.items out.old.items) }
{
    // most values have no byte to escape, so they are copied whole
    if is_plain(value) {
        return Ok(out.extend_from_slice(value)?);
    }
    append_pieces(out, value)
}

/// Appends the byte `before`, the code, the byte `between`, and the value with its escapes, as links have an element. Fails only
/// with `Memory`; `out` then begins with its old contents.
pub fn append_element(
    out: &mut Vec<u8>,
    before: u8,
    code: &[u8],
    value: &[u8],
    between: u8,
) -> Result<(), Memory>
    ensures written { IfOk result (λ _. out.new.items
        ≡ out.old.items ++ (before ∷ (code.now ++ between ∷ percent_encoded value.now))) }
    ensures begun { OnErr result (BeginsWith out.new.items out.old.items) }
{
    out.push(before)?;
    out.extend_from_slice(code)?;
    out.push(between)?;
    append_escaped(out, value)
}

/// Appends the pair as `append_element` does.
fn write_pair(out: &mut Vec<u8>, before: u8, pair: &Pair<'_>, between: u8) -> Result<(), Memory>
    ensures written { IfOk result (λ _. out.new.items
        ≡ out.old.items ++ (before ∷ (pair.now.code ++ between ∷ percent_encoded pair.now.value))) }
    ensures begun { OnErr result (BeginsWith out.new.items out.old.items) }
{
    append_element(
        out,
        before,
        pair.code.as_bytes(),
        pair.value.as_bytes(),
        between,
    )
}

/// Appends each pair as `write_pair` does.
fn write_pairs(out: &mut Vec<u8>, before: u8, pairs: &[Pair<'_>], between: u8) -> Result<(), Memory>
    ensures written { IfOk result (λ _. out.new.items
        ≡ out.old.items
        ++ flat_map (λ p. before ∷ (p.code ++ between ∷ percent_encoded p.value)) pairs.now) }
    ensures begun { OnErr result (BeginsWith out.new.items out.old.items) }
{
    for pair in pairs {
        write_pair(out, before, pair, between)?;
    }
    Ok(())
}

/// Appends the query of the attributes, or nothing if there are none.
fn write_query(out: &mut Vec<u8>, pairs: &[Pair<'_>]) -> Result<(), Memory>
    ensures written { IfOk result (λ _. out.new.items ≡ out.old.items ++ query_of pairs.now) }
    ensures begun { OnErr result (BeginsWith out.new.items out.old.items) }
{
    let Some((first, rest)) = pairs.split_first() else {
        return Ok(());
    };
    write_pair(out, b'?', first, b'=')?;
    write_pairs(out, b'&', rest, b'=')
}

/// Returns the number of bytes of a link under the stem without its escapes: the memory that is reserved for it.
fn room_for(stem: &[u8], identity: &Identity<'_>) -> usize {
    stem.len().saturating_add(identity.room())
}

/// Appends the link of the identity under the stem, as `spell` returns it. Fails only with `Memory`; `out` then begins with its
/// old contents.
pub fn append_link(out: &mut Vec<u8>, stem: &[u8], identity: &Identity<'_>) -> Result<(), Memory>
    ensures written { IfOk result (λ _. out.new.items ≡ out.old.items ++ spelled stem.now identity.now) }
    ensures begun { OnErr result (BeginsWith out.new.items out.old.items) }
{
    out.extend_from_slice(stem)?;
    write_pair(out, b'/', identity.key(), b'/')?;
    write_pairs(out, b'/', identity.qualifiers(), b'/')?;
    write_query(out, identity.attributes())
}

/// Returns the link of the identity under the stem (GS1 Digital Link URI Syntax, section 4). The path has the pairs of the key
/// and the qualifiers, the query the attributes. Fails only with `Memory`.
pub fn spell(alloc: Global, stem: &[u8], identity: &Identity<'_>) -> Result<Text, Memory>
    ensures { IfOk result (λ text. text ≡ spelled stem.now identity.now) }
{
    let mut out = Vec::with_capacity(alloc, room_for(stem, identity))?;
    append_link(&mut out, stem, identity)?;
    Ok(Text::from_vec(out))
}

/// Stem of GS1's own resolver, which canonical links have (GS1 Digital Link URI Syntax, section 5).
pub const CANONICAL_STEM: &str = "https://id.gs1.org";

/// Appends the canonical link of the identity, as `canonical` returns it. Fails only with `Memory`; `out` then begins with its
/// old contents.
pub fn append_canonical(out: &mut Vec<u8>, identity: &Identity<'_>) -> Result<(), Memory>
    ensures written { IfOk result (λ _. out.new.items ≡ out.old.items ++ canonical_link identity.now) }
    ensures begun { OnErr result (BeginsWith out.new.items out.old.items) }
{
    append_link(out, CANONICAL_STEM.as_bytes(), identity)
}

/// Returns the canonical link of the identity, which has the stem `CANONICAL_STEM` (GS1 Digital Link URI Syntax, section 5).
/// Fails only with `Memory`.
pub fn canonical(alloc: Global, identity: &Identity<'_>) -> Result<Text, Memory>
    ensures { IfOk result (λ text. text ≡ canonical_link identity.now) }
{
    spell(alloc, CANONICAL_STEM.as_bytes(), identity)
}

/// States that two identities made with one table are equal if and only if their canonical links are equal bytes.
pub fn one_link_each(table: &AiTable)
    ensures { (a b : Elements) → IsMadeWith table.now a → IsMadeWith table.now b
        → (a ≡ b) ↔ (canonical_link a ≡ canonical_link b) }
{
    // only for the proof: the rows of the table satisfy its rules
    let _ = table.rows();
}
