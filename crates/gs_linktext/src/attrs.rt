ghost use Rattle.std.specs.Prelude.{◌≡◌, ◌++◌, [], ◌≤◌, length, IfOk, IfSome, true, codes, map, slice_get};
ghost use Rattle.std.specs.Char.{to_ascii_lowercase};
ghost use Rattle.std.specs.Option.{option_map};
ghost use Rattle.gs_linkset.specs.declared.link_types.AttrValue.TheVariants.{One};
ghost use Rattle.gs_linktext.specs.Groups.{is_one};
ghost use Rattle.std.specs.List.{cons_option, filter_map, list_all, prefix_len};
ghost use Rattle.std.specs.Str.{bytes_eq, is_utf8};
ghost use Rattle.gs_linkset.specs.Attributes.{is_tagged};
ghost use Rattle.gs_linkset.specs.LinkShapes.{is_tagged_text, is_value};
ghost use Rattle.gs_linktext_grammar.specs.Bytes.{after_prefix, prefix_of};
ghost use Rattle.gs_linktext.specs.Links.{attr_value, attr_with, is_language_byte, is_reserved, tagged_by, tagged_text, IsAttributes};
ghost use Rattle.gs_linktext.specs.Groups.{attrs_of_entries};

use crate::groups::groups_of;
use gs_chars::{List, Memory, Text};
use gs_dlink::decoded;
use gs_linkset::{Attr, AttrValue, is_single};
use gs_linktext_grammar::{CheckedText, Param, is_utf8};
use std::alloc::Global;
use std::collections::BTreeMap;

/// Returns whether the name is that of an internationalized attribute.
fn is_tagged(name: &[u8]) -> bool
    ensures { result ≡ is_tagged name.now }
{
    name.ends_with(b"*")
}

/// Returns whether the name is that of no attribute.
fn is_reserved(name: &[u8]) -> bool
    ensures { result ≡ is_reserved name.now }
{
    name == b"rel".as_slice() || name == b"anchor".as_slice() || name == b"href".as_slice()
}

/// Returns whether the byte is one of a language.
#[tactic(auto, unfolding(crate::specs::Links::is_language_byte))]
pub(crate) fn is_language_byte(c: u8) -> bool
    ensures { result ≡ is_language_byte c }
{
    matches!(c, b'-' | b'0'..=b'9' | b'A'..=b'Z' | b'a'..=b'z')
}

/// Returns the number of bytes of a language at the start of the text.
fn count_language_bytes(text: &[u8]) -> usize
    ensures number { result ≡ prefix_len is_language_byte text.now }
    ensures within { result ≤ length text.now }
{
    text.iter().take_while(|c| is_language_byte(**c)).count()
}

/// Returns the bytes of a language at the start of the text, and the rest.
#[tactic(auto, using(crate::proofs::LanguageLemmas::take_language, crate::proofs::LanguageLemmas::drop_language))]
fn split_language(text: &[u8]) -> (&[u8], &[u8])
    ensures prefix { result.0.now ≡ prefix_of is_language_byte text.now }
    ensures behind { result.1.now ≡ after_prefix is_language_byte text.now }
{
    text.split_at(count_language_bytes(text))
}

/// Returns a text and its language, after the name of the character set. `None` is returned if one is not UTF-8 or no mark is
/// between.
fn tagged_by(alloc: Global, language: &[u8], behind: &[u8]) -> Result<Option<(Text, Text)>, Memory>
    ensures value { IfOk result (λ pair. pair ≡ tagged_by language.now behind.now) }
    ensures shape { IfOk result (λ pair. IfSome pair (λ pair. is_tagged_text pair ≡ true)) }
{
    let Some((mark, text)) = behind.split_first() else {
        return Ok(None);
    };
    if *mark != b'\'' {
        return Ok(None);
    }
    let text = decoded(alloc, text)?;
    if is_utf8(text.as_bytes()) && is_utf8(language) {
        let language = Text::from_bytes(alloc, language)?;
        return Ok(Some((text, language)));
    }
    Ok(None)
}

/// Returns whether a text begins with the name of the character set and a mark, in either case.
fn names_utf8(prefix: &[u8]) -> bool
    ensures { result ≡ bytes_eq (map to_ascii_lowercase prefix.now) (codes "utf-8'") }
{
    prefix.eq_ignore_ascii_case(b"utf-8'")
}

/// Returns the text and the language of a value `UTF-8'LANG'TEXT`, or `None` if it does not have this form.
fn tagged_text(alloc: Global, value: &[u8]) -> Result<Option<(Text, Text)>, Memory>
    ensures value { IfOk result (λ pair. pair ≡ tagged_text value.now) }
    ensures shape { IfOk result (λ pair. IfSome pair (λ pair. is_tagged_text pair ≡ true)) }
{
    if value.len() < 6 {
        return Ok(None);
    }
    let (prefix, rest) = value.split_at(6);
    if !names_utf8(prefix) {
        return Ok(None);
    }
    let (language, behind) = split_language(rest);
    tagged_by(alloc, language, behind)
}

/// Returns the texts of tagged values, with their languages.
fn tagged_texts(alloc: Global, values: &[CheckedText]) -> Result<Vec<(Text, Text)>, Memory>
    ensures value { IfOk result (λ pairs. pairs.items ≡ filter_map tagged_text values.now) }
    ensures shape { IfOk result (λ pairs. list_all is_tagged_text pairs.items ≡ true) }
{
    let mut pairs = Vec::new(alloc);
    for value in values {
        let Some(pair) = tagged_text(alloc, value.as_bytes())? else {
            continue;
        };
        pairs.push(pair)?;
    }
    Ok(pairs)
}

/// Copies of the texts.
fn copies(alloc: Global, values: &[CheckedText]) -> Result<Vec<Text>, Memory>
    ensures value { IfOk result (λ texts. texts.items ≡ values.now) }
    ensures shape { IfOk result (λ texts. list_all is_utf8 texts.items ≡ true) }
{
    let mut texts = Vec::new(alloc);
    for value in values {
        texts.push(value.copy(alloc)?)?;
    }
    Ok(texts)
}

/// Returns the first of the texts, copied.
fn first_copy(alloc: Global, values: &[CheckedText]) -> Result<Option<AttrValue>, Memory>
    ensures value { IfOk result (λ value. value ≡ option_map One (slice_get values.now 0)) }
    ensures shape { IfOk result (λ value. IfSome value (λ value. is_one value ≡ true)) }
{
    let Some(first) = values.first() else {
        return Ok(None);
    };
    Ok(Some(AttrValue::One(first.copy(alloc)?)))
}

/// Returns the value of an attribute, from the values of its name, or `None` if they do not give one.
fn attr_value(
    alloc: Global,
    name: &[u8],
    values: &[CheckedText],
) -> Result<Option<AttrValue>, Memory>
    ensures value { IfOk result (λ value. value ≡ attr_value name.now values.now) }
    ensures shape { IfOk result (λ value. IfSome value (λ value. is_value name.now value ≡ true)) }
{
    if is_tagged(name) {
        let pairs = tagged_texts(alloc, values)?;
        if pairs.is_empty() {
            return Ok(None);
        }
        return Ok(Some(AttrValue::Tagged(List::from_vec(pairs))));
    }
    if is_single(name) {
        return first_copy(alloc, values);
    }
    let texts = copies(alloc, values)?;
    if texts.is_empty() {
        return Ok(None);
    }
    Ok(Some(AttrValue::Many(List::from_vec(texts))))
}

/// Returns the attribute of a name and its values, or `None` if they do not give one.
fn attr_with(
    alloc: Global,
    name: &CheckedText,
    values: &[CheckedText],
) -> Result<Option<Attr>, Memory>
    ensures { IfOk result (λ attr. attr ≡ attr_with name.now values.now) }
{
    if is_reserved(name.as_bytes()) {
        return Ok(None);
    }
    let Some(value) = attr_value(alloc, name.as_bytes(), values)? else {
        return Ok(None);
    };
    let name = name.copy(alloc)?;
    Ok(Some(Attr { name, value }))
}

/// Appends the attribute of a name and its values, if they give one.
fn push_attr(
    alloc: Global,
    attrs: &mut Vec<Attr>,
    name: &CheckedText,
    values: &[CheckedText],
) -> Result<(), Memory>
    ensures { IfOk result (λ _. attrs.new.items
        ≡ attrs.old.items ++ cons_option (attr_with name.now values.now) []) }
{
    let Some(attr) = attr_with(alloc, name, values)? else {
        return Ok(());
    };
    attrs.push(attr)?;
    Ok(())
}

/// Returns the attributes of names and their values, in the order of the map.
fn attrs_of_groups(
    alloc: Global,
    groups: BTreeMap<CheckedText, List<CheckedText>>,
) -> Result<Vec<Attr>, Memory>
    ensures { IfOk result (λ attrs. attrs.items ≡ attrs_of_entries groups.entries) }
{
    let mut groups = groups;
    let mut attrs = Vec::new(alloc);
    while let Some((name, values)) = groups.pop_first() {
        push_attr(alloc, &mut attrs, &name, values.items())?;
    }
    Ok(attrs)
}

/// Returns the attributes of parameters, in ascending order of their names.
#[tactic(auto, using(crate::proofs::AttrLemmas::attributes))]
pub(crate) fn attrs_of(alloc: Global, params: &[Param]) -> Result<List<Attr>, Memory>
    ensures { IfOk result (λ attrs. IsAttributes params.now attrs) }
{
    let groups = groups_of(alloc, params)?;
    let attrs = attrs_of_groups(alloc, groups)?;
    Ok(List::from_vec(attrs))
}
