ghost use Rattle.std.specs.Prelude.{◌≡◌, map, not, position};
ghost use Rattle.std.specs.List.{list_all, list_any};
ghost use Rattle.gs_linktext_grammar.specs.Bytes.{is_blank, is_target_byte, is_token};
ghost use Rattle.gs_linktext_grammar.specs.Lexemes.{are_some};
ghost use Rattle.gs_linktext.specs.Lent.{seen};
ghost use Rattle.gs_linktext.specs.Links.{is_language_byte};
ghost use Rattle.gs_linktext.specs.Spelling.{cannot_spell, has_unspellable_language, is_unspellable_attr, is_unspellable_href, is_unspellable_name, is_unspellable_text, is_unspellable_type, is_unspellable_value, is_upper};

use crate::attrs::is_language_byte;
use crate::writer::LentLink;
use gs_chars::Text;
use gs_linkset::{Attr, AttrValue};
use gs_linktext_grammar::{is_blank, is_quotable, is_target_byte, is_token};

/// Returns whether each byte is allowed between `<` and `>`.
fn are_target_bytes(href: &[u8]) -> bool
    ensures { result ≡ list_all is_target_byte href.now }
{
    href.iter().all(|c| is_target_byte(*c))
}

/// Returns whether a target URI is empty, or has a byte that is not allowed between `<` and `>`.
fn is_unspellable_href(href: &[u8]) -> bool
    ensures { result ≡ is_unspellable_href href.now }
{
    let spellable = !href.is_empty() && are_target_bytes(href);
    !spellable
}

/// Returns whether a text has a blank.
fn has_blank(text: &[u8]) -> bool
    ensures { result ≡ list_any is_blank text.now }
{
    text.iter().any(|c| is_blank(*c))
}

/// Returns whether a relation type is empty, or has a blank.
fn is_unspellable_type(name: &[u8]) -> bool
    ensures { result ≡ is_unspellable_type name.now }
{
    name.is_empty() || has_blank(name)
}

/// Returns whether a text has a byte that cannot be in a quoted string.
fn is_unspellable_text(text: &[u8]) -> bool
    ensures { result ≡ is_unspellable_text text.now }
{
    text.iter().any(|c| !is_quotable(*c))
}

/// Returns whether a name has an upper-case letter.
fn has_upper(name: &[u8]) -> bool
    ensures { result ≡ list_any is_upper name.now }
{
    name.iter().any(|c| c.is_ascii_uppercase())
}

/// Returns whether each byte is one of a token.
fn are_tokens(name: &[u8]) -> bool
    ensures { result ≡ list_all is_token name.now }
{
    name.iter().all(|c| is_token(*c))
}

/// Returns whether a name is empty, or has a byte that no name has.
fn is_no_name(name: &[u8]) -> bool
    ensures { result ≡ not (are_some is_token name.now) }
{
    let token = !name.is_empty() && are_tokens(name);
    !token
}

/// Returns whether a name is not that of an attribute that can be spelled.
fn is_unspellable_name(name: &[u8]) -> bool
    ensures { result ≡ is_unspellable_name name.now }
{
    is_no_name(name) || has_upper(name) || name == b"rel".as_slice() || name == b"anchor".as_slice()
}

/// Returns whether the language of a text has a byte that none has.
fn has_unspellable_language(pair: &(Text, Text)) -> bool
    ensures { result ≡ has_unspellable_language pair.now }
{
    pair.1.as_bytes().iter().any(|c| !is_language_byte(*c))
}

/// Returns whether one of the texts cannot be quoted.
fn has_unspellable_text(texts: &[Text]) -> bool
    ensures { result ≡ list_any is_unspellable_text texts.now }
{
    texts
        .iter()
        .any(|text| is_unspellable_text(text.as_bytes()))
}

/// Returns whether one of the texts has a language that cannot be spelled.
fn has_unspellable_pair(pairs: &[(Text, Text)]) -> bool
    ensures { result ≡ list_any has_unspellable_language pairs.now }
{
    pairs.iter().any(|pair| has_unspellable_language(pair))
}

/// Returns whether a value has an empty list, or a text or a language that cannot be spelled.
fn is_unspellable_value(value: &AttrValue) -> bool
    ensures { result ≡ is_unspellable_value value.now }
{
    match value {
        AttrValue::One(text) => is_unspellable_text(text.as_bytes()),
        AttrValue::Many(texts) => {
            let texts = texts.items();
            texts.is_empty() || has_unspellable_text(texts)
        }
        AttrValue::Tagged(pairs) => {
            let pairs = pairs.items();
            pairs.is_empty() || has_unspellable_pair(pairs)
        }
    }
}

/// Returns whether an attribute cannot be spelled.
fn is_unspellable_attr(attr: &Attr) -> bool
    ensures { result ≡ is_unspellable_attr attr.now }
{
    is_unspellable_name(attr.name.as_bytes()) || is_unspellable_value(&attr.value)
}

/// Returns whether one of the attributes cannot be spelled.
fn has_unspellable_attr(attrs: &[Attr]) -> bool
    ensures { result ≡ list_any is_unspellable_attr attrs.now }
{
    attrs.iter().any(|attr| is_unspellable_attr(attr))
}

/// Returns whether a link cannot be spelled.
fn cannot_spell(link: &LentLink<'_>) -> bool
    ensures { result ≡ cannot_spell (seen link.now) }
{
    is_unspellable_href(link.target.href.as_bytes())
        || is_unspellable_type(link.relation)
        || is_unspellable_text(link.relation)
        || is_unspellable_text(link.anchor)
        || has_unspellable_attr(link.target.attrs.items())
}

/// Returns the number of the first link that cannot be spelled.
fn position_of_unspellable(links: &[LentLink<'_>]) -> Option<usize>
    ensures { result ≡ position (λ link. cannot_spell (seen link)) links.now }
{
    links.iter().position(|link| cannot_spell(link))
}

/// Returns the number of the first link of a document that cannot be spelled.
pub(crate) fn first_unspellable(links: &[LentLink<'_>]) -> Option<usize>
    ensures { result ≡ position cannot_spell (map seen links.now) }
{
    position_of_unspellable(links)
}
