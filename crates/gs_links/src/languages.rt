ghost use Rattle.std.specs.Prelude.{◌≡◌, bytes_eq, codes};
ghost use Rattle.std.specs.List.{list_any};
ghost use Rattle.gs_links.specs.Languages.{is_any, is_cut, is_in_range, matches, tags_of, texts_of};

use crate::link::Link;
use gs_chars::Text;
use gs_linkset::AttrValue;

/// Returns the language tags of a value of `hreflang`.
fn texts_of(value: &AttrValue) -> &[Text]
    ensures { result.now ≡ texts_of value.now }
{
    match value {
        AttrValue::Many(texts) => texts.items(),
        AttrValue::One(_) => &[],
        AttrValue::Tagged(_) => &[],
    }
}

/// Returns whether an attribute gives the languages of its target.
fn is_hreflang(name: &[u8]) -> bool
    ensures { result ≡ bytes_eq name.now (codes "hreflang") }
{
    name == b"hreflang".as_slice()
}

/// Returns the language tags of a link.
pub(crate) fn tags_of(link: &Link) -> &[Text]
    ensures { result.now ≡ tags_of link.now }
{
    let attrs = link.target.attrs.items();
    for attr in attrs {
        if is_hreflang(attr.name.as_bytes()) {
            return texts_of(&attr.value);
        }
    }
    &[]
}

/// Returns whether a tag may end before these bytes.
fn is_cut(rest: &[u8]) -> bool
    ensures { result ≡ is_cut rest.now }
{
    match rest.first() {
        Some(byte) => *byte == b'-',
        None => true,
    }
}

/// Returns whether a tag is in a range.
fn is_in_range(range: &[u8], tag: &[u8]) -> bool
    ensures { result ≡ is_in_range range.now tag.now }
{
    if tag.len() < range.len() {
        return false;
    }
    let (front, rest) = tag.split_at(range.len());
    front.eq_ignore_ascii_case(range) && is_cut(rest)
}

/// Returns whether a range is that of every language.
fn is_any(range: &[u8]) -> bool
    ensures { result ≡ is_any range.now }
{
    range == b"*".as_slice()
}

/// Returns whether one of the tags is in a range.
fn is_one_in_range(range: &[u8], tags: &[Text]) -> bool
    ensures { result ≡ list_any (is_in_range range.now) tags.now }
{
    for tag in tags {
        if is_in_range(range, tag.as_bytes()) {
            return true;
        }
    }
    false
}

/// Returns whether a link matches a range.
#[tactic(auto, unfolding(crate::specs::Languages::matches))]
pub(crate) fn matches(range: &[u8], link: &Link) -> bool
    ensures { result ≡ matches range.now link.now }
{
    is_any(range) || is_one_in_range(range, tags_of(link))
}
