ghost use Rattle.std.specs.Prelude.{◌≡◌, ◌++◌, OnOk, codes, ◌∷◌};
ghost use Rattle.tdl_messages.specs.Rejections.{anchor_text, link_text_text};
ghost use Rattle.tdl_messages.specs.Rejections.{place_text, store_text, classes_text};
ghost use Rattle.gs_translate.specs.Reasons.{numbered, numbered_twice};

use crate::answer_lines::append_words;
use crate::rejections::append_form;
use gs_chars::Memory;
use gs_class::ClassLoadFault;
use gs_links::{AnchorWhy, StoreFault};
use gs_linktext_grammar::LinkTextFault;
use gs_template::PlaceFault;
use gs_translate::{
    Reason, append_ident, append_number, append_numbered, append_numbered_twice, append_reason,
    append_word,
};
use std::alloc::Global;

/// Appends why an anchor is invalid.
fn append_anchor(alloc: Global, out: &mut Vec<u8>, why: &AnchorWhy) -> Result<(), Memory>
    ensures { OnOk result (out.new.items ≡ out.old.items ++ anchor_text why.now) }
{
    match why {
        AnchorWhy::Link(error) => append_reason(alloc, out, &Reason::from(*error)),
        AnchorWhy::Ident(error) => append_ident(out, error),
        AnchorWhy::Attributes => append_word(out, b"attributes"),
    }
}

/// Appends the context of an invalid anchor, and why it is invalid.
fn append_bad_anchor(
    alloc: Global,
    out: &mut Vec<u8>,
    i: usize,
    why: &AnchorWhy,
) -> Result<(), Memory>
    ensures { OnOk result (out.new.items
        ≡ out.old.items ++ (numbered (codes "bad-anchor") i ++ 32 ∷ anchor_text why.now)) }
{
    append_numbered(alloc, out, b"bad-anchor", i)?;
    append_word(out, b" ")?;
    append_anchor(alloc, out, why)
}

/// Appends the context, the relation and the target of an invalid `href`.
fn append_bad_href(
    alloc: Global,
    out: &mut Vec<u8>,
    i: usize,
    r: usize,
    t: usize,
) -> Result<(), Memory>
    ensures { OnOk result (out.new.items
        ≡ out.old.items ++ numbered (numbered_twice (codes "bad-href") i r) t) }
{
    append_numbered_twice(alloc, out, b"bad-href", i, r)?;
    append_number(alloc, out, t)
}

/// Appends an error of a linkset as a store of links.
pub fn append_store(alloc: Global, out: &mut Vec<u8>, error: &StoreFault) -> Result<(), Memory>
    ensures { OnOk result (out.new.items ≡ out.old.items ++ store_text error.now) }
{
    match error {
        StoreFault::TooMany => append_word(out, b"too-many"),
        StoreFault::BadAnchor(i, why) => append_bad_anchor(alloc, out, *i, why),
        StoreFault::BadHref(i, r, t) => append_bad_href(alloc, out, *i, *r, *t),
        StoreFault::Memory => append_word(out, b"memory"),
    }
}

/// Appends an error of a linkset as text.
pub fn append_link_text(
    alloc: Global,
    out: &mut Vec<u8>,
    error: LinkTextFault,
) -> Result<(), Memory>
    ensures { OnOk result (out.new.items ≡ out.old.items ++ link_text_text error) }
{
    match error {
        LinkTextFault::Syntax => append_word(out, b"text syntax"),
        LinkTextFault::Anchor(i) => append_numbered(alloc, out, b"text anchor", i),
        LinkTextFault::Rel(i) => append_numbered(alloc, out, b"text rel", i),
        LinkTextFault::Memory => append_word(out, b"text memory"),
    }
}

/// Appends an error of the template that the reference of a link is.
pub fn append_place_of(
    alloc: Global,
    out: &mut Vec<u8>,
    i: usize,
    error: PlaceFault,
) -> Result<(), Memory>
    ensures { OnOk result (out.new.items ≡ out.old.items ++ place_text i error) }
{
    match error {
        PlaceFault::Brace(at) => append_numbered_twice(alloc, out, b"brace", i, at),
        PlaceFault::Code(at) => append_numbered_twice(alloc, out, b"place", i, at),
    }
}

/// Appends the first pair of classes that shares a text, and such a text.
fn append_ambiguous(
    alloc: Global,
    out: &mut Vec<u8>,
    first: usize,
    second: usize,
    text: &[u8],
) -> Result<(), Memory>
    ensures { OnOk result (out.new.items
        ≡ out.old.items ++ (numbered_twice (codes "ambiguous") first second ++ 32 ∷ text.now)) }
{
    append_numbered_twice(alloc, out, b"ambiguous", first, second)?;
    append_words(out, b" ", text)
}

/// Appends an error of classes.
pub fn append_classes(
    alloc: Global,
    out: &mut Vec<u8>,
    error: &ClassLoadFault,
) -> Result<(), Memory>
    ensures { OnOk result (out.new.items ≡ out.old.items ++ classes_text error.now) }
{
    match error {
        ClassLoadFault::Json(error) => append_form(out, error),
        ClassLoadFault::Version => append_word(out, b"version"),
        ClassLoadFault::Limit => append_word(out, b"limit"),
        ClassLoadFault::BadItem(i, k) => append_numbered_twice(alloc, out, b"bad-item", *i, *k),
        ClassLoadFault::Size(i) => append_numbered(alloc, out, b"size", *i),
        ClassLoadFault::Mismatch(i) => append_numbered(alloc, out, b"mismatch", *i),
        ClassLoadFault::Duplicate(j, i) => append_numbered_twice(alloc, out, b"duplicate", *j, *i),
        ClassLoadFault::Ambiguous { i, j, text } => {
            append_ambiguous(alloc, out, *i, *j, text.as_bytes())
        }
        ClassLoadFault::Memory => append_word(out, b"memory"),
    }
}
