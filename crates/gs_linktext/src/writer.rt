ghost use Rattle.std.specs.Prelude.{◌≡◌, ◌++◌, ◌∷◌, [], IfOk, IfErr, map, position, None};
ghost use Rattle.std.specs.List.{flat_map};
ghost use Rattle.gs_linkset.specs.LentLinks.{context_lent, relation_lent};
ghost use Rattle.gs_linkset.specs.LinkShapes.{links_of_document, links_of_context, links_of_relation};
ghost use Rattle.gs_linktext.specs.Lent.{seen};
ghost use Rattle.gs_linktext.specs.Spelling.{cannot_spell, quoted, quoted_byte, spelled, spelled_attr, spelled_behind};
ghost use Rattle.gs_linktext.specs.Spelling.{spelled_link, spelled_links, spelled_pair, spelled_text, spelled_types};
ghost use Rattle.gs_linktext.specs.WriteAnswers.{IsUnspellable};

use crate::spellable::first_unspellable;
use gs_chars::{Memory, Text};
use gs_ident::append_escaped;
use gs_linkset::{Attr, AttrValue, Context, ContextRef, LinkDoc, Relation, RelationRef, Target};
use std::alloc::Global;
use thiserror::Error;

/// Why a linkset cannot be spelled as text. Links are counted from 0, in the order of the document.
#[derive(Clone, Copy, Debug, PartialEq, Error)]
pub enum LinkTextWriteFault {
    /// The link at this index cannot be spelled.
    #[error("link {0} cannot be written as text")]
    CannotSpell(usize),
    /// Out of memory.
    #[error("out of memory")]
    Memory,
}

impl From<Memory> for LinkTextWriteFault {
    ghost use Rattle.gs_linktext.specs.declared.writer.LinkTextWriteFault.TheVariants.{Memory as memory};

    ghost from_gives = { λ _ e. e ≡ memory };

    fn from(_error: Memory) -> LinkTextWriteFault {
        LinkTextWriteFault::Memory
    }
}

/// Appends a byte of a quoted string.
fn write_quoted_byte(out: &mut Vec<u8>, c: u8) -> Result<(), Memory>
    ensures { IfOk result (λ _. out.new.items ≡ out.old.items ++ quoted_byte c) }
{
    if c == b'"' || c == b'\\' {
        out.push(b'\\')?;
        out.push(c)?;
        return Ok(());
    }
    out.push(c)?;
    Ok(())
}

/// Appends the bytes of a quoted string.
fn write_quoted_bytes(out: &mut Vec<u8>, text: &[u8]) -> Result<(), Memory>
    ensures { IfOk result (λ _. out.new.items ≡ out.old.items ++ flat_map quoted_byte text.now) }
{
    for c in text {
        write_quoted_byte(out, *c)?;
    }
    Ok(())
}

/// Appends a text as a quoted string.
fn write_quoted(out: &mut Vec<u8>, text: &[u8]) -> Result<(), Memory>
    ensures { IfOk result (λ _. out.new.items ≡ out.old.items ++ quoted text.now) }
{
    out.push(b'"')?;
    write_quoted_bytes(out, text)?;
    out.push(b'"')?;
    Ok(())
}

/// Appends a parameter with a quoted value.
fn write_text(out: &mut Vec<u8>, name: &[u8], text: &[u8]) -> Result<(), Memory>
    ensures { IfOk result (λ _. out.new.items ≡ out.old.items ++ spelled_text name.now text.now) }
{
    out.extend_from_slice(b"; ")?;
    out.extend_from_slice(name)?;
    out.push(b'=')?;
    write_quoted(out, text)
}

/// Appends a parameter with a text and its language.
fn write_pair(out: &mut Vec<u8>, name: &[u8], pair: &(Text, Text)) -> Result<(), Memory>
    ensures { IfOk result (λ _. out.new.items ≡ out.old.items ++ spelled_pair name.now pair.now) }
{
    out.extend_from_slice(b"; ")?;
    out.extend_from_slice(name)?;
    out.extend_from_slice(b"=UTF-8'")?;
    out.extend_from_slice(pair.1.as_bytes())?;
    out.push(b'\'')?;
    append_escaped(out, pair.0.as_bytes())
}

/// Appends a parameter for each text.
fn write_texts(out: &mut Vec<u8>, name: &[u8], texts: &[Text]) -> Result<(), Memory>
    ensures { IfOk result (λ _. out.new.items
        ≡ out.old.items ++ flat_map (spelled_text name.now) texts.now) }
{
    for text in texts {
        write_text(out, name, text.as_bytes())?;
    }
    Ok(())
}

/// Appends a parameter for each text and its language.
fn write_pairs(out: &mut Vec<u8>, name: &[u8], pairs: &[(Text, Text)]) -> Result<(), Memory>
    ensures { IfOk result (λ _. out.new.items
        ≡ out.old.items ++ flat_map (spelled_pair name.now) pairs.now) }
{
    for pair in pairs {
        write_pair(out, name, pair)?;
    }
    Ok(())
}

/// Appends the parameters of an attribute.
fn write_attr(out: &mut Vec<u8>, attr: &Attr) -> Result<(), Memory>
    ensures { IfOk result (λ _. out.new.items ≡ out.old.items ++ spelled_attr attr.now) }
{
    let name = attr.name.as_bytes();
    match &attr.value {
        AttrValue::One(text) => write_text(out, name, text.as_bytes()),
        AttrValue::Many(texts) => write_texts(out, name, texts.items()),
        AttrValue::Tagged(pairs) => write_pairs(out, name, pairs.items()),
    }
}

/// Appends the parameters of attributes.
fn write_attrs(out: &mut Vec<u8>, attrs: &[Attr]) -> Result<(), Memory>
    ensures { IfOk result (λ _. out.new.items ≡ out.old.items ++ flat_map spelled_attr attrs.now) }
{
    for attr in attrs {
        write_attr(out, attr)?;
    }
    Ok(())
}

/// Appends the relation type and the anchor of a link.
fn write_types(out: &mut Vec<u8>, relation: &[u8], anchor: &[u8]) -> Result<(), Memory>
    ensures { IfOk result (λ _. out.new.items ≡ out.old.items ++ spelled_types relation.now anchor.now) }
{
    out.extend_from_slice(b">; rel=")?;
    write_quoted(out, relation)?;
    out.extend_from_slice(b"; anchor=")?;
    write_quoted(out, anchor)
}

/// Appends a link.
fn write_lent_link(out: &mut Vec<u8>, link: &LentLink<'_>) -> Result<(), Memory>
    ensures { IfOk result (λ _. out.new.items ≡ out.old.items ++ spelled_link (seen link.now)) }
{
    out.push(b'<')?;
    out.extend_from_slice(link.target.href.as_bytes())?;
    write_types(out, link.relation, link.anchor)?;
    write_attrs(out, link.target.attrs.items())
}

/// Appends links after another.
fn write_behind(out: &mut Vec<u8>, links: &[LentLink<'_>]) -> Result<(), Memory>
    ensures { IfOk result (λ _. out.new.items
        ≡ out.old.items ++ flat_map spelled_behind (map seen links.now)) }
{
    for link in links {
        out.extend_from_slice(b",\n")?;
        write_lent_link(out, link)?;
    }
    Ok(())
}

/// Appends links.
fn write_links(out: &mut Vec<u8>, links: &[LentLink<'_>]) -> Result<(), Memory>
    ensures { IfOk result (λ _. out.new.items ≡ out.old.items ++ spelled_links (map seen links.now)) }
{
    let Some((first, behind)) = links.split_first() else {
        return Ok(());
    };
    write_lent_link(out, first)?;
    write_behind(out, behind)
}

/// Returns the text of links, or the first that text cannot hold. It keeps no more memory than the text's.
fn text_of(alloc: Global, links: &[LentLink<'_>]) -> Result<Text, LinkTextWriteFault>
    ensures spelled { IfOk result (λ text. text ≡ spelled_links (map seen links.now)) }
    ensures spellable { IfOk result (λ _. position cannot_spell (map seen links.now) ≡ None) }
    ensures rejected { IfErr result (IsUnspellable (map seen links.now)) }
{
    if let Some(i) = first_unspellable(links) {
        return Err(LinkTextWriteFault::CannotSpell(i));
    }
    let mut out = Vec::new(alloc);
    write_links(&mut out, links)?;
    out.shrink_to_fit();
    Ok(Text::from_vec(out))
}

/// Returns the text of a linkset (RFC 9264, section 4.1). Each link has the target URI, the relation type, the anchor and the
/// attributes, in the order of the document. A comma and a line break separate two links.
///
/// `CannotSpell` names the first link, counted from 0 in the order of the document, that text cannot hold, for one of these reasons:
///
/// - Its target URI is empty or has a byte that is not allowed between `<` and `>`.
/// - Its relation type is empty or has white space.
/// - One of its quoted texts has the byte 127, or one below 32 that is not 9.
/// - An attribute's name is not a name of the grammar, has an upper-case letter, or is `rel` or `anchor`.
/// - An attribute has an empty list.
/// - A language has a byte other than letters, digits and `-`.
///
/// May return `Memory` instead. The time is linear in the bytes of the text.
pub fn write(alloc: Global, doc: &LinkDoc) -> Result<Text, LinkTextWriteFault>
    ensures spelled { IfOk result (λ text. text ≡ spelled doc.now) }
    ensures spellable { IfOk result (λ _. position cannot_spell (links_of_document doc.now) ≡ None) }
    ensures rejected { IfErr result (IsUnspellable (links_of_document doc.now)) }
{
    let links = lent_links(alloc, doc.contexts())?;
    text_of(alloc, links.as_slice())
}

/// Returns the text of the linkset of one context, as `write` does, and copies none of its links. May return `Memory` instead.
pub fn write_context(alloc: Global, context: &ContextRef<'_>) -> Result<Text, LinkTextWriteFault>
    ensures spelled { IfOk result (λ text. text ≡ spelled (context_lent context.now ∷ [])) }
    ensures spellable { IfOk result
        (λ _. position cannot_spell (links_of_document (context_lent context.now ∷ [])) ≡ None) }
    ensures rejected { IfErr result (IsUnspellable (links_of_document (context_lent context.now ∷ []))) }
{
    let links = links_of_context(alloc, context)?;
    text_of(alloc, links.as_slice())
}

/// A link of a document: its anchor, its relation type and its target.
#[derive(Clone, Copy)]
pub(crate) struct LentLink<'a> {
    pub(crate) anchor: &'a [u8],
    pub(crate) relation: &'a [u8],
    pub(crate) target: &'a Target,
}

/// Adds the links of a relation.
fn push_relation<'a>(
    links: &mut Vec<LentLink<'a>>,
    anchor: &'a [u8],
    relation: &'a Relation,
) -> Result<(), Memory>
    ensures { IfOk result (λ _. map seen links.new.items
        ≡ map seen links.old.items ++ links_of_relation anchor.now relation.now) }
{
    let name = relation.name.as_bytes();
    for target in relation.targets.items() {
        links.push(LentLink {
            anchor,
            relation: name,
            target,
        })?;
    }
    Ok(())
}

/// Adds the links of a context.
fn push_context<'a>(links: &mut Vec<LentLink<'a>>, context: &'a Context) -> Result<(), Memory>
    ensures { IfOk result (λ _. map seen links.new.items
        ≡ map seen links.old.items ++ links_of_context context.now) }
{
    let anchor = context.anchor.as_bytes();
    for relation in context.relations.items() {
        push_relation(links, anchor, relation)?;
    }
    Ok(())
}

/// Returns the links of contexts, in their order.
fn lent_links(alloc: Global, contexts: &[Context]) -> Result<Vec<LentLink<'_>>, Memory>
    ensures { IfOk result (λ links. map seen links.items ≡ links_of_document contexts.now) }
{
    let mut links = Vec::new(alloc);
    for context in contexts {
        push_context(&mut links, context)?;
    }
    Ok(links)
}

/// Adds the links of a relation that is lent.
fn push_lent<'a>(
    links: &mut Vec<LentLink<'a>>,
    anchor: &'a [u8],
    relation: &RelationRef<'a>,
) -> Result<(), Memory>
    ensures { IfOk result (λ _. map seen links.new.items
        ≡ map seen links.old.items ++ links_of_relation anchor.now (relation_lent relation.now)) }
{
    let name = relation.name.as_bytes();
    for target in relation.targets {
        links.push(LentLink {
            anchor,
            relation: name,
            target,
        })?;
    }
    Ok(())
}

/// Returns the links of a context that is lent, in their order.
fn links_of_context<'a>(
    alloc: Global,
    context: &ContextRef<'a>,
) -> Result<Vec<LentLink<'a>>, Memory>
    ensures { IfOk result (λ links.
        map seen links.items ≡ links_of_document (context_lent context.now ∷ [])) }
{
    let anchor = context.anchor.as_bytes();
    let mut links = Vec::new(alloc);
    for relation in context.relations {
        push_lent(&mut links, anchor, relation)?;
    }
    Ok(links)
}
