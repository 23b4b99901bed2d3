ghost use Rattle.std.specs.Prelude.{◌≡◌, IfOk, Ok, false, map, true};
ghost use Rattle.std.specs.List.{list_all};
ghost use Rattle.gs_http.specs.References.{document_for, reference_for};
ghost use Rattle.gs_http.specs.Forms.{in_json, rendered_as, text_or_json};

use gs_chars::{CowText, List, Memory, Text};
use gs_ident::Identity;
use gs_linkset::{Context, LinkDoc, Relation, Target};
use gs_linktext::LinkTextWriteFault;
use gs_template::expand;
use std::alloc::Global;

/// Returns the target URI of a link for an identity. If target URIs are templates, its places are filled by the identity's
/// values, as `gs_template::expand` fills them. Otherwise it is the link's own, which needs no memory. Fails only with `Memory`.
pub fn reference_for<'a>(
    alloc: Global,
    templates: bool,
    identity: &Identity<'_>,
    href: &'a [u8],
) -> Result<CowText<'a>, Memory>
    ensures reference { IfOk result (λ reference. reference
        ≡ reference_for templates identity.now href.now) }
    ensures own { templates ≡ false → result ≡ Ok href.now }
{
    if !templates {
        return Ok(CowText::lent(href));
    }
    Ok(expand(alloc, href, identity)?.into())
}

/// A value with target URIs that an identity's values fill.
trait Template: Drop {
    ghost use Rattle.std.specs.Prelude.{Bool};
    ghost use Rattle.gs_ident.specs.Elements.{Elements};

    /// The value with its target URIs filled.
    ghost filled: { Elements → Self → Self };

    /// Whether it has the shape of a linkset's part.
    ghost shape: { Self → Bool };

    /// Returns the value with its target URIs filled.
    fn fill(self, alloc: Global, identity: &Identity<'_>) -> Result<Self, Memory>
        ensures value { IfOk result (λ made. made ≡ filled identity.now self) }
        ensures shape { IfOk result (λ made. shape self ≡ true → shape made ≡ true) };
}

/// Returns a list with the references of its items filled.
fn fill_all<T: Template>(
    alloc: Global,
    identity: &Identity<'_>,
    things: List<T>,
) -> Result<List<T>, Memory>
    ensures value { IfOk result (λ made. made ≡ map (T.filled identity.now) things) }
    ensures shape { IfOk result (λ made. list_all T.shape things ≡ true → list_all T.shape made ≡ true) }
{
    let mut made = Vec::new(alloc);
    for thing in things.into_vec() {
        made.push(thing.fill(alloc, identity)?)?;
    }
    Ok(List::from_vec(made))
}

impl Template for Target {
    ghost use Rattle.gs_linkset.specs.LinkShapes.{is_target};
    ghost use Rattle.gs_http.specs.References.{target_for};

    ghost filled = { target_for };

    ghost shape = { is_target };

    #[tactic(auto, unfolding(gs_linkset::specs::LinkShapes::is_target))]
    fn fill(self, alloc: Global, identity: &Identity<'_>) -> Result<Target, Memory> {
        let mut target = self;
        target.href = expand(alloc, target.href.as_bytes(), identity)?;
        Ok(target)
    }
}

impl Template for Relation {
    ghost use Rattle.gs_linkset.specs.LinkShapes.{is_relation};
    ghost use Rattle.gs_http.specs.References.{relation_for};

    ghost filled = { relation_for };

    ghost shape = { is_relation };

    #[tactic(auto, unfolding(gs_linkset::specs::LinkShapes::is_relation))]
    fn fill(self, alloc: Global, identity: &Identity<'_>) -> Result<Relation, Memory> {
        let Relation { name, targets } = self;
        let targets = fill_all(alloc, identity, targets)?;
        Ok(Relation { name, targets })
    }
}

impl Template for Context {
    ghost use Rattle.gs_linkset.specs.LinkShapes.{is_context};
    ghost use Rattle.gs_http.specs.References.{context_for};

    ghost filled = { context_for };

    ghost shape = { is_context };

    #[tactic(auto, unfolding(gs_linkset::specs::LinkShapes::is_context), using(crate::proofs::DocumentLemmas::same_names))]
    fn fill(self, alloc: Global, identity: &Identity<'_>) -> Result<Context, Memory> {
        let Context { anchor, relations } = self;
        let relations = fill_all(alloc, identity, relations)?;
        Ok(Context { anchor, relations })
    }
}

/// Returns the document for an identity. If target URIs are templates, the identity's values fill each place, as
/// `gs_template::expand` fills them, and all other bytes are unchanged. Otherwise returns the given document. Moves unchanged
/// parts, so that it copies nothing of the document. Fails only with `Memory`.
pub fn document_for(
    alloc: Global,
    templates: bool,
    identity: &Identity<'_>,
    doc: LinkDoc,
) -> Result<LinkDoc, Memory>
    ensures document { IfOk result (λ made. made ≡ document_for templates identity.now doc) }
    ensures own { templates ≡ false → result ≡ Ok doc }
{
    if !templates {
        return Ok(doc);
    }
    let contexts = fill_all(alloc, identity, doc.into_contexts())?;
    Ok(LinkDoc::of_contexts(contexts))
}

/// The form of a linkset (RFC 9264, section 4).
#[derive(Clone, Copy, Debug)]
pub enum LinksetForm {
    /// JSON: the media type is `application/linkset+json`.
    Json,
    /// Text in the syntax of the `Link` field: the media type is `application/linkset`.
    Text,
}

/// A linkset in the form that is sent.
#[derive(Drop)]
pub struct Rendered {
    /// Its form.
    pub form: LinksetForm,
    /// Its bytes.
    pub text: Text,
}

/// Returns a document as JSON.
fn in_json(alloc: Global, doc: &LinkDoc) -> Result<Rendered, Memory>
    ensures { IfOk result (λ made. made ≡ in_json doc.now) }
{
    Ok(Rendered {
        form: LinksetForm::Json,
        text: gs_linkset::write(alloc, doc)?,
    })
}

/// Returns a document as text if each of its links can be spelled, otherwise as JSON.
fn text_or_json(alloc: Global, doc: &LinkDoc) -> Result<Rendered, Memory>
    ensures { IfOk result (λ made. made ≡ text_or_json doc.now) }
{
    match gs_linktext::write(alloc, doc) {
        Ok(text) => Ok(Rendered {
            form: LinksetForm::Text,
            text,
        }),
        Err(LinkTextWriteFault::CannotSpell(_)) => in_json(alloc, doc),
        Err(LinkTextWriteFault::Memory) => Err(Memory),
    }
}

/// Returns the document in the requested form, or in JSON if that is text and some link cannot be spelled (`gs_linktext::write`
/// defines which). Writes each form once, and only if it is sent. Fails only with `Memory`.
pub fn render(alloc: Global, form: LinksetForm, doc: &LinkDoc) -> Result<Rendered, Memory>
    ensures { IfOk result (λ made. made ≡ rendered_as form doc.now) }
{
    match form {
        LinksetForm::Json => in_json(alloc, doc),
        LinksetForm::Text => text_or_json(alloc, doc),
    }
}
