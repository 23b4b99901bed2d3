ghost use Rattle.std.specs.Prelude.{◌≡◌, IfOk, option_map};
ghost use Rattle.percent_encoding.specs.Percent.{percent_decode};
ghost use Rattle.gs_http.specs.AcceptedForms.{accepted_form};
ghost use Rattle.gs_http.specs.LentValues.{asked_by, wished};
ghost use Rattle.gs_http.specs.Wishes.{wish_named, wish_of, wish_unnamed, is_link_type, link_type};
ghost use Rattle.std.specs.List.{find, slice_split};
ghost use Rattle.gs_dlink.specs.Uris.{separates_parts};

use crate::cuts::{before, behind, query_of};
use crate::documents::LinksetForm;
use crate::request::Request;
use crate::resolver::Resolver;
use gs_chars::{CowText, Memory, Text, after};
use gs_dlink::part_len;
use gs_links::expand;
use percent_encoding::percent_decode;
use std::alloc::Global;

/// Returns whether the part of a query is named `linkType`.
fn is_link_type(part: &[u8]) -> bool
    ensures { result ≡ is_link_type part.now }
{
    before(part, b'=') == b"linkType".as_slice()
}

/// Returns the first part of a query that is named `linkType`.
fn link_type_part(query: &[u8]) -> Option<&[u8]>
    ensures { option_map (λ part. part.now) result
        ≡ find is_link_type (slice_split separates_parts query.now) }
{
    let mut rest = query;
    loop {
        let end = part_len(rest);
        if is_link_type(&rest[..end]) {
            return Some(&rest[..end]);
        }
        if end == rest.len() {
            return None;
        }
        rest = after(rest, end);
    }
}

/// Returns the value of the first part of the target's query that is named `linkType`.
fn link_type(target: &[u8]) -> Option<&[u8]>
    ensures { option_map (λ value. value.now) result ≡ link_type target.now }
{
    let part = link_type_part(query_of(target))?;
    Some(behind(part, b'='))
}

/// The wish of a request.
#[derive(Drop)]
pub(crate) enum Wish<'a> {
    /// The links of a relation.
    Relation(CowText<'a>),
    /// A linkset in a form.
    Linkset(LinksetForm),
}

/// Returns the wish of a decoded link type.
fn wish_named<'a>(
    alloc: Global,
    voc: &[u8],
    request: &Request<'_>,
    value: Text,
) -> Result<Wish<'a>, Memory>
    ensures { IfOk result (λ wish. wished wish
        ≡ wish_named voc.now (accepted_form (asked_by request.now).fields) value) }
{
    let name = value.as_bytes();
    if name == b"linkset".as_slice() || name == b"all".as_slice() {
        return Ok(Wish::Linkset(request.said.form.unwrap_or(LinksetForm::Json)));
    }
    Ok(Wish::Relation(expand(alloc, voc, value)?.into()))
}

/// Returns the wish of a link type.
fn by_link_type<'a>(
    alloc: Global,
    voc: &[u8],
    request: &Request<'_>,
    value: &[u8],
) -> Result<Wish<'a>, Memory>
    ensures { IfOk result (λ wish. wished wish
        ≡ wish_named voc.now (accepted_form (asked_by request.now).fields) (percent_decode value.now)) }
{
    let mut decoded = Vec::new(alloc);
    percent_decode(value).append_to(&mut decoded)?;
    wish_named(alloc, voc, request, Text::from_vec(decoded))
}

/// Returns the wish without a link type, by the accepted form.
fn wish_unnamed<'r>(resolver: &'r Resolver<'_>, accepted: Option<LinksetForm>) -> Wish<'r>
    ensures { wished result ≡ wish_unnamed resolver.now.settings.voc accepted }
{
    match accepted {
        Some(form) => Wish::Linkset(form),
        None => Wish::Relation(CowText::lent(resolver.default_relation())),
    }
}

/// Returns the wish of a request.
#[tactic(auto, unfolding(crate::specs::Wishes::wish_of))]
pub(crate) fn wish_of<'r>(
    alloc: Global,
    resolver: &'r Resolver<'_>,
    request: &Request<'_>,
) -> Result<Wish<'r>, Memory>
    ensures { IfOk result (λ wish. wished wish ≡ wish_of resolver.now.settings.voc (asked_by request.now)) }
{
    match link_type(request.target) {
        Some(value) => by_link_type(alloc, resolver.settings().voc.as_bytes(), request, value),
        None => Ok(wish_unnamed(resolver, request.said.form)),
    }
}
