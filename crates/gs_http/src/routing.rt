ghost use Rattle.std.specs.Prelude.{◌≡◌, ◌≤◌, ◌<◌, ◌==◌, ◌||◌, All, IfOk, Ok, bytes_eq, codes, length};
ghost use Rattle.gs_ident.specs.Identities.{IsInOrder};
ghost use Rattle.gs_http.specs.References.{reference_for};
ghost use Rattle.gs_http.specs.Forms.{in_json, rendered_as, text_or_json};
ghost use Rattle.gs_links.specs.Choices.{chosen as chosen_numbers};
ghost use Rattle.gs_links.specs.Documents.{document_of, linked};
ghost use Rattle.gs_links.specs.Languages.{narrowed};
ghost use Rattle.gs_links.specs.declared.link.Want.{Want as Wanted};
ghost use Rattle.gs_http.specs.Answers.{answer_of, by_elements, by_pairs, by_relation, describe, redirect};
ghost use Rattle.gs_http.specs.Answers.{is_description, is_head, sent_document};
ghost use Rattle.gs_http.specs.LanguageRanges.{accepted_ranges};
ghost use Rattle.gs_http.specs.LentValues.{asked_by, said, wished};
ghost use Rattle.gs_http.specs.Lookups.{AreChosen, numbers_for};
ghost use Rattle.gs_http.specs.Sites.{room_for};
ghost use Rattle.gs_http.specs.Wishes.{for_relation};

use crate::answer::Answer;
use crate::cuts::path_of;
use crate::documents::{LinksetForm, Rendered, document_for, reference_for, render};
use crate::languages::accepted_ranges;
use crate::request::Request;
use crate::resolver::{Resolver, Settings};
use crate::wishes::{Wish, wish_of};
use gs_ai::Pair;
use gs_chars::Memory;
use gs_dlink::{LinkFault, read_target};
use gs_ident::{IdentFault, Identity, make};
use gs_links::{Link, Ranges, Want};
use gs_linktext::LinkTextWriteFault;
use std::alloc::Global;

/// Returns whether the method requests only the head of the reply.
pub(crate) fn is_head(method: &[u8]) -> bool
    ensures { result ≡ is_head method.now }
{
    method == b"HEAD".as_slice()
}

/// Returns whether the method is allowed.
fn is_allowed(method: &[u8]) -> bool
    ensures { result ≡ (bytes_eq method.now (codes "GET") || is_head method.now) }
{
    method == b"GET".as_slice() || is_head(method)
}

/// Returns whether the target is that of the resolver description file.
fn is_description(target: &[u8]) -> bool
    ensures { result ≡ is_description target.now }
{
    path_of(target) == b"/.well-known/gs1resolver".as_slice()
}

/// Returns the answer with the resolver description file, if there is one.
fn describe(settings: &Settings) -> Answer<'_>
    ensures { said result ≡ describe settings.now.describe }
{
    match &settings.describe {
        Some(text) => Answer::Description(text.as_bytes()),
        None => Answer::NotFound,
    }
}

/// Returns whether only one link is chosen.
fn has_one_link(chosen: &[u32]) -> bool
    ensures { result ≡ (length chosen.now == 1) }
{
    chosen.len() == 1
}

/// What a request asks a resolver for: the links of an identity that fit its wish.
#[derive(Clone, Copy)]
struct Lookup<'q, 'a, 't> {
    resolver: &'q Resolver<'a>,
    request: &'q Request<'q>,
    wish: &'q Wish<'q>,
    identity: &'q Identity<'t>,
}

impl<'q, 'a, 't> Lookup<'q, 'a, 't> {
    /// Keeps the chosen links in the first language that the request accepts and one of them has, or all if there is none. With
    /// nothing to choose, the languages are not read.
    fn narrow<'n>(
        &self,
        alloc: Global,
        chosen: &'n [u32],
        out: &'n mut [u32],
    ) -> Result<&'n [u32], Memory>
        requires chosen { (want : Wanted)
            × (chosen.now ≡ chosen_numbers self.now.resolver.now.links self.now.identity.now want) }
        requires room { length chosen.now ≤ length out.old }
        ensures { IfOk result (λ numbers. numbers.now ≡ narrowed self.now.resolver.now.links chosen.now
            (accepted_ranges (asked_by self.now.request.now).fields)) }
    {
        if chosen.len() <= 1 {
            return Ok(chosen);
        }
        let ranges = Ranges::new(alloc, accepted_ranges(alloc, self.request)?)?;
        let count = self.resolver.store().narrow(chosen, &ranges, out);
        Ok(&out[..count])
    }

    /// Returns the numbers of the links of a relation, in the accepted language.
    fn choose_relation<'n>(
        &self,
        alloc: Global,
        name: &[u8],
        room: &'n mut [u32],
    ) -> Result<&'n [u32], Memory>
        requires { room_for self.now.resolver.now.links ≤ length room.old }
        ensures { IfOk result (λ numbers. numbers.now
            ≡ numbers_for self.now.resolver.now.links (accepted_ranges (asked_by self.now.request.now).fields)
            self.now.identity.now (for_relation name.now)) }
    {
        let store = self.resolver.store();
        let (numbers, narrowed) = room.split_at_mut(store.len());
        let chosen = store.choose(self.identity, Want::Relation(name), numbers);
        self.narrow(alloc, &numbers[..chosen.count], narrowed)
    }

    /// Returns the numbers of the links that fit the wish: for a linkset those of all relations.
    fn choose<'n>(&self, alloc: Global, room: &'n mut [u32]) -> Result<&'n [u32], Memory>
        requires { room_for self.now.resolver.now.links ≤ length room.old }
        ensures { IfOk result (λ numbers. numbers.now
            ≡ numbers_for self.now.resolver.now.links (accepted_ranges (asked_by self.now.request.now).fields)
            self.now.identity.now (wished self.now.wish.now)) }
    {
        match self.wish {
            Wish::Relation(name) => self.choose_relation(alloc, name.as_bytes(), room),
            Wish::Linkset(_) => {
                let chosen = self.resolver.store().choose(self.identity, Want::All, room);
                Ok(&room[..chosen.count])
            }
        }
    }

    /// Returns the document of chosen links as JSON, with the links' own target URIs.
    fn own_json(&self, alloc: Global, chosen: &[u32]) -> Result<Rendered, Memory>
        requires chosen { AreChosen self.now.resolver.now.links self.now.identity.now chosen.now }
        requires some { 0 < length chosen.now }
        ensures { IfOk result (λ sent. sent
            ≡ in_json (document_of (linked self.now.resolver.now.links chosen.now))) }
    {
        let store = self.resolver.store();
        Ok(Rendered {
            form: LinksetForm::Json,
            text: store.write_document(alloc, self.identity, chosen)?,
        })
    }

    /// Returns the document of chosen links as text if each of them can be spelled, otherwise as JSON, with the links' own target
    /// URIs.
    fn own_text(&self, alloc: Global, chosen: &[u32]) -> Result<Rendered, Memory>
        requires chosen { AreChosen self.now.resolver.now.links self.now.identity.now chosen.now }
        requires some { 0 < length chosen.now }
        ensures { IfOk result (λ sent. sent
            ≡ text_or_json (document_of (linked self.now.resolver.now.links chosen.now))) }
    {
        match self
            .resolver
            .store()
            .write_text(alloc, self.identity, chosen)
        {
            Ok(text) => Ok(Rendered {
                form: LinksetForm::Text,
                text,
            }),
            Err(LinkTextWriteFault::CannotSpell(_)) => self.own_json(alloc, chosen),
            Err(LinkTextWriteFault::Memory) => Err(Memory),
        }
    }

    /// Returns the document of chosen links in a form, with the links' own target URIs.
    fn render_own(
        &self,
        alloc: Global,
        form: LinksetForm,
        chosen: &[u32],
    ) -> Result<Rendered, Memory>
        requires chosen { AreChosen self.now.resolver.now.links self.now.identity.now chosen.now }
        requires some { 0 < length chosen.now }
        ensures { IfOk result (λ sent. sent
            ≡ rendered_as form (document_of (linked self.now.resolver.now.links chosen.now))) }
    {
        match form {
            LinksetForm::Json => self.own_json(alloc, chosen),
            LinksetForm::Text => self.own_text(alloc, chosen),
        }
    }

    /// Returns the document of chosen links in a form. It copies the links only for templates.
    fn render(&self, alloc: Global, form: LinksetForm, chosen: &[u32]) -> Result<Rendered, Memory>
        requires chosen { AreChosen self.now.resolver.now.links self.now.identity.now chosen.now }
        requires some { 0 < length chosen.now }
        ensures { IfOk result (λ sent. sent ≡ rendered_as form
            (sent_document self.now.resolver.now.settings.templates self.now.identity.now
            (linked self.now.resolver.now.links chosen.now))) }
    {
        let templates = self.resolver.settings().templates;
        if !templates {
            return self.render_own(alloc, form, chosen);
        }
        let document = self
            .resolver
            .store()
            .document(alloc, self.identity, chosen)?;
        render(
            alloc,
            form,
            &document_for(alloc, templates, self.identity, document)?,
        )
    }

    /// Returns the answer to go on to a link.
    fn redirect_to(&self, alloc: Global, link: &'a Link) -> Result<Answer<'a>, Memory>
        ensures { IfOk result (λ answer. said answer ≡ redirect
            (reference_for self.now.resolver.now.settings.templates self.now.identity.now
            link.now.target.href)) }
    {
        let templates = self.resolver.settings().templates;
        let href = link.target.href.as_bytes();
        Ok(Answer::Redirect(reference_for(alloc, templates, self.identity, href)?))
    }

    /// Returns the answer for a relation, by the links that are chosen for the identity: at least one.
    fn by_count(&self, alloc: Global, chosen: &[u32]) -> Result<Answer<'a>, Memory>
        requires chosen { AreChosen self.now.resolver.now.links self.now.identity.now chosen.now }
        requires some { 0 < length chosen.now }
        ensures { IfOk result (λ answer. said answer ≡ by_relation self.now.resolver.now.settings.templates
            self.now.identity.now (linked self.now.resolver.now.links chosen.now)) }
    {
        if has_one_link(chosen) {
            let link = self.resolver.store().link(chosen[0] as usize);
            return self.redirect_to(alloc, link);
        }
        let sent = self.render(alloc, LinksetForm::Json, chosen)?;
        Ok(Answer::Choices(sent.text))
    }

    /// Returns the answer by the links that fit the wish.
    fn answer(&self, alloc: Global, room: &mut [u32]) -> Result<Answer<'a>, Memory>
        requires { room_for self.now.resolver.now.links ≤ length room.old }
        ensures { IfOk result (λ answer. said answer ≡ by_elements self.now.resolver.now.settings.templates
            self.now.resolver.now.links (accepted_ranges (asked_by self.now.request.now).fields)
            self.now.identity.now (wished self.now.wish.now)) }
    {
        let chosen = self.choose(alloc, room)?;
        if chosen.is_empty() {
            return Ok(Answer::NotFound);
        }
        match self.wish {
            Wish::Relation(_) => self.by_count(alloc, chosen),
            Wish::Linkset(form) => Ok(Answer::Linkset(self.render(alloc, *form, chosen)?)),
        }
    }
}

/// Returns the answer to a request by the pairs that its target names.
fn answer_pairs<'a>(
    alloc: Global,
    resolver: &Resolver<'a>,
    room: &mut [u32],
    request: &Request<'_>,
    wish: &Wish<'_>,
    pairs: Vec<Pair<'_>>,
) -> Result<Answer<'a>, Memory>
    requires room { room_for resolver.now.links ≤ length room.old }
    requires in_order { All (IsInOrder resolver.now.table) pairs.items }
    ensures { IfOk result (λ answer. said answer ≡ by_pairs resolver.now.table
        resolver.now.settings.templates resolver.now.links
        (accepted_ranges (asked_by request.now).fields) (wished wish.now) (Ok pairs.entry.items)) }
{
    let identity = match make(alloc, resolver.table(), pairs) {
        Ok(identity) => identity,
        Err(IdentFault::Memory) => return Err(Memory),
        Err(_) => return Ok(Answer::BadRequest),
    };
    let lookup = Lookup {
        resolver,
        request,
        wish,
        identity: &identity,
    };
    lookup.answer(alloc, room)
}

/// Returns the answer to a request, by the first case that fits.
#[tactic(auto, unfolding(crate::specs::Answers::answer_of))]
pub(crate) fn answer_to<'a>(
    alloc: Global,
    resolver: &Resolver<'a>,
    room: &mut [u32],
    request: &Request<'_>,
) -> Result<Answer<'a>, Memory>
    requires { room_for resolver.now.links ≤ length room.old }
    ensures { IfOk result (λ answer. said answer ≡ answer_of resolver.now.table resolver.now.links
        resolver.now.settings (asked_by request.now)) }
{
    if !is_allowed(request.method) {
        return Ok(Answer::NotAllowed);
    }
    if !request.target.starts_with(b"/") {
        return Ok(Answer::BadRequest);
    }
    if is_description(request.target) {
        return Ok(describe(resolver.settings()));
    }
    let wish = wish_of(alloc, resolver, request)?;
    match read_target(alloc, resolver.table(), request.target) {
        Ok(pairs) => answer_pairs(alloc, resolver, room, request, &wish, pairs),
        Err(LinkFault::NoKeyPath) => Ok(Answer::NotFound),
        Err(LinkFault::NotHttp | LinkFault::Element(_)) => Ok(Answer::BadRequest),
        Err(LinkFault::Memory) => Err(Memory),
    }
}
