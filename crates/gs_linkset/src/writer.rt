ghost use Rattle.std.specs.Prelude.{◌≡◌, ◌≤◌, ◌∷◌, [], IfOk, OnOk, length, map, true};
ghost use Rattle.std.specs.List.{list_all};
ghost use Rattle.std.specs.Str.{is_utf8};
ghost use Rattle.json.specs.Print.{IsPrintable};
ghost use Rattle.json.specs.Reads.{token_of};
ghost use Rattle.serde_json.specs.Data.{object, put as put_member, string};
ghost use Rattle.gs_linkset.specs.LinkShapes.{is_below, is_target};
ghost use Rattle.gs_linkset.specs.WrittenTrees.{array_by, document_by, members_by, target_text, value_tree, written};
ghost use Rattle.gs_linkset.specs.WrittenTokens.{Adds, count_below, is_other, item_tokens, language_tokens};
ghost use Rattle.gs_linkset.specs.WrittenTokens.{member_tokens, members_tokens, text_tokens, tokens_of};

use crate::doc::LinkDoc;
use crate::link_types::{Attr, AttrValue, Context, Relation, Target};
use gs_chars::{Memory, Text};
use json::{Token, Writer};
use std::alloc::Global;
use std::str;

/// The bytes that a new text has room for, so that a short one is not moved as it grows.
const ROOM: usize = 128;

/// An object that is written as a value.
pub(crate) trait ToJson {
    ghost use Rattle.std.specs.Prelude.{Bool};
    ghost use Rattle.serde_json.specs.Data.{Data};

    /// Whether it has the shape of a linkset's part.
    ghost shape: { Self → Bool };

    /// Its value.
    ghost tree: { Self → Data };

    /// Appends its value.
    fn append(&self, out: &mut Writer) -> Result<(), Memory>
        requires { shape self.now ≡ true }
        ensures { OnOk result (Adds out.old out.new (tokens_of (tree self.now))) };
}

/// An object that is written as a member of a JSON object.
pub(crate) trait Member: ToJson {
    ghost use Rattle.std.specs.Prelude.{List, ℕ};

    /// The name of the member.
    ghost key_of: { Self → List ℕ };

    /// Returns the name of the member.
    fn key(&self) -> &str
        requires { Self.shape self.now ≡ true }
        ensures { result.now ≡ key_of self.now };
}

/// Appends a token. Inlined, so that a bracket needs no test of the token's kind.
#[inline(always)]
fn put(out: &mut Writer, token: Token<'_>) -> Result<(), Memory>
    requires { IsPrintable (token_of token) }
    ensures { OnOk result (Adds out.old out.new (token_of token.entry ∷ [])) }
{
    Ok(out.token(token)?)
}

/// Appends a member that is a text.
fn put_text(out: &mut Writer, name: &str, text: &Text) -> Result<(), Memory>
    requires { is_utf8 text.now ≡ true }
    ensures { OnOk result (Adds out.old out.new (text_tokens name.now text.now)) }
{
    put(out, Token::Key(name))?;
    text.append(out)
}

/// Appends values one at a time.
fn put_items<T: ToJson>(out: &mut Writer, things: &[T]) -> Result<(), Memory>
    requires { list_all T.shape things.now ≡ true }
    ensures { OnOk result (Adds out.old out.new (item_tokens T.tree things.now)) }
{
    for thing in things {
        thing.append(out)?;
    }
    Ok(())
}

/// Appends values as an array.
pub(crate) fn put_array<T: ToJson>(out: &mut Writer, things: &[T]) -> Result<(), Memory>
    requires { list_all T.shape things.now ≡ true }
    ensures { OnOk result (Adds out.old out.new (tokens_of (array_by T.tree things.now))) }
{
    put(out, Token::BeginArray)?;
    put_items(out, things)?;
    put(out, Token::EndArray)
}

/// Appends a member.
fn put_member<T: Member>(out: &mut Writer, thing: &T) -> Result<(), Memory>
    requires { T.shape thing.now ≡ true }
    ensures { OnOk result (Adds out.old out.new (member_tokens T.key_of T.tree thing.now)) }
{
    put(out, Token::Key(thing.key()))?;
    thing.append(out)
}

/// Appends members one at a time.
fn put_members<T: Member>(out: &mut Writer, things: &[T]) -> Result<(), Memory>
    requires { list_all T.shape things.now ≡ true }
    ensures { OnOk result (Adds out.old out.new (members_tokens T.key_of T.tree things.now)) }
{
    for thing in things {
        put_member(out, thing)?;
    }
    Ok(())
}

/// Returns whether a name is below another by its bytes.
fn is_below(a: &str, b: &str) -> bool
    ensures { result ≡ is_below a.now b.now }
{
    a.as_bytes().cmp(b.as_bytes()).is_lt()
}

/// Returns the number of first members whose names are below this one.
fn count_below<T: Member>(things: &[T], name: &str) -> usize
    requires { list_all T.shape things.now ≡ true }
    ensures count { result ≡ count_below name.now (map T.key_of things.now) }
    ensures bound { result ≤ length things.now }
{
    for i in 0..things.len() {
        if is_below(things[i].key(), name) {
            continue;
        }
        return i;
    }
    things.len()
}

/// Appends an object of members, whose names ascend, and of one more text in its order among them. None of the members has its
/// name.
pub(crate) fn put_object<T: Member>(
    out: &mut Writer,
    things: &[T],
    name: &str,
    text: &Text,
) -> Result<(), Memory>
    requires shape { list_all T.shape things.now ≡ true }
    requires others { list_all (is_other name.now) (map T.key_of things.now) ≡ true }
    requires text { is_utf8 text.now ≡ true }
    ensures { OnOk result (Adds out.old out.new
        (tokens_of (object
        (put_member name.now (string text.now) (members_by T.key_of T.tree things.now))))) }
{
    let (below, above) = things.split_at(count_below(things, name));
    put(out, Token::BeginObject)?;
    put_members(out, below)?;
    put_text(out, name, text)?;
    put_members(out, above)?;
    put(out, Token::EndObject)
}

/// Returns the characters of a text.
pub(crate) fn characters(text: &Text) -> &str
    requires { is_utf8 text.now ≡ true }
    ensures { result.now ≡ text.now }
{
    str::from_utf8(text.as_bytes()).unwrap()
}

impl ToJson for Text {
    ghost shape = { is_utf8 };

    ghost tree = { string };

    fn append(&self, out: &mut Writer) -> Result<(), Memory> {
        put(out, Token::String(characters(self)))
    }
}

/// Appends the language, if there is one.
fn put_language(out: &mut Writer, language: &Text) -> Result<(), Memory>
    requires { is_utf8 language.now ≡ true }
    ensures { OnOk result (Adds out.old out.new (language_tokens language.now)) }
{
    if language.as_bytes().is_empty() {
        return Ok(());
    }
    put_text(out, "language", language)
}

impl ToJson for (Text, Text) {
    ghost use Rattle.gs_linkset.specs.LinkShapes.{is_tagged_text};
    ghost use Rattle.gs_linkset.specs.WrittenTrees.{tagged_tree};

    ghost shape = { is_tagged_text };

    ghost tree = { tagged_tree };

    fn append(&self, out: &mut Writer) -> Result<(), Memory> {
        put(out, Token::BeginObject)?;
        put_language(out, &self.1)?;
        put_text(out, "value", &self.0)?;
        put(out, Token::EndObject)
    }
}

impl ToJson for Attr {
    ghost use Rattle.gs_linkset.specs.LinkShapes.{is_attr};

    ghost shape = { is_attr };

    ghost tree = { λ attr. value_tree attr.value };

    fn append(&self, out: &mut Writer) -> Result<(), Memory> {
        match &self.value {
            AttrValue::One(text) => text.append(out),
            AttrValue::Many(texts) => put_array(out, texts.items()),
            AttrValue::Tagged(pairs) => put_array(out, pairs.items()),
        }
    }
}

impl Member for Attr {
    ghost key_of = { λ attr. attr.name };

    fn key(&self) -> &str {
        characters(&self.name)
    }
}

impl ToJson for Target {
    ghost use Rattle.gs_linkset.specs.WrittenTrees.{target_tree};

    ghost shape = { is_target };

    ghost tree = { target_tree };

    fn append(&self, out: &mut Writer) -> Result<(), Memory> {
        put_object(out, self.attrs.items(), "href", &self.href)
    }
}

impl Target {
    /// Writes the target in JSON (RFC 9264, section 4.2.3), with no space and the members of each object in ascending order of
    /// name. Two targets with one text are equal. The target must have the shape of a linkset's targets. Fails only with
    /// `Memory`.
    #[tactic(auto, unfolding(crate::specs::WrittenTrees::target_text))]
    pub fn text(&self, alloc: Global) -> Result<Text, Memory>
        requires { is_target self.now ≡ true }
        ensures { IfOk result (λ text. text ≡ target_text self.now) }
    {
        let mut out = Writer::new(Vec::with_capacity(alloc, ROOM)?);
        self.append(&mut out)?;
        Ok(Text::from_vec(out.into_inner()))
    }
}

impl ToJson for Relation {
    ghost use Rattle.gs_linkset.specs.LinkShapes.{is_relation};
    ghost use Rattle.gs_linkset.specs.WrittenTrees.{target_tree};

    ghost shape = { is_relation };

    ghost tree = { λ relation. array_by target_tree relation.targets };

    fn append(&self, out: &mut Writer) -> Result<(), Memory> {
        put_array(out, self.targets.items())
    }
}

impl Member for Relation {
    ghost key_of = { λ relation. relation.name };

    fn key(&self) -> &str {
        characters(&self.name)
    }
}

impl ToJson for Context {
    ghost use Rattle.gs_linkset.specs.LinkShapes.{is_context};
    ghost use Rattle.gs_linkset.specs.WrittenTrees.{context_tree};

    ghost shape = { is_context };

    ghost tree = { context_tree };

    fn append(&self, out: &mut Writer) -> Result<(), Memory> {
        put_object(out, self.relations.items(), "anchor", &self.anchor)
    }
}

/// Appends the document of contexts.
pub(crate) fn put_document<T: ToJson>(out: &mut Writer, contexts: &[T]) -> Result<(), Memory>
    requires { list_all T.shape contexts.now ≡ true }
    ensures { OnOk result (Adds out.old out.new (tokens_of (document_by T.tree contexts.now))) }
{
    put(out, Token::BeginObject)?;
    put(out, Token::Key("linkset"))?;
    put_array(out, contexts)?;
    put(out, Token::EndObject)
}

/// Writes a linkset in JSON (RFC 9264, section 4.2), with no space and no empty language. The members of each object are in
/// ascending order of name. Fails only with `Memory`.
pub fn write(alloc: Global, doc: &LinkDoc) -> Result<Text, Memory>
    ensures { IfOk result (λ text. text ≡ written doc.now) }
{
    let mut out = Writer::new(Vec::with_capacity(alloc, ROOM)?);
    put_document(&mut out, doc.contexts())?;
    Ok(Text::from_vec(out.into_inner()))
}
