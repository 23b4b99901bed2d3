ghost use Rattle.std.specs.Prelude.{◌≡◌, ◌<◌, ◌≤◌, ◌⊎◌, ◌++◌, ◌∷◌, [], length, true, None, Err, IfOk, IfErr, OnOk};
ghost use Rattle.std.specs.Prelude.{codes, option_to_list, List as SpecList};
ghost use Rattle.std.specs.List.{list_all};
ghost use Rattle.std.specs.Option.{option_map_or};
ghost use Rattle.std.specs.Str.{bytes_eq, is_utf8};
ghost use Rattle.json.specs.Reads.{token_of};
ghost use Rattle.serde_json.specs.Data.{Data};
ghost use Rattle.serde_json.specs.Read.{read as read_text};
ghost use Rattle.serde_json.specs.View.{view};
ghost use Rattle.gs_chars.specs.Answers.{first_or, OrError};
ghost use Rattle.gs_linkset.specs.Answers.{document_answer};
ghost use Rattle.gs_linkset.specs.AnswersSupport.{linkset_answer, linkset_place, text_answer};
ghost use Rattle.gs_linkset.specs.LinkShapes.{is_context};
ghost use Rattle.gs_linkset.specs.Tokens.{Answers, AnswersWith, AreRead, Begins, IsAnswer, items_answer};
ghost use Rattle.gs_linkset.specs.Tokens.{items_from, members_from, opens_array};
ghost use Rattle.gs_linkset.specs.Tokens.{opens_object, value_from as value_at};

use crate::copies::push;
use crate::link_types::Context;
use crate::reader::context_at;
use gs_chars::{List, Memory, Text};
use gs_json::{JsonFault, Node, read_value, value_from};
use json::{Reader, Scratch, Token};
use serde_json::Value;
use std::alloc::Global;

/// How deep arrays and objects may nest, as `serde_json` has it.
const DEPTH: usize = 127;

/// The contexts of the items read so far, or the first error of these items.
#[derive(Drop)]
struct Contexts {
    read: Vec<Context>,
    fault: Option<JsonFault>,
}

impl Contexts {
    /// Adds the context of the next item, or its error, unless an earlier item has one.
    fn add(&mut self, alloc: Global, item: &Value) -> Result<(), Memory>
        ensures { (items : SpecList Data) → AreRead self.old items
            → OnOk result (AreRead self.new (items ++ view item.now ∷ [])) }
    {
        if self.fault.is_some() {
            return Ok(());
        }
        match context_at(alloc, item, self.read.len()) {
            Ok(context) => push(&mut self.read, context),
            Err(error) => {
                self.fault = Some(error);
                Ok(())
            }
        }
    }

    /// Returns the contexts, or the error.
    fn into_answer(self) -> Result<List<Context>, JsonFault>
        ensures { result ≡ first_or (option_to_list self.fault) self.read.items }
    {
        let Contexts { read, fault } = self;
        match fault {
            Some(error) => Err(error),
            None => Ok(List::from_vec(read)),
        }
    }
}

/// Reads the contexts of the array `linkset`, up to its end, and gives each item up before it reads the next. Returns the first
/// error of an item as the answer, after it has read the other items. Returns `Syntax` only if the tokens are not such items.
fn read_contexts(
    alloc: Global,
    reader: &mut Reader<'_>,
    depth: usize,
) -> Result<Result<List<Context>, JsonFault>, JsonFault>
    ensures ok { IfOk result (λ a. Answers items_answer (items_from depth reader.old) reader.new a) }
    ensures shape { IfOk result (λ answer. IfOk answer (λ contexts. list_all is_context contexts ≡ true)) }
    ensures shorter { OnOk result (length reader.new ≤ length reader.old) }
    ensures syntax { result ≡ Err (JsonFault.Syntax) → items_from depth reader.old ≡ None }
    ensures only { IfErr result (λ e. (e ≡ JsonFault.Syntax) ⊎ (e ≡ JsonFault.Memory)) }
{
    let mut contexts = Contexts {
        read: Vec::new(alloc),
        fault: None,
    };
    'items: while !reader.take_end_array() {
        let item = read_value(alloc, reader, depth)?;
        contexts.add(alloc, &item)?;
    }
    Ok(contexts.into_answer())
}

/// Returns whether the token opens an array.
fn opens_array(token: &Token<'_>) -> bool
    ensures { result ≡ opens_array (token_of token.now) }
{
    matches!(token, Token::BeginArray)
}

/// Returns whether the token opens an object.
fn opens_object(token: &Token<'_>) -> bool
    ensures { result ≡ opens_object (token_of token.now) }
{
    matches!(token, Token::BeginObject)
}

/// Returns whether the name is `linkset`.
fn is_linkset(name: &[u8]) -> bool
    ensures { result ≡ bytes_eq name.now (codes "linkset") }
{
    name == b"linkset".as_slice()
}

/// Returns the place of the member `linkset`.
fn linkset_place(alloc: Global) -> Result<Text, Memory>
    ensures { IfOk result (λ place. place ≡ linkset_place) }
{
    Text::from_bytes(alloc, b"/linkset")
}

/// Reads the value of the member `linkset`. Returns its contexts, or its first error, as the answer.
fn read_linkset(
    alloc: Global,
    reader: &mut Reader<'_>,
    depth: usize,
) -> Result<Result<List<Context>, JsonFault>, JsonFault>
    requires { 0 < depth }
    ensures ok { IfOk result (λ a. Answers linkset_answer (value_at depth reader.old) reader.new a) }
    ensures shape { IfOk result (λ answer. IfOk answer (λ contexts. list_all is_context contexts ≡ true)) }
    ensures shorter { OnOk result (length reader.new < length reader.old) }
    ensures syntax { result ≡ Err (JsonFault.Syntax) → value_at depth reader.old ≡ None }
    ensures only { IfErr result (λ e. (e ≡ JsonFault.Syntax) ⊎ (e ≡ JsonFault.Memory)) }
{
    let Some(token) = reader.next() else {
        return Err(JsonFault::Syntax);
    };
    if opens_array(&token) {
        return read_contexts(alloc, reader, depth - 1);
    }
    value_from(alloc, token, reader, depth)?;
    Ok(Err(JsonFault::Kind(linkset_place(alloc)?)))
}

/// Replaces the answer to an earlier `linkset`.
fn replace(linkset: &mut Result<List<Context>, JsonFault>, found: Result<List<Context>, JsonFault>)
    ensures { linkset.new ≡ found }
{
    *linkset = found;
}

/// Reads the value of a member of the root. The last `linkset` counts.
fn read_member(
    alloc: Global,
    name: &str,
    linkset: &mut Result<List<Context>, JsonFault>,
    reader: &mut Reader<'_>,
    depth: usize,
) -> Result<(), JsonFault>
    requires { 0 < depth }
    ensures ok { AnswersWith name.now linkset.old linkset.new (value_at depth reader.old) reader.new result }
    ensures shorter { OnOk result (length reader.new < length reader.old) }
    ensures syntax { result ≡ Err (JsonFault.Syntax) → value_at depth reader.old ≡ None }
    ensures only { IfErr result (λ e. (e ≡ JsonFault.Syntax) ⊎ (e ≡ JsonFault.Memory)) }
{
    if is_linkset(name.as_bytes()) {
        let found = read_linkset(alloc, reader, depth)?;
        replace(linkset, found);
        return Ok(());
    }
    read_value(alloc, reader, depth)?;
    Ok(())
}

/// Reads the members of the root, up to its end. Returns the answer to the last `linkset`, or that there is none.
fn read_members(
    alloc: Global,
    reader: &mut Reader<'_>,
    depth: usize,
) -> Result<Result<List<Context>, JsonFault>, JsonFault>
    requires { 0 < depth }
    ensures ok { IfOk result (λ answer. Begins (members_from depth reader.old) (IsAnswer answer) reader.new) }
    ensures shorter { OnOk result (length reader.new ≤ length reader.old) }
    ensures syntax { result ≡ Err (JsonFault.Syntax) → members_from depth reader.old ≡ None }
    ensures only { IfErr result (λ e. (e ≡ JsonFault.Syntax) ⊎ (e ≡ JsonFault.Memory)) }
{
    let mut linkset = Err(JsonFault::Lacks(linkset_place(alloc)?));
    'members: loop {
        let Ok(key) = reader.next_key() else {
            return Err(JsonFault::Syntax);
        };
        let Some(name) = key else {
            return Ok(linkset);
        };
        read_member(alloc, name, &mut linkset, reader, depth)?;
    }
}

/// Reads the root of a document. Returns its contexts, or its first error, as the answer.
fn read_root(
    alloc: Global,
    reader: &mut Reader<'_>,
    depth: usize,
) -> Result<Result<List<Context>, JsonFault>, JsonFault>
    requires { 1 < depth }
    ensures ok { IfOk result (λ a. Answers document_answer (value_at depth reader.old) reader.new a) }
    ensures shape { IfOk result (λ answer. IfOk answer (λ contexts. list_all is_context contexts ≡ true)) }
    ensures syntax { result ≡ Err (JsonFault.Syntax) → value_at depth reader.old ≡ None }
    ensures only { IfErr result (λ e. (e ≡ JsonFault.Syntax) ⊎ (e ≡ JsonFault.Memory)) }
{
    let Some(token) = reader.next() else {
        return Err(JsonFault::Syntax);
    };
    if opens_object(&token) {
        return read_members(alloc, reader, depth - 1);
    }
    value_from(alloc, token, reader, depth)?;
    Ok(Err(JsonFault::Kind(Text::new(alloc))))
}

/// Reads the contexts of a document. Returns its first error after it has read the whole text.
pub(crate) fn read_document(alloc: Global, text: &str) -> Result<List<Context>, JsonFault>
    ensures answer { OrError JsonFault.Memory result
        (option_map_or document_answer (read_text text.now) (Err (JsonFault.Syntax))) }
    ensures shape { IfOk result (λ contexts. list_all is_context contexts ≡ true) }
{
    let mut scratch = Scratch::new(alloc);
    let Ok(mut reader) = Reader::new(text, &mut scratch) else {
        return Err(JsonFault::Memory);
    };
    let answer = read_root(alloc, &mut reader, DEPTH)?;
    match reader.next() {
        None => answer,
        Some(_) => Err(JsonFault::Syntax),
    }
}

/// Reads the text of a member that the object must have.
pub(crate) fn must_text(alloc: Global, object: &Node<'_>, name: &str) -> Result<Text, JsonFault>
    ensures answer { OrError JsonFault.Memory result
        (text_answer name.now object.now.place (view object.now.tree)) }
    ensures utf8 { IfOk result (λ text. is_utf8 text ≡ true) }
{
    let member = object.member(alloc, name)?;
    member.text(alloc)
}
