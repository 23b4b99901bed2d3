ghost use Rattle.std.specs.Prelude.{◌≡◌, IfOk};
ghost use Rattle.gs_tables_document.specs.Documents.{ai_plan, document_plan, kind_plan, option_plan, text_of};
ghost use Rattle.serde_json.specs.View.{view};
ghost use Rattle.gs_json.specs.Answers.{items_count};
ghost use Rattle.gs_json.specs.Members.{text_in};

use gs_chars::{List, Memory, Text};
use gs_json::{Entry, Sort, items_of, plan_of, text_in};
use serde_json::Value;
use std::alloc::Global;

/// Returns the members of the document.
pub(crate) fn document_plan(alloc: Global) -> Result<List<Entry>, Memory>
    ensures { IfOk result (λ plan. plan ≡ document_plan) }
{
    plan_of(
        alloc,
        &[
            (b"version", true, Sort::Number),
            (b"ais", true, Sort::Array),
            (b"kinds", true, Sort::Array),
            (b"binary", true, Sort::Array),
            (b"tag", true, Sort::Array),
            (b"pure", true, Sort::Array),
        ],
    )
}

/// Returns the members of a row of application identifiers.
pub(crate) fn ai_plan(alloc: Global) -> Result<List<Entry>, Memory>
    ensures { IfOk result (λ plan. plan ≡ ai_plan) }
{
    plan_of(
        alloc,
        &[
            (b"code", true, Sort::Text),
            (b"parts", true, Sort::Texts),
            (b"role", true, Sort::Text),
            (b"qualifiers", false, Sort::Texts),
            (b"short", false, Sort::Truth),
            (b"none", false, Sort::Text),
        ],
    )
}

/// Returns the members of a kind, of a document of version 2 and of one of another version.
pub(crate) fn kind_plan(alloc: Global, second: bool) -> Result<List<Entry>, Memory>
    ensures { IfOk result (λ plan. plan ≡ kind_plan second) }
{
    if second {
        return plan_of(
            alloc,
            &[
                (b"name", true, Sort::Text),
                (b"key", true, Sort::Text),
                (b"lead", true, Sort::Number),
                (b"serial", true, Sort::Text),
                (b"fields", true, Sort::Texts),
            ],
        );
    }
    plan_of(
        alloc,
        &[
            (b"name", true, Sort::Text),
            (b"key", true, Sort::Text),
            (b"lead", true, Sort::Number),
            (b"serial", true, Sort::Text),
        ],
    )
}

/// Returns the members of an option.
pub(crate) fn option_plan(alloc: Global) -> Result<List<Entry>, Memory>
    ensures { IfOk result (λ plan. plan ≡ option_plan) }
{
    plan_of(
        alloc,
        &[
            (b"kind", true, Sort::Text),
            (b"encoding", true, Sort::Text),
            (b"gcp", true, Sort::Number),
            (b"items", true, Sort::Arrays),
        ],
    )
}

/// How a part of a document is read.
#[derive(Clone, Copy)]
pub struct Reading {
    /// Whether the items are those of a bit level.
    pub bits: bool,
    /// Whether the document is of version 2. It then may have the part `n..K?`, the items `digits` and `numstr`, and the fields
    /// `piece` and `total`.
    pub second: bool,
}

/// Returns the text of this value, and the empty text if it is not a text.
pub(crate) fn str_of(value: &Value) -> &str
    ensures { result.now ≡ text_of (view value.now) }
{
    value.as_str().unwrap_or("")
}

/// Returns a copy of the text of the named member, or of the empty text if there is none. Fails only with `Memory`.
pub fn copy_in(alloc: Global, object: &Value, name: &str) -> Result<Text, Memory>
    ensures { IfOk result (λ text. text ≡ text_in name.now (view object.now)) }
{
    Text::from_bytes(alloc, text_in(object, name).as_bytes())
}

/// Returns the number of items of an array, and 0 if the value is not an array.
pub(crate) fn items_len(array: &Value) -> usize
    ensures { result ≡ items_count (view array.now) }
{
    items_of(array).len()
}
