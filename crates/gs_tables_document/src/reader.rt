ghost use Rattle.std.specs.Prelude.{◌≡◌, ◌++◌, ℕ, List, [], IfOk, IfErr, codes};
ghost use Rattle.serde_json.specs.View.{view};
ghost use Rattle.gs_json.specs.Shapes.{IsFirst};
ghost use Rattle.gs_tables_document.specs.Documents.{IsDocument, document_errors, is_second, of_bits, of_texts, option_plan};
ghost use Rattle.gs_tables_document.specs.Documents.{rows_errors};
ghost use Rattle.gs_tables_document.specs.DocumentsSupport.{AreOptions};
ghost use Rattle.gs_tables_document.specs.Readings.{Holds, IsFormRejection, IsJson};

use crate::document::{Document, OptionRow};
use crate::error::LoadFault;
use crate::plans::{Reading, ai_plan, document_plan, kind_plan, option_plan};
use crate::rows::read_rows;
use gs_chars::{List, Memory};
use gs_json::{Doc, JsonFault, Node, number_in};
use serde_json::Value;
use std::alloc::Global;

/// Returns the rows of the table document that the bytes are, or the first error of its form, as `Json`. The bytes are then not
/// JSON text, or the document or a row does not have the form of its kind. May return `Memory` instead.
pub fn read_document(alloc: Global, bytes: &[u8]) -> Result<Document, LoadFault>
    ensures document { IfOk result (λ document. Holds bytes.now document) }
    ensures rejected { IfErr result (λ error. IsFormRejection bytes.now error) }
{
    let doc = Doc::parse(alloc, bytes)?;
    read_root(alloc, &doc.root(alloc))
}

/// Returns the rows of the document of this tree, or the first error of its form.
fn read_root(alloc: Global, root: &Node<'_>) -> Result<Document, LoadFault>
    requires { root.now.place ≡ [] }
    ensures document { IfOk result (λ document. (bytes : List ℕ) → IsJson bytes (view root.now.tree)
        → Holds bytes document) }
    ensures rejected { IfErr result (λ error. (bytes : List ℕ) → IsJson bytes (view root.now.tree)
        → IsFormRejection bytes error) }
{
    judge_document(alloc, root)?;
    Ok(rows_of(alloc, root.value())?)
}

/// Finds the first error of the form of a document: of its object, then of the rows of each array.
fn judge_document(alloc: Global, root: &Node<'_>) -> Result<(), JsonFault>
    requires { root.now.place ≡ [] }
    ensures { IsFirst result (document_errors (view root.now.tree)) }
{
    let plan = document_plan(alloc)?;
    root.shaped(alloc, plan.items())?;
    let ai = ai_plan(alloc)?;
    root.items_shaped(alloc, "ais", ai.items())?;
    let kind = kind_plan(alloc, is_second(root.value()))?;
    root.items_shaped(alloc, "kinds", kind.items())?;
    judge_options(alloc, root)
}

/// Finds the first error of the rows of the options of each level.
#[tactic(auto, unfolding(crate::specs::Documents::rows_errors))]
fn judge_options(alloc: Global, root: &Node<'_>) -> Result<(), JsonFault>
    requires { root.now.place ≡ [] }
    ensures { IsFirst result (rows_errors (codes "binary") option_plan (view root.now.tree)
        ++ (rows_errors (codes "tag") option_plan (view root.now.tree)
        ++ rows_errors (codes "pure") option_plan (view root.now.tree))) }
{
    let plan = option_plan(alloc)?;
    root.items_shaped(alloc, "binary", plan.items())?;
    root.items_shaped(alloc, "tag", plan.items())?;
    root.items_shaped(alloc, "pure", plan.items())
}

/// Returns whether the document is of version 2.
fn is_second(root: &Value) -> bool
    ensures { result ≡ is_second (view root.now) }
{
    number_in(root, "version") == 2
}

/// Returns how to read the options of the document's bit level.
fn of_bits(root: &Value) -> Reading
    ensures { result ≡ of_bits (view root.now) }
{
    Reading {
        bits: true,
        second: is_second(root),
    }
}

/// Returns how to read all other rows of the document.
fn of_texts(root: &Value) -> Reading
    ensures { result ≡ of_texts (view root.now) }
{
    Reading {
        bits: false,
        second: is_second(root),
    }
}

/// Returns the rows of a document.
fn rows_of(alloc: Global, root: &Value) -> Result<Document, Memory>
    ensures { IfOk result (λ document. IsDocument (view root.now) document) }
{
    let version = number_in(root, "version");
    let texts = of_texts(root);
    let ais = read_rows(alloc, root, "ais", texts)?;
    let kinds = read_rows(alloc, root, "kinds", texts)?;
    let (binary, tag, pure) = options_of(alloc, root)?;
    Ok(Document {
        version,
        ais,
        kinds,
        binary,
        tag,
        pure,
    })
}

/// Returns the rows of the options of the levels: binary, tag and pure.
fn options_of(
    alloc: Global,
    root: &Value,
) -> Result<(List<OptionRow>, List<OptionRow>, List<OptionRow>), Memory>
    ensures { IfOk result (AreOptions (view root.now)) }
{
    let bits = of_bits(root);
    let texts = of_texts(root);
    Ok((
        read_rows(alloc, root, "binary", bits)?,
        read_rows(alloc, root, "tag", texts)?,
        read_rows(alloc, root, "pure", texts)?,
    ))
}
