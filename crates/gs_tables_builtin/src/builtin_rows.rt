ghost use Rattle.std.specs.Prelude.{◌≡◌, IfOk, IsTrue};
ghost use Rattle.std.specs.List.{list_all};
ghost use Rattle.gs_tables_builtin.specs.BuiltIn.{builtin_document};
ghost use Rattle.gs_tables_builtin.specs.BuiltInSupport.{document_of, options_of, rests_fit};

use crate::builtin_codes::builtin_ais;
use crate::builtin_encodings::{encodings, identities};
use crate::builtin_kinds::builtin_kinds;
use crate::builtin_options::{encoded_options, pure_options};
use crate::encoding::{Encoding, Identity};
use gs_chars::{List, Memory};
use gs_tables_document::{Document, OptionRow};
use std::alloc::Global;

/// Returns the options of these encodings and identities: binary, tag, pure.
fn options_of(
    alloc: Global,
    encodings: &[Encoding],
    identities: &[Identity],
) -> Result<(List<OptionRow>, List<OptionRow>, List<OptionRow>), Memory>
    requires { IsTrue (list_all rests_fit encodings.now) }
    ensures { IfOk result (λ options. options ≡ options_of encodings.now identities.now) }
{
    let binary = encoded_options(alloc, true, encodings)?;
    let tag = encoded_options(alloc, false, encodings)?;
    let pure = pure_options(alloc, identities)?;
    Ok((binary, tag, pure))
}

/// Returns the document of the application identifiers, the kinds, and the options of these encodings and identities.
fn document_of(
    alloc: Global,
    encodings: &[Encoding],
    identities: &[Identity],
) -> Result<Document, Memory>
    requires { IsTrue (list_all rests_fit encodings.now) }
    ensures { IfOk result (λ document. document ≡ document_of encodings.now identities.now) }
{
    let ais = builtin_ais(alloc)?;
    let kinds = builtin_kinds(alloc)?;
    let (binary, tag, pure) = options_of(alloc, encodings, identities)?;
    Ok(Document {
        version: 2,
        ais,
        kinds,
        binary,
        tag,
        pure,
    })
}

/// Returns the built-in rows: the application identifiers, ten kinds of key, and the options. Each encoding has the binary and
/// the tag option for each company prefix length from 12 to 6, and each kind the pure option.
#[tactic(auto, using(crate::proofs::BuiltInLemmas::rests_of_encodings_fit))]
pub fn builtin_document(alloc: Global) -> Result<Document, Memory>
    ensures { IfOk result (λ document. document ≡ builtin_document) }
{
    let encodings = encodings(alloc)?;
    let identities = identities(alloc)?;
    document_of(alloc, encodings.items(), identities.items())
}
