ghost use Rattle.std.specs.Prelude.{◌≡◌, IfOk, filter, find, map};
ghost use Rattle.std.specs.List.{slice_split};
ghost use Rattle.std.specs.Option.{option_map};
ghost use Rattle.std.specs.Str.{bytes_eq};
ghost use Rattle.gs_linktext_grammar.specs.Bytes.{is_blank};
ghost use Rattle.gs_linktext_grammar.specs.Grammar.{is_some_part};
ghost use Rattle.gs_linktext.specs.Links.{first_value, types_in};

use gs_chars::Memory;
use gs_linktext_grammar::{Param, is_blank};
use std::alloc::{AllocError, Global};

/// Returns the parameter of a name that comes first.
fn first_param<'a>(name: &[u8], params: &'a [Param]) -> Option<&'a Param>
    ensures { option_map (λ param. param.now) result
        ≡ find (λ param. bytes_eq param.name name.now) params.now }
{
    params.iter().find(|param| param.name.as_bytes() == name)
}

/// Returns the value of the first parameter of a name.
pub(crate) fn first_value<'a>(name: &[u8], params: &'a [Param]) -> Option<&'a [u8]>
    ensures { option_map (λ value. value.now) result ≡ first_value name.now params.now }
{
    match first_param(name, params) {
        Some(param) => Some(param.value.as_bytes()),
        None => None,
    }
}

/// Returns the parts of a text between its blanks.
fn parts_of(alloc: Global, text: &[u8]) -> Result<Vec<&[u8]>, AllocError>
    ensures { IfOk result (λ parts. map (λ part. part.now) parts.items ≡ slice_split is_blank text.now) }
{
    text.split(|c| is_blank(*c)).collect(alloc)
}

/// Returns the parts that have a byte.
fn without_empty(parts: Vec<&[u8]>) -> Vec<&[u8]>
    ensures { result.items ≡ filter (λ part. is_some_part part.now) parts.entry.items }
{
    let mut parts = parts;
    parts.retain(|part| !part.is_empty());
    parts
}

/// Returns the relation types of a text, the parts between its blanks that have a byte.
pub(crate) fn types_in(alloc: Global, text: &[u8]) -> Result<Vec<&[u8]>, Memory>
    ensures { IfOk result (λ types. map (λ type. type.now) types.items ≡ types_in text.now) }
{
    let parts = parts_of(alloc, text)?;
    Ok(without_empty(parts))
}
