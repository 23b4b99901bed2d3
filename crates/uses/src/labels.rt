ghost use Rattle.std.specs.Prelude.{◌≡◌, IfOk};
ghost use Rattle.gs_ident.specs.Elements.{Elements};
ghost use Rattle.gs_ident.specs.Identities.{IsMadeWith};
ghost use Rattle.gs_ident.specs.Links.{canonical_link};

use gs_ai::AiTable;
use gs_chars::{Memory, Text};
use gs_element::{RawFault, read_bracketed};
use gs_ident::{IdentFault, canonical, make};
use std::alloc::Global;

/// Why a label has no link.
#[derive(Drop)]
pub enum LabelError {
    /// Its text is not an element string: where, and why.
    Text(RawFault),
    /// Its elements have no identity.
    Elements(IdentFault),
    /// Out of memory.
    Memory,
}

impl From<RawFault> for LabelError {
    fn from(error: RawFault) -> LabelError {
        LabelError::Text(error)
    }
}

impl From<IdentFault> for LabelError {
    fn from(error: IdentFault) -> LabelError {
        LabelError::Elements(error)
    }
}

impl From<Memory> for LabelError {
    fn from(_rejected: Memory) -> LabelError {
        LabelError::Memory
    }
}

/// Returns the canonical link of what a label names, whose element string is given with brackets.
pub fn link_of_label(alloc: Global, ais: &AiTable, label: &[u8]) -> Result<Text, LabelError>
    ensures { IfOk result (λ link. (identity : Elements) × IsMadeWith ais.now identity
        × (link ≡ canonical_link identity)) }
{
    let pairs = read_bracketed(alloc, ais, label)?;
    let identity = make(alloc, ais, pairs)?;
    Ok(canonical(alloc, &identity)?)
}
