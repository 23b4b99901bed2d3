ghost use Rattle.std.specs.Prelude.{◌≡◌, ◌≢◌, All, Err, IfErr, IfOk, Ok};
ghost use Rattle.gs_ident.specs.Identities.{IsInOrder, IsMadeWith};
ghost use Rattle.gs_links.specs.Loads.{anchor_answer, pairs_answer, without_attributes};
ghost use Rattle.gs_links.specs.declared.error.AnchorWhy.TheVariants.{Link as NoLink, Ident};

use crate::error::AnchorWhy;
use gs_ai::{AiTable, Pair};
use gs_chars::Memory;
use gs_dlink::{LinkFault, read_link, read_target};
use gs_ident::{IdentFault, Identity, make};
use std::alloc::Global;

/// Returns the pairs that an anchor names.
#[tactic(auto, unfolding(crate::specs::Loads::pairs_answer))]
fn read_pairs<'a>(
    alloc: Global,
    table: &AiTable,
    text: &'a [u8],
) -> Result<Vec<Pair<'a>>, LinkFault>
    ensures pairs { IfOk result (λ pairs. pairs_answer table.now text.now ≡ Ok pairs.items) }
    ensures in_order { IfOk result (λ pairs. All (IsInOrder table.now) pairs.items) }
    ensures error { IfErr result (λ e. e ≢ LinkFault.Memory → pairs_answer table.now text.now ≡ Err e) }
{
    if text.starts_with(b"/") {
        read_target(alloc, table, text)
    } else {
        read_link(alloc, table, text)
    }
}

/// Returns an identity that has no attributes.
fn without_attributes(identity: Identity<'_>) -> Result<Identity<'_>, AnchorWhy>
    ensures answer { result ≡ without_attributes identity.entry }
    ensures same { IfOk result (λ anchor. anchor ≡ identity.entry) }
{
    if identity.attributes().is_empty() {
        Ok(identity)
    } else {
        Err(AnchorWhy::Attributes)
    }
}

/// Returns the reason for an anchor that is not a link.
fn no_link(error: LinkFault) -> Result<AnchorWhy, Memory>
    ensures { IfOk result (λ why. (why ≡ NoLink error) × (error ≢ LinkFault.Memory)) }
{
    match error {
        LinkFault::NotHttp => Ok(AnchorWhy::Link(LinkFault::NotHttp)),
        LinkFault::NoKeyPath => Ok(AnchorWhy::Link(LinkFault::NoKeyPath)),
        LinkFault::Element(element) => Ok(AnchorWhy::Link(LinkFault::Element(element))),
        LinkFault::Memory => Err(Memory),
    }
}

/// Returns the reason for an anchor whose pairs have no identity.
fn no_identity(error: IdentFault) -> Result<AnchorWhy, Memory>
    ensures { IfOk result (λ why. (why ≡ Ident error) × (error ≢ IdentFault.Memory)) }
{
    match error {
        IdentFault::Repeat(code) => Ok(AnchorWhy::Ident(IdentFault::Repeat(code))),
        IdentFault::NoKey => Ok(AnchorWhy::Ident(IdentFault::NoKey)),
        IdentFault::TwoKeys(code) => Ok(AnchorWhy::Ident(IdentFault::TwoKeys(code))),
        IdentFault::Memory => Err(Memory),
    }
}

/// Returns the identity of an anchor, or why it has none.
pub(crate) fn read_anchor<'a>(
    alloc: Global,
    table: &AiTable,
    text: &'a [u8],
) -> Result<Result<Identity<'a>, AnchorWhy>, Memory>
    ensures answer { IfOk result (λ answer. answer ≡ anchor_answer table.now text.now) }
    ensures with_table { IfOk result (λ answer. IfOk answer (λ anchor. IsMadeWith table.now anchor)) }
{
    let pairs = match read_pairs(alloc, table, text) {
        Ok(pairs) => pairs,
        Err(error) => return Ok(Err(no_link(error)?)),
    };
    match make(alloc, table, pairs) {
        Ok(identity) => Ok(without_attributes(identity)),
        Err(error) => Ok(Err(no_identity(error)?)),
    }
}
