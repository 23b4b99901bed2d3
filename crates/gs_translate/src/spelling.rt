ghost use Rattle.std.specs.Prelude.{OnErr};
ghost use Rattle.gs_chars.specs.Answers.{BeginsWith};
ghost use Rattle.gs_epc.specs.declared.error.EpcWriteFault.TheVariants as write;
ghost use Rattle.gs_epc.specs.Candidates.{HasFilterOn};
ghost use Rattle.gs_epc.specs.Writes.{WritesAs};
ghost use Rattle.gs_ident.specs.Identities.{IsMadeWith};
ghost use Rattle.gs_translate.specs.Meanings.{identity_meaning};
ghost use Rattle.gs_translate.specs.Steps.{AppendsText, Reworded, UnlessMemory};
ghost use Rattle.gs_translate.specs.Targets.{FitsFilter};
ghost use Rattle.gs_translate.specs.Translations.{AreInOrder, IsOfLevel, IsSpelling, write_reason};

use crate::form::{Options, Target};
use crate::reader::meaning_alone;
use crate::reason::Reason;
use crate::tag_fields::epc_for;
use gs_element::{append_bracketed, append_raw};
use gs_epc::{EpcRef, append_lent};
use gs_ident::{Identity, append_canonical, append_link};
use gs_prefix::PrefixList;
use gs_tables::{LevelName, TableSet};
use std::alloc::Global;

/// Appends the text of an EPC in a level, or gives the reason why there is none.
pub(crate) fn append_epc(
    alloc: Global,
    set: &TableSet,
    level: LevelName,
    epc: &EpcRef<'_>,
    out: &mut Vec<u8>,
) -> Result<(), Reason>
    requires { HasFilterOn level epc.now.filter }
    ensures written { UnlessMemory result (AppendsText
        (Reworded write.Memory write_reason (WritesAs set.now level epc.now))
        out.old.items out.new.items result) }
    ensures begun { OnErr result (BeginsWith out.new.items out.old.items) }
{
    Ok(append_lent(alloc, set, level, epc, out)?)
}

/// Appends the text of a level for an identity that no EPC names, or gives the first reason why there is none.
fn append_alone(
    alloc: Global,
    set: &TableSet,
    prefixes: &PrefixList,
    options: &Options,
    level: LevelName,
    identity: Identity<'_>,
    out: &mut Vec<u8>,
) -> Result<(), Reason>
    requires { FitsFilter options.now.filter }
    ensures written { UnlessMemory result (AppendsText
        (IsOfLevel set.now prefixes.now options.now level (identity_meaning identity.entry))
        out.old.items out.new.items result) }
    ensures begun { OnErr result (BeginsWith out.new.items out.old.items) }
{
    let meaning = meaning_alone(alloc, identity);
    let epc = epc_for(alloc, set, prefixes, options, level, &meaning)?;
    append_epc(alloc, set, level, &epc, out)
}

/// Appends the one spelling of an identity that no EPC names in the requested form, or returns the first reason why there is
/// none. For a link or an element string it takes no fields apart.
pub(crate) fn append_spelling(
    alloc: Global,
    set: &TableSet,
    prefixes: &PrefixList,
    options: &Options,
    to: Target,
    named: Identity<'_>,
    out: &mut Vec<u8>,
) -> Result<(), Reason>
    requires options { AreInOrder options.now }
    requires with_table { IsMadeWith set.now.ais named }
    ensures written { UnlessMemory result (AppendsText
        (IsSpelling set.now prefixes.now options.now to (identity_meaning named.entry))
        out.old.items out.new.items result) }
    ensures begun { OnErr result (BeginsWith out.new.items out.old.items) }
{
    match to {
        Target::Hex => append_alone(alloc, set, prefixes, options, LevelName::Binary, named, out),
        Target::Tag => append_alone(alloc, set, prefixes, options, LevelName::Tag, named, out),
        Target::Pure => append_alone(alloc, set, prefixes, options, LevelName::Pure, named, out),
        Target::Raw => Ok(append_raw(out, set.ais(), &named)?),
        Target::Bracketed => Ok(append_bracketed(out, &named)?),
        Target::Link => Ok(append_link(out, options.stem.as_bytes(), &named)?),
        Target::Canon => Ok(append_canonical(out, &named)?),
    }
}
