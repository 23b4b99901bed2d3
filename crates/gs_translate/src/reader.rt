ghost use Rattle.std.specs.Prelude.{◌≡◌, IfOk, Ok, All};
ghost use Rattle.gs_epc.specs.declared.error.EpcFault.TheVariants.{Memory as NoRoom};
ghost use Rattle.gs_epc.specs.Epcs.{IsOfSet};
ghost use Rattle.gs_epc.specs.Writes.{ReadsText};
ghost use Rattle.gs_ident.specs.Identities.{IsMadeWith, IsInOrder};
ghost use Rattle.gs_translate.specs.declared.reason.Reason.TheVariants.{Epc as NoEpc};
ghost use Rattle.gs_translate.specs.Meanings.{IsIdentified, IsRead, Means, MeansEpc, identity_meaning};
ghost use Rattle.gs_translate.specs.Steps.{Reworded, Then, UnlessMemory};
ghost use Rattle.gs_translate.specs.MeaningsSupport.{alone};
ghost use Rattle.gs_translate.specs.declared.form.Form.{Form};

use crate::form::Form;
use crate::reason::Reason;
use gs_ai::Pair;
use gs_chars::{LONGEST_TEXT, Memory, Text};
use gs_dlink::read_link;
use gs_element::{read_bracketed, read_raw};
use gs_epc::{EpcReading, reading_of};
use gs_grammar::MOST_SYMBOLS;
use gs_ident::{IdentFault, Identity, make};
use gs_tables::{LevelName, TableSet};
use std::alloc::Global;

/// Returns the meaning of an EPC of the set.
fn meaning_of(
    alloc: Global,
    set: &TableSet,
    reading: &EpcReading<'_>,
) -> Result<Meaning<'static>, Memory>
    requires { IsOfSet set.now reading.now }
    ensures meaning { IfOk result (λ meaning. MeansEpc set.now reading.now (Ok meaning)) }
    ensures with_table { IfOk result (λ meaning. IsMadeWith set.now.ais meaning.identity) }
{
    let laid = reading.identity(alloc, set)?;
    let identity = laid.copy(alloc)?;
    let lent = reading.epc();
    Ok(Meaning {
        identity,
        gcp: Some(lent.gcp),
        filter: lent.filter,
        encoding: Text::from_bytes(alloc, lent.encoding)?,
    })
}

/// Returns the meaning of a text of a level: the bits of a tag, or an EPC URI.
fn level_meaning<'a>(
    alloc: Global,
    set: &TableSet,
    level: LevelName,
    text: &'a [u8],
) -> Result<Meaning<'a>, Reason>
    ensures meaning { UnlessMemory result
        (Then (Reworded NoRoom NoEpc (ReadsText set.now level text.now)) (MeansEpc set.now) result) }
    ensures with_table { IfOk result (λ meaning. IsMadeWith set.now.ais meaning.identity) }
{
    let mut room = [0; MOST_SYMBOLS];
    let reading = reading_of(alloc, set, level, text, &mut room)?;
    Ok(meaning_of(alloc, set, &reading)?)
}

/// Returns the meaning of a text of a form, or why it is rejected. Returns `Long` if and only if the text has more than
/// 2,048 bytes, before every other reason. For bits and EPC URIs, returns `Epc` if and only if the text is not an EPC, with
/// the reason. For an element string, returns `Element` if and only if an element is invalid, and names the first. For a
/// link, returns `NotHttp`, `NoKeyPath` and `Element` if and only if it has that error, in this order. For both, returns
/// `Ident` if and only if there is none of these and the elements have no identity, with the reason.
#[tactic(auto, using(crate::proofs::StepLaws::after_long))]
pub fn read<'a>(
    alloc: Global,
    set: &TableSet,
    form: Form,
    text: &'a [u8],
) -> Result<Meaning<'a>, Reason>
    ensures meaning { UnlessMemory result (IsRead set.now form text.now result) }
    ensures with_table { IfOk result (λ meaning. IsMadeWith set.now.ais meaning.identity) }
{
    if text.len() > LONGEST_TEXT {
        return Err(Reason::Long);
    }
    match form {
        Form::Hex => level_meaning(alloc, set, LevelName::Binary, text),
        Form::Tag => level_meaning(alloc, set, LevelName::Tag, text),
        Form::Pure => level_meaning(alloc, set, LevelName::Pure, text),
        Form::Raw => Ok(meaning_alone(alloc, raw_identity(alloc, set, text)?)),
        Form::Bracketed => Ok(meaning_alone(alloc, bracketed_identity(alloc, set, text)?)),
        Form::Link => Ok(meaning_alone(alloc, link_identity(alloc, set, text)?)),
    }
}

/// The meaning of a text.
pub struct Meaning<'a> {
    /// The identity that it names.
    pub identity: Identity<'a>,
    /// The number of digits of the GS1 Company Prefix, if the form gives it.
    pub gcp: Option<u8>,
    /// The filter value, if the form gives it.
    pub filter: Option<u8>,
    /// The name of the encoding, empty if the form has none.
    pub encoding: Text,
}

// by hand, so that a function that drops one calls this one: a derived drop is written out at each of its exits
impl Drop for Meaning<'_> {
    fn drop(self) {
        let Meaning {
            identity: _,
            gcp: _,
            filter: _,
            encoding: _,
        } = self;
    }
}

/// Returns the meaning of an identity that no EPC names.
pub(crate) fn meaning_alone(alloc: Global, identity: Identity<'_>) -> Meaning<'_>
    ensures { result ≡ identity_meaning identity.entry }
{
    Meaning {
        identity,
        gcp: None,
        filter: None,
        encoding: Text::new(alloc),
    }
}

/// Returns the identity of pairs. Returns `Ident` if and only if they have none, with the reason.
fn pairs_identity<'a>(
    alloc: Global,
    set: &TableSet,
    pairs: Vec<Pair<'a>>,
) -> Result<Identity<'a>, Reason>
    requires { All (IsInOrder set.now.ais) pairs.items }
    ensures named { UnlessMemory result (IsIdentified set.now pairs.entry.items (alone result)) }
    ensures with_table { IfOk result (IsMadeWith set.now.ais) }
{
    match make(alloc, set.ais(), pairs) {
        Ok(identity) => Ok(identity),
        Err(IdentFault::Memory) => Err(Reason::Memory),
        Err(error) => Err(Reason::Ident(error)),
    }
}

/// Returns the identity that an element string names as a barcode scanner transmits it.
pub(crate) fn raw_identity<'a>(
    alloc: Global,
    set: &TableSet,
    text: &'a [u8],
) -> Result<Identity<'a>, Reason>
    ensures named { UnlessMemory result (Means set.now Form.Raw text.now (alone result)) }
    ensures with_table { IfOk result (IsMadeWith set.now.ais) }
{
    let pairs = read_raw(alloc, set.ais(), text)?;
    pairs_identity(alloc, set, pairs)
}

/// Returns the identity that a bracketed element string (human readable interpretation) names.
pub(crate) fn bracketed_identity<'a>(
    alloc: Global,
    set: &TableSet,
    text: &'a [u8],
) -> Result<Identity<'a>, Reason>
    ensures named { UnlessMemory result (Means set.now Form.Bracketed text.now (alone result)) }
    ensures with_table { IfOk result (IsMadeWith set.now.ais) }
{
    let pairs = read_bracketed(alloc, set.ais(), text)?;
    pairs_identity(alloc, set, pairs)
}

/// Returns the identity that a link names.
pub(crate) fn link_identity<'a>(
    alloc: Global,
    set: &TableSet,
    text: &'a [u8],
) -> Result<Identity<'a>, Reason>
    ensures named { UnlessMemory result (Means set.now Form.Link text.now (alone result)) }
    ensures with_table { IfOk result (IsMadeWith set.now.ais) }
{
    let pairs = read_link(alloc, set.ais(), text)?;
    pairs_identity(alloc, set, pairs)
}
