ghost use Rattle.std.specs.Prelude.{◌≡◌, ◌≤◌, [], IfOk, OnErr, find, length};
ghost use Rattle.gs_chars.specs.Answers.{BeginsWith};
ghost use Rattle.gs_chars.specs.Limits.{longest_text};
ghost use Rattle.gs_translate.specs.Steps.{AppendsText, UnlessMemory};
ghost use Rattle.gs_translate.specs.Meanings.{Means, identity_meaning};
ghost use Rattle.gs_translate.specs.MeaningsSupport.{alone};
ghost use Rattle.gs_translate.specs.Translations.{IsTranslated, AreInOrder, IsTranslation};
ghost use Rattle.std.specs.Option.{option_copied};
ghost use Rattle.gs_ident.specs.Identities.{IsMadeWith};
ghost use Rattle.gs_translate.specs.Targets.{has_key, kept, key_and_serial, narrowed};

use crate::form::{Form, Options, Target};
use crate::reader::{bracketed_identity, link_identity, raw_identity};
use crate::reason::Reason;
use crate::recoding::append_of_level;
use crate::spelling::append_spelling;
use gs_chars::{LONGEST_TEXT, Memory, Text};
use gs_ident::{Identity, Pair, same_code};
use gs_prefix::PrefixList;
use gs_tables::{Kind, LevelName, SerialAt, TableSet};
use std::alloc::Global;
use std::marker::Model;

/// The tables, options and forms by which texts are translated. The filter value of the options is at most 7, and `stem_ok`
/// allows their stem.
#[derive(Drop)]
pub struct Translator<'a> {
    /// The tables.
    pub set: &'a TableSet,
    /// The company prefix lengths.
    pub prefixes: &'a PrefixList,
    /// The options, in addition to the texts and the forms.
    pub options: &'a Options,
    /// The form of the texts.
    pub from: Form,
    /// The form that they are translated to.
    pub to: Target,
}

impl<'a> Model for Translator<'a> {
    ghost use Rattle.gs_translate.specs.Translations.{AreInOrder, Translating};

    ghost Value = { Translating };

    ghost view = { λ t. record {
      set = t.set.now;
      prefixes = t.prefixes.now;
      options = t.options.now;
      from = t.from;
      to = t.to;
    } };

    ghost invariant = { λ t. AreInOrder t.options.now };
}

/// Returns a place for a text, with the memory that most texts take.
fn new_text(alloc: Global) -> Result<Vec<u8>, Memory>
    ensures { IfOk result (λ text. text.items ≡ []) }
{
    Ok(Vec::with_capacity(alloc, 128)?)
}

impl Translator<'_> {
    /// Appends the translation of a text, or gives why it is rejected, as `translate` says. After a rejection `out` is
    /// unchanged; after out of memory it begins with its old contents.
    pub fn append(&self, alloc: Global, text: &[u8], out: &mut Vec<u8>) -> Result<(), Reason>
        ensures written { UnlessMemory result (AppendsText
            (IsTranslated self.now text.now) out.old.items out.new.items result) }
        ensures begun { OnErr result (BeginsWith out.new.items out.old.items) }
    {
        if text.len() > LONGEST_TEXT {
            return Err(Reason::Long);
        }
        let Translator {
            set,
            options,
            to,
            ..
        } = *self;
        match self.from {
            Form::Hex => append_of_level(alloc, set, options, LevelName::Binary, to, text, out),
            Form::Tag => append_of_level(alloc, set, options, LevelName::Tag, to, text, out),
            Form::Pure => append_of_level(alloc, set, options, LevelName::Pure, to, text, out),
            Form::Raw => self.append_named(alloc, text, raw_identity(alloc, set, text), out),
            Form::Bracketed => {
                self.append_named(alloc, text, bracketed_identity(alloc, set, text), out)
            }
            Form::Link => self.append_named(alloc, text, link_identity(alloc, set, text), out),
        }
    }

    /// Appends the translation of an element string or a link by the identity that it names, or gives why it is rejected.
    fn append_named(
        &self,
        alloc: Global,
        text: &[u8],
        named: Result<Identity<'_>, Reason>,
        out: &mut Vec<u8>,
    ) -> Result<(), Reason>
        requires short { length text.now ≤ longest_text }
        requires named { UnlessMemory named (Means self.now.set self.now.from text.now (alone named)) }
        requires with_table { IfOk named (IsMadeWith self.now.set.ais) }
        ensures written { UnlessMemory result (AppendsText
            (IsTranslated self.now text.now) out.old.items out.new.items result) }
        ensures begun { OnErr result (BeginsWith out.new.items out.old.items) }
    {
        let identity = kept(self.set, self.options.keys_only, named?);
        append_spelling(
            alloc,
            self.set,
            self.prefixes,
            self.options,
            self.to,
            identity,
            out,
        )
    }

    /// Returns the translation of a text, or why it is rejected, as `translate` says.
    pub fn translate(&self, alloc: Global, text: &[u8]) -> Result<Text, Reason>
        ensures { UnlessMemory result (IsTranslated self.now text.now result) }
    {
        let mut out = new_text(alloc)?;
        self.append(alloc, text, &mut out)?;
        Ok(Text::from_vec(out))
    }
}

/// Returns the translation of a text of a form to the requested form. It is the one spelling of the identity that it names,
/// or the first reason why it is rejected. With `keys_only` the identity keeps only its key, and its serial if that is a
/// separate element.
///
/// The reasons of `read` come first. Element strings, links and canonical links are then written of every identity. For bits
/// and EPC URIs, returns these in order. `NoKind`: no kind of the tables has the key. `Extra`: a pair is neither the key nor
/// its serial; names the first. `Missing(Gcp)`: neither the text nor the options nor the list, in this order, give the
/// company prefix length. `NoOption`: no option of any level has this kind and length. `Missing(Serial)`: the identity has
/// no serial, and no text means its absence. `Missing(Filter)`, except for a pure identity: neither the text nor the
/// options, in this order, give a filter value. Then `NoOption` and `CannotHold` as `write_hex`, `write_tag` and
/// `write_pure` of gs_epc return them. They use the encoding of the options or, if that is empty, of the text. May return
/// `Memory` instead. The filter value of the options is at most 7, and `stem_ok` allows their stem.
pub fn translate(
    alloc: Global,
    set: &TableSet,
    prefixes: &PrefixList,
    options: &Options,
    from: Form,
    to: Target,
    text: &[u8],
) -> Result<Text, Reason>
    requires { AreInOrder options.now }
    ensures { UnlessMemory result
        (IsTranslation set.now prefixes.now options.now from to text.now result) }
{
    let translator = Translator {
        set,
        prefixes,
        options,
        from,
        to,
    };
    translator.translate(alloc, text)
}

/// Returns the key, with its serial if that is a separate element.
fn key_and_serial<'a>(serial: &SerialAt, identity: Identity<'a>) -> Identity<'a>
    ensures { result ≡ key_and_serial serial.now identity.entry }
{
    match serial {
        SerialAt::Ai(code) => identity.with_qualifier(code.as_bytes()),
        SerialAt::Nowhere | SerialAt::Tail => identity.key_alone(),
    }
}

/// Returns the kind of a key.
fn kind_of<'a>(set: &'a TableSet, key: &Pair<'_>) -> Option<&'a Kind>
    ensures { option_copied result ≡ find (has_key key.now.code) set.now.kinds }
{
    set.kinds()
        .iter()
        .find(|kind| same_code(key.code.as_bytes(), kind.key.as_bytes()))
}

/// Returns the identity, with only its key kept if only keys are.
fn kept<'a>(set: &TableSet, keys_only: bool, identity: Identity<'a>) -> Identity<'a>
    requires { IsMadeWith set.now.ais identity }
    ensures kept { identity_meaning result ≡ kept set.now keys_only (identity_meaning identity.entry) }
    ensures with_table { IsMadeWith set.now.ais result }
{
    if keys_only {
        narrowed(set, identity)
    } else {
        identity
    }
}

/// Returns the identity with only its key kept, by the kind of the key.
fn narrowed<'a>(set: &TableSet, identity: Identity<'a>) -> Identity<'a>
    requires { IsMadeWith set.now.ais identity }
    ensures narrowed { result ≡ narrowed set.now identity.entry }
    ensures with_table { IsMadeWith set.now.ais result }
{
    // only for the proof: the rows satisfy the rules of application identifiers
    let _ = set.ais();
    match kind_of(set, identity.key()) {
        Some(kind) => key_and_serial(&kind.serial, identity),
        None => identity.key_alone(),
    }
}
