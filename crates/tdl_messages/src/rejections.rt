ghost use Rattle.std.specs.Prelude.{◌≡◌, ◌++◌, IfOk, OnOk, codes, ◌∷◌, if◌then◌else◌};
ghost use Rattle.tdl_messages.specs.Rejections.{ai_text, error_text, json_text, level_text, limit_text, of_level, of_level_twice, prefixes_text, rejected_line, shown, tables_text};
ghost use Rattle.gs_translate.specs.Reasons.{numbered};
ghost use Rattle.gs_chars.specs.Characters.{is_visible};

use crate::answer_lines::append_words;
use crate::link_rejections::{append_classes, append_link_text, append_place_of, append_store};
use crate::rejection::{FileFault, Rejection};
use gs_ai::AiFault;
use gs_chars::{CharSet, Memory};
use gs_json::JsonFault;
use gs_prefix::PrefixFault;
use gs_tables_document::{LevelName, LimitName, LoadFault};
use gs_translate::{append_number, append_numbered, append_numbered_twice, append_word};
use std::alloc::Global;

/// Returns the printed byte of a place: a question mark if the byte is not a visible character.
fn shown_byte(c: u8) -> u8
    ensures { result ≡ (if is_visible c then c else 63) }
{
    if CharSet::Visible.holds(c) { c } else { b'?' }
}

/// Appends the printed place.
fn append_place(out: &mut Vec<u8>, place: &[u8]) -> Result<(), Memory>
    ensures { OnOk result (out.new.items ≡ out.old.items ++ shown place.now) }
{
    for c in place {
        out.push(shown_byte(*c))?;
    }
    Ok(())
}

/// Returns the name of a level.
fn level_text(level: LevelName) -> &'static [u8]
    ensures { result.now ≡ level_text level }
{
    match level {
        LevelName::Binary => b"binary",
        LevelName::Tag => b"tag",
        LevelName::Pure => b"pure",
    }
}

/// Appends a word, and after it a space and the name of a level.
fn append_of_level(out: &mut Vec<u8>, word: &[u8], level: LevelName) -> Result<(), Memory>
    ensures { OnOk result (out.new.items ≡ out.old.items ++ of_level word.now level) }
{
    append_words(out, word, b" ")?;
    append_word(out, level_text(level))
}

/// Returns the name of a limit.
fn limit_text(name: LimitName) -> &'static [u8]
    ensures { result.now ≡ limit_text name }
{
    match name {
        LimitName::Ais => b"ais",
        LimitName::Kinds => b"kinds",
        LimitName::Options => b"options",
        LimitName::Items => b"items",
        LimitName::Size => b"size",
    }
}

/// Appends a word, and the printed place after it.
fn append_placed(out: &mut Vec<u8>, word: &[u8], place: &[u8]) -> Result<(), Memory>
    ensures { OnOk result (out.new.items ≡ out.old.items ++ (word.now ++ shown place.now)) }
{
    append_word(out, word)?;
    append_place(out, place)
}

/// Appends why a document has not its form.
fn append_json(out: &mut Vec<u8>, error: &JsonFault) -> Result<(), Memory>
    ensures { OnOk result (out.new.items ≡ out.old.items ++ json_text error.now) }
{
    match error {
        JsonFault::Syntax => append_word(out, b"syntax"),
        JsonFault::Lacks(place) => append_placed(out, b"lacks ", place.as_bytes()),
        JsonFault::Kind(place) => append_placed(out, b"kind ", place.as_bytes()),
        JsonFault::Unknown(place) => append_placed(out, b"unknown ", place.as_bytes()),
        JsonFault::Memory => append_word(out, b"memory"),
    }
}

/// Appends an error of the application identifiers.
fn append_ai(alloc: Global, out: &mut Vec<u8>, error: &AiFault) -> Result<(), Memory>
    ensures { OnOk result (out.new.items ≡ out.old.items ++ ai_text error.now) }
{
    match error {
        AiFault::BadAi(i) => append_numbered(alloc, out, b"ai", *i),
        AiFault::CodePrefix(j, i) => append_numbered_twice(alloc, out, b"code-prefix", *j, *i),
        AiFault::KeyIsQualifier(i) => append_numbered(alloc, out, b"key-is-qualifier", *i),
        AiFault::PredefinedLength(i) => append_numbered(alloc, out, b"predefined", *i),
        AiFault::Memory => append_word(out, b"memory"),
    }
}

/// Appends an error of an option of a level, with two numbers.
fn append_option(
    alloc: Global,
    out: &mut Vec<u8>,
    word: &[u8],
    level: LevelName,
    first: usize,
    second: usize,
) -> Result<(), Memory>
    ensures { OnOk result (out.new.items ≡ out.old.items ++ of_level_twice word.now level first second) }
{
    append_of_level(out, word, level)?;
    append_number(alloc, out, first)?;
    append_number(alloc, out, second)
}

/// Appends the option of a level that does not fit its kind.
fn append_mismatch(
    alloc: Global,
    out: &mut Vec<u8>,
    level: LevelName,
    i: usize,
) -> Result<(), Memory>
    ensures { OnOk result (out.new.items ≡ out.old.items ++ numbered (of_level (codes "mismatch") level) i) }
{
    append_of_level(out, b"mismatch", level)?;
    append_number(alloc, out, i)
}

/// Appends the first ambiguous level, the options that share a list, and a text that shows it.
fn append_ambiguous(
    alloc: Global,
    out: &mut Vec<u8>,
    level: LevelName,
    first: usize,
    second: usize,
    text: &[u8],
) -> Result<(), Memory>
    ensures { OnOk result (out.new.items
        ≡ out.old.items ++ (of_level_twice (codes "ambiguous") level first second ++ 32 ∷ text.now)) }
{
    append_option(alloc, out, b"ambiguous", level, first, second)?;
    append_words(out, b" ", text)
}

/// Appends an error of the form of a document.
pub(crate) fn append_form(out: &mut Vec<u8>, error: &JsonFault) -> Result<(), Memory>
    ensures { OnOk result (out.new.items ≡ out.old.items ++ (codes "json " ++ json_text error.now)) }
{
    append_word(out, b"json ")?;
    append_json(out, error)
}

/// Appends a limit that is passed.
fn append_limit(out: &mut Vec<u8>, name: LimitName) -> Result<(), Memory>
    ensures { OnOk result (out.new.items ≡ out.old.items ++ (codes "limit " ++ limit_text name)) }
{
    append_words(out, b"limit ", limit_text(name))
}

/// Appends an error of tables.
fn append_tables(alloc: Global, out: &mut Vec<u8>, error: &LoadFault) -> Result<(), Memory>
    ensures { OnOk result (out.new.items ≡ out.old.items ++ tables_text error.now) }
{
    match error {
        LoadFault::Json(error) => append_form(out, error),
        LoadFault::Version => append_word(out, b"version"),
        LoadFault::Limit(name) => append_limit(out, *name),
        LoadFault::Ai(error) => append_ai(alloc, out, error),
        LoadFault::BadKind(i) => append_numbered(alloc, out, b"bad-kind", *i),
        LoadFault::BadItem(level, i, k) => append_option(alloc, out, b"bad-item", *level, *i, *k),
        LoadFault::Mismatch(level, i) => append_mismatch(alloc, out, *level, *i),
        LoadFault::Duplicate(level, j, i) => {
            append_option(alloc, out, b"duplicate", *level, *j, *i)
        }
        LoadFault::Ambiguous { level, i, j, text } => {
            append_ambiguous(alloc, out, *level, *i, *j, text.as_bytes())
        }
        LoadFault::Memory => append_word(out, b"memory"),
    }
}

/// Appends an error of a list of company prefix lengths.
fn append_prefixes(alloc: Global, out: &mut Vec<u8>, error: &PrefixFault) -> Result<(), Memory>
    ensures { OnOk result (out.new.items ≡ out.old.items ++ prefixes_text error.now) }
{
    match error {
        PrefixFault::Json(error) => append_form(out, error),
        PrefixFault::BadPrefix(i) => append_numbered(alloc, out, b"bad-prefix", *i),
        PrefixFault::BadLength(i) => append_numbered(alloc, out, b"bad-length", *i),
        PrefixFault::Twice(i) => append_numbered(alloc, out, b"twice", *i),
        PrefixFault::Limit => append_word(out, b"limit"),
        PrefixFault::Memory => append_word(out, b"memory"),
    }
}

/// Appends why a file is rejected.
fn append_error(alloc: Global, out: &mut Vec<u8>, error: &FileFault) -> Result<(), Memory>
    ensures { OnOk result (out.new.items ≡ out.old.items ++ error_text error.now) }
{
    match error {
        FileFault::Over => append_word(out, b"over"),
        FileFault::Tables(error) => append_tables(alloc, out, error),
        FileFault::Prefixes(error) => append_prefixes(alloc, out, error),
        FileFault::Linkset(error) => append_form(out, error),
        FileFault::Store(error) => append_store(alloc, out, error),
        FileFault::LinkText(error) => append_link_text(alloc, out, *error),
        FileFault::Place(i, error) => append_place_of(alloc, out, *i, *error),
        FileFault::Classes(error) => append_classes(alloc, out, error),
    }
}

/// Returns the printed reason why a file is rejected. Fails only with `Memory`.
pub fn fault_text(alloc: Global, error: &FileFault) -> Result<Vec<u8>, Memory>
    ensures { IfOk result (λ text. text.items ≡ error_text error.now) }
{
    let mut text = Vec::new(alloc);
    append_error(alloc, &mut text, error)?;
    Ok(text)
}

/// Returns the line of a rejected file: `refused WHICH REASON`, and a line feed.
pub fn rejected_line(alloc: Global, rejection: &Rejection) -> Result<Vec<u8>, Memory>
    ensures { IfOk result (λ line. line.items ≡ rejected_line rejection.now) }
{
    let mut line = b"refused ".to_vec(alloc)?;
    append_words(&mut line, rejection.kind.word(), b" ")?;
    append_error(alloc, &mut line, &rejection.error)?;
    line.push(b'\n')?;
    Ok(line)
}
