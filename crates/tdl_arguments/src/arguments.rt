ghost use Rattle.std.specs.Prelude.{◌≡◌, ◌∷◌, IfErr, IfNone, IfOk, IfSome, OnErr, Some, map, string_bytes};
ghost use Rattle.tdl_arguments.specs.CommandReads.{canon_of, command_by, command_of, form_named, gen_of, known_front, known_split, operated_of, plain_command, plain_of, stands_before, target_named, translation_of};
ghost use Rattle.tdl_arguments.specs.Commands.{form_word, target_word};
ghost use Rattle.tdl_arguments.specs.Requests.{Asks, NotInOrder, WordsInOrder, known_request, known_values, known_words, may_have};
ghost use Rattle.tdl_arguments.specs.RequestsSupport.{AsksNothing};
ghost use Rattle.tdl_arguments.specs.Wrongs.{IsWrong};

use crate::command::Command;
use crate::pairs::{are_of_rows, has_required};
use crate::request::{NamedValues, Request};
use crate::value_reader::{lines_of, named_files, named_values};
use crate::wrong::{Wrong, wrong_command, wrong_options};
use gs_links::keeps_names;
use gs_translate::{Form, Target};

/// A command with its operands, and the arguments after them.
#[derive(Clone, Copy)]
struct Split<'a> {
    /// The command with its operands.
    pub command: Command,
    /// The arguments after them.
    pub behind: &'a [String],
}

/// Returns the word of a form.
fn form_word(form: Form) -> &'static str
    ensures { result.now ≡ form_word form }
{
    match form {
        Form::Hex => "hex",
        Form::Tag => "tag",
        Form::Pure => "pure",
        Form::Raw => "raw",
        Form::Bracketed => "bracketed",
        Form::Link => "link",
    }
}

/// Returns the word of a form that texts are translated to.
fn target_word(target: Target) -> &'static str
    ensures { result.now ≡ target_word target }
{
    match target {
        Target::Hex => "hex",
        Target::Tag => "tag",
        Target::Pure => "pure",
        Target::Raw => "raw",
        Target::Bracketed => "bracketed",
        Target::Link => "link",
        Target::Canon => "canon",
    }
}

/// Returns the form of a word.
pub(crate) fn form_named(word: &str) -> Option<Form>
    ensures { result ≡ form_named word.now }
{
    [
        Form::Hex,
        Form::Tag,
        Form::Pure,
        Form::Raw,
        Form::Bracketed,
        Form::Link,
    ]
    .iter()
    .find(|form| word == form_word(**form))
    .copied()
}

/// Returns the form of a word that texts are translated to.
fn target_named(word: &str) -> Option<Target>
    ensures { result ≡ target_named word.now }
{
    [
        Target::Hex,
        Target::Tag,
        Target::Pure,
        Target::Raw,
        Target::Bracketed,
        Target::Link,
        Target::Canon,
    ]
    .iter()
    .find(|target| word == target_word(**target))
    .copied()
}

/// Returns the command `canon` of the word of a form, and the arguments after it.
fn canon_by<'a>(word: &str, behind: &'a [String]) -> Option<Split<'a>>
    ensures { known_split result ≡ canon_of (word.now ∷ map string_bytes behind.now) }
{
    let form = form_named(word)?;
    Some(Split {
        command: Command::Canon(form),
        behind,
    })
}

/// Returns the command `translate` of the arguments of two forms, and the arguments after it.
fn translation_by<'a>(from: &str, to: &str, behind: &'a [String]) -> Option<Split<'a>>
    ensures { known_split result ≡ translation_of (from.now ∷ to.now ∷ map string_bytes behind.now) }
{
    let form = form_named(from)?;
    let target = target_named(to)?;
    Some(Split {
        command: Command::Translate(form, target),
        behind,
    })
}

/// Returns the command `canon` of the arguments after that word.
fn canon_of(words: &[String]) -> Option<Split<'_>>
    ensures { known_split result ≡ canon_of (map string_bytes words.now) }
{
    if words.is_empty() {
        return None;
    }
    canon_by(words[0].as_str(), &words[1..])
}

/// Returns the command `translate` of the arguments after that word.
fn translation_of(words: &[String]) -> Option<Split<'_>>
    ensures { known_split result ≡ translation_of (map string_bytes words.now) }
{
    if words.len() < 2 {
        return None;
    }
    translation_by(words[0].as_str(), words[1].as_str(), &words[2..])
}

/// Returns the command `gen` of the word of a number of lines, and the arguments after it.
fn gen_by<'a>(word: &str, behind: &'a [String]) -> Option<Split<'a>>
    ensures { known_split result ≡ gen_of (word.now ∷ map string_bytes behind.now) }
{
    let lines = lines_of(word)?;
    Some(Split {
        command: Command::Gen(lines),
        behind,
    })
}

/// Returns the command `gen` of the arguments after that word.
fn gen_of(words: &[String]) -> Option<Split<'_>>
    ensures { known_split result ≡ gen_of (map string_bytes words.now) }
{
    if words.is_empty() {
        return None;
    }
    gen_by(words[0].as_str(), &words[1..])
}

/// Returns whether the arguments begin with these words.
fn stands_before(front: &[&str], words: &[String]) -> bool
    ensures { result ≡ stands_before (known_front front.now) (map string_bytes words.now) }
{
    if front.is_empty() {
        return true;
    }
    if words.is_empty() {
        return false;
    }
    words[0].as_str() == front[0] && stands_before(&front[1..], &words[1..])
}

/// Returns the command without operands that the arguments begin with.
fn plain_command(words: &[String]) -> Option<Command>
    ensures { result ≡ plain_command (map string_bytes words.now) }
{
    [
        Command::Check,
        Command::Resolve,
        Command::Serve,
        Command::Migrate,
        Command::ClassCanon,
        Command::ClassUri,
        Command::DumpRead,
        Command::DumpWrite,
        Command::Merge,
    ]
    .iter()
    .find(|command| stands_before(command.words(), words))
    .copied()
}

/// Returns the command without operands that the arguments begin with, and the arguments after it.
fn plain_of(words: &[String]) -> Option<Split<'_>>
    ensures { known_split result ≡ plain_of (map string_bytes words.now) }
{
    let command = plain_command(words)?;
    Some(Split {
        command,
        behind: &words[command.words().len()..],
    })
}

/// Returns the command with operands of a word and of the arguments after it.
fn command_by<'a>(word: &str, behind: &'a [String]) -> Option<Split<'a>>
    ensures { known_split result ≡ command_by word.now (map string_bytes behind.now) }
{
    if word == "canon" {
        return canon_of(behind);
    }
    if word == "translate" {
        return translation_of(behind);
    }
    if word == "gen" {
        return gen_of(behind);
    }
    None
}

/// Returns the command with operands that the arguments begin with, and the arguments after it and its operands.
fn operated_of(words: &[String]) -> Option<Split<'_>>
    ensures { known_split result ≡ operated_of (map string_bytes words.now) }
{
    if words.is_empty() {
        return None;
    }
    command_by(words[0].as_str(), &words[1..])
}

/// Returns the command that the arguments begin with, and the arguments after it and its operands.
fn command_of(words: &[String]) -> Option<Split<'_>>
    ensures { known_split result ≡ command_of (map string_bytes words.now) }
{
    match plain_of(words) {
        Some(split) => Some(split),
        None => operated_of(words),
    }
}

/// Returns whether the command may have these values, which are in the ranges of their names: `merge` needs a vocabulary that
/// keeps names.
fn may_have(command: Command, values: NamedValues<'_>) -> bool
    ensures { result ≡ may_have command (known_values values.entry) }
{
    match command {
        Command::Merge => keeps_names(values.voc.as_bytes()),
        _ => true,
    }
}

/// Returns the request of a command with the arguments after its operands. Returns `None` if and only if one of three holds.
/// They are not pairs that the command takes, a required name is missing, or this command may not have a value.
fn request_of(command: Command, words: &[String]) -> Option<Request<'_>>
    ensures request { IfSome result (λ request.
        Asks command (known_words words.now) (known_request request)) }
    ensures none { IfNone result (AsksNothing command (known_words words.now)) }
{
    if !are_of_rows(words, command.names()) {
        return None;
    }
    if !has_required(words, command.names()) {
        return None;
    }
    let values = named_values(words);
    if !may_have(command, values) {
        return None;
    }
    Some(Request {
        command,
        files: named_files(words),
        values,
    })
}

/// Returns the request that the arguments spell. If and only if they are not valid, returns which of them is wrong, and why.
pub fn read_arguments(words: &[String]) -> Result<Request<'_>, Wrong>
    ensures request { IfOk result (λ request.
        WordsInOrder (known_words words.now) (known_request request)) }
    ensures none { OnErr result (NotInOrder (known_words words.now)) }
    ensures wrong { IfErr result (λ wrong. IsWrong (known_words words.now) wrong) }
{
    let Some(split) = command_of(words) else {
        return Err(wrong_command(words));
    };
    match request_of(split.command, split.behind) {
        Some(request) => Ok(request),
        None => Err(wrong_options(
            split.command.names(),
            split.behind,
            words.len() - split.behind.len(),
        )),
    }
}
