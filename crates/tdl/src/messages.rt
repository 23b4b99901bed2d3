use gs_chars::Text;
use std::io::Error;
use tdl_arguments::{Name, NameRow, Request, Why, Wrong};
use tdl_run::Status;

/// Writes one line to standard error: the action that failed, and the system's words for the reason.
pub fn say_reason(rt: HostRuntime, what: &str, error: Error) {
    let _ = eprintln!(rt; "tdl: {what}: {error}");
}

/// Returns the text of a name that may not have a value.
fn range_text(name: Name) -> &'static str {
    match name {
        Name::Voc => "it is not 1 to 256 bytes from 33 to 126, or not allowed with this command",
        Name::Count => "it is not a number from 1 to 1,000,000",
        Name::Filter => "it is not a number from 0 to 7",
        Name::Gcp => "it is not a number from 1 to 12",
        Name::Encoding => "it is empty",
        Name::KeysOnly | Name::Templates => "it is not yes or no",
        Name::Stem => "it is not a stem, such as https://id.gs1.org",
        _ => "it is not allowed",
    }
}

/// Returns the text of a required row that is missing.
fn missing_text(row: NameRow) -> &'static str {
    match row.name {
        Name::Tables => "--tables FILE is missing",
        Name::Links if row.instead.is_some() => "--links FILE or --link-text FILE is missing",
        Name::Links => "--links FILE is missing",
        Name::Second => "--second FILE is missing",
        Name::Count => "--count NUMBER is missing",
        _ => "an option is missing",
    }
}

/// Returns the text of a reason why arguments are invalid.
fn why_text(why: Why) -> &'static str {
    match why {
        Why::MissingCommand => "a command is missing; tdl --help lists them",
        Why::MissingSecondWord => "the second word of the command is missing",
        Why::MissingForm => "a form is missing: hex, tag, pure, raw, bracketed or link",
        Why::MissingTarget => "the form to translate to is missing",
        Why::MissingLines => "the number of lines is missing",
        Why::NotACommand => "it is not a command; tdl --help lists them",
        Why::NotASecondWord => "it is not the second word of a command",
        Why::NotAForm => "it is not a form: hex, tag, pure, raw, bracketed or link",
        Why::NotATarget => "it is not a form, and not canon",
        Why::NotANumberOfLines => "it is not a number from 0 to 100,000",
        Why::NotAnOption => "it is not an option of this command",
        Why::Twice => "this option stands twice, or another stands for it",
        Why::MissingValue => "its value is missing",
        Why::OutOfRange(name) => range_text(name),
        Why::MissingOption(row) => missing_text(row),
        Why::Vocabulary => "the vocabulary is not allowed with this command",
    }
}

/// Writes which argument is wrong, and the reason.
pub fn say_wrong(rt: HostRuntime, arguments: &[String], wrong: Wrong) {
    let why = why_text(wrong.why);
    let word = match wrong.place {
        Some(place) => arguments.get(place),
        None => None,
    };
    let _ = match word {
        Some(word) => eprintln!(rt; "tdl: {:?}: {why}", word.as_str()),
        None => eprintln!(rt; "tdl: {why}"),
    };
}

/// Writes which file cannot be read.
pub fn say_file(rt: HostRuntime, name: Option<&Text>, error: Error) {
    match name.map(|name| str::from_utf8(name.as_bytes())) {
        Some(Ok(name)) => {
            let _ = eprintln!(rt; "tdl: cannot read {name:?}: {error}");
        }
        _ => say_reason(rt, "cannot read a file", error),
    }
}

/// Writes the address at which no connections can be accepted.
pub fn say_place(rt: HostRuntime, request: Option<Request<'_>>, error: Error) {
    match request {
        Some(request) => {
            let address = request.values.listen;
            let _ = eprintln!(rt; "tdl: cannot accept connections at {address:?}: {error}");
        }
        None => say_reason(rt, "cannot accept connections", error),
    }
}

/// Writes the message of a status without an argument, file or address. Writes nothing if nothing failed.
pub fn say_kind(rt: HostRuntime, status: Status, error: Option<Error>) {
    let what = match status {
        Status::ReadFault => "cannot read standard input",
        Status::WriteFault => "cannot write standard output",
        Status::InputLong => "standard input has more than 4,294,967,296 bytes",
        Status::Memory => "out of memory",
        _ => return,
    };
    match error {
        Some(error) => say_reason(rt, what, error),
        None => {
            let _ = eprintln!(rt; "tdl: {what}");
        }
    }
}
