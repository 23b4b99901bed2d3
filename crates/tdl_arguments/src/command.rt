ghost use Rattle.std.specs.Prelude.{◌≡◌};
ghost use Rattle.tdl_arguments.specs.Commands.{command_name, names_of};
ghost use Rattle.tdl_arguments.specs.CommandReads.{known_front};

use crate::name::{Name, NameRow};
use gs_translate::{Form, Target};

/// A command with its operands.
#[derive(Clone, Copy)]
pub enum Command {
    /// Answers each line of the input, a text of the form, by the canonical link of its identity.
    Canon(Form),
    /// Answers each line of the input, a text of the first form, by its translation to the second.
    Translate(Form, Target),
    /// Loads the files, and counts their contents.
    Check,
    /// Answers the requests of the input like those of one connection.
    Resolve,
    /// Answers the requests of the connections that a listener accepts.
    Serve,
    /// Translates that many generated lines, and counts the answers.
    Gen(u32),
    /// Prints the text of a table document as one of version 2.
    Migrate,
    /// Answers each line of the input, a class URI, by the canonical link of the things that it names.
    ClassCanon,
    /// Answers each line of the input, a link, by the class URI of the things that it names.
    ClassUri,
    /// Answers each line of the input, a dump of the EPC memory bank, by the line that shows it.
    DumpRead,
    /// Answers each line of the input, which shows a dump of the EPC memory bank, by the dump.
    DumpWrite,
    /// Prints the linkset that two or three linksets are merged to.
    Merge,
}

/// The name of the file of tables, which may be absent.
const TABLES: NameRow = NameRow {
    name: Name::Tables,
    instead: None,
    required: false,
};

/// The name of the file of tables, which must be there.
const TABLES_NEEDED: NameRow = NameRow {
    name: Name::Tables,
    instead: None,
    required: true,
};

/// The name of the file of company prefix lengths, which may be absent.
const PREFIXES: NameRow = NameRow {
    name: Name::Prefixes,
    instead: None,
    required: false,
};

/// The name of the file of classes, which may be absent.
const CLASSES: NameRow = NameRow {
    name: Name::Classes,
    instead: None,
    required: false,
};

/// The name of the file of links, in JSON or as text, which may be absent.
const LINKS: NameRow = NameRow {
    name: Name::Links,
    instead: Some(Name::LinkText),
    required: false,
};

/// The name of the file of links, in JSON or as text, which must be there.
const LINKS_NEEDED: NameRow = NameRow {
    name: Name::Links,
    instead: Some(Name::LinkText),
    required: true,
};

/// The name of the file of links in JSON, which must be there.
const JSON_NEEDED: NameRow = NameRow {
    name: Name::Links,
    instead: None,
    required: true,
};

/// The name of the second file of links, which must be there.
const SECOND_NEEDED: NameRow = NameRow {
    name: Name::Second,
    instead: None,
    required: true,
};

/// The name of the third file of links, which may be absent.
const THIRD: NameRow = NameRow {
    name: Name::Third,
    instead: None,
    required: false,
};

/// The name of the description of the resolver, which may be absent.
const DESCRIBE: NameRow = NameRow {
    name: Name::Describe,
    instead: None,
    required: false,
};

/// The name of the address of a server, which may be absent.
const LISTEN: NameRow = NameRow {
    name: Name::Listen,
    instead: None,
    required: false,
};

/// The name of the number of connections, which must be there.
const COUNT_NEEDED: NameRow = NameRow {
    name: Name::Count,
    instead: None,
    required: true,
};

/// The name of the vocabulary, which may be absent.
const VOC: NameRow = NameRow {
    name: Name::Voc,
    instead: None,
    required: false,
};

/// The name of whether references are templates, which may be absent.
const TEMPLATES: NameRow = NameRow {
    name: Name::Templates,
    instead: None,
    required: false,
};

/// The name of a filter value, which may be absent.
const FILTER: NameRow = NameRow {
    name: Name::Filter,
    instead: None,
    required: false,
};

/// The name of the number of digits of a company prefix, which may be absent.
const GCP: NameRow = NameRow {
    name: Name::Gcp,
    instead: None,
    required: false,
};

/// The name of an encoding of tags, which may be absent.
const ENCODING: NameRow = NameRow {
    name: Name::Encoding,
    instead: None,
    required: false,
};

/// The name of whether only keys are kept, which may be absent.
const KEYS_ONLY: NameRow = NameRow {
    name: Name::KeysOnly,
    instead: None,
    required: false,
};

/// The name of the stem of links, which may be absent.
const STEM: NameRow = NameRow {
    name: Name::Stem,
    instead: None,
    required: false,
};

impl Command {
    /// Returns the words of the command, one or two, without its operands.
    pub fn words(self) -> &'static [&'static str]
        ensures { known_front result.now ≡ command_name self }
    {
        match self {
            Command::Canon(_) => &["canon"],
            Command::Translate(_, _) => &["translate"],
            Command::Check => &["check"],
            Command::Resolve => &["resolve"],
            Command::Serve => &["serve"],
            Command::Gen(_) => &["gen"],
            Command::Migrate => &["migrate"],
            Command::ClassCanon => &["class", "canon"],
            Command::ClassUri => &["class", "uri"],
            Command::DumpRead => &["dump", "read"],
            Command::DumpWrite => &["dump", "write"],
            Command::Merge => &["merge"],
        }
    }

    /// Returns the names that the command takes.
    pub fn names(self) -> &'static [NameRow]
        ensures { result.now ≡ names_of self }
    {
        match self {
            Command::Canon(_) => &[TABLES],
            Command::Translate(_, _) => &[TABLES, PREFIXES, FILTER, GCP, ENCODING, KEYS_ONLY, STEM],
            Command::Check => &[TABLES, PREFIXES, LINKS, VOC, TEMPLATES],
            Command::Resolve => &[LINKS_NEEDED, TABLES, VOC, TEMPLATES, DESCRIBE],
            Command::Serve => &[
                LINKS_NEEDED,
                COUNT_NEEDED,
                TABLES,
                VOC,
                TEMPLATES,
                DESCRIBE,
                LISTEN,
            ],
            Command::Merge => &[JSON_NEEDED, SECOND_NEEDED, THIRD, TABLES, VOC],
            Command::Gen(_) | Command::DumpRead | Command::DumpWrite => &[TABLES],
            Command::Migrate => &[TABLES_NEEDED],
            Command::ClassCanon => &[TABLES, CLASSES],
            Command::ClassUri => &[TABLES, PREFIXES, CLASSES, GCP],
        }
    }
}
