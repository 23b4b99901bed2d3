ghost use Rattle.std.specs.Prelude.{bytes_eq, ◌&&◌, ◌≡◌};
ghost use Rattle.tdl_arguments.specs.Names.{in_range, name_named, name_word, row_takes};

use crate::value_reader::{count_of, filter_of, gcp_of, is_vocabulary};
use gs_dlink::stem_ok;

/// A name that is before its value among the arguments.
#[derive(Clone, Copy)]
pub enum Name {
    /// The file of tables.
    Tables,
    /// The file of the lengths of company prefixes.
    Prefixes,
    /// The file of links, a linkset in JSON.
    Links,
    /// The file of links, a linkset as text.
    LinkText,
    /// The second file of links of those that are merged.
    Second,
    /// The third file of links of those that are merged.
    Third,
    /// The file that describes a resolver.
    Describe,
    /// The file of the classes of class URIs.
    Classes,
    /// The expansion of `gs1:` in relations.
    Voc,
    /// Whether the references of links are templates.
    Templates,
    /// The address that a server listens at.
    Listen,
    /// The number of connections that a server finishes.
    Count,
    /// A filter value.
    Filter,
    /// The number of digits of a company prefix.
    Gcp,
    /// The name of an encoding of tags.
    Encoding,
    /// Whether an identity keeps only its key.
    KeysOnly,
    /// The stem of links.
    Stem,
}

impl Name {
    /// Returns the word of the name.
    pub fn word(self) -> &'static str
        ensures { result.now ≡ name_word self }
    {
        match self {
            Name::Tables => "--tables",
            Name::Prefixes => "--prefixes",
            Name::Links => "--links",
            Name::LinkText => "--link-text",
            Name::Second => "--second",
            Name::Third => "--third",
            Name::Describe => "--describe",
            Name::Classes => "--classes",
            Name::Voc => "--voc",
            Name::Templates => "--templates",
            Name::Listen => "--listen",
            Name::Count => "--count",
            Name::Filter => "--filter",
            Name::Gcp => "--gcp",
            Name::Encoding => "--encoding",
            Name::KeysOnly => "--keys-only",
            Name::Stem => "--stem",
        }
    }

    /// Returns whether the name may have this value. A file may have any name, and an address may be any text.
    pub fn has_in_range(self, value: &str) -> bool
        ensures { result ≡ in_range self value.now }
    {
        match self {
            Name::Tables | Name::Prefixes | Name::Describe | Name::Classes | Name::Listen => true,
            Name::Links | Name::LinkText | Name::Second | Name::Third => true,
            Name::Voc => is_vocabulary(value),
            Name::Count => count_of(value).is_some(),
            Name::Filter => filter_of(value).is_some(),
            Name::Gcp => gcp_of(value).is_some(),
            Name::Encoding => !value.is_empty(),
            Name::KeysOnly | Name::Templates => value == "yes" || value == "no",
            Name::Stem => stem_ok(value.as_bytes()),
        }
    }
}

impl Name {
    /// Returns the name of a word.
    pub(crate) fn named(word: &str) -> Option<Name>
        ensures { result ≡ name_named word.now }
    {
        [
            Name::Tables,
            Name::Prefixes,
            Name::Links,
            Name::LinkText,
            Name::Second,
            Name::Third,
            Name::Describe,
            Name::Classes,
            Name::Voc,
            Name::Templates,
            Name::Listen,
            Name::Count,
            Name::Filter,
            Name::Gcp,
            Name::Encoding,
            Name::KeysOnly,
            Name::Stem,
        ]
        .iter()
        .find(|name| word == name.word())
        .copied()
    }

    /// Returns whether the word is that of the name, and the name may have the value.
    pub fn takes(self, word: &str, value: &str) -> bool
        ensures { result ≡ (bytes_eq (name_word self) word.now && in_range self value.now) }
    {
        self.word() == word && self.has_in_range(value)
    }
}

/// A row of a command's names: a name, or another instead of it; at most one of them is given.
#[derive(Clone, Copy)]
pub struct NameRow {
    /// The name.
    pub name: Name,
    /// The name that may be instead.
    pub instead: Option<Name>,
    /// Whether the command must have one of the two.
    pub required: bool,
}

impl NameRow {
    /// Returns whether one of the names of the row has this word, and may have this value.
    pub fn takes(self, word: &str, value: &str) -> bool
        ensures { result ≡ row_takes self word.now value.now }
    {
        match self.instead {
            Some(other) => self.name.takes(word, value) || other.takes(word, value),
            None => self.name.takes(word, value),
        }
    }
}
