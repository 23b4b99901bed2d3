ghost use Rattle.std.specs.Prelude.{◌≡◌};
ghost use Rattle.tdl_messages.specs.Rejections.{file_limit, file_word};

/// A kind of file that the words may name.
#[derive(Clone, Copy, Debug, PartialEq)]
pub enum FileKind {
    /// The tables.
    Tables,
    /// The company prefix lengths.
    Prefixes,
    /// The links.
    Links,
    /// The second links that are merged.
    Second,
    /// The third links that are merged.
    Third,
    /// The links that others are merged to: no file, but rejected as one is.
    Merge,
    /// The description of a resolver.
    Describe,
    /// The classes of class URIs.
    Classes,
}

impl FileKind {
    /// Returns the word that a rejection of such a file is printed with.
    pub fn word(self) -> &'static [u8]
        ensures { result.now ≡ file_word self }
    {
        match self {
            FileKind::Tables => b"tables",
            FileKind::Prefixes => b"prefixes",
            FileKind::Links => b"links",
            FileKind::Second => b"second",
            FileKind::Third => b"third",
            FileKind::Merge => b"merge",
            FileKind::Describe => b"describe",
            FileKind::Classes => b"classes",
        }
    }

    /// Returns the most bytes that such a file may have.
    pub fn limit(self) -> usize
        ensures { result ≡ file_limit self }
    {
        match self {
            FileKind::Tables => 2_097_152,
            FileKind::Prefixes => 4_194_304,
            FileKind::Links | FileKind::Second | FileKind::Third | FileKind::Merge => 16_777_216,
            FileKind::Describe => 1_048_576,
            FileKind::Classes => 1_048_576,
        }
    }
}
