ghost use Rattle.std.specs.Prelude.{◌≡◌, [], ◌∷◌, OnSome, map, string_bytes};
ghost use Rattle.tdl_arguments.specs.Pages.{page_asked, page_named, page_word};
ghost use Rattle.tdl_arguments.specs.Requests.{NotInOrder, known_words};

/// A text that arguments ask for: the whole help, the version, or the part of the help on a command.
#[derive(Clone, Copy)]
pub enum Page {
    /// The whole help.
    Help,
    /// The version.
    Version,
    /// The part on `canon`.
    Canon,
    /// The part on `translate`.
    Translate,
    /// The part on `check`.
    Check,
    /// The part on `resolve`.
    Resolve,
    /// The part on `serve`.
    Serve,
    /// The part on `gen`.
    Gen,
    /// The part on `migrate`.
    Migrate,
    /// The part on `class canon` and `class uri`.
    Class,
    /// The part on `dump read` and `dump write`.
    Dump,
    /// The part on `merge`.
    Merge,
}

/// Returns the word of a page.
fn page_word(page: Page) -> &'static str
    ensures { result.now ≡ page_word page }
{
    match page {
        Page::Help => "--help",
        Page::Version => "--version",
        Page::Canon => "canon",
        Page::Translate => "translate",
        Page::Check => "check",
        Page::Resolve => "resolve",
        Page::Serve => "serve",
        Page::Gen => "gen",
        Page::Migrate => "migrate",
        Page::Class => "class",
        Page::Dump => "dump",
        Page::Merge => "merge",
    }
}

/// Returns the part of the help on the command that begins with the word.
fn page_named(word: &str) -> Option<Page>
    ensures { result ≡ page_named word.now }
{
    [
        Page::Canon,
        Page::Translate,
        Page::Check,
        Page::Resolve,
        Page::Serve,
        Page::Gen,
        Page::Migrate,
        Page::Class,
        Page::Dump,
        Page::Merge,
    ]
    .iter()
    .find(|page| word == page_word(**page))
    .copied()
}

/// Returns the text that a single argument asks for.
fn page_of_one(word: &str) -> Option<Page>
    ensures { result ≡ page_asked (word.now ∷ []) }
{
    if word == "--help" {
        return Some(Page::Help);
    }
    if word == "--version" {
        return Some(Page::Version);
    }
    None
}

/// Returns the text that two arguments ask for.
fn page_of_two(word: &str, last: &str) -> Option<Page>
    ensures { result ≡ page_asked (word.now ∷ last.now ∷ []) }
{
    if last == "--help" {
        return page_named(word);
    }
    None
}

/// Returns the text that the arguments ask for.
fn page_of(words: &[String]) -> Option<Page>
    ensures { result ≡ page_asked (map string_bytes words.now) }
{
    if words.len() == 1 {
        return page_of_one(words[0].as_str());
    }
    if words.len() == 2 {
        return page_of_two(words[0].as_str(), words[1].as_str());
    }
    None
}

/// Returns the text that the arguments ask for, if they do. Such arguments are not valid for a command.
pub fn asked_page(words: &[String]) -> Option<Page>
    ensures page { result ≡ page_asked (known_words words.now) }
    ensures invalid { OnSome result (NotInOrder (known_words words.now)) }
{
    page_of(words)
}
