ghost use Rattle.std.specs.Prelude.{◌≡◌, Option, unwrap_or, ◌≤◌, ◌<◌, ◌^◌, true, IfSome, SomeIff};
ghost use Rattle.tdl_arguments.specs.Names.{OfPairs, look_up, name_word};
ghost use Rattle.tdl_arguments.specs.Requests.{known_files, known_links, links_by, number_named};
ghost use Rattle.tdl_arguments.specs.Requests.{known_values, known_words, named_files, named_values};
ghost use Rattle.tdl_arguments.specs.Requests.{value_or};
ghost use Rattle.gs_grammar.specs.Words.{decimal_value};
ghost use Rattle.gs_grammar.specs.WrittenWords.{has_leading_zero};
ghost use Rattle.tdl_arguments.specs.Ranges.{count_of, filter_of, gcp_of, is_numeral, is_vocabulary, lines_of};
ghost use Rattle.tdl_arguments.specs.Ranges.{most_lines, number_within};
ghost use Rattle.tdl_arguments.specs.declared.name.Name.TheVariants.{Count, Filter, Gcp, LinkText, Links};

use crate::name::Name;
use crate::pairs::look_up;
use crate::request::{LinksFile, NamedFiles, NamedValues};
use gs_chars::{are_digits, are_visible};
use gs_ident::CANONICAL_STEM;

/// The default expansion of `gs1:` in relations.
const DEFAULT_VOC: &str = "https://ref.gs1.org/voc/";

/// The default address of a server.
const DEFAULT_LISTEN: &str = "127.0.0.1:8080";

/// Returns the file of links that pairs name, in JSON or as text.
fn named_links(words: &[String]) -> Option<LinksFile<'_>>
    ensures { OfPairs (known_words words.now) (λ pairs. known_links result
        ≡ links_by (look_up (name_word Links) pairs) (look_up (name_word LinkText) pairs)) }
{
    match look_up(words, Name::Links.word()) {
        Some(name) => Some(LinksFile::Json(name)),
        None => Some(LinksFile::Text(look_up(words, Name::LinkText.word())?)),
    }
}

/// Returns the files that pairs name.
pub fn named_files(words: &[String]) -> NamedFiles<'_>
    ensures { OfPairs (known_words words.now) (λ pairs. known_files result ≡ named_files pairs) }
{
    NamedFiles {
        tables: look_up(words, Name::Tables.word()),
        prefixes: look_up(words, Name::Prefixes.word()),
        links: named_links(words),
        second: look_up(words, Name::Second.word()),
        third: look_up(words, Name::Third.word()),
        describe: look_up(words, Name::Describe.word()),
        classes: look_up(words, Name::Classes.word()),
    }
}

/// Returns the value of a name, or the default.
fn value_or<'a>(words: &'a [String], name: Name, default: &'a str) -> &'a str
    ensures { OfPairs (known_words words.now) (λ pairs. result.now ≡ value_or default.now name pairs) }
{
    match look_up(words, name.word()) {
        Some(value) => value,
        None => default,
    }
}

/// Returns the number of connections that is named, and 0 if none is.
fn named_count(words: &[String]) -> u32
    ensures { OfPairs (known_words words.now) (λ pairs. result
        ≡ unwrap_or (number_named count_of Count pairs) 0) }
{
    let Some(value) = look_up(words, Name::Count.word()) else {
        return 0;
    };
    count_of(value).unwrap_or(0)
}

/// Returns the filter value that is named.
fn named_filter(words: &[String]) -> Option<u8>
    ensures { OfPairs (known_words words.now) (λ pairs. result ≡ number_named filter_of Filter pairs) }
{
    filter_of(look_up(words, Name::Filter.word())?)
}

/// Returns the number of digits of a company prefix that is named.
fn named_gcp(words: &[String]) -> Option<u8>
    ensures { OfPairs (known_words words.now) (λ pairs. result ≡ number_named gcp_of Gcp pairs) }
{
    gcp_of(look_up(words, Name::Gcp.word())?)
}

/// Returns the values that pairs name, with their defaults.
pub fn named_values(words: &[String]) -> NamedValues<'_>
    ensures { OfPairs (known_words words.now) (λ pairs. known_values result ≡ named_values pairs) }
{
    NamedValues {
        voc: value_or(words, Name::Voc, DEFAULT_VOC),
        templates: value_or(words, Name::Templates, "no") == "yes",
        listen: value_or(words, Name::Listen, DEFAULT_LISTEN),
        count: named_count(words),
        filter: named_filter(words),
        gcp: named_gcp(words),
        encoding: value_or(words, Name::Encoding, ""),
        keys_only: value_or(words, Name::KeysOnly, "no") == "yes",
        stem: value_or(words, Name::Stem, CANONICAL_STEM),
    }
}

/// Returns whether there is a leading zero before other digits.
fn has_leading_zero(digits: &[u8]) -> bool
    ensures { result ≡ has_leading_zero digits.now }
{
    digits.len() > 1 && digits[0] == b'0'
}

/// Returns whether the argument is decimal digits without a sign and without leading zeros.
fn is_numeral(word: &str) -> bool
    ensures { result ≡ is_numeral word.now }
{
    let digits = word.as_bytes();
    are_digits(digits) && !digits.is_empty() && !has_leading_zero(digits)
}

/// Returns the number that digits write. The word is a numeral. `None` is returned if and only if the number is not below 2^32.
fn number_of(digits: &str) -> Option<u32>
    requires { is_numeral digits.now ≡ true }
    ensures { SomeIff result (decimal_value digits.now < 2 ^ 32) (decimal_value digits.now) }
{
    match digits.parse::<u32>() {
        Ok(number) => Some(number),
        Err(_) => None,
    }
}

/// Returns the number from the least to the greatest that the argument writes. `None` is returned if and only if the argument is
/// not a numeral, or its number is not between them.
fn number_within(word: &str, least: u32, greatest: u32) -> Option<u32>
    ensures exact { result ≡ number_within least greatest word.now }
    ensures most { IfSome result (λ number. number ≤ greatest) }
{
    if !is_numeral(word) {
        return None;
    }
    let number = number_of(word)?;
    if least <= number && number <= greatest {
        return Some(number);
    }
    None
}

/// Returns the filter value that the argument writes. `None` is returned if and only if it writes no number from 0 to 7.
pub fn filter_of(word: &str) -> Option<u8>
    ensures { result ≡ filter_of word.now }
{
    Some(number_within(word, 0, 7)? as u8)
}

/// Returns the number of digits of a company prefix that the argument writes. `None` is returned if and only if it writes no
/// number from 1 to 12.
pub fn gcp_of(word: &str) -> Option<u8>
    ensures { result ≡ gcp_of word.now }
{
    Some(number_within(word, 1, 12)? as u8)
}

/// Returns the number of connections that the argument writes. `None` is returned if and only if it writes no number from 1 to
/// 1,000,000.
pub fn count_of(word: &str) -> Option<u32>
    ensures { result ≡ count_of word.now }
{
    number_within(word, 1, 1_000_000)
}

/// Returns the number of lines that the argument writes. `None` is returned if and only if it writes no number from 0 to 100,000.
pub fn lines_of(word: &str) -> Option<u32>
    ensures exact { result ≡ lines_of word.now }
    ensures most { IfSome result (λ lines. lines ≤ most_lines) }
{
    number_within(word, 0, 100_000)
}

/// Returns whether the value may stand for `gs1:` in relations: 1 to 256 bytes from 33 to 126.
pub fn is_vocabulary(value: &str) -> bool
    ensures { result ≡ is_vocabulary value.now }
{
    let bytes = value.as_bytes();
    1 <= bytes.len() && bytes.len() <= 256 && are_visible(bytes)
}
