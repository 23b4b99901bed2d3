ghost use Rattle.std.specs.Prelude.{◌≡◌, ◌≤◌, ◌<◌, length, None, Some, IfOk, IfErr, IfSome, IfNone};
ghost use Rattle.std.specs.List.{prefix_len};
ghost use Rattle.gs_linktext_grammar.specs.Answers.{IsSyntax};
ghost use Rattle.gs_linktext_grammar.specs.Bytes.{after_prefix, prefix_of, is_blank, is_target_byte, is_token};
ghost use Rattle.gs_linktext_grammar.specs.Bytes.{is_quotable, is_quoted_byte};
ghost use Rattle.gs_linktext_grammar.specs.Prefixes.{after_blanks, first_lexeme, quoted_of, said_from, target_of};
ghost use Rattle.gs_linktext_grammar.specs.Prefixes.{word_of};
ghost use Rattle.gs_linktext_grammar.specs.Lexemes.{unquoted};

use crate::error::LinkTextFault;
use crate::lexeme::Lexeme;
use gs_chars::Text;
use std::alloc::Global;

/// Returns the number of blanks at the start of the text.
fn count_blanks(text: &[u8]) -> usize
    ensures number { result ≡ prefix_len is_blank text.now }
    ensures within { result ≤ length text.now }
{
    text.iter().take_while(|c| is_blank(**c)).count()
}

/// Returns the number of bytes of a token at the start of the text.
fn count_token_bytes(text: &[u8]) -> usize
    ensures number { result ≡ prefix_len is_token text.now }
    ensures within { result ≤ length text.now }
{
    text.iter().take_while(|c| is_token(**c)).count()
}

/// Returns the number of bytes of a target at the start of the text.
fn count_target_bytes(text: &[u8]) -> usize
    ensures number { result ≡ prefix_len is_target_byte text.now }
    ensures within { result ≤ length text.now }
{
    text.iter().take_while(|c| is_target_byte(**c)).count()
}

/// Returns the text after its blanks.
#[tactic(auto, using(crate::proofs::PrefixLemmas::drop_prefix))]
pub(crate) fn after_blanks(text: &[u8]) -> &[u8]
    ensures value { result.now ≡ after_blanks text.now }
    ensures within { length result.now ≤ length text.now }
{
    text.split_at(count_blanks(text)).1
}

/// Returns the bytes of a token at the start of the text, and the rest.
#[tactic(auto, using(crate::proofs::PrefixLemmas::take_prefix, crate::proofs::PrefixLemmas::drop_prefix))]
fn split_word(text: &[u8]) -> (&[u8], &[u8])
    ensures prefix { result.0.now ≡ prefix_of is_token text.now }
    ensures behind { result.1.now ≡ after_prefix is_token text.now }
{
    text.split_at(count_token_bytes(text))
}

/// Returns the bytes of a target at the start of the text, and the rest.
#[tactic(auto, using(crate::proofs::PrefixLemmas::take_prefix, crate::proofs::PrefixLemmas::drop_prefix))]
fn split_target(text: &[u8]) -> (&[u8], &[u8])
    ensures prefix { result.0.now ≡ prefix_of is_target_byte text.now }
    ensures behind { result.1.now ≡ after_prefix is_target_byte text.now }
{
    text.split_at(count_target_bytes(text))
}

/// A lexeme, and the rest of the text.
#[derive(Drop)]
pub(crate) struct Next<'a> {
    pub(crate) lexeme: Lexeme,
    pub(crate) rest: &'a [u8],
}

/// Returns a word of these bytes. `Syntax` is returned if there are none.
fn word_of<'a>(alloc: Global, word: &[u8], rest: &'a [u8]) -> Result<Next<'a>, LinkTextFault>
    ensures ok { IfOk result (λ next. word_of word.now rest.now ≡ Some (next.lexeme, next.rest.now)) }
    ensures err { IfErr result (IsSyntax (word_of word.now rest.now ≡ None)) }
{
    if word.is_empty() {
        return Err(LinkTextFault::Syntax);
    }
    let lexeme = Lexeme::Word(Text::from_bytes(alloc, word)?);
    Ok(Next { lexeme, rest })
}

/// Returns the target of these bytes. Returns `Syntax` if there are none, or if no closing bracket follows.
fn target_of<'a>(alloc: Global, href: &[u8], behind: &'a [u8]) -> Result<Next<'a>, LinkTextFault>
    ensures ok { IfOk result (λ next. target_of href.now behind.now ≡ Some (next.lexeme, next.rest.now)) }
    ensures err { IfErr result (IsSyntax (target_of href.now behind.now ≡ None)) }
{
    let Some((closing, rest)) = behind.split_first() else {
        return Err(LinkTextFault::Syntax);
    };
    if *closing != b'>' {
        return Err(LinkTextFault::Syntax);
    }
    if href.is_empty() {
        return Err(LinkTextFault::Syntax);
    }
    let lexeme = Lexeme::Target(Text::from_bytes(alloc, href)?);
    Ok(Next { lexeme, rest })
}

/// The next byte of a quoted string, or its end, and the rest of the text.
#[derive(Clone, Copy)]
struct Step<'a> {
    byte: Option<u8>,
    rest: &'a [u8],
}

/// Returns the next byte of a quoted string, without its backslash. `None` is returned if it has none and does not end.
fn quoted_step(text: &[u8]) -> Option<Step<'_>>
    ensures some { IfSome result (λ step. unquoted text.now ≡ said_from step.byte step.rest.now) }
    ensures none { IfNone result (unquoted text.now ≡ None) }
    ensures shorter { IfSome result (λ step. length step.rest.now < length text.now) }
{
    let (first, behind) = text.split_first()?;
    if *first == b'"' {
        return Some(Step {
            byte: None,
            rest: behind,
        });
    }
    if *first == b'\\' {
        let (second, rest) = behind.split_first()?;
        if is_quotable(*second) {
            return Some(Step {
                byte: Some(*second),
                rest,
            });
        }
        return None;
    }
    if is_quoted_byte(*first) {
        return Some(Step {
            byte: Some(*first),
            rest: behind,
        });
    }
    None
}

/// Returns the quoted string whose first mark is at the start of the text.
fn quoted_of<'a>(alloc: Global, text: &'a [u8]) -> Result<Next<'a>, LinkTextFault>
    ensures ok { IfOk result (λ next. quoted_of (unquoted text.now) ≡ Some (next.lexeme, next.rest.now)) }
    ensures err { IfErr result (IsSyntax (quoted_of (unquoted text.now) ≡ None)) }
{
    let mut value = Text::new(alloc);
    let mut rest = text;
    while let Some(step) = quoted_step(rest) {
        rest = step.rest;
        let Some(byte) = step.byte else {
            let lexeme = Lexeme::Quoted(value);
            return Ok(Next { lexeme, rest });
        };
        value.push(byte)?;
    }
    Err(LinkTextFault::Syntax)
}

/// Returns the lexeme at the start of the text. `Syntax` is returned if there is none.
fn read_lexeme(alloc: Global, text: &[u8]) -> Result<Next<'_>, LinkTextFault>
    ensures ok { IfOk result (λ next. first_lexeme text.now ≡ Some (next.lexeme, next.rest.now)) }
    ensures err { IfErr result (IsSyntax (first_lexeme text.now ≡ None)) }
{
    let Some((first, rest)) = text.split_first() else {
        return Err(LinkTextFault::Syntax);
    };
    match *first {
        b',' => Ok(Next {
            lexeme: Lexeme::Comma,
            rest,
        }),
        b';' => Ok(Next {
            lexeme: Lexeme::Semicolon,
            rest,
        }),
        b'=' => Ok(Next {
            lexeme: Lexeme::Equals,
            rest,
        }),
        b'<' => {
            let (href, behind) = split_target(rest);
            target_of(alloc, href, behind)
        }
        b'"' => quoted_of(alloc, rest),
        _ => {
            let (word, behind) = split_word(text);
            word_of(alloc, word, behind)
        }
    }
}

/// Returns the lexeme at the start of the text, and the rest, which is shorter. Returns `Syntax` if there is no lexeme.
#[tactic(auto, using(crate::proofs::LexLemmas::shorter_prefix))]
pub(crate) fn first_lexeme(alloc: Global, text: &[u8]) -> Result<Next<'_>, LinkTextFault>
    ensures ok { IfOk result (λ next. first_lexeme text.now ≡ Some (next.lexeme, next.rest.now)) }
    ensures shorter { IfOk result (λ next. length next.rest.now < length text.now) }
    ensures err { IfErr result (IsSyntax (first_lexeme text.now ≡ None)) }
{
    let next = read_lexeme(alloc, text)?;
    Ok(next)
}

/// Returns whether the byte is a blank.
pub fn is_blank(c: u8) -> bool
    ensures { result ≡ is_blank c }
{
    matches!(c, b' ' | b'\t' | b'\r' | b'\n')
}

/// Returns whether the byte is one of a token.
#[tactic(auto, unfolding(crate::specs::Bytes::is_token))]
pub fn is_token(c: u8) -> bool
    ensures { result ≡ is_token c }
{
    matches!(c, b'!' | b'#'..=b'\'' | b'*'..=b'+' | b'-'..=b'.' | b'0'..=b'9' | b'A'..=b'Z' | b'^'..=b'z' | b'|' | b'~')
}

/// Returns whether the byte is allowed between `<` and `>`.
pub fn is_target_byte(c: u8) -> bool
    ensures { result ≡ is_target_byte c }
{
    c.is_ascii_graphic() && c != b'<' && c != b'>'
}

/// Returns whether the byte may be in a quoted string after a backslash.
pub fn is_quotable(c: u8) -> bool
    ensures { result ≡ is_quotable c }
{
    c == b'\t' || (c >= b' ' && c != 127)
}

/// Returns whether the byte may be in a quoted string without a backslash.
fn is_quoted_byte(c: u8) -> bool
    ensures { result ≡ is_quoted_byte c }
{
    is_quotable(c) && c != b'"' && c != b'\\'
}
