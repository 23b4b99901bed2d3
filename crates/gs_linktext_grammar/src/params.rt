ghost use Rattle.std.specs.Prelude.{◌≡◌, IfOk, IfErr, None, Some, map, ◌<◌, IfSome, List, length};
ghost use Rattle.std.specs.Char.{to_ascii_lowercase};
ghost use Rattle.std.specs.Option.{option_map};
ghost use Rattle.gs_linktext_grammar.specs.Answers.{IsSyntax};
ghost use Rattle.gs_linktext_grammar.specs.Grammar.{name_in, param_by, param_of, param_with, params_of, value_in};
ghost use Rattle.gs_linktext_grammar.specs.Grammar.{is_comma, is_equals, is_semicolon};
ghost use Rattle.gs_linktext_grammar.specs.Pieces.{with_part, IsPiece};
ghost use Rattle.gs_linktext_grammar.specs.Lexemes.{Lexed};
ghost use Rattle.gs_linktext_grammar.specs.declared.lexeme.Lexeme.{Lexeme};

use crate::checked_text::CheckedText;
use crate::error::LinkTextFault;
use crate::lexeme::Lexeme;
use crate::lexer::{after_blanks, first_lexeme};
use crate::written_link::Param;
use gs_chars::{Memory, Text};
use std::alloc::Global;

/// Returns the text with its letters in lower case.
fn lower(alloc: Global, word: &[u8]) -> Result<Text, Memory>
    ensures { IfOk result (λ text. text ≡ map to_ascii_lowercase word.now) }
{
    let mut name = Text::new(alloc);
    for c in word {
        name.push(c.to_ascii_lowercase())?;
    }
    Ok(name)
}

/// Returns the bytes of a word.
fn name_in(lexeme: &Lexeme) -> Option<&[u8]>
    ensures { option_map (λ name. name.now) result ≡ name_in lexeme.now }
{
    match lexeme {
        Lexeme::Word(word) => Some(word.as_bytes()),
        _ => None,
    }
}

/// Returns the bytes of a word, or the contents of a quoted string.
fn value_in(lexeme: &Lexeme) -> Option<&[u8]>
    ensures { option_map (λ value. value.now) result ≡ value_in lexeme.now }
{
    match lexeme {
        Lexeme::Word(value) | Lexeme::Quoted(value) => Some(value.as_bytes()),
        _ => None,
    }
}

/// Returns the parameter of a name and a value, the letters of its name in lower case. `None` is returned if one is not UTF-8.
fn param_with(alloc: Global, name: &[u8], value: &[u8]) -> Result<Option<Param>, Memory>
    ensures { IfOk result (λ param. param ≡ param_with name.now value.now) }
{
    let Some(name) = CheckedText::new(lower(alloc, name)?) else {
        return Ok(None);
    };
    let Some(value) = CheckedText::new(Text::from_bytes(alloc, value)?) else {
        return Ok(None);
    };
    Ok(Some(Param { name, value }))
}

/// Returns the parameter of a name and a value, if there are both.
fn param_by(
    alloc: Global,
    name: Option<&[u8]>,
    value: Option<&[u8]>,
) -> Result<Option<Param>, Memory>
    ensures { IfOk result (λ param.
        param ≡ param_by (option_map (λ n. n.now) name.entry) (option_map (λ v. v.now) value.entry)) }
{
    let Some(name) = name else {
        return Ok(None);
    };
    let Some(value) = value else {
        return Ok(None);
    };
    param_with(alloc, name, value)
}

/// Returns the parameter of a part, or `None` if it is not a parameter.
fn param_of(alloc: Global, part: &[Lexeme]) -> Result<Option<Param>, Memory>
    ensures { IfOk result (λ param. param ≡ param_of part.now) }
{
    match part {
        [name] => param_by(alloc, name_in(name), Some(b"".as_slice())),
        [name, sign, value] => {
            if sign.is_equals() {
                return param_by(alloc, name_in(name), value_in(value));
            }
            Ok(None)
        }
        _ => Ok(None),
    }
}

/// Appends the parameter of a part, if it has a lexeme. Returns `Syntax` if it is not a parameter.
fn push_param(alloc: Global, params: &mut Vec<Param>, part: &[Lexeme]) -> Result<(), LinkTextFault>
    ensures ok { IfOk result (λ _. with_part param_of part.now params.old.items ≡ Some params.new.items) }
    ensures err { IfErr result (IsSyntax (with_part param_of part.now params.old.items ≡ None)) }
{
    if part.is_empty() {
        return Ok(());
    }
    let Some(param) = param_of(alloc, part)? else {
        return Err(LinkTextFault::Syntax);
    };
    params.push(param)?;
    Ok(())
}

/// Returns the parameters of the parts that have a lexeme. `Syntax` is returned if one is not a parameter.
pub(crate) fn params_of(alloc: Global, parts: &[&[Lexeme]]) -> Result<Vec<Param>, LinkTextFault>
    ensures ok { IfOk result (λ params. params_of (map (λ part. part.now) parts.now) ≡ Some params.items) }
    ensures err { IfErr result (IsSyntax (params_of (map (λ part. part.now) parts.now) ≡ None)) }
{
    let mut params = Vec::new(alloc);
    for part in parts {
        push_param(alloc, &mut params, part)?;
    }
    Ok(params)
}

impl Lexeme {
    /// Returns whether it is a comma.
    fn is_comma(&self) -> bool
        ensures { result ≡ is_comma self.now }
    {
        matches!(self, Lexeme::Comma)
    }

    /// Returns whether it is a semicolon.
    pub(crate) fn is_semicolon(&self) -> bool
        ensures { result ≡ is_semicolon self.now }
    {
        matches!(self, Lexeme::Semicolon)
    }

    /// Returns whether it is an equals sign.
    fn is_equals(&self) -> bool
        ensures { result ≡ is_equals self.now }
    {
        matches!(self, Lexeme::Equals)
    }
}

/// The lexemes up to a comma or to the end of a text, and the rest after the comma.
#[derive(Drop)]
pub(crate) struct Piece<'a> {
    pub(crate) lexemes: Vec<Lexeme>,
    pub(crate) rest: Option<&'a [u8]>,
}

/// Returns the lexemes of the text up to its first comma, or to its end. Returns `Syntax` if a part of the text is not a lexeme.
pub(crate) fn cut_piece(alloc: Global, text: &[u8]) -> Result<Piece<'_>, LinkTextFault>
    ensures ok { IfOk result (λ piece.
        IsPiece text.now piece.lexemes.items (option_map (λ rest. rest.now) piece.rest)) }
    ensures shorter { IfOk result (λ piece. IfSome piece.rest (λ rest. length rest.now < length text.now)) }
    ensures err { IfErr result (IsSyntax ((xs : List Lexeme) → Lexed xs text.now → ⊥)) }
{
    let mut lexemes = Vec::new(alloc);
    let mut rest = text;
    loop {
        let behind = after_blanks(rest);
        if behind.is_empty() {
            return Ok(Piece {
                lexemes,
                rest: None,
            });
        }
        let next = first_lexeme(alloc, behind)?;
        rest = next.rest;
        if next.lexeme.is_comma() {
            return Ok(Piece {
                lexemes,
                rest: Some(rest),
            });
        }
        lexemes.push(next.lexeme)?;
    }
}
