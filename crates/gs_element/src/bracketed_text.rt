ghost use Rattle.std.specs.Prelude.{◌≡◌, All, IfOk, IfErr, ◌≤◌, ◌∷◌, ◌++◌, [], true, IfSome, IfNone, length};
ghost use Rattle.gs_ident.specs.Identities.{IsInOrder};
ghost use Rattle.gs_element.specs.Answers.{IsBracketedRejection};
ghost use Rattle.gs_element.specs.BracketedTexts.{IsBracketed, closed_code, code_front, is_cut, value_before};
ghost use Rattle.gs_element.specs.BracketedTexts.{written_character, written_value};
ghost use Rattle.std.specs.List.{position_or_len};
ghost use Rattle.std.specs.Option.{option_map};
ghost use Rattle.memchr.specs.Find.{is_byte2};
ghost use Rattle.gs_element.specs.BracketedSupport.{is_escape};

use crate::errors::{RawFault, error_at};
use crate::raw::push_pair;
use gs_ai::{AiTable, ElementWhy, Pair};
use gs_chars::{CowText, Memory, Text, count_digits};
use memchr::memchr2;
use std::alloc::Global;

/// Reads an element string in the printed form: for each element `(`, its code, `)` and its value (GS1 General Specifications,
/// section 4). In a value `\(` stands for an opening bracket; the backslash is this project's own. An empty text has no pairs.
///
/// The error is the one at the smallest place: `Bracket` if `(` is missing, or if digits and `)` do not follow it. At the place
/// of the code's first digit it is `Unknown` if no row has the code, or the error of the value. May return `Memory` instead.
/// Reads the text from left to right. It lends the pairs, except a value with a backslash before a bracket.
pub fn read_bracketed<'a>(
    alloc: Global,
    table: &AiTable,
    text: &'a [u8],
) -> Result<Vec<Pair<'a>>, RawFault>
    ensures read { IfOk result (λ pairs. IsBracketed table.now text.now pairs.items) }
    ensures in_order { IfOk result (λ pairs. All (IsInOrder table.now) pairs.items) }
    ensures rejected { IfErr result (IsBracketedRejection table.now text.now) }
{
    // only for the proof: the rows of the table satisfy its rules
    let _ = table.rows();
    let mut pairs = Vec::new(alloc);
    let mut rest = text;
    while !rest.is_empty() {
        let at = text.len() - rest.len();
        let Some((code, after)) = code_front(rest) else {
            return Err(error_at(at, ElementWhy::Bracket));
        };
        let read = read_value(alloc, after)?;
        if let Err(error) = table.value_ok(code, read.value.as_bytes()) {
            return Err(error_at(at + 1, ElementWhy::Value(error)));
        }
        push_pair(&mut pairs, code, read.value)?;
        rest = read.rest;
    }
    Ok(pairs)
}

/// Returns the code and the text after its closing bracket, which is the first character after the code.
fn closed_code<'a>(code: &'a [u8], behind: &'a [u8]) -> Option<(&'a [u8], &'a [u8])>
    ensures { option_map (λ front. (front.0.now, front.1.now)) result ≡ closed_code code.now behind.now }
{
    match behind {
        [b')', rest @ ..] if !code.is_empty() => Some((code, rest)),
        _ => None,
    }
}

/// Returns the code in brackets at the start of the text, one or more digits, and the text after it. Returns `None` if the text
/// does not begin with such a code.
pub fn code_front(text: &[u8]) -> Option<(&[u8], &[u8])>
    ensures { option_map (λ front. (front.0.now, front.1.now)) result ≡ code_front text.now }
{
    match text {
        [b'(', behind @ ..] => {
            let (code, closing) = behind.split_at(count_digits(behind));
            closed_code(code, closing)
        }
        _ => None,
    }
}

/// Next character of a value, and the rest of the text.
#[derive(Clone, Copy)]
struct Next<'a> {
    character: u8,
    rest: &'a [u8],
}

/// Returns whether the character is a backslash that escapes an opening bracket.
fn is_escape(character: u8, behind: &[u8]) -> bool
    ensures { result ≡ is_escape character behind.now }
{
    match behind {
        [next, ..] => character == b'\\' && *next == b'(',
        [] => false,
    }
}

/// Returns the next character of a value, or `None` at its end. A value ends with the text, or before an opening bracket
/// without a backslash. A backslash before an opening bracket is not a character of the value.
fn next_character(text: &[u8]) -> Option<Next<'_>>
    ensures value { IfSome result (λ next. value_before text.now
        ≡ next.character ∷ value_before next.rest.now) }
    ensures text { IfSome result (λ next. text.now ≡ written_character next.character ++ next.rest.now) }
    ensures none { IfNone result ((value_before text.now ≡ []) × (is_cut text.now ≡ true)) }
{
    let Some((character, rest)) = text.split_first() else {
        return None;
    };
    if *character == b'(' {
        return None;
    }
    if is_escape(*character, rest) {
        let rest = rest.split_at(1).1;
        return Some(Next {
            character: b'(',
            rest,
        });
    }
    Some(Next {
        character: *character,
        rest,
    })
}

/// Returns the number of characters of the text before its first opening bracket or backslash, or of all.
fn plain_len(text: &[u8]) -> usize
    ensures len { result ≡ position_or_len (is_byte2 40 92) text.now }
    ensures within { result ≤ length text.now }
{
    memchr2(b'(', b'\\', text).unwrap_or(text.len())
}

/// Returns whether the text ends, or goes on with an opening bracket.
fn is_cut(text: &[u8]) -> bool
    ensures { result ≡ is_cut text.now }
{
    match text {
        [first, ..] => *first == b'(',
        [] => true,
    }
}

/// Appends the value up to the next opening bracket without a backslash before it, or the end, and returns the rest.
fn append_value<'a>(text: &'a [u8], value: &mut Text) -> Result<&'a [u8], Memory>
    ensures value { IfOk result (λ _. value.new ≡ value.old ++ value_before text.now) }
    ensures rest { IfOk result (λ rest. text.now ≡ written_value (value_before text.now) ++ rest.now) }
    ensures cut { IfOk result (λ rest. is_cut rest.now ≡ true) }
{
    let mut rest = text;
    while let Some(next) = next_character(rest) {
        value.push(next.character)?;
        rest = next.rest;
    }
    Ok(rest)
}

/// A value at the start of a text, and the text after it.
#[derive(Drop)]
struct Value<'a> {
    value: CowText<'a>,
    rest: &'a [u8],
}

/// Returns the value up to the next opening bracket without a backslash before it, or the end. It is lent if it has no backslash.
fn read_value(alloc: Global, text: &[u8]) -> Result<Value<'_>, Memory>
    ensures value { IfOk result (λ read. read.value ≡ value_before text.now) }
    ensures rest { IfOk result (λ read. text.now ≡ written_value (value_before text.now) ++ read.rest.now) }
    ensures cut { IfOk result (λ read. is_cut read.rest.now ≡ true) }
{
    let (plain, behind) = text.split_at(plain_len(text));
    if is_cut(behind) {
        return Ok(Value {
            value: CowText::lent(plain),
            rest: behind,
        });
    }
    let mut value = Text::from_bytes(alloc, plain)?;
    let rest = append_value(behind, &mut value)?;
    Ok(Value {
        value: CowText::from(value),
        rest,
    })
}
