ghost use Rattle.std.specs.Prelude.{◌≡◌, ◌≤◌, ◌==◌, not, length, None, Some, All, IfOk, IfErr, ◌++◌, ◌∷◌, []};
ghost use Rattle.std.specs.List.{prefix_len};
ghost use Rattle.gs_ai.specs.PredefinedLengths.{predefined_length};
ghost use Rattle.gs_ident.specs.Identities.{IsInOrder};
ghost use Rattle.gs_element.specs.Answers.{IsRawRejection};
ghost use Rattle.gs_element.specs.Raw.{body_of, raw_value, raw_value_error, IsRaw};
ghost use Rattle.gs_element.specs.RawSupport.{without_separator, IsCutFrom};

use crate::errors::{RawFault, error_at};
use gs_ai::{AiTable, ElementWhy, Pair, ValueFault};
use gs_chars::{CowText, Memory};
use std::alloc::Global;

/// The FNC1, as readers transmit it.
const FNC1: u8 = 29;

/// Returns the text without a symbology identifier or an FNC1 at the start. Most texts begin with a digit and have neither.
fn body_of(text: &[u8]) -> &[u8]
    ensures { result.now ≡ body_of text.now }
{
    let Some((first, _)) = text.split_first() else {
        return without_identifier(text);
    };
    if first.is_ascii_digit() {
        return text;
    }
    without_identifier(text)
}

/// Returns the text without a symbology identifier or an FNC1, if one of them is at the start.
#[tactic(auto, unfolding(crate::specs::Raw::body_of))]
fn without_identifier(text: &[u8]) -> &[u8]
    ensures { result.now ≡ body_of text.now }
{
    if text.starts_with(b"]C1")
        || text.starts_with(b"]e0")
        || text.starts_with(b"]d2")
        || text.starts_with(b"]Q3")
    {
        &text[3..]
    } else {
        without_separator(text)
    }
}

/// Returns the text without one FNC1 at the start.
fn without_separator(text: &[u8]) -> &[u8]
    ensures { result.now ≡ without_separator text.now }
{
    match text {
        [FNC1, rest @ ..] => rest,
        _ => text,
    }
}

/// Returns the number of bytes before the next FNC1, or of all.
fn len_before_separator(text: &[u8]) -> usize
    ensures len { result ≡ prefix_len (λ c. not (c == 29)) text.now }
    ensures within { result ≤ length text.now }
{
    text.iter().take_while(|c| **c != FNC1).count()
}

/// Returns the value that is cut after a code: the part that the predefined length leaves to it, or all up to the next FNC1. It
/// is the whole rest if that is shorter.
fn cut_value<'a>(predefined: Option<usize>, code: &[u8], after: &'a [u8]) -> &'a [u8]
    requires { predefined ≡ predefined_length code.now }
    ensures { result.now ≡ raw_value code.now after.now }
{
    match predefined {
        Some(n) => after
            .split_at(after.len().min(n.saturating_sub(code.len())))
            .0,
        None => after.split_at(len_before_separator(after)).0,
    }
}

/// The start of a text.
#[derive(Clone, Copy)]
struct Cut<'a> {
    code: &'a [u8],
    value: &'a [u8],
    rest: &'a [u8],
}

/// Cuts the element at the start of the text: its code is the one that begins the text.
fn cut_element<'a>(table: &AiTable, text: &'a [u8]) -> Result<Cut<'a>, ValueFault>
    ensures cut { IfOk result (λ cut. IsCutFrom table.now text.now cut.code.now cut.value.now cut.rest.now) }
    ensures error { IfErr result (λ error. raw_value_error table.now text.now ≡ Some error) }
{
    let Some(row) = table.begins(text) else {
        return Err(ValueFault::Unknown);
    };
    let (code, after) = text.split_at(table.rows()[row].code.as_bytes().len());
    let value = cut_value(table.predefined(row), code, after);
    if let Err(error) = table.row_value_ok(row, value) {
        return Err(error);
    }
    let rest = without_separator(after.split_at(value.len()).1);
    Ok(Cut { code, value, rest })
}

/// Returns the pairs of an element string as a scanner transmits it (GS1 General Specifications, section 7.8). One of the
/// symbology identifiers `]C1`, `]e0`, `]d2`, `]Q3` or one FNC1 (the byte 29) may be at the start. An FNC1 follows each element
/// without predefined length, except at the end, and may follow any other. An empty text has no pairs.
///
/// Returns the first error from the left, at the place of the code: `Unknown` if no code begins the rest, otherwise that of the
/// value. May return `Memory` instead. Scans the text once, from left to right, and allocates only the list of the pairs, which
/// it lends.
pub fn read_raw<'a>(
    alloc: Global,
    table: &AiTable,
    text: &'a [u8],
) -> Result<Vec<Pair<'a>>, RawFault>
    ensures read { IfOk result (λ pairs. IsRaw table.now text.now pairs.items) }
    ensures in_order { IfOk result (λ pairs. All (IsInOrder table.now) pairs.items) }
    ensures rejected { IfErr result (IsRawRejection table.now text.now) }
{
    let mut pairs = Vec::new(alloc);
    // Only for the proof: the rows of the table satisfy its rules.
    let _ = table.rows();
    let mut rest = body_of(text);
    while !rest.is_empty() {
        match cut_element(table, rest) {
            Ok(cut) => {
                push_pair(&mut pairs, cut.code, CowText::lent(cut.value))?;
                rest = cut.rest;
            }
            Err(error) => {
                let at = text.len() - rest.len();
                return Err(error_at(at, ElementWhy::Value(error)));
            }
        }
    }
    Ok(pairs)
}

/// Adds the pair of this code and this value.
pub fn push_pair<'a>(
    pairs: &mut Vec<Pair<'a>>,
    code: &'a [u8],
    value: CowText<'a>,
) -> Result<(), Memory>
    ensures { IfOk result (λ _. pairs.new.items ≡ pairs.old.items
        ++ record { code = code.now; value = value.entry } ∷ []) }
{
    let code = CowText::lent(code);
    Ok(pairs.push(Pair { code, value })?)
}
