ghost use Rattle.std.specs.Prelude.{◌≡◌, [], ◌∷◌, IfErr, IfOk, bytes_eq, find, ◌≤◌, length};
ghost use Rattle.std.specs.List.{list_any};
ghost use Rattle.std.specs.Option.{option_map_or};
ghost use Rattle.gs_ai.specs.Values.{has_code};
ghost use Rattle.gs_template.specs.Errors.{first_error, is_brace, part_errors, place_errors};
ghost use Rattle.gs_template.specs.Templates.{bytes_behind, part_of, place_size, code_size, is_closed};

use crate::error::PlaceFault;
use gs_ai::AiTable;
use gs_chars::{Text, are_digits};

/// Returns whether a text begins with that many digits and then a closing brace.
fn is_closed(size: usize, text: &[u8]) -> bool
    ensures { result ≡ is_closed size text.now }
{
    match text.get(size) {
        Some(byte) => *byte == b'}' && are_digits(&text[..size]),
        None => false,
    }
}

/// Returns the number of digits, 2 to 4, before a closing brace, and 0 if there is no such code.
#[tactic(auto, unfolding(crate::specs::Templates::code_size))]
fn code_size(text: &[u8]) -> usize
    ensures size { result ≡ code_size text.now }
    ensures within { result ≤ length text.now }
{
    if is_closed(2, text) {
        2
    } else if is_closed(3, text) {
        3
    } else if is_closed(4, text) {
        4
    } else {
        0
    }
}

/// Returns the number of digits of the code of a place that begins with this byte and these after it; 0 if none begins there.
pub(crate) fn place_size(byte: u8, behind: &[u8]) -> usize
    ensures size { result ≡ place_size byte behind.now }
    ensures within { result ≤ length behind.now }
{
    if byte == b'{' { code_size(behind) } else { 0 }
}

/// Returns the codes of the qualifiers of a key, and none if no row has it.
fn qualifiers_of<'a>(table: &'a AiTable, key: &[u8]) -> &'a [Text]
    ensures { result.now ≡ option_map_or (λ row. row.qualifiers) (find (has_code key.now) table.now) [] }
{
    match table.row_with(key) {
        Some(row) => row.qualifiers.items(),
        None => &[],
    }
}

/// Returns whether the byte is a brace.
fn is_brace(byte: u8) -> bool
    ensures { result ≡ is_brace byte }
{
    byte == b'{' || byte == b'}'
}

/// Returns whether one of the codes is this code.
fn is_listed(codes: &[Text], code: &[u8]) -> bool
    ensures { result ≡ list_any (bytes_eq code.now) codes.now }
{
    codes.iter().any(|listed| code == listed.as_bytes())
}

/// Returns whether a place may have this AI for a key with these qualifiers.
fn is_beside(key: &[u8], qualifiers: &[Text], code: &[u8]) -> bool
    ensures { result ≡ list_any (bytes_eq code.now) (key.now ∷ qualifiers.now) }
{
    if code == key {
        return true;
    }
    is_listed(qualifiers, code)
}

/// Checks the part that begins at an offset of a template, and returns the number of its bytes after the first.
fn judge(
    key: &[u8],
    qualifiers: &[Text],
    at: usize,
    byte: u8,
    behind: &[u8],
) -> Result<usize, PlaceFault>
    ensures further { IfOk result (λ further. further ≡ bytes_behind (place_size byte behind.now)) }
    ensures fine { IfOk result (λ _.
        part_errors (key.now ∷ qualifiers.now) at (part_of byte behind.now (place_size byte behind.now))
        ≡ []) }
    ensures error { IfErr result (λ error.
        part_errors (key.now ∷ qualifiers.now) at (part_of byte behind.now (place_size byte behind.now))
        ≡ error ∷ []) }
{
    let size = place_size(byte, behind);
    if size == 0 {
        return if is_brace(byte) {
            Err(PlaceFault::Brace(at))
        } else {
            Ok(0)
        };
    }
    if is_beside(key, qualifiers, &behind[..size]) {
        Ok(size + 1)
    } else {
        Err(PlaceFault::Code(at))
    }
}

/// Checks that each brace of a template belongs to a place. Each place must have the AI of the key or of one of its qualifiers.
/// Returns the first error from the start. `Brace`: an opening brace without 2 to 4 digits and a closing brace after it.
/// `Brace`: a closing brace outside a place. `Code`: a place with another AI. The row of `key` in the table lists the
/// qualifiers; without a row, only the key's own AI is allowed. Does not allocate.
#[tactic(auto, unfolding(crate::specs::Errors::place_errors))]
pub fn places_ok(table: &AiTable, key: &[u8], href: &[u8]) -> Result<(), PlaceFault>
    ensures { result ≡ first_error (place_errors table.now key.now href.now) }
{
    let qualifiers = qualifiers_of(table, key);
    let mut further = 0;
    for (i, byte) in href.iter().enumerate() {
        if 0 < further {
            further -= 1;
            continue;
        }
        further = judge(key, qualifiers, i, *byte, &href[i + 1..])?;
    }
    Ok(())
}
