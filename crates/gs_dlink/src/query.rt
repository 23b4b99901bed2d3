ghost use Rattle.std.specs.Prelude.{◌≡◌, ◌+◌, ◌^◌, ◌++◌, ◌≤◌, All, OnOk, map, length};
ghost use Rattle.gs_dlink.specs.Uris.{part_pairs, query_pairs, ends_authority, separates_parts};
ghost use Rattle.gs_dlink.specs.Values.{IsPlaced};
ghost use Rattle.gs_dlink.specs.ValuesSupport.{written_of};
ghost use Rattle.std.specs.List.{position_or_len};

use crate::value::WrittenPair;
use gs_ai::AiTable;
use gs_chars::{Memory, after, are_digits, place_of};
use memchr::{memchr2, memchr3};

/// Appends the pair of a part of a query, if its name is digits.
fn push_part<'a>(
    table: &AiTable,
    pairs: &mut Vec<WrittenPair<'a>>,
    at: usize,
    part: &'a [u8],
) -> Result<(), Memory>
    requires { All (IsPlaced table.now) pairs.old.items }
    ensures pairs { OnOk result (map written_of pairs.new.items
        ≡ map written_of pairs.old.items ++ part_pairs (record { at = at; text = part.now })) }
    ensures placed { OnOk result (All (IsPlaced table.now) pairs.new.items) }
{
    let name = place_of(part, b'=');
    let code = &part[..name];
    if code.is_empty() || !are_digits(code) {
        return Ok(());
    }
    pairs.push(WrittenPair {
        at,
        row: table.find(code),
        code,
        value: after(part, name),
    })?;
    Ok(())
}

/// Appends the pairs of a query in their order. The query is at the place in the whole text.
pub(crate) fn push_query<'a>(
    table: &AiTable,
    pairs: &mut Vec<WrittenPair<'a>>,
    at: usize,
    query: &'a [u8],
) -> Result<(), Memory>
    requires within { at + length query.now ≤ 2 ^ 63 }
    requires placed { All (IsPlaced table.now) pairs.old.items }
    ensures pairs { OnOk result (map written_of pairs.new.items
        ≡ map written_of pairs.old.items ++ query_pairs at query.now) }
    ensures placed { OnOk result (All (IsPlaced table.now) pairs.new.items) }
{
    let mut at = at;
    let mut rest = query;
    loop {
        let end = part_len(rest);
        push_part(table, pairs, at, &rest[..end])?;
        if end == rest.len() {
            return Ok(());
        }
        at += end + 1;
        rest = after(rest, end);
    }
}

/// Returns the place of the first byte that ends an authority, or the length of the text.
pub(crate) fn authority_len(text: &[u8]) -> usize
    ensures place { result ≡ position_or_len ends_authority text.now }
    ensures within { result ≤ length text.now }
{
    memchr3(b'/', b'?', b'#', text).unwrap_or(text.len())
}

/// Returns the offset, from 0, of the first byte that separates parts of a query, `&` or `;`, or the text's length.
pub fn part_len(text: &[u8]) -> usize
    ensures place { result ≡ position_or_len separates_parts text.now }
    ensures within { result ≤ length text.now }
{
    memchr2(b'&', b';', text).unwrap_or(text.len())
}
