ghost use Rattle.std.specs.Prelude.{◌≡◌, ◌+◌, ◌<◌, ◌^◌, ◌∷◌, true, All, IfOk, IfSome, MatchOption, None, Some, map, option_map, length, reverse};
ghost use Rattle.gs_ai.specs.Tables.{is_key_of};
ghost use Rattle.gs_dlink.specs.Paths.{codes_of, is_in_order, key_path, listed_of, path_or};
ghost use Rattle.gs_dlink.specs.PathsSupport.{is_code_at};
ghost use Rattle.gs_dlink.specs.Uris.{segments};
ghost use Rattle.gs_dlink.specs.UrisSupport.{LastSlash, NoSlash};
ghost use Rattle.gs_dlink.specs.Values.{IsPlaced};
ghost use Rattle.gs_dlink.specs.ValuesSupport.{written_of};

use crate::value::WrittenPair;
use gs_ai::AiTable;
use gs_chars::{Memory, Text};
use gs_ident::same_code;
use memchr::memrchr;
use std::alloc::Global;

/// Returns the place of the last slash.
#[tactic(auto, using(crate::proofs::CutLemmas::slash_answer))]
fn last_slash(text: &[u8]) -> Option<usize>
    ensures { MatchOption result (NoSlash text.now) (LastSlash text.now) }
{
    memrchr(b'/', text)
}

/// Returns whether the pair at an index has the code.
fn is_code_at(pairs: &[WrittenPair<'_>], index: usize, code: &[u8]) -> bool
    ensures { result ≡ is_code_at (map written_of pairs.now) index code.now }
{
    match pairs.get(index) {
        Some(pair) => same_code(code, pair.code),
        None => false,
    }
}

/// Returns whether the codes of the pairs are in the list in its order, each at most once.
fn are_in_order(list: &[Text], pairs: &[WrittenPair<'_>]) -> bool
    ensures { result ≡ is_in_order list.now (codes_of (map written_of pairs.now)) }
{
    let mut next = 0;
    for code in list {
        if is_code_at(pairs, next, code.as_bytes()) {
            next += 1;
        }
    }
    next == pairs.len()
}

/// Returns whether the code of the pair is that of a key.
fn is_key(table: &AiTable, pair: &WrittenPair<'_>) -> bool
    requires { IsPlaced table.now pair.now }
    ensures { result ≡ is_key_of table.now pair.now.code.now }
{
    match pair.row {
        Some(row) => table.is_key_row(row),
        None => false,
    }
}

/// Returns the codes that the row of a key lists as qualifiers.
fn listed<'a>(table: &'a AiTable, key: &WrittenPair<'_>) -> &'a [Text]
    requires { IsPlaced table.now key.now }
    ensures { result.now ≡ listed_of table.now key.now.code.now }
{
    match key.row {
        Some(row) => table.rows()[row].qualifiers.items(),
        None => &[],
    }
}

/// Returns the key path of a key and of the pairs after it, last pair first, if they are one.
fn with_key<'a>(
    table: &AiTable,
    key: WrittenPair<'a>,
    pairs: Vec<WrittenPair<'a>>,
) -> Result<Option<Vec<WrittenPair<'a>>>, Memory>
    requires is_key { is_key_of table.now key.code.now ≡ true }
    requires key_placed { IsPlaced table.now key }
    requires placed { All (IsPlaced table.now) pairs.items }
    ensures path { IfOk result (λ found. option_map (λ path. map written_of path.items) found
        ≡ path_or table.now (Some (written_of key.entry ∷ map written_of (reverse pairs.entry.items))) None) }
    ensures placed { IfOk result (λ found. IfSome found (λ path. All (IsPlaced table.now) path.items)) }
{
    let mut path = pairs;
    path.push(key)?;
    path.reverse();
    if !are_in_order(listed(table, &key), &path[1..]) {
        return Ok(None);
    }
    Ok(Some(path))
}

/// Returns the pairs of the key path in which the path ends. It examines the segments from the end, two at a time, up to the
/// code of a key.
pub(crate) fn key_path<'a>(
    alloc: Global,
    table: &AiTable,
    at: usize,
    path: &'a [u8],
) -> Result<Option<Vec<WrittenPair<'a>>>, Memory>
    requires { at + length path.now < 2 ^ 63 }
    ensures path { IfOk result (λ pairs. option_map (λ found. map written_of found.items) pairs
        ≡ key_path table.now (segments at path.now)) }
    ensures placed { IfOk result (λ pairs. IfSome pairs (λ found. All (IsPlaced table.now) found.items)) }
{
    // Only for the proof: the rows satisfy the rules.
    let _ = table.rows();
    let mut pairs = Vec::new(alloc);
    let mut front = path;
    loop {
        let Some(value) = last_slash(front) else {
            return Ok(None);
        };
        let before = &front[..value];
        let Some(code) = last_slash(before) else {
            return Ok(None);
        };
        let name = &before[code + 1..];
        let pair = WrittenPair {
            at: at + code + 1,
            row: table.find(name),
            code: name,
            value: &front[value + 1..],
        };
        if is_key(table, &pair) {
            return with_key(table, pair, pairs);
        }
        pairs.push(pair)?;
        front = &before[..code];
    }
}
