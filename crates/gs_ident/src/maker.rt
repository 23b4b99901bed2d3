ghost use Rattle.std.specs.Prelude.{◌≡◌, ◌≢◌, ◌<◌, All, Ok, Err, IfOk, IfErr, false, length, true, ◌||◌, ◌++◌, ◌∷◌, [], List};
ghost use Rattle.std.specs.List.{list_any};
ghost use Rattle.gs_ai.specs.Tables.{are_distinct, is_key_of};
ghost use Rattle.gs_ident.specs.Agreement.{Agree};
ghost use Rattle.gs_ident.specs.Identities.{counted, identity_of_pairs, IsInOrder, IsMadeWith};
ghost use Rattle.gs_ident.specs.Answers.{IsOnlyKey};
ghost use Rattle.gs_ident.specs.Keys.{AreKeys, HasFirstKey, IsList, IsRowOf};
ghost use Rattle.gs_ident.specs.Moves.{HasElements};
ghost use Rattle.gs_ai.specs.declared.pair.Pair.{Pair};
ghost use Rattle.gs_ident.specs.KeysSupport.{is_none_text};

use crate::errors::IdentFault;
use crate::identity::Identity;
use crate::pairs::{
    find_contradiction, is_none_text, keep_others, move_listed, sort_pairs, stands_for_none,
};
use gs_ai::{AiRow, AiTable, Pair};
use gs_chars::{Memory, Text};
use std::alloc::Global;

/// Returns the codes that the row lists as qualifiers. The row is one of the table.
fn listed_codes(table: &AiTable, row: usize) -> &[Text]
    requires { row < length table.now }
    ensures codes { IsList table.now row result.now }
    ensures distinct { are_distinct result.now ≡ true }
    ensures no_key { list_any (is_key_of table.now) result.now ≡ false }
{
    table.rows()[row].qualifiers.items()
}

/// Makes the identity of the first key and of the pairs around it, which agree. The pairs are moved. Fails only with `Memory`.
#[tactic(auto, unfolding(crate::specs::Identities::elements_of))]
fn elements_of<'a>(
    alloc: Global,
    table: &AiTable,
    pairs: Vec<Pair<'a>>,
    first: KeyPlace,
) -> Result<Identity<'a>, IdentFault>
    requires agree { Agree pairs.items }
    requires first { HasFirstKey table.now pairs.items first }
    ensures elements { IfOk result (HasElements table.now pairs.entry.items first.pair) }
    ensures memory { IfErr result (λ error. error ≡ IdentFault.Memory) }
{
    let mut others = pairs;
    let key = others.swap_remove(first.pair);
    let listed = listed_codes(table, first.row);
    let qualifiers = move_listed(alloc, &mut others, listed)?;
    keep_others(&mut others, listed, &key);
    let attributes = sort_pairs(alloc, others)?;
    Ok(Identity::from_pairs(key, qualifiers, attributes))
}

/// Drops the pairs whose value means none.
fn keep_counted(table: &AiTable, pairs: &mut Vec<Pair<'_>>)
    ensures { pairs.new.items ≡ counted table.now pairs.old.items }
{
    pairs.retain(|pair| !stands_for_none(table, pair));
}

/// Returns the keys among the pairs that count, and drops the others. Usually there are no others.
fn keys_of_counted(table: &AiTable, pairs: &mut Vec<Pair<'_>>) -> Keys
    ensures counted { pairs.new.items ≡ counted table.now pairs.old.items }
    ensures keys { AreKeys table.now pairs.new.items result }
{
    let keys = keys_among(table, pairs.as_slice());
    if !keys.with_none {
        return keys;
    }
    keep_counted(table, pairs);
    keys_among(table, pairs.as_slice())
}

/// Returns a copy of the code of a pair.
fn code_of(alloc: Global, pair: &Pair<'_>) -> Result<Text, Memory>
    ensures { IfOk result (λ code. code ≡ pair.now.code) }
{
    Text::from_bytes(alloc, pair.code.as_bytes())
}

/// Returns the key of pairs that agree and have no other key. Each of them counts, and `keys` are the keys among them by the
/// table.
fn only_key(
    alloc: Global,
    table: &AiTable,
    pairs: &[Pair<'_>],
    keys: Keys,
) -> Result<KeyPlace, IdentFault>
    requires { AreKeys table.now pairs.now keys }
    ensures { IsOnlyKey table.now pairs.now result }
{
    if let Some(pair) = find_contradiction(pairs) {
        return Err(IdentFault::Repeat(code_of(alloc, pair)?));
    }
    let Some(first) = keys.first else {
        return Err(IdentFault::NoKey);
    };
    match keys.other {
        Some(other) => Err(IdentFault::TwoKeys(code_of(alloc, &pairs[other])?)),
        None => Ok(first),
    }
}

/// Makes the identity of the pairs. First drops pairs whose value means none; equal repeats count once. Each pair has a code of
/// the table, and a value that its row allows.
///
/// Returns the first error that applies: `Repeat`, `NoKey` or `TwoKeys`. `Repeat` has the code of the first pair whose code
/// occurred before with another value, `TwoKeys` the code of the second key. May return `Memory` instead.
pub fn make<'a>(
    alloc: Global,
    table: &AiTable,
    pairs: Vec<Pair<'a>>,
) -> Result<Identity<'a>, IdentFault>
    requires { All (IsInOrder table.now) pairs.items }
    ensures made { IfOk result (λ identity. identity_of_pairs table.now pairs.entry.items ≡ Ok identity) }
    ensures with_table { IfOk result (λ identity. IsMadeWith table.now identity) }
    ensures rejected { IfErr result (λ error. error ≢ IdentFault.Memory
        → identity_of_pairs table.now pairs.entry.items ≡ Err error) }
{
    let mut counted = pairs;
    let keys = keys_of_counted(table, &mut counted);
    let first = only_key(alloc, table, counted.as_slice(), keys)?;
    elements_of(alloc, table, counted, first)
}

/// The place of a pair with the code of a key, and the index of the key's row.
#[derive(Clone, Copy)]
struct KeyPlace {
    pair: usize,
    row: usize,
}

/// The keys among pairs, and whether a value means none, by one look at the row of each pair.
#[derive(Clone, Copy)]
struct Keys {
    with_none: bool,
    /// The first pair with the code of a key.
    first: Option<KeyPlace>,
    /// The place of the first pair with the code of another key.
    other: Option<usize>,
}

/// Returns whether an earlier value meant none, or this one does.
fn or_none_text(before: bool, row: &AiRow, value: &[u8]) -> bool
    ensures { result ≡ (before || is_none_text row.now value.now) }
{
    before || is_none_text(row, value)
}

/// Returns the keys with one pair more, which is at this place after the others and has the row with this index.
fn with_pair(table: &AiTable, keys: Keys, place: usize, pair: &Pair<'_>, row: usize) -> Keys
    requires { IsRowOf table.now pair.now row }
    ensures { (before : List Pair) → length before ≡ place
        → AreKeys table.now before keys → AreKeys table.now (before ++ pair.now ∷ []) result }
{
    let with_none = or_none_text(keys.with_none, &table.rows()[row], pair.value.as_bytes());
    if !table.is_key_row(row) {
        return Keys { with_none, ..keys };
    }
    let Some(first) = keys.first else {
        return Keys {
            with_none,
            first: Some(KeyPlace { pair: place, row }),
            other: None,
        };
    };
    if first.row == row || keys.other.is_some() {
        return Keys { with_none, ..keys };
    }
    Keys {
        with_none,
        first: keys.first,
        other: Some(place),
    }
}

/// Returns the keys among the pairs. The row of each is looked up once.
fn keys_among(table: &AiTable, pairs: &[Pair<'_>]) -> Keys
    ensures { AreKeys table.now pairs.now result }
{
    let mut keys = Keys {
        with_none: false,
        first: None,
        other: None,
    };
    for (place, pair) in pairs.iter().enumerate() {
        if let Some(row) = table.find(pair.code.as_bytes()) {
            keys = with_pair(table, keys, place, pair, row);
        }
    }
    keys
}
