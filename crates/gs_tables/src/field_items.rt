ghost use Rattle.std.specs.Prelude.{◌≡◌, ◌≤◌, SomeIff};
ghost use Rattle.gs_ai.specs.Tables.{is_empty};
ghost use Rattle.gs_grammar.specs.Items.{size_of_all};
ghost use Rattle.gs_grammar.specs.Limits.{most_symbols};
ghost use Rattle.gs_tables.specs.Founds.{IsFound};
ghost use Rattle.gs_tables_document.specs.Items.{alone, present};
ghost use Rattle.gs_tables.specs.Rules.{has_room, is_digits, is_filter, is_free, is_number, is_one, items_of_field, keeps_further, keeps_gcp, keeps_level, keeps_rest, keeps_serial, longest_of};
ghost use Rattle.gs_tables.specs.RulesSupport.{size_there};

use crate::form::{Behind, KeyForm, Room};
use gs_grammar::{Item, MOST_SYMBOLS};
use gs_tables_document::{Field, FieldItem, LevelName};

/// The items of a field that a scan has found.
#[derive(Clone, Copy)]
enum Found<'a> {
    /// There is none.
    None,
    /// There is this one.
    One(&'a Item),
    /// There are more.
    More,
}

/// Returns the items of the field: none, the only one, or several.
fn items_of_field<'a>(field: Field, items: &'a [Option<FieldItem>]) -> Found<'a>
    ensures { IsFound (items_of_field field (present items.now)) result }
{
    let mut found = Found::None;
    for entry in items {
        let Some((Some(named), item)) = entry else {
            continue;
        };
        if *named != field {
            continue;
        }
        match found {
            Found::None => found = Found::One(item),
            Found::One(_) | Found::More => return Found::More,
        }
    }
    found
}

/// Returns the characters of the longest value of an item.
fn longest_of(item: &Item) -> usize
    ensures { result ≡ longest_of item.now }
{
    match item {
        Item::Lit(_) | Item::Fill { a: _, b: _ } => 0,
        Item::Pad { n } | Item::NumPad { bits: _, n } => usize::from(*n),
        Item::Int { max } | Item::Num { bits: _, max } => Item::Int { max: *max }.size(),
        Item::Digits { lo: _, hi }
        | Item::NumStr { bits: _, hi }
        | Item::Esc { lo: _, hi }
        | Item::Ascii7 { lo: _, hi, bits: _ } => usize::from(*hi),
    }
}

/// Returns whether the item is exactly that many digits.
fn is_digits(n: u64, item: &Item) -> bool
    ensures { result ≡ is_digits n item.now }
{
    match item {
        Item::Pad { n: k } | Item::NumPad { bits: _, n: k } => u64::from(*k) == n,
        _ => false,
    }
}

/// Returns whether the item is a filter value.
fn is_filter(item: &Item) -> bool
    ensures { result ≡ is_filter item.now }
{
    match item {
        Item::Int { max } => *max == 7,
        Item::Num { bits, max } => *bits == 3 && *max == 7,
        _ => false,
    }
}

/// Returns whether the item has values other than the empty one, and its longest value has at most `most` characters.
fn has_room(most: usize, item: &Item) -> bool
    ensures { result ≡ has_room most item.now }
{
    let longest = longest_of(item);
    longest >= 1 && longest <= most
}

/// Returns whether the item is characters, and not only digits, and its longest value has at most `most` characters.
fn is_free(most: usize, item: &Item) -> bool
    ensures { result ≡ is_free most item.now }
{
    match item {
        Item::Pad { n: _ }
        | Item::Digits { lo: _, hi: _ }
        | Item::NumPad { bits: _, n: _ }
        | Item::NumStr { bits: _, hi: _ } => false,
        _ => has_room(most, item),
    }
}

/// Returns whether the item is digits, and its longest value has at most `most` digits.
fn is_number(most: usize, item: &Item) -> bool
    ensures { result ≡ is_number most item.now }
{
    match item {
        Item::Esc { lo: _, hi: _ }
        | Item::Ascii7 {
            lo: _,
            hi: _,
            bits: _,
        } => false,
        _ => has_room(most, item),
    }
}

/// Returns whether the prefix has a length that the key leaves room for, in the one item of it.
#[tactic(auto, unfolding(crate::specs::Rules::keeps_gcp))]
pub fn keeps_gcp(form: KeyForm, lead: u64, n: u64, items: &[Option<FieldItem>]) -> bool
    ensures { result ≡ keeps_gcp form lead n (items_of_field Field.Gcp (present items.now)) }
{
    if n < 1 || n > 12 {
        return false;
    }
    if let KeyForm::Digits(digits, _) = form {
        if n > u64::from(digits).saturating_sub(lead) {
            return false;
        }
    }
    match items_of_field(Field::Gcp, items) {
        Found::One(item) => is_digits(n, item),
        Found::None | Found::More => false,
    }
}

/// Returns whether one item has the digits or characters of the key after the company prefix, or none if no digit is left.
#[tactic(auto, unfolding(crate::specs::Rules::keeps_rest))]
pub fn keeps_rest(form: KeyForm, n: u64, items: &[Option<FieldItem>]) -> bool
    ensures { result ≡ keeps_rest form n (items_of_field Field.Rest (present items.now)) }
{
    match (form, items_of_field(Field::Rest, items)) {
        (KeyForm::Digits(digits, _), Found::None) => u64::from(digits) <= n,
        (KeyForm::Digits(digits, _), Found::One(item)) => {
            u64::from(digits) > n && is_digits(u64::from(digits) - n, item)
        }
        (KeyForm::Characters(most), Found::One(item)) => {
            is_free(u64::from(most).saturating_sub(n) as usize, item)
        }
        _ => false,
    }
}

/// Returns whether there is one serial item that the serial has room for, or none if the kind has no serial.
#[tactic(auto, unfolding(crate::specs::Rules::keeps_serial))]
pub fn keeps_serial(room: Option<Room>, items: &[Option<FieldItem>]) -> bool
    ensures { result ≡ keeps_serial room (items_of_field Field.Serial (present items.now)) }
{
    match (room, items_of_field(Field::Serial, items)) {
        (None, Found::None) => true,
        (Some(Room::Characters(most)), Found::One(item)) => has_room(usize::from(most), item),
        (Some(Room::Digits(most)), Found::One(item)) => is_number(usize::from(most), item),
        _ => false,
    }
}

/// Returns whether the field has one item, of exactly that many digits.
fn has_digits(field: Field, n: u8, items: &[Option<FieldItem>]) -> bool
    ensures { result ≡ is_one (is_digits n) (items_of_field field (present items.now)) }
{
    match items_of_field(field, items) {
        Found::One(item) => is_digits(u64::from(n), item),
        Found::None | Found::More => false,
    }
}

/// Returns whether the field has no item.
fn has_none(field: Field, items: &[Option<FieldItem>]) -> bool
    ensures { result ≡ is_empty (items_of_field field (present items.now)) }
{
    match items_of_field(field, items) {
        Found::None => true,
        Found::One(_) | Found::More => false,
    }
}

/// Returns whether the piece and the total have one item each, of that many digits, or none if the key has no pieces.
#[tactic(auto, unfolding(crate::specs::Rules::keeps_further))]
pub(crate) fn keeps_further(form: KeyForm, items: &[Option<FieldItem>]) -> bool
    ensures { result ≡ keeps_further form (items_of_field Field.Piece (present items.now))
        (items_of_field Field.Total (present items.now)) }
{
    match form {
        KeyForm::Digits(_, Behind::Further(a, b)) => {
            has_digits(Field::Piece, a, items) && has_digits(Field::Total, b, items)
        }
        KeyForm::Digits(_, Behind::Nothing | Behind::Tail(_)) | KeyForm::Characters(_) => {
            has_none(Field::Piece, items) && has_none(Field::Total, items)
        }
    }
}

/// Returns the sum of the sizes of the items if it is at most `MOST_SYMBOLS`.
pub fn size_within_limit(items: &[Option<FieldItem>]) -> Option<usize>
    ensures { SomeIff result (size_of_all (alone (present items.now)) ≤ most_symbols)
        (size_of_all (alone (present items.now))) }
{
    let mut size = 0;
    for entry in items {
        if let Some((_, item)) = entry {
            size += item.size();
            if size > MOST_SYMBOLS {
                return None;
            }
        }
    }
    Some(size)
}

/// Returns whether the option has the name of an encoding, a filter value and whole words of 16 bits, as its level requires.
#[tactic(auto, unfolding(crate::specs::Rules::keeps_level))]
pub(crate) fn keeps_level(
    level: LevelName,
    encoding: &[u8],
    size: usize,
    items: &[Option<FieldItem>],
) -> bool
    requires { size ≡ size_there items.now }
    ensures { result ≡ keeps_level level encoding.now (present items.now) }
{
    let named = !encoding.is_empty();
    match (level, items_of_field(Field::Filter, items)) {
        (LevelName::Binary, Found::One(item)) => { named && is_filter(item) && size % 16 == 0 }
        (LevelName::Tag, Found::One(item)) => named && is_filter(item),
        (LevelName::Pure, Found::None) => !named,
        _ => false,
    }
}
