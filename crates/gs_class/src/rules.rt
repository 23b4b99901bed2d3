ghost use Rattle.std.specs.Prelude.{◌≡◌, position, ◌==◌, ◌≤◌, not, codes, length, option_map, option_to_list};
ghost use Rattle.std.specs.List.{list_all, flat_map, enumerate_from};
ghost use Rattle.gs_class.specs.Rules.{agrees, digits_alone, element_room, fits_key, fits_parts, is_bad_item, is_class};
ghost use Rattle.gs_class.specs.Rules.{is_class_item, is_same_pair, is_same_row, keeps_items, are_many};
ghost use Rattle.gs_class.specs.Rules.{class_rejections, has_long, row_rejections};
ghost use Rattle.serde_json.specs.View.{view};
ghost use Rattle.gs_chars.specs.Answers.{error_if};
ghost use Rattle.gs_json.specs.Members.{number_in};
ghost use Rattle.gs_class.specs.AnswersSupport.{IsFirst};

use crate::document::ClassRow;
use crate::error::ClassLoadFault;
use gs_ai::{AiRow, AiTable, Part};
use gs_chars::are_visible;
use gs_grammar::Item;
use gs_json::{Node, number_in};
use gs_tables::{
    Behind, Field, KeyForm, Room, characters_of, is_of_key, keeps_gcp, keeps_rest, keeps_serial,
    lists, size_within_limit,
};
use gs_tables_document::{FieldItem, MOST_ITEMS};

/// Returns whether the item is a literal, or stands for the company prefix, the rest or the lot.
fn is_class_item(item: &FieldItem) -> bool
    ensures { result ≡ is_class_item item.now }
{
    match item {
        (None, Item::Lit(_)) => true,
        (Some(Field::Gcp), _) | (Some(Field::Rest), _) | (Some(Field::Serial), _) => true,
        _ => false,
    }
}

/// Returns whether the item is absent, breaks a bound of texts, or is not an item of a class.
fn is_bad_item(entry: &Option<FieldItem>) -> bool
    ensures { result ≡ is_bad_item entry.now }
{
    match entry {
        None => true,
        Some(item) => !item.1.is_in_bounds(false) || !is_class_item(item),
    }
}

/// Returns the index of the first bad item.
fn first_bad(items: &[Option<FieldItem>]) -> Option<usize>
    ensures { result ≡ position is_bad_item items.now }
{
    items.iter().position(is_bad_item)
}

/// Returns the number of digits of a key before its check digit, if it has no other part.
fn digits_alone(parts: &[Part]) -> Option<u8>
    ensures { result ≡ digits_alone parts.now }
{
    match parts {
        [Part::NumCheck(k)] => Some(k.saturating_sub(1)),
        _ => None,
    }
}

/// Returns the most characters of an element that is only characters and has no text that means none.
fn element_room(ais: &AiTable, element: &[u8]) -> Option<u8>
    ensures { result ≡ element_room ais.now element.now }
{
    let row = ais.row_with(element)?;
    if row.none.as_bytes().is_empty() {
        characters_of(row.parts.items())
    } else {
        None
    }
}

/// Returns whether the company prefix, the reference and the lot fit a key of `digits` digits and an element of at most `most`
/// characters.
#[tactic(auto, unfolding(crate::specs::Rules::keeps_items))]
fn keeps_items(row: &ClassRow, digits: u8, most: u8) -> bool
    ensures { result ≡ keeps_items row.now digits most }
{
    let form = KeyForm::Digits(digits, Behind::Nothing);
    let items = row.items.items();
    keeps_gcp(form, row.lead, row.gcp, items)
        && keeps_rest(form, row.gcp, items)
        && keeps_serial(Some(Room::Characters(most)), items)
}

/// Returns whether the items fit the key and the element.
fn fits_parts(ais: &AiTable, row: &ClassRow, parts: &[Part]) -> bool
    ensures { result ≡ fits_parts ais.now row.now parts.now }
{
    match (
        digits_alone(parts),
        element_room(ais, row.element.as_bytes()),
    ) {
        (Some(digits), Some(most)) => keeps_items(row, digits, most),
        _ => false,
    }
}

/// Returns whether the row's key fits: it has at most one digit before the company prefix, lists the element, and the items
/// fit.
#[tactic(auto, unfolding(crate::specs::Rules::fits_key))]
fn fits_key(ais: &AiTable, row: &ClassRow, key: &AiRow) -> bool
    ensures { result ≡ fits_key ais.now row.now key.now }
{
    is_of_key(key)
        && row.lead <= 1
        && lists(key, row.element.as_bytes())
        && fits_parts(ais, row, key.parts.items())
}

/// Returns whether two rows have one key and one element.
fn is_same_pair(row: &ClassRow, other: &ClassRow) -> bool
    ensures { result ≡ is_same_pair row.now other.now }
{
    row.key == other.key && row.element == other.element
}

/// Returns whether rows of one name have one key, lead and element, and rows of two names differ in key or element.
#[tactic(auto, unfolding(crate::specs::Rules::agrees))]
fn agrees(row: &ClassRow, other: &ClassRow) -> bool
    ensures { result ≡ agrees row.now other.now }
{
    let same = is_same_pair(row, other);
    if row.name == other.name {
        same && row.lead == other.lead
    } else {
        !same
    }
}

/// Returns whether two rows have one name and one length of the company prefix.
#[tactic(auto, unfolding(crate::specs::Rules::is_same_row))]
fn is_same_row(row: &ClassRow, other: &ClassRow) -> bool
    ensures { result ≡ is_same_row row.now other.now }
{
    row.name == other.name && row.gcp == other.gcp
}

/// Returns the index of the first row that is the same.
fn first_same(earlier: &[ClassRow], row: &ClassRow) -> Option<usize>
    ensures { result ≡ position (is_same_row row.now) earlier.now }
{
    earlier.iter().position(|other| is_same_row(row, other))
}

/// Returns whether the row agrees with each earlier one.
fn agrees_with(earlier: &[ClassRow], row: &ClassRow) -> bool
    ensures { result ≡ list_all (agrees row.now) earlier.now }
{
    earlier.iter().all(|other| agrees(row, other))
}

/// Returns whether the row satisfies the rules of classes, given the earlier ones.
#[tactic(auto, unfolding(crate::specs::Rules::is_class))]
fn is_class(ais: &AiTable, earlier: &[ClassRow], row: &ClassRow) -> bool
    ensures { result ≡ is_class ais.now earlier.now row.now }
{
    let name = row.name.as_bytes();
    if name.is_empty() || !are_visible(name) || !agrees_with(earlier, row) {
        return false;
    }
    match ais.row_with(row.key.as_bytes()) {
        Some(key) => fits_key(ais, row, key),
        None => false,
    }
}

/// The most classes of a set.
const MOST_CLASSES: usize = 256;

/// Rejects a document of another version.
pub(crate) fn check_version(root: &Node<'_>) -> Result<(), ClassLoadFault>
    ensures { IsFirst (error_if (not (number_in (codes "version") (view root.now.tree) == 1))
        ClassLoadFault.Version) result }
{
    if number_in(root.value(), "version") == 1 {
        Ok(())
    } else {
        Err(ClassLoadFault::Version)
    }
}

/// Returns whether some class has more items than the limit.
fn has_long(rows: &[ClassRow]) -> bool
    ensures { result ≡ has_long rows.now }
{
    rows.iter().any(|row| row.items.items().len() > MOST_ITEMS)
}

/// Returns whether there are more classes, or more items of a class, than the limit.
fn are_many(rows: &[ClassRow]) -> bool
    ensures { result ≡ are_many rows.now }
{
    rows.len() > MOST_CLASSES || has_long(rows)
}

/// Rejects row `i` if it equals an earlier one.
fn check_unlike(earlier: &[ClassRow], i: usize, row: &ClassRow) -> Result<(), ClassLoadFault>
    ensures { IsFirst (option_to_list (option_map (λ j. ClassLoadFault.Duplicate j i)
        (position (is_same_row row.now) earlier.now))) result }
{
    match first_same(earlier, row) {
        Some(j) => Err(ClassLoadFault::Duplicate(j, i)),
        None => Ok(()),
    }
}

/// Finds the first rejection of row `i`.
fn check_row(
    ais: &AiTable,
    rows: &[ClassRow],
    i: usize,
    row: &ClassRow,
) -> Result<(), ClassLoadFault>
    requires { i ≤ length rows.now }
    ensures { IsFirst (row_rejections ais.now rows.now (i, row.now)) result }
{
    let items = row.items.items();
    if let Some(k) = first_bad(items) {
        return Err(ClassLoadFault::BadItem(i, k));
    }
    if size_within_limit(items).is_none() {
        return Err(ClassLoadFault::Size(i));
    }
    if !is_class(ais, &rows[..i], row) {
        return Err(ClassLoadFault::Mismatch(i));
    }
    check_unlike(&rows[..i], i, row)
}

/// Finds the first rejection of the rows: of their limits, then row by row.
pub(crate) fn check_rows(ais: &AiTable, rows: &[ClassRow]) -> Result<(), ClassLoadFault>
    ensures { IsFirst (class_rejections ais.now rows.now) result }
{
    if are_many(rows) {
        return Err(ClassLoadFault::Limit);
    }
    check_each(ais, rows)
}

/// Finds the first rejection of the rows, row by row.
fn check_each(ais: &AiTable, rows: &[ClassRow]) -> Result<(), ClassLoadFault>
    ensures { IsFirst (flat_map (row_rejections ais.now rows.now) (enumerate_from 0 rows.now)) result }
{
    for (i, row) in rows.iter().enumerate() {
        check_row(ais, rows, i, row)?;
    }
    Ok(())
}
