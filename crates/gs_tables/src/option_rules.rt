ghost use Rattle.std.specs.Prelude.{◌≡◌, ◌≤◌, ◌&&◌, length, position};
ghost use Rattle.gs_grammar.specs.Items.{size_of_all};
ghost use Rattle.std.specs.List.{find};
ghost use Rattle.std.specs.Option.{option_copied};
ghost use Rattle.gs_tables.specs.Forms.{serial_at, serial_room};
ghost use Rattle.gs_tables.specs.Rules.{fits_kind, has_name, items_of_field, keeps_form, keeps_further, keeps_serial, lacks_field};
ghost use Rattle.gs_tables.specs.Tables.{fits, is_bad_item, is_same, items_alone, items_there, option_rejections};
ghost use Rattle.gs_tables.specs.TablesSupport.{IsFirst};
ghost use Rattle.gs_tables.specs.Founds.{same_rejections};

use crate::field_items::{
    keeps_further, keeps_gcp, keeps_level, keeps_rest, keeps_serial, size_within_limit,
};
use crate::form::{KeyForm, form_at, serial_room};
use gs_ai::AiTable;
use gs_chars::are_visible;
use gs_grammar::Item;
use gs_tables_document::{Field, FieldItem, KindRow, LevelName, LimitName, LoadFault, OptionRow};

/// Returns whether the item has no field, though it has values other than the empty one.
fn lacks_field(item: &FieldItem) -> bool
    ensures { result ≡ lacks_field item.now }
{
    match item {
        (None, Item::Lit(_) | Item::Fill { .. }) | (Some(_), _) => false,
        (None, _) => true,
    }
}

/// Returns the index of the first item that is absent, breaks a bound of the level, or has no field for its values.
fn first_bad(bits: bool, items: &[Option<FieldItem>]) -> Option<usize>
    ensures { result ≡ position (is_bad_item bits) items.now }
{
    items.iter().position(|item| match item {
        Some(item) => !item.1.is_in_bounds(bits) || lacks_field(item),
        None => true,
    })
}

/// Returns whether two options have one kind, encoding and prefix length.
#[tactic(auto, unfolding(crate::specs::Tables::is_same))]
fn is_same(a: &OptionRow, b: &OptionRow) -> bool
    ensures { result ≡ is_same a.now b.now }
{
    a.kind == b.kind && a.encoding == b.encoding && a.gcp == b.gcp
}

/// Returns whether the items after the reference, the serial and the further fields, fit a kind whose key has this form.
fn keeps_behind(ais: &AiTable, kind: &KindRow, row: &OptionRow, form: KeyForm) -> bool
    ensures { result ≡ (keeps_serial (serial_room ais.now form (serial_at kind.now.serial))
        (items_of_field Field.Serial (items_there row.now))
        && keeps_further form (items_of_field Field.Piece (items_there row.now))
        (items_of_field Field.Total (items_there row.now))) }
{
    let items = row.items.items();
    let room = serial_room(ais, form, kind.serial.as_bytes());
    keeps_serial(room, items) && keeps_further(form, items)
}

/// Returns whether the prefix, the rest, the serial and the further fields fit a kind whose key is of this form.
fn keeps_form(ais: &AiTable, kind: &KindRow, row: &OptionRow, form: KeyForm) -> bool
    ensures { result ≡ keeps_form ais.now kind.now row.now.gcp (items_there row.now) form }
{
    let items = row.items.items();
    if !keeps_gcp(form, kind.lead, row.gcp, items) {
        return false;
    }
    if !keeps_rest(form, row.gcp, items) {
        return false;
    }
    keeps_behind(ais, kind, row, form)
}

/// Returns whether the option fits a kind.
fn fits_kind(ais: &AiTable, kind: &KindRow, level: LevelName, size: usize, row: &OptionRow) -> bool
    requires { size ≡ size_of_all (items_alone row.now) }
    ensures { result ≡ fits_kind ais.now kind.now level row.now.encoding row.now.gcp (items_there row.now) }
{
    let encoding = row.encoding.as_bytes();
    if !are_visible(encoding) {
        return false;
    }
    if !keeps_level(level, encoding, size, row.items.items()) {
        return false;
    }
    match form_at(ais, kind.key.as_bytes()) {
        Some(form) => keeps_form(ais, kind, row, form),
        None => false,
    }
}

/// Returns the first kind of this name.
fn kind_with<'a>(kinds: &'a [KindRow], name: &[u8]) -> Option<&'a KindRow>
    ensures { option_copied result ≡ find (has_name name.now) kinds.now }
{
    kinds.iter().find(|kind| name == kind.name.as_bytes())
}

/// Returns whether the option's kind is one of the kinds, and the option fits it.
fn fits(ais: &AiTable, kinds: &[KindRow], level: LevelName, size: usize, row: &OptionRow) -> bool
    requires { size ≡ size_of_all (items_alone row.now) }
    ensures { result ≡ fits ais.now kinds.now level row.now }
{
    match kind_with(kinds, row.kind.as_bytes()) {
        Some(kind) => fits_kind(ais, kind, level, size, row),
        None => false,
    }
}

/// Returns the index of the first option of the same kind, encoding and prefix length.
fn first_same(rows: &[OptionRow], row: &OptionRow) -> Option<usize>
    ensures { result ≡ position (λ other. is_same other row.now) rows.now }
{
    rows.iter().position(|other| is_same(other, row))
}

/// Rejects option `i` if it equals an earlier one.
fn check_unlike(
    level: LevelName,
    earlier: &[OptionRow],
    i: usize,
    row: &OptionRow,
) -> Result<(), LoadFault>
    ensures { IsFirst (same_rejections level earlier.now i row.now) result }
{
    match first_same(earlier, row) {
        Some(j) => Err(LoadFault::Duplicate(level, j, i)),
        None => Ok(()),
    }
}

/// Finds the first rejection of option `i` of a level.
pub(crate) fn check_option(
    ais: &AiTable,
    kinds: &[KindRow],
    level: LevelName,
    rows: &[OptionRow],
    i: usize,
    row: &OptionRow,
) -> Result<(), LoadFault>
    requires { i ≤ length rows.now }
    ensures { IsFirst (option_rejections ais.now kinds.now level rows.now (i, row.now)) result }
{
    let items = row.items.items();
    if let Some(k) = first_bad(level.is_bits(), items) {
        return Err(LoadFault::BadItem(level, i, k));
    }
    let Some(size) = size_within_limit(items) else {
        return Err(LoadFault::Limit(LimitName::Size));
    };
    if !fits(ais, kinds, level, size, row) {
        return Err(LoadFault::Mismatch(level, i));
    }
    check_unlike(level, &rows[..i], i, row)
}
