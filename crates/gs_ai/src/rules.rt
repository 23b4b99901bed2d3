ghost use Rattle.std.specs.Prelude.{◌≡◌, ◌≤◌, ◌&&◌, ◌++◌, take, length, position, true, not, IsTrue, is_none};
ghost use Rattle.std.specs.List.{flat_map, enumerate_from, list_all, list_any};
ghost use Rattle.gs_ai.specs.Values.{has_code, parts_error};
ghost use Rattle.gs_ai.specs.Tables.{clash, is_key_of, is_qualifier_of, row_errors, list_errors, table_errors};
ghost use Rattle.gs_ai.specs.Tables.{are_distinct, are_parts, is_code, is_empty, is_gtin, is_row, keeps_predefined, keeps_role};
ghost use Rattle.gs_ai.specs.TablesSupport.{is_asked, IsFirstError};
ghost use Rattle.gs_ai.specs.Parts.{is_open, is_part};

use crate::errors::AiFault;
use crate::part::{Part, Role};
use crate::row::AiRow;
use crate::starts::predefined_length;
use crate::value::{greatest_length_of, least_length_of, parts_ok};
use gs_chars::{Text, are_digits};

/// Returns whether one of the two codes begins the other.
#[tactic(auto, unfolding(crate::specs::Tables::clash))]
fn clash(a: &[u8], b: &[u8]) -> bool
    ensures { result ≡ clash a.now b.now }
{
    b.starts_with(a) || a.starts_with(b)
}

/// Returns whether a row of the role has the code. The role is that of a key or of a qualifier.
fn has_row(rows: &[AiRow], code: &[u8], role: Role) -> bool
    ensures { result ≡ list_any (λ row. has_code code.now row && is_asked role row.role) rows.now }
{
    rows.iter().any(|row| code == row.code.as_bytes() && row.role.is_asked(role))
}

/// Returns the index of the first row whose code clashes with this one.
fn find_clash(earlier: &[AiRow], code: &[u8]) -> Option<usize>
    ensures { result ≡ position (λ other. clash other.code code.now) earlier.now }
{
    earlier
        .iter()
        .position(|other| clash(other.code.as_bytes(), code))
}

/// Returns whether one of the codes is that of a key.
fn lists_key(rows: &[AiRow], codes: &[Text]) -> bool
    ensures { result ≡ list_any (is_key_of rows.now) codes.now }
{
    codes
        .iter()
        .any(|code| has_row(rows, code.as_bytes(), Role::Key))
}

/// Returns whether all codes are those of qualifiers.
fn lists_qualifiers(rows: &[AiRow], codes: &[Text]) -> bool
    ensures { result ≡ list_all (is_qualifier_of rows.now) codes.now }
{
    codes
        .iter()
        .all(|code| has_row(rows, code.as_bytes(), Role::Qualifier))
}

/// Finds the first error of row `i`, given the earlier rows.
fn check_row(i: usize, earlier: &[AiRow], row: &AiRow) -> Result<(), AiFault>
    ensures { IsFirstError (row_errors i earlier.now row.now) result }
{
    if !is_row(row) {
        return Err(AiFault::BadAi(i));
    }
    if let Some(j) = find_clash(earlier, row.code.as_bytes()) {
        return Err(AiFault::CodePrefix(j, i));
    }
    if !keeps_predefined(row) {
        return Err(AiFault::PredefinedLength(i));
    }
    Ok(())
}

/// Finds the first error of the codes that row `i` lists.
#[tactic(auto, unfolding(crate::specs::Tables::list_errors))]
fn check_list(rows: &[AiRow], i: usize, row: &AiRow) -> Result<(), AiFault>
    ensures { IsFirstError (list_errors rows.now i row.now) result }
{
    let codes = row.qualifiers.items();
    if lists_key(rows, codes) {
        return Err(AiFault::KeyIsQualifier(i));
    }
    if !lists_qualifiers(rows, codes) {
        return Err(AiFault::BadAi(i));
    }
    Ok(())
}

/// Finds the first error of a row, given the rows before it.
fn check_each_row(rows: &[AiRow]) -> Result<(), AiFault>
    ensures { IsFirstError (flat_map (λ row. row_errors row.0 (take row.0 rows.now) row.1)
        (enumerate_from 0 rows.now)) result }
{
    for (i, row) in rows.iter().enumerate() {
        check_row(i, &rows[..i], row)?;
    }
    Ok(())
}

/// Finds the first error of a list of qualifiers.
fn check_each_list(rows: &[AiRow]) -> Result<(), AiFault>
    ensures { IsFirstError (flat_map (λ row. list_errors rows.now row.0 row.1)
        (enumerate_from 0 rows.now)) result }
{
    for (i, row) in rows.iter().enumerate() {
        check_list(rows, i, row)?;
    }
    Ok(())
}

/// Finds the first error of the rows.
pub fn check_rows(rows: &[AiRow]) -> Result<(), AiFault>
    ensures { IsFirstError (table_errors rows.now) result }
{
    check_each_row(rows)?;
    check_each_list(rows)
}

/// Returns whether the code is 2 to 4 digits.
fn is_code(code: &[u8]) -> bool
    ensures { result ≡ is_code code.now }
{
    are_digits(code) && 2 <= code.len() && code.len() <= 4
}

/// Returns whether each part is one of the list, and none is written with `..`.
fn are_closed(parts: &[Part]) -> bool
    ensures { result ≡ list_all (λ p. is_part p && not (is_open p)) parts.now }
{
    parts.iter().all(|part| part.is_listed() && !part.is_open())
}

/// Returns whether these are 1 to 3 parts of the list, and only the last is written with `..`.
fn are_parts(parts: &[Part]) -> bool
    ensures { result ≡ are_parts parts.now }
{
    let Some((last, others)) = parts.split_last() else {
        return false;
    };
    if parts.len() > 3 {
        return false;
    }
    last.is_listed() && are_closed(others)
}

/// Returns whether each code occurs once.
fn are_distinct(codes: &[Text]) -> bool
    ensures { result ≡ are_distinct codes.now }
{
    let Some((code, others)) = codes.split_first() else {
        return true;
    };
    !others.contains(code) && are_distinct(others)
}

/// Returns whether a key has no `none` text, and another row no qualifiers.
fn keeps_role(row: &AiRow) -> bool
    ensures { result ≡ keeps_role row.now }
{
    match row.role {
        Role::Key => row.none.as_bytes().is_empty(),
        Role::Qualifier | Role::Attribute => row.qualifiers.items().is_empty(),
        Role::Other => false,
    }
}

/// Returns whether the parts are 14 digits with a check digit.
fn is_gtin(parts: &[Part]) -> bool
    ensures { result ≡ is_gtin parts.now }
{
    match parts {
        [Part::NumCheck(k)] => *k == 14,
        _ => false,
    }
}

/// Returns whether the row is valid, regardless of the others.
#[tactic(auto, unfolding(crate::specs::Tables::is_row))]
fn is_row(row: &AiRow) -> bool
    ensures { result ≡ is_row row.now }
{
    let parts = row.parts.items();
    let none = row.none.as_bytes();
    is_code(row.code.as_bytes())
        && are_parts(parts)
        && keeps_role(row)
        && are_distinct(row.qualifiers.items())
        && (!row.short || is_gtin(parts))
        && (none.is_empty() || parts_ok(parts, none).is_ok())
}

/// Returns whether AI and value together have only the predefined length, if the AI's start has one. The row has the form that
/// the table requires.
#[tactic(auto, unfolding(crate::specs::Tables::is_row, crate::specs::Tables::keeps_predefined))]
fn keeps_predefined(row: &AiRow) -> bool
    requires { is_row row.now ≡ true }
    ensures { result ≡ keeps_predefined row.now }
{
    let parts = row.parts.items();
    let code = row.code.as_bytes();
    match predefined_length(code) {
        Some(n) => {
            let greatest = greatest_length_of(parts);
            least_length_of(parts) == greatest && code.len() + greatest == n
        }
        None => true,
    }
}
