ghost use Rattle.std.specs.Prelude.{◌≡◌, ◌++◌, IfOk, OnOk, map};
ghost use Rattle.gs_tables_builtin.specs.BuiltInAis.{builtin_ais};
ghost use Rattle.gs_tables_builtin.specs.BuiltInAisSupport.{ai_row, goods_ais, known, other_ais, row_of, rows_at};

use crate::builtin_codes::AiLine::{Attribute, Key, Qualifier};
use gs_ai::Part::{Date, Num, NumCheck, NumOpt, NumUpTo, Set, SetOpt, Zero};
use gs_ai::{AiRow, Part, Role};
use gs_chars::{List, Memory, Text};
use std::alloc::Global;

/// Returns the list of these codes.
fn list_of(alloc: Global, codes: &[&[u8]]) -> Result<List<Text>, Memory>
    ensures { IfOk result (λ list. list ≡ map known codes.now) }
{
    let mut list = Vec::new(alloc);
    for code in codes {
        list.push(Text::from_bytes(alloc, code)?)?;
    }
    Ok(List::from_vec(list))
}

/// Returns the row of these parts.
fn make_row(
    alloc: Global,
    code: &[u8],
    parts: &[Part],
    role: Role,
    qualifiers: &[&[u8]],
    short: bool,
    none: &[u8],
) -> Result<AiRow, Memory>
    ensures { IfOk result (λ row. row
        ≡ ai_row code.now parts.now role (map known qualifiers.now) short none.now) }
{
    Ok(AiRow {
        code: Text::from_bytes(alloc, code)?,
        parts: List::from_vec(Vec::from_slice(alloc, parts)?),
        role,
        qualifiers: list_of(alloc, qualifiers)?,
        short,
        none: Text::from_bytes(alloc, none)?,
    })
}

/// Returns the row that a line describes.
fn row_of(alloc: Global, line: &AiLine<'_>) -> Result<AiRow, Memory>
    ensures { IfOk result (λ row. row ≡ row_of line.now) }
{
    match line {
        Attribute(code, part) => {
            make_row(alloc, code, &[*part], Role::Attribute, &[], false, b"")
        }
        Qualifier(code, part, none) => {
            make_row(alloc, code, &[*part], Role::Qualifier, &[], false, none)
        }
        Key(code, parts, qualifiers, short) => {
            make_row(alloc, code, parts, Role::Key, qualifiers, *short, b"")
        }
    }
}

/// Appends a row for each line.
fn push_rows(alloc: Global, rows: &mut Vec<AiRow>, lines: &[AiLine<'_>]) -> Result<(), Memory>
    ensures { OnOk result (rows.new.items ≡ rows.old.items ++ map row_of lines.now) }
{
    for line in lines {
        rows.push(row_of(alloc, line)?)?;
    }
    Ok(())
}

/// Appends the rows of logistic units, trade items and lots.
#[tactic(auto, unfolding(crate::specs::BuiltInAis::builtin_ais))]
fn add_items(alloc: Global, rows: &mut Vec<AiRow>) -> Result<(), Memory>
    ensures { OnOk result (rows.new.items ≡ rows.old.items ++ rows_at 0 4) }
{
    push_rows(
        alloc,
        rows,
        &[
            Key(b"00", &[NumCheck(18)], &[], false),
            Key(b"01", &[NumCheck(14)], &[b"22", b"10", b"21"], true),
            Attribute(b"02", NumCheck(14)),
            Qualifier(b"10", Set(20), b""),
        ],
    )
}

/// Appends the rows of dates.
#[tactic(auto, unfolding(crate::specs::BuiltInAis::builtin_ais))]
fn add_dates(alloc: Global, rows: &mut Vec<AiRow>) -> Result<(), Memory>
    ensures { OnOk result (rows.new.items ≡ rows.old.items ++ rows_at 4 6) }
{
    push_rows(
        alloc,
        rows,
        &[
            Attribute(b"11", Date),
            Attribute(b"12", Date),
            Attribute(b"13", Date),
            Attribute(b"15", Date),
            Attribute(b"16", Date),
            Attribute(b"17", Date),
        ],
    )
}

/// Appends the rows of variants, serials and counts.
#[tactic(auto, unfolding(crate::specs::BuiltInAis::builtin_ais))]
fn add_variants(alloc: Global, rows: &mut Vec<AiRow>) -> Result<(), Memory>
    ensures { OnOk result (rows.new.items ≡ rows.old.items ++ rows_at 10 5) }
{
    push_rows(
        alloc,
        rows,
        &[
            Attribute(b"20", Num(2)),
            Qualifier(b"21", Set(20), b""),
            Qualifier(b"22", Set(20), b""),
            Attribute(b"30", NumUpTo(8)),
            Attribute(b"37", NumUpTo(8)),
        ],
    )
}

/// Appends the rows of additional identifications, documents, extensions of locations and coupons.
#[tactic(auto, unfolding(crate::specs::BuiltInAis::builtin_ais))]
fn add_additional(alloc: Global, rows: &mut Vec<AiRow>) -> Result<(), Memory>
    ensures { OnOk result (rows.new.items ≡ rows.old.items ++ rows_at 15 7) }
{
    push_rows(
        alloc,
        rows,
        &[
            Attribute(b"240", Set(30)),
            Attribute(b"241", Set(30)),
            Attribute(b"250", Set(30)),
            Attribute(b"251", Set(30)),
            Key(b"253", &[NumCheck(13), SetOpt(17)], &[], false),
            Qualifier(b"254", Set(20), b"0"),
            Key(b"255", &[NumCheck(13), NumOpt(12)], &[], false),
        ],
    )
}

/// Appends the rows of net weights.
#[tactic(auto, unfolding(crate::specs::BuiltInAis::builtin_ais))]
fn add_weights(alloc: Global, rows: &mut Vec<AiRow>) -> Result<(), Memory>
    ensures { OnOk result (rows.new.items ≡ rows.old.items ++ rows_at 22 6) }
{
    push_rows(
        alloc,
        rows,
        &[
            Attribute(b"3100", Num(6)),
            Attribute(b"3101", Num(6)),
            Attribute(b"3102", Num(6)),
            Attribute(b"3103", Num(6)),
            Attribute(b"3104", Num(6)),
            Attribute(b"3105", Num(6)),
        ],
    )
}

/// Appends the rows of orders, consignments and shipments.
#[tactic(auto, unfolding(crate::specs::BuiltInAis::builtin_ais))]
fn add_shipments(alloc: Global, rows: &mut Vec<AiRow>) -> Result<(), Memory>
    ensures { OnOk result (rows.new.items ≡ rows.old.items ++ rows_at 28 4) }
{
    push_rows(
        alloc,
        rows,
        &[
            Attribute(b"400", Set(30)),
            Key(b"401", &[Set(30)], &[], false),
            Key(b"402", &[NumCheck(17)], &[], false),
            Attribute(b"403", Set(30)),
        ],
    )
}

/// Appends the rows of parties that goods are sent, billed or bought for.
#[tactic(auto, unfolding(crate::specs::BuiltInAis::builtin_ais))]
fn add_parties(alloc: Global, rows: &mut Vec<AiRow>) -> Result<(), Memory>
    ensures { OnOk result (rows.new.items ≡ rows.old.items ++ rows_at 32 4) }
{
    push_rows(
        alloc,
        rows,
        &[
            Attribute(b"410", NumCheck(13)),
            Attribute(b"411", NumCheck(13)),
            Attribute(b"412", NumCheck(13)),
            Attribute(b"413", NumCheck(13)),
        ],
    )
}

/// Appends the rows of locations and other parties.
#[tactic(auto, unfolding(crate::specs::BuiltInAis::builtin_ais))]
fn add_locations(alloc: Global, rows: &mut Vec<AiRow>) -> Result<(), Memory>
    ensures { OnOk result (rows.new.items ≡ rows.old.items ++ rows_at 36 4) }
{
    push_rows(
        alloc,
        rows,
        &[
            Key(b"414", &[NumCheck(13)], &[b"254"], false),
            Attribute(b"415", NumCheck(13)),
            Attribute(b"416", NumCheck(13)),
            Key(b"417", &[NumCheck(13)], &[], false),
        ],
    )
}

/// Appends the rows of assets, pieces of trade items and services.
#[tactic(auto, unfolding(crate::specs::BuiltInAis::builtin_ais))]
fn add_assets(alloc: Global, rows: &mut Vec<AiRow>) -> Result<(), Memory>
    ensures { OnOk result (rows.new.items ≡ rows.old.items ++ rows_at 40 7) }
{
    push_rows(
        alloc,
        rows,
        &[
            Key(b"8003", &[Zero, NumCheck(13), SetOpt(16)], &[], false),
            Key(b"8004", &[Set(30)], &[], false),
            Key(
                b"8006",
                &[NumCheck(14), Num(2), Num(2)],
                &[b"22", b"10", b"21"],
                false,
            ),
            Key(b"8017", &[NumCheck(18)], &[b"8019"], false),
            Key(b"8018", &[NumCheck(18)], &[b"8019"], false),
            Qualifier(b"8019", NumUpTo(10), b""),
            Attribute(b"8020", Set(25)),
        ],
    )
}

/// Appends the rows that trading partners agree on, and the first company internal ones.
#[tactic(auto, unfolding(crate::specs::BuiltInAis::builtin_ais))]
fn add_agreed(alloc: Global, rows: &mut Vec<AiRow>) -> Result<(), Memory>
    ensures { OnOk result (rows.new.items ≡ rows.old.items ++ rows_at 47 5) }
{
    push_rows(
        alloc,
        rows,
        &[
            Attribute(b"90", Set(30)),
            Attribute(b"91", Set(90)),
            Attribute(b"92", Set(90)),
            Attribute(b"93", Set(90)),
            Attribute(b"94", Set(90)),
        ],
    )
}

/// Appends the company internal rows.
#[tactic(auto, unfolding(crate::specs::BuiltInAis::builtin_ais))]
fn add_company(alloc: Global, rows: &mut Vec<AiRow>) -> Result<(), Memory>
    ensures { OnOk result (rows.new.items ≡ rows.old.items ++ rows_at 52 5) }
{
    push_rows(
        alloc,
        rows,
        &[
            Attribute(b"95", Set(90)),
            Attribute(b"96", Set(90)),
            Attribute(b"97", Set(90)),
            Attribute(b"98", Set(90)),
            Attribute(b"99", Set(90)),
        ],
    )
}

/// Appends the application identifiers of goods: identification and count, dates and weights.
fn add_goods(alloc: Global, rows: &mut Vec<AiRow>) -> Result<(), Memory>
    ensures { OnOk result (rows.new.items ≡ rows.old.items ++ goods_ais) }
{
    add_items(alloc, rows)?;
    add_dates(alloc, rows)?;
    add_variants(alloc, rows)?;
    add_additional(alloc, rows)?;
    add_weights(alloc, rows)
}

/// Appends the other rows: origins and destinations of goods, assets and services, and mutual agreements.
fn add_others(alloc: Global, rows: &mut Vec<AiRow>) -> Result<(), Memory>
    ensures { OnOk result (rows.new.items ≡ rows.old.items ++ other_ais) }
{
    add_shipments(alloc, rows)?;
    add_parties(alloc, rows)?;
    add_locations(alloc, rows)?;
    add_assets(alloc, rows)?;
    add_agreed(alloc, rows)?;
    add_company(alloc, rows)
}

/// Appends the built-in application identifiers.
#[tactic(auto, unfolding(crate::specs::BuiltInAis::builtin_ais))]
fn add_all(alloc: Global, rows: &mut Vec<AiRow>) -> Result<(), Memory>
    ensures { OnOk result (rows.new.items ≡ rows.old.items ++ builtin_ais) }
{
    add_goods(alloc, rows)?;
    add_others(alloc, rows)
}

/// Returns the rows of the built-in application identifiers, in the order of tables/builtin.txt, or out of memory. They are those
/// of GS1 General Specifications, section 3, that are met most.
pub fn builtin_ais(alloc: Global) -> Result<List<AiRow>, Memory>
    ensures { IfOk result (λ rows. rows ≡ builtin_ais) }
{
    let mut rows = Vec::new(alloc);
    add_all(alloc, &mut rows)?;
    Ok(List::from_vec(rows))
}

/// A row of an application identifier, written in a line.
#[derive(Clone, Copy)]
enum AiLine<'a> {
    /// An attribute: its code and its part.
    Attribute(&'a [u8], Part),
    /// A key qualifier: its AI, its part, and the value that means none.
    Qualifier(&'a [u8], Part, &'a [u8]),
    /// A key: its code, its parts, the codes of its qualifiers, and whether a link may have it with fewer digits.
    Key(&'a [u8], &'a [Part], &'a [&'a [u8]], bool),
}
