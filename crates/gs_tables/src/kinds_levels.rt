ghost use Rattle.std.specs.Prelude.{◌≡◌, ◌≤◌, ◌++◌, [], IfOk, IsSome, OnOk, map, position};
ghost use Rattle.gs_grammar.specs.Levels.{KeepBounds};
ghost use Rattle.gs_tables.specs.Forms.{serial_at};
ghost use Rattle.gs_tables_document.specs.Items.{alone, fields_of, present};
ghost use Rattle.gs_tables.specs.Rules.{has_name};
ghost use Rattle.gs_tables_document.specs.Documents.{is_bits};
ghost use Rattle.gs_tables.specs.Tables.{info_of, items_alone, kind_of, kinds_rejections, level_of, level_rejections, option_form};

use crate::form::further_at;
use crate::level_tables::{IndexedInfo, LevelTable, LevelTables, OptionRows};
use gs_ai::AiTable;
use gs_chars::{List, Memory, Text};
use gs_grammar::{Item, Opt};
use gs_grammar_level::Level;
use gs_tables_document::{
    Field, FieldItem, Kind, KindRow, LevelName, OptInfo, OptionRow, SerialAt,
};
use std::alloc::Global;

/// Returns the place of the serial by the text of a row.
fn serial_at(serial: Text) -> SerialAt
    ensures { result ≡ serial_at serial }
{
    let text = serial.as_bytes();
    if text.is_empty() {
        SerialAt::Nowhere
    } else if text == b"tail".as_slice() {
        SerialAt::Tail
    } else {
        SerialAt::Ai(serial)
    }
}

/// Returns the kinds of rows that no rule rejects, given these application identifiers.
pub fn make_kinds(alloc: Global, ais: &AiTable, rows: List<KindRow>) -> Result<List<Kind>, Memory>
    requires { kinds_rejections ais.now rows ≡ [] }
    ensures { IfOk result (λ kinds. kinds ≡ map (kind_of ais.now) rows) }
{
    let mut kinds = Vec::new(alloc);
    for row in rows.into_vec() {
        let further = further_at(alloc, ais, row.key.as_bytes())?;
        kinds.push(Kind {
            name: row.name,
            key: row.key,
            lead: row.lead as u8,
            serial: serial_at(row.serial),
            further,
        })?;
    }
    Ok(List::from_vec(kinds))
}

/// Returns the items that are not absent, apart from their fields. Fails only with `Memory`.
pub fn split_items(
    alloc: Global,
    items: List<Option<FieldItem>>,
) -> Result<(List<Option<Field>>, Vec<Item>), Memory>
    ensures fields { IfOk result (λ parts. parts.0 ≡ fields_of (present items)) }
    ensures items { IfOk result (λ parts. parts.1.items ≡ alone (present items)) }
{
    let mut fields = Vec::new(alloc);
    let mut alone = Vec::new(alloc);
    for entry in items.into_vec() {
        if let Some((field, item)) = entry {
            fields.push(field)?;
            alone.push(item)?;
        }
    }
    Ok((List::from_vec(fields), alone))
}

/// Returns the index of the kind of a name.
fn kind_at(kinds: &[KindRow], name: &[u8]) -> Option<usize>
    ensures { result ≡ position (has_name name.now) kinds.now }
{
    kinds.iter().position(|kind| name == kind.name.as_bytes())
}

/// Returns the option of a row that no rule rejects, with its facts.
fn make_option(
    alloc: Global,
    kinds: &[KindRow],
    level: LevelName,
    row: OptionRow,
) -> Result<(Opt, OptInfo), Memory>
    requires named { IsSome (position (has_name row.kind) kinds.now) }
    requires gcp { row.gcp ≤ 12 }
    requires items { KeepBounds (is_bits level) (items_alone row) }
    ensures option { IfOk result (λ made. made.0 ≡ option_form (is_bits level) row) }
    ensures info { IfOk result (λ made. made.1 ≡ info_of kinds.now row) }
{
    let Some(kind) = kind_at(kinds, row.kind.as_bytes()) else {
        unreachable!();
    };
    let (fields, items) = split_items(alloc, row.items)?;
    let option = Opt::of_items(level.is_bits(), items);
    let info = OptInfo {
        kind,
        encoding: row.encoding,
        gcp: row.gcp as u8,
        fields,
    };
    Ok((option, info))
}

/// Appends the options of rows that no rule rejects, with the facts of each.
fn push_options(
    alloc: Global,
    ais: &AiTable,
    kinds: &[KindRow],
    level: LevelName,
    rows: List<OptionRow>,
    options: &mut Vec<Opt>,
    info: &mut Vec<OptInfo>,
) -> Result<(), Memory>
    requires { level_rejections ais.now kinds.now level rows ≡ [] }
    ensures options { OnOk result (options.new.items
        ≡ options.old.items ++ map (option_form (is_bits level)) rows) }
    ensures info { OnOk result (info.new.items ≡ info.old.items ++ map (info_of kinds.now) rows) }
{
    // only for the proof: the rows satisfy the rules, given these application identifiers
    let _ = ais;
    for row in rows.into_vec() {
        let (option, said) = make_option(alloc, kinds, level, row)?;
        options.push(option)?;
        info.push(said)?;
    }
    Ok(())
}

/// Returns the level of rows that no rule rejects.
fn make_level(
    alloc: Global,
    ais: &AiTable,
    kinds: &[KindRow],
    level: LevelName,
    rows: List<OptionRow>,
) -> Result<LevelTable, Memory>
    requires { level_rejections ais.now kinds.now level rows ≡ [] }
    ensures { IfOk result (λ made. made ≡ level_of kinds.now level rows) }
{
    let mut options = Vec::new(alloc);
    let mut info = Vec::new(alloc);
    push_options(alloc, ais, kinds, level, rows, &mut options, &mut info)?;
    Ok(LevelTable {
        level: Level::new(alloc, level.is_bits(), options)?,
        info: IndexedInfo::new(alloc, kinds.len(), info)?,
    })
}

/// Returns the levels of rows that no rule rejects.
pub fn make_levels(
    alloc: Global,
    ais: &AiTable,
    kinds: &[KindRow],
    options: OptionRows,
) -> Result<LevelTables, Memory>
    requires binary { level_rejections ais.now kinds.now LevelName.Binary options.binary ≡ [] }
    requires tag { level_rejections ais.now kinds.now LevelName.Tag options.tag ≡ [] }
    requires pure { level_rejections ais.now kinds.now LevelName.Pure options.pure ≡ [] }
    ensures binary { IfOk result (λ made. made.binary ≡ level_of kinds.now LevelName.Binary options.binary) }
    ensures tag { IfOk result (λ made. made.tag ≡ level_of kinds.now LevelName.Tag options.tag) }
    ensures pure { IfOk result (λ made. made.pure ≡ level_of kinds.now LevelName.Pure options.pure) }
{
    let (binary, tag, pure) = options.into_lists();
    let binary = make_level(alloc, ais, kinds, LevelName::Binary, binary)?;
    let tag = make_level(alloc, ais, kinds, LevelName::Tag, tag)?;
    let pure = make_level(alloc, ais, kinds, LevelName::Pure, pure)?;
    Ok(LevelTables { binary, tag, pure })
}
