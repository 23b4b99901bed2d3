ghost use Rattle.std.specs.Prelude.{◌≡◌, ◌||◌, ◌++◌, not, length, take, map};
ghost use Rattle.std.specs.List.{flat_map, enumerate_from};
ghost use Rattle.gs_tables.specs.Rules.{is_kind};
ghost use Rattle.gs_tables_document.specs.Documents.{is_bits};
ghost use Rattle.gs_chars.specs.Answers.{error_if};
ghost use Rattle.gs_tables.specs.Tables.{has_long, is_version, kind_rejections, kinds_rejections, level_rejections};
ghost use Rattle.gs_tables.specs.Tables.{limit_rejections, more_than, option_rejections, kind_of};
ghost use Rattle.gs_tables.specs.TablesSupport.{IsFirst, rule_rejections};
ghost use Rattle.gs_tables.specs.JudgedSupport.{AreOfRows, RuledAnswer, levels_of_rows, AreJudged, IsLevelJudged};
ghost use Rattle.gs_tables.specs.JudgedSupport.{by_name};

use crate::kind_rules::is_kind;
use crate::kinds_levels::{make_kinds, make_levels};
use crate::level_tables::{LevelTables, OptionRows};
use crate::option_rules::check_option;
use gs_ai::AiTable;
use gs_chars::List;
use gs_grammar_level::Level;
use gs_tables_document::{
    Document, Kind, KindRow, LevelName, LimitName, LoadFault, MOST_ITEMS, MOST_KINDS, MOST_ROWS,
    OptionRow,
};
use std::alloc::Global;

/// Returns whether this is a version of the profile.
fn is_version(version: u64) -> bool
    ensures { result ≡ is_version version }
{
    version == 1 || version == 2
}

/// Rejects a document of another version.
pub(crate) fn check_version(document: &Document) -> Result<(), LoadFault>
    ensures { IsFirst (error_if (not (is_version document.now.version)) LoadFault.Version) result }
{
    if is_version(document.version) {
        Ok(())
    } else {
        Err(LoadFault::Version)
    }
}

/// Returns whether some option has more than `MOST_ITEMS` items.
fn has_long(rows: &[OptionRow]) -> bool
    ensures { result ≡ has_long rows.now }
{
    rows.iter().any(|row| row.items.items().len() > MOST_ITEMS)
}

/// Returns whether there are more application identifiers than there may be.
fn has_many_ais(document: &Document) -> bool
    ensures { result ≡ more_than 256 document.now.ais }
{
    document.ais.items().len() > MOST_ROWS
}

/// Finds the first limit on the number of rows that the document exceeds.
#[tactic(auto, unfolding(crate::specs::Tables::limit_rejections))]
pub(crate) fn check_limits(document: &Document) -> Result<(), LoadFault>
    ensures { IsFirst (limit_rejections document.now) result }
{
    let binary = document.binary.items();
    let tag = document.tag.items();
    let pure = document.pure.items();
    if has_many_ais(document) {
        return Err(LoadFault::Limit(LimitName::Ais));
    }
    if document.kinds.items().len() > MOST_KINDS {
        return Err(LoadFault::Limit(LimitName::Kinds));
    }
    if binary.len() > MOST_ROWS || tag.len() > MOST_ROWS || pure.len() > MOST_ROWS {
        return Err(LoadFault::Limit(LimitName::Options));
    }
    if has_long(binary) || has_long(tag) || has_long(pure) {
        return Err(LoadFault::Limit(LimitName::Items));
    }
    Ok(())
}

/// Finds the first kind that breaks a rule.
fn check_kinds(ais: &AiTable, kinds: &[KindRow]) -> Result<(), LoadFault>
    ensures { IsFirst (kinds_rejections ais.now kinds.now) result }
{
    for (i, kind) in kinds.iter().enumerate() {
        if !is_kind(ais, &kinds[..i], kind) {
            return Err(LoadFault::BadKind(i));
        }
    }
    Ok(())
}

/// Finds the first rejection of the kinds, and of the options of the levels, row by row.
pub(crate) fn check_rows(
    ais: &AiTable,
    kinds: &[KindRow],
    binary: &[OptionRow],
    tag: &[OptionRow],
    pure: &[OptionRow],
) -> Result<(), LoadFault>
    ensures { IsFirst (rule_rejections ais.now kinds.now binary.now tag.now pure.now) result }
{
    check_kinds(ais, kinds)?;
    check_level(ais, kinds, LevelName::Binary, binary)?;
    check_level(ais, kinds, LevelName::Tag, tag)?;
    check_level(ais, kinds, LevelName::Pure, pure)
}

/// Finds the first rejection of the options of a level, row by row.
fn check_level(
    ais: &AiTable,
    kinds: &[KindRow],
    level: LevelName,
    rows: &[OptionRow],
) -> Result<(), LoadFault>
    ensures { IsFirst (level_rejections ais.now kinds.now level rows.now) result }
{
    for (i, row) in rows.iter().enumerate() {
        check_option(ais, kinds, level, rows, i, row)?;
    }
    Ok(())
}

/// Returns the levels of the rows, or the first rejection: of a kind, of an option, or of a level that is ambiguous.
fn judged_levels(
    alloc: Global,
    ais: &AiTable,
    kinds: &[KindRow],
    options: OptionRows,
) -> Result<LevelTables, LoadFault>
    ensures { RuledAnswer
        (rule_rejections ais.now kinds.now options.binary options.tag options.pure)
        (levels_of_rows kinds.now options.binary options.tag options.pure)
        (AreOfRows kinds.now options.binary options.tag options.pure) result }
{
    check_rows(
        ais,
        kinds,
        options.binary.items(),
        options.tag.items(),
        options.pure.items(),
    )?;
    let levels = make_levels(alloc, ais, kinds, options)?;
    judge_levels(
        alloc,
        &levels.binary.level,
        &levels.tag.level,
        &levels.pure.level,
    )?;
    Ok(levels)
}

/// Returns the kinds and the levels of the rows, or the first rejection. It is that of a kind, of an option, or of a level that
/// is ambiguous.
pub(crate) fn judged_parts(
    alloc: Global,
    ais: &AiTable,
    kinds: List<KindRow>,
    options: OptionRows,
) -> Result<(List<Kind>, LevelTables), LoadFault>
    ensures { RuledAnswer
        (rule_rejections ais.now kinds options.binary options.tag options.pure)
        (levels_of_rows kinds options.binary options.tag options.pure)
        (λ made. (made.0 ≡ map (kind_of ais.now) kinds)
        × AreOfRows kinds options.binary options.tag options.pure made.1) result }
{
    let levels = judged_levels(alloc, ais, kinds.items(), options)?;
    let kinds = make_kinds(alloc, ais, kinds)?;
    Ok((kinds, levels))
}

/// Rejects a level that is ambiguous.
fn judge_level(alloc: Global, name: LevelName, level: &Level) -> Result<(), LoadFault>
    ensures { IsLevelJudged name level.now result }
{
    match level.first_share(alloc)? {
        None => Ok(()),
        Some(pair) => Err(LoadFault::Ambiguous {
            level: name,
            i: pair.first,
            j: pair.second,
            text: pair.text,
        }),
    }
}

/// Rejects the first level that is ambiguous, in the order binary, tag, pure.
pub(crate) fn judge_levels(
    alloc: Global,
    binary: &Level,
    tag: &Level,
    pure: &Level,
) -> Result<(), LoadFault>
    ensures { AreJudged (by_name binary.now tag.now pure.now) result }
{
    judge_level(alloc, LevelName::Binary, binary)?;
    judge_level(alloc, LevelName::Tag, tag)?;
    judge_level(alloc, LevelName::Pure, pure)
}
