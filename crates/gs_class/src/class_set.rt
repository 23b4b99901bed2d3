ghost use Rattle.std.specs.Prelude.{◌≡◌, [], List as ListOf, IfOk, length, ◌≤◌, ◌++◌, false, OnOk, map};
ghost use Rattle.serde_json.specs.View.{view};
ghost use Rattle.gs_ai.specs.declared.row.AiRow.{AiRow};
ghost use Rattle.gs_class.specs.Answers.{BuiltInAnswer, Judged, LoadAnswer, OrMemory, ruled_document, ruled_rows};
ghost use Rattle.gs_class.specs.Sets.{IsClear, IsOfTable, set_of, class_of, option_of};
ghost use Rattle.gs_grammar.specs.Levels.{KeepBounds};
ghost use Rattle.gs_tables_document.specs.Items.{alone, present};
ghost use Rattle.gs_class.specs.AnswersSupport.{IsLevelJudged};
ghost use Rattle.gs_class.specs.Rules.{class_rejections};

use crate::builtin::built_in_rows;
use crate::document::{ClassRow, judge_form, read_rows};
use crate::error::ClassLoadFault;
use crate::rules::{check_rows, check_version};
use gs_ai::AiTable;
use gs_chars::{List, Memory, Text};
use gs_grammar::Opt;
use gs_grammar_level::Level;
use gs_json::{Doc, Node};
use gs_tables::{Field, split_items};
use std::alloc::Global;
use std::marker::Model;

/// A set of classes: the options of their texts, and the facts of each apart from its items, in the order of the rows. No text
/// has two readings by the set.
pub struct ClassSet {
    level: Level,
    classes: List<Class>,
}

// by hand, so that a function that drops a set calls this one: a derived drop is written out at each of its exits
impl Drop for ClassSet {
    fn drop(self) {
        let ClassSet {
            level: _,
            classes: _,
        } = self;
    }
}

impl Model for ClassSet {
    ghost use Rattle.gs_class.specs.Sets.{ClassRows};
    ghost use Rattle.gs_grammar.specs.Ambiguity.{IsUnambiguous};
    ghost use Rattle.gs_grammar.specs.Levels.{item_lists};

    ghost Value = { ClassRows };

    ghost view = { λ a. record { level = a.level; classes = a.classes } };

    ghost invariant = { λ a. IsUnambiguous (item_lists a.level.options) };
}

impl ClassSet {
    /// Returns the set of a document in JSON. It is an object with exactly `version`, the number 1, and `classes`, an array of
    /// objects with exactly `name`, `key`, `lead`, `element`, `gcp` and `items`. Returns the first rejection in this order.
    /// `Json`: the bytes are not JSON text, or the document or a row does not have this form. `Version`: the version is not 1.
    /// `Limit`: more than 256 classes, or 24 items of one. Then, row by row, four rejections. `BadItem`: its first bad item.
    /// `Size`. `Mismatch`: it breaks a rule given the table and the earlier rows. `Duplicate`: the first earlier row of one
    /// name and company prefix length. Last `Ambiguous`: the first pair of rows that shares a text, and such a text. Returns
    /// `Ok` if and only if none of these applies: the rows satisfy the rules, and no text has two readings. May return `Memory`
    /// instead.
    pub fn load(alloc: Global, table: &AiTable, bytes: &[u8]) -> Result<ClassSet, ClassLoadFault>
        ensures answer { OrMemory (LoadAnswer table.now bytes.now) result }
        ensures of_table { IfOk result (IsOfTable table.now) }
    {
        let doc = Doc::parse(alloc, bytes)?;
        ClassSet::of_root(alloc, table, &doc.root(alloc))
    }

    /// Returns the set of the built-in rows: the lot of a trade item, `urn:epc:class:lgtin`, for each company prefix length from
    /// 12 to 6. They go through the rules of `ClassSet::load`; returns their first rejection if there is one, for example with a
    /// table without the trade item. May return `Memory` instead.
    pub fn builtin(alloc: Global, table: &AiTable) -> Result<ClassSet, ClassLoadFault>
        ensures answer { OrMemory (BuiltInAnswer table.now) result }
        ensures of_table { IfOk result (IsOfTable table.now) }
    {
        ClassSet::of_rows(alloc, table, built_in_rows(alloc)?)
    }

    /// Returns the set of no class, by which no text has a reading. It is of each table. Fails only with `Memory`.
    pub fn none(alloc: Global) -> Result<ClassSet, Memory>
        ensures none { IfOk result (λ set. set ≡ set_of []) }
        ensures of_each_table { IfOk result (λ set. (ais : ListOf AiRow) → IsOfTable ais set) }
    {
        Ok(ClassSet {
            level: Level::new(alloc, false, Vec::new(alloc))?,
            classes: List::from_vec(Vec::new(alloc)),
        })
    }

    /// Returns the set that the document of this tree gives, or its first rejection.
    fn of_root(alloc: Global, table: &AiTable, root: &Node<'_>) -> Result<ClassSet, ClassLoadFault>
        requires { root.now.place ≡ [] }
        ensures answer { OrMemory (Judged (ruled_document table.now (view root.now.tree))) result }
        ensures of_table { IfOk result (IsOfTable table.now) }
    {
        judge_form(alloc, root)?;
        check_version(root)?;
        let rows = read_rows(alloc, root)?;
        ClassSet::of_rows(alloc, table, rows)
    }

    /// Returns the set of the rows, or their first rejection.
    fn of_rows(
        alloc: Global,
        table: &AiTable,
        rows: Vec<ClassRow>,
    ) -> Result<ClassSet, ClassLoadFault>
        ensures answer { OrMemory (Judged (ruled_rows table.now rows.items)) result }
        ensures of_table { IfOk result (IsOfTable table.now) }
    {
        check_rows(table, rows.as_slice())?;
        let (level, classes) = make_parts(alloc, table, rows)?;
        judge_level(alloc, &level)?;
        Ok(ClassSet { level, classes })
    }

    /// Returns the number of classes.
    pub fn len(&self) -> usize
        ensures { result ≡ length self.now.classes }
    {
        self.classes.items().len()
    }

    /// Returns the facts of each option apart from its items, in the order of the rows.
    pub(crate) fn classes(&self) -> &[Class]
        ensures { result.now ≡ self.now.classes }
    {
        self.classes.items()
    }

    /// Returns the options of the texts, in the order of the rows. The level is not ambiguous.
    pub(crate) fn level(&self) -> &Level
        ensures level { result.now ≡ self.now.level }
        ensures clear { IsClear self.now }
    {
        &self.level
    }
}

/// A class of things that a class URI names: the facts of an option of a set apart from its items.
#[derive(Drop)]
pub struct Class {
    /// The name, as written in class URIs.
    pub name: Text,
    /// The code of the key.
    pub key: Text,
    /// The AI of the element that identifies the class among the things of one key.
    pub element: Text,
    /// The number of digits of the key, 0 or 1, that are before the company prefix and go with the rest.
    pub lead: u8,
    /// The number of digits of the GS1 Company Prefix, 1 to 12.
    pub gcp: u8,
    /// The field of each item, none for literals.
    pub fields: List<Option<Field>>,
}

/// Returns the option of a row that no rule rejects, with its facts.
fn make_class(alloc: Global, row: ClassRow) -> Result<(Opt, Class), Memory>
    requires lead { row.lead ≤ 1 }
    requires gcp { row.gcp ≤ 12 }
    requires items { KeepBounds false (alone (present row.items)) }
    ensures option { IfOk result (λ made. made.0 ≡ option_of row) }
    ensures class { IfOk result (λ made. made.1 ≡ class_of row) }
{
    let ClassRow {
        name,
        key,
        lead,
        element,
        gcp,
        items,
    } = row;
    let (fields, items) = split_items(alloc, items)?;
    let class = Class {
        name,
        key,
        element,
        lead: lead as u8,
        gcp: gcp as u8,
        fields,
    };
    Ok((Opt::of_items(false, items), class))
}

/// Appends the options of rows that no rule rejects, with the facts of each.
fn push_classes(
    alloc: Global,
    ais: &AiTable,
    rows: Vec<ClassRow>,
    options: &mut Vec<Opt>,
    classes: &mut Vec<Class>,
) -> Result<(), Memory>
    requires { class_rejections ais.now rows.items ≡ [] }
    ensures options { OnOk result (options.new.items ≡ options.old.items ++ map option_of rows.items) }
    ensures classes { OnOk result (classes.new.items ≡ classes.old.items ++ map class_of rows.items) }
{
    // only for the proof: the rows satisfy the rules, given these application identifiers
    let _ = ais;
    for row in rows {
        let (option, class) = make_class(alloc, row)?;
        options.push(option)?;
        classes.push(class)?;
    }
    Ok(())
}

/// Returns the options of rows that no rule rejects as a level, with the facts of each.
fn make_parts(
    alloc: Global,
    ais: &AiTable,
    rows: Vec<ClassRow>,
) -> Result<(Level, List<Class>), Memory>
    requires { class_rejections ais.now rows.items ≡ [] }
    ensures level { IfOk result (λ parts. parts.0 ≡ (set_of rows.items).level) }
    ensures classes { IfOk result (λ parts. parts.1 ≡ (set_of rows.items).classes) }
{
    let mut options = Vec::new(alloc);
    let mut classes = Vec::new(alloc);
    push_classes(alloc, ais, rows, &mut options, &mut classes)?;
    Ok((Level::new(alloc, false, options)?, List::from_vec(classes)))
}

/// Rejects a level that is ambiguous.
fn judge_level(alloc: Global, level: &Level) -> Result<(), ClassLoadFault>
    ensures { IsLevelJudged level.now result }
{
    match level.first_share(alloc)? {
        None => Ok(()),
        Some(pair) => Err(ClassLoadFault::Ambiguous {
            i: pair.first,
            j: pair.second,
            text: pair.text,
        }),
    }
}
