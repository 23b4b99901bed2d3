ghost use Rattle.std.specs.Prelude.{◌≡◌, ◌<◌, find, length, map, slice_get};
ghost use Rattle.std.specs.Option.{option_and_then, option_copied};
ghost use Rattle.gs_tables.specs.Judgements.{IsClear, IsLoaded, Judged};
ghost use Rattle.gs_tables.specs.Tables.{level_rows, IsShaped, IsAnswer, row_rejections, set_of};
ghost use Rattle.gs_tables.specs.Numbers.{numbers_of};
ghost use Rattle.gs_tables.specs.Shapes.{LoadAnswer};
ghost use Rattle.gs_tables.specs.Forms.{serial_row};
ghost use Rattle.gs_ai.specs.Tables.{table_errors};
ghost use Rattle.gs_ai.specs.Values.{has_code};
ghost use Rattle.gs_tables_document.specs.declared.error.LoadFault.TheVariants.{Ai};

use crate::kind_places::{KindPlaces, places_of};
use crate::level_tables::{LevelTable, LevelTables, OptionRows};
use crate::rules::{check_limits, check_version, judged_parts};
use gs_ai::{AiFault, AiRow, AiTable};
use gs_chars::List;
use gs_grammar_level::Level;
use gs_tables_document::{Document, Kind, LevelName, LoadFault, OptInfo, read_document};
use std::alloc::Global;
use std::marker::Model;

/// A table set: the application identifiers, the kinds, and the options of three levels, each in the order of its rows. It
/// satisfies the rules that `TableSet::load` asks for, and none of its levels is ambiguous.
pub struct TableSet {
    ais: AiTable,
    kinds: List<Kind>,
    places: List<KindPlaces>,
    levels: LevelTables,
}

// by hand, so that a function that drops a set calls this one: a derived drop is written out at each of its exits
impl Drop for TableSet {
    fn drop(self) {
        let TableSet {
            ais: _,
            kinds: _,
            places: _,
            levels: _,
        } = self;
    }
}

impl Model for TableSet {
    ghost use Rattle.std.specs.Prelude.{◌≡◌, map};
    ghost use Rattle.gs_tables.specs.Judgements.{IsLoaded};
    ghost use Rattle.gs_tables.specs.Tables.{TableRows};
    ghost use Rattle.gs_tables.specs.TablesSupport.{set_with};
    ghost use Rattle.gs_tables.specs.PlacesSupport.{places_of};

    ghost Value = { TableRows };

    ghost view = { λ a. set_with a.ais a.kinds a.levels.binary a.levels.tag a.levels.pure };

    ghost invariant = { λ a. IsLoaded (set_with a.ais a.kinds a.levels.binary a.levels.tag a.levels.pure)
        × (a.places ≡ map (places_of a.ais) a.kinds) };
}

impl TableSet {
    /// Returns the set that a table document gives, or its first rejection, in this order. `Json`: the bytes are not JSON text,
    /// or the document or a row does not have the form of its kind. `Version`: the version is neither 1 nor 2. `Limit` of the
    /// numbers of rows: application identifiers, kinds, options, items. `Ai`: the first error of the application identifiers.
    /// `BadKind`: the first kind that breaks a rule. Then four rejections option by option, of the levels binary, tag, pure.
    /// `BadItem`: its first bad item. `Limit(Size)`. `Mismatch`: it does not fit its kind. `Duplicate`: the first earlier
    /// option of the same kind, encoding and company prefix length. Last `Ambiguous`: the first level, in the same order, with
    /// a list of symbols that has two different derivations. It gives the first pair of its options that shares one, and such a
    /// list. Returns `Ok` if and only if none of these applies. May return `Memory` instead.
    pub fn load(alloc: Global, bytes: &[u8]) -> Result<TableSet, LoadFault>
        ensures { LoadAnswer bytes.now result }
    {
        let document = read_document(alloc, bytes)?;
        check_version(&document)?;
        TableSet::of_rows(alloc, document)
    }

    /// Returns the set of the rows, or their first rejection from the limits on, its levels judged.
    pub(crate) fn of_rows(alloc: Global, document: Document) -> Result<TableSet, LoadFault>
        ensures { Judged (IsAnswer (row_rejections document) (set_of document)) result }
    {
        check_limits(&document)?;
        let Document {
            version: _,
            ais,
            kinds,
            binary,
            tag,
            pure,
        } = document;
        let options = OptionRows { binary, tag, pure };
        let ais = make_ais(alloc, ais)?;
        let (kinds, levels) = judged_parts(alloc, &ais, kinds, options)?;
        let places = places_of(alloc, &ais, kinds.items())?;
        Ok(TableSet {
            ais,
            kinds,
            places,
            levels,
        })
    }

    /// Returns the application identifiers.
    pub fn ais(&self) -> &AiTable
        ensures rows { result.now ≡ self.now.ais }
        ensures shaped { IsShaped self.now }
    {
        &self.ais
    }

    /// Returns the kinds, in their order.
    pub fn kinds(&self) -> &[Kind]
        ensures rows { result.now ≡ self.now.kinds }
        ensures shaped { IsShaped self.now }
    {
        self.kinds.items()
    }

    /// Returns the row of the key of a kind, which is given by its index. Takes no search.
    pub fn key_row(&self, kind: usize) -> Option<&AiRow>
        requires { kind < length self.now.kinds }
        ensures { option_copied result
            ≡ option_and_then (λ k. find (has_code k.key) self.now.ais) (slice_get self.now.kinds kind) }
    {
        self.ais.rows().get(self.places.items()[kind].key)
    }

    /// Returns the row of the serial of a kind, which is given by its index, if the serial is a separate element. Takes no
    /// search.
    pub fn serial_row(&self, kind: usize) -> Option<&AiRow>
        requires { kind < length self.now.kinds }
        ensures { option_copied result
            ≡ option_and_then (λ k. serial_row self.now.ais k.serial) (slice_get self.now.kinds kind) }
    {
        self.ais.rows().get(self.places.items()[kind].serial)
    }

    /// Returns the options of a level, in their order. The level is not ambiguous.
    pub fn level(&self, name: LevelName) -> &Level
        ensures rows { result.now ≡ (level_rows name self.now).level }
        ensures loaded { IsLoaded self.now }
        ensures clear { IsClear result.now }
        ensures shaped { IsShaped self.now }
    {
        // only for the proof: the facts of the set
        let _ = &self.kinds;
        &self.table(name).level
    }

    /// Returns the facts of each option of a level apart from its items, in the order of the options.
    pub fn info(&self, name: LevelName) -> &[OptInfo]
        ensures rows { result.now ≡ (level_rows name self.now).info }
        ensures shaped { IsShaped self.now }
    {
        // only for the proof: the facts of the set
        let _ = &self.kinds;
        self.table(name).info.items()
    }

    /// Returns the numbers of the options of a level that are of a kind, named by its index, and of a prefix length, ascending.
    pub fn candidates(&self, name: LevelName, kind: usize, gcp: u8) -> &[usize]
        ensures { result.now ≡ numbers_of kind gcp (level_rows name self.now).info }
    {
        self.table(name).info.numbers(kind, gcp)
    }

    /// Returns a level with the facts of its options.
    fn table(&self, name: LevelName) -> &LevelTable
        ensures { result.now ≡ level_rows name self.now }
    {
        match name {
            LevelName::Binary => &self.levels.binary,
            LevelName::Tag => &self.levels.tag,
            LevelName::Pure => &self.levels.pure,
        }
    }
}

/// Returns the table of the application identifiers, or their first error.
pub(crate) fn make_ais(alloc: Global, rows: List<AiRow>) -> Result<AiTable, LoadFault>
    ensures { IsAnswer (map Ai (table_errors rows)) rows result }
{
    match AiTable::new(alloc, rows.into_vec()) {
        Ok(ais) => Ok(ais),
        Err(AiFault::Memory) => Err(LoadFault::Memory),
        Err(error) => Err(LoadFault::Ai(error)),
    }
}
