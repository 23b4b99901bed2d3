ghost use Rattle.std.specs.Prelude.{◌≡◌, ◌≢◌, ◌<◌, ◌≤◌, ℕ, List, [], true, None, Some, OnOk, IfOk, IfErr, IfSome, IfNone, find, length, take, map, position, slice_get};
ghost use Rattle.std.specs.Option.{option_and_then, option_copied};
ghost use Rattle.gs_ai.specs.PredefinedLengths.{predefined_length};
ghost use Rattle.gs_ai.specs.Tables.{table_errors, KeepsRules, begins, is_key_of, is_row, row_at};
ghost use Rattle.gs_ai.specs.Values.{has_code, row_error, value_error};

use crate::errors::{AiFault, ValueFault};
use crate::row::AiRow;
use crate::rules::check_rows;
use crate::starts::{predefined_length, starts_of, two_digits};
use crate::value::parts_ok;
use gs_chars::List;
use std::alloc::Global;
use std::marker::Model;

/// A table of application identifiers, which contracts see as the list of its rows. Its rows satisfy the rules that
/// `AiTable::new` asks for.
pub struct AiTable {
    rows: List<AiRow>,
    starts: List<List<usize>>,
}

// by hand, so that a function that drops one calls this one: a derived drop is written out at each of its exits
impl Drop for AiTable {
    fn drop(self) {
        let AiTable { rows: _, starts: _ } = self;
    }
}

impl Model for AiTable {
    ghost use Rattle.std.specs.Prelude.{List};
    ghost use Rattle.gs_ai.specs.declared.row.AiRow.{AiRow};
    ghost use Rattle.gs_ai.specs.Tables.{KeepsRules};
    ghost use Rattle.gs_ai.specs.TablesSupport.{AreStarts};

    ghost Value = { List AiRow };

    ghost view = { λ a. a.rows };

    ghost invariant = { λ a. KeepsRules a.rows × AreStarts a.rows a.starts };
}

impl AiTable {
    /// Returns the table of the rows, in their order. A rejection is the first error of the rows. Row by row, the errors are
    /// `BadAi`, `CodePrefix` and `PredefinedLength`, and then `KeyIsQualifier` and `BadAi` of the qualifiers that a row lists.
    /// May return `Memory` instead of any answer.
    pub fn new(alloc: Global, rows: Vec<AiRow>) -> Result<AiTable, AiFault>
        ensures made { IfOk result (λ table. (table ≡ rows.items) × (table_errors rows.items ≡ [])) }
        ensures rejected { IfErr result (λ error. error ≢ AiFault.Memory
            → slice_get (table_errors rows.items) 0 ≡ Some error) }
    {
        check_rows(rows.as_slice())?;
        let Ok(starts) = starts_of(alloc, rows.as_slice()) else {
            return Err(AiFault::Memory);
        };
        Ok(AiTable {
            rows: List::from_vec(rows),
            starts: List::from_vec(starts),
        })
    }

    /// Returns the rows, in their order.
    pub fn rows(&self) -> &[AiRow]
        ensures rows { result.now ≡ self.now }
        ensures kept { KeepsRules self.now }
    {
        self.rows.items()
    }

    /// Returns the index of the row with this code. `None` is returned if and only if no row has it.
    pub fn find(&self, code: &[u8]) -> Option<usize>
        ensures row { result ≡ position (has_code code.now) self.now }
        ensures within { IfSome result (λ row. row < length self.now) }
        ensures kept { KeepsRules self.now }
    {
        let rows = self.rows.items();
        let row = self.begins(code)?;
        // The row's code begins the text, so it equals the text if both are equally long.
        if rows[row].code.as_bytes().len() == code.len() {
            Some(row)
        } else {
            None
        }
    }

    /// Returns the row with this code. `None` is returned if and only if no row has it.
    pub fn row_with(&self, code: &[u8]) -> Option<&AiRow>
        ensures row { option_copied result ≡ find (has_code code.now) self.now }
        ensures kept { IfSome result (λ row. is_row row.now ≡ true) }
    {
        let row = self.find(code)?;
        Some(&self.rows.items()[row])
    }

    /// Returns whether the code is that of a key.
    pub fn is_key(&self, code: &[u8]) -> bool
        ensures { result ≡ is_key_of self.now code.now }
    {
        // Only for the proof: the rows satisfy the rules.
        let _ = &self.rows;
        match self.find(code) {
            Some(row) => self.is_key_row(row),
            None => false,
        }
    }

    /// Returns whether the row is that of a key. The row is one of the table.
    pub fn is_key_row(&self, row: usize) -> bool
        requires { row < length self.now }
        ensures { (code : List ℕ) → position (has_code code) self.now ≡ Some row
            → result ≡ is_key_of self.now code }
    {
        // Only for the proof: the rows satisfy the rules.
        let _ = &self.rows;
        self.rows.items()[row].role.is_key()
    }

    /// Returns the index of the row whose code begins the text. At most one row's code does. `None` is returned if and only if no
    /// row's code does.
    pub fn begins(&self, text: &[u8]) -> Option<usize>
        ensures row { result ≡ row_at self.now text.now }
        ensures within { IfSome result (λ row. row < length self.now) }
    {
        let rows = self.rows.items();
        let start = two_digits(text)?;
        let places = self.starts.items()[start].items();
        for place in places {
            if is_front(rows[*place].code.as_bytes(), text) {
                return Some(*place);
            }
        }
        None
    }

    /// Returns the length of AI and value together, if the first two digits of the row's code are in the list of predefined
    /// lengths. Returns `None` if and only if they are not (GS1 General Specifications, figure 7.8.5-2). The row is one of the
    /// table.
    pub fn predefined(&self, row: usize) -> Option<usize>
        requires { row < length self.now }
        ensures { result ≡ option_and_then (λ r. predefined_length r.code) (slice_get self.now row) }
    {
        predefined_length(self.rows.items()[row].code.as_bytes())
    }

    /// Checks a value of the row's application identifier. Returns its first error: `Length`, `Char`, `Check`, `Date`, in this
    /// order. The row is one of the table.
    pub fn row_value_ok(&self, row: usize, value: &[u8]) -> Result<(), ValueFault>
        requires { row < length self.now }
        ensures ok { OnOk result (row_error self.now row value.now ≡ None) }
        ensures error { IfErr result (λ e. row_error self.now row value.now ≡ Some e) }
    {
        let row = &self.rows.items()[row];
        parts_ok(row.parts.items(), value)
    }

    /// Checks a value of the application identifier with this code. Returns its first error: `Unknown`, `Length`, `Char`,
    /// `Check`, `Date`, in this order.
    pub fn value_ok(&self, code: &[u8], value: &[u8]) -> Result<(), ValueFault>
        ensures ok { OnOk result (value_error self.now code.now value.now ≡ None) }
        ensures error { IfErr result (λ e. value_error self.now code.now value.now ≡ Some e) }
    {
        match self.row_with(code) {
            Some(row) => parts_ok(row.parts.items(), value),
            None => Err(ValueFault::Unknown),
        }
    }
}

/// Returns whether the code begins the text. Most codes have two digits, which take two comparisons.
fn is_front(code: &[u8], text: &[u8]) -> bool
    ensures { result ≡ begins code.now text.now }
{
    let [a, b] = code else {
        return text.starts_with(code);
    };
    match text {
        [c, d, ..] => *a == *c && *b == *d,
        _ => false,
    }
}

/// States that at most one row of a table has a code that begins a text.
pub fn one_code_begins(table: &AiTable)
    ensures { (text : List ℕ) (i j : ℕ) → (a b : AiRow)
        → slice_get table.now i ≡ Some a → slice_get table.now j ≡ Some b
        → begins a.code text ≡ true → begins b.code text ≡ true → i ≡ j }
{
    // Only for the proof: the rows satisfy the rules.
    let _ = &table.rows;
}
