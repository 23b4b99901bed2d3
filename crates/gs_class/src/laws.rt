ghost use Rattle.std.specs.Prelude.{◌≡◌, ℕ, List, Option, Ok, Result, Some};
ghost use Rattle.gs_ai.specs.declared.row.AiRow.{AiRow};
ghost use Rattle.gs_ident.specs.Elements.{Elements};
ghost use Rattle.gs_ident.specs.Identities.{IsMadeWith};
ghost use Rattle.gs_prefix.specs.declared.entry.PrefixEntry.{PrefixEntry};
ghost use Rattle.gs_class.specs.declared.error.ClassLoadFault.{ClassLoadFault};
ghost use Rattle.gs_class.specs.Answers.{AreAlike, BuiltInAnswer, LoadAnswer};
ghost use Rattle.gs_class.specs.Meanings.{IsClass};
ghost use Rattle.gs_class.specs.Sets.{ClassRows, IsClear, IsOfTable};
ghost use Rattle.gs_class.specs.Written.{class_answer};

use gs_ai::AiTable;

/// States that a text is a class URI of at most one identity, by a set by which no text has two readings.
pub fn one_class()
    ensures { (ais : List AiRow) (set : ClassRows) (text : List ℕ) (one other : Elements) → IsClear set
        → IsClass ais set text one → IsClass ais set text other → one ≡ other }
{}

/// States that the text that is written of an identity is a class URI of it. The set is of the table, and the identity was made
/// with it.
pub fn what_is_written_is_read(table: &AiTable)
    ensures { (set : ClassRows) (prefixes : List PrefixEntry) (gcp : Option ℕ) (identity : Elements)
        (text : List ℕ) → IsOfTable table.now set → IsMadeWith table.now identity
        → class_answer table.now set prefixes gcp identity ≡ Ok text
        → IsClass table.now set text identity }
{
    // only for the proof: the rows satisfy the rules of application identifiers
    let _ = table.rows();
}

/// States that an identity that is read of a class URI is never rejected, whatever the prefixes. It is written by the company
/// prefix length of the class that read it. The set is of a table.
pub fn what_is_read_is_written()
    ensures { (ais : List AiRow) (set : ClassRows) (prefixes : List PrefixEntry) (text : List ℕ)
        (identity : Elements) → IsOfTable ais set → (read : IsClass ais set text identity)
        → (written : List ℕ)
        × (class_answer ais set prefixes (Some read.class.gcp) identity ≡ Ok written) }
{}

/// States that all bytes have exactly one result of `ClassSet::load`, apart from the text of an ambiguous set. The built-in
/// rows of `ClassSet::builtin` have one too.
pub fn classes_have_one_answer()
    ensures some { (ais : List AiRow) (bytes : List ℕ) →
        (answer : Result ClassRows ClassLoadFault) × LoadAnswer ais bytes answer }
    ensures at_most_one { (ais : List AiRow) (bytes : List ℕ)
        (one other : Result ClassRows ClassLoadFault) → LoadAnswer ais bytes one
        → LoadAnswer ais bytes other → AreAlike one other }
    ensures some_built_in { (ais : List AiRow) →
        (answer : Result ClassRows ClassLoadFault) × BuiltInAnswer ais answer }
    ensures one_built_in { (ais : List AiRow) (one other : Result ClassRows ClassLoadFault)
        → BuiltInAnswer ais one → BuiltInAnswer ais other → AreAlike one other }
{}
