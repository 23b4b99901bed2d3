ghost use Rattle.std.specs.Prelude.{◌≡◌, ℕ, List, Result, Ok, ◌↔◌, false};
ghost use Rattle.gs_tables.specs.Judgements.{IsLoaded};
ghost use Rattle.gs_tables.specs.Tables.{TableRows, IsShaped};
ghost use Rattle.gs_translate.specs.declared.form.Form.{Form};
ghost use Rattle.gs_translate.specs.declared.reader.Meaning.{Meaning};
ghost use Rattle.gs_translate.specs.declared.reason.Reason.{Reason};
ghost use Rattle.gs_translate.specs.Answers.{IsAnswer};
ghost use Rattle.gs_translate.specs.Conditions.{AsksForOne, AsksForSome};
ghost use Rattle.gs_translate.specs.Meanings.{IsRead};
ghost use Rattle.gs_translate.specs.StepsSupport.{HasOne, HasSome};
ghost use Rattle.gs_tables.specs.MigratedSets.{LoadsAlike};
ghost use Rattle.gs_tables.specs.Shapes.{LoadAnswer};
ghost use Rattle.gs_translate.specs.MigratedTables.{TranslateAlike};
ghost use Rattle.gs_prefix.specs.declared.entry.PrefixEntry.{PrefixEntry};
ghost use Rattle.gs_translate.specs.declared.form.Options.{Options};
ghost use Rattle.gs_translate.specs.declared.form.Target.{Target};
ghost use Rattle.gs_translate.specs.Targets.{kept};
ghost use Rattle.gs_translate.specs.Translations.{AreInOrder, IsOfPairs, IsTranslation, MeansIdentity, NameOne};

/// States that by tables that meet a form's conditions a text has at most one meaning in that form. It has one or is rejected.
/// Loaded tables meet them for every form.
pub fn each_text_has_one_meaning()
    ensures at_most_one { (set : TableRows) (form : Form) (text : List ℕ) → AsksForOne form set
        → HasOne (IsRead set form text) }
    ensures some { (set : TableRows) (form : Form) (text : List ℕ) → AsksForSome form set
        → HasSome (IsRead set form text) }
{}

/// States that a text has exactly one answer, by tables that meet its form's conditions.
pub fn each_text_has_one_answer()
    ensures at_most_one { (set : TableRows) (form : Form) (text : List ℕ) → AsksForOne form set
        → HasOne (IsAnswer set form text) }
    ensures some { (set : TableRows) (form : Form) (text : List ℕ) → AsksForSome form set
        → HasSome (IsAnswer set form text) }
{}

/// States that loaded tables satisfy the conditions of each form.
pub fn loaded_tables_suit_each_form()
    ensures one { (set : TableRows) (form : Form) → IsLoaded set → AsksForOne form set }
    ensures some { (set : TableRows) (form : Form) → IsLoaded set → AsksForSome form set }
{}

/// States that a table document and a text that loads to the same set translate alike, such as a document and its migrated
/// text. Each text then has the same translations by both sets, for any prefixes, options and forms.
pub fn migrated_tables_translate_alike()
    ensures { (bytes text : List ℕ) (set other : TableRows) → LoadsAlike bytes text
        → LoadAnswer bytes (Ok set) → LoadAnswer text (Ok other) → TranslateAlike set other }
{}

/// States that a text has exactly one translation, by tables that meet its form's conditions.
pub fn each_text_has_one_translation()
    ensures at_most_one { (set : TableRows) (prefixes : List PrefixEntry) (options : Options) (from : Form)
        (to : Target) (text : List ℕ) → AsksForOne from set
        → HasOne (IsTranslation set prefixes options from to text) }
    ensures some { (set : TableRows) (prefixes : List PrefixEntry) (options : Options) (from : Form)
        (to : Target) (text : List ℕ) → AsksForSome from set
        → HasSome (IsTranslation set prefixes options from to text) }
{}

/// States that the canonical link that answers a text is its translation to the canonical link, if more than keys is kept.
pub fn canonical_links_are_translations()
    ensures { (set : TableRows) (prefixes : List PrefixEntry) (options : Options) (form : Form)
        (text : List ℕ) (answer : Result (List ℕ) Reason) → options.keys_only ≡ false
        → IsTranslation set prefixes options form Target.Canon text answer ↔ IsAnswer set form text answer }
{}

/// States that the translation of a text means, in the form of the target, the identity of the text. The identity is narrowed
/// if only keys are kept. This holds in each form by loaded tables, and for element strings and links by any tables that
/// satisfy their rules. The limit on the length of a text is not part of it: an answer may be longer than a text that is read.
pub fn a_spelling_means_the_same()
    ensures of_pairs { (set : TableRows) (prefixes : List PrefixEntry) (options : Options) (from : Form)
        (to : Target) (text answer : List ℕ) (source : Meaning)
        → IsShaped set → AreInOrder options → IsOfPairs to
        → IsRead set from text (Ok source) → IsTranslation set prefixes options from to text (Ok answer)
        → MeansIdentity set to answer (kept set options.keys_only source).identity }
    ensures in_each_form { (set : TableRows) (prefixes : List PrefixEntry) (options : Options) (from : Form)
        (to : Target) (text answer : List ℕ) (source : Meaning)
        → IsLoaded set → AreInOrder options
        → IsRead set from text (Ok source) → IsTranslation set prefixes options from to text (Ok answer)
        → MeansIdentity set to answer (kept set options.keys_only source).identity }
{}

/// States that two texts, each of any form, that are answered have equal canonical links if and only if they name the same
/// elements.
pub fn equal_links_name_the_same()
    ensures { (set : TableRows) (form other : Form) (text given link wanted : List ℕ) → IsShaped set
        → IsAnswer set form text (Ok link) → IsAnswer set other given (Ok wanted)
        → (link ≡ wanted) ↔ NameOne set form text other given }
{}
