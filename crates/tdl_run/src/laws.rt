ghost use Rattle.std.specs.Prelude.{◌≡◌, ◌↔◌, ℕ, List, Ok, Option, Some, length, slice_get, true};
ghost use Rattle.tdl_lines.specs.Lines.{lines_of, text_of};
ghost use Rattle.tdl_lines.specs.Outputs.{LineAnswer, accepted, answered_part, printed_lines};
ghost use Rattle.tdl_lines.specs.Statuses.{is_answered};
ghost use Rattle.gs_translate.specs.declared.form.Form.{Form};
ghost use Rattle.gs_translate.specs.StepsSupport.{HasOne, HasSome};
ghost use Rattle.gs_translate.specs.Translations.{NameOne};
ghost use Rattle.gs_translate.specs.declared.form.Target.{Target};
ghost use Rattle.tdl_arguments.specs.Requests.{Asked, Values, WordsInOrder};
ghost use Rattle.tdl_loads.specs.declared.loads.Loaded.{Loaded};
ghost use Rattle.tdl_loads.specs.Loads.{FilesGive};
ghost use Rattle.tdl_answers.specs.TranslatedAnswers.{IsCanonLine, IsTranslatedLine};
ghost use Rattle.tdl_run.specs.Runs.{DefinedRun, HasOneOutcome, InputFits, LoadsAll, World};
ghost use Rattle.tdl_run.specs.Works.{KeepOne, LinesAnswered, Outcome, canonizing, input_limit, translating};
ghost use Rattle.gs_port.specs.Files.{FilesHeld};

/// States that arguments ask for at most one thing.
pub fn words_ask_for_one_thing()
    ensures { (words : List (List ℕ)) → HasOne (WordsInOrder words) }
{}

/// States that arguments have one outcome (output, finished connections and status) if the files, the input and the waiting
/// connections are known. Two outcomes may differ in the text that shows ambiguous tables or classes. Those of `serve` may
/// differ in the errors of connections and their consequences.
pub fn words_have_one_outcome()
    ensures at_most_one { (words : List (List ℕ)) → HasOneOutcome words }
    ensures some { (words : List (List ℕ)) (world : World) → HasSome (DefinedRun words world) }
{}

/// States that each defined outcome has the status `Done` or `SomeRefused` if the arguments are valid, all files load and the
/// input fits.
pub fn words_in_order_are_answered()
    ensures { (words : List (List ℕ)) (world : World) (outcome : Outcome) → LoadsAll words world.files
        → InputFits words world.input → DefinedRun words world outcome
        → is_answered outcome.status ≡ true }
{}

/// States that `canon` answers a line with the canonical link of the elements that it names. Otherwise the answer is the first
/// reason why it names none. By tables that files give, take two lines of any forms that are answered with links. Their answers
/// are equal if and only if they name the same elements.
pub fn canon_answers_by_canonical_links()
    ensures canonical { (loaded : Loaded) (form : Form) (text : List ℕ) (line : LineAnswer)
        → IsTranslatedLine (canonizing loaded form) text line ↔ IsCanonLine loaded.tables form text line }
    ensures headline { (files : Option FilesHeld) (asked : Asked) (loaded : Loaded)
        (form other : Form) (text given link wanted : List ℕ)
        → FilesGive files asked (Ok loaded)
        → IsTranslatedLine (canonizing loaded form) text (accepted link)
        → IsTranslatedLine (canonizing loaded other) given (accepted wanted)
        → (link ≡ wanted) ↔ NameOne loaded.tables form text other given }
{}

/// States that the output of `canon` over a known input is the lines of its answers, one to each line of the input, in order.
/// By tables that files give, two answers that are links are equal if and only if their lines name the same elements.
pub fn outputs_compare_elements()
    ensures { (files : Option FilesHeld) (asked : Asked) (loaded : Loaded)
        (form : Form) (input : List ℕ) (outcome : Outcome)
        → FilesGive files asked (Ok loaded)
        → LinesAnswered (IsTranslatedLine (canonizing loaded form)) (Some input) outcome
        → (answers : List LineAnswer) × (outcome.output ≡ printed_lines answers)
        × (length answers ≡ length (lines_of (answered_part input_limit input)))
        × ((i j : ℕ) (line other link wanted : List ℕ)
        → slice_get (lines_of (answered_part input_limit input)) i ≡ Some line
        → slice_get (lines_of (answered_part input_limit input)) j ≡ Some other
        → slice_get answers i ≡ Some (accepted link)
        → slice_get answers j ≡ Some (accepted wanted)
        → (link ≡ wanted) ↔ NameOne loaded.tables form (text_of line) form (text_of other)) }
{}

/// States when two lines of any forms that `translate` answers with canonical links have equal answers, by tables that files
/// give. They do if and only if the elements that it keeps of them are equal. With `--keys-only yes` these are the key, and its
/// serial if that is a separate element; otherwise all.
pub fn canonical_answers_by_kept_elements()
    ensures { (files : Option FilesHeld) (asked : Asked) (loaded : Loaded) (values : Values)
        (form other : Form) (text given link wanted : List ℕ)
        → FilesGive files asked (Ok loaded)
        → IsTranslatedLine (translating loaded values form Target.Canon) text (accepted link)
        → IsTranslatedLine (translating loaded values other Target.Canon) given (accepted wanted)
        → (link ≡ wanted) ↔ KeepOne loaded.tables values.keys_only form text other given }
{}
