ghost use Rattle.std.specs.Prelude.{◌≡◌, IfOk};
ghost use Rattle.gs_tables.specs.Judgements.{IsLoaded};
ghost use Rattle.gs_translate.specs.Translations.{AreInOrder};
ghost use Rattle.tdl_answers.specs.ClassAnswers.{IsClassCanonLine, IsClassUriLine, reading_by};
ghost use Rattle.tdl_answers.specs.DumpAnswers.{IsDumpReadLine, IsDumpWriteLine};
ghost use Rattle.tdl_answers.specs.TranslatedAnswers.{IsTranslatedLine};
ghost use Rattle.tdl_arguments.specs.Requests.{options_of, known_values};
ghost use Rattle.tdl_lines.specs.OutputsSupport.{HasAnswers};
ghost use Rattle.tdl_loads.specs.LoadsSupport.{AreKept};
ghost use Rattle.tdl_run.specs.CommandRuns.{AnswersLines};
ghost use Rattle.tdl_run.specs.Works.{canonizing, translating, writing_classes};

use gs_chars::{Memory, Text};
use gs_port::{Sink, Source};
use gs_translate::{Form, Options, Target, Translator};
use std::alloc::Global;
use tdl_answers::{ClassCanonLines, ClassUriLines, DumpReadLines, DumpWriteLines, TranslatedLines};
use tdl_arguments::NamedValues;
use tdl_lines::{Answerer, Status, answer_lines};
use tdl_loads::Loaded;

/// The most bytes of an input.
const INPUT_LIMIT: u64 = 4_294_967_296;

/// Answers the lines of the input. Each text has an answer.
fn answer_input<A: Answerer, S: Source, K: Sink>(
    alloc: Global,
    answerer: &A,
    input: &mut S,
    output: &mut K,
) -> Status
    requires { HasAnswers (A.is_answer answerer.now) }
    ensures { AnswersLines (A.is_answer answerer.now) result
        (S.state input.old) (S.state input.new) (K.state output.old) (K.state output.new) }
{
    answer_lines(alloc, answerer, input, output, INPUT_LIMIT)
}

/// Makes the options of translations from the values.
fn options_of(alloc: Global, values: NamedValues<'_>) -> Result<Options, Memory>
    ensures { IfOk result (λ options. options ≡ options_of (known_values values.entry)) }
{
    Ok(Options {
        filter: values.filter,
        gcp: values.gcp,
        encoding: Text::from_bytes(alloc, values.encoding.as_bytes())?,
        keys_only: values.keys_only,
        stem: Text::from_bytes(alloc, values.stem.as_bytes())?,
    })
}

/// Answers each line of the input, a text of a form, with its translation to another, by the loaded prefixes and the values. The
/// options are made once.
pub fn translate_loaded<S: Source, K: Sink>(
    alloc: Global,
    from: Form,
    to: Target,
    values: NamedValues<'_>,
    loaded: &Loaded,
    input: &mut S,
    output: &mut K,
) -> Status
    requires loaded { IsLoaded loaded.now.tables }
    requires options { AreInOrder (options_of (known_values values)) }
    ensures { AnswersLines
        (IsTranslatedLine (translating loaded.now (known_values values.entry) from to)) result
        (S.state input.old) (S.state input.new) (K.state output.old) (K.state output.new) }
{
    match options_of(alloc, values) {
        Ok(options) => {
            let translator = Translator {
                set: &loaded.tables,
                prefixes: &loaded.prefixes,
                options: &options,
                from,
                to,
            };
            answer_input(alloc, &TranslatedLines { translator }, input, output)
        }
        Err(Memory) => Status::Memory,
    }
}

/// Answers each line of the input, a text of a form, with its canonical link. Of prefixes and options, only `keys_only` matters for
/// such a link.
pub fn canonize<S: Source, K: Sink>(
    alloc: Global,
    form: Form,
    values: NamedValues<'_>,
    loaded: &Loaded,
    input: &mut S,
    output: &mut K,
) -> Status
    requires loaded { IsLoaded loaded.now.tables }
    requires options { AreInOrder (options_of (known_values values)) }
    ensures { AnswersLines (IsTranslatedLine (canonizing loaded.now form)) result
        (S.state input.old) (S.state input.new) (K.state output.old) (K.state output.new) }
{
    let whole = NamedValues {
        keys_only: false,
        ..values
    };
    translate_loaded(alloc, form, Target::Canon, whole, loaded, input, output)
}

/// Answers each line of the input, a class URI, with the canonical link of the elements that it names.
pub fn link_classes<S: Source, K: Sink>(
    alloc: Global,
    loaded: &Loaded,
    input: &mut S,
    output: &mut K,
) -> Status
    requires { AreKept loaded.now.tables.ais loaded.now.classes }
    ensures { AnswersLines (IsClassCanonLine (reading_by loaded.now.tables.ais loaded.now.classes)) result
        (S.state input.old) (S.state input.new) (K.state output.old) (K.state output.new) }
{
    let answerer = ClassCanonLines::new(loaded.tables.ais(), &loaded.classes);
    answer_input(alloc, &answerer, input, output)
}

/// Answers each line of the input, a link, with the class URI of the elements that it names. It uses the loaded prefixes and
/// the company prefix length of the values.
pub fn write_classes<S: Source, K: Sink>(
    alloc: Global,
    values: NamedValues<'_>,
    loaded: &Loaded,
    input: &mut S,
    output: &mut K,
) -> Status
    requires { AreKept loaded.now.tables.ais loaded.now.classes }
    ensures { AnswersLines (IsClassUriLine (writing_classes loaded.now (known_values values.entry))) result
        (S.state input.old) (S.state input.new) (K.state output.old) (K.state output.new) }
{
    let answerer = ClassUriLines::new(
        &loaded.tables,
        &loaded.prefixes,
        &loaded.classes,
        values.gcp,
    );
    answer_input(alloc, &answerer, input, output)
}

/// Answers each line of the input, a dump of the EPC memory bank, with the line that shows it.
pub fn show_dumps<S: Source, K: Sink>(
    alloc: Global,
    loaded: &Loaded,
    input: &mut S,
    output: &mut K,
) -> Status
    requires { IsLoaded loaded.now.tables }
    ensures { AnswersLines (IsDumpReadLine loaded.now.tables) result
        (S.state input.old) (S.state input.new) (K.state output.old) (K.state output.new) }
{
    let answerer = DumpReadLines {
        set: &loaded.tables,
    };
    answer_input(alloc, &answerer, input, output)
}

/// Answers each line of the input, which shows a dump of the EPC memory bank, with the dump.
pub fn write_dumps<S: Source, K: Sink>(
    alloc: Global,
    loaded: &Loaded,
    input: &mut S,
    output: &mut K,
) -> Status
    requires { IsLoaded loaded.now.tables }
    ensures { AnswersLines (IsDumpWriteLine loaded.now.tables) result
        (S.state input.old) (S.state input.new) (K.state output.old) (K.state output.new) }
{
    let answerer = DumpWriteLines {
        set: &loaded.tables,
    };
    answer_input(alloc, &answerer, input, output)
}
