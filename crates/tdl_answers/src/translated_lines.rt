ghost use Rattle.std.specs.Prelude.{◌≡◌, ◌≢◌, ◌+◌, ◌<◌, ◌^◌};
ghost use Rattle.std.specs.Bool.{OnTrue};
ghost use Rattle.gs_port.specs.Counts.{count_if};
ghost use Rattle.gs_port.specs.Outputs.{Writes};
ghost use Rattle.gs_translate.specs.Translations.{AreInOrder, translating_by};
ghost use Rattle.tdl_lines.specs.Inputs.{IsReadToEnd, TakesAtMost, TakesMoreThan};
ghost use Rattle.tdl_lines.specs.Outputs.{AnswersMoved, WritesAnswers};
ghost use Rattle.tdl_lines.specs.Statuses.{is_answered, is_status};
ghost use Rattle.tdl_answers.specs.TranslatedAnswers.{IsTranslatedLine};
ghost use Rattle.tdl_answers.specs.LongLines.{long_translated};

use gs_chars::Memory;
use gs_port::{Sink, Source};
use gs_prefix::PrefixList;
use gs_tables::TableSet;
use gs_translate::{Form, Options, Target, Translator};
use std::alloc::Global;
use tdl_lines::{Answerer, Status};
use tdl_messages::append_rejected;

/// An answerer of texts by their translations.
#[derive(Drop)]
pub struct TranslatedLines<'a> {
    /// The data by which the texts are translated.
    pub translator: Translator<'a>,
}

impl Answerer for TranslatedLines<'_> {
    ghost use Rattle.tdl_answers.specs.TranslatedAnswers.{IsTranslatedLine};

    ghost is_answer = { λ s. IsTranslatedLine s.translator };

    fn append_answer(&self, alloc: Global, text: &[u8], out: &mut Vec<u8>) -> Result<bool, Memory> {
        // the text is appended in place in its line, and `ok ` is taken back if there is none
        let before = out.len();
        out.extend_from_slice(b"ok ")?;
        match self.translator.append(alloc, text, out) {
            Ok(()) => {
                out.push(b'\n')?;
                Ok(false)
            }
            Err(reason) => {
                out.truncate(before);
                append_rejected(alloc, out, &reason)?;
                Ok(true)
            }
        }
    }

    ghost long_alike = { λ s. long_translated s.translator };
}

/// Answers each line of the input by its translation, from one form to another, by these tables, prefixes and options. It
/// writes `ok TEXT` or `no REASON` once the line has ended. The filter value of the options is at most 7, and `stem_ok` allows
/// their stem.
///
/// Treats lines, the held part of a line, `limit` and the statuses as `answer_lines` of tdl_lines does. It answers at most
/// `limit` bytes and takes at most one byte more. Returns `ReadFault` only if the input counted an error, and `WriteFault` only
/// if the output did. Returns `InputLong` if and only if more than `limit` bytes were taken. Never returns `Usage` or
/// `Refused`. `limit` is below 2^63.
pub fn answer_lines<S: Source, K: Sink>(
    alloc: Global,
    set: &TableSet,
    prefixes: &PrefixList,
    options: &Options,
    from: Form,
    to: Target,
    input: &mut S,
    output: &mut K,
    limit: u64,
) -> Status
    requires options { AreInOrder options.now }
    requires limit { limit < 2 ^ 63 }

    // The output: all answers with their status, whatever count rose, or those before an error.
    ensures written { Writes (is_status result Status.WriteFault)
        (K.state output.old) (K.state output.new) (λ out.
        WritesAnswers (IsTranslatedLine (translating_by set.now prefixes.now options.now from to)) limit
        (S.state input.old).left (S.state input.new).left out result) }

    // The same of the bytes that the reads moved, whether or not the input is known.
    ensures moved { AnswersMoved (IsTranslatedLine (translating_by set.now prefixes.now options.now from to)) limit result
        (S.state input.old).moved (S.state input.new).moved (K.state output.old) (K.state output.new) }
    ensures no_usage { result ≢ Status.Usage }
    ensures no_rejection { result ≢ Status.Refused }

    // The bytes taken.
    ensures read_to_end { OnTrue (is_answered result) (IsReadToEnd (S.state input.new)) }
    ensures input_long { OnTrue (is_status result Status.InputLong)
        (TakesMoreThan limit (S.state input.old).left (S.state input.new).left) }
    ensures few { TakesAtMost (limit + 1) (S.state input.old).left (S.state input.new).left }

    // The input counts an error exactly with `ReadFault`, as the output does with `WriteFault`.
    ensures count { (S.state input.new).errors
        ≡ count_if (is_status result Status.ReadFault) (S.state input.old).errors }
{
    let translator = Translator {
        set,
        prefixes,
        options,
        from,
        to,
    };
    tdl_lines::answer_lines(alloc, &TranslatedLines { translator }, input, output, limit)
}
