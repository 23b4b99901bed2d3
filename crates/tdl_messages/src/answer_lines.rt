ghost use Rattle.std.specs.Prelude.{◌≡◌, ◌≢◌, ◌++◌, Err, IfOk, OnErr, OnOk};
ghost use Rattle.gs_chars.specs.Answers.{BeginsWith};
ghost use Rattle.gs_translate.specs.declared.reason.Reason.TheVariants.{Memory as OutOfMemory};
ghost use Rattle.gs_translate.specs.Reasons.{reason_text};
ghost use Rattle.tdl_lines.specs.Outputs.{accepted, printed, rejected};
ghost use Rattle.tdl_messages.specs.AnswerLines.{AddsLine};

use gs_chars::{Memory, Text};
use gs_translate::{Reason, append_reason, append_word};
use std::alloc::Global;

/// Appends `ok TEXT` and a line feed. Fails only with `Memory`; `out` then begins with its old contents.
pub fn append_accepted(out: &mut Vec<u8>, text: &[u8]) -> Result<(), Memory>
    ensures line { OnOk result (out.new.items ≡ out.old.items ++ printed (accepted text.now)) }
    ensures begun { OnErr result (BeginsWith out.new.items out.old.items) }
{
    out.extend_from_slice(b"ok ")?;
    out.extend_from_slice(text)?;
    Ok(out.push(b'\n')?)
}

/// Appends `no REASON` and a line feed. A reason that memory ran out has no line: it is the result. Fails only with `Memory`;
/// `out` then begins with its old contents.
pub fn append_rejected(alloc: Global, out: &mut Vec<u8>, reason: &Reason) -> Result<(), Memory>
    ensures line { OnOk result (out.new.items
        ≡ out.old.items ++ printed (rejected (reason_text reason.now))) }
    ensures known { OnOk result (reason.now ≢ OutOfMemory) }
    ensures begun { OnErr result (BeginsWith out.new.items out.old.items) }
{
    out.extend_from_slice(b"no ")?;
    append_reason(alloc, out, reason)?;
    Ok(out.push(b'\n')?)
}

/// Appends the line of an answer, and returns whether it is a rejection. The reason `Memory` has no line: it is the result.
/// Fails only with `Memory`; `out` then begins with its old contents.
pub fn append_line(
    alloc: Global,
    out: &mut Vec<u8>,
    answer: Result<Text, Reason>,
) -> Result<bool, Memory>
    ensures line { IfOk result (λ rejected. AddsLine answer out.old.items out.new.items rejected) }
    ensures known { OnOk result (answer ≢ Err OutOfMemory) }
    ensures begun { OnErr result (BeginsWith out.new.items out.old.items) }
{
    match answer {
        Ok(text) => {
            append_accepted(out, text.as_bytes())?;
            Ok(false)
        }
        Err(reason) => {
            append_rejected(alloc, out, &reason)?;
            Ok(true)
        }
    }
}

/// Appends two words in their order.
pub(crate) fn append_words(out: &mut Vec<u8>, first: &[u8], second: &[u8]) -> Result<(), Memory>
    ensures { OnOk result (out.new.items ≡ out.old.items ++ (first.now ++ second.now)) }
{
    append_word(out, first)?;
    append_word(out, second)
}
