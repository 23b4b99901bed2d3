//! Calls of tdl_lines over objects in memory; the answer to a text that is not long is the text itself.
//!
//! - `answer_lines LIMIT / CUT FAILS BYTES / CUT FAILS`: the status, the output, and the rest of the input.
//! - `print_line LINE / CUT FAILS`: the status, and the output.

ghost use Rattle.std.specs.Prelude.{◌<◌, ◌^◌, IfOk};

use crate::case::{Rejection, bytes_at, named, number};
use crate::line::{Done, Line};
use crate::objects::{section, sink_of, source_of};
use crate::outcomes::{add_outcome, add_status};
use gs_chars::{LONGEST_TEXT, Memory, Text};
use gs_port::{MemSink, MemSource};
use std::alloc::Global;
use tdl_lines::{Answerer, Status, answer_lines, print_line};

/// Accepts each text of at most 2,048 bytes, and returns it as its answer; of any other it says that it is long.
struct Echo;

impl Answerer for Echo {
    ghost use Rattle.std.proofs.Common.{inl, inr};
    ghost use Rattle.std.proofs.Math.Nat.{not-le_of_lt};
    ghost use Rattle.vectors.specs.Echoes.{IsEcho};

    ghost is_answer = { λ _. IsEcho };

    fn append_answer(
        &self,
        _alloc: Global,
        text: &[u8],
        out: &mut Vec<u8>,
    ) -> Result<bool, Memory> {
        if text.len() > LONGEST_TEXT {
            out.extend_from_slice(b"no long\n")?;
            return Ok(true);
        }
        out.extend_from_slice(b"ok ")?;
        out.extend_from_slice(text)?;
        out.push(b'\n')?;
        Ok(false)
    }

    ghost long_alike = { λ _ text other answer long more is. elim is [
      | inl x ↦ inl (more, x.1)
      | inr x ↦ absurd (not-le_of_lt long x.0)
    ] };
}

#[derive(Clone, Copy)]
enum Call {
    AnswerLines,
    PrintLine,
}

const CALLS: [(&str, Call); 2] = [
    ("answer_lines", Call::AnswerLines),
    ("print_line", Call::PrintLine),
];

/// Makes a call of tdl_lines.
pub fn answer(alloc: Global, line: &mut Line, call: &[u8], args: &[Text]) -> Done {
    match named(&CALLS, call) {
        Some(Call::AnswerLines) => answered(alloc, line, args),
        Some(Call::PrintLine) => printed(alloc, line, args),
        None => Err(Rejection::NoCase),
    }
}

/// Returns the number of an argument, which is the most bytes that are answered.
pub fn limit_at(args: &[Text], i: usize) -> Result<u64, Rejection>
    ensures { IfOk result (λ limit. limit < 2 ^ 63) }
{
    let limit = number(args, i)?;
    if limit > 4_294_967_296 {
        return Err(Rejection::NoCase);
    }
    Ok(limit)
}

/// Returns the status. A separate function, since the contract of the call is large.
fn status_of(alloc: Global, input: &mut MemSource, output: &mut MemSink, limit: u64) -> Status
    requires { limit < 2 ^ 63 }
{
    answer_lines(alloc, &Echo, input, output, limit)
}

fn answered(alloc: Global, line: &mut Line, args: &[Text]) -> Done {
    let limit = limit_at(args, 0)?;
    let from = section(args, 1)?;
    let to = section(args, 2)?;
    let mut input = source_of(alloc, from)?;
    let mut output = sink_of(alloc, to)?;
    let status = status_of(alloc, &mut input, &mut output, limit);
    add_outcome(alloc, line, status, &mut input, &output)
}

fn printed(alloc: Global, line: &mut Line, args: &[Text]) -> Done {
    let mut output = sink_of(alloc, section(args, 1)?)?;
    let status = print_line(&mut output, bytes_at(args, 0), Status::Usage);
    add_status(line, status, output.bytes());
    Ok(())
}
