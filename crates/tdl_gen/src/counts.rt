ghost use Rattle.std.specs.Prelude.{◌≡◌, IfOk, string_bytes, ◌≢◌, [], ◌+◌, ◌<◌, ◌≤◌, ◌^◌, Err, length};
ghost use Rattle.tdl_gen.specs.Counts.{counts_text, filter_one};
ghost use Rattle.gs_translate.specs.declared.reason.Reason.TheVariants.{Memory as WantOfMemory};
ghost use Rattle.gs_translate.specs.Reasons.{reason_text};
ghost use Rattle.tdl_gen.specs.CountingSupport.{CountsFirst, CountsOneMore};

use crate::generator::{Answering, Generator, answer_line};
use gs_chars::{Memory, Text};
use gs_translate::{Reason, reason_text};
use std::alloc::Global;

/// The counts of answers.
#[derive(Clone, Copy)]
pub struct Counts {
    /// The number of answers that are texts.
    pub ok: u64,
    /// The number of bytes of the lines of all answers. No bound is set to one line, so 64 bits may be too few.
    pub bytes: u128,
}

/// Returns the line of the counts of that many lines.
pub fn counts_text(alloc: Global, lines: u32, counts: Counts) -> Result<String, Memory>
    ensures { IfOk result (λ text. string_bytes text ≡ counts_text lines counts.ok counts.bytes) }
{
    let Counts { ok, bytes } = counts;
    Ok(format!(in alloc; "lines {lines} ok {ok} bytes {bytes}\n")?)
}

/// The bytes of an answer's line apart from its text: `ok ` or `no ` and the line feed.
const FRAME: u128 = 4;

/// Returns the number of bytes of a printed reason.
fn reason_length(alloc: Global, reason: &Reason) -> Result<usize, Memory>
    ensures { IfOk result (λ len. len ≡ length (reason_text reason.now)) }
{
    Ok(reason_text(alloc, reason)?.as_bytes().len())
}

/// Returns the bytes of the line of an answer, by those of its text.
fn line_length(text: usize) -> u128
    ensures { result ≡ text + 4 }
{
    text as u128 + FRAME
}

/// Returns the counts with one answer more.
fn count_answer(
    alloc: Global,
    counts: Counts,
    answer: Result<Text, Reason>,
) -> Result<Counts, Memory>
    requires ok { counts.ok < 2 ^ 32 }
    requires bytes { counts.bytes ≤ 2 ^ 97 }
    ensures one_more { IfOk result (λ now. CountsOneMore counts answer now) }
    ensures known { IfOk result (λ _. answer ≢ Err WantOfMemory) }
    ensures bounded { IfOk result (λ now. now.bytes ≤ counts.bytes + 2 ^ 65) }
{
    match answer {
        Ok(text) => Ok(Counts {
            ok: counts.ok + 1,
            bytes: counts.bytes + line_length(text.as_bytes().len()),
        }),
        Err(Reason::Memory) => Err(Memory),
        Err(reason) => {
            let len = reason_length(alloc, &reason)?;
            Ok(Counts {
                ok: counts.ok,
                bytes: counts.bytes + line_length(len),
            })
        }
    }
}

/// Returns the counts of the answers to the first lines of the generator. One line is held at a time. There is no list of prefix
/// lengths, and the filter value is 1.
pub fn count_lines(alloc: Global, by: Answering<'_>, lines: u32) -> Result<Counts, Memory>
    requires prefixes { by.prefixes.now ≡ [] }
    requires options { by.options.now ≡ filter_one }
    ensures { IfOk result (λ counts. CountsFirst by.entry.set.now lines counts.ok counts.bytes) }
{
    let mut generator = Generator::new();
    let mut counts = Counts { ok: 0, bytes: 0 };
    for _ in 0..lines {
        let line = generator.next_line(alloc)?;
        let answer = answer_line(alloc, by, line.as_bytes());
        counts = count_answer(alloc, counts, answer)?;
    }
    Ok(counts)
}
