ghost use Rattle.std.specs.Prelude.{◌≡◌};
ghost use Rattle.tdl_lines.specs.Outputs.{LineAnswer, is_rejected, printed};
ghost use Rattle.tdl_session.specs.LineAnswers.{IsAnswerPut, IsAnswerSaid, words_of};

use crate::session::put_bytes;
use crate::status::{MEMORY, NO, OK};
use crate::told::nothing;
use std::alloc::Global;
use tdl_lines::Answerer;

/// Returns the text or the reason of an answer line: its bytes without `ok ` or `no ` and the line feed.
fn words(line: &[u8]) -> &[u8]
    ensures { (answer : LineAnswer) → line.now ≡ printed answer → result.now ≡ words_of answer }
{
    if line.len() < 4 {
        return line;
    }
    &line[3..line.len() - 1]
}

/// Puts the text or the reason of an answer line into the buffer.
fn put_line(is_no: bool, line: &[u8], out: &mut [u8], len: &mut usize) -> u32
    ensures { (answer : LineAnswer) → line.now ≡ printed answer → is_no ≡ is_rejected answer
        → IsAnswerPut answer out.old out.new len.new result }
{
    put_bytes(if is_no { NO } else { OK }, words(line), out, len)
}

/// Puts an answer to a text into the buffer: its text or its reason.
pub(crate) fn put_answer_of<A: Answerer>(
    alloc: Global,
    answerer: &A,
    text: &[u8],
    out: &mut [u8],
    len: &mut usize,
) -> u32
    ensures { IsAnswerSaid (A.is_answer answerer.now text.now) out.old out.new len.new result }
{
    let mut line = Vec::new(alloc);
    match answerer.append_answer(alloc, text, &mut line) {
        Ok(is_no) => put_line(is_no, line.as_slice(), out, len),
        Err(_) => nothing(MEMORY, len),
    }
}
