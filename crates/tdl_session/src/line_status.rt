ghost use Rattle.tdl_session.specs.Lines.{IsPutLines};

use crate::session::put_bytes;
use crate::status::{MEMORY, NO, OK};
use crate::told::nothing;
use tdl_lines::Status;

/// Puts the answers to lines into the buffer, if all lines are answered.
pub(crate) fn put_lines(status: Status, answers: &[u8], out: &mut [u8], len: &mut usize) -> u32
    ensures { IsPutLines status answers.now out.old out.new len.new result }
{
    match status {
        Status::Done => put_bytes(OK, answers, out, len),
        Status::SomeRefused => put_bytes(NO, answers, out, len),
        _ => nothing(MEMORY, len),
    }
}
