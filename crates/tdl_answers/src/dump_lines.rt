ghost use Rattle.gs_translate.specs.Steps.{UnlessMemory};
ghost use Rattle.tdl_answers.specs.DumpAnswers.{IsDumpShown, IsDumpWritten};

use crate::reasons::{dump_line_reason, dump_reason, dump_write_reason};
use gs_chars::{LONGEST_TEXT, Memory, Text};
use gs_membank::{read_dump, read_shown, show_dump, write_dump};
use gs_tables::TableSet;
use gs_translate::Reason;
use std::alloc::Global;
use tdl_lines::Answerer;
use tdl_messages::append_line;

/// Returns the line that shows the dump that a text is.
fn shown_text(alloc: Global, set: &TableSet, text: &[u8]) -> Result<Text, Reason>
    ensures { UnlessMemory result (IsDumpShown set.now text.now result) }
{
    if text.len() > LONGEST_TEXT {
        return Err(Reason::Long);
    }
    let dump = read_dump(alloc, set, text).map_err(dump_reason)?;
    show_dump(alloc, set, &dump).map_err(dump_write_reason)
}

/// Returns the text of the dump that a line shows.
fn written_text(alloc: Global, set: &TableSet, text: &[u8]) -> Result<Text, Reason>
    ensures { UnlessMemory result (IsDumpWritten set.now text.now result) }
{
    if text.len() > LONGEST_TEXT {
        return Err(Reason::Long);
    }
    let dump = read_shown(alloc, set, text).map_err(dump_line_reason)?;
    write_dump(alloc, set, &dump).map_err(dump_write_reason)
}

/// An answerer of dumps in hexadecimal digits by the lines that show them.
#[derive(Drop)]
pub struct DumpReadLines<'a> {
    /// The tables that the EPC of a dump is read by.
    pub set: &'a TableSet,
}

impl Answerer for DumpReadLines<'_> {
    ghost use Rattle.tdl_answers.specs.DumpAnswers.{IsDumpReadLine};
    ghost use Rattle.tdl_answers.specs.LongDumps.{long_dumps_read};

    ghost is_answer = { λ s. IsDumpReadLine s.set.now };

    fn append_answer(&self, alloc: Global, text: &[u8], out: &mut Vec<u8>) -> Result<bool, Memory> {
        append_line(alloc, out, shown_text(alloc, self.set, text))
    }

    ghost long_alike = { λ s. long_dumps_read s.set.now };
}

/// An answerer of lines that show dumps by the dumps in hexadecimal digits.
#[derive(Drop)]
pub struct DumpWriteLines<'a> {
    /// The tables that the EPC of a dump is read and written by.
    pub set: &'a TableSet,
}

impl Answerer for DumpWriteLines<'_> {
    ghost use Rattle.tdl_answers.specs.DumpAnswers.{IsDumpWriteLine};
    ghost use Rattle.tdl_answers.specs.LongDumps.{long_dumps_written};

    ghost is_answer = { λ s. IsDumpWriteLine s.set.now };

    fn append_answer(&self, alloc: Global, text: &[u8], out: &mut Vec<u8>) -> Result<bool, Memory> {
        append_line(alloc, out, written_text(alloc, self.set, text))
    }

    ghost long_alike = { λ s. long_dumps_written s.set.now };
}
