//! The comparison of answers with the wanted ones, a file of vectors at a time.

use crate::case_answer::answer;
use gs_chars::Memory;
use gs_tables::TableSet;
use std::alloc::Global;

/// The numbers of the wanted answers of a file, and of the lines whose answer differs or that are not of a pair.
#[derive(Clone, Copy)]
pub struct Counts {
    pub wanted: u64,
    pub differ: u64,
}

/// Returns the wanted answer that a line gives, if it gives one.
fn wanted_in(line: &[u8]) -> Option<&[u8]> {
    line.strip_prefix(b"= ")
}

/// Returns the case of a line that is neither empty, a comment nor a wanted answer.
fn case_in(line: &[u8]) -> Option<&[u8]> {
    match line {
        [] | [b'#', ..] | [b'=', b' ', ..] => None,
        _ => Some(line),
    }
}

/// Appends a line of a name and its bytes.
fn add_line(output: &mut Vec<u8>, name: &[u8], bytes: &[u8]) -> Result<(), Memory> {
    output.extend_from_slice(name)?;
    output.extend_from_slice(bytes)?;
    Ok(output.push(b'\n')?)
}

/// Compares the answer to a case with the wanted one. Appends the case and both answers if they differ.
fn compare(
    alloc: Global,
    set: &TableSet,
    case: &[u8],
    wanted: &[u8],
    output: &mut Vec<u8>,
) -> Result<bool, Memory> {
    let found = answer(alloc, set, case)?;
    if found.as_bytes() == wanted {
        return Ok(true);
    }
    add_line(output, b"case:   ", case)?;
    add_line(output, b"wanted: ", wanted)?;
    add_line(output, b"found:  ", found.as_bytes())?;
    Ok(false)
}

/// Judges a line after the case that was before it, if there was one without its answer. Appends each fault, and returns whether
/// there is none.
fn judge(
    alloc: Global,
    set: &TableSet,
    case: Option<&[u8]>,
    wanted: Option<&[u8]>,
    output: &mut Vec<u8>,
) -> Result<bool, Memory> {
    match (case, wanted) {
        (Some(case), Some(wanted)) => return compare(alloc, set, case, wanted, output),
        (Some(case), None) => add_line(output, b"no answer follows: ", case)?,
        (None, Some(wanted)) => add_line(output, b"no case before: ", wanted)?,
        (None, None) => return Ok(true),
    }
    Ok(false)
}

/// Compares the answers to the cases of a file with the wanted ones. Appends each case whose answer differs.
pub fn compare_file(
    alloc: Global,
    set: &TableSet,
    text: &[u8],
    output: &mut Vec<u8>,
) -> Result<Counts, Memory> {
    let mut counts = Counts {
        wanted: 0,
        differ: 0,
    };
    let mut case = None;
    for line in text.split(|c| *c == b'\n') {
        let wanted = wanted_in(line);
        if !judge(alloc, set, case, wanted, output)? {
            counts.differ = counts.differ.saturating_add(1);
        }
        if wanted.is_some() {
            counts.wanted = counts.wanted.saturating_add(1);
        }
        case = case_in(line);
    }
    if !judge(alloc, set, case, None, output)? {
        counts.differ = counts.differ.saturating_add(1);
    }
    Ok(counts)
}
