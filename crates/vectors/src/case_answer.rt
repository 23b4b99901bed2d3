use crate::calls;
use crate::case::{Answer, Rejection, text_of, words_of};
use gs_chars::{Memory, Text};
use gs_tables::TableSet;
use std::alloc::Global;

/// Returns the answer to a case of these words.
fn answer_to(alloc: Global, set: &TableSet, words: &[Text]) -> Answer {
    let [path, args @ ..] = words else {
        return Err(Rejection::NoCase);
    };
    match text_of(path.as_bytes())?.split_once("::") {
        Some((library, call)) => calls::answer(alloc, set, library, call, args),
        None => Err(Rejection::NoCase),
    }
}

/// Returns the answer to the case of a line.
fn answer_to_line(alloc: Global, set: &TableSet, case: &[u8]) -> Answer {
    let words = words_of(alloc, case)?;
    answer_to(alloc, set, words.as_slice())
}

/// Returns the text of the answer to a case, `no case` if the line is not one.
pub fn answer(alloc: Global, set: &TableSet, case: &[u8]) -> Result<String, Memory> {
    match answer_to_line(alloc, set, case) {
        Ok(text) => Ok(text),
        Err(Rejection::NoCase) => Ok(String::from_str(alloc, "no case")?),
        Err(Rejection::Memory) => Err(Memory),
    }
}
