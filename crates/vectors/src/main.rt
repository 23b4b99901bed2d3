//! `vectors` compares the answers of the libraries' public calls with the wanted ones of the files of crates/vectors/data, one a
//! subject. It keeps the calls that no command of tdl shows; the others are cases of checks/cases. It prints what differs, and
//! for each file the counts. The wanted answers come from the standards and from published examples, never from the program.
//!
//! A file has a case a line, and after it the wanted answer, a line that begins with `= `. A case is the path of a call, such as
//! `gs_chars::check_digit`, and its arguments, with one space between. An argument is its bytes with these escapes. `\xHH` means
//! the byte with this number in hexadecimal digits. `\*HH:N;` means that byte N times, `\\` a backslash, and `\e` nothing, so that
//! an argument may be empty. An argument that is left out is empty too. An answer is written in the same way. A line that begins
//! with `#` names the source of the cases below it; it and an empty line are not cases. The answer to a line that is not a call is
//! `no case`.
//!
//! The head of each file of src/ with calls says which arguments they take, and what they answer.
#![tactic(auto)]

mod bits;
mod calls;
mod case;
mod case_answer;
mod characters;
mod comparison;
mod connections;
mod data_files;
mod epc_writer;
mod files;
mod grammars;
mod item_words;
mod json_documents;
mod languages;
mod levels;
mod line;
mod lines;
mod linksets;
mod linktexts;
mod machines;
mod memory;
mod objects;
mod outcomes;
mod outside;
mod run_objects;
mod runs;
mod words;
mod written_links;

use crate::data_files::compare_files;
use gs_tables::builtin;
use std::alloc::AllocError;
use std::io;

fn main(rt: HostRuntime) -> io::Result<()> {
    // the built-in rows satisfy their rules, so that an error is out of memory
    let Ok(set) = builtin(rt.alloc()) else {
        return Err(io::Error::from(AllocError));
    };
    compare_files(&rt, &set)
}
