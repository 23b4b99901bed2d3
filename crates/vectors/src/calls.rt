//! The public calls, as vectors name them: the path of a call begins with the name of its library.

use crate::case::{Answer, Rejection, named};
use crate::line::{Done, Line};
use crate::{
    bits, characters, epc_writer, grammars, json_documents, languages, levels, lines, linksets,
    linktexts, machines, memory, outside, runs, written_links,
};
use gs_chars::Text;
use gs_tables::TableSet;
use std::alloc::Global;

#[derive(Clone, Copy)]
enum Library {
    Bits,
    Characters,
    Epcs,
    Grammars,
    JsonDocuments,
    Languages,
    Levels,
    Lines,
    Linksets,
    Linktexts,
    Machines,
    Memory,
    Port,
    Program,
    WrittenLinks,
}

const LIBRARIES: [(&str, Library); 16] = [
    ("gs_ambig", Library::Machines),
    ("gs_bits", Library::Bits),
    ("gs_chars", Library::Characters),
    ("gs_epc", Library::Epcs),
    ("gs_grammar", Library::Grammars),
    ("gs_grammar_compile", Library::Machines),
    ("gs_grammar_level", Library::Levels),
    ("gs_http", Library::Languages),
    ("gs_json", Library::JsonDocuments),
    ("gs_linkset", Library::Linksets),
    ("gs_linktext", Library::Linktexts),
    ("gs_linktext_grammar", Library::WrittenLinks),
    ("gs_port", Library::Port),
    ("gs_port_memory", Library::Memory),
    ("tdl_lines", Library::Lines),
    ("tdl_run", Library::Program),
];

/// Writes the answer to a call of a library.
fn write(
    alloc: Global,
    line: &mut Line,
    set: &TableSet,
    library: &[u8],
    call: &[u8],
    args: &[Text],
) -> Done {
    match named(&LIBRARIES, library) {
        Some(Library::Bits) => bits::answer(alloc, line, call, args),
        Some(Library::Characters) => characters::answer(alloc, line, call, args),
        Some(Library::Epcs) => epc_writer::answer(alloc, line, set, call, args),
        Some(Library::Grammars) => grammars::answer(alloc, line, call, args),
        Some(Library::JsonDocuments) => json_documents::answer(alloc, line, call, args),
        Some(Library::Languages) => languages::answer(alloc, line, call, args),
        Some(Library::Levels) => levels::answer(alloc, line, call, args),
        Some(Library::Lines) => lines::answer(alloc, line, call, args),
        Some(Library::Linksets) => linksets::answer(alloc, line, call, args),
        Some(Library::Linktexts) => linktexts::answer(alloc, line, call, args),
        Some(Library::Machines) => machines::answer(alloc, line, call, args),
        Some(Library::Memory) => memory::answer(alloc, line, call, args),
        Some(Library::Port) => outside::answer(alloc, line, call, args),
        Some(Library::Program) => runs::answer(alloc, line, call, args),
        Some(Library::WrittenLinks) => written_links::answer(alloc, line, call, args),
        None => Err(Rejection::NoCase),
    }
}

/// Returns the answer to a call of a library, by the table set if the call needs one.
pub fn answer(alloc: Global, set: &TableSet, library: &str, call: &str, args: &[Text]) -> Answer {
    let mut line = Line::new(alloc);
    let done = write(
        alloc,
        &mut line,
        set,
        library.as_bytes(),
        call.as_bytes(),
        args,
    );
    line.finish(done)
}
