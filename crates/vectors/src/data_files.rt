//! The files of vectors: the texts of the folder that the program runs in.

use crate::comparison::{Counts, compare_file};
use gs_chars::Memory;
use gs_tables::TableSet;
use std::alloc::{AllocError, Global};
use std::io::Write;
use std::{fs, io};

/// Returns the names of the texts of this folder, in ascending order.
fn names(rt: &HostRuntime) -> io::Result<Vec<String>> {
    let alloc = rt.alloc();
    let mut names = Vec::new(alloc);
    for entry in fs::read_dir(rt, ".")? {
        let entry = entry?;
        if entry.file_name().ends_with(".txt") {
            names.push(String::from_str(alloc, entry.file_name())?)?;
        }
    }
    names.as_mut_slice().sort_unstable();
    Ok(names)
}

/// Appends the line of counts that has this name.
fn add_counts(
    alloc: Global,
    output: &mut Vec<u8>,
    name: &str,
    counts: Counts,
) -> Result<(), AllocError> {
    let Counts { wanted, differ } = counts;
    let line = format!(in alloc; "{name}: {wanted} answers, {differ} differ\n")?;
    output.extend_from_slice(line.as_bytes())
}

/// Compares the answers of a file with the wanted ones. Appends what differs and the counts.
fn add_file(
    alloc: Global,
    set: &TableSet,
    name: &str,
    text: &[u8],
    output: &mut Vec<u8>,
) -> Result<(), Memory> {
    let counts = compare_file(alloc, set, text, output)?;
    Ok(add_counts(alloc, output, name, counts)?)
}

/// Compares the answers, by this table set, with those that the files of this folder want. Writes what differs and the counts of each
/// file to standard output.
pub fn compare_files(rt: &HostRuntime, set: &TableSet) -> io::Result<()> {
    let alloc = rt.alloc();
    for name in &names(rt)? {
        let text = fs::read(rt, name.as_str())?;
        let mut output = Vec::new(alloc);
        if add_file(alloc, set, name.as_str(), text.as_slice(), &mut output).is_err() {
            return Err(io::Error::from(AllocError));
        }
        rt.stdout().write_all(output.as_slice())?;
    }
    Ok(())
}
