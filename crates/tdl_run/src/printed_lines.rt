ghost use Rattle.std.specs.Prelude.{◌≡◌, ◌++◌, IfOk, OnOk, decimal};
ghost use Rattle.gs_tables.specs.MigratedSets.{Loads};
ghost use Rattle.tdl_run.specs.Works.{PrintsMade, counts_line, merged_line, migrated_line};

use gs_chars::{Memory, Text};
use gs_linkset::write;
use gs_port::Sink;
use gs_tables::{LevelName, migrated_text};
use std::alloc::Global;
use tdl_lines::{Status, print_line};
use tdl_loads::Loaded;

/// Appends a word and a number.
fn append_count(alloc: Global, line: &mut Text, word: &[u8], count: usize) -> Result<(), Memory>
    ensures { OnOk result (line.new ≡ line.old ++ word.now ++ decimal count) }
{
    let number = format!(in alloc; "{count}")?;
    line.extend_from_slice(word)?;
    line.extend_from_slice(number.as_bytes())
}

/// Returns the line of counts: the numbers of AIs, EPC schemes, options of each level, company prefixes and links.
pub fn counts_line(alloc: Global, loaded: &Loaded) -> Result<Text, Memory>
    ensures { IfOk result (λ line. line ≡ counts_line loaded.now) }
{
    let set = &loaded.tables;
    let mut line = Text::from_bytes(alloc, b"ok")?;
    append_count(alloc, &mut line, b" ais ", set.ais().rows().len())?;
    append_count(alloc, &mut line, b" kinds ", set.kinds().len())?;
    append_count(
        alloc,
        &mut line,
        b" binary ",
        set.info(LevelName::Binary).len(),
    )?;
    append_count(alloc, &mut line, b" tag ", set.info(LevelName::Tag).len())?;
    append_count(alloc, &mut line, b" pure ", set.info(LevelName::Pure).len())?;
    append_count(alloc, &mut line, b" prefixes ", loaded.prefixes.len())?;
    append_count(alloc, &mut line, b" links ", loaded.links.len())?;
    line.push(b'\n')?;
    Ok(line)
}

/// Returns the line of the merged document, in JSON.
pub fn merged_line(alloc: Global, loaded: &Loaded) -> Result<Text, Memory>
    ensures { IfOk result (λ line. line ≡ merged_line loaded.now) }
{
    let mut line = write(alloc, &loaded.merged)?;
    line.push(b'\n')?;
    Ok(line)
}

/// Returns the line of the document of the tables, as one of version 2.
pub fn migrated_line(alloc: Global, loaded: &Loaded) -> Result<Text, Memory>
    requires { Loads loaded.now.source }
    ensures { IfOk result (λ line. line ≡ migrated_line loaded.now) }
{
    let mut line = migrated_text(alloc, loaded.source.as_bytes())?;
    line.push(b'\n')?;
    Ok(line)
}

/// Writes the line that was made, and returns `Done`. Writes nothing if memory ran out before.
pub fn print_made<K: Sink>(made: Result<Text, Memory>, output: &mut K) -> Status
    ensures { PrintsMade made result (K.state output.old) (K.state output.new) }
{
    match made {
        Ok(line) => print_line(output, line.as_bytes(), Status::Done),
        Err(Memory) => Status::Memory,
    }
}
