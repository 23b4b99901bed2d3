//! The objects in memory that a whole run is over.

ghost use Rattle.std.specs.Prelude.{◌≡◌, IfOk, false, is_some};

use crate::case::Rejection;
use crate::objects::{door_of, files_of, section, sink_of, source_of};
use gs_chars::Text;
use gs_port::{MemSink, MemSource};
use gs_port_memory::{MemDoor, MemFiles};
use std::alloc::Global;
use tdl_run::{Status, run};

/// The objects of a run.
pub struct RunObjects {
    pub files: MemFiles,
    pub input: MemSource,
    pub output: MemSink,
    pub door: MemDoor,
}

// by hand, so that a function that drops the objects calls this one: a derived drop is written out at each of its exits
impl Drop for RunObjects {
    fn drop(self) {
        let RunObjects {
            files: _,
            input: _,
            output: _,
            door: _,
        } = self;
    }
}

impl RunObjects {
    /// Returns the status of a run with these words. A separate function, since the contract of `run` is large.
    pub fn run(&mut self, alloc: Global, words: &[String]) -> Status
        requires { is_some self.old.door.current ≡ false }
    {
        run(
            alloc,
            words,
            &mut self.files,
            &mut self.input,
            &mut self.output,
            &mut self.door,
        )
    }
}

/// Returns a listener with no waiting connection.
fn no_door(alloc: Global) -> Result<MemDoor, Rejection>
    ensures { IfOk result (λ door. is_some door.current ≡ false) }
{
    Ok(MemDoor::new(alloc, Vec::new(alloc), 1, Vec::new(alloc))?)
}

/// Returns the listener of a run, with no waiting connection if none is known.
fn door_behind(alloc: Global, args: &[Text]) -> Result<MemDoor, Rejection>
    ensures { IfOk result (λ door. is_some door.current ≡ false) }
{
    match section(args, 4) {
        Ok(words) => door_of(alloc, words),
        Err(_) => no_door(alloc),
    }
}

fn files_at(alloc: Global, args: &[Text]) -> Result<MemFiles, Rejection> {
    files_of(alloc, section(args, 1)?)
}

fn input_at(alloc: Global, args: &[Text]) -> Result<MemSource, Rejection> {
    source_of(alloc, section(args, 2)?)
}

fn output_at(alloc: Global, args: &[Text]) -> Result<MemSink, Rejection> {
    sink_of(alloc, section(args, 3)?)
}

/// Returns the objects of a run.
pub fn objects_of(alloc: Global, args: &[Text]) -> Result<RunObjects, Rejection>
    ensures { IfOk result (λ objects. is_some objects.door.current ≡ false) }
{
    let input = input_at(alloc, args)?;
    let door = door_behind(alloc, args)?;
    let output = output_at(alloc, args)?;
    let files = files_at(alloc, args)?;
    Ok(RunObjects {
        files,
        input,
        output,
        door,
    })
}
