ghost use Rattle.std.specs.Prelude.{◌≡◌, false, true};
ghost use Rattle.gs_translate.specs.Translations.{AreInOrder};
ghost use Rattle.tdl_lines.specs.Printers.{WritesLine};
ghost use Rattle.tdl_messages.specs.Rejections.{rejected_line};
ghost use Rattle.tdl_arguments.specs.Ranges.{is_vocabulary};
ghost use Rattle.tdl_arguments.specs.Requests.{options_of, known_request};
ghost use Rattle.tdl_run.specs.Requests.{Reports, RequestRan};
ghost use Rattle.tdl_loads.specs.LoadsSupport.{NamesTables};
ghost use Rattle.tdl_run.specs.Runs.{moment_of};

use crate::commands::run_command;
use gs_chars::Memory;
use gs_port::{Door, Files, Sink, Source};
use std::alloc::Global;
use tdl_arguments::Request;
use tdl_lines::{Status, print_line};
use tdl_loads::{Unloaded, load_files};
use tdl_messages::{Rejection, rejected_line};

/// Writes the line of a rejected file.
fn print_rejection<K: Sink>(alloc: Global, rejection: &Rejection, output: &mut K) -> Status
    ensures { WritesLine Status.Refused (rejected_line rejection.now) result
        (K.state output.old) (K.state output.new) }
{
    match rejected_line(alloc, rejection) {
        Ok(line) => print_line(output, line.as_slice(), Status::Refused),
        Err(Memory) => Status::Memory,
    }
}

/// Writes the line of a rejected file, or nothing if a file is missing or cannot be read.
fn report<K: Sink>(alloc: Global, unloaded: &Unloaded, output: &mut K) -> Status
    ensures { Reports unloaded.now result (K.state output.old) (K.state output.new) }
{
    match unloaded {
        Unloaded::Refused(rejection) => print_rejection(alloc, rejection, output),
        Unloaded::ReadFault => Status::ReadFault,
        Unloaded::Memory => Status::Memory,
    }
}

/// Loads the files of a request, and runs its command. If a file is rejected, one line says why; if one is missing or cannot be
/// read, nothing is written. In both cases the input and the listener are unchanged.
pub fn run_request<F: Files, S: Source, K: Sink, D: Door>(
    alloc: Global,
    request: Request<'_>,
    files: &mut F,
    input: &mut S,
    output: &mut K,
    door: &mut D,
) -> Status
    requires none_open { (D.state door.old).is_open ≡ false }
    requires vocabulary { is_vocabulary request.values.voc.now ≡ true }
    requires tables { NamesTables (known_request request) }
    requires options { AreInOrder (options_of (known_request request).values) }
    ensures { RequestRan (known_request request.entry)
        (files.new ≡ files.old) (input.new ≡ input.old) (door.new ≡ door.old)
        (moment_of (F.state files.old) (S.state input.old) (K.state output.old) (D.state door.old))
        (moment_of (F.state files.new) (S.state input.new) (K.state output.new) (D.state door.new)) result }
{
    match load_files(alloc, request, files) {
        Ok(loaded) => run_command(
            alloc,
            request.command,
            request.values,
            &loaded,
            input,
            output,
            door,
        ),
        Err(unloaded) => report(alloc, &unloaded, output),
    }
}
