//! The process: its arguments, the standard streams, the files and the listener of the system, handed to `run`, and the status
//! as its number. It answers `--help` and `--version`, and writes a line to standard error if something failed.
#![tactic(auto)]

ghost use Rattle.std.specs.Prelude.{◌≡◌, ◌≢◌};

mod help;
mod messages;
mod text;

use gs_port::{Whole, write_whole};
use gs_port_system::{HostFiles, StdinSource, StdoutSink, TcpDoor};
use help::pieces_of;
use messages::{say_file, say_kind, say_place, say_reason, say_wrong};
use std::fs::File;
use std::io::ErrorKind;
use std::process::ExitCode;
use std::{env, io};
use tdl_arguments::{asked_page, read_arguments};
use tdl_run::{Status, run, without_program_name};

/// The status if the arguments cannot be read.
const UNREADABLE: u8 = 8;

/// Returns the status of a process whose arguments cannot be read: 9 if memory ran out, otherwise 8.
fn status_without_arguments(kind: ErrorKind) -> u8
    ensures memory { kind ≡ ErrorKind.OutOfMemory → result ≡ 9 }
    ensures other { kind ≢ ErrorKind.OutOfMemory → result ≡ 8 }
{
    if kind == ErrorKind::OutOfMemory {
        return Status::Memory.number();
    }
    UNREADABLE
}

/// Returns the name that the program was called by, and the arguments after it.
fn all_arguments(rt: &HostRuntime) -> io::Result<Vec<String>> {
    let mut words = Vec::new(rt.alloc());
    for word in env::args(rt)? {
        words.push(word)?;
    }
    Ok(words)
}

/// Prints a text to standard output, and returns the status.
fn print_text(rt: HostRuntime, pieces: &[&str]) -> Status {
    let mut output = StdoutSink::new(rt.stdout());
    for piece in pieces {
        let status = match write_whole(&mut output, piece.as_bytes()) {
            Whole::Done => continue,
            Whole::SinkFault => Status::WriteFault,
            Whole::Memory => Status::Memory,
        };
        say_kind(rt, status, output.first_error());
        return status;
    }
    Status::Done
}

/// Runs the program over the system, and returns the status. Writes the reason of a failure as a line to standard error.
fn run_over_system(rt: HostRuntime, arguments: &[String]) -> Status {
    let mut files = HostFiles::new(rt.alloc(), rt);
    let mut input = StdinSource::new(rt.stdin());
    let mut output = StdoutSink::new(rt.stdout());
    let mut door = TcpDoor::new(rt);
    let status = run(
        rt.alloc(),
        arguments,
        &mut files,
        &mut input,
        &mut output,
        &mut door,
    );
    match status {
        Status::Usage => {
            if let Err(wrong) = read_arguments(arguments) {
                say_wrong(rt, arguments, wrong);
            }
        }
        Status::ReadFault => {
            if let Some(error) = files.first_error() {
                say_file(rt, files.last_name(), error);
            } else if let Some(error) = door.first_error() {
                say_place(rt, read_arguments(arguments).ok(), error);
            } else {
                say_kind(rt, status, input.first_error());
            }
        }
        Status::WriteFault => say_kind(rt, status, output.first_error()),
        _ => say_kind(rt, status, None),
    }
    status
}

/// Opens the root folder in the place of a standard stream that is closed, by the file of the system that tells of open ones. Otherwise the
/// next file would get the stream's descriptor. A folder cannot be read, and what is open for reading cannot be written.
fn in_its_place(rt: HostRuntime, stream: &str) -> Option<File> {
    match File::open(&rt, stream) {
        Err(error) if error.kind() == ErrorKind::NotFound => File::open(&rt, "/").ok(),
        _ => None,
    }
}

fn main(rt: HostRuntime) -> ExitCode {
    let _input = in_its_place(rt, "/proc/self/fdinfo/0");
    let _output = in_its_place(rt, "/proc/self/fdinfo/1");
    let _errors = in_its_place(rt, "/proc/self/fdinfo/2");
    let words = match all_arguments(&rt) {
        Ok(words) => words,
        Err(error) => {
            say_reason(rt, "cannot read the arguments", error);
            return ExitCode::from(status_without_arguments(error.kind()));
        }
    };
    let arguments = without_program_name(words.as_slice());
    let status = match asked_page(arguments) {
        Some(page) => print_text(rt, pieces_of(page)),
        None => run_over_system(rt, arguments),
    };
    status.exit_code()
}
