ghost use Rattle.std.specs.Prelude.{◌≡◌, ◌≤◌, ◌⊎◌, false, ◌+◌, true};
ghost use Rattle.std.specs.Bool.{OnTrue};
ghost use Rattle.tdl_lines.specs.Statuses.{is_answered, is_cut_short, is_status, is_written};
ghost use Rattle.gs_port.specs.Counts.{Rises};
ghost use Rattle.tdl_arguments.specs.Commands.{answers_heads, answers_lines, reads_input, uses_door};
ghost use Rattle.tdl_arguments.specs.Requests.{AsksFor, NamesNoFile, NotInOrder, known_words};
ghost use Rattle.tdl_run.specs.Runs.{DefinedRun, EndedRun, FinishedRun, InputFits, IsRejected, ListensAt, LoadsAll, LoadsSome, NoneRises, OpensAll, OpensNamed, RanOnMoved, RunCause, ServesInput, WritesAfterError, moment_of, world_of};
ghost use Rattle.tdl_run.specs.Works.{Appends, FinishesFirst, Leaves, input_limit};
ghost use Rattle.tdl_run.specs.CommandRuns.{BeginsOne, CutShort};
ghost use Rattle.tdl_lines.specs.Inputs.{IsReadToEnd, TakesAtMost, TakesMoreThan};

use crate::requests::run_request;
use gs_port::{Door, Files, Sink, Source};
use std::alloc::Global;
use tdl_arguments::read_arguments;
use tdl_lines::{Status, print_line};

/// The line that is printed if the arguments are invalid.
const USAGE: &[u8] =
    b"usage: tdl canon FORM | translate FROM TO | check | resolve | serve | gen N | migrate | class canon | class uri | dump read | dump write | merge, then --name value pairs\n";

/// Runs the program as the arguments ask, over these files, this input, this output and this listener, and returns the status.
/// No connection of the listener is open before.
///
/// An input whose heads are answered is served as one connection. At most 12,288 bytes are taken beyond the answered heads, and at
/// most 1,000 replies are written. `Done` leaves nothing unread, except after a reply that ends the connection.
///
/// The files are opened in their order, and none after a missing or rejected one. The listener is opened once, at the address
/// that the arguments name, if its command runs. After the run no connection is open, and the finished ones no longer wait. If
/// a file does not load, the input and the listener are unchanged, even if the line that says so could not be written.
///
/// - `Usage` is returned only if the arguments are invalid. The usage line was written, and nothing was read or opened.
/// - `Refused` is returned only if a file, or a built-in row, is rejected. One line says why, and the input was not read.
/// - `ReadFault` is returned only if the input, the files or the listener itself counted an error, or a file is missing.
/// - `InputLong` is returned only if more than 4,294,967,296 bytes of lines were taken from the input.
/// - `WriteFault` is returned only if the output counted an error.
///
/// After `ReadFault`, `WriteFault` and `Memory` the output gained a prefix of the defined output, and the first of the waiting
/// connections are finished. After `WriteFault` both are those of one defined outcome. Suppose that the arguments are valid,
/// all files load, the lines of the input have at most 4,294,967,296 bytes, and no count rose. Then the status is `Done`,
/// `SomeRefused` or `Memory`.
pub fn run<F: Files, S: Source, K: Sink, D: Door>(
    alloc: Global,
    words: &[String],
    files: &mut F,
    input: &mut S,
    output: &mut K,
    door: &mut D,
) -> Status
    requires none_open { (D.state door.old).is_open ≡ false }

    // The headline: output, finished connections and status are the defined ones, whatever count rose.
    ensures defined { OnTrue (is_written result) (Leaves (K.state output.old).held (K.state output.new).held
        (D.state door.old).aside.finished (D.state door.new).aside.finished result
        (DefinedRun (known_words words.now)
        (world_of (F.state files.old).files (S.state input.old).left (D.state door.old)))) }

    // The same of the bytes that the reads of the input moved, whether or not the input is known.
    ensures moved { AsksFor answers_lines (known_words words.now)
        → RanOnMoved (input.new ≡ input.old) (known_words words.now) result
        (moment_of (F.state files.old) (S.state input.old) (K.state output.old) (D.state door.old))
        (moment_of (F.state files.new) (S.state input.new) (K.state output.new) (D.state door.new)) }
    ensures read_to_end { AsksFor answers_lines (known_words words.now)
        → OnTrue (is_answered result) (IsReadToEnd (S.state input.new)) }

    // The arguments decide whether the usage line comes, and the files whether one is rejected.
    ensures usage { OnTrue (is_status result Status.Usage) (NotInOrder (known_words words.now)) }
    ensures not_in_order { NotInOrder (known_words words.now)
        → OnTrue (is_written result) (result ≡ Status.Usage) }
    ensures rejected { OnTrue (is_status result Status.Refused)
        (IsRejected (known_words words.now) (F.state files.old).files) }

    // An input whose heads are answered is served as one connection.
    ensures served { AsksFor answers_heads (known_words words.now)
        → ServesInput (input.new ≡ input.old) (known_words words.now) (F.state files.old).files result
        (S.state input.old) (S.state input.new) (K.state output.old) (K.state output.new) }

    // A command leaves an input or a listener that it does not use unchanged, and both are unchanged if a file does not load.
    ensures unread { (AsksFor reads_input (known_words words.now) → ⊥) → input.new ≡ input.old }
    ensures unread_rejected { OnTrue (is_status result Status.Refused) (input.new ≡ input.old) }
    ensures few { AsksFor answers_lines (known_words words.now)
        → TakesAtMost (input_limit + 1) (S.state input.old).left (S.state input.new).left }
    ensures unserved { (AsksFor uses_door (known_words words.now) → ⊥) → door.new ≡ door.old }
    ensures unserved_rejected { OnTrue (is_status result Status.Refused) (door.new ≡ door.old) }
    ensures untouched { ((input.new ≡ input.old) × (door.new ≡ door.old))
        ⊎ LoadsSome (known_words words.now) (F.state files.old).files }
    ensures unopened { NamesNoFile (known_words words.now) → files.new ≡ files.old }
    ensures opened { OpensNamed (known_words words.now) (F.state files.old).files
        (F.state files.old).opened (F.state files.new).opened }
    ensures all_opened { OpensAll result (known_words words.now)
        (F.state files.old).opened (F.state files.new).opened }
    ensures known { (F.state files.new).files ≡ (F.state files.old).files }

    // The listener is opened at the address of the arguments, finished connections no longer wait, and none is left open.
    ensures listens { AsksFor uses_door (known_words words.now) → ListensAt (known_words words.now) result
        (D.state door.old).aside.addresses (D.state door.new).aside.addresses }
    ensures waiting { FinishesFirst (D.state door.old).aside (D.state door.new).aside }
    ensures closed { (D.state door.new).is_open ≡ false }

    // Each cause.
    ensures read_error { OnTrue (is_status result Status.ReadFault)
        (RunCause (known_words words.now) (F.state files.old).files
        (moment_of (F.state files.old) (S.state input.old) (K.state output.old) (D.state door.old))
        (moment_of (F.state files.new) (S.state input.new) (K.state output.new) (D.state door.new))) }
    ensures write_error { OnTrue (is_status result Status.WriteFault)
        (Rises (K.state output.old).errors (K.state output.new).errors) }
    ensures input_long { OnTrue (is_status result Status.InputLong)
        (TakesMoreThan input_limit (S.state input.old).left (S.state input.new).left) }

    // Completeness: with valid arguments, files that load, an input that fits and no new error, all was written, or memory ran out.
    ensures complete { LoadsAll (known_words words.now) (F.state files.old).files
        → InputFits (known_words words.now) (S.state input.old).left
        → NoneRises
        (moment_of (F.state files.old) (S.state input.old) (K.state output.old) (D.state door.old))
        (moment_of (F.state files.new) (S.state input.new) (K.state output.new) (D.state door.new))
        → (is_answered result ≡ true) ⊎ (result ≡ Status.Memory) }

    // The output then.
    ensures ended { OnTrue (is_status result Status.ReadFault) (WritesAfterError (input.new ≡ input.old)
        (Rises (S.state input.old).errors (S.state input.new).errors)
        (K.state output.old).held (K.state output.new).held
        (EndedRun (known_words words.now) (F.state files.old).files
        (S.state input.old).left (S.state input.new).left)) }
    ensures begun { OnTrue (is_cut_short result) (Appends (K.state output.old).held (K.state output.new).held
        (BeginsOne (DefinedRun (known_words words.now)
        (world_of (F.state files.old).files (S.state input.old).left (D.state door.old))))) }
    ensures finished { OnTrue (is_cut_short result) (Leaves
        (K.state output.old).held (K.state output.new).held
        (D.state door.old).aside.finished (D.state door.new).aside.finished result
        (FinishedRun (known_words words.now)
        (world_of (F.state files.old).files (S.state input.old).left (D.state door.old)))) }
    ensures cut { OnTrue (is_status result Status.WriteFault) (Leaves
        (K.state output.old).held (K.state output.new).held
        (D.state door.old).aside.finished (D.state door.new).aside.finished result
        (CutShort (DefinedRun (known_words words.now)
        (world_of (F.state files.old).files (S.state input.old).left (D.state door.old))))) }
    ensures input_counts { (S.state input.old).errors ≤ (S.state input.new).errors }
    ensures file_counts { (F.state files.old).errors ≤ (F.state files.new).errors }
    ensures output_counts { (K.state output.old).errors ≤ (K.state output.new).errors }
    ensures door_counts { (D.state door.old).aside.errors ≤ (D.state door.new).aside.errors }
{
    match read_arguments(words) {
        Ok(request) => run_request(alloc, request, files, input, output, door),
        Err(_) => print_line(output, USAGE, Status::Usage),
    }
}
