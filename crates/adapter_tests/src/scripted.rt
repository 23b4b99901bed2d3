//! The objects over scripted calls of the system. The test gives the answer to each call.

use crate::exchanges::{echo_once, moves_of, outcome};
use gs_history::{History, Names};
use gs_port::{AcceptAnswer, Door, Files, OpenAnswer, ReadAnswer, Sink, Source, WriteAnswer};
use gs_port_system::{HostFiles, ScriptedAnswer, ScriptedCalls, StdinSource, StdoutSink, TcpDoor};
use std::alloc::Global;
use std::io::{Error, ErrorKind};
use std::mem::size_of;

/// Returns a script of these first answers, which then fails for ever.
fn script(first: ScriptedAnswer, second: ScriptedAnswer, third: ScriptedAnswer) -> ScriptedCalls {
    let failing = ScriptedAnswer::Fails(ErrorKind::Other);
    ScriptedCalls::new([
        first, second, third, failing, failing, failing, failing, failing,
    ])
}

const GIVES: ScriptedAnswer = ScriptedAnswer::Gives(3);

const INTERRUPTED: ScriptedAnswer = ScriptedAnswer::Fails(ErrorKind::Interrupted);

const OUT_OF_MEMORY: ScriptedAnswer = ScriptedAnswer::Fails(ErrorKind::OutOfMemory);

/// Tests the answers of the standard streams: bytes, the end, an interruption without end, and a write that takes nothing.
pub fn scripted_streams_answer_by_their_script() -> bool {
    let mut block = [0; 16];
    let mut source = StdinSource::new(script(GIVES, ScriptedAnswer::Gives(0), INTERRUPTED));
    let is_read = matches!(source.read(&mut block), ReadAnswer::Got(3))
        && matches!(source.read(&mut block), ReadAnswer::Got(0))
        && matches!(source.read(&mut block), ReadAnswer::Failed);
    let mut sink = StdoutSink::new(script(GIVES, ScriptedAnswer::Gives(0), OUT_OF_MEMORY));
    let is_written = matches!(sink.write(b"written"), WriteAnswer::Took(3))
        && matches!(sink.write(b"ten"), WriteAnswer::Failed)
        && matches!(sink.write(b"ten"), WriteAnswer::Failed);
    is_read && is_written
}

/// Tests the answers of opens, and of a read that fails.
pub fn scripted_files_answer_by_their_script(alloc: Global) -> bool {
    let mut files = HostFiles::new(alloc, script(OUT_OF_MEMORY, INTERRUPTED, GIVES));
    matches!(files.open("one"), OpenAnswer::Memory)
        && matches!(files.open("two"), OpenAnswer::Failed)
        && outcome(alloc, &mut files, "three", 4) == (0, true)
}

/// Returns the answer of the first accept of a scripted listener.
fn first_accept(calls: ScriptedCalls) -> AcceptAnswer {
    let mut door = TcpDoor::new(calls);
    match door.open("here") {
        OpenAnswer::Opened => echo_once(&mut door),
        _ => AcceptAnswer::Closed,
    }
}

/// Counts the reads and writes of a scripted listener's first connection that move bytes.
fn first_moves(calls: ScriptedCalls, reads: usize, writes: usize) -> (usize, usize) {
    let mut door = TcpDoor::new(calls);
    match door.open("here") {
        OpenAnswer::Opened => moves_of(&mut door, reads, writes),
        _ => (0, 0),
    }
}

/// Tests that interrupted reads and writes of a connection are made again, as long as the clock lets them.
pub fn interrupted_calls_of_a_connection_are_made_again() -> bool {
    let reading = ScriptedCalls::new([
        GIVES,
        GIVES,
        INTERRUPTED,
        INTERRUPTED,
        GIVES,
        INTERRUPTED,
        GIVES,
        GIVES,
    ]);
    // (the clock ends a connection that is interrupted for ever)
    let forever = ScriptedCalls::new([
        GIVES,
        GIVES,
        GIVES,
        INTERRUPTED,
        INTERRUPTED,
        INTERRUPTED,
        INTERRUPTED,
        INTERRUPTED,
    ]);
    first_moves(reading, 2, 1) == (2, 1) && first_moves(forever.with_step(1_000), 2, 0) == (1, 0)
}

/// Tests that a connection has a budget of time.
pub fn a_connection_has_a_budget_of_time() -> bool {
    let giving = ScriptedCalls::new([GIVES; 8]);
    // (a head that comes by a read each four seconds has four of them, and a reply of less than a MiB three writes)
    first_moves(giving, 9, 9) == (9, 9)
        && first_moves(giving.with_step(4_000), 9, 0) == (4, 0)
        && first_moves(giving.with_step(4_000), 1, 9) == (1, 3)
        && first_moves(giving.with_step(11_000), 1, 1) == (1, 1)
}

/// Tests that the second connection of a listener has a budget of its own, whatever the first one left.
pub fn each_connection_has_a_budget_of_its_own() -> bool {
    let mut door = TcpDoor::new(ScriptedCalls::new([GIVES; 8]).with_step(4_000));
    match door.open("here") {
        OpenAnswer::Opened => {}
        _ => return false,
    }
    // (the first head is late with its fifth read; the clock is far beyond its end as the second begins)
    let first = moves_of(&mut door, 9, 0);
    let second = moves_of(&mut door, 9, 0);
    first == (4, 0) && second == (9, 0)
}

/// Returns whether an accept that fails once by the error is made again.
fn is_accepted_after(number: i32) -> bool {
    let again = script(GIVES, ScriptedAnswer::FailsBy(number), GIVES);
    matches!(first_accept(again), AcceptAnswer::Accepted)
}

/// Tests that an accept waits while the system has no file descriptor left, or forbids the connection, and not for ever.
pub fn an_accept_waits_for_what_the_system_lacks() -> bool {
    let lack = ScriptedAnswer::FailsBy(24);
    let for_ever = ScriptedCalls::new([GIVES, lack, lack, lack, lack, lack, lack, lack]);
    is_accepted_after(1)
        && is_accepted_after(12)
        && is_accepted_after(23)
        && is_accepted_after(24)
        && is_accepted_after(105)
        && matches!(first_accept(for_ever), AcceptAnswer::Failed)
}

/// Tests that an accept that fails by the network is made again: ENONET, EPROTO, ENOPROTOOPT, EOPNOTSUPP, ENETDOWN, ENETUNREACH,
/// ECONNABORTED, EHOSTDOWN and EHOSTUNREACH. Any other error ends it, such as EBADF.
pub fn an_accept_goes_on_after_errors_of_the_network() -> bool {
    let mut goes_on = true;
    for number in [64, 71, 92, 95, 100, 101, 103, 112, 113] {
        goes_on = is_accepted_after(number) && goes_on;
    }
    goes_on && !is_accepted_after(9)
}

/// Tests that the first of two errors is kept, and the name of the last open.
pub fn the_first_error_and_the_last_name_are_kept(alloc: Global) -> bool {
    let calls = script(INTERRUPTED, OUT_OF_MEMORY, OUT_OF_MEMORY);
    let mut source = StdinSource::new(calls);
    let mut sink = StdoutSink::new(calls);
    let mut files = HostFiles::new(alloc, calls);
    let mut block = [0; 16];
    for name in ["one", "two"] {
        source.read(&mut block);
        sink.write(b"ten");
        files.open(name);
    }
    let is_named = files
        .last_name()
        .is_some_and(|name| name.as_bytes() == b"two".as_slice());
    is_named
        && is_interrupted(source.first_error())
        && is_interrupted(sink.first_error())
        && is_interrupted(files.first_error())
}

/// Returns whether the error is that of an interrupted call.
fn is_interrupted(error: Option<Error>) -> bool {
    error.is_some_and(|error| error.kind() == ErrorKind::Interrupted)
}

/// Tests the answers of a listener: an interrupted accept, a failed one, and an open without memory.
pub fn a_scripted_door_answers_by_its_script() -> bool {
    let again = script(GIVES, INTERRUPTED, GIVES);
    let failing = script(GIVES, OUT_OF_MEMORY, GIVES);
    let closed = script(OUT_OF_MEMORY, GIVES, GIVES);
    matches!(first_accept(again), AcceptAnswer::Accepted)
        && matches!(first_accept(failing), AcceptAnswer::Failed)
        && matches!(TcpDoor::new(closed).open("here"), OpenAnswer::Memory)
}

/// Tests that what contracts alone know of moved bytes and names takes no bytes.
pub fn records_take_no_bytes() -> bool {
    size_of::<History>() == 0 && size_of::<Names>() == 0
}
